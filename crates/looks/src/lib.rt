// What stands in a definition just as it is to be written, found at a look: a word, a number or a string with the literals around it. Where
// something else stands nothing is said. Above it stand the clean lines.
#![tactic(auto)]

ghost use Rattle.std.specs.Prelude.{◌≡◌, true, ◌+◌, ◌≤◌, ◌<◌, length, get_or};
ghost use Rattle.ascii.specs.Class.{Classes};
ghost use Rattle.scan.specs.rule.Text.{text};
ghost use Rattle.scan.specs.rule.Number.{is_value, run_of};
ghost use Rattle.steps.specs.Step.{span};
ghost use Rattle.looks.specs.Plain.{Plain};
ghost use Rattle.looks.specs.Stand.{Stands};
ghost use Rattle.looks.specs.Each.{Each, On, OnByte, ValueAt};
ghost use Rattle.looks.specs.Figures.{Led, Parted, LineOver, Paired};
ghost use Rattle.looks.specs.Look.{Shown, Quoted, Special, opens, NumberLine, PhraseLine, Opened, ValueLine, SpecialLine};

use steps::Span;
use tokens::Lead;

// ---- stretches and literals
// Whether no byte of a stretch is dropped: then its kept bytes are all of them, as they stand.
pub fn plain(d: &[u8], from: usize, end: usize) -> bool
    ensures { result ≡ true → Plain d.now from end }
{
    if end < from {
        return false;
    }
    if d.len() < end {
        return false;
    }
    lows::all_plain(&d[from..end])
}

// Whether bytes stand just as they are given, from a place on. Nothing leaves the loop early: so the compiler compares bytes that it
// knows all at once.
fn same_at(d: &[u8], at: usize, w: &[u8]) -> bool
    requires { at + length w.now ≤ length d.now }
    ensures { result ≡ true → Stands d.now at w.now (at + length w.now) }
{
    let mut same = true;
    for (i, x) in w.iter().enumerate() {
        same = same & (d[at + i] == *x);
    }
    same
}

// How many bytes there are from a place on: one number, and so one test for the compiler.
fn left_from(d: &[u8], at: usize) -> usize
    ensures { 0 < result → at + result ≡ length d.now }
{
    if at < d.len() { d.len() - at } else { 0 }
}

// Where bytes end that stand just as they are given, from a place on; 0 if they don't.
pub fn stands_to(d: &[u8], at: usize, w: &[u8]) -> usize
    ensures { 0 < result → Stands d.now at w.now result }
{
    if w.len() == 0 {
        return 0;
    }
    if left_from(d, at) < w.len() {
        return 0;
    }
    if same_at(d, at, w) {
        return at + w.len();
    }
    0
}

// ---- texts
// Whether a text goes on at a byte: it is kept, and neither a quote nor an opening brace. Most are above the quote.
fn goes_on(b: u8) -> bool
    ensures { result ≡ true → OnByte b }
{
    if 34 < b {
        return b != 123;
    }
    if b == 34 {
        return false;
    }
    32 <= b
}

// Whether it does at each of eight. Nothing leaves the loop early: so the compiler looks at all of them at once.
fn eight_on(d: &[u8], i: usize) -> bool
    requires { i + 8 ≤ length d.now }
    ensures { result ≡ true → Each (On d.now) i (i + 8) }
{
    let mut on = true;
    for k in 0..8 {
        let b = d[i + k];
        on = on & ((b != 34) & ((b != 123) & (32 <= b)));
    }
    on
}

// A text by eights.
fn text_far(d: &[u8], from: usize) -> usize
    ensures { Each (On d.now) from result }
{
    if d.len() < 8 {
        return from;
    }
    let last = d.len() - 8;
    let mut i = from;
    // A hand-counted loop: the place where the eights stop is the answer.
    while i <= last {
        if eight_on(d, i) {
            i += 8;
        } else {
            return i;
        }
    }
    i
}

// The place where a text does not go on, or that behind eight: so few turns the compiler writes out.
fn text_near(d: &[u8], i: usize) -> usize
    requires { i + 8 ≤ length d.now }
    ensures { Each (On d.now) i result }
{
    for j in i..i + 8 {
        if !goes_on(d[j]) {
            return j;
        }
    }
    i + 8
}

// The same among the last bytes of the file.
fn text_last(d: &[u8], from: usize) -> usize
    ensures { Each (On d.now) from result }
{
    for i in from..d.len() {
        if !goes_on(d[i]) {
            return i;
        }
    }
    from.max(d.len())
}

// The place where a text does not go on.
fn text_to(d: &[u8], from: usize) -> usize
    ensures { Each (On d.now) from result }
{
    let i = text_far(d, from);
    if d.len() < 8 {
        return text_last(d, i);
    }
    if d.len() - 8 < i {
        return text_last(d, i);
    }
    text_near(d, i)
}

// The place behind a quote or an opening brace in braces; 0 if none stands here.
fn form_end(d: &[u8], n: usize) -> usize
    ensures { 0 < result → (n < result) × (result ≤ length d.now) × Shown d.now n result }
{
    if d.len() <= n {
        return 0;
    }
    if d[n] != 123 {
        return 0;
    }
    let q = stands_to(d, n, b"{\"}");
    if 0 < q {
        return q;
    }
    stands_to(d, n, b"{{}")
}

// The place where a text does not go on, these forms passed.
fn text_end(d: &[u8], from: usize) -> usize
    ensures { Shown d.now from result }
{
    let mut n = from;
    loop {
        let q = text_to(d, n);
        let m = form_end(d, q);
        if m == 0 {
            return q;
        }
        n = m;
    }
}

// Where a string ends, and its line, that stands behind one space; else 0.
fn quoted_end(d: &[u8], a: usize) -> usize
    ensures { 0 < result → Quoted d.now a result }
{
    let b = stands_to(d, a, b" \"");
    if b == 0 {
        return 0;
    }
    let q = text_end(d, b);
    stands_to(d, q, b"\"\r\n")
}

// The same for a string with SPECIAL behind it.
fn special_end(d: &[u8], a: usize) -> usize
    ensures { 0 < result → Special d.now a result }
{
    let b = stands_to(d, a, b" \"");
    if b == 0 {
        return 0;
    }
    let q = text_end(d, b);
    stands_to(d, q, b"\" SPECIAL\r\n")
}

// ---- numbers
// The digits from a place on, up to another byte or to the fifteenth, and what they say. tokens has this as a part of its readers alone.
fn figures_at(d: &[u8], at: usize) -> Lead
    ensures { Led d.now at result.end result.size }
{
    let mut v: u64 = 0;
    for i in at..d.len() {
        let b = d[i];
        if b < 48 {
            return Lead { size: v, end: i };
        }
        if 57 < b {
            return Lead { size: v, end: i };
        }
        if 99_999_999_999_999 < v {
            return Lead { size: v, end: i };
        }
        v = v * 10 + ((b as u64) - 48);
    }
    Lead {
        size: v,
        end: at.max(d.len()),
    }
}

// Whether a kept byte stands at a place that is of no number: a space, or one above the digits.
fn parts_at(d: &[u8], at: usize) -> bool
    ensures { result ≡ true → Parted d.now at }
{
    if d.len() <= at {
        return false;
    }
    let b = d[at];
    if b == 32 {
        return true;
    }
    57 < b
}

// Where a line ends behind a number, which does not go on in the next line; else 0.
fn line_end(d: &[u8], at: usize) -> usize
    ensures { 0 < result → LineOver d.now at result }
{
    let e = stands_to(d, at, b"\r\n");
    if parts_at(d, e) {
        return e;
    }
    0
}

// ---- lines
// A word and a number: where its line ends, if it stands so; else 0.
pub fn number_line(d: &[u8], g: usize, w: &[u8]) -> usize
    requires { opens w.now ≡ true }
    ensures { 0 < result → NumberLine d.now g w.now result }
{
    let a = stands_to(d, g, w);
    if a == 0 {
        return 0;
    }
    let b = stands_to(d, a, b" ");
    if b == 0 {
        return 0;
    }
    let q = figures_at(d, b);
    if q.end == b {
        return 0;
    }
    line_end(d, q.end)
}

// Two numbers of a line, and where it ends; 0 if it does not stand so.
#[derive(Clone, Copy)]
pub struct Pair {
    pub first: Span,
    pub second: Span,
    pub end: usize,
}

// Digits as a stretch of the definition.
fn figures(from: usize, q: Lead) -> Span
    ensures { result ≡ span from q.end q.end q.size }
{
    Span {
        from,
        end: q.end,
        next: q.end,
        size: q.size,
    }
}

fn no_pair() -> Pair
    ensures { result.end ≡ 0 }
{
    let none = Span {
        from: 0,
        end: 0,
        next: 0,
        size: 0,
    };
    Pair {
        first: none,
        second: none,
        end: 0,
    }
}

// A line of a literal, a number, another literal, which begins with a space, and a number.
pub fn pair_line(d: &[u8], g: usize, w: &[u8], u: &[u8]) -> Pair
    requires { (0 < length u.now) × (get_or u.now 0 0 ≡ 32) }
    ensures { 0 < result.end → Paired d.now g w.now u.now result }
{
    let b = stands_to(d, g, w);
    if b == 0 {
        return no_pair();
    }
    let q = figures_at(d, b);
    if q.end == b {
        return no_pair();
    }
    let c = stands_to(d, q.end, u);
    if c == 0 {
        return no_pair();
    }
    let r = figures_at(d, c);
    if r.end == c {
        return no_pair();
    }
    let end = line_end(d, r.end);
    let first = figures(b, q);
    let second = figures(c, r);
    Pair { first, second, end }
}

// A word and a string.
pub fn phrase_line(d: &[u8], g: usize, w: &[u8]) -> usize
    requires { opens w.now ≡ true }
    ensures { 0 < result → PhraseLine d.now g w.now result }
{
    let a = stands_to(d, g, w);
    if a == 0 {
        return 0;
    }
    quoted_end(d, a)
}

// The bytes of a value from a place on.
fn value_to(classes: &[u8; 256], d: &[u8], from: usize) -> usize
    requires { Classes classes.now }
    ensures { Each (ValueAt d.now) from result }
{
    for i in from..d.len() {
        if !scan::of_value(classes, d[i]) {
            return i;
        }
    }
    from.max(d.len())
}

// Where a value ends, behind which a string opens; else 0.
pub fn value_opened(classes: &[u8; 256], d: &[u8], n: usize) -> usize
    requires { Classes classes.now }
    ensures { 0 < result → Opened d.now n result }
{
    let v = value_to(classes, d, n);
    if v == n {
        return 0;
    }
    let s = stands_to(d, v, b" \"");
    if s == 0 {
        return 0;
    }
    v
}

// A value and a string.
pub fn value_line(classes: &[u8; 256], d: &[u8], n: usize) -> usize
    requires { Classes classes.now }
    ensures { 0 < result → ValueLine d.now n result }
{
    let v = value_to(classes, d, n);
    if v == n {
        return 0;
    }
    quoted_end(d, v)
}

// The same with SPECIAL behind it.
pub fn special_line(classes: &[u8; 256], d: &[u8], n: usize) -> usize
    requires { Classes classes.now }
    ensures { 0 < result → SpecialLine d.now n result }
{
    let v = value_to(classes, d, n);
    if v == n {
        return 0;
    }
    special_end(d, v)
}
