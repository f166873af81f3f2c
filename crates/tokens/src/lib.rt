// The tokens of a definition, each with the spaces and comments before it: words, numbers, values, strings, a letter. A refusal
// passes through every reader, so that a statement is a row of calls. Above it stand the statements.
#![tactic(auto)]

ghost use Rattle.std.specs.Prelude.{◌≡◌, true, false, ◌+◌, ◌-◌, ◌≤◌, ◌<◌, length, get_or};
ghost use Rattle.ascii.specs.Class.{Classes};
ghost use Rattle.scan.specs.rule.Text.{text};
ghost use Rattle.scan.specs.Number.{digits_from};
ghost use Rattle.scan.specs.rule.Number.{is_value};
ghost use Rattle.tokens.specs.rule.Gap.{gap_step, gap_at};
ghost use Rattle.tokens.specs.Gap.{gap_on, spaces_on};
ghost use Rattle.tokens.specs.Gap.{pace_of};
ghost use Rattle.tokens.specs.Over.{over_of};
ghost use Rattle.tokens.specs.Spaces.{OverSpaces, bytes_clear};
ghost use Rattle.tokens.specs.Token.{word_here, word_on, choice_of, number_here, number_on, past_number, mark_of, value_at, value_here};
ghost use Rattle.tokens.specs.Token.{value_on, past_value, string_in, closed_at, string_on, past_string, letter_in, letter_on};

use marks::Skip;
use scan::{Step, Word};

// A refusal: its number, and the place of the token at fault.
#[derive(Clone, Copy)]
pub struct Fault {
    pub number: usize,
    pub place: usize,
}

// What a reader read, as where reading stands, or the refusal that ended it.
pub type OrFault<T> = Result<T, Fault>;

// What stands at a place of a gap: a space or a comment, and the place after it; or the gap is over.
#[derive(Clone, Copy)]
pub enum Pace {
    On(usize),
    Over(OrFault<usize>),
}

fn step_gap(classes: &[u8; 256], d: &[u8], at: usize) -> Pace
    requires { Classes classes.now }
    ensures { result ≡ pace_of (gap_step (text d.now at)) }
{
    match scan::next_byte(classes, d, at) {
        Step::Byte { byte, place, next } => {
            if ascii::class_of(classes, byte) == ascii::SPACE {
                return Pace::On(next);
            }
            if byte != 60 {
                return Pace::Over(Ok(place));
            }
            match marks::comment(classes, d, next, 1) {
                Skip::Past(m) => Pace::On(m),
                Skip::Unclosed => Pace::Over(Err(Fault { number: 3, place })),
                Skip::Bad(p) => Pace::Over(Err(Fault {
                    number: 3,
                    place: p,
                })),
            }
        }
        Step::End { place } => Pace::Over(Ok(place)),
    }
}

// What eight spaces say as one number, the first the lowest; and what is left of 2 ^ 64 above it.
const SPACES: u64 = 2314885530818453536;

const ABOVE_SPACES: u64 = 16131858542891098080;

// What a number of eight bytes has above eight spaces, in a circle of 2 ^ 64: one sum for the compiler.
fn over_spaces(v: u64) -> u64
    ensures { OverSpaces v result }
{
    if SPACES <= v {
        v - SPACES
    } else {
        v + ABOVE_SPACES
    }
}

// The same of the eight bytes from a place on: as many of them are spaces as its lowest bits say that are 0, and all of them where it is 0.
fn over_at(d: &[u8], i: usize) -> u64
    requires { i + 8 ≤ length d.now }
    ensures { gap_at d.now i ≡ gap_at d.now (i + bytes_clear result) }
{
    over_spaces(little::get_u64(d, i))
}

// How many of a number's lowest bytes are 0.
fn bytes_clear(x: u64) -> usize
    ensures { (result ≡ bytes_clear x) × (result ≤ 8) }
{
    (u64::trailing_zeros(x) / 8) as usize
}

// Many spaces, by eights.
fn pass_far(d: &[u8], at: usize) -> usize
    ensures { (gap_at d.now at ≡ gap_at d.now result) × (at ≤ result) }
{
    if d.len() < 8 {
        return at;
    }
    let last = d.len() - 8;
    let mut i = at;
    // A hand-counted loop: the place where the eights stop is the answer.
    while i <= last {
        let x = over_at(d, i);
        if x != 0 {
            return i + bytes_clear(x);
        }
        i += 8;
    }
    i
}

// The spaces before a line's first token.
fn pass_indent(d: &[u8], at: usize) -> usize
    requires { at + 16 ≤ length d.now }
    ensures { (gap_at d.now at ≡ gap_at d.now result) × (at ≤ result) }
{
    let x = over_at(d, at);
    if x != 0 {
        return at + bytes_clear(x);
    }
    let y = over_at(d, at + 8);
    if y != 0 {
        return at + 8 + bytes_clear(y);
    }
    pass_far(d, at + 16)
}

// One by one.
fn pass_on(d: &[u8], at: usize) -> usize
    ensures { (gap_at d.now at ≡ gap_at d.now result) × (at ≤ result)
        × (result < length d.now → 32 < get_or d.now result 0) }
{
    for i in at..d.len() {
        if 32 < d[i] {
            return i;
        }
    }
    at.max(d.len())
}

// Most of a gap: the dropped bytes and spaces from a place on, which are those of 32 and below, in a loop of their own. Numbers alone go in
// and out, so that it is a cheap call. Few tests find nothing, one space, or a line's end with the spaces behind it.
pub fn pass_blanks(d: &[u8], at: usize) -> usize
    ensures { (gap_at d.now at ≡ gap_at d.now result) × (at ≤ result)
        × (result < length d.now → 32 < get_or d.now result 0) }
{
    if d.len() <= at {
        return at;
    }
    if 32 < d[at] {
        return at;
    }
    if d.len() - at < 18 {
        return pass_on(d, at + 1);
    }
    if 32 < d[at + 1] {
        return at + 1;
    }
    let i = pass_indent(d, at + 2);
    pass_on(d, i)
}

// Whether a token stands just here.
fn token_at(d: &[u8], n: usize) -> bool
    ensures { result ≡ true → gap_at d.now n ≡ Ok n }
{
    if d.len() <= n {
        return false;
    }
    let b = d[n];
    if b <= 32 {
        return false;
    }
    b != 60
}

// The spaces and comments from a place on: the place of the token behind them.
pub fn skip_gap(classes: &[u8; 256], d: &[u8], at: usize) -> OrFault<usize>
    requires { Classes classes.now }
    ensures { result ≡ gap_at d.now at }
{
    let mut n = at;
    loop {
        let place = pass_blanks(d, n);
        if token_at(d, place) {
            return Ok(place);
        }
        match step_gap(classes, d, place) {
            Pace::On(m) => {
                n = m;
            }
            Pace::Over(r) => {
                return r;
            }
        }
    }
}

// Most gaps have no comment: what has one is a call of its own.
pub fn gap_on(classes: &[u8; 256], d: &[u8], t: OrFault<usize>) -> OrFault<usize>
    requires { Classes classes.now }
    ensures { result ≡ gap_on d.now t }
{
    match t {
        Ok(n) => {
            let m = pass_blanks(d, n);
            if m < d.len() {
                if d[m] != 60 {
                    return Ok(m);
                }
            }
            skip_gap(classes, d, m)
        }
        Err(f) => Err(f),
    }
}

// Spaces alone: before the end of the VERSION statement no comment stands.
pub fn spaces_on(classes: &[u8; 256], d: &[u8], t: OrFault<usize>) -> OrFault<usize>
    requires { Classes classes.now }
    ensures { result ≡ spaces_on d.now t }
{
    match t {
        Ok(n) => {
            let m = scan::spaces(classes, d, n);
            Ok(scan::place_at(classes, d, m))
        }
        Err(f) => Err(f),
    }
}

// A word that is due right here.
pub fn word_here(classes: &[u8; 256], d: &[u8], t: OrFault<usize>, w: &[u8]) -> OrFault<usize>
    requires { Classes classes.now }
    ensures { result ≡ word_here d.now t w.now }
{
    match t {
        Ok(n) => match scan::keyword(classes, d, n, w) {
            Word::Matched(m) => Ok(m),
            Word::Not => Err(Fault {
                number: 2,
                place: n,
            }),
        },
        Err(f) => Err(f),
    }
}

pub fn word_on(classes: &[u8; 256], d: &[u8], t: OrFault<usize>, w: &[u8]) -> OrFault<usize>
    requires { Classes classes.now }
    ensures { result ≡ word_on d.now t w.now }
{
    let g = gap_on(classes, d, t);
    word_here(classes, d, g, w)
}

// A word that may stand right here, and the place after it.
#[derive(Clone, Copy)]
pub enum Choice {
    Taken(usize),
    Left,
}

pub fn perhaps(classes: &[u8; 256], d: &[u8], t: OrFault<usize>, w: &[u8]) -> Choice
    requires { Classes classes.now }
    ensures { result ≡ choice_of d.now t w.now }
{
    match t {
        Ok(n) => match scan::keyword(classes, d, n, w) {
            Word::Matched(m) => Choice::Taken(m),
            Word::Not => Choice::Left,
        },
        Err(_) => Choice::Left,
    }
}

// Digits that stand side by side: what they say, and the place after them.
#[derive(Clone, Copy)]
pub struct Lead {
    pub size: u64,
    pub end: usize,
}

// The digits from a place on, up to another byte, a dropped one too, or to the fifteenth.
fn lead_at(d: &[u8], at: usize) -> Lead
    ensures at_value { digits_from 0 0 at (text d.now at)
        ≡ digits_from result.size (result.end - at) result.end (text d.now result.end) }
    ensures at_le_end { (at ≤ result.end) × (result.size ≤ 1000000000000000) }
{
    let mut v: u64 = 0;
    for i in at..d.len() {
        let b = d[i];
        if b < 48 {
            return Lead { size: v, end: i };
        }
        if 57 < b {
            return Lead { size: v, end: i };
        }
        if 99_999_999_999_999 < v {
            return Lead { size: v, end: i };
        }
        v = v * 10 + ((b as u64) - 48);
    }
    Lead {
        size: v,
        end: at.max(d.len()),
    }
}

// Whether a byte is a space or above the digits: such a byte is kept, and of no number or value.
fn parts(b: u8) -> bool
    ensures { result ≡ true → (32 ≤ b) × (is_value b ≡ false) }
{
    if b == 32 {
        return true;
    }
    57 < b
}

// Whether it is clear at a look that a value that reaches to a place ends there.
fn over_here(d: &[u8], at: usize) -> bool
    ensures { result ≡ true → over_of (text d.now at) ≡ true }
{
    if d.len() <= at {
        return false;
    }
    parts(d[at])
}

// The same for a number, which often ends its line: the one or two dropped bytes that end a line are passed.
fn over_soon(d: &[u8], at: usize) -> bool
    ensures { result ≡ true → over_of (text d.now at) ≡ true }
{
    if d.len() < 3 {
        return false;
    }
    if d.len() - 3 < at {
        return false;
    }
    let b = d[at];
    if 32 <= b {
        return parts(b);
    }
    let c = d[at + 1];
    if 32 <= c {
        return parts(c);
    }
    parts(d[at + 2])
}

// A number that was read: what it says, at most 10 ^ 15, how many digits it has, its place and the place after it.
#[derive(Clone, Copy)]
pub struct Figures {
    pub size: u64,
    pub count: usize,
    pub place: usize,
    pub next: usize,
}

// The same as number_here, whatever stands behind the digits.
fn number_apart(classes: &[u8; 256], d: &[u8], n: usize) -> OrFault<Figures>
    requires { Classes classes.now }
    ensures { result ≡ number_here d.now (Ok n) }
{
    let r = scan::read_digits(classes, d, n, 0);
    if r.count == 0 {
        return Err(Fault {
            number: 2,
            place: n,
        });
    }
    Ok(Figures {
        size: r.size,
        count: r.count,
        place: n,
        next: r.next,
    })
}

pub fn number_here(classes: &[u8; 256], d: &[u8], t: OrFault<usize>) -> OrFault<Figures>
    requires { Classes classes.now }
    ensures { result ≡ number_here d.now t }
{
    match t {
        Ok(n) => {
            let q = lead_at(d, n);
            if n < q.end {
                if over_soon(d, q.end) {
                    return Ok(Figures {
                        size: q.size,
                        count: q.end - n,
                        place: n,
                        next: q.end,
                    });
                }
            }
            number_apart(classes, d, n)
        }
        Err(f) => Err(f),
    }
}

pub fn number_on(classes: &[u8; 256], d: &[u8], t: OrFault<usize>) -> OrFault<Figures>
    requires { Classes classes.now }
    ensures { result ≡ number_on d.now t }
{
    let g = gap_on(classes, d, t);
    number_here(classes, d, g)
}

pub fn past_number(n: OrFault<Figures>) -> OrFault<usize>
    ensures { result ≡ past_number n }
{
    match n {
        Ok(f) => Ok(f.next),
        Err(f) => Err(f),
    }
}

// Whether a byte stands at a place, and the place after it or the same place.
#[derive(Clone, Copy)]
pub struct Mark {
    pub there: bool,
    pub next: usize,
}

pub fn find_mark(classes: &[u8; 256], d: &[u8], at: usize, b: u8) -> Mark
    requires { Classes classes.now }
    ensures { result ≡ mark_of at b (text d.now at) }
{
    match scan::next_byte(classes, d, at) {
        Step::Byte {
            byte,
            place: _,
            next,
        } => {
            if byte == b {
                return Mark { there: true, next };
            }
            Mark {
                there: false,
                next: at,
            }
        }
        Step::End { place: _ } => Mark {
            there: false,
            next: at,
        },
    }
}

// A value that was read: whether a minus stands in front; what its digits say, the point left out, at most 10 ^ 15; how many of
// them stand before the point and behind it; whether there is a point; whether all of it is so: a minus or none, digits, a point
// or none, digits, at least one digit in all. Then its place, the places where its digits begin and end, and the place after it.
#[derive(Clone, Copy)]
pub struct Value {
    pub minus: bool,
    pub size: u64,
    pub whole: usize,
    pub decimals: usize,
    pub point: bool,
    pub formed: bool,
    pub place: usize,
    pub first: usize,
    pub last: usize,
    pub next: usize,
}

pub fn read_value(classes: &[u8; 256], d: &[u8], at: usize) -> Value
    requires { Classes classes.now }
    ensures { result ≡ value_at d.now at }
{
    let sign = find_mark(classes, d, at, b'-');
    let whole = scan::read_digits(classes, d, sign.next, 0);
    let dot = find_mark(classes, d, whole.next, b'.');
    let rest = scan::read_digits(classes, d, dot.next, whole.size);
    let end = scan::value_run(classes, d, rest.next);
    Value {
        minus: sign.there,
        size: rest.size,
        whole: whole.count,
        decimals: rest.count,
        point: dot.there,
        formed: (end == rest.next) & ((0 < whole.count) | (0 < rest.count)),
        place: at,
        first: sign.next,
        last: rest.next,
        next: end,
    }
}

// The same as value_here, for a value of any form. The second value of a range is read by it too, for the reason that string_apart has.
fn value_apart(classes: &[u8; 256], d: &[u8], n: usize) -> OrFault<Value>
    requires { Classes classes.now }
    ensures { result ≡ value_here d.now (Ok n) }
{
    let v = read_value(classes, d, n);
    if v.next == n {
        return Err(Fault {
            number: 2,
            place: n,
        });
    }
    Ok(v)
}

pub fn value_here(classes: &[u8; 256], d: &[u8], t: OrFault<usize>) -> OrFault<Value>
    requires { Classes classes.now }
    ensures { result ≡ value_here d.now t }
{
    match t {
        Ok(n) => {
            let q = lead_at(d, n);
            if n < q.end {
                if over_here(d, q.end) {
                    return Ok(Value {
                        minus: false,
                        size: q.size,
                        whole: q.end - n,
                        decimals: 0,
                        point: false,
                        formed: true,
                        place: n,
                        first: n,
                        last: q.end,
                        next: q.end,
                    });
                }
            }
            value_apart(classes, d, n)
        }
        Err(f) => Err(f),
    }
}

pub fn value_on(classes: &[u8; 256], d: &[u8], t: OrFault<usize>) -> OrFault<Value>
    requires { Classes classes.now }
    ensures { result ≡ value_on d.now t }
{
    match gap_on(classes, d, t) {
        Ok(n) => value_apart(classes, d, n),
        Err(f) => Err(f),
    }
}

pub fn past_value(v: OrFault<Value>) -> OrFault<usize>
    ensures { result ≡ past_value v }
{
    match v {
        Ok(f) => Ok(f.next),
        Err(f) => Err(f),
    }
}

// A string that was read: the place just after its opening quote, how many bytes it has up to its closing quote, undecoded, and
// the place after that quote.
#[derive(Clone, Copy)]
pub struct Quoted {
    pub place: usize,
    pub length: usize,
    pub next: usize,
}

pub fn string_at(classes: &[u8; 256], d: &[u8], at: usize) -> OrFault<Quoted>
    requires { Classes classes.now }
    ensures { result ≡ string_in (text d.now at) }
{
    match scan::next_byte(classes, d, at) {
        Step::Byte { byte, place, next } => {
            if byte != 34 {
                return Err(Fault { number: 2, place });
            }
            match marks::string(classes, d, next) {
                Skip::Past(m) => Ok(Quoted {
                    place: next,
                    length: m - next - 1,
                    next: m,
                }),
                Skip::Unclosed => Err(Fault { number: 3, place }),
                Skip::Bad(p) => Err(Fault {
                    number: 3,
                    place: p,
                }),
            }
        }
        Step::End { place } => Err(Fault { number: 2, place }),
    }
}

// The place of the quote that closes the string from n on, where it has no brace forms but those of one sign; else the text's length.
fn closing(d: &[u8], n: usize) -> usize
    ensures { result < length d.now → (n < result) × (get_or d.now n 0 ≡ 34)
        × (string_in (text d.now n) ≡ closed_at n result) }
{
    if d.len() <= n {
        return d.len();
    }
    if d[n] != 34 {
        return d.len();
    }
    let m = marks::pass_forms(d, n + 1);
    if m < d.len() {
        if d[m] == 34 {
            return m;
        }
    }
    d.len()
}

// The same as string_on, whatever the gap and the string hold. Notes are read by it too: with one caller alone the compiler would lay it
// into string_on, which would be too large then to be laid into the readers of lines and texts.
pub fn string_apart(classes: &[u8; 256], d: &[u8], n: usize) -> OrFault<Quoted>
    requires { Classes classes.now }
    ensures { result ≡ string_on d.now (Ok n) }
{
    match gap_on(classes, d, Ok(n)) {
        Ok(m) => string_at(classes, d, m),
        Err(f) => Err(f),
    }
}

pub fn string_on(classes: &[u8; 256], d: &[u8], t: OrFault<usize>) -> OrFault<Quoted>
    requires { Classes classes.now }
    ensures { result ≡ string_on d.now t }
{
    match t {
        Ok(n) => {
            let q = pass_blanks(d, n);
            let m = closing(d, q);
            if m < d.len() {
                return Ok(Quoted {
                    place: q + 1,
                    length: m - q - 1,
                    next: m + 1,
                });
            }
            string_apart(classes, d, q)
        }
        Err(f) => Err(f),
    }
}

pub fn past_string(s: OrFault<Quoted>) -> OrFault<usize>
    ensures { result ≡ past_string s }
{
    match s {
        Ok(q) => Ok(q.next),
        Err(f) => Err(f),
    }
}

// One letter.
pub fn letter_at(classes: &[u8; 256], d: &[u8], at: usize) -> OrFault<usize>
    requires { Classes classes.now }
    ensures { result ≡ letter_in (text d.now at) }
{
    match scan::next_byte(classes, d, at) {
        Step::Byte { byte, place, next } => {
            if ascii::class_of(classes, byte) == ascii::LETTER {
                return Ok(next);
            }
            Err(Fault { number: 2, place })
        }
        Step::End { place } => Err(Fault { number: 2, place }),
    }
}

pub fn letter_on(classes: &[u8; 256], d: &[u8], t: OrFault<usize>) -> OrFault<usize>
    requires { Classes classes.now }
    ensures { result ≡ letter_on d.now t }
{
    match gap_on(classes, d, t) {
        Ok(n) => letter_at(classes, d, n),
        Err(f) => Err(f),
    }
}
