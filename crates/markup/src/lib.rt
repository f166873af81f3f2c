// White space, names, references, comments and gaps, byte by byte. The text ends where the characters do (utf::first_bad); `bad` says
// that a bad character cuts it there, and not the file's end.
#![tactic(auto)]

ghost use Rattle.std.specs.Prelude.{◌≡◌, true, cond, [], ◌∷◌, ◌+◌, ◌-◌, ◌≤◌, ◌<◌, leb, eqb, length, drop};
ghost use Rattle.markup.specs.rule.Bytes.{is_white, is_digit, is_hex, starts_name, is_name, of_kind, run_of, stands, end_fault};
ghost use Rattle.markup.specs.rule.Reference.{digit_of, push_of, held_below, reference_figure, closed_reference, named_character};
ghost use Rattle.markup.specs.rule.Reference.{numbered_of, reference_of};
ghost use Rattle.markup.specs.rule.Reference.{digit_kind};
ghost use Rattle.markup.specs.rule.Gap.{xml_comment, gap_of};
ghost use Rattle.markup.specs.White.{Whites, Passed};

pub fn is_white(b: u8) -> bool
    ensures { result ≡ is_white b }
{
    (b == 32) | ((b == 10) | ((b == 13) | (b == 9)))
}

pub fn is_digit(b: u8) -> bool
    ensures { result ≡ is_digit b }
{
    (48 <= b) & (b <= 57)
}

fn is_hex(b: u8) -> bool
    ensures { result ≡ is_hex b }
{
    is_digit(b) | (((97 <= b) & (b <= 102)) | ((65 <= b) & (b <= 70)))
}

pub fn starts_name(b: u8) -> bool
    ensures { result ≡ starts_name b }
{
    ((97 <= b) & (b <= 122)) | (((65 <= b) & (b <= 90)) | ((b == 95) | ((b == 58) | (128 <= b))))
}

pub fn is_name(b: u8) -> bool
    ensures { result ≡ is_name b }
{
    // most are such letters
    if (97 <= b) & (b <= 122) {
        return true;
    }
    starts_name(b) | (is_digit(b) | ((b == 45) | (b == 46)))
}

// A byte of one of the kinds: 0 white space, 1 names, 2 digits, 3 hex digits.
fn of_kind(kind: usize, b: u8) -> bool
    ensures { result ≡ of_kind kind b }
{
    if kind == 0 {
        return is_white(b);
    }
    if kind == 1 {
        return is_name(b);
    }
    if kind == 2 {
        return is_digit(b);
    }
    is_hex(b)
}

// The longest run of bytes of a kind: the place after it.
pub fn run(kind: usize, d: &[u8], at: usize) -> usize
    requires { at ≤ length d.now }
    ensures { (result ≡ run_of (of_kind kind) at (drop at d.now)) × (result ≤ length d.now) }
{
    for i in at..d.len() {
        if !of_kind(kind, d[i]) {
            return i;
        }
    }
    d.len()
}

// Whether the bytes w stand at a place.
pub fn is_there(d: &[u8], at: usize, w: &[u8]) -> bool
    requires { at ≤ length d.now }
    ensures { result ≡ stands w.now (drop at d.now) }
{
    if d.len() - at < w.len() {
        return false;
    }
    for (i, b) in w.iter().enumerate() {
        if d[at + i] != *b {
            return false;
        }
    }
    true
}

// Whether four bytes stand at a place: the compiler compares them as one number.
fn are_four(d: &[u8], at: usize, a: u8, b: u8, c: u8, e: u8) -> bool
    requires { at + 4 ≤ length d.now }
    ensures { result ≡ stands (a ∷ b ∷ c ∷ e ∷ []) (drop at d.now) }
{
    (d[at] == a) & ((d[at + 1] == b) & ((d[at + 2] == c) & (d[at + 3] == e)))
}

// Where the text ends too early.
pub fn end_fault(bad: bool, q: usize, opened: usize) -> usize
    ensures { result ≡ end_fault bad q opened }
{
    if bad { q } else { opened }
}

// What a run of digits says, at most CAP, and the place after it.
#[derive(Clone, Copy)]
pub struct Figure {
    pub value: u64,
    pub next: usize,
}

pub const CAP: u64 = 2_000_000;

fn digit_of(b: u8) -> u64
    ensures { (result ≡ digit_of b) × (result ≤ 255) }
{
    let x = b as u64;
    if x < 48 {
        return 0;
    }
    if x < 58 {
        return x - 48;
    }
    if x < 97 { x - 55 } else { x - 87 }
}

fn push(hex: bool, v: u64, b: u8) -> u64
    requires { v ≤ 2000000 }
    ensures { (result ≡ push_of hex v b) × (result ≤ 32000255) }
{
    let x = digit_of(b);
    if hex { v * 16 + x } else { v * 10 + x }
}

fn hold(v: u64) -> u64
    ensures { (result ≡ held_below v) × (result ≤ 2000000) }
{
    if CAP < v { CAP } else { v }
}

fn digit_kind(hex: bool) -> usize
    ensures { result ≡ digit_kind hex }
{
    if hex { 3 } else { 2 }
}

pub fn number(hex: bool, d: &[u8], at: usize) -> Figure
    requires { at ≤ length d.now }
    ensures { (result ≡ reference_figure hex 0 at (drop at d.now)) × (result.next ≤ length d.now) }
{
    let kind = digit_kind(hex);
    let mut v = 0;
    for i in at..d.len() {
        let b = d[i];
        if !of_kind(kind, b) {
            return Figure { value: v, next: i };
        }
        v = hold(push(hex, v, b));
    }
    Figure {
        value: v,
        next: d.len(),
    }
}

// ---- references: the character that one says, with the place after it; none where it is bad: 50 at its &
fn closed(d: &[u8], n: usize, code: u64) -> Option<(u64, usize)>
    requires { n ≤ length d.now }
    ensures { result ≡ closed_reference n code (drop n d.now) }
{
    if d.len() <= n {
        return None;
    }
    if d[n] == 59 {
        if utf::is_legal(code) {
            return Some((code, n + 1));
        }
        return None;
    }
    None
}

// The character whose name begins with a, or 0.
fn with_a(d: &[u8], at: usize) -> u64
    requires { at ≤ length d.now }
    ensures { result ≡ cond (stands (97 ∷ 109 ∷ 112 ∷ 59 ∷ []) (drop at d.now)) 38
        (cond (stands (97 ∷ 112 ∷ 111 ∷ 115 ∷ 59 ∷ []) (drop at d.now)) 39 0) }
{
    if is_there(d, at, b"amp;") {
        return 38;
    }
    if is_there(d, at, b"apos;") { 39 } else { 0 }
}

// The character whose name stands at a place with its semicolon; 0 where none of the five does. The first byte tells which it may be.
fn named(d: &[u8], at: usize) -> u64
    requires { at ≤ length d.now }
    ensures { result ≡ named_character (drop at d.now) }
{
    if d.len() <= at {
        return 0;
    }
    let b = d[at];
    if b == 97 {
        return with_a(d, at);
    }
    if b == 108 {
        return if_there(d, at, b"lt;", 60);
    }
    if b == 103 {
        return if_there(d, at, b"gt;", 62);
    }
    if b == 113 {
        return if_there(d, at, b"quot;", 34);
    }
    0
}

fn if_there(d: &[u8], at: usize, w: &[u8], code: u64) -> u64
    requires { at ≤ length d.now }
    ensures { result ≡ cond (stands w.now (drop at d.now)) code 0 }
{
    if is_there(d, at, w) { code } else { 0 }
}

// How long the name of such a character is, with its semicolon.
fn name_long(code: u64) -> usize
    ensures { result ≡ cond (leb 60 code) 3 (cond (eqb code 38) 4 5) }
{
    if 60 <= code {
        return 3;
    }
    if code == 38 { 4 } else { 5 }
}

fn numbered(hex: bool, d: &[u8], n: usize) -> Option<(u64, usize)>
    requires { n ≤ length d.now }
    ensures { result ≡ numbered_of hex n (drop n d.now) }
{
    let f = number(hex, d, n);
    closed(d, f.next, f.value)
}

// The reference whose & stands at a place.
pub fn reference(d: &[u8], at: usize) -> Option<(u64, usize)>
    requires { at < length d.now }
    ensures { result ≡ reference_of at (drop (at + 1) d.now) }
{
    let from = at + 1;
    if is_there(d, from, b"#x") {
        return numbered(true, d, at + 3);
    }
    if is_there(d, from, b"#") {
        return numbered(false, d, at + 2);
    }
    // a name that is none of the five says no character, whatever ends it
    let code = named(d, from);
    if code == 0 {
        return None;
    }
    let next = from + name_long(code);
    Some((code, next))
}

// The place after what was skipped; or the place that is faulted with 50.
#[derive(Clone, Copy)]
pub enum Skip {
    Past(usize),
    Broken(usize),
}

// A comment whose <!-- stands at `opened`, from a place behind that on.
pub fn comment(bad: bool, d: &[u8], opened: usize, at: usize) -> Skip
    requires { at ≤ length d.now }
    ensures { result ≡ xml_comment bad opened at (drop at d.now) }
{
    for i in at..d.len() {
        if two_dashes(d, i) {
            if dashes_close(d, i) {
                return Skip::Past(i + 3);
            }
            return Skip::Broken(i);
        }
    }
    Skip::Broken(end_fault(bad, d.len(), opened))
}

fn two_dashes(d: &[u8], at: usize) -> bool
    requires { at < length d.now }
    ensures { result ≡ stands (45 ∷ 45 ∷ []) (drop at d.now) }
{
    // most bytes are none
    if d[at] != 45 {
        return false;
    }
    is_there(d, at, b"--")
}

fn dashes_close(d: &[u8], at: usize) -> bool
    requires { at ≤ length d.now }
    ensures { result ≡ stands (45 ∷ 45 ∷ 62 ∷ []) (drop at d.now) }
{
    is_there(d, at, b"-->")
}

// One step of a value or a gap.
#[derive(Clone, Copy)]
pub enum Move {
    Go(usize),
    Stop(Skip),
}

// Whether a comment opens at a place.
fn is_note(d: &[u8], at: usize) -> bool
    requires { at ≤ length d.now }
    ensures { result ≡ stands (60 ∷ 33 ∷ 45 ∷ 45 ∷ []) (drop at d.now) }
{
    if d.len() - at < 4 {
        return false;
    }
    are_four(d, at, 60, 33, 45, 45)
}

fn four_spaces(d: &[u8], at: usize) -> bool
    requires { at + 4 ≤ length d.now }
    ensures { result ≡ true → Whites d.now at (at + 4) }
{
    are_four(d, at, 32, 32, 32, 32)
}

// Up to sixteen spaces, by fours.
fn pass_sixteen(d: &[u8], i: usize) -> usize
    requires { i + 16 ≤ length d.now }
    ensures { Whites d.now i result }
{
    if !four_spaces(d, i) {
        return i;
    }
    if !four_spaces(d, i + 4) {
        return i + 4;
    }
    if !four_spaces(d, i + 8) {
        return i + 8;
    }
    if four_spaces(d, i + 12) {
        i + 16
    } else {
        i + 12
    }
}

// Most of the white space between two tags: a line's end and the spaces behind it.
fn pass_line(d: &[u8], at: usize) -> usize
    requires { at ≤ length d.now }
    ensures { Whites d.now at result }
{
    if d.len() - at < 18 {
        return at;
    }
    if d[at] == 10 {
        return pass_sixteen(d, at + 1);
    }
    if (d[at] == 13) & (d[at + 1] == 10) {
        return pass_sixteen(d, at + 2);
    }
    at
}

// The place after white space, as `run` has it: most of it at once.
fn pass_white(d: &[u8], at: usize) -> usize
    requires { at ≤ length d.now }
    ensures { Passed d.now at result }
{
    if d.len() <= at {
        return at;
    }
    // a mark behind a mark
    if d[at] == 60 {
        return at;
    }
    for i in pass_line(d, at)..d.len() {
        if !is_white(d[i]) {
            return i;
        }
    }
    d.len()
}

// White space and comments from a place on.
pub fn gap(bad: bool, d: &[u8], at: usize) -> Skip
    requires { at ≤ length d.now }
    ensures { result ≡ gap_of bad d.now at }
{
    let mut n = at;
    loop {
        let i = pass_white(d, n);
        if !is_note(d, i) {
            return Skip::Past(i);
        }
        match comment(bad, d, i, i + 4) {
            Skip::Past(m) => {
                n = m;
            }
            Skip::Broken(p) => {
                return Skip::Broken(p);
            }
        }
    }
}
