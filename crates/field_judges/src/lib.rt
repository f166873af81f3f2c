// A field judged where it stands in a text: what export writes is read in one walk, up to the comma or the CR behind it, and asked of the
// row. Nothing is cut, listed or written. It may give up, and then says nothing: the field is cut and taken then. Above it stands the
// judgement of a line.
#![tactic(auto)]

ghost use Rattle.std.specs.Prelude.{◌≡◌, true, ◌≤◌, length};
ghost use Rattle.fields.specs.Facts.{LineFacts};
ghost use Rattle.layout.specs.declared.Kind.TheVariants as kind;
ghost use Rattle.layout.specs.declared.Spread.TheVariants as spread;
ghost use Rattle.sets.specs.Full.{EachLegal};
ghost use Rattle.field_judges.specs.Judged.{StopsAt, CodesAt, JudgedAt, ends_text, TextTo};

use layout::{Format, Kind, Row, Spread};

// Whether a comma or a CR stands at a place.
pub fn stops(d: &[u8], i: usize) -> bool
    ensures { result ≡ true → StopsAt d.now i }
{
    if d.len() <= i {
        return false;
    }
    if d[i] == 44 {
        return true;
    }
    d[i] == 13
}

// The place behind codes that rise from low to high, at most so many, from a place on; that place where there are none.
fn codes_to(d: &[u8], at: usize, low: usize, high: usize, most: usize) -> usize
    requires { (at ≤ length d.now) × (1 ≤ low) }
    ensures { CodesAt d.now at low high most result }
{
    let mut least = low;
    let mut i = at;
    for _ in 0..most {
        let a = number_fields::code_from(d, i);
        let n = a.n;
        let p = a.at;
        if n < least {
            return at;
        }
        if high < n {
            return at;
        }
        if d[p] != 59 {
            return p;
        }
        least = n + 1;
        i = p + 1;
    }
    at
}

// A code of a SINGLE.
fn judge_code(t: &[i64], rows: usize, row: Row, d: &[u8], at: usize) -> usize
    requires { LineFacts t.now rows row × (row.kind ≡ kind.Single) }
    ensures { JudgedAt t.now rows row d.now at result }
{
    let a = number_fields::code_from(d, at);
    let n = a.n;
    let to = a.at;
    if n == 0 {
        return 0;
    }
    if !stops(d, to) {
        return 0;
    }
    if !legal::is_legal(t, rows, row, cells::cell_of(n)) {
        return 0;
    }
    to + 1
}

// A number of a QUANTITY.
fn judge_amount(t: &[i64], rows: usize, row: Row, q: Format, d: &[u8], at: usize) -> usize
    requires { LineFacts t.now rows row × (row.kind ≡ kind.Quantity q) }
    ensures { JudgedAt t.now rows row d.now at result }
{
    let a = number_fields::number_from(d, at, q.decimals);
    let z = a.z;
    let to = a.at;
    if to == at {
        return 0;
    }
    if !stops(d, to) {
        return 0;
    }
    if !legal::is_legal(t, rows, row, z) {
        return 0;
    }
    to + 1
}

// A set of a bitstring whose lines are its categories, if they are.
fn judge_bits(t: &[i64], rows: usize, row: Row, full: bool, d: &[u8], at: usize) -> usize
    requires { (full ≡ true → EachLegal t.now rows row row.width) × (row.kind ≡ kind.Multiple spread.Bits)
        × (at ≤ length d.now) }
    ensures { JudgedAt t.now rows row d.now at result }
{
    let w = row.width;
    if !full {
        return 0;
    }
    let to = codes_to(d, at, 1, w, w);
    if to == at {
        return 0;
    }
    if !stops(d, to) {
        return 0;
    }
    to + 1
}

// A set of a spread that has its members in its range.
fn judge_spread(
    t: &[i64],
    rows: usize,
    row: Row,
    count: usize,
    width: usize,
    d: &[u8],
    at: usize,
) -> usize
    requires { (row.kind ≡ kind.Multiple (spread.Fields count width)) × (at ≤ length d.now) }
    ensures { JudgedAt t.now rows row d.now at result }
{
    let low = cells::count_of(row.from);
    let high = cells::count_of(row.to);
    if !row.range {
        return 0;
    }
    if low == 0 {
        return 0;
    }
    if 9999 < high {
        return 0;
    }
    let to = codes_to(d, at, low, high, count);
    if to == at {
        return 0;
    }
    if !stops(d, to) {
        return 0;
    }
    to + 1
}

fn judge_set(t: &[i64], rows: usize, row: Row, full: bool, s: Spread, d: &[u8], at: usize) -> usize
    requires { (full ≡ true → EachLegal t.now rows row row.width) × (row.kind ≡ kind.Multiple s) × (at ≤ length d.now) }
    ensures { JudgedAt t.now rows row d.now at result }
{
    match s {
        Spread::Bits => judge_bits(t, rows, row, full, d, at),
        Spread::Fields { count, width } => judge_spread(t, rows, row, count, width, d, at),
    }
}

// What a text cannot hold where it stands bare: a comma, a quote, and every byte below 32.
fn ends_text(b: u8) -> bool
    ensures { result ≡ ends_text b }
{
    (b == 44) | ((b == 34) | (b < 32))
}

// The first of them from a place on, or the end.
fn text_to(d: &[u8], at: usize) -> usize
    requires { at ≤ length d.now }
    ensures { TextTo d.now at result }
{
    for i in at..d.len() {
        if ends_text(d[i]) {
            return i;
        }
    }
    d.len()
}

// A text.
fn judge_text(t: &[i64], rows: usize, row: Row, d: &[u8], at: usize) -> usize
    requires { (row.kind ≡ kind.Character) × (at ≤ length d.now) }
    ensures { JudgedAt t.now rows row d.now at result }
{
    let w = row.width;
    let to = text_to(d, at);
    if to == at {
        return 0;
    }
    if w < to - at {
        return 0;
    }
    if d[to - 1] <= 32 {
        return 0;
    }
    if !stops(d, to) {
        return 0;
    }
    to + 1
}

// A truth: 0 or 1.
fn judge_truth(t: &[i64], rows: usize, row: Row, d: &[u8], at: usize) -> usize
    requires { row.kind ≡ kind.Logical }
    ensures { JudgedAt t.now rows row d.now at result }
{
    if d.len() <= at {
        return 0;
    }
    let b = d[at];
    let to = at + 1;
    if b < 48 {
        return 0;
    }
    if 49 < b {
        return 0;
    }
    if !stops(d, to) {
        return 0;
    }
    to + 1
}

// THE FIELD from a place on: the place behind what stops it, where it is a value of the row; else 0. `full` says of a bitstring that it
// has each category up to its width: whoever judges many fields asks that once.
pub fn judge_at(t: &[i64], rows: usize, row: Row, full: bool, d: &[u8], at: usize) -> usize
    requires { LineFacts t.now rows row × (full ≡ true → EachLegal t.now rows row row.width) × (at ≤ length d.now) }
    ensures { JudgedAt t.now rows row d.now at result }
{
    if stops(d, at) {
        return at + 1;
    }
    let kind = row.kind;
    match kind {
        Kind::Single => judge_code(t, rows, row, d, at),
        Kind::Multiple(s) => judge_set(t, rows, row, full, s, d, at),
        Kind::Quantity(q) => judge_amount(t, rows, row, q, d, at),
        Kind::Character => judge_text(t, rows, row, d, at),
        Kind::Logical => judge_truth(t, rows, row, d, at),
    }
}
