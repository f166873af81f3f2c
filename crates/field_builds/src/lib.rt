// A field built where it stands in a text: what export writes is read in one walk, up to the comma or the CR behind it, and its value goes
// to the row's places. No field is cut, and nothing is written before the whole field is judged. It may give up, and then keeps the record.
// These are the functions of `field_judges` once more, with a write in each: a judge that both passes of an import call has the row in
// memory for every field, and is slower than both. Above it stand the lines of an import.
#![tactic(auto)]

ghost use Rattle.std.specs.Prelude.{◌≡◌, true, ◌≤◌, length};
ghost use Rattle.ascii.specs.rule.Tens.{Tens};
ghost use Rattle.layout.specs.declared.Kind.TheVariants as kind;
ghost use Rattle.layout.specs.declared.Spread.TheVariants as spread;
ghost use Rattle.sets.specs.Full.{EachLegal};
ghost use Rattle.writes.specs.Write.{Ready};
ghost use Rattle.field_judges.specs.Judged.{StopsAt};
ghost use Rattle.field_builds.specs.Built.{BuiltAt, CodesIn};

use layout::{Format, Kind, Row, Spread};

// Codes that were read: how many, and the place behind them.
#[derive(Clone, Copy)]
struct Codes {
    count: usize,
    at: usize,
}

// A code of a SINGLE.
fn build_code(
    powers: &[u64; 16],
    t: &[i64],
    rows: usize,
    row: Row,
    d: &[u8],
    at: usize,
    bytes: &mut [u8],
) -> usize
    requires tens { Tens powers.now }
    requires ready { Ready row.kind t.now rows (length bytes.old) row × (row.kind ≡ kind.Single) }
    ensures { BuiltAt t.now rows row d.now at bytes.old bytes.new result }
{
    let a = number_fields::code_from(d, at);
    let n = a.n;
    let to = a.at;
    if n == 0 {
        return 0;
    }
    if !field_judges::stops(d, to) {
        return 0;
    }
    if !field_values::is_done(writes::plain::write_code(
        powers,
        t,
        rows,
        row,
        cells::cell_of(n),
        bytes,
    )) {
        return 0;
    }
    to + 1
}

// A number of a QUANTITY.
fn build_amount(
    powers: &[u64; 16],
    t: &[i64],
    rows: usize,
    row: Row,
    q: Format,
    d: &[u8],
    at: usize,
    bytes: &mut [u8],
) -> usize
    requires tens { Tens powers.now }
    requires ready { Ready row.kind t.now rows (length bytes.old) row × (row.kind ≡ kind.Quantity q) }
    ensures { BuiltAt t.now rows row d.now at bytes.old bytes.new result }
{
    let a = number_fields::number_from(d, at, q.decimals);
    let z = a.z;
    let to = a.at;
    if to == at {
        return 0;
    }
    if !field_judges::stops(d, to) {
        return 0;
    }
    if !field_values::is_done(writes::plain::write_amount(powers, t, rows, row, q, z, bytes)) {
        return 0;
    }
    to + 1
}

// The codes that rise from low to high, at most so many, from a place on, at the start of the list.
fn codes_in(d: &[u8], at: usize, low: usize, high: usize, most: usize, list: &mut [i64]) -> Codes
    requires { (at ≤ length d.now) × (1 ≤ low) × (high ≤ 9999) × (length list.old ≡ 9999) }
    ensures { CodesIn d.now at low high most list.new result.count result.at }
{
    let mut least = low;
    let mut i = at;
    for k in 0..most {
        let a = number_fields::code_from(d, i);
        let n = a.n;
        let p = a.at;
        if n < least {
            return Codes { count: 0, at };
        }
        if high < n {
            return Codes { count: 0, at };
        }
        list[k] = cells::cell_of(n);
        if d[p] != 59 {
            return Codes {
                count: k + 1,
                at: p,
            };
        }
        least = n + 1;
        i = p + 1;
    }
    Codes { count: 0, at }
}

// A set of a bitstring that has each category up to its width.
fn build_bits(
    t: &[i64],
    rows: usize,
    row: Row,
    full: bool,
    d: &[u8],
    at: usize,
    list: &mut [i64],
    bytes: &mut [u8],
) -> usize
    requires ready { Ready row.kind t.now rows (length bytes.old) row × (row.kind ≡ kind.Multiple spread.Bits) }
    requires each_legal { (full ≡ true → EachLegal t.now rows row row.width) × (at ≤ length d.now) × (length list.old ≡ 9999) }
    ensures { BuiltAt t.now rows row d.now at bytes.old bytes.new result }
{
    let w = row.width;
    if !full {
        return 0;
    }
    let a = codes_in(d, at, 1, w, w, list);
    let n = a.count;
    let to = a.at;
    if n == 0 {
        return 0;
    }
    if !field_judges::stops(d, to) {
        return 0;
    }
    if !field_values::is_done(writes::marked::bits_full(t, rows, row, &list[..n], bytes)) {
        return 0;
    }
    to + 1
}

// A set of a spread that has its members in its range.
fn build_spread(
    powers: &[u64; 16],
    t: &[i64],
    rows: usize,
    row: Row,
    count: usize,
    width: usize,
    d: &[u8],
    at: usize,
    list: &mut [i64],
    bytes: &mut [u8],
) -> usize
    requires tens { Tens powers.now }
    requires ready { Ready row.kind t.now rows (length bytes.old) row × (row.kind ≡ kind.Multiple (spread.Fields count width)) }
    requires at_in_bounds { (at ≤ length d.now) × (length list.old ≡ 9999) }
    ensures { BuiltAt t.now rows row d.now at bytes.old bytes.new result }
{
    let low = cells::count_of(row.from);
    let high = cells::count_of(row.to);
    if !row.range {
        return 0;
    }
    if low == 0 {
        return 0;
    }
    if 9999 < high {
        return 0;
    }
    let a = codes_in(d, at, low, high, count, list);
    let n = a.count;
    let to = a.at;
    if n == 0 {
        return 0;
    }
    if !field_judges::stops(d, to) {
        return 0;
    }
    if !field_values::is_done(writes::marked::spread_full(
        powers,
        t,
        rows,
        row,
        count,
        width,
        &list[..n],
        bytes,
    )) {
        return 0;
    }
    to + 1
}

fn build_set(
    powers: &[u64; 16],
    t: &[i64],
    rows: usize,
    row: Row,
    full: bool,
    s: Spread,
    d: &[u8],
    at: usize,
    list: &mut [i64],
    bytes: &mut [u8],
) -> usize
    requires tens { Tens powers.now }
    requires ready { Ready row.kind t.now rows (length bytes.old) row × (row.kind ≡ kind.Multiple s) }
    requires each_legal { (full ≡ true → EachLegal t.now rows row row.width) × (at ≤ length d.now) × (length list.old ≡ 9999) }
    ensures { BuiltAt t.now rows row d.now at bytes.old bytes.new result }
{
    match s {
        Spread::Bits => build_bits(t, rows, row, full, d, at, list, bytes),
        Spread::Fields { count, width } => {
            build_spread(powers, t, rows, row, count, width, d, at, list, bytes)
        }
    }
}

// A text.
fn build_text(t: &[i64], rows: usize, row: Row, d: &[u8], at: usize, bytes: &mut [u8]) -> usize
    requires { Ready row.kind t.now rows (length bytes.old) row × (at ≤ length d.now) }
    ensures { BuiltAt t.now rows row d.now at bytes.old bytes.new result }
{
    let to = csv_fields::bare_to(d, at);
    if !field_judges::stops(d, to) {
        return 0;
    }
    if !field_values::is_done(writes::plain::write_text(t, rows, row, &d[at..to], bytes)) {
        return 0;
    }
    to + 1
}

// A truth: 0 or 1.
fn build_truth(t: &[i64], rows: usize, row: Row, d: &[u8], at: usize, bytes: &mut [u8]) -> usize
    requires { Ready row.kind t.now rows (length bytes.old) row }
    ensures { BuiltAt t.now rows row d.now at bytes.old bytes.new result }
{
    if d.len() <= at {
        return 0;
    }
    let b = d[at];
    let to = at + 1;
    if b < 48 {
        return 0;
    }
    if 49 < b {
        return 0;
    }
    if !field_judges::stops(d, to) {
        return 0;
    }
    if !field_values::is_done(writes::plain::write_truth(t, rows, row, b == 49, bytes)) {
        return 0;
    }
    to + 1
}

// No value: what stops the field stands where it is due. A set's places are left to whoever knows its categories.
pub fn build_missing(
    t: &[i64],
    rows: usize,
    row: Row,
    d: &[u8],
    at: usize,
    bytes: &mut [u8],
) -> usize
    requires { Ready row.kind t.now rows (length bytes.old) row × StopsAt d.now at }
    ensures { BuiltAt t.now rows row d.now at bytes.old bytes.new result }
{
    if !writes::plain::blank_run(t, rows, row, bytes) {
        return 0;
    }
    at + 1
}

// THE FIELD from a place on, where one stands, written: the place behind what stops it; else 0, and the record is kept. `full` says of a
// bitstring that it has each category up to its width.
pub fn build_at(
    powers: &[u64; 16],
    t: &[i64],
    rows: usize,
    row: Row,
    full: bool,
    d: &[u8],
    at: usize,
    list: &mut [i64],
    bytes: &mut [u8],
) -> usize
    requires tens { Tens powers.now }
    requires ready { Ready row.kind t.now rows (length bytes.old) row }
    requires each_legal { (full ≡ true → EachLegal t.now rows row row.width) × (at ≤ length d.now) × (length list.old ≡ 9999) }
    ensures { BuiltAt t.now rows row d.now at bytes.old bytes.new result }
{
    let kind = row.kind;
    match kind {
        Kind::Single => build_code(powers, t, rows, row, d, at, bytes),
        Kind::Multiple(s) => build_set(powers, t, rows, row, full, s, d, at, list, bytes),
        Kind::Quantity(q) => build_amount(powers, t, rows, row, q, d, at, bytes),
        Kind::Character => build_text(t, rows, row, d, at, bytes),
        Kind::Logical => build_truth(t, rows, row, d, at, bytes),
    }
}
