// Whether two rows of a table share a value place (refusal 90), in steps that grow with the places, rows and lines alone: each row
// stamps its places, and a place with another row's stamp is shared. Rows that follow one another, as they mostly do, are not stamped at
// all. Above it stand the normal form of a record and the import.
#![tactic(auto)]

ghost use Rattle.std.specs.Prelude.{◌≡◌, true, [], ◌∷◌, ℕ, ◌+◌, ◌-◌, ◌*◌, ◌≤◌, ◌<◌, length, get_or};
ghost use Rattle.places.specs.rule.Places.{run};
ghost use Rattle.fields.specs.rule.Row.{categories, bit_places, spread_places, places_of};
ghost use Rattle.fields.specs.Facts.{RowFacts};
ghost use Rattle.sharing.specs.rule.Sharing.{shares_none};
ghost use Rattle.sharing.specs.Claims.{Claimed};
ghost use Rattle.sharing.specs.Known.{TableKnown, BitsKnown, range_places, line_places};

use layout::{Kind, Line, Row, Spread};

// A place for each byte of the longest L.
const MOST: usize = 16384;

// Enough for short records: clearing all stamps would cost more than the test.
const SHORT: usize = 256;

// A place gets the row's stamp, unless it has another's.
fn claim_one(stamps: &mut [u16], p: usize, own: u16) -> bool
    requires { p < length stamps.old }
    ensures { Claimed own (p ∷ []) stamps.old stamps.new result }
{
    let x = stamps[p];
    if x == 0 {
        stamps[p] = own;
        return true;
    }
    if x == own {
        return true;
    }
    false
}

// The n places from the place at on.
fn claim_run(stamps: &mut [u16], at: usize, n: usize, own: u16) -> bool
    requires { at + n ≤ length stamps.old }
    ensures { Claimed own (run at n) stamps.old stamps.new result }
{
    for p in at..at + n {
        if !claim_one(stamps, p, own) {
            return false;
        }
    }
    true
}

// The last w bytes of each of n subfields of b bytes.
fn claim_spread(stamps: &mut [u16], at: usize, b: usize, w: usize, n: usize, own: u16) -> bool
    requires { (w ≤ b) × (at + n * b ≤ length stamps.old) }
    ensures { Claimed own (spread_places at b w n) stamps.old stamps.new result }
{
    let gap = b - w;
    let mut q = at;
    for _ in 0..n {
        if !claim_run(stamps, q + gap, w, own) {
            return false;
        }
        q += b;
    }
    true
}

// A bitstring's places in its range.
fn claim_range(t: &[i64], rows: usize, row: Row, stamps: &mut [u16], own: u16) -> bool
    requires { BitsKnown t.now rows row (length stamps.old) }
    ensures { Claimed own (range_places (row.start - 1) row) stamps.old stamps.new result }
{
    let from = row.from;
    let to = row.to;
    if !legal::in_range(row, from) {
        return true;
    }
    let a = cells::count_of(from);
    let n = cells::count_of(to) - a + 1;
    claim_run(stamps, row.start - 1 + (a - 1), n, own)
}

// And those of its lines: no category from 1 to w is tried that has none.
fn claim_lines(t: &[i64], rows: usize, row: Row, stamps: &mut [u16], own: u16) -> bool
    requires { BitsKnown t.now rows row (length stamps.old) }
    ensures { Claimed own (line_places (row.start - 1) t.now rows row.before 0 row.lines) stamps.old
        stamps.new result }
{
    let at = row.start - 1;
    let before = row.before;
    let lines = row.lines;
    for k in 0..lines {
        let base = Line::base(rows, before + k);
        let c = cells::count_at(t, base);
        if !claim_one(stamps, at + (c - 1), own) {
            return false;
        }
    }
    true
}

fn claim_bits(t: &[i64], rows: usize, row: Row, stamps: &mut [u16], own: u16) -> bool
    requires { BitsKnown t.now rows row (length stamps.old) }
    ensures { Claimed own (bit_places (row.start - 1) (categories t.now rows row)) stamps.old stamps.new result }
{
    if !claim_range(t, rows, row, stamps, own) {
        return false;
    }
    claim_lines(t, rows, row, stamps, own)
}

// A row's value places, by its kind.
fn claim_row(t: &[i64], rows: usize, len: usize, row: Row, stamps: &mut [u16], own: u16) -> bool
    requires row_facts { RowFacts t.now rows len row }
    requires len_in_bounds { len ≤ length stamps.old }
    ensures { Claimed own (places_of t.now rows row) stamps.old stamps.new result }
{
    let kind = row.kind;
    let w = row.width;
    match kind {
        Kind::Single => claim_run(stamps, row.finish - w, w, own),
        Kind::Multiple(s) => match s {
            Spread::Bits => claim_bits(t, rows, row, stamps, own),
            Spread::Fields { count, width } => {
                claim_spread(stamps, row.start - 1, width, w, count, own)
            }
        },
        Kind::Quantity(_) => claim_run(stamps, row.finish - w, w, own),
        Kind::Character => claim_run(stamps, row.start - 1, w, own),
        Kind::Logical => claim_run(stamps, row.finish - 1, 1, own),
    }
}

// Each row in turn, over stamps that are all 0.
fn rows_apart(t: &[i64], rows: usize, len: usize, stamps: &mut [u16]) -> bool
    requires table_known { TableKnown t.now rows len }
    requires len_in_bounds { len ≤ length stamps.old }
    requires by_index { (q : ℕ) → get_or stamps.old q 0 ≡ 0 }
    ensures { result ≡ shares_none t.now rows }
{
    for i in 0..rows {
        let own = (i + 1) as u16;
        if !claim_row(t, rows, len, Row::read(t, i), stamps, own) {
            return false;
        }
    }
    true
}

// Does each row begin behind the one before it? The usual case, in which no two share a place.
fn rows_follow(t: &[i64], rows: usize, len: usize) -> bool
    requires { TableKnown t.now rows len }
    ensures { result ≡ true → shares_none t.now rows ≡ true }
{
    let mut last: usize = 0;
    for i in 0..rows {
        let row = Row::read(t, i);
        if row.start <= last {
            return false;
        }
        last = row.finish;
    }
    true
}

// Whether no two rows of a table that was tested share a value place; `len` is its least record length.
pub fn none_shared(t: &[i64], rows: usize, len: usize) -> bool
    requires table_known { TableKnown t.now rows len }
    requires len_bound { len ≤ 16384 }
    ensures { result ≡ shares_none t.now rows }
{
    if rows_follow(t, rows, len) {
        return true;
    }
    if len <= SHORT {
        let mut few = [0u16; SHORT];
        return rows_apart(t, rows, len, &mut few);
    }
    let mut stamps = [0u16; MOST];
    rows_apart(t, rows, len, &mut stamps)
}
