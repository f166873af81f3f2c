// Both forms of a set, bitstring and spread: judged, counted, and filled into a lent list in rising order. A row's legal numbers are
// marked once where that pays, so that no line is searched for each byte or subfield. Above it stand the calls on records.
#![tactic(auto)]

ghost use Rattle.std.specs.Prelude.{◌≡◌, ◌-◌, ◌^◌, ◌≤◌, length};
ghost use Rattle.fields.specs.rule.Legal.{legal};
ghost use Rattle.fields.specs.rule.Row.{categories};
ghost use Rattle.sets.specs.Sets.{ReadSet, BitsFacts, FieldsFacts, bits_field_at, spread_field_at};
ghost use Rattle.sets.specs.rule.Sets.{is_illegal};

use layout::Row;

pub mod alike;
pub mod bits;
mod few;
pub mod marks;
pub mod spread;

// What was read: nothing, so many members in the list, a field that isn't legal, or a set longer than the list.
#[derive(Clone, Copy)]
pub enum SetRead {
    Missing,
    Count(usize),
    Illegal,
    Short,
}

// How many of the first `size` numbers to mark: none where there is no room for them, or where searching the lines at each of so
// many tests costs no more. To mark a number costs about as much as looking at four lines.
fn marks_worth(lines: usize, tests: usize, size: usize, room: usize) -> usize
    requires lines_bound { lines ≤ 4096 }
    requires tests_bound { tests ≤ 16384 }
    ensures { result ≤ room }
{
    if room < size {
        return 0;
    }
    if lines * tests / 4 <= size { 0 } else { size }
}

// Whether the bitstring of a row is illegal.
pub fn bits_illegal(t: &[i64], rows: usize, row: Row, bytes: &[u8]) -> bool
    requires { BitsFacts t.now rows row (length bytes.now) }
    ensures { result ≡ is_illegal (bits_field_at (categories t.now rows row) (row.start - 1) bytes.now) }
{
    bits::judge(t, rows, row, bytes, row.start - 1, row.width)
}

// The bitstring of a row, as a set at the start of the list.
pub fn read_bits(
    t: &[i64],
    rows: usize,
    row: Row,
    bytes: &[u8],
    list: &mut [i64],
    scratch: &mut [u8],
) -> SetRead
    requires bits_facts { BitsFacts t.now rows row (length bytes.now) }
    requires scratch_len_bound { length scratch.old ≤ 10000 }
    ensures { ReadSet (bits_field_at (categories t.now rows row) (row.start - 1) bytes.now) list.old
        list.new result }
{
    let w = row.width;
    let at = row.start - 1;
    if marks::range_has(row, w) {
        return bits::read_each(t, rows, row, bytes, at, w, list);
    }
    if alike::lines_count(t, rows, row, w) {
        return bits::read_each(t, rows, row, bytes, at, w, list);
    }
    if alike::all_are(t, rows, row, bytes, at, w, 32, 32) {
        return SetRead::Missing;
    }
    if !alike::all_are(t, rows, row, bytes, at, w, 48, 49) {
        return SetRead::Illegal;
    }
    let n = marks_worth(row.lines, w, w + 1, scratch.len());
    bits::mark_and_list(t, rows, row, &mut scratch[..n], bytes, at, w, list)
}

// Ten to the power w: the numbers of w digits lie below it. The table of powers would be laid out anew for each row.
fn reach(w: usize) -> usize
    requires { w ≤ 4 }
    ensures { result ≡ 10 ^ w }
{
    if w == 1 {
        return 10;
    }
    if w == 2 {
        return 100;
    }
    if w == 3 {
        return 1000;
    }
    if w == 4 { 10000 } else { 1 }
}

// How many numbers to mark for a spread of n subfields, with so much room.
pub fn marks_for(row: Row, n: usize, room: usize) -> usize
    requires { (row.lines ≤ 4096) × (row.width ≤ 4) × (n ≤ 16384) }
    ensures { result ≤ room }
{
    marks_worth(row.lines, n, reach(row.width), room)
}

// Whether a spread of n subfields of b bytes is illegal.
pub fn spread_illegal(
    t: &[i64],
    rows: usize,
    row: Row,
    n: usize,
    b: usize,
    bytes: &[u8],
    scratch: &mut [u8],
) -> bool
    requires fields_facts { FieldsFacts t.now rows row n b (length bytes.now) }
    requires scratch_len_bound { length scratch.old ≤ 10000 }
    ensures { result ≡ is_illegal (spread_field_at (legal t.now rows row) (row.start - 1) b row.width n
        bytes.now) }
{
    let w = row.width;
    let at = row.start - 1;
    let k = marks_for(row, n, scratch.len());
    spread::judge(t, rows, row, &mut scratch[..k], bytes, at, b, w, n)
}

// A spread of n subfields of b bytes, as a set at the start of the list.
pub fn read_spread(
    t: &[i64],
    rows: usize,
    row: Row,
    n: usize,
    b: usize,
    bytes: &[u8],
    list: &mut [i64],
    scratch: &mut [u8],
    present: &mut [u8],
) -> SetRead
    requires fields_facts { FieldsFacts t.now rows row n b (length bytes.now) }
    requires scratch_len_bound { length scratch.old ≤ 10000 }
    requires width_in_bounds { 10 ^ row.width ≤ length present.old }
    ensures { ReadSet (spread_field_at (legal t.now rows row) (row.start - 1) b row.width n bytes.now)
        list.old list.new result }
{
    let w = row.width;
    let at = row.start - 1;
    if spread::spread_blank(bytes, at, b, w, n) {
        return SetRead::Missing;
    }
    let top = reach(w);
    let k = marks_worth(row.lines, n, top, scratch.len());
    spread::gather_and_list(
        t,
        rows,
        row,
        &mut scratch[..k],
        bytes,
        at,
        b,
        w,
        n,
        &mut present[..top],
        list,
    )
}

// The same of few subfields, with room for a number of each and no marks.
pub fn read_few(
    t: &[i64],
    rows: usize,
    row: Row,
    n: usize,
    b: usize,
    bytes: &[u8],
    list: &mut [i64],
    room: &mut [usize],
) -> SetRead
    requires fields_facts { FieldsFacts t.now rows row n b (length bytes.now) }
    requires n_in_bounds { n ≤ length room.old }
    ensures { ReadSet (spread_field_at (legal t.now rows row) (row.start - 1) b row.width n bytes.now)
        list.old list.new result }
{
    let w = row.width;
    let at = row.start - 1;
    if spread::spread_blank(bytes, at, b, w, n) {
        return SetRead::Missing;
    }
    match few::gather(t, rows, row, bytes, at, b, w, n, room) {
        Some(count) => few::list_kept(room, count, list),
        None => SetRead::Illegal,
    }
}
