// A bitstring: byte c of the position for each category c that the row allows, each `0` or `1`. No other byte counts.
ghost use Rattle.std.specs.Prelude.{◌≡◌, Bool, true, false, cond, eqb, ◌+◌, ◌≤◌, ℤ, length};
ghost use Rattle.fields.specs.rule.Legal.{legal};
ghost use Rattle.fields.specs.rule.Field.{holds, members};
ghost use Rattle.fields.specs.rule.Row.{defined};
ghost use Rattle.fields.specs.Facts.{LineFacts};
ghost use Rattle.sets.specs.Full.{always, EachLegal};
ghost use Rattle.sets.specs.Marks.{Marks};
ghost use Rattle.sets.specs.rule.Sets.{filled_of, is_illegal};
ghost use Rattle.sets.specs.Sets.{BitsRoom, ReadSet, codes_to, set_bits_at, bits_field_at};

use super::SetRead;
use super::alike::{all_are, run_is};
use super::marks::{allows, mark_legal};
use layout::Row;

fn bit_of(b: u8) -> usize
    ensures { result ≡ cond (eqb b 49) 1 0 }
{
    if b == 49 { 1 } else { 0 }
}

// How many categories are set.
fn count_set(
    t: &[i64],
    rows: usize,
    row: Row,
    marks: &[u8],
    bytes: &[u8],
    at: usize,
    w: usize,
) -> usize
    requires line_facts { LineFacts t.now rows row }
    requires marks { Marks (λ x. legal t.now rows row x) marks.now }
    requires bits_room { BitsRoom at w (length bytes.now) }
    ensures { result ≡ length (set_bits_at (codes_to t.now rows row w) at bytes.now) }
{
    let mut n: usize = 0;
    for i in 0..w {
        if allows(t, rows, row, marks, i + 1) {
            n += bit_of(bytes[at + i]);
        }
    }
    n
}

// The same where every category from 1 to w is one.
fn count_each(bytes: &[u8], at: usize, w: usize) -> usize
    requires { BitsRoom at w (length bytes.now) }
    ensures { result ≡ length (set_bits_at (defined always 1 w) at bytes.now) }
{
    let mut n: usize = 0;
    for i in 0..w {
        n += bit_of(bytes[at + i]);
    }
    n
}

// The categories that are set, rising, at the start of the list, which has room for them.
fn bits_fill(
    t: &[i64],
    rows: usize,
    row: Row,
    marks: &[u8],
    bytes: &[u8],
    at: usize,
    w: usize,
    list: &mut [i64],
)
    requires line_facts { LineFacts t.now rows row }
    requires marks { Marks (λ x. legal t.now rows row x) marks.now }
    requires bits_room { BitsRoom at w (length bytes.now) }
    requires bytes_in_bounds { length (set_bits_at (codes_to t.now rows row w) at bytes.now) ≤ length list.old }
    ensures { list.new ≡ filled_of (set_bits_at (codes_to t.now rows row w) at bytes.now)
        list.old }
{
    let mut n: usize = 0;
    for i in 0..w {
        if allows(t, rows, row, marks, i + 1) {
            if bytes[at + i] == 49 {
                list[n] = cells::cell_of(i + 1);
                n += 1;
            }
        }
    }
}

// The same where every category from 1 to w is one.
fn fill_each(bytes: &[u8], at: usize, w: usize, list: &mut [i64])
    requires bits_room { BitsRoom at w (length bytes.now) }
    requires bytes_in_bounds { length (set_bits_at (defined always 1 w) at bytes.now) ≤ length list.old }
    ensures { list.new ≡ filled_of (set_bits_at (defined always 1 w) at bytes.now) list.old }
{
    let mut n: usize = 0;
    for i in 0..w {
        if bytes[at + i] == 49 {
            list[n] = cells::cell_of(i + 1);
            n += 1;
        }
    }
}

// Whether all bytes of the position are `0` and `1`, or all spaces: then the bitstring is legal, whatever its categories are. Many are
// looked at together, so that this is worth a try unless there are few lines.
pub fn position_alike(bytes: &[u8], at: usize, w: usize, lines: usize) -> bool
    requires { BitsRoom at w (length bytes.now) }
    ensures { result ≡ true → (ok : ℤ → Bool) → false ≡ is_illegal (bits_field_at (defined ok 1 w) at bytes.now) }
{
    if lines < w / 16 {
        return false;
    }
    if run_is(bytes, at, w, 48, 49) {
        return true;
    }
    run_is(bytes, at, w, 32, 32)
}

// Whether the bitstring is illegal.
pub fn judge(t: &[i64], rows: usize, row: Row, bytes: &[u8], at: usize, w: usize) -> bool
    requires line_facts { LineFacts t.now rows row }
    requires bits_room { BitsRoom at w (length bytes.now) }
    ensures { result ≡ is_illegal (bits_field_at (codes_to t.now rows row w) at bytes.now) }
{
    if position_alike(bytes, at, w, row.lines) {
        return false;
    }
    if all_are(t, rows, row, bytes, at, w, 32, 32) {
        return false;
    }
    !all_are(t, rows, row, bytes, at, w, 48, 49)
}

// A bitstring whose bytes are all `0` and `1`, as a set at the start of the list.
fn list_set(
    t: &[i64],
    rows: usize,
    row: Row,
    marks: &[u8],
    bytes: &[u8],
    at: usize,
    w: usize,
    list: &mut [i64],
) -> SetRead
    requires line_facts { LineFacts t.now rows row }
    requires marks { Marks (λ x. legal t.now rows row x) marks.now }
    requires bits_room { BitsRoom at w (length bytes.now) }
    requires bytes_value { bits_field_at (codes_to t.now rows row w) at bytes.now
        ≡ holds (members (set_bits_at (codes_to t.now rows row w) at bytes.now)) }
    ensures { ReadSet (bits_field_at (codes_to t.now rows row w) at bytes.now) list.old
        list.new result }
{
    let n = count_set(t, rows, row, marks, bytes, at, w);
    if n <= list.len() {
        bits_fill(t, rows, row, marks, bytes, at, w, list);
        return SetRead::Count(n);
    }
    SetRead::Short
}

// A bitstring of which every category is one, as a set at the start of the list.
pub fn read_each(
    t: &[i64],
    rows: usize,
    row: Row,
    bytes: &[u8],
    at: usize,
    w: usize,
    list: &mut [i64],
) -> SetRead
    requires each_legal { EachLegal t.now rows row w }
    requires bits_room { BitsRoom at w (length bytes.now) }
    ensures { ReadSet (bits_field_at (codes_to t.now rows row w) at bytes.now) list.old
        list.new result }
{
    if run_is(bytes, at, w, 32, 32) {
        return SetRead::Missing;
    }
    if !run_is(bytes, at, w, 48, 49) {
        return SetRead::Illegal;
    }
    let n = count_each(bytes, at, w);
    if n <= list.len() {
        fill_each(bytes, at, w, list);
        return SetRead::Count(n);
    }
    SetRead::Short
}

// What `list_set` does, with room for the marks of the row.
pub fn mark_and_list(
    t: &[i64],
    rows: usize,
    row: Row,
    marks: &mut [u8],
    bytes: &[u8],
    at: usize,
    w: usize,
    list: &mut [i64],
) -> SetRead
    requires line_facts { LineFacts t.now rows row }
    requires marks_len_bound { length marks.old ≤ 10000 }
    requires bits_room { BitsRoom at w (length bytes.now) }
    requires bytes_value { bits_field_at (codes_to t.now rows row w) at bytes.now
        ≡ holds (members (set_bits_at (codes_to t.now rows row w) at bytes.now)) }
    ensures { ReadSet (bits_field_at (codes_to t.now rows row w) at bytes.now) list.old
        list.new result }
{
    mark_legal(t, rows, row, marks);
    list_set(t, rows, row, marks, bytes, at, w, list)
}
