// Whether a set may be written to a row: strictly rising with legal members.
ghost use Rattle.std.specs.Prelude.{◌≡◌, ◌&&◌, ◌-◌, ◌≤◌, ◌<◌, length};
ghost use Rattle.std.specs.Int.Signed.{lt_z};
ghost use Rattle.cells.specs.rule.Cell.{cell};
ghost use Rattle.fields.specs.rule.Legal.{legal};
ghost use Rattle.fields.specs.rule.Field.{set_fits};
ghost use Rattle.fields.specs.Facts.{LineFacts};
ghost use Rattle.sets.specs.Marks.{Marks};
ghost use Rattle.setbytes.specs.Sets.{within};

use layout::Row;
use sets::marks::allows_number;

// Whether the member at k is legal and above the one before it.
fn next_good(t: &[i64], rows: usize, row: Row, marks: &[u8], list: &[i64], k: usize) -> bool
    requires line_facts { LineFacts t.now rows row }
    requires marks { Marks (λ x. legal t.now rows row x) marks.now }
    requires marks_len_bound { (length marks.now ≤ 10000) × (1 ≤ k) }
    ensures { result ≡ (lt_z (cell list.now (k - 1)) (cell list.now k) && legal t.now rows row (cell list.now k)) }
{
    let x = cells::number(list, k);
    if cells::not_above(x, cells::number(list, k - 1)) {
        return false;
    }
    allows_number(t, rows, row, marks, x)
}

// A set is walked once.
pub fn set_fits(t: &[i64], rows: usize, row: Row, marks: &[u8], list: &[i64]) -> bool
    requires line_facts { LineFacts t.now rows row }
    requires marks { Marks (λ x. legal t.now rows row x) marks.now }
    requires marks_len_bound { length marks.now ≤ 10000 }
    ensures { result ≡ set_fits (legal t.now rows row) list.now }
{
    if list.len() == 0 {
        return true;
    }
    if !allows_number(t, rows, row, marks, list[0]) {
        return false;
    }
    for i in 1..list.len() {
        if !next_good(t, rows, row, marks, list, i) {
            return false;
        }
    }
    true
}

// Whether a number lies between two.
fn lies_in(from: i64, to: i64, z: i64) -> bool
    ensures { result ≡ within from to z }
{
    cells::not_above(from, z) & cells::not_above(z, to)
}

// Whether the member at k lies between two numbers and above the one before it.
fn next_in(from: i64, to: i64, list: &[i64], k: usize) -> bool
    requires { 1 ≤ k }
    ensures { result ≡ (lt_z (cell list.now (k - 1)) (cell list.now k)
        && within from to (cell list.now k)) }
{
    let x = cells::number(list, k);
    if cells::not_above(x, cells::number(list, k - 1)) {
        return false;
    }
    lies_in(from, to, x)
}

// Whether a set is strictly rising between two numbers.
pub fn fits_in(from: i64, to: i64, list: &[i64]) -> bool
    ensures { result ≡ set_fits (within from to) list.now }
{
    if list.len() == 0 {
        return true;
    }
    if !lies_in(from, to, list[0]) {
        return false;
    }
    for i in 1..list.len() {
        if !next_in(from, to, list, i) {
            return false;
        }
    }
    true
}
