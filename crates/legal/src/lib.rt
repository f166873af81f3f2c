// Whether a row allows a number: its range first, then its lines. Above it stand the readings and the writes of fields.
#![tactic(auto)]

ghost use Rattle.std.specs.Prelude.{◌≡◌, true, ◌+◌};
ghost use Rattle.fields.specs.rule.Legal.{in_range, on_line, legal};
ghost use Rattle.fields.specs.Facts.{LineFacts};

use layout::{Line, Row};

// Whether the number lies in the row's range.
pub fn in_range(row: Row, z: i64) -> bool
    ensures { result ≡ in_range row z }
{
    let from = row.from;
    let to = row.to;
    row.range & (cells::not_above(from, z) & cells::not_above(z, to))
}

// Whether the number stands on one of the row's lines.
pub fn on_line(t: &[i64], rows: usize, row: Row, z: i64) -> bool
    requires { LineFacts t.now rows row }
    ensures { result ≡ on_line t.now rows row z }
{
    let before = row.before;
    let lines = row.lines;
    for k in 0..lines {
        let at = Line::base(rows, before + k);
        if cells::same(t[at], z) {
            return true;
        }
    }
    false
}

// Whether the number stands on the line that it stands on where the lines count from 1, as most do.
fn on_own_line(t: &[i64], rows: usize, row: Row, z: i64) -> bool
    requires { LineFacts t.now rows row }
    ensures { result ≡ true → on_line t.now rows row z ≡ true }
{
    let c = cells::count_of(z);
    if (0 < c) & (c <= row.lines) {
        let at = Line::base(rows, row.before + (c - 1));
        return cells::same(t[at], z);
    }
    false
}

pub fn is_legal(t: &[i64], rows: usize, row: Row, z: i64) -> bool
    requires { LineFacts t.now rows row }
    ensures { result ≡ legal t.now rows row z }
{
    if in_range(row, z) {
        return true;
    }
    if on_own_line(t, rows, row, z) {
        return true;
    }
    on_line(t, rows, row, z)
}
