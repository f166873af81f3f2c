// Whether the bytes of a bitstring's categories are alike, each one of two bytes: a range's stand side by side, and a line gives one
// category. So no category from 1 to w is asked whether the row allows it.
ghost use Rattle.std.specs.Prelude.{◌≡◌, true, ◌+◌, ◌≤◌, length, get_or};
ghost use Rattle.below.specs.rule.Below.{all_below};
ghost use Rattle.cells.specs.rule.Cell.{eq_z};
ghost use Rattle.fields.specs.rule.Legal.{in_range, on_line, legal};
ghost use Rattle.fields.specs.Facts.{LineFacts};
ghost use Rattle.sets.specs.Alike.{one_of, all_at, FirstOf, LastOf};
ghost use Rattle.sets.specs.Full.{EachLegal};
ghost use Rattle.sets.specs.Sets.{BitsRoom};

use layout::{Line, Row};

fn is_one(b: u8, x: u8, y: u8) -> bool
    ensures { result ≡ one_of x y b }
{
    (b == x) | (b == y)
}

// Whether the n bytes from a place on are. The first one decides most often; the rest are tested with no way out, many at a time.
pub fn run_is(bytes: &[u8], a: usize, n: usize, x: u8, y: u8) -> bool
    requires { a + n ≤ length bytes.now }
    ensures { result ≡ all_below n (λ k. one_of x y (get_or bytes.now (a + k) 0)) }
{
    if n == 0 {
        return true;
    }
    if !is_one(bytes[a], x, y) {
        return false;
    }
    let mut good = true;
    for k in 1..n {
        good = good & is_one(bytes[a + k], x, y);
    }
    good
}

// The first category of a range.
fn first_of(from: i64) -> usize
    ensures { FirstOf from result }
{
    if cells::not_above(from, 1) {
        1
    } else {
        cells::count_of(from)
    }
}

// The last category of a range.
fn last_of(to: i64, w: usize) -> usize
    requires { w ≤ 9999 }
    ensures { LastOf to w result }
{
    if cells::not_above(cells::cell_of(w), to) {
        return w;
    }
    if cells::not_above(to, 0) {
        0
    } else {
        cells::count_of(to)
    }
}

// Whether the bytes of the range's categories are.
fn range_is(row: Row, bytes: &[u8], at: usize, w: usize, x: u8, y: u8) -> bool
    requires { BitsRoom at w (length bytes.now) }
    ensures { result ≡ all_at x y bytes.now at w (λ z. in_range row z) }
{
    if !row.range {
        return true;
    }
    let first = first_of(row.from);
    let last = last_of(row.to, w);
    if last < first {
        return true;
    }
    run_is(bytes, at + (first - 1), last + 1 - first, x, y)
}

// Whether the byte of a line's category is.
fn line_is(z: i64, bytes: &[u8], at: usize, w: usize, x: u8, y: u8) -> bool
    requires { BitsRoom at w (length bytes.now) }
    ensures { result ≡ all_at x y bytes.now at w (λ u. eq_z z u) }
{
    let c = cells::count_of(z);
    if (0 < c) & (c <= w) {
        return is_one(bytes[at + (c - 1)], x, y);
    }
    true
}

// Whether the bytes of the lines' categories are.
fn lines_are(
    t: &[i64],
    rows: usize,
    row: Row,
    bytes: &[u8],
    at: usize,
    w: usize,
    x: u8,
    y: u8,
) -> bool
    requires line_facts { LineFacts t.now rows row }
    requires bits_room { BitsRoom at w (length bytes.now) }
    ensures { result ≡ all_at x y bytes.now at w (λ z. on_line t.now rows row z) }
{
    let before = row.before;
    let lines = row.lines;
    for k in 0..lines {
        let place = Line::base(rows, before + k);
        if !line_is(t[place], bytes, at, w, x, y) {
            return false;
        }
    }
    true
}

// Whether the bytes of all categories of the row are.
pub fn all_are(
    t: &[i64],
    rows: usize,
    row: Row,
    bytes: &[u8],
    at: usize,
    w: usize,
    x: u8,
    y: u8,
) -> bool
    requires line_facts { LineFacts t.now rows row }
    requires bits_room { BitsRoom at w (length bytes.now) }
    ensures { result ≡ all_at x y bytes.now at w (legal t.now rows row) }
{
    if !range_is(row, bytes, at, w, x, y) {
        return false;
    }
    lines_are(t, rows, row, bytes, at, w, x, y)
}

// Whether the first w lines of the row are the categories from 1 to w, in this order, as they mostly are: then each is a category, and
// none needs a test of its own.
pub fn lines_count(t: &[i64], rows: usize, row: Row, w: usize) -> bool
    requires line_facts { LineFacts t.now rows row }
    requires w_bound { w ≤ 9999 }
    ensures { result ≡ true → EachLegal t.now rows row w }
{
    if row.lines < w {
        return false;
    }
    let before = row.before;
    for k in 0..w {
        let place = Line::base(rows, before + k);
        if !cells::same(t[place], cells::cell_of(k + 1)) {
            return false;
        }
    }
    true
}
