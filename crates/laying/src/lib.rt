// What the two kinds of a definition have in common once their variables are read: rows and lines in rooms of the call's own, laid into a
// lent table or held against one. Nothing here knows a text; the kind is told by the mark, a table's first number. Above it stand the
// reader of 1.1, the reader of XML and the call for both.
#![tactic(auto)]

ghost use Rattle.std.specs.Prelude.{◌≡◌, ◌&&◌, ◌+◌, ◌*◌, ◌≤◌, ◌<◌, length, drop};
ghost use Rattle.cells.specs.rule.Cell.{pasted};
ghost use Rattle.layout.specs.rule.Layout.{mark_xml, row_size, line_size, line_base, most_rows, most_lines};
ghost use Rattle.laying.specs.rule.Begins.{begins_table};
ghost use Rattle.laying.specs.Code.{tally_with, header_by, cells_in, filled_in, filled_over};

use layout::{Columns, Header, Line, Row};

// Room for the most rows, and for the most lines.
pub const ROWS_ROOM: usize = Row::SIZE * Header::MOST_ROWS;

pub const LINES_ROOM: usize = Line::SIZE * Header::MOST_LINES;

// What the variables so far come to: how many they are, their value lines in all, and the highest finish.
#[derive(Clone, Copy)]
pub struct Tally {
    pub rows: usize,
    pub lines: usize,
    pub length: usize,
}

// What the rooms of a call hold, once a definition is read and judged but for the lent table's length: so many rows and lines; or the
// refusal's number and place.
#[derive(Clone, Copy)]
pub enum Rooms {
    Held(Tally),
    Refused { number: usize, place: usize },
}

// With one variable more, after which there are so many lines.
pub fn tally_with(y: Tally, c: Columns, last: usize) -> Tally
    requires { y.rows < most_rows }
    ensures { result ≡ tally_with y c last }
{
    Tally {
        rows: y.rows + 1,
        lines: last,
        length: sound::larger(y.length, c.finish),
    }
}

// The header of so many rows and lines, by the mark of the definition's kind.
fn header_by(mark: usize, y: Tally) -> Header
    requires { (y.rows ≤ most_rows) × (y.lines ≤ most_lines) × (y.length ≤ 16384) }
    ensures { result ≡ header_by mark y }
{
    Header {
        mark,
        rows: y.rows,
        lines: y.lines,
        length: y.length,
        rows_at: Header::SIZE,
        lines_at: Row::base(y.rows),
    }
}

// Header, rows and lines at the start of the table.
fn lay(mark: usize, table: &mut [i64], rows: &[i64], lines: &[i64], y: Tally)
    requires mark_le_mark_xml { mark ≤ mark_xml }
    requires rows_le_most_rows { (y.rows ≤ most_rows) × (y.lines ≤ most_lines) × (y.length ≤ 16384) }
    requires rows_in_bounds { (row_size * y.rows ≤ length rows.now) × (line_size * y.lines ≤ length lines.now)
        × (line_base y.rows y.lines ≤ length table.old) }
    ensures { table.new ≡ pasted table.old 0 (cells_in mark y rows.now lines.now) }
{
    rows::put_header(table, header_by(mark, y));
    cells::paste(table, Header::SIZE, &rows[..Row::SIZE * y.rows]);
    cells::paste(table, Row::base(y.rows), &lines[..Line::SIZE * y.lines]);
}

// Whether a lent table is long enough; if it is, it is filled from its start, else kept.
pub fn fill(mark: usize, rows: &[i64], lines: &[i64], y: Tally, table: &mut [i64]) -> bool
    requires mark_le_mark_xml { mark ≤ mark_xml }
    requires rows_le_most_rows { (y.rows ≤ most_rows) × (y.lines ≤ most_lines) × (y.length ≤ 16384) }
    requires rows_in_bounds { (row_size * y.rows ≤ length rows.now) × (line_size * y.lines ≤ length lines.now) }
    ensures value { result ≡ filled_in y (length table.old) }
    ensures table_after { table.new ≡ filled_over mark y rows.now lines.now table.old }
{
    if table.len() < Line::base(y.rows, y.lines) {
        return false;
    }
    lay(mark, table, rows, lines, y);
    true
}

// Whether eight numbers of t are these. Nothing leaves the loop early: so the compiler compares some of them at once.
fn same_eight(t: &[i64], at: usize, part: &[i64], j: usize) -> bool
    requires { (at + length part.now ≤ length t.now) × (j + 8 ≤ length part.now) }
    ensures { begins_table (drop j part.now) (drop (at + j) t.now)
        ≡ (result && begins_table (drop (j + 8) part.now) (drop (at + (j + 8)) t.now)) }
{
    let mut same = true;
    for k in 0..8 {
        same = same & cells::same(part[j + k], t[at + (j + k)]);
    }
    same
}

// The numbers from the place j on, one by one.
fn same_left(t: &[i64], at: usize, part: &[i64], from: usize) -> bool
    requires { (at + length part.now ≤ length t.now) × (from ≤ length part.now) }
    ensures { result ≡ begins_table (drop from part.now) (drop (at + from) t.now) }
{
    for j in from..part.len() {
        if !cells::same(part[j], t[at + j]) {
            return false;
        }
    }
    true
}

// Whether the numbers of t from a place on are these.
fn same_at(t: &[i64], at: usize, part: &[i64]) -> bool
    requires { at + length part.now ≤ length t.now }
    ensures { result ≡ begins_table part.now (drop at t.now) }
{
    let mut j: usize = 0;
    // A hand-counted loop: the place where the eights stop is where the rest is compared from.
    while 8 <= part.len() - j {
        if !same_eight(t, at, part, j) {
            return false;
        }
        j += 8;
    }
    same_left(t, at, part, j)
}

// Whether the table begins with the header, the rows and the lines of the rooms.
pub fn matches(mark: usize, rows: &[i64], lines: &[i64], y: Tally, t: &[i64]) -> bool
    requires mark_le_mark_xml { mark ≤ mark_xml }
    requires rows_le_most_rows { (y.rows ≤ most_rows) × (y.lines ≤ most_lines) × (y.length ≤ 16384) }
    requires rows_in_bounds { (row_size * y.rows ≤ length rows.now) × (line_size * y.lines ≤ length lines.now) }
    ensures { result ≡ begins_table (cells_in mark y rows.now lines.now) t.now }
{
    if t.len() < Line::base(y.rows, y.lines) {
        return false;
    }
    let mut header = [0i64; Header::SIZE];
    rows::put_header(&mut header, header_by(mark, y));
    let a = same_at(t, 0, &header);
    let b = same_at(t, Header::SIZE, &rows[..Row::SIZE * y.rows]);
    let c = same_at(t, Row::base(y.rows), &lines[..Line::SIZE * y.lines]);
    a & (b & c)
}
