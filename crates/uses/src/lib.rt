// The part of the test behind refusal 20 that asks for the kind of definition a table came from: use and filter of each row, and
// SPECIAL of each line. It stands apart, since no reading, judgement or write goes by these. Above it stands the test of a table.
#![tactic(auto)]

ghost use Rattle.std.specs.Prelude.{◌≡◌, ◌+◌, ◌≤◌, ◌<◌, length};
ghost use Rattle.layout.specs.rule.Layout.{most_rows, most_lines, row_base, line_base};
ghost use Rattle.uses.specs.rule.Uses.{own_use, filter_good, use_good, is_use, uses_good, specials_none, xml_good, rows_unused};
ghost use Rattle.uses.specs.rule.Uses.{kind_good};

use layout::{Columns, Header, Line, Row};

// A use that there is, in a row whose type may have it, and no filter beside it.
fn own_use(c: Columns) -> bool
    ensures { result ≡ own_use c }
{
    (c.usage <= 2)
        & ((c.usage != 1) | ((3 <= c.kind) & (c.kind <= 4)))
        & ((c.usage != 2) | (c.kind == 3))
        & ((c.usage == 0) | (c.filter == 0))
}

// Is the row that filters row i, where one does, an earlier LOGICAL?
fn filter_good(t: &[i64], i: usize, c: Columns) -> bool
    requires { (i < most_rows) × (row_base (i + 1) ≤ length t.now) }
    ensures { result ≡ filter_good t.now i c }
{
    let filter = c.filter;
    if filter == 0 {
        return true;
    }
    if i < filter {
        return false;
    }
    Columns::read(t, Row::base(filter - 1)).kind == 5
}

fn use_good(t: &[i64], i: usize, c: Columns) -> bool
    requires { (i < most_rows) × (row_base (i + 1) ≤ length t.now) }
    ensures { result ≡ use_good t.now i c }
{
    own_use(c) & filter_good(t, i, c)
}

fn is_use(usage: usize, k: usize) -> usize
    ensures { result ≡ is_use usage k }
{
    if usage == k { 1 } else { 0 }
}

// Are use and filter good in every row, with at most one serial and one weight?
fn uses_good(t: &[i64], v: usize) -> bool
    requires { (v ≤ most_rows) × (row_base v ≤ length t.now) }
    ensures { result ≡ uses_good t.now v }
{
    let mut serials: usize = 0;
    let mut weights: usize = 0;
    for i in 0..v {
        let c = Columns::read(t, Row::base(i));
        if !use_good(t, i, c) {
            return false;
        }
        serials += is_use(c.usage, 1);
        weights += is_use(c.usage, 2);
    }
    (serials <= 1) & (weights <= 1)
}

// Is SPECIAL 0 on each of e lines?
fn specials_none(t: &[i64], v: usize, e: usize) -> bool
    requires { (v ≤ most_rows) × (e ≤ most_lines) × (line_base v e ≤ length t.now) }
    ensures { result ≡ specials_none t.now v e }
{
    for j in 0..e {
        if Line::read(t, Line::base(v, j)).special != 0 {
            return false;
        }
    }
    true
}

// The rows and lines of a table of XML.
fn xml_good(t: &[i64], v: usize, e: usize) -> bool
    requires { (v ≤ most_rows) × (e ≤ most_lines) × (line_base v e ≤ length t.now) }
    ensures { result ≡ xml_good t.now v e }
{
    if !uses_good(t, v) {
        return false;
    }
    specials_none(t, v, e)
}

// Has no row a use or a filter, as no row of a 1.1 table has? All are laid one over the other.
fn rows_unused(t: &[i64], v: usize) -> bool
    requires { (v ≤ most_rows) × (row_base v ≤ length t.now) }
    ensures { result ≡ rows_unused t.now v }
{
    let mut laid: usize = 0;
    for i in 0..v {
        let c = Columns::read(t, Row::base(i));
        let usage = c.usage;
        let filter = c.filter;
        laid = laid | (usage | filter);
    }
    laid == 0
}

// Are use, filter and SPECIAL as the mark of the table asks?
pub fn kind_good(t: &[i64], h: Header) -> bool
    requires { (h.rows ≤ most_rows) × (h.lines ≤ most_lines) × (line_base h.rows h.lines ≤ length t.now) }
    ensures { result ≡ kind_good t.now h }
{
    if h.mark == Header::MARK_XML {
        return xml_good(t, h.rows, h.lines);
    }
    rows_unused(t, h.rows)
}
