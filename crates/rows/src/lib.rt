// A row and a header back to their numbers: what the reader of a definition writes to a table. Above it stands the definition as
// a whole.
#![tactic(auto)]

ghost use Rattle.std.specs.Prelude.{◌≡◌, ◌+◌, ◌≤◌, length};
ghost use Rattle.cells.specs.rule.Cell.{pasted};
ghost use Rattle.layout.specs.rule.Layout.{row_size, header_size};
ghost use Rattle.rows.specs.Cells.{SmallRow, SmallHeader};
ghost use Rattle.rows.specs.rule.Cells.{row_cells, header_cells};

use layout::{Columns, Header, Row};

// The numbers of a row, column by column.
pub fn row_cells(c: Columns) -> [i64; Row::SIZE]
    requires { SmallRow c }
    ensures { result ≡ row_cells c }
{
    let from = c.from;
    let to = c.to;
    [
        cells::cell_of(c.ident),
        cells::cell_of(c.kind),
        cells::cell_of(c.start),
        cells::cell_of(c.finish),
        cells::cell_of(c.width),
        cells::cell_of(c.decimals),
        cells::cell_of(c.point),
        cells::cell_of(c.subfields),
        cells::cell_of(c.subwidth),
        cells::cell_of(c.range),
        from,
        to,
        cells::cell_of(c.before),
        cells::cell_of(c.lines),
        cells::cell_of(c.name),
        cells::cell_of(c.name_len),
        cells::cell_of(c.label),
        cells::cell_of(c.label_len),
        cells::cell_of(c.usage),
        cells::cell_of(c.filter),
    ]
}

// A row over the numbers from a place on.
pub fn put_row(t: &mut [i64], at: usize, c: Columns)
    requires { SmallRow c × (at + row_size ≤ length t.old) }
    ensures { t.new ≡ pasted t.old at (row_cells c) }
{
    let numbers = row_cells(c);
    cells::paste(t, at, &numbers);
}

// A header over the first numbers of a table.
pub fn put_header(t: &mut [i64], h: Header)
    requires { SmallHeader h × (header_size ≤ length t.old) }
    ensures { t.new ≡ pasted t.old 0 (header_cells h) }
{
    let numbers = [
        cells::cell_of(h.mark),
        cells::cell_of(h.rows),
        cells::cell_of(h.lines),
        cells::cell_of(h.length),
        cells::cell_of(h.rows_at),
        cells::cell_of(h.lines_at),
    ];
    cells::paste(t, 0, &numbers);
}
