// The layout of a table: its header, rows and lines, the numbers of their columns and sizes, each named once, and what the
// numbers of a row mean. Above it stand the widths of numbers, the test of a table and everything that reads a row.
#![tactic(auto)]

ghost use Rattle.std.specs.Prelude.{◌≡◌, ◌+◌, ◌≤◌, length};
ghost use Rattle.layout.specs.rule.Layout.{row_size, line_size, row_base, line_base, most_rows, most_lines, header_of, columns_at, line_at};
ghost use Rattle.layout.specs.rule.Row.{spread_of, kind_of, row_of, row_at};

// How a quantity's numbers stand in the data: how many decimals, and the code of its point: 0 none, 1 a point, 2 a point that needs no
// digit before it.
#[derive(Clone, Copy)]
pub struct Format {
    pub decimals: usize,
    pub point: usize,
}

// How a multiple's set stands in the data: a byte for each category, or so many subfields of so many bytes.
#[derive(Clone, Copy)]
pub enum Spread {
    Bits,
    Fields { count: usize, width: usize },
}

#[derive(Clone, Copy)]
pub enum Kind {
    Single,
    Multiple(Spread),
    Quantity(Format),
    Character,
    Logical,
}

// The header's numbers, as counts.
#[derive(Clone, Copy)]
pub struct Header {
    pub mark: usize,
    pub rows: usize,
    pub lines: usize,
    pub length: usize,
    pub rows_at: usize,
    pub lines_at: usize,
}

// A row's numbers as they stand, as counts but for from and to.
#[derive(Clone, Copy)]
pub struct Columns {
    pub ident: usize,
    pub kind: usize,
    pub start: usize,
    pub finish: usize,
    pub width: usize,
    pub decimals: usize,
    pub point: usize,
    pub subfields: usize,
    pub subwidth: usize,
    pub range: usize,
    pub from: i64,
    pub to: i64,
    pub before: usize,
    pub lines: usize,
    pub name: usize,
    pub name_len: usize,
    pub label: usize,
    pub label_len: usize,
    pub usage: usize,
    pub filter: usize,
}

// A line's numbers, as counts but for its value.
#[derive(Clone, Copy)]
pub struct Line {
    pub value: i64,
    pub special: usize,
    pub text: usize,
    pub text_len: usize,
}

// A row as what its numbers mean. Use and filter are not among them: no reading, judgement or write goes by these.
#[derive(Clone, Copy)]
pub struct Row {
    pub ident: usize,
    pub kind: Kind,
    pub start: usize,
    pub finish: usize,
    pub width: usize,
    pub range: bool,
    pub from: i64,
    pub to: i64,
    pub before: usize,
    pub lines: usize,
}

impl Header {
    pub const SIZE: usize = 6;

    // The first number of every table of a 1.1 definition.
    pub const MARK: usize = 11;

    // The same of one in XML.
    pub const MARK_XML: usize = 12;

    pub const MOST_ROWS: usize = 512;

    pub const MOST_LINES: usize = 4096;

    const ROWS: usize = 1;

    const LINES: usize = 2;

    const LENGTH: usize = 3;

    const ROWS_AT: usize = 4;

    const LINES_AT: usize = 5;

    pub fn read(t: &[i64]) -> Header
        ensures { result ≡ header_of t.now }
    {
        Header {
            mark: cells::count(t, 0),
            rows: cells::count(t, Header::ROWS),
            lines: cells::count(t, Header::LINES),
            length: cells::count(t, Header::LENGTH),
            rows_at: cells::count(t, Header::ROWS_AT),
            lines_at: cells::count(t, Header::LINES_AT),
        }
    }
}

impl Line {
    pub const SIZE: usize = 4;

    const SPECIAL: usize = 1;

    const TEXT: usize = 2;

    const TEXT_LEN: usize = 3;

    // Where line j stands in a table of so many rows.
    pub fn base(rows: usize, j: usize) -> usize
        requires { (rows ≤ most_rows) × (j ≤ most_lines) }
        ensures { result ≡ line_base rows j }
    {
        Header::SIZE + Row::SIZE * rows + Line::SIZE * j
    }

    // The line whose numbers start at a place of the table.
    pub fn read(t: &[i64], at: usize) -> Line
        requires { at + line_size ≤ length t.now }
        ensures { result ≡ line_at t.now at }
    {
        let value = t[at];
        Line {
            value,
            special: cells::count_at(t, at + Line::SPECIAL),
            text: cells::count_at(t, at + Line::TEXT),
            text_len: cells::count_at(t, at + Line::TEXT_LEN),
        }
    }
}

impl Columns {
    // The columns whose numbers start at a place of the table.
    pub fn read(t: &[i64], at: usize) -> Columns
        requires { at + row_size ≤ length t.now }
        ensures { result ≡ columns_at t.now at }
    {
        let from = t[at + Row::FROM];
        let to = t[at + Row::TO];
        Columns {
            ident: cells::count_at(t, at + Row::IDENT),
            kind: cells::count_at(t, at + Row::TYPE),
            start: cells::count_at(t, at + Row::START),
            finish: cells::count_at(t, at + Row::FINISH),
            width: cells::count_at(t, at + Row::WIDTH),
            decimals: cells::count_at(t, at + Row::DECIMALS),
            point: cells::count_at(t, at + Row::POINT),
            subfields: cells::count_at(t, at + Row::SUBFIELDS),
            subwidth: cells::count_at(t, at + Row::SUBWIDTH),
            range: cells::count_at(t, at + Row::RANGE),
            from,
            to,
            before: cells::count_at(t, at + Row::BEFORE),
            lines: cells::count_at(t, at + Row::LINES),
            name: cells::count_at(t, at + Row::NAME),
            name_len: cells::count_at(t, at + Row::NAME_LEN),
            label: cells::count_at(t, at + Row::LABEL),
            label_len: cells::count_at(t, at + Row::LABEL_LEN),
            usage: cells::count_at(t, at + Row::USE),
            filter: cells::count_at(t, at + Row::FILTER),
        }
    }
}

// A multiple with subfields is a spread, one without a bitstring.
pub fn spread_of(count: usize, width: usize) -> Spread
    ensures { result ≡ spread_of count width }
{
    if count == 0 {
        Spread::Bits
    } else {
        Spread::Fields { count, width }
    }
}

// The kind of a row of type 1 to 5; the last for every other number.
pub fn kind_of(c: Columns) -> Kind
    ensures { result ≡ kind_of c }
{
    let kind = c.kind;
    match kind {
        1 => Kind::Single,
        2 => Kind::Multiple(spread_of(c.subfields, c.subwidth)),
        3 => Kind::Quantity(Format {
            decimals: c.decimals,
            point: c.point,
        }),
        4 => Kind::Character,
        _ => Kind::Logical,
    }
}

impl Row {
    pub const SIZE: usize = 20;

    pub const IDENT: usize = 0;

    pub const TYPE: usize = 1;

    pub const START: usize = 2;

    pub const FINISH: usize = 3;

    pub const WIDTH: usize = 4;

    pub const DECIMALS: usize = 5;

    pub const POINT: usize = 6;

    pub const SUBFIELDS: usize = 7;

    pub const SUBWIDTH: usize = 8;

    pub const RANGE: usize = 9;

    pub const FROM: usize = 10;

    pub const TO: usize = 11;

    pub const BEFORE: usize = 12;

    pub const LINES: usize = 13;

    pub const NAME: usize = 14;

    pub const NAME_LEN: usize = 15;

    pub const LABEL: usize = 16;

    pub const LABEL_LEN: usize = 17;

    // 0 none, 1 serial, 2 weight.
    pub const USE: usize = 18;

    // The number plus one of the row that filters this one, 0 where none does.
    pub const FILTER: usize = 19;

    // Where row i stands in a table.
    pub fn base(i: usize) -> usize
        requires { i ≤ most_rows }
        ensures { result ≡ row_base i }
    {
        Header::SIZE + Row::SIZE * i
    }

    // What a row's columns mean.
    pub fn of(c: Columns) -> Row
        ensures { result ≡ row_of c }
    {
        let kind = kind_of(c);
        let from = c.from;
        let to = c.to;
        Row {
            ident: c.ident,
            kind,
            start: c.start,
            finish: c.finish,
            width: c.width,
            range: c.range == 1,
            from,
            to,
            before: c.before,
            lines: c.lines,
        }
    }

    // Row i of a table.
    pub fn read(t: &[i64], i: usize) -> Row
        requires { (i ≤ most_rows) × (row_base i + row_size ≤ length t.now) }
        ensures { result ≡ row_at t.now i }
    {
        Row::of(Columns::read(t, Row::base(i)))
    }
}
