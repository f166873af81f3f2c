// A Triple-S 1.1 definition read into a lent table: the public call. The text is read once, into rows and lines of the call's own,
// so that every refusal keeps the table; they are laid into it at the end, or held against it where a caller asks whether a table is the
// definition's own. Above it stand the face, the lister and the writers of texts.
#![tactic(auto)]

ghost use Rattle.std.specs.Prelude.{◌≡◌, [], ◌+◌, ◌-◌, ◌*◌, ◌≤◌, ◌<◌, length};
ghost use Rattle.ascii.specs.Class.{Classes};
ghost use Rattle.ascii.specs.rule.Tens.{Tens};
ghost use Rattle.cells.specs.rule.Cell.{cell, count_of};
ghost use Rattle.layout.specs.rule.Layout.{mark_xml, row_size, line_size, most_rows, most_lines};
ghost use Rattle.rows.specs.Cells.{name_column};
ghost use Rattle.values.specs.Room.{short, Unless};
ghost use Rattle.variables.specs.Ident.{marked};
ghost use Rattle.entries.specs.Entry.{entry_of, Stored};
ghost use Rattle.laying.specs.rule.Begins.{begins_table};
ghost use Rattle.laying.specs.Code.{zeros, cells_in, filled_over};
ghost use Rattle.definition.specs.rule.Definition.{SssRead};
ghost use Rattle.definition.specs.rule.Against.{sss_against};
ghost use Rattle.definition.specs.Books.{course, variables_from, ends_on};
ghost use Rattle.definition.specs.Code.{followed, turn_after, RowStored, run_of, Laid, NamesJudged, NamesSettled, RoomsRead};
ghost use Rattle.definition.specs.Code.{fill_says, compared_by, Lacking};

use entries::Stood;
use laying::{Rooms, Tally};
use layout::{Header, Row};
use tokens::{Choice, Fault, OrFault};

// The outcome: how many variables and value lines were read; or the refusal's number and place.
#[derive(Clone, Copy)]
pub enum Answer {
    Read { rows: usize, lines: usize },
    Refused { number: usize, place: usize },
}

// What follows a variable: another one, or END and the place after it.
#[derive(Clone, Copy)]
pub enum Turn {
    More {
        ident: usize,
        tally: Tally,
        at: OrFault<usize>,
    },
    Over {
        tally: Tally,
        next: usize,
    },
    Not(Fault),
}

fn follow(classes: &[u8; 256], d: &[u8], ident: usize, y: Tally, next: usize) -> Turn
    requires { Classes classes.now }
    ensures { result ≡ followed d.now ident y next }
{
    let n = statements::notes_on(classes, d, Ok(next));
    match tokens::perhaps(classes, d, n, b"END") {
        Choice::Taken(m) => Turn::Over { tally: y, next: m },
        Choice::Left => Turn::More {
            ident,
            tally: y,
            at: n,
        },
    }
}

// One variable: read, its row and lines stored behind those before, and what follows it. A room too small for it is said by 0.
fn one_variable(
    classes: &[u8; 256],
    powers: &[u64; 16],
    d: &[u8],
    at: OrFault<usize>,
    seen: &[u8],
    y: Tally,
    rows: &mut [i64],
    lines: &mut [i64],
    marks: &mut [u16],
) -> Turn
    requires classes { Classes classes.now }
    requires tens { Tens powers.now }
    requires d_len_bound { length d.now ≤ 1048576 }
    requires rows_le_most_rows { (y.rows ≤ most_rows) × (y.lines ≤ most_lines) }
    requires lines_in_bounds { (line_size * y.lines ≤ length lines.old) × (length marks.old ≡ 16384) }
    requires seen_len { length seen.now ≡ 10000 }
    ensures { Unless (result ≡ Turn.Not short) (Lacking rows.old lines.old)
        ((result ≡ turn_after d.now y (entry_of d.now at (marked seen.now) y.rows y.lines))
        × RowStored y (entry_of d.now at (marked seen.now) y.rows y.lines) rows.old rows.new
        × Stored y.lines (entry_of d.now at (marked seen.now) y.rows y.lines) lines.old
        lines.new) }
{
    let count = y.rows;
    let stamp = (count + 1) as u16;
    match entries::variable_on(
        classes, powers, d, at, seen, count, y.lines, lines, marks, stamp,
    ) {
        Stood::Is {
            columns,
            last,
            next,
        } => {
            if rows.len() < Row::SIZE * count + Row::SIZE {
                return Turn::Not(Fault {
                    number: 0,
                    place: 0,
                });
            }
            rows::put_row(rows, Row::SIZE * count, columns);
            let more = laying::tally_with(y, columns, last);
            follow(classes, d, columns.ident, more, next)
        }
        Stood::Not(f) => Turn::Not(f),
    }
}

// The variables and the END behind them, with the place after it.
#[derive(Clone, Copy)]
pub enum Run {
    Is { tally: Tally, next: usize },
    Not(Fault),
}

fn read_variables(
    classes: &[u8; 256],
    powers: &[u64; 16],
    d: &[u8],
    t: OrFault<usize>,
    rows: &mut [i64],
    lines: &mut [i64],
    marks: &mut [u16],
    seen: &mut [u8],
) -> Run
    requires classes { Classes classes.now }
    requires tens { Tens powers.now }
    requires d_len_bound { length d.now ≤ 1048576 }
    requires marks_len { length marks.old ≡ 16384 }
    requires seen_value { seen.old ≡ zeros 10000 }
    ensures { Unless (result ≡ Run.Not short) (Lacking rows.old lines.old)
        ((result ≡ run_of (variables_from d.now (course t [])))
        × Laid (variables_from d.now (course t [])) rows.old rows.new lines.old
        lines.new) }
{
    let mut at = t;
    let mut y = Tally {
        rows: 0,
        lines: 0,
        length: 0,
    };
    loop {
        match one_variable(classes, powers, d, at, seen, y, rows, lines, marks) {
            Turn::More {
                ident,
                tally,
                at: next,
            } => {
                seen[ident] = 1;
                y = tally;
                at = next;
            }
            Turn::Over { tally, next } => {
                return Run::Is { tally, next };
            }
            Turn::Not(f) => {
                return Run::Not(f);
            }
        }
    }
}

// END RECORD, END SURVEY, END SSS, behind the first END.
fn read_ends(classes: &[u8; 256], d: &[u8], next: usize) -> OrFault<usize>
    requires { Classes classes.now }
    ensures { result ≡ ends_on d.now next }
{
    let a = tokens::word_on(classes, d, Ok(next), b"RECORD");
    let b = statements::statement_on(classes, d, a, b"END");
    let c = tokens::word_on(classes, d, b, b"SURVEY");
    let e = statements::statement_on(classes, d, c, b"END");
    tokens::word_on(classes, d, e, b"SSS")
}

// The place of a row's name.
fn name_place(rows: &[i64], i: usize) -> usize
    requires { (i < most_rows) × (row_size * i + row_size ≤ length rows.now) }
    ensures { result ≡ count_of (cell rows.now (row_size * i + name_column)) }
{
    cells::count_at(rows, Row::SIZE * i + Row::NAME)
}

// The first row whose name breaks STANDARD NAMES; the count where none does.
fn names_fault(classes: &[u8; 256], d: &[u8], rows: &[i64], count: usize) -> usize
    requires classes { Classes classes.now }
    requires count_le_most_rows { (count ≤ most_rows) × (row_size * count ≤ length rows.now) }
    ensures { NamesJudged d.now rows.now count result }
{
    let mut keys = [0u64; Header::MOST_ROWS];
    for i in 0..count {
        keys[i] = names::name_key(classes, d, name_place(rows, i));
    }
    names::first_fault(&keys, count)
}

// The opening quote before a text.
fn quote_before(place: usize) -> usize
    ensures { result ≡ place - 1 }
{
    if place == 0 { 0 } else { place - 1 }
}

// After END SSS: 9.
fn settle(classes: &[u8; 256], d: &[u8], standard: bool, y: Tally, rows: &[i64]) -> Rooms
    requires classes { Classes classes.now }
    requires rows_le_most_rows { (y.rows ≤ most_rows) × (row_size * y.rows ≤ length rows.now) }
    ensures { NamesSettled d.now standard y rows.now result }
{
    if !standard {
        return Rooms::Held(y);
    }
    let i = names_fault(classes, d, rows, y.rows);
    if i < y.rows {
        return Rooms::Refused {
            number: 9,
            place: quote_before(name_place(rows, i)),
        };
    }
    Rooms::Held(y)
}

// The whole definition, with rooms for rows and lines: those of the call, which may read a definition of the other kind into them. They
// may be of any length: 0 at 0 says that it has more rows or lines than they hold.
pub fn read_in(
    classes: &[u8; 256],
    powers: &[u64; 16],
    d: &[u8],
    rows: &mut [i64],
    lines: &mut [i64],
    marks: &mut [u16],
    seen: &mut [u8],
) -> Rooms
    requires classes { Classes classes.now }
    requires tens { Tens powers.now }
    requires d_len_bound { length d.now ≤ 1048576 }
    requires marks_len { length marks.old ≡ 16384 }
    requires seen_value { seen.old ≡ zeros 10000 }
    ensures { Unless (result ≡ Rooms.Refused 0 0) (Lacking rows.old lines.old)
        (RoomsRead d.now rows.new lines.new result) }
{
    let front = heading::read_front(classes, d);
    let h = front.heading;
    let t = front.next;
    match read_variables(classes, powers, d, t, rows, lines, marks, seen) {
        Run::Is { tally, next } => match read_ends(classes, d, next) {
            Ok(_) => settle(classes, d, h.standard, tally, rows),
            Err(f) => Rooms::Refused {
                number: f.number,
                place: f.place,
            },
        },
        Run::Not(f) => Rooms::Refused {
            number: f.number,
            place: f.place,
        },
    }
}

// 10 where the table is too short; else it is filled, by the mark of the definition's kind.
pub fn fill(mark: usize, rows: &[i64], lines: &[i64], y: Tally, table: &mut [i64]) -> Answer
    requires mark_le_mark_xml { mark ≤ mark_xml }
    requires rows_le_most_rows { (y.rows ≤ most_rows) × (y.lines ≤ most_lines) × (y.length ≤ 16384) }
    requires rows_in_bounds { (row_size * y.rows ≤ length rows.now) × (line_size * y.lines ≤ length lines.now) }
    ensures value { result ≡ fill_says y (length table.old) }
    ensures table_after { table.new ≡ filled_over mark y rows.now lines.now table.old }
{
    if laying::fill(mark, rows, lines, y, table) {
        Answer::Read {
            rows: y.rows,
            lines: y.lines,
        }
    } else {
        Answer::Refused {
            number: 10,
            place: 0,
        }
    }
}

// Reads a definition into a lent table. The table is filled from its start, or kept whole.
pub fn read_definition(d: &[u8], table: &mut [i64]) -> Answer
    ensures { SssRead d.now table.old table.new result }
{
    if 1_048_576 < d.len() {
        return Answer::Refused {
            number: 1,
            place: 0,
        };
    }
    let classes = ascii::classes();
    let powers = ascii::powers();
    let mut rows = [0i64; laying::ROWS_ROOM];
    let mut lines = [0i64; laying::LINES_ROOM];
    let mut marks = [0u16; 16384];
    let mut seen = [0u8; 10000];
    match read_in(
        &classes, &powers, d, &mut rows, &mut lines, &mut marks, &mut seen,
    ) {
        Rooms::Held(y) => fill(Header::MARK, &rows, &lines, y, table),
        Rooms::Refused { number, place } => Answer::Refused { number, place },
    }
}

// Whether a table is the one that a definition yields; or the definition's refusal, 1 to 9.
#[derive(Clone, Copy)]
pub enum Against {
    Same,
    Other,
    Refused { number: usize, place: usize },
}

// The table that the rooms hold against another.
pub fn compare(mark: usize, rows: &[i64], lines: &[i64], y: Tally, t: &[i64]) -> Against
    requires mark_le_mark_xml { mark ≤ mark_xml }
    requires rows_le_most_rows { (y.rows ≤ most_rows) × (y.lines ≤ most_lines) × (y.length ≤ 16384) }
    requires rows_in_bounds { (row_size * y.rows ≤ length rows.now) × (line_size * y.lines ≤ length lines.now) }
    ensures { result ≡ compared_by (begins_table (cells_in mark y rows.now lines.now) t.now) }
{
    if laying::matches(mark, rows, lines, y, t) {
        Against::Same
    } else {
        Against::Other
    }
}

// Holds a table against a definition: no second table, the rooms are compared in place.
pub fn judge_against(d: &[u8], t: &[i64]) -> Against
    ensures { result ≡ sss_against d.now t.now }
{
    if d.len() > 1_048_576 {
        return Against::Refused {
            number: 1,
            place: 0,
        };
    }
    let classes = ascii::classes();
    let powers = ascii::powers();
    let mut rows = [0i64; laying::ROWS_ROOM];
    let mut lines = [0i64; laying::LINES_ROOM];
    let mut marks = [0u16; 16384];
    let mut seen = [0u8; 10000];
    match read_in(
        &classes, &powers, d, &mut rows, &mut lines, &mut marks, &mut seen,
    ) {
        Rooms::Held(y) => compare(Header::MARK, &rows, &lines, y, t),
        Rooms::Refused { number, place } => Against::Refused { number, place },
    }
}
