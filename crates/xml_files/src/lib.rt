// A definition in XML as a whole, read into rooms for rows and lines: all its variables, what stands before and behind them, and the names.
// Above it stands the call for both kinds of a definition.
#![tactic(auto)]

ghost use Rattle.std.specs.Prelude.{◌≡◌, Bool, ◌+◌, ◌*◌, ◌≤◌, ◌<◌, length};
ghost use Rattle.ascii.specs.Class.{Classes};
ghost use Rattle.ascii.specs.rule.Tens.{Tens};
ghost use Rattle.layout.specs.rule.Layout.{row_size, line_size, most_rows, most_lines};
ghost use Rattle.laying.specs.Code.{zeros};
ghost use Rattle.filters.specs.Code.{column_in, Lying};
ghost use Rattle.prefaces.specs.Code.{rule_of};
ghost use Rattle.xml_reading.specs.rule.Sheet.{variables, sheet};
ghost use Rattle.xml_reading.specs.rule.Whole.{xml_settled, sheet_of, xml_outcome};
ghost use Rattle.sheets.specs.Code.{Knowing, Joined};
ghost use Rattle.xml_files.specs.Code.{begun_at, Turned, run_of, Laid, NamesSettled, RoomsRead, body_of};

use elements::Open;
use laying::{Rooms, Tally};
use layout::Row;
use prefaces::{Manner, Prefaced};
use prologs::Prolog;
use sheets::Entered;
use tokens::{Fault, OrFault};

// ---- all variables
// A variable whose start tag stands there, or another tag.
fn begin_variable(
    powers: &[u64; 16],
    bad: bool,
    d: &[u8],
    place: usize,
    end: usize,
    m: Manner,
    seen: &[u8],
    y: Tally,
    rows: &mut [i64],
    lines: &mut [i64],
    marks: &mut [u16],
    sums: &[u16],
) -> Entered
    requires tens { Tens powers.now }
    requires d_len_bound { (length d.now ≤ 1048576) × (place + 1 ≤ end) × (end ≤ length d.now) }
    requires lines_len { (length lines.old ≡ line_size * most_lines) × (length marks.old ≡ 16384) }
    requires knowing { Knowing m.latin d.now seen.now y rows.old sums.now }
    ensures { Joined d.now seen.now y rows.old rows.new lines.old
        lines.new (begun_at bad d.now (rule_of m) place end) result }
{
    if !tags::is_named(d, place + 1, end, b"variable") {
        return Entered::Not(elements::misplaced(bad, d, place, end));
    }
    sheets::variable_at(
        powers, bad, d, m, place, end, seen, y, rows, lines, marks, sums,
    )
}

// One more variable; the end of the record, at a place; or the refusal.
#[derive(Clone, Copy)]
pub enum Turn {
    More {
        ident: usize,
        tally: Tally,
        next: usize,
    },
    Over(usize),
    Not(Fault),
}

// The first variable is due; behind it the record may end.
fn one_variable(
    powers: &[u64; 16],
    bad: bool,
    d: &[u8],
    at: usize,
    m: Manner,
    seen: &[u8],
    y: Tally,
    rows: &mut [i64],
    lines: &mut [i64],
    marks: &mut [u16],
    sums: &[u16],
) -> Turn
    requires tens { Tens powers.now }
    requires d_len_bound { (length d.now ≤ 1048576) × (at ≤ length d.now) }
    requires lines_len { (length lines.old ≡ line_size * most_lines) × (length marks.old ≡ 16384) }
    requires knowing { Knowing m.latin d.now seen.now y rows.old sums.now }
    ensures { Turned bad d.now (rule_of m) seen.now y at rows.old rows.new
        lines.old lines.new result }
{
    match elements::find_open(bad, d, at, b"record") {
        Open::Start { place, end } => match begin_variable(
            powers, bad, d, place, end, m, seen, y, rows, lines, marks, sums,
        ) {
            Entered::Is { ident, tally, next } => Turn::More { ident, tally, next },
            Entered::Not(f) => Turn::Not(f),
        },
        Open::Shut { place, next } => {
            if y.rows == 0 {
                return Turn::Not(Fault { number: 2, place });
            }
            Turn::Over(next)
        }
        Open::Not(f) => Turn::Not(f),
    }
}

// The variables, and the place behind the end tag of their record.
#[derive(Clone, Copy)]
pub enum Run {
    Is { tally: Tally, next: usize },
    Not(Fault),
}

fn read_variables(
    powers: &[u64; 16],
    bad: bool,
    d: &[u8],
    from: usize,
    m: Manner,
    rows: &mut [i64],
    lines: &mut [i64],
    marks: &mut [u16],
    seen: &mut [u8],
) -> Run
    requires tens { Tens powers.now }
    requires d_len_bound { (length d.now ≤ 1048576) × (from ≤ length d.now) }
    requires rows_len { (length rows.old ≡ row_size * most_rows) × (length lines.old ≡ line_size * most_lines)
        × (length marks.old ≡ 16384) }
    requires seen_value { seen.old ≡ zeros 10000 }
    ensures value { result ≡ run_of (variables bad d.now (rule_of m) from) }
    ensures laid { Laid (variables bad d.now (rule_of m) from) rows.new lines.new }
{
    let mut at = from;
    let mut y = Tally {
        rows: 0,
        lines: 0,
        length: 0,
    };
    let mut sums = [0u16; filters::SUMS];
    loop {
        match one_variable(powers, bad, d, at, m, seen, y, rows, lines, marks, &sums) {
            Turn::More { ident, tally, next } => {
                filters::note_row(m.latin, d, rows, y.rows, &mut sums);
                seen[ident] = 1;
                y = tally;
                at = next;
            }
            Turn::Over(next) => {
                return Run::Is { tally: y, next };
            }
            Turn::Not(f) => {
                return Run::Not(f);
            }
        }
    }
}

// ---- the names
// The place of a row's name.
fn name_place(rows: &[i64], i: usize) -> usize
    requires { (i < most_rows) × (length rows.now ≡ row_size * most_rows) }
    ensures { result ≡ column_in rows.now i 14 }
{
    cells::count_at(rows, Row::SIZE * i + Row::NAME)
}

// Behind the root's end tag: 9 at the text of the first name at fault.
fn settle(
    classes: &[u8; 256],
    latin: bool,
    d: &[u8],
    standard: bool,
    y: Tally,
    rows: &[i64],
) -> Rooms
    requires classes { Classes classes.now }
    requires lying { Lying (length d.now) rows.now y.rows }
    ensures { NamesSettled latin d.now standard y rows.now result }
{
    if !standard {
        return Rooms::Held(y);
    }
    let i = filters::names_fault(classes, latin, d, rows, y.rows);
    if i < y.rows {
        return Rooms::Refused {
            number: 9,
            place: name_place(rows, i),
        };
    }
    Rooms::Held(y)
}

// ---- the whole
// Behind the preface.
fn read_body(
    classes: &[u8; 256],
    powers: &[u64; 16],
    bad: bool,
    latin: bool,
    d: &[u8],
    m: Manner,
    at: usize,
    rows: &mut [i64],
    lines: &mut [i64],
    marks: &mut [u16],
    seen: &mut [u8],
) -> Rooms
    requires classes { Classes classes.now }
    requires tens { Tens powers.now }
    requires d_len_bound { (length d.now ≤ 1048576) × (at ≤ length d.now) }
    requires rows_len { (length rows.old ≡ row_size * most_rows) × (length lines.old ≡ line_size * most_lines)
        × (length marks.old ≡ 16384) }
    requires seen_value { seen.old ≡ zeros 10000 }
    ensures { RoomsRead (λ n. xml_settled latin d.now n (body_of bad d.now (rule_of m) at)) rows.new
        lines.new result }
{
    match read_variables(powers, bad, d, at, m, rows, lines, marks, seen) {
        Run::Is { tally, next } => match prefaces::read_closing(bad, d, next) {
            Ok(_) => settle(classes, latin, d, m.standard, tally, rows),
            Err(f) => Rooms::Refused {
                number: f.number,
                place: f.place,
            },
        },
        Run::Not(f) => Rooms::Refused {
            number: f.number,
            place: f.place,
        },
    }
}

// Behind the declaration, in a file that is legal up to its end or `bad` there.
fn read_sheet(
    classes: &[u8; 256],
    powers: &[u64; 16],
    bad: bool,
    latin: bool,
    d: &[u8],
    at: usize,
    rows: &mut [i64],
    lines: &mut [i64],
    marks: &mut [u16],
    seen: &mut [u8],
) -> Rooms
    requires classes { Classes classes.now }
    requires tens { Tens powers.now }
    requires d_len_bound { (length d.now ≤ 1048576) × (at ≤ length d.now) }
    requires rows_len { (length rows.old ≡ row_size * most_rows) × (length lines.old ≡ line_size * most_lines)
        × (length marks.old ≡ 16384) }
    requires seen_value { seen.old ≡ zeros 10000 }
    ensures { RoomsRead (λ n. xml_settled latin d.now n (sheet bad d.now latin at)) rows.new
        lines.new result }
{
    match prefaces::read_preface(bad, latin, d, at) {
        Prefaced::Is { manner, next } => read_body(
            classes, powers, bad, latin, d, manner, next, rows, lines, marks, seen,
        ),
        Prefaced::Not(f) => Rooms::Refused {
            number: f.number,
            place: f.place,
        },
    }
}

// The whole definition, with rooms for rows and lines: those of the call, which may read a definition of the other kind into them.
pub fn read_in(
    classes: &[u8; 256],
    powers: &[u64; 16],
    d: &[u8],
    rows: &mut [i64],
    lines: &mut [i64],
    marks: &mut [u16],
    seen: &mut [u8],
) -> Rooms
    requires classes { Classes classes.now }
    requires tens { Tens powers.now }
    requires d_len_bound { length d.now ≤ 1048576 }
    requires rows_len { (length rows.old ≡ row_size * most_rows) × (length lines.old ≡ line_size * most_lines)
        × (length marks.old ≡ 16384) }
    requires seen_value { seen.old ≡ zeros 10000 }
    ensures { RoomsRead (xml_outcome d.now) rows.new lines.new result }
{
    match prologs::read_declaration(d) {
        Prolog::Read { latin, next } => {
            let q = utf::first_bad(latin, d, next);
            read_sheet(
                classes,
                powers,
                q < d.len(),
                latin,
                &d[..q],
                next,
                rows,
                lines,
                marks,
                seen,
            )
        }
        Prolog::Fault { number, place } => Rooms::Refused { number, place },
    }
}
