// A variable of a definition in XML, from behind the name of its start tag on: its columns into a room for rows, its value lines into one
// for lines. Above it stands the definition as a whole (`xml_files`).
#![tactic(auto)]

ghost use Rattle.std.specs.Prelude.{◌≡◌, List, ◌+◌, ◌*◌, ◌≤◌, ◌<◌, length};
ghost use Rattle.ascii.specs.Class.{Classes};
ghost use Rattle.ascii.specs.rule.Tens.{Tens};
ghost use Rattle.cells.specs.rule.Cell.{pasted};
ghost use Rattle.layout.specs.rule.Layout.{row_size, line_size, most_rows, most_lines};
ghost use Rattle.rows.specs.rule.Cells.{row_cells};
ghost use Rattle.rows.specs.Cells.{SmallRow};
ghost use Rattle.values.specs.Block.{empty_block};
ghost use Rattle.measures.specs.Width.{number_in, Measurable};
ghost use Rattle.entries.specs.Entry.{settled_by};
ghost use Rattle.reading.specs.rule.Result.{Is, bind};
ghost use Rattle.bridge.specs.Statements.{to_stated};
ghost use Rattle.laying.specs.Code.{zeros, tally_with};
ghost use Rattle.xml_reading.specs.rule.Open.{over};
ghost use Rattle.xml_reading.specs.rule.Block.{rich};
ghost use Rattle.xml_reading.specs.rule.Role.{XmlEntry};
ghost use Rattle.xml_reading.specs.rule.Variable.{with, variable};
ghost use Rattle.xml_reading.specs.rule.Sheet.{variables, sheet};
ghost use Rattle.xml_reading.specs.rule.Whole.{used_by, xml_settled};
ghost use Rattle.elements.specs.Code.{read_of, due_of, Within, phrase_of};
ghost use Rattle.filters.specs.Sums.{Known};
ghost use Rattle.prefaces.specs.Code.{reading_of, rule_of, Inside};
ghost use Rattle.sheets.specs.declared.Fronted.TheVariants as fronted;
ghost use Rattle.sheets.specs.declared.Entered.TheVariants as entered;
ghost use Rattle.sheets.specs.Code.{due_in, label_in, position_in, end_in, values_ended, size_ended, content_by};
ghost use Rattle.sheets.specs.Code.{DueEnds, PhraseEnds, StatedEnds, FrontEnds, NameSaid, placed_of, FrontSaid, sifted_of, FilterSaid};
ghost use Rattle.sheets.specs.Code.{SiftSaid};
ghost use Rattle.sheets.specs.Code.{Valued, plain_of, sized_of, Rests, placeless_of, Before, Knowing, FrontRead, Bodied, Joined, Turned};
ghost use Rattle.sheets.specs.Code.{run_of, Laid};
ghost use Rattle.sheets.specs.Code.{NamesSettled, RoomsRead, outcome_in};

use elements::{Due, Open};
use entries::Stood;
use filters::{Filtered, Titled};
use laying::{Rooms, Tally};
use layout::{Columns, Row};
use prefaces::{Manner, Prefaced};
use prologs::Prolog;
use statements::Position;
use tokens::{Fault, OrFault, Quoted};
use values::{Block, Listed};
use variables::{Head, Rest};

// ---- inside a variable
// The start tag of an element w is due.
fn next_due(bad: bool, d: &[u8], at: usize, w: &[u8]) -> Due
    requires { at ≤ length d.now }
    ensures { (result ≡ due_of (due_in bad d.now w.now at)) × DueEnds d.now result }
{
    let o = elements::find_open(bad, d, at, b"variable");
    elements::tag_due(bad, d, o, w)
}

// The mode of a text that may hold breaks.
fn mode_of(languages: bool) -> usize
    ensures { result ≡ rich languages }
{
    if languages { 2 } else { 1 }
}

fn label_in(bad: bool, d: &[u8], languages: bool, at: usize) -> OrFault<Quoted>
    requires { at ≤ length d.now }
    ensures { (result ≡ phrase_of (label_in bad d.now languages at)) × PhraseEnds d.now result }
{
    match next_due(bad, d, at, b"label") {
        Due::At { place, end } => {
            let mode = mode_of(languages);
            elements::text_at(bad, d, place, end, b"label", mode)
        }
        Due::Not(f) => Err(f),
    }
}

fn position_in(bad: bool, d: &[u8], at: usize) -> OrFault<Position>
    requires { at ≤ length d.now }
    ensures { (result ≡ to_stated (position_in bad d.now at)) × StatedEnds d.now result }
{
    match next_due(bad, d, at, b"position") {
        Due::At { place, end } => elements::position_at(bad, d, place, end),
        Due::Not(f) => Err(f),
    }
}

// The end tag of the variable, where something stands.
fn close_in(bad: bool, d: &[u8], o: Open) -> OrFault<usize>
    requires { Within d.now 0 o }
    ensures { (result ≡ reading_of (bind (read_of o) (over bad d.now))) × Inside d.now result }
{
    match o {
        Open::Start { place, end } => Err(elements::misplaced(bad, d, place, end)),
        Open::Shut { place: _, next } => Ok(next),
        Open::Not(f) => Err(f),
    }
}

fn end_in(bad: bool, d: &[u8], at: usize) -> OrFault<usize>
    requires { at ≤ length d.now }
    ensures { (result ≡ reading_of (end_in bad d.now at)) × Inside d.now result }
{
    let o = elements::find_open(bad, d, at, b"variable");
    close_in(bad, d, o)
}

// ---- a variable up to its position
fn name_in(
    bad: bool,
    d: &[u8],
    m: Manner,
    rows: &[i64],
    count: usize,
    at: usize,
    sums: &[u16],
) -> OrFault<Quoted>
    requires known { Known m.latin d.now rows.now count sums.now }
    requires at_in_bounds { at ≤ length d.now }
    ensures { NameSaid bad d.now (rule_of m) rows.now count at result }
{
    match next_due(bad, d, at, b"name") {
        Due::At { place, end } => filters::naming_at(
            bad, m.latin, m.standard, d, rows, count, place, end, sums,
        ),
        Due::Not(f) => Err(f),
    }
}

// What a variable's statements up to its position say, its use, and the place behind.
#[derive(Clone, Copy)]
pub enum Fronted {
    Is {
        head: Head,
        usage: usize,
        next: usize,
    },
    Not(Fault),
}

fn text_of(q: Quoted) -> Quoted
    ensures { result ≡ record { place = q.place; length = q.length; next = 0 } }
{
    Quoted {
        place: q.place,
        length: q.length,
        next: 0,
    }
}

fn place_front(
    bad: bool,
    d: &[u8],
    ident: u64,
    kind: usize,
    usage: usize,
    a: Quoted,
    b: Quoted,
) -> Fronted
    requires { (a.place + a.length ≤ length d.now) × (b.next ≤ length d.now) }
    ensures { (result ≡ placed_of ident kind usage a b (position_in bad d.now b.next)) × FrontEnds d.now result }
{
    match position_in(bad, d, b.next) {
        Ok(q) => {
            let name = text_of(a);
            let label = text_of(b);
            let head = Head {
                ident,
                name,
                label,
                kind,
                start: q.start,
                finish: q.finish,
                place: q.place,
                next: 0,
            };
            Fronted::Is {
                head,
                usage,
                next: q.next,
            }
        }
        Err(f) => Fronted::Not(f),
    }
}

fn front_at(
    bad: bool,
    d: &[u8],
    m: Manner,
    place: usize,
    end: usize,
    seen: &[u8],
    rows: &[i64],
    count: usize,
    sums: &[u16],
) -> Fronted
    requires end_in_bounds { (end ≤ length d.now) × (length seen.now ≡ 10000) }
    requires known { Known m.latin d.now rows.now count sums.now }
    ensures { FrontSaid bad d.now (rule_of m) rows.now count seen.now place end result }
{
    match filters::title_at(bad, d, place, end, m.old, seen, count, rows) {
        Titled::Is {
            ident,
            kind,
            usage,
            next,
        } => match name_in(bad, d, m, rows, count, next, sums) {
            Ok(a) => match label_in(bad, d, m.languages, a.next) {
                Ok(b) => place_front(bad, d, ident, kind, usage, a, b),
                Err(f) => Fronted::Not(f),
            },
            Err(f) => Fronted::Not(f),
        },
        Titled::Not(f) => Fronted::Not(f),
    }
}

// ---- a filter or none
// The filter (0 none), and what stands behind it.
#[derive(Clone, Copy)]
pub struct Sifted {
    pub filter: usize,
    pub tag: Open,
}

// What stands behind a filter; a refusal has none.
fn sift_by(filter: usize, o: Open) -> Sifted
    ensures { result ≡ sifted_of (bind (read_of o) λ x n. Is (with filter x) n) }
{
    match o {
        Open::Start { place, end } => Sifted {
            filter,
            tag: Open::Start { place, end },
        },
        Open::Shut { place, next } => Sifted {
            filter,
            tag: Open::Shut { place, next },
        },
        Open::Not(f) => Sifted {
            filter: 0,
            tag: Open::Not(f),
        },
    }
}

fn read_filter(
    bad: bool,
    d: &[u8],
    m: Manner,
    rows: &[i64],
    count: usize,
    name: Quoted,
    usage: usize,
    place: usize,
    end: usize,
    sums: &[u16],
) -> Sifted
    requires known { Known m.latin d.now rows.now count sums.now }
    requires length_in_bounds { (name.place + name.length ≤ length d.now) × (end ≤ length d.now) }
    ensures { FilterSaid bad d.now (rule_of m) rows.now count
        (record { place = name.place; length = name.length }) usage place end result }
{
    match filters::filter_at(
        bad,
        m.latin,
        m.standard,
        d,
        rows,
        count,
        name.place,
        name.length,
        usage,
        place,
        end,
        sums,
    ) {
        Filtered::Is { filter, next } => {
            let o = elements::find_open(bad, d, next, b"variable");
            sift_by(filter, o)
        }
        Filtered::Not(f) => Sifted {
            filter: 0,
            tag: Open::Not(f),
        },
    }
}

fn sift_in(
    bad: bool,
    d: &[u8],
    m: Manner,
    rows: &[i64],
    count: usize,
    name: Quoted,
    usage: usize,
    at: usize,
    sums: &[u16],
) -> Sifted
    requires known { Known m.latin d.now rows.now count sums.now }
    requires length_in_bounds { (name.place + name.length ≤ length d.now) × (at ≤ length d.now) }
    ensures { SiftSaid bad d.now (rule_of m) rows.now count
        (record { place = name.place; length = name.length }) usage at result }
{
    let o = elements::find_open(bad, d, at, b"variable");
    if m.old {
        return sift_by(0, o);
    }
    if !elements::is_start(d, o, b"filter") {
        return sift_by(0, o);
    }
    match elements::tag_due(bad, d, o, b"filter") {
        Due::At { place, end } => read_filter(
            bad, d, m, rows, count, name, usage, place, end, sums,
        ),
        Due::Not(f) => Sifted {
            filter: 0,
            tag: Open::Not(f),
        },
    }
}

// ---- by type
// A block of values and the end tag of the variable, with so many subfields of such a width.
fn values_rest(
    bad: bool,
    d: &[u8],
    languages: bool,
    quantity: bool,
    o: Open,
    count: u64,
    width: u64,
    before: usize,
    lines: &mut [i64],
    marks: &mut [u16],
    stamp: u16,
) -> OrFault<Rest>
    requires within { Within d.now 0 o × (length d.now ≤ 1048576) }
    requires lines_len { (length lines.old ≡ line_size * most_lines) × (before ≤ most_lines) × (length marks.old ≡ 16384) }
    ensures { Valued count width before (bind (read_of o) (values_ended bad d.now languages quantity before))
        lines.old lines.new result }
{
    match elements::tag_due(bad, d, o, b"values") {
        Due::At { place, end } => {
            match blocks::values_at(
                bad, d, place, end, languages, quantity, before, lines, marks, stamp,
            ) {
                Listed::Is { block, last, next } => match end_in(bad, d, next) {
                    Ok(n) => Ok(Rest {
                        block,
                        last,
                        subfields: count,
                        subwidth: width,
                        size: 0,
                        next: n,
                    }),
                    Err(f) => Err(f),
                },
                Listed::Not(f) => Err(f),
            }
        }
        Due::Not(f) => Err(f),
    }
}

fn nothing_said() -> Block
    ensures { result ≡ empty_block }
{
    Block {
        ranged: false,
        from: 0,
        to: 0,
        known: false,
        decimals: 0,
        point: 0,
    }
}

// A type that has no values: its size, or 0.
fn plain_rest(size: u64, before: usize, end: OrFault<usize>) -> OrFault<Rest>
    ensures { result ≡ plain_of size before end }
{
    match end {
        Ok(next) => {
            let block = nothing_said();
            Ok(Rest {
                block,
                last: before,
                subfields: 0,
                subwidth: 0,
                size,
                next,
            })
        }
        Err(f) => Err(f),
    }
}

fn size_rest(bad: bool, d: &[u8], o: Open, before: usize) -> OrFault<Rest>
    requires { Within d.now 0 o }
    ensures { result ≡ sized_of before (bind (read_of o) (size_ended bad d.now)) }
{
    match elements::tag_due(bad, d, o, b"size") {
        Due::At { place, end } => match elements::size_at(bad, d, place, end) {
            Ok(x) => {
                let e = end_in(bad, d, x.next);
                plain_rest(x.size, before, e)
            }
            Err(f) => Err(f),
        },
        Due::Not(f) => Err(f),
    }
}

// A spread or none, and values.
fn spread_rest(
    bad: bool,
    d: &[u8],
    m: Manner,
    room: u64,
    o: Open,
    before: usize,
    lines: &mut [i64],
    marks: &mut [u16],
    stamp: u16,
) -> OrFault<Rest>
    requires within { Within d.now 0 o × (length d.now ≤ 1048576) × (1 ≤ room) × (room ≤ 16384) }
    requires lines_len { (length lines.old ≡ line_size * most_lines) × (before ≤ most_lines) × (length marks.old ≡ 16384) }
    ensures { Rests room before (bind (read_of o) (content_by bad d.now (rule_of m) room before 2)) lines.old
        lines.new result }
{
    let languages = m.languages;
    if !elements::is_start(d, o, b"spread") {
        return values_rest(
            bad, d, languages, false, o, 0, 0, before, lines, marks, stamp,
        );
    }
    match elements::tag_due(bad, d, o, b"spread") {
        Due::At { place, end } => match elements::spread_at(bad, d, place, end, room) {
            Ok(s) => {
                let p = elements::find_open(bad, d, s.next, b"variable");
                values_rest(
                    bad, d, languages, false, p, s.count, s.width, before, lines, marks, stamp,
                )
            }
            Err(f) => Err(f),
        },
        Due::Not(f) => Err(f),
    }
}

// What a type has behind the filter, with the end tag of the variable.
fn rest_in(
    bad: bool,
    d: &[u8],
    m: Manner,
    kind: usize,
    room: u64,
    o: Open,
    before: usize,
    lines: &mut [i64],
    marks: &mut [u16],
    stamp: u16,
) -> OrFault<Rest>
    requires within { Within d.now 0 o × (length d.now ≤ 1048576) × (1 ≤ room) × (room ≤ 16384) }
    requires lines_len { (length lines.old ≡ line_size * most_lines) × (before ≤ most_lines) × (length marks.old ≡ 16384) }
    ensures { Rests room before (bind (read_of o) (content_by bad d.now (rule_of m) room before kind)) lines.old
        lines.new result }
{
    let languages = m.languages;
    if kind == 1 {
        return values_rest(
            bad, d, languages, false, o, 0, 0, before, lines, marks, stamp,
        );
    }
    if kind == 2 {
        return spread_rest(bad, d, m, room, o, before, lines, marks, stamp);
    }
    if kind == 3 {
        return values_rest(
            bad, d, languages, true, o, 0, 0, before, lines, marks, stamp,
        );
    }
    if kind == 4 {
        return size_rest(bad, d, o, before);
    }
    let e = close_in(bad, d, o);
    plain_rest(0, before, e)
}

// ---- the row
// Width is judged after the end tag.
fn settle(powers: &[u64; 16], lines: &[i64], h: Head, r: Rest, before: usize, next: usize) -> Stood
    requires tens { Tens powers.now }
    requires measurable { Measurable lines.now h r before }
    ensures { result ≡ settled_by (number_in lines.now before) h r before (Ok next) }
{
    match measures::measure(powers, lines, h, r, before) {
        Ok(columns) => Stood::Is {
            columns,
            last: r.last,
            next,
        },
        Err(f) => Stood::Not(f),
    }
}

// Columns with use and filter.
fn used(c: Columns, usage: usize, filter: usize) -> Columns
    ensures { result ≡ used_by usage filter c }
{
    let mut r = c;
    r.usage = usage;
    r.filter = filter;
    r
}

// What is measured has no place.
fn placeless(r: Rest) -> Rest
    ensures { result ≡ placeless_of r }
{
    let block = r.block;
    Rest {
        block,
        last: r.last,
        subfields: r.subfields,
        subwidth: r.subwidth,
        size: r.size,
        next: 0,
    }
}

// ---- a variable
// With one variable more: its ident, the counts, and the place behind it.
#[derive(Clone, Copy)]
pub enum Entered {
    Is {
        ident: usize,
        tally: Tally,
        next: usize,
    },
    Not(Fault),
}

// Its row, behind those before.
fn enter(
    y: Tally,
    c: Columns,
    usage: usize,
    filter: usize,
    last: usize,
    next: usize,
    rows: &mut [i64],
) -> Entered
    requires rows_lt_most_rows { (y.rows < most_rows) × (length rows.old ≡ row_size * most_rows) }
    requires small_row { SmallRow (used_by usage filter c) }
    ensures value { result ≡ entered.Is c.ident (tally_with y (used_by usage filter c) last) next }
    ensures rows_after { rows.new ≡ pasted rows.old (row_size * y.rows) (row_cells (used_by usage filter c)) }
{
    let columns = used(c, usage, filter);
    rows::put_row(rows, Row::SIZE * y.rows, columns);
    let tally = laying::tally_with(y, columns, last);
    Entered::Is {
        ident: columns.ident,
        tally,
        next,
    }
}

// Behind its position: filter, values, end tag, width.
fn body_at(
    powers: &[u64; 16],
    bad: bool,
    d: &[u8],
    m: Manner,
    h: Head,
    usage: usize,
    at: usize,
    seen: &[u8],
    y: Tally,
    rows: &mut [i64],
    lines: &mut [i64],
    marks: &mut [u16],
    sums: &[u16],
) -> Entered
    requires tens { Tens powers.now }
    requires d_len_bound { (length d.now ≤ 1048576) × Knowing m.latin d.now seen.now y rows.old sums.now }
    requires lines_len { (length lines.old ≡ line_size * most_lines) × (length marks.old ≡ 16384) }
    requires front_ends { FrontEnds d.now (fronted.Is h usage at) }
    requires front_read { (l : List XmlEntry) → Before d.now seen.now y rows.old l → FrontRead bad d.now (rule_of m) l h usage at }
    ensures { Bodied bad d.now (rule_of m) seen.now y h usage at rows.old rows.new
        lines.old lines.new result }
{
    let name = h.name;
    let s = sift_in(bad, d, m, rows, y.rows, name, usage, at, sums);
    let room = h.finish + 1 - h.start;
    let count = y.rows;
    let stamp = (count + 1) as u16;
    let tag = s.tag;
    match rest_in(bad, d, m, h.kind, room, tag, y.lines, lines, marks, stamp) {
        Ok(r) => {
            let next = r.next;
            let q = placeless(r);
            match settle(powers, lines, h, q, y.lines, next) {
                Stood::Is {
                    columns,
                    last,
                    next: n,
                } => enter(y, columns, usage, s.filter, last, n, rows),
                Stood::Not(f) => Entered::Not(f),
            }
        }
        Err(f) => Entered::Not(f),
    }
}

// From behind the name of its start tag on.
pub fn variable_at(
    powers: &[u64; 16],
    bad: bool,
    d: &[u8],
    m: Manner,
    place: usize,
    end: usize,
    seen: &[u8],
    y: Tally,
    rows: &mut [i64],
    lines: &mut [i64],
    marks: &mut [u16],
    sums: &[u16],
) -> Entered
    requires tens { Tens powers.now }
    requires d_len_bound { (length d.now ≤ 1048576) × (end ≤ length d.now) × Knowing m.latin d.now seen.now y rows.old sums.now }
    requires lines_len { (length lines.old ≡ line_size * most_lines) × (length marks.old ≡ 16384) }
    ensures { Joined d.now seen.now y rows.old rows.new lines.old
        lines.new (λ l. variable bad d.now (rule_of m) l place end) result }
{
    match front_at(bad, d, m, place, end, seen, rows, y.rows, sums) {
        Fronted::Is { head, usage, next } => {
            body_at(
                powers, bad, d, m, head, usage, next, seen, y, rows, lines, marks, sums,
            )
        }
        Fronted::Not(f) => Entered::Not(f),
    }
}

// ---- all variables
#[derive(Clone, Copy)]
pub enum Turn {
    More {
        ident: usize,
        tally: Tally,
        next: usize,
    },
    Over {
        tally: Tally,
        next: usize,
    },
    Not(Fault),
}

// All variables, and the place behind the record's end tag.
#[derive(Clone, Copy)]
pub enum Run {
    Is { tally: Tally, next: usize },
    Not(Fault),
}
