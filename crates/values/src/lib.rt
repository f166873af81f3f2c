// The values of a variable: a range, and the lines, each read whole and then judged. The numbers of the lines go into a lent list,
// four a line. Above it stands the definition as a whole.
#![tactic(auto)]

ghost use Rattle.std.specs.Prelude.{◌≡◌, false, true, [], ◌+◌, ◌*◌, ◌-◌, ◌≤◌, ◌<◌, length, set};
ghost use Rattle.std.specs.Int.Signed.{lt_z};
ghost use Rattle.ascii.specs.Class.{Classes};
ghost use Rattle.tokens.specs.Token.{choice_of};
ghost use Rattle.statements.specs.rule.Words.{END};
ghost use Rattle.statements.specs.Note.{notes_on};
ghost use Rattle.cells.specs.rule.Cell.{pasted};
ghost use Rattle.layout.specs.rule.Layout.{line_size, most_lines};
ghost use Rattle.values.specs.Value.{form_of, large_of, true_of, scaled_of, point_of, points_of};
ghost use Rattle.values.specs.Range.{limit_range, reversed_of, judge_range, settled, ranged_of, range_rest};
ghost use Rattle.values.specs.Line.{said_of, line_rest, number_on, repeated_in, line_fault, judge_line, grown_point, grown_by, line_cells};
ghost use Rattle.values.specs.Line.{end_of};
ghost use Rattle.values.specs.Line.{more_of, state_of, lines_from};
ghost use Rattle.values.specs.Line.{listed_of, Stored};
ghost use Rattle.values.specs.Room.{room_at, slot_of, Marked, storable, judged_turn, judged_room, judged_marks, stand_at, turn_of};
ghost use Rattle.values.specs.Room.{room_after, marks_after, Spare, Cramped, short, Unless};
ghost use Rattle.values.specs.Block.{empty_block, closed_by, range_then, values_on};

use layout::{Header, Line};
use tokens::{Choice, Fault, OrFault, Quoted, Value};

// What the values of a variable have said so far: whether there is a range, and its ends; whether a number was read, and then how
// many decimals all have; and the code of the point, 0 none, 1 one, 2 one that no number has a digit before.
#[derive(Clone, Copy)]
pub struct Block {
    pub ranged: bool,
    pub from: i64,
    pub to: i64,
    pub known: bool,
    pub decimals: usize,
    pub point: usize,
}

// Whether a value has the form of its type: a category is digits alone, and above 0.
pub fn formed(quantity: bool, v: Value) -> bool
    ensures { result ≡ form_of quantity v }
{
    if quantity {
        return v.formed;
    }
    v.formed & (!v.minus & (!v.point & (0 < v.size)))
}

// Whether a value passes the limits of its type.
pub fn large(quantity: bool, v: Value) -> bool
    ensures { result ≡ large_of quantity v }
{
    if quantity {
        return (999_999_999_999_999 < v.size) | (9 < v.decimals);
    }
    9_999 < v.size
}

// Whether b lies below a, by their true values.
pub fn reversed(classes: &[u8; 256], d: &[u8], a: Value, b: Value) -> bool
    requires { Classes classes.now }
    ensures { result ≡ lt_z (true_of d.now b) (true_of d.now a) }
{
    if a.minus {
        if b.minus {
            return scan::less(classes, d, a.first, a.last, b.first, b.last);
        }
        return false;
    }
    if b.minus {
        // one of them is not zero
        let zero = scan::less(classes, d, 0, 0, a.first, a.last);
        return zero | scan::less(classes, d, 0, 0, b.first, b.last);
    }
    scan::less(classes, d, b.first, b.last, a.first, a.last)
}

// The code of the point of one number.
fn point_code(v: Value) -> usize
    ensures { result ≡ point_of v }
{
    if !v.point {
        return 0;
    }
    if v.whole == 0 { 2 } else { 1 }
}

// The code of two, or two lots, of numbers together.
fn point_codes(a: usize, b: usize) -> usize
    ensures { result ≡ points_of a b }
{
    if a == b { a } else { 1 }
}

// The code of a block with one more line, of the value v.
fn grown_point(b: Block, v: Value) -> usize
    ensures { result ≡ grown_point b v }
{
    let own = point_code(v);
    if b.known {
        return point_codes(b.point, own);
    }
    own
}

// The number that a value says, scaled, where it passes no limit.
fn scaled(quantity: bool, v: Value) -> i64
    requires { large_of quantity v ≡ false }
    ensures { result ≡ scaled_of v }
{
    cells::number_of(v.minus, v.size)
}

// A range whose values have form and order: 8 at each beyond its limit, or what the range says.
fn limit_range(quantity: bool, a: Value, b: Value) -> OrFault<Block>
    ensures { result ≡ limit_range quantity a b }
{
    if large(quantity, a) {
        return Err(Fault {
            number: 8,
            place: a.place,
        });
    }
    if large(quantity, b) {
        return Err(Fault {
            number: 8,
            place: b.place,
        });
    }
    let from = scaled(quantity, a);
    let to = scaled(quantity, b);
    let point = point_codes(point_code(a), point_code(b));
    Ok(Block {
        ranged: true,
        from,
        to,
        known: true,
        decimals: a.decimals,
        point,
    })
}

// A range, whose second value lies below the first where `below`: 6 at each value of wrong form, and at the second where decimals differ
// or the range is reversed; then its limits.
pub fn judge_range(below: bool, quantity: bool, a: Value, b: Value) -> OrFault<Block>
    ensures { result ≡ judge_range below quantity a b }
{
    if !formed(quantity, a) {
        return Err(Fault {
            number: 6,
            place: a.place,
        });
    }
    if !formed(quantity, b) {
        return Err(Fault {
            number: 6,
            place: b.place,
        });
    }
    if a.decimals != b.decimals {
        return Err(Fault {
            number: 6,
            place: b.place,
        });
    }
    if below {
        return Err(Fault {
            number: 6,
            place: b.place,
        });
    }
    limit_range(quantity, a, b)
}

// A range that was read: what it says, whether WITH follows, and the place after it.
#[derive(Clone, Copy)]
pub enum Ranged {
    Is {
        block: Block,
        with: bool,
        next: usize,
    },
    Not(Fault),
}

fn settle(
    classes: &[u8; 256],
    d: &[u8],
    quantity: bool,
    a: Value,
    b: Value,
    with: bool,
    next: usize,
) -> Ranged
    requires { Classes classes.now }
    ensures { result ≡ settled (judge_range (reversed_of d.now a b) quantity a b) with next }
{
    let below = reversed(classes, d, a, b);
    match judge_range(below, quantity, a, b) {
        Ok(block) => Ranged::Is { block, with, next },
        Err(f) => Ranged::Not(f),
    }
}

// The first 2 or 3 met in a range, and then what is wrong with its values.
fn join_range(
    classes: &[u8; 256],
    d: &[u8],
    quantity: bool,
    a: OrFault<Value>,
    b: OrFault<Value>,
    end: OrFault<usize>,
    with: bool,
) -> Ranged
    requires { Classes classes.now }
    ensures { result ≡ ranged_of d.now quantity a b end with }
{
    match a {
        Err(f) => Ranged::Not(f),
        Ok(x) => match b {
            Err(f) => Ranged::Not(f),
            Ok(y) => match end {
                Err(f) => Ranged::Not(f),
                Ok(next) => settle(classes, d, quantity, x, y, with, next),
            },
        },
    }
}

// What stands behind the TO of a range that begins with a.
pub fn range_rest(
    classes: &[u8; 256],
    d: &[u8],
    quantity: bool,
    a: OrFault<Value>,
    t: OrFault<usize>,
) -> Ranged
    requires { Classes classes.now }
    ensures { result ≡ range_rest d.now quantity a t }
{
    let b = tokens::value_on(classes, d, t);
    let p = tokens::past_value(b);
    let g = tokens::gap_on(classes, d, p);
    match tokens::perhaps(classes, d, g, b"WITH") {
        Choice::Taken(m) => join_range(classes, d, quantity, a, b, Ok(m), true),
        Choice::Left => join_range(classes, d, quantity, a, b, g, false),
    }
}

// A line that was read: its value, its text, whether it is special, 0 or 1, and the place after it.
#[derive(Clone, Copy)]
pub struct Said {
    pub value: Value,
    pub text: Quoted,
    pub special: usize,
    pub next: usize,
}

// The first 2 or 3 met in a line.
fn join_line(
    a: OrFault<Value>,
    q: OrFault<Quoted>,
    special: usize,
    end: OrFault<usize>,
) -> OrFault<Said>
    ensures { result ≡ said_of a q special end }
{
    let value = a?;
    let text = q?;
    let next = end?;
    Ok(Said {
        value,
        text,
        special,
        next,
    })
}

// A line whose value is a: a string, and SPECIAL or not.
fn line_rest(classes: &[u8; 256], d: &[u8], a: OrFault<Value>) -> OrFault<Said>
    requires { Classes classes.now }
    ensures { result ≡ line_rest d.now a }
{
    let p = tokens::past_value(a);
    let q = tokens::string_on(classes, d, p);
    let s = tokens::past_string(q);
    let g = tokens::gap_on(classes, d, s);
    match tokens::perhaps(classes, d, g, b"SPECIAL") {
        Choice::Taken(m) => join_line(a, q, 1, Ok(m)),
        Choice::Left => join_line(a, q, 0, g),
    }
}

// Whether a line from the first to the last but one says z.
fn repeated(lines: &[i64], first: usize, last: usize, z: i64) -> bool
    requires { (line_size * last ≤ length lines.now) × (first ≤ last) × (last ≤ most_lines) }
    ensures { result ≡ repeated_in (room_at lines.now first) (last - first) z }
{
    for i in first..last {
        let x = lines[Line::SIZE * i];
        if cells::same(x, z) {
            return true;
        }
    }
    false
}

// Where a number leaves its mark: equal numbers at the same place, and few others there too, since 16,381 is a prime.
fn slot_of(v: Value) -> usize
    ensures { (result ≡ slot_of (scaled_of v)) × (result < 16384) }
{
    (v.size % 16_381) as usize
}

fn leave_mark(marks: &mut [u16], stamp: u16, v: Value)
    requires { length marks.old ≡ 16384 }
    ensures { marks.new ≡ set marks.old (slot_of (scaled_of v)) stamp }
{
    let slot = slot_of(v);
    marks[slot] = stamp;
}

// The same as repeated, of the number z that v says. A line that says z has left its mark, so that the lines are looked at only where there
// is one.
fn said_before(
    lines: &[i64],
    marks: &[u16],
    stamp: u16,
    first: usize,
    last: usize,
    v: Value,
    z: i64,
) -> bool
    requires last_in_bounds { (line_size * last ≤ length lines.now) × (first ≤ last) × (last ≤ most_lines) }
    requires marks_len { length marks.now ≡ 16384 }
    requires marked { Marked (room_at lines.now first) (last - first) stamp marks.now }
    requires z_value { z ≡ scaled_of v }
    ensures { result ≡ repeated_in (room_at lines.now first) (last - first) z }
{
    let slot = slot_of(v);
    let mark = marks[slot];
    if mark != stamp {
        return false;
    }
    repeated(lines, first, last, z)
}

// What is wrong with a line's value by itself: 6 for its form or its decimals, 8 for its size, 0 for nothing.
fn line_fault(quantity: bool, b: Block, v: Value) -> usize
    ensures { result ≡ line_fault quantity b v }
{
    if !formed(quantity, v) {
        return 6;
    }
    if b.known & (v.decimals != b.decimals) {
        return 6;
    }
    if large(quantity, v) { 8 } else { 0 }
}

// A line: a value too large repeats none, so that it may be judged first.
pub fn judge_line(
    lines: &[i64],
    marks: &[u16],
    stamp: u16,
    first: usize,
    last: usize,
    quantity: bool,
    b: Block,
    v: Value,
) -> OrFault<i64>
    requires last_in_bounds { (line_size * last ≤ length lines.now) × (first ≤ last) × (last ≤ most_lines) }
    requires marks_len { length marks.now ≡ 16384 }
    requires marked { Marked (room_at lines.now first) (last - first) stamp marks.now }
    ensures { result ≡ judge_line (room_at lines.now first) (last - first) first quantity b v }
{
    let f = line_fault(quantity, b, v);
    if f != 0 {
        return Err(Fault {
            number: f,
            place: v.place,
        });
    }
    let z = scaled(quantity, v);
    if said_before(lines, marks, stamp, first, last, v, z) {
        return Err(Fault {
            number: 6,
            place: v.place,
        });
    }
    if Header::MOST_LINES <= last {
        return Err(Fault {
            number: 8,
            place: v.place,
        });
    }
    Ok(z)
}

// A block with one more line, of the value v.
fn grown(b: Block, v: Value) -> Block
    ensures { result ≡ grown_by b v }
{
    let from = b.from;
    let to = b.to;
    let point = grown_point(b, v);
    Block {
        ranged: b.ranged,
        from,
        to,
        known: true,
        decimals: v.decimals,
        point,
    }
}

// What follows a line: another value, or END VALUES and the place after it.
#[derive(Clone, Copy)]
pub enum Turn {
    More {
        amount: OrFault<Value>,
        block: Block,
    },
    Over {
        block: Block,
        next: usize,
    },
    Not(Fault),
}

fn end_values(b: Block, t: OrFault<usize>) -> Turn
    ensures { result ≡ end_of b t }
{
    match t {
        Ok(next) => Turn::Over { block: b, next },
        Err(f) => Turn::Not(f),
    }
}

// Whether a digit stands just here: then no gap, no note and no END does.
fn digit_at(d: &[u8], at: usize) -> bool
    ensures { result ≡ true → (notes_on d.now (Ok at) ≡ Ok at)
        × (choice_of d.now (Ok at) END ≡ Choice.Left) }
{
    if d.len() <= at {
        return false;
    }
    let b = d[at];
    if b < 48 {
        return false;
    }
    b <= 57
}

// The same as more, wherever the value or END stands.
fn more_apart(classes: &[u8; 256], d: &[u8], b: Block, next: usize) -> Turn
    requires { Classes classes.now }
    ensures { result ≡ more_of d.now b next }
{
    let t = statements::notes_on(classes, d, Ok(next));
    match tokens::perhaps(classes, d, t, b"END") {
        Choice::Taken(m) => {
            let e = tokens::word_on(classes, d, Ok(m), b"VALUES");
            end_values(b, e)
        }
        Choice::Left => {
            let a = tokens::value_here(classes, d, t);
            Turn::More {
                amount: a,
                block: b,
            }
        }
    }
}

// What follows a line. Most often it is a value, and the gap before it was passed with the line.
fn more(classes: &[u8; 256], d: &[u8], b: Block, next: usize) -> Turn
    requires { Classes classes.now }
    ensures { result ≡ more_of d.now b next }
{
    if digit_at(d, next) {
        let a = tokens::value_here(classes, d, Ok(next));
        return Turn::More {
            amount: a,
            block: b,
        };
    }
    more_apart(classes, d, b, next)
}

// The four numbers of a line, which says z, at the place of the line with this number.
fn store(lines: &mut [i64], last: usize, z: i64, s: Said)
    requires line_size_in_bounds { (line_size * last + line_size ≤ length lines.old) × (last ≤ most_lines) }
    requires storable { storable s }
    requires z_value { z ≡ number_on s }
    ensures { lines.new ≡ pasted lines.old (line_size * last) (line_cells s) }
{
    let text = s.text;
    let numbers = [
        z,
        cells::cell_of(s.special),
        cells::cell_of(text.place),
        cells::cell_of(text.length),
    ];
    cells::paste(lines, Line::SIZE * last, &numbers);
}

// A line, wherever it was read: judged, and if it stands stored, with its mark.
pub fn stand_line(
    quantity: bool,
    first: usize,
    s: Said,
    b: Block,
    last: usize,
    lines: &mut [i64],
    marks: &mut [u16],
    stamp: u16,
) -> OrFault<i64>
    requires spare { Spare (length lines.old) last × (first ≤ last) × (last ≤ most_lines) × (length marks.old ≡ 16384) }
    requires marked { Marked (room_at lines.old first) (last - first) stamp marks.old }
    requires storable { storable s }
    ensures value { result ≡ judge_line (room_at lines.old first) (last - first) first quantity b s.value }
    ensures lines_after { lines.new ≡ judged_room lines.old last s
        (judge_line (room_at lines.old first) (last - first) first quantity b s.value) }
    ensures marks_after { marks.new ≡ judged_marks marks.old stamp
        (judge_line (room_at lines.old first) (last - first) first quantity b s.value) }
{
    let v = s.value;
    match judge_line(lines, marks, stamp, first, last, quantity, b, v) {
        Ok(z) => {
            store(lines, last, z, s);
            leave_mark(marks, stamp, v);
            Ok(z)
        }
        Err(f) => Err(f),
    }
}

// A line that was read in a 1.1 definition: whether it stands, and what follows it.
fn place_line(
    classes: &[u8; 256],
    d: &[u8],
    quantity: bool,
    first: usize,
    s: Said,
    b: Block,
    last: usize,
    lines: &mut [i64],
    marks: &mut [u16],
    stamp: u16,
) -> Turn
    requires classes { Classes classes.now }
    requires spare { Spare (length lines.old) last × (first ≤ last) × (last ≤ most_lines) × (length marks.old ≡ 16384) }
    requires marked { Marked (room_at lines.old first) (last - first) stamp marks.old }
    requires storable { storable s }
    ensures value { result ≡ judged_turn d.now b s
        (judge_line (room_at lines.old first) (last - first) first quantity b s.value) }
    ensures lines_after { lines.new ≡ judged_room lines.old last s
        (judge_line (room_at lines.old first) (last - first) first quantity b s.value) }
    ensures marks_after { marks.new ≡ judged_marks marks.old stamp
        (judge_line (room_at lines.old first) (last - first) first quantity b s.value) }
{
    match stand_line(quantity, first, s, b, last, lines, marks, stamp) {
        Ok(_) => {
            let g = grown(b, s.value);
            more(classes, d, g, s.next)
        }
        Err(f) => Turn::Not(f),
    }
}

// One line, whose value is a.
fn one_line(
    classes: &[u8; 256],
    d: &[u8],
    quantity: bool,
    first: usize,
    a: OrFault<Value>,
    b: Block,
    last: usize,
    lines: &mut [i64],
    marks: &mut [u16],
    stamp: u16,
) -> Turn
    requires classes { Classes classes.now }
    requires d_len_bound { length d.now ≤ 1048576 }
    requires spare { Spare (length lines.old) last × (first ≤ last) × (last ≤ most_lines) × (length marks.old ≡ 16384) }
    requires marked { Marked (room_at lines.old first) (last - first) stamp marks.old }
    ensures value { result ≡ turn_of d.now quantity first (stand_at a b last lines.old) }
    ensures lines_after { lines.new ≡ room_after d.now quantity first (stand_at a b last lines.old) }
    ensures marks_after { marks.new ≡ marks_after d.now quantity first (stand_at a b last lines.old)
        marks.old stamp }
{
    match line_rest(classes, d, a) {
        Ok(s) => { place_line(classes, d, quantity, first, s, b, last, lines, marks, stamp) }
        Err(f) => Turn::Not(f),
    }
}

// Whether a room smaller than that of the most lines has no place for one line more.
pub fn cramped(lines: &[i64], last: usize) -> bool
    requires { (line_size * last ≤ length lines.now) × (last ≤ most_lines) }
    ensures { Cramped (length lines.now) last result }
{
    if Line::SIZE * last + Line::SIZE <= lines.len() {
        return false;
    }
    if Header::MOST_LINES <= last {
        return false;
    }
    true
}

// Lines up to END VALUES: what the block has said, how many lines there are in all, and the place after END VALUES.
#[derive(Clone, Copy)]
pub enum Listed {
    Is {
        block: Block,
        last: usize,
        next: usize,
    },
    Not(Fault),
}

// A room too small is said by 0.
fn no_room() -> Listed
    ensures { result ≡ Listed.Not short }
{
    Listed::Not(Fault {
        number: 0,
        place: 0,
    })
}

// The lines of this block leave the mark `stamp`, and what else the marks hold does not matter.
pub fn read_lines(
    classes: &[u8; 256],
    d: &[u8],
    quantity: bool,
    a: OrFault<Value>,
    b: Block,
    first: usize,
    lines: &mut [i64],
    marks: &mut [u16],
    stamp: u16,
) -> Listed
    requires classes { Classes classes.now }
    requires d_len_bound { length d.now ≤ 1048576 }
    requires first_in_bounds { (line_size * first ≤ length lines.old) × (first ≤ most_lines) × (length marks.old ≡ 16384) }
    ensures { Unless (result ≡ Listed.Not short) (length lines.old < line_size * most_lines)
        ((result ≡ listed_of first (lines_from d.now quantity first (state_of a b [])))
        × Stored first (lines_from d.now quantity first (state_of a b [])) lines.old lines.new) }
{
    let mut a = a;
    let mut b = b;
    let mut last = first;
    loop {
        if cramped(lines, last) {
            return no_room();
        }
        match one_line(classes, d, quantity, first, a, b, last, lines, marks, stamp) {
            Turn::More { amount, block } => {
                a = amount;
                b = block;
                last += 1;
            }
            Turn::Over { block, next } => {
                return Listed::Is {
                    block,
                    last: last + 1,
                    next,
                };
            }
            Turn::Not(f) => {
                return Listed::Not(f);
            }
        }
    }
}

// A block that has said nothing yet.
pub fn empty_block() -> Block
    ensures { result ≡ empty_block }
{
    Block {
        ranged: false,
        from: 0,
        to: 0,
        known: false,
        decimals: 0,
        point: 0,
    }
}

// A block without lines, behind its END VALUES.
fn close_block(b: Block, first: usize, t: OrFault<usize>) -> Listed
    ensures { result ≡ listed_of first (closed_by b t) }
{
    match t {
        Ok(next) => Listed::Is {
            block: b,
            last: first,
            next,
        },
        Err(f) => Listed::Not(f),
    }
}

// What follows a range: END VALUES, or behind WITH at least one line.
fn range_then(
    classes: &[u8; 256],
    d: &[u8],
    quantity: bool,
    r: Ranged,
    first: usize,
    lines: &mut [i64],
    marks: &mut [u16],
    stamp: u16,
) -> Listed
    requires classes { Classes classes.now }
    requires d_len_bound { length d.now ≤ 1048576 }
    requires first_in_bounds { (line_size * first ≤ length lines.old) × (first ≤ most_lines) × (length marks.old ≡ 16384) }
    ensures { Unless (result ≡ Listed.Not short) (length lines.old < line_size * most_lines)
        ((result ≡ listed_of first (range_then d.now quantity first r))
        × Stored first (range_then d.now quantity first r) lines.old lines.new) }
{
    match r {
        Ranged::Not(f) => Listed::Not(f),
        Ranged::Is { block, with, next } => {
            let t = statements::notes_on(classes, d, Ok(next));
            if with {
                let a = tokens::value_here(classes, d, t);
                return read_lines(classes, d, quantity, a, block, first, lines, marks, stamp);
            }
            let e = tokens::word_here(classes, d, t, b"END");
            let v = tokens::word_on(classes, d, e, b"VALUES");
            close_block(block, first, v)
        }
    }
}

// VALUES to END VALUES, behind so many lines of other variables. The stamp is the variable's own, so that marks of others say nothing
// here; if one does, it costs time alone.
pub fn values_on(
    classes: &[u8; 256],
    d: &[u8],
    quantity: bool,
    t: OrFault<usize>,
    first: usize,
    lines: &mut [i64],
    marks: &mut [u16],
    stamp: u16,
) -> Listed
    requires classes { Classes classes.now }
    requires d_len_bound { length d.now ≤ 1048576 }
    requires first_in_bounds { (line_size * first ≤ length lines.old) × (first ≤ most_lines) × (length marks.old ≡ 16384) }
    ensures { Unless (result ≡ Listed.Not short) (length lines.old < line_size * most_lines)
        ((result ≡ listed_of first (values_on d.now quantity first t))
        × Stored first (values_on d.now quantity first t) lines.old lines.new) }
{
    let s = statements::notes_on(classes, d, t);
    let w = tokens::word_here(classes, d, s, b"VALUES");
    let n = statements::notes_on(classes, d, w);
    let a = tokens::value_here(classes, d, n);
    let p = tokens::past_value(a);
    let g = tokens::gap_on(classes, d, p);
    match tokens::perhaps(classes, d, g, b"TO") {
        Choice::Taken(m) => {
            let r = range_rest(classes, d, quantity, a, Ok(m));
            range_then(classes, d, quantity, r, first, lines, marks, stamp)
        }
        Choice::Left => {
            let b = empty_block();
            read_lines(classes, d, quantity, a, b, first, lines, marks, stamp)
        }
    }
}
