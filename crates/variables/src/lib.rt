// A variable: its ident, name, label, type and position, and what its type has behind them, up to END VARIABLE. Above it stands the
// definition as a whole.
#![tactic(auto)]

ghost use Rattle.std.specs.Prelude.{◌≡◌, ◌*◌, ◌≤◌, ◌<◌, length};
ghost use Rattle.ascii.specs.Class.{Classes};
ghost use Rattle.layout.specs.rule.Layout.{line_size, most_lines};
ghost use Rattle.values.specs.Room.{short, Unless};
ghost use Rattle.statements.specs.rule.Words.{NAME, LABEL};
ghost use Rattle.statements.specs.Note.{text_on};
ghost use Rattle.variables.specs.Ident.{marked};
ghost use Rattle.variables.specs.Ident.{wrong_ident, judge_ident, ident_on};
ghost use Rattle.variables.specs.Head.{past_type, join_titles, join_head, head_on};
ghost use Rattle.variables.specs.Rest.{values_rest, join_size, join_nothing, spread_then, rest_of};
ghost use Rattle.variables.specs.Rest.{rested_of, Stored};

use statements::{Position, Typed};
use tokens::{Choice, Fault, Figures, OrFault, Quoted};
use values::{Block, Listed};

// Whether an ident has more than four digits, is 0, or was met before.
fn wrong_ident(seen: &[u8], x: Figures) -> bool
    requires { length seen.now ≡ 10000 }
    ensures { result ≡ wrong_ident (marked seen.now) x }
{
    if 4 < x.count {
        return true;
    }
    let n = x.size;
    if n < 10000 {
        let mark = seen[n as usize];
        return (n == 0) | (mark == 1);
    }
    true
}

// 5 comes before 8 at a 513th variable.
pub fn judge_ident(seen: &[u8], count: usize, n: OrFault<Figures>) -> OrFault<Figures>
    requires { length seen.now ≡ 10000 }
    ensures { result ≡ judge_ident (marked seen.now) count n }
{
    match n {
        Ok(x) => {
            if wrong_ident(seen, x) {
                return Err(Fault {
                    number: 5,
                    place: x.place,
                });
            }
            if 512 <= count {
                return Err(Fault {
                    number: 8,
                    place: x.place,
                });
            }
            Ok(x)
        }
        Err(f) => Err(f),
    }
}

// VARIABLE and its ident, where so many variables were read before, whose idents are marked.
pub fn ident_on(
    classes: &[u8; 256],
    d: &[u8],
    t: OrFault<usize>,
    seen: &[u8],
    count: usize,
) -> OrFault<Figures>
    requires classes { Classes classes.now }
    requires seen_len { length seen.now ≡ 10000 }
    ensures { result ≡ ident_on d.now t (marked seen.now) count }
{
    let s = statements::notes_on(classes, d, t);
    let w = tokens::word_here(classes, d, s, b"VARIABLE");
    let n = tokens::number_on(classes, d, w);
    judge_ident(seen, count, n)
}

fn past_type(k: Typed) -> OrFault<usize>
    ensures { result ≡ past_type k }
{
    match k {
        Typed::Is { kind: _, next } => Ok(next),
        Typed::Not(f) => Err(f),
    }
}

// What every variable says: its ident, name, label, type and position.
#[derive(Clone, Copy)]
pub struct Head {
    pub ident: u64,
    pub name: Quoted,
    pub label: Quoted,
    pub kind: usize,
    pub start: u64,
    pub finish: u64,
    pub place: usize,
    pub next: usize,
}

// The ident and the texts.
#[derive(Clone, Copy)]
pub struct Titles {
    pub ident: u64,
    pub name: Quoted,
    pub label: Quoted,
}

// The first refusal met among them.
fn join_titles(i: OrFault<Figures>, n: OrFault<Quoted>, l: OrFault<Quoted>) -> OrFault<Titles>
    ensures { result ≡ join_titles i n l }
{
    let ident = i?.size;
    let name = n?;
    let label = l?;
    Ok(Titles { ident, name, label })
}

fn join_head(t: OrFault<Titles>, k: Typed, p: OrFault<Position>) -> OrFault<Head>
    ensures { result ≡ join_head t k p }
{
    let x = t?;
    match k {
        Typed::Not(f) => Err(f),
        Typed::Is { kind, next: _ } => {
            let q = p?;
            Ok(Head {
                ident: x.ident,
                name: x.name,
                label: x.label,
                kind,
                start: q.start,
                finish: q.finish,
                place: q.place,
                next: q.next,
            })
        }
    }
}

// NAME and LABEL with their texts. Each knows the word that it compares, as the readers of the other statements do.
fn name_on(classes: &[u8; 256], d: &[u8], t: OrFault<usize>) -> OrFault<Quoted>
    requires { Classes classes.now }
    ensures { result ≡ text_on d.now t NAME }
{
    let s = statements::notes_on(classes, d, t);
    let w = tokens::word_here(classes, d, s, b"NAME");
    tokens::string_on(classes, d, w)
}

fn label_on(classes: &[u8; 256], d: &[u8], t: OrFault<usize>) -> OrFault<Quoted>
    requires { Classes classes.now }
    ensures { result ≡ text_on d.now t LABEL }
{
    let s = statements::notes_on(classes, d, t);
    let w = tokens::word_here(classes, d, s, b"LABEL");
    tokens::string_on(classes, d, w)
}

// NAME, LABEL, TYPE and POSITION behind an ident that stands.
pub fn head_on(classes: &[u8; 256], d: &[u8], i: OrFault<Figures>) -> OrFault<Head>
    requires { Classes classes.now }
    ensures { result ≡ head_on d.now i }
{
    let a = tokens::past_number(i);
    let n = name_on(classes, d, a);
    let b = tokens::past_string(n);
    let l = label_on(classes, d, b);
    let e = tokens::past_string(l);
    let k = statements::type_on(classes, d, e);
    let g = past_type(k);
    let p = statements::position_on(classes, d, g);
    let t = join_titles(i, n, l);
    join_head(t, k, p)
}

// What the type of a variable has behind its position: its values, how many lines there are then in all, its subfields and their
// width, its size, and the place after it. What a type lacks is 0.
#[derive(Clone, Copy)]
pub struct Rest {
    pub block: Block,
    pub last: usize,
    pub subfields: u64,
    pub subwidth: u64,
    pub size: u64,
    pub next: usize,
}

fn values_rest(
    classes: &[u8; 256],
    d: &[u8],
    quantity: bool,
    t: OrFault<usize>,
    subfields: u64,
    subwidth: u64,
    first: usize,
    lines: &mut [i64],
    marks: &mut [u16],
    stamp: u16,
) -> OrFault<Rest>
    requires classes { Classes classes.now }
    requires d_len_bound { length d.now ≤ 1048576 }
    requires first_in_bounds { (line_size * first ≤ length lines.old) × (first ≤ most_lines) × (length marks.old ≡ 16384) }
    ensures { Unless (result ≡ Err short) (length lines.old < line_size * most_lines)
        ((result ≡ rested_of first (values_rest d.now quantity first t subfields subwidth))
        × Stored first (values_rest d.now quantity first t subfields subwidth) lines.old lines.new) }
{
    match values::values_on(classes, d, quantity, t, first, lines, marks, stamp) {
        Listed::Is { block, last, next } => Ok(Rest {
            block,
            last,
            subfields,
            subwidth,
            size: 0,
            next,
        }),
        Listed::Not(f) => Err(f),
    }
}

// A variable without values: its size, or 0.
fn join_size(n: OrFault<Figures>, first: usize) -> OrFault<Rest>
    ensures { result ≡ rested_of first (join_size n) }
{
    let x = n?;
    let block = values::empty_block();
    Ok(Rest {
        block,
        last: first,
        subfields: 0,
        subwidth: 0,
        size: x.size,
        next: x.next,
    })
}

fn join_nothing(t: OrFault<usize>, first: usize) -> OrFault<Rest>
    ensures { result ≡ rested_of first (join_nothing t) }
{
    let next = t?;
    let block = values::empty_block();
    Ok(Rest {
        block,
        last: first,
        subfields: 0,
        subwidth: 0,
        size: 0,
        next,
    })
}

// SPREAD or not, and then VALUES.
fn spread_then(
    classes: &[u8; 256],
    d: &[u8],
    t: OrFault<usize>,
    width: u64,
    first: usize,
    lines: &mut [i64],
    marks: &mut [u16],
    stamp: u16,
) -> OrFault<Rest>
    requires classes { Classes classes.now }
    requires d_len_bound { length d.now ≤ 1048576 }
    requires first_in_bounds { (line_size * first ≤ length lines.old) × (first ≤ most_lines) × (length marks.old ≡ 16384) }
    ensures { Unless (result ≡ Err short) (length lines.old < line_size * most_lines)
        ((result ≡ rested_of first (spread_then d.now first t width))
        × Stored first (spread_then d.now first t width) lines.old lines.new) }
{
    let n = statements::notes_on(classes, d, t);
    match tokens::perhaps(classes, d, n, b"SPREAD") {
        Choice::Taken(m) => match statements::spread_rest(classes, d, Ok(m), width) {
            Ok(s) => {
                values_rest(
                    classes,
                    d,
                    false,
                    Ok(s.next),
                    s.count,
                    s.width,
                    first,
                    lines,
                    marks,
                    stamp,
                )
            }
            Err(f) => Err(f),
        },
        Choice::Left => values_rest(classes, d, false, n, 0, 0, first, lines, marks, stamp),
    }
}

// By type, for a position of `width` bytes, behind so many value lines of other variables. The lines of this one leave the mark
// `stamp`, the variable's own.
pub fn rest_on(
    classes: &[u8; 256],
    d: &[u8],
    kind: usize,
    t: OrFault<usize>,
    width: u64,
    first: usize,
    lines: &mut [i64],
    marks: &mut [u16],
    stamp: u16,
) -> OrFault<Rest>
    requires classes { Classes classes.now }
    requires d_len_bound { length d.now ≤ 1048576 }
    requires first_in_bounds { (line_size * first ≤ length lines.old) × (first ≤ most_lines) × (length marks.old ≡ 16384) }
    ensures { Unless (result ≡ Err short) (length lines.old < line_size * most_lines)
        ((result ≡ rested_of first (rest_of d.now first kind t width))
        × Stored first (rest_of d.now first kind t width) lines.old lines.new) }
{
    if kind == 1 {
        return values_rest(classes, d, false, t, 0, 0, first, lines, marks, stamp);
    }
    if kind == 2 {
        return spread_then(classes, d, t, width, first, lines, marks, stamp);
    }
    if kind == 3 {
        return values_rest(classes, d, true, t, 0, 0, first, lines, marks, stamp);
    }
    if kind == 4 {
        let n = statements::size_on(classes, d, t);
        return join_size(n, first);
    }
    join_nothing(t, first)
}
