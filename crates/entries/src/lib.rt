// A variable from VARIABLE to END VARIABLE, as a row of the table. Above it stands the definition as a whole.
#![tactic(auto)]

ghost use Rattle.std.specs.Prelude.{◌≡◌, ◌+◌, ◌*◌, ◌≤◌, ◌<◌, length};
ghost use Rattle.ascii.specs.Class.{Classes};
ghost use Rattle.ascii.specs.rule.Tens.{Tens};
ghost use Rattle.layout.specs.rule.Layout.{line_size, most_lines};
ghost use Rattle.values.specs.Room.{short, Unless};
ghost use Rattle.measures.specs.Width.{number_in, Measurable};
ghost use Rattle.variables.specs.Ident.{marked};
ghost use Rattle.entries.specs.Entry.{end_variable, rest_then, entry_of};
ghost use Rattle.entries.specs.Entry.{settled_by, GoodHead, stood_of, Stored};

use layout::Columns;
use tokens::{Fault, OrFault};
use variables::{Head, Rest};

// A variable that stands: its columns, how many value lines there are then in all, and the place after END VARIABLE.
#[derive(Clone, Copy)]
pub enum Stood {
    Is {
        columns: Columns,
        last: usize,
        next: usize,
    },
    Not(Fault),
}

fn end_variable(classes: &[u8; 256], d: &[u8], next: usize) -> OrFault<usize>
    requires { Classes classes.now }
    ensures { result ≡ end_variable d.now next }
{
    let s = statements::notes_on(classes, d, Ok(next));
    let e = tokens::word_here(classes, d, s, b"END");
    let g = tokens::gap_on(classes, d, e);
    tokens::word_here(classes, d, g, b"VARIABLE")
}

// Width is judged after END VARIABLE.
fn settle(
    powers: &[u64; 16],
    lines: &[i64],
    h: Head,
    r: Rest,
    before: usize,
    end: OrFault<usize>,
) -> Stood
    requires tens { Tens powers.now }
    requires measurable { Measurable lines.now h r before }
    ensures { result ≡ settled_by (number_in lines.now before) h r before end }
{
    match end {
        Ok(next) => match measures::measure(powers, lines, h, r, before) {
            Ok(columns) => Stood::Is {
                columns,
                last: r.last,
                next,
            },
            Err(f) => Stood::Not(f),
        },
        Err(f) => Stood::Not(f),
    }
}

// What stands behind the position of a variable, up to END VARIABLE. Its values are told apart by marks of the variable's own stamp.
fn rest_then(
    classes: &[u8; 256],
    powers: &[u64; 16],
    d: &[u8],
    h: Head,
    before: usize,
    lines: &mut [i64],
    marks: &mut [u16],
    stamp: u16,
) -> Stood
    requires classes { Classes classes.now }
    requires tens { Tens powers.now }
    requires d_len_bound { length d.now ≤ 1048576 }
    requires before_in_bounds { (line_size * before ≤ length lines.old) × (before ≤ most_lines) × (length marks.old ≡ 16384) }
    requires good_head { GoodHead h }
    ensures { Unless (result ≡ Stood.Not short) (length lines.old < line_size * most_lines)
        ((result ≡ stood_of before (rest_then d.now before h))
        × Stored before (rest_then d.now before h) lines.old lines.new) }
{
    let width = h.finish + 1 - h.start;
    match variables::rest_on(
        classes,
        d,
        h.kind,
        Ok(h.next),
        width,
        before,
        lines,
        marks,
        stamp,
    ) {
        Ok(r) => {
            let end = end_variable(classes, d, r.next);
            settle(powers, lines, h, r, before, end)
        }
        Err(f) => Stood::Not(f),
    }
}

// VARIABLE to END VARIABLE, where `count` variables stand before it, whose idents are marked, and `before` lines before its own.
pub fn variable_on(
    classes: &[u8; 256],
    powers: &[u64; 16],
    d: &[u8],
    t: OrFault<usize>,
    seen: &[u8],
    count: usize,
    before: usize,
    lines: &mut [i64],
    marks: &mut [u16],
    stamp: u16,
) -> Stood
    requires classes { Classes classes.now }
    requires tens { Tens powers.now }
    requires d_len_bound { length d.now ≤ 1048576 }
    requires before_in_bounds { (line_size * before ≤ length lines.old) × (before ≤ most_lines) × (length marks.old ≡ 16384) }
    requires seen_len { length seen.now ≡ 10000 }
    ensures { Unless (result ≡ Stood.Not short) (length lines.old < line_size * most_lines)
        ((result ≡ stood_of before (entry_of d.now t (marked seen.now) count before))
        × Stored before (entry_of d.now t (marked seen.now) count before) lines.old lines.new) }
{
    let i = variables::ident_on(classes, d, t, seen, count);
    match variables::head_on(classes, d, i) {
        Ok(h) => rest_then(classes, powers, d, h, before, lines, marks, stamp),
        Err(f) => Stood::Not(f),
    }
}
