// What a variable's statements say as the columns of its row: its value width, and whether its position holds it. Above it stands
// the definition as a whole.
#![tactic(auto)]

ghost use Rattle.std.specs.Prelude.{◌≡◌, ◌≤◌};
ghost use Rattle.ascii.specs.rule.Tens.{Tens};
ghost use Rattle.measures.specs.Width.{flag_of, plain_columns, widened, lines_width, widest_of, width_of, full_columns};
ghost use Rattle.measures.specs.Width.{number_in, Ready, Measurable, measured};

use layout::{Columns, Kind, Line, Row};
use tokens::{Fault, OrFault};
use variables::{Head, Rest};

fn flag(b: bool) -> usize
    ensures { result ≡ flag_of b }
{
    if b { 1 } else { 0 }
}

// The columns of a variable but for its width, where `before` lines stand before its own.
fn plain_columns(h: Head, r: Rest, before: usize) -> Columns
    requires { before ≤ r.last }
    ensures { result ≡ plain_columns h r before }
{
    let b = r.block;
    let from = b.from;
    let to = b.to;
    let name = h.name;
    let label = h.label;
    Columns {
        ident: h.ident as usize,
        kind: h.kind,
        start: h.start as usize,
        finish: h.finish as usize,
        width: 0,
        decimals: b.decimals,
        point: b.point,
        subfields: r.subfields as usize,
        subwidth: r.subwidth as usize,
        range: flag(b.ranged),
        from,
        to,
        before,
        lines: r.last - before,
        name: name.place,
        name_len: name.length,
        label: label.place,
        label_len: label.length,
        usage: 0,
        filter: 0,
    }
}

// The bytes that the widest of a row's lines takes, 0 where it has none.
fn lines_width(powers: &[u64; 16], room: &[i64], r: Row) -> usize
    requires tens { Tens powers.now }
    requires ready { Ready room.now r }
    ensures { result ≡ lines_width r.kind (number_in room.now r.before) r.lines }
{
    let n = r.lines;
    if n == 0 {
        return 0;
    }
    let kind = r.kind;
    let hull = strides::hull_of(room, Line::SIZE * r.before, Line::SIZE, n);
    sound::hull_width(powers, kind, hull)
}

// The bytes that the widest of a row's range ends and lines takes.
fn widest(powers: &[u64; 16], room: &[i64], r: Row) -> usize
    requires tens { Tens powers.now }
    requires ready { Ready room.now r }
    ensures { result ≡ widest_of r (number_in room.now r.before) }
{
    let a = sound::range_width(powers, r);
    let b = lines_width(powers, room, r);
    sound::larger(a, b)
}

// The value width w of a row whose lines stand in the room, and whose SIZE, if it has one, is `size`.
fn width_of(powers: &[u64; 16], room: &[i64], r: Row, size: usize) -> usize
    requires tens { Tens powers.now }
    requires ready { Ready room.now r }
    ensures { result ≡ width_of r.kind r (number_in room.now r.before) size }
{
    let kind = r.kind;
    match kind {
        Kind::Single => widest(powers, room, r),
        Kind::Multiple(_) => widest(powers, room, r),
        Kind::Quantity(_) => widest(powers, room, r),
        Kind::Character => size,
        Kind::Logical => 1,
    }
}

fn with_width(c: Columns, w: usize) -> Columns
    ensures { result ≡ widened w c }
{
    let mut r = c;
    r.width = w;
    r
}

pub fn measure(
    powers: &[u64; 16],
    room: &[i64],
    h: Head,
    r: Rest,
    before: usize,
) -> OrFault<Columns>
    requires tens { Tens powers.now }
    requires measurable { Measurable room.now h r before }
    ensures { result ≡ measured (number_in room.now before) h r before }
{
    let c = plain_columns(h, r, before);
    let w = width_of(powers, room, Row::of(c), r.size as usize);
    let full = with_width(c, w);
    if sound::room_good(Row::of(full)) {
        return Ok(full);
    }
    Err(Fault {
        number: 7,
        place: h.place,
    })
}
