// `<values>` of a definition in XML: a range and lines, or lines, each read whole and then judged as those of 1.1 are, with 51 behind.
// Above it stand the sheets.
#![tactic(auto)]

ghost use Rattle.std.specs.Prelude.{◌≡◌, true, List, ℕ, ◌+◌, ◌*◌, ◌-◌, ◌≤◌, ◌<◌, ℤ, length};
ghost use Rattle.layout.specs.rule.Layout.{line_size, most_lines};
ghost use Rattle.tags.specs.rule.Tag.{stretch_fits};
ghost use Rattle.values.specs.Value.{point_of};
ghost use Rattle.values.specs.Line.{judge_line, grown_point, grown_by};
ghost use Rattle.values.specs.Room.{room_at, Marked, storable, judged_room, judged_marks};
ghost use Rattle.survey.specs.rule.Survey as survey;
ghost use Rattle.reading.specs.rule.Result.{repeat};
ghost use Rattle.xml_reading.specs.rule.Word.{VALUE};
ghost use Rattle.xml_reading.specs.rule.Open as rule;
ghost use Rattle.xml_reading.specs.rule.Open.{due};
ghost use Rattle.xml_reading.specs.rule.Element.{amount_in};
ghost use Rattle.xml_reading.specs.rule.Block as block;
ghost use Rattle.xml_reading.specs.rule.Block.{rich, lined, another_line, values};
ghost use Rattle.elements.specs.Code.{Slot};
ghost use Rattle.blocks.specs.Code.{held_as, Below, turned, pair_of, unless_of, placed_of, settled_of, word_of, counted_of};
ghost use Rattle.blocks.specs.Lines.{range_read, wording, worded_of, lined_of, first_tag, block_read, Lines, Standing, Went, Begun};
ghost use Rattle.blocks.specs.Lines.{Closed};

use elements::{Body, Open, Passed};
use ranks::Found;
use tags::{Held, Tag};
use tokens::{Fault, OrFault, Quoted, Value};
use values::{Block, Listed, Said};

// The value that the stretch from v to e says, whose form was asked.
fn amount_at(d: &[u8], v: usize, e: usize) -> Value
    requires { (v ≤ e) × (e ≤ length d.now) }
    ensures { stretch_fits 2 d.now v e ≡ true → result ≡ held_as (amount_in d.now v e) }
{
    amounts::value_in(&d[v..e], v, e)
}

// Whether b lies below a, by their true values.
fn below_in(d: &[u8], a: Value, b: Value) -> bool
    requires { (a.first ≤ a.last) × (a.last ≤ length d.now) × (b.first ≤ b.last) × (b.last ≤ length d.now) }
    ensures { Below d.now a b result }
{
    let v = a.first;
    let e = a.last;
    let w = b.first;
    let k = b.last;
    if a.minus {
        if b.minus {
            return amounts::less_in(&d[v..e], &d[w..k]);
        }
        return false;
    }
    if b.minus {
        // one of them is not zero
        let zero = amounts::less_in(b"", &d[v..e]);
        return zero | amounts::less_in(b"", &d[w..k]);
    }
    amounts::less_in(&d[w..k], &d[v..e])
}

// A range whose second value stands first, and has its form: an 8 is at that one, if it has one.
fn turn(quantity: bool, b: Value, j: OrFault<Block>) -> OrFault<Block>
    ensures { result ≡ turned quantity b j }
{
    match j {
        Ok(k) => Ok(k),
        Err(f) => {
            if (f.number == 8) & values::large(quantity, b) {
                return Err(Fault {
                    number: 8,
                    place: b.place,
                });
            }
            Err(f)
        }
    }
}

// A range from a to b, whose second value may stand first.
fn judge_pair(below: bool, quantity: bool, a: Value, b: Value) -> OrFault<Block>
    ensures { result ≡ pair_of below quantity a b }
{
    if b.place < a.place {
        if !values::formed(quantity, b) {
            return Err(Fault {
                number: 6,
                place: b.place,
            });
        }
        let j = values::judge_range(below, quantity, a, b);
        return turn(quantity, b, j);
    }
    values::judge_range(below, quantity, a, b)
}

// The code of the point of one number.
fn own_point(v: Value) -> usize
    ensures { result ≡ point_of v }
{
    if !v.point {
        return 0;
    }
    if v.whole == 0 { 2 } else { 1 }
}

// The code of a block with one more line, of the value v: where theirs differ, some number has a point and some is not bare.
fn grown_point(b: Block, v: Value) -> usize
    ensures { result ≡ grown_point b v }
{
    let own = own_point(v);
    if b.known & (b.point != own) {
        return 1;
    }
    own
}

// A block with one more line, of the value v.
fn grown(b: Block, v: Value) -> Block
    ensures { result ≡ grown_by b v }
{
    let from = b.from;
    let to = b.to;
    let point = grown_point(b, v);
    Block {
        ranged: b.ranged,
        from,
        to,
        known: true,
        decimals: v.decimals,
        point,
    }
}

// A range or a line that was read: what the block has said with it, and the place after it.
#[derive(Clone, Copy)]
pub enum Lined {
    Is { block: Block, next: usize },
    Not(Fault),
}

// A block, if nothing else was found in its last element.
fn unless(found: Found, block: Block, next: usize) -> Lined
    ensures { result ≡ unless_of found block next }
{
    if found.number != 0 {
        return Lined::Not(Fault {
            number: found.number,
            place: found.place,
        });
    }
    Lined::Is { block, next }
}

// A line that was read: judged, and if it stands stored, with its mark; then what else was found in its element, which is 51.
fn place_line(
    quantity: bool,
    first: usize,
    s: Said,
    found: Found,
    b: Block,
    last: usize,
    lines: &mut [i64],
    marks: &mut [u16],
    stamp: u16,
) -> Lined
    requires lines_len { (length lines.old ≡ line_size * most_lines) × (first ≤ last) × (last ≤ most_lines) × (length marks.old ≡ 16384) }
    requires marked { Marked (room_at lines.old first) (last - first) stamp marks.old }
    requires storable { storable s }
    ensures value { result ≡ placed_of b s found (judge_line (room_at lines.old first) (last - first) first quantity b s.value) }
    ensures lines_after { lines.new ≡ judged_room lines.old last s
        (judge_line (room_at lines.old first) (last - first) first quantity b s.value) }
    ensures marks_after { marks.new ≡ judged_marks marks.old stamp
        (judge_line (room_at lines.old first) (last - first) first quantity b s.value) }
{
    match values::stand_line(quantity, first, s, b, last, lines, marks, stamp) {
        Ok(_) => {
            let g = grown(b, s.value);
            unless(found, g, s.next)
        }
        Err(f) => Lined::Not(f),
    }
}

// A range whose element was read: judged, and then what else was found there.
fn settle_range(d: &[u8], quantity: bool, h: Held, found: Found, next: usize) -> Lined
    requires { Slot d.now 2 h.a h.ae × Slot d.now 2 h.b h.be }
    ensures { result ≡ settled_of d.now quantity h found next }
{
    let a = amount_at(d, h.a, h.ae);
    let b = amount_at(d, h.b, h.be);
    let below = below_in(d, a, b);
    match judge_pair(below, quantity, a, b) {
        Ok(block) => {
            let own = ranks::fault_at(51, h.unknown);
            let all = ranks::lower(own, found);
            unless(all, block, next)
        }
        Err(f) => Lined::Not(f),
    }
}

// `<range from to/>`, whose < stands at `place` and whose name ends at `end`.
pub fn range_at(bad: bool, d: &[u8], place: usize, end: usize, quantity: bool) -> Lined
    requires { end ≤ length d.now }
    ensures { result ≡ lined_of (range_read bad d.now quantity place end) }
{
    match tags::read_tag(bad, d, place, end, b"from", b"to", b"", 2, 2, 0, 2) {
        Tag::Read {
            held,
            empty,
            place: _,
            next,
        } => match elements::pass_pair(bad, d, next, empty, b"range") {
            Passed::Is { found, next: n } => settle_range(d, quantity, held, found, n),
            Passed::Not(f) => Lined::Not(f),
        },
        Tag::Fault { number, place: p } => Lined::Not(Fault { number, place: p }),
    }
}

// A line as it was read: its value and text, and what else was found in its element.
#[derive(Clone, Copy)]
pub enum Worded {
    Is { said: Said, found: Found },
    Not(Fault),
}

fn mode_of(languages: bool) -> usize
    ensures { result ≡ rich languages }
{
    if languages { 2 } else { 1 }
}

// A line whose start tag held h, and whose text was read.
fn word(d: &[u8], h: Held, t: Body) -> Worded
    requires { Slot d.now 2 h.a h.ae }
    ensures { result ≡ word_of d.now h t }
{
    let value = amount_at(d, h.a, h.ae);
    let own = ranks::fault_at(51, h.unknown);
    let inner = t.found;
    let found = ranks::lower(own, inner);
    Worded::Is {
        said: Said {
            value,
            text: Quoted {
                place: t.place,
                length: t.length,
                next: t.next,
            },
            special: 0,
            next: t.next,
        },
        found,
    }
}

// `<value code>text</value>`, read and not judged yet.
fn read_value(bad: bool, d: &[u8], place: usize, end: usize, languages: bool) -> Worded
    requires { end ≤ length d.now }
    ensures { result ≡ worded_of (wording bad d.now languages place end) }
{
    let mode = mode_of(languages);
    match tags::read_tag(bad, d, place, end, b"code", b"", b"", 2, 0, 0, 1) {
        Tag::Read {
            held,
            empty,
            place: _,
            next,
        } => match elements::body_at(bad, d, next, empty, b"value", mode) {
            Ok(t) => word(d, held, t),
            Err(f) => Worded::Not(f),
        },
        Tag::Fault { number, place: p } => Worded::Not(Fault { number, place: p }),
    }
}

// A line of a block behind its other lines: read, judged, and if it stands stored.
pub fn line_at(
    bad: bool,
    d: &[u8],
    place: usize,
    end: usize,
    languages: bool,
    quantity: bool,
    first: usize,
    b: Block,
    last: usize,
    lines: &mut [i64],
    marks: &mut [u16],
    stamp: u16,
) -> Lined
    requires end_in_bounds { (end ≤ length d.now) × (length d.now ≤ 1048576) }
    requires standing { Standing quantity first lines.old stamp marks.old last b }
    ensures { (c : survey.Block) (start : List ℤ)
        → Lines quantity first start lines.old stamp marks.old last b c
        → Went (length d.now) quantity first start lines.new stamp marks.new last
        (lined bad d.now languages quantity first c place end) result }
{
    match read_value(bad, d, place, end, languages) {
        Worded::Is { said, found } => place_line(
            quantity, first, said, found, b, last, lines, marks, stamp,
        ),
        Worded::Not(f) => Lined::Not(f),
    }
}

// A start tag where a line is due.
fn value_tag(
    bad: bool,
    d: &[u8],
    place: usize,
    end: usize,
    languages: bool,
    quantity: bool,
    first: usize,
    b: Block,
    last: usize,
    lines: &mut [i64],
    marks: &mut [u16],
    stamp: u16,
) -> Lined
    requires place_bound { (place + 1 < end) × (end ≤ length d.now) × (length d.now ≤ 1048576) }
    requires standing { Standing quantity first lines.old stamp marks.old last b }
    ensures { (c : survey.Block) (start : List ℤ)
        → Lines quantity first start lines.old stamp marks.old last b c
        → Went (length d.now) quantity first start lines.new stamp marks.new last
        (due bad d.now VALUE (rule.start place) (lined bad d.now languages quantity first c) end) result }
{
    if !tags::is_named(d, place + 1, end, b"value") {
        return Lined::Not(elements::misplaced(bad, d, place, end));
    }
    line_at(
        bad, d, place, end, languages, quantity, first, b, last, lines, marks, stamp,
    )
}

// A block with so many lines in all.
fn listed(r: Lined, last: usize) -> Listed
    ensures { result ≡ counted_of r last }
{
    match r {
        Lined::Is { block, next } => Listed::Is { block, last, next },
        Lined::Not(f) => Listed::Not(f),
    }
}

// A start tag where a range or the first line is due.
fn first_tag(
    bad: bool,
    d: &[u8],
    place: usize,
    end: usize,
    languages: bool,
    quantity: bool,
    first: usize,
    lines: &mut [i64],
    marks: &mut [u16],
    stamp: u16,
) -> Listed
    requires place_bound { (place + 1 < end) × (end ≤ length d.now) × (length d.now ≤ 1048576) }
    requires lines_len { (length lines.old ≡ line_size * most_lines) × (first ≤ most_lines) × (length marks.old ≡ 16384) }
    ensures { Begun (length d.now) quantity first lines.old lines.new stamp marks.new
        (first_tag bad d.now languages quantity first place end) result }
{
    if tags::is_named(d, place + 1, end, b"range") {
        let r = range_at(bad, d, place, end, quantity);
        return listed(r, first);
    }
    let b = values::empty_block();
    let r = value_tag(
        bad, d, place, end, languages, quantity, first, b, first, lines, marks, stamp,
    );
    listed(r, first + 1)
}

// The range of a block, or its first line.
fn first_at(
    bad: bool,
    d: &[u8],
    at: usize,
    languages: bool,
    quantity: bool,
    first: usize,
    lines: &mut [i64],
    marks: &mut [u16],
    stamp: u16,
) -> Listed
    requires at_in_bounds { (at ≤ length d.now) × (length d.now ≤ 1048576) }
    requires lines_len { (length lines.old ≡ line_size * most_lines) × (first ≤ most_lines) × (length marks.old ≡ 16384) }
    ensures { Begun (length d.now) quantity first lines.old lines.new stamp marks.new
        (block.first bad d.now languages quantity first at) result }
{
    match elements::find_open(bad, d, at, b"values") {
        Open::Start { place, end } => first_tag(
            bad, d, place, end, languages, quantity, first, lines, marks, stamp,
        ),
        Open::Shut { place, next: _ } => Listed::Not(Fault { number: 2, place }),
        Open::Not(f) => Listed::Not(f),
    }
}

// The other lines of a block, up to its end tag.
fn read_values(
    bad: bool,
    d: &[u8],
    at: usize,
    languages: bool,
    quantity: bool,
    first: usize,
    b: Block,
    count: usize,
    lines: &mut [i64],
    marks: &mut [u16],
    stamp: u16,
) -> Listed
    requires at_in_bounds { (at ≤ length d.now) × (length d.now ≤ 1048576) }
    requires standing { Standing quantity first lines.old stamp marks.old count b }
    ensures { (c : survey.Block) (start : List ℤ) (f : ℕ)
        → Lines quantity first start lines.old stamp marks.old count b c → most_lines - count < f
        → Closed (length d.now) first (repeat f (another_line bad d.now languages quantity first) c at) start
        lines.new result }
{
    let mut n = at;
    let mut block = b;
    let mut last = count;
    loop {
        match elements::find_open(bad, d, n, b"values") {
            Open::Start { place, end } => match value_tag(
                bad, d, place, end, languages, quantity, first, block, last, lines, marks, stamp,
            ) {
                Lined::Is { block: y, next } => {
                    block = y;
                    n = next;
                    last += 1;
                }
                Lined::Not(f) => {
                    return Listed::Not(f);
                }
            },
            Open::Shut { place: _, next } => {
                return Listed::Is { block, last, next };
            }
            Open::Not(f) => {
                return Listed::Not(f);
            }
        }
    }
}

// What a block holds, from behind its start tag on.
fn block_at(
    bad: bool,
    d: &[u8],
    at: usize,
    languages: bool,
    quantity: bool,
    first: usize,
    lines: &mut [i64],
    marks: &mut [u16],
    stamp: u16,
) -> Listed
    requires at_in_bounds { (at ≤ length d.now) × (length d.now ≤ 1048576) }
    requires lines_len { (length lines.old ≡ line_size * most_lines) × (first ≤ most_lines) × (length marks.old ≡ 16384) }
    ensures { Closed (length d.now) first (block_read bad d.now languages quantity first at)
        lines.old lines.new result }
{
    match first_at(bad, d, at, languages, quantity, first, lines, marks, stamp) {
        Listed::Is { block, last, next } => read_values(
            bad, d, next, languages, quantity, first, block, last, lines, marks, stamp,
        ),
        Listed::Not(f) => Listed::Not(f),
    }
}

// `<values>` behind so many lines of other variables, whose < stands at `place` and whose name ends at `end`. The stamp is the variable's
// own, so that marks of others say nothing here; if one does, it costs time alone.
pub fn values_at(
    bad: bool,
    d: &[u8],
    place: usize,
    end: usize,
    languages: bool,
    quantity: bool,
    before: usize,
    lines: &mut [i64],
    marks: &mut [u16],
    stamp: u16,
) -> Listed
    requires end_in_bounds { (end ≤ length d.now) × (length d.now ≤ 1048576) }
    requires lines_len { (length lines.old ≡ line_size * most_lines) × (before ≤ most_lines) × (length marks.old ≡ 16384) }
    ensures { Closed (length d.now) before (values bad d.now languages quantity before place end)
        lines.old lines.new result }
{
    match pairs::read_bare(bad, d, place, end) {
        Tag::Read {
            held,
            empty,
            place: p,
            next,
        } => {
            if held.unknown != 0 {
                return Listed::Not(Fault {
                    number: 51,
                    place: held.unknown,
                });
            }
            if empty {
                return Listed::Not(Fault {
                    number: 2,
                    place: p,
                });
            }
            block_at(
                bad, d, next, languages, quantity, before, lines, marks, stamp,
            )
        }
        Tag::Fault { number, place: p } => Listed::Not(Fault { number, place: p }),
    }
}
