// The elements of a definition in XML that hold no others, and what stands where a tag is due: texts, position, spread, size, each read
// whole and then judged as 1.1's statements are, with 51 behind. Above it stand blocks, prefaces, filters and sheets.
#![tactic(auto)]

ghost use Rattle.std.specs.Prelude.{◌≡◌, Bool, true, false, cond, List, [], ◌∷◌, ◌++◌, ℕ, ◌+◌, ◌-◌, ◌≤◌, ◌<◌, eqb, ltb, length};
ghost use Rattle.std.proofs.Math.Option.{none, some};
ghost use Rattle.tokens.specs.rule.Gap.{fault};
ghost use Rattle.survey.specs.rule.Survey.{Figure};
ghost use Rattle.ranks.specs.rule.Rank.{found_at, lower_found};
ghost use Rattle.reading.specs.rule.Least.{Charge, judged};
ghost use Rattle.reading.specs.rule.Statement.{size_charges};
ghost use Rattle.bridge.specs.Tokens.{to_number};
ghost use Rattle.bridge.specs.Statements.{figures, to_stated, to_spreading};
ghost use Rattle.pairs.specs.rule.Stand.{shut_of};
ghost use Rattle.reading.specs.rule.Result.{Is, bind, give};
ghost use Rattle.xml_reading.specs.rule.Open.{start, on_shut, unknown_at, within_element, misplaced, due, nothing};
ghost use Rattle.xml_reading.specs.rule.Element as rule;
ghost use Rattle.xml_reading.specs.rule.Element.{body_of, body, text, figure_of, position, spread, size_in, size};
ghost use Rattle.elements.specs.Code.{open_of, read_of, Within, blamed, due_of, starts_of, passed_of, bodied_of, phrase_of, ruled};
ghost use Rattle.elements.specs.Code.{found_of, Numbered, alone, Slot, Written, Numbers};
ghost use Rattle.elements.specs.Code.{position_judged, position_behind, spread_judged, spread_held, spread_behind};
ghost use Rattle.elements.specs.Code.{position_found, located_of, shared_of, sized_of, Tells};

use contents::Content;
use markup::Skip;
use pairs::{Pair, Stand};
use ranks::Found;
use statements::{Position, Subfields};
use tags::{Held, Tag};
use tokens::{Fault, Figures, OrFault, Quoted};

// What stands inside an element where a tag is due: a start tag, with the place of its < and of its name's end; the end tag of the element
// around, with the place of its < and the place after it; or what is refused.
#[derive(Clone, Copy)]
pub enum Open {
    Start { place: usize, end: usize },
    Shut { place: usize, next: usize },
    Not(Fault),
}

// The end tag whose < stands at p, and whose name ends at e.
fn shut_at(bad: bool, d: &[u8], p: usize, e: usize, w: &[u8]) -> Open
    requires { (p + 2 ≤ e) × (e ≤ length d.now) }
    ensures { result ≡ open_of (on_shut p (shut_of bad d.now p e w.now)) }
{
    match pairs::read_shut(bad, d, p, e, w) {
        Skip::Past(next) => Open::Shut { place: p, next },
        Skip::Broken(q) => Open::Not(Fault {
            number: 50,
            place: q,
        }),
    }
}

// What stands from a place on inside an element w.
pub fn find_open(bad: bool, d: &[u8], at: usize, w: &[u8]) -> Open
    requires { at ≤ length d.now }
    ensures { (result ≡ open_of (within_element bad d.now w.now at)) × Within d.now at result }
{
    match pairs::find_stand(bad, d, at) {
        Stand::Start { place, end } => Open::Start { place, end },
        Stand::Close { place, end } => shut_at(bad, d, place, end, w),
        Stand::Foreign(p) => Open::Not(Fault {
            number: 51,
            place: p,
        }),
        Stand::Text(p) => Open::Not(Fault {
            number: 2,
            place: p,
        }),
        Stand::Broken(p) => Open::Not(Fault {
            number: 50,
            place: p,
        }),
    }
}

// What a start tag that may not stand there is refused with: its form is read first.
pub fn misplaced(bad: bool, d: &[u8], place: usize, end: usize) -> Fault
    requires { end ≤ length d.now }
    ensures { result ≡ blamed {A = Unit} (misplaced bad d.now place end) }
{
    match pairs::read_bare(bad, d, place, end) {
        Tag::Read {
            held: _,
            empty: _,
            place: _,
            next: _,
        } => Fault { number: 51, place },
        Tag::Fault { number, place: p } => Fault { number, place: p },
    }
}

// Whether the start tag of an element w stands there.
pub fn is_start(d: &[u8], o: Open, w: &[u8]) -> bool
    requires { Within d.now 0 o }
    ensures { result ≡ starts_of d.now o w.now }
{
    match o {
        Open::Start { place, end } => tags::is_named(d, place + 1, end, w),
        Open::Shut { place: _, next: _ } => false,
        Open::Not(_) => false,
    }
}

// The start tag that is due, with the place of its < and of its name's end; or what is refused since another thing stands there.
#[derive(Clone, Copy)]
pub enum Due {
    At { place: usize, end: usize },
    Not(Fault),
}

fn start_due(bad: bool, d: &[u8], place: usize, end: usize, w: &[u8]) -> Due
    requires { (place + 1 < end) × (end ≤ length d.now) }
    ensures { result ≡ due_of (due bad d.now w.now (start place) give end) }
{
    if tags::is_named(d, place + 1, end, w) {
        return Due::At { place, end };
    }
    Due::Not(misplaced(bad, d, place, end))
}

// The start tag of an element w is due.
pub fn tag_due(bad: bool, d: &[u8], o: Open, w: &[u8]) -> Due
    requires { Within d.now 0 o }
    ensures { result ≡ due_of (bind (read_of o) λ x. due bad d.now w.now x give) }
{
    match o {
        Open::Start { place, end } => start_due(bad, d, place, end, w),
        Open::Shut { place, next: _ } => Due::Not(Fault { number: 2, place }),
        Open::Not(f) => Due::Not(f),
    }
}

// The end of an element that holds nothing: the least fault behind its start tag, and the place to go on from.
#[derive(Clone, Copy)]
pub enum Passed {
    Is { found: Found, next: usize },
    Not(Fault),
}

// From behind the start tag of an element w that holds nothing, and which is <x/> where `empty`.
pub fn pass_pair(bad: bool, d: &[u8], at: usize, empty: bool, w: &[u8]) -> Passed
    requires { at ≤ length d.now }
    ensures { result ≡ passed_of (nothing bad d.now w.now empty at) }
{
    if empty {
        let found = ranks::fault_at(51, 0);
        return Passed::Is { found, next: at };
    }
    match pairs::read_pair(bad, d, at, w) {
        Pair::Past(next) => {
            let found = ranks::fault_at(51, 0);
            Passed::Is { found, next }
        }
        Pair::Cut(p) => {
            let found = ranks::fault_at(51, p);
            Passed::Is { found, next: p }
        }
        Pair::Fault { number, place } => Passed::Not(Fault { number, place }),
    }
}

// A text behind its start tag: where it lies, whether nothing cuts it, the least fault in it, and the place to go on from.
#[derive(Clone, Copy)]
pub struct Body {
    pub place: usize,
    pub length: usize,
    pub whole: bool,
    pub found: Found,
    pub next: usize,
}

// The text of an element w behind its start tag, which is <w/> where `empty`. Mode 0: characters alone; 1: breaks too; 2: texts in other
// languages too. What cuts it is 51 there, if no attribute before it is unknown.
pub fn body_at(bad: bool, d: &[u8], at: usize, empty: bool, w: &[u8], mode: usize) -> OrFault<Body>
    requires { at ≤ length d.now }
    ensures { result ≡ bodied_of (body bad d.now w.now mode empty at) }
{
    if empty {
        return lying(at, at, true, 0, 0, at);
    }
    match contents::read_content(bad, d, mode, w, at) {
        Content::Read { end, next, unknown } => lying(at, end, true, unknown, 0, next),
        Content::Cut { place, unknown } => lying(at, at, false, unknown, place, place),
        Content::Fault { number, place } => Err(Fault { number, place }),
    }
}

// A text from a place to its end, with two places of 51 in it.
fn lying(
    place: usize,
    end: usize,
    whole: bool,
    unknown: usize,
    cut: usize,
    next: usize,
) -> OrFault<Body>
    requires { place ≤ end }
    ensures { result ≡ bodied_of (Is (body_of place end whole (unknown_at unknown ∷ unknown_at cut ∷ [])) next) }
{
    let first = ranks::fault_at(51, unknown);
    let second = ranks::fault_at(51, cut);
    let found = ranks::lower(first, second);
    Ok(Body {
        place,
        length: end - place,
        whole,
        found,
        next,
    })
}

// A text, if nothing was found in its element.
fn said(b: Body, found: Found) -> OrFault<Quoted>
    ensures { result ≡ phrase_of (ruled found (record { place = b.place; length = b.length }) b.next) }
{
    if found.number == 0 {
        return Ok(Quoted {
            place: b.place,
            length: b.length,
            next: b.next,
        });
    }
    Err(Fault {
        number: found.number,
        place: found.place,
    })
}

// An element w that is only a text, whose < stands at `place` and whose name ends at `end`.
pub fn text_at(
    bad: bool,
    d: &[u8],
    place: usize,
    end: usize,
    w: &[u8],
    mode: usize,
) -> OrFault<Quoted>
    requires { end ≤ length d.now }
    ensures { result ≡ phrase_of (text bad d.now w.now mode place end) }
{
    match pairs::read_bare(bad, d, place, end) {
        Tag::Read {
            held,
            empty,
            place: _,
            next,
        } => match body_at(bad, d, next, empty, w, mode) {
            Ok(b) => {
                let inner = b.found;
                let found = behind_tag(held.unknown, inner);
                said(b, found)
            }
            Err(f) => Err(f),
        },
        Tag::Fault { number, place: p } => Err(Fault { number, place: p }),
    }
}

// The number that the stretch from v to e says, whose form was asked; or 0, where nothing stands.
fn figure_at(d: &[u8], v: usize, e: usize) -> Figures
    requires { (v ≤ e) × (e ≤ length d.now) }
    ensures { Written d.now v e → result ≡ figures (figure_of d.now v e) e }
{
    match spans::figures_in(&d[v..e]) {
        Some((size, count)) => Figures {
            size,
            count,
            place: v,
            next: e,
        },
        None => Figures {
            size: 0,
            count: 0,
            place: v,
            next: e,
        },
    }
}

// Whether the second number says less than the first, by their true values.
fn falls(d: &[u8], v: usize, e: usize, w: usize, k: usize) -> bool
    requires { Slot d.now 1 v e × Slot d.now 1 w k }
    ensures { result ≡ ltb (figure_of d.now w k).value (figure_of d.now v e).value }
{
    amounts::less_in(&d[w..k], &d[v..e])
}

// A fault that is named, or none.
fn charge(named: bool, number: usize, place: usize) -> Found
    ensures { result ≡ alone (fault number place) named }
{
    if named {
        return Found { number, place };
    }
    Found {
        number: 0,
        place: 0,
    }
}

// What is wrong with the locations a and b, of which the second says less than the first where `below`; or else what lies behind them.
fn locations_fault(below: bool, a: Figures, b: Figures, behind: Found) -> Found
    ensures { result ≡ position_found below a b behind }
{
    let zero = charge(a.size == 0, 7, a.place);
    let less = charge(below, 7, b.place);
    let first = charge(16384 < a.size, 8, a.place);
    let last = charge(16384 < b.size, 8, b.place);
    let end = ranks::lower(last, behind);
    let high = ranks::lower(first, end);
    let wrong = ranks::lower(less, high);
    ranks::lower(zero, wrong)
}

fn located(a: Figures, b: Figures, next: usize, found: Found) -> OrFault<Position>
    ensures { result ≡ located_of a b next found }
{
    if found.number == 0 {
        return Ok(Position {
            start: a.size,
            finish: b.size,
            place: a.place,
            next,
        });
    }
    Err(Fault {
        number: found.number,
        place: found.place,
    })
}

// A position whose tag was read, before what was found behind it.
fn locate(d: &[u8], h: Held, behind: Found, next: usize) -> OrFault<Position>
    requires { Numbers d.now h }
    ensures { (l : List Charge) → Numbered l → behind ≡ found_of l → result ≡ to_stated (position_judged d.now h l next) }
{
    let a = figure_at(d, h.a, h.ae);
    if h.b == 0 {
        let found = locations_fault(false, a, a, behind);
        return located(a, a, next, found);
    }
    let b = figure_at(d, h.b, h.be);
    let below = falls(d, h.a, h.ae, h.b, h.be);
    let found = locations_fault(below, a, b, behind);
    located(a, b, next, found)
}

// What is wrong behind a tag's numbers: an attribute that isn't known, and then what was found inside the element.
fn behind_tag(unknown: usize, found: Found) -> Found
    ensures { result ≡ lower_found (found_at 51 unknown) found }
{
    let attribute = ranks::fault_at(51, unknown);
    ranks::lower(attribute, found)
}

fn position_held(bad: bool, d: &[u8], h: Held, empty: bool, at: usize) -> OrFault<Position>
    requires { Numbers d.now h × (at ≤ length d.now) }
    ensures { result ≡ to_stated (position_behind bad d.now h empty at) }
{
    match pass_pair(bad, d, at, empty, b"position") {
        Passed::Is { found, next } => {
            let behind = behind_tag(h.unknown, found);
            locate(d, h, behind, next)
        }
        Passed::Not(f) => Err(f),
    }
}

// <position start [finish]/>, whose < stands at `place` and whose name ends at `end`.
pub fn position_at(bad: bool, d: &[u8], place: usize, end: usize) -> OrFault<Position>
    requires { end ≤ length d.now }
    ensures { result ≡ to_stated (position bad d.now place end) }
{
    match tags::read_tag(bad, d, place, end, b"start", b"finish", b"", 1, 1, 0, 1) {
        Tag::Read {
            held,
            empty,
            place: _,
            next,
        } => position_held(bad, d, held, empty, next),
        Tag::Fault { number, place: p } => Err(Fault { number, place: p }),
    }
}

fn shared(count: u64, width: u64, next: usize, found: Found) -> OrFault<Subfields>
    ensures { result ≡ shared_of count width next found }
{
    if found.number == 0 {
        return Ok(Subfields { count, width, next });
    }
    Err(Fault {
        number: found.number,
        place: found.place,
    })
}

// Subfields without a width: they share the position's.
fn share_even(n: Figures, room: u64, behind: Found, next: usize) -> OrFault<Subfields>
    requires { room < 1000000000000000 }
    ensures { (x : Figure) (e : ℕ) (l : List Charge) → n ≡ figures x e → Numbered l → behind ≡ found_of l → result
        ≡ to_spreading room (spread_judged room x none l next) }
{
    let count = n.size;
    if count == 0 {
        let zero = charge(true, 7, n.place);
        let found = ranks::lower(zero, behind);
        return shared(0, 0, next, found);
    }
    let odd = charge(room % count != 0, 7, n.place);
    let found = ranks::lower(odd, behind);
    shared(count, room / count, next, found)
}

// Subfields of a width of their own.
fn share_fields(n: Figures, w: Figures, behind: Found, next: usize) -> OrFault<Subfields>
    ensures { (room : ℕ) (x y : Figure) (e k : ℕ) (l : List Charge) → n ≡ figures x e → w ≡ figures y k → Numbered l → behind
        ≡ found_of l → result ≡ to_spreading room (spread_judged room x (some y) l next) }
{
    let none = charge(n.size == 0, 7, n.place);
    let thin = charge(w.size == 0, 7, w.place);
    let rest = ranks::lower(thin, behind);
    let found = ranks::lower(none, rest);
    shared(n.size, w.size, next, found)
}

// A spread whose tag was read, before what was found behind it.
fn share(d: &[u8], h: Held, room: u64, behind: Found, next: usize) -> OrFault<Subfields>
    requires { Numbers d.now h × (room < 1000000000000000) }
    ensures { (l : List Charge) → Numbered l → behind ≡ found_of l → result
        ≡ to_spreading room (spread_held room d.now h l next) }
{
    let n = figure_at(d, h.a, h.ae);
    if h.b == 0 {
        return share_even(n, room, behind, next);
    }
    let w = figure_at(d, h.b, h.be);
    share_fields(n, w, behind, next)
}

fn spread_held(
    bad: bool,
    d: &[u8],
    h: Held,
    empty: bool,
    at: usize,
    room: u64,
) -> OrFault<Subfields>
    requires { Numbers d.now h × (at ≤ length d.now) × (room < 1000000000000000) }
    ensures { result ≡ to_spreading room (spread_behind bad d.now room h empty at) }
{
    match pass_pair(bad, d, at, empty, b"spread") {
        Passed::Is { found, next } => {
            let behind = behind_tag(h.unknown, found);
            share(d, h, room, behind, next)
        }
        Passed::Not(f) => Err(f),
    }
}

// <spread subfields [width]/> in a position of `room` bytes.
pub fn spread_at(bad: bool, d: &[u8], place: usize, end: usize, room: u64) -> OrFault<Subfields>
    requires { (end ≤ length d.now) × (room < 1000000000000000) }
    ensures { result ≡ to_spreading room (spread bad d.now room place end) }
{
    match tags::read_tag(bad, d, place, end, b"subfields", b"width", b"", 1, 1, 0, 1) {
        Tag::Read {
            held,
            empty,
            place: _,
            next,
        } => spread_held(bad, d, held, empty, next, room),
        Tag::Fault { number, place: p } => Err(Fault { number, place: p }),
    }
}

fn sized(x: Figures, next: usize, found: Found) -> OrFault<Figures>
    ensures { result ≡ sized_of x next found }
{
    if found.number == 0 {
        return Ok(Figures {
            size: x.size,
            count: x.count,
            place: x.place,
            next,
        });
    }
    Err(Fault {
        number: found.number,
        place: found.place,
    })
}

// A size whose text is digits.
fn size_judged(x: Figures, behind: Found, next: usize) -> OrFault<Figures>
    ensures { (y : Figure) (e : ℕ) (l : List Charge) → x ≡ figures y e → Numbered l → behind ≡ found_of l → result
        ≡ to_number (judged (size_charges y ++ l) y next) }
{
    let none = charge(x.size == 0, 7, x.place);
    let large = charge(4096 < x.size, 8, x.place);
    let rest = ranks::lower(large, behind);
    let found = ranks::lower(none, rest);
    sized(x, next, found)
}

// A size whose text was read: it has to be digits, unless something cuts it.
fn size_in(d: &[u8], b: Body, behind: Found) -> OrFault<Figures>
    requires { (b.place + b.length ≤ length d.now) × (b.whole ≡ false → b.length ≡ 0) }
    ensures { (bad : Bool) (u : ℕ) (t : rule.Body) → Tells t b → behind ≡ lower_found (found_at 51 u) b.found → result
        ≡ to_number (size_in bad d.now u t b.next) }
{
    let v = b.place;
    let e = v + b.length;
    let x = figure_at(d, v, e);
    if b.whole {
        if forms::fits(1, &d[v..e]) {
            return size_judged(x, behind, b.next);
        }
        return Err(Fault {
            number: 2,
            place: v,
        });
    }
    sized(x, b.next, behind)
}

// <size>n</size>.
pub fn size_at(bad: bool, d: &[u8], place: usize, end: usize) -> OrFault<Figures>
    requires { end ≤ length d.now }
    ensures { result ≡ to_number (size bad d.now place end) }
{
    match pairs::read_bare(bad, d, place, end) {
        Tag::Read {
            held,
            empty,
            place: _,
            next,
        } => match body_at(bad, d, next, empty, b"size", 0) {
            Ok(b) => {
                let inner = b.found;
                let behind = behind_tag(held.unknown, inner);
                size_in(d, b, behind)
            }
            Err(f) => Err(f),
        },
        Tag::Fault { number, place: p } => Err(Fault { number, place: p }),
    }
}
