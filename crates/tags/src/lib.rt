// Start tags: the attributes that an element knows, each by its name and the form of its value, in whatever order they stand; the first 2
// or 50 met ends the tag, a required one that is missing is 2 at the tag's end, the first that isn't known is kept for 51. Above it stand
// contents and elements.
#![tactic(auto)]

ghost use Rattle.std.specs.Prelude.{◌≡◌, true, false, cond, eqb, ◌+◌, ◌-◌, ◌≤◌, ◌<◌, length, drop};
ghost use Rattle.tags.specs.rule.Tag.{is_named, slot_of, form_of, stretch_fits, placed_of, put_of, misses_of, shut_tag, turn_of, turns_of};
ghost use Rattle.tags.specs.rule.Tag.{tag_of};
ghost use Rattle.markup.specs.rule.Bytes.{of_kind, stands};
ghost use Rattle.markup.specs.rule.Grammar.{Each};
ghost use Rattle.tags.specs.Usual.{Usual, Valued, Given, EndAt, holding};

use attributes::Attribute;

// What is held of a tag: the values of its element's three attributes, each by its place and its end; the place of the third one's
// name; the place of the first attribute that isn't known; and the place to go on from. Place 0 is none.
#[derive(Clone, Copy)]
pub struct Held {
    pub a: usize,
    pub ae: usize,
    pub b: usize,
    pub be: usize,
    pub c: usize,
    pub ce: usize,
    pub third: usize,
    pub unknown: usize,
    pub next: usize,
}

// A tag that was read, up to the end mark at `place`; or the first 2 or 50 met.
#[derive(Clone, Copy)]
pub enum Tag {
    Read {
        held: Held,
        empty: bool,
        place: usize,
        next: usize,
    },
    Fault {
        number: usize,
        place: usize,
    },
}

#[derive(Clone, Copy)]
pub enum Turn {
    More(Held),
    Over(Tag),
}

// Whether the stretch from n to e is just a name.
pub fn is_named(d: &[u8], n: usize, e: usize, w: &[u8]) -> bool
    requires { (n ≤ e) × (e ≤ length d.now) }
    ensures { result ≡ is_named d.now n e w.now }
{
    if e - n == w.len() {
        return markup::is_there(d, n, w);
    }
    false
}

fn slot(d: &[u8], n: usize, e: usize, x: &[u8], y: &[u8], z: &[u8]) -> usize
    requires { (n ≤ e) × (e ≤ length d.now) }
    ensures { result ≡ slot_of d.now n e x.now y.now z.now }
{
    if is_named(d, n, e, x) {
        return 1;
    }
    if is_named(d, n, e, y) {
        return 2;
    }
    if is_named(d, n, e, z) {
        return 3;
    }
    0
}

// The form that the value of a slot has; any for one that isn't known.
fn form_of(slot: usize, f: usize, g: usize, k: usize) -> usize
    ensures { result ≡ form_of slot f g k }
{
    if slot == 1 {
        return f;
    }
    if slot == 2 {
        return g;
    }
    if slot == 3 { k } else { 0 }
}

fn stretch_fits(form: usize, d: &[u8], v: usize, e: usize) -> bool
    requires { (v ≤ e) × (e ≤ length d.now) }
    ensures { result ≡ stretch_fits form d.now v e }
{
    forms::fits(form, &d[v..e])
}

// A value for a slot: given twice is 50 at the name, of wrong form 2 at the value, else it is held.
fn place_value(before: usize, good: bool, name: usize, v: usize, h: Held) -> Turn
    ensures { result ≡ placed_of before good name v h }
{
    if before != 0 {
        return Turn::Over(Tag::Fault {
            number: 50,
            place: name,
        });
    }
    if good {
        return Turn::More(h);
    }
    Turn::Over(Tag::Fault {
        number: 2,
        place: v,
    })
}

fn put(h: Held, slot: usize, name: usize, next: usize, good: bool, v: usize, k: usize) -> Turn
    ensures { result ≡ put_of h slot name next good v k }
{
    let mut held = h;
    held.next = next;
    if slot == 1 {
        held.a = v;
        held.ae = k;
        return place_value(h.a, good, name, v, held);
    }
    if slot == 2 {
        held.b = v;
        held.be = k;
        return place_value(h.b, good, name, v, held);
    }
    if slot == 3 {
        held.c = v;
        held.ce = k;
        held.third = name;
        return place_value(h.c, good, name, v, held);
    }
    held.unknown = first_of(h.unknown, name);
    Turn::More(held)
}

// The first of two places that are there.
pub fn first_of(before: usize, name: usize) -> usize
    ensures { result ≡ cond (eqb before 0) name before }
{
    if before == 0 { name } else { before }
}

fn misses(required: usize, h: Held) -> bool
    ensures { result ≡ misses_of required h }
{
    ((0 < required) & (h.a == 0)) | (((1 < required) & (h.b == 0)) | ((2 < required) & (h.c == 0)))
}

fn shut(required: usize, h: Held, empty: bool, place: usize, next: usize) -> Tag
    ensures { result ≡ shut_tag required h empty place next }
{
    if misses(required, h) {
        return Tag::Fault { number: 2, place };
    }
    Tag::Read {
        held: h,
        empty,
        place,
        next,
    }
}

fn take_turn(
    bad: bool,
    d: &[u8],
    opened: usize,
    x: &[u8],
    y: &[u8],
    z: &[u8],
    f: usize,
    g: usize,
    k: usize,
    required: usize,
    h: Held,
) -> Turn
    requires { h.next ≤ length d.now }
    ensures { result ≡ turn_of bad d.now opened x.now y.now z.now f g k required h }
{
    let at = h.next;
    match attributes::next_attribute(bad, d, opened, at) {
        Attribute::One {
            name,
            nameend,
            value,
            valueend,
            next,
        } => {
            let place = slot(d, name, nameend, x, y, z);
            let form = form_of(place, f, g, k);
            let good = stretch_fits(form, d, value, valueend);
            put(h, place, name, next, good, value, valueend)
        }
        Attribute::Shut { empty, place, next } => Turn::Over(shut(required, h, empty, place, next)),
        Attribute::Faulty(p) => Turn::Over(Tag::Fault {
            number: 50,
            place: p,
        }),
    }
}

// ---- attributes as they usually stand: one space, the name, =, a value in double quotes that says itself. Most tags have the first one or
// two of their element's alone, in its order: these are told without a turn each.
// Whether w stands at a place and is written with the bytes of names.
fn is_name_there(d: &[u8], at: usize, w: &[u8]) -> bool
    requires { at + length w.now ≤ length d.now }
    ensures { result ≡ true → (stands w.now (drop at d.now) ≡ true) × Each (of_kind 1) w.now }
{
    for (i, b) in w.iter().enumerate() {
        if d[at + i] != *b {
            return false;
        }
        if !markup::is_name(*b) {
            return false;
        }
    }
    true
}

fn is_usual(d: &[u8], at: usize, w: &[u8]) -> bool
    requires { at ≤ length d.now }
    ensures { result ≡ true → Usual d.now at w.now }
{
    let left = d.len() - at;
    if left < 4 {
        return false;
    }
    let n = w.len();
    if left - 4 < n {
        return false;
    }
    if d[at] != 32 {
        return false;
    }
    if !markup::starts_name(d[at + 1]) {
        return false;
    }
    if !is_name_there(d, at + 1, w) {
        return false;
    }
    (d[at + 1 + n] == 61) & (d[at + 2 + n] == 34)
}

// The place of the double quote that ends a value of bytes that say themselves; 0 where there is a mark or no quote.
fn value_end(d: &[u8], at: usize) -> usize
    requires { at ≤ length d.now }
    ensures { (result ≡ 0 → ⊥) → Valued d.now at result }
{
    for i in at..d.len() {
        let b = d[i];
        if b == 34 {
            return i;
        }
        if b == 60 {
            return 0;
        }
        if b == 38 {
            return 0;
        }
    }
    0
}

// The place of the quote that ends the value of an attribute w, if it stands as usual with a value of that form; else 0.
fn usual_end(d: &[u8], at: usize, w: &[u8], form: usize) -> usize
    requires { at ≤ length d.now }
    ensures { (result ≡ 0 → ⊥) → Given d.now at w.now form result }
{
    if !is_usual(d, at, w) {
        return 0;
    }
    let v = at + w.len() + 3;
    let k = value_end(d, v);
    if k == 0 {
        return 0;
    }
    if stretch_fits(form, d, v, k) { k } else { 0 }
}

// The same for a second attribute y, which is not x.
fn second_end(d: &[u8], at: usize, x: &[u8], y: &[u8], form: usize) -> usize
    requires { at ≤ length d.now }
    ensures { (result ≡ 0 → ⊥) → Given d.now at y.now form result
        × (is_named d.now (at + 1) (at + 1 + length y.now) x.now ≡ false) }
{
    let k = usual_end(d, at, y, form);
    if k == 0 {
        return 0;
    }
    if is_named(d, at + 1, at + 1 + y.len(), x) {
        0
    } else {
        k
    }
}

// The end of a tag right at a place: 1 for >, 2 for />; 0 where neither stands.
fn end_at(d: &[u8], at: usize) -> usize
    requires { at ≤ length d.now }
    ensures { (result ≡ 0 → ⊥) → EndAt d.now at result }
{
    if d.len() - at < 2 {
        return 0;
    }
    if d[at] == 62 {
        return 1;
    }
    if (d[at] == 47) & (d[at + 1] == 62) {
        2
    } else {
        0
    }
}

// What is held of the first two attributes, up to a place.
fn hold(a: usize, ae: usize, b: usize, be: usize, next: usize) -> Held
    ensures { result ≡ holding a ae b be next }
{
    Held {
        a,
        ae,
        b,
        be,
        c: 0,
        ce: 0,
        third: 0,
        unknown: 0,
        next,
    }
}

// The rest of a tag, attribute by attribute.
fn read_turns(
    bad: bool,
    d: &[u8],
    opened: usize,
    x: &[u8],
    y: &[u8],
    z: &[u8],
    f: usize,
    g: usize,
    k: usize,
    required: usize,
    from: Held,
) -> Tag
    requires { from.next ≤ length d.now }
    ensures { result ≡ turns_of bad d.now opened x.now y.now z.now f g k required from }
{
    let mut h = from;
    loop {
        match take_turn(bad, d, opened, x, y, z, f, g, k, required, h) {
            Turn::More(g) => {
                h = g;
            }
            Turn::Over(t) => {
                return t;
            }
        }
    }
}

// The start tag whose < stands at `opened`, from behind its name on: the values of the attributes x, y, z, whose forms are f, g, k and of
// which the first `required` have to be there; the first 2 or 50 met counts, then a required one that is missing.
pub fn read_tag(
    bad: bool,
    d: &[u8],
    opened: usize,
    at: usize,
    x: &[u8],
    y: &[u8],
    z: &[u8],
    f: usize,
    g: usize,
    k: usize,
    required: usize,
) -> Tag
    requires { at ≤ length d.now }
    ensures { result ≡ tag_of bad d.now opened at x.now y.now z.now f g k required }
{
    let end = end_at(d, at);
    if end != 0 {
        let h = hold(0, 0, 0, 0, at);
        return shut(required, h, end == 2, at, at + end);
    }
    let ae = usual_end(d, at, x, f);
    if ae == 0 {
        let h = hold(0, 0, 0, 0, at);
        return read_turns(bad, d, opened, x, y, z, f, g, k, required, h);
    }
    let a = at + x.len() + 3;
    let next = ae + 1;
    let end = end_at(d, next);
    if end != 0 {
        let h = hold(a, ae, 0, 0, next);
        return shut(required, h, end == 2, next, next + end);
    }
    let be = second_end(d, next, x, y, g);
    if be == 0 {
        let h = hold(a, ae, 0, 0, next);
        return read_turns(bad, d, opened, x, y, z, f, g, k, required, h);
    }
    let b = next + y.len() + 3;
    let last = be + 1;
    let end = end_at(d, last);
    if end != 0 {
        let h = hold(a, ae, b, be, last);
        return shut(required, h, end == 2, last, last + end);
    }
    let h = hold(a, ae, b, be, last);
    read_turns(bad, d, opened, x, y, z, f, g, k, required, h)
}
