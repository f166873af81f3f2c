// All that stands before the first variable of a definition that was read before: where its texts are, whatever their order; and the clean
// text
// as a whole, sent to be measured or stored. Above it stands the call that writes clean definitions.
#![tactic(auto)]

ghost use Rattle.std.specs.Prelude.{◌≡◌, true, cond, ◌<◌};
ghost use Rattle.ascii.specs.Class.{Classes};
ghost use Rattle.ascii.specs.rule.Tens.{Tens};
ghost use Rattle.scan.specs.rule.Text.{text};
ghost use Rattle.sink.specs.rule.Sent.{Sent};
ghost use Rattle.steps.specs.Step.{place_in};
ghost use Rattle.fronts.specs.Front.{item_at, item_past, letter_in, letter_at, opening_past, items_of, front_at, perhaps_text};
ghost use Rattle.fronts.specs.Front.{standard_text, head_text, tail_text};
ghost use Rattle.fronts.specs.Front.{whole_text};
ghost use Rattle.fronts.specs.Front.{met_by, ended_by, meet_by, end_by};

use scan::Step;
use steps::Found;
use tokens::OrFault;

// A statement of the heading: 0 DATE, 1 TIME, 2 ORIGIN, 3 USER, 4 STANDARD, and the place behind its word; 5 another, and where it was
// looked for.
#[derive(Clone, Copy)]
pub struct Item {
    pub which: usize,
    pub next: usize,
}

// The notes before it are passed once, whatever its word.
fn item_at(classes: &[u8; 256], d: &[u8], n: usize) -> Item
    requires { Classes classes.now }
    ensures { result ≡ item_at d.now n }
{
    let g = steps::past_notes(classes, d, n);
    let date = steps::find_here(classes, d, g, b"DATE");
    if date.there {
        return Item {
            which: 0,
            next: date.next,
        };
    }
    let time = steps::find_here(classes, d, g, b"TIME");
    if time.there {
        return Item {
            which: 1,
            next: time.next,
        };
    }
    let origin = steps::find_here(classes, d, g, b"ORIGIN");
    if origin.there {
        return Item {
            which: 2,
            next: origin.next,
        };
    }
    let user = steps::find_here(classes, d, g, b"USER");
    if user.there {
        return Item {
            which: 3,
            next: user.next,
        };
    }
    let standard = steps::find_here(classes, d, g, b"STANDARD");
    if standard.there {
        return Item {
            which: 4,
            next: standard.next,
        };
    }
    Item { which: 5, next: n }
}

// The place behind a statement of the heading.
fn item_past(classes: &[u8; 256], d: &[u8], i: Item) -> usize
    requires { Classes classes.now }
    ensures { result ≡ item_past d.now i }
{
    if i.which == 4 {
        return steps::past_keyword(classes, d, i.next, b"NAMES");
    }
    let s = steps::string_span(classes, d, i.next);
    s.next
}

// A letter, and the place behind it.
#[derive(Clone, Copy)]
pub struct Letter {
    pub byte: u8,
    pub next: usize,
}

fn letter_in(s: Step) -> Letter
    ensures { result ≡ letter_in s }
{
    match s {
        Step::Byte {
            byte,
            place: _,
            next,
        } => Letter { byte, next },
        Step::End { place } => Letter {
            byte: 0,
            next: place,
        },
    }
}

fn letter_at(classes: &[u8; 256], d: &[u8], n: usize) -> Letter
    requires { Classes classes.now }
    ensures { result ≡ letter_at d.now n }
{
    let g = steps::past_gap(classes, d, n);
    let s = scan::next_byte(classes, d, g);
    letter_in(s)
}

fn place_in(t: OrFault<usize>) -> usize
    ensures { result ≡ place_in 0 t }
{
    match t {
        Ok(m) => m,
        Err(_) => 0,
    }
}

fn past_opening(classes: &[u8; 256], d: &[u8]) -> usize
    requires { Classes classes.now }
    ensures { result ≡ opening_past d.now }
{
    let t = statements::read_opening(classes, d);
    place_in(t)
}

// Where the statements of the heading are, and the place behind them.
#[derive(Clone, Copy)]
pub struct Items {
    pub date: Found,
    pub time: Found,
    pub origin: Found,
    pub user: Found,
    pub standard: Found,
    pub next: usize,
}

// A statement that was met is kept as the one of its kind k, if it is the first.
fn met(f: Found, k: usize, i: Item) -> Found
    ensures { result ≡ met_by f k i }
{
    if f.there {
        return f;
    }
    if i.which == k {
        return Found {
            there: true,
            next: i.next,
        };
    }
    f
}

// One that was not met is not there.
fn ended(f: Found, n: usize) -> Found
    ensures { result ≡ ended_by f n }
{
    if f.there {
        return f;
    }
    Found {
        there: false,
        next: n,
    }
}

fn meet(m: Items, i: Item, next: usize) -> Items
    ensures { result ≡ meet_by m i next }
{
    let date = met(m.date, 0, i);
    let time = met(m.time, 1, i);
    let origin = met(m.origin, 2, i);
    let user = met(m.user, 3, i);
    let standard = met(m.standard, 4, i);
    Items {
        date,
        time,
        origin,
        user,
        standard,
        next,
    }
}

fn end_items(m: Items) -> Items
    ensures { result ≡ end_by m }
{
    let n = m.next;
    let date = ended(m.date, n);
    let time = ended(m.time, n);
    let origin = ended(m.origin, n);
    let user = ended(m.user, n);
    let standard = ended(m.standard, n);
    Items {
        date,
        time,
        origin,
        user,
        standard,
        next: n,
    }
}

// One walk finds them all: comments and notes, which may be many, are passed once.
fn items_of(classes: &[u8; 256], d: &[u8], start: usize) -> Items
    requires { Classes classes.now }
    ensures { result ≡ items_of d.now start }
{
    let none = Found {
        there: false,
        next: 0,
    };
    let mut m = Items {
        date: none,
        time: none,
        origin: none,
        user: none,
        standard: none,
        next: start,
    };
    for _ in 0..6usize {
        let i = item_at(classes, d, m.next);
        if i.which == 5 {
            return end_items(m);
        }
        let next = item_past(classes, d, i);
        m = meet(m, i, next);
    }
    end_items(m)
}

fn either_place(q: bool, a: usize, b: usize) -> usize
    ensures { result ≡ cond q a b }
{
    if q { a } else { b }
}

// What stands before the first variable.
#[derive(Clone, Copy)]
pub struct Front {
    pub items: Items,
    pub title: Found,
    pub letter: u8,
    pub next: usize,
}

fn front_at(classes: &[u8; 256], d: &[u8]) -> Front
    requires { Classes classes.now }
    ensures { result ≡ front_at d.now }
{
    let a = past_opening(classes, d);
    let items = items_of(classes, d, a);
    let b = steps::past_statement(classes, d, items.next, b"SURVEY");
    let title = steps::find_statement(classes, d, b, b"TITLE");
    let s = steps::string_span(classes, d, title.next);
    let e = either_place(title.there, s.next, b);
    let f = steps::past_statement(classes, d, e, b"RECORD");
    let l = letter_at(classes, d, f);
    Front {
        items,
        title,
        letter: l.byte,
        next: l.next,
    }
}

// A statement that may be absent.
fn send_perhaps(
    classes: &[u8; 256],
    d: &[u8],
    bound: usize,
    out: &mut [u8],
    at: usize,
    f: Found,
    pre: &[u8],
) -> usize
    requires { Classes classes.now }
    ensures { Sent bound out.old at (perhaps_text d.now f pre.now) out.new result }
{
    if f.there {
        let s = steps::string_span(classes, d, f.next);
        return pages::send_framed(classes, d, bound, out, at, pre, s, b"\"\r\n");
    }
    at
}

fn send_standard(bound: usize, out: &mut [u8], at: usize, f: Found) -> usize
    ensures { Sent bound out.old at (standard_text f) out.new result }
{
    if f.there {
        return sink::send_bytes(bound, out, at, b"STANDARD NAMES\r\n");
    }
    at
}

// The heading's lines, in their order.
fn send_head(
    classes: &[u8; 256],
    d: &[u8],
    bound: usize,
    out: &mut [u8],
    at: usize,
    i: Items,
) -> usize
    requires { Classes classes.now }
    ensures { Sent bound out.old at (head_text d.now i) out.new result }
{
    let date = i.date;
    let time = i.time;
    let origin = i.origin;
    let user = i.user;
    let standard = i.standard;
    let a = sink::send_bytes(bound, out, at, b"SSS\r\nVERSION 1.1\r\n");
    let b = send_perhaps(classes, d, bound, out, a, date, b"DATE \"");
    let c = send_perhaps(classes, d, bound, out, b, time, b"TIME \"");
    let e = send_perhaps(classes, d, bound, out, c, origin, b"ORIGIN \"");
    let f = send_perhaps(classes, d, bound, out, e, user, b"USER \"");
    send_standard(bound, out, f, standard)
}

// SURVEY, TITLE, RECORD.
fn send_tail(
    classes: &[u8; 256],
    d: &[u8],
    bound: usize,
    out: &mut [u8],
    at: usize,
    title: Found,
    letter: u8,
) -> usize
    requires { Classes classes.now }
    ensures { Sent bound out.old at (tail_text d.now title letter) out.new result }
{
    let a = sink::send_bytes(bound, out, at, b"SURVEY\r\n");
    let b = send_perhaps(classes, d, bound, out, a, title, b"TITLE \"");
    let c = sink::send_bytes(bound, out, b, b"RECORD ");
    let e = sink::send_byte(bound, out, c, letter);
    sink::send_bytes(bound, out, e, b"\r\n")
}

// The clean text of a definition that was read before.
pub fn send_clean(
    classes: &[u8; 256],
    powers: &[u64; 16],
    d: &[u8],
    bound: usize,
    out: &mut [u8],
    at: usize,
) -> usize
    requires classes { Classes classes.now }
    requires tens { Tens powers.now }
    ensures { Sent bound out.old at (whole_text d.now) out.new result }
{
    let f = front_at(classes, d);
    let items = f.items;
    let title = f.title;
    let a = send_head(classes, d, bound, out, at, items);
    let b = send_tail(classes, d, bound, out, a, title, f.letter);
    let v = pages::send_variables(classes, powers, d, f.next, bound, out, b);
    sink::send_bytes(bound, out, v.at, b"END RECORD\r\nEND SURVEY\r\nEND SSS\r\n")
}
