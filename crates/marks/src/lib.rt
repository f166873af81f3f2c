// Strings and comments: what stands between two marks is skipped, or for a string decoded, one sign at a time. Above it stand the
// tokens of a definition, and whoever reads a text of it.
#![tactic(auto)]

ghost use Rattle.std.specs.Prelude.{◌≡◌, ◌+◌, ◌<◌, ◌≤◌, length, true};
ghost use Rattle.ascii.specs.Class.{Classes};
ghost use Rattle.scan.specs.rule.Text.{text};
ghost use Rattle.marks.specs.rule.Marks.{is_hex, inside_of, string_of, comment_of};
ghost use Rattle.marks.specs.Marks.{item_of};
ghost use Rattle.marks.specs.rule.Spelling.{hex_of, gives_of};
ghost use Rattle.marks.specs.Spelling.{given_list, ready, idle, part_from};

use scan::Step;
use signs::Sign;

// Where a string's reader stands: in plain text, or in a brace form that opened at a place: just opened, before its closing
// brace, after an N, before a pair's first digit or its end, before a pair's second digit.
#[derive(Clone, Copy)]
pub enum Inside {
    Plain,
    Opened(usize),
    Shut(usize),
    Ell(usize),
    Pair(usize),
    Low(usize),
}

#[derive(Clone, Copy)]
pub enum Move {
    Go(Inside),
    Closed,
    Wrong(usize),
}

pub fn is_hex(classes: &[u8; 256], b: u8) -> bool
    requires { Classes classes.now }
    ensures { result ≡ is_hex b }
{
    if ascii::class_of(classes, b) == ascii::DIGIT {
        return true;
    }
    let u = ascii::upper(b);
    if u < 65 { false } else { u <= 70 }
}

// The next byte of a string in plain text.
fn move_plain(b: u8, place: usize) -> Move
    ensures { result ≡ inside_of Inside.Plain b place }
{
    if b == 34 {
        return Move::Closed;
    }
    if b == 123 {
        Move::Go(Inside::Opened(place))
    } else {
        Move::Go(Inside::Plain)
    }
}

// The first byte of a brace form that opened at o.
fn move_opened(classes: &[u8; 256], o: usize, b: u8, place: usize) -> Move
    requires { Classes classes.now }
    ensures { result ≡ inside_of (Inside.Opened o) b place }
{
    if b == 34 {
        return Move::Go(Inside::Shut(o));
    }
    if b == 123 {
        return Move::Go(Inside::Shut(o));
    }
    if b == 78 {
        return Move::Go(Inside::Ell(o));
    }
    if is_hex(classes, b) {
        Move::Go(Inside::Low(o))
    } else {
        Move::Wrong(o)
    }
}

// The next byte of a string.
pub fn move_inside(classes: &[u8; 256], s: Inside, b: u8, place: usize) -> Move
    requires { Classes classes.now }
    ensures { result ≡ inside_of s b place }
{
    match s {
        Inside::Plain => move_plain(b, place),
        Inside::Opened(o) => move_opened(classes, o, b, place),
        Inside::Shut(o) => {
            if b == 125 {
                Move::Go(Inside::Plain)
            } else {
                Move::Wrong(o)
            }
        }
        Inside::Ell(o) => {
            if b == 76 {
                Move::Go(Inside::Shut(o))
            } else {
                Move::Wrong(o)
            }
        }
        Inside::Pair(o) => {
            if b == 125 {
                return Move::Go(Inside::Plain);
            }
            if is_hex(classes, b) {
                Move::Go(Inside::Low(o))
            } else {
                Move::Wrong(o)
            }
        }
        Inside::Low(o) => {
            if is_hex(classes, b) {
                Move::Go(Inside::Pair(o))
            } else {
                Move::Wrong(o)
            }
        }
    }
}

// The end of what is skipped: the place after it; that no end comes; or a form that is bad, and its place.
#[derive(Clone, Copy)]
pub enum Skip {
    Past(usize),
    Unclosed,
    Bad(usize),
}

// A place from which a string is read as from n: in plain text that of the next quote or brace, as all before it is passed at once.
fn onward(d: &[u8], s: Inside, n: usize) -> usize
    ensures { (n ≤ result) × (string_of s (text d.now n) ≡ string_of s (text d.now result)) }
{
    match s {
        Inside::Plain => quotes::skip_pair(d, n, 34, 123),
        Inside::Opened(_) => n,
        Inside::Shut(_) => n,
        Inside::Ell(_) => n,
        Inside::Pair(_) => n,
        Inside::Low(_) => n,
    }
}

// A string with brace forms, from a place in its plain text on.
fn pieces(classes: &[u8; 256], d: &[u8], at: usize) -> Skip
    requires { Classes classes.now }
    ensures { result ≡ string_of Inside.Plain (text d.now at) }
{
    let mut n = at;
    let mut s = Inside::Plain;
    loop {
        match scan::next_byte(classes, d, n) {
            Step::Byte { byte, place, next } => {
                match move_inside(classes, s, byte, place) {
                    Move::Go(t) => {
                        s = t;
                        n = onward(d, t, next);
                    }
                    Move::Closed => {
                        return Skip::Past(next);
                    }
                    Move::Wrong(o) => {
                        return Skip::Bad(o);
                    }
                }
            }
            Step::End { place: _ } => {
                return Skip::Unclosed;
            }
        }
    }
}

// Whether a quote or an opening brace stands in braces at a place, with no dropped byte inside: {"} or {{}.
fn form_at(d: &[u8], n: usize) -> bool
    ensures { result ≡ true → (n + 3 ≤ length d.now)
        × (string_of Inside.Plain (text d.now n) ≡ string_of Inside.Plain (text d.now (n + 3))) }
{
    if d.len() < 3 {
        return false;
    }
    if d.len() - 3 < n {
        return false;
    }
    if d[n] != 123 {
        return false;
    }
    if d[n + 2] != 125 {
        return false;
    }
    let b = d[n + 1];
    if b == 34 {
        return true;
    }
    b == 123
}

// A place from which a string is read as from `at`, in plain text: that of the next quote or brace, forms of one sign passed whole.
pub fn pass_forms(d: &[u8], at: usize) -> usize
    ensures { string_of Inside.Plain (text d.now at) ≡ string_of Inside.Plain (text d.now result) }
{
    let mut n = quotes::skip_pair(d, at, 34, 123);
    loop {
        if form_at(d, n) {
            n = quotes::skip_pair(d, n + 3, 34, 123);
        } else {
            return n;
        }
    }
}

// A string, from just after its opening quote. Most have no other brace form, and end at the next mark.
pub fn string(classes: &[u8; 256], d: &[u8], at: usize) -> Skip
    requires { Classes classes.now }
    ensures { result ≡ string_of Inside.Plain (text d.now at) }
{
    let n = pass_forms(d, at);
    if n < d.len() {
        if d[n] == 34 {
            return Skip::Past(n + 1);
        }
    }
    pieces(classes, d, n)
}

// A comment of a level, from just after its opening angle.
#[cycle(comment_item)]
pub fn comment(classes: &[u8; 256], d: &[u8], at: usize, level: usize) -> Skip
    requires { Classes classes.now }
    ensures { result ≡ comment_of level (text d.now at) }
{
    let mut n = at;
    loop {
        // What opens and closes nothing is passed at once.
        let i = quotes::skip_plain(d, n, 34, 60, 62);
        match scan::next_byte(classes, d, i) {
            Step::Byte { byte, place, next } => {
                if byte == 62 {
                    return Skip::Past(next);
                }
                match item(classes, d, byte, place, level) {
                    Skip::Past(m) => {
                        n = m;
                    }
                    Skip::Unclosed => {
                        return Skip::Unclosed;
                    }
                    Skip::Bad(p) => {
                        return Skip::Bad(p);
                    }
                }
            }
            Step::End { place: _ } => {
                return Skip::Unclosed;
            }
        }
    }
}

// One item inside a comment of a level, from its first byte on: a string, a comment, or that byte.
#[cycle(comment_item)]
pub fn item(classes: &[u8; 256], d: &[u8], byte: u8, place: usize, level: usize) -> Skip
    requires classes { Classes classes.now }
    requires place_in_bounds { place < length d.now }
    ensures { result ≡ item_of level place byte (text d.now (place + 1)) }
{
    if byte == 34 {
        return string(classes, d, place + 1);
    }
    if byte == 60 {
        if level < 32 {
            return comment(classes, d, place + 1, level + 1);
        }
        return Skip::Bad(place);
    }
    Skip::Past(place + 1)
}

// The value of a hex digit.
pub fn hex_value(classes: &[u8; 256], b: u8) -> u8
    requires classes { Classes classes.now }
    requires b_value { is_hex b ≡ true }
    ensures { (result ≡ hex_of b) × (result ≤ 15) }
{
    if ascii::class_of(classes, b) == ascii::DIGIT {
        return b - 48;
    }
    ascii::upper(b) - 55
}

// What a string's byte completes.
#[derive(Clone, Copy)]
pub enum Given {
    One(Sign),
    Nothing,
}

// The sign that a string's byte b completes, read in the state s behind the byte a.
fn completed(classes: &[u8; 256], s: Inside, a: u8, b: u8) -> Given
    requires classes { Classes classes.now }
    requires b_value { ready s a b ≡ true }
    ensures { given_list result ≡ gives_of s a b }
{
    match s {
        Inside::Plain => if b == 123 {
            Given::Nothing
        } else {
            Given::One(Sign::Byte(b))
        },
        Inside::Opened(_) => {
            if b == 34 {
                return Given::One(Sign::Byte(b));
            }
            if b == 123 {
                Given::One(Sign::Byte(b))
            } else {
                Given::Nothing
            }
        }
        Inside::Shut(_) => Given::Nothing,
        Inside::Ell(_) => Given::One(Sign::Break),
        Inside::Pair(_) => Given::Nothing,
        Inside::Low(_) => {
            let high = hex_value(classes, a);
            Given::One(Sign::Byte(high * 16 + hex_value(classes, b)))
        }
    }
}

// What stands next in a string: a sign that it says, with the place and the state to read on from; or its end.
#[derive(Clone, Copy)]
pub enum Part {
    Said {
        sign: Sign,
        next: usize,
        inside: Inside,
    },
    Over,
}

// The decoder. A string is read from just after its opening quote in the state Plain, and on from where an answer left off.
pub fn next_part(classes: &[u8; 256], d: &[u8], at: usize, inside: Inside) -> Part
    requires classes { Classes classes.now }
    requires inside_value { idle inside ≡ true }
    ensures { result ≡ part_from inside 0 (text d.now at) }
{
    let mut n = at;
    let mut s = inside;
    let mut a: u8 = 0;
    loop {
        match scan::next_byte(classes, d, n) {
            Step::Byte { byte, place, next } => {
                match move_inside(classes, s, byte, place) {
                    Move::Go(t) => match completed(classes, s, a, byte) {
                        Given::One(x) => {
                            return Part::Said {
                                sign: x,
                                next,
                                inside: t,
                            };
                        }
                        Given::Nothing => {
                            s = t;
                            a = byte;
                            n = next;
                        }
                    },
                    Move::Closed => {
                        return Part::Over;
                    }
                    Move::Wrong(_) => {
                        return Part::Over;
                    }
                }
            }
            Step::End { place: _ } => {
                return Part::Over;
            }
        }
    }
}
