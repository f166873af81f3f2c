// A text of a definition decoded for a caller: the public call behind names, labels and the texts of lines. The stretch is measured
// first, so that a refusal keeps the list, and then written. Above it stands the face.
#![tactic(auto)]

ghost use Rattle.std.specs.Prelude.{◌≡◌, ◌+◌, ◌≤◌, length, drop, ◌++◌, ltb, cond, true};
ghost use Rattle.ascii.specs.Class.{Classes};
ghost use Rattle.scan.specs.rule.Text.{text};
ghost use Rattle.marks.specs.rule.Spelling.{decode_of};
ghost use Rattle.texts.specs.rule.Decode.{numbers_of, TextDecoded};
ghost use Rattle.texts.specs.Measured.{is_mark, completes, ended_in, measure_from, Passed, Paced, Copied, form_sign, Form, FormEnd};

use marks::{Inside, Move, Part};
use scan::Step;
use signs::Sign;

// A run of bytes passed at once: the place after it, and how many signs were said before that.
#[derive(Clone, Copy)]
pub struct Run {
    pub next: usize,
    pub count: usize,
}

// The answer of the call.
#[derive(Clone, Copy)]
pub enum Decoded {
    Signs(usize),
    NotText,
    ShortList,
}

// 1 for a byte that is kept, 0 for one that is dropped.
fn kept(b: u8) -> usize
    ensures { (result ≡ cond (ltb b 32) 0 1) × (result ≤ 1) }
{
    if b < 32 { 0 } else { 1 }
}

// Whether a byte is a mark in plain text: a quote or a brace that opens a form.
fn marked(b: u8) -> bool
    ensures { result ≡ is_mark b }
{
    (b == 34) | (b == 123)
}

// The place behind a brace form of one sign whose bytes stand side by side; or the place itself, where none is told at once.
fn form_end(classes: &[u8; 256], s: &[u8], n: usize) -> usize
    requires classes { Classes classes.now }
    requires n_in_bounds { n ≤ length s.now }
    ensures { FormEnd s.now n result }
{
    if s.len() - n < 4 {
        return n;
    }
    if s[n] != 123 {
        return n;
    }
    let b = s[n + 1];
    let c = s[n + 2];
    if marked(b) {
        return if c == 125 { n + 3 } else { n };
    }
    if s[n + 3] != 125 {
        return n;
    }
    if b == 78 {
        return if c == 76 { n + 4 } else { n };
    }
    if !marks::is_hex(classes, b) {
        return n;
    }
    if marks::is_hex(classes, c) { n + 4 } else { n }
}

// The sign of a brace form that was told at once.
fn form_sign(classes: &[u8; 256], s: &[u8], n: usize, m: usize) -> Sign
    requires classes { Classes classes.now }
    requires form { Form s.now n m }
    ensures { result ≡ form_sign s.now n }
{
    let b = s[n + 1];
    if b == 78 {
        return Sign::Break;
    }
    if marked(b) {
        return Sign::Byte(b);
    }
    let high = marks::hex_value(classes, b);
    Sign::Byte(high * 16 + marks::hex_value(classes, s[n + 2]))
}

// Passes plain bytes, and brace forms that are told at once.
fn pass_plain(classes: &[u8; 256], s: &[u8], n: usize) -> Run
    requires { Classes classes.now }
    ensures { Passed s.now Inside.Plain n result }
{
    let mut i = n;
    let mut count: usize = 0;
    while i < s.len() {
        let b = s[i];
        if marked(b) {
            let e = form_end(classes, s, i);
            if e == i {
                return Run { next: i, count };
            }
            count += 1;
            i = e;
        } else {
            count += kept(b);
            i += 1;
        }
    }
    Run { next: i, count }
}

// Passes hex pairs, in a form that opened at o.
fn pass_pairs(classes: &[u8; 256], s: &[u8], n: usize, o: usize) -> Run
    requires { Classes classes.now }
    ensures { Passed s.now (Inside.Pair o) n result }
{
    let mut i = n;
    let mut count: usize = 0;
    // A hand-counted loop: the place where the pairs stop is part of the answer.
    while i < s.len() {
        if s.len() - i < 2 {
            return Run { next: i, count };
        }
        if !marks::is_hex(classes, s[i]) {
            return Run { next: i, count };
        }
        if !marks::is_hex(classes, s[i + 1]) {
            return Run { next: i, count };
        }
        count += 1;
        i += 2;
    }
    Run { next: i, count }
}

// Passes what can be passed at once.
fn pass(classes: &[u8; 256], s: &[u8], inside: Inside, n: usize) -> Run
    requires { Classes classes.now }
    ensures { Passed s.now inside n result }
{
    match inside {
        Inside::Plain => pass_plain(classes, s, n),
        Inside::Opened(_) => Run { next: n, count: 0 },
        Inside::Shut(_) => Run { next: n, count: 0 },
        Inside::Ell(_) => Run { next: n, count: 0 },
        Inside::Pair(o) => pass_pairs(classes, s, n, o),
        Inside::Low(_) => Run { next: n, count: 0 },
    }
}

// How many signs a byte completes.
fn completed(inside: Inside, b: u8) -> usize
    ensures { (result ≡ completes inside b) × (result ≤ 1) }
{
    match inside {
        Inside::Plain => if b == 123 { 0 } else { 1 },
        Inside::Opened(_) => {
            if b == 34 {
                return 1;
            }
            if b == 123 { 1 } else { 0 }
        }
        Inside::Shut(_) => 0,
        Inside::Ell(_) => 1,
        Inside::Pair(_) => 0,
        Inside::Low(_) => 1,
    }
}

// What a stretch measures that is over: so many signs; or none, since it is not the inside of a text.
fn ended(inside: Inside, count: usize) -> Option<usize>
    ensures { result ≡ ended_in inside count }
{
    match inside {
        Inside::Plain => Some(count),
        Inside::Opened(_) => None,
        Inside::Shut(_) => None,
        Inside::Ell(_) => None,
        Inside::Pair(_) => None,
        Inside::Low(_) => None,
    }
}

// One byte of a stretch read: how many signs it completes, the place after it, and where the reader then stands; or it can't stand
// there; or the stretch is over.
#[derive(Clone, Copy)]
pub enum Pace {
    On {
        count: usize,
        next: usize,
        inside: Inside,
    },
    Wrong,
    Over,
}

fn step(classes: &[u8; 256], s: &[u8], inside: Inside, n: usize) -> Pace
    requires { Classes classes.now }
    ensures { Paced s.now inside n result }
{
    match scan::next_byte(classes, s, n) {
        Step::Byte { byte, place, next } => {
            match marks::move_inside(classes, inside, byte, place) {
                Move::Go(t) => {
                    let count = completed(inside, byte);
                    Pace::On {
                        count,
                        next,
                        inside: t,
                    }
                }
                Move::Closed => Pace::Wrong,
                Move::Wrong(_) => Pace::Wrong,
            }
        }
        Step::End { place: _ } => Pace::Over,
    }
}

// What the stretch from a place to the end measures.
fn measure(classes: &[u8; 256], s: &[u8], at: usize) -> Option<usize>
    requires classes { Classes classes.now }
    requires at_in_bounds { at ≤ length s.now }
    ensures { result ≡ measure_from Inside.Plain 0 (text s.now at) }
{
    let mut n = at;
    let mut inside = Inside::Plain;
    let mut count: usize = 0;
    loop {
        let run = pass(classes, s, inside, n);
        count += run.count;
        match step(classes, s, inside, run.next) {
            Pace::On {
                count: k,
                next,
                inside: t,
            } => {
                count += k;
                inside = t;
                n = next;
            }
            Pace::Wrong => {
                return None;
            }
            Pace::Over => {
                return ended(inside, count);
            }
        }
    }
}

// Writes plain bytes, and brace forms that are told at once, into the list from k on.
fn copy_plain(classes: &[u8; 256], s: &[u8], n: usize, list: &mut [i64], k: usize) -> Run
    requires classes { Classes classes.now }
    requires n_in_bounds { k + length (decode_of Inside.Plain 0 (text s.now n)) ≤ length list.old }
    ensures { Copied s.now Inside.Plain n k list.old list.new result }
{
    let mut i = n;
    let mut m = k;
    while i < s.len() {
        let at = i;
        let b = s[at];
        if marked(b) {
            let e = form_end(classes, s, at);
            if e == at {
                return Run { next: at, count: m };
            }
            list[m] = cells::cell_of(signs::number_of(form_sign(classes, s, at, e)));
            m += 1;
            i = e;
        } else {
            i += 1;
            if 32 <= b {
                list[m] = cells::cell_of(signs::number_of(Sign::Byte(b)));
                m += 1;
            }
        }
    }
    Run { next: i, count: m }
}

// Writes hex pairs into it, in a form that opened at o.
fn copy_pairs(classes: &[u8; 256], s: &[u8], n: usize, o: usize, list: &mut [i64], k: usize) -> Run
    requires classes { Classes classes.now }
    requires n_in_bounds { k + length (decode_of (Inside.Pair o) 0 (text s.now n)) ≤ length list.old }
    ensures { Copied s.now (Inside.Pair o) n k list.old list.new result }
{
    let mut i = n;
    let mut m = k;
    // A hand-counted loop: the place where the pairs stop is part of the answer.
    while i < s.len() {
        if s.len() - i < 2 {
            return Run { next: i, count: m };
        }
        let a = s[i];
        let b = s[i + 1];
        if !marks::is_hex(classes, a) {
            return Run { next: i, count: m };
        }
        if !marks::is_hex(classes, b) {
            return Run { next: i, count: m };
        }
        let high = marks::hex_value(classes, a);
        list[m] = cells::cell_of(signs::number_of(Sign::Byte(
            high * 16 + marks::hex_value(classes, b),
        )));
        m += 1;
        i += 2;
    }
    Run { next: i, count: m }
}

// Writes what can be written at once.
fn copy(classes: &[u8; 256], s: &[u8], inside: Inside, n: usize, list: &mut [i64], k: usize) -> Run
    requires classes { Classes classes.now }
    requires n_in_bounds { k + length (decode_of inside 0 (text s.now n)) ≤ length list.old }
    ensures { Copied s.now inside n k list.old list.new result }
{
    match inside {
        Inside::Plain => copy_plain(classes, s, n, list, k),
        Inside::Opened(_) => Run { next: n, count: k },
        Inside::Shut(_) => Run { next: n, count: k },
        Inside::Ell(_) => Run { next: n, count: k },
        Inside::Pair(o) => copy_pairs(classes, s, n, o, list, k),
        Inside::Low(_) => Run { next: n, count: k },
    }
}

// Writes the signs of the stretch from a place to the end, of which there are so many, at the start of the list.
fn write(classes: &[u8; 256], s: &[u8], at: usize, count: usize, list: &mut [i64])
    requires classes { Classes classes.now }
    requires count_value { count ≡ length (decode_of Inside.Plain 0 (text s.now at)) }
    requires count_in_bounds { count ≤ length list.old }
    ensures { list.new ≡ numbers_of (decode_of Inside.Plain 0 (text s.now at)) ++ drop count list.old }
{
    let mut n = at;
    let mut inside = Inside::Plain;
    let mut k: usize = 0;
    while k < count {
        let run = copy(classes, s, inside, n, list, k);
        let m = run.count;
        match marks::next_part(classes, s, run.next, inside) {
            Part::Said {
                sign,
                next,
                inside: t,
            } => {
                list[m] = cells::cell_of(signs::number_of(sign));
                k = m + 1;
                n = next;
                inside = t;
            }
            Part::Over => {
                return;
            }
        }
    }
}

// Decodes the text of that length from that place of the definition: its signs at the start of the list, a byte as itself and a break
// as 256.
pub fn decode_text(d: &[u8], place: usize, long: usize, list: &mut [i64]) -> Decoded
    ensures { TextDecoded d.now place long list.old list.new result }
{
    if d.len() < place {
        return Decoded::NotText;
    }
    if d.len() - place < long {
        return Decoded::NotText;
    }
    let end = place + long;
    let classes = ascii::classes();
    match measure(&classes, &d[..end], place) {
        Some(n) => {
            if list.len() < n {
                return Decoded::ShortList;
            }
            write(&classes, &d[..end], place, n, list);
            Decoded::Signs(n)
        }
        None => Decoded::NotText,
    }
}
