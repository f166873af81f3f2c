// What a stretch of bytes says, as the value of an attribute or a text without tags has it: each byte itself, a reference its character,
// a comment nothing. Numbers, values, words and a letter are read over these characters. Above it stand tags and elements.
#![tactic(auto)]

ghost use Rattle.std.specs.Prelude.{◌≡◌, true, ◌+◌, ◌*◌, ◌-◌, ◌≤◌, ◌<◌, length, []};
ghost use Rattle.markup.specs.rule.Bytes.{is_digit};
ghost use Rattle.scan.specs.Number.{push_of};
ghost use Rattle.spans.specs.rule.Heard.{noted_of, part_of, first_heard, heard};
ghost use Rattle.spans.specs.rule.Heard.{All};
ghost use Rattle.spans.specs.Figures.{figures_after, figures_of};
ghost use Rattle.spans.specs.rule.Says.{is_letter, is_value, of_class, heard_count, heard_word};

use markup::Skip;

// The first character of what is left, with the place after it; or nothing is left; or what stands there says nothing.
#[derive(Clone, Copy)]
pub enum First {
    One { code: u64, next: usize },
    End,
    Not,
}

// What stands at a place: a comment, and the place after it; or an answer.
#[derive(Clone, Copy)]
pub enum Part {
    Passed(usize),
    Stop(First),
}

fn comment_in(s: &[u8], at: usize) -> Part
    requires { at < length s.now }
    ensures { result ≡ noted_of s.now at }
{
    if markup::is_there(s, at, b"<!--") {
        match markup::comment(false, s, at, at + 4) {
            Skip::Past(n) => {
                return Part::Passed(n);
            }
            Skip::Broken(_) => {
                return Part::Stop(First::Not);
            }
        }
    }
    Part::Stop(First::Not)
}

fn part_in(s: &[u8], at: usize) -> Part
    ensures { result ≡ part_of s.now at }
{
    if s.len() <= at {
        return Part::Stop(First::End);
    }
    let b = s[at];
    if b == 38 {
        match markup::reference(s, at) {
            Some((code, next)) => {
                return Part::Stop(First::One { code, next });
            }
            None => {
                return Part::Stop(First::Not);
            }
        }
    }
    if b == 60 {
        return comment_in(s, at);
    }
    let code = b as u64;
    Part::Stop(First::One { code, next: at + 1 })
}

// The next character where a mark may stand first: behind comments, by a reference.
fn marked_char(s: &[u8], at: usize) -> First
    requires { at ≤ length s.now }
    ensures { result ≡ first_heard s.now at }
{
    let mut n = at;
    loop {
        match part_in(s, n) {
            Part::Passed(m) => {
                n = m;
            }
            Part::Stop(r) => {
                return r;
            }
        }
    }
}

// The next character, behind comments. Most say themselves: they are told here, without the loop.
pub fn next_char(s: &[u8], at: usize) -> First
    requires { at ≤ length s.now }
    ensures { result ≡ first_heard s.now at }
{
    if s.len() <= at {
        return First::End;
    }
    let b = s[at];
    if b == 38 {
        return marked_char(s, at);
    }
    if b == 60 {
        return marked_char(s, at);
    }
    let code = b as u64;
    First::One { code, next: at + 1 }
}

pub fn is_digit(c: u64) -> bool
    ensures { result ≡ is_digit c }
{
    (48 <= c) & (c <= 57)
}

// A number with one more digit.
pub fn push(v: u64, c: u64) -> u64
    requires v_bound { v ≤ 1000000000000000 }
    requires c_value { is_digit c ≡ true }
    ensures { (result ≡ push_of v c) × (result ≤ 1000000000000000) }
{
    let r = v * 10 + (c - 48);
    if 1_000_000_000_000_000 < r {
        1_000_000_000_000_000
    } else {
        r
    }
}

fn figures_end(size: u64, count: usize) -> Option<(u64, usize)>
    requires { size ≤ 1000000000000000 }
    ensures { result ≡ figures_after size count (All []) }
{
    if count == 0 {
        return None;
    }
    Some((size, count))
}

// The number that the digits of a whole stretch say, at most 10 ^ 15, and how many they are; none where there is another character, or
// none.
pub fn figures_in(s: &[u8]) -> Option<(u64, usize)>
    ensures { result ≡ figures_of (heard s.now 0) }
{
    let mut n: usize = 0;
    let mut size: u64 = 0;
    let mut count: usize = 0;
    loop {
        match next_char(s, n) {
            First::One { code, next } => {
                if !is_digit(code) {
                    return None;
                }
                size = push(size, code);
                count += 1;
                n = next;
            }
            First::End => {
                return figures_end(size, count);
            }
            First::Not => {
                return None;
            }
        }
    }
}

fn is_letter(c: u64) -> bool
    ensures { result ≡ is_letter c }
{
    ((97 <= c) & (c <= 122)) | ((65 <= c) & (c <= 90))
}

fn is_value(c: u64) -> bool
    ensures { result ≡ is_value c }
{
    is_digit(c) | ((c == 46) | ((c == 43) | (c == 45)))
}

// A character of one of the classes: 1 digits, 2 what values are written with, 3 letters.
fn of_class(class: usize, c: u64) -> bool
    ensures { result ≡ of_class class c }
{
    if class == 1 {
        return is_digit(c);
    }
    if class == 2 {
        return is_value(c);
    }
    is_letter(c)
}

// How many characters a stretch has that are all of a class; 0 where one is not.
pub fn count_in(class: usize, s: &[u8]) -> usize
    ensures { result ≡ heard_count class (heard s.now 0) }
{
    let mut n: usize = 0;
    let mut count: usize = 0;
    loop {
        match next_char(s, n) {
            First::One { code, next } => {
                if !of_class(class, code) {
                    return 0;
                }
                count += 1;
                n = next;
            }
            First::End => {
                return count;
            }
            First::Not => {
                return 0;
            }
        }
    }
}

// Whether a stretch says just a word.
pub fn is_word(s: &[u8], w: &[u8]) -> bool
    ensures { result ≡ heard_word w.now (heard s.now 0) }
{
    let mut n: usize = 0;
    for x in w {
        match next_char(s, n) {
            First::One { code, next } => {
                if *x as u64 != code {
                    return false;
                }
                n = next;
            }
            First::End => return false,
            First::Not => return false,
        }
    }
    match next_char(s, n) {
        First::One { code: _, next: _ } => false,
        First::End => true,
        First::Not => false,
    }
}
