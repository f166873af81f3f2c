// What stands between VERSION and SURVEY: DATE, TIME, ORIGIN, USER and STANDARD NAMES, in any order and each at most once. Above it
// stands the definition as a whole.
#![tactic(auto)]

ghost use Rattle.std.specs.Prelude.{◌≡◌};
ghost use Rattle.ascii.specs.Class.{Classes};
ghost use Rattle.heading.specs.Heading.{entry_of, again, text_at, with_text, once_of, kept_of, text_entry, name_entry, no_heading};
ghost use Rattle.heading.specs.Heading.{entries_on, front_of, front_on};

use tokens::{Choice, Fault, OrFault, Quoted};

// The texts of the heading, each 0 where it was not given, and whether STANDARD NAMES was.
#[derive(Clone, Copy)]
pub struct Heading {
    pub date: Quoted,
    pub time: Quoted,
    pub origin: Quoted,
    pub user: Quoted,
    pub standard: bool,
}

// The statement that begins here: the text with a number, 0 DATE, 1 TIME, 2 ORIGIN, 3 USER; STANDARD; or another.
#[derive(Clone, Copy)]
pub enum Entry {
    Text { which: usize, next: usize },
    Standard(usize),
    Other,
}

fn entry_here(classes: &[u8; 256], d: &[u8], t: OrFault<usize>) -> Entry
    requires { Classes classes.now }
    ensures { result ≡ entry_of d.now t }
{
    if let Choice::Taken(next) = tokens::perhaps(classes, d, t, b"DATE") {
        return Entry::Text { which: 0, next };
    }
    if let Choice::Taken(next) = tokens::perhaps(classes, d, t, b"TIME") {
        return Entry::Text { which: 1, next };
    }
    if let Choice::Taken(next) = tokens::perhaps(classes, d, t, b"ORIGIN") {
        return Entry::Text { which: 2, next };
    }
    if let Choice::Taken(next) = tokens::perhaps(classes, d, t, b"USER") {
        return Entry::Text { which: 3, next };
    }
    match tokens::perhaps(classes, d, t, b"STANDARD") {
        Choice::Taken(m) => Entry::Standard(m),
        Choice::Left => Entry::Other,
    }
}

// A word that was met before: 2 at the word.
fn met_again(t: OrFault<usize>) -> OrFault<usize>
    ensures { result ≡ again t }
{
    match t {
        Ok(n) => Err(Fault {
            number: 2,
            place: n,
        }),
        Err(f) => Err(f),
    }
}

fn text_at(h: Heading, which: usize) -> Quoted
    ensures { result ≡ text_at h which }
{
    if which == 0 {
        return h.date;
    }
    if which == 1 {
        return h.time;
    }
    if which == 2 {
        return h.origin;
    }
    h.user
}

fn with_text(h: Heading, which: usize, q: Quoted) -> Heading
    ensures { result ≡ with_text h which q }
{
    let mut g = h;
    if which == 0 {
        g.date = q;
        return g;
    }
    if which == 1 {
        g.time = q;
        return g;
    }
    if which == 2 {
        g.origin = q;
        return g;
    }
    g.user = q;
    g
}

// The string of a text that was not given before.
fn read_once(
    classes: &[u8; 256],
    d: &[u8],
    q: Quoted,
    t: OrFault<usize>,
    m: usize,
) -> OrFault<Quoted>
    requires { Classes classes.now }
    ensures { result ≡ once_of d.now q t m }
{
    if q.next == 0 {
        return tokens::string_on(classes, d, Ok(m));
    }
    let a = met_again(t);
    tokens::string_on(classes, d, a)
}

fn kept_text(q: Quoted, p: OrFault<Quoted>) -> Quoted
    ensures { result ≡ kept_of q p }
{
    match p {
        Ok(x) => x,
        Err(_) => q,
    }
}

// The heading so far, and where reading stands, behind the notes before the next statement.
#[derive(Clone, Copy)]
pub struct Entered {
    pub heading: Heading,
    pub next: OrFault<usize>,
}

fn enter_text(
    classes: &[u8; 256],
    d: &[u8],
    h: Heading,
    t: OrFault<usize>,
    which: usize,
    m: usize,
) -> Entered
    requires { Classes classes.now }
    ensures { result ≡ text_entry d.now h t which m }
{
    let q = text_at(h, which);
    let p = read_once(classes, d, q, t, m);
    let x = kept_text(q, p);
    let heading = with_text(h, which, x);
    let a = tokens::past_string(p);
    let next = statements::notes_on(classes, d, a);
    Entered { heading, next }
}

fn enter_names(classes: &[u8; 256], d: &[u8], h: Heading, t: OrFault<usize>, m: usize) -> Entered
    requires { Classes classes.now }
    ensures { result ≡ name_entry d.now h t m }
{
    let date = h.date;
    let time = h.time;
    let origin = h.origin;
    let user = h.user;
    let heading = Heading {
        date,
        time,
        origin,
        user,
        standard: true,
    };
    if h.standard {
        let next = met_again(t);
        return Entered { heading, next };
    }
    let a = tokens::word_on(classes, d, Ok(m), b"NAMES");
    let next = statements::notes_on(classes, d, a);
    Entered { heading, next }
}

fn no_heading() -> Heading
    ensures { result ≡ no_heading }
{
    let q = Quoted {
        place: 0,
        length: 0,
        next: 0,
    };
    Heading {
        date: q,
        time: q,
        origin: q,
        user: q,
        standard: false,
    }
}

// All of them, up to a statement that is none.
pub fn entries_on(classes: &[u8; 256], d: &[u8], t: OrFault<usize>) -> Entered
    requires { Classes classes.now }
    ensures { result ≡ entries_on d.now t }
{
    let mut h = no_heading();
    let mut g = statements::notes_on(classes, d, t);
    loop {
        match entry_here(classes, d, g) {
            Entry::Text { which, next } => {
                let e = enter_text(classes, d, h, g, which, next);
                h = e.heading;
                g = e.next;
            }
            Entry::Standard(m) => {
                let e = enter_names(classes, d, h, g, m);
                h = e.heading;
                g = e.next;
            }
            Entry::Other => {
                return Entered {
                    heading: h,
                    next: g,
                };
            }
        }
    }
}

// All that stands before the first variable: the heading, the title, 0 where there is none, and where reading stands behind RECORD
// and its letter.
#[derive(Clone, Copy)]
pub struct Front {
    pub heading: Heading,
    pub title: Quoted,
    pub next: OrFault<usize>,
}

// SURVEY, an optional TITLE, and RECORD with its letter, behind the heading.
fn front_rest(classes: &[u8; 256], d: &[u8], h: Heading, t: OrFault<usize>) -> Front
    requires { Classes classes.now }
    ensures { result ≡ front_of d.now h t }
{
    let s = tokens::word_here(classes, d, t, b"SURVEY");
    let n = statements::notes_on(classes, d, s);
    let none = Quoted {
        place: 0,
        length: 0,
        next: 0,
    };
    match tokens::perhaps(classes, d, n, b"TITLE") {
        Choice::Taken(m) => {
            let q = tokens::string_on(classes, d, Ok(m));
            let title = kept_text(none, q);
            let p = tokens::past_string(q);
            let next = statements::record_on(classes, d, p);
            Front {
                heading: h,
                title,
                next,
            }
        }
        Choice::Left => {
            let next = statements::record_on(classes, d, n);
            Front {
                heading: h,
                title: none,
                next,
            }
        }
    }
}

pub fn read_front(classes: &[u8; 256], d: &[u8]) -> Front
    requires { Classes classes.now }
    ensures { result ≡ front_on d.now }
{
    let o = statements::read_opening(classes, d);
    let e = entries_on(classes, d, o);
    let h = e.heading;
    let t = e.next;
    front_rest(classes, d, h, t)
}
