// The statements of a definition but for its values, each read whole and then judged: notes, the opening, texts, the type,
// POSITION, SPREAD, SIZE. Above it stand the values and the definition as a whole.
#![tactic(auto)]

ghost use Rattle.std.specs.Prelude.{◌≡◌, true, ◌<◌, length, get_or};
ghost use Rattle.ascii.specs.Class.{Classes};
ghost use Rattle.scan.specs.Number.{capped};
ghost use Rattle.tokens.specs.Token.{choice_of};
ghost use Rattle.statements.specs.rule.Words.{NOTE};
ghost use Rattle.statements.specs.Note.{notes_on, statement_on, text_on};
ghost use Rattle.statements.specs.Opening.{version_here, opening_of, record_on};
ghost use Rattle.statements.specs.Kinds.{type_here, type_on};
ghost use Rattle.statements.specs.Position.{true_of, below_of, Held, judge_position, both_of, position_on};
ghost use Rattle.statements.specs.Spread.{judge_of, judge_even, fields_of, even_of, spread_rest};
ghost use Rattle.statements.specs.Size.{judge_size, size_on};

use scan::Word;
use tokens::{Choice, Fault, Figures, OrFault};

fn note_word(classes: &[u8; 256], d: &[u8], t: OrFault<usize>) -> Choice
    requires { Classes classes.now }
    ensures { result ≡ choice_of d.now t NOTE }
{
    tokens::perhaps(classes, d, t, b"NOTE")
}

// The same as notes_on, where there may be notes. Statements that a definition has once are read by it too: with one caller alone the
// compiler would lay it into notes_on, which would be too large then to be laid into the readers of a variable's statements.
fn notes_apart(classes: &[u8; 256], d: &[u8], t: OrFault<usize>) -> OrFault<usize>
    requires { Classes classes.now }
    ensures { result ≡ notes_on d.now t }
{
    let mut g = tokens::gap_on(classes, d, t);
    loop {
        match note_word(classes, d, g) {
            Choice::Taken(m) => {
                let s = tokens::string_apart(classes, d, m);
                let p = tokens::past_string(s);
                g = tokens::gap_on(classes, d, p);
            }
            Choice::Left => {
                return g;
            }
        }
    }
}

// Whether a letter stands just here, or another byte above the digits, and no O.
fn no_oh(d: &[u8], m: usize) -> bool
    ensures { result ≡ true → (m < length d.now) × (64 < get_or d.now m 0)
        × (get_or d.now m 0 ≡ 79 → ⊥) × (get_or d.now m 0 ≡ 111 → ⊥) }
{
    if d.len() <= m {
        return false;
    }
    let b = d[m];
    if b == 79 {
        return false;
    }
    if b == 111 {
        return false;
    }
    64 < b
}

// Whether it is clear at a look that no note stands here, behind blanks.
fn no_note(d: &[u8], m: usize) -> bool
    requires { m < length d.now → 32 < get_or d.now m 0 }
    ensures { result ≡ true → notes_on d.now (Ok m) ≡ Ok m }
{
    if d.len() <= m {
        return false;
    }
    let b = d[m];
    if (b == 78) | (b == 110) {
        return no_oh(d, m + 1);
    }
    b != 60
}

// NOTE and a string, as often as they stand between two statements, with the gaps around them.
pub fn notes_on(classes: &[u8; 256], d: &[u8], t: OrFault<usize>) -> OrFault<usize>
    requires { Classes classes.now }
    ensures { result ≡ notes_on d.now t }
{
    let n = t?;
    let m = tokens::pass_blanks(d, n);
    if no_note(d, m) {
        return Ok(m);
    }
    notes_apart(classes, d, Ok(m))
}

// The first word of a statement, behind the notes before it. The readers of statements that a variable has call the two functions
// themselves: so the compiler knows the word that it compares.
pub fn statement_on(classes: &[u8; 256], d: &[u8], t: OrFault<usize>, w: &[u8]) -> OrFault<usize>
    requires { Classes classes.now }
    ensures { result ≡ statement_on d.now t w.now }
{
    let n = notes_apart(classes, d, t);
    tokens::word_here(classes, d, n, w)
}

// The version: the longest run of value bytes, which is to be 1.1 as text.
fn version_at(classes: &[u8; 256], d: &[u8], n: usize) -> OrFault<usize>
    requires { Classes classes.now }
    ensures { result ≡ version_here d.now n }
{
    let end = scan::value_run(classes, d, n);
    if end == n {
        return Err(Fault {
            number: 2,
            place: n,
        });
    }
    match scan::keyword(classes, d, n, b"1.1") {
        Word::Matched(m) => {
            if m == end {
                return Ok(end);
            }
            Err(Fault {
                number: 4,
                place: n,
            })
        }
        Word::Not => Err(Fault {
            number: 4,
            place: n,
        }),
    }
}

// SSS, with nothing before it, and VERSION 1.1.
pub fn read_opening(classes: &[u8; 256], d: &[u8]) -> OrFault<usize>
    requires { Classes classes.now }
    ensures { result ≡ opening_of d.now }
{
    let start = scan::place_at(classes, d, 0);
    let a = tokens::word_here(classes, d, Ok(start), b"SSS");
    let b = tokens::spaces_on(classes, d, a);
    let e = tokens::word_here(classes, d, b, b"VERSION");
    let n = tokens::spaces_on(classes, d, e)?;
    version_at(classes, d, n)
}

// RECORD and one letter.
pub fn record_on(classes: &[u8; 256], d: &[u8], t: OrFault<usize>) -> OrFault<usize>
    requires { Classes classes.now }
    ensures { result ≡ record_on d.now t }
{
    let a = statement_on(classes, d, t, b"RECORD");
    tokens::letter_on(classes, d, a)
}

// The type, 1 SINGLE, 2 MULTIPLE, 3 QUANTITY, 4 CHARACTER, 5 LOGICAL, and the place after its word.
#[derive(Clone, Copy)]
pub enum Typed {
    Is { kind: usize, next: usize },
    Not(Fault),
}

fn type_here(classes: &[u8; 256], d: &[u8], t: OrFault<usize>) -> Typed
    requires { Classes classes.now }
    ensures { result ≡ type_here d.now t }
{
    if let Choice::Taken(next) = tokens::perhaps(classes, d, t, b"SINGLE") {
        return Typed::Is { kind: 1, next };
    }
    if let Choice::Taken(next) = tokens::perhaps(classes, d, t, b"MULTIPLE") {
        return Typed::Is { kind: 2, next };
    }
    if let Choice::Taken(next) = tokens::perhaps(classes, d, t, b"QUANTITY") {
        return Typed::Is { kind: 3, next };
    }
    if let Choice::Taken(next) = tokens::perhaps(classes, d, t, b"CHARACTER") {
        return Typed::Is { kind: 4, next };
    }
    match tokens::word_here(classes, d, t, b"LOGICAL") {
        Ok(next) => Typed::Is { kind: 5, next },
        Err(f) => Typed::Not(f),
    }
}

pub fn type_on(classes: &[u8; 256], d: &[u8], t: OrFault<usize>) -> Typed
    requires { Classes classes.now }
    ensures { result ≡ type_on d.now t }
{
    let s = notes_on(classes, d, t);
    let a = tokens::word_here(classes, d, s, b"TYPE");
    let g = tokens::gap_on(classes, d, a);
    type_here(classes, d, g)
}

// POSITION a [TO b]: the first and the last location, the first number's place, and the place after the statement.
#[derive(Clone, Copy)]
pub struct Position {
    pub start: u64,
    pub finish: u64,
    pub place: usize,
    pub next: usize,
}

// What is wrong with two locations, of which the second says less than the first where `below`: 7 comes before 8, and an earlier place
// before a later.
pub fn judge_position(below: bool, a: Figures, b: Figures, next: usize) -> OrFault<Position>
    ensures { result ≡ judge_position below a b next }
{
    if a.size == 0 {
        return Err(Fault {
            number: 7,
            place: a.place,
        });
    }
    if below {
        return Err(Fault {
            number: 7,
            place: b.place,
        });
    }
    if 16384 < a.size {
        return Err(Fault {
            number: 8,
            place: a.place,
        });
    }
    if 16384 < b.size {
        return Err(Fault {
            number: 8,
            place: b.place,
        });
    }
    Ok(Position {
        start: a.size,
        finish: b.size,
        place: a.place,
        next,
    })
}

// Whether a number says less than another: two that are not held at CAP tell by what they say.
fn says_less(classes: &[u8; 256], d: &[u8], y: Figures, x: Figures) -> bool
    requires classes { Classes classes.now }
    requires size_value { (y.size ≡ capped (true_of d.now y)) × (x.size ≡ capped (true_of d.now x)) }
    ensures { result ≡ below_of d.now y x }
{
    if y.size != x.size {
        return y.size < x.size;
    }
    if x.size < scan::CAP {
        return false;
    }
    scan::less(classes, d, y.place, y.next, x.place, x.next)
}

// The first 2 or 3 met in a POSITION, and then what is wrong with its numbers.
fn both(
    classes: &[u8; 256],
    d: &[u8],
    a: OrFault<Figures>,
    b: OrFault<Figures>,
    end: OrFault<usize>,
) -> OrFault<Position>
    requires classes { Classes classes.now }
    requires held { Held d.now a × Held d.now b }
    ensures { result ≡ both_of d.now a b end }
{
    let x = a?;
    let y = b?;
    let next = end?;
    let below = says_less(classes, d, y, x);
    judge_position(below, x, y, next)
}

pub fn position_on(classes: &[u8; 256], d: &[u8], t: OrFault<usize>) -> OrFault<Position>
    requires { Classes classes.now }
    ensures { result ≡ position_on d.now t }
{
    let s = notes_on(classes, d, t);
    let w = tokens::word_here(classes, d, s, b"POSITION");
    let a = tokens::number_on(classes, d, w);
    let p = tokens::past_number(a);
    let g = tokens::gap_on(classes, d, p);
    match tokens::perhaps(classes, d, g, b"TO") {
        Choice::Taken(m) => {
            let b = tokens::number_on(classes, d, Ok(m));
            let e = tokens::past_number(b);
            both(classes, d, a, b, e)
        }
        Choice::Left => both(classes, d, a, a, g),
    }
}

// SPREAD n [OF w]: how many subfields, of how many bytes each, and the place after the statement.
#[derive(Clone, Copy)]
pub struct Subfields {
    pub count: u64,
    pub width: u64,
    pub next: usize,
}

// With OF.
pub fn judge_fields(n: Figures, w: Figures, next: usize) -> OrFault<Subfields>
    ensures { result ≡ judge_of n w next }
{
    if n.size == 0 {
        return Err(Fault {
            number: 7,
            place: n.place,
        });
    }
    if w.size == 0 {
        return Err(Fault {
            number: 7,
            place: w.place,
        });
    }
    Ok(Subfields {
        count: n.size,
        width: w.size,
        next,
    })
}

// Without OF n must divide the position's width exactly.
pub fn judge_even(n: Figures, width: u64, next: usize) -> OrFault<Subfields>
    ensures { result ≡ judge_even n width next }
{
    let count = n.size;
    if count == 0 {
        return Err(Fault {
            number: 7,
            place: n.place,
        });
    }
    if width % count != 0 {
        return Err(Fault {
            number: 7,
            place: n.place,
        });
    }
    Ok(Subfields {
        count,
        width: width / count,
        next,
    })
}

fn fields(a: OrFault<Figures>, b: OrFault<Figures>) -> OrFault<Subfields>
    ensures { result ≡ fields_of a b }
{
    let x = a?;
    let y = b?;
    judge_fields(x, y, y.next)
}

fn even(a: OrFault<Figures>, width: u64, end: OrFault<usize>) -> OrFault<Subfields>
    ensures { result ≡ even_of a width end }
{
    let x = a?;
    let next = end?;
    judge_even(x, width, next)
}

// What stands behind the word SPREAD, for a position of so many bytes.
pub fn spread_rest(
    classes: &[u8; 256],
    d: &[u8],
    t: OrFault<usize>,
    width: u64,
) -> OrFault<Subfields>
    requires { Classes classes.now }
    ensures { result ≡ spread_rest d.now t width }
{
    let a = tokens::number_on(classes, d, t);
    let p = tokens::past_number(a);
    let g = tokens::gap_on(classes, d, p);
    match tokens::perhaps(classes, d, g, b"OF") {
        Choice::Taken(m) => {
            let b = tokens::number_on(classes, d, Ok(m));
            fields(a, b)
        }
        Choice::Left => even(a, width, g),
    }
}

pub fn judge_size(n: OrFault<Figures>) -> OrFault<Figures>
    ensures { result ≡ judge_size n }
{
    let x = n?;
    if x.size == 0 {
        return Err(Fault {
            number: 7,
            place: x.place,
        });
    }
    if 4096 < x.size {
        return Err(Fault {
            number: 8,
            place: x.place,
        });
    }
    Ok(x)
}

pub fn size_on(classes: &[u8; 256], d: &[u8], t: OrFault<usize>) -> OrFault<Figures>
    requires { Classes classes.now }
    ensures { result ≡ size_on d.now t }
{
    let s = notes_on(classes, d, t);
    let w = tokens::word_here(classes, d, s, b"SIZE");
    let n = tokens::number_on(classes, d, w);
    judge_size(n)
}
