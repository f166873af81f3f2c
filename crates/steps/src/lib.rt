// From a place of a definition that was read before, past the next thing of it: a gap, notes, a word, a number, a value, a string, each as
// the stretch of bytes that it is. Nothing is judged anew: where something else stands, the place stays. Above it stands the writer of
// clean
// definitions.
#![tactic(auto)]

ghost use Rattle.std.specs.Prelude.{◌≡◌, ◌-◌};
ghost use Rattle.ascii.specs.Class.{Classes};
ghost use Rattle.scan.specs.rule.Word.{word_at};
ghost use Rattle.steps.specs.Step.{place_in, gap_past, word_past, notes_past, statement_past, keyword_past, found_in};
ghost use Rattle.steps.specs.Step.{statement_found};
ghost use Rattle.steps.specs.Step.{number_in, number_span, phrase_in, string_span, value_span};

use scan::Word;
use tokens::{Figures, OrFault, Quoted};

// A stretch of the definition, the place where reading goes on behind it, and of a number what it says.
#[derive(Clone, Copy)]
pub struct Span {
    pub from: usize,
    pub end: usize,
    pub next: usize,
    pub size: u64,
}

// Whether a word stands here, and the place behind it, or here.
#[derive(Clone, Copy)]
pub struct Found {
    pub there: bool,
    pub next: usize,
}

fn place_in(n: usize, t: OrFault<usize>) -> usize
    ensures { result ≡ place_in n t }
{
    match t {
        Ok(m) => m,
        Err(_) => n,
    }
}

// ---- gaps
// Not by tokens::gap_on: with a caller more the compiler would no longer lay that into the readers of definitions.
pub fn past_gap(classes: &[u8; 256], d: &[u8], n: usize) -> usize
    requires { Classes classes.now }
    ensures { result ≡ gap_past d.now n }
{
    let m = tokens::pass_blanks(d, n);
    if m < d.len() {
        if d[m] != 60 {
            return m;
        }
    }
    let t = tokens::skip_gap(classes, d, n);
    place_in(n, t)
}

// ---- notes
pub fn past_notes(classes: &[u8; 256], d: &[u8], n: usize) -> usize
    requires { Classes classes.now }
    ensures { result ≡ notes_past d.now n }
{
    let t = statements::notes_on(classes, d, Ok(n));
    place_in(n, t)
}

fn found_in(n: usize, w: Word) -> Found
    ensures { result ≡ found_in n w }
{
    match w {
        Word::Matched(m) => Found {
            there: true,
            next: m,
        },
        Word::Not => Found {
            there: false,
            next: n,
        },
    }
}

// Whether a word stands right here.
pub fn find_here(classes: &[u8; 256], d: &[u8], n: usize, w: &[u8]) -> Found
    requires { Classes classes.now }
    ensures { result ≡ found_in n (word_at d.now n w.now) }
{
    let k = scan::keyword(classes, d, n, w);
    found_in(n, k)
}

// A word right here.
pub fn past_word(classes: &[u8; 256], d: &[u8], n: usize, w: &[u8]) -> usize
    requires { Classes classes.now }
    ensures { result ≡ word_past d.now n w.now }
{
    let f = find_here(classes, d, n, w);
    f.next
}

// A statement's word, behind notes.
pub fn past_statement(classes: &[u8; 256], d: &[u8], n: usize, w: &[u8]) -> usize
    requires { Classes classes.now }
    ensures { result ≡ statement_past d.now n w.now }
{
    let g = past_notes(classes, d, n);
    past_word(classes, d, g, w)
}

// A word behind a gap.
pub fn past_keyword(classes: &[u8; 256], d: &[u8], n: usize, w: &[u8]) -> usize
    requires { Classes classes.now }
    ensures { result ≡ keyword_past d.now n w.now }
{
    let g = past_gap(classes, d, n);
    past_word(classes, d, g, w)
}

// Whether a statement begins with this word, behind notes; where it does not, the notes are passed.
pub fn find_statement(classes: &[u8; 256], d: &[u8], n: usize, w: &[u8]) -> Found
    requires { Classes classes.now }
    ensures { result ≡ statement_found d.now n w.now }
{
    let g = past_notes(classes, d, n);
    find_here(classes, d, g, w)
}

fn number_in(n: OrFault<Figures>) -> Span
    ensures { result ≡ number_in n }
{
    match n {
        Ok(x) => Span {
            from: x.place,
            end: x.next,
            next: x.next,
            size: x.size,
        },
        Err(_) => Span {
            from: 0,
            end: 0,
            next: 0,
            size: 0,
        },
    }
}

// A number behind a gap.
pub fn number_span(classes: &[u8; 256], d: &[u8], n: usize) -> Span
    requires { Classes classes.now }
    ensures { result ≡ number_span d.now n }
{
    let x = tokens::number_on(classes, d, Ok(n));
    number_in(x)
}

fn quote_before(n: usize) -> usize
    ensures { result ≡ n - 1 }
{
    if n == 0 { 0 } else { n - 1 }
}

fn phrase_in(p: OrFault<Quoted>) -> Span
    ensures { result ≡ phrase_in p }
{
    match p {
        Ok(q) => {
            let end = quote_before(q.next);
            Span {
                from: q.place,
                end,
                next: q.next,
                size: 0,
            }
        }
        Err(_) => Span {
            from: 0,
            end: 0,
            next: 0,
            size: 0,
        },
    }
}

// A string behind a gap: the stretch between its quotes.
pub fn string_span(classes: &[u8; 256], d: &[u8], n: usize) -> Span
    requires { Classes classes.now }
    ensures { result ≡ string_span d.now n }
{
    let p = tokens::string_on(classes, d, Ok(n));
    phrase_in(p)
}

// A value right here.
pub fn value_span(classes: &[u8; 256], d: &[u8], n: usize) -> Span
    requires { Classes classes.now }
    ensures { result ≡ value_span d.now n }
{
    let end = scan::value_run(classes, d, n);
    Span {
        from: n,
        end,
        next: end,
        size: 0,
    }
}
