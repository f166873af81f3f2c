// What stands before and behind the root of an XML file: the byte order mark, the declaration, the DOCTYPE, and what may follow. Which
// file is XML. The declaration is read by its bytes, since it says what the characters are; all behind it up to the first bad character.
#![tactic(auto)]

ghost use Rattle.std.specs.Prelude.{◌≡◌, Bool, true, false, [], ◌∷◌, ◌+◌, ◌-◌, ◌≤◌, ◌<◌, length, drop};
ghost use Rattle.markup.specs.rule.Bytes.{run_of, stands};
ghost use Rattle.prologs.specs.rule.Form.{pair, close, standalone, naming_form, encoded, declaration};
ghost use Rattle.prologs.specs.rule.Form.{ending, located, public, external, behind, doctype};
ghost use Rattle.prologs.specs.rule.Form.{one_nought, yes, no, DOCTYPE, XML};
ghost use Rattle.prologs.specs.rule.Told.{start_behind_mark, is_xml, is_public, between_quotes, cut_of, closed_string, quoted_string};
ghost use Rattle.prologs.specs.rule.Told.{spelt_of, alikes, alike_of};
ghost use Rattle.prologs.specs.rule.Told.{due_of, miss_of, root_missed, tell_of, declaration_of, gap_to, gap_on, head_of, end_of_file};
ghost use Rattle.prologs.specs.rule.Told.{tail_from};
ghost use Rattle.prologs.specs.Pair.{pair_of, latin_of};

use markup::Skip;

// What was read: whether the characters are those of ISO-8859-1, else UTF-8, and the place after it; or the refusal.
#[derive(Clone, Copy)]
pub enum Prolog {
    Read { latin: bool, next: usize },
    Fault { number: usize, place: usize },
}

// The place behind a byte order mark.
fn start(d: &[u8]) -> usize
    ensures { (result ≡ start_behind_mark d.now) × (result ≤ length d.now) }
{
    if markup::is_there(d, 0, b"\xEF\xBB\xBF") {
        return 3;
    }
    0
}

// Whether a file is XML; every other is a definition of version 1.1.
pub fn is_xml(d: &[u8]) -> bool
    ensures { result ≡ is_xml d.now }
{
    let at = start(d);
    if markup::is_there(d, at, b"<?xml") {
        return true;
    }
    markup::is_there(d, at, b"<sss")
}

// Where a token is at fault that is due at n.
fn due(bad: bool, d: &[u8], opened: usize, n: usize) -> usize
    ensures { result ≡ due_of bad d.now opened n }
{
    if d.len() <= n {
        return markup::end_fault(bad, n, opened);
    }
    n
}

fn miss(bad: bool, d: &[u8], opened: usize, n: usize) -> Prolog
    ensures { result ≡ miss_of bad d.now opened n }
{
    Prolog::Fault {
        number: 50,
        place: due(bad, d, opened, n),
    }
}

// A character of XML's public identifiers.
fn is_public(b: u8) -> bool
    ensures { result ≡ is_public b }
{
    let letters = ((97 <= b) & (b <= 122)) | (((63 <= b) & (b <= 90)) | (b == 95));
    let marks = ((39 <= b) & (b <= 59)) | (((35 <= b) & (b <= 37)) | ((b == 33) | (b == 61)));
    letters | (marks | ((b == 32) | ((b == 10) | (b == 13))))
}

fn is_inside(public: bool, quote: u8, b: u8) -> bool
    ensures { result ≡ between_quotes public quote b }
{
    if b == quote {
        return false;
    }
    if public {
        return is_public(b);
    }
    true
}

// The bytes that may stand between quotes, from a place on: the place after them.
fn run_inside(public: bool, quote: u8, d: &[u8], at: usize) -> usize
    requires { at ≤ length d.now }
    ensures { (result ≡ run_of (between_quotes public quote) at (drop at d.now)) × (result ≤ length d.now) }
{
    for i in at..d.len() {
        if !is_inside(public, quote, d[i]) {
            return i;
        }
    }
    d.len()
}

// Where a string that opens at n and breaks off at the text's end is at fault.
fn cut_at(alone: bool, bad: bool, d: &[u8], opened: usize, n: usize, k: usize) -> usize
    requires { n < length d.now }
    ensures { result ≡ cut_of alone bad d.now opened n k }
{
    if alone {
        return due(bad, d, opened, n + 1);
    }
    markup::end_fault(bad, k, opened)
}

fn find_close(d: &[u8], cut: usize, quote: u8, k: usize) -> Skip
    ensures { result ≡ closed_string d.now cut quote k }
{
    if d.len() <= k {
        return Skip::Broken(cut);
    }
    if d[k] == quote {
        return Skip::Past(k);
    }
    Skip::Broken(k)
}

// A string whose quote is due at n: the place of the quote that ends it. One of the declaration's values, or an identifier.
fn quoted(alone: bool, public: bool, bad: bool, d: &[u8], opened: usize, n: usize) -> Skip
    ensures { result ≡ quoted_string alone public bad d.now opened n }
{
    if d.len() <= n {
        return Skip::Broken(markup::end_fault(bad, n, opened));
    }
    let q = d[n];
    if (q == 34) | (q == 39) {
        let k = run_inside(public, q, d, n + 1);
        let cut = cut_at(alone, bad, d, opened, n, k);
        return find_close(d, cut, q, k);
    }
    Skip::Broken(n)
}

// Whether the bytes from v to e are just w.
fn is_spelt(d: &[u8], v: usize, e: usize, w: &[u8]) -> bool
    requires { (v ≤ e) × (e ≤ length d.now) }
    ensures { result ≡ spelt_of d.now v e w.now }
{
    if e - v == w.len() {
        return markup::is_there(d, v, w);
    }
    false
}

// Whether w, in capitals, stands at a place, letter case aside.
fn is_alike(d: &[u8], at: usize, w: &[u8]) -> bool
    requires { at ≤ length d.now }
    ensures { result ≡ alikes w.now (drop at d.now) }
{
    for (i, b) in w.iter().enumerate() {
        if d.len() - at <= i {
            return false;
        }
        if ascii::upper(d[at + i]) != *b {
            return false;
        }
    }
    true
}

fn is_encoding(d: &[u8], v: usize, e: usize, w: &[u8]) -> bool
    requires { (v ≤ e) × (e ≤ length d.now) }
    ensures { result ≡ alike_of d.now v e w.now }
{
    if e - v == w.len() {
        return is_alike(d, v, w);
    }
    false
}

// = and a value behind a word of the declaration: its stretch; or the place that is faulted with 50.
#[derive(Clone, Copy)]
pub enum Pair {
    Is { value: usize, end: usize },
    Off(usize),
}

fn read_pair(d: &[u8], opened: usize, at: usize) -> Pair
    requires { at ≤ length d.now }
    ensures { result ≡ pair_of d.now opened at }
{
    let n = markup::run(0, d, at);
    if d.len() <= n {
        return Pair::Off(opened);
    }
    if d[n] == 61 {
        let m = markup::run(0, d, n + 1);
        match quoted(true, false, false, d, opened, m) {
            Skip::Past(k) => {
                return Pair::Is {
                    value: m + 1,
                    end: k,
                };
            }
            Skip::Broken(p) => {
                return Pair::Off(p);
            }
        }
    }
    Pair::Off(n)
}

// The end of the declaration.
fn close_at(d: &[u8], opened: usize, latin: bool, at: usize) -> Prolog
    requires { at ≤ length d.now }
    ensures { result ≡ tell_of false d.now opened close latin at }
{
    let n = markup::run(0, d, at);
    if markup::is_there(d, n, b"?>") {
        return Prolog::Read { latin, next: n + 2 };
    }
    miss(false, d, opened, n)
}

fn yes_or_no(d: &[u8], opened: usize, latin: bool, at: usize) -> Prolog
    requires { at ≤ length d.now }
    ensures { result ≡ tell_of false d.now opened (pair (yes ∷ no ∷ []) close) latin at }
{
    match read_pair(d, opened, at) {
        Pair::Is { value, end } => {
            if is_spelt(d, value, end, b"yes") {
                return close_at(d, opened, latin, end + 1);
            }
            if is_spelt(d, value, end, b"no") {
                return close_at(d, opened, latin, end + 1);
            }
            Prolog::Fault {
                number: 50,
                place: value,
            }
        }
        Pair::Off(p) => Prolog::Fault {
            number: 50,
            place: p,
        },
    }
}

fn standalone_at(d: &[u8], opened: usize, latin: bool, at: usize) -> Prolog
    requires { at ≤ length d.now }
    ensures { result ≡ tell_of false d.now opened standalone latin at }
{
    let n = markup::run(0, d, at);
    if n == at {
        return close_at(d, opened, latin, at);
    }
    if markup::is_there(d, n, b"standalone") {
        return yes_or_no(d, opened, latin, n + 10);
    }
    close_at(d, opened, latin, at)
}

// The other encoding's name.
fn latin_named(d: &[u8], opened: usize, value: usize, end: usize) -> Prolog
    requires { (value ≤ end) × (end < length d.now) }
    ensures { result ≡ latin_of d.now opened value end }
{
    if is_encoding(d, value, end, b"ISO-8859-1") {
        return standalone_at(d, opened, true, end + 1);
    }
    Prolog::Fault {
        number: 50,
        place: value,
    }
}

// The encoding's name; behind a byte order mark it is UTF-8.
fn encoding_named(marked: bool, d: &[u8], opened: usize, at: usize) -> Prolog
    requires { at ≤ length d.now }
    ensures { result ≡ tell_of false d.now opened (naming_form marked) false at }
{
    match read_pair(d, opened, at) {
        Pair::Is { value, end } => {
            if is_encoding(d, value, end, b"UTF-8") {
                return standalone_at(d, opened, false, end + 1);
            }
            if marked {
                return Prolog::Fault {
                    number: 50,
                    place: value,
                };
            }
            latin_named(d, opened, value, end)
        }
        Pair::Off(p) => Prolog::Fault {
            number: 50,
            place: p,
        },
    }
}

fn encoding_at(marked: bool, d: &[u8], opened: usize, at: usize) -> Prolog
    requires { at ≤ length d.now }
    ensures { result ≡ tell_of false d.now opened (encoded marked) false at }
{
    let n = markup::run(0, d, at);
    if n == at {
        return standalone_at(d, opened, false, at);
    }
    if markup::is_there(d, n, b"encoding") {
        return encoding_named(marked, d, opened, n + 8);
    }
    standalone_at(d, opened, false, at)
}

fn version_named(marked: bool, d: &[u8], opened: usize, at: usize) -> Prolog
    requires { at ≤ length d.now }
    ensures { result ≡ tell_of false d.now opened (pair (one_nought ∷ []) (encoded marked)) false at }
{
    match read_pair(d, opened, at) {
        Pair::Is { value, end } => {
            if is_spelt(d, value, end, b"1.0") {
                return encoding_at(marked, d, opened, end + 1);
            }
            Prolog::Fault {
                number: 50,
                place: value,
            }
        }
        Pair::Off(p) => Prolog::Fault {
            number: 50,
            place: p,
        },
    }
}

// The declaration whose <?xml stands at a place.
fn declaration_at(marked: bool, d: &[u8], opened: usize) -> Prolog
    requires { stands XML (drop opened d.now) ≡ true }
    ensures { result ≡ tell_of false d.now opened (declaration marked) false opened }
{
    let at = opened + 5;
    let n = markup::run(0, d, at);
    if n == at {
        return miss(false, d, opened, at);
    }
    if markup::is_there(d, n, b"version") {
        return version_named(marked, d, opened, n + 7);
    }
    miss(false, d, opened, n)
}

// The byte order mark and the declaration, where they stand.
pub fn read_declaration(d: &[u8]) -> Prolog
    ensures { result ≡ declaration_of d.now }
{
    let at = start(d);
    if markup::is_there(d, at, b"<?xml") {
        return declaration_at(0 < at, d, at);
    }
    Prolog::Read {
        latin: false,
        next: at,
    }
}

// The end of the DOCTYPE. [ would open an internal subset.
fn ending_at(bad: bool, latin: bool, d: &[u8], opened: usize, at: usize) -> Prolog
    requires { at ≤ length d.now }
    ensures { result ≡ tell_of bad d.now opened ending latin at }
{
    let n = markup::run(0, d, at);
    if markup::is_there(d, n, b"[") {
        return Prolog::Fault {
            number: 51,
            place: n,
        };
    }
    if markup::is_there(d, n, b">") {
        return Prolog::Read { latin, next: n + 1 };
    }
    miss(bad, d, opened, n)
}

// The system identifier.
fn located_at(bad: bool, latin: bool, d: &[u8], opened: usize, at: usize) -> Prolog
    requires { at ≤ length d.now }
    ensures { result ≡ tell_of bad d.now opened located latin at }
{
    let n = markup::run(0, d, at);
    if n == at {
        return miss(bad, d, opened, at);
    }
    match quoted(false, false, bad, d, opened, n) {
        Skip::Past(k) => ending_at(bad, latin, d, opened, k + 1),
        Skip::Broken(p) => Prolog::Fault {
            number: 50,
            place: p,
        },
    }
}

// The public identifier.
fn public_at(bad: bool, latin: bool, d: &[u8], opened: usize, at: usize) -> Prolog
    requires { at ≤ length d.now }
    ensures { result ≡ tell_of bad d.now opened public latin at }
{
    let n = markup::run(0, d, at);
    if n == at {
        return miss(bad, d, opened, at);
    }
    match quoted(false, true, bad, d, opened, n) {
        Skip::Past(k) => located_at(bad, latin, d, opened, k + 1),
        Skip::Broken(p) => Prolog::Fault {
            number: 50,
            place: p,
        },
    }
}

fn external_at(bad: bool, latin: bool, d: &[u8], opened: usize, at: usize) -> Prolog
    requires { at ≤ length d.now }
    ensures { result ≡ tell_of bad d.now opened external latin at }
{
    if markup::is_there(d, at, b"PUBLIC") {
        return public_at(bad, latin, d, opened, at + 6);
    }
    if markup::is_there(d, at, b"SYSTEM") {
        return located_at(bad, latin, d, opened, at + 6);
    }
    miss(bad, d, opened, at)
}

// What stands behind the root's name.
fn behind_at(bad: bool, latin: bool, d: &[u8], opened: usize, at: usize) -> Prolog
    requires { at ≤ length d.now }
    ensures { result ≡ tell_of bad d.now opened behind latin at }
{
    if markup::is_there(d, at, b"[") {
        return Prolog::Fault {
            number: 51,
            place: at,
        };
    }
    let n = markup::run(0, d, at);
    if n == at {
        return miss(bad, d, opened, at);
    }
    if markup::is_there(d, n, b"[") {
        return Prolog::Fault {
            number: 51,
            place: n,
        };
    }
    external_at(bad, latin, d, opened, n)
}

// What is told where the root's name is due and does not stand whole: it may be cut by the text's end, or be another name.
fn root_missed(bad: bool, d: &[u8], opened: usize, at: usize) -> Prolog
    requires { at ≤ length d.now }
    ensures { result ≡ root_missed bad d.now opened at }
{
    if d.len() <= at {
        return Prolog::Fault {
            number: 50,
            place: markup::end_fault(bad, at, opened),
        };
    }
    if markup::is_there(b"sss", 0, &d[at..]) {
        return Prolog::Fault {
            number: 50,
            place: markup::end_fault(bad, d.len(), at),
        };
    }
    if markup::starts_name(d[at]) {
        return Prolog::Fault {
            number: 2,
            place: at,
        };
    }
    Prolog::Fault {
        number: 50,
        place: at,
    }
}

// The DOCTYPE whose <!DOCTYPE stands at a place.
fn doctype_at(bad: bool, latin: bool, d: &[u8], opened: usize) -> Prolog
    requires { stands DOCTYPE (drop opened d.now) ≡ true }
    ensures { result ≡ tell_of bad d.now opened doctype latin opened }
{
    let at = opened + 9;
    let n = markup::run(0, d, at);
    if n == at {
        return miss(bad, d, opened, at);
    }
    if markup::is_there(d, n, b"sss") {
        return behind_at(bad, latin, d, opened, n + 3);
    }
    root_missed(bad, d, opened, n)
}

fn gap_to(bad: bool, latin: bool, d: &[u8], at: usize) -> Prolog
    requires { at ≤ length d.now }
    ensures { result ≡ gap_to bad latin d.now at }
{
    match markup::gap(bad, d, at) {
        Skip::Past(n) => Prolog::Read { latin, next: n },
        Skip::Broken(p) => Prolog::Fault {
            number: 50,
            place: p,
        },
    }
}

fn doctype_gap(bad: bool, latin: bool, d: &[u8], opened: usize) -> Prolog
    requires { stands DOCTYPE (drop opened d.now) ≡ true }
    ensures { result ≡ gap_on bad d.now (tell_of bad d.now opened doctype latin opened) }
{
    match doctype_at(bad, latin, d, opened) {
        Prolog::Read { latin: l, next } => gap_to(bad, l, d, next),
        Prolog::Fault { number, place } => Prolog::Fault { number, place },
    }
}

// From behind the declaration to where the root is due: white space, comments, and the DOCTYPE, once, where it stands.
pub fn read_head(bad: bool, latin: bool, d: &[u8], at: usize) -> Prolog
    requires { at ≤ length d.now }
    ensures { result ≡ head_of bad latin d.now at }
{
    match markup::gap(bad, d, at) {
        Skip::Past(n) => {
            if markup::is_there(d, n, b"<!DOCTYPE") {
                return doctype_gap(bad, latin, d, n);
            }
            Prolog::Read { latin, next: n }
        }
        Skip::Broken(p) => Prolog::Fault {
            number: 50,
            place: p,
        },
    }
}

// What follows the root: white space and comments up to the file's end; or the refusal.
#[derive(Clone, Copy)]
pub enum Tail {
    Clean,
    Foul { number: usize, place: usize },
}

pub fn read_tail(bad: bool, d: &[u8], at: usize) -> Tail
    requires { at ≤ length d.now }
    ensures { result ≡ tail_from bad d.now at }
{
    match markup::gap(bad, d, at) {
        Skip::Past(n) => {
            if d.len() <= n {
                return end_clean(bad, n);
            }
            if markup::is_there(d, n, b"<?") {
                return Tail::Foul {
                    number: 51,
                    place: n,
                };
            }
            Tail::Foul {
                number: 50,
                place: n,
            }
        }
        Skip::Broken(p) => Tail::Foul {
            number: 50,
            place: p,
        },
    }
}

fn end_clean(bad: bool, n: usize) -> Tail
    ensures { result ≡ end_of_file bad n }
{
    if bad {
        return Tail::Foul {
            number: 50,
            place: n,
        };
    }
    Tail::Clean
}
