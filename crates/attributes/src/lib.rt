// The attributes of a start tag, one at a time, each with its places; and the tag's end. Above it stand the tags.
#![tactic(auto)]

ghost use Rattle.std.specs.Prelude.{◌≡◌, ◌+◌, ◌-◌, ◌≤◌, ◌<◌, length, drop};
ghost use Rattle.attributes.specs.rule.Attribute.{value_move, quoted_of, valued_of, equals_of, named_of, slash_of, behind_of, attribute_of};

use markup::{Move, Skip};

// An attribute: its name from `name` to `nameend`, its value from `value` to `valueend`; or the tag's end; or the place that is
// faulted with 50.
#[derive(Clone, Copy)]
pub enum Attribute {
    One {
        name: usize,
        nameend: usize,
        value: usize,
        valueend: usize,
        next: usize,
    },
    Shut {
        empty: bool,
        place: usize,
        next: usize,
    },
    Faulty(usize),
}

// One step of a value between quotes.
fn move_value(bad: bool, opened: usize, quote: u8, d: &[u8], at: usize) -> Move
    ensures { result ≡ value_move bad opened quote d.now at }
{
    if d.len() <= at {
        return Move::Stop(Skip::Broken(markup::end_fault(bad, at, opened)));
    }
    let b = d[at];
    if b == quote {
        return Move::Stop(Skip::Past(at));
    }
    if b == 60 {
        return Move::Stop(Skip::Broken(at));
    }
    if b == 38 {
        match markup::reference(d, at) {
            Some((_, next)) => {
                return Move::Go(next);
            }
            None => {
                return Move::Stop(Skip::Broken(at));
            }
        }
    }
    Move::Go(at + 1)
}

// A value from behind its first quote on: the place of the quote that ends it.
fn quoted(bad: bool, opened: usize, quote: u8, d: &[u8], at: usize) -> Skip
    requires { at ≤ length d.now }
    ensures { result ≡ quoted_of bad opened quote d.now at }
{
    let mut n = at;
    loop {
        match move_value(bad, opened, quote, d, n) {
            Move::Go(m) => {
                n = m;
            }
            Move::Stop(r) => {
                return r;
            }
        }
    }
}

fn valued(bad: bool, d: &[u8], opened: usize, n: usize, e: usize, v: usize) -> Attribute
    ensures { result ≡ valued_of bad d.now opened n e v }
{
    if d.len() <= v {
        return Attribute::Faulty(markup::end_fault(bad, v, opened));
    }
    let q = d[v];
    if (q == 34) | (q == 39) {
        match quoted(bad, opened, q, d, v + 1) {
            Skip::Past(k) => {
                return Attribute::One {
                    name: n,
                    nameend: e,
                    value: v + 1,
                    valueend: k,
                    next: k + 1,
                };
            }
            Skip::Broken(p) => {
                return Attribute::Faulty(p);
            }
        }
    }
    Attribute::Faulty(v)
}

fn equals(bad: bool, d: &[u8], opened: usize, n: usize, e: usize, m: usize) -> Attribute
    ensures { result ≡ equals_of bad d.now opened n e m }
{
    if d.len() <= m {
        return Attribute::Faulty(markup::end_fault(bad, m, opened));
    }
    if d[m] == 61 {
        let v = markup::run(0, d, m + 1);
        return valued(bad, d, opened, n, e, v);
    }
    Attribute::Faulty(m)
}

fn named(bad: bool, d: &[u8], opened: usize, n: usize) -> Attribute
    requires { n ≤ length d.now }
    ensures { result ≡ named_of bad d.now opened n }
{
    let e = markup::run(1, d, n);
    let m = markup::run(0, d, e);
    equals(bad, d, opened, n, e, m)
}

// A / that > has to follow. The end of the file cuts the tag; a bad character there is at fault at the /.
fn slash(bad: bool, d: &[u8], opened: usize, n: usize) -> Attribute
    requires { n < length d.now }
    ensures { result ≡ slash_of bad d.now opened n }
{
    let m = n + 1;
    if d.len() <= m {
        return Attribute::Faulty(markup::end_fault(bad, n, opened));
    }
    if d[m] == 62 {
        return Attribute::Shut {
            empty: true,
            place: n,
            next: n + 2,
        };
    }
    Attribute::Faulty(n)
}

// The next attribute behind a place, or the end, of the tag whose < stands at `opened`.
pub fn next_attribute(bad: bool, d: &[u8], opened: usize, at: usize) -> Attribute
    requires { at ≤ length d.now }
    ensures { result ≡ attribute_of bad d.now opened at }
{
    let n = markup::run(0, d, at);
    if d.len() <= n {
        return Attribute::Faulty(markup::end_fault(bad, n, opened));
    }
    let b = d[n];
    if b == 62 {
        return Attribute::Shut {
            empty: false,
            place: n,
            next: n + 1,
        };
    }
    if b == 47 {
        return slash(bad, d, opened, n);
    }
    if n == at {
        return Attribute::Faulty(n);
    }
    if markup::starts_name(b) {
        return named(bad, d, opened, n);
    }
    Attribute::Faulty(n)
}
