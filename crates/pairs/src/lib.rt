// What stands where a tag is due, behind white space and comments; end tags read whole and then compared; and the end of an element that
// holds nothing. Above it stand contents and elements.
#![tactic(auto)]

ghost use Rattle.std.specs.Prelude.{◌≡◌, [], ◌+◌, ◌-◌, ◌≤◌, ◌<◌, length, drop};
ghost use Rattle.pairs.specs.rule.Stand.{text_stand, stand_at, stand_of, shut_of, bare_of};
ghost use Rattle.pairs.specs.rule.Pair.{missed_of, closed_of, pair_of};

use angles::Angle;
use markup::Skip;
use tags::Tag;

// A start tag or an end tag, with the place of its < and the place where its name ends; the < of what document 000 doesn't name; the
// first byte of a text; or the place that is faulted with 50.
#[derive(Clone, Copy)]
pub enum Stand {
    Start { place: usize, end: usize },
    Close { place: usize, end: usize },
    Foreign(usize),
    Text(usize),
    Broken(usize),
}

// Where a text stands: its first character is read, if it is a reference.
fn stand_text(d: &[u8], n: usize) -> Stand
    requires { n < length d.now }
    ensures { result ≡ text_stand d.now n }
{
    if d[n] == 38 {
        match markup::reference(d, n) {
            Some(_) => {
                return Stand::Text(n);
            }
            None => {
                return Stand::Broken(n);
            }
        }
    }
    Stand::Text(n)
}

// What stands at a place where white space and comments are over.
fn stand_at(bad: bool, d: &[u8], n: usize) -> Stand
    ensures { result ≡ stand_at bad d.now n }
{
    if d.len() <= n {
        return Stand::Broken(n);
    }
    if d[n] == 60 {
        match angles::read_angle(bad, d, n) {
            Angle::Start(e) => {
                return Stand::Start { place: n, end: e };
            }
            Angle::Close(e) => {
                return Stand::Close { place: n, end: e };
            }
            Angle::Foreign => {
                return Stand::Foreign(n);
            }
            Angle::Broken(p) => {
                return Stand::Broken(p);
            }
        }
    }
    stand_text(d, n)
}

// What stands from a place on, behind white space and comments.
pub fn find_stand(bad: bool, d: &[u8], at: usize) -> Stand
    requires { at ≤ length d.now }
    ensures { result ≡ stand_of bad d.now at }
{
    match markup::gap(bad, d, at) {
        Skip::Past(n) => stand_at(bad, d, n),
        Skip::Broken(p) => Stand::Broken(p),
    }
}

// The end tag whose < stands at `opened` and whose name ends at e: it is read whole, and then its name is w, or it is 50 at its <.
pub fn read_shut(bad: bool, d: &[u8], opened: usize, e: usize, w: &[u8]) -> Skip
    requires { (opened + 2 ≤ e) × (e ≤ length d.now) }
    ensures { result ≡ shut_of bad d.now opened e w.now }
{
    match angles::read_end(bad, d, opened, e) {
        Skip::Past(n) => {
            if tags::is_named(d, opened + 2, e, w) {
                return Skip::Past(n);
            }
            Skip::Broken(opened)
        }
        Skip::Broken(p) => Skip::Broken(p),
    }
}

// The start tag of an element that knows no attribute, from behind its name on; or of one that may not stand there: its form alone.
pub fn read_bare(bad: bool, d: &[u8], opened: usize, at: usize) -> Tag
    requires { at ≤ length d.now }
    ensures { result ≡ bare_of bad d.now opened at }
{
    tags::read_tag(bad, d, opened, at, b"", b"", b"", 0, 0, 0, 0)
}

// The end of an element that holds nothing: the place after its end tag; or the < that cuts it, which is 51; or a 2 or 50.
#[derive(Clone, Copy)]
pub enum Pair {
    Past(usize),
    Cut(usize),
    Fault { number: usize, place: usize },
}

fn misplaced(bad: bool, d: &[u8], opened: usize, at: usize) -> Pair
    requires { at ≤ length d.now }
    ensures { result ≡ missed_of bad d.now opened at }
{
    match read_bare(bad, d, opened, at) {
        Tag::Read {
            held: _,
            empty: _,
            place: _,
            next: _,
        } => Pair::Cut(opened),
        Tag::Fault { number, place } => Pair::Fault { number, place },
    }
}

fn closed(bad: bool, d: &[u8], opened: usize, e: usize, w: &[u8]) -> Pair
    requires { (opened + 2 ≤ e) × (e ≤ length d.now) }
    ensures { result ≡ closed_of bad d.now opened e w.now }
{
    match read_shut(bad, d, opened, e, w) {
        Skip::Past(n) => Pair::Past(n),
        Skip::Broken(p) => Pair::Fault {
            number: 50,
            place: p,
        },
    }
}

// From behind the start tag of an element w that holds nothing: white space, comments, its end tag.
pub fn read_pair(bad: bool, d: &[u8], at: usize, w: &[u8]) -> Pair
    requires { at ≤ length d.now }
    ensures { result ≡ pair_of bad d.now at w.now }
{
    match find_stand(bad, d, at) {
        Stand::Start { place, end } => misplaced(bad, d, place, end),
        Stand::Close { place, end } => closed(bad, d, place, end, w),
        Stand::Foreign(p) => Pair::Cut(p),
        Stand::Text(p) => Pair::Fault {
            number: 2,
            place: p,
        },
        Stand::Broken(p) => Pair::Fault {
            number: 50,
            place: p,
        },
    }
}
