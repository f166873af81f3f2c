// The content of a text element: characters, references, comments, breaks and texts in other languages. One step serves the reader, which
// looks for the end tag, and the decoder, which says the text's signs; so they agree. Above it stand elements.
#![tactic(auto)]

ghost use Rattle.std.specs.Prelude.{◌≡◌, Bool, true, false, cond, ◌&&◌, [], ◌∷◌, ◌+◌, ◌-◌, ◌≤◌, ◌<◌, length, drop, get_or};
ghost use Rattle.contents.specs.rule.Step.{heard_of, go_on_saying, broken_at, bracket_at, return_at, refer_at, note_at, pair_at, break_at};
ghost use Rattle.contents.specs.rule.Step.{language_at, other_at, mode_in, step_kind, start_at, close_at, mark_at, step_of};
ghost use Rattle.contents.specs.rule.Content.{content_of, begun, start_of, text_from, is_text};
ghost use Rattle.contents.specs.Pass.{plain_of, all_plain, Passes, Walks, Closes, Strides};
ghost use Rattle.contents.specs.Told.{Hears, Tells, whole_part, first_part, next_part, byte_part, part_code};
ghost use Rattle.utf.specs.rule.Chars.{encode};

use angles::Angle;
use markup::Skip;
use pairs::Pair;
use signs::Sign;
use tags::Tag;

// Where a reader stands in a text: whether inside <text>, the place of the first attribute that isn't known (0: none), and the place to
// go on from.
#[derive(Clone, Copy)]
pub struct Going {
    pub inside: bool,
    pub unknown: usize,
    pub next: usize,
}

// What a step says: nothing, a break, a byte of the file or a character.
#[derive(Clone, Copy)]
pub enum Said {
    Nothing,
    Break,
    Byte(u8),
    Code(u64),
}

// A text that was read up to its end tag's < at `end`, and the place after that tag; or one that a start tag, or something that document
// 000 doesn't name, cuts, which is 51; or the first 2 or 50 met.
#[derive(Clone, Copy)]
pub enum Content {
    Read {
        end: usize,
        next: usize,
        unknown: usize,
    },
    Cut {
        place: usize,
        unknown: usize,
    },
    Fault {
        number: usize,
        place: usize,
    },
}

#[derive(Clone, Copy)]
pub enum Step {
    More { going: Going, said: Said },
    Over(Content),
}

// What is said inside <text> is not the default text's.
fn mute(inside: bool, said: Said) -> Said
    ensures { result ≡ heard_of inside said }
{
    if inside { Said::Nothing } else { said }
}

fn go_on(g: Going, next: usize, said: Said) -> Step
    ensures { result ≡ go_on_saying g next said }
{
    let said = mute(g.inside, said);
    Step::More {
        going: Going {
            inside: g.inside,
            unknown: g.unknown,
            next,
        },
        said,
    }
}

fn broken(place: usize) -> Step
    ensures { result ≡ broken_at place }
{
    Step::Over(Content::Fault { number: 50, place })
}

// A ] that may begin ]]>.
fn step_bracket(d: &[u8], g: Going) -> Step
    requires { g.next < length d.now }
    ensures { result ≡ bracket_at d.now g }
{
    let at = g.next;
    if markup::is_there(d, at, b"]]>") {
        return broken(at);
    }
    go_on(g, at + 1, Said::Byte(93))
}

// A carriage return: the line feed behind it speaks for both.
fn step_return(d: &[u8], g: Going) -> Step
    requires { g.next < length d.now }
    ensures { result ≡ return_at d.now g }
{
    let next = g.next + 1;
    if markup::is_there(d, next, b"\n") {
        return go_on(g, next, Said::Nothing);
    }
    go_on(g, next, Said::Byte(10))
}

fn step_refer(d: &[u8], g: Going) -> Step
    requires { g.next < length d.now }
    ensures { result ≡ refer_at d.now g }
{
    let at = g.next;
    match markup::reference(d, at) {
        Some((code, next)) => go_on(g, next, Said::Code(code)),
        None => broken(at),
    }
}

fn step_note(bad: bool, d: &[u8], g: Going) -> Step
    requires { g.next + 4 ≤ length d.now }
    ensures { result ≡ note_at bad d.now g }
{
    let at = g.next;
    match markup::comment(bad, d, at, at + 4) {
        Skip::Past(n) => go_on(g, n, Said::Nothing),
        Skip::Broken(p) => broken(p),
    }
}

// The rest of a break whose start tag was read up to n.
fn step_pair(bad: bool, d: &[u8], g: Going, n: usize) -> Step
    requires { n ≤ length d.now }
    ensures { result ≡ pair_at bad d.now g n }
{
    match pairs::read_pair(bad, d, n, b"br") {
        Pair::Past(m) => go_on(g, m, Said::Break),
        Pair::Cut(p) => Step::Over(Content::Cut {
            place: p,
            unknown: g.unknown,
        }),
        Pair::Fault { number, place } => Step::Over(Content::Fault { number, place }),
    }
}

fn step_break(bad: bool, d: &[u8], g: Going, e: usize) -> Step
    requires { e ≤ length d.now }
    ensures { result ≡ break_at bad d.now g e }
{
    match pairs::read_bare(bad, d, g.next, e) {
        Tag::Read {
            held,
            empty,
            place: _,
            next,
        } => {
            let unknown = tags::first_of(g.unknown, held.unknown);
            let k = Going {
                inside: g.inside,
                unknown,
                next: g.next,
            };
            if empty {
                return go_on(k, next, Said::Break);
            }
            step_pair(bad, d, k, next)
        }
        Tag::Fault { number, place } => Step::Over(Content::Fault { number, place }),
    }
}

// The start tag of a text in another language.
fn step_language(bad: bool, d: &[u8], g: Going, e: usize) -> Step
    requires { e ≤ length d.now }
    ensures { result ≡ language_at bad d.now g e }
{
    match tags::read_tag(bad, d, g.next, e, b"xml:lang", b"", b"", 0, 0, 0, 1) {
        Tag::Read {
            held,
            empty,
            place: _,
            next,
        } => {
            let unknown = tags::first_of(g.unknown, held.unknown);
            Step::More {
                going: Going {
                    inside: !empty,
                    unknown,
                    next,
                },
                said: Said::Nothing,
            }
        }
        Tag::Fault { number, place } => Step::Over(Content::Fault { number, place }),
    }
}

// A start tag that may not stand there.
fn step_other(bad: bool, d: &[u8], g: Going, e: usize) -> Step
    requires { e ≤ length d.now }
    ensures { result ≡ other_at bad d.now g e }
{
    match pairs::read_bare(bad, d, g.next, e) {
        Tag::Read {
            held: _,
            empty: _,
            place: _,
            next: _,
        } => Step::Over(Content::Cut {
            place: g.next,
            unknown: g.unknown,
        }),
        Tag::Fault { number, place } => Step::Over(Content::Fault { number, place }),
    }
}

fn mode_in(mode: usize, inside: bool) -> usize
    ensures { result ≡ mode_in mode inside }
{
    if inside { 1 } else { mode }
}

// Which start tag it is: 1 br, 2 text, where they may stand; 0 any other.
fn kind_of(d: &[u8], mode: usize, n: usize, e: usize) -> usize
    requires { (n ≤ e) × (e ≤ length d.now) }
    ensures { result ≡ step_kind d.now mode n e }
{
    let br = tags::is_named(d, n, e, b"br");
    let text = tags::is_named(d, n, e, b"text");
    if (1 <= mode) & br {
        return 1;
    }
    if (mode == 2) & text { 2 } else { 0 }
}

fn step_start(bad: bool, d: &[u8], mode: usize, g: Going, e: usize) -> Step
    requires { (g.next + 1 ≤ e) × (e ≤ length d.now) }
    ensures { result ≡ start_at bad d.now mode g e }
{
    let within = mode_in(mode, g.inside);
    let kind = kind_of(d, within, g.next + 1, e);
    if kind == 1 {
        return step_break(bad, d, g, e);
    }
    if kind == 2 {
        return step_language(bad, d, g, e);
    }
    step_other(bad, d, g, e)
}

// An end tag: that of <text>, or of the element w.
fn step_close(bad: bool, d: &[u8], w: &[u8], g: Going, e: usize) -> Step
    requires { (g.next + 2 ≤ e) × (e ≤ length d.now) }
    ensures { result ≡ close_at bad d.now w.now g e }
{
    let at = g.next;
    if g.inside {
        match pairs::read_shut(bad, d, at, e, b"text") {
            Skip::Past(n) => {
                return Step::More {
                    going: Going {
                        inside: false,
                        unknown: g.unknown,
                        next: n,
                    },
                    said: Said::Nothing,
                };
            }
            Skip::Broken(p) => {
                return broken(p);
            }
        }
    }
    match pairs::read_shut(bad, d, at, e, w) {
        Skip::Past(n) => Step::Over(Content::Read {
            end: at,
            next: n,
            unknown: g.unknown,
        }),
        Skip::Broken(p) => broken(p),
    }
}

// What a < opens.
fn step_mark(bad: bool, d: &[u8], mode: usize, w: &[u8], g: Going) -> Step
    requires { g.next < length d.now }
    ensures { result ≡ mark_at bad d.now mode w.now g }
{
    let at = g.next;
    if markup::is_there(d, at, b"<!--") {
        return step_note(bad, d, g);
    }
    match angles::read_angle(bad, d, at) {
        Angle::Start(e) => step_start(bad, d, mode, g, e),
        Angle::Close(e) => step_close(bad, d, w, g, e),
        Angle::Foreign => Step::Over(Content::Cut {
            place: at,
            unknown: g.unknown,
        }),
        Angle::Broken(p) => broken(p),
    }
}

// One step of a text of an element w.
fn take_step(bad: bool, d: &[u8], mode: usize, w: &[u8], g: Going) -> Step
    ensures { result ≡ step_of bad d.now mode w.now g }
{
    let at = g.next;
    if d.len() <= at {
        return broken(at);
    }
    let b = d[at];
    if b == 60 {
        return step_mark(bad, d, mode, w, g);
    }
    if b == 38 {
        return step_refer(d, g);
    }
    if b == 93 {
        return step_bracket(d, g);
    }
    if b == 13 {
        return step_return(d, g);
    }
    go_on(g, at + 1, Said::Byte(b))
}

// A byte that opens nothing, refers to nothing and ends no line.
fn is_plain(b: u8) -> bool
    ensures { result ≡ plain_of b }
{
    (b != 60) & ((b != 38) & ((b != 93) & (b != 13)))
}

// Whether the sixteen bytes from i on say themselves. Nothing leaves the loop early, and each mark is looked for by itself: so the compiler
// looks at all bytes at once.
fn all_plain(d: &[u8], i: usize) -> bool
    requires { i + 16 ≤ length d.now }
    ensures { result ≡ all_plain d.now i 16 }
{
    let mut plain = true;
    for k in 0..16 {
        plain = plain & is_plain(d[i + k]);
    }
    plain
}

// A place from `at` on with none but such bytes before it, at whole steps of sixteen.
fn pass_wide(d: &[u8], at: usize) -> usize
    requires { at ≤ length d.now }
    ensures { Passes d.now at result }
{
    let n = d.len();
    if n < 16 {
        return at;
    }
    let last = n - 16;
    let mut i = at;
    // no `for`: the place where the steps stop is the answer
    while i <= last {
        if !all_plain(d, i) {
            return i;
        }
        i += 16;
    }
    i
}

// The place after the bytes from a place on that say themselves: most of a text is such bytes, and a step each would cost ten times as
// much.
fn pass_plain(d: &[u8], at: usize) -> usize
    requires { at ≤ length d.now }
    ensures { Passes d.now at result }
{
    for i in pass_wide(d, at)..d.len() {
        if !is_plain(d[i]) {
            return i;
        }
    }
    d.len()
}

// The place after the reference at a place; that place where it is bad.
fn pass_reference(d: &[u8], at: usize) -> usize
    requires { (at < length d.now) × (get_or d.now at 0 ≡ 38) }
    ensures { Passes d.now at result }
{
    match markup::reference(d, at) {
        Some((_, next)) => next,
        None => at,
    }
}

// The place after a comment, or after <br/> where a break may stand; that place where neither is there, or the comment is broken.
fn pass_open(bad: bool, d: &[u8], mode: usize, at: usize) -> usize
    requires { (at < length d.now) × (get_or d.now at 0 ≡ 60) }
    ensures { Walks bad d.now mode at result }
{
    if markup::is_there(d, at, b"<!--") {
        match markup::comment(bad, d, at, at + 4) {
            Skip::Past(n) => {
                return n;
            }
            Skip::Broken(_) => {
                return at;
            }
        }
    }
    let br = markup::is_there(d, at, b"<br/>");
    if (1 <= mode) & br { at + 5 } else { at }
}

// The place after what is passed at a look: bytes that say themselves, a line's end, a reference, a comment, a break.
fn pass_one(bad: bool, d: &[u8], mode: usize, at: usize) -> usize
    requires { at ≤ length d.now }
    ensures { Walks bad d.now mode at result }
{
    if d.len() <= at {
        return at;
    }
    let b = d[at];
    if b == 60 {
        return pass_open(bad, d, mode, at);
    }
    if b == 38 {
        return pass_reference(d, at);
    }
    if b == 13 {
        return at + 1;
    }
    pass_plain(d, at)
}

// The place after all that is passed so. Numbers alone go in and out: a step has to hold what it says.
fn pass_marks(bad: bool, d: &[u8], mode: usize, at: usize) -> usize
    requires { at ≤ length d.now }
    ensures { Walks bad d.now mode at result }
{
    let mut i = at;
    loop {
        let n = pass_one(bad, d, mode, i);
        if n == i {
            return i;
        }
        i = n;
    }
}

// The place after the end tag of w at a place, if it has no white space in it; 0 where another tag or none stands there.
fn end_behind(d: &[u8], at: usize, w: &[u8]) -> usize
    requires { at ≤ length d.now }
    ensures { (result ≡ 0 → ⊥) → Closes d.now at w.now result }
{
    if d.len() - at < 3 {
        return 0;
    }
    if d[at] != 60 {
        return 0;
    }
    if d[at + 1] != 47 {
        return 0;
    }
    if !markup::starts_name(d[at + 2]) {
        return 0;
    }
    let e = markup::run(1, d, at + 2);
    if d.len() <= e {
        return 0;
    }
    if d[e] != 62 {
        return 0;
    }
    if tags::is_named(d, at + 2, e, w) {
        e + 1
    } else {
        0
    }
}

// A step behind what is passed at a look.
fn pass_step(bad: bool, d: &[u8], mode: usize, w: &[u8], g: Going) -> Step
    requires { g.next ≤ length d.now }
    ensures { Strides bad d.now mode w.now g result }
{
    let within = mode_in(mode, g.inside);
    let next = pass_marks(bad, d, within, g.next);
    let k = Going {
        inside: g.inside,
        unknown: g.unknown,
        next,
    };
    if k.inside {
        return leave_text(bad, d, mode, w, k);
    }
    let behind = end_behind(d, next, w);
    if behind != 0 {
        return Step::Over(Content::Read {
            end: next,
            next: behind,
            unknown: g.unknown,
        });
    }
    take_step(bad, d, mode, w, k)
}

// A step inside <text>: most end it.
fn leave_text(bad: bool, d: &[u8], mode: usize, w: &[u8], g: Going) -> Step
    requires { (g.next ≤ length d.now) × (g.inside ≡ true) }
    ensures { result ≡ step_of bad d.now mode w.now g }
{
    let at = g.next;
    let behind = end_behind(d, at, b"text");
    if behind != 0 {
        return Step::More {
            going: Going {
                inside: false,
                unknown: g.unknown,
                next: behind,
            },
            said: Said::Nothing,
        };
    }
    take_step(bad, d, mode, w, g)
}

// The text of an element w from behind its start tag on, with its end tag. Mode 0: characters, references and comments; 1: breaks too;
// 2: texts in other languages too.
pub fn read_content(bad: bool, d: &[u8], mode: usize, w: &[u8], at: usize) -> Content
    requires { at ≤ length d.now }
    ensures { result ≡ content_of bad d.now mode w.now at }
{
    let mut g = Going {
        inside: false,
        unknown: 0,
        next: at,
    };
    loop {
        match pass_step(bad, d, mode, w, g) {
            Step::More { going, said: _ } => {
                g = going;
            }
            Step::Over(c) => {
                return c;
            }
        }
    }
}

// One step of a text that was read, or is to be judged, alone.
fn step_alone(d: &[u8], g: Going) -> Step
    ensures { result ≡ step_of false d.now 2 [] g }
{
    take_step(false, d, 2, b"", g)
}

// What is said next, and where the reader stands behind it; or nothing more is.
#[derive(Clone, Copy)]
pub enum Heard {
    Break(Going),
    Byte { byte: u8, going: Going },
    Code { code: u64, going: Going },
    Over,
}

fn next_heard(d: &[u8], at: Going) -> Heard
    requires { at.next ≤ length d.now }
    ensures { Hears d.now at result }
{
    let mut g = at;
    loop {
        match step_alone(d, g) {
            Step::More { going, said } => match said {
                Said::Nothing => {
                    g = going;
                }
                Said::Break => {
                    return Heard::Break(going);
                }
                Said::Byte(byte) => {
                    return Heard::Byte { byte, going };
                }
                Said::Code(code) => {
                    return Heard::Code { code, going };
                }
            },
            Step::Over(_) => {
                return Heard::Over;
            }
        }
    }
}

// Where the decoder stands: in the text, and in a character of whose bytes so many were said.
#[derive(Clone, Copy)]
pub struct Cursor {
    pub inside: bool,
    pub unknown: usize,
    pub next: usize,
    pub code: u64,
    pub said: usize,
}

// A sign, and where the decoder stands behind it; or the text is over.
#[derive(Clone, Copy)]
pub enum Part {
    One { sign: Sign, cursor: Cursor },
    Over,
}

// The decoder at the start of a text.
pub fn start_at(at: usize) -> Cursor
    ensures { result ≡ start_of at }
{
    Cursor {
        inside: false,
        unknown: 0,
        next: at,
        code: 0,
        said: 1,
    }
}

// A sign with nothing left of its character.
fn say_whole(sign: Sign, g: Going) -> Part
    ensures { result ≡ whole_part sign g }
{
    Part::One {
        sign,
        cursor: Cursor {
            inside: g.inside,
            unknown: g.unknown,
            next: g.next,
            code: 0,
            said: 1,
        },
    }
}

// A character's first byte; the others follow.
fn say_first(code: u64, g: Going) -> Part
    requires { code < 2097152 }
    ensures { result ≡ first_part code g }
{
    let b = utf::encoded(code, 0);
    Part::One {
        sign: Sign::Byte(b),
        cursor: Cursor {
            inside: g.inside,
            unknown: g.unknown,
            next: g.next,
            code,
            said: 1,
        },
    }
}

// A byte that follows.
fn say_next(c: Cursor) -> Part
    requires { (c.code < 2097152) × (c.said < length (encode c.code)) }
    ensures { result ≡ next_part c }
{
    let b = utf::encoded(c.code, c.said);
    let said = c.said + 1;
    Part::One {
        sign: Sign::Byte(b),
        cursor: Cursor {
            inside: c.inside,
            unknown: c.unknown,
            next: c.next,
            code: c.code,
            said,
        },
    }
}

// A byte of the file: in ISO-8859-1 a character.
fn say_byte(latin: bool, byte: u8, g: Going) -> Part
    ensures { (result ≡ byte_part latin byte g) × (part_code result ≤ 255) }
{
    if latin {
        return say_first(byte as u64, g);
    }
    say_whole(Sign::Byte(byte), g)
}

// The next sign of a text that goes on to the end of d.
pub fn next_sign(latin: bool, d: &[u8], c: Cursor) -> Part
    requires { (c.next ≤ length d.now) × (c.code < 2097152) }
    ensures { Tells latin d.now c result }
{
    if c.said < utf::encoded_long(c.code) {
        return say_next(c);
    }
    let g = Going {
        inside: c.inside,
        unknown: c.unknown,
        next: c.next,
    };
    match next_heard(d, g) {
        Heard::Break(k) => say_whole(Sign::Break, k),
        Heard::Byte { byte, going } => say_byte(latin, byte, going),
        Heard::Code { code, going } => say_first(code, going),
        Heard::Over => Part::Over,
    }
}

// Whether what stands from a place to the end of d is a text, its characters aside.
fn text_in(d: &[u8], at: usize) -> bool
    requires { at ≤ length d.now }
    ensures { result ≡ text_from d.now (begun at) }
{
    let mut g = Going {
        inside: false,
        unknown: 0,
        next: at,
    };
    loop {
        if d.len() <= g.next {
            return (!g.inside) & (g.unknown == 0);
        }
        match step_alone(d, g) {
            Step::More { going, said: _ } => {
                g = going;
            }
            Step::Over(_) => {
                return false;
            }
        }
    }
}

// Whether what stands from a place to the end of d is content as of a label, with no unknown attribute.
pub fn is_text(latin: bool, d: &[u8], at: usize) -> bool
    requires { at ≤ length d.now }
    ensures { result ≡ is_text latin d.now at }
{
    let q = utf::first_bad(latin, d, at);
    if q != d.len() {
        return false;
    }
    text_in(d, at)
}
