// The clean lines of a definition that was read before, a statement at a time: each is walked anew, past its things, and its line is sent
// to
// be measured or stored. Above it stands the clean text as a whole.
#![tactic(auto)]

ghost use Rattle.std.specs.Prelude.{◌≡◌, true, false, [], ◌∷◌, ◌++◌, ◌+◌, ◌^◌, ◌≤◌, ◌<◌, length};
ghost use Rattle.ascii.specs.Class.{Classes};
ghost use Rattle.ascii.specs.rule.Tens.{Tens};
ghost use Rattle.fields.specs.rule.Number.{padded};
ghost use Rattle.sink.specs.rule.Sent.{Sent};
ghost use Rattle.tokens.specs.rule.Gap.{gap_at};
ghost use Rattle.statements.specs.rule.Words.{VARIABLE, VALUES, END};
ghost use Rattle.steps.specs.Step.{statement_found, statement_past, keyword_past};
ghost use Rattle.clean_text.specs.rule.Span.{span_of};
ghost use Rattle.clean_text.specs.rule.Clean.{plain_digits};
ghost use Rattle.looks.specs.Stand.{Stands};
ghost use Rattle.looks.specs.Each.{ValueAt};
ghost use Rattle.looks.specs.Look.{NumberLine, PhraseLine, ValueLine};
ghost use Rattle.pages.specs.Stand.{Ran, LastLine, Positioned};
ghost use Rattle.pages.specs.Page.{Paged, stretch_page, framed, number_page, phrase_page, type_at, type_text, position_at, position_text};
ghost use Rattle.pages.specs.Page.{room_of};
ghost use Rattle.pages.specs.Page.{spread_at, even_of, spread_text};
ghost use Rattle.pages.specs.Page.{line_at, line_text, lines_page, range_at, range_text, block_page, values_page, rest_page, end_page};
ghost use Rattle.pages.specs.Page.{titles_page, variable_page};
ghost use Rattle.pages.specs.Page.{variables_page};

use scan::Step;
use steps::{Found, Span};

// Where what was sent ends, and where reading stands.
#[derive(Clone, Copy)]
pub struct Walked {
    pub at: usize,
    pub next: usize,
}

// ---- bytes
// The kept bytes of a stretch, one by one.
fn send_kept(
    classes: &[u8; 256],
    d: &[u8],
    bound: usize,
    out: &mut [u8],
    at: usize,
    from: usize,
    end: usize,
) -> usize
    requires { Classes classes.now }
    ensures { Sent bound out.old at (span_of d.now from end) out.new result }
{
    let mut n = from;
    let mut p = at;
    loop {
        match scan::next_byte(classes, d, n) {
            Step::Byte { byte, place, next } => {
                if end <= place {
                    return p;
                }
                p = sink::send_byte(bound, out, p, byte);
                n = next;
            }
            Step::End { place: _ } => {
                return p;
            }
        }
    }
}

// The kept bytes of a stretch. Most have no dropped byte among them, and are sent at once.
pub fn send_span(
    classes: &[u8; 256],
    d: &[u8],
    bound: usize,
    out: &mut [u8],
    at: usize,
    from: usize,
    end: usize,
) -> usize
    requires { Classes classes.now }
    ensures { Sent bound out.old at (span_of d.now from end) out.new result }
{
    if looks::plain(d, from, end) {
        return sink::send_bytes(bound, out, at, &d[from..end]);
    }
    send_kept(classes, d, bound, out, at, from, end)
}

// A stretch between two literals.
pub fn send_framed(
    classes: &[u8; 256],
    d: &[u8],
    bound: usize,
    out: &mut [u8],
    at: usize,
    pre: &[u8],
    s: Span,
    post: &[u8],
) -> usize
    requires { Classes classes.now }
    ensures { Sent bound out.old at (framed d.now pre.now s post.now) out.new
        result }
{
    let a = sink::send_bytes(bound, out, at, pre);
    let b = send_span(classes, d, bound, out, a, s.from, s.end);
    sink::send_bytes(bound, out, b, post)
}

// A stretch before a literal.
fn send_closed(
    classes: &[u8; 256],
    d: &[u8],
    bound: usize,
    out: &mut [u8],
    at: usize,
    s: Span,
    post: &[u8],
) -> usize
    requires { Classes classes.now }
    ensures { Sent bound out.old at (framed d.now [] s post.now) out.new result }
{
    let a = send_span(classes, d, bound, out, at, s.from, s.end);
    sink::send_bytes(bound, out, a, post)
}

// The last w digits of n.
fn send_digits(
    powers: &[u64; 16],
    bound: usize,
    out: &mut [u8],
    at: usize,
    w: usize,
    n: u64,
) -> usize
    requires tens { Tens powers.now }
    requires n_bound { (n < 10 ^ 16) × (w ≤ 20) }
    ensures { Sent bound out.old at (padded w n) out.new result }
{
    let mut room = [0u8; 20];
    digits::put_digits(powers, &mut room, 0, w, n);
    sink::send_bytes(bound, out, at, &room[..w])
}

// A count in plain digits.
fn send_count(powers: &[u64; 16], bound: usize, out: &mut [u8], at: usize, n: u64) -> usize
    requires tens { Tens powers.now }
    requires n_bound { n < 10 ^ 16 }
    ensures { Sent bound out.old at (plain_digits n) out.new result }
{
    let w = ascii::digit_count(powers, n);
    send_digits(powers, bound, out, at, w, n)
}

// ---- statements of a word and a number, or a word and a string
// What stands in the definition just as it is to be written, from g to before e, is sent at once, from there; behind it reading goes on at
// its line's end.
fn send_whole(d: &[u8], g: usize, e: usize, bound: usize, out: &mut [u8], at: usize) -> Walked
    requires { (g ≤ e) × (e ≤ length d.now) × (2 ≤ e) }
    ensures { Paged bound out.old at out.new result (stretch_page d.now g e) }
{
    let end = sink::send_bytes(bound, out, at, &d[g..e]);
    Walked {
        at: end,
        next: e - 2,
    }
}

// A statement of a word and a number; from g to before e, if e is not 0, it stands just as it is to be written. The callers look whether it
// does: so the compiler knows the word that it compares.
fn send_number(
    classes: &[u8; 256],
    d: &[u8],
    n: usize,
    g: usize,
    e: usize,
    w: &[u8],
    bound: usize,
    out: &mut [u8],
    at: usize,
) -> Walked
    requires classes { Classes classes.now }
    requires number_line { (0 < e → NumberLine d.now g w.now e) × (gap_at d.now n ≡ gap_at d.now g) }
    ensures { Paged bound out.old at out.new result
        (number_page d.now n w.now (w.now ++ 32 ∷ [])) }
{
    if 0 < e {
        return send_whole(d, g, e, bound, out, at);
    }
    let a = steps::past_statement(classes, d, n, w);
    let x = steps::number_span(classes, d, a);
    let b = sink::send_bytes(bound, out, at, w);
    let end = send_framed(classes, d, bound, out, b, b" ", x, b"\r\n");
    Walked {
        at: end,
        next: x.next,
    }
}

// The same for a word and a string.
fn send_phrase(
    classes: &[u8; 256],
    d: &[u8],
    n: usize,
    g: usize,
    e: usize,
    w: &[u8],
    bound: usize,
    out: &mut [u8],
    at: usize,
) -> Walked
    requires classes { Classes classes.now }
    requires phrase_line { (0 < e → PhraseLine d.now g w.now e) × (gap_at d.now n ≡ gap_at d.now g) }
    ensures { Paged bound out.old at out.new result
        (phrase_page d.now n w.now (w.now ++ 32 ∷ 34 ∷ [])) }
{
    if 0 < e {
        return send_whole(d, g, e, bound, out, at);
    }
    let a = steps::past_statement(classes, d, n, w);
    let x = steps::string_span(classes, d, a);
    let b = sink::send_bytes(bound, out, at, w);
    let end = send_framed(classes, d, bound, out, b, b" \"", x, b"\"\r\n");
    Walked {
        at: end,
        next: x.next,
    }
}

// END VARIABLE.
fn past_end(classes: &[u8; 256], d: &[u8], n: usize) -> usize
    requires { Classes classes.now }
    ensures { result ≡ keyword_past d.now (statement_past d.now n END) VARIABLE }
{
    let k = tokens::pass_blanks(d, n);
    let e = looks::stands_to(d, k, b"END VARIABLE\r\n");
    if 0 < e {
        return e - 2;
    }
    let g = steps::past_notes(classes, d, n);
    let a = steps::past_word(classes, d, g, b"END");
    let h = steps::past_gap(classes, d, a);
    steps::past_word(classes, d, h, b"VARIABLE")
}

fn send_end(
    classes: &[u8; 256],
    d: &[u8],
    n: usize,
    bound: usize,
    out: &mut [u8],
    at: usize,
) -> Walked
    requires { Classes classes.now }
    ensures { Paged bound out.old at out.new result
        (end_page d.now n VARIABLE (END ++ 32 ∷ VARIABLE ++ 13 ∷ 10 ∷ [])) }
{
    let next = past_end(classes, d, n);
    let end = sink::send_bytes(bound, out, at, b"END VARIABLE\r\n");
    Walked { at: end, next }
}

// ---- TYPE
// The number of the type, and the place behind its word.
#[derive(Clone, Copy)]
pub struct Sort {
    pub kind: usize,
    pub next: usize,
}

// Where the line stands just as it is to be written, what it says is clear at a look.
fn type_at(classes: &[u8; 256], d: &[u8], n: usize) -> Sort
    requires { Classes classes.now }
    ensures { result ≡ type_at d.now n }
{
    let g = tokens::pass_blanks(d, n);
    let one = looks::stands_to(d, g, b"TYPE SINGLE\r\n");
    if 0 < one {
        return Sort {
            kind: 1,
            next: one - 2,
        };
    }
    let two = looks::stands_to(d, g, b"TYPE MULTIPLE\r\n");
    if 0 < two {
        return Sort {
            kind: 2,
            next: two - 2,
        };
    }
    let three = looks::stands_to(d, g, b"TYPE QUANTITY\r\n");
    if 0 < three {
        return Sort {
            kind: 3,
            next: three - 2,
        };
    }
    let four = looks::stands_to(d, g, b"TYPE CHARACTER\r\n");
    if 0 < four {
        return Sort {
            kind: 4,
            next: four - 2,
        };
    }
    let five = looks::stands_to(d, g, b"TYPE LOGICAL\r\n");
    if 0 < five {
        return Sort {
            kind: 5,
            next: five - 2,
        };
    }
    type_apart(classes, d, n)
}

fn type_apart(classes: &[u8; 256], d: &[u8], n: usize) -> Sort
    requires { Classes classes.now }
    ensures { result ≡ type_at d.now n }
{
    let f = steps::past_notes(classes, d, n);
    let a = steps::past_word(classes, d, f, b"TYPE");
    let g = steps::past_gap(classes, d, a);
    let one = steps::find_here(classes, d, g, b"SINGLE");
    if one.there {
        return Sort {
            kind: 1,
            next: one.next,
        };
    }
    let two = steps::find_here(classes, d, g, b"MULTIPLE");
    if two.there {
        return Sort {
            kind: 2,
            next: two.next,
        };
    }
    let three = steps::find_here(classes, d, g, b"QUANTITY");
    if three.there {
        return Sort {
            kind: 3,
            next: three.next,
        };
    }
    let four = steps::find_here(classes, d, g, b"CHARACTER");
    if four.there {
        return Sort {
            kind: 4,
            next: four.next,
        };
    }
    let next = steps::past_word(classes, d, g, b"LOGICAL");
    Sort { kind: 5, next }
}

fn send_type(bound: usize, out: &mut [u8], at: usize, kind: usize) -> usize
    ensures { Sent bound out.old at (type_text kind) out.new result }
{
    if kind == 1 {
        return sink::send_bytes(bound, out, at, b"TYPE SINGLE\r\n");
    }
    if kind == 2 {
        return sink::send_bytes(bound, out, at, b"TYPE MULTIPLE\r\n");
    }
    if kind == 3 {
        return sink::send_bytes(bound, out, at, b"TYPE QUANTITY\r\n");
    }
    if kind == 4 {
        return sink::send_bytes(bound, out, at, b"TYPE CHARACTER\r\n");
    }
    sink::send_bytes(bound, out, at, b"TYPE LOGICAL\r\n")
}

// ---- POSITION
#[derive(Clone, Copy)]
pub struct Places {
    pub start: Span,
    pub finish: Span,
    pub next: usize,
}

fn position_at(classes: &[u8; 256], d: &[u8], n: usize) -> Places
    requires { Classes classes.now }
    ensures { result ≡ position_at d.now n }
{
    let g = steps::past_notes(classes, d, n);
    let a = steps::past_word(classes, d, g, b"POSITION");
    let x = steps::number_span(classes, d, a);
    let h = steps::past_gap(classes, d, x.next);
    let f = steps::find_here(classes, d, h, b"TO");
    if f.there {
        let y = steps::number_span(classes, d, f.next);
        return Places {
            start: x,
            finish: y,
            next: y.next,
        };
    }
    Places {
        start: x,
        finish: x,
        next: f.next,
    }
}

// The statement, and where it begins and ends if it stands just as it is to be written; else it ends at 0.
#[derive(Clone, Copy)]
pub struct Position {
    pub places: Places,
    pub from: usize,
    pub end: usize,
}

fn find_position(classes: &[u8; 256], d: &[u8], n: usize) -> Position
    requires { Classes classes.now }
    ensures { Positioned d.now n result }
{
    let from = tokens::pass_blanks(d, n);
    let q = looks::pair_line(d, from, b"POSITION ", b" TO ");
    if 0 < q.end {
        let start = q.first;
        let finish = q.second;
        let places = Places {
            start,
            finish,
            next: finish.next,
        };
        return Position {
            places,
            from,
            end: q.end,
        };
    }
    let places = position_at(classes, d, n);
    Position {
        places,
        from,
        end: 0,
    }
}

fn send_position(
    classes: &[u8; 256],
    d: &[u8],
    bound: usize,
    out: &mut [u8],
    at: usize,
    s: Position,
) -> usize
    requires classes { Classes classes.now }
    requires stands { 0 < s.end → Stands d.now s.from (position_text d.now s.places) s.end }
    ensures { Sent bound out.old at (position_text d.now s.places) out.new result }
{
    let g = s.from;
    let e = s.end;
    if 0 < e {
        return sink::send_bytes(bound, out, at, &d[g..e]);
    }
    let p = s.places;
    let start = p.start;
    let finish = p.finish;
    let a = send_framed(classes, d, bound, out, at, b"POSITION ", start, b" TO ");
    send_closed(classes, d, bound, out, a, finish, b"\r\n")
}

// How many positions a variable has.
fn room_of(start: u64, finish: u64) -> u64
    ensures { result ≡ room_of start finish }
{
    if 16384 < finish {
        return 0;
    }
    if finish < start {
        return 0;
    }
    finish - start + 1
}

// ---- SPREAD
#[derive(Clone, Copy)]
pub struct Parts {
    pub there: bool,
    pub count: Span,
    pub of: bool,
    pub width: Span,
    pub next: usize,
}

fn spread_at(classes: &[u8; 256], d: &[u8], n: usize) -> Parts
    requires { Classes classes.now }
    ensures { result ≡ spread_at d.now n }
{
    let f = steps::find_statement(classes, d, n, b"SPREAD");
    let x = steps::number_span(classes, d, f.next);
    let h = steps::past_gap(classes, d, x.next);
    let g = steps::find_here(classes, d, h, b"OF");
    let w = steps::number_span(classes, d, g.next);
    if f.there {
        if g.there {
            return Parts {
                there: true,
                count: x,
                of: true,
                width: w,
                next: w.next,
            };
        }
        return Parts {
            there: true,
            count: x,
            of: false,
            width: x,
            next: g.next,
        };
    }
    Parts {
        there: false,
        count: x,
        of: false,
        width: x,
        next: n,
    }
}

// The width of each of `count` equal parts.
fn even_of(room: u64, count: u64) -> u64
    ensures { result ≡ even_of room count }
{
    if count == 0 { 0 } else { room / count }
}

fn send_spread(
    classes: &[u8; 256],
    powers: &[u64; 16],
    d: &[u8],
    bound: usize,
    out: &mut [u8],
    at: usize,
    p: Parts,
    room: u64,
) -> usize
    requires classes { Classes classes.now }
    requires tens { Tens powers.now }
    requires size_bound { even_of room p.count.size < 10 ^ 16 }
    ensures { Sent bound out.old at (spread_text d.now room p) out.new result }
{
    if !p.there {
        return at;
    }
    let count = p.count;
    let width = p.width;
    let a = send_framed(classes, d, bound, out, at, b"SPREAD ", count, b" OF ");
    if p.of {
        return send_closed(classes, d, bound, out, a, width, b"\r\n");
    }
    let b = send_count(powers, bound, out, a, even_of(room, count.size));
    sink::send_bytes(bound, out, b, b"\r\n")
}

// ---- VALUES
#[derive(Clone, Copy)]
pub struct LineParts {
    pub value: Span,
    pub text: Span,
    pub special: bool,
    pub next: usize,
}

fn line_at(classes: &[u8; 256], d: &[u8], n: usize) -> LineParts
    requires { Classes classes.now }
    ensures { result ≡ line_at d.now n }
{
    let g = steps::past_notes(classes, d, n);
    let value = steps::value_span(classes, d, g);
    let text = steps::string_span(classes, d, value.next);
    let h = steps::past_gap(classes, d, text.next);
    let s = steps::find_here(classes, d, h, b"SPECIAL");
    LineParts {
        value,
        text,
        special: s.there,
        next: s.next,
    }
}

// A line's things, one by one.
fn send_line(
    classes: &[u8; 256],
    d: &[u8],
    bound: usize,
    out: &mut [u8],
    at: usize,
    l: LineParts,
) -> usize
    requires { Classes classes.now }
    ensures { Sent bound out.old at (line_text d.now l) out.new result }
{
    let value = l.value;
    let text = l.text;
    let a = send_closed(classes, d, bound, out, at, value, b" \"");
    if l.special {
        return send_closed(classes, d, bound, out, a, text, b"\" SPECIAL\r\n");
    }
    send_closed(classes, d, bound, out, a, text, b"\"\r\n")
}

// Whether END stands behind the notes.
fn look_end(classes: &[u8; 256], d: &[u8], n: usize) -> Found
    requires { Classes classes.now }
    ensures { result ≡ statement_found d.now n END }
{
    let g = steps::past_notes(classes, d, n);
    steps::find_here(classes, d, g, b"END")
}

fn past_values(classes: &[u8; 256], d: &[u8], n: usize) -> usize
    requires { Classes classes.now }
    ensures { result ≡ keyword_past d.now n VALUES }
{
    let g = steps::past_gap(classes, d, n);
    steps::past_word(classes, d, g, b"VALUES")
}

// How far lines of a block were sent, how many they are with those before, and whether the block is over.
#[derive(Clone, Copy)]
pub struct Run {
    pub at: usize,
    pub next: usize,
    pub count: usize,
    pub over: bool,
}

// Whether the byte at a place is one of a value.
fn value_at(classes: &[u8; 256], d: &[u8], n: usize) -> bool
    requires { Classes classes.now }
    ensures { result ≡ true → ValueAt d.now n }
{
    if d.len() <= n {
        return false;
    }
    scan::of_value(classes, d[n])
}

// A place from which a block's lines are sent as from another: where a value stands behind blanks, its own.
fn first_line(classes: &[u8; 256], d: &[u8], start: usize) -> usize
    requires { Classes classes.now }
    ensures { lines_page 4096 d.now start ≡ lines_page 4096 d.now result }
{
    let m = tokens::pass_blanks(d, start);
    if value_at(classes, d, m) {
        return m;
    }
    start
}

// Where the line ends that stands just as it is to be written, with SPECIAL or without it.
fn either_end(classes: &[u8; 256], d: &[u8], n: usize, e: usize) -> usize
    requires classes { Classes classes.now }
    requires value_line { 0 < e → ValueLine d.now n e }
    ensures { 0 < result → LastLine d.now n result }
{
    if 0 < e {
        return e;
    }
    looks::special_line(classes, d, n)
}

// The last line of a block, if it stands so and END VALUES behind it: then the block is over. Else nothing is sent.
fn send_last(
    classes: &[u8; 256],
    d: &[u8],
    n: usize,
    e: usize,
    k: usize,
    bound: usize,
    out: &mut [u8],
    at: usize,
) -> Run
    requires classes { Classes classes.now }
    requires value_line { (0 < e → ValueLine d.now n e) × (k < 4096) }
    ensures { Ran bound out.old at out.new d.now n k result }
{
    let m = either_end(classes, d, n, e);
    let h = tokens::pass_blanks(d, m);
    let f = looks::stands_to(d, h, b"END VALUES\r\n");
    if (m == 0) | (f == 0) {
        return Run {
            at,
            next: n,
            count: k,
            over: false,
        };
    }
    let p = sink::send_bytes(bound, out, at, &d[n..m]);
    Run {
        at: p,
        next: f - 2,
        count: k + 1,
        over: true,
    }
}

// Lines that stand just as they are to be written, each sent at once, as long as a value follows; and the last of them.
fn send_run(
    classes: &[u8; 256],
    d: &[u8],
    start: usize,
    count: usize,
    bound: usize,
    out: &mut [u8],
    at: usize,
) -> Run
    requires classes { Classes classes.now }
    requires count_bound { count ≤ 4096 }
    ensures { Ran bound out.old at out.new d.now start count result }
{
    let mut n = start;
    let mut p = at;
    for k in count..4096 {
        let e = looks::value_line(classes, d, n);
        let h = tokens::pass_blanks(d, e);
        if (e == 0) | !value_at(classes, d, h) {
            return send_last(classes, d, n, e, k, bound, out, p);
        }
        p = sink::send_bytes(bound, out, p, &d[n..e]);
        n = h;
    }
    Run {
        at: p,
        next: n,
        count: 4096,
        over: false,
    }
}

// One line more, whatever stands in it, and whether the block is over.
fn send_next(
    classes: &[u8; 256],
    d: &[u8],
    n: usize,
    k: usize,
    bound: usize,
    out: &mut [u8],
    at: usize,
) -> Run
    requires classes { Classes classes.now }
    requires k_bound { k ≤ 4096 }
    ensures ran { Ran bound out.old at out.new d.now n k result }
    ensures count_value { k < 4096 → result.count ≡ k + 1 }
{
    if 4096 <= k {
        return Run {
            at,
            next: n,
            count: k,
            over: false,
        };
    }
    let l = line_at(classes, d, n);
    let p = send_line(classes, d, bound, out, at, l);
    let e = look_end(classes, d, l.next);
    if e.there {
        let next = past_values(classes, d, e.next);
        return Run {
            at: p,
            next,
            count: k + 1,
            over: true,
        };
    }
    Run {
        at: p,
        next: l.next,
        count: k + 1,
        over: false,
    }
}

// The lines of a block, from the place behind VALUES or WITH.
fn send_lines(
    classes: &[u8; 256],
    d: &[u8],
    start: usize,
    bound: usize,
    out: &mut [u8],
    at: usize,
) -> Walked
    requires { Classes classes.now }
    ensures { Paged bound out.old at out.new result (lines_page 4096 d.now start) }
{
    let mut n = first_line(classes, d, start);
    let mut p = at;
    let mut k: usize = 0;
    while k < 4096 {
        let r = send_run(classes, d, n, k, bound, out, p);
        if r.over {
            return Walked {
                at: r.at,
                next: r.next,
            };
        }
        let l = send_next(classes, d, r.next, r.count, bound, out, r.at);
        if l.over {
            return Walked {
                at: l.at,
                next: l.next,
            };
        }
        n = l.next;
        p = l.at;
        k = l.count;
    }
    Walked { at: p, next: n }
}

#[derive(Clone, Copy)]
pub struct RangeParts {
    pub there: bool,
    pub from: Span,
    pub to: Span,
    pub with: bool,
    pub next: usize,
}

// Where a string opens behind the first value, there is none.
fn range_at(classes: &[u8; 256], d: &[u8], n: usize) -> RangeParts
    requires { Classes classes.now }
    ensures { result ≡ range_at d.now n }
{
    let m = tokens::pass_blanks(d, n);
    let v = looks::value_opened(classes, d, m);
    if 0 < v {
        let from = Span {
            from: m,
            end: v,
            next: v,
            size: 0,
        };
        return RangeParts {
            there: false,
            from,
            to: from,
            with: false,
            next: n,
        };
    }
    range_apart(classes, d, n)
}

fn range_apart(classes: &[u8; 256], d: &[u8], n: usize) -> RangeParts
    requires { Classes classes.now }
    ensures { result ≡ range_at d.now n }
{
    let g = steps::past_notes(classes, d, n);
    let from = steps::value_span(classes, d, g);
    let e = steps::past_gap(classes, d, from.next);
    let f = steps::find_here(classes, d, e, b"TO");
    if f.there {
        let h = steps::past_gap(classes, d, f.next);
        let to = steps::value_span(classes, d, h);
        let k = steps::past_gap(classes, d, to.next);
        let w = steps::find_here(classes, d, k, b"WITH");
        return RangeParts {
            there: true,
            from,
            to,
            with: w.there,
            next: w.next,
        };
    }
    RangeParts {
        there: false,
        from,
        to: from,
        with: false,
        next: n,
    }
}

fn send_range(
    classes: &[u8; 256],
    d: &[u8],
    bound: usize,
    out: &mut [u8],
    at: usize,
    r: RangeParts,
) -> usize
    requires { Classes classes.now }
    ensures { Sent bound out.old at (range_text d.now r) out.new result }
{
    if !r.there {
        return at;
    }
    let from = r.from;
    let to = r.to;
    let a = send_closed(classes, d, bound, out, at, from, b" TO ");
    if r.with {
        return send_closed(classes, d, bound, out, a, to, b" WITH\r\n");
    }
    send_closed(classes, d, bound, out, a, to, b"\r\n")
}

// What stands behind the range, or behind VALUES, up to END VALUES.
fn send_block(
    classes: &[u8; 256],
    d: &[u8],
    bound: usize,
    out: &mut [u8],
    at: usize,
    r: RangeParts,
) -> Walked
    requires { Classes classes.now }
    ensures { Paged bound out.old at out.new result (block_page d.now r) }
{
    if r.there & !r.with {
        let a = steps::past_statement(classes, d, r.next, b"END");
        let next = steps::past_keyword(classes, d, a, b"VALUES");
        return Walked { at, next };
    }
    send_lines(classes, d, r.next, bound, out, at)
}

// The statement's word.
fn open_values(classes: &[u8; 256], d: &[u8], n: usize) -> usize
    requires { Classes classes.now }
    ensures { result ≡ statement_past d.now n VALUES }
{
    let k = tokens::pass_blanks(d, n);
    let e = looks::stands_to(d, k, b"VALUES\r\n");
    if 0 < e {
        return e - 2;
    }
    let g = steps::past_notes(classes, d, n);
    steps::past_word(classes, d, g, b"VALUES")
}

pub fn send_values(
    classes: &[u8; 256],
    d: &[u8],
    n: usize,
    bound: usize,
    out: &mut [u8],
    at: usize,
) -> Walked
    requires { Classes classes.now }
    ensures { Paged bound out.old at out.new result (values_page d.now n) }
{
    let a = open_values(classes, d, n);
    let r = range_at(classes, d, a);
    let b = sink::send_bytes(bound, out, at, b"VALUES\r\n");
    let c = send_range(classes, d, bound, out, b, r);
    let e = send_block(classes, d, bound, out, c, r);
    let end = sink::send_bytes(bound, out, e.at, b"END VALUES\r\n");
    Walked {
        at: end,
        next: e.next,
    }
}

// ---- a variable
// What its type has behind its position, of `room` bytes.
fn send_rest(
    classes: &[u8; 256],
    powers: &[u64; 16],
    d: &[u8],
    n: usize,
    kind: usize,
    room: u64,
    bound: usize,
    out: &mut [u8],
    at: usize,
) -> Walked
    requires classes { Classes classes.now }
    requires tens { Tens powers.now }
    requires room_bound { room ≤ 16384 + 1 }
    ensures { Paged bound out.old at out.new result (rest_page d.now n kind room) }
{
    if kind == 5 {
        return Walked { at, next: n };
    }
    if kind == 4 {
        let g = tokens::pass_blanks(d, n);
        let e = looks::number_line(d, g, b"SIZE");
        return send_number(classes, d, n, g, e, b"SIZE", bound, out, at);
    }
    if kind == 2 {
        let p = spread_at(classes, d, n);
        let a = send_spread(classes, powers, d, bound, out, at, p, room);
        return send_values(classes, d, p.next, bound, out, a);
    }
    send_values(classes, d, n, bound, out, at)
}

fn send_titles(
    classes: &[u8; 256],
    d: &[u8],
    n: usize,
    bound: usize,
    out: &mut [u8],
    at: usize,
) -> Walked
    requires { Classes classes.now }
    ensures { Paged bound out.old at out.new result (titles_page d.now n) }
{
    let i = tokens::pass_blanks(d, n);
    let e = looks::number_line(d, i, b"VARIABLE");
    let a = send_number(classes, d, n, i, e, b"VARIABLE", bound, out, at);
    let j = tokens::pass_blanks(d, a.next);
    let f = looks::phrase_line(d, j, b"NAME");
    let b = send_phrase(classes, d, a.next, j, f, b"NAME", bound, out, a.at);
    let k = tokens::pass_blanks(d, b.next);
    let h = looks::phrase_line(d, k, b"LABEL");
    send_phrase(classes, d, b.next, k, h, b"LABEL", bound, out, b.at)
}

pub fn send_variable(
    classes: &[u8; 256],
    powers: &[u64; 16],
    d: &[u8],
    n: usize,
    bound: usize,
    out: &mut [u8],
    at: usize,
) -> Walked
    requires classes { Classes classes.now }
    requires tens { Tens powers.now }
    ensures { Paged bound out.old at out.new result (variable_page d.now n) }
{
    let a = send_titles(classes, d, n, bound, out, at);
    let t = type_at(classes, d, a.next);
    let b = send_type(bound, out, a.at, t.kind);
    let s = find_position(classes, d, t.next);
    let p = s.places;
    let c = send_position(classes, d, bound, out, b, s);
    let start = p.start;
    let finish = p.finish;
    let room = room_of(start.size, finish.size);
    let e = send_rest(classes, powers, d, p.next, t.kind, room, bound, out, c);
    send_end(classes, d, e.next, bound, out, e.at)
}

// All variables, and the END behind them.
pub fn send_variables(
    classes: &[u8; 256],
    powers: &[u64; 16],
    d: &[u8],
    start: usize,
    bound: usize,
    out: &mut [u8],
    at: usize,
) -> Walked
    requires classes { Classes classes.now }
    requires tens { Tens powers.now }
    ensures { Paged bound out.old at out.new result (variables_page 512 d.now start) }
{
    let mut n = start;
    let mut p = at;
    for _ in 0..512usize {
        let v = send_variable(classes, powers, d, n, bound, out, p);
        p = v.at;
        n = v.next;
        let e = look_end(classes, d, n);
        if e.there {
            return Walked { at: p, next: n };
        }
    }
    Walked { at: p, next: n }
}
