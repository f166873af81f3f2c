// The vectors of the definition reader: each case of standard input, a definition and the room of a table, is read by the public call, and
// the answer is printed with the table, and whether every other number of the table holds what it held. Where a place and a length stand
// with the case, the text there is decoded into the room, and its signs are printed; where one number more stands there, the definition
// is written clean into as many bytes, and its text is printed. `cases.py` beside this makes the cases and the answers.
#![tactic(auto)]

ghost use Rattle.std.specs.Prelude.{◌≤◌, ◌<◌, length, IfOk};

use clean::Written;
use definition::Answer;
use layout::{Header, Line, Row};
use std::io;
use std::io::{Read, Write};
use texts::Decoded;

// What every number of a table holds before the call.
const PATTERN: i64 = -7777;

// What every byte of an output holds before the call.
const BLANK: u8 = 35;

// ---- output, gathered in a lent buffer and written where it is full
fn put(rt: &impl Print, out: &mut [u8], at: usize, b: u8) -> io::Result<usize> {
    if at < out.len() {
        out[at] = b;
        return Ok(at + 1);
    }
    io::writer(rt).write_all(out)?;
    if 0 < out.len() {
        out[0] = b;
    }
    Ok(1)
}

fn put_all(rt: &impl Print, out: &mut [u8], at: usize, text: &[u8]) -> io::Result<usize> {
    let mut n = at;
    for b in text {
        n = put(rt, out, n, *b)?;
    }
    Ok(n)
}

fn put_count(rt: &impl Print, out: &mut [u8], at: usize, n: u64) -> io::Result<usize> {
    let mut digits = [0u8; 20];
    let mut left = n;
    for first in (0..20usize).rev() {
        digits[first] = b'0' + (left % 10) as u8;
        left = left / 10;
        if left == 0 {
            return put_all(rt, out, at, &digits[first..]);
        }
    }
    put_all(rt, out, at, &digits)
}

fn put_number(rt: &impl Print, out: &mut [u8], at: usize, z: i64) -> io::Result<usize> {
    let s = cells::signed_of(z);
    if s.minus {
        let n = put(rt, out, at, b'-')?;
        return put_count(rt, out, n, s.size);
    }
    put_count(rt, out, at, s.size)
}

// The numbers of a table, parted by spaces, and a line end.
fn put_table(rt: &impl Print, out: &mut [u8], at: usize, table: &[i64]) -> io::Result<usize> {
    let mut n = at;
    for (i, z) in table.iter().enumerate() {
        n = put_number(rt, out, n, *z)?;
        n = put(rt, out, n, parting(i + 1 < table.len()))?;
    }
    Ok(n)
}

fn parting(more: bool) -> u8 {
    if more { b' ' } else { b'\n' }
}

// ---- the table
// Whether every number of a table, or byte of an output, from a place on is what it held.
// By a `for`: LLVM makes vector code of it, and none of `skip` and `all`.
fn held<T: Copy + PartialEq>(s: &[T], from: usize, was: T) -> bool {
    for x in &s[from.min(s.len())..] {
        if *x != was {
            return false;
        }
    }
    true
}

fn put_held(rt: &impl Print, out: &mut [u8], at: usize, kept: bool) -> io::Result<usize> {
    if kept {
        return put_all(rt, out, at, b" kept\n");
    }
    put_all(rt, out, at, b" touched\n")
}

// The numbers of a table with so many rows and lines, as far as there can be so many.
fn table_size(rows: usize, lines: usize) -> usize {
    Header::SIZE
        + Row::SIZE * rows.min(Header::MOST_ROWS)
        + Line::SIZE * lines.min(Header::MOST_LINES)
}

// ---- the cases
fn put_read(
    rt: &impl Print,
    out: &mut [u8],
    at: usize,
    table: &[i64],
    rows: usize,
    lines: usize,
) -> io::Result<usize> {
    let used = table_size(rows, lines).min(table.len());
    let mut n = put_all(rt, out, at, b"read ")?;
    n = put_count(rt, out, n, rows as u64)?;
    n = put(rt, out, n, b' ')?;
    n = put_count(rt, out, n, lines as u64)?;
    n = put_held(rt, out, n, held(table, used, PATTERN))?;
    put_table(rt, out, n, &table[..used])
}

fn put_refused(
    rt: &impl Print,
    out: &mut [u8],
    at: usize,
    number: usize,
    place: usize,
    kept: bool,
) -> io::Result<usize> {
    let mut n = put_count(rt, out, at, number as u64)?;
    n = put(rt, out, n, b' ')?;
    n = put_count(rt, out, n, place as u64)?;
    put_held(rt, out, n, kept)
}

fn put_signs(
    rt: &impl Print,
    out: &mut [u8],
    at: usize,
    list: &[i64],
    count: usize,
) -> io::Result<usize> {
    let used = count.min(list.len());
    let mut n = put_all(rt, out, at, b"text ")?;
    n = put_count(rt, out, n, used as u64)?;
    n = put_held(rt, out, n, held(list, used, PATTERN))?;
    put_table(rt, out, n, &list[..used])
}

fn put_no_text(
    rt: &impl Print,
    out: &mut [u8],
    at: usize,
    list: &[i64],
    number: u64,
) -> io::Result<usize> {
    let n = put_count(rt, out, at, number)?;
    put_held(rt, out, n, held(list, 0, PATTERN))
}

// A text of the definition decoded, by its place and length.
fn run_text(
    rt: &impl Print,
    out: &mut [u8],
    at: usize,
    d: &[u8],
    h: Head,
    list: &mut [i64],
) -> io::Result<usize> {
    list.fill(PATTERN);
    match decoding::decode_text(d, h.place, h.long, list) {
        Decoded::Signs(count) => put_signs(rt, out, at, list, count),
        Decoded::NotText => put_no_text(rt, out, at, list, 3),
        Decoded::ShortList => put_no_text(rt, out, at, list, 25),
    }
}

fn put_clean(
    rt: &impl Print,
    out: &mut [u8],
    at: usize,
    page: &[u8],
    count: usize,
) -> io::Result<usize> {
    let used = count.min(page.len());
    let mut n = put_all(rt, out, at, b"clean ")?;
    n = put_count(rt, out, n, used as u64)?;
    n = put_held(rt, out, n, held(page, used, BLANK))?;
    put_all(rt, out, n, &page[..used])
}

// The definition written clean, with the table that was read of it, if it has room.
fn run_clean(
    rt: &impl Print,
    out: &mut [u8],
    at: usize,
    d: &[u8],
    h: Head,
    table: &[i64],
) -> io::Result<usize> {
    let mut room = [BLANK; 4096];
    let page = &mut room[..h.long.min(4096)];
    match clean::write_definition(d, table, page) {
        Written::Done(count) => put_clean(rt, out, at, page, count),
        Written::Refused { number, place } => put_refused(
            rt,
            out,
            at,
            number,
            place,
            held(page, 0, BLANK),
        ),
    }
}

fn run_read(
    rt: &impl Print,
    out: &mut [u8],
    at: usize,
    d: &[u8],
    h: Head,
    table: &mut [i64],
) -> io::Result<usize> {
    table.fill(PATTERN);
    let read = kinds::read_definition(d, table);
    if h.clean {
        return run_clean(rt, out, at, d, h, table);
    }
    match read {
        Answer::Read { rows, lines } => put_read(rt, out, at, table, rows, lines),
        Answer::Refused { number, place } => put_refused(
            rt,
            out,
            at,
            number,
            place,
            held(table, 0, PATTERN),
        ),
    }
}

fn run_case(
    rt: &impl Print,
    out: &mut [u8],
    at: usize,
    d: &[u8],
    h: Head,
    table: &mut [i64],
) -> io::Result<usize> {
    if h.decode {
        return run_text(rt, out, at, d, h, table);
    }
    run_read(rt, out, at, d, h, table)
}

// A number from a place on, and the place behind the byte after it.
#[derive(Clone, Copy)]
struct Figure {
    value: usize,
    next: usize,
}

fn with_digit(value: usize, b: u8) -> usize {
    if value < 10000000 {
        value * 10 + (b % 16) as usize
    } else {
        value
    }
}

// A place so many bytes on; both are far from the limits of a usize.
fn with_length(start: usize, count: usize) -> usize {
    start.min(1000000) + count.min(1000000)
}

fn figure_at(text: &[u8], at: usize) -> Figure {
    let mut value: usize = 0;
    for i in at..text.len() {
        let b = text[i];
        if b < b'0' {
            return Figure { value, next: i + 1 };
        }
        value = with_digit(value, b);
    }
    Figure {
        value,
        next: at.max(text.len()),
    }
}

// Where the next case starts, and where output goes on.
#[derive(Clone, Copy)]
struct Progress {
    at: usize,
    out: usize,
}

// The place behind a case that started at one place and ends at another.
fn behind(at: usize, end: usize, most: usize) -> usize
    requires { (at ≤ end) × (at < most) }
    ensures { at < result }
{
    if end < most { end + 1 } else { most }
}

// The first line of a case: how many bytes the definition has, the room, and the place and length of a text that is to be decoded, or the
// length of the output that the definition is to be written into.
#[derive(Clone, Copy)]
struct Head {
    length: usize,
    room: usize,
    clean: bool,
    decode: bool,
    place: usize,
    long: usize,
    next: usize,
}

// Whether another number stands in the line before a place.
fn goes_on(text: &[u8], next: usize) -> bool {
    if 0 < next {
        let last = next - 1;
        if last < text.len() {
            return text[last] == b' ';
        }
    }
    false
}

fn head_at(text: &[u8], at: usize) -> Head {
    let length = figure_at(text, at);
    let room = figure_at(text, length.next);
    let more = goes_on(text, room.next);
    let third = figure_at(text, room.next);
    let decode = more & goes_on(text, third.next);
    let fourth = figure_at(text, third.next);
    Head {
        length: length.value,
        room: room.value,
        clean: more & !decode,
        decode,
        place: third.value,
        long: either(decode, fourth.value, third.value),
        next: either(decode, fourth.next, either(more, third.next, room.next)),
    }
}

fn either(q: bool, a: usize, b: usize) -> usize {
    if q { a } else { b }
}

// The case that starts at a place: `LEN ROOM`, `LEN ROOM PLACE LENGTH` or `LEN ROOM OUTPUT`, LF, the definition, LF.
fn one_case(
    rt: &impl Print,
    text: &[u8],
    at: usize,
    case: usize,
    table: &mut [i64],
    out: &mut [u8],
    n: usize,
) -> io::Result<Progress>
    requires { at < length text.now }
    ensures { IfOk result (λ p. at < p.at) }
{
    let head = head_at(text, at);
    let start = head.next.clamp(at, text.len());
    let end = with_length(start, head.length).clamp(start, text.len());
    let next = behind(at, end, text.len());
    let lent = head.room.min(table.len());
    let a = put_all(rt, out, n, b"case ")?;
    let b = put_count(rt, out, a, case as u64)?;
    let c = put_all(rt, out, b, b": ")?;
    let out = run_case(rt, out, c, &text[start..end], head, &mut table[..lent])?;
    Ok(Progress { at: next, out })
}

fn run_all(rt: &impl Print, text: &[u8], table: &mut [i64], out: &mut [u8]) -> io::Result<()> {
    let mut at = 0;
    let mut n = 0;
    let mut case: usize = 0;
    while at < text.len() {
        case += 1;
        let p = one_case(rt, text, at, case, table, out, n)?;
        at = p.at;
        n = p.out;
    }
    let last = n.min(out.len());
    io::writer(rt).write_all(&out[..last])
}

// Reads what stands on standard input, as much of it as there is room for, and says how many bytes came.
fn read_input(rt: &impl Input, input: &mut [u8]) -> io::Result<usize>
    ensures { IfOk result (λ n. n ≤ length input.new) }
{
    let mut reader = rt.reader();
    let mut got: usize = 0;
    while got < input.len() {
        let n = reader.read(&mut input[got..])?;
        if n == 0 {
            return Ok(got);
        }
        got += n;
    }
    Ok(got)
}

fn main(rt: HostRuntime) -> io::Result<()> {
    let mut input = [0u8; 524288];
    let mut table = [0i64; 32768];
    let mut out = [0u8; 65536];
    let got = read_input(&rt, &mut input)?;
    run_all(&rt, &input[..got], &mut table, &mut out)
}
