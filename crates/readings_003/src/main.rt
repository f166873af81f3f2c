// The tables of source document 003 for SINGLE, both forms of MULTIPLE, QUANTITY, CHARACTER and LOGICAL, run through the public call that
// reads one row and compared with the document's column of data values. A line a case: what the document has, and whether the call
// says the same. `x` stands in the bytes that are ignored, and all round the field. Behind them the same tables with a byte, a point or a
// number that may not stand there, each with the number of its fault and the place, or the number that is not legal.
#![tactic(auto)]

use faults::Fault;
use layout::{Header, Line, Row};
use records::Reading;
use std::io;
use std::io::Write;

// The numbers of a table of one row and four lines.
const NUMBERS: usize = Header::SIZE + Row::SIZE + 4 * Line::SIZE;

// A table of one row whose position starts at 21, with up to four lines: f is its decimals, point, subfields and their width; range is
// whether it has one, and its ends; lines are how many and what they say.
fn table(
    kind: i64,
    finish: i64,
    w: i64,
    f: [i64; 4],
    range: [i64; 3],
    lines: [i64; 5],
) -> [i64; NUMBERS] {
    let lines_at = Row::base(1);
    let head = [
        cells::cell_of(Header::MARK),
        1,
        lines[0],
        finish,
        cells::cell_of(Header::SIZE),
        cells::cell_of(lines_at),
    ];
    let ends = [1, kind, 21, finish, w, f[0], f[1], f[2], f[3]];
    let rest = [range[0], range[1], range[2], 0, lines[0]];
    let mut t = [0i64; NUMBERS];
    cells::paste(&mut t, 0, &head);
    cells::paste(&mut t, Row::base(0), &ends);
    cells::paste(&mut t, Row::base(0) + Row::RANGE, &rest);
    t[lines_at] = lines[1];
    t[lines_at + Line::SIZE] = lines[2];
    t[lines_at + 2 * Line::SIZE] = lines[3];
    t[lines_at + 3 * Line::SIZE] = lines[4];
    t
}

// A record with the data from byte 21 on.
fn record_of(data: &[u8]) -> [u8; 40] {
    let mut r = [120u8; 40];
    for (place, b) in r[20..].iter_mut().zip(data) {
        *place = *b;
    }
    r
}

fn say(rt: &impl Print, label: &[u8], same: bool) -> io::Result<()> {
    io::writer(rt).write_all(label)?;
    if same {
        io::writer(rt).write_all(b": as the document\n")?;
    } else {
        io::writer(rt).write_all(b": DIFFERS\n")?;
    }
    Ok(())
}

fn number(
    rt: &impl Print,
    label: &[u8],
    t: &[i64; NUMBERS],
    data: &[u8],
    want: i64,
) -> io::Result<()> {
    let r = record_of(data);
    let mut list = [0i64; 4];
    match records::read_value(t, 0, &r, &mut list) {
        Reading::Number(z) => say(rt, label, z == want)?,
        _ => say(rt, label, false)?,
    }
    Ok(())
}

fn missing(rt: &impl Print, label: &[u8], t: &[i64; NUMBERS], data: &[u8]) -> io::Result<()> {
    let r = record_of(data);
    let mut list = [0i64; 4];
    match records::read_value(t, 0, &r, &mut list) {
        Reading::Missing => say(rt, label, true)?,
        _ => say(rt, label, false)?,
    }
    Ok(())
}

// A position too narrow for its values: no record is read by such a table.
fn refused(rt: &impl Print, label: &[u8], t: &[i64; NUMBERS], data: &[u8]) -> io::Result<()> {
    let r = record_of(data);
    let mut list = [0i64; 4];
    match records::read_value(t, 0, &r, &mut list) {
        Reading::BadTable => say(rt, label, true)?,
        _ => say(rt, label, false)?,
    }
    Ok(())
}

// A fault, by its number and its place, or the number that is not legal.
fn fault_is(x: Fault, number: u64, beside: i64) -> bool {
    match x {
        Fault::Sound => false,
        Fault::Stray(p) => (number == 241) & (p == cells::count_of(beside)),
        Fault::NotLegal(z) => (number == 242) & cells::same(z, beside),
        Fault::Point(p) => (number == 243) & (p == cells::count_of(beside)),
    }
}

fn fault(
    rt: &impl Print,
    label: &[u8],
    t: &[i64; NUMBERS],
    data: &[u8],
    number: u64,
    beside: i64,
) -> io::Result<()> {
    let r = record_of(data);
    let mut list = [0i64; 4];
    match records::read_value(t, 0, &r, &mut list) {
        Reading::Faulty(x) => say(rt, label, fault_is(x, number, beside))?,
        _ => say(rt, label, false)?,
    }
    Ok(())
}

// The members, of which there are n, and 0 behind them.
fn members(
    rt: &impl Print,
    label: &[u8],
    t: &[i64; NUMBERS],
    data: &[u8],
    n: usize,
    want: [i64; 2],
) -> io::Result<()> {
    let r = record_of(data);
    let mut list = [0i64; 4];
    match records::read_value(t, 0, &r, &mut list) {
        Reading::Set(k) => {
            let a = list[0];
            let b = list[1];
            say(rt, label, (k == n) & (a == want[0]) & (b == want[1]))?
        }
        _ => say(rt, label, false)?,
    }
    Ok(())
}

fn singles(rt: &impl Print) -> io::Result<()> {
    let to9 = [1, 1, 9];
    let to20 = [1, 1, 20];
    let none = [0i64; 4];
    let no_lines = [0i64; 5];
    number(
        rt,
        b"single 7 of 9, 21 to 21, 7",
        &table(1, 21, 1, none, to9, no_lines),
        b"7",
        7,
    )?;
    number(
        rt,
        b"single 7 of 9, 21 to 22, x7",
        &table(1, 22, 1, none, to9, no_lines),
        b"x7",
        7,
    )?;
    number(
        rt,
        b"single 7 of 20, 21 to 22, 07",
        &table(1, 22, 2, none, to20, no_lines),
        b"07",
        7,
    )?;
    number(
        rt,
        b"single 7 of 20, 21 to 22, b7",
        &table(1, 22, 2, none, to20, no_lines),
        b" 7",
        7,
    )?;
    refused(
        rt,
        b"single 7 of 20, 21, illegal",
        &table(1, 21, 2, none, to20, no_lines),
        b"7",
    )?;
    Ok(())
}

fn wide_singles(rt: &impl Print) -> io::Result<()> {
    let to20 = [1, 1, 20];
    let none = [0i64; 4];
    let no_lines = [0i64; 5];
    number(
        rt,
        b"single 7 of 20, 21 to 24, xx07",
        &table(1, 24, 2, none, to20, no_lines),
        b"xx07",
        7,
    )?;
    number(
        rt,
        b"single 7 of 20, 21 to 24, xxb7",
        &table(1, 24, 2, none, to20, no_lines),
        b"xx 7",
        7,
    )?;
    number(
        rt,
        b"single 17 of 20, 21 to 22, 17",
        &table(1, 22, 2, none, to20, no_lines),
        b"17",
        17,
    )?;
    number(
        rt,
        b"single 17 of 20, 21 to 24, xx17",
        &table(1, 24, 2, none, to20, no_lines),
        b"xx17",
        17,
    )?;
    Ok(())
}

fn large_singles(rt: &impl Print) -> io::Result<()> {
    let t = table(1, 24, 4, [0i64; 4], [1, 1, 9999], [0i64; 5]);
    number(rt, b"single 142 of 9999, 21 to 24, 0142", &t, b"0142", 142)?;
    number(rt, b"single 142 of 9999, 21 to 24, b142", &t, b" 142", 142)?;
    missing(rt, b"single missing of 9999, 21 to 24, bbbb", &t, b"    ")?;
    Ok(())
}

fn bitstrings(rt: &impl Print) -> io::Result<()> {
    let none = [0i64; 4];
    let nine = table(2, 29, 9, none, [1, 1, 9], [0i64; 5]);
    let wide = table(2, 30, 9, none, [1, 1, 9], [0i64; 5]);
    let four = table(2, 29, 9, none, [0i64; 3], [4, 1, 2, 3, 9]);
    members(
        rt,
        b"bits 1 of 1 to 9, 100000000",
        &nine,
        b"100000000",
        1,
        [1, 0],
    )?;
    members(
        rt,
        b"bits 1 of 1, 2, 3 and 9, 100xxxxx0",
        &four,
        b"100xxxxx0",
        1,
        [1, 0],
    )?;
    members(
        rt,
        b"bits 1, 3 of 1 to 9, 101000000",
        &nine,
        b"101000000",
        2,
        [1, 3],
    )?;
    members(
        rt,
        b"bits none of 1 to 9, 000000000",
        &nine,
        b"000000000",
        0,
        [0, 0],
    )?;
    members(
        rt,
        b"bits 2, 8 of 1 to 9, 21 to 30, 010000010x",
        &wide,
        b"010000010x",
        2,
        [2, 8],
    )?;
    Ok(())
}

fn more_bitstrings(rt: &impl Print) -> io::Result<()> {
    let none = [0i64; 4];
    let nine = table(2, 29, 9, none, [1, 1, 9], [0i64; 5]);
    let four = table(2, 29, 9, none, [0i64; 3], [4, 1, 2, 3, 9]);
    let narrow = table(2, 24, 9, none, [0i64; 3], [4, 1, 2, 3, 9]);
    refused(
        rt,
        b"bits 2 of 1, 2, 3 and 9, 21 to 24, illegal",
        &narrow,
        b"010x",
    )?;
    missing(
        rt,
        b"bits missing of 1 to 9, bbbbbbbbb",
        &nine,
        b"         ",
    )?;
    missing(
        rt,
        b"bits missing of 1, 2, 3 and 9, bbbxxxxxb",
        &four,
        b"   xxxxx ",
    )?;
    Ok(())
}

fn spreads(rt: &impl Print) -> io::Result<()> {
    let of1 = [0, 0, 2, 1];
    let nine = table(2, 22, 1, of1, [1, 1, 9], [0i64; 5]);
    let four = table(2, 22, 1, of1, [0i64; 3], [4, 1, 2, 3, 9]);
    members(
        rt,
        b"spread 1 of 1 to 9, 2 of 1, 10",
        &nine,
        b"10",
        1,
        [1, 0],
    )?;
    members(
        rt,
        b"spread 1 of 1 to 9, 2 of 1, 01",
        &nine,
        b"01",
        1,
        [1, 0],
    )?;
    members(
        rt,
        b"spread 1 of 1, 2, 3 and 9, 2 of 1, 10",
        &four,
        b"10",
        1,
        [1, 0],
    )?;
    members(
        rt,
        b"spread 1 of 1, 2, 3 and 9, 2 of 1, 01",
        &four,
        b"01",
        1,
        [1, 0],
    )?;
    members(
        rt,
        b"spread 1, 3 of 1 to 9, 2 of 1, 13",
        &nine,
        b"13",
        2,
        [1, 3],
    )?;
    members(
        rt,
        b"spread none of 1 to 9, 2 of 1, 00",
        &nine,
        b"00",
        0,
        [0, 0],
    )?;
    Ok(())
}

fn wide_spreads(rt: &impl Print) -> io::Result<()> {
    let two = table(2, 24, 1, [0, 0, 2, 2], [1, 1, 9], [0i64; 5]);
    let four = table(2, 24, 1, [0, 0, 2, 1], [0i64; 3], [4, 1, 2, 3, 9]);
    members(
        rt,
        b"spread 1 of 1 to 9, 2 of 2, x1x0",
        &two,
        b"x1x0",
        1,
        [1, 0],
    )?;
    members(
        rt,
        b"spread 1 of 1 to 9, 2 of 2, x0x1",
        &two,
        b"x0x1",
        1,
        [1, 0],
    )?;
    members(
        rt,
        b"spread 2 of 1, 2, 3 and 9, 2 of 1, 21 to 24, 20xx",
        &four,
        b"20xx",
        1,
        [2, 0],
    )?;
    members(
        rt,
        b"spread 2 of 1, 2, 3 and 9, 2 of 1, 21 to 24, 02xx",
        &four,
        b"02xx",
        1,
        [2, 0],
    )?;
    Ok(())
}

fn large_spreads(rt: &impl Print) -> io::Result<()> {
    let large = table(2, 26, 3, [0, 0, 2, 3], [1, 1, 999], [0i64; 5]);
    members(
        rt,
        b"spread 1, 42 of 1 to 999, 2 of 3, 001042",
        &large,
        b"001042",
        2,
        [1, 42],
    )?;
    missing(
        rt,
        b"spread missing of 1 to 999, 2 of 3, bbbbbb",
        &large,
        b"      ",
    )?;
    Ok(())
}

fn quantities(rt: &impl Print) -> io::Result<()> {
    let whole = [0i64; 4];
    let no_lines = [0i64; 5];
    let plain = table(3, 22, 2, whole, [1, 0, 99], no_lines);
    let cents = table(3, 25, 5, [2, 1, 0, 0], [1, 0, 9999], no_lines);
    let signed = table(3, 23, 3, whole, [1, -99, 99], no_lines);
    number(rt, b"quantity 7 of 0 to 99, b7", &plain, b" 7", 7)?;
    number(rt, b"quantity 7 of 0 to 99, 07", &plain, b"07", 7)?;
    number(
        rt,
        b"quantity 7.00 of 0.00 to 99.99, b7.00",
        &cents,
        b" 7.00",
        700,
    )?;
    number(
        rt,
        b"quantity 7.00 of 0.00 to 99.99, 07.00",
        &cents,
        b"07.00",
        700,
    )?;
    number(rt, b"quantity -7 of -99 to 99, b-7", &signed, b" -7", -7)?;
    number(rt, b"quantity -7 of -99 to 99, -07", &signed, b"-07", -7)?;
    Ok(())
}

fn more_quantities(rt: &impl Print) -> io::Result<()> {
    let whole = [0i64; 4];
    let no_lines = [0i64; 5];
    let minus_one = table(3, 22, 2, whole, [1, -1, 99], no_lines);
    let wide = table(3, 23, 2, whole, [1, -1, 99], no_lines);
    let cents = table(3, 26, 5, [2, 1, 0, 0], [1, -100, 9999], no_lines);
    number(
        rt,
        b"quantity 7 of -1 to 99, 21 to 22, b7",
        &minus_one,
        b" 7",
        7,
    )?;
    number(
        rt,
        b"quantity 7 of -1 to 99, 21 to 22, 07",
        &minus_one,
        b"07",
        7,
    )?;
    number(
        rt,
        b"quantity 7 of -1 to 99, 21 to 23, xb7",
        &wide,
        b"x 7",
        7,
    )?;
    number(
        rt,
        b"quantity 7 of -1 to 99, 21 to 23, x07",
        &wide,
        b"x07",
        7,
    )?;
    number(
        rt,
        b"quantity -1.00 of -1.00 to 99.99, 21 to 26, x-1.00",
        &cents,
        b"x-1.00",
        -100,
    )?;
    Ok(())
}

fn other_quantities(rt: &impl Print) -> io::Result<()> {
    let whole = [0i64; 4];
    let no_lines = [0i64; 5];
    refused(
        rt,
        b"quantity 17 of 0 to 999, 21 to 22, illegal",
        &table(3, 22, 3, whole, [1, 0, 999], no_lines),
        b"17",
    )?;
    number(
        rt,
        b"quantity 99 of 0 to 50 and 99, 21 to 22, 99",
        &table(3, 22, 2, whole, [1, 0, 50], [1, 99, 0, 0, 0]),
        b"99",
        99,
    )?;
    missing(
        rt,
        b"quantity missing of 0 to 999, 21 to 23, bbb",
        &table(3, 23, 3, whole, [1, 0, 999], no_lines),
        b"   ",
    )?;
    Ok(())
}

fn others(rt: &impl Print) -> io::Result<()> {
    let text = table(4, 30, 10, [0i64; 4], [0i64; 3], [0i64; 5]);
    let truth = table(5, 21, 1, [0i64; 4], [0i64; 3], [0i64; 5]);
    let r = record_of(b"CHARACTER ");
    let one = record_of(b"1");
    let mut list = [0i64; 4];
    match records::read_value(&text, 0, &r, &mut list) {
        Reading::Text(p, n) => say(rt, b"character CHARACTER of size 10", (p == 20) & (n == 9))?,
        _ => say(rt, b"character CHARACTER of size 10", false)?,
    }
    match records::read_value(&truth, 0, &one, &mut list) {
        Reading::Truth(b) => say(rt, b"logical true, 1", b)?,
        _ => say(rt, b"logical true, 1", false)?,
    }
    Ok(())
}

fn single_faults(rt: &impl Print) -> io::Result<()> {
    let none = [0i64; 4];
    let no_lines = [0i64; 5];
    let t = table(1, 22, 2, none, [1, 1, 20], no_lines);
    fault(rt, b"241 at 21, single of 20, 7b", &t, b"7 ", 241, 21)?;
    fault(rt, b"241 at 20, single of 20, -7", &t, b"-7", 241, 20)?;
    fault(rt, b"241 at 20, single of 20, .7", &t, b".7", 241, 20)?;
    fault(rt, b"242 of 21, single of 20, 21", &t, b"21", 242, 21)?;
    Ok(())
}

fn set_faults(rt: &impl Print) -> io::Result<()> {
    let none = [0i64; 4];
    let bits = table(2, 29, 9, none, [0i64; 3], [4, 1, 2, 3, 9]);
    let spread = table(2, 24, 2, [0, 0, 2, 2], [1, 1, 40], [0i64; 5]);
    fault(
        rt,
        b"241 at 20, bits of 1, 2, 3 and 9, b10xxxxx0",
        &bits,
        b" 10xxxxx0",
        241,
        20,
    )?;
    fault(
        rt,
        b"241 at 28, bits of 1, 2, 3 and 9, 010xxxxx2",
        &bits,
        b"010xxxxx2",
        241,
        28,
    )?;
    fault(
        rt,
        b"241 at 22, spread 2 of 40, 99x1",
        &spread,
        b"99x1",
        241,
        22,
    )?;
    fault(
        rt,
        b"242 of 99, spread 2 of 40, 9941",
        &spread,
        b"9941",
        242,
        99,
    )?;
    fault(
        rt,
        b"242 of 41, spread 2 of 40, 0041",
        &spread,
        b"0041",
        242,
        41,
    )?;
    Ok(())
}

fn quantity_faults(rt: &impl Print) -> io::Result<()> {
    let no_lines = [0i64; 5];
    let one = table(3, 24, 4, [1, 1, 0, 0], [1, 0, 500], no_lines);
    let two = table(3, 25, 5, [2, 1, 0, 0], [1, 0, 9999], no_lines);
    let whole = table(3, 23, 3, [0i64; 4], [1, 0, 500], no_lines);
    fault(
        rt,
        b"241 at 21, quantity of 50.0, bb.5",
        &one,
        b"  .5",
        241,
        21,
    )?;
    fault(
        rt,
        b"243 at 22, quantity of 50.0, 0115",
        &one,
        b"0115",
        243,
        22,
    )?;
    fault(
        rt,
        b"243 at 21, quantity of 50.0, 1.15",
        &one,
        b"1.15",
        243,
        21,
    )?;
    fault(
        rt,
        b"242 of 501, quantity of 50.0, 50.1",
        &one,
        b"50.1",
        242,
        501,
    )?;
    fault(
        rt,
        b"242 of -1, quantity of 50.0, -0.1",
        &one,
        b"-0.1",
        242,
        -1,
    )?;
    fault(
        rt,
        b"241 at 21, quantity of 99.99, bb750",
        &two,
        b"  750",
        241,
        21,
    )?;
    fault(
        rt,
        b"243 at 21, quantity of 500, 1.5",
        &whole,
        b"1.5",
        243,
        21,
    )?;
    fault(
        rt,
        b"241 at 21, quantity of 500, -b5",
        &whole,
        b"- 5",
        241,
        21,
    )?;
    fault(
        rt,
        b"241 at 20, quantity of 500, +15",
        &whole,
        b"+15",
        241,
        20,
    )?;
    Ok(())
}

fn other_faults(rt: &impl Print) -> io::Result<()> {
    let text = table(4, 30, 10, [0i64; 4], [0i64; 3], [0i64; 5]);
    let truth = table(5, 21, 1, [0i64; 4], [0i64; 3], [0i64; 5]);
    fault(
        rt,
        b"241 at 23, character of size 10, a line feed",
        &text,
        b"CHA\nACTER ",
        241,
        23,
    )?;
    fault(rt, b"241 at 20, logical, 2", &truth, b"2", 241, 20)?;
    fault(rt, b"241 at 20, logical, a point", &truth, b".", 241, 20)?;
    Ok(())
}

fn main(rt: HostRuntime) -> io::Result<()> {
    singles(&rt)?;
    wide_singles(&rt)?;
    large_singles(&rt)?;
    bitstrings(&rt)?;
    more_bitstrings(&rt)?;
    spreads(&rt)?;
    wide_spreads(&rt)?;
    large_spreads(&rt)?;
    quantities(&rt)?;
    more_quantities(&rt)?;
    other_quantities(&rt)?;
    others(&rt)?;
    single_faults(&rt)?;
    set_faults(&rt)?;
    quantity_faults(&rt)?;
    other_faults(&rt)?;
    Ok(())
}
