// Writes a value of each kind into a record of filler, prints the answer and the record after each, and reads each value back. Then
// every refusal, after which the record is as it was.
#![tactic(auto)]

use faults::Fault;
use records::Reading;
use std::io;
use std::io::Write;
use writes::{Value, Wrote};

// SINGLE 1 to 20 in three bytes; the bitstring 1, 2, 3, 9 in ten; a spread of 2 of 3 with 1 to 42; QUANTITY -1.00 to 99.99 in seven;
// CHARACTER of 4 in six; LOGICAL in two.
const TABLE: [i64; 142] = [
    11, 6, 4, 34, 6, 126, //
    1, 1, 1, 3, 2, 0, 0, 0, 0, 1, 1, 20, 0, 0, 0, 0, 0, 0, 0, 0, //
    2, 2, 4, 13, 9, 0, 0, 0, 0, 0, 0, 0, 0, 4, 0, 0, 0, 0, 0, 0, //
    3, 2, 14, 19, 2, 0, 0, 2, 3, 1, 1, 42, 4, 0, 0, 0, 0, 0, 0, 0, //
    4, 3, 20, 26, 5, 2, 1, 0, 0, 1, -100, 9999, 4, 0, 0, 0, 0, 0, 0, 0, //
    5, 4, 27, 32, 4, 0, 0, 0, 0, 0, 0, 0, 4, 0, 0, 0, 0, 0, 0, 0, //
    6, 5, 33, 34, 1, 0, 0, 0, 0, 0, 0, 0, 4, 0, 0, 0, 0, 0, 0, 0, //
    1, 0, 0, 0, //
    2, 0, 0, 0, //
    3, 0, 0, 0, //
    9, 0, 0, 0,
];

fn number(w: Wrote) -> [u8; 3] {
    match w {
        Wrote::Done => [b'o', b'k', b' '],
        Wrote::NotWellFormed => [b'2', b'0', b' '],
        Wrote::NoRow => [b'2', b'1', b' '],
        Wrote::TooShort => [b'2', b'2', b' '],
        Wrote::OtherType => [b'2', b'6', b' '],
        Wrote::NotLegal => [b'2', b'7', b' '],
        Wrote::TooMany => [b'2', b'8', b' '],
    }
}

fn say(rt: &impl Print, s: &[u8]) -> io::Result<()> {
    io::writer(rt).write_all(s)
}

fn newline(rt: &impl Print) -> io::Result<()> {
    say(rt, b"\n")?;
    Ok(())
}

// One write, its answer and the record after it.
fn put(
    rt: &impl Print,
    row: usize,
    value: Value,
    list: &[i64],
    text: &[u8],
    record: &mut [u8],
) -> io::Result<()> {
    let table = TABLE;
    let answer = number(writes::write_value(&table, row, value, list, text, record));
    say(rt, &answer)?;
    say(rt, record)?;
    newline(rt)?;
    Ok(())
}

fn sign(minus: bool) -> u8 {
    if minus { b'-' } else { b' ' }
}

// The last four digits of a number.
fn show(rt: &impl Print, z: i64) -> io::Result<()> {
    let s = cells::signed_of(z);
    let n = s.size;
    let line = [
        sign(s.minus),
        48 + (n / 1000 % 10) as u8,
        48 + (n / 100 % 10) as u8,
        48 + (n / 10 % 10) as u8,
        48 + (n % 10) as u8,
    ];
    say(rt, &line)?;
    Ok(())
}

fn show_member(rt: &impl Print, list: &[i64], count: usize, j: usize) -> io::Result<()> {
    if j < list.len() {
        if j < count {
            show(rt, list[j])?;
        }
    }
    Ok(())
}

fn show_text(rt: &impl Print, record: &[u8], place: usize, length: usize) -> io::Result<()> {
    if place <= record.len() {
        if length <= record.len() - place {
            let end = place + length;
            say(rt, &record[place..end])?;
        }
    }
    Ok(())
}

fn say_fault(rt: &impl Print, x: Fault) -> io::Result<()> {
    match x {
        Fault::Sound => say(rt, b"0")?,
        Fault::Stray(_) => say(rt, b"241")?,
        Fault::NotLegal(_) => say(rt, b"242")?,
        Fault::Point(_) => say(rt, b"243")?,
    }
    Ok(())
}

// One row read, and what it holds.
fn get(rt: &impl Print, row: usize, record: &[u8]) -> io::Result<()> {
    let table = TABLE;
    let mut list = [0; 4];
    match records::read_value(&table, row, record, &mut list) {
        Reading::Missing => say(rt, b"M")?,
        Reading::Number(z) => {
            say(rt, b"N")?;
            show(rt, z)?;
        }
        Reading::Set(n) => {
            say(rt, b"S")?;
            show_member(rt, &list, n, 0)?;
            show_member(rt, &list, n, 1)?;
            show_member(rt, &list, n, 2)?;
            show_member(rt, &list, n, 3)?;
        }
        Reading::Text(p, n) => {
            say(rt, b"T ")?;
            show_text(rt, record, p, n)?;
        }
        Reading::Truth(b) => {
            if b {
                say(rt, b"L 1")?;
            } else {
                say(rt, b"L 0")?;
            }
        }
        Reading::BadTable => say(rt, b"20")?,
        Reading::NoRow => say(rt, b"21")?,
        Reading::ShortRecord => say(rt, b"22")?,
        Reading::ShortList => say(rt, b"25")?,
        Reading::Faulty(x) => say_fault(rt, x)?,
    }
    newline(rt)?;
    Ok(())
}

fn get_all(rt: &impl Print, record: &[u8]) -> io::Result<()> {
    get(rt, 0, record)?;
    get(rt, 1, record)?;
    get(rt, 2, record)?;
    get(rt, 3, record)?;
    get(rt, 4, record)?;
    get(rt, 5, record)?;
    Ok(())
}

fn codes(rt: &impl Print, record: &mut [u8]) -> io::Result<()> {
    let none: [i64; 0] = [];
    put(rt, 0, Value::Number(7), &none, b"", record)?;
    put(rt, 1, Value::Set, &[1, 9], b"", record)?;
    put(rt, 2, Value::Set, &[5], b"", record)?;
    Ok(())
}

fn others(rt: &impl Print, record: &mut [u8]) -> io::Result<()> {
    let none: [i64; 0] = [];
    put(rt, 3, Value::Number(-7), &none, b"", record)?;
    put(rt, 4, Value::Text, &none, b" ab", record)?;
    put(rt, 5, Value::Truth(true), &none, b"", record)?;
    get_all(rt, record)?;
    Ok(())
}

fn again(rt: &impl Print, record: &mut [u8]) -> io::Result<()> {
    let none: [i64; 0] = [];
    put(rt, 3, Value::Number(1250), &none, b"", record)?;
    put(rt, 1, Value::Set, &none, b"", record)?;
    put(rt, 2, Value::Set, &[9, 42], b"", record)?;
    get_all(rt, record)?;
    Ok(())
}

fn refused_codes(rt: &impl Print, record: &mut [u8]) -> io::Result<()> {
    let none: [i64; 0] = [];
    put(rt, 6, Value::Missing, &none, b"", record)?;
    put(rt, 0, Value::Truth(true), &none, b"", record)?;
    put(rt, 0, Value::Number(0), &none, b"", record)?;
    put(rt, 0, Value::Number(21), &none, b"", record)?;
    Ok(())
}

fn refused_sets(rt: &impl Print, record: &mut [u8]) -> io::Result<()> {
    put(rt, 1, Value::Set, &[1, 4], b"", record)?;
    put(rt, 1, Value::Set, &[2, 1], b"", record)?;
    put(rt, 2, Value::Set, &[1, 2, 3], b"", record)?;
    put(rt, 2, Value::Set, &[1, 2, 43], b"", record)?;
    Ok(())
}

fn refused_texts(rt: &impl Print, record: &mut [u8]) -> io::Result<()> {
    let none: [i64; 0] = [];
    put(rt, 4, Value::Text, &none, b"", record)?;
    put(rt, 4, Value::Text, &none, b"ab ", record)?;
    put(rt, 4, Value::Text, &none, b"abcde", record)?;
    Ok(())
}

fn refused_others(rt: &impl Print, record: &mut [u8]) -> io::Result<()> {
    let none: [i64; 0] = [];
    put(rt, 3, Value::Number(-101), &none, b"", record)?;
    put(rt, 5, Value::Number(1), &none, b"", record)?;
    Ok(())
}

fn missing_codes(rt: &impl Print, record: &mut [u8]) -> io::Result<()> {
    let none: [i64; 0] = [];
    put(rt, 0, Value::Missing, &none, b"", record)?;
    put(rt, 1, Value::Missing, &none, b"", record)?;
    put(rt, 2, Value::Missing, &none, b"", record)?;
    Ok(())
}

fn missing_others(rt: &impl Print, record: &mut [u8]) -> io::Result<()> {
    let none: [i64; 0] = [];
    put(rt, 3, Value::Missing, &none, b"", record)?;
    put(rt, 4, Value::Missing, &none, b"", record)?;
    put(rt, 5, Value::Missing, &none, b"", record)?;
    get_all(rt, record)?;
    Ok(())
}

fn refusals(rt: &impl Print, record: &mut [u8]) -> io::Result<()> {
    refused_codes(rt, record)?;
    refused_sets(rt, record)?;
    refused_texts(rt, record)?;
    refused_others(rt, record)?;
    Ok(())
}

fn values(rt: &impl Print, record: &mut [u8]) -> io::Result<()> {
    codes(rt, record)?;
    others(rt, record)?;
    again(rt, record)?;
    Ok(())
}

fn run(rt: &impl Print, record: &mut [u8]) -> io::Result<()> {
    values(rt, record)?;
    refusals(rt, record)?;
    missing_codes(rt, record)?;
    missing_others(rt, record)?;
    Ok(())
}

fn main(rt: HostRuntime) -> io::Result<()> {
    let mut record = [b'x'; 34];
    run(&rt, &mut record)?;
    let none: [i64; 0] = [];
    let mut short = [b'x'; 33];
    put(&rt, 5, Value::Truth(false), &none, b"", &mut short)?;
    Ok(())
}
