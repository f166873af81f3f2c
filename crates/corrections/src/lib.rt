// One correction of a list: what it asks, the number that marks it, and its single write by a table that was tested before.
// Above it stands the face, whose loop hands the corrections of a lent list to `correct`, one by one.
#![tactic(auto)]

ghost use Rattle.std.specs.Prelude.{◌≡◌, cond, [], leb, length};
ghost use Rattle.sound.specs.rule.Rows.{rows_of};
ghost use Rattle.writes.specs.rule.Write.{lent_value};
ghost use Rattle.writes.specs.rule.Public.{write_number, Written};
ghost use Rattle.writes.specs.declared.Value.TheVariants as given;
ghost use Rattle.corrections.specs.rule.Truth.{bad_truth};
ghost use Rattle.corrections.specs.rule.Correction.{truth_asked, asked_of, mark_by, record_by, corrected, corrected_by, whole_refusal};
ghost use Rattle.corrections.specs.Truth.{kind_number};
ghost use Rattle.corrections.specs.Correction.{Means, turns_of};

use layout::{Header, Kind, Row};
use writes::{Value, Wrote};

// A value, as a caller lends it: its kind as it is read, 0 missing, 1 a number, 4 a truth; and the number or the truth.
#[repr(C)]
#[derive(Clone, Copy)]
pub struct Given {
    pub kind: u64,
    pub number: i64,
}

// A correction, as a caller lends it. What the mark held before is not looked at.
#[repr(C)]
#[derive(Clone, Copy)]
pub struct Correction {
    pub row: u64,
    pub value: Given,
    pub mark: u64,
}

// What a correction asks: a value to be written, or what no row takes.
#[derive(Clone, Copy)]
pub enum Request {
    Write(Value),
    OtherTruth,
    OtherKind,
}

// The number of a write's answer.
pub fn number_of(w: Wrote) -> u64
    ensures { result ≡ write_number w }
{
    match w {
        Wrote::Done => 0,
        Wrote::NotWellFormed => 20,
        Wrote::NoRow => 21,
        Wrote::TooShort => 22,
        Wrote::OtherType => 26,
        Wrote::NotLegal => 27,
        Wrote::TooMany => 28,
    }
}

// The number for what is no truth, by the row's kind.
pub fn kind_number(k: Kind) -> u64
    ensures { result ≡ kind_number k }
{
    match k {
        Kind::Single => 26,
        Kind::Multiple(_) => 26,
        Kind::Quantity(_) => 26,
        Kind::Character => 26,
        Kind::Logical => 27,
    }
}

// 20 or 22, which turns a whole list away from a record of n bytes; else 0.
pub fn admit(table: &[i64], n: usize) -> u64
    ensures { result ≡ whole_refusal table.now n }
{
    if !sound::well_formed(table) {
        return 20;
    }
    let h = Header::read(table);
    if n < h.length {
        return 22;
    }
    0
}

// How many corrections of a list are taken.
pub fn turns(answer: u64, count: usize) -> usize
    ensures { result ≡ turns_of answer count }
{
    if answer == 0 {
        return count;
    }
    0
}

// THE INNER WRITE: the single write of one row's value, with its own promise, by a table and into a record that were admitted.
pub fn write_admitted(
    table: &[i64],
    row: usize,
    value: Value,
    list: &[i64],
    text: &[u8],
    bytes: &mut [u8],
) -> u64
    requires { whole_refusal table.now (length bytes.old) ≡ 0 }
    ensures { Written table.now row (lent_value value list.now text.now) bytes.old
        bytes.new result }
{
    let h = Header::read(table);
    let rows = h.rows;
    if rows <= row {
        return 21;
    }
    let powers = ascii::powers();
    number_of(writes::write_row(
        &powers,
        table,
        rows,
        Row::read(table, row),
        value,
        list,
        text,
        bytes,
    ))
}

// The number for what is no truth.
fn other_truth(table: &[i64], i: usize, n: usize) -> u64
    requires { whole_refusal table.now n ≡ 0 }
    ensures { result ≡ bad_truth table.now i n }
{
    let h = Header::read(table);
    if h.rows <= i {
        return 21;
    }
    let row = Row::read(table, i);
    let kind = row.kind;
    kind_number(kind)
}

// The number for a kind that no correction has.
fn other_kind(table: &[i64], i: usize) -> u64
    ensures { result ≡ cond (leb (rows_of table.now) i) 21 26 }
{
    let h = Header::read(table);
    if h.rows <= i {
        return 21;
    }
    26
}

// A truth is 0 or 1, and no other number.
fn truth_asked(number: i64) -> Request
    ensures { Means result (truth_asked number) }
{
    if cells::same(number, 0) {
        return Request::Write(Value::Truth(false));
    }
    if cells::same(number, 1) {
        return Request::Write(Value::Truth(true));
    }
    Request::OtherTruth
}

// What a value that was given asks.
fn asked_of(g: Given) -> Request
    ensures { Means result (asked_of g) }
{
    let kind = g.kind;
    let number = g.number;
    if kind == 0 {
        return Request::Write(Value::Missing);
    }
    if kind == 1 {
        return Request::Write(Value::Number(number));
    }
    if kind == 4 {
        return truth_asked(number);
    }
    Request::OtherKind
}

// THE SINGLE WRITES OF A LIST, a function for each kind: of the row only what that kind asks for is read, and powers are laid out only
// for what has digits. A missing value:
fn blank_given(table: &[i64], i: usize, bytes: &mut [u8]) -> u64
    requires { whole_refusal table.now (length bytes.old) ≡ 0 }
    ensures { Written table.now i (lent_value given.Missing [] []) bytes.old bytes.new result }
{
    let h = Header::read(table);
    let rows = h.rows;
    if rows <= i {
        return 21;
    }
    let row = Row::read(table, i);
    number_of(writes::plain::blank_row(table, rows, row, bytes))
}

// A number.
fn number_given(table: &[i64], i: usize, z: i64, bytes: &mut [u8]) -> u64
    requires { whole_refusal table.now (length bytes.old) ≡ 0 }
    ensures { Written table.now i (lent_value (given.Number z) [] []) bytes.old bytes.new result }
{
    let h = Header::read(table);
    let rows = h.rows;
    if rows <= i {
        return 21;
    }
    let row = Row::read(table, i);
    let powers = ascii::powers();
    number_of(writes::plain::write_number(&powers, table, rows, row, z, bytes))
}

// A truth.
fn truth_given(table: &[i64], i: usize, b: bool, bytes: &mut [u8]) -> u64
    requires { whole_refusal table.now (length bytes.old) ≡ 0 }
    ensures { Written table.now i (lent_value (given.Truth b) [] []) bytes.old bytes.new result }
{
    let h = Header::read(table);
    let rows = h.rows;
    if rows <= i {
        return 21;
    }
    let row = Row::read(table, i);
    number_of(writes::plain::write_truth(table, rows, row, b, bytes))
}

// The single write of a value, by its kind.
fn write_asked(table: &[i64], row: usize, value: Value, text: &[u8], bytes: &mut [u8]) -> u64
    requires { whole_refusal table.now (length bytes.old) ≡ 0 }
    ensures { Written table.now row (lent_value value table.now text.now) bytes.old
        bytes.new result }
{
    match value {
        Value::Missing => blank_given(table, row, bytes),
        Value::Number(z) => number_given(table, row, z, bytes),
        Value::Truth(b) => truth_given(table, row, b, bytes),
        Value::Set => write_admitted(table, row, Value::Set, table, text, bytes),
        Value::Text => write_admitted(table, row, Value::Text, table, text, bytes),
    }
}

// The single write of what was given: its mark, and the record. A list or a text is not looked at.
fn write_given(table: &[i64], row: usize, g: Given, bytes: &mut [u8]) -> u64
    requires { whole_refusal table.now (length bytes.old) ≡ 0 }
    ensures { (result ≡ mark_by table.now row (length bytes.old) (asked_of g))
        × (bytes.new ≡ record_by table.now row (asked_of g) bytes.old) }
{
    let asked = asked_of(g);
    match asked {
        Request::Write(v) => {
            let text = [0u8; 1];
            write_asked(table, row, v, &text, bytes)
        }
        Request::OtherTruth => other_truth(table, row, bytes.len()),
        Request::OtherKind => other_kind(table, row),
    }
}

// One correction: its single write, and the correction with its mark.
pub fn correct(table: &[i64], bytes: &mut [u8], c: Correction) -> Correction
    requires { whole_refusal table.now (length bytes.old) ≡ 0 }
    ensures { (result ≡ corrected table.now bytes.old c)
        × (bytes.new ≡ corrected_by table.now bytes.old c) }
{
    let row = c.row;
    let v = c.value;
    let m = write_given(table, row as usize, v, bytes);
    let mut d = c;
    d.mark = m;
    d
}
