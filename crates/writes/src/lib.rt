// One row's value written into a record: which values fit a row of each kind, and the bytes that they give at its value places.
// Above it stand the face for C and Rust, and the lists of corrections.
#![tactic(auto)]

ghost use Rattle.std.specs.Prelude.{length};
ghost use Rattle.ascii.specs.rule.Tens.{Tens};
ghost use Rattle.writes.specs.Write.{WrittenBy, Ready};
ghost use Rattle.writes.specs.rule.Write.{lent_value};
ghost use Rattle.writes.specs.rule.Public.{write_number, Written};

use layout::{Header, Row};

pub mod marked;
pub mod plain;
mod texts;

// A row's value, as it is given: a set and a text stand beside it.
#[derive(Clone, Copy)]
pub enum Value {
    Missing,
    Number(i64),
    Set,
    Text,
    Truth(bool),
}

// The answer to a write: done, or refused.
#[derive(Clone, Copy)]
pub enum Wrote {
    Done,
    NotWellFormed,
    NoRow,
    TooShort,
    OtherType,
    NotLegal,
    TooMany,
}

// A write to a row of a table that was tested: what many writes after one test call.
pub fn write_row(
    powers: &[u64; 16],
    t: &[i64],
    rows: usize,
    row: Row,
    value: Value,
    list: &[i64],
    text: &[u8],
    bytes: &mut [u8],
) -> Wrote
    requires tens { Tens powers.now }
    requires ready { Ready row.kind t.now rows (length bytes.old) row }
    ensures { WrittenBy row.kind t.now rows row value list.now text.now bytes.old
        bytes.new result }
{
    match value {
        Value::Missing => plain::write_missing(powers, t, rows, row, bytes),
        Value::Number(z) => plain::write_number(powers, t, rows, row, z, bytes),
        Value::Set => marked::write_set(powers, t, rows, row, list, bytes),
        Value::Text => plain::write_text(t, rows, row, text, bytes),
        Value::Truth(b) => plain::write_truth(t, rows, row, b, bytes),
    }
}

// THE CALL that writes one row's value into a record. Refused by 20, 21, 22, 26, 27 or 28, the lowest that applies, it keeps the
// record; else the row's value places hold the value's bytes, and every other byte is kept.
pub fn write_value(
    table: &[i64],
    row: usize,
    value: Value,
    list: &[i64],
    text: &[u8],
    bytes: &mut [u8],
) -> Wrote
    ensures { Written table.now row (lent_value value list.now text.now) bytes.old
        bytes.new (write_number result) }
{
    if !sound::well_formed(table) {
        return Wrote::NotWellFormed;
    }
    let h = Header::read(table);
    let rows = h.rows;
    if rows <= row {
        return Wrote::NoRow;
    }
    if bytes.len() < h.length {
        return Wrote::TooShort;
    }
    let powers = ascii::powers();
    write_row(
        &powers,
        table,
        rows,
        Row::read(table, row),
        value,
        list,
        text,
        bytes,
    )
}
