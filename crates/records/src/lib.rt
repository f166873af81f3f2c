// The public calls that read a record: one row's value, and a whole record judged. Each tests the table (refusal 20) and then calls an
// inner function, which whoever has tested a table may call many times. Above it stand files, the lister and the face.
#![tactic(auto)]

ghost use Rattle.std.specs.Prelude.{◌≡◌, true, ℕ, ◌-◌, ◌≤◌, ◌<◌, length};
ghost use Rattle.readings.specs.Ready.{Plain, RowReady};
ghost use Rattle.readings.specs.Many.{Standing, AllPlain, bytes_of};
ghost use Rattle.faults.specs.rule.Fault.{fault_of};
ghost use Rattle.lows.specs.rule.Lows.{low_at};
ghost use Rattle.records.specs.rule.First.{first_from, bad_row};
ghost use Rattle.records.specs.rule.Value.{said, ValueRead};
ghost use Rattle.records.specs.rule.Verdict.{judged_as, rows_verdict, RecordJudged, sound};
ghost use Rattle.records.specs.Value.{said_by};
ghost use Rattle.records.specs.Tables.{TableReady};

use faults::Fault;
use layout::{Header, Row};
use readings::Answer;
use readings::many::Batch;

// What a record is judged to be: sound; or the test that it fails, with the place of the first byte below 32, or the lowest illegal row
// and what is wrong with it.
#[derive(Clone, Copy)]
pub enum Judged {
    Sound,
    BadTable,
    ShortRecord,
    LowByte(usize),
    Faulty(usize, Fault),
}

// What a row says: its value, a set by its count, a text by its place and length; or why there is none.
#[derive(Clone, Copy)]
pub enum Reading {
    Missing,
    Number(i64),
    Set(usize),
    Text(usize, usize),
    Truth(bool),
    BadTable,
    NoRow,
    ShortRecord,
    ShortList,
    Faulty(Fault),
}

// The first byte below 32.
pub fn low_byte(bytes: &[u8]) -> Option<usize>
    ensures { result ≡ first_from (low_at bytes.now) 0 (length bytes.now) }
{
    for i in lows::plain_to(bytes, 0)..bytes.len() {
        if bytes[i] < 32 {
            return Some(i);
        }
    }
    None
}

// The lowest row that is illegal, in a record without a byte below 32.
pub fn illegal_row(t: &[i64], rows: usize, bytes: &[u8], scratch: &mut [u8]) -> Option<usize>
    requires table_ready { TableReady t.now rows (length bytes.now) }
    requires plain { Plain bytes.now }
    requires scratch_len_bound { length scratch.old ≤ 10000 }
    ensures { result ≡ first_from (bad_row t.now rows bytes.now) 0 rows }
{
    for i in 0..rows {
        if readings::row_illegal(t, rows, i, bytes, scratch) {
            return Some(i);
        }
    }
    None
}

// Whether such a record is sound, for whoever need not know what is wrong with it. The scratch is room for marks.
pub fn plain_sound(t: &[i64], rows: usize, bytes: &[u8], scratch: &mut [u8]) -> bool
    requires table_ready { TableReady t.now rows (length bytes.now) }
    requires plain { Plain bytes.now }
    requires scratch_len_bound { length scratch.old ≤ 10000 }
    ensures { result ≡ true → rows_verdict t.now rows bytes.now ≡ sound }
{
    match illegal_row(t, rows, bytes, scratch) {
        Some(_) => false,
        None => true,
    }
}

// Whether many such records are, row by row. A no is no verdict: whoever gets it asks record by record.
pub fn batch_sound(t: &[i64], rows: usize, d: &[u8], batch: Batch, scratch: &mut [u8]) -> bool
    requires table_ready { TableReady t.now rows batch.size }
    requires standing { Standing d.now batch × AllPlain d.now batch }
    requires scratch_len_bound { length scratch.old ≤ 10000 }
    ensures { result ≡ true → (k : ℕ) → k < batch.count → rows_verdict t.now rows (bytes_of d.now batch k)
        ≡ sound }
{
    for i in 0..rows {
        if !readings::many::row_legal(t, rows, i, d, batch, scratch) {
            return false;
        }
    }
    true
}

// A record that is long enough and has no byte below 32, by a table that was tested: what is wrong is asked of the lowest illegal row
// alone.
pub fn judge_plain(t: &[i64], rows: usize, bytes: &[u8], scratch: &mut [u8]) -> Judged
    requires table_ready { TableReady t.now rows (length bytes.now) }
    requires plain { Plain bytes.now }
    requires scratch_len_bound { length scratch.old ≤ 10000 }
    ensures { judged_as result ≡ rows_verdict t.now rows bytes.now }
{
    match illegal_row(t, rows, bytes, scratch) {
        Some(i) => Judged::Faulty(i, faults::row_fault(t, rows, Row::read(t, i), bytes)),
        None => Judged::Sound,
    }
}

// A record that is long enough, by a table that was tested: a byte below 32, then the rows.
pub fn judge_rows(t: &[i64], rows: usize, bytes: &[u8], scratch: &mut [u8]) -> Judged
    requires table_ready { TableReady t.now rows (length bytes.now) }
    requires scratch_len_bound { length scratch.old ≤ 10000 }
    ensures { judged_as result ≡ rows_verdict t.now rows bytes.now }
{
    match low_byte(bytes) {
        Some(p) => Judged::LowByte(p),
        None => judge_plain(t, rows, bytes, scratch),
    }
}

// Judges a whole record by a table.
pub fn judge_record(t: &[i64], bytes: &[u8]) -> Judged
    ensures { RecordJudged t.now bytes.now (judged_as result) }
{
    if sound::well_formed(t) {
        let h = Header::read(t);
        if bytes.len() < h.length {
            return Judged::ShortRecord;
        }
        // Where there are few lines to search, little is ever marked, and room for more need not be cleared.
        if h.lines <= 16 {
            let mut few = [0u8; 128];
            return judge_rows(t, h.rows, bytes, &mut few);
        }
        let mut many = [0u8; 10000];
        return judge_rows(t, h.rows, bytes, &mut many);
    }
    Judged::BadTable
}

// What a row of a record says, by the answer of its reader: of an illegal field what is wrong with it.
pub fn with_fault(t: &[i64], rows: usize, row: Row, bytes: &[u8], a: Answer) -> Reading
    requires { RowReady t.now rows row (length bytes.now) }
    ensures { said result ≡ said_by (fault_of t.now rows row bytes.now) a }
{
    match a {
        Answer::Missing => Reading::Missing,
        Answer::Number(z) => Reading::Number(z),
        Answer::Set(n) => Reading::Set(n),
        Answer::Text(p, n) => Reading::Text(p, n),
        Answer::Truth(b) => Reading::Truth(b),
        Answer::BadTable => Reading::BadTable,
        Answer::NoRow => Reading::NoRow,
        Answer::ShortRecord => Reading::ShortRecord,
        Answer::Illegal => Reading::Faulty(faults::row_fault(t, rows, row, bytes)),
        Answer::ShortList => Reading::ShortList,
    }
}

// Reads row i of a record by a table. A set fills the start of the list; on every other answer the list is as it was.
pub fn read_value(t: &[i64], i: usize, bytes: &[u8], list: &mut [i64]) -> Reading
    ensures { ValueRead t.now i bytes.now list.old list.new (said result) }
{
    if sound::well_formed(t) {
        let h = Header::read(t);
        if h.rows <= i {
            return Reading::NoRow;
        }
        if bytes.len() < h.length {
            return Reading::ShortRecord;
        }
        let row = Row::read(t, i);
        let a = readings::read_row(t, h.rows, row, bytes, list);
        return with_fault(t, h.rows, row, bytes, a);
    }
    Reading::BadTable
}
