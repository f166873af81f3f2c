// One normal form of a record: every row is written back as it reads, where no two rows share a value place. Above it stands the face.
#![tactic(auto)]

ghost use Rattle.std.specs.Prelude.{◌≡◌, ◌⊎◌, ◌+◌, ◌≤◌, length};
ghost use Rattle.ascii.specs.rule.Tens.{Tens};
ghost use Rattle.layout.specs.rule.Layout.{most_rows, row_base, row_size};
ghost use Rattle.layout.specs.rule.Row.{row_at};
ghost use Rattle.records.specs.rule.Verdict.{judged_as, rows_verdict};
ghost use Rattle.records.specs.Tables.{TableReady};
ghost use Rattle.writes.specs.Write.{Ready};
ghost use Rattle.sharing.specs.Known.{TableKnown};
ghost use Rattle.normal.specs.rule.Normal.{back_of, settled_row, normal_said, Normalised};
ghost use Rattle.normal.specs.Settle as settle;
ghost use Rattle.normal.specs.Settle.{HeldAs, Settles, TableSettles};

use layout::{Header, Kind, Row, Spread};
use readings::Answer;
use records::Judged;
use writes::Value;

// Marks of 0 to the highest category, and a list of as many members as a set can have.
const MARKS: usize = 10000;

const SHORT: usize = 128;

// Most records of some dozen variables are no longer, and so have no larger set.
const MIDDLING: usize = 1024;

// Two rows share a value place; or as the record is judged.
#[derive(Clone, Copy)]
pub enum Normal {
    Shared,
    As(Judged),
}

// Whether what such a row reads is written as it stands.
fn stays(kind: Kind) -> bool
    ensures { result ≡ settle.stays kind }
{
    match kind {
        Kind::Single => false,
        Kind::Multiple(s) => match s {
            Spread::Bits => true,
            Spread::Fields { count: _, width: _ } => false,
        },
        Kind::Quantity(_) => false,
        Kind::Character => true,
        Kind::Logical => true,
    }
}

// What a row was read as, written back to it; the members of a set stand at the start of the list.
fn put_back(
    powers: &[u64; 16],
    t: &[i64],
    rows: usize,
    row: Row,
    said: Answer,
    list: &[i64],
    bytes: &mut [u8],
)
    requires tens { Tens powers.now }
    requires ready { Ready row.kind t.now rows (length bytes.old) row }
    requires held_as { HeldAs t.now rows row bytes.old list.now said }
    ensures { bytes.new ≡ back_of t.now rows row bytes.old }
{
    match said {
        Answer::Missing => {
            writes::plain::blank_row(t, rows, row, bytes);
        }
        Answer::Number(z) => writes::plain::put_figures(powers, t, rows, row, z, bytes),
        Answer::Set(n) => {
            let set = &list[..n];
            let none = [0u8; 1];
            writes::write_row(powers, t, rows, row, Value::Set, set, &none, bytes);
        }
        Answer::Text(_, _) => {}
        Answer::Truth(_) => {}
        Answer::BadTable => {}
        Answer::NoRow => {}
        Answer::ShortRecord => {}
        Answer::Illegal => {}
        Answer::ShortList => {}
    }
}

// One row written back as it reads. The list is room for a set.
fn settle_row(
    powers: &[u64; 16],
    t: &[i64],
    rows: usize,
    row: Row,
    list: &mut [i64],
    bytes: &mut [u8],
)
    requires tens { Tens powers.now }
    requires settles { Settles t.now rows row (length bytes.old) (length list.old) }
    ensures { bytes.new ≡ back_of t.now rows row bytes.old }
{
    let kind = row.kind;
    if stays(kind) {
        return;
    }
    let said = readings::read_row(t, rows, row, bytes, list);
    put_back(powers, t, rows, row, said, list, bytes);
}

// Whether row i is such a row. Of its numbers only those of its kind are read.
fn row_stays(t: &[i64], i: usize) -> bool
    requires { (i ≤ most_rows) × (row_base i + row_size ≤ length t.now) }
    ensures { result ≡ settle.stays (row_at t.now i).kind }
{
    let row = Row::read(t, i);
    let kind = row.kind;
    stays(kind)
}

// Row i of the table written back as it reads.
fn settle_at(
    powers: &[u64; 16],
    t: &[i64],
    rows: usize,
    i: usize,
    list: &mut [i64],
    bytes: &mut [u8],
)
    requires tens { Tens powers.now }
    requires i_le_most_rows { (i ≤ most_rows) × (row_base i + row_size ≤ length t.now) }
    requires settles { Settles t.now rows (row_at t.now i) (length bytes.old) (length list.old) }
    ensures { bytes.new ≡ back_of t.now rows (row_at t.now i) bytes.old }
{
    if row_stays(t, i) {
        return;
    }
    settle_row(powers, t, rows, Row::read(t, i), list, bytes);
}

// Every row, in the order of the table.
fn settle_rows(powers: &[u64; 16], t: &[i64], rows: usize, list: &mut [i64], bytes: &mut [u8])
    requires tens { Tens powers.now }
    requires table_settles { TableSettles t.now rows (length bytes.old) (length list.old) }
    ensures { bytes.new ≡ settled_row t.now rows rows bytes.old }
{
    for i in 0..rows {
        settle_at(powers, t, rows, i, list, bytes);
    }
}

// The same with room for the sets of a record whose table has the least length `len`.
fn settle_all(t: &[i64], rows: usize, len: usize, bytes: &mut [u8])
    requires table_known { TableKnown t.now rows len }
    requires len_in_bounds { len ≤ length bytes.old }
    ensures { bytes.new ≡ settled_row t.now rows rows bytes.old }
{
    let powers = ascii::powers();
    if len <= SHORT {
        let mut few = [0i64; SHORT];
        settle_rows(&powers, t, rows, &mut few, bytes);
        return;
    }
    if len <= MIDDLING {
        let mut some = [0i64; MIDDLING];
        settle_rows(&powers, t, rows, &mut some, bytes);
        return;
    }
    let mut many = [0i64; MARKS];
    settle_rows(&powers, t, rows, &mut many, bytes);
}

// The record judged by a table that was tested. Where there are few lines to search, little is ever marked.
fn judge(t: &[i64], rows: usize, lines: usize, bytes: &[u8]) -> Judged
    requires { TableReady t.now rows (length bytes.now) }
    ensures { judged_as result ≡ rows_verdict t.now rows bytes.now }
{
    if lines <= 16 {
        let mut few = [0u8; SHORT];
        return records::judge_rows(t, rows, bytes, &mut few);
    }
    let mut many = [0u8; MARKS];
    records::judge_rows(t, rows, bytes, &mut many)
}

// THE CALL that gives a record its normal form in place. Refused, it keeps the record.
pub fn normalise(t: &[i64], bytes: &mut [u8]) -> Normal
    ensures { Normalised t.now bytes.old bytes.new (normal_said result) }
{
    if !sound::well_formed(t) {
        return Normal::As(Judged::BadTable);
    }
    let h = Header::read(t);
    let rows = h.rows;
    let len = h.length;
    if !sharing::none_shared(t, rows, len) {
        return Normal::Shared;
    }
    if bytes.len() < len {
        return Normal::As(Judged::ShortRecord);
    }
    let j = judge(t, rows, h.lines, bytes);
    if !files::is_sound(j) {
        return Normal::As(j);
    }
    settle_all(t, rows, len, bytes);
    Normal::As(j)
}
