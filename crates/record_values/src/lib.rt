// All rows of a record at once, by a table that is tested once: four numbers a row, and the members of all sets one after another. Above
// it stands the face; whoever has tested a table calls the inner function, record by record.
#![tactic(auto)]

ghost use Rattle.std.specs.Prelude.{◌≡◌, true, List, ℕ, ◌*◌, ◌≤◌, leb, length};
ghost use Rattle.layout.specs.rule.Layout.{most_rows, lines_base};
ghost use Rattle.fields.specs.rule.Row.{reading_of};
ghost use Rattle.readings.specs.Ready.{RowReady};
ghost use Rattle.faults.specs.rule.Fault.{fault_of};
ghost use Rattle.records.specs.rule.Value.{said};
ghost use Rattle.records.specs.Value.{said_by};
ghost use Rattle.records.specs.Tables.{TableReady};
ghost use Rattle.record_values.specs.rule.Record.{cell_of, flag_of, fault_cell, four_of, members_of, row_reading, members_below};
ghost use Rattle.record_values.specs.rule.Record.{RecordRead};
ghost use Rattle.record_values.specs.Rows.{members_in, refusals_in, most_of, RowsRead};

use faults::Fault;
use layout::{Header, Kind, Row, Spread};
use readings::Answer;
use records::Reading;

// What reading a whole record answers: how many members the list holds, and how many rows are refused; or why nothing was read.
#[derive(Clone, Copy)]
pub enum Whole {
    Read(usize, usize),
    BadTable,
    ShortRecord,
    ShortRoom,
}

// What the rows of a record come to: the members in the list, and the rows refused.
#[derive(Clone, Copy)]
pub struct Tally {
    pub members: usize,
    pub refused: usize,
}

// A count as a signed number. No slice is so long that a place in it reaches the last.
fn cell(n: usize) -> i64
    ensures { result ≡ cell_of n }
{
    i64::try_from(n).unwrap_or(i64::MAX)
}

fn flag(b: bool) -> i64
    ensures { result ≡ flag_of b }
{
    i64::from(b)
}

// What comes with a fault: its place in the record, or the number that is not legal.
pub fn fault_cell(x: Fault) -> i64
    ensures { result ≡ fault_cell x }
{
    match x {
        Fault::Sound => 0,
        Fault::Stray(p) => cell(p),
        Fault::NotLegal(z) => z,
        Fault::Point(p) => cell(p),
    }
}

// The four numbers of a row, whose set starts at a place of the list.
fn four(a: Reading, start: usize) -> [i64; 4]
    ensures { result ≡ four_of start (said a) }
{
    match a {
        Reading::Missing => [0, 0, 0, 0],
        Reading::Number(z) => [0, 1, z, 0],
        Reading::Set(n) => [0, 2, cell(n), cell(start)],
        Reading::Text(p, n) => [0, 3, cell(p), cell(n)],
        Reading::Truth(b) => [0, 4, flag(b), 0],
        Reading::BadTable => [20, 0, 0, 0],
        Reading::NoRow => [21, 0, 0, 0],
        Reading::ShortRecord => [22, 0, 0, 0],
        Reading::ShortList => [25, 0, 0, 0],
        Reading::Faulty(x) => [cell(faults::fault_number(x) as usize), fault_cell(x), 0, 0],
    }
}

// The four numbers of a row by its reader's answer; what is wrong with it is asked only of an illegal one.
fn row_numbers(t: &[i64], rows: usize, row: Row, bytes: &[u8], a: Answer, start: usize) -> [i64; 4]
    requires { RowReady t.now rows row (length bytes.now) }
    ensures { result ≡ four_of start (said_by (fault_of t.now rows row bytes.now) a) }
{
    four(records::with_fault(t, rows, row, bytes, a), start)
}

// How many members a row's answer puts into the list.
fn members_in(a: Answer) -> usize
    ensures { result ≡ members_in a }
{
    match a {
        Answer::Set(n) => n,
        Answer::Missing => 0,
        Answer::Number(_) => 0,
        Answer::Text(_, _) => 0,
        Answer::Truth(_) => 0,
        Answer::BadTable => 0,
        Answer::NoRow => 0,
        Answer::ShortRecord => 0,
        Answer::Illegal => 0,
        Answer::ShortList => 0,
    }
}

// One for a row that is refused, since its field is illegal.
fn refusals_in(a: Answer) -> usize
    ensures { result ≡ refusals_in a }
{
    usize::from(readings::is_illegal(a))
}

// The rows of a record that is long enough, by a table that was tested, where there is room for all.
pub fn read_rows(t: &[i64], rows: usize, bytes: &[u8], out: &mut [i64], list: &mut [i64]) -> Tally
    requires table_ready { TableReady t.now rows (length bytes.now) }
    requires rows_in_bounds { 4 * rows ≤ length out.old }
    requires rows_in_bounds_2 { length (members_below (row_reading t.now rows bytes.now) rows) ≤ length list.old }
    ensures { RowsRead t.now rows bytes.now out.old out.new list.old
        list.new result }
{
    let mut at: usize = 0;
    let mut refused: usize = 0;
    for i in 0..rows {
        let row = Row::read(t, i);
        let a = readings::read_row(t, rows, row, bytes, &mut list[at..]);
        let numbers = row_numbers(t, rows, row, bytes, a, at);
        cells::paste(out, 4 * i, &numbers);
        at += members_in(a);
        refused += refusals_in(a);
    }
    Tally {
        members: at,
        refused,
    }
}

// The most members that a row can have: a byte each, or a subfield each.
fn most_of(row: Row) -> usize
    ensures { result ≡ most_of row }
{
    let kind = row.kind;
    match kind {
        Kind::Multiple(s) => match s {
            Spread::Bits => row.width,
            Spread::Fields { count, width: _ } => count,
        },
        Kind::Single => 0,
        Kind::Quantity(_) => 0,
        Kind::Character => 0,
        Kind::Logical => 0,
    }
}

// Whether the sets of all rows fit, whatever the record holds: then nothing need be counted.
fn always_fits(t: &[i64], rows: usize, room: usize) -> bool
    requires { (rows ≤ most_rows) × (lines_base rows ≤ length t.now) }
    ensures { result ≡ true → (bytes : List ℕ) → length (members_below (row_reading t.now rows bytes) rows) ≤ room }
{
    let mut left = room;
    for i in 0..rows {
        let most = most_of(Row::read(t, i));
        if left < most {
            return false;
        }
        left -= most;
    }
    true
}

// How many members a row has, by a reading into room of its own: large only where many are possible.
fn count_many(t: &[i64], rows: usize, row: Row, bytes: &[u8]) -> usize
    requires { RowReady t.now rows row (length bytes.now) }
    ensures { result ≡ length (members_of (reading_of t.now rows row bytes.now)) }
{
    let mut many = [0i64; 9999];
    members_in(readings::read_row(t, rows, row, bytes, &mut many))
}

fn count_row(t: &[i64], rows: usize, row: Row, bytes: &[u8]) -> usize
    requires { RowReady t.now rows row (length bytes.now) }
    ensures { result ≡ length (members_of (reading_of t.now rows row bytes.now)) }
{
    let most = most_of(row);
    if most == 0 {
        return 0;
    }
    if most <= 64 {
        let mut few = [0i64; 64];
        return members_in(readings::read_row(t, rows, row, bytes, &mut few));
    }
    count_many(t, rows, row, bytes)
}

// Whether the sets of a record fit, by counting their members.
fn counted_fits(t: &[i64], rows: usize, bytes: &[u8], room: usize) -> bool
    requires { TableReady t.now rows (length bytes.now) }
    ensures { result ≡ leb (length (members_below (row_reading t.now rows bytes.now) rows)) room }
{
    let mut left = room;
    for i in 0..rows {
        let n = count_row(t, rows, Row::read(t, i), bytes);
        if left < n {
            return false;
        }
        left -= n;
    }
    true
}

// Whether the sets of a record fit.
fn sets_fit(t: &[i64], rows: usize, bytes: &[u8], room: usize) -> bool
    requires { TableReady t.now rows (length bytes.now) }
    ensures { result ≡ leb (length (members_below (row_reading t.now rows bytes.now) rows)) room }
{
    if always_fits(t, rows, room) {
        return true;
    }
    counted_fits(t, rows, bytes, room)
}

// Reads all rows of a record by a table: four numbers a row at the start of out, the members of all sets at the start of the list. On
// every other answer both are as they were.
pub fn read_record(t: &[i64], bytes: &[u8], out: &mut [i64], list: &mut [i64]) -> Whole
    ensures { RecordRead t.now bytes.now out.old out.new list.old
        list.new result }
{
    if sound::well_formed(t) {
        let h = Header::read(t);
        if bytes.len() < h.length {
            return Whole::ShortRecord;
        }
        if out.len() < 4 * h.rows {
            return Whole::ShortRoom;
        }
        if sets_fit(t, h.rows, bytes, list.len()) {
            let y = read_rows(t, h.rows, bytes, out, list);
            return Whole::Read(y.members, y.refused);
        }
        return Whole::ShortRoom;
    }
    Whole::BadTable
}
