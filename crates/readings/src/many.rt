// Whether a row is legal in each of many records of one length that stand one behind the other. What is read of the row is read once for
// all of them, so that short records cost little more than their bytes. A no is no verdict: whoever gets it asks record by record.
ghost use Rattle.std.specs.Prelude.{◌≡◌, true, ◌+◌, ◌≤◌, length};
ghost use Rattle.layout.specs.declared.Kind.TheVariants.{Single, Multiple, Quantity, Logical};
ghost use Rattle.layout.specs.declared.Spread.TheVariants.{Bits, Fields};
ghost use Rattle.layout.specs.rule.Layout.{row_size, row_base, most_rows};
ghost use Rattle.layout.specs.rule.Row.{row_at};
ghost use Rattle.fields.specs.rule.Legal.{legal};
ghost use Rattle.sets.specs.Marks.{Marks};
ghost use Rattle.readings.specs.Ready.{RowReady};
ghost use Rattle.readings.specs.Many.{Standing, AllPlain, LegalIn};

use super::{is_illegal, quantity_illegal, single, truth};
use layout::{Format, Kind, Row, Spread};

// Records of one length: where the first begins, how long they are, from one's begin to the next's, and how many.
#[derive(Clone, Copy)]
pub struct Batch {
    pub from: usize,
    pub size: usize,
    pub step: usize,
    pub count: usize,
}

fn singles_legal(t: &[i64], rows: usize, row: Row, d: &[u8], batch: Batch) -> bool
    requires row_ready { RowReady t.now rows row batch.size }
    requires kind_value { row.kind ≡ Single }
    requires standing { Standing d.now batch }
    ensures { result ≡ true → LegalIn t.now rows row d.now batch }
{
    let mut at = batch.from;
    for _ in 0..batch.count {
        let end = at + batch.size;
        if is_illegal(single(t, rows, row, &d[at..end])) {
            return false;
        }
        at += batch.step;
    }
    true
}

fn quantities_legal(t: &[i64], rows: usize, row: Row, f: Format, d: &[u8], batch: Batch) -> bool
    requires row_ready { RowReady t.now rows row batch.size }
    requires kind_value { row.kind ≡ Quantity f }
    requires standing { Standing d.now batch }
    ensures { result ≡ true → LegalIn t.now rows row d.now batch }
{
    let mut at = batch.from;
    for _ in 0..batch.count {
        let end = at + batch.size;
        if quantity_illegal(t, rows, row, f, &d[at..end]) {
            return false;
        }
        at += batch.step;
    }
    true
}

// Bitstrings of `0` and `1` alone, or of spaces: what else may be legal is left to the judge of one record.
fn bits_legal(t: &[i64], rows: usize, row: Row, d: &[u8], batch: Batch) -> bool
    requires row_ready { RowReady t.now rows row batch.size }
    requires kind_value { row.kind ≡ Multiple Bits }
    requires standing { Standing d.now batch }
    ensures { result ≡ true → LegalIn t.now rows row d.now batch }
{
    let mut at = batch.from;
    for _ in 0..batch.count {
        let end = at + batch.size;
        if !sets::bits::position_alike(&d[at..end], row.start - 1, row.width, row.width) {
            return false;
        }
        at += batch.step;
    }
    true
}

// Spreads whose subfields are all good, by the marks of the row's numbers.
fn entries_legal(
    t: &[i64],
    rows: usize,
    row: Row,
    n: usize,
    b: usize,
    d: &[u8],
    batch: Batch,
    marks: &[u8],
) -> bool
    requires row_ready { RowReady t.now rows row batch.size }
    requires kind_value { row.kind ≡ Multiple (Fields n b) }
    requires standing { Standing d.now batch }
    requires marks { Marks (λ x. legal t.now rows row x) marks.now × (length marks.now ≤ 10000) }
    ensures { result ≡ true → LegalIn t.now rows row d.now batch }
{
    let first = row.start - 1;
    let w = row.width;
    let mut at = batch.from;
    for _ in 0..batch.count {
        let end = at + batch.size;
        if !sets::spread::spread_good(t, rows, row, marks, &d[at..end], first, b, w, n) {
            return false;
        }
        at += batch.step;
    }
    true
}

// The marks are made once for all records.
fn marked_legal(
    t: &[i64],
    rows: usize,
    row: Row,
    n: usize,
    b: usize,
    d: &[u8],
    batch: Batch,
    marks: &mut [u8],
) -> bool
    requires row_ready { RowReady t.now rows row batch.size }
    requires kind_value { row.kind ≡ Multiple (Fields n b) }
    requires standing { Standing d.now batch }
    requires marks_len_bound { length marks.old ≤ 10000 }
    ensures { result ≡ true → LegalIn t.now rows row d.now batch }
{
    sets::marks::mark_legal(t, rows, row, marks);
    entries_legal(t, rows, row, n, b, d, batch, marks)
}

fn spreads_legal(
    t: &[i64],
    rows: usize,
    row: Row,
    n: usize,
    b: usize,
    d: &[u8],
    batch: Batch,
    scratch: &mut [u8],
) -> bool
    requires row_ready { RowReady t.now rows row batch.size }
    requires kind_value { row.kind ≡ Multiple (Fields n b) }
    requires standing { Standing d.now batch }
    requires scratch_len_bound { length scratch.old ≤ 10000 }
    ensures { result ≡ true → LegalIn t.now rows row d.now batch }
{
    let m = sets::marks_for(row, n, scratch.len());
    marked_legal(t, rows, row, n, b, d, batch, &mut scratch[..m])
}

fn truths_legal(t: &[i64], rows: usize, row: Row, d: &[u8], batch: Batch) -> bool
    requires row_ready { RowReady t.now rows row batch.size }
    requires kind_value { row.kind ≡ Logical }
    requires standing { Standing d.now batch }
    ensures { result ≡ true → LegalIn t.now rows row d.now batch }
{
    let mut at = batch.from;
    for _ in 0..batch.count {
        let last = at + (row.finish - 1);
        if is_illegal(truth(d[last])) {
            return false;
        }
        at += batch.step;
    }
    true
}

// By the row's kind. The scratch is room for marks.
fn fields_legal(
    t: &[i64],
    rows: usize,
    row: Row,
    d: &[u8],
    batch: Batch,
    scratch: &mut [u8],
) -> bool
    requires row_ready { RowReady t.now rows row batch.size }
    requires standing { Standing d.now batch }
    requires all_plain { AllPlain d.now batch }
    requires scratch_len_bound { length scratch.old ≤ 10000 }
    ensures { result ≡ true → LegalIn t.now rows row d.now batch }
{
    let kind = row.kind;
    match kind {
        Kind::Single => singles_legal(t, rows, row, d, batch),
        Kind::Multiple(s) => match s {
            Spread::Bits => bits_legal(t, rows, row, d, batch),
            Spread::Fields { count, width } => {
                spreads_legal(t, rows, row, count, width, d, batch, scratch)
            }
        },
        Kind::Quantity(f) => quantities_legal(t, rows, row, f, d, batch),
        // Only a byte below 32 makes a text illegal.
        Kind::Character => true,
        Kind::Logical => truths_legal(t, rows, row, d, batch),
    }
}

// The same of row i of a table. Of its numbers the compiler reads only those that its kind needs.
pub fn row_legal(
    t: &[i64],
    rows: usize,
    i: usize,
    d: &[u8],
    batch: Batch,
    scratch: &mut [u8],
) -> bool
    requires i_le_most_rows { (i ≤ most_rows) × (row_base i + row_size ≤ length t.now) }
    requires row_ready { RowReady t.now rows (row_at t.now i) batch.size }
    requires standing { Standing d.now batch }
    requires all_plain { AllPlain d.now batch }
    requires scratch_len_bound { length scratch.old ≤ 10000 }
    ensures { result ≡ true → LegalIn t.now rows (row_at t.now i) d.now batch }
{
    fields_legal(t, rows, Row::read(t, i), d, batch, scratch)
}
