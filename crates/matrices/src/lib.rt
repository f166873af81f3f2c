// A data file as a matrix of 64-bit floats: judged first, then counted, then written record by record, and the columns' summaries from what
// was written. Nothing in memory grows with records or columns. Above it stands the face.
#![tactic(auto)]

ghost use Rattle.std.specs.Prelude.{◌≡◌, true, cond, [], ℕ, ◌+◌, ◌*◌, ◌≤◌, ◌<◌, ltb, length, get_or, IfSome};
ghost use Rattle.little.specs.rule.Bytes.{put_at};
ghost use Rattle.cuts.specs.rule.Records.{records_of, length_of_first};
ghost use Rattle.files.specs.rule.File.{file_said};
ghost use Rattle.files.specs.rule.Tested.{Tested};
ghost use Rattle.summary.specs.rule.Summary.{summary_of};
ghost use Rattle.matrix.specs.Put.{put_entries};
ghost use Rattle.matrix.specs.Column.{ColumnThere, column_in};
ghost use Rattle.matrix.specs.rule.Bytes.{total_of};
ghost use Rattle.ascii.specs.rule.Tens.{Tens};
ghost use Rattle.columns.specs.rule.Columns.{row_columns, columns_from};
ghost use Rattle.columns.specs.Room.{Room, Ready};
ghost use Rattle.columns.specs.Reach.{shape_of, Covered};
ghost use Rattle.columns.specs.Rows.{entries_by, count_by, MarkedRow};
ghost use Rattle.fields.specs.Facts.{LineFacts};
ghost use Rattle.matrices.specs.rule.Matrix.{ended_of, matrix_entries, summaries_of, table_columns, matrix_said, matrix_of, MatrixWritten};
ghost use Rattle.matrices.specs.Records.{AllLong, count_in};
ghost use Rattle.matrices.specs.Blocks.{put_columns, put_each, EachRoom, EachReadable};
ghost use Rattle.matrices.specs.Met.{MetColumn, RowMet, mark_at};
ghost use Rattle.matrices.specs.Stand.{EachGood, slots_of};
ghost use Rattle.matrices.specs.More.{EachThere, MoreReady, Summed, extended_in};
ghost use Rattle.matrices.specs.Legal.{AllLegal};
ghost use Rattle.matrices.specs.Even.{AllOf, Even};
ghost use Rattle.matrices.specs.Parts.{records_in, Steps, EachSound};
ghost use Rattle.matrices.specs.Summaries.{ColumnsThere, summaries_in, told_from};
ghost use Rattle.matrices.specs.Written.{SoundFile};

use columns::Marking;
use cuts::Next;
use files::Judgement;
use layout::{Header, Row};
use summary::Summary;

// What becomes of the matrix of a file: it is refused as the file is, or for its size, or written.
#[derive(Clone, Copy)]
pub enum Matrix {
    Refused(Judgement),
    NoColumn,
    TooLarge,
    ShortRoom,
    Written {
        total: usize,
        records: usize,
        columns: usize,
    },
}

// The most bytes of a matrix.
const MOST: usize = 16_777_216;

// Where a file's records stand that are all of one length: how many bytes each has, and how far behind it the next one starts.
#[derive(Clone, Copy)]
struct Step {
    first: usize,
    step: usize,
}

// Some of them, one behind the other: at which byte the first starts, and how many they are.
#[derive(Clone, Copy)]
struct Part {
    from: usize,
    count: usize,
}

fn step_of(d: &[u8]) -> Step
    requires { AllOf (length_of_first (records_of d.now)) (records_of d.now) }
    ensures { Even d.now result.first result.step }
{
    let w = cuts::find_terminator(d);
    match cuts::next_from(d, w, 0) {
        Next::Ended {
            start: _,
            end,
            next,
        } => Step {
            first: end,
            step: next,
        },
        Next::Unended { start: _, end: _ } => Step { first: 0, step: 0 },
        Next::Nothing => Step { first: 0, step: 0 },
    }
}

// The entries of a row in some records, whose marks were made: each record's so many columns behind those of the record before. Answers how
// many records hold a set, where the members of all of them are marked.
fn put_each(
    powers: &[u64; 16],
    t: &[i64],
    rows: usize,
    row: Row,
    m: Marking,
    d: &[u8],
    s: Step,
    p: Part,
    columns: usize,
    list: &mut [i64],
    allowed: &[u8],
    present: &mut [u8],
    out: &mut [u8],
    flags: usize,
    values: usize,
) -> Option<u64>
    requires tens { Tens powers.now × (length list.old ≡ 9999) × (length present.old ≡ length allowed.now) }
    requires marked_row { MarkedRow t.now rows row allowed.now m.gap m.count × ((x : ℕ) → x < m.gap → get_or present.old x 0 ≡ 0) }
    requires steps { Steps d.now s.first s.step p.from p.count
        × EachReadable t.now rows row (records_in d.now s.first s.step p.from p.count) }
    requires columns_bound { (p.count * columns ≤ 16777216) × EachRoom flags values (length out.old) columns m.count p.count }
    ensures { (out.new ≡ put_each (λ x. entries_by row.kind t.now rows row x) columns out.old flags
        values (records_in d.now s.first s.step p.from p.count))
        × IfSome result (λ held. RowMet (λ x. entries_by row.kind t.now rows row x) m.gap m.count held
        present.new (records_in d.now s.first s.step p.from p.count)) }
{
    let first = s.first;
    let step = s.step;
    let start = p.from;
    let records = p.count;
    let mut held: u64 = 0;
    let mut near = true;
    for n in 0..records {
        let k = n * columns;
        let from = start + n * step;
        let end = from + first;
        let put = columns::put_row(
            powers,
            t,
            rows,
            row,
            m,
            &d[from..end],
            list,
            allowed,
            present,
            out,
            flags + k,
            values + 8 * k,
        );
        held += u64::from(put.there);
        near = near & put.near;
    }
    if near { Some(held) } else { None }
}

// The mark of the c-th column of a row: those behind its first gap have none.
fn mark_of(met: &[u8], gap: usize, c: usize) -> u8
    ensures { result ≡ mark_at gap met.now c }
{
    if gap <= c {
        return 0;
    }
    if met.len() <= c {
        return 0;
    }
    met[c]
}

// The summary of a column of n zeros and ones, of which it is known whether one of them is 1: it is looked through to its first 0.
fn met_summary(
    out: &[u8],
    mark: u8,
    n: u64,
    records: usize,
    columns: usize,
    flags: usize,
    values: usize,
) -> Summary
    requires columns_bound { (columns ≤ 16777216) × ColumnThere out.now columns flags values records }
    requires met_column { MetColumn (column_in out.now columns flags values records) n mark }
    ensures { result ≡ summary_of (column_in out.now columns flags values records) }
{
    if mark == 0 {
        return matrix::told(n, 0);
    }
    if matrix::has_less(out, flags, values, columns, records) {
        return matrix::told(n, 1);
    }
    matrix::told(n, n)
}

// The summaries of sixteen columns of zeros and ones, which have so many values each, by their ones.
fn put_told(out: &mut [u8], at: usize, n: u64, ones: &[u64; 16])
    requires { at + 384 ≤ length out.old }
    ensures { out.new ≡ put_at out.old at (told_from n ones.now 0 16) }
{
    for (j, one) in ones.iter().enumerate() {
        matrix::put_summary(out, at + 24 * j, matrix::told(n, *one));
    }
}

// The summaries of the next columns, and how many they are: sixteen, where so many are left and can be counted, or one that is read back.
fn put_some(
    out: &mut [u8],
    records: usize,
    columns: usize,
    left: usize,
    at: usize,
    flags: usize,
    values: usize,
) -> usize
    requires columns_bound { (columns ≤ 16777216) × (1 ≤ left) × (at + 24 * left ≤ length out.old) }
    requires columns_there { ColumnsThere out.old columns flags values records left }
    ensures { (1 ≤ result) × (result ≤ left)
        × (out.new ≡ put_at out.old at (summaries_in out.old columns flags values records result)) }
{
    if 16 <= left {
        let b = matrix::count_ones(out, flags, values, columns, records);
        if b.full {
            let ones = b.ones;
            put_told(out, at, b.count, &ones);
            return 16;
        }
    }
    let s = matrix::column_summary(out, flags, values, columns, records);
    matrix::put_summary(out, at, s);
    1
}

// The summaries of a row's columns that are known, one by one, in a loop of their own: the compiler keeps all it needs at hand.
fn put_met(
    out: &mut [u8],
    met: &[u8],
    m: Marking,
    n: u64,
    records: usize,
    columns: usize,
    at: usize,
    flags: usize,
    values: usize,
)
    requires columns_bound { (columns ≤ 16777216) × (m.count ≤ columns) × (at + 24 * m.count ≤ flags) × (flags ≤ values)
        × (at + 24 * m.count ≤ length out.old) × (values ≤ 268435456) }
    requires columns_there { ColumnsThere out.old columns flags values records m.count }
    requires by_index { (j : ℕ) → j < m.count
        → MetColumn (column_in out.old columns (flags + j) (values + 8 * j) records) n (mark_at m.gap met.now (j + 1)) }
    ensures { out.new ≡ put_at out.old at
        (summaries_in out.old columns flags values records m.count) }
{
    let count = m.count;
    let gap = m.gap;
    for k in 0..count {
        let mark = mark_of(met, gap, k + 1);
        let s = met_summary(out, mark, n, records, columns, flags + k, values + 8 * k);
        matrix::put_summary(out, at + 24 * k, s);
    }
}

// The summaries of a row's columns, by what is known of them or from what stands in the output behind them.
fn put_summaries(
    out: &mut [u8],
    met: &[u8],
    m: Marking,
    held: Option<u64>,
    records: usize,
    columns: usize,
    at: usize,
    flags: usize,
    values: usize,
)
    requires columns_bound { (columns ≤ 16777216) × (m.count ≤ columns) × (at + 24 * m.count ≤ flags) × (flags ≤ values)
        × (at + 24 * m.count ≤ length out.old) × (values ≤ 268435456) }
    requires columns_there { ColumnsThere out.old columns flags values records m.count }
    requires met_column { IfSome held (λ n. (j : ℕ) → j < m.count
        → MetColumn (column_in out.old columns (flags + j) (values + 8 * j) records) n (mark_at m.gap met.now (j + 1))) }
    ensures { out.new ≡ put_at out.old at
        (summaries_in out.old columns flags values records m.count) }
{
    if let Some(n) = held {
        put_met(out, met, m, n, records, columns, at, flags, values);
        return;
    }
    let count = m.count;
    let mut k: usize = 0;
    while k < count {
        k += put_some(
            out,
            records,
            columns,
            count - k,
            at + 24 * k,
            flags + k,
            values + 8 * k,
        );
    }
}

// The same with its marks, which are made once for these records, and, where they are told, the summaries of its columns; and how many
// columns
// it has.
fn put_marked(
    powers: &[u64; 16],
    t: &[i64],
    rows: usize,
    row: Row,
    d: &[u8],
    s: Step,
    p: Part,
    columns: usize,
    list: &mut [i64],
    allowed: &mut [u8],
    present: &mut [u8],
    told: bool,
    out: &mut [u8],
    at: usize,
    flags: usize,
    values: usize,
) -> usize
    requires tens { Tens powers.now × (length list.old ≡ 9999) × (length present.old ≡ length allowed.old) }
    requires line_facts { LineFacts t.now rows row × (2 ≤ shape_of row.kind → Covered t.now rows row (length allowed.old)) }
    requires steps { Steps d.now s.first s.step p.from p.count
        × EachReadable t.now rows row (records_in d.now s.first s.step p.from p.count) }
    requires each_good { EachGood (λ x. entries_by row.kind t.now rows row x) (records_in d.now s.first s.step p.from p.count) }
    requires columns_bound { (p.count * columns ≤ 16777216) × (columns ≤ 16777216) × (values ≤ 268435456)
        × (flags + p.count * columns ≤ values)
        × (at + 24 * count_by row.kind t.now rows row ≤ length out.old) × (count_by row.kind t.now rows row ≤ columns)
        × (at + 24 * count_by row.kind t.now rows row ≤ flags)
        × EachRoom flags values (length out.old) columns (count_by row.kind t.now rows row) p.count }
    ensures { (result ≡ count_by row.kind t.now rows row)
        × (out.new ≡ put_at (put_each (λ x. entries_by row.kind t.now rows row x) columns out.old flags
        values (records_in d.now s.first s.step p.from p.count)) at
        (cond told (summaries_in (put_each (λ x. entries_by row.kind t.now rows row x) columns out.old flags
        values (records_in d.now s.first s.step p.from p.count)) columns flags values p.count
        (count_by row.kind t.now rows row)) [])) }
{
    let m = columns::mark_row(t, rows, row, allowed);
    sets::marks::clear(present);
    let held = put_each(
        powers, t, rows, row, m, d, s, p, columns, list, allowed, present, out, flags, values,
    );
    if told {
        put_summaries(out, present, m, held, p.count, columns, at, flags, values);
    }
    m.count
}

// The columns of row i with their summaries, and how many they are.
fn put_columns(
    powers: &[u64; 16],
    t: &[i64],
    h: Header,
    i: usize,
    d: &[u8],
    s: Step,
    p: Part,
    columns: usize,
    list: &mut [i64],
    allowed: &mut [u8],
    present: &mut [u8],
    told: bool,
    out: &mut [u8],
    at: usize,
    flags: usize,
    values: usize,
) -> usize
    requires ready { Ready powers.now t.now h (length list.old) (length allowed.old) (length present.old) }
    requires i_lt_rows { (i < h.rows) × Steps d.now s.first s.step p.from p.count
        × EachSound t.now h (records_in d.now s.first s.step p.from p.count) }
    requires columns_bound { (p.count * columns ≤ 16777216) × (columns ≤ 16777216) × (values ≤ 268435456)
        × (flags + p.count * columns ≤ values)
        × (at + 24 * length (row_columns t.now h.rows i) ≤ length out.old) × (length (row_columns t.now h.rows i) ≤ columns)
        × (at + 24 * length (row_columns t.now h.rows i) ≤ flags)
        × EachRoom flags values (length out.old) columns (length (row_columns t.now h.rows i)) p.count }
    ensures { (result ≡ length (row_columns t.now h.rows i))
        × (out.new ≡ put_at (put_columns t.now h.rows columns (row_columns t.now h.rows i)
        out.old flags values (records_in d.now s.first s.step p.from p.count)) at
        (slots_of told t.now h.rows (records_in d.now s.first s.step p.from p.count)
        (row_columns t.now h.rows i))) }
{
    let row = Row::read(t, i);
    let kind = row.kind;
    let top = columns::reach_of(kind, row.width);
    put_marked(
        powers,
        t,
        h.rows,
        row,
        d,
        s,
        p,
        columns,
        list,
        &mut allowed[..top],
        &mut present[..top],
        told,
        out,
        at,
        flags,
        values,
    )
}

// The presence bytes and values of some records, and, where they are told, the summaries, row by row of the table.
fn put_rows(
    powers: &[u64; 16],
    t: &[i64],
    h: Header,
    d: &[u8],
    s: Step,
    p: Part,
    columns: usize,
    list: &mut [i64],
    allowed: &mut [u8],
    present: &mut [u8],
    told: bool,
    out: &mut [u8],
    flags: usize,
    values: usize,
)
    requires ready { Ready powers.now t.now h (length list.old) (length allowed.old) (length present.old) }
    requires columns_value { columns ≡ length (columns_from t.now h.rows 0 h.rows) }
    requires steps { Steps d.now s.first s.step p.from p.count
        × EachSound t.now h (records_in d.now s.first s.step p.from p.count) }
    requires columns_bound { (p.count * columns ≤ 16777216) × (columns ≤ 16777216) × (values ≤ 16777216) × (24 + 24 * columns ≤ flags)
        × Room flags values (length out.old) (p.count * columns) }
    ensures { out.new ≡ put_at (put_entries out.old flags values
        (matrix_entries t.now h.rows (columns_from t.now h.rows 0 h.rows)
        (records_in d.now s.first s.step p.from p.count))) 24
        (slots_of told t.now h.rows (records_in d.now s.first s.step p.from p.count)
        (columns_from t.now h.rows 0 h.rows)) }
{
    let mut k: usize = 0;
    for i in 0..h.rows {
        k += put_columns(
            powers,
            t,
            h,
            i,
            d,
            s,
            p,
            columns,
            list,
            allowed,
            present,
            told,
            out,
            24 + 24 * k,
            flags + k,
            values + 8 * k,
        );
    }
}

// The summaries that stand, extended by the columns of some records more, while these are near.
fn more_summaries(out: &mut [u8], records: usize, columns: usize, flags: usize, values: usize)
    requires columns_bound { (columns ≤ 16777216) × (24 + 24 * columns ≤ flags) × (flags ≤ values) × (values ≤ 268435456)
        × (24 + 24 * columns ≤ length out.old) }
    requires each_there { EachThere out.old columns flags values records × MoreReady out.old columns records }
    ensures { out.new ≡ put_at out.old 24
        (extended_in out.old columns flags values records 0 columns) }
{
    for k in 0..columns {
        let at = 24 + 24 * k;
        let begun = matrix::get_summary(out, at);
        let sum = matrix::column_more(out, begun, flags + k, values + 8 * k, columns, records);
        matrix::put_summary(out, at, sum);
    }
}

// The next records behind n, and the summaries extended by them.
fn put_block(
    powers: &[u64; 16],
    t: &[i64],
    h: Header,
    d: &[u8],
    s: Step,
    n: usize,
    count: usize,
    columns: usize,
    list: &mut [i64],
    allowed: &mut [u8],
    present: &mut [u8],
    out: &mut [u8],
    flags: usize,
    values: usize,
)
    requires ready { Ready powers.now t.now h (length list.old) (length allowed.old) (length present.old) }
    requires columns_value { columns ≡ length (columns_from t.now h.rows 0 h.rows) }
    requires steps { Steps d.now s.first s.step 0 (n + count)
        × EachSound t.now h (records_in d.now s.first s.step 0 (n + count))
        × Summed out.old t.now h.rows (columns_from t.now h.rows 0 h.rows) (records_in d.now s.first s.step 0 n) }
    requires le_columns { (1 ≤ columns) × (24 + 24 * columns ≤ flags) × (values + 8 * ((n + count) * columns) ≤ 16777216)
        × Room flags values (length out.old) ((n + count) * columns) }
    ensures { out.new ≡ put_at (put_entries out.old (flags + n * columns) (values + 8 * (n * columns))
        (matrix_entries t.now h.rows (columns_from t.now h.rows 0 h.rows)
        (records_in d.now s.first s.step (n * s.step) count))) 24
        (summaries_of t.now h.rows (records_in d.now s.first s.step 0 (n + count))
        (columns_from t.now h.rows 0 h.rows)) }
{
    let k = n * columns;
    let p = Part {
        from: n * s.step,
        count,
    };
    put_rows(
        powers,
        t,
        h,
        d,
        s,
        p,
        columns,
        list,
        allowed,
        present,
        false,
        out,
        flags + k,
        values + 8 * k,
    );
    more_summaries(out, count, columns, flags + k, values + 8 * k);
}

// How many records are put together: all, or, of a table with many rows of few columns, so many that their places stay near.
fn block_of(rows: usize, columns: usize, records: usize) -> usize
    requires { 1 ≤ columns }
    ensures { (result ≤ records) × (1 ≤ records → 1 ≤ result) }
{
    if records < 256 {
        return records;
    }
    if 2_048 < columns {
        return records;
    }
    if rows < 64 {
        return records;
    }
    records.min(16 + 16_384 / columns)
}

// The presence bytes and values of all records, and the summaries: block by block, and row by row of the table within a block.
fn put_records(
    powers: &[u64; 16],
    t: &[i64],
    h: Header,
    d: &[u8],
    records: usize,
    columns: usize,
    list: &mut [i64],
    allowed: &mut [u8],
    present: &mut [u8],
    out: &mut [u8],
    flags: usize,
    values: usize,
)
    requires ready { Ready powers.now t.now h (length list.old) (length allowed.old) (length present.old) }
    requires columns_value { columns ≡ length (columns_from t.now h.rows 0 h.rows) }
    requires all_of { AllOf (length_of_first (records_of d.now)) (records_of d.now) × (records ≡ length (ended_of (records_of d.now)))
        × AllLong h.length (ended_of (records_of d.now)) × AllLegal t.now h.rows (ended_of (records_of d.now)) }
    requires le_columns { (1 ≤ columns) × (24 + 24 * columns ≤ flags) × (values + 8 * (records * columns) ≤ 16777216)
        × Room flags values (length out.old) (records * columns) }
    ensures { out.new ≡ put_at (put_entries out.old flags values
        (matrix_entries t.now h.rows (columns_from t.now h.rows 0 h.rows)
        (ended_of (records_of d.now)))) 24
        (summaries_of t.now h.rows (ended_of (records_of d.now))
        (columns_from t.now h.rows 0 h.rows)) }
{
    let s = step_of(d);
    let size = block_of(h.rows, columns, records);
    let p = Part {
        from: 0,
        count: size,
    };
    put_rows(
        powers, t, h, d, s, p, columns, list, allowed, present, true, out, flags, values,
    );
    let mut n = size;
    // no `step_by`: of no record a block has none, and its steps are 1 at least
    while n < records {
        let count = size.min(records - n);
        put_block(
            powers, t, h, d, s, n, count, columns, list, allowed, present, out, flags, values,
        );
        n += count;
    }
}

// Whether a matrix of so many records and columns is too large. A file may have more records than can be multiplied here.
fn too_large(records: usize, columns: usize) -> bool
    requires { (1 ≤ columns) × (columns ≤ 5119488) }
    ensures { result ≡ ltb 16777216 (total_of records columns) }
{
    if 699_049 < columns {
        return true;
    }
    let left = MOST - 24 - 24 * columns;
    left / (9 * columns) < records
}

// The whole matrix, where there is room for it.
fn fill(t: &[i64], h: Header, d: &[u8], records: usize, columns: usize, out: &mut [u8])
    requires tested { Tested t.now h × SoundFile t.now d.now records }
    requires columns_value { (columns ≡ length (table_columns t.now)) × (1 ≤ columns) × (total_of records columns ≤ 16777216)
        × (total_of records columns ≤ length out.old) }
    ensures { out.new ≡ put_at out.old 0 (matrix_of t.now (ended_of (records_of d.now))) }
{
    let powers = ascii::powers();
    let mut list = [0i64; 9999];
    let mut allowed = [0u8; 10000];
    let mut present = [0u8; 10000];
    let flags = 24 + 24 * columns;
    let values = flags + records * columns;
    matrix::put_header(out, records, columns);
    put_records(
        &powers,
        t,
        h,
        d,
        records,
        columns,
        &mut list,
        &mut allowed,
        &mut present,
        out,
        flags,
        values,
    );
}

// How many columns a tested table has.
fn columns_of(t: &[i64], h: Header) -> usize
    requires { Tested t.now h }
    ensures { (result ≡ length (table_columns t.now)) × (result ≤ 5119488) }
{
    let mut allowed = [0u8; 10000];
    columns::count_columns(t, h, &mut allowed)
}

// The matrix of a file that is sound: 80, 81, 82, or written.
fn write_sound(t: &[i64], d: &[u8], records: usize, out: &mut [u8]) -> Matrix
    requires { SoundFile t.now d.now records }
    ensures { MatrixWritten t.now d.now out.old out.new (matrix_said result) }
{
    let h = Header::read(t);
    let columns = columns_of(t, h);
    if columns == 0 {
        return Matrix::NoColumn;
    }
    if too_large(records, columns) {
        return Matrix::TooLarge;
    }
    let total = 24 + 24 * columns + 9 * (records * columns);
    if out.len() < total {
        return Matrix::ShortRoom;
    }
    fill(t, h, d, records, columns, out);
    Matrix::Written {
        total,
        records,
        columns,
    }
}

// How many records a file has that was judged sound.
fn count_in(j: Judgement) -> usize
    ensures { result ≡ count_in (file_said j) }
{
    match j {
        Judgement::Sound(n) => n,
        Judgement::BadTable => 0,
        Judgement::Unended(_) => 0,
        Judgement::OtherLength(_) => 0,
        Judgement::Fault(_, _) => 0,
    }
}

// Writes a data file as a matrix by a table. On every refusal the output is as it was.
pub fn write_matrix(t: &[i64], d: &[u8], out: &mut [u8]) -> Matrix
    ensures { MatrixWritten t.now d.now out.old out.new (matrix_said result) }
{
    let j = files::judge_file(t, d);
    if files::goes_on(j) {
        return write_sound(t, d, count_in(j), out);
    }
    Matrix::Refused(j)
}
