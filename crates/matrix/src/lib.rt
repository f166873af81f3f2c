// The bytes of a matrix: its header, a column's summary, the presence byte and the eight bytes of an entry, and a column's summary from
// the bytes that stand there. Nothing here knows a table. Above it stand the columns of a table.
#![tactic(auto)]

ghost use Rattle.std.specs.Prelude.{◌≡◌, not, [], ◌∷◌, ◌+◌, ◌*◌, ◌≤◌, ◌<◌, T, length};
ghost use Rattle.std.specs.Float.{binary64};
ghost use Rattle.std.specs.Float.Ieee.{is_nan, nan_bits};
ghost use Rattle.little.specs.Bytes.{number_at};
ghost use Rattle.little.specs.rule.Bytes.{put_at};
ghost use Rattle.summary.specs.rule.Summary.{extended_by, summary_of};
ghost use Rattle.matrix.specs.Put.{put_entries};
ghost use Rattle.matrix.specs.rule.Entry.{flags_of};
ghost use Rattle.matrix.specs.rule.Bytes.{total_of, header_bytes, summary_bytes};
ghost use Rattle.matrix.specs.Entry.{EntryGood, cell_of};
ghost use Rattle.matrix.specs.Column.{ColumnThere, column_in};
ghost use Rattle.matrix.specs.Back.{summary_at};
ghost use Rattle.matrix.specs.Noughts.{all_are, noughts};
ghost use Rattle.matrix.specs.Told.{any_less};
ghost use Rattle.matrix.specs.Ones.{AllThere, AllFew, AllCounted, AllTold, told_of};

// The bits of 1.0.
const ONE: u64 = 4_607_182_418_800_017_408;

// What a column holds of a record: nothing, or a scaled number and its power of ten.
#[derive(Clone, Copy)]
pub enum Entry {
    Absent,
    Scaled(i64, u64),
}

// An entry as it is written: missing has presence 0 and value zero.
#[derive(Clone, Copy)]
pub struct Cell {
    pub present: u8,
    pub value: f64,
}

fn cell_of(e: Entry) -> Cell
    requires { EntryGood e }
    ensures { result ≡ cell_of e }
{
    match e {
        Entry::Absent => Cell {
            present: 0,
            value: 0.0,
        },
        Entry::Scaled(z, power) => {
            let value = quotient::value_of(z, power);
            Cell { present: 1, value }
        }
    }
}

// The presence byte at one place, the value at another.
pub fn put_entry(out: &mut [u8], flags: usize, values: usize, e: Entry)
    requires entry_good { EntryGood e }
    requires flags_lt_values { (flags < values) × (values + 8 ≤ length out.old) }
    ensures { out.new ≡ put_entries out.old flags values (e ∷ []) }
{
    let c = cell_of(e);
    out[flags] = c.present;
    little::put_f64(out, values, c.value);
}

// Whether n bytes from i on are all b. Nothing leaves the loop early: that lets the compiler look at many of them at once.
pub fn all_are(s: &[u8], i: usize, n: usize, b: u8) -> bool
    requires { i + n ≤ length s.now }
    ensures { result ≡ all_are s.now i n b }
{
    let mut all = true;
    for k in 0..n {
        all = all & (s[i + k] == b);
    }
    all
}

// Sixteen entries of value zero at once, present or not.
pub fn put_noughts(out: &mut [u8], flags: usize, values: usize, there: bool)
    requires { (flags + 16 ≤ values) × (values + 128 ≤ length out.old) }
    ensures { out.new ≡ put_entries out.old flags values (noughts there 16) }
{
    put_many(out, flags, values, 16, there);
}

// The presence bytes of n entries that are alike.
fn put_presence(out: &mut [u8], flags: usize, n: usize, there: bool)
    requires { flags + n ≤ length out.old }
    ensures { out.new ≡ put_at out.old flags (flags_of (noughts there n)) }
{
    let b = u8::from(there);
    for i in 0..n {
        out[flags + i] = b;
    }
}

// Many entries of value zero, present or not.
pub fn put_many(out: &mut [u8], flags: usize, values: usize, n: usize, there: bool)
    requires { (flags + n ≤ values) × (values + 8 * n ≤ length out.old) }
    ensures { out.new ≡ put_entries out.old flags values (noughts there n) }
{
    put_presence(out, flags, n, there);
    little::put_number(out, values, 0, 8 * n);
}

// The six numbers of a matrix of so many records and columns.
pub fn put_header(out: &mut [u8], records: usize, columns: usize)
    requires { (1 ≤ columns) × (total_of records columns ≤ 16777216) × (total_of records columns ≤ length out.old) }
    ensures { out.new ≡ put_at out.old 0 (header_bytes records columns) }
{
    let presence = 24 + 24 * columns;
    let values = presence + records * columns;
    let total = values + 8 * (records * columns);
    little::put_u32(out, 0, records as u32);
    little::put_u32(out, 4, columns as u32);
    little::put_u32(out, 8, 24);
    little::put_u32(out, 12, presence as u32);
    little::put_u32(out, 16, values as u32);
    little::put_u32(out, 20, total as u32);
}

pub fn put_summary(out: &mut [u8], at: usize, s: summary::Summary)
    requires at_in_bounds { at + 24 ≤ length out.old }
    requires t { T (not (is_nan s.least)) × T (not (is_nan s.most)) }
    ensures { out.new ≡ put_at out.old at (summary_bytes s) }
{
    little::put_u64(out, at, s.count);
    little::put_f64(out, at + 8, s.least);
    little::put_f64(out, at + 16, s.most);
}

// The summary that stands at a place.
pub fn get_summary(s: &[u8], at: usize) -> summary::Summary
    requires at_in_bounds { at + 24 ≤ length s.now }
    requires t { T (not (nan_bits binary64 (number_at 8 (at + 8) s.now))) × T (not (nan_bits binary64 (number_at 8 (at + 16) s.now))) }
    ensures { result ≡ summary_at s.now at }
{
    let count = little::get_u64(s, at);
    let least = little::get_f64(s, at + 8);
    let most = little::get_f64(s, at + 16);
    summary::Summary { count, least, most }
}

// A summary extended, record by record, by the column whose presence bytes and values stand every so many cells from these places on.
pub fn column_more(
    s: &[u8],
    begun: summary::Summary,
    flags: usize,
    values: usize,
    step: usize,
    records: usize,
) -> summary::Summary
    requires step_bound { step ≤ 16777216 }
    requires records_bound { begun.count + records ≤ 18446744073709551615 }
    requires column_there { ColumnThere s.now step flags values records }
    ensures { result ≡ extended_by begun (column_in s.now step flags values records) }
{
    let mut sum = begun;
    for k in 0..records {
        if s[flags + step * k] == 1 {
            sum = summary::extend(sum, little::get_f64(s, values + 8 * (step * k)));
        }
    }
    sum
}

// The summary of that column.
pub fn column_summary(
    s: &[u8],
    flags: usize,
    values: usize,
    step: usize,
    records: usize,
) -> summary::Summary
    requires step_bound { step ≤ 16777216 }
    requires column_there { ColumnThere s.now step flags values records }
    ensures { result ≡ summary_of (column_in s.now step flags values records) }
{
    column_more(s, summary::empty(), flags, values, step, records)
}

// Whether a value of that column is below 1.
pub fn has_less(s: &[u8], flags: usize, values: usize, step: usize, records: usize) -> bool
    requires step_bound { step ≤ 16777216 }
    requires column_there { ColumnThere s.now step flags values records }
    ensures { result ≡ any_less (column_in s.now step flags values records) }
{
    for k in 0..records {
        if s[flags + step * k] == 1 && little::get_f64(s, values + 8 * (step * k)) < 1.0 {
            return true;
        }
    }
    false
}

// What sixteen columns side by side hold, where each record has all of them or none, and each value is 0 or 1: how many records have them,
// and how many ones each column has. Else `full` is false.
#[derive(Clone, Copy)]
pub struct Block {
    pub full: bool,
    pub count: u64,
    pub ones: [u64; 16],
}

// The ones among sixteen values counted, each in its column; or that one is neither 0 nor 1.
fn count_values(s: &[u8], value: usize, ones: &mut [u64; 16]) -> bool
    requires value_in_bounds { value + 128 ≤ length s.now }
    requires all_few { AllFew ones.old }
    ensures { AllCounted s.now value ones.old ones.new result }
{
    for j in 0..16 {
        let bits = little::get_u64(s, value + 8 * j);
        if bits == ONE {
            ones[j] += 1;
        } else if bits != 0 {
            return false;
        }
    }
    true
}

// The same, quickly where all are zero.
fn count_record(s: &[u8], value: usize, ones: &mut [u64; 16]) -> bool
    requires value_in_bounds { value + 128 ≤ length s.now }
    requires all_few { AllFew ones.old }
    ensures { AllCounted s.now value ones.old ones.new result }
{
    if all_are(s, value, 128, 0) {
        return true;
    }
    count_values(s, value, ones)
}

// The sixteen columns whose presence bytes and values stand every so many cells from these places on.
pub fn count_ones(s: &[u8], flags: usize, values: usize, step: usize, records: usize) -> Block
    requires step_bound { step ≤ 16777216 }
    requires all_there { AllThere s.now step flags values records }
    ensures { AllTold s.now step flags values records result.full result.count result.ones }
{
    let mut ones = [0u64; 16];
    let mut n: u64 = 0;
    for k in 0..records {
        let flag = flags + step * k;
        if all_are(s, flag, 16, 1) {
            if !count_record(s, values + 8 * (step * k), &mut ones) {
                return Block {
                    full: false,
                    count: n,
                    ones,
                };
            }
            n += 1;
        } else if !all_are(s, flag, 16, 0) {
            return Block {
                full: false,
                count: n,
                ones,
            };
        }
    }
    Block {
        full: true,
        count: n,
        ones,
    }
}

// The summary of a column of so many values, of which so many are 1 and the others 0.
pub fn told(n: u64, ones: u64) -> summary::Summary
    ensures { result ≡ told_of n ones }
{
    if n == 0 {
        return summary::empty();
    }
    if ones == 0 {
        return summary::Summary {
            count: n,
            least: 0.0,
            most: 0.0,
        };
    }
    if ones == n {
        return summary::Summary {
            count: n,
            least: 1.0,
            most: 1.0,
        };
    }
    summary::Summary {
        count: n,
        least: 0.0,
        most: 1.0,
    }
}
