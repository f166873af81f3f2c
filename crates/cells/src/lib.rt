// One number of a table: as a count, as a sign and a size, compared, read where it may not be there, and the one call that
// copies numbers into a table. Above it stand the layout of a table and the test of one.
#![tactic(auto)]

ghost use Rattle.std.specs.Prelude.{◌≡◌, ◌+◌, ◌≤◌, ◌<◌, length, pos};
ghost use Rattle.std.specs.Int.Signed.{le_z};
ghost use Rattle.cells.specs.rule.Cell.{cell, count_of, signed_of, number_of, eq_z, pasted};

// A sign and a size. Zero has no minus.
#[derive(Clone, Copy)]
pub struct Signed {
    pub minus: bool,
    pub size: u64,
}

// A number as a count: its bits as they stand.
pub fn count_of(x: i64) -> usize
    ensures { result ≡ count_of x }
{
    x.cast_unsigned() as usize
}

// The number at i; past the end it is 0.
pub fn number(t: &[i64], i: usize) -> i64
    ensures { result ≡ cell t.now i }
{
    if i < t.len() { t[i] } else { 0 }
}

// The number at i as a count.
pub fn count(t: &[i64], i: usize) -> usize
    ensures { result ≡ count_of (cell t.now i) }
{
    count_of(number(t, i))
}

// The same where the number is known to be there.
pub fn count_at(t: &[i64], i: usize) -> usize
    requires { i < length t.now }
    ensures { result ≡ count_of (cell t.now i) }
{
    count_of(t[i])
}

pub fn signed_of(x: i64) -> Signed
    ensures { result ≡ signed_of x }
{
    Signed {
        minus: x < 0,
        size: x.unsigned_abs(),
    }
}

// The number with this sign and size.
pub fn number_of(minus: bool, size: u64) -> i64
    requires { size ≤ 1000000000000000 }
    ensures { result ≡ number_of minus size }
{
    if minus { -(size as i64) } else { size as i64 }
}

// A count as a number of the table.
pub fn cell_of(n: usize) -> i64
    requires { n ≤ 1000000000000000 }
    ensures { result ≡ pos n }
{
    n as i64
}

pub fn not_above(a: i64, b: i64) -> bool
    ensures { result ≡ le_z a b }
{
    a <= b
}

pub fn same(a: i64, b: i64) -> bool
    ensures { result ≡ eq_z a b }
{
    a == b
}

// The numbers of src over those of t from at on.
pub fn paste(t: &mut [i64], at: usize, src: &[i64])
    requires { at + length src.now ≤ length t.old }
    ensures { t.new ≡ pasted t.old at src.now }
{
    // A copy_from_slice asks whether the two overlap, so that four numbers are first laid out in memory.
    for (j, &x) in src.iter().enumerate() {
        t[at + j] = x;
    }
}
