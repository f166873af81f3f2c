// Numbers as little-endian bytes at a place of a lent list. Above it stands the matrix.
#![tactic(auto)]

ghost use Rattle.std.specs.Prelude.{◌≡◌, not, ◌+◌, ◌%◌, ◌≤◌, T, length};
ghost use Rattle.std.specs.Float.{binary64};
ghost use Rattle.std.specs.Float.Ieee.{is_nan, nan_bits, of_bits, to_bits};
ghost use Rattle.little.specs.rule.Bytes.{little_bytes, put_at};
ghost use Rattle.little.specs.Bytes.{number_at};

// The width lowest bytes of n, the lowest first.
pub fn put_number(out: &mut [u8], at: usize, n: u64, width: usize)
    requires { at + width ≤ length out.old }
    ensures { out.new ≡ put_at out.old at (little_bytes width n) }
{
    let mut left = n;
    for i in 0..width {
        out[at + i] = (left % 256) as u8;
        left = left / 256;
    }
}

pub fn put_u32(out: &mut [u8], at: usize, n: u32)
    requires { at + 4 ≤ length out.old }
    ensures { out.new ≡ put_at out.old at (little_bytes 4 n) }
{
    put_number(out, at, u64::from(n), 4);
}

pub fn put_u64(out: &mut [u8], at: usize, n: u64)
    requires { at + 8 ≤ length out.old }
    ensures { out.new ≡ put_at out.old at (little_bytes 8 n) }
{
    put_number(out, at, n, 8);
}

// The bits of x, which are defined where x is no NaN.
pub fn put_f64(out: &mut [u8], at: usize, x: f64)
    requires at_in_bounds { at + 8 ≤ length out.old }
    requires t { T (not (is_nan x)) }
    ensures { out.new ≡ put_at out.old at (little_bytes 8 (to_bits binary64 x)) }
{
    put_number(out, at, f64::to_bits(x), 8);
}

// The number that width bytes say, the lowest first.
pub fn get_number(s: &[u8], at: usize, width: usize) -> u64
    requires width_in_bounds { at + width ≤ length s.now }
    requires width_bound { width ≤ 8 }
    ensures { result ≡ number_at width at s.now }
{
    let mut n = 0;
    for i in (0..width).rev() {
        n = n * 256 + u64::from(s[at + i]);
    }
    n
}

pub fn get_u64(s: &[u8], at: usize) -> u64
    requires { at + 8 ≤ length s.now }
    ensures { result ≡ number_at 8 at s.now }
{
    get_number(s, at, 8)
}

// The float of the bits that stand there, which must be no NaN's.
pub fn get_f64(s: &[u8], at: usize) -> f64
    requires at_in_bounds { at + 8 ≤ length s.now }
    requires t { T (not (nan_bits binary64 (number_at 8 at s.now))) }
    ensures { result ≡ of_bits binary64 (number_at 8 at s.now) }
{
    f64::from_bits(get_number(s, at, 8))
}
