// A data file cut into pieces at every line end, whatever its kind: the mender's records. Above it stands the mender.
#![tactic(auto)]

ghost use Rattle.std.specs.Prelude.{◌≡◌, false, cond, ◌+◌, ◌≤◌, ◌<◌, ltb, length, drop};
ghost use Rattle.std.specs.Int.Count.{count_trailing_zeros};
ghost use Rattle.lows.specs.Lows.{Clear};
ghost use Rattle.pieces.specs.rule.Pieces.{boundary_at};
ghost use Rattle.pieces.specs.Scan.{Under, low_bits};
ghost use Rattle.pieces.specs.Pieces.{LowFrom, Spans};

use cuts::Terminator;

// A piece from a place on: where it stops, how many of its bytes are below 32, and the boundary behind it (of no size where there is none).
#[derive(Clone, Copy)]
pub struct Span {
    pub stop: usize,
    pub lows: usize,
    pub boundary: Terminator,
}

// The boundary that stands at i, of no size where none does.
pub fn boundary_at(d: &[u8], i: usize) -> Terminator
    requires { i < length d.now }
    ensures { result ≡ boundary_at (drop i d.now) }
{
    let b = d[i];
    if b == 13 {
        return cuts::terminator_at(d, i, 13, 10);
    }
    if b == 10 {
        return cuts::terminator_at(d, i, 10, 13);
    }
    Terminator {
        first: 0,
        second: 0,
        size: 0,
    }
}

// 1 for a byte below 32.
fn flag(b: u8) -> u32
    ensures { (result ≡ cond (ltb b 32) 1 0) × (result ≤ 1) }
{
    u32::from(b < 32)
}

// The sixteen bytes from i on as bits, the first the lowest: 1 where a byte is below 32. Two in a turn: the compiler then compares all of
// them at once, and takes the bits from the machine as they are.
fn lows_of(d: &[u8], i: usize) -> u32
    requires { i + 16 ≤ length d.now }
    ensures { result ≡ low_bits d.now i 16 }
{
    let mut bits: u32 = 0;
    for h in (0..8).rev() {
        let k = i + 2 * h;
        let low = flag(d[k]);
        let next = flag(d[k + 1]);
        bits = 4 * bits + low + 2 * next;
    }
    bits
}

// The place of the lowest bit, from i on.
fn first_at(i: usize, bits: u32) -> usize
    requires { i < 9223372036854775808 }
    ensures { result ≡ i + count_trailing_zeros 32 bits }
{
    i + (u32::trailing_zeros(bits) as usize)
}

// The least of four bytes, sixteen apart.
fn least_of_four(d: &[u8], i: usize) -> u8
    requires { i + 49 ≤ length d.now }
    ensures { Under d.now i 4 result }
{
    let a = d[i].min(d[i + 16]);
    let b = d[i + 32].min(d[i + 48]);
    a.min(b)
}

// The least of sixteen bytes, sixteen apart.
fn least_of_many(d: &[u8], i: usize) -> u8
    requires { i + 241 ≤ length d.now }
    ensures { Under d.now i 16 result }
{
    let a = least_of_four(d, i).min(least_of_four(d, i + 64));
    let b = least_of_four(d, i + 128).min(least_of_four(d, i + 192));
    a.min(b)
}

// Is one of the 64 bytes from i on below 32? Only the least of each four, sixteen apart, is compared, and nothing leaves the loop early:
// the compiler keeps sixteen minima at once.
fn low_among_some(d: &[u8], i: usize) -> bool
    requires { i + 64 ≤ length d.now }
    ensures { result ≡ false → Clear d.now i (i + 64) }
{
    let mut low = false;
    for k in 0..16 {
        low = low | (least_of_four(d, i + k) < 32);
    }
    low
}

// The same for 256.
fn low_among_many(d: &[u8], i: usize) -> bool
    requires { i + 256 ≤ length d.now }
    ensures { result ≡ false → Clear d.now i (i + 256) }
{
    let mut low = false;
    for k in 0..16 {
        low = low | (least_of_many(d, i + k) < 32);
    }
    low
}

// A place from `from` on with no byte below 32 before it, by 256 bytes.
fn plain_most(d: &[u8], from: usize) -> usize
    requires { from ≤ length d.now }
    ensures { Clear d.now from result }
{
    let n = d.len();
    let mut i = from;
    // no `for`: the place where it stops is the answer
    while n - i >= 256 {
        if low_among_many(d, i) {
            return i;
        }
        i += 256;
    }
    i
}

// The same by 64 bytes; where the first two times 64 have none, by 256.
fn plain_far(d: &[u8], from: usize) -> usize
    requires { from ≤ length d.now }
    ensures { Clear d.now from result }
{
    let n = d.len();
    let mark = from + 128;
    let mut i = from;
    // no `for`: the same, and a call inside moves the place
    while n - i >= 64 {
        if low_among_some(d, i) {
            return i;
        }
        i += 64;
        if i == mark {
            i = plain_most(d, i);
        }
    }
    i
}

// The same by sixteen bytes, of which the last begin at `last` at most: the byte below 32 itself, where one is among them.
fn plain_near(d: &[u8], from: usize, last: usize) -> usize
    requires { (from ≤ length d.now) × (last + 16 ≤ length d.now) }
    ensures { Clear d.now from result }
{
    let mut i = from;
    // no `for`: the place where it stops is the answer
    while i <= last {
        let bits = lows_of(d, i);
        if bits != 0 {
            return first_at(i, bits);
        }
        i += 16;
    }
    i
}

// The same: a short record ends among the first thirty-two bytes, and only beyond them is it worth while to look at many together.
fn plain_from(d: &[u8], from: usize) -> usize
    requires { from ≤ length d.now }
    ensures { Clear d.now from result }
{
    let n = d.len();
    if n - from < 32 {
        return from;
    }
    let bits = lows_of(d, from);
    if bits != 0 {
        return first_at(from, bits);
    }
    let next = from + 16;
    let more = lows_of(d, next);
    if more != 0 {
        return first_at(next, more);
    }
    let far = plain_far(d, next + 16);
    plain_near(d, far, n - 16)
}

// The first byte below 32 from a place on, or the end.
pub fn low_from(d: &[u8], from: usize) -> usize
    requires { from ≤ length d.now }
    ensures { LowFrom d.now from result }
{
    for i in plain_from(d, from)..d.len() {
        if d[i] < 32 {
            return i;
        }
    }
    d.len()
}

// The piece from a place on. Only bytes below 32 are looked at: no other is a boundary's.
pub fn next_piece(d: &[u8], from: usize) -> Span
    requires { from < length d.now }
    ensures { Spans d.now from result }
{
    let mut i = low_from(d, from);
    let mut lows: usize = 0;
    while i < d.len() {
        let boundary = boundary_at(d, i);
        if boundary.size != 0 {
            return Span {
                stop: i,
                lows,
                boundary,
            };
        }
        lows += 1;
        i = low_from(d, i + 1);
    }
    let boundary = Terminator {
        first: 0,
        second: 0,
        size: 0,
    };
    Span {
        stop: i,
        lows,
        boundary,
    }
}
