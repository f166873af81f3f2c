// How far bytes go on with none below 32: sixty-four are looked at together, then sixteen, so that long stretches of text cost little.
// Above it stand the records of a file and the judge of a record.
#![tactic(auto)]

ghost use Rattle.std.specs.Prelude.{◌≡◌, true, ◌+◌, ◌≤◌, length};
ghost use Rattle.lows.specs.Lows.{low_among, Clear};

// Is one of the N bytes from i on below 32? Nothing leaves the loop early: that lets the compiler look at all of them at once.
fn low_among<const N: usize>(s: &[u8], i: usize) -> bool
    requires { i + N ≤ length s.now }
    ensures { result ≡ low_among s.now i N }
{
    let mut low = false;
    for k in 0..N {
        low = low | (s[i + k] < 32);
    }
    low
}

// A place from `from` on with no byte below 32 before it: less than sixty-four bytes before the end, or before the first such byte. Long
// records are mostly gone through here.
fn plain_far(s: &[u8], from: usize) -> usize
    requires { from ≤ length s.now }
    ensures { Clear s.now from result }
{
    let n = s.len();
    let mut i = from;
    // No `for`: where the steps stop is the answer.
    while n - i >= 64 {
        if low_among::<64>(s, i) {
            return i;
        }
        i += 64;
    }
    i
}

// A place from `from` on with no byte below 32 before it: the end, or at most fifteen bytes before the first such byte.
pub fn plain_to(s: &[u8], from: usize) -> usize
    requires { from ≤ length s.now }
    ensures { Clear s.now from result }
{
    let n = s.len();
    if n < 16 {
        return from;
    }
    let last = n - 16;
    let mut i = plain_far(s, from);
    // No `for`: where the steps stop is the answer.
    while i <= last {
        if low_among::<16>(s, i) {
            return i;
        }
        i += 16;
    }
    // What is left is among the last sixteen.
    if low_among::<16>(s, last) {
        return i;
    }
    n
}

// Is no byte below 32? Few bytes are looked at one by one.
pub fn all_plain(s: &[u8]) -> bool
    ensures { result ≡ true → Clear s.now 0 (length s.now) }
{
    let n = s.len();
    let from = if n < 16 { 0 } else { plain_to(s, 0) };
    for i in from..n {
        if s[i] < 32 {
            return false;
        }
    }
    true
}

// Is none of the n bytes from a place on below 32, of sixteen or more? For short stretches of long data, which need no part of their own.
pub fn plain_short(s: &[u8], from: usize, n: usize) -> bool
    requires { (16 ≤ n) × (from + n ≤ length s.now) }
    ensures { result ≡ true → Clear s.now from (from + n) }
{
    let last = from + (n - 16);
    let mut i = from;
    // No `for`: a step_by was tried, and takes thirteen instructions a turn for ten, as it asks twice whether it is at the end.
    while i < last {
        if low_among::<16>(s, i) {
            return false;
        }
        i += 16;
    }
    // What is left is among the last sixteen.
    !low_among::<16>(s, last)
}
