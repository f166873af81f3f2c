// How far bytes go on with none of three or of two among them, as quotes, braces or angles: eight or sixteen bytes are looked at
// together, so that a long string or comment costs little. Above it stand the strings and comments of a definition.
#![tactic(auto)]

ghost use Rattle.std.specs.Prelude.{◌≡◌, ◌+◌, ◌≤◌, length};
ghost use Rattle.quotes.specs.Quotes.{is_mark, mark_among, Unmarked};

// Is one of the N bytes from i on x, y or z? Nothing leaves the loop early, and each of the three is looked for by itself: so the
// compiler looks at all bytes at once.
fn mark_among<const N: usize>(s: &[u8], i: usize, x: u8, y: u8, z: u8) -> bool
    requires { i + N ≤ length s.now }
    ensures { result ≡ mark_among (is_mark x y z) s.now i N }
{
    let mut any_x = false;
    let mut any_y = false;
    let mut any_z = false;
    for k in 0..N {
        let b = s[i + k];
        any_x = any_x | (b == x);
        any_y = any_y | (b == y);
        any_z = any_z | (b == z);
    }
    any_x | (any_y | any_z)
}

// A place from `from` on with none of them before it, at whole steps of N.
fn skip_wide<const N: usize>(s: &[u8], from: usize, x: u8, y: u8, z: u8) -> usize
    requires { 1 ≤ N }
    ensures { Unmarked (is_mark x y z) s.now from result }
{
    let n = s.len();
    if n < N {
        return from;
    }
    let last = n - N;
    let mut i = from;
    // No `for`: where the steps stop is the answer.
    while i <= last {
        if mark_among::<N>(s, i, x, y, z) {
            return i;
        }
        i += N;
    }
    i
}

// A place from `from` on with none of them before it: in fact that of the first, or the end.
fn skip<const N: usize>(s: &[u8], from: usize, x: u8, y: u8, z: u8) -> usize
    requires { 1 ≤ N }
    ensures { Unmarked (is_mark x y z) s.now from result }
{
    let start = skip_wide::<N>(s, from, x, y, z);
    // `from` may lie behind the end.
    if s.len() <= start {
        return start;
    }
    for i in start..s.len() {
        let b = s[i];
        if (b == x) | ((b == y) | (b == z)) {
            return i;
        }
    }
    s.len()
}

// That place where three bytes are looked for.
pub fn skip_plain(s: &[u8], from: usize, x: u8, y: u8, z: u8) -> usize
    ensures { Unmarked (is_mark x y z) s.now from result }
{
    skip::<16>(s, from, x, y, z)
}

// The same for two. Most strings are short, so that they are gone through in smaller steps than comments.
pub fn skip_pair(s: &[u8], from: usize, x: u8, y: u8) -> usize
    ensures { Unmarked (is_mark x y y) s.now from result }
{
    skip::<8>(s, from, x, y, y)
}
