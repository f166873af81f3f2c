// Numbers of a table at equal steps, as the idents of its rows or the values of a row's lines: whether they rise, whether they differ,
// the least and the most of them. Above it stands the test of a table.
#![tactic(auto)]

ghost use Rattle.std.specs.Prelude.{◌≡◌, cond, true, ℕ, ◌+◌, ◌*◌, ◌≤◌, ◌<◌, length};
ghost use Rattle.std.specs.Int.Signed.{le_z};
ghost use Rattle.cells.specs.rule.Cell.{count_of};
ghost use Rattle.strides.specs.Stride.{Strided, above, all_rise, mark_of};
ghost use Rattle.strides.specs.rule.Stride.{stride_at, number_new, all_differ};
ghost use Rattle.strides.specs.Hull.{hull_with, Hulled, Blocked};

// The least and the most of some numbers.
#[derive(Clone, Copy)]
pub struct Hull {
    pub least: i64,
    pub most: i64,
}

// Whether some numbers differ, and the least and the most of them.
#[derive(Clone, Copy)]
pub struct Block {
    pub differ: bool,
    pub hull: Hull,
}

// So many numbers are sooner held against each other than marked.
const FEW: usize = 24;

// Number k of n, from `at` on, `step` apart.
pub fn number_at(t: &[i64], at: usize, step: usize, n: usize, k: usize) -> i64
    requires { Strided t.now at step n × (k < n) }
    ensures { result ≡ stride_at t.now at step k }
{
    t[at + step * k]
}

// Is number k above the one before it?
fn above_last(t: &[i64], at: usize, step: usize, n: usize, k: usize) -> bool
    requires { Strided t.now at step n × (k < n) × (1 ≤ k) }
    ensures { result ≡ above (stride_at t.now at step) k }
{
    !cells::not_above(
        number_at(t, at, step, n, k),
        number_at(t, at, step, n, k - 1),
    )
}

// Does each number rise above the one before it? The usual case, in which no two are equal. Two are tested in a turn, and the last once
// more where it was one of them.
fn all_rise(t: &[i64], at: usize, step: usize, n: usize) -> bool
    requires { Strided t.now at step n }
    ensures { result ≡ all_rise (stride_at t.now at step) n }
{
    if n == 0 {
        return true;
    }
    let pairs = (n - 1) / 2;
    for j in 0..pairs {
        let k = 2 * j + 1;
        if !above_last(t, at, step, n, k) {
            return false;
        }
        if !above_last(t, at, step, n, k + 1) {
            return false;
        }
    }
    if n == 1 {
        return true;
    }
    above_last(t, at, step, n, n - 1)
}

// Does number k differ from those before it?
fn number_new(t: &[i64], at: usize, step: usize, n: usize, k: usize) -> bool
    requires { Strided t.now at step n × (k < n) }
    ensures { result ≡ number_new (stride_at t.now at step) k }
{
    let x = number_at(t, at, step, n, k);
    for j in 0..k {
        if cells::same(x, number_at(t, at, step, n, j)) {
            return false;
        }
    }
    true
}

// Where a number leaves its mark: equal numbers at the same place, and few others there too, since 16,381 is a prime.
fn mark_of(z: i64) -> usize
    ensures { (result ≡ mark_of z) × (result < 16384) }
{
    (cells::signed_of(z).size % 16_381) as usize
}

// Does number k differ from those before it, where no mark at its place says that it does?
fn new_by_mark(t: &[i64], at: usize, step: usize, n: usize, k: usize, mark: u8) -> bool
    requires strided { Strided t.now at step n × (k < n) }
    requires k_value { mark ≡ 0 → number_new (stride_at t.now at step) k ≡ true }
    ensures { result ≡ number_new (stride_at t.now at step) k }
{
    if mark == 0 {
        return true;
    }
    number_new(t, at, step, n, k)
}

// Do the numbers differ? Each leaves a mark, and is held against those before it only where there was one.
fn differ_marked(t: &[i64], at: usize, step: usize, n: usize, marks: &mut [u8]) -> bool
    requires { Strided t.now at step n × (length marks.old ≡ 16384) }
    ensures { result ≡ all_differ (stride_at t.now at step) n }
{
    for k in 0..n {
        let place = mark_of(number_at(t, at, step, n, k));
        let mark = marks[place];
        if !new_by_mark(t, at, step, n, k, mark) {
            return false;
        }
        marks[place] = 1;
    }
    true
}

fn differ_by_marks(t: &[i64], at: usize, step: usize, n: usize) -> bool
    requires { Strided t.now at step n }
    ensures { result ≡ all_differ (stride_at t.now at step) n }
{
    let mut marks = [0u8; 16384];
    differ_marked(t, at, step, n, &mut marks)
}

// Do the numbers differ? The same, where each leaves its mark at its own place.
fn differ_placed(t: &[i64], at: usize, step: usize, n: usize, marks: &mut [u8]) -> bool
    requires { Strided t.now at step n × ((k : ℕ) → k < n → count_of (stride_at t.now at step k) < length marks.old) }
    ensures { result ≡ all_differ (stride_at t.now at step) n }
{
    for k in 0..n {
        let own = cells::count_of(number_at(t, at, step, n, k));
        let mark = marks[own];
        if !new_by_mark(t, at, step, n, k, mark) {
            return false;
        }
        marks[own] = 1;
    }
    true
}

// Do numbers below N differ? Fewer places are soon cleared.
fn differ_below<const N: usize>(t: &[i64], at: usize, step: usize, n: usize) -> bool
    requires { (N ≤ 16384) × Strided t.now at step n × ((k : ℕ) → k < n → count_of (stride_at t.now at step k) < N) }
    ensures { result ≡ all_differ (stride_at t.now at step) n }
{
    let mut marks = [0u8; N];
    differ_placed(t, at, step, n, &mut marks)
}

// Do the numbers differ? Each is held against all those before it.
fn differ_pairwise(t: &[i64], at: usize, step: usize, n: usize) -> bool
    requires { Strided t.now at step n }
    ensures { result ≡ all_differ (stride_at t.now at step) n }
{
    for k in 0..n {
        if !number_new(t, at, step, n, k) {
            return false;
        }
    }
    true
}

// The first number where it is at most the second, else the second.
pub fn lesser(a: i64, b: i64) -> i64
    ensures { result ≡ cond (le_z a b) a b }
{
    a.min(b)
}

// The second number where the first is at most it, else the first.
pub fn greater(a: i64, b: i64) -> i64
    ensures { result ≡ cond (le_z a b) b a }
{
    a.max(b)
}

// The hull with one number more.
fn hull_with(h: Hull, z: i64) -> Hull
    ensures { result ≡ hull_with h z }
{
    let least = h.least;
    let most = h.most;
    Hull {
        least: lesser(least, z),
        most: greater(z, most),
    }
}

// The least and the most of n numbers.
pub fn hull_of(t: &[i64], at: usize, step: usize, n: usize) -> Hull
    requires { Strided t.now at step n × (1 ≤ n) }
    ensures { Hulled (stride_at t.now at step) n result }
{
    let first = number_at(t, at, step, n, 0);
    let mut h = Hull {
        least: first,
        most: first,
    };
    for k in 1..n {
        h = hull_with(h, number_at(t, at, step, n, k));
    }
    h
}

// Do many numbers differ, whose least and most are known? Those that are no larger than a room has places leave their own marks.
fn differ_many(t: &[i64], at: usize, step: usize, n: usize, h: Hull) -> bool
    requires { Strided t.now at step n × Hulled (stride_at t.now at step) n h }
    ensures { result ≡ all_differ (stride_at t.now at step) n }
{
    let least = h.least;
    let most = h.most;
    if cells::not_above(0, least) & cells::not_above(most, 1_023) {
        return differ_below::<1024>(t, at, step, n);
    }
    if cells::not_above(0, least) & cells::not_above(most, 16_383) {
        return differ_below::<16384>(t, at, step, n);
    }
    differ_by_marks(t, at, step, n)
}

// Whether many numbers differ, and the least and the most of them. The marks take 16 KiB of stack. They stand in this call alone: it has
// two callers and is too long to be put into them, so that a table whose numbers rise, or are few, is tested without.
fn block_many(t: &[i64], at: usize, step: usize, n: usize) -> Block
    requires { Strided t.now at step n × (1 ≤ n) }
    ensures { Blocked (stride_at t.now at step) n result }
{
    let hull = hull_of(t, at, step, n);
    let differ = differ_many(t, at, step, n, hull);
    Block { differ, hull }
}

// The same of numbers that don't rise. Few are soon held against each other; many are marked.
fn block_unordered(t: &[i64], at: usize, step: usize, n: usize) -> Block
    requires { Strided t.now at step n × (1 ≤ n) }
    ensures { Blocked (stride_at t.now at step) n result }
{
    if FEW < n {
        return block_many(t, at, step, n);
    }
    let hull = hull_of(t, at, step, n);
    let differ = differ_pairwise(t, at, step, n);
    Block { differ, hull }
}

// Do the numbers differ?
pub fn differ(t: &[i64], at: usize, step: usize, n: usize) -> bool
    requires { Strided t.now at step n }
    ensures { result ≡ all_differ (stride_at t.now at step) n }
{
    if all_rise(t, at, step, n) {
        return true;
    }
    if n <= FEW {
        return differ_pairwise(t, at, step, n);
    }
    let block = block_many(t, at, step, n);
    block.differ
}

// Whether n numbers differ, and the least and the most of them.
pub fn block_of(t: &[i64], at: usize, step: usize, n: usize) -> Block
    requires { Strided t.now at step n × (1 ≤ n) }
    ensures { Blocked (stride_at t.now at step) n result }
{
    if all_rise(t, at, step, n) {
        let hull = Hull {
            least: number_at(t, at, step, n, 0),
            most: number_at(t, at, step, n, n - 1),
        };
        return Block { differ: true, hull };
    }
    block_unordered(t, at, step, n)
}
