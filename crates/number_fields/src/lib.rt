// Numbers and codes read where they stand in a text, as export writes them: what is read, and the place behind it. No field is cut for
// them. Above it stand the judges of fields.
#![tactic(auto)]

ghost use Rattle.std.specs.Prelude.{◌≡◌, true, ◌+◌, ◌≤◌, ◌<◌, length};
ghost use Rattle.lines.specs.rule.Text.{numeral};
ghost use Rattle.number_fields.specs.Reads.{Reads, Digits, WholeAt, SizeAt, NumberAt, CodeAt};

// Digits that were read: their number, and the place behind them. Where there are none it is the place where they were due.
#[derive(Clone, Copy)]
pub struct Whole {
    pub n: u64,
    pub at: usize,
}

// A number that was read, and the place behind it, likewise.
#[derive(Clone, Copy)]
pub struct Number {
    pub z: i64,
    pub at: usize,
}

// A code that was read, and the place behind it; 0 where there was none.
#[derive(Clone, Copy)]
pub struct Code {
    pub n: usize,
    pub at: usize,
}

// A size of fewer digits may get one more.
const FEW: u64 = 100_000_000_000_000;

// So many bytes are looked at for a code, the one behind it too: near the end of a text none is read.
const AHEAD: usize = 5;

fn is_digit(b: u8) -> bool
    ensures { result ≡ true → (48 ≤ b) × (b ≤ 57) }
{
    if b < 48 {
        return false;
    }
    b <= 57
}

// The digits from a place on, behind those that say m.
fn digits_from(d: &[u8], from: usize, m: u64) -> Whole
    requires { (from ≤ length d.now) × (m < 1000000000000000) }
    ensures { Digits d.now from m result.n result.at }
{
    let mut n = m;
    for i in from..d.len() {
        let b = d[i];
        if !is_digit(b) {
            return Whole { n, at: i };
        }
        if FEW <= n {
            return Whole { n, at: i };
        }
        n = n * 10 + (b - 48) as u64;
    }
    Whole { n, at: d.len() }
}

// The count from a place on: a 0, or digits of which the first is none.
fn whole_from(d: &[u8], at: usize) -> Whole
    requires { at < length d.now }
    ensures { WholeAt d.now at result.n result.at }
{
    let b = d[at];
    if !is_digit(b) {
        return Whole { n: 0, at };
    }
    let n = (b - 48) as u64;
    if n == 0 {
        return Whole { n, at: at + 1 };
    }
    digits_from(d, at + 1, n)
}

// The size with k decimals from a place on.
fn size_from(d: &[u8], at: usize, k: usize) -> Whole
    ensures { SizeAt k d.now at result.n result.at }
{
    if d.len() <= at {
        return Whole { n: 0, at };
    }
    let a = whole_from(d, at);
    let p = a.at;
    if k == 0 {
        return a;
    }
    if p == at {
        return Whole { n: 0, at };
    }
    if d.len() <= p {
        return Whole { n: 0, at };
    }
    if d[p] != 46 {
        return Whole { n: 0, at };
    }
    let q = p + 1;
    let b = digits_from(d, q, a.n);
    let to = b.at;
    if to - q != k {
        return Whole { n: 0, at };
    }
    b
}

// THE NUMBER with k decimals from a place on.
pub fn number_from(d: &[u8], at: usize, k: usize) -> Number
    ensures { NumberAt k d.now at result.z result.at }
{
    if d.len() <= at {
        return Number { z: 0, at };
    }
    if d[at] != 45 {
        let a = size_from(d, at, k);
        return Number {
            z: cells::number_of(false, a.n),
            at: a.at,
        };
    }
    let from = at + 1;
    let a = size_from(d, from, k);
    let n = a.n;
    if n == 0 {
        return Number { z: 0, at };
    }
    if a.at == from {
        return Number { z: 0, at };
    }
    Number {
        z: cells::number_of(true, n),
        at: a.at,
    }
}

// The code whose first three digits, from a place on, say n.
fn code_end(d: &[u8], at: usize, n: usize) -> Code
    requires { (at + 5 ≤ length d.now) × (1 ≤ n) × (n ≤ 999) × Reads d.now at (numeral n) (at + 3) }
    ensures { CodeAt d.now at result.n result.at }
{
    let b = d[at + 3];
    if !is_digit(b) {
        return Code { n, at: at + 3 };
    }
    Code {
        n: n * 10 + (b - 48) as usize,
        at: at + 4,
    }
}

// The code whose first digit, at a place, says n. The digits are taken one by one, with no loop.
fn code_more(d: &[u8], at: usize, n: usize) -> Code
    requires { (at + 5 ≤ length d.now) × (1 ≤ n) × (n ≤ 9) × Reads d.now at (numeral n) (at + 1) }
    ensures { CodeAt d.now at result.n result.at }
{
    let b = d[at + 1];
    if !is_digit(b) {
        return Code { n, at: at + 1 };
    }
    let m = n * 10 + (b - 48) as usize;
    let c = d[at + 2];
    if !is_digit(c) {
        return Code { n: m, at: at + 2 };
    }
    code_end(d, at, m * 10 + (c - 48) as usize)
}

// THE CODE of one to four digits from a place on, with no zero in front.
pub fn code_from(d: &[u8], at: usize) -> Code
    ensures { CodeAt d.now at result.n result.at }
{
    let len = d.len();
    if len < AHEAD {
        return Code { n: 0, at };
    }
    if len - AHEAD < at {
        return Code { n: 0, at };
    }
    let b = d[at];
    if !is_digit(b) {
        return Code { n: 0, at };
    }
    if b == 48 {
        return Code { n: 0, at };
    }
    code_more(d, at, (b - 48) as usize)
}
