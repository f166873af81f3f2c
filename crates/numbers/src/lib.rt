// What the bytes of a number say: a code (SINGLE, and a subfield of a spread) and a quantity by its format. The point has its
// place from the right, so a quantity is digits, the point, digits, and no state is kept. Above it stand the readings of fields.
#![tactic(auto)]

ghost use Rattle.std.specs.Prelude.{◌≡◌, ◌+◌, ◌*◌, ◌^◌, ◌≤◌, ◌<◌, ltb, length, drop};
ghost use Rattle.fields.specs.rule.Number.{code_of, quantity_of, amount_of, unspaced};
ghost use Rattle.cells.specs.rule.Cell.{number_of};
ghost use Rattle.widths.specs.rule.Width.{tail_of, least_whole};
ghost use Rattle.numbers.specs.Numeral.{said_of, digits_read, decimals_read};
ghost use Rattle.numbers.specs.rule.Format.{FormatFacts};

use layout::Format;

// What bytes say: nothing, where all are spaces; a number; or that they have no number's form.
#[derive(Clone, Copy)]
pub enum Numeral {
    Blank,
    Says(i64),
    Wrong,
}

// How many spaces stand in front.
fn leading_spaces(s: &[u8]) -> usize
    ensures { (result ≤ length s.now) × (unspaced s.now ≡ drop result s.now) }
{
    for (p, b) in s.iter().enumerate() {
        if *b != 32 {
            return p;
        }
    }
    s.len()
}

// The number that digits say after the number n, unless they aren't all digits.
fn digits_after(n: u64, s: &[u8]) -> Option<u64>
    requires { (n + 1) * 10 ^ length s.now ≤ 10 ^ 18 }
    ensures { result ≡ digits_read n s.now }
{
    let mut value = n;
    for &b in s {
        if b < 48 {
            return None;
        }
        if 57 < b {
            return None;
        }
        value = value * 10 + u64::from(b) - 48;
    }
    Some(value)
}

fn signed(minus: bool, size: u64) -> i64
    requires { size < 10 ^ 18 }
    ensures { result ≡ number_of minus size }
{
    if minus {
        0 - (size as i64)
    } else {
        size as i64
    }
}

// SINGLE, and a subfield: spaces, then digits.
pub fn code(s: &[u8]) -> Numeral
    requires { length s.now ≤ 17 }
    ensures { said_of result ≡ code_of s.now }
{
    let p = leading_spaces(s);
    if s.len() <= p {
        return Numeral::Blank;
    }
    match digits_after(0, &s[p..]) {
        Some(n) => Numeral::Says(signed(false, n)),
        None => Numeral::Wrong,
    }
}

// The decimals after the whole part.
fn decimals_after(minus: bool, whole: u64, s: &[u8]) -> Numeral
    requires { (whole + 1) * 10 ^ length s.now ≤ 10 ^ 18 }
    ensures { said_of result ≡ decimals_read minus whole s.now }
{
    match digits_after(whole, s) {
        Some(n) => Numeral::Says(signed(minus, n)),
        None => Numeral::Wrong,
    }
}

// Whether n bytes are too few for the digits that no number goes without, and for the tail, the point and the decimals.
fn too_short(f: Format, tail: usize, n: usize) -> bool
    requires { (tail ≡ tail_of f) × (tail ≤ 10) }
    ensures { result ≡ ltb n (least_whole f + tail_of f) }
{
    if tail < n {
        return false;
    }
    n < widths::least_whole(f) + tail
}

// What follows the minus: digits, the point and the decimals as in the block.
fn amount(f: Format, minus: bool, s: &[u8]) -> Numeral
    requires format_facts { FormatFacts f }
    requires s_len_bound { length s.now ≤ 17 }
    ensures { said_of result ≡ amount_of f minus s.now }
{
    let tail = widths::tail(f);
    let n = s.len();
    if too_short(f, tail, n) {
        return Numeral::Wrong;
    }
    let k = n - tail;
    match digits_after(0, &s[..k]) {
        Some(whole) => {
            if f.point == 0 {
                return Numeral::Says(signed(minus, whole));
            }
            if s[k] != 46 {
                return Numeral::Wrong;
            }
            let d = k + 1;
            decimals_after(minus, whole, &s[d..])
        }
        None => Numeral::Wrong,
    }
}

// QUANTITY: spaces, a minus or none, and the amount.
pub fn quantity(f: Format, s: &[u8]) -> Numeral
    requires format_facts { FormatFacts f }
    requires s_len_bound { length s.now ≤ 17 }
    ensures { said_of result ≡ quantity_of f s.now }
{
    let p = leading_spaces(s);
    if s.len() <= p {
        return Numeral::Blank;
    }
    if s[p] == 45 {
        let q = p + 1;
        return amount(f, true, &s[q..]);
    }
    amount(f, false, &s[p..])
}
