// The classes of the 256 bytes, upper case, the powers of ten from 0 to 15 and the count of a number's digits. Above it stand
// the scanners of a definition and everything that reads, writes or measures numbers.
#![tactic(auto)]

ghost use Rattle.std.specs.Prelude.{◌≡◌, ◌^◌, ◌<◌, ◌≤◌};
ghost use Rattle.ascii.specs.rule.Class.{class_of, upper_of};
ghost use Rattle.ascii.specs.Class.{Classes};
ghost use Rattle.ascii.specs.rule.Tens.{Tens, digits_of};

pub const DROPPED: u8 = 0;

pub const SPACE: u8 = 1;

pub const DIGIT: u8 = 2;

pub const LETTER: u8 = 3;

pub const QUOTE: u8 = 4;

pub const BRACE: u8 = 5;

pub const ANGLE: u8 = 6;

pub const OTHER: u8 = 7;

const CLASS: [u8; 256] = [
    0, 0, 0, 0, 0, 0, 0, 0, 0, 0, 0, 0, 0, 0, 0, 0, 0, 0, 0, 0, 0, 0, 0, 0, 0, 0, 0, 0, 0, 0, 0, 0,
    1, 7, 4, 7, 7, 7, 7, 7, 7, 7, 7, 7, 7, 7, 7, 7, 2, 2, 2, 2, 2, 2, 2, 2, 2, 2, 7, 7, 6, 7, 6, 7,
    7, 3, 3, 3, 3, 3, 3, 3, 3, 3, 3, 3, 3, 3, 3, 3, 3, 3, 3, 3, 3, 3, 3, 3, 3, 3, 3, 7, 7, 7, 7, 7,
    7, 3, 3, 3, 3, 3, 3, 3, 3, 3, 3, 3, 3, 3, 3, 3, 3, 3, 3, 3, 3, 3, 3, 3, 3, 3, 3, 5, 7, 5, 7, 7,
    7, 7, 7, 7, 7, 7, 7, 7, 7, 7, 7, 7, 7, 7, 7, 7, 7, 7, 7, 7, 7, 7, 7, 7, 7, 7, 7, 7, 7, 7, 7, 7,
    7, 7, 7, 7, 7, 7, 7, 7, 7, 7, 7, 7, 7, 7, 7, 7, 7, 7, 7, 7, 7, 7, 7, 7, 7, 7, 7, 7, 7, 7, 7, 7,
    7, 7, 7, 7, 7, 7, 7, 7, 7, 7, 7, 7, 7, 7, 7, 7, 7, 7, 7, 7, 7, 7, 7, 7, 7, 7, 7, 7, 7, 7, 7, 7,
    7, 7, 7, 7, 7, 7, 7, 7, 7, 7, 7, 7, 7, 7, 7, 7, 7, 7, 7, 7, 7, 7, 7, 7, 7, 7, 7, 7, 7, 7, 7, 7,
];

// The classes of all bytes, for a public call to take once and lend to every scanner: a constant is laid out anew wherever
// it is used.
pub fn classes() -> [u8; 256]
    ensures { Classes result }
{
    CLASS
}

pub fn class_of(classes: &[u8; 256], b: u8) -> u8
    requires { Classes classes.now }
    ensures { result ≡ class_of b }
{
    classes[b as usize]
}

pub fn upper(b: u8) -> u8
    ensures { result ≡ upper_of b }
{
    if b < 97 {
        return b;
    }
    if b <= 122 { b - 32 } else { b }
}

const POWERS: [u64; 16] = [
    1,
    10,
    100,
    1_000,
    10_000,
    100_000,
    1_000_000,
    10_000_000,
    100_000_000,
    1_000_000_000,
    10_000_000_000,
    100_000_000_000,
    1_000_000_000_000,
    10_000_000_000_000,
    100_000_000_000_000,
    1_000_000_000_000_000,
];

// The powers of ten from 0 to 15, to be taken once and lent like the classes.
pub fn powers() -> [u64; 16]
    ensures { Tens result }
{
    POWERS
}

pub fn power(powers: &[u64; 16], k: usize) -> u64
    requires tens { Tens powers.now }
    requires k_bound { k < 16 }
    ensures { result ≡ 10 ^ k }
{
    powers[k]
}

// How many digits n has, at least one; 16 for every n of more than 15 digits.
pub fn digit_count(powers: &[u64; 16], n: u64) -> usize
    requires { Tens powers.now }
    ensures { result ≡ digits_of n }
{
    for k in 1..16 {
        if n < power(powers, k) {
            return k;
        }
    }
    16
}
