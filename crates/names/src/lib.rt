// STANDARD NAMES: a decoded name has 1 to 8 letters or digits and begins with a letter, and no two names agree when case is set
// aside. A name becomes one number, 0 where it is ill-formed, so that two names agree exactly when their numbers do. Above it stands
// the definition as a whole.
#![tactic(auto)]

ghost use Rattle.std.specs.Prelude.{◌≡◌, cond, true, ◌≤◌, eqb};
ghost use Rattle.ascii.specs.Class.{Classes};
ghost use Rattle.scan.specs.rule.Text.{text};
ghost use Rattle.marks.specs.rule.Spelling.{decode_of};
ghost use Rattle.names.specs.Name.{fits, key_of};
ghost use Rattle.names.specs.Clash.{fault_of};

use marks::{Inside, Part};
use signs::Sign;

// Whether a byte may stand behind so many bytes of a name: a letter, or not first a digit.
fn may_stand(classes: &[u8; 256], count: usize, b: u8) -> bool
    requires { Classes classes.now }
    ensures { result ≡ fits count b }
{
    let class = ascii::class_of(classes, b);
    (class == ascii::LETTER) | ((0 < count) & (class == ascii::DIGIT))
}

// The number of a name that is nothing but letters and digits up to its closing quote; of another it is not sure.
#[derive(Clone, Copy)]
pub struct Key {
    pub key: u64,
    pub sure: bool,
}

fn plain_key(classes: &[u8; 256], d: &[u8], at: usize) -> Key
    requires { Classes classes.now }
    ensures { result.sure ≡ true → result.key ≡ key_of 0 0 (decode_of Inside.Plain 0 (text d.now at)) }
{
    let mut count: usize = 0;
    let mut key: u64 = 0;
    for n in at..d.len() {
        let b = d[n];
        if b == 34 {
            return Key { key, sure: true };
        }
        if count == 8 {
            return Key { key, sure: false };
        }
        if !may_stand(classes, count, b) {
            return Key { key, sure: false };
        }
        key = key * 256 + u64::from(ascii::upper(b));
        count += 1;
    }
    Key { key, sure: false }
}

// The same as name_key, sign by sign.
fn spelled_key(classes: &[u8; 256], d: &[u8], at: usize) -> u64
    requires { Classes classes.now }
    ensures { result ≡ key_of 0 0 (decode_of Inside.Plain 0 (text d.now at)) }
{
    let mut n = at;
    let mut s = Inside::Plain;
    let mut key: u64 = 0;
    for count in 0..9 {
        match marks::next_part(classes, d, n, s) {
            Part::Said { sign, next, inside } => match sign {
                Sign::Byte(byte) => {
                    if !may_stand(classes, count, byte) {
                        return 0;
                    }
                    if count == 8 {
                        return 0;
                    }
                    key = key * 256 + u64::from(ascii::upper(byte));
                    n = next;
                    s = inside;
                }
                Sign::Break => {
                    return 0;
                }
            },
            Part::Over => {
                return key;
            }
        }
    }
    0
}

// The number of the name from just after its opening quote. Most are plain.
pub fn name_key(classes: &[u8; 256], d: &[u8], at: usize) -> u64
    requires { Classes classes.now }
    ensures { result ≡ key_of 0 0 (decode_of Inside.Plain 0 (text d.now at)) }
{
    let q = plain_key(classes, d, at);
    if q.sure {
        return q.key;
    }
    spelled_key(classes, d, at)
}

// The first row that a row's name is held against: row 0, or none where no earlier name has left a mark at its place.
fn held_from(mark: u8, row: usize) -> usize
    ensures { result ≡ cond (eqb mark 0) row 0 }
{
    if mark == 0 { row } else { 0 }
}

// The first row whose name is ill-formed or agrees with an earlier one; the count where there is none. Names that agree leave their
// marks at the same place, and few others do, since 2,039 is a prime.
pub fn first_fault(keys: &[u64; 512], count: usize) -> usize
    requires { count ≤ 512 }
    ensures { result ≡ fault_of keys.now count }
{
    let mut marks = [0u8; 2048];
    for j in 0..count {
        let key = keys[j];
        if key == 0 {
            return j;
        }
        let place = (key % 2_039) as usize;
        for i in held_from(marks[place], j)..j {
            if keys[i] == key {
                return j;
            }
        }
        marks[place] = 1;
    }
    count
}
