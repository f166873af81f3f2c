// The text of what is listed, appended to a lent buffer: numbers, sets, texts, the line of a value, the last lines. `at` is how many
// bytes the buffer holds so far, and each call answers how many it holds then. Above it stands the listing of a file.
#![tactic(auto)]

ghost use Rattle.std.specs.Prelude.{◌≡◌, cond, [], ◌∷◌, ◌+◌, ◌^◌, ◌≤◌, ◌<◌, length, take, drop};
ghost use Rattle.ascii.specs.rule.Tens.{Tens};
ghost use Rattle.cells.specs.rule.Cell.{signed_of};
ghost use Rattle.lines.specs.rule.Text.{numeral, number_text, codes_after, codes, value_text, line_text, ok_text, fault_text};
ghost use Rattle.lines.specs.Text.{definition_text};
ghost use Rattle.lines.specs.rule.Appended.{Appended};
ghost use Rattle.lines.specs.Lines.{others_room, set_room, value_room, Codes, Listable, value_of};
ghost use Rattle.lines.specs.rule.Lines.{line_room};

use readings::Answer;

// The room that a line may take: a set of 9,999 members of four digits, each with its comma, and what stands before them.
pub const LINE_ROOM: usize = 50_064;

pub fn append_byte(out: &mut [u8], at: usize, b: u8) -> usize
    requires { at < length out.old }
    ensures { Appended out.old at (b ∷ []) out.new result }
{
    out[at] = b;
    at + 1
}

// A count, in as many digits as it has.
pub fn append_count(powers: &[u64; 16], out: &mut [u8], at: usize, n: u64) -> usize
    requires tens { Tens powers.now }
    requires n_bound { (n < 10 ^ 16) × (at + 16 ≤ length out.old) }
    ensures { Appended out.old at (numeral n) out.new result }
{
    let w = ascii::digit_count(powers, n);
    digits::put_digits(powers, out, at, w, n);
    at + w
}

// A space and a count.
fn append_spaced(powers: &[u64; 16], out: &mut [u8], at: usize, n: u64) -> usize
    requires tens { Tens powers.now }
    requires n_bound { (n < 10 ^ 16) × (at + 17 ≤ length out.old) }
    ensures { Appended out.old at (32 ∷ numeral n) out.new result }
{
    let end = append_byte(out, at, b' ');
    append_count(powers, out, end, n)
}

// A number, with its minus.
pub fn append_number(powers: &[u64; 16], out: &mut [u8], at: usize, z: i64) -> usize
    requires tens { Tens powers.now }
    requires z_bound { ((signed_of z).size < 10 ^ 16) × (at + 17 ≤ length out.old) }
    ensures { Appended out.old at (number_text z) out.new result }
{
    let s = cells::signed_of(z);
    if s.minus {
        let end = append_byte(out, at, b'-');
        return append_count(powers, out, end, s.size);
    }
    append_count(powers, out, at, s.size)
}

// Behind the first of n codes of a list, the others, each with its comma.
fn append_others(powers: &[u64; 16], out: &mut [u8], at: usize, list: &[i64], n: usize) -> usize
    requires tens { Tens powers.now }
    requires codes { Codes list.now n × (1 ≤ n) × (at + others_room ≤ length out.old) }
    ensures appended { Appended out.old at (codes_after (drop 1 (take n list.now))) out.new result }
    ensures upper_bound { result ≤ at + 49990 }
{
    let mut end = at;
    for j in 1..n {
        end = append_byte(out, end, b',');
        end = append_number(powers, out, end, cells::number(list, j));
    }
    end
}

// The first n codes of a list, with commas; `-` if there are none.
pub fn append_codes(powers: &[u64; 16], out: &mut [u8], at: usize, list: &[i64], n: usize) -> usize
    requires tens { Tens powers.now }
    requires codes { Codes list.now n × (at + set_room ≤ length out.old) }
    ensures appended { Appended out.old at (codes (take n list.now)) out.new result }
    ensures upper_bound { result < at + set_room }
{
    if n == 0 {
        return append_byte(out, at, b'-');
    }
    let end = append_number(powers, out, at, cells::number(list, 0));
    append_others(powers, out, end, list, n)
}

// The n bytes from a place of the record on.
pub fn append_text(out: &mut [u8], at: usize, bytes: &[u8], p: usize, n: usize) -> usize
    requires { (p + n ≤ length bytes.now) × (at + n ≤ length out.old) }
    ensures { Appended out.old at (take n (drop p bytes.now)) out.new result }
{
    runs::copy_in(out, at, &bytes[p..], n);
    at + n
}

// A space and a letter.
fn append_letter(out: &mut [u8], at: usize, letter: u8) -> usize
    requires { at + 2 ≤ length out.old }
    ensures { Appended out.old at (32 ∷ letter ∷ []) out.new result }
{
    let end = append_byte(out, at, b' ');
    append_byte(out, end, letter)
}

// A letter between two spaces.
fn append_between(out: &mut [u8], at: usize, letter: u8) -> usize
    requires { at + 3 ≤ length out.old }
    ensures { Appended out.old at (32 ∷ letter ∷ 32 ∷ []) out.new result }
{
    let end = append_letter(out, at, letter);
    append_byte(out, end, b' ')
}

fn bit_of(b: bool) -> u8
    ensures { result ≡ cond b 49 48 }
{
    if b { b'1' } else { b'0' }
}

// A value with its letter. The answer says it; a set stands at the start of the list, a text in the record.
pub fn append_value(
    powers: &[u64; 16],
    out: &mut [u8],
    at: usize,
    a: Answer,
    list: &[i64],
    bytes: &[u8],
) -> usize
    requires tens { Tens powers.now }
    requires listable { Listable a list.now bytes.now × (at + value_room ≤ length out.old) }
    ensures appended { Appended out.old at (value_text (value_of a list.now bytes.now)) out.new result }
    ensures upper_bound { result < at + value_room }
{
    match a {
        Answer::Missing => append_letter(out, at, b'M'),
        Answer::Number(z) => {
            let end = append_between(out, at, b'N');
            append_number(powers, out, end, z)
        }
        Answer::Set(n) => {
            let end = append_between(out, at, b'S');
            append_codes(powers, out, end, list, n)
        }
        Answer::Text(p, n) => {
            let end = append_between(out, at, b'T');
            append_text(out, end, bytes, p, n)
        }
        Answer::Truth(b) => {
            let end = append_between(out, at, b'L');
            append_byte(out, end, bit_of(b))
        }
        Answer::BadTable => at,
        Answer::NoRow => at,
        Answer::ShortRecord => at,
        Answer::Illegal => at,
        Answer::ShortList => at,
    }
}

// The line of a value: record from 1, ident, letter and value.
pub fn append_line(
    powers: &[u64; 16],
    out: &mut [u8],
    at: usize,
    n: usize,
    ident: usize,
    a: Answer,
    list: &[i64],
    bytes: &[u8],
) -> usize
    requires tens { Tens powers.now }
    requires n_bound { (n < 10 ^ 16) × (ident < 10 ^ 16) }
    requires listable { Listable a list.now bytes.now × (at + line_room ≤ length out.old) }
    ensures { Appended out.old at (line_text n ident (value_of a list.now bytes.now))
        out.new result }
{
    let mut end = append_count(powers, out, at, n as u64);
    end = append_spaced(powers, out, end, ident as u64);
    end = append_value(powers, out, end, a, list, bytes);
    append_byte(out, end, b'\n')
}

// `ok` and the count of records.
pub fn append_ok(powers: &[u64; 16], out: &mut [u8], at: usize, n: usize) -> usize
    requires tens { Tens powers.now }
    requires n_bound { (n < 10 ^ 16) × (at + line_room ≤ length out.old) }
    ensures { Appended out.old at (ok_text n) out.new result }
{
    let mut end = append_text(out, at, b"ok ", 0, 3);
    end = append_count(powers, out, end, n as u64);
    append_byte(out, end, b'\n')
}

// `fault`, its number, the record from 1, the ident.
pub fn append_fault(
    powers: &[u64; 16],
    out: &mut [u8],
    at: usize,
    k: usize,
    n: usize,
    ident: usize,
) -> usize
    requires tens { Tens powers.now }
    requires k_bound { (k < 10 ^ 16) × (n < 10 ^ 16) × (ident < 10 ^ 16) × (at + line_room ≤ length out.old) }
    ensures { Appended out.old at (fault_text k n ident) out.new result }
{
    let mut end = append_text(out, at, b"fault ", 0, 6);
    end = append_count(powers, out, end, k as u64);
    end = append_spaced(powers, out, end, n as u64);
    end = append_spaced(powers, out, end, ident as u64);
    append_byte(out, end, b'\n')
}

// `definition`, its number, the place.
pub fn append_definition(
    powers: &[u64; 16],
    out: &mut [u8],
    at: usize,
    k: usize,
    place: usize,
) -> usize
    requires tens { Tens powers.now }
    requires k_bound { (k < 10 ^ 16) × (place < 10 ^ 16) × (at + line_room ≤ length out.old) }
    ensures { Appended out.old at (definition_text k place) out.new result }
{
    let mut end = append_text(out, at, b"definition ", 0, 11);
    end = append_count(powers, out, end, k as u64);
    end = append_spaced(powers, out, end, place as u64);
    append_byte(out, end, b'\n')
}
