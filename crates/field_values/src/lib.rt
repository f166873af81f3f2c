// A field of a text as a value of its row, written to a record if the row's write accepts it. Above it stands the import of a text.
#![tactic(auto)]

ghost use Rattle.std.specs.Prelude.{◌≡◌, true, ◌+◌, ◌-◌, ◌*◌, ◌≤◌, ◌<◌, min, length, take, MatchOption};
ghost use Rattle.ascii.specs.rule.Tens.{Tens};
ghost use Rattle.layout.specs.declared.Kind.TheVariants as kind;
ghost use Rattle.writes.specs.Write.{Ready, takes_numbers};
ghost use Rattle.widths.specs.rule.Width.{decimals_of};
ghost use Rattle.field_values.specs.rule.Value.{zeros};
ghost use Rattle.field_values.specs.rule.Read.{capped, capped_from, size_guess, number_guess, codes_in, set_guess, all_zeros, tail_good};
ghost use Rattle.field_values.specs.rule.Read.{left_of};
ghost use Rattle.field_values.specs.Steps.{small, ByteTo, TakesSets, Took, is_done};
ghost use Rattle.field_values.specs.Coded.{Stepped, Coded};

use layout::{Kind, Row};
use writes::{Value, Wrote};

mod quick;

// What a byte says as a digit.
fn digit_of(b: u8) -> u64
    ensures { result ≡ b - 48 }
{
    if b < 48 { 0 } else { (b - 48) as u64 }
}

fn cap(n: u64) -> u64
    ensures { result ≡ capped n }
{
    if n <= 1_000_000_000_000_000 {
        n
    } else {
        1_000_000_000_000_000
    }
}

// One digit more. No row allows what reaches the cap.
fn step(n: u64, b: u8) -> u64
    requires { n ≤ small }
    ensures { result ≡ capped (n * 10 + (b - 48)) }
{
    cap(n * 10 + digit_of(b))
}

fn fold_digits(f: &[u8], from: u64) -> u64
    requires { from ≤ small }
    ensures { (result ≡ capped_from from f.now) × (result ≤ small) }
{
    let mut n = from;
    for b in f {
        n = step(n, *b);
    }
    n
}

fn fold_zeros(from: u64, count: usize) -> u64
    requires { from ≤ small }
    ensures { (result ≡ capped_from from (zeros count)) × (result ≤ small) }
{
    let mut n = from;
    for _ in 0..count {
        n = step(n, 48);
    }
    n
}

// The first byte b from a place on, or the end.
fn byte_to(f: &[u8], at: usize, b: u8) -> usize
    requires { at ≤ length f.now }
    ensures { ByteTo b f.now at result }
{
    for i in at..f.len() {
        if f[i] == b {
            return i;
        }
    }
    f.len()
}

// The size of a number with k decimals, of which some at the end may not be written.
fn guess_size(f: &[u8], k: usize) -> u64
    ensures { (result ≡ size_guess k f.now) × (result ≤ small) }
{
    let p = byte_to(f, 0, 46);
    let n = fold_digits(&f[..p], 0);
    let q = p + 1;
    if f.len() <= q {
        return fold_zeros(n, k);
    }
    let m = fold_digits(&f[q..], n);
    let d = f.len() - q;
    if k <= d {
        return m;
    }
    fold_zeros(m, k - d)
}

// The number that a field may be.
fn guess_number(f: &[u8], k: usize) -> i64
    ensures { result ≡ number_guess k f.now }
{
    if f.len() == 0 {
        return 0;
    }
    if f[0] == 45 {
        return cells::number_of(true, guess_size(&f[1..], k));
    }
    cells::number_of(false, guess_size(f, k))
}

fn code_of(f: &[u8]) -> usize
    ensures { result ≡ min (capped_from 0 f.now) 9999 }
{
    let n = fold_digits(f, 0);
    if n <= 9999 { n as usize } else { 9999 }
}

// The codes between semicolons, at the start of the list, and how many; none where there are too many.
fn gather(f: &[u8], list: &mut [i64]) -> Option<usize>
    requires { length list.old ≡ 9999 }
    ensures { MatchOption result (9999 < length (codes_in 0 f.now)) (λ n. (n ≤ 9999) × (take n list.new ≡ codes_in 0 f.now)) }
{
    let mut count: usize = 0;
    let mut at: usize = 0;
    loop {
        let to = byte_to(f, at, 59);
        if 9999 <= count {
            return None;
        }
        list[count] = cells::cell_of(code_of(&f[at..to]));
        count += 1;
        if f.len() <= to {
            return Some(count);
        }
        at = to + 1;
    }
}

fn all_zeros(s: &[u8]) -> bool
    ensures { result ≡ all_zeros s.now }
{
    for b in s {
        if *b != 48 {
            return false;
        }
    }
    true
}

// Whether what a field lacks is zeros at the end of k decimals, with the point where none is left.
fn tail_good(k: usize, s: &[u8]) -> bool
    ensures { result ≡ tail_good k s.now }
{
    let n = s.len();
    if n == 0 {
        return true;
    }
    if s[0] == 46 {
        if k == 0 {
            return false;
        }
        if n - 1 == k {
            return all_zeros(&s[1..]);
        }
        return false;
    }
    if n < k {
        return all_zeros(s);
    }
    false
}

// Whether a field is what is left of a text.
fn left_of(k: usize, s: &[u8], f: &[u8]) -> bool
    ensures { result ≡ left_of k s.now f.now }
{
    let n = f.len();
    if s.len() < n {
        return false;
    }
    for i in 0..n {
        if s[i] != f[i] {
            return false;
        }
    }
    tail_good(k, &s[n..])
}

pub fn is_done(w: Wrote) -> bool
    ensures { result ≡ is_done w }
{
    match w {
        Wrote::Done => true,
        Wrote::NotWellFormed => false,
        Wrote::NoRow => false,
        Wrote::TooShort => false,
        Wrote::OtherType => false,
        Wrote::NotLegal => false,
        Wrote::TooMany => false,
    }
}

// A number of a SINGLE or a QUANTITY with k decimals: the guess must be what export writes, and the row must accept it.
fn take_number(
    powers: &[u64; 16],
    t: &[i64],
    rows: usize,
    row: Row,
    k: usize,
    f: &[u8],
    bytes: &mut [u8],
) -> bool
    requires tens { Tens powers.now }
    requires ready { Ready row.kind t.now rows (length bytes.old) row }
    requires fact { (length f.now ≡ 0 → ⊥) × (takes_numbers row.kind ≡ true) × (k ≡ decimals_of row.kind) × (k ≤ 9) }
    ensures { Took t.now rows row f.now bytes.old bytes.new result }
{
    let z = guess_number(f, k);
    let mut room = [0u8; 32];
    let n = value_fields::send_number(powers, 33, &mut room, 0, k, z);
    if !left_of(k, &room[..n], f) {
        return false;
    }
    is_done(writes::plain::write_number(powers, t, rows, row, z, bytes))
}

// The members that a field may have, at the start of the list, and how many; none where there are too many.
fn guess_set(f: &[u8], list: &mut [i64]) -> Option<usize>
    requires list_len { length list.old ≡ 9999 }
    requires fact { length f.now ≡ 0 → ⊥ }
    ensures { MatchOption result (9999 < length (set_guess f.now)) (λ n. (n ≤ 9999) × (take n list.new ≡ set_guess f.now)) }
{
    if f[0] == 110 {
        return Some(0);
    }
    gather(f, list)
}

// One digit more of a code; 0 where the byte is none, or the code begins with a zero or has five digits.
fn code_step(n: usize, b: u8) -> usize
    requires { n ≤ 9999 }
    ensures { Stepped n b result }
{
    if b < 48 {
        return 0;
    }
    if 57 < b {
        return 0;
    }
    let m = n * 10 + (b - 48) as usize;
    if 9999 < m {
        return 0;
    }
    m
}

// The codes of a field that is written as export writes them, at the start of the list, and how many; else 0.
fn take_codes(f: &[u8], list: &mut [i64]) -> usize
    requires { length list.old ≡ 9999 }
    ensures { Coded f.now list.new result }
{
    let mut count: usize = 0;
    let mut n: usize = 0;
    for b in f {
        if *b == 59 {
            if n == 0 {
                return 0;
            }
            if 9998 <= count {
                return 0;
            }
            list[count] = cells::cell_of(n);
            count += 1;
            n = 0;
        } else {
            n = code_step(n, *b);
            if n == 0 {
                return 0;
            }
        }
    }
    if n == 0 {
        return 0;
    }
    list[count] = cells::cell_of(n);
    count + 1
}

// A set that is written otherwise, if it is one: the guess must be what export writes. The room is for its text.
fn take_other(
    powers: &[u64; 16],
    t: &[i64],
    rows: usize,
    row: Row,
    f: &[u8],
    list: &mut [i64],
    room: &mut [u8],
    bytes: &mut [u8],
) -> bool
    requires tens { Tens powers.now }
    requires ready { Ready row.kind t.now rows (length bytes.old) row }
    requires fact { (length f.now ≡ 0 → ⊥) × TakesSets row.kind }
    requires list_len { (length list.old ≡ 9999) × (length room.old ≡ 50000) }
    ensures { Took t.now rows row f.now bytes.old bytes.new result }
{
    if 50000 < f.len() {
        return false;
    }
    let Some(n) = guess_set(f, list) else {
        return false;
    };
    let end = value_fields::send_set(powers, 50001, room, 0, list, n);
    if end != f.len() {
        return false;
    }
    if !left_of(0, &room[..end], f) {
        return false;
    }
    is_done(writes::write_row(powers, t, rows, row, Value::Set, &list[..n], f, bytes))
}

// A set. The text of one that has codes need not be made.
fn take_set(
    powers: &[u64; 16],
    t: &[i64],
    rows: usize,
    row: Row,
    f: &[u8],
    list: &mut [i64],
    room: &mut [u8],
    bytes: &mut [u8],
) -> bool
    requires tens { Tens powers.now }
    requires ready { Ready row.kind t.now rows (length bytes.old) row }
    requires fact { (length f.now ≡ 0 → ⊥) × TakesSets row.kind }
    requires list_len { (length list.old ≡ 9999) × (length room.old ≡ 50000) }
    ensures { Took t.now rows row f.now bytes.old bytes.new result }
{
    let n = take_codes(f, list);
    if n == 0 {
        return take_other(powers, t, rows, row, f, list, room, bytes);
    }
    is_done(writes::write_row(powers, t, rows, row, Value::Set, &list[..n], f, bytes))
}

// A truth: 0 or 1.
fn take_truth(
    powers: &[u64; 16],
    t: &[i64],
    rows: usize,
    row: Row,
    f: &[u8],
    bytes: &mut [u8],
) -> bool
    requires tens { Tens powers.now }
    requires ready { Ready row.kind t.now rows (length bytes.old) row }
    requires fact { (length f.now ≡ 0 → ⊥) × (row.kind ≡ kind.Logical) }
    ensures { Took t.now rows row f.now bytes.old bytes.new result }
{
    let one = f[0] == 49;
    let text = [value_fields::bit_of(one)];
    if !left_of(0, &text, f) {
        return false;
    }
    is_done(writes::plain::write_truth(t, rows, row, one, bytes))
}

// A field that is not as export writes it, or whose row asks for more than a look.
fn take_guessed(
    powers: &[u64; 16],
    t: &[i64],
    rows: usize,
    row: Row,
    f: &[u8],
    list: &mut [i64],
    room: &mut [u8],
    bytes: &mut [u8],
) -> bool
    requires tens { Tens powers.now }
    requires ready { Ready row.kind t.now rows (length bytes.old) row }
    requires list_len { (length list.old ≡ 9999) × (length room.old ≡ 50000) }
    ensures { Took t.now rows row f.now bytes.old bytes.new result }
{
    if f.len() == 0 {
        return is_done(writes::plain::blank_row(t, rows, row, bytes));
    }
    let kind = row.kind;
    match kind {
        Kind::Single => take_number(powers, t, rows, row, 0, f, bytes),
        Kind::Multiple(_) => take_set(powers, t, rows, row, f, list, room, bytes),
        Kind::Quantity(q) => take_number(powers, t, rows, row, q.decimals, f, bytes),
        Kind::Character => is_done(writes::plain::write_text(t, rows, row, f, bytes)),
        Kind::Logical => take_truth(powers, t, rows, row, f, bytes),
    }
}

// THE VALUE that a field is, written to the row; else the record is kept. The list and the room are for sets.
pub fn take_field(
    powers: &[u64; 16],
    t: &[i64],
    rows: usize,
    row: Row,
    f: &[u8],
    list: &mut [i64],
    room: &mut [u8],
    bytes: &mut [u8],
) -> bool
    requires tens { Tens powers.now }
    requires ready { Ready row.kind t.now rows (length bytes.old) row }
    requires list_len { (length list.old ≡ 9999) × (length room.old ≡ 50000) }
    ensures { Took t.now rows row f.now bytes.old bytes.new result }
{
    if quick::take_quick(powers, t, rows, row, f, list, bytes) {
        return true;
    }
    take_guessed(powers, t, rows, row, f, list, room, bytes)
}
