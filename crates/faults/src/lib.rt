// What is wrong with a row: the leftmost byte that cannot stand, or the first number that is not legal. Asked only where the quick
// judges say that a row is illegal, so it is plain and not quick. Above it stand the public calls on records.
#![tactic(auto)]

ghost use Rattle.std.specs.Prelude.{◌≡◌, not, List, [], ℕ, ◌+◌, ◌-◌, ◌*◌, ◌≤◌, ◌<◌, length};
ghost use Rattle.places.specs.rule.Places.{pick, run};
ghost use Rattle.fields.specs.rule.Legal.{legal};
ghost use Rattle.fields.specs.rule.Number.{all_spaces};
ghost use Rattle.fields.specs.rule.Row.{categories, bit_places, spread_places, places_of};
ghost use Rattle.fields.specs.Facts.{LineFacts};
ghost use Rattle.numbers.specs.rule.Format.{FormatFacts};
ghost use Rattle.numbers.specs.Numeral.{said_of};
ghost use Rattle.sets.specs.Sets.{BitsFacts, SpreadRoom};
ghost use Rattle.readings.specs.Ready.{RowReady};
ghost use Rattle.faults.specs.rule.Fault.{fault_number, fixed_of, point_place, may_stand, fault_at, number_from, number_form, code_format};
ghost use Rattle.faults.specs.rule.Fault.{spread_form, passes, first_failing, plain_form, spread_value, form_by, value_by};
ghost use Rattle.faults.specs.rule.Fault.{fault_of};
ghost use Rattle.faults.specs.Joined.{numeral_fault, some_fault};
ghost use Rattle.faults.specs.declared.Test.TheVariants.{Bit};

use layout::{Format, Kind, Row, Spread};
use numbers::Numeral;

// No fault; a byte at a place of the record that cannot stand there; a number that is not legal; no point at the place of a quantity's
// point, or a point elsewhere in it.
#[derive(Clone, Copy)]
pub enum Fault {
    Sound,
    Stray(usize),
    NotLegal(i64),
    Point(usize),
}

// Which bytes a kind of field without numbers holds.
#[derive(Clone, Copy)]
pub enum Test {
    Space,
    Bit,
    Plain,
}

pub fn is_fault(x: Fault) -> bool
    ensures { result ≡ some_fault x }
{
    match x {
        Fault::Sound => false,
        Fault::Stray(_) => true,
        Fault::NotLegal(_) => true,
        Fault::Point(_) => true,
    }
}

// The number of a fault.
pub fn fault_number(x: Fault) -> u64
    ensures { result ≡ fault_number x }
{
    match x {
        Fault::Sound => 0,
        Fault::Stray(_) => 241,
        Fault::NotLegal(_) => 242,
        Fault::Point(_) => 243,
    }
}

// ---- fields without numbers
fn byte_passes(x: Test, b: u8) -> bool
    ensures { result ≡ passes x b }
{
    match x {
        Test::Space => b == 32,
        Test::Bit => (b == 48) | (b == 49),
        Test::Plain => 32 <= b,
    }
}

// The first of the w bytes from the place at on that fails.
fn first_failing(x: Test, bytes: &[u8], at: usize, w: usize) -> Fault
    requires { at + w ≤ length bytes.now }
    ensures { result ≡ first_failing x bytes.now (run at w) }
{
    for i in 0..w {
        let here = at + i;
        if !byte_passes(x, bytes[here]) {
            return Fault::Stray(here);
        }
    }
    Fault::Sound
}

// Whether all of them are spaces.
fn blank(bytes: &[u8], at: usize, w: usize) -> bool
    requires { at + w ≤ length bytes.now }
    ensures { result ≡ all_spaces (pick bytes.now (run at w)) }
{
    !is_fault(first_failing(Test::Space, bytes, at, w))
}

// A text and a truth.
fn plain_form(x: Test, bytes: &[u8], at: usize, w: usize) -> Fault
    requires { at + w ≤ length bytes.now }
    ensures { result ≡ plain_form x bytes.now (run at w) }
{
    if blank(bytes, at, w) {
        return Fault::Sound;
    }
    first_failing(x, bytes, at, w)
}

// The first byte of a bitstring's defined categories that fails: only where a byte fails is it asked whether its category is one.
fn first_bit_failing(x: Test, t: &[i64], rows: usize, row: Row, bytes: &[u8]) -> Fault
    requires { BitsFacts t.now rows row (length bytes.now) }
    ensures { result ≡ first_failing x bytes.now (bit_places (row.start - 1) (categories t.now rows row)) }
{
    let at = row.start - 1;
    let w = row.width;
    for i in 0..w {
        let p = at + i;
        if !byte_passes(x, bytes[p]) {
            if legal::is_legal(t, rows, row, cells::cell_of(i + 1)) {
                return Fault::Stray(p);
            }
        }
    }
    Fault::Sound
}

fn bits_form(t: &[i64], rows: usize, row: Row, bytes: &[u8]) -> Fault
    requires { BitsFacts t.now rows row (length bytes.now) }
    ensures { result ≡ plain_form Bit bytes.now (bit_places (row.start - 1) (categories t.now rows row)) }
{
    if is_fault(first_bit_failing(Test::Space, t, rows, row, bytes)) {
        return first_bit_failing(Test::Bit, t, rows, row, bytes);
    }
    Fault::Sound
}

// ---- the form of a number
fn fixed(f: Format) -> usize
    requires { f.decimals ≤ 9 }
    ensures { result ≡ fixed_of f }
{
    let tail = widths::tail(f);
    if f.point == 2 {
        return tail;
    }
    1 + tail
}

fn at_point(f: Format, after: usize) -> bool
    ensures { result ≡ point_place f after }
{
    (f.point != 0) & (after == f.decimals)
}

// Whether a byte may stand before `after` others, after spaces alone or not.
fn may_stand(quantity: bool, f: Format, blank: bool, after: usize, b: u8) -> bool
    requires { f.decimals ≤ 9 }
    ensures { (left : List ℕ) → all_spaces left ≡ blank → result ≡ may_stand quantity f left after b }
{
    if at_point(f, after) {
        return b == 46;
    }
    let open = (fixed(f) <= after) & blank;
    ((48 <= b) & (b <= 57)) | (open & ((b == 32) | (quantity & (b == 45))))
}

fn fault_at(quantity: bool, f: Format, after: usize, p: usize, b: u8) -> Fault
    ensures { result ≡ fault_at quantity f after p b }
{
    if quantity & (at_point(f, after) | (b == 46)) {
        return Fault::Point(p);
    }
    Fault::Stray(p)
}

// The leftmost fault of a number in the w bytes from the place at on.
fn number_from(quantity: bool, f: Format, bytes: &[u8], at: usize, w: usize) -> Fault
    requires decimals_bound { f.decimals ≤ 9 }
    requires w_in_bounds { at + w ≤ length bytes.now }
    ensures { result ≡ number_from quantity f bytes.now [] (run at w) }
{
    let mut open = true;
    for i in 0..w {
        let p = at + i;
        let b = bytes[p];
        let after = w - i - 1;
        if !may_stand(quantity, f, open, after, b) {
            return fault_at(quantity, f, after, p, b);
        }
        open = open & (b == 32);
    }
    Fault::Sound
}

fn number_form(quantity: bool, f: Format, bytes: &[u8], at: usize, w: usize) -> Fault
    requires decimals_bound { f.decimals ≤ 9 }
    requires w_in_bounds { at + w ≤ length bytes.now }
    ensures { result ≡ number_form quantity f bytes.now (run at w) }
{
    if blank(bytes, at, w) {
        return Fault::Sound;
    }
    number_from(quantity, f, bytes, at, w)
}

// The leftmost fault of a spread of n subfields of b bytes, w of which count.
fn spread_form(bytes: &[u8], at: usize, b: usize, w: usize, n: usize) -> Fault
    requires { SpreadRoom at b w n (length bytes.now) }
    ensures { result ≡ spread_form w bytes.now n (spread_places at b w n) }
{
    let mut q = at;
    for _ in 0..n {
        let x = number_form(
            false,
            Format {
                decimals: 0,
                point: 0,
            },
            bytes,
            q + (b - w),
            w,
        );
        if is_fault(x) {
            return x;
        }
        q += b;
    }
    Fault::Sound
}

// ---- values
// A number that is said and not legal; zero may be no number.
fn numeral_fault(t: &[i64], rows: usize, row: Row, said: Numeral, zero: bool) -> Fault
    requires { LineFacts t.now rows row }
    ensures { result ≡ numeral_fault «zero» (legal t.now rows row) (said_of said) }
{
    match said {
        Numeral::Blank => Fault::Sound,
        Numeral::Says(z) => {
            if zero & cells::same(z, 0) {
                return Fault::Sound;
            }
            if legal::is_legal(t, rows, row, z) {
                return Fault::Sound;
            }
            Fault::NotLegal(z)
        }
        Numeral::Wrong => Fault::Sound,
    }
}

// The first number of a spread that is not legal.
fn spread_value(
    t: &[i64],
    rows: usize,
    row: Row,
    bytes: &[u8],
    at: usize,
    b: usize,
    w: usize,
    n: usize,
) -> Fault
    requires line_facts { LineFacts t.now rows row }
    requires spread_room { SpreadRoom at b w n (length bytes.now) }
    ensures { result ≡ spread_value (legal t.now rows row) w bytes.now n (spread_places at b w n) }
{
    let mut q = at;
    for _ in 0..n {
        let a = q + (b - w);
        let e = a + w;
        let x = numeral_fault(t, rows, row, numbers::code(&bytes[a..e]), true);
        if is_fault(x) {
            return x;
        }
        q += b;
    }
    Fault::Sound
}

// ---- a row
fn row_form(t: &[i64], rows: usize, row: Row, bytes: &[u8]) -> Fault
    requires { RowReady t.now rows row (length bytes.now) }
    ensures { result ≡ form_by row.kind row.width bytes.now (places_of t.now rows row) }
{
    let kind = row.kind;
    let w = row.width;
    match kind {
        Kind::Single => number_form(
            false,
            Format {
                decimals: 0,
                point: 0,
            },
            bytes,
            row.finish - w,
            w,
        ),
        Kind::Multiple(s) => match s {
            Spread::Bits => bits_form(t, rows, row, bytes),
            Spread::Fields { count, width } => spread_form(bytes, row.start - 1, width, w, count),
        },
        Kind::Quantity(f) => number_form(true, f, bytes, row.finish - w, w),
        Kind::Character => plain_form(Test::Plain, bytes, row.start - 1, w),
        Kind::Logical => plain_form(Test::Bit, bytes, row.finish - 1, 1),
    }
}

fn row_value(t: &[i64], rows: usize, row: Row, bytes: &[u8]) -> Fault
    requires { RowReady t.now rows row (length bytes.now) }
    ensures { result ≡ value_by row.kind (legal t.now rows row) row.width bytes.now
        (places_of t.now rows row) }
{
    let kind = row.kind;
    let w = row.width;
    let e = row.finish;
    match kind {
        Kind::Single => {
            let a = e - w;
            numeral_fault(t, rows, row, numbers::code(&bytes[a..e]), true)
        }
        Kind::Multiple(s) => match s {
            Spread::Bits => Fault::Sound,
            Spread::Fields { count, width } => {
                spread_value(t, rows, row, bytes, row.start - 1, width, w, count)
            }
        },
        Kind::Quantity(f) => {
            let a = e - w;
            numeral_fault(t, rows, row, numbers::quantity(f, &bytes[a..e]), false)
        }
        Kind::Character => Fault::Sound,
        Kind::Logical => Fault::Sound,
    }
}

// What is wrong with a row: its form first, and only of a row sound in form its values.
pub fn row_fault(t: &[i64], rows: usize, row: Row, bytes: &[u8]) -> Fault
    requires { RowReady t.now rows row (length bytes.now) }
    ensures { result ≡ fault_of t.now rows row bytes.now }
{
    let x = row_form(t, rows, row, bytes);
    if is_fault(x) {
        return x;
    }
    row_value(t, rows, row, bytes)
}
