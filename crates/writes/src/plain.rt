// Values that stand in one run of places, numbers, texts and truths; and what a missing value leaves.
ghost use Rattle.std.specs.Prelude.{◌≡◌, true, false, [], length};
ghost use Rattle.ascii.specs.rule.Tens.{Tens};
ghost use Rattle.places.specs.rule.Places.{put};
ghost use Rattle.fields.specs.rule.Field.{number};
ghost use Rattle.fields.specs.rule.Legal.{legal};
ghost use Rattle.fields.specs.rule.Row.{places_by, bytes_by};
ghost use Rattle.layout.specs.declared.Kind.TheVariants as kind;
ghost use Rattle.writes.specs.declared.Value.TheVariants as given;
ghost use Rattle.writes.specs.declared.Wrote.TheVariants as wrote;
ghost use Rattle.writes.specs.Write.{WrittenBy, Ready, takes_numbers};

use super::Wrote;
use layout::{Format, Kind, Row};

fn takes_numbers(kind: Kind) -> bool
    ensures { result ≡ takes_numbers kind }
{
    match kind {
        Kind::Single => true,
        Kind::Multiple(_) => false,
        Kind::Quantity(_) => true,
        Kind::Character => false,
        Kind::Logical => false,
    }
}

// A legal number's bytes: digits alone for a SINGLE, with the minus and the point for a QUANTITY. Other kinds have none.
pub fn put_figures(powers: &[u64; 16], t: &[i64], rows: usize, row: Row, z: i64, bytes: &mut [u8])
    requires tens { Tens powers.now }
    requires ready { Ready row.kind t.now rows (length bytes.old) row }
    requires z_value { legal t.now rows row z ≡ true }
    ensures { bytes.new ≡ put bytes.old (places_by row.kind t.now rows row)
        (bytes_by row.kind t.now rows row (number z)) }
{
    let kind = row.kind;
    let w = row.width;
    match kind {
        Kind::Single => digits::put_code(powers, bytes, row.finish - w, w, z),
        Kind::Multiple(_) => {}
        Kind::Quantity(f) => digits::put_quantity(powers, bytes, row.finish - w, w, f, z),
        Kind::Character => {}
        Kind::Logical => {}
    }
}

pub fn write_number(
    powers: &[u64; 16],
    t: &[i64],
    rows: usize,
    row: Row,
    z: i64,
    bytes: &mut [u8],
) -> Wrote
    requires tens { Tens powers.now }
    requires ready { Ready row.kind t.now rows (length bytes.old) row }
    ensures { WrittenBy row.kind t.now rows row (given.Number z) [] [] bytes.old bytes.new result }
{
    let kind = row.kind;
    if !takes_numbers(kind) {
        return Wrote::OtherType;
    }
    if !legal::is_legal(t, rows, row, z) {
        return Wrote::NotLegal;
    }
    put_figures(powers, t, rows, row, z, bytes);
    Wrote::Done
}

pub fn write_text(t: &[i64], rows: usize, row: Row, text: &[u8], bytes: &mut [u8]) -> Wrote
    requires { Ready row.kind t.now rows (length bytes.old) row }
    ensures { WrittenBy row.kind t.now rows row given.Text [] text.now bytes.old
        bytes.new result }
{
    let kind = row.kind;
    let w = row.width;
    match kind {
        Kind::Character => {
            if !super::texts::text_fits(w, text) {
                return Wrote::NotLegal;
            }
            super::texts::put_text(bytes, row.start - 1, w, text);
            Wrote::Done
        }
        Kind::Single => Wrote::OtherType,
        Kind::Multiple(_) => Wrote::OtherType,
        Kind::Quantity(_) => Wrote::OtherType,
        Kind::Logical => Wrote::OtherType,
    }
}

pub fn write_truth(t: &[i64], rows: usize, row: Row, b: bool, bytes: &mut [u8]) -> Wrote
    requires { Ready row.kind t.now rows (length bytes.old) row }
    ensures { WrittenBy row.kind t.now rows row (given.Truth b) [] [] bytes.old bytes.new result }
{
    let kind = row.kind;
    let at = row.finish - 1;
    match kind {
        Kind::Logical => {
            bytes[at] = setbytes::bits::bit_of(b);
            Wrote::Done
        }
        Kind::Single => Wrote::OtherType,
        Kind::Multiple(_) => Wrote::OtherType,
        Kind::Quantity(_) => Wrote::OtherType,
        Kind::Character => Wrote::OtherType,
    }
}

// Spaces. The places of a CHARACTER start with its position, those of the other kinds end with it. No powers are asked for: whoever
// blanks many rows need not lay them out.
pub fn blank_row(t: &[i64], rows: usize, row: Row, bytes: &mut [u8]) -> Wrote
    requires { Ready row.kind t.now rows (length bytes.old) row }
    ensures { WrittenBy row.kind t.now rows row given.Missing [] [] bytes.old bytes.new result }
{
    let kind = row.kind;
    let w = row.width;
    match kind {
        Kind::Single => runs::blank(bytes, row.finish - w, w),
        Kind::Multiple(s) => {
            return super::marked::blank_multiple(t, rows, row, s, bytes);
        }
        Kind::Quantity(_) => runs::blank(bytes, row.finish - w, w),
        Kind::Character => runs::blank(bytes, row.start - 1, w),
        Kind::Logical => runs::blank(bytes, row.finish - 1, 1),
    }
    Wrote::Done
}

pub fn write_missing(
    powers: &[u64; 16],
    t: &[i64],
    rows: usize,
    row: Row,
    bytes: &mut [u8],
) -> Wrote
    requires tens { Tens powers.now }
    requires ready { Ready row.kind t.now rows (length bytes.old) row }
    ensures { WrittenBy row.kind t.now rows row given.Missing [] [] bytes.old bytes.new result }
{
    blank_row(t, rows, row, bytes)
}

// What `blank_row` does, for every kind but sets, whose record is kept: it asks nothing that has the row in memory.
pub fn blank_run(t: &[i64], rows: usize, row: Row, bytes: &mut [u8]) -> bool
    requires { Ready row.kind t.now rows (length bytes.old) row }
    ensures { (result ≡ true → WrittenBy row.kind t.now rows row given.Missing [] [] bytes.old
        bytes.new
        wrote.Done) × (result ≡ false → bytes.new ≡ bytes.old) }
{
    let kind = row.kind;
    let w = row.width;
    match kind {
        Kind::Single => runs::blank(bytes, row.finish - w, w),
        Kind::Multiple(_) => {
            return false;
        }
        Kind::Quantity(_) => runs::blank(bytes, row.finish - w, w),
        Kind::Character => runs::blank(bytes, row.start - 1, w),
        Kind::Logical => runs::blank(bytes, row.finish - 1, 1),
    }
    true
}

// What `write_number` does, for a row that is known to be a SINGLE: whoever has looked at the kind need not have it looked at again.
pub fn write_code(
    powers: &[u64; 16],
    t: &[i64],
    rows: usize,
    row: Row,
    z: i64,
    bytes: &mut [u8],
) -> Wrote
    requires tens { Tens powers.now }
    requires ready { Ready kind.Single t.now rows (length bytes.old) row }
    ensures { WrittenBy kind.Single t.now rows row (given.Number z) [] [] bytes.old bytes.new result }
{
    let w = row.width;
    if !legal::is_legal(t, rows, row, z) {
        return Wrote::NotLegal;
    }
    digits::put_code(powers, bytes, row.finish - w, w, z);
    Wrote::Done
}

// The same for a QUANTITY of the format f.
pub fn write_amount(
    powers: &[u64; 16],
    t: &[i64],
    rows: usize,
    row: Row,
    f: Format,
    z: i64,
    bytes: &mut [u8],
) -> Wrote
    requires tens { Tens powers.now }
    requires ready { Ready (kind.Quantity f) t.now rows (length bytes.old) row }
    ensures { WrittenBy (kind.Quantity f) t.now rows row (given.Number z) [] [] bytes.old
        bytes.new result }
{
    let w = row.width;
    if !legal::is_legal(t, rows, row, z) {
        return Wrote::NotLegal;
    }
    digits::put_quantity(powers, bytes, row.finish - w, w, f, z);
    Wrote::Done
}
