// The road that most fields take: what stands as export writes it is read in one walk, is judged by a look and goes to its writer. No
// function on it has the row in memory. It may give up, and then keeps the record: `take_field` is asked then.
ghost use Rattle.std.specs.Prelude.{◌≡◌, length};
ghost use Rattle.ascii.specs.rule.Tens.{Tens};
ghost use Rattle.layout.specs.declared.Kind.TheVariants as kind;
ghost use Rattle.layout.specs.declared.Spread.TheVariants as spread;
ghost use Rattle.writes.specs.Write.{Ready};
ghost use Rattle.field_values.specs.Quick.{Quick};

use layout::{Format, Kind, Row, Spread};

// A code of a SINGLE.
fn quick_code(
    powers: &[u64; 16],
    t: &[i64],
    rows: usize,
    row: Row,
    f: &[u8],
    bytes: &mut [u8],
) -> bool
    requires tens { Tens powers.now }
    requires ready { Ready row.kind t.now rows (length bytes.old) row }
    requires fact { (length f.now ≡ 0 → ⊥) × (row.kind ≡ kind.Single) }
    ensures { Quick t.now rows row f.now bytes.old bytes.new result }
{
    let a = number_fields::number_from(f, 0, 0);
    let z = a.z;
    if a.at != f.len() {
        return false;
    }
    super::is_done(writes::plain::write_code(powers, t, rows, row, z, bytes))
}

// A number of a QUANTITY.
fn quick_amount(
    powers: &[u64; 16],
    t: &[i64],
    rows: usize,
    row: Row,
    q: Format,
    f: &[u8],
    bytes: &mut [u8],
) -> bool
    requires tens { Tens powers.now }
    requires ready { Ready row.kind t.now rows (length bytes.old) row }
    requires fact { (length f.now ≡ 0 → ⊥) × (row.kind ≡ kind.Quantity q) }
    ensures { Quick t.now rows row f.now bytes.old bytes.new result }
{
    let a = number_fields::number_from(f, 0, q.decimals);
    let z = a.z;
    if a.at != f.len() {
        return false;
    }
    super::is_done(writes::plain::write_amount(powers, t, rows, row, q, z, bytes))
}

// A set of a bitstring whose lines are its categories.
fn quick_bits(
    t: &[i64],
    rows: usize,
    row: Row,
    f: &[u8],
    list: &mut [i64],
    bytes: &mut [u8],
) -> bool
    requires ready { Ready row.kind t.now rows (length bytes.old) row }
    requires fact { (length f.now ≡ 0 → ⊥) × (row.kind ≡ kind.Multiple spread.Bits) × (length list.old ≡ 9999) }
    ensures { Quick t.now rows row f.now bytes.old bytes.new result }
{
    let w = row.width;
    let n = super::take_codes(f, list);
    if n == 0 {
        return false;
    }
    if !writes::marked::each_fits(t, rows, row, w, &list[..n]) {
        return false;
    }
    super::is_done(writes::marked::bits_full(t, rows, row, &list[..n], bytes))
}

// A set of a spread that has its members in its range.
fn quick_spread(
    powers: &[u64; 16],
    t: &[i64],
    rows: usize,
    row: Row,
    count: usize,
    width: usize,
    f: &[u8],
    list: &mut [i64],
    bytes: &mut [u8],
) -> bool
    requires tens { Tens powers.now }
    requires ready { Ready row.kind t.now rows (length bytes.old) row }
    requires fact { (length f.now ≡ 0 → ⊥) × (row.kind ≡ kind.Multiple (spread.Fields count width)) × (length list.old ≡ 9999) }
    ensures { Quick t.now rows row f.now bytes.old bytes.new result }
{
    let n = super::take_codes(f, list);
    if n == 0 {
        return false;
    }
    if !writes::marked::range_fits(t, rows, row, &list[..n]) {
        return false;
    }
    super::is_done(writes::marked::spread_full(
        powers,
        t,
        rows,
        row,
        count,
        width,
        &list[..n],
        bytes,
    ))
}

fn quick_set(
    powers: &[u64; 16],
    t: &[i64],
    rows: usize,
    row: Row,
    s: Spread,
    f: &[u8],
    list: &mut [i64],
    bytes: &mut [u8],
) -> bool
    requires tens { Tens powers.now }
    requires ready { Ready row.kind t.now rows (length bytes.old) row }
    requires fact { (length f.now ≡ 0 → ⊥) × (row.kind ≡ kind.Multiple s) × (length list.old ≡ 9999) }
    ensures { Quick t.now rows row f.now bytes.old bytes.new result }
{
    match s {
        Spread::Bits => quick_bits(t, rows, row, f, list, bytes),
        Spread::Fields { count, width } => {
            quick_spread(powers, t, rows, row, count, width, f, list, bytes)
        }
    }
}

// THE FIELD taken, or the record kept.
pub fn take_quick(
    powers: &[u64; 16],
    t: &[i64],
    rows: usize,
    row: Row,
    f: &[u8],
    list: &mut [i64],
    bytes: &mut [u8],
) -> bool
    requires tens { Tens powers.now }
    requires ready { Ready row.kind t.now rows (length bytes.old) row }
    requires list_len { length list.old ≡ 9999 }
    ensures { Quick t.now rows row f.now bytes.old bytes.new result }
{
    if f.len() == 0 {
        return writes::plain::blank_run(t, rows, row, bytes);
    }
    let kind = row.kind;
    match kind {
        Kind::Single => quick_code(powers, t, rows, row, f, bytes),
        Kind::Multiple(s) => quick_set(powers, t, rows, row, s, f, list, bytes),
        Kind::Quantity(q) => quick_amount(powers, t, rows, row, q, f, bytes),
        Kind::Character => super::is_done(writes::plain::write_text(t, rows, row, f, bytes)),
        Kind::Logical => super::take_truth(powers, t, rows, row, f, bytes),
    }
}
