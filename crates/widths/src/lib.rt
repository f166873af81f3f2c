// The bytes that a number takes in the data, by the kind of its row, and the limits of a row's numbers. Above it stand the test
// of a table and the reader of a definition, which both compute the value width w from it.
#![tactic(auto)]

ghost use Rattle.std.specs.Prelude.{◌≡◌, ◌≤◌, cond, eqb};
ghost use Rattle.ascii.specs.rule.Tens.{Tens};
ghost use Rattle.ascii.specs.rule.Tens.{digits_of};
ghost use Rattle.widths.specs.rule.Width.{tail_of, least_whole, quantity_width, need, most_size};
ghost use Rattle.widths.specs.Width.{FewDecimals};

use layout::{Format, Kind, Spread};

// The point and the decimals, where the format has a point.
pub fn tail(f: Format) -> usize
    requires { f.decimals ≤ 9 }
    ensures { result ≡ tail_of f }
{
    if f.point == 0 { 0 } else { f.decimals + 1 }
}

// How many digits before the point no number of the format goes without.
pub fn least_whole(f: Format) -> usize
    ensures { result ≡ least_whole f }
{
    if f.point == 2 { 0 } else { 1 }
}

// The digits of what stands before the point.
fn whole_digits(powers: &[u64; 16], f: Format, whole: u64) -> usize
    requires { Tens powers.now }
    ensures { result ≡ cond (eqb whole 0) (least_whole f) (digits_of whole) }
{
    if whole == 0 {
        return least_whole(f);
    }
    ascii::digit_count(powers, whole)
}

// A minus, the digits before the point, the point and the decimals.
pub fn quantity_width(powers: &[u64; 16], f: Format, z: i64) -> usize
    requires tens { Tens powers.now }
    requires decimals_bound { f.decimals ≤ 9 }
    ensures { result ≡ quantity_width f z }
{
    let decimals = f.decimals;
    let s = cells::signed_of(z);
    let whole = s.size / ascii::power(powers, decimals);
    let unsigned = whole_digits(powers, f, whole) + tail(f);
    if s.minus { unsigned + 1 } else { unsigned }
}

// The bytes that a number of a row of this kind takes.
pub fn needed(powers: &[u64; 16], kind: Kind, z: i64) -> usize
    requires tens { Tens powers.now }
    requires few_decimals { FewDecimals kind }
    ensures { result ≡ need kind z }
{
    match kind {
        Kind::Single => ascii::digit_count(powers, cells::signed_of(z).size),
        Kind::Multiple(s) => match s {
            Spread::Bits => cells::signed_of(z).size as usize,
            Spread::Fields { count: _, width: _ } => {
                ascii::digit_count(powers, cells::signed_of(z).size)
            }
        },
        Kind::Quantity(f) => quantity_width(powers, f, z),
        Kind::Character => 0,
        Kind::Logical => 0,
    }
}

// The largest size of a scaled quantity of this format.
pub fn most_size(powers: &[u64; 16], f: Format) -> u64
    requires tens { Tens powers.now }
    requires decimals_bound { f.decimals ≤ 9 }
    ensures { result ≡ most_size f }
{
    let decimals = f.decimals;
    if f.point == 2 {
        return ascii::power(powers, decimals) - 1;
    }
    999_999_999_999_999
}
