// Numbers back to bytes: the digits of a number, zeros in front, with its minus and its point, put straight at a run of places, from
// the last digit to the minus. Above it stand the writer of records and whatever prints numbers.
#![tactic(auto)]

ghost use Rattle.std.specs.Prelude.{◌≡◌, ◌+◌, ◌^◌, ◌≤◌, ◌<◌, length};
ghost use Rattle.places.specs.rule.Places.{put, run};
ghost use Rattle.ascii.specs.rule.Tens.{Tens};
ghost use Rattle.widths.specs.rule.Width.{size_of, tail_of};
ghost use Rattle.fields.specs.rule.Number.{padded, amount_bytes, quantity_bytes, code_bytes};
ghost use Rattle.digits.specs.Room.{Wide};
ghost use Rattle.digits.specs.Right.{tail_bytes};

use layout::Format;

// The last k digits of n, in the k bytes from the place at on, the last of them first: each is what ten leaves of the rest, and the
// rest that ten divides goes on to the left. Where nothing is left of it the digits are zeros.
fn put_right(out: &mut [u8], at: usize, k: usize, n: u64)
    requires { at + k ≤ length out.old }
    ensures { out.new ≡ put out.old (run at k) (padded k n) }
{
    let mut rest = n;
    for j in (0..k).rev() {
        let digit = rest % 10;
        rest /= 10;
        out[at + j] = 48 + digit as u8;
    }
}

// The point and the decimals of n from the place at on, the point last; nothing where the format has no point.
fn put_tail(out: &mut [u8], at: usize, f: Format, n: u64)
    requires { at + tail_of f ≤ length out.old }
    ensures { out.new ≡ put out.old (run at (tail_of f)) (tail_bytes f n) }
{
    let decimals = f.decimals;
    if f.point == 0 {
        return;
    }
    put_right(out, at + 1, decimals, n);
    out[at] = 46;
}

// A size in the w bytes from the place at on: the decimals, the point before them, the digits before the point, zeros in front.
fn put_amount(powers: &[u64; 16], out: &mut [u8], at: usize, w: usize, f: Format, n: u64)
    requires tens { Tens powers.now }
    requires decimals_bound { (f.decimals ≤ 9) × (tail_of f ≤ w) × (at + w ≤ length out.old) }
    ensures { out.new ≡ put out.old (run at w) (amount_bytes f w n) }
{
    let decimals = f.decimals;
    let whole = w - widths::tail(f);
    put_tail(out, at + whole, f, n);
    put_right(out, at, whole, n / ascii::power(powers, decimals));
}

// The last w digits of n, in the w bytes from the place at on.
pub fn put_digits(powers: &[u64; 16], out: &mut [u8], at: usize, w: usize, n: u64)
    requires tens { Tens powers.now }
    requires n_bound { (n < 10 ^ 16) × (w ≤ 20) × (at + w ≤ length out.old) }
    ensures { out.new ≡ put out.old (run at w) (padded w n) }
{
    put_right(out, at, w, n);
}

// A number's digits, without its sign, in the w bytes from the place at on.
pub fn put_code(powers: &[u64; 16], out: &mut [u8], at: usize, w: usize, z: i64)
    requires tens { Tens powers.now }
    requires z_bound { (size_of z < 10 ^ 16) × (w ≤ 20) × (at + w ≤ length out.old) }
    ensures { out.new ≡ put out.old (run at w) (code_bytes w z) }
{
    put_digits(powers, out, at, w, cells::signed_of(z).size);
}

// A quantity in the w bytes from the place at on.
pub fn put_quantity(powers: &[u64; 16], out: &mut [u8], at: usize, w: usize, f: Format, z: i64)
    requires tens { Tens powers.now }
    requires wide { Wide f w z × (at + w ≤ length out.old) }
    ensures { out.new ≡ put out.old (run at w) (quantity_bytes f w z) }
{
    let s = cells::signed_of(z);
    let n = s.size;
    if s.minus {
        let next = at + 1;
        let left = w - 1;
        put_amount(powers, out, next, left, f, n);
        out[at] = 45;
        return;
    }
    put_amount(powers, out, at, w, f, n);
}
