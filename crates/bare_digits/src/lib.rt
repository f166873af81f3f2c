// The digits of a number as they stand, without the zeros in front: no number is made of them. Above it stands the export of a file.
#![tactic(auto)]

ghost use Rattle.std.specs.Prelude.{◌≡◌, ◌≤◌, length, drop};
ghost use Rattle.fields.specs.rule.Number.{unspaced};
ghost use Rattle.sink.specs.rule.Sent.{Sent};
ghost use Rattle.bare_digits.specs.Bare.{unled};

// How many of the bytes in front are b.
pub fn leading(s: &[u8], b: u8) -> usize
    ensures { (result ≤ length s.now) × (unled b s.now ≡ drop result s.now) }
{
    for (p, x) in s.iter().enumerate() {
        if *x != b {
            return p;
        }
    }
    s.len()
}

// A code's digits, as they stand behind spaces and zeros: none where it is missing.
pub fn send_code(bound: usize, out: &mut [u8], at: usize, s: &[u8]) -> usize
    ensures { Sent bound out.old at (unled 48 (unspaced s.now)) out.new result }
{
    let p = leading(s, 32);
    let q = p + leading(&s[p..], 48);
    sink::send_bytes(bound, out, at, &s[q..])
}
