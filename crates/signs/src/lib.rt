// A sign of a decoded text: a byte, or a break, which is no byte. Above it stand the decoder of a definition's texts, and whoever takes
// texts from another form.
#![tactic(auto)]

ghost use Rattle.std.specs.Prelude.{◌≡◌, ◌≤◌};
ghost use Rattle.signs.specs.rule.Sign.{sign_number};

#[derive(Clone, Copy)]
pub enum Sign {
    Byte(u8),
    Break,
}

// The number that a sign is told by: its byte, or 256 for a break.
pub fn number_of(s: Sign) -> usize
    ensures { (result ≡ sign_number s) × (result ≤ 256) }
{
    match s {
        Sign::Byte(b) => usize::from(b),
        Sign::Break => 256,
    }
}
