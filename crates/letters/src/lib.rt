// CHARACTER and LOGICAL fields: a text without the spaces at its end, and a truth. Above it stand the calls on records.
#![tactic(auto)]

ghost use Rattle.std.specs.Prelude.{◌≡◌, [], ◌∷◌, ◌≤◌, eqb, length, take};
ghost use Rattle.fields.specs.rule.Number.{all_spaces};
ghost use Rattle.fields.specs.rule.Field.{all_plain, unended, text_field, truth_field};
ghost use Rattle.letters.specs.Letters.{text_said, truth_said};

// What a text's bytes say: nothing, so many bytes up to the spaces at the end, or that a byte below 32 is among them.
#[derive(Clone, Copy)]
pub enum Text {
    Blank,
    Length(usize),
    Wrong,
}

// What a truth's byte says.
#[derive(Clone, Copy)]
pub enum Truth {
    Blank,
    Says(bool),
    Wrong,
}

// How many bytes are left without the spaces at the end.
fn kept_bytes(s: &[u8]) -> usize
    ensures { (result ≤ length s.now) × (unended s.now ≡ take result s.now)
        × (all_spaces s.now ≡ eqb result 0) }
{
    for k in (0..s.len()).rev() {
        if s[k] != 32 {
            return k + 1;
        }
    }
    0
}

// Whether no byte is below 32.
pub fn plain(s: &[u8]) -> bool
    ensures { result ≡ all_plain s.now }
{
    for &b in s {
        if b < 32 {
            return false;
        }
    }
    true
}

pub fn read_text(s: &[u8]) -> Text
    ensures { result ≡ text_said (text_field s.now) }
{
    let n = kept_bytes(s);
    if n == 0 {
        return Text::Blank;
    }
    if plain(s) {
        return Text::Length(n);
    }
    Text::Wrong
}

pub fn read_truth(b: u8) -> Truth
    ensures { result ≡ truth_said (truth_field (b ∷ [])) }
{
    if b == 32 {
        return Truth::Blank;
    }
    if b == 49 {
        return Truth::Says(true);
    }
    if b == 48 {
        return Truth::Says(false);
    }
    Truth::Wrong
}
