// Bytes sent to a lent buffer one behind the other: to be measured where the buffer has no room, to be stored where it has. Above it stand
// the
// texts that are written: the export of a data file, the clean text of a definition.
#![tactic(auto)]

ghost use Rattle.std.specs.Prelude.{◌≡◌, [], ◌∷◌, ◌+◌, ◌≤◌, length, drop};
ghost use Rattle.std.proofs.lemmas.List.Edits.{sets};
ghost use Rattle.sink.specs.rule.Sent.{Sent};

// One byte. Behind the bound no place is counted on, so that no sum passes the largest number.
pub fn send_byte(bound: usize, out: &mut [u8], at: usize, b: u8) -> usize
    ensures { Sent bound out.old at (b ∷ []) out.new result }
{
    if bound <= at {
        return at;
    }
    if out.len() <= at {
        return at + 1;
    }
    out[at] = b;
    at + 1
}

// Four bytes of s from the place i on. They are read before one is stored: so the compiler moves them at once.
fn store_four(out: &mut [u8], at: usize, s: &[u8], i: usize)
    requires { (i + 4 ≤ length s.now) × (at + length s.now ≤ length out.old) }
    ensures { sets out.new (at + (i + 4)) (drop (i + 4) s.now)
        ≡ sets out.old (at + i) (drop i s.now) }
{
    let a = s[i];
    let b = s[i + 1];
    let c = s[i + 2];
    let d = s[i + 3];
    out[at + i] = a;
    out[at + (i + 1)] = b;
    out[at + (i + 2)] = c;
    out[at + (i + 3)] = d;
}

// As many bytes as go by fours; and how many they are.
fn store_fours(out: &mut [u8], at: usize, s: &[u8]) -> usize
    requires { at + length s.now ≤ length out.old }
    ensures { (result ≤ length s.now) × (length s.now ≤ result + 3)
        × (sets out.new (at + result) (drop result s.now) ≡ sets out.old at s.now) }
{
    let mut i: usize = 0;
    // No `for`: the steps are of four, and the place where they stop is the answer.
    while 4 <= s.len() - i {
        store_four(out, at, s, i);
        i += 4;
    }
    i
}

// The bytes that are left, three at most: the compiler writes a loop of three turns out.
fn store_left(out: &mut [u8], at: usize, s: &[u8], i: usize)
    requires { (i ≤ length s.now) × (length s.now ≤ i + 3) × (at + length s.now ≤ length out.old) }
    ensures { out.new ≡ sets out.old (at + i) (drop i s.now) }
{
    for k in 0..3 {
        let j = i + k;
        if s.len() <= j {
            return;
        }
        let b = s[j];
        out[at + j] = b;
    }
}

// Bytes stored from a place on, where there is room for them.
fn store(out: &mut [u8], at: usize, s: &[u8])
    requires { at + length s.now ≤ length out.old }
    ensures { out.new ≡ sets out.old at s.now }
{
    let i = store_fours(out, at, s);
    store_left(out, at, s, i);
}

// Bytes as they stand. Where they are only measured, none is looked at.
pub fn send_bytes(bound: usize, out: &mut [u8], at: usize, s: &[u8]) -> usize
    ensures { Sent bound out.old at s.now out.new result }
{
    if bound <= at {
        return at;
    }
    if bound - at <= s.len() {
        return bound;
    }
    let end = at + s.len();
    if out.len() < end {
        return end;
    }
    store(out, at, s);
    end
}
