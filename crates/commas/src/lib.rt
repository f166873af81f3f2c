// Comma-separated text sent to a lent buffer: fields, quoted where they need it, commas and line ends. Above it stands the export of a data
// file.
#![tactic(auto)]

ghost use Rattle.std.specs.Prelude.{◌≡◌, ◌||◌, [], ◌∷◌, ◌+◌, ◌≤◌, length, drop};
ghost use Rattle.commas.specs.rule.Csv.{is_special, holds_special, doubled_byte, doubled, field_bytes};
ghost use Rattle.sink.specs.rule.Sent.{Sent};
ghost use Rattle.commas.specs.Csv.{comma_before};

// A comma, a quote, CR or LF.
pub fn special(b: u8) -> bool
    ensures { result ≡ is_special b }
{
    (b == 44) | ((b == 34) | ((b == 13) | (b == 10)))
}

// Whether one of the eight bytes from i on is one of the four. Nothing leaves the loop early: so the compiler looks at all of them at once.
fn eight_special(s: &[u8], i: usize) -> bool
    requires { i + 8 ≤ length s.now }
    ensures { holds_special (drop i s.now) ≡ (result || holds_special (drop (i + 8) s.now)) }
{
    let mut some = false;
    for k in 0..8 {
        some = some | special(s[i + k]);
    }
    some
}

// Whether some byte from a place on is one of the four.
fn some_special(s: &[u8], from: usize) -> bool
    ensures { result ≡ holds_special (drop from s.now) }
{
    for i in from..s.len() {
        if special(s[i]) {
            return true;
        }
    }
    false
}

// Whether some byte is one of the four.
fn needs_quotes(s: &[u8]) -> bool
    ensures { result ≡ holds_special s.now }
{
    let mut i: usize = 0;
    // No `for`: the steps are of eight, and the bytes behind the place where they stop are still to be looked at.
    while 8 <= s.len() - i {
        if eight_special(s, i) {
            return true;
        }
        i += 8;
    }
    some_special(s, i)
}

// A byte, or two quotes for one.
pub fn send_doubled(bound: usize, out: &mut [u8], at: usize, b: u8) -> usize
    ensures { Sent bound out.old at (doubled_byte b) out.new result }
{
    let end = sink::send_byte(bound, out, at, b);
    if b == 34 {
        return sink::send_byte(bound, out, end, 34);
    }
    end
}

// Bytes, with every quote doubled.
fn send_inside(bound: usize, out: &mut [u8], at: usize, s: &[u8]) -> usize
    ensures { Sent bound out.old at (doubled s.now) out.new result }
{
    let mut end = at;
    for b in s {
        end = send_doubled(bound, out, end, *b);
    }
    end
}

// A field: in quotes where it holds one of the four, else as it stands.
pub fn send_field(bound: usize, out: &mut [u8], at: usize, s: &[u8]) -> usize
    ensures { Sent bound out.old at (field_bytes s.now) out.new result }
{
    if !needs_quotes(s) {
        return sink::send_bytes(bound, out, at, s);
    }
    let mut end = sink::send_byte(bound, out, at, 34);
    end = send_inside(bound, out, end, s);
    sink::send_byte(bound, out, end, 34)
}

// The comma before field i: none before the first.
pub fn send_comma(bound: usize, out: &mut [u8], at: usize, i: usize) -> usize
    ensures { Sent bound out.old at (comma_before i) out.new result }
{
    if i == 0 {
        return at;
    }
    sink::send_byte(bound, out, at, 44)
}

// What ends a line.
pub fn send_end(bound: usize, out: &mut [u8], at: usize) -> usize
    ensures { Sent bound out.old at (13 ∷ 10 ∷ []) out.new result }
{
    let end = sink::send_byte(bound, out, at, 13);
    sink::send_byte(bound, out, end, 10)
}
