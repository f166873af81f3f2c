// A stretch of an XML definition decoded for a caller. It is judged and counted first, so that a refusal keeps the list, and then written.
// Above it stands the face.
#![tactic(auto)]

ghost use Rattle.std.specs.Prelude.{◌≡◌, ◌++◌, ◌+◌, ◌-◌, ◌≤◌, ◌<◌, length, drop};
ghost use Rattle.texts.specs.rule.Decode.{numbers_of};
ghost use Rattle.contents.specs.rule.Content.{begun, signs_from};
ghost use Rattle.stretches.specs.rule.Stretch.{StretchDecoded};
ghost use Rattle.stretches.specs.Room.{room_of};

use contents::Part;
use texts::Decoded;

// How many signs a text has, where there is room for them.
fn count_signs(latin: bool, d: &[u8], at: usize, room: usize) -> Option<usize>
    requires { at ≤ length d.now }
    ensures { result ≡ room_of room (length (signs_from latin d.now (begun at))) }
{
    let mut c = contents::start_at(at);
    let mut n: usize = 0;
    loop {
        match contents::next_sign(latin, d, c) {
            Part::One { sign: _, cursor } => {
                if n == room {
                    return None;
                }
                n += 1;
                c = cursor;
            }
            Part::Over => {
                return Some(n);
            }
        }
    }
}

// Writes the signs of the text from a place to the end, of which there are so many, at the start of the list.
fn write_signs(latin: bool, d: &[u8], at: usize, count: usize, list: &mut [i64])
    requires at_in_bounds { at ≤ length d.now }
    requires count_value { count ≡ length (signs_from latin d.now (begun at)) }
    requires count_in_bounds { count ≤ length list.old }
    ensures { list.new ≡ numbers_of (signs_from latin d.now (begun at)) ++ drop count list.old }
{
    let mut c = contents::start_at(at);
    for k in 0..count {
        match contents::next_sign(latin, d, c) {
            Part::One { sign, cursor } => {
                list[k] = cells::cell_of(signs::number_of(sign));
                c = cursor;
            }
            Part::Over => {
                return;
            }
        }
    }
}

// Decodes the stretch of that length from that place of an XML definition, where it is content as of a label: its signs at the start of
// the list, a byte as itself and a break as 256.
pub fn decode_stretch(latin: bool, d: &[u8], place: usize, long: usize, list: &mut [i64]) -> Decoded
    ensures { StretchDecoded latin d.now place long list.old list.new result }
{
    if d.len() < place {
        return Decoded::NotText;
    }
    if d.len() - place < long {
        return Decoded::NotText;
    }
    let end = place + long;
    if !contents::is_text(latin, &d[..end], place) {
        return Decoded::NotText;
    }
    let room = list.len();
    match count_signs(latin, &d[..end], place, room) {
        Some(n) => {
            write_signs(latin, &d[..end], place, n, list);
            Decoded::Signs(n)
        }
        None => Decoded::ShortList,
    }
}
