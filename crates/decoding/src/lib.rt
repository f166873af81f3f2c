// A text of a definition of either kind, decoded for a caller. Above it stands the face.
#![tactic(auto)]

ghost use Rattle.decoding.specs.rule.Both.{BothDecoded};

use texts::Decoded;

// Decodes the bytes of that length from that place, where they are the inside of a text: its signs at the start of the list, a byte as
// itself and a break as 256.
pub fn decode_text(d: &[u8], place: usize, long: usize, list: &mut [i64]) -> Decoded
    ensures { BothDecoded d.now place long list.old list.new result }
{
    let s = scripts::script_of(d);
    if s.xml {
        return stretches::decode_stretch(s.latin, d, place, long, list);
    }
    texts::decode_text(d, place, long, list)
}
