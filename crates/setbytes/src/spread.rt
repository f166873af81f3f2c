// A spread: n subfields of b bytes, the value in the last w bytes of each.
ghost use Rattle.std.specs.Prelude.{◌≡◌, ◌+◌, ◌*◌, ◌≤◌, length};
ghost use Rattle.places.specs.rule.Places.{put};
ghost use Rattle.ascii.specs.rule.Tens.{Tens};
ghost use Rattle.fields.specs.rule.Field.{spaces, spread_bytes};
ghost use Rattle.fields.specs.rule.Row.{spread_places};
ghost use Rattle.setbytes.specs.Sets.{Subfields, Small};

// The members in rising order, zeros in the subfields that are left.
pub fn put_spread(
    powers: &[u64; 16],
    bytes: &mut [u8],
    start: usize,
    b: usize,
    w: usize,
    n: usize,
    list: &[i64],
)
    requires tens { Tens powers.now }
    requires subfields { Subfields (length bytes.old) start b w n }
    requires small { Small list.now }
    ensures { bytes.new ≡ put bytes.old (spread_places start b w n) (spread_bytes w n list.now) }
{
    let gap = b - w;
    let mut at = start;
    for i in 0..n {
        digits::put_code(powers, bytes, at + gap, w, cells::number(list, i));
        at += b;
    }
}

// Spaces in every subfield's value places.
pub fn blank_spread(bytes: &mut [u8], start: usize, b: usize, w: usize, n: usize)
    requires { Subfields (length bytes.old) start b w n }
    ensures { bytes.new ≡ put bytes.old (spread_places start b w n)
        (spaces (length (spread_places start b w n))) }
{
    let gap = b - w;
    let mut at = start;
    for _ in 0..n {
        runs::blank(bytes, at + gap, w);
        at += b;
    }
}
