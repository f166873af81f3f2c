// Bytes put at a run of places of a record: copied from elsewhere, or spaces. Above it stand the writers of sets, texts and lines.
#![tactic(auto)]

ghost use Rattle.std.specs.Prelude.{◌≡◌, ◌+◌, ◌≤◌, length, take};
ghost use Rattle.places.specs.rule.Places.{put, run};
ghost use Rattle.fields.specs.rule.Field.{spaces};

// The first k bytes of a source, from the place at on.
pub fn copy_in(out: &mut [u8], at: usize, src: &[u8], k: usize)
    requires { (k ≤ length src.now) × (at + k ≤ length out.old) }
    ensures { out.new ≡ put out.old (run at k) (take k src.now) }
{
    for j in 0..k {
        out[at + j] = src[j];
    }
}

// Spaces at k places from the place at on.
pub fn blank(out: &mut [u8], at: usize, k: usize)
    requires { at + k ≤ length out.old }
    ensures { out.new ≡ put out.old (run at k) (spaces k) }
{
    for p in at..at + k {
        out[p] = 32;
    }
}
