// A text: 1 to w bytes of 32 to 255 with no space at its end, and spaces behind it.
ghost use Rattle.std.specs.Prelude.{◌≡◌, ◌+◌, ◌≤◌, length};
ghost use Rattle.places.specs.rule.Places.{put, run};
ghost use Rattle.fields.specs.rule.Field.{text_fits, text_bytes};

pub fn text_fits(w: usize, text: &[u8]) -> bool
    ensures { result ≡ text_fits w text.now }
{
    let n = text.len();
    if n == 0 {
        return false;
    }
    if w < n {
        return false;
    }
    if text[n - 1] <= 32 {
        return false;
    }
    letters::plain(text)
}

pub fn put_text(bytes: &mut [u8], at: usize, w: usize, text: &[u8])
    requires { (length text.now ≤ w) × (at + w ≤ length bytes.old) }
    ensures { bytes.new ≡ put bytes.old (run at w) (text_bytes w text.now) }
{
    let n = text.len();
    runs::copy_in(bytes, at, text, n);
    runs::blank(bytes, at + n, w - n);
}
