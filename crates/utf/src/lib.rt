// Characters: the one pass over a file's bytes that finds the first place where no legal character stands. What comes before is read
// byte by byte: the bytes of marks are below 128, and no byte of a longer sequence is.
#![tactic(auto)]

ghost use Rattle.std.specs.Prelude.{◌≡◌, ◌+◌, ◌-◌, ◌≤◌, ◌<◌, [], ◌∷◌, ◌/◌, ◌%◌, length, drop, get_or};
ghost use Rattle.utf.specs.rule.Chars.{legal_character, encode};
ghost use Rattle.utf.specs.rule.Cut.{plain_of, follows, valid_pair, triple_of, valid_four, two_in, three_in, four_in, long_of};
ghost use Rattle.utf.specs.rule.Cut.{character_width, first_bad};
ghost use Rattle.utf.specs.Stride.{all_plain, Stride};

// Whether a number is a character's.
pub fn is_legal(c: u64) -> bool
    ensures { result ≡ legal_character c }
{
    ((32 <= c) & ((c <= 55295) | (((57344 <= c) & (c <= 65533)) | ((65536 <= c) & (c <= 1114111)))))
        | ((c == 9) | ((c == 10) | (c == 13)))
}

// Whether a byte is a legal character of its own.
fn is_plain(latin: bool, b: u8) -> bool
    ensures { result ≡ plain_of latin b }
{
    ((32 <= b) & (latin | (b < 128))) | ((b == 9) | ((b == 10) | (b == 13)))
}

fn does_follow(b: u8) -> bool
    ensures { result ≡ follows b }
{
    (128 <= b) & (b < 192)
}

// What a byte holds behind its mark.
fn bits(b: u8, mark: u64) -> u64
    ensures { (result ≡ b - mark) × (result ≤ 255) }
{
    let x = b as u64;
    if x < mark { 0 } else { x - mark }
}

fn pair(a: u8, b: u8) -> bool
    ensures { result ≡ valid_pair a b }
{
    let c = bits(a, 192) * 64 + bits(b, 128);
    does_follow(b) & ((128 <= c) & is_legal(c))
}

fn triple(a: u8, b: u8, c: u8) -> bool
    ensures { result ≡ triple_of a b c }
{
    let v = bits(a, 224) * 4096 + (bits(b, 128) * 64 + bits(c, 128));
    does_follow(b) & (does_follow(c) & ((2048 <= v) & is_legal(v)))
}

fn four(a: u8, b: u8, c: u8, e: u8) -> bool
    ensures { result ≡ valid_four a b c e }
{
    let v = bits(a, 240) * 262144 + (bits(b, 128) * 4096 + (bits(c, 128) * 64 + bits(e, 128)));
    does_follow(b) & (does_follow(c) & (does_follow(e) & ((65536 <= v) & is_legal(v))))
}

// The sequences behind a first byte `a`, from `at` on.
fn two_in(d: &[u8], a: u8, at: usize) -> usize
    requires { at ≤ length d.now }
    ensures { result ≡ two_in a (drop at d.now) }
{
    if d.len() - at < 1 {
        return 0;
    }
    if pair(a, d[at]) { 2 } else { 0 }
}

fn three_in(d: &[u8], a: u8, at: usize) -> usize
    requires { at ≤ length d.now }
    ensures { result ≡ three_in a (drop at d.now) }
{
    if d.len() - at < 2 {
        return 0;
    }
    if triple(a, d[at], d[at + 1]) { 3 } else { 0 }
}

fn four_in(d: &[u8], a: u8, at: usize) -> usize
    requires { at ≤ length d.now }
    ensures { result ≡ four_in a (drop at d.now) }
{
    if d.len() - at < 3 {
        return 0;
    }
    if four(a, d[at], d[at + 1], d[at + 2]) {
        4
    } else {
        0
    }
}

fn long(d: &[u8], a: u8, at: usize) -> usize
    requires { at ≤ length d.now }
    ensures { result ≡ long_of a (drop at d.now) }
{
    if a < 192 {
        return 0;
    }
    if a < 224 {
        return two_in(d, a, at);
    }
    if a < 240 {
        return three_in(d, a, at);
    }
    if a < 248 {
        return four_in(d, a, at);
    }
    0
}

// How many bytes the legal character at a place has; 0 if none stands there.
pub fn width(latin: bool, d: &[u8], at: usize) -> usize
    requires { at < length d.now }
    ensures { result ≡ character_width latin (drop at d.now) }
{
    let a = d[at];
    if is_plain(latin, a) {
        return 1;
    }
    if latin {
        return 0;
    }
    long(d, a, at + 1)
}

// Whether the sixteen bytes from i on are characters of their own. Nothing leaves the loop early: that lets the compiler look at all of
// them at once.
fn all_plain(latin: bool, d: &[u8], i: usize) -> bool
    requires { i + 16 ≤ length d.now }
    ensures { result ≡ all_plain latin d.now i 16 }
{
    let mut plain = true;
    for k in 0..16 {
        plain = plain & is_plain(latin, d[i + k]);
    }
    plain
}

// Up to sixteen characters one by one.
fn walk(latin: bool, d: &[u8], at: usize) -> usize
    requires { at < length d.now }
    ensures { Stride latin d.now at result }
{
    let mut i = at;
    for _k in 0..16usize {
        if d.len() <= i {
            return i;
        }
        let w = width(latin, d, i);
        if w == 0 {
            return i;
        }
        i += w;
    }
    i
}

// The place to go on from: sixteen bytes on at once, or some characters on.
fn stride(latin: bool, d: &[u8], at: usize) -> usize
    requires { at < length d.now }
    ensures { Stride latin d.now at result }
{
    if 16 <= d.len() - at {
        if all_plain(latin, d, at) {
            return at + 16;
        }
    }
    walk(latin, d, at)
}

// The first place from `from` on where no legal character stands, or the length.
pub fn first_bad(latin: bool, d: &[u8], from: usize) -> usize
    requires { from ≤ length d.now }
    ensures { (result ≡ first_bad latin d.now from) × (result ≤ length d.now) }
{
    let n = d.len();
    let mut i = from;
    while i < n {
        let r = stride(latin, d, i);
        if r == i {
            return i;
        }
        i = r;
    }
    i
}

// The byte that begins a character's bytes: a mark, and the bits behind it.
fn lead(mark: u64, x: u64) -> u8
    requires { mark + x ≤ 255 }
    ensures { result ≡ mark + x }
{
    (mark + x) as u8
}

// The byte that follows with the six lowest bits of a number.
fn six(x: u64) -> u8
    ensures { result ≡ 128 + x % 64 }
{
    (128 + x % 64) as u8
}

// How many bytes a character is written with in UTF-8.
pub fn encoded_long(c: u64) -> usize
    ensures { (result ≡ length (encode c)) × (result ≤ 4) }
{
    if c < 128 {
        return 1;
    }
    if c < 2048 {
        return 2;
    }
    if c < 65536 { 3 } else { 4 }
}

fn of_two(c: u64, k: usize) -> u8
    requires { (c < 2048) × (k < 2) }
    ensures { result ≡ get_or ((192 + c / 64) ∷ (128 + c % 64) ∷ []) k 0 }
{
    if k == 0 {
        return lead(192, c / 64);
    }
    six(c)
}

fn of_three(c: u64, k: usize) -> u8
    requires { (c < 65536) × (k < 3) }
    ensures { result ≡ get_or ((224 + c / 64 / 64) ∷ (128 + c / 64 % 64) ∷ (128 + c % 64) ∷ []) k 0 }
{
    if k == 0 {
        return lead(224, c / 64 / 64);
    }
    if k == 1 {
        return six(c / 64);
    }
    six(c)
}

fn of_four(c: u64, k: usize) -> u8
    requires { (c < 2097152) × (k < 4) }
    ensures { result ≡ get_or ((240 + c / 64 / 64 / 64) ∷ (128 + c / 64 / 64 % 64) ∷ (128 + c / 64 % 64) ∷ (128 + c % 64) ∷ []) k 0 }
{
    if k == 0 {
        return lead(240, c / 64 / 64 / 64);
    }
    if k == 1 {
        return six(c / 64 / 64);
    }
    if k == 2 {
        return six(c / 64);
    }
    six(c)
}

// The k-th of a character's bytes in UTF-8.
pub fn encoded(c: u64, k: usize) -> u8
    requires { (c < 2097152) × (k < length (encode c)) }
    ensures { result ≡ get_or (encode c) k 0 }
{
    if c < 128 {
        return lead(0, c);
    }
    if c < 2048 {
        return of_two(c, k);
    }
    if c < 65536 {
        return of_three(c, k);
    }
    of_four(c, k)
}
