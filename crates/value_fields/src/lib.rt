// The fields of a record as they are exported: numbers with their point, sets with semicolons, texts in quotes where they need them. Above
// it
// stands the export of a file.
#![tactic(auto)]

ghost use Rattle.std.specs.Prelude.{◌≡◌, Bool, true, false, cond, [], ◌∷◌, ℕ, ◌+◌, ◌-◌, ◌*◌, ◌^◌, ◌≤◌, ◌<◌, eqb, ℤ, length, take, drop};
ghost use Rattle.std.proofs.lemmas.List.Edits.{sets};
ghost use Rattle.ascii.specs.rule.Tens.{Tens, digits_of};
ghost use Rattle.cells.specs.rule.Cell.{signed_of};
ghost use Rattle.places.specs.rule.Places.{pick, run};
ghost use Rattle.layout.specs.declared.Kind.TheVariants.{Multiple};
ghost use Rattle.layout.specs.declared.Spread.TheVariants.{Fields};
ghost use Rattle.layout.specs.rule.Row.{row_at};
ghost use Rattle.fields.specs.Facts.{LineFacts};
ghost use Rattle.fields.specs.rule.Field.{unended, single_field, quantity_field, text_field, truth_field};
ghost use Rattle.fields.specs.rule.Number.{padded, all_spaces, wrong, code_of, quantity_of, amount_form, amount_size};
ghost use Rattle.numbers.specs.Numeral.{said_of};
ghost use Rattle.numbers.specs.rule.Format.{FormatFacts};
ghost use Rattle.sets.specs.rule.Sets.{is_illegal};
ghost use Rattle.sets.specs.Full.{EachLegal};
ghost use Rattle.readings.specs.Answer.{numeral_field};
ghost use Rattle.records.specs.rule.Value.{reading_at};
ghost use Rattle.files.specs.rule.Tested.{Tested};
ghost use Rattle.lines.specs.rule.Text.{numeral};
ghost use Rattle.lines.specs.Lines.{Codes, Listable, value_of};
ghost use Rattle.listing.specs.rule.Turns.{Ready};
ghost use Rattle.commas.specs.rule.Csv.{field_bytes};
ghost use Rattle.sink.specs.rule.Sent.{Sent};
ghost use Rattle.value_fields.specs.rule.Values.{amount_text, export_number, codes_behind, set_text, export_value, export_field};
ghost use Rattle.widths.specs.rule.Width.{decimals_of};
ghost use Rattle.value_fields.specs.rule.Values.{row_field};
ghost use Rattle.few_codes.specs.Few.{above};
ghost use Rattle.value_fields.specs.Ends.{SpacesFrom, EndsAt};
ghost use Rattle.value_fields.specs.Legal.{Told, bits_from, each_field, FirstSet, Full};
ghost use Rattle.value_fields.specs.Stretch.{Stretch};

use layout::{Format, Header, Kind, Row, Spread};
use numbers::Numeral;
use readings::Answer;

// The last w digits of n. Where they are only measured, none is made.
fn send_digits(
    powers: &[u64; 16],
    bound: usize,
    out: &mut [u8],
    at: usize,
    w: usize,
    n: u64,
) -> usize
    requires tens { Tens powers.now }
    requires n_bound { (n < 10 ^ 16) × (w ≤ 20) }
    ensures { Sent bound out.old at (padded w n) out.new result }
{
    if bound <= at {
        return at;
    }
    if bound - at <= w {
        return bound;
    }
    let end = at + w;
    if out.len() < end {
        return end;
    }
    digits::put_digits(powers, out, at, w, n);
    end
}

// A count, in as many digits as it has.
fn send_count(powers: &[u64; 16], bound: usize, out: &mut [u8], at: usize, n: u64) -> usize
    requires tens { Tens powers.now }
    requires n_bound { n < 10 ^ 16 }
    ensures { Sent bound out.old at (numeral n) out.new result }
{
    if n < 10 {
        return send_digits(powers, bound, out, at, 1, n);
    }
    if n < 100 {
        return send_digits(powers, bound, out, at, 2, n);
    }
    if n < 1000 {
        return send_digits(powers, bound, out, at, 3, n);
    }
    let w = ascii::digit_count(powers, n);
    send_digits(powers, bound, out, at, w, n)
}

// A size with k decimals: no point where there are none.
fn send_amount(
    powers: &[u64; 16],
    bound: usize,
    out: &mut [u8],
    at: usize,
    k: usize,
    n: u64,
) -> usize
    requires tens { Tens powers.now }
    requires n_bound { (n < 10 ^ 16) × (k ≤ 9) }
    ensures { Sent bound out.old at (amount_text k n) out.new result }
{
    if k == 0 {
        return send_count(powers, bound, out, at, n);
    }
    let whole = n / ascii::power(powers, k);
    let end = send_count(powers, bound, out, at, whole);
    let point = sink::send_byte(bound, out, end, 46);
    send_digits(powers, bound, out, point, k, n)
}

// A number with its minus.
pub fn send_number(
    powers: &[u64; 16],
    bound: usize,
    out: &mut [u8],
    at: usize,
    k: usize,
    z: i64,
) -> usize
    requires tens { Tens powers.now }
    requires z_bound { ((signed_of z).size < 10 ^ 16) × (k ≤ 9) }
    ensures { Sent bound out.old at (export_number k z) out.new result }
{
    let s = cells::signed_of(z);
    let n = s.size;
    if s.minus {
        let end = sink::send_byte(bound, out, at, 45);
        return send_amount(powers, bound, out, end, k, n);
    }
    send_amount(powers, bound, out, at, k, n)
}

// A code: it has neither minus nor decimals.
fn send_code(powers: &[u64; 16], bound: usize, out: &mut [u8], at: usize, z: i64) -> usize
    requires tens { Tens powers.now }
    requires z_bound { ((signed_of z).size < 10 ^ 16) × ((signed_of z).minus ≡ false) }
    ensures { Sent bound out.old at (export_number 0 z) out.new result }
{
    let s = cells::signed_of(z);
    send_count(powers, bound, out, at, s.size)
}

// Behind the first of n codes of a list, the others, each with its semicolon.
fn send_others(
    powers: &[u64; 16],
    bound: usize,
    out: &mut [u8],
    at: usize,
    list: &[i64],
    n: usize,
) -> usize
    requires tens { Tens powers.now }
    requires codes { Codes list.now n × (1 ≤ n) }
    ensures { Sent bound out.old at (codes_behind (drop 1 (take n list.now))) out.new result }
{
    let mut end = at;
    for j in 1..n {
        end = sink::send_byte(bound, out, end, 59);
        end = send_code(powers, bound, out, end, cells::number(list, j));
    }
    end
}

// The first n codes of a list; `none` where there are none.
pub fn send_set(
    powers: &[u64; 16],
    bound: usize,
    out: &mut [u8],
    at: usize,
    list: &[i64],
    n: usize,
) -> usize
    requires tens { Tens powers.now }
    requires codes { Codes list.now n }
    ensures { Sent bound out.old at (set_text (take n list.now)) out.new result }
{
    if n == 0 {
        return sink::send_bytes(bound, out, at, b"none");
    }
    let end = send_code(powers, bound, out, at, cells::number(list, 0));
    send_others(powers, bound, out, end, list, n)
}

// The digit of a truth or a mark.
pub fn bit_of(b: bool) -> u8
    ensures { result ≡ cond b 49 48 }
{
    if b { b'1' } else { b'0' }
}

// A text that stands in the record.
fn send_text(bound: usize, out: &mut [u8], at: usize, bytes: &[u8], p: usize, n: usize) -> usize
    requires { (n ≤ 4096) × (p + n ≤ length bytes.now) }
    ensures { Sent bound out.old at (field_bytes (take n (drop p bytes.now))) out.new result }
{
    let end = p + n;
    commas::send_field(bound, out, at, &bytes[p..end])
}

// The field of a value. The answer says it; a set stands at the start of the list, a text in the record.
fn send_value(
    powers: &[u64; 16],
    bound: usize,
    out: &mut [u8],
    at: usize,
    k: usize,
    a: Answer,
    list: &[i64],
    bytes: &[u8],
) -> usize
    requires tens { Tens powers.now }
    requires listable { Listable a list.now bytes.now × (k ≤ 9) }
    ensures { Sent bound out.old at (field_bytes (export_value k (value_of a list.now bytes.now)))
        out.new result }
{
    match a {
        Answer::Missing => at,
        Answer::Number(z) => send_number(powers, bound, out, at, k, z),
        Answer::Set(n) => send_set(powers, bound, out, at, list, n),
        Answer::Text(p, n) => send_text(bound, out, at, bytes, p, n),
        Answer::Truth(b) => sink::send_byte(bound, out, at, bit_of(b)),
        Answer::BadTable => at,
        Answer::NoRow => at,
        Answer::ShortRecord => at,
        Answer::Illegal => at,
        Answer::ShortList => at,
    }
}

// The decimals of a row: a quantity's block has them.
pub fn decimals(k: Kind) -> usize
    ensures { result ≡ decimals_of k }
{
    match k {
        Kind::Single => 0,
        Kind::Multiple(_) => 0,
        Kind::Quantity(f) => f.decimals,
        Kind::Character => 0,
        Kind::Logical => 0,
    }
}

// What the bytes of a number say, in a field that is legal, with k decimals. Zero is missing for a SINGLE and a number for a quantity.
fn send_said(
    powers: &[u64; 16],
    bound: usize,
    out: &mut [u8],
    at: usize,
    k: usize,
    said: Numeral,
    zero_is_missing: bool,
) -> usize
    requires tens { Tens powers.now }
    requires told { Told (said_of said) × (k ≤ 9) }
    ensures { (ok : ℤ → Bool) → is_illegal (numeral_field zero_is_missing ok (said_of said)) ≡ false
        → Sent bound out.old at (field_bytes (export_field k (numeral_field zero_is_missing ok (said_of said)))) out.new
        result }
{
    match said {
        Numeral::Blank => at,
        Numeral::Says(z) => {
            if zero_is_missing & cells::same(z, 0) {
                return at;
            }
            send_number(powers, bound, out, at, k, z)
        }
        Numeral::Wrong => at,
    }
}

// A SINGLE that is legal: its w bytes end before the place e.
fn send_single(bound: usize, out: &mut [u8], at: usize, bytes: &[u8], e: usize, w: usize) -> usize
    requires w_le_e { (w ≤ e) × (e ≤ length bytes.now) }
    requires told { Told (code_of (pick bytes.now (run (e - w) w))) }
    ensures { (ok : ℤ → Bool) → is_illegal (single_field ok (pick bytes.now (run (e - w) w))) ≡ false
        → Sent bound out.old at (field_bytes (export_field 0 (single_field ok (pick bytes.now (run (e - w) w)))))
        out.new result }
{
    let a = e - w;
    bare_digits::send_code(bound, out, at, &bytes[a..e])
}

// Where the text of a size ends in its n bytes, of which k stand before the point: there is no point where there are no decimals.
fn text_end(f: Format, n: usize, k: usize) -> usize
    ensures { result ≡ cond (eqb f.decimals 0) k n }
{
    if f.decimals == 0 { k } else { n }
}

// The digits of a size, with its point and decimals: before the point no zeros in front, and a zero where there is nothing else.
fn send_size(bound: usize, out: &mut [u8], at: usize, f: Format, s: &[u8]) -> usize
    requires format_facts { FormatFacts f × (length s.now ≤ 17) }
    requires s_value { (amount_form f s.now ≡ true) × (amount_size f s.now < 10 ^ 16) }
    ensures { Sent bound out.old at (amount_text f.decimals (amount_size f s.now)) out.new result }
{
    let k = s.len() - widths::tail(f);
    let z = bare_digits::leading(&s[..k], 48);
    let e = text_end(f, s.len(), k);
    if z < k {
        return sink::send_bytes(bound, out, at, &s[z..e]);
    }
    let end = sink::send_byte(bound, out, at, 48);
    sink::send_bytes(bound, out, end, &s[z..e])
}

// A quantity's bytes, which are legal. One with a minus goes by its number, since minus zero is zero.
fn send_signed(
    powers: &[u64; 16],
    bound: usize,
    out: &mut [u8],
    at: usize,
    f: Format,
    s: &[u8],
) -> usize
    requires tens { Tens powers.now }
    requires format_facts { FormatFacts f × (length s.now ≤ 17) }
    requires told { Told (quantity_of f s.now) × (quantity_of f s.now ≡ wrong → ⊥) }
    ensures { (ok : ℤ → Bool) → is_illegal (quantity_field f ok s.now) ≡ false
        → Sent bound out.old at (field_bytes (export_field f.decimals (quantity_field f ok s.now))) out.new
        result }
{
    let p = bare_digits::leading(s, 32);
    if s.len() <= p {
        return at;
    }
    if s[p] == 45 {
        let k = f.decimals;
        return send_said(powers, bound, out, at, k, numbers::quantity(f, s), false);
    }
    send_size(bound, out, at, f, &s[p..])
}

// A quantity that is legal.
fn send_quantity(
    powers: &[u64; 16],
    bound: usize,
    out: &mut [u8],
    at: usize,
    f: Format,
    bytes: &[u8],
    e: usize,
    w: usize,
) -> usize
    requires tens { Tens powers.now }
    requires w_bound { (w ≤ 17) × (w ≤ e) × (e ≤ length bytes.now) }
    requires format_facts { FormatFacts f × Told (quantity_of f (pick bytes.now (run (e - w) w)))
        × (quantity_of f (pick bytes.now (run (e - w) w)) ≡ wrong → ⊥) }
    ensures { (ok : ℤ → Bool) → is_illegal (quantity_field f ok (pick bytes.now (run (e - w) w))) ≡ false
        → Sent bound out.old at
        (field_bytes (export_field f.decimals (quantity_field f ok (pick bytes.now (run (e - w) w))))) out.new result }
{
    let a = e - w;
    send_signed(powers, bound, out, at, f, &bytes[a..e])
}

// Whether the eight bytes from i on are spaces. Nothing leaves the loop early: so the compiler looks at all of them at once.
fn eight_spaces(s: &[u8], i: usize) -> bool
    requires { i + 8 ≤ length s.now }
    ensures { result ≡ true → SpacesFrom s.now i 8 }
{
    let mut all = true;
    for k in 0..8 {
        all = all & (s[i + k] == 32);
    }
    all
}

// How many bytes are left without spaces at the end, which are taken away eight at a time.
fn kept_eights(s: &[u8]) -> usize
    ensures { EndsAt s.now result }
{
    let mut n = s.len();
    // No `for`: the steps are of eight, and the place where they stop is the answer.
    while 8 <= n {
        let k = n - 8;
        if !eight_spaces(s, k) {
            return n;
        }
        n = k;
    }
    n
}

// How many bytes are left without the spaces at the end: as `letters::read_text` finds it, but eight at a time first.
fn kept_bytes(s: &[u8]) -> usize
    ensures { (result ≤ length s.now) × (unended s.now ≡ take result s.now)
        × (all_spaces s.now ≡ eqb result 0) }
{
    for k in (0..kept_eights(s)).rev() {
        if s[k] != 32 {
            return k + 1;
        }
    }
    0
}

// A text that is legal, in the w bytes from the place p on.
fn send_words(bound: usize, out: &mut [u8], at: usize, bytes: &[u8], p: usize, w: usize) -> usize
    requires w_bound { (w ≤ 4096) × (p + w ≤ length bytes.now) }
    requires w_value { is_illegal (text_field (pick bytes.now (run p w))) ≡ false }
    ensures { Sent bound out.old at (field_bytes (export_field 0 (text_field (pick bytes.now (run p w)))))
        out.new result }
{
    let e = p + w;
    let n = kept_bytes(&bytes[p..e]);
    send_text(bound, out, at, bytes, p, n)
}

// A truth that is legal: its byte as it stands.
fn send_truth(bound: usize, out: &mut [u8], at: usize, b: u8) -> usize
    requires { is_illegal (truth_field (b ∷ [])) ≡ false }
    ensures { Sent bound out.old at (field_bytes (export_field 0 (truth_field (b ∷ [])))) out.new result }
{
    if b == 32 {
        return at;
    }
    sink::send_byte(bound, out, at, b)
}

// The place of the first `1` of a bitstring of w bytes; w where there is none.
fn first_set(bytes: &[u8], p: usize, w: usize) -> usize
    requires { p + w ≤ length bytes.now }
    ensures { FirstSet w bytes.now p result }
{
    for i in 0..w {
        if bytes[p + i] == 49 {
            return i;
        }
    }
    w
}

// From byte c of a bitstring on, all of whose categories are defined, those that are set, each behind a semicolon.
fn send_set_bits(
    powers: &[u64; 16],
    bound: usize,
    out: &mut [u8],
    at: usize,
    bytes: &[u8],
    p: usize,
    c: usize,
    w: usize,
) -> usize
    requires tens { Tens powers.now }
    requires w_bound { (w ≤ 9999) × (p + w ≤ length bytes.now) × (c ≤ w) }
    ensures { Sent bound out.old at (codes_behind (bits_from w bytes.now p c)) out.new result }
{
    let mut end = at;
    for i in c..w {
        if bytes[p + i] == 49 {
            end = sink::send_byte(bound, out, end, 59);
            end = send_count(powers, bound, out, end, (i + 1) as u64);
        }
    }
    end
}

// The categories that are set, with a look at the room for each byte; `none` where there are none.
fn send_checked(
    powers: &[u64; 16],
    bound: usize,
    out: &mut [u8],
    at: usize,
    bytes: &[u8],
    p: usize,
    w: usize,
) -> usize
    requires tens { Tens powers.now }
    requires w_bound { (w ≤ 9999) × (p + w ≤ length bytes.now) }
    ensures { Sent bound out.old at (set_text (bits_from w bytes.now p 0)) out.new result }
{
    let c = first_set(bytes, p, w);
    if c == w {
        return sink::send_bytes(bound, out, at, b"none");
    }
    let next = c + 1;
    let end = send_count(powers, bound, out, at, next as u64);
    send_set_bits(powers, bound, out, end, bytes, p, next, w)
}

// A semicolon and behind it a code, of d digits.
fn put_behind(powers: &[u64; 16], out: &mut [u8], at: usize, d: usize, n: u64)
    requires tens { Tens powers.now }
    requires n_bound { (n < 10 ^ 16) × (d ≤ 20) × (at + (d + 1) ≤ length out.old) }
    ensures { out.new ≡ sets out.old at (59 ∷ padded d n) }
{
    out[at] = 59;
    digits::put_digits(powers, out, at + 1, d, n);
}

// Of the N categories from `first` on, each of D digits, those that are set, each behind a semicolon. The compiler writes the N turns out,
// so that what is stored are constants.
fn put_run<const N: usize, const D: usize>(
    powers: &[u64; 16],
    out: &mut [u8],
    at: usize,
    bytes: &[u8],
    p: usize,
    w: usize,
    first: usize,
) -> usize
    requires tens { Tens powers.now }
    requires digits { (1 ≤ first) × (first + N ≤ 100) × ((n : ℕ) → first ≤ n → n < first + N → digits_of n ≡ D) }
    requires w_in_bounds { (D ≤ 2) × (p + w ≤ length bytes.now) × (at + N * (D + 1) ≤ length out.old) }
    ensures { Stretch (N * (D + 1)) w bytes.now p (first - 1) (first + N - 1) out.old at out.new result }
{
    let mut end = at;
    for j in 0..N {
        let n = first + j;
        if w < n {
            return end;
        }
        if bytes[p + (n - 1)] == 49 {
            put_behind(powers, out, end, D, n as u64);
            end += D + 1;
        }
    }
    end
}

// The same of the categories from 10 to 99, ten by ten.
fn put_tens(
    powers: &[u64; 16],
    out: &mut [u8],
    at: usize,
    bytes: &[u8],
    p: usize,
    w: usize,
) -> usize
    requires tens { Tens powers.now }
    requires w_in_bounds { (p + w ≤ length bytes.now) × (at + 270 ≤ length out.old) }
    ensures { Stretch 270 w bytes.now p 9 99 out.old at out.new result }
{
    let mut end = at;
    for t in 1..10 {
        if w < 10 * t {
            return end;
        }
        end = put_run::<10, 2>(powers, out, end, bytes, p, w, 10 * t);
    }
    end
}

// The same of those from 100 on, which few bitstrings have: with a look at the room for each byte.
fn send_hundreds(
    powers: &[u64; 16],
    bound: usize,
    out: &mut [u8],
    at: usize,
    bytes: &[u8],
    p: usize,
    w: usize,
) -> usize
    requires tens { Tens powers.now }
    requires w_bound { (w ≤ 9999) × (p + w ≤ length bytes.now) }
    ensures { Sent bound out.old at (codes_behind (bits_from w bytes.now p 99)) out.new result }
{
    if w < 100 {
        return at;
    }
    send_set_bits(powers, bound, out, at, bytes, p, 99, w)
}

// The categories that are set, where there is room for 300 bytes: no code up to 99 asks for it again. The first has its semicolon too, at
// the place before, which gets its own byte back.
fn send_roomy(
    powers: &[u64; 16],
    bound: usize,
    out: &mut [u8],
    at: usize,
    bytes: &[u8],
    p: usize,
    w: usize,
) -> usize
    requires tens { Tens powers.now }
    requires w_bound { (w ≤ 9999) × (p + w ≤ length bytes.now) }
    requires le_at { (1 ≤ at) × (at + 300 ≤ length out.old) × (at + 300 < bound) }
    ensures { Sent bound out.old at (set_text (bits_from w bytes.now p 0)) out.new result }
{
    let before = at - 1;
    let was = out[before];
    let nine = put_run::<9, 1>(powers, out, before, bytes, p, w, 1);
    let many = put_tens(powers, out, nine, bytes, p, w);
    let end = send_hundreds(powers, bound, out, many, bytes, p, w);
    if end == before {
        return sink::send_bytes(bound, out, at, b"none");
    }
    out[before] = was;
    end
}

// Whether a place has one before it and room for 300 bytes from it on.
fn is_roomy(bound: usize, out: &[u8], at: usize) -> bool
    ensures { result ≡ true → (1 ≤ at) × (at + 300 ≤ length out.now) × (at + 300 < bound) }
{
    if at == 0 {
        return false;
    }
    if out.len() < at {
        return false;
    }
    if out.len() - at < 300 {
        return false;
    }
    if bound <= at {
        return false;
    }
    if bound - at <= 300 {
        return false;
    }
    true
}

// A bitstring that is legal and has every category from 1 to w: its first byte tells whether it is missing.
fn send_each(
    powers: &[u64; 16],
    bound: usize,
    out: &mut [u8],
    at: usize,
    bytes: &[u8],
    p: usize,
    w: usize,
) -> usize
    requires tens { Tens powers.now }
    requires le_w { (1 ≤ w) × (w ≤ 9999) × (p + w ≤ length bytes.now) }
    requires p_value { is_illegal (each_field w bytes.now p) ≡ false }
    ensures { Sent bound out.old at (field_bytes (export_field 0 (each_field w bytes.now p))) out.new
        result }
{
    if bytes[p] == 32 {
        return at;
    }
    if is_roomy(bound, out, at) {
        return send_roomy(powers, bound, out, at, bytes, p, w);
    }
    send_checked(powers, bound, out, at, bytes, p, w)
}

// Whether a row has every category from 1 to w.
fn each_legal(t: &[i64], rows: usize, row: Row) -> bool
    requires { LineFacts t.now rows row × (row.width ≤ 9999) }
    ensures { result ≡ true → EachLegal t.now rows row row.width }
{
    let w = row.width;
    if sets::marks::range_has(row, w) {
        return true;
    }
    sets::alike::lines_count(t, rows, row, w)
}

// Which rows have every category from 1 to w, a `1` for each: found once for all records.
pub fn mark_full(t: &[i64], h: Header, full: &mut [u8; 512])
    requires { Tested t.now h }
    ensures { Full t.now h.rows h.rows full.new }
{
    for i in 0..h.rows {
        let row = Row::read(t, i);
        full[i] = bit_of(each_legal(t, h.rows, row));
    }
}

// The field of row i for a record, whatever its kind, by what is read of it.
fn send_read(
    powers: &[u64; 16],
    t: &[i64],
    h: Header,
    i: usize,
    bytes: &[u8],
    list: &mut [i64],
    bound: usize,
    out: &mut [u8],
    at: usize,
) -> usize
    requires ready { Ready powers.now t.now h (length list.old) }
    requires i_lt_rows { (i < h.rows) × (h.length ≤ length bytes.now) }
    ensures { Sent bound out.old at (field_bytes (row_field t.now bytes.now i)) out.new
        result }
{
    let row = Row::read(t, i);
    let kind = row.kind;
    let a = readings::read_row(t, h.rows, row, bytes, list);
    if readings::is_illegal(a) {
        return at;
    }
    send_value(powers, bound, out, at, decimals(kind), a, list, bytes)
}

// Behind a code those above it, each with its semicolon.
fn send_above(
    powers: &[u64; 16],
    bound: usize,
    out: &mut [u8],
    at: usize,
    room: &[u16],
    first: u16,
) -> usize
    requires { Tens powers.now × (length room.now ≡ 8) }
    ensures { Sent bound out.old at (codes_behind (above room.now first)) out.new result }
{
    let mut end = at;
    let mut c = few_codes::next_above(room, first);
    while c < 65535 {
        end = sink::send_byte(bound, out, end, 59);
        end = send_count(powers, bound, out, end, c as u64);
        c = few_codes::next_above(room, c);
    }
    end
}

// The field of row i, a spread of n subfields, which are few, of b bytes, in which it is legal. Where none holds a code, what is read of
// it tells missing from the empty set.
fn send_few(
    powers: &[u64; 16],
    t: &[i64],
    h: Header,
    i: usize,
    n: usize,
    b: usize,
    bytes: &[u8],
    list: &mut [i64],
    bound: usize,
    out: &mut [u8],
    at: usize,
) -> usize
    requires ready { Ready powers.now t.now h (length list.old) }
    requires i_lt_rows { (i < h.rows) × (h.length ≤ length bytes.now) }
    requires n_bound { (n ≤ 8) × ((row_at t.now i).kind ≡ Multiple (Fields n b)) }
    requires bytes_value { is_illegal (reading_at t.now i bytes.now) ≡ false }
    ensures { Sent bound out.old at (field_bytes (row_field t.now bytes.now i)) out.new
        result }
{
    let row = Row::read(t, i);
    let mut room = [0u16; 8];
    few_codes::gather(bytes, row.start - 1, b, row.width, n, &mut room);
    let c = few_codes::next_above(&room, 0);
    if c == 65535 {
        return send_read(powers, t, h, i, bytes, list, bound, out, at);
    }
    let end = send_count(powers, bound, out, at, c as u64);
    send_above(powers, bound, out, end, &room, c)
}

// The field of row i for a record in which it is legal. The row is read again where a set is read: so it need not stand in memory for
// the other kinds.
pub fn send_row(
    powers: &[u64; 16],
    t: &[i64],
    h: Header,
    full: &[u8; 512],
    i: usize,
    bytes: &[u8],
    list: &mut [i64],
    bound: usize,
    out: &mut [u8],
    at: usize,
) -> usize
    requires ready { Ready powers.now t.now h (length list.old) }
    requires i_lt_rows { (i < h.rows) × (h.length ≤ length bytes.now) }
    requires full { Full t.now h.rows h.rows full.now }
    requires bytes_value { is_illegal (reading_at t.now i bytes.now) ≡ false }
    ensures { Sent bound out.old at (field_bytes (row_field t.now bytes.now i)) out.new
        result }
{
    let row = Row::read(t, i);
    let kind = row.kind;
    match kind {
        Kind::Single => send_single(bound, out, at, bytes, row.finish, row.width),
        Kind::Multiple(s) => match s {
            Spread::Bits => {
                if full[i] == 49 {
                    return send_each(powers, bound, out, at, bytes, row.start - 1, row.width);
                }
                send_read(powers, t, h, i, bytes, list, bound, out, at)
            }
            Spread::Fields { count, width } => {
                if count <= 8 {
                    return send_few(powers, t, h, i, count, width, bytes, list, bound, out, at);
                }
                send_read(powers, t, h, i, bytes, list, bound, out, at)
            }
        },
        Kind::Quantity(f) => {
            send_quantity(powers, bound, out, at, f, bytes, row.finish, row.width)
        }
        Kind::Character => send_words(bound, out, at, bytes, row.start - 1, row.width),
        Kind::Logical => {
            let last = row.finish - 1;
            send_truth(bound, out, at, bytes[last])
        }
    }
}
