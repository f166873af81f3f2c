// What one row of a record says, by its kind, and whether it is illegal; the row's facts are given. Above it stand the public calls on
// records, which test the table once, and every request that reads many rows of a tested table.
#![tactic(auto)]

ghost use Rattle.std.specs.Prelude.{◌≡◌, [], ◌∷◌, ℕ, ◌+◌, ◌-◌, ◌≤◌, ◌<◌, length};
ghost use Rattle.layout.specs.rule.Layout.{row_size, row_base, most_rows};
ghost use Rattle.layout.specs.rule.Row.{row_at};
ghost use Rattle.places.specs.rule.Places.{pick, run};
ghost use Rattle.fields.specs.rule.Legal.{legal};
ghost use Rattle.fields.specs.Facts.{LineFacts};
ghost use Rattle.fields.specs.rule.Field.{number_field, single_field, quantity_field, bits_field, spread_field, text_field, truth_field};
ghost use Rattle.fields.specs.rule.Row.{categories, bit_places, spread_places, reading_of};
ghost use Rattle.numbers.specs.rule.Format.{FormatFacts};
ghost use Rattle.numbers.specs.Numeral.{said_of};
ghost use Rattle.sets.specs.Sets.{BitsFacts, FieldsFacts};
ghost use Rattle.sets.specs.rule.Sets.{is_illegal};
ghost use Rattle.readings.specs.Answer.{answer_of, numeral_field, set_said, illegal_answer, SetAnswered, RowRead};
ghost use Rattle.readings.specs.Ready.{NumberFacts, RowReady, Plain};

use layout::{Format, Kind, Row, Spread};
use letters::{Text, Truth};
use numbers::Numeral;
use sets::SetRead;

pub mod many;

// A row's value: a scaled number, a set's count, a text's place and length, a truth; or why there is none.
#[derive(Clone, Copy)]
pub enum Answer {
    Missing,
    Number(i64),
    Set(usize),
    Text(usize, usize),
    Truth(bool),
    BadTable,
    NoRow,
    ShortRecord,
    Illegal,
    ShortList,
}

// A number that was said is the value if the row allows it.
fn number_answer(t: &[i64], rows: usize, row: Row, z: i64) -> Answer
    requires { LineFacts t.now rows row }
    ensures { (p n : ℕ) → result ≡ answer_of p n (number_field (legal t.now rows row) z) }
{
    if legal::is_legal(t, rows, row, z) {
        return Answer::Number(z);
    }
    Answer::Illegal
}

// What a number field's bytes say: zero is missing for a SINGLE and a number for a quantity.
fn numeral_answer(t: &[i64], rows: usize, row: Row, said: Numeral, zero_is_missing: bool) -> Answer
    requires { LineFacts t.now rows row }
    ensures { (p n : ℕ) → result ≡ answer_of p n (numeral_field zero_is_missing (legal t.now rows row) (said_of said)) }
{
    match said {
        Numeral::Blank => Answer::Missing,
        Numeral::Says(z) => {
            if zero_is_missing & cells::same(z, 0) {
                return Answer::Missing;
            }
            number_answer(t, rows, row, z)
        }
        Numeral::Wrong => Answer::Illegal,
    }
}

pub fn single(t: &[i64], rows: usize, row: Row, bytes: &[u8]) -> Answer
    requires { NumberFacts 17 t.now rows row (length bytes.now) }
    ensures { (p n : ℕ) → result ≡ answer_of p n
        (single_field (legal t.now rows row) (pick bytes.now (run (row.finish - row.width) row.width))) }
{
    let e = row.finish;
    let a = e - row.width;
    numeral_answer(t, rows, row, numbers::code(&bytes[a..e]), true)
}

fn quantity(t: &[i64], rows: usize, row: Row, f: Format, bytes: &[u8]) -> Answer
    requires number_facts { NumberFacts 17 t.now rows row (length bytes.now) }
    requires format_facts { FormatFacts f }
    ensures { (p n : ℕ) → result ≡ answer_of p n
        (quantity_field f (legal t.now rows row) (pick bytes.now (run (row.finish - row.width) row.width))) }
{
    let e = row.finish;
    let a = e - row.width;
    numeral_answer(t, rows, row, numbers::quantity(f, &bytes[a..e]), false)
}

// The text in the w bytes from the place at on.
fn text(bytes: &[u8], at: usize, w: usize) -> Answer
    requires w_bound { w ≤ 4096 }
    requires at_in_bounds { at < length bytes.now }
    requires w_in_bounds { w ≤ length bytes.now - at }
    ensures { (n : ℕ) → result ≡ answer_of at n (text_field (pick bytes.now (run at w))) }
{
    let e = at + w;
    match letters::read_text(&bytes[at..e]) {
        Text::Blank => Answer::Missing,
        Text::Length(n) => Answer::Text(at, n),
        Text::Wrong => Answer::Illegal,
    }
}

pub fn truth(b: u8) -> Answer
    ensures { (p n : ℕ) → result ≡ answer_of p n (truth_field (b ∷ [])) }
{
    match letters::read_truth(b) {
        Truth::Blank => Answer::Missing,
        Truth::Says(x) => Answer::Truth(x),
        Truth::Wrong => Answer::Illegal,
    }
}

fn set_answer(r: SetRead) -> Answer
    ensures { result ≡ set_said r }
{
    match r {
        SetRead::Missing => Answer::Missing,
        SetRead::Count(n) => Answer::Set(n),
        SetRead::Illegal => Answer::Illegal,
        SetRead::Short => Answer::ShortList,
    }
}

fn bits(t: &[i64], rows: usize, row: Row, bytes: &[u8], list: &mut [i64]) -> Answer
    requires { BitsFacts t.now rows row (length bytes.now) }
    ensures { SetAnswered (bits_field (categories t.now rows row)
        (pick bytes.now (bit_places (row.start - 1) (categories t.now rows row)))) list.old
        list.new result }
{
    // Room for marks is cleared first, so that a short bitstring gets little.
    if row.width < 128 {
        let mut few = [0u8; 128];
        return set_answer(sets::read_bits(t, rows, row, bytes, list, &mut few));
    }
    let mut many = [0u8; 10000];
    set_answer(sets::read_bits(t, rows, row, bytes, list, &mut many))
}

fn spread(
    t: &[i64],
    rows: usize,
    row: Row,
    n: usize,
    b: usize,
    bytes: &[u8],
    list: &mut [i64],
) -> Answer
    requires { FieldsFacts t.now rows row n b (length bytes.now) }
    ensures { SetAnswered (spread_field (legal t.now rows row) row.width n
        (pick bytes.now (spread_places (row.start - 1) b row.width n))) list.old list.new result }
{
    // Few subfields are put in order as they are read, unless the row's lines are so many that searching them costs more than marks.
    if (n <= 8) | ((n <= 64) & (row.lines <= 512)) {
        let mut room = [0usize; 64];
        return set_answer(sets::read_few(t, rows, row, n, b, bytes, list, &mut room));
    }
    // Room for the marks of the row's numbers, and of all numbers of w digits.
    let mut legal = [0u8; 10000];
    let mut present = [0u8; 10000];
    set_answer(sets::read_spread(t, rows, row, n, b, bytes, list, &mut legal, &mut present))
}

// What the row says of a record that is long enough; a set fills the start of the list.
pub fn read_row(t: &[i64], rows: usize, row: Row, bytes: &[u8], list: &mut [i64]) -> Answer
    requires { RowReady t.now rows row (length bytes.now) }
    ensures { RowRead (row.start - 1) (reading_of t.now rows row bytes.now) list.old
        list.new result }
{
    let kind = row.kind;
    match kind {
        Kind::Single => single(t, rows, row, bytes),
        Kind::Multiple(s) => match s {
            Spread::Bits => bits(t, rows, row, bytes, list),
            Spread::Fields { count, width } => spread(t, rows, row, count, width, bytes, list),
        },
        Kind::Quantity(f) => quantity(t, rows, row, f, bytes),
        Kind::Character => text(bytes, row.start - 1, row.width),
        Kind::Logical => {
            let last = row.finish - 1;
            truth(bytes[last])
        }
    }
}

pub fn is_illegal(a: Answer) -> bool
    ensures { result ≡ illegal_answer a }
{
    matches!(a, Answer::Illegal)
}

// Whether a quantity is illegal. It asks for the number by itself: so only what is read of the row need be at hand, and no whole row.
pub fn quantity_illegal(t: &[i64], rows: usize, row: Row, f: Format, bytes: &[u8]) -> bool
    requires number_facts { NumberFacts 17 t.now rows row (length bytes.now) }
    requires format_facts { FormatFacts f }
    ensures { result ≡ is_illegal (quantity_field f (legal t.now rows row)
        (pick bytes.now (run (row.finish - row.width) row.width))) }
{
    let e = row.finish;
    let a = e - row.width;
    let said = numbers::quantity(f, &bytes[a..e]);
    is_illegal(numeral_answer(t, rows, row, said, false))
}

// Whether a row is illegal in a record that is long enough and has no byte below 32, by its kind. The scratch is room for marks.
fn field_illegal(t: &[i64], rows: usize, row: Row, bytes: &[u8], scratch: &mut [u8]) -> bool
    requires row_ready { RowReady t.now rows row (length bytes.now) }
    requires plain { Plain bytes.now }
    requires scratch_len_bound { length scratch.old ≤ 10000 }
    ensures { result ≡ is_illegal (reading_of t.now rows row bytes.now) }
{
    let kind = row.kind;
    match kind {
        Kind::Single => is_illegal(single(t, rows, row, bytes)),
        Kind::Multiple(s) => match s {
            Spread::Bits => sets::bits_illegal(t, rows, row, bytes),
            Spread::Fields { count, width } => {
                sets::spread_illegal(t, rows, row, count, width, bytes, scratch)
            }
        },
        Kind::Quantity(f) => quantity_illegal(t, rows, row, f, bytes),
        // Only a byte below 32 makes a text illegal.
        Kind::Character => false,
        Kind::Logical => {
            let last = row.finish - 1;
            is_illegal(truth(bytes[last]))
        }
    }
}

// The same of row i of a table. Of its numbers the compiler reads only those that its kind needs.
pub fn row_illegal(t: &[i64], rows: usize, i: usize, bytes: &[u8], scratch: &mut [u8]) -> bool
    requires i_le_most_rows { (i ≤ most_rows) × (row_base i + row_size ≤ length t.now) }
    requires row_ready { RowReady t.now rows (row_at t.now i) (length bytes.now) }
    requires plain { Plain bytes.now }
    requires scratch_len_bound { length scratch.old ≤ 10000 }
    ensures { result ≡ is_illegal (reading_of t.now rows (row_at t.now i) bytes.now) }
{
    field_illegal(t, rows, Row::read(t, i), bytes, scratch)
}
