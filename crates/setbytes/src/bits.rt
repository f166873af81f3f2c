// A bitstring: byte c of the position for each category c that the row allows. No other byte is touched.
ghost use Rattle.std.specs.Prelude.{◌≡◌, cond, true, [], ◌+◌, ◌≤◌, pos, length, drop};
ghost use Rattle.places.specs.rule.Places.{put};
ghost use Rattle.fields.specs.rule.Legal.{legal};
ghost use Rattle.fields.specs.rule.Field.{spaces, bit_bytes};
ghost use Rattle.fields.specs.rule.Row.{defined, bit_places};
ghost use Rattle.fields.specs.Facts.{LineFacts};
ghost use Rattle.fieldlaws.specs.RisingLaws.{Rising};
ghost use Rattle.sets.specs.Marks.{Marks};
ghost use Rattle.sets.specs.Full.{has_all, always, EachLegal};
ghost use Rattle.setbytes.specs.Sets.{head_is, with_members, Bitstring};

use layout::Row;
use sets::marks::allows;

// Whether the member at j is c.
fn next_is(list: &[i64], j: usize, c: usize) -> bool
    requires { c ≤ 10000 }
    ensures { result ≡ head_is (drop j list.now) (pos c) }
{
    if j < list.len() {
        cells::same(list[j], cells::cell_of(c))
    } else {
        false
    }
}

// A truth as a byte, `1` or `0`.
pub fn bit_of(b: bool) -> u8
    ensures { result ≡ cond b 49 48 }
{
    if b { 49 } else { 48 }
}

// `1` for each category that is a member, `0` for each other: categories and members are walked together.
pub fn put_bits(
    t: &[i64],
    rows: usize,
    row: Row,
    marks: &[u8],
    bytes: &mut [u8],
    at: usize,
    w: usize,
    list: &[i64],
)
    requires line_facts { LineFacts t.now rows row }
    requires marks { Marks (λ x. legal t.now rows row x) marks.now }
    requires bitstring { Bitstring at w (length bytes.old) × Rising 1 w list.now }
    ensures { bytes.new ≡ put bytes.old (bit_places at (defined (legal t.now rows row) 1 w))
        (bit_bytes list.now (defined (legal t.now rows row) 1 w)) }
{
    let mut j: usize = 0;
    for i in 0..w {
        let yes = next_is(list, j, i + 1);
        j += usize::from(yes);
        if allows(t, rows, row, marks, i + 1) {
            bytes[at + i] = bit_of(yes);
        }
    }
}

// Spaces for every category.
pub fn blank_bits(
    t: &[i64],
    rows: usize,
    row: Row,
    marks: &[u8],
    bytes: &mut [u8],
    at: usize,
    w: usize,
)
    requires line_facts { LineFacts t.now rows row }
    requires marks { Marks (λ x. legal t.now rows row x) marks.now }
    requires bitstring { Bitstring at w (length bytes.old) }
    ensures { bytes.new ≡ put bytes.old (bit_places at (defined (legal t.now rows row) 1 w))
        (spaces (length (bit_places at (defined (legal t.now rows row) 1 w)))) }
{
    for k in 0..w {
        if allows(t, rows, row, marks, k + 1) {
            bytes[at + k] = 32;
        }
    }
}

// `0` for each category from 1 to w.
fn clear_each(bytes: &mut [u8], at: usize, w: usize)
    requires { Bitstring at w (length bytes.old) }
    ensures { bytes.new ≡ put bytes.old (bit_places at (defined always 1 w)) (bit_bytes [] (defined always 1 w)) }
{
    for i in 0..w {
        bytes[at + i] = 48;
    }
}

// `1` for each member.
fn set_members(bytes: &mut [u8], at: usize, w: usize, list: &[i64])
    requires { Bitstring at w (length bytes.old) × Rising 1 w list.now }
    ensures { bytes.new ≡ with_members bytes.old at list.now }
{
    for &m in list {
        let c = cells::count_of(m);
        bytes[at + (c - 1)] = 49;
    }
}

// What `put_bits` does, for a row that allows every category.
pub fn put_all(
    t: &[i64],
    rows: usize,
    row: Row,
    bytes: &mut [u8],
    at: usize,
    w: usize,
    list: &[i64],
)
    requires each_legal { EachLegal t.now rows row w }
    requires bitstring { Bitstring at w (length bytes.old) × Rising 1 w list.now }
    ensures { bytes.new ≡ put bytes.old (bit_places at (defined (legal t.now rows row) 1 w))
        (bit_bytes list.now (defined (legal t.now rows row) 1 w)) }
{
    clear_each(bytes, at, w);
    set_members(bytes, at, w, list);
}

// What `blank_bits` does, for a row whose range has every category.
pub fn blank_all(t: &[i64], rows: usize, row: Row, bytes: &mut [u8], at: usize, w: usize)
    requires w_value { has_all row w ≡ true }
    requires bitstring { Bitstring at w (length bytes.old) }
    ensures { bytes.new ≡ put bytes.old (bit_places at (defined (legal t.now rows row) 1 w))
        (spaces (length (bit_places at (defined (legal t.now rows row) 1 w)))) }
{
    runs::blank(bytes, at, w);
}
