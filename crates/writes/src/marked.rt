// Rows of sets: bitstrings and spreads. The numbers that the row allows are marked once where that pays, so that its lines are not
// searched for each category or member.
ghost use Rattle.std.specs.Prelude.{◌≡◌, true, [], ◌≤◌, length};
ghost use Rattle.ascii.specs.rule.Tens.{Tens};
ghost use Rattle.fields.specs.Facts.{LineFacts};
ghost use Rattle.fields.specs.rule.Field.{set_fits};
ghost use Rattle.fields.specs.rule.Legal.{legal};
ghost use Rattle.layout.specs.declared.Kind.TheVariants as kind;
ghost use Rattle.layout.specs.declared.Spread.TheVariants as spread;
ghost use Rattle.writes.specs.declared.Value.TheVariants as given;
ghost use Rattle.writes.specs.Write.{WrittenBy, Ready, EachFits, set_or};

use super::Wrote;
use layout::{Kind, Row, Spread};

// So many members, and so many lines to search for each, pay for marks of all categories.
const MANY: usize = 16;

// Marks of 0 to the highest category.
const MARKS: usize = 10_000;

// Enough for a bitstring of few categories: clearing all would cost more than writing it.
const SHORT: usize = 128;

fn bits_missing(t: &[i64], rows: usize, row: Row, marks: &mut [u8], bytes: &mut [u8]) -> Wrote
    requires ready { Ready (kind.Multiple spread.Bits) t.now rows (length bytes.old) row }
    requires marks_len_bound { length marks.old ≤ 10000 }
    ensures { WrittenBy (kind.Multiple spread.Bits) t.now rows row given.Missing [] [] bytes.old
        bytes.new result }
{
    let w = row.width;
    let at = row.start - 1;
    sets::marks::mark_legal(t, rows, row, marks);
    setbytes::bits::blank_bits(t, rows, row, marks, bytes, at, w);
    Wrote::Done
}

fn bits_set(
    t: &[i64],
    rows: usize,
    row: Row,
    list: &[i64],
    marks: &mut [u8],
    bytes: &mut [u8],
) -> Wrote
    requires ready { Ready (kind.Multiple spread.Bits) t.now rows (length bytes.old) row }
    requires marks_len_bound { length marks.old ≤ 10000 }
    ensures { WrittenBy (kind.Multiple spread.Bits) t.now rows row given.Set list.now [] bytes.old
        bytes.new result }
{
    let w = row.width;
    let at = row.start - 1;
    sets::marks::mark_legal(t, rows, row, marks);
    if !setbytes::judge::set_fits(t, rows, row, marks, list) {
        return Wrote::NotLegal;
    }
    if sets::marks::range_has(row, w) {
        setbytes::bits::put_all(t, rows, row, bytes, at, w, list);
        return Wrote::Done;
    }
    setbytes::bits::put_bits(t, rows, row, marks, bytes, at, w, list);
    Wrote::Done
}

// No marks for a range that has every category, and no more than there are categories else.
fn bits_blanked(t: &[i64], rows: usize, row: Row, bytes: &mut [u8]) -> Wrote
    requires { Ready (kind.Multiple spread.Bits) t.now rows (length bytes.old) row }
    ensures { WrittenBy (kind.Multiple spread.Bits) t.now rows row given.Missing [] [] bytes.old
        bytes.new result }
{
    let w = row.width;
    let at = row.start - 1;
    if sets::marks::range_has(row, w) {
        setbytes::bits::blank_all(t, rows, row, bytes, at, w);
        return Wrote::Done;
    }
    let k = w + 1;
    if k <= SHORT {
        let mut short = [0; SHORT];
        return bits_missing(t, rows, row, &mut short[..k], bytes);
    }
    let mut marks = [0; MARKS];
    bits_missing(t, rows, row, &mut marks[..k], bytes)
}

// Whether the row's lines are its categories, as they mostly are, and the set is some of them: then no marks are needed.
pub fn each_fits(t: &[i64], rows: usize, row: Row, w: usize, list: &[i64]) -> bool
    requires line_facts { LineFacts t.now rows row }
    requires w_bound { w ≤ 9999 }
    ensures { result ≡ true → EachFits t.now rows row w list.now }
{
    if !sets::alike::lines_count(t, rows, row, w) {
        return false;
    }
    setbytes::judge::fits_in(1, cells::cell_of(w), list)
}

// A set of a row that allows every category.
pub fn bits_full(t: &[i64], rows: usize, row: Row, list: &[i64], bytes: &mut [u8]) -> Wrote
    requires ready { Ready (kind.Multiple spread.Bits) t.now rows (length bytes.old) row }
    requires each_fits { EachFits t.now rows row row.width list.now }
    ensures { WrittenBy (kind.Multiple spread.Bits) t.now rows row given.Set list.now [] bytes.old
        bytes.new result }
{
    let w = row.width;
    let at = row.start - 1;
    setbytes::bits::put_all(t, rows, row, bytes, at, w, list);
    Wrote::Done
}

// The same for a set; nor are marks needed where the row's lines are its categories.
fn bits_written(t: &[i64], rows: usize, row: Row, list: &[i64], bytes: &mut [u8]) -> Wrote
    requires { Ready (kind.Multiple spread.Bits) t.now rows (length bytes.old) row }
    ensures { WrittenBy (kind.Multiple spread.Bits) t.now rows row given.Set list.now [] bytes.old
        bytes.new result }
{
    let w = row.width;
    if each_fits(t, rows, row, w, list) {
        return bits_full(t, rows, row, list, bytes);
    }
    if sets::marks::range_has(row, w) {
        let mut none = [0; 1];
        return bits_set(t, rows, row, list, &mut none, bytes);
    }
    let k = w + 1;
    if k <= SHORT {
        let mut short = [0; SHORT];
        return bits_set(t, rows, row, list, &mut short[..k], bytes);
    }
    let mut marks = [0; MARKS];
    bits_set(t, rows, row, list, &mut marks[..k], bytes)
}

fn spread_set(
    powers: &[u64; 16],
    t: &[i64],
    rows: usize,
    row: Row,
    count: usize,
    width: usize,
    list: &[i64],
    marks: &mut [u8],
    bytes: &mut [u8],
) -> Wrote
    requires tens { Tens powers.now }
    requires ready { Ready (kind.Multiple (spread.Fields count width)) t.now rows (length bytes.old) row }
    requires marks_len_bound { length marks.old ≤ 10000 }
    ensures { WrittenBy (kind.Multiple (spread.Fields count width)) t.now rows row given.Set list.now []
        bytes.old bytes.new result }
{
    let w = row.width;
    let at = row.start - 1;
    sets::marks::mark_legal(t, rows, row, marks);
    if !setbytes::judge::set_fits(t, rows, row, marks, list) {
        return Wrote::NotLegal;
    }
    if count < list.len() {
        return Wrote::TooMany;
    }
    setbytes::spread::put_spread(powers, bytes, at, width, w, count, list);
    Wrote::Done
}

fn spread_written(
    powers: &[u64; 16],
    t: &[i64],
    rows: usize,
    row: Row,
    count: usize,
    width: usize,
    list: &[i64],
    bytes: &mut [u8],
) -> Wrote
    requires tens { Tens powers.now }
    requires ready { Ready (kind.Multiple (spread.Fields count width)) t.now rows (length bytes.old) row }
    ensures { WrittenBy (kind.Multiple (spread.Fields count width)) t.now rows row given.Set list.now []
        bytes.old bytes.new result }
{
    let lines = row.lines;
    if (list.len() < MANY) | (lines < MANY) {
        // No room for marks at all: else the row's lines would be walked to mark them.
        let mut none = [0; 1];
        return spread_set(
            powers,
            t,
            rows,
            row,
            count,
            width,
            list,
            &mut none[..0],
            bytes,
        );
    }
    let mut marks = [0; MARKS];
    spread_set(powers, t, rows, row, count, width, list, &mut marks, bytes)
}

// Spaces at the places of a set.
fn blank_set(t: &[i64], rows: usize, row: Row, s: Spread, bytes: &mut [u8]) -> Wrote
    requires { Ready (kind.Multiple s) t.now rows (length bytes.old) row }
    ensures { WrittenBy (kind.Multiple s) t.now rows row given.Missing [] [] bytes.old bytes.new
        result }
{
    match s {
        Spread::Bits => bits_blanked(t, rows, row, bytes),
        Spread::Fields { count, width } => {
            setbytes::spread::blank_spread(bytes, row.start - 1, width, row.width, count);
            Wrote::Done
        }
    }
}

// A set at its places.
fn put_set(
    powers: &[u64; 16],
    t: &[i64],
    rows: usize,
    row: Row,
    s: Spread,
    list: &[i64],
    bytes: &mut [u8],
) -> Wrote
    requires tens { Tens powers.now }
    requires ready { Ready (kind.Multiple s) t.now rows (length bytes.old) row }
    ensures { WrittenBy (kind.Multiple s) t.now rows row given.Set list.now [] bytes.old
        bytes.new result }
{
    match s {
        Spread::Bits => bits_written(t, rows, row, list, bytes),
        Spread::Fields { count, width } => {
            spread_written(powers, t, rows, row, count, width, list, bytes)
        }
    }
}

// All that is written to a row of sets: spaces, or a set. The marks take 10 KB of stack. They stand in this call alone: it has two
// callers and is too long to be put into them, so that no other row's value is written with them in its frame.
pub fn write_multiple(
    powers: &[u64; 16],
    t: &[i64],
    rows: usize,
    row: Row,
    s: Spread,
    blank: bool,
    list: &[i64],
    bytes: &mut [u8],
) -> Wrote
    requires tens { Tens powers.now }
    requires ready { Ready (kind.Multiple s) t.now rows (length bytes.old) row }
    ensures { WrittenBy (kind.Multiple s) t.now rows row (set_or blank) list.now [] bytes.old
        bytes.new result }
{
    if blank {
        return blank_set(t, rows, row, s, bytes);
    }
    put_set(powers, t, rows, row, s, list, bytes)
}

// Spaces at the places of a bitstring: one run where its lines are its categories, as they mostly are.
fn blank_categories(t: &[i64], rows: usize, row: Row, bytes: &mut [u8]) -> Wrote
    requires { Ready (kind.Multiple spread.Bits) t.now rows (length bytes.old) row }
    ensures { WrittenBy (kind.Multiple spread.Bits) t.now rows row given.Missing [] [] bytes.old
        bytes.new result }
{
    let w = row.width;
    let at = row.start - 1;
    if sets::alike::lines_count(t, rows, row, w) {
        runs::blank(bytes, at, w);
        return Wrote::Done;
    }
    let powers = ascii::powers();
    write_multiple(&powers, t, rows, row, Spread::Bits, true, t, bytes)
}

// Spaces at the places of a set, as `write_multiple` puts them; its frame is taken only where marks may be needed.
pub fn blank_multiple(t: &[i64], rows: usize, row: Row, s: Spread, bytes: &mut [u8]) -> Wrote
    requires { Ready (kind.Multiple s) t.now rows (length bytes.old) row }
    ensures { WrittenBy (kind.Multiple s) t.now rows row given.Missing [] [] bytes.old bytes.new
        result }
{
    match s {
        Spread::Bits => blank_categories(t, rows, row, bytes),
        Spread::Fields { count, width } => {
            setbytes::spread::blank_spread(bytes, row.start - 1, width, row.width, count);
            Wrote::Done
        }
    }
}

pub fn write_set(
    powers: &[u64; 16],
    t: &[i64],
    rows: usize,
    row: Row,
    list: &[i64],
    bytes: &mut [u8],
) -> Wrote
    requires tens { Tens powers.now }
    requires ready { Ready row.kind t.now rows (length bytes.old) row }
    ensures { WrittenBy row.kind t.now rows row given.Set list.now [] bytes.old
        bytes.new result }
{
    let kind = row.kind;
    match kind {
        Kind::Multiple(s) => write_multiple(powers, t, rows, row, s, false, list, bytes),
        Kind::Single => Wrote::OtherType,
        Kind::Quantity(_) => Wrote::OtherType,
        Kind::Character => Wrote::OtherType,
        Kind::Logical => Wrote::OtherType,
    }
}

// Whether a set rises within the row's range: then no line is searched for its members.
pub fn range_fits(t: &[i64], rows: usize, row: Row, list: &[i64]) -> bool
    ensures { result ≡ true → set_fits (legal t.now rows row) list.now ≡ true }
{
    let from = row.from;
    let to = row.to;
    if !row.range {
        return false;
    }
    setbytes::judge::fits_in(from, to, list)
}

// A set of legal members at the places of a spread, if it has a subfield for each.
pub fn spread_full(
    powers: &[u64; 16],
    t: &[i64],
    rows: usize,
    row: Row,
    count: usize,
    width: usize,
    members: &[i64],
    bytes: &mut [u8],
) -> Wrote
    requires tens { Tens powers.now }
    requires ready { Ready (kind.Multiple (spread.Fields count width)) t.now rows (length bytes.old) row }
    requires members_value { set_fits (legal t.now rows row) members.now ≡ true }
    ensures { WrittenBy (kind.Multiple (spread.Fields count width)) t.now rows row given.Set members.now []
        bytes.old bytes.new result }
{
    let w = row.width;
    let at = row.start - 1;
    if count < members.len() {
        return Wrote::TooMany;
    }
    setbytes::spread::put_spread(powers, bytes, at, width, w, count, members);
    Wrote::Done
}
