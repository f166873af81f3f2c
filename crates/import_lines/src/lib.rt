// A line of a text that is imported: its fields cut, each taken as a value of its row, and what the line then says. Above it stand the name
// line and the passes of an import.
#![tactic(auto)]

ghost use Rattle.std.specs.Prelude.{◌≡◌, false, cond, ◌+◌, ◌-◌, ◌≤◌, ◌<◌, min, length, take, drop, MatchOption};
ghost use Rattle.ascii.specs.rule.Tens.{Tens};
ghost use Rattle.fields.specs.rule.Field.{spaces};
ghost use Rattle.sound.specs.rule.Rows.{rows_of, length_of};
ghost use Rattle.sharing.specs.Known.{TableKnown};
ghost use Rattle.writes.specs.Write.{Ready};
ghost use Rattle.csv_fields.specs.rule.Page.{page, fresh};
ghost use Rattle.csv_fields.specs.Page.{CutAs, CutFrom, Ahead, Bounded};
ghost use Rattle.field_values.specs.Steps.{Took};
ghost use Rattle.import_lines.specs.Undoubled.{undoubled, stride};
ghost use Rattle.import_lines.specs.Walk.{RawOf, walk_of, step, end_of, LineTaken};
ghost use Rattle.import_lines.specs.Judge.{FieldJudged, Judges, LineJudged};
ghost use Rattle.import_lines.specs.Build.{FullRows, FieldBuilt, SlowBuilt};
ghost use Rattle.fields.specs.Facts.{LineFacts};
ghost use Rattle.sets.specs.Full.{EachLegal};

use csv_fields::Cut;
use layout::Row;

// How a line ends: with a record in the slot, and where the next line begins; with a refusal's number and column; or with the column of a
// field that is malformed.
#[derive(Clone, Copy)]
pub enum LineEnd {
    Good(usize),
    Refused(usize, usize),
    Torn(usize),
}

// How far it is to the next byte: of two quotes the second is left out.
pub fn stride_of(b: u8) -> usize
    ensures { (result ≡ stride b) × (1 ≤ result) × (result ≤ 2) }
{
    if b == 34 { 2 } else { 1 }
}

// The bytes of a field that stood in quotes, without the doubled ones, at the start of the room, and how many; none where there are more
// than any value has.
fn undouble(raw: &[u8], room: &mut [u8]) -> Option<usize>
    requires { length room.old ≡ 50000 }
    ensures { MatchOption result (50000 < length (undoubled false raw.now))
        (λ n. (n ≤ 50000) × (take n room.new ≡ undoubled false raw.now)) }
{
    let mut n: usize = 0;
    let mut i: usize = 0;
    while i < raw.len() {
        if 50000 <= n {
            return None;
        }
        let b = raw[i];
        room[n] = b;
        n += 1;
        i += stride_of(b);
    }
    Some(n)
}

// The field whose bytes so stand in the text, as a value of the row.
fn take_raw(
    powers: &[u64; 16],
    t: &[i64],
    rows: usize,
    row: Row,
    raw: &[u8],
    bare: bool,
    list: &mut [i64],
    room: &mut [u8],
    spare: &mut [u8],
    bytes: &mut [u8],
) -> bool
    requires tens { Tens powers.now }
    requires ready { Ready row.kind t.now rows (length bytes.old) row }
    requires raw_of { RawOf raw.now bare }
    requires list_len { (length list.old ≡ 9999) × (length room.old ≡ 50000) × (length spare.old ≡ 50000) }
    ensures { Took t.now rows row (undoubled false raw.now) bytes.old bytes.new result }
{
    if bare {
        return field_values::take_field(powers, t, rows, row, raw, list, room, bytes);
    }
    let Some(n) = undouble(raw, spare) else {
        return false;
    };
    field_values::take_field(powers, t, rows, row, &spare[..n], list, room, bytes)
}

// Field j of a line, where the quick road did not take it.
fn take_slow(
    powers: &[u64; 16],
    t: &[i64],
    rows: usize,
    len: usize,
    j: usize,
    raw: &[u8],
    bare: bool,
    list: &mut [i64],
    room: &mut [u8],
    spare: &mut [u8],
    bytes: &mut [u8],
) -> usize
    requires tens { Tens powers.now }
    requires table_known { TableKnown t.now rows len × (len ≤ length bytes.old) × (j < rows) }
    requires raw_of { RawOf raw.now bare }
    requires list_len { (length list.old ≡ 9999) × (length room.old ≡ 50000) × (length spare.old ≡ 50000) }
    ensures { walk_of result bytes.new
        ≡ step t.now rows j (undoubled false raw.now) 0 bytes.old }
{
    if take_raw(
        powers,
        t,
        rows,
        Row::read(t, j),
        raw,
        bare,
        list,
        room,
        spare,
        bytes,
    ) {
        return 0;
    }
    j + 1
}

fn lesser(a: usize, b: usize) -> usize
    ensures { result ≡ min a b }
{
    if a <= b { a } else { b }
}

// What a line of so many fields says: another number of fields comes before a field that is no value.
fn line_end(rows: usize, count: usize, bad: usize, next: usize) -> LineEnd
    requires { rows ≤ 512 }
    ensures { result ≡ end_of rows count bad next }
{
    if count != rows {
        return LineEnd::Refused(63, lesser(count, rows) + 1);
    }
    if bad != 0 {
        return LineEnd::Refused(64, bad);
    }
    LineEnd::Good(next)
}

// Field j of a line judged where it stands, unless one before it was no value: the place behind what stops it, or 0.
fn judge_field(
    t: &[i64],
    rows: usize,
    len: usize,
    full: &[u8],
    d: &[u8],
    at: usize,
    j: usize,
    bad: usize,
) -> usize
    requires { TableKnown t.now rows len × (at ≤ length d.now) × FullRows t.now rows full.now }
    ensures { (result ≡ 0 → ⊥) → FieldJudged t.now rows d.now at j bad (result - 1) }
{
    if bad != 0 {
        return 0;
    }
    if rows <= j {
        return 0;
    }
    field_judges::judge_at(t, rows, Row::read(t, j), full[j] == 1, d, at)
}

// A field cut: where its end is known, it is not looked for.
fn cut_at(d: &[u8], at: usize, end: usize) -> Cut
    requires { (at ≤ length d.now) × ((end ≡ 0 → ⊥) → Bounded d.now at (end - 1)) }
    ensures cut_as { CutAs d.now (page fresh (drop at d.now)) result × Ahead at result }
    ensures cut_from { (end ≡ 0 → ⊥) → CutFrom at (end - 1) result }
{
    if end == 0 {
        return csv_fields::next_field(d, at);
    }
    csv_fields::ended_field(d, at, end - 1)
}

// Field j of a line, where it was not judged so: the first column that is no value, or 0. The bytes are room for what is not kept.
fn judge_slow(
    powers: &[u64; 16],
    t: &[i64],
    rows: usize,
    len: usize,
    j: usize,
    bad: usize,
    end: usize,
    raw: &[u8],
    bare: bool,
    list: &mut [i64],
    room: &mut [u8],
    spare: &mut [u8],
    bytes: &mut [u8],
) -> usize
    requires tens { Tens powers.now }
    requires table_known { TableKnown t.now rows len × (len ≤ length bytes.old) }
    requires raw_of { RawOf raw.now bare }
    requires list_len { (length list.old ≡ 9999) × (length room.old ≡ 50000) × (length spare.old ≡ 50000) }
    requires judges { (end ≡ 0 → ⊥) → Judges t.now rows j (undoubled false raw.now) bad 0 }
    ensures { Judges t.now rows j (undoubled false raw.now) bad result }
{
    if end != 0 {
        return 0;
    }
    if bad != 0 {
        return bad;
    }
    if rows <= j {
        return 0;
    }
    take_slow(powers, t, rows, len, j, raw, bare, list, room, spare, bytes)
}

// THE LINE from a place on, judged: no record is built. The bytes are room for what is not kept.
pub fn judge_line(
    powers: &[u64; 16],
    t: &[i64],
    rows: usize,
    len: usize,
    full: &[u8],
    d: &[u8],
    from: usize,
    list: &mut [i64],
    room: &mut [u8],
    spare: &mut [u8],
    bytes: &mut [u8],
) -> LineEnd
    requires tens { Tens powers.now }
    requires table_known { TableKnown t.now rows len × (rows ≡ rows_of t.now) × (len ≡ length_of t.now) }
    requires from_in_bounds { (from ≤ length d.now) × (len ≤ length bytes.old) × FullRows t.now rows full.now }
    requires list_len { (length list.old ≡ 9999) × (length room.old ≡ 50000) × (length spare.old ≡ 50000) }
    ensures { LineJudged t.now d.now from result }
{
    let mut at = from;
    let mut j: usize = 0;
    let mut bad: usize = 0;
    loop {
        let end = judge_field(t, rows, len, full, d, at, j, bad);
        let span = csv_fields::span_of(cut_at(d, at, end));
        let p = span.from;
        let q = span.to;
        if span.torn {
            return LineEnd::Torn(j + 1);
        }
        bad = judge_slow(
            powers,
            t,
            rows,
            len,
            j,
            bad,
            end,
            &d[p..q],
            span.bare,
            list,
            room,
            spare,
            bytes,
        );
        j += 1;
        at = span.next;
        if span.ends {
            return line_end(rows, j, bad, at);
        }
    }
}

// Field j of a line built where it stands, unless one before it was no value: the place behind what stops it; or 0, and the record is kept.
fn build_field(
    powers: &[u64; 16],
    t: &[i64],
    rows: usize,
    len: usize,
    full: &[u8],
    d: &[u8],
    at: usize,
    j: usize,
    bad: usize,
    list: &mut [i64],
    bytes: &mut [u8],
) -> usize
    requires tens { Tens powers.now }
    requires table_known { TableKnown t.now rows len × (len ≤ length bytes.old) × (at ≤ length d.now) × FullRows t.now rows full.now }
    requires list_len { length list.old ≡ 9999 }
    ensures { FieldBuilt t.now rows d.now at j bad bytes.old bytes.new result }
{
    if bad != 0 {
        return 0;
    }
    if rows <= j {
        return 0;
    }
    if field_judges::stops(d, at) {
        return field_builds::build_missing(t, rows, Row::read(t, j), d, at, bytes);
    }
    field_builds::build_at(
        powers,
        t,
        rows,
        Row::read(t, j),
        full[j] == 1,
        d,
        at,
        list,
        bytes,
    )
}

// Field j of a line, where it was not built so: the first column that is no value, or 0.
fn build_slow(
    powers: &[u64; 16],
    t: &[i64],
    rows: usize,
    len: usize,
    j: usize,
    bad: usize,
    end: usize,
    raw: &[u8],
    bare: bool,
    list: &mut [i64],
    room: &mut [u8],
    spare: &mut [u8],
    bytes: &mut [u8],
) -> usize
    requires tens { Tens powers.now }
    requires table_known { TableKnown t.now rows len × (len ≤ length bytes.old) }
    requires raw_of { RawOf raw.now bare }
    requires list_len { (length list.old ≡ 9999) × (length room.old ≡ 50000) × (length spare.old ≡ 50000) }
    ensures { SlowBuilt t.now rows j (undoubled false raw.now) bad end bytes.old bytes.new
        result }
{
    if end != 0 {
        return 0;
    }
    if bad != 0 {
        return bad;
    }
    if rows <= j {
        return 0;
    }
    take_slow(powers, t, rows, len, j, raw, bare, list, room, spare, bytes)
}

// THE LINE from a place on, its record built in a slot of spaces.
pub fn take_line(
    powers: &[u64; 16],
    t: &[i64],
    rows: usize,
    len: usize,
    full: &[u8],
    d: &[u8],
    from: usize,
    list: &mut [i64],
    room: &mut [u8],
    spare: &mut [u8],
    bytes: &mut [u8],
) -> LineEnd
    requires tens { Tens powers.now }
    requires table_known { TableKnown t.now rows len × (rows ≡ rows_of t.now) × (len ≡ length_of t.now) }
    requires from_in_bounds { (from ≤ length d.now) × (bytes.old ≡ spaces len) × FullRows t.now rows full.now }
    requires list_len { (length list.old ≡ 9999) × (length room.old ≡ 50000) × (length spare.old ≡ 50000) }
    ensures { LineTaken t.now d.now from bytes.new result }
{
    let mut at = from;
    let mut j: usize = 0;
    let mut bad: usize = 0;
    loop {
        let end = build_field(powers, t, rows, len, full, d, at, j, bad, list, bytes);
        let span = csv_fields::span_of(cut_at(d, at, end));
        let p = span.from;
        let q = span.to;
        if span.torn {
            return LineEnd::Torn(j + 1);
        }
        bad = build_slow(
            powers,
            t,
            rows,
            len,
            j,
            bad,
            end,
            &d[p..q],
            span.bare,
            list,
            room,
            spare,
            bytes,
        );
        j += 1;
        at = span.next;
        if span.ends {
            return line_end(rows, j, bad, at);
        }
    }
}

// Whether the row's lines are its categories.
fn full_row(t: &[i64], rows: usize, row: Row) -> u8
    requires { LineFacts t.now rows row }
    ensures { result ≡ 1 → EachLegal t.now rows row row.width }
{
    let w = row.width;
    if 9999 < w {
        return 0;
    }
    u8::from(sets::alike::lines_count(t, rows, row, w))
}

// A 1 for each row whose lines are its categories, so that no field asks it again.
pub fn mark_full(t: &[i64], rows: usize, len: usize, full: &mut [u8])
    requires { TableKnown t.now rows len × (length full.old ≡ 512) }
    ensures { FullRows t.now rows full.new }
{
    for j in 0..rows {
        full[j] = full_row(t, rows, Row::read(t, j));
    }
}
