// The columns of a table, and what they hold of a record: counted, and written as presence bytes and values. The table was tested. Above it
// stands the matrix of a file.
#![tactic(auto)]

ghost use Rattle.std.specs.Prelude.{◌≡◌, true, false, ℕ, ◌+◌, ◌-◌, ◌^◌, ◌≤◌, ◌<◌, List, [], ◌∷◌, pos, length, get_or, is_some};
ghost use Rattle.std.specs.Option.{unwrap_or};
ghost use Rattle.below.specs.rule.Below.{any_below};
ghost use Rattle.ascii.specs.rule.Tens.{Tens};
ghost use Rattle.cells.specs.rule.Cell.{cell, eq_z};
ghost use Rattle.layout.specs.declared.Kind.TheVariants.{Multiple};
ghost use Rattle.layout.specs.declared.Spread.TheVariants.{Bits, Fields};
ghost use Rattle.places.specs.rule.Places.{pick, run};
ghost use Rattle.fields.specs.rule.Legal.{in_range, legal};
ghost use Rattle.fields.specs.rule.Number.{code_of, quantity_of};
ghost use Rattle.fields.specs.rule.Field.{truth_field, all_entries};
ghost use Rattle.fields.specs.rule.Row.{defined, spread_places, reading_of};
ghost use Rattle.fields.specs.Facts.{LineFacts};
ghost use Rattle.numbers.specs.Numeral.{said_of};
ghost use Rattle.numbers.specs.rule.Format.{FormatFacts};
ghost use Rattle.sets.specs.rule.Sets.{is_illegal};
ghost use Rattle.sets.specs.Full.{always};
ghost use Rattle.sets.specs.Marks.{Marks, Besides};
ghost use Rattle.sets.specs.Sets.{SpreadRoom, bits_field_at};
ghost use Rattle.files.specs.rule.Tested.{Tested};
ghost use Rattle.matrix.specs.Put.{put_entries};
ghost use Rattle.matrix.specs.Entry.{EntryGood};
ghost use Rattle.columns.specs.rule.Columns.{row_columns, columns_from, number_entry};
ghost use Rattle.columns.specs.Reach.{shape_of, digits_reach, bits_reach, reach_by, Readable, Covered};
ghost use Rattle.columns.specs.Marked.{answer_entry, marked_entry, marked_entries, member_entries};
ghost use Rattle.columns.specs.Stretch.{Starts, Ends, mark_among, Unmarked, Alike};
ghost use Rattle.columns.specs.Room.{Room, PutAs};
ghost use Rattle.columns.specs.Ones.{Marked, RangeTo, marked_left, in_list, stretch_from, OneMore, OnesMore, NoneFrom};
ghost use Rattle.columns.specs.Rows.{entries_by, MarkedRow, MarkedSet};
ghost use Rattle.columns.specs.Listed.{Lists, HeldIn, Copied};
ghost use Rattle.columns.specs.Near.{RowPut, FarMarks};
ghost use Rattle.columns.specs.Said.{single_entry, amount_entry};
ghost use Rattle.columns.specs.Whole.{BitsPut};

use layout::{Format, Header, Kind, Row, Spread};
use matrix::Entry;
use numbers::Numeral;
use readings::Answer;

// What was made of a row's marks: the first gap in them behind 1, and how many columns the row has.
#[derive(Clone, Copy)]
pub struct Marking {
    pub gap: usize,
    pub count: usize,
}

// What was put of a row in a record: whether it holds a set, and whether that is one whose members all stand before the row's first gap, so
// that they are marked besides those of the records before.
#[derive(Clone, Copy)]
pub struct Put {
    pub there: bool,
    pub near: bool,
}

// The entry of a row of one column, by what was read of it.
fn number_entry(a: Answer, power: u64) -> Entry
    ensures { result ≡ answer_entry power a }
{
    match a {
        Answer::Missing => Entry::Absent,
        Answer::Number(z) => Entry::Scaled(z, power),
        Answer::Set(_) => Entry::Absent,
        Answer::Text(_, _) => Entry::Absent,
        Answer::Truth(b) => {
            if b {
                return Entry::Scaled(1, power);
            }
            Entry::Scaled(0, power)
        }
        Answer::BadTable => Entry::Absent,
        Answer::NoRow => Entry::Absent,
        Answer::ShortRecord => Entry::Absent,
        Answer::Illegal => Entry::Absent,
        Answer::ShortList => Entry::Absent,
    }
}

// The entry of what a SINGLE's bytes say; zero is missing.
fn code_entry(said: Numeral) -> Entry
    ensures { result ≡ single_entry (said_of said) }
{
    match said {
        Numeral::Blank => Entry::Absent,
        Numeral::Says(z) => {
            if cells::same(z, 0) {
                return Entry::Absent;
            }
            Entry::Scaled(z, 1)
        }
        Numeral::Wrong => Entry::Absent,
    }
}

// The entry of a SINGLE, whose number is none that its row would refuse: its w bytes end before the place e.
fn put_single(bytes: &[u8], e: usize, w: usize, out: &mut [u8], flags: usize, values: usize)
    requires w_bound { (w ≤ 17) × (w ≤ e) × (e ≤ length bytes.now) }
    requires entry_good { EntryGood (single_entry (code_of (pick bytes.now (run (e - w) w)))) }
    requires flags_lt_values { (flags < values) × (values + 8 ≤ length out.old) }
    ensures { out.new ≡ put_entries out.old flags values
        (single_entry (code_of (pick bytes.now (run (e - w) w))) ∷ []) }
{
    let a = e - w;
    let said = numbers::code(&bytes[a..e]);
    matrix::put_entry(out, flags, values, code_entry(said));
}

// The entry of what a quantity's bytes say.
fn amount_entry(said: Numeral, power: u64) -> Entry
    ensures { result ≡ amount_entry power (said_of said) }
{
    match said {
        Numeral::Blank => Entry::Absent,
        Numeral::Says(z) => Entry::Scaled(z, power),
        Numeral::Wrong => Entry::Absent,
    }
}

// The same of a quantity.
fn put_quantity(
    powers: &[u64; 16],
    f: Format,
    bytes: &[u8],
    e: usize,
    w: usize,
    out: &mut [u8],
    flags: usize,
    values: usize,
)
    requires tens { Tens powers.now × FormatFacts f }
    requires w_bound { (w ≤ 17) × (w ≤ e) × (e ≤ length bytes.now) }
    requires entry_good { EntryGood (amount_entry (10 ^ f.decimals) (quantity_of f (pick bytes.now (run (e - w) w)))) }
    requires flags_lt_values { (flags < values) × (values + 8 ≤ length out.old) }
    ensures { out.new ≡ put_entries out.old flags values
        (amount_entry (10 ^ f.decimals) (quantity_of f (pick bytes.now (run (e - w) w))) ∷ []) }
{
    let a = e - w;
    let power = ascii::power(powers, f.decimals);
    let said = numbers::quantity(f, &bytes[a..e]);
    matrix::put_entry(out, flags, values, amount_entry(said, power));
}

// The entry of a truth.
fn put_truth(b: u8, out: &mut [u8], flags: usize, values: usize)
    requires { (flags < values) × (values + 8 ≤ length out.old) }
    ensures { out.new ≡ put_entries out.old flags values (number_entry 1 (truth_field (b ∷ [])) ∷ []) }
{
    let a = readings::truth(b);
    matrix::put_entry(out, flags, values, number_entry(a, 1));
}

// The first n numbers of a list marked, besides those that are.
fn mark_members(list: &[i64], n: usize, marks: &mut [u8])
    requires { (n ≤ length list.now) × (length marks.old ≤ 10000) }
    ensures { Besides (λ x. any_below n (λ j. eq_z (cell list.now j) x)) marks.old marks.new }
{
    for k in 0..n {
        sets::marks::mark_one(marks, list[k]);
    }
}

// A category's entry: 1 where it is marked, 0 where not, absent where there is no set.
fn member_entry(there: bool, mark: u8) -> Entry
    ensures { result ≡ marked_entry there mark }
{
    if there {
        if mark == 1 {
            return Entry::Scaled(1, 1);
        }
        return Entry::Scaled(0, 1);
    }
    Entry::Absent
}

// Whether one of the sixteen marks from i on is set. Nothing leaves the loop early: that lets the compiler look at all of them at once.
fn mark_among(marks: &[u8], i: usize) -> bool
    requires { i + 16 ≤ length marks.now }
    ensures { result ≡ mark_among marks.now i 16 }
{
    let mut any = false;
    for k in 0..16 {
        any = any | (marks[i + k] == 1);
    }
    any
}

// A place from `from` on with no mark set before it.
fn pass_unmarked(marks: &[u8], from: usize) -> usize
    requires { from ≤ length marks.now }
    ensures { Unmarked marks.now from result }
{
    let n = marks.len();
    let mut i = from;
    // no `for`: the place where it stops is the answer
    while n - i >= 16 {
        if mark_among(marks, i) {
            return i;
        }
        i += 16;
    }
    i
}

// How many categories more are written one by one before sixteen are tried again.
fn wait_after(wait: usize) -> usize {
    if wait == 0 {
        return 3;
    }
    wait - 1
}

// Whether the sixteen categories from c on are tried, and are all legal, and none of them a member.
fn are_alike(allowed: &[u8], present: &[u8], wait: usize, c: usize) -> bool
    requires { (c ≤ length allowed.now) × (length allowed.now ≤ length present.now) }
    ensures { Alike allowed.now present.now c result }
{
    if 0 < wait {
        return false;
    }
    if allowed.len() - c < 16 {
        return false;
    }
    if mark_among(present, c) {
        return false;
    }
    matrix::all_are(allowed, c, 16, 1)
}

// The entries of the categories from `from` on that are marked as legal, and how many they are. Sixteen that are alike are written
// together: most sets hold few of many.
fn put_rest(
    allowed: &[u8],
    present: &[u8],
    there: bool,
    from: usize,
    out: &mut [u8],
    flags: usize,
    values: usize,
) -> usize
    requires allowed_in_bounds { length allowed.now ≤ length present.now }
    requires room { Room flags values (length out.old) (length (marked_left there allowed.now present.now from)) }
    ensures { PutAs (marked_left there allowed.now present.now from) flags values out.old
        out.new result }
{
    let mut k: usize = 0;
    let mut c = from;
    let mut wait: usize = 0;
    // no `for`: categories are passed by sixteens too, and by stretches that are not legal
    while c < allowed.len() {
        let b = c;
        let w = wait;
        c += 1;
        wait = wait_after(w);
        if are_alike(allowed, present, w, b) {
            matrix::put_noughts(out, flags + k, values + 8 * k, there);
            k += 16;
            c += 15;
            wait = 0;
        } else if allowed[b] == 1 {
            let e = member_entry(there, present[b]);
            matrix::put_entry(out, flags + k, values + 8 * k, e);
            k += 1;
        } else {
            c = pass_unmarked(allowed, c);
        }
    }
    k
}

// A place from `from` on with every mark set before it: sixteen at a time, so that fewer than sixteen more may be set.
fn pass_sixteens(marks: &[u8], from: usize) -> usize
    requires { from ≤ length marks.now }
    ensures { Marked marks.now from result }
{
    let n = marks.len();
    let mut i = from;
    // no `for`: the place where it stops is the answer
    while n - i >= 16 {
        if !matrix::all_are(marks, i, 16, 1) {
            return i;
        }
        i += 16;
    }
    i
}

// The same, up to the first mark that is not set.
fn pass_marked(marks: &[u8], from: usize) -> usize
    requires { from ≤ length marks.now }
    ensures { Marked marks.now from result }
{
    let n = marks.len();
    for i in pass_sixteens(marks, from)..n {
        if marks[i] != 1 {
            return i;
        }
    }
    n
}

// The entry of category z set to 1, if it is one of those before `past`, which stand there.
fn put_one(out: &mut [u8], z: i64, past: usize, flags: usize, values: usize)
    requires { (past ≤ 10000) × Room flags values (length out.old) (past - 1) }
    ensures { OneMore flags values (past - 1) z out.old out.new }
{
    let c = cells::count_of(z);
    if c == 0 {
        return;
    }
    if past <= c {
        return;
    }
    matrix::put_entry(
        out,
        flags + (c - 1),
        values + 8 * (c - 1),
        Entry::Scaled(1, 1),
    );
}

// The same of the list's first n numbers.
fn put_ones(list: &[i64], n: usize, out: &mut [u8], past: usize, flags: usize, values: usize)
    requires { (n ≤ length list.now) × (past ≤ 10000) × Room flags values (length out.old) (past - 1) }
    ensures { OnesMore flags values (past - 1) list.now n out.old out.new }
{
    for k in 0..n {
        put_one(out, list[k], past, flags, values);
    }
}

// The entries of the categories before `past`, which are all legal: zeros at once, and the ones set among them.
fn put_stretch(
    list: &[i64],
    n: usize,
    past: usize,
    there: bool,
    out: &mut [u8],
    flags: usize,
    values: usize,
)
    requires { (n ≤ length list.now) × (1 ≤ past) × (past ≤ 10000) × Room flags values (length out.old) (past - 1) }
    ensures { out.new ≡ put_entries out.old flags values
        (stretch_from there (in_list list.now n) 1 (past - 1)) }
{
    matrix::put_many(out, flags, values, past - 1, there);
    if !there {
        return;
    }
    put_ones(list, n, out, past, flags, values);
}

// Whether the list's first n numbers all stand before a gap.
fn all_before(list: &[i64], n: usize, gap: usize) -> bool
    requires { n ≤ length list.now }
    ensures { result ≡ true → NoneFrom list.now n gap }
{
    let mut all = true;
    for k in 0..n {
        all = all & (cells::count_of(list[k]) < gap);
    }
    all
}

// The entries of the categories that are marked as legal, of which there are so many: those before the first gap by what the list holds,
// the others by their marks, or as zeros where the list holds none of them. All before the gap are legal.
fn put_members(
    list: &[i64],
    n: usize,
    m: Marking,
    allowed: &[u8],
    present: &[u8],
    there: bool,
    out: &mut [u8],
    flags: usize,
    values: usize,
)
    requires n_in_bounds { (n ≤ length list.now) × (length present.now ≡ length allowed.now) × (length allowed.now ≤ 10000) }
    requires marked { Marked allowed.now 1 m.gap × Marks (λ z. any_below n (λ j. eq_z (cell list.now j) z)) present.now }
    requires count_value { (m.count ≡ length (marked_entries there allowed.now present.now)) × Room flags values (length out.old) m.count }
    ensures { out.new ≡ put_entries out.old flags values
        (marked_entries there allowed.now present.now) }
{
    let gap = m.gap;
    let k = gap - 1;
    put_stretch(list, n, gap, there, out, flags, values);
    if all_before(list, n, gap) {
        matrix::put_many(out, flags + k, values + 8 * k, m.count - k, there);
        return;
    }
    put_rest(allowed, present, there, gap, out, flags + k, values + 8 * k);
}

// How many of the first n numbers lie below z.
fn start_of(z: i64, n: usize) -> usize
    requires { n ≤ 10000 }
    ensures { Starts z n result }
{
    if cells::not_above(z, 0) {
        return 0;
    }
    let k = cells::count_of(z);
    if k < n {
        return k;
    }
    n
}

// How many of the first n numbers are not above z.
fn end_of(z: i64, n: usize) -> usize
    requires { n ≤ 10000 }
    ensures { Ends z n result }
{
    if cells::not_above(0, z) {
        let k = cells::count_of(z);
        if k < n {
            return k + 1;
        }
        return n;
    }
    0
}

// The numbers of the row's range marked, and no other: a stretch, so that not each of them is asked for.
fn mark_range(row: Row, marks: &mut [u8])
    requires { length marks.old ≤ 10000 }
    ensures { Marks (λ x. in_range row x) marks.new }
{
    let from = row.from;
    let to = row.to;
    sets::marks::clear(marks);
    if !row.range {
        return;
    }
    let past = end_of(to, marks.len());
    for c in start_of(from, past)..past {
        marks[c] = 1;
    }
}

// The numbers that the row allows marked, and no other. A row may have thousands of categories, and each record marks them anew.
fn mark_legal(t: &[i64], rows: usize, row: Row, marks: &mut [u8])
    requires line_facts { LineFacts t.now rows row }
    requires marks_len_bound { length marks.old ≤ 10000 }
    ensures { Marks (λ x. legal t.now rows row x) marks.new }
{
    mark_range(row, marks);
    sets::marks::mark_lines(t, rows, row, marks);
}

// A place before which every number from 1 on is in the row's range: behind the range, or 1.
fn range_past(row: Row, n: usize) -> usize
    requires { (1 ≤ n) × (n ≤ 10000) }
    ensures { RangeTo row n result }
{
    let from = row.from;
    let to = row.to;
    if !row.range {
        return 1;
    }
    if !cells::not_above(from, 1) {
        return 1;
    }
    let past = end_of(to, n);
    if past == 0 {
        return 1;
    }
    past
}

// The entries of a set all of whose members stand before the row's first gap: one stretch. Its members are marked besides those of the
// records before.
fn put_near(
    list: &[i64],
    n: usize,
    m: Marking,
    there: bool,
    met: &mut [u8],
    out: &mut [u8],
    flags: usize,
    values: usize,
)
    requires n_in_bounds { (n ≤ length list.now) × (length met.old ≤ 10000) × (m.count ≤ 9999) }
    requires room { Room flags values (length out.old) m.count }
    ensures { (out.new ≡ put_entries out.old flags values
        (stretch_from there (in_list list.now n) 1 m.count))
        × Besides (λ x. any_below n (λ j. eq_z (cell list.now j) x)) met.old met.new }
{
    mark_members(list, n, met);
    put_stretch(list, n, m.count + 1, there, out, flags, values);
}

// The entries of any set, by the marks of its own members.
fn put_far(
    list: &[i64],
    n: usize,
    m: Marking,
    allowed: &[u8],
    present: &mut [u8],
    there: bool,
    out: &mut [u8],
    flags: usize,
    values: usize,
)
    requires n_in_bounds { (n ≤ length list.now) × (length present.old ≡ length allowed.now) × (length allowed.now ≤ 10000) }
    requires marked { Marked allowed.now 1 m.gap × ((x : List ℕ) → m.count ≡ length (marked_entries there allowed.now x)) }
    requires room { Room flags values (length out.old) m.count }
    ensures { (length present.new ≡ length present.old)
        × FarMarks list.now n present.new
        × (out.new ≡ put_entries out.old flags values
        (marked_entries there allowed.now present.new)) }
{
    sets::marks::clear(present);
    mark_members(list, n, present);
    put_members(list, n, m, allowed, present, there, out, flags, values);
}

// The members of any multiple, as they are read: how many the list begins with, where there is a set; the empty one is.
fn list_read(t: &[i64], rows: usize, row: Row, bytes: &[u8], list: &mut [i64]) -> Option<usize>
    requires { Readable t.now rows row (length bytes.now) × (length list.old ≡ 9999) }
    ensures { Lists (reading_of t.now rows row bytes.now) list.new (unwrap_or result 0) (is_some result) }
{
    match readings::read_row(t, rows, row, bytes, list) {
        Answer::Set(n) => Some(n),
        _ => None,
    }
}

fn code_of(x: u16) -> i64
    ensures { result ≡ pos x }
{
    cells::cell_of(x as usize)
}

// The numbers of a room put into the list.
fn list_room(room: &[u16], list: &mut [i64])
    requires { length room.now ≤ length list.old }
    ensures { Copied room.now list.new }
{
    for (k, code) in room.iter().enumerate() {
        list[k] = code_of(*code);
    }
}

// The numbers that n subfields hold, which are legal, one behind the other in the list: zero for one that is unused. The room has as many.
fn list_fields(
    bytes: &[u8],
    at: usize,
    b: usize,
    w: usize,
    n: usize,
    room: &mut [u16],
    list: &mut [i64],
)
    requires spread_room { SpreadRoom at b w n (length bytes.now) × (length room.old ≡ n) × (n ≤ length list.old) }
    requires by_index { (i : ℕ) → get_or room.old i 0 ≡ 0 }
    requires n_value { all_entries always w n (pick bytes.now (spread_places at b w n)) ≡ true }
    ensures { HeldIn w n (pick bytes.now (spread_places at b w n)) list.new }
{
    few_codes::gather(bytes, at, b, w, n, room);
    list_room(room, list);
}

// The members of a spread in a record where it is legal, in no order, and some of them twice; zeros among them don't count.
fn list_spread(
    t: &[i64],
    rows: usize,
    row: Row,
    n: usize,
    b: usize,
    bytes: &[u8],
    list: &mut [i64],
) -> Option<usize>
    requires readable { Readable t.now rows row (length bytes.now) × (length list.old ≡ 9999) × (row.kind ≡ Multiple (Fields n b)) }
    requires bytes_value { is_illegal (reading_of t.now rows row bytes.now) ≡ false }
    ensures { Lists (reading_of t.now rows row bytes.now) list.new (unwrap_or result 0) (is_some result) }
{
    if 64 < n {
        return list_read(t, rows, row, bytes, list);
    }
    let at = row.start - 1;
    let w = row.width;
    if sets::spread::spread_blank(bytes, at, b, w, n) {
        return None;
    }
    let mut room = [0u16; 64];
    list_fields(bytes, at, b, w, n, &mut room[..n], list);
    Some(n)
}

// The entries of a multiple's categories, by the marks of its row and by the list's first numbers, its members where it holds a set.
fn put_listed(
    t: &[i64],
    rows: usize,
    row: Row,
    bytes: &[u8],
    m: Marking,
    l: Option<usize>,
    list: &[i64],
    allowed: &[u8],
    present: &mut [u8],
    out: &mut [u8],
    flags: usize,
    values: usize,
) -> Put
    requires lists { Lists (reading_of t.now rows row bytes.now) list.now (unwrap_or l 0) (is_some l) }
    requires marked_set { MarkedSet t.now rows row allowed.now m.gap m.count × (length present.old ≡ length allowed.now) }
    requires room { Room flags values (length out.old) m.count }
    ensures { RowPut (member_entries (reading_of t.now rows row bytes.now)
        (defined (legal t.now rows row) 1 9999)) m.gap m.count flags values present.old
        present.new out.old out.new result.there result.near }
{
    let n = l.unwrap_or(0);
    let there = l.is_some();
    if all_before(list, n, m.gap) {
        put_near(list, n, m, there, present, out, flags, values);
        return Put { there, near: true };
    }
    put_far(list, n, m, allowed, present, there, out, flags, values);
    Put { there, near: false }
}

// The byte of a bitstring that says that the set has the category.
const HAS: u8 = b'1';

// The entries of w categories by the bytes of a bitstring, whose ones are marked besides those of the records before.
fn put_bits(
    bytes: &[u8],
    at: usize,
    w: usize,
    met: &mut [u8],
    out: &mut [u8],
    flags: usize,
    values: usize,
)
    requires { (w ≤ 9999) × (at + w ≤ length bytes.now) × (w < length met.old) × Room flags values (length out.old) w }
    ensures { BitsPut bytes.now at w w flags values met.old met.new out.old
        out.new }
{
    for k in 0..w {
        if bytes[at + k] == HAS {
            met[k + 1] = 1;
            matrix::put_entry(out, flags + k, values + 8 * k, Entry::Scaled(1, 1));
        } else {
            matrix::put_entry(out, flags + k, values + 8 * k, Entry::Scaled(0, 1));
        }
    }
}

// The entries of a bitstring that is legal and has every category from 1 to w: its first byte tells whether it is missing.
fn put_whole(
    bytes: &[u8],
    at: usize,
    w: usize,
    met: &mut [u8],
    out: &mut [u8],
    flags: usize,
    values: usize,
) -> Put
    requires le_w { (1 ≤ w) × (w ≤ 9999) × (at + w ≤ length bytes.now) × (w < length met.old)
        × Room flags values (length out.old) w }
    requires bytes_value { is_illegal (bits_field_at (defined always 1 w) at bytes.now) ≡ false }
    ensures { RowPut (member_entries (bits_field_at (defined always 1 w) at bytes.now) (defined always 1 w)) (w + 1) w
        flags values met.old met.new out.old out.new result.there result.near }
{
    if bytes[at] == 32 {
        matrix::put_many(out, flags, values, w, false);
        return Put {
            there: false,
            near: true,
        };
    }
    put_bits(bytes, at, w, met, out, flags, values);
    Put {
        there: true,
        near: true,
    }
}

// The entries of a bitstring's categories in a record where it is legal.
fn put_bitstring(
    t: &[i64],
    rows: usize,
    row: Row,
    m: Marking,
    bytes: &[u8],
    list: &mut [i64],
    allowed: &[u8],
    present: &mut [u8],
    out: &mut [u8],
    flags: usize,
    values: usize,
) -> Put
    requires readable { Readable t.now rows row (length bytes.now) × (length list.old ≡ 9999) × (row.kind ≡ Multiple Bits) }
    requires bytes_value { is_illegal (reading_of t.now rows row bytes.now) ≡ false }
    requires marked_set { MarkedSet t.now rows row allowed.now m.gap m.count × (length present.old ≡ length allowed.now) }
    requires room { Room flags values (length out.old) m.count }
    ensures { RowPut (member_entries (reading_of t.now rows row bytes.now)
        (defined (legal t.now rows row) 1 9999)) m.gap m.count flags values present.old
        present.new out.old out.new result.there result.near }
{
    if row.width < m.gap {
        return put_whole(bytes, row.start - 1, row.width, present, out, flags, values);
    }
    let l = list_read(t, rows, row, bytes, list);
    put_listed(
        t, rows, row, bytes, m, l, list, allowed, present, out, flags, values,
    )
}

// The entries of a spread's categories in a record where it is legal.
fn put_spread(
    t: &[i64],
    rows: usize,
    row: Row,
    n: usize,
    b: usize,
    m: Marking,
    bytes: &[u8],
    list: &mut [i64],
    allowed: &[u8],
    present: &mut [u8],
    out: &mut [u8],
    flags: usize,
    values: usize,
) -> Put
    requires readable { Readable t.now rows row (length bytes.now) × (length list.old ≡ 9999) × (row.kind ≡ Multiple (Fields n b)) }
    requires bytes_value { is_illegal (reading_of t.now rows row bytes.now) ≡ false }
    requires marked_set { MarkedSet t.now rows row allowed.now m.gap m.count × (length present.old ≡ length allowed.now) }
    requires room { Room flags values (length out.old) m.count }
    ensures { RowPut (member_entries (reading_of t.now rows row bytes.now)
        (defined (legal t.now rows row) 1 9999)) m.gap m.count flags values present.old
        present.new out.old out.new result.there result.near }
{
    let l = list_spread(t, rows, row, n, b, bytes, list);
    put_listed(
        t, rows, row, bytes, m, l, list, allowed, present, out, flags, values,
    )
}

// How many columns a row of a kind has: 0 none, 1 one, 2 one for each category.
fn shape_of(kind: Kind) -> usize
    ensures { result ≡ shape_of kind }
{
    match kind {
        Kind::Single => 1,
        Kind::Multiple(_) => 2,
        Kind::Quantity(_) => 1,
        Kind::Character => 0,
        Kind::Logical => 1,
    }
}

// How many marks reach every number of w digits, where categories have four at most.
fn digits_reach(w: usize) -> usize
    ensures { result ≡ digits_reach w }
{
    if w == 1 {
        return 10;
    }
    if w == 2 {
        return 100;
    }
    if w == 3 {
        return 1000;
    }
    10000
}

// How many marks reach every category of a bitstring.
fn bits_reach(w: usize) -> usize
    ensures { result ≡ bits_reach w }
{
    if w < 9999 {
        return w + 1;
    }
    10000
}

// How many marks reach every category of a row.
pub fn reach_of(kind: Kind, w: usize) -> usize
    ensures { result ≡ reach_by kind w }
{
    match kind {
        Kind::Single => 1,
        Kind::Multiple(s) => match s {
            Spread::Bits => bits_reach(w),
            Spread::Fields { count: _, width: _ } => digits_reach(w),
        },
        Kind::Quantity(_) => 1,
        Kind::Character => 1,
        Kind::Logical => 1,
    }
}

// How many numbers from 1 on are marked.
fn count_marked(marks: &[u8]) -> usize
    requires { length marks.now ≤ 10000 }
    ensures { result ≡ length (marked_entries true marks.now marks.now) }
{
    let mut k: usize = 0;
    for c in 1..marks.len() {
        if marks[c] == 1 {
            k += 1;
        }
    }
    k
}

// How many categories a multiple has.
fn count_categories(t: &[i64], rows: usize, row: Row, allowed: &mut [u8]) -> usize
    requires line_facts { LineFacts t.now rows row }
    requires covered { Covered t.now rows row (length allowed.old) }
    ensures { (result ≡ length (defined (legal t.now rows row) 1 9999))
        × Marks (λ x. legal t.now rows row x) allowed.new }
{
    mark_legal(t, rows, row, allowed);
    count_marked(allowed)
}

// The same of a multiple.
fn mark_set(t: &[i64], rows: usize, row: Row, allowed: &mut [u8]) -> Marking
    requires line_facts { LineFacts t.now rows row }
    requires covered { Covered t.now rows row (length allowed.old) }
    ensures { MarkedSet t.now rows row allowed.new result.gap result.count }
{
    let count = count_categories(t, rows, row, allowed);
    let past = range_past(row, allowed.len());
    let gap = pass_marked(allowed, past);
    Marking { gap, count }
}

// The marks of a row's legal categories, and where the first gap is behind 1, and how many columns the row has: made once for all records.
pub fn mark_row(t: &[i64], rows: usize, row: Row, allowed: &mut [u8]) -> Marking
    requires line_facts { LineFacts t.now rows row }
    requires covered { 2 ≤ shape_of row.kind → Covered t.now rows row (length allowed.old) }
    ensures { MarkedRow t.now rows row allowed.new result.gap result.count }
{
    let kind = row.kind;
    let shape = shape_of(kind);
    if shape < 2 {
        return Marking {
            gap: 1,
            count: shape,
        };
    }
    mark_set(t, rows, row, allowed)
}

// The entries of a row in a record where it is legal, by its kind; its marks were made.
pub fn put_row(
    powers: &[u64; 16],
    t: &[i64],
    rows: usize,
    row: Row,
    m: Marking,
    bytes: &[u8],
    list: &mut [i64],
    allowed: &[u8],
    present: &mut [u8],
    out: &mut [u8],
    flags: usize,
    values: usize,
) -> Put
    requires tens { Tens powers.now × Readable t.now rows row (length bytes.now) × (length list.old ≡ 9999) }
    requires bytes_value { is_illegal (reading_of t.now rows row bytes.now) ≡ false }
    requires marked_row { MarkedRow t.now rows row allowed.now m.gap m.count × (length present.old ≡ length allowed.now) }
    requires room { Room flags values (length out.old) m.count }
    ensures { RowPut (entries_by row.kind t.now rows row bytes.now) m.gap m.count flags values
        present.old present.new out.old out.new result.there result.near }
{
    let kind = row.kind;
    match kind {
        Kind::Single => {
            put_single(bytes, row.finish, row.width, out, flags, values);
            Put {
                there: false,
                near: false,
            }
        }
        Kind::Multiple(s) => match s {
            Spread::Bits => put_bitstring(
                t, rows, row, m, bytes, list, allowed, present, out, flags, values,
            ),
            Spread::Fields { count, width } => put_spread(
                t, rows, row, count, width, m, bytes, list, allowed, present, out, flags, values,
            ),
        },
        Kind::Quantity(f) => {
            put_quantity(powers, f, bytes, row.finish, row.width, out, flags, values);
            Put {
                there: false,
                near: false,
            }
        }
        Kind::Character => Put {
            there: false,
            near: false,
        },
        Kind::Logical => {
            let last = row.finish - 1;
            put_truth(bytes[last], out, flags, values);
            Put {
                there: false,
                near: false,
            }
        }
    }
}

// How many columns a row has.
fn count_row(t: &[i64], h: Header, i: usize, allowed: &mut [u8]) -> usize
    requires { Tested t.now h × (i < h.rows) × (length allowed.old ≡ 10000) }
    ensures { (result ≡ length (row_columns t.now h.rows i)) × (result ≤ 9999) }
{
    let row = Row::read(t, i);
    let kind = row.kind;
    let shape = shape_of(kind);
    if shape < 2 {
        return shape;
    }
    let top = reach_of(kind, row.width);
    count_categories(t, h.rows, row, &mut allowed[..top])
}

// How many columns a table has.
pub fn count_columns(t: &[i64], h: Header, allowed: &mut [u8]) -> usize
    requires { Tested t.now h × (length allowed.old ≡ 10000) }
    ensures { (result ≡ length (columns_from t.now h.rows 0 h.rows)) × (result ≤ 5119488) }
{
    let mut k: usize = 0;
    for i in 0..h.rows {
        k += count_row(t, h, i, allowed);
    }
    k
}
