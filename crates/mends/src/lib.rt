// A damaged data file mended: every record of one length, ended by one terminator, without bytes below 32; and the list of what was
// changed. Above it stands the face.
#![tactic(auto)]

ghost use Rattle.std.specs.Prelude.{◌≡◌, ◌&&◌, cond, [], ◌∷◌, ◌++◌, map, ◌+◌, ◌-◌, ◌*◌, ◌≤◌, ◌<◌, leb, ltb, pos, length};
ghost use Rattle.std.proofs.lemmas.List.Edits.{sets};
ghost use Rattle.cuts.specs.Records.{part};
ghost use Rattle.cuts.specs.rule.Records.{terminator_bytes};
ghost use Rattle.pieces.specs.rule.Pieces.{cut_from};
ghost use Rattle.pieces.specs.Pieces.{Spans, piece_at};
ghost use Rattle.mends.specs.rule.Mend.{same_boundary, mend_entry, byte_entries, listed_if, mend_entries, entry_numbers};
ghost use Rattle.mends.specs.rule.Mend.{Mends};
ghost use Rattle.mends.specs.rule.Mend.{plain_byte, width_of, record_of, mended_of};
ghost use Rattle.mends.specs.Sizes.{tallied, Sized};
ghost use Rattle.mends.specs.Mend.{Stored, Ends, Measured, lows_left, rest_entries};

use cuts::Terminator;
use layout::Header;
use pieces::Span;

// How a call ends: how many bytes and entries it wrote; or why it wrote none.
#[derive(Clone, Copy)]
pub enum Mended {
    Done { bytes: usize, entries: usize },
    BadTable,
    NoRoom,
}

// What the first pass counts: records kept, their width so far, how many of them are shorter than that, and the entries that are no pads.
#[derive(Clone, Copy)]
pub struct Sizes {
    pub kept: usize,
    pub width: usize,
    pub short: usize,
    pub others: usize,
}

// The file's terminator; CR LF if there is none.
fn ending(d: &[u8]) -> Terminator
    ensures { Ends d.now result }
{
    let w = cuts::find_terminator(d);
    if w.size == 0 {
        return Terminator {
            first: 13,
            second: 10,
            size: 2,
        };
    }
    w
}

// Is a record's boundary the file's terminator?
fn same(e: Terminator, b: Terminator) -> bool
    ensures { result ≡ same_boundary e b }
{
    if e.size != b.size {
        return false; // one byte against two, or no boundary at all
    }
    if e.first != b.first {
        return false;
    }
    e.second == b.second
}

// One record more.
fn tally(z: Sizes, long: usize, lows: usize, ended: bool) -> Sizes
    requires { (z.short ≤ z.kept) × (z.kept < 9223372036854775808) × (z.others + lows < 18446744073709551614) }
    ensures { result ≡ tallied z long lows ended }
{
    if long == 0 {
        return Sizes {
            kept: z.kept,
            width: z.width,
            short: z.short,
            others: z.others + 1,
        };
    }
    let others = z.others + lows + usize::from(!ended);
    if z.width < long {
        return Sizes {
            kept: z.kept + 1,
            width: long,
            short: z.kept,
            others,
        };
    }
    let short = z.short + usize::from(long < z.width);
    Sizes {
        kept: z.kept + 1,
        width: z.width,
        short,
        others,
    }
}

// All of a file counted. The width begins with the least that the table asks for.
fn measure(d: &[u8], e: Terminator, least: usize) -> Sizes
    requires { least ≤ 16384 }
    ensures { Measured d.now e least result }
{
    let mut i: usize = 0;
    let mut z = Sizes {
        kept: 0,
        width: least,
        short: 0,
        others: 0,
    };
    while i < d.len() {
        let p = pieces::next_piece(d, i);
        let stop = p.stop;
        let boundary = p.boundary;
        z = tally(z, stop - i, p.lows, same(e, boundary));
        i = stop + boundary.size;
    }
    z
}

// Is there room for all that was counted? By division, so that no product passes the largest number.
fn has_room(z: Sizes, size: usize, room: usize, cells: usize) -> bool
    requires { (z.width + size < 18446744073709551616) × (1 ≤ size) }
    ensures { result ≡ (leb (3 * (z.others + z.short)) cells && leb (z.kept * (z.width + size)) room) }
{
    let entries = cells / 3;
    if entries < z.others {
        return false;
    }
    if entries - z.others < z.short {
        return false;
    }
    z.kept <= room / (z.width + size)
}

// A place or a count as a number of the list.
fn cell(n: usize) -> i64
    requires { n < 9223372036854775808 }
    ensures { result ≡ pos n }
{
    n as i64
}

// One entry, at k.
fn note(list: &mut [i64], k: usize, kind: usize, number: usize, place: usize)
    requires k_in_bounds { k + 3 ≤ length list.old }
    requires kind_bound { (kind < 5) × (number < 9223372036854775808) × (place < 9223372036854775808) }
    ensures { Stored list.old list.new k (entry_numbers (mend_entry kind number place ∷ [])) (k + 3) }
{
    let a = cell(kind);
    let b = cell(number);
    let c = cell(place);
    list[k] = a;
    list[k + 1] = b;
    list[k + 2] = c;
}

// The piece from a place on, and a 2 for each of its bytes below 32, from k on: each is listed as it is met.
fn note_lows(d: &[u8], from: usize, number: usize, list: &mut [i64], k: usize) -> Span
    requires from_in_bounds { (from < length d.now) × (number < 9223372036854775808) }
    requires from_in_bounds_2 { k + length (lows_left d.now number from) ≤ length list.old }
    ensures spans { Spans d.now from result }
    ensures stored { Stored list.old list.new k
        (entry_numbers (byte_entries number from (part d.now from result.stop))) (k + 3 * result.lows) }
{
    let mut i = pieces::low_from(d, from);
    let mut lows: usize = 0;
    let mut m = k;
    while i < d.len() {
        let boundary = pieces::boundary_at(d, i);
        if boundary.size != 0 {
            return Span {
                stop: i,
                lows,
                boundary,
            };
        }
        note(list, m, 2, number, i);
        m += 3;
        lows += 1;
        i = pieces::low_from(d, i + 1);
    }
    let boundary = Terminator {
        first: 0,
        second: 0,
        size: 0,
    };
    Span {
        stop: i,
        lows,
        boundary,
    }
}

// A 3 where the record is padded, a 4 where another boundary stands behind it, or none.
fn note_end(
    list: &mut [i64],
    k: usize,
    padded: bool,
    ended: bool,
    number: usize,
    stop: usize,
) -> usize
    requires number_bound { (number < 9223372036854775808) × (stop < 9223372036854775808) }
    requires stop_in_bounds { k + length (entry_numbers
        (listed_if padded (mend_entry 3 number stop) ++ cond ended [] (mend_entry 4 number stop ∷ [])))
        ≤ length list.old }
    ensures { Stored list.old list.new k
        (entry_numbers (listed_if padded (mend_entry 3 number stop) ++ cond ended [] (mend_entry 4 number stop ∷ []))) result }
{
    if padded {
        note(list, k, 3, number, stop);
        let m = k + 3;
        if ended {
            return m;
        }
        note(list, m, 4, number, stop);
        return m + 3;
    }
    if ended {
        return k;
    }
    note(list, k, 4, number, stop);
    k + 3
}

// The byte itself, or a space for one below 32.
fn plain(b: u8) -> u8
    ensures { result ≡ plain_byte b }
{
    if b < 32 { 32 } else { b }
}

// Bytes into the output from `at` on, a space for each that is below 32.
fn lay_few(d: &[u8], from: usize, stop: usize, out: &mut [u8], at: usize)
    requires { (from ≤ stop) × (stop ≤ length d.now) × (at + (stop - from) ≤ length out.old) }
    ensures { Stored out.old out.new at (map plain_byte (part d.now from stop))
        (at + (stop - from)) }
{
    for j in from..stop {
        let o = at + (j - from);
        out[o] = plain(d[j]);
    }
}

// N of them, by way of a room of their own: the compiler need not ask whether input and output overlap.
fn lay_some<const N: usize>(d: &[u8], from: usize, out: &mut [u8], at: usize)
    requires { (from + N ≤ length d.now) × (at + N ≤ length out.old) }
    ensures { Stored out.old out.new at (map plain_byte (part d.now from (from + N))) (at + N) }
{
    let mut room = [0u8; N];
    lay_few(d, from, from + N, &mut room, 0);
    runs::copy_in(out, at, &room, N);
}

// By sixty-four, as many of n bytes as there are so. Answers how many.
fn lay_far(d: &[u8], from: usize, n: usize, out: &mut [u8], at: usize) -> usize
    requires { (from + n ≤ length d.now) × (at + n ≤ length out.old) }
    ensures upper_bound { result ≤ n }
    ensures stored { Stored out.old out.new at (map plain_byte (part d.now from (from + result))) (at + result) }
{
    let mut j: usize = 0;
    // no `for`: the place where it stops is the answer
    while n - j >= 64 {
        lay_some::<64>(d, from + j, out, at + j);
        j += 64;
    }
    j
}

// A record's bytes. What sixteens leave over is laid with the bytes before it, as the last sixteen.
fn lay_bytes(d: &[u8], from: usize, stop: usize, out: &mut [u8], at: usize)
    requires { (from ≤ stop) × (stop ≤ length d.now) × (at + (stop - from) ≤ length out.old) }
    ensures { Stored out.old out.new at (map plain_byte (part d.now from stop))
        (at + (stop - from)) }
{
    let n = stop - from;
    if n < 16 {
        lay_few(d, from, stop, out, at);
        return;
    }
    let last = n - 16;
    let mut j = lay_far(d, from, n, out, at);
    // no `step_by`: it looks twice in a turn whether another follows, and so ends at two places
    while j < last {
        lay_some::<16>(d, from + j, out, at + j);
        j += 16;
    }
    lay_some::<16>(d, from + last, out, at + last);
}

// The file's terminator, at a place of the output.
fn lay_ending(e: Terminator, out: &mut [u8], at: usize)
    requires sized { Sized e }
    requires size_in_bounds { at + e.size ≤ length out.old }
    ensures { Stored out.old out.new at (terminator_bytes e) (at + e.size) }
{
    out[at] = e.first;
    if e.size == 2 {
        out[at + 1] = e.second;
    }
}

// The other entries of a record, behind those of its bytes. Answers the place behind them.
fn note_rest(
    from: usize,
    p: Span,
    e: Terminator,
    width: usize,
    number: usize,
    list: &mut [i64],
    k: usize,
) -> usize
    requires from_le_stop { (from ≤ p.stop) × (p.stop < 9223372036854775808) × (number < 9223372036854775808) }
    requires p_in_bounds { k + length (entry_numbers (rest_entries width e number from p)) ≤ length list.old }
    ensures { Stored list.old list.new k (entry_numbers (rest_entries width e number from p)) result }
{
    let stop = p.stop;
    let boundary = p.boundary;
    if stop == from {
        note(list, k, 1, number, from);
        return k + 3;
    }
    note_end(
        list,
        k,
        stop - from < width,
        same(e, boundary),
        number,
        stop,
    )
}

// One record into the output, from `at` on; nothing of an empty one. Answers the place behind it.
fn lay_piece(
    d: &[u8],
    from: usize,
    p: Span,
    e: Terminator,
    width: usize,
    out: &mut [u8],
    at: usize,
) -> usize
    requires spans { Spans d.now from p × Sized e }
    requires from_bound { p.stop - from ≤ width }
    requires p_in_bounds { at + length (record_of width e (piece_at d.now from p)) ≤ length out.old }
    ensures { Stored out.old out.new at (record_of width e (piece_at d.now from p)) result }
{
    let stop = p.stop;
    if stop == from {
        return at;
    }
    let long = stop - from;
    lay_bytes(d, from, stop, out, at);
    runs::blank(out, at + long, width - long);
    let end = at + width;
    lay_ending(e, out, end);
    end + e.size
}

// Mends every record, and lists what is changed. There is room for both.
fn mend_into(d: &[u8], e: Terminator, width: usize, out: &mut [u8], list: &mut [i64])
    requires sized { Sized e × (width_of 0 (cut_from 0 d.now) ≤ width) }
    requires d_in_bounds { length (mended_of width e (cut_from 0 d.now)) ≤ length out.old }
    requires d_in_bounds_2 { length (entry_numbers (mend_entries width e 1 0 (cut_from 0 d.now))) ≤ length list.old }
    ensures out_after { out.new ≡ sets out.old 0 (mended_of width e (cut_from 0 d.now)) }
    ensures list_after { list.new ≡ sets list.old 0 (entry_numbers (mend_entries width e 1 0 (cut_from 0 d.now))) }
{
    let mut i: usize = 0;
    let mut number: usize = 0;
    let mut at: usize = 0;
    let mut k: usize = 0;
    while i < d.len() {
        number += 1;
        let p = note_lows(d, i, number, list, k);
        k = note_rest(i, p, e, width, number, list, k + 3 * p.lows);
        at = lay_piece(d, i, p, e, width, out, at);
        let boundary = p.boundary;
        i = p.stop + boundary.size;
    }
}

// Sixty-four bytes to their place in the output, by way of a room of their own (as above).
fn copy_some(d: &[u8], from: usize, out: &mut [u8])
    requires { (from + 64 ≤ length d.now) × (from + 64 ≤ length out.old) }
    ensures { Stored out.old out.new from (part d.now from (from + 64)) (from + 64) }
{
    let mut room = [0u8; 64];
    runs::copy_in(&mut room, 0, &d[from..], 64);
    runs::copy_in(out, from, &room, 64);
}

// The whole input as it is.
fn copy_all(d: &[u8], out: &mut [u8])
    requires { length d.now ≤ length out.old }
    ensures { out.new ≡ sets out.old 0 d.now }
{
    let n = d.len();
    let mut j: usize = 0;
    // no `for`: the rest is copied from the place where it stops
    while n - j >= 64 {
        copy_some(d, j, out);
        j += 64;
    }
    runs::copy_in(out, j, &d[j..], n - j);
}

// Mends a data file into the output, and lists what was changed.
pub fn mend(t: &[i64], d: &[u8], out: &mut [u8], list: &mut [i64]) -> Mended
    ensures { Mends t.now d.now out.old out.new list.old list.new
        result }
{
    if !sound::well_formed(t) {
        return Mended::BadTable;
    }
    let h = Header::read(t);
    let e = ending(d);
    let z = measure(d, e, h.length);
    if !has_room(z, e.size, out.len(), list.len()) {
        return Mended::NoRoom;
    }
    let entries = z.others + z.short;
    let bytes = z.kept * (z.width + e.size);
    if entries == 0 {
        // Nothing is changed: the output is the input.
        copy_all(d, out);
    } else {
        mend_into(d, e, z.width, out, list);
    }
    Mended::Done { bytes, entries }
}
