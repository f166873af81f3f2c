// A whole data file judged by a table: record after record, up to the first fault. Above it stand the lister and the face.
#![tactic(auto)]

ghost use Rattle.std.specs.Prelude.{◌≡◌, true, ◌+◌, ◌≤◌, ◌<◌, length, drop};
ghost use Rattle.lows.specs.Lows.{Clear};
ghost use Rattle.cuts.specs.Cut.{FirstLow, Ending};
ghost use Rattle.cuts.specs.rule.Records.{records_from};
ghost use Rattle.records.specs.rule.Verdict.{judged_as};
ghost use Rattle.files.specs.rule.File.{file_said, record_verdict, go_on, sound_with, first_length, records_verdict, FileJudged};
ghost use Rattle.files.specs.rule.File.{is_sound};
ghost use Rattle.files.specs.File.{sound_so_far};
ghost use Rattle.files.specs.rule.Tested.{Tested};
ghost use Rattle.files.specs.Passed.{Passed};
ghost use Rattle.files.specs.Known.{LowKnown};
ghost use Rattle.sound.specs.rule.Sound.{well_formed};
ghost use Rattle.sound.specs.rule.Rows.{length_of};

use cuts::{Next, Terminator};
use faults::Fault;
use layout::{Header, Row};
use readings::many::Batch;
use records::Judged;

// What a file is judged to be: sound, with the count of its records; or the first fault, with its record from 1.
#[derive(Clone, Copy)]
pub enum Judgement {
    Sound(usize),
    BadTable,
    Unended(usize),
    OtherLength(usize),
    Fault(usize, Judged),
}

// A place of a file, how far no byte below 32 stands behind it as far as is known, and how many records end before it.
#[derive(Clone, Copy)]
struct Place {
    from: usize,
    clear: usize,
    n: usize,
}

pub fn is_sound(j: Judged) -> bool
    ensures { result ≡ is_sound (judged_as j) }
{
    matches!(j, Judged::Sound)
}

// Is a file sound so far?
pub fn goes_on(j: Judgement) -> bool
    ensures { result ≡ sound_so_far (file_said j) }
{
    matches!(j, Judgement::Sound(_))
}

// The length of the first record, once it is known.
pub fn first_length(n: usize, first: usize, size: usize) -> usize
    ensures { result ≡ first_length n first size }
{
    if n == 0 { size } else { first }
}

// One record with a terminator and as long as the first, after n others, by a table that was tested. Its first byte below 32 is known: any
// place behind the record where it has none.
fn judge_known(
    t: &[i64],
    h: Header,
    n: usize,
    bytes: &[u8],
    low: usize,
    scratch: &mut [u8],
) -> Judgement
    requires tested { Tested t.now h }
    requires n_bound { (n < 9223372036854775808) × LowKnown bytes.now low }
    requires scratch_len_bound { length scratch.old ≤ 10000 }
    ensures { file_said result ≡ go_on (record_verdict t.now (length bytes.now) bytes.now) n
        (sound_with (n + 1)) }
{
    if bytes.len() < h.length {
        return Judgement::Fault(n + 1, Judged::ShortRecord);
    }
    if low < bytes.len() {
        return Judgement::Fault(n + 1, Judged::LowByte(low));
    }
    let j = records::judge_plain(t, h.rows, bytes, scratch);
    if is_sound(j) {
        return Judgement::Sound(n + 1);
    }
    Judgement::Fault(n + 1, j)
}

// One record with a terminator, after n others, by a table that was tested.
pub fn judge_one(
    t: &[i64],
    h: Header,
    n: usize,
    first: usize,
    bytes: &[u8],
    scratch: &mut [u8],
) -> Judgement
    requires tested { Tested t.now h }
    requires n_bound { n < 9223372036854775808 }
    requires scratch_len_bound { length scratch.old ≤ 10000 }
    ensures { file_said result ≡ go_on (record_verdict t.now first bytes.now) n (sound_with (n + 1)) }
{
    if bytes.len() != first {
        return Judgement::OtherLength(n + 1);
    }
    judge_known(t, h, n, bytes, cuts::low_from(bytes, 0), scratch)
}

// Passes the sound records from a place on, one by one, as far as that goes quickly. The first record's length is known there.
fn pass_each(
    t: &[i64],
    h: Header,
    d: &[u8],
    w: Terminator,
    first: usize,
    at: Place,
    scratch: &mut [u8],
) -> Place
    requires tested { Tested t.now h × (length_of t.now ≤ first) }
    requires ending { Ending w × (1 ≤ at.n) × (at.n ≤ at.from + 1) }
    requires scratch_len_bound { length scratch.old ≤ 10000 }
    ensures { Passed t.now d.now w first at.from at.n result }
{
    let mut from = at.from;
    let mut n = at.n;
    while from < d.len() {
        if !cuts::next_plain(d, w, from, first) {
            return Place {
                from,
                clear: from,
                n,
            };
        }
        let end = from + first;
        if !records::plain_sound(t, h.rows, &d[from..end], scratch) {
            return Place {
                from,
                clear: end,
                n,
            };
        }
        from = end + w.size;
        n += 1;
    }
    Place {
        from,
        clear: from,
        n,
    }
}

// How many records, each so many bytes behind the one before, to judge together: no more than were passed before, so that a file with an
// early fault is not looked at far behind it, and 16 KiB at most, which stay at hand. None of long ones, whose rows are many.
fn together(n: usize, step: usize) -> usize {
    if 4096 < step {
        return 0;
    }
    if step == 0 {
        return 0;
    }
    let most = 16384 / step;
    if n < most { n } else { most }
}

// The same, many at a time. They have sixteen bytes or more, since so many are looked at together.
fn pass_batches(
    t: &[i64],
    h: Header,
    d: &[u8],
    w: Terminator,
    first: usize,
    at: Place,
    scratch: &mut [u8],
) -> Place
    requires tested { Tested t.now h × (length_of t.now ≤ first) }
    requires ending { Ending w × (1 ≤ at.n) × (at.n ≤ at.from + 1) × (16 ≤ first) × (first < length d.now) }
    requires scratch_len_bound { length scratch.old ≤ 10000 }
    ensures { Passed t.now d.now w first at.from at.n result }
{
    let step = first + w.size;
    let mut from = at.from;
    let mut n = at.n;
    while from < d.len() {
        let count = cuts::plain_run(d, w, from, first, together(n, step));
        if count == 0 {
            return Place {
                from,
                clear: from,
                n,
            };
        }
        let batch = Batch {
            from,
            size: first,
            step,
            count,
        };
        if !records::batch_sound(t, h.rows, d, batch, scratch) {
            return Place {
                from,
                clear: from,
                n,
            };
        }
        from = from + count * step;
        n += count;
    }
    Place {
        from,
        clear: from,
        n,
    }
}

// The same, many at a time as far as that goes, and the rest one by one.
fn pass_sound(
    t: &[i64],
    h: Header,
    d: &[u8],
    w: Terminator,
    first: usize,
    at: Place,
    scratch: &mut [u8],
) -> Place
    requires tested { Tested t.now h × (length_of t.now ≤ first) }
    requires ending { Ending w × (1 ≤ at.n) × (at.n ≤ at.from + 1) }
    requires scratch_len_bound { length scratch.old ≤ 10000 }
    ensures { Passed t.now d.now w first at.from at.n result }
{
    if first < 16 {
        return pass_each(t, h, d, w, first, at, scratch);
    }
    if d.len() <= first {
        return pass_each(t, h, d, w, first, at, scratch);
    }
    let ran = pass_batches(t, h, d, w, first, at, scratch);
    pass_each(t, h, d, w, first, ran, scratch)
}

// The records from a place of some data on, by a table that was tested and the file's terminator. The first one's length is known unless
// the place is the file's start.
fn judge_from(
    t: &[i64],
    h: Header,
    d: &[u8],
    w: Terminator,
    at: Place,
    known: usize,
    scratch: &mut [u8],
) -> Judgement
    requires tested { Tested t.now h }
    requires ending { Ending w × (at.n ≤ at.from + 1) × (at.from < length d.now → Clear d.now at.from at.clear) }
    requires scratch_len_bound { length scratch.old ≤ 10000 }
    ensures { file_said result ≡ records_verdict t.now at.n known (records_from w (drop at.from d.now)) }
{
    let mut from = at.from;
    let mut clear = at.clear;
    let mut n = at.n;
    let mut first = known;
    while from < d.len() {
        let low = cuts::low_from(d, clear);
        match cuts::next_behind(d, w, from, low) {
            Next::Ended { start, end, next } => {
                first = first_length(n, first, end - start);
                if end - start != first {
                    return Judgement::OtherLength(n + 1);
                }
                let j = judge_known(t, h, n, &d[start..end], low - start, scratch);
                if !goes_on(j) {
                    return j;
                }
                let after = Place {
                    from: next,
                    clear: next,
                    n: n + 1,
                };
                let passed = pass_sound(t, h, d, w, first, after, scratch);
                n = passed.n;
                from = passed.from;
                clear = passed.clear;
            }
            Next::Unended { start: _, end: _ } => {
                return Judgement::Unended(n + 1);
            }
            Next::Nothing => {
                return Judgement::Sound(n);
            }
        }
    }
    Judgement::Sound(n)
}

// The records of some data, by a table that was tested and the file's terminator: from the file's start, or behind one record, whose
// length is then known.
pub fn judge_records(
    t: &[i64],
    h: Header,
    d: &[u8],
    w: Terminator,
    past: usize,
    known: usize,
    scratch: &mut [u8],
) -> Judgement
    requires tested { Tested t.now h }
    requires ending { Ending w × (past ≤ 1) }
    requires scratch_len_bound { length scratch.old ≤ 10000 }
    ensures { file_said result ≡ records_verdict t.now past known (records_from w d.now) }
{
    let start = Place {
        from: 0,
        clear: 0,
        n: past,
    };
    judge_from(t, h, d, w, start, known, scratch)
}

// The same fault, in parts: copied as a whole it would wait until the parts that were just stored are in memory.
fn apart(x: Fault) -> Fault
    ensures { result ≡ x }
{
    match x {
        Fault::Sound => Fault::Sound,
        Fault::Stray(p) => Fault::Stray(p),
        Fault::NotLegal(z) => Fault::NotLegal(z),
        Fault::Point(p) => Fault::Point(p),
    }
}

// The records from a place on, with room to mark the numbers of all lines.
fn judge_marked(t: &[i64], h: Header, d: &[u8], w: Terminator, at: Place, known: usize) -> Judgement
    requires tested { Tested t.now h }
    requires ending { Ending w × (at.n ≤ at.from + 1) × (at.from < length d.now → Clear d.now at.from at.clear) }
    ensures { file_said result ≡ records_verdict t.now at.n known (records_from w (drop at.from d.now)) }
{
    let mut many = [0u8; 10000];
    judge_from(t, h, d, w, at, known, &mut many)
}

// The records behind the first, whose length is known, from a place on. Where there are few lines to search, little is ever marked.
fn judge_rest(t: &[i64], h: Header, d: &[u8], w: Terminator, from: usize, first: usize) -> Judgement
    requires tested { Tested t.now h }
    requires ending { Ending w }
    ensures { file_said result ≡ records_verdict t.now 1 first (records_from w (drop from d.now)) }
{
    let at = Place {
        from,
        clear: from,
        n: 1,
    };
    if 16 < h.lines {
        return judge_marked(t, h, d, w, at, first);
    }
    let mut few = [0u8; 128];
    judge_from(t, h, d, w, at, first, &mut few)
}

// A file with many lines to search, of which each may be searched for often.
fn judge_many(t: &[i64], h: Header, d: &[u8]) -> Judgement
    requires { Tested t.now h }
    ensures { FileJudged t.now d.now (file_said result) }
{
    let low = cuts::low_from(d, 0);
    let w = cuts::terminator_behind(d, low);
    let start = Place {
        from: 0,
        clear: low,
        n: 0,
    };
    judge_marked(t, h, d, w, start, 0)
}

// Judges a file by a table that was tested. The first record is judged here, and what is wrong with it answered straight: as `judge_known`
// answers, it would be laid out in memory and copied, which is much of what such a file costs. For it no room is cleared to mark the
// numbers
// of all lines, where these are few or the record is so short that no spread of three digits has more than ten subfields: to look at each
// line ten times costs no more than the line's own test did.
pub fn judge_tested(t: &[i64], d: &[u8]) -> Judgement
    requires { well_formed t.now ≡ true }
    ensures { FileJudged t.now d.now (file_said result) }
{
    let h = Header::read(t);
    if (16 < h.lines) & (32 < h.length) {
        return judge_many(t, h, d);
    }
    let low = cuts::low_from(d, 0);
    let w = cuts::terminator_behind(d, low);
    match cuts::next_behind(d, w, 0, low) {
        Next::Ended { start, end, next } => {
            if end < h.length {
                return Judgement::Fault(1, Judged::ShortRecord);
            }
            if low < end {
                return Judgement::Fault(1, Judged::LowByte(low));
            }
            let mut few = [0u8; 128];
            match records::illegal_row(t, h.rows, &d[start..end], &mut few) {
                Some(i) => {
                    let x = faults::row_fault(t, h.rows, Row::read(t, i), &d[start..end]);
                    Judgement::Fault(1, Judged::Faulty(i, apart(x)))
                }
                None => judge_rest(t, h, d, w, next, end),
            }
        }
        Next::Unended { start: _, end: _ } => Judgement::Unended(1),
        Next::Nothing => Judgement::Sound(0),
    }
}

// Judges a file by a table.
pub fn judge_file(t: &[i64], d: &[u8]) -> Judgement
    ensures { FileJudged t.now d.now (file_said result) }
{
    if sound::well_formed(t) {
        return judge_tested(t, d);
    }
    Judgement::BadTable
}
