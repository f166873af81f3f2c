// A data file cut into records: its terminator, and the next record from a place on. Above it stands the judge of a file.
#![tactic(auto)]

ghost use Rattle.std.specs.Prelude.{◌≡◌, true, ◌+◌, ◌≤◌, ◌<◌, length, drop};
ghost use Rattle.cuts.specs.rule.Cut.{terminator_at, terminator_of, whole_at, begins_at, next_from, NextFound, Found};
ghost use Rattle.lows.specs.Lows.{Clear};
ghost use Rattle.cuts.specs.Cut.{FirstLow, Unbroken, Ending};
ghost use Rattle.cuts.specs.Records.{PlainNext, PlainRun};

// A file's terminator: one byte or two, and how many; none where the file has no CR and no LF.
#[derive(Clone, Copy)]
pub struct Terminator {
    pub first: u8,
    pub second: u8,
    pub size: usize,
}

// The next record: where it starts and ends, and where the one after it starts; a record with no terminator; or none.
#[derive(Clone, Copy)]
pub enum Next {
    Ended {
        start: usize,
        end: usize,
        next: usize,
    },
    Unended {
        start: usize,
        end: usize,
    },
    Nothing,
}

// The terminator that starts with the CR or LF at i: a pair if the other adjoins it.
pub fn terminator_at(d: &[u8], i: usize, first: u8, second: u8) -> Terminator
    requires { i < length d.now }
    ensures { result ≡ terminator_at first second (drop (i + 1) d.now) }
{
    let j = i + 1;
    if j < d.len() {
        if d[j] == second {
            return Terminator {
                first,
                second,
                size: 2,
            };
        }
    }
    Terminator {
        first,
        second,
        size: 1,
    }
}

// A place from `from` on with no byte below 32 before it. The first thirty-two are looked at sixteen at a time: a short record ends there.
fn clear_to(d: &[u8], from: usize) -> usize
    requires { from ≤ length d.now }
    ensures { Clear d.now from result }
{
    if d.len() - from < 32 {
        return lows::plain_to(d, from);
    }
    if !lows::plain_short(d, from, 16) {
        return from;
    }
    let half = from + 16;
    if !lows::plain_short(d, half, 16) {
        return half;
    }
    lows::plain_to(d, half)
}

// The first place from `from` on where a byte below 32 stands; the end where none does.
pub fn low_from(d: &[u8], from: usize) -> usize
    requires { from ≤ length d.now }
    ensures { FirstLow d.now from result }
{
    for i in clear_to(d, from)..d.len() {
        if d[i] < 32 {
            return i;
        }
    }
    d.len()
}

// The file's terminator: the first one met.
pub fn find_terminator(d: &[u8]) -> Terminator
    ensures { Found d.now result }
{
    terminator_behind(d, lows::plain_to(d, 0))
}

// The same where no byte below 32 stands before a place: no CR and no LF stands there.
pub fn terminator_behind(d: &[u8], clear: usize) -> Terminator
    requires { Clear d.now 0 clear }
    ensures { Found d.now result }
{
    for i in clear..d.len() {
        let b = d[i];
        if b == 13 {
            return terminator_at(d, i, 13, 10);
        }
        if b == 10 {
            return terminator_at(d, i, 10, 13);
        }
    }
    Terminator {
        first: 0,
        second: 0,
        size: 0,
    }
}

// Does the terminator, whose first byte stands at i, stand there whole?
fn whole_at(d: &[u8], w: Terminator, i: usize) -> bool
    requires { i < length d.now }
    ensures { result ≡ whole_at w (drop (i + 1) d.now) }
{
    if w.size != 2 {
        return w.size == 1;
    }
    let j = i + 1;
    if j < d.len() { d[j] == w.second } else { false }
}

// Does the whole terminator stand at i?
fn begins_at(d: &[u8], w: Terminator, i: usize) -> bool
    requires { i < length d.now }
    ensures { result ≡ begins_at w (drop i d.now) }
{
    if d[i] != w.first {
        return false;
    }
    whole_at(d, w, i)
}

// A place from `from` on that no terminator stands before.
fn unbroken_to(d: &[u8], w: Terminator, from: usize) -> usize
    requires { from ≤ length d.now }
    ensures { Unbroken d.now w from result }
{
    if w.first < 32 {
        return lows::plain_to(d, from);
    }
    from
}

// The next record from a place on, by a terminator that was found before.
pub fn next_from(d: &[u8], w: Terminator, from: usize) -> Next
    requires { w.size ≤ 2 }
    ensures { result ≡ next_from w from (drop from d.now) }
{
    if d.len() <= from {
        return Next::Nothing;
    }
    next_behind(d, w, from, unbroken_to(d, w, from))
}

// The same where no terminator stands before a place.
pub fn next_behind(d: &[u8], w: Terminator, from: usize, clear: usize) -> Next
    requires { (w.size ≤ 2) × Unbroken d.now w from clear }
    ensures { result ≡ next_from w from (drop from d.now) }
{
    if d.len() <= from {
        return Next::Nothing;
    }
    for i in clear..d.len() {
        if begins_at(d, w, i) {
            return Next::Ended {
                start: from,
                end: i,
                next: i + w.size,
            };
        }
    }
    Next::Unended {
        start: from,
        end: d.len(),
    }
}

// Does the next record from a place on have so many bytes, none of them below 32? Where it has, nobody need search for its end.
pub fn next_plain(d: &[u8], w: Terminator, from: usize, size: usize) -> bool
    requires ending { Ending w }
    requires from_in_bounds { from ≤ length d.now }
    ensures { result ≡ true → PlainNext d.now w from size }
{
    if d.len() - from <= size {
        return false;
    }
    let end = from + size;
    if begins_at(d, w, end) {
        return lows::all_plain(&d[from..end]);
    }
    false
}

// The same of a record of sixteen bytes or more, for many records one after the other.
fn next_short(d: &[u8], w: Terminator, from: usize, size: usize) -> bool
    requires ending { Ending w × (16 ≤ size) }
    requires from_in_bounds { from ≤ length d.now }
    ensures { result ≡ true → PlainNext d.now w from size }
{
    if d.len() - from <= size {
        return false;
    }
    if begins_at(d, w, from + size) {
        return lows::plain_short(d, from, size);
    }
    false
}

// How many records from a place on have so many bytes, sixteen or more, none of them below 32: up to so many.
pub fn plain_run(d: &[u8], w: Terminator, from: usize, size: usize, most: usize) -> usize
    requires ending { Ending w × (16 ≤ size) }
    requires size_in_bounds { (size < length d.now) × (from ≤ length d.now) }
    ensures { PlainRun d.now w from size result }
{
    let step = size + w.size;
    let mut at = from;
    for k in 0..most {
        if d.len() <= at {
            return k;
        }
        if !next_short(d, w, at, size) {
            return k;
        }
        at += step;
    }
    most
}

// The next record from a place on. The terminator is found from the start of the data, whatever the place.
pub fn next_record(d: &[u8], from: usize) -> Next
    ensures { NextFound d.now from result }
{
    next_from(d, find_terminator(d), from)
}
