// What is listed of a data file by a table, a part at a time into a lent buffer: whoever lends it writes it out when it has no room for
// another line and goes on from the place that was answered. Above it stands the lister.
#![tactic(auto)]

ghost use Rattle.std.specs.Prelude.{◌≡◌, ◌+◌, ◌-◌, ◌^◌, ◌≤◌, ◌<◌, length};
ghost use Rattle.ascii.specs.rule.Tens.{Tens};
ghost use Rattle.cuts.specs.rule.Cut.{Found};
ghost use Rattle.records.specs.rule.Verdict.{judged_as};
ghost use Rattle.files.specs.rule.File.{file_said};
ghost use Rattle.files.specs.rule.Tested.{Tested};
ghost use Rattle.lines.specs.rule.Appended.{Appended};
ghost use Rattle.lines.specs.rule.Lines.{line_room};
ghost use Rattle.listing.specs.rule.Listing.{row_text, ident_of, fault_line, last_text};
ghost use Rattle.listing.specs.rule.Turns.{Ready};
ghost use Rattle.listing.specs.Turns.{Rows, count_in, Taken, TakenRows};
ghost use Rattle.listing.specs.rule.Places.{PlaceGood, ListedOn};
ghost use Rattle.listing.specs.Places.{turn_of};

use cuts::{Next, Terminator};
use files::Judgement;
use layout::{Header, Row};
use records::Judged;

// Where the listing of a file stands: the next record starts at `from`, n came before it, the first of them has `first` bytes, and of
// the next one so many rows are listed.
#[derive(Clone, Copy)]
pub struct Place {
    pub from: usize,
    pub n: usize,
    pub first: usize,
    pub row: usize,
}

// How far the rows of a record are listed, and how much the buffer holds.
#[derive(Clone, Copy)]
pub struct Listed {
    pub row: usize,
    pub end: usize,
}

// What became of a record: some rows are left for want of room, or it is listed whole, or the last line is written.
#[derive(Clone, Copy)]
pub enum Took {
    Part {
        first: usize,
        row: usize,
        end: usize,
    },
    Whole {
        first: usize,
        end: usize,
    },
    Last {
        end: usize,
    },
}

// The listing goes on from a place, or is over.
#[derive(Clone, Copy)]
pub enum Turn {
    On { place: Place, end: usize },
    Over { end: usize },
}

// The line of row i of record n.
pub fn list_row(
    powers: &[u64; 16],
    t: &[i64],
    h: Header,
    n: usize,
    i: usize,
    bytes: &[u8],
    list: &mut [i64],
    out: &mut [u8],
    at: usize,
) -> usize
    requires ready { Ready powers.now t.now h (length list.old) }
    requires n_bound { (n < 10 ^ 16) × (i < h.rows) × (h.length ≤ length bytes.now) × (at + line_room ≤ length out.old) }
    ensures { Appended out.old at (row_text t.now n bytes.now i) out.new result }
{
    let row = Row::read(t, i);
    let ident = row.ident;
    let a = readings::read_row(t, h.rows, row, bytes, list);
    if readings::is_illegal(a) {
        return at;
    }
    lines::append_line(powers, out, at, n, ident, a, list, bytes)
}

// The lines of the rows of record n from i on, while there is room for one.
pub fn list_rows(
    powers: &[u64; 16],
    t: &[i64],
    h: Header,
    n: usize,
    i: usize,
    bytes: &[u8],
    list: &mut [i64],
    out: &mut [u8],
    at: usize,
) -> Listed
    requires ready { Ready powers.now t.now h (length list.old) }
    requires n_bound { (n < 10 ^ 16) × (h.length ≤ length bytes.now) × (at + line_room ≤ length out.old) }
    ensures { Rows t.now n bytes.now i out.old at out.new result }
{
    let mut end = at;
    for row in i..h.rows {
        if out.len() - end < lines::LINE_ROOM {
            return Listed { row, end };
        }
        end = list_row(powers, t, h, n, row, bytes, list, out, end);
    }
    Listed {
        row: i.max(h.rows),
        end,
    }
}

// The ident of row i, 0 where there is no such row.
fn ident_of(t: &[i64], h: Header, i: usize) -> usize
    requires { Tested t.now h }
    ensures { (result ≡ ident_of t.now i) × (result < 10 ^ 16) }
{
    if i < h.rows {
        return Row::read(t, i).ident;
    }
    0
}

// The line of a fault of record n.
fn append_judged(
    powers: &[u64; 16],
    t: &[i64],
    h: Header,
    n: usize,
    j: Judged,
    out: &mut [u8],
    at: usize,
) -> usize
    requires tens { Tens powers.now × Tested t.now h }
    requires n_bound { (n < 10 ^ 16) × (at + line_room ≤ length out.old) }
    ensures { Appended out.old at (fault_line t.now n (judged_as j)) out.new result }
{
    match j {
        Judged::Sound => lines::append_ok(powers, out, at, n),
        Judged::BadTable => lines::append_fault(powers, out, at, 20, n, 0),
        Judged::ShortRecord => lines::append_fault(powers, out, at, 22, n, 0),
        Judged::LowByte(_) => lines::append_fault(powers, out, at, 23, n, 0),
        Judged::Faulty(i, x) => {
            let number = faults::fault_number(x) as usize;
            lines::append_fault(powers, out, at, number, n, ident_of(t, h, i))
        }
    }
}

// The last line.
fn append_last(
    powers: &[u64; 16],
    t: &[i64],
    h: Header,
    j: Judgement,
    out: &mut [u8],
    at: usize,
) -> usize
    requires tens { Tens powers.now × Tested t.now h }
    requires j_bound { (count_in (file_said j) < 10 ^ 16) × (at + line_room ≤ length out.old) }
    ensures { Appended out.old at (last_text t.now (file_said j)) out.new result }
{
    match j {
        Judgement::Sound(n) => lines::append_ok(powers, out, at, n),
        Judgement::BadTable => lines::append_fault(powers, out, at, 20, 0, 0),
        Judgement::Unended(n) => lines::append_fault(powers, out, at, 30, n, 0),
        Judgement::OtherLength(n) => lines::append_fault(powers, out, at, 31, n, 0),
        Judgement::Fault(n, v) => append_judged(powers, t, h, n, v, out, at),
    }
}

// The rows of a sound record from `row` on.
fn take_rows(
    powers: &[u64; 16],
    t: &[i64],
    h: Header,
    n: usize,
    first: usize,
    row: usize,
    bytes: &[u8],
    list: &mut [i64],
    out: &mut [u8],
    at: usize,
) -> Took
    requires ready { Ready powers.now t.now h (length list.old) }
    requires n_bound { (n + 1 < 10 ^ 16) × (h.length ≤ length bytes.now) × (at + line_room ≤ length out.old) }
    ensures { TakenRows t.now n first row bytes.now out.old at out.new result }
{
    let l = list_rows(powers, t, h, n + 1, row, bytes, list, out, at);
    if l.row < h.rows {
        return Took::Part {
            first,
            row: l.row,
            end: l.end,
        };
    }
    Took::Whole { first, end: l.end }
}

// A record after n others, of which `row` rows are listed: it is judged before the first.
fn take_record(
    powers: &[u64; 16],
    t: &[i64],
    h: Header,
    n: usize,
    first: usize,
    row: usize,
    bytes: &[u8],
    list: &mut [i64],
    scratch: &mut [u8],
    out: &mut [u8],
    at: usize,
) -> Took
    requires ready { Ready powers.now t.now h (length list.old) × (length scratch.old ≡ 10000) }
    requires n_bound { (n + 1 < 10 ^ 16) × (at + line_room ≤ length out.old) }
    ensures { Taken t.now n first row bytes.now out.old at out.new result }
{
    if row == 0 {
        let size = files::first_length(n, first, bytes.len());
        let j = files::judge_one(t, h, n, size, bytes, scratch);
        if files::goes_on(j) {
            return take_rows(powers, t, h, n, size, 0, bytes, list, out, at);
        }
        return Took::Last {
            end: append_last(powers, t, h, j, out, at),
        };
    }
    if bytes.len() < h.length {
        return Took::Last { end: at };
    }
    take_rows(powers, t, h, n, first, row, bytes, list, out, at)
}

// From a place, by what became of the record that starts there and where the next one starts.
fn turn_of(p: Place, next: usize, a: Took) -> Turn
    requires { p.n + 1 < 10 ^ 16 }
    ensures { result ≡ turn_of p next a }
{
    match a {
        Took::Part { first, row, end } => {
            let place = Place {
                from: p.from,
                n: p.n,
                first,
                row,
            };
            Turn::On { place, end }
        }
        Took::Whole { first, end } => {
            let place = Place {
                from: next,
                n: p.n + 1,
                first,
                row: 0,
            };
            Turn::On { place, end }
        }
        Took::Last { end } => Turn::Over { end },
    }
}

// Lists on from a place: rows of the record that starts there, while there is room for a line, or the last line.
pub fn list_on(
    powers: &[u64; 16],
    t: &[i64],
    h: Header,
    d: &[u8],
    w: Terminator,
    p: Place,
    list: &mut [i64],
    scratch: &mut [u8],
    out: &mut [u8],
    at: usize,
) -> Turn
    requires ready { Ready powers.now t.now h (length list.old) × (length scratch.old ≡ 10000) }
    requires found { Found d.now w × (length d.now < 10 ^ 15) × PlaceGood d.now p × (at + line_room ≤ length out.old) }
    ensures { ListedOn t.now w d.now p out.old at out.new result }
{
    let from = p.from;
    match cuts::next_from(d, w, from) {
        Next::Ended { start, end, next } => {
            let a = take_record(
                powers,
                t,
                h,
                p.n,
                p.first,
                p.row,
                &d[start..end],
                list,
                scratch,
                out,
                at,
            );
            turn_of(p, next, a)
        }
        Next::Unended { start: _, end: _ } => Turn::Over {
            end: append_last(powers, t, h, Judgement::Unended(p.n + 1), out, at),
        },
        Next::Nothing => Turn::Over {
            end: append_last(powers, t, h, Judgement::Sound(p.n), out, at),
        },
    }
}
