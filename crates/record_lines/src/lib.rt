// The lines of a data file's records as they are exported. Above it stands the export of a file.
#![tactic(auto)]

ghost use Rattle.std.specs.Prelude.{◌≡◌, ◌-◌, ◌≤◌, length};
ghost use Rattle.cuts.specs.rule.Records.{records_from};
ghost use Rattle.files.specs.rule.File.{file_said};
ghost use Rattle.listing.specs.rule.Turns.{Ready};
ghost use Rattle.commas.specs.rule.Csv.{line_bytes, csv_bytes};
ghost use Rattle.sink.specs.rule.Sent.{Sent};
ghost use Rattle.value_fields.specs.Legal.{Full};
ghost use Rattle.record_lines.specs.rule.Lines.{sound_before, record_line, records_lines};
ghost use Rattle.record_lines.specs.Lines.{SoundRecord, SoundFirst};

use cuts::{Next, Terminator};
use files::Judgement;
use layout::Header;

// The record before the one that a fault names.
fn one_less(n: usize) -> usize
    ensures { result ≡ n - 1 }
{
    if n == 0 { 0 } else { n - 1 }
}

// How many records come before the first fault.
pub fn count_before(j: Judgement) -> usize
    ensures { result ≡ sound_before (file_said j) }
{
    match j {
        Judgement::Sound(n) => n,
        Judgement::BadTable => 0,
        Judgement::Unended(n) => one_less(n),
        Judgement::OtherLength(n) => one_less(n),
        Judgement::Fault(n, _) => one_less(n),
    }
}

// The line of a record that is sound: a field for each row. `full` marks the rows that have every category from 1 to w.
pub fn send_line(
    powers: &[u64; 16],
    t: &[i64],
    h: Header,
    full: &[u8; 512],
    bytes: &[u8],
    list: &mut [i64],
    bound: usize,
    out: &mut [u8],
    at: usize,
) -> usize
    requires ready { Ready powers.now t.now h (length list.old) }
    requires full { Full t.now h.rows h.rows full.now }
    requires sound_record { SoundRecord t.now bytes.now }
    ensures { Sent bound out.old at (line_bytes (record_line t.now bytes.now)) out.new result }
{
    let mut end = at;
    for i in 0..h.rows {
        end = commas::send_comma(bound, out, end, i);
        end = value_fields::send_row(powers, t, h, full, i, bytes, list, bound, out, end);
    }
    commas::send_end(bound, out, end)
}

// The lines of the first n records of some data, which are sound.
pub fn send_lines(
    powers: &[u64; 16],
    t: &[i64],
    h: Header,
    d: &[u8],
    w: Terminator,
    n: usize,
    list: &mut [i64],
    bound: usize,
    out: &mut [u8],
    at: usize,
) -> usize
    requires ready { Ready powers.now t.now h (length list.old) }
    requires size_bound { (w.size ≤ 2) × SoundFirst t.now n (records_from w d.now) }
    ensures { Sent bound out.old at (csv_bytes (records_lines t.now n (records_from w d.now)))
        out.new result }
{
    let mut end = at;
    let mut full = [0u8; 512];
    value_fields::mark_full(t, h, &mut full);
    let mut from: usize = 0;
    for _ in 0..n {
        match cuts::next_from(d, w, from) {
            Next::Ended {
                start,
                end: stop,
                next,
            } => {
                end = send_line(powers, t, h, &full, &d[start..stop], list, bound, out, end);
                from = next;
            }
            Next::Unended { start: _, end: _ } => {
                return end;
            }
            Next::Nothing => {
                return end;
            }
        }
    }
    end
}
