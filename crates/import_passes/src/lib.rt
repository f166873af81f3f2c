// The lines behind the name line, twice: judged, which tells how many records they build or the first refusal, and then built. Above it
// stands the import of a text.
#![tactic(auto)]

ghost use Rattle.std.specs.Prelude.{◌≡◌, ◌++◌, ◌+◌, ◌*◌, ◌≤◌, ◌<◌, length, drop};
ghost use Rattle.ascii.specs.rule.Tens.{Tens};
ghost use Rattle.sound.specs.rule.Rows.{rows_of, length_of};
ghost use Rattle.sharing.specs.Known.{TableKnown};
ghost use Rattle.csv_fields.specs.rule.Page.{start, page, page_lines};
ghost use Rattle.import_rule.specs.rule.Text.{lines_say, data_of};
ghost use Rattle.import_lines.specs.Build.{FullRows};
ghost use Rattle.import_passes.specs.Passes.{LineEnded, Accepted, JudgedAs};

use import_lines::LineEnd;

// So many records; or a refusal's number, line and column.
#[derive(Clone, Copy)]
pub enum Judged {
    Done(usize),
    Refused {
        number: usize,
        line: usize,
        column: usize,
    },
}

// The record of the line from a place on, and CR LF.
fn take_record(
    powers: &[u64; 16],
    t: &[i64],
    rows: usize,
    len: usize,
    full: &[u8],
    d: &[u8],
    from: usize,
    list: &mut [i64],
    room: &mut [u8],
    spare: &mut [u8],
    slot: &mut [u8],
) -> LineEnd
    requires tens { Tens powers.now }
    requires table_known { TableKnown t.now rows len × (rows ≡ rows_of t.now) × (len ≡ length_of t.now) }
    requires from_in_bounds { (from ≤ length d.now) × (length slot.old ≡ len + 2) × FullRows t.now rows full.now }
    requires list_len { (length list.old ≡ 9999) × (length room.old ≡ 50000) × (length spare.old ≡ 50000) }
    ensures { LineEnded t.now d.now from slot.new result }
{
    runs::blank(slot, 0, len);
    let end = import_lines::take_line(
        powers,
        t,
        rows,
        len,
        full,
        d,
        from,
        list,
        room,
        spare,
        &mut slot[..len],
    );
    slot[len] = 13;
    slot[len + 1] = 10;
    end
}

// THE LINES from a place on, the first of which is line 2. No record is built: the slot is room for what is not kept.
pub fn judge_lines(
    powers: &[u64; 16],
    t: &[i64],
    rows: usize,
    len: usize,
    full: &[u8],
    d: &[u8],
    from: usize,
    list: &mut [i64],
    room: &mut [u8],
    spare: &mut [u8],
    slot: &mut [u8],
) -> Judged
    requires tens { Tens powers.now }
    requires table_known { TableKnown t.now rows len × (rows ≡ rows_of t.now) × (len ≡ length_of t.now) }
    requires from_in_bounds { (from ≤ length d.now) × (length slot.old ≡ len + 2) × FullRows t.now rows full.now }
    requires list_len { (length list.old ≡ 9999) × (length room.old ≡ 50000) × (length spare.old ≡ 50000) }
    ensures { JudgedAs (lines_say t.now 2 (page_lines (page start (drop from d.now)))) result }
{
    let mut at = from;
    let mut n: usize = 0;
    while at < d.len() {
        match import_lines::judge_line(powers, t, rows, len, full, d, at, list, room, spare, slot) {
            LineEnd::Good(next) => {
                n += 1;
                at = next;
            }
            LineEnd::Refused(number, column) => {
                return Judged::Refused {
                    number,
                    line: n + 2,
                    column,
                };
            }
            LineEnd::Torn(column) => {
                return Judged::Refused {
                    number: 61,
                    line: n + 2,
                    column,
                };
            }
        }
    }
    Judged::Done(n)
}

// THE RECORDS of lines that were judged, so many, in the output from its start.
pub fn build_lines(
    powers: &[u64; 16],
    t: &[i64],
    rows: usize,
    len: usize,
    full: &[u8],
    d: &[u8],
    from: usize,
    n: usize,
    list: &mut [i64],
    room: &mut [u8],
    spare: &mut [u8],
    out: &mut [u8],
)
    requires tens { Tens powers.now }
    requires table_known { TableKnown t.now rows len × (rows ≡ rows_of t.now) × (len ≡ length_of t.now) }
    requires from_in_bounds { (from ≤ length d.now) × (n * (len + 2) ≤ length out.old) × (len ≤ 16384) × FullRows t.now rows full.now }
    requires accepted { Accepted (lines_say t.now 2 (page_lines (page start (drop from d.now)))) n }
    requires list_len { (length list.old ≡ 9999) × (length room.old ≡ 50000) × (length spare.old ≡ 50000) }
    ensures { out.new ≡ data_of (lines_say t.now 2 (page_lines (page start (drop from d.now))))
        ++ drop (length (data_of (lines_say t.now 2 (page_lines (page start (drop from d.now)))))) out.old }
{
    let size = len + 2;
    let mut at = from;
    let mut k: usize = 0;
    for _ in 0..n {
        let end = k + size;
        let slot = &mut out[k..end];
        match take_record(powers, t, rows, len, full, d, at, list, room, spare, slot) {
            LineEnd::Good(next) => {
                at = next;
                k = end;
            }
            LineEnd::Refused(_, _) => {
                return;
            }
            LineEnd::Torn(_) => {
                return;
            }
        }
    }
}
