// A part of a data file, judged apart from the rest: for files that are read in blocks, or judged on many cores. Above it stands the face.
#![tactic(auto)]

ghost use Rattle.std.specs.Prelude.{◌≡◌, Bool, length, ◌≤◌};
ghost use Rattle.cuts.specs.Cut.{Ending};
ghost use Rattle.cuts.specs.rule.Records.{records_from};
ghost use Rattle.files.specs.rule.File.{file_said};
ghost use Rattle.files.specs.rule.Tested.{Tested};
ghost use Rattle.parts.specs.rule.Part.{numbered, part_records, part_said, PartJudged};
ghost use Rattle.parts.specs.Part.{Behind, recounted};

use cuts::Terminator;
use files::Judgement;
use layout::Header;

// What a part is judged to be: by a number that no terminator has, nothing; else as a file is, its records counted in the part.
#[derive(Clone, Copy)]
pub enum Part {
    NoTerminator,
    Judged(Judgement),
}

// The terminator of a number: 1 CR LF, 2 LF CR, 3 CR, 4 LF.
fn terminator_of(number: u64) -> Terminator
    ensures { result ≡ numbered number }
{
    if number == 1 {
        return Terminator {
            first: 13,
            second: 10,
            size: 2,
        };
    }
    if number == 2 {
        return Terminator {
            first: 10,
            second: 13,
            size: 2,
        };
    }
    if number == 3 {
        return Terminator {
            first: 13,
            second: 10,
            size: 1,
        };
    }
    if number == 4 {
        return Terminator {
            first: 10,
            second: 13,
            size: 1,
        };
    }
    Terminator {
        first: 0,
        second: 0,
        size: 0,
    }
}

// What was judged behind one record, counted without it; where more of the file follows, a record that the part ends without is left alone.
fn recount(j: Judgement, last: bool) -> Judgement
    requires { Behind 1 (file_said j) }
    ensures { file_said result ≡ recounted last (file_said j) }
{
    match j {
        Judgement::Sound(n) => Judgement::Sound(n - 1),
        Judgement::BadTable => Judgement::BadTable,
        Judgement::Unended(n) => {
            if last {
                Judgement::Unended(n - 1)
            } else {
                Judgement::Sound(n - 2)
            }
        }
        Judgement::OtherLength(n) => Judgement::OtherLength(n - 1),
        Judgement::Fault(n, fault) => Judgement::Fault(n - 1, fault),
    }
}

// The records of a part, by a table that was tested. They stand behind the file's first record, or begin with it: its length is known.
fn judge_behind(
    t: &[i64],
    h: Header,
    d: &[u8],
    w: Terminator,
    first: usize,
    last: bool,
) -> Judgement
    requires tested { Tested t.now h }
    requires ending { Ending w }
    ensures { file_said result ≡ part_records t.now 0 first last (records_from w d.now) }
{
    // Where there are few lines to search, little is ever marked, and room for more need not be cleared.
    if h.lines <= 16 {
        let mut few = [0u8; 128];
        return recount(files::judge_records(t, h, d, w, 1, first, &mut few), last);
    }
    let mut many = [0u8; 10000];
    recount(files::judge_records(t, h, d, w, 1, first, &mut many), last)
}

// Judges a part of a file that begins where a record does: by the number of the file's terminator and the length of its first record.
// A `last` of 0 says that more of the file follows.
pub fn judge_part(t: &[i64], d: &[u8], terminator: u64, first: u64, last: u64) -> Part
    ensures { PartJudged t.now d.now terminator first last (part_said result) }
{
    if !sound::well_formed(t) {
        return Part::Judged(Judgement::BadTable);
    }
    let w = terminator_of(terminator);
    if w.size == 0 {
        return Part::NoTerminator;
    }
    let h = Header::read(t);
    Part::Judged(judge_behind(t, h, d, w, first as usize, last != 0))
}
