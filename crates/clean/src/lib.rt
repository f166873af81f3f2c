// Clean definitions written into a lent buffer: the public call. The definition is read and held against the table; then one walk over it
// writes the clean text, and where the buffer may be too short for it the same walk measures it before. Above it stands the face.
#![tactic(auto)]

ghost use Rattle.std.specs.Prelude.{◌≡◌, true, ◌*◌, ◌≤◌, length};
ghost use Rattle.ascii.specs.Class.{Classes};
ghost use Rattle.ascii.specs.rule.Tens.{Tens};
ghost use Rattle.definition.specs.rule.Against.{sss_against};
ghost use Rattle.fronts.specs.Front.{whole_text};
ghost use Rattle.clean.specs.rule.Written.{DefinitionWritten, clean_fitted, clean_written, out_after};
ghost use Rattle.clean.specs.Law.{Measured, Perhaps};

use definition::Against;
use laying::Rooms;
use layout::{Header, Line, Row};

// The outcome: how long the clean text is; or the refusal's number and place.
#[derive(Clone, Copy)]
pub enum Written {
    Done(usize),
    Refused { number: usize, place: usize },
}

// How long the clean text is, up to one byte more than it may have.
fn measure(classes: &[u8; 256], powers: &[u64; 16], d: &[u8]) -> usize
    requires classes { Classes classes.now }
    requires tens { Tens powers.now }
    ensures { Measured (whole_text d.now) result }
{
    let mut none = [0u8; 1];
    fronts::send_clean(classes, powers, d, 1_048_577, &mut none, 0)
}

// 41, 42, or the clean text of a definition that was read.
fn write_clean(d: &[u8], out: &mut [u8]) -> Written
    ensures value { result ≡ clean_written (clean_fitted (length out.old) (whole_text d.now)) }
    ensures out_after { out.new ≡ out_after (clean_fitted (length out.old) (whole_text d.now))
        out.old }
{
    let classes = ascii::classes();
    let powers = ascii::powers();
    let n = measure(&classes, &powers, d);
    if 1_048_576 < n {
        return Written::Refused {
            number: 41,
            place: 0,
        };
    }
    if out.len() < n {
        return Written::Refused {
            number: 42,
            place: 0,
        };
    }
    fronts::send_clean(&classes, &powers, d, n + 1, out, 0);
    Written::Done(n)
}

// Whether an output has room for any clean text of a definition of so many bytes, and none of these passes the limit: three bytes for each.
fn ample(bytes: usize, room: usize) -> bool
    ensures { result ≡ true → (3 * bytes ≤ 1048576) × (3 * bytes ≤ room) }
{
    if 349_525 < bytes {
        return false;
    }
    3 * bytes <= room
}

// The clean text of a definition that was read, where the output is ample: nothing is measured.
fn write_once(d: &[u8], out: &mut [u8]) -> Written
    requires d_len_bound { length (whole_text d.now) ≤ 3 * length d.now }
    requires d_bound { (3 * length d.now ≤ 1048576) × (3 * length d.now ≤ length out.old) }
    ensures value { result ≡ clean_written (clean_fitted (length out.old) (whole_text d.now)) }
    ensures out_after { out.new ≡ out_after (clean_fitted (length out.old) (whole_text d.now))
        out.old }
{
    let classes = ascii::classes();
    let powers = ascii::powers();
    let most = 3 * d.len();
    let n = fronts::send_clean(&classes, &powers, d, most + 1, out, 0);
    Written::Done(n)
}

// The clean text, measured first where the output may be too short for it.
fn write_read(d: &[u8], out: &mut [u8]) -> Written
    requires { length (whole_text d.now) ≤ 3 * length d.now }
    ensures value { result ≡ clean_written (clean_fitted (length out.old) (whole_text d.now)) }
    ensures out_after { out.new ≡ out_after (clean_fitted (length out.old) (whole_text d.now))
        out.old }
{
    if ample(d.len(), out.len()) {
        return write_once(d, out);
    }
    write_clean(d, out)
}

// A definition whose table says that it has few rows and lines is read in rooms for so many, so that little has to be cleared. What the
// table says is not believed: where the definition has more it is read again, and is not the table's.
const FEW_ROWS: usize = 64;

const FEW_LINES: usize = 512;

const ROWS_ROOM: usize = Row::SIZE * FEW_ROWS;

const LINES_ROOM: usize = Line::SIZE * FEW_LINES;

// A table held against a definition with few rows and lines; 0 where it has more.
fn judge_few(d: &[u8], t: &[i64]) -> Against
    requires { length d.now ≤ 1048576 }
    ensures { Perhaps (result ≡ Against.Refused 0 0) (result ≡ sss_against d.now t.now) }
{
    let classes = ascii::classes();
    let powers = ascii::powers();
    let mut rows = [0i64; ROWS_ROOM];
    let mut lines = [0i64; LINES_ROOM];
    let mut marks = [0u16; 16384];
    let mut seen = [0u8; 10000];
    match definition::read_in(
        &classes, &powers, d, &mut rows, &mut lines, &mut marks, &mut seen,
    ) {
        Rooms::Held(y) => definition::compare(Header::MARK, &rows, &lines, y, t),
        Rooms::Refused { number, place } => Against::Refused { number, place },
    }
}

// Whether a table says that it has few of them. Which rooms are taken is all that hangs on it.
fn says_few(t: &[i64]) -> bool {
    let h = Header::read(t);
    (0 < h.rows) & ((h.rows <= FEW_ROWS) & (h.lines <= FEW_LINES))
}

// The same, 0 where the table does not say so.
fn judge_short(d: &[u8], t: &[i64]) -> Against
    ensures { Perhaps (result ≡ Against.Refused 0 0) (result ≡ sss_against d.now t.now) }
{
    if says_few(t) {
        if d.len() <= 1_048_576 {
            return judge_few(d, t);
        }
    }
    Against::Refused {
        number: 0,
        place: 0,
    }
}

// A table held against any definition.
fn judge(d: &[u8], t: &[i64]) -> Against
    ensures { result ≡ sss_against d.now t.now }
{
    match judge_short(d, t) {
        Against::Same => Against::Same,
        Against::Other => Against::Other,
        Against::Refused { number, place } => {
            if number == 0 {
                return definition::judge_against(d, t);
            }
            Against::Refused { number, place }
        }
    }
}

// Writes the clean text of a definition, whose table is lent too. The output is filled from its start, or kept whole.
pub fn write_definition(d: &[u8], t: &[i64], out: &mut [u8]) -> Written
    ensures { DefinitionWritten d.now t.now out.old out.new result }
{
    match judge(d, t) {
        Against::Same => write_read(d, out),
        Against::Other => Written::Refused {
            number: 40,
            place: 0,
        },
        Against::Refused { number, place } => Written::Refused { number, place },
    }
}
