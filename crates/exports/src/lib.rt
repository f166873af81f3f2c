// A data file as comma-separated text: a line of names, and a line for each record before the first fault. The table is tested and held
// against the definition, the data judged, the text measured, and only then is a byte of it written. Above it stands the face.
#![tactic(auto)]

ghost use Rattle.std.specs.Prelude.{◌≡◌, true, false, ◌++◌, ◌≤◌, ◌<◌, leb, length, drop};
ghost use Rattle.ascii.specs.Class.{Classes};
ghost use Rattle.cuts.specs.rule.Cut.{Found};
ghost use Rattle.cuts.specs.rule.Records.{records_of};
ghost use Rattle.sound.specs.rule.Sound.{well_formed};
ghost use Rattle.files.specs.rule.File.{file_said, file_verdict};
ghost use Rattle.files.specs.rule.Tested.{Tested};
ghost use Rattle.listing.specs.rule.Turns.{Ready};
ghost use Rattle.sink.specs.rule.Sent.{Sent};
ghost use Rattle.record_lines.specs.Lines.{SoundFirst};
ghost use Rattle.exports.specs.rule.Text.{export_text, export_said, fitted, export_after};
ghost use Rattle.exports.specs.rule.Export.{Exported};
ghost use Rattle.exports.specs.Sizes.{text_with};
ghost use Rattle.definition.specs.rule.Against.{is_same};
ghost use Rattle.kinds.specs.rule.Against.{yields};

use cuts::Terminator;
use definition::Against;
use files::Judgement;
use layout::Header;

// What becomes of an export: it is refused, or written, with what the data were judged to be and the length of the text.
#[derive(Clone, Copy)]
pub enum Export {
    BadTable,
    OtherTable,
    ShortRoom,
    Written { judged: Judgement, length: usize },
}

// The names and the first n records' lines: to be measured where the buffer has no room, to be stored where it has.
fn send_all(
    classes: &[u8; 256],
    powers: &[u64; 16],
    def: &[u8],
    t: &[i64],
    h: Header,
    d: &[u8],
    w: Terminator,
    n: usize,
    list: &mut [i64],
    bound: usize,
    out: &mut [u8],
) -> usize
    requires classes { Classes classes.now }
    requires ready { Ready powers.now t.now h (length list.old) }
    requires found { Found d.now w × SoundFirst t.now n (records_of d.now) }
    ensures { Sent bound out.old 0 (text_with def.now t.now n (records_of d.now))
        out.new result }
{
    let end = name_line::send_names(classes, def, t, h.rows, bound, out, 0);
    record_lines::send_lines(powers, t, h, d, w, n, list, bound, out, end)
}

// Whether the text has room.
fn fits(
    classes: &[u8; 256],
    powers: &[u64; 16],
    def: &[u8],
    t: &[i64],
    h: Header,
    d: &[u8],
    w: Terminator,
    n: usize,
    list: &mut [i64],
    room: usize,
) -> bool
    requires classes { Classes classes.now }
    requires ready { Ready powers.now t.now h (length list.old) }
    requires found { Found d.now w × SoundFirst t.now n (records_of d.now) }
    requires room_bound { room < 9223372036854775808 }
    ensures { result ≡ leb (length (text_with def.now t.now n (records_of d.now))) room }
{
    let mut none = [0u8; 1];
    let names = name_line::send_names(classes, def, t, h.rows, room + 1, &mut none, 0);
    if room < names {
        return false;
    }
    // Where there is room for the longest lines, they need not be measured.
    if n <= (room - names) / line_bounds::line_most(t, h) {
        return true;
    }
    let need = record_lines::send_lines(powers, t, h, d, w, n, list, room + 1, &mut none, names);
    need <= room
}

// The text written, where it has room: its length.
fn write(
    classes: &[u8; 256],
    powers: &[u64; 16],
    def: &[u8],
    t: &[i64],
    h: Header,
    d: &[u8],
    w: Terminator,
    n: usize,
    list: &mut [i64],
    out: &mut [u8],
) -> usize
    requires classes { Classes classes.now }
    requires ready { Ready powers.now t.now h (length list.old) }
    requires found { Found d.now w × SoundFirst t.now n (records_of d.now) }
    requires d_in_bounds { length (text_with def.now t.now n (records_of d.now)) ≤ length out.old }
    ensures { (result ≡ length (text_with def.now t.now n (records_of d.now)))
        × (out.new ≡ text_with def.now t.now n (records_of d.now)
        ++ drop (length (text_with def.now t.now n (records_of d.now))) out.old) }
{
    let bound = out.len() + 1;
    send_all(classes, powers, def, t, h, d, w, n, list, bound, out)
}

// The data judged by a table that was tested.
fn judge(t: &[i64], h: Header, d: &[u8], w: Terminator) -> Judgement
    requires { Tested t.now h × Found d.now w }
    ensures { file_said result ≡ file_verdict t.now d.now }
{
    // As in `files::judge_file`: room for marks is cleared first, so that few lines get little.
    if h.lines <= 16 {
        let mut few = [0u8; 128];
        return files::judge_records(t, h, d, w, 0, 0, &mut few);
    }
    let mut many = [0u8; 10000];
    files::judge_records(t, h, d, w, 0, 0, &mut many)
}

// The export by a table that was tested and is the definition's: 60, or written.
fn export_tested(def: &[u8], t: &[i64], d: &[u8], out: &mut [u8]) -> Export
    requires { well_formed t.now ≡ true }
    ensures { (export_said result ≡ fitted (file_verdict t.now d.now)
        (export_text def.now t.now d.now) (length out.old))
        × (out.new ≡ export_after (fitted (file_verdict t.now d.now)
        (export_text def.now t.now d.now) (length out.old))
        (export_text def.now t.now d.now) out.old) }
{
    let h = Header::read(t);
    let w = cuts::find_terminator(d);
    let j = judge(t, h, d, w);
    let n = record_lines::count_before(j);
    let classes = ascii::classes();
    let powers = ascii::powers();
    let mut list = [0i64; 9999];
    if !fits(&classes, &powers, def, t, h, d, w, n, &mut list, out.len()) {
        return Export::ShortRoom;
    }
    let length = write(&classes, &powers, def, t, h, d, w, n, &mut list, out);
    Export::Written { judged: j, length }
}

// Whether a table was found to be the definition's.
fn is_same(a: Against) -> bool
    ensures { result ≡ is_same a }
{
    matches!(a, Against::Same)
}

// Whether the definition, of either kind, yields the table. The reader's rooms are gone when this returns.
pub fn yields(def: &[u8], t: &[i64]) -> bool
    ensures { result ≡ yields def.now t.now }
{
    is_same(kinds::judge_against(def, t))
}

// Writes a data file as comma-separated text by a table and its definition.
pub fn write_export(def: &[u8], t: &[i64], d: &[u8], out: &mut [u8]) -> Export
    ensures { Exported def.now t.now d.now out.old out.new (export_said result) }
{
    if !sound::well_formed(t) {
        return Export::BadTable;
    }
    if !yields(def, t) {
        return Export::OtherTable;
    }
    export_tested(def, t, d, out)
}
