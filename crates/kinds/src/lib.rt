// A definition of either kind, 1.1 or XML, read into a lent table or held against one: the public calls. The rooms for rows and lines
// are made here, whichever reader fills them: few for a short definition of 1.1, so that little has to be cleared, and where they prove
// too few, or for any other, those of the most rows and lines. Above it stand the face, the lister and the export.
#![tactic(auto)]

ghost use Rattle.std.specs.Prelude.{◌≡◌, false, ◌≤◌, length};
ghost use Rattle.values.specs.Room.{Unless};
ghost use Rattle.definition.specs.Code.{Lacking};
ghost use Rattle.prologs.specs.rule.Told.{is_xml};
ghost use Rattle.kinds.specs.rule.Definition.{definition_outcome, DefinitionRead};
ghost use Rattle.kinds.specs.rule.Against.{against_of};
ghost use Rattle.kinds.specs.Code.{mark_of, Ready, Roomy, Perhaps};

use definition::{Against, Answer};
use laying::Rooms;
use layout::{Header, Line, Row};

// A definition of up to so many bytes has rooms for so many rows and lines. Below 64 bytes a variable and 8 bytes a line there are more,
// and it is read twice.
const SHORT: usize = 4096;

const FEW_ROWS: usize = Row::SIZE * 64;

const FEW_LINES: usize = Line::SIZE * 512;

// The first number of the table of a definition: XML or not.
fn mark_of(xml: bool) -> usize
    ensures { result ≡ mark_of xml }
{
    if xml { Header::MARK_XML } else { Header::MARK }
}

// The whole definition, by the reader of its kind, in these rooms; 0 where they are too small. The reader of XML asks for those of the
// most rows and lines. It tells the kind by itself: were that a parameter, the compiler would lay a copy for 1.1, and its marks, into
// each caller's frame.
fn read_rooms(d: &[u8], rows: &mut [i64], lines: &mut [i64]) -> Rooms
    requires { (length d.now ≤ 1048576) × Roomy (is_xml d.now) rows.old lines.old }
    ensures { Unless (result ≡ Rooms.Refused 0 0) (Lacking rows.old lines.old)
        (Ready (mark_of (is_xml d.now)) (definition_outcome d.now) rows.new lines.new result) }
{
    let classes = ascii::classes();
    let powers = ascii::powers();
    let mut marks = [0u16; 16384];
    let mut seen = [0u8; 10000];
    if prologs::is_xml(d) {
        return xml_files::read_in(&classes, &powers, d, rows, lines, &mut marks, &mut seen);
    }
    definition::read_in(&classes, &powers, d, rows, lines, &mut marks, &mut seen)
}

// A definition of 1.1 with few rows and lines; 0 where it has more, and the table is kept.
fn read_few(d: &[u8], table: &mut [i64]) -> Answer
    requires { (length d.now ≤ 1048576) × (is_xml d.now ≡ false) }
    ensures { Perhaps ((result ≡ Answer.Refused 0 0) × (table.new ≡ table.old))
        (DefinitionRead d.now table.old table.new result) }
{
    let mut rows = [0i64; FEW_ROWS];
    let mut lines = [0i64; FEW_LINES];
    match read_rooms(d, &mut rows, &mut lines) {
        Rooms::Held(y) => definition::fill(Header::MARK, &rows, &lines, y, table),
        Rooms::Refused { number, place } => Answer::Refused { number, place },
    }
}

// A short definition of 1.1 with few rows and lines; 0 for any other.
fn read_short(d: &[u8], xml: bool, table: &mut [i64]) -> Answer
    requires { (length d.now ≤ 1048576) × (xml ≡ is_xml d.now) }
    ensures { Perhaps ((result ≡ Answer.Refused 0 0) × (table.new ≡ table.old))
        (DefinitionRead d.now table.old table.new result) }
{
    if xml | (SHORT < d.len()) {
        return Answer::Refused {
            number: 0,
            place: 0,
        };
    }
    read_few(d, table)
}

// Any definition.
fn read_any(d: &[u8], xml: bool, table: &mut [i64]) -> Answer
    requires { (length d.now ≤ 1048576) × (xml ≡ is_xml d.now) }
    ensures { DefinitionRead d.now table.old table.new result }
{
    let mark = mark_of(xml);
    let mut rows = [0i64; laying::ROWS_ROOM];
    let mut lines = [0i64; laying::LINES_ROOM];
    match read_rooms(d, &mut rows, &mut lines) {
        Rooms::Held(y) => definition::fill(mark, &rows, &lines, y, table),
        Rooms::Refused { number, place } => Answer::Refused { number, place },
    }
}

// Reads a definition of either kind into a lent table. The table is filled from its start, or kept whole.
pub fn read_definition(d: &[u8], table: &mut [i64]) -> Answer
    ensures { DefinitionRead d.now table.old table.new result }
{
    if 1_048_576 < d.len() {
        return Answer::Refused {
            number: 1,
            place: 0,
        };
    }
    let xml = prologs::is_xml(d);
    match read_short(d, xml, table) {
        Answer::Read { rows, lines } => Answer::Read { rows, lines },
        Answer::Refused { number, place } => {
            if number == 0 {
                return read_any(d, xml, table);
            }
            Answer::Refused { number, place }
        }
    }
}

// A table held against a definition of 1.1 with few rows and lines; 0 where it has more.
fn judge_few(d: &[u8], t: &[i64]) -> Against
    requires { (length d.now ≤ 1048576) × (is_xml d.now ≡ false) }
    ensures { Perhaps (result ≡ Against.Refused 0 0) (result ≡ against_of d.now t.now) }
{
    let mut rows = [0i64; FEW_ROWS];
    let mut lines = [0i64; FEW_LINES];
    match read_rooms(d, &mut rows, &mut lines) {
        Rooms::Held(y) => definition::compare(Header::MARK, &rows, &lines, y, t),
        Rooms::Refused { number, place } => Against::Refused { number, place },
    }
}

// A table held against a short definition of 1.1 with few rows and lines; 0 for any other.
fn judge_short(d: &[u8], xml: bool, t: &[i64]) -> Against
    requires { (length d.now ≤ 1048576) × (xml ≡ is_xml d.now) }
    ensures { Perhaps (result ≡ Against.Refused 0 0) (result ≡ against_of d.now t.now) }
{
    if xml | (SHORT < d.len()) {
        return Against::Refused {
            number: 0,
            place: 0,
        };
    }
    judge_few(d, t)
}

// A table held against any definition.
fn judge_any(d: &[u8], xml: bool, t: &[i64]) -> Against
    requires { (length d.now ≤ 1048576) × (xml ≡ is_xml d.now) }
    ensures { result ≡ against_of d.now t.now }
{
    let mark = mark_of(xml);
    let mut rows = [0i64; laying::ROWS_ROOM];
    let mut lines = [0i64; laying::LINES_ROOM];
    match read_rooms(d, &mut rows, &mut lines) {
        Rooms::Held(y) => definition::compare(mark, &rows, &lines, y, t),
        Rooms::Refused { number, place } => Against::Refused { number, place },
    }
}

// Holds a table against a definition of either kind.
pub fn judge_against(d: &[u8], t: &[i64]) -> Against
    ensures { result ≡ against_of d.now t.now }
{
    if 1_048_576 < d.len() {
        return Against::Refused {
            number: 1,
            place: 0,
        };
    }
    let xml = prologs::is_xml(d);
    match judge_short(d, xml, t) {
        Against::Same => Against::Same,
        Against::Other => Against::Other,
        Against::Refused { number, place } => {
            if number == 0 {
                return judge_any(d, xml, t);
            }
            Against::Refused { number, place }
        }
    }
}
