// The first line of an export: the decoded names, of a 1.1 definition or of one in XML. Above it stands the export of a file.
#![tactic(auto)]

ghost use Rattle.std.specs.Prelude.{◌≡◌, ◌+◌, ◌≤◌, ◌<◌, length};
ghost use Rattle.ascii.specs.Class.{Classes};
ghost use Rattle.layout.specs.rule.Layout.{row_base, most_rows};
ghost use Rattle.commas.specs.rule.Csv.{holds_special, doubled, field_bytes, line_bytes};
ghost use Rattle.scripts.specs.rule.Script.{script_of};
ghost use Rattle.sink.specs.rule.Sent.{Sent};
ghost use Rattle.name_line.specs.rule.Names.{sign_byte, plain_text, xml_text, name_text, place_at, long_at, name_line};
ghost use Rattle.name_line.specs.Names.{rest_text, end_of, from_of};

use layout::Row;
use marks::{Inside, Part};
use scripts::Script;
use signs::Sign;

// The byte that is written for a sign.
pub fn byte_of(s: Sign) -> u8
    ensures { result ≡ sign_byte s }
{
    match s {
        Sign::Byte(b) => b,
        Sign::Break => 10,
    }
}

// Whether the name at a place of a 1.1 definition holds one of the four bytes.
fn needs_quotes(classes: &[u8; 256], d: &[u8], name: usize) -> bool
    requires { Classes classes.now }
    ensures { result ≡ holds_special (plain_text d.now name) }
{
    let mut n = name;
    let mut s = Inside::Plain;
    loop {
        match marks::next_part(classes, d, n, s) {
            Part::Said { sign, next, inside } => {
                if commas::special(byte_of(sign)) {
                    return true;
                }
                n = next;
                s = inside;
            }
            Part::Over => {
                return false;
            }
        }
    }
}

// The bytes of a name of a 1.1 definition, with every quote doubled.
fn send_signs(
    classes: &[u8; 256],
    d: &[u8],
    name: usize,
    bound: usize,
    out: &mut [u8],
    at: usize,
) -> usize
    requires { Classes classes.now }
    ensures { Sent bound out.old at (doubled (plain_text d.now name)) out.new result }
{
    let mut n = name;
    let mut s = Inside::Plain;
    let mut end = at;
    loop {
        match marks::next_part(classes, d, n, s) {
            Part::Said { sign, next, inside } => {
                end = commas::send_doubled(bound, out, end, byte_of(sign));
                n = next;
                s = inside;
            }
            Part::Over => {
                return end;
            }
        }
    }
}

// The field of a name of a 1.1 definition.
fn send_plain(
    classes: &[u8; 256],
    d: &[u8],
    name: usize,
    bound: usize,
    out: &mut [u8],
    at: usize,
) -> usize
    requires { Classes classes.now }
    ensures { Sent bound out.old at (field_bytes (plain_text d.now name)) out.new result }
{
    if !needs_quotes(classes, d, name) {
        return send_signs(classes, d, name, bound, out, at);
    }
    let mut end = sink::send_byte(bound, out, at, 34);
    end = send_signs(classes, d, name, bound, out, end);
    sink::send_byte(bound, out, end, 34)
}

// Whether an XML text that goes on to the end of d holds one of the four bytes.
fn xml_needs_quotes(latin: bool, d: &[u8], name: usize) -> bool
    requires { name ≤ length d.now }
    ensures { result ≡ holds_special (rest_text latin d.now name) }
{
    let mut c = contents::start_at(name);
    loop {
        match contents::next_sign(latin, d, c) {
            contents::Part::One { sign, cursor } => {
                if commas::special(byte_of(sign)) {
                    return true;
                }
                c = cursor;
            }
            contents::Part::Over => {
                return false;
            }
        }
    }
}

// Its bytes, with every quote doubled.
fn xml_send_signs(
    latin: bool,
    d: &[u8],
    name: usize,
    bound: usize,
    out: &mut [u8],
    at: usize,
) -> usize
    requires { name ≤ length d.now }
    ensures { Sent bound out.old at (doubled (rest_text latin d.now name)) out.new result }
{
    let mut c = contents::start_at(name);
    let mut end = at;
    loop {
        match contents::next_sign(latin, d, c) {
            contents::Part::One { sign, cursor } => {
                end = commas::send_doubled(bound, out, end, byte_of(sign));
                c = cursor;
            }
            contents::Part::Over => {
                return end;
            }
        }
    }
}

// Its field.
fn xml_send_rest(
    latin: bool,
    d: &[u8],
    name: usize,
    bound: usize,
    out: &mut [u8],
    at: usize,
) -> usize
    requires { name ≤ length d.now }
    ensures { Sent bound out.old at (field_bytes (rest_text latin d.now name)) out.new result }
{
    if !xml_needs_quotes(latin, d, name) {
        return xml_send_signs(latin, d, name, bound, out, at);
    }
    let mut end = sink::send_byte(bound, out, at, 34);
    end = xml_send_signs(latin, d, name, bound, out, end);
    sink::send_byte(bound, out, end, 34)
}

// Where a stretch of so many bytes from a place on ends among n bytes; and where it starts, if it doesn't lie behind them.
pub fn end_of(n: usize, place: usize, long: usize) -> usize
    ensures { (result ≡ end_of n place long) × (result ≤ n) }
{
    if n < place {
        return n;
    }
    if n - place < long {
        return n;
    }
    place + long
}

pub fn from_of(end: usize, place: usize) -> usize
    ensures { (result ≡ from_of end place) × (result ≤ end) }
{
    if place <= end { place } else { end }
}

// The field of a name of an XML definition: so many bytes from a place on.
fn send_xml(
    latin: bool,
    d: &[u8],
    place: usize,
    long: usize,
    bound: usize,
    out: &mut [u8],
    at: usize,
) -> usize
    ensures { Sent bound out.old at (field_bytes (xml_text latin d.now place long)) out.new result }
{
    let end = end_of(d.len(), place, long);
    let from = from_of(end, place);
    xml_send_rest(latin, &d[..end], from, bound, out, at)
}

// The field of a name: so many bytes from a place on.
pub fn send_name(
    classes: &[u8; 256],
    d: &[u8],
    s: Script,
    place: usize,
    long: usize,
    bound: usize,
    out: &mut [u8],
    at: usize,
) -> usize
    requires classes { Classes classes.now }
    requires s_value { s ≡ script_of d.now }
    ensures { Sent bound out.old at (field_bytes (name_text d.now place long)) out.new result }
{
    if s.xml {
        return send_xml(s.latin, d, place, long, bound, out, at);
    }
    send_plain(classes, d, place, bound, out, at)
}

// The place of row i's name, and its bytes.
pub fn place_at(t: &[i64], i: usize) -> usize
    requires { (i < most_rows) × (row_base (i + 1) ≤ length t.now) }
    ensures { result ≡ place_at t.now i }
{
    cells::count_at(t, Row::base(i) + Row::NAME)
}

pub fn long_at(t: &[i64], i: usize) -> usize
    requires { (i < most_rows) × (row_base (i + 1) ≤ length t.now) }
    ensures { result ≡ long_at t.now i }
{
    cells::count_at(t, Row::base(i) + Row::NAME_LEN)
}

// The line of the names of a table's rows, of which there are so many.
pub fn send_names(
    classes: &[u8; 256],
    d: &[u8],
    t: &[i64],
    rows: usize,
    bound: usize,
    out: &mut [u8],
    at: usize,
) -> usize
    requires classes { Classes classes.now }
    requires rows_le_most_rows { (rows ≤ most_rows) × (row_base rows ≤ length t.now) }
    ensures { Sent bound out.old at (line_bytes (name_line d.now t.now rows)) out.new result }
{
    let s = scripts::script_of(d);
    let mut end = at;
    for i in 0..rows {
        end = commas::send_comma(bound, out, end, i);
        let place = place_at(t, i);
        let long = long_at(t, i);
        end = send_name(classes, d, s, place, long, bound, out, end);
    }
    commas::send_end(bound, out, end)
}
