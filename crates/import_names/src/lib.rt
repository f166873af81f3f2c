// The name line of a text that is imported, compared column by column with the names of a definition. Above it stands the import of a text.
#![tactic(auto)]

ghost use Rattle.std.specs.Prelude.{◌≡◌, false, ◌+◌, ◌≤◌, ◌<◌, length};
ghost use Rattle.ascii.specs.Class.{Classes};
ghost use Rattle.layout.specs.rule.Layout.{row_base, most_rows};
ghost use Rattle.name_line.specs.rule.Names.{plain_text, xml_text, name_text, name_line};
ghost use Rattle.name_line.specs.Names.{name_at, rest_text};
ghost use Rattle.import_rule.specs.rule.Text.{same_bytes};
ghost use Rattle.import_lines.specs.Undoubled.{undoubled};
ghost use Rattle.import_names.specs.Names.{name_step, names_end, NamesTaken};

use csv_fields::Cut;
use marks::{Inside, Part};

// How the name line ends: as is due, and where the next line begins; with the first column that differs; or with the column of a field that
// is malformed.
#[derive(Clone, Copy)]
pub enum NamesEnd {
    Same(usize),
    Differs(usize),
    Torn(usize),
}

// Whether a field whose bytes so stand in the text is the name at a place of a 1.1 definition.
fn same_plain(classes: &[u8; 256], def: &[u8], name: usize, raw: &[u8]) -> bool
    requires { Classes classes.now }
    ensures { result ≡ same_bytes (plain_text def.now name) (undoubled false raw.now) }
{
    let mut n = name;
    let mut s = Inside::Plain;
    let mut i: usize = 0;
    loop {
        match marks::next_part(classes, def, n, s) {
            Part::Said { sign, next, inside } => {
                if raw.len() <= i {
                    return false;
                }
                let b = raw[i];
                if name_line::byte_of(sign) != b {
                    return false;
                }
                i += import_lines::stride_of(b);
                n = next;
                s = inside;
            }
            Part::Over => {
                return raw.len() <= i;
            }
        }
    }
}

// Whether it is the XML text that goes on from a place to the end of d.
fn same_rest(latin: bool, d: &[u8], name: usize, raw: &[u8]) -> bool
    requires { name ≤ length d.now }
    ensures { result ≡ same_bytes (rest_text latin d.now name) (undoubled false raw.now) }
{
    let mut c = contents::start_at(name);
    let mut k: usize = 0;
    loop {
        match contents::next_sign(latin, d, c) {
            contents::Part::One { sign, cursor } => {
                if raw.len() <= k {
                    return false;
                }
                let b = raw[k];
                if name_line::byte_of(sign) != b {
                    return false;
                }
                k += import_lines::stride_of(b);
                c = cursor;
            }
            contents::Part::Over => {
                return raw.len() <= k;
            }
        }
    }
}

// Whether it is the name of an XML definition: so many bytes from a place on.
fn same_xml(latin: bool, def: &[u8], place: usize, long: usize, raw: &[u8]) -> bool
    ensures { result ≡ same_bytes (xml_text latin def.now place long) (undoubled false raw.now) }
{
    let end = name_line::end_of(def.len(), place, long);
    let from = name_line::from_of(end, place);
    same_rest(latin, &def[..end], from, raw)
}

// Whether it is the name of a definition of either kind.
fn same_name(classes: &[u8; 256], def: &[u8], place: usize, long: usize, raw: &[u8]) -> bool
    requires { Classes classes.now }
    ensures { result ≡ same_bytes (name_text def.now place long) (undoubled false raw.now) }
{
    let s = scripts::script_of(def);
    if s.xml {
        return same_xml(s.latin, def, place, long, raw);
    }
    same_plain(classes, def, place, raw)
}

// Field j of the name line, unless one before it differs: the first column that does, or 0.
fn name_one(
    classes: &[u8; 256],
    def: &[u8],
    t: &[i64],
    rows: usize,
    j: usize,
    bad: usize,
    raw: &[u8],
) -> usize
    requires classes { Classes classes.now }
    requires rows_le_most_rows { (rows ≤ most_rows) × (row_base rows ≤ length t.now) × (j < 9223372036854775808) }
    ensures { result ≡ name_step (name_at def.now t.now) rows j (undoubled false raw.now) bad }
{
    if bad != 0 {
        return bad;
    }
    if rows <= j {
        return j + 1;
    }
    let place = name_line::place_at(t, j);
    let long = name_line::long_at(t, j);
    if same_name(classes, def, place, long, raw) {
        return 0;
    }
    j + 1
}

// The end of a name line of so many fields.
fn names_end(rows: usize, count: usize, bad: usize, next: usize) -> NamesEnd
    requires { rows ≤ most_rows }
    ensures { result ≡ names_end rows count bad next }
{
    if bad != 0 {
        return NamesEnd::Differs(bad);
    }
    if count < rows {
        return NamesEnd::Differs(count + 1);
    }
    NamesEnd::Same(next)
}

// THE NAME LINE, the first of the text.
pub fn judge_names(classes: &[u8; 256], def: &[u8], t: &[i64], rows: usize, d: &[u8]) -> NamesEnd
    requires classes { Classes classes.now }
    requires rows_le_most_rows { (rows ≤ most_rows) × (row_base rows ≤ length t.now) }
    ensures { NamesTaken (name_line def.now t.now rows) d.now result }
{
    let mut at: usize = 0;
    let mut j: usize = 0;
    let mut bad: usize = 0;
    loop {
        match csv_fields::next_field(d, at) {
            Cut::Comma {
                from,
                to,
                bare: _,
                next,
            } => {
                bad = name_one(classes, def, t, rows, j, bad, &d[from..to]);
                j += 1;
                at = next;
            }
            Cut::Last {
                from,
                to,
                bare: _,
                next,
            } => {
                bad = name_one(classes, def, t, rows, j, bad, &d[from..to]);
                return names_end(rows, j + 1, bad, next);
            }
            Cut::Torn => {
                return NamesEnd::Torn(j + 1);
            }
        }
    }
}
