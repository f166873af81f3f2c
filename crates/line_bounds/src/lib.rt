// How long a record's line can get, by the table alone: so that an export need not measure its text where there is room for the longest
// lines.
// Above it stands the export of a file.
#![tactic(auto)]

ghost use Rattle.std.specs.Prelude.{◌≡◌, ◌≤◌};
ghost use Rattle.sound.specs.rule.Rows.{rows_of};
ghost use Rattle.files.specs.rule.Tested.{Tested};
ghost use Rattle.line_bounds.specs.Bounds.{most_by, count_of, most_from};

use layout::{Header, Kind, Row, Spread};

// The most bytes of the field of a row of this kind and width.
fn most_by(kind: Kind, w: usize) -> usize
    requires { (w ≤ 16384) × (count_of kind ≤ 16384) }
    ensures { (result ≡ most_by kind w) × (result ≤ 90000) }
{
    match kind {
        Kind::Single => 27,
        Kind::Multiple(s) => match s {
            Spread::Bits => 5 * w + 4,
            Spread::Fields { count, width: _ } => 5 * count + 4,
        },
        Kind::Quantity(_) => 27,
        Kind::Character => 2 * w + 2,
        Kind::Logical => 27,
    }
}

// The most bytes of a record's line, by a table that was tested.
pub fn line_most(t: &[i64], h: Header) -> usize
    requires { Tested t.now h }
    ensures { (result ≡ most_from t.now 0 (rows_of t.now)) × (2 ≤ result) }
{
    let mut sum: usize = 2;
    for i in 0..h.rows {
        let row = Row::read(t, i);
        let kind = row.kind;
        sum = sum + most_by(kind, row.width) + 1;
    }
    sum
}
