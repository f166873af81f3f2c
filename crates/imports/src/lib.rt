// A comma-separated text imported into a data file by a table and its definition. The table is tested and held against the definition, the
// text judged to its end, and only then is a byte of the data written. Above it stands the face.
#![tactic(auto)]

ghost use Rattle.std.specs.Prelude.{◌≡◌, ◌≤◌, length, drop};
ghost use Rattle.ascii.specs.rule.Tens.{Tens};
ghost use Rattle.sound.specs.rule.Rows.{rows_of, length_of};
ghost use Rattle.sharing.specs.Known.{TableKnown};
ghost use Rattle.csv_fields.specs.rule.Page.{start, page, page_lines};
ghost use Rattle.import_rule.specs.rule.Text.{lines_say};
ghost use Rattle.import_lines.specs.Build.{FullRows};
ghost use Rattle.import_passes.specs.Passes.{Accepted, JudgedAs};
ghost use Rattle.imports.specs.rule.Import.{import_said, import_says, Imported};
ghost use Rattle.imports.specs.Import.{Roomed};

use import_names::NamesEnd;
use import_passes::Judged;
use layout::Header;

// What becomes of an import: it is refused, 61 to 64 with line and column; or written, so many records, so many bytes.
#[derive(Clone, Copy)]
pub enum Import {
    BadTable,
    OtherTable,
    SharedPlace,
    Refused {
        number: usize,
        line: usize,
        column: usize,
    },
    ShortRoom,
    Written {
        records: usize,
        length: usize,
    },
}

// The records of lines that were judged, so many: built where there is room.
fn build_records(
    powers: &[u64; 16],
    t: &[i64],
    rows: usize,
    len: usize,
    full: &[u8],
    d: &[u8],
    from: usize,
    n: usize,
    list: &mut [i64],
    room: &mut [u8],
    spare: &mut [u8],
    out: &mut [u8],
) -> Import
    requires tens { Tens powers.now }
    requires table_known { TableKnown t.now rows len × (rows ≡ rows_of t.now) × (len ≡ length_of t.now) }
    requires from_in_bounds { (from ≤ length d.now) × (len ≤ 16384) × FullRows t.now rows full.now }
    requires accepted { Accepted (lines_say t.now 2 (page_lines (page start (drop from d.now)))) n }
    requires list_len { (length list.old ≡ 9999) × (length room.old ≡ 50000) × (length spare.old ≡ 50000) }
    ensures { Roomed (lines_say t.now 2 (page_lines (page start (drop from d.now)))) out.old
        out.new (import_said result) }
{
    let size = len + 2;
    if out.len() / size < n {
        return Import::ShortRoom;
    }
    import_passes::build_lines(
        powers, t, rows, len, full, d, from, n, list, room, spare, out,
    );
    Import::Written {
        records: n,
        length: n * size,
    }
}

// The lines behind the name line, from a place on, judged: each record in as much of the slot as it needs.
fn judge_records(
    powers: &[u64; 16],
    t: &[i64],
    rows: usize,
    len: usize,
    full: &[u8],
    d: &[u8],
    from: usize,
    list: &mut [i64],
    room: &mut [u8],
    spare: &mut [u8],
    slot: &mut [u8],
) -> Judged
    requires tens { Tens powers.now }
    requires table_known { TableKnown t.now rows len × (rows ≡ rows_of t.now) × (len ≡ length_of t.now) }
    requires from_in_bounds { (from ≤ length d.now) × (len ≤ 16384) × (length slot.old ≡ 16386) × FullRows t.now rows full.now }
    requires list_len { (length list.old ≡ 9999) × (length room.old ≡ 50000) × (length spare.old ≡ 50000) }
    ensures { JudgedAs (lines_say t.now 2 (page_lines (page start (drop from d.now)))) result }
{
    let size = len + 2;
    import_passes::judge_lines(
        powers,
        t,
        rows,
        len,
        full,
        d,
        from,
        list,
        room,
        spare,
        &mut slot[..size],
    )
}

// The lines behind the name line, from a place on: judged, and then built.
fn import_records(
    t: &[i64],
    rows: usize,
    len: usize,
    d: &[u8],
    from: usize,
    out: &mut [u8],
) -> Import
    requires table_known { TableKnown t.now rows len × (rows ≡ rows_of t.now) × (len ≡ length_of t.now) }
    requires from_in_bounds { (from ≤ length d.now) × (len ≤ 16384) }
    ensures { Roomed (lines_say t.now 2 (page_lines (page start (drop from d.now)))) out.old
        out.new (import_said result) }
{
    let powers = ascii::powers();
    let mut list = [0i64; 9999];
    let mut room = [0u8; 50000];
    let mut spare = [0u8; 50000];
    let mut slot = [0u8; 16386];
    let mut full = [0u8; 512];
    import_lines::mark_full(t, rows, len, &mut full);
    let judged = judge_records(
        &powers, t, rows, len, &full, d, from, &mut list, &mut room, &mut spare, &mut slot,
    );
    match judged {
        Judged::Refused {
            number,
            line,
            column,
        } => Import::Refused {
            number,
            line,
            column,
        },
        Judged::Done(n) => build_records(
            &powers, t, rows, len, &full, d, from, n, &mut list, &mut room, &mut spare, out,
        ),
    }
}

// The import by a table that was tested, is the definition's and has no shared value place.
fn import_tested(def: &[u8], t: &[i64], rows: usize, len: usize, d: &[u8], out: &mut [u8]) -> Import
    requires table_known { TableKnown t.now rows len × (rows ≡ rows_of t.now) × (len ≡ length_of t.now) }
    requires len_bound { len ≤ 16384 }
    ensures { Roomed (import_says def.now t.now d.now) out.old out.new
        (import_said result) }
{
    let classes = ascii::classes();
    match import_names::judge_names(&classes, def, t, rows, d) {
        NamesEnd::Same(next) => import_records(t, rows, len, d, next, out),
        NamesEnd::Differs(column) => Import::Refused {
            number: 62,
            line: 1,
            column,
        },
        NamesEnd::Torn(column) => Import::Refused {
            number: 61,
            line: 1,
            column,
        },
    }
}

// Builds a data file from comma-separated text by a table and its definition.
pub fn import_file(def: &[u8], t: &[i64], d: &[u8], out: &mut [u8]) -> Import
    ensures { Imported def.now t.now d.now out.old out.new (import_said result) }
{
    if !sound::well_formed(t) {
        return Import::BadTable;
    }
    if !exports::yields(def, t) {
        return Import::OtherTable;
    }
    let h = Header::read(t);
    let rows = h.rows;
    let len = h.length;
    if !sharing::none_shared(t, rows, len) {
        return Import::SharedPlace;
    }
    import_tested(def, t, rows, len, d, out)
}
