// The face for C and Rust: each public call as an exported function on numbers and slices, with an answer of four numbers where one is
// not enough. It holds no rule of its own but that of a truth given as a number. Nothing checks the declarations on the other side:
// include/zarfolin.h has them.
#![tactic(auto)]

ghost use Rattle.std.specs.Prelude.{◌≡◌, false, pos};
ghost use Rattle.fields.specs.rule.Field as field;
ghost use Rattle.fields.specs.rule.Field.{missing, members};
ghost use Rattle.faults.specs.rule.Fault.{fault_number};
ghost use Rattle.record_values.specs.rule.Record.{fault_cell, cell_of, flag_of};
ghost use Rattle.records.specs.rule.Verdict.{judged_as};
ghost use Rattle.records.specs.rule.Value.{said};
ghost use Rattle.files.specs.rule.File.{file_said};
ghost use Rattle.writes.specs.rule.Public.{Written};
ghost use Rattle.zarfolin.specs.rule.Face.{Telling};
ghost use Rattle.zarfolin.specs.rule.Face.{RecordTold, ValueTold, FileTold, DefinitionTold, NextTold};
ghost use Rattle.zarfolin.specs.rule.Face.{verdict_cells, outcome_cells, fault_cells, file_cells, next_cells, definition_cells};
ghost use Rattle.zarfolin.specs.rule.Face as face;
ghost use Rattle.parts.specs.rule.Part.{part_said};
ghost use Rattle.zarfolin.specs.rule.Part.{part_cells, PartTold};
ghost use Rattle.matrices.specs.rule.Matrix.{matrix_said};
ghost use Rattle.zarfolin.specs.rule.Matrix.{matrix_cells, MatrixTold};
ghost use Rattle.exports.specs.rule.Text.{export_said};
ghost use Rattle.zarfolin.specs.rule.Export.{export_cells, export_length, TellingFive, ExportTold};
ghost use Rattle.imports.specs.rule.Import.{import_said};
ghost use Rattle.zarfolin.specs.rule.Import.{import_cells, ImportTold};
ghost use Rattle.zarfolin.specs.rule.Clean.{clean_cells, CleanTold};
ghost use Rattle.corrections.specs.rule.Truth.{bad_truth};
ghost use Rattle.corrections.specs.rule.Correction.{ListCorrected};
ghost use Rattle.zarfolin.specs.rule.Truth.{TruthTold};
ghost use Rattle.zarfolin.specs.rule.Whole.{whole_cells, WholeTold};
ghost use Rattle.texts.specs.rule.Decode as texts;
ghost use Rattle.zarfolin.specs.rule.Texts.{text_cells, TextTold};
ghost use Rattle.normal.specs.rule.Normal.{normal_said};
ghost use Rattle.zarfolin.specs.rule.Normal.{NormalTold};
ghost use Rattle.mends.specs.rule.Mend as mends;
ghost use Rattle.zarfolin.specs.rule.Mend.{mend_cells, MendTold};

pub mod version;

use corrections::Correction;
use cuts::Next;
use exports::Export;
use faults::Fault;
use files::Judgement;
use imports::Import;
use layout::{Header, Row};
use matrices::Matrix;
use mends::Mended;
use normal::Normal;
use parts::Part;
use record_values::Whole;
use records::{Judged, Reading};
use texts::Decoded;
use writes::Value;

// The four numbers of an answer; the first is given back.
#[derive(Clone, Copy)]
pub struct Told {
    pub number: u64,
    pub first: i64,
    pub second: i64,
    pub third: i64,
}

// A count as a signed number. No slice is so long that a place in it reaches the last.
fn cell(n: usize) -> i64
    ensures { result ≡ cell_of n }
{
    if n < 9_223_372_036_854_775_807 {
        n as i64
    } else {
        9_223_372_036_854_775_807
    }
}

fn flag(b: bool) -> i64
    ensures { result ≡ flag_of b }
{
    if b { 1 } else { 0 }
}

// Puts the four numbers into the lent answer and gives the first back.
fn tell(answer: &mut [i64; 4], c: Told) -> u64
    ensures { Telling c answer.new result }
{
    let number = c.number;
    let zeroth = cell(number as usize);
    *answer = [zeroth, c.first, c.second, c.third];
    number
}

// Puts five numbers into the lent answer, and gives the first back.
fn tell_five(answer: &mut [i64; 5], c: Told, last: i64) -> u64
    ensures { TellingFive c last answer.new result }
{
    let number = c.number;
    let zeroth = cell(number as usize);
    *answer = [zeroth, c.first, c.second, c.third, last];
    number
}

// A number with nothing beside it.
fn bare(number: u64) -> Told
    ensures { result ≡ face.told_alone number }
{
    Told {
        number,
        first: 0,
        second: 0,
        third: 0,
    }
}

// A number with one beside it.
fn with_one(number: u64, first: i64) -> Told
    ensures { result ≡ face.four number first (pos 0) (pos 0) }
{
    Told {
        number,
        first,
        second: 0,
        third: 0,
    }
}

// A value that was read: its kind, and two numbers.
fn value_told(kind: i64, second: i64, third: i64) -> Told
    ensures { result ≡ face.four 0 kind second third }
{
    Told {
        number: 0,
        first: kind,
        second,
        third,
    }
}

// The fault of a row: the row, and the fault's place or number.
fn row_cells(i: usize, x: Fault) -> Told
    ensures { result ≡ face.four (fault_number x) (cell_of i) (fault_cell x) (pos 0) }
{
    Told {
        number: faults::fault_number(x),
        first: cell(i),
        second: record_values::fault_cell(x),
        third: 0,
    }
}

fn verdict_cells(j: Judged) -> Told
    ensures { result ≡ verdict_cells (judged_as j) }
{
    match j {
        Judged::Sound => bare(0),
        Judged::BadTable => bare(20),
        Judged::ShortRecord => bare(22),
        Judged::LowByte(p) => with_one(23, cell(p)),
        Judged::Faulty(i, x) => row_cells(i, x),
    }
}

fn outcome_cells(a: Reading) -> Told
    ensures { result ≡ outcome_cells (said a) }
{
    match a {
        Reading::Missing => bare(0),
        Reading::Number(z) => value_told(1, z, 0),
        Reading::Set(n) => value_told(2, cell(n), 0),
        Reading::Text(p, n) => value_told(3, cell(p), cell(n)),
        Reading::Truth(b) => value_told(4, flag(b), 0),
        Reading::BadTable => bare(20),
        Reading::NoRow => bare(21),
        Reading::ShortRecord => bare(22),
        Reading::ShortList => bare(25),
        Reading::Faulty(x) => with_one(faults::fault_number(x), record_values::fault_cell(x)),
    }
}

// The fault of record n: the row stands before the place.
fn fault_cells(n: usize, j: Judged) -> Told
    ensures { result ≡ fault_cells n (judged_as j) }
{
    let first = cell(n);
    match j {
        Judged::Sound => with_one(0, first),
        Judged::BadTable => with_one(20, first),
        Judged::ShortRecord => with_one(22, first),
        Judged::LowByte(p) => Told {
            number: 23,
            first,
            second: 0,
            third: cell(p),
        },
        Judged::Faulty(i, x) => Told {
            number: faults::fault_number(x),
            first,
            second: cell(i),
            third: record_values::fault_cell(x),
        },
    }
}

fn file_cells(j: Judgement) -> Told
    ensures { result ≡ file_cells (file_said j) }
{
    match j {
        Judgement::Sound(n) => with_one(0, cell(n)),
        Judgement::BadTable => bare(20),
        Judgement::Unended(n) => with_one(30, cell(n)),
        Judgement::OtherLength(n) => with_one(31, cell(n)),
        Judgement::Fault(n, fault) => fault_cells(n, fault),
    }
}

fn part_cells(p: Part) -> Told
    ensures { result ≡ part_cells (part_said p) }
{
    match p {
        Part::NoTerminator => bare(29),
        Part::Judged(j) => file_cells(j),
    }
}

fn matrix_cells(m: Matrix) -> Told
    ensures { result ≡ matrix_cells (matrix_said m) }
{
    match m {
        Matrix::Refused(j) => file_cells(j),
        Matrix::NoColumn => bare(80),
        Matrix::TooLarge => bare(81),
        Matrix::ShortRoom => bare(82),
        Matrix::Written {
            total,
            records,
            columns,
        } => Told {
            number: 0,
            first: cell(total),
            second: cell(records),
            third: cell(columns),
        },
    }
}

fn export_cells(e: Export) -> Told
    ensures { result ≡ export_cells (export_said e) }
{
    match e {
        Export::BadTable => bare(20),
        Export::OtherTable => bare(40),
        Export::ShortRoom => bare(60),
        Export::Written { judged, length: _ } => file_cells(judged),
    }
}

// The length of the text that was written.
fn export_length(e: Export) -> i64
    ensures { result ≡ export_length (export_said e) }
{
    match e {
        Export::BadTable => 0,
        Export::OtherTable => 0,
        Export::ShortRoom => 0,
        Export::Written { judged: _, length } => cell(length),
    }
}

fn import_cells(i: Import) -> Told
    ensures { result ≡ import_cells (import_said i) }
{
    match i {
        Import::BadTable => bare(20),
        Import::OtherTable => bare(40),
        Import::SharedPlace => bare(90),
        Import::Refused {
            number,
            line,
            column,
        } => Told {
            number: number as u64,
            first: cell(line),
            second: cell(column),
            third: 0,
        },
        Import::ShortRoom => bare(60),
        Import::Written { records, length } => Told {
            number: 0,
            first: cell(records),
            second: cell(length),
            third: 0,
        },
    }
}

fn definition_cells(a: definition::Answer) -> Told
    ensures { result ≡ definition_cells a }
{
    match a {
        definition::Answer::Read { rows, lines } => Told {
            number: 0,
            first: 0,
            second: cell(rows),
            third: cell(lines),
        },
        definition::Answer::Refused { number, place } => with_one(number as u64, cell(place)),
    }
}

fn clean_cells(w: clean::Written) -> Told
    ensures { result ≡ clean_cells w }
{
    match w {
        clean::Written::Done(n) => Told {
            number: 0,
            first: 0,
            second: cell(n),
            third: 0,
        },
        clean::Written::Refused { number, place } => with_one(number as u64, cell(place)),
    }
}

fn next_cells(n: Next) -> Told
    ensures { result ≡ next_cells n }
{
    match n {
        Next::Ended { start, end, next } => Told {
            number: 1,
            first: cell(start),
            second: cell(end),
            third: cell(next),
        },
        Next::Unended { start, end } => Told {
            number: 2,
            first: cell(start),
            second: cell(end),
            third: cell(end),
        },
        Next::Nothing => bare(0),
    }
}

fn text_cells(a: Decoded) -> Told
    ensures { result ≡ text_cells (texts.decode_said a) }
{
    match a {
        Decoded::Signs(n) => with_one(0, cell(n)),
        Decoded::NotText => bare(3),
        Decoded::ShortList => bare(25),
    }
}

// The number for what is no truth, in a record of n bytes.
fn bad_truth(t: &[i64], i: usize, n: usize) -> u64
    ensures { result ≡ bad_truth t.now i n }
{
    if sound::well_formed(t) {
        let h = Header::read(t);
        if h.rows <= i {
            return 21;
        }
        if n < h.length {
            return 22;
        }
        let row = Row::read(t, i);
        let kind = row.kind;
        return corrections::kind_number(kind);
    }
    20
}

// Judges a whole record.
pub fn zarfolin_judge_record(table: &[i64], bytes: &[u8], answer: &mut [i64; 4]) -> u64
    ensures { RecordTold table.now bytes.now answer.new result }
{
    tell(answer, verdict_cells(records::judge_record(table, bytes)))
}

// Reads one row's value from a record.
pub fn zarfolin_read_value(
    table: &[i64],
    row: u64,
    bytes: &[u8],
    list: &mut [i64],
    answer: &mut [i64; 4],
) -> u64
    ensures { ValueTold table.now row bytes.now list.old list.new answer.new
        result }
{
    tell(
        answer,
        outcome_cells(records::read_value(table, row as usize, bytes, list)),
    )
}

// Judges a whole data file.
pub fn zarfolin_judge_file(table: &[i64], d: &[u8], answer: &mut [i64; 4]) -> u64
    ensures { FileTold table.now d.now answer.new result }
{
    // The table is tested here and not in `files::judge_file`: what was just lent is not lent on before it is read.
    if sound::well_formed(table) {
        return tell(answer, file_cells(files::judge_tested(table, d)));
    }
    tell(answer, file_cells(Judgement::BadTable))
}

// Judges a part of a data file that begins where a record does. A `last` of 0 says that more of the file follows.
pub fn zarfolin_judge_part(
    table: &[i64],
    d: &[u8],
    terminator: u64,
    first: u64,
    last: u64,
    answer: &mut [i64; 4],
) -> u64
    ensures { PartTold table.now d.now terminator first last answer.new result }
{
    tell(
        answer,
        part_cells(parts::judge_part(table, d, terminator, first, last)),
    )
}

// Writes a data file as a matrix of 64-bit floats: header, summaries, presence bytes, values.
pub fn zarfolin_matrix(table: &[i64], d: &[u8], out: &mut [u8], answer: &mut [i64; 4]) -> u64
    ensures { MatrixTold table.now d.now out.old out.new answer.new result }
{
    tell(answer, matrix_cells(matrices::write_matrix(table, d, out)))
}

// Writes a data file as comma-separated text: a line of names, and a line for each record before the first fault.
pub fn zarfolin_export(
    def: &[u8],
    table: &[i64],
    d: &[u8],
    out: &mut [u8],
    answer: &mut [i64; 5],
) -> u64
    ensures { ExportTold def.now table.now d.now out.old out.new
        answer.new result }
{
    let e = exports::write_export(def, table, d, out);
    tell_five(answer, export_cells(e), export_length(e))
}

// Builds a data file from comma-separated text: a record of L bytes and CR LF for each line behind the name line.
pub fn zarfolin_import(
    def: &[u8],
    table: &[i64],
    text: &[u8],
    out: &mut [u8],
    answer: &mut [i64; 4],
) -> u64
    ensures { ImportTold def.now table.now text.now out.old out.new
        answer.new result }
{
    tell(
        answer,
        import_cells(imports::import_file(def, table, text, out)),
    )
}

// Reads a definition, 1.1 or XML, into a table.
pub fn zarfolin_read_definition(d: &[u8], table: &mut [i64], answer: &mut [i64; 4]) -> u64
    ensures { DefinitionTold d.now table.old table.new answer.new result }
{
    tell(answer, definition_cells(kinds::read_definition(d, table)))
}

// Writes a clean text of a definition, whose table is lent too.
pub fn zarfolin_write_definition(
    d: &[u8],
    table: &[i64],
    out: &mut [u8],
    answer: &mut [i64; 4],
) -> u64
    ensures { CleanTold d.now table.now out.old out.new answer.new result }
{
    tell(answer, clean_cells(clean::write_definition(d, table, out)))
}

// Decodes a text of a definition: the signs of a name, a label or a line's text.
pub fn zarfolin_decode_text(
    d: &[u8],
    place: u64,
    long: u64,
    list: &mut [i64],
    answer: &mut [i64; 4],
) -> u64
    ensures { TextTold d.now place long list.old list.new answer.new result }
{
    tell(
        answer,
        text_cells(decoding::decode_text(d, place as usize, long as usize, list)),
    )
}

// Finds the record that starts at a place of a data file.
pub fn zarfolin_next_record(d: &[u8], from: u64, answer: &mut [i64; 4]) -> u64
    ensures { NextTold d.now from answer.new result }
{
    tell(answer, next_cells(cuts::next_record(d, from as usize)))
}

// Writes missing into a row of a record. Here and below a list or a text that the value has no use for is not looked at.
pub fn zarfolin_write_missing(table: &[i64], row: u64, bytes: &mut [u8]) -> u64
    ensures { Written table.now row missing bytes.old bytes.new result }
{
    let text = [0u8; 1];
    corrections::number_of(writes::write_value(
        table,
        row as usize,
        Value::Missing,
        table,
        &text,
        bytes,
    ))
}

// Writes a number, scaled.
pub fn zarfolin_write_number(table: &[i64], row: u64, number: i64, bytes: &mut [u8]) -> u64
    ensures { Written table.now row (field.number number) bytes.old bytes.new result }
{
    let text = [0u8; 1];
    corrections::number_of(writes::write_value(
        table,
        row as usize,
        Value::Number(number),
        table,
        &text,
        bytes,
    ))
}

// Writes a truth, 0 or 1.
pub fn zarfolin_write_truth(table: &[i64], row: u64, truth: u8, bytes: &mut [u8]) -> u64
    ensures { TruthTold table.now row truth bytes.old bytes.new result }
{
    if truth < 2 {
        let text = [0u8; 1];
        let b = truth == 1;
        return corrections::number_of(writes::write_value(
            table,
            row as usize,
            Value::Truth(b),
            table,
            &text,
            bytes,
        ));
    }
    bad_truth(table, row as usize, bytes.len())
}

// Writes a set.
pub fn zarfolin_write_set(table: &[i64], row: u64, list: &[i64], bytes: &mut [u8]) -> u64
    ensures { Written table.now row (members list.now) bytes.old bytes.new result }
{
    let text = [0u8; 1];
    corrections::number_of(writes::write_value(table, row as usize, Value::Set, list, &text, bytes))
}

// Writes a text.
pub fn zarfolin_write_text(table: &[i64], row: u64, text: &[u8], bytes: &mut [u8]) -> u64
    ensures { Written table.now row (field.text text.now) bytes.old bytes.new result }
{
    corrections::number_of(writes::write_value(
        table,
        row as usize,
        Value::Text,
        table,
        text,
        bytes,
    ))
}

fn whole_cells(w: Whole) -> Told
    ensures { result ≡ whole_cells w }
{
    match w {
        Whole::Read(members, refused) => Told {
            number: 0,
            first: cell(members),
            second: cell(refused),
            third: 0,
        },
        Whole::BadTable => bare(20),
        Whole::ShortRecord => bare(22),
        Whole::ShortRoom => bare(25),
    }
}

// Reads all rows of a record.
pub fn zarfolin_read_record(
    table: &[i64],
    bytes: &[u8],
    out: &mut [i64],
    list: &mut [i64],
    answer: &mut [i64; 4],
) -> u64
    ensures { WholeTold table.now bytes.now out.old out.new list.old
        list.new answer.new result }
{
    tell(
        answer,
        whole_cells(record_values::read_record(table, bytes, out, list)),
    )
}

// Writes a list of corrections into a record, in its order, and marks each. The table is tested once. All that
// judges stands in `corrections`, and what one turn gives in its proofs (Walk).
pub fn zarfolin_correct(table: &[i64], list: &mut [Correction], bytes: &mut [u8]) -> u64
    ensures { ListCorrected table.now list.old list.new bytes.old bytes.new result }
{
    let answer = corrections::admit(table, bytes.len());
    let n = corrections::turns(answer, list.len());
    for i in 0..n {
        list[i] = corrections::correct(table, bytes, list[i]);
    }
    answer
}

fn normal_cells(n: Normal) -> Told
    ensures { result ≡ verdict_cells (normal_said n) }
{
    match n {
        Normal::Shared => bare(90),
        Normal::As(j) => verdict_cells(j),
    }
}

// Gives a record its normal form, in place.
pub fn zarfolin_normal(table: &[i64], bytes: &mut [u8], answer: &mut [i64; 4]) -> u64
    ensures { NormalTold table.now bytes.old bytes.new answer.new result }
{
    tell(answer, normal_cells(normal::normalise(table, bytes)))
}

fn mend_cells(m: Mended) -> Told
    ensures { result ≡ mend_cells (mends.mend_said m) }
{
    match m {
        Mended::Done { bytes, entries } => Told {
            number: 0,
            first: cell(bytes),
            second: cell(entries),
            third: 0,
        },
        Mended::BadTable => bare(20),
        Mended::NoRoom => bare(70),
    }
}

// Mends a data file into the output: one terminator, one length, no byte below 32; and lists what was changed.
pub fn zarfolin_mend(
    table: &[i64],
    d: &[u8],
    out: &mut [u8],
    list: &mut [i64],
    answer: &mut [i64; 4],
) -> u64
    ensures { MendTold table.now d.now out.old out.new list.old
        list.new answer.new result }
{
    tell(answer, mend_cells(mends::mend(table, d, out, list)))
}
