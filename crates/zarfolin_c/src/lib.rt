// The exports for C: each call of crate `zarfolin` under the name that include/zarfolin.h declares, with its clauses. A static library
// can't be used by other crates of Rattle, so the calls stand in `zarfolin`, and nothing is done here.
#![tactic(auto)]

ghost use Rattle.std.specs.Prelude.{◌≡◌, false, pos};
ghost use Rattle.fields.specs.rule.Field as field;
ghost use Rattle.fields.specs.rule.Field.{missing, members};
ghost use Rattle.faults.specs.rule.Fault.{fault_number};
ghost use Rattle.record_values.specs.rule.Record.{fault_cell, cell_of, flag_of};
ghost use Rattle.records.specs.rule.Verdict.{judged_as};
ghost use Rattle.records.specs.rule.Value.{said};
ghost use Rattle.files.specs.rule.File.{file_said};
ghost use Rattle.writes.specs.rule.Public.{Written};
ghost use Rattle.zarfolin.specs.rule.Face.{Telling};
ghost use Rattle.zarfolin.specs.rule.Face.{RecordTold, ValueTold, FileTold, DefinitionTold, NextTold};
ghost use Rattle.zarfolin.specs.rule.Face.{verdict_cells, outcome_cells, fault_cells, file_cells, next_cells, definition_cells};
ghost use Rattle.zarfolin.specs.rule.Face as face;
ghost use Rattle.parts.specs.rule.Part.{part_said};
ghost use Rattle.zarfolin.specs.rule.Part.{part_cells, PartTold};
ghost use Rattle.matrices.specs.rule.Matrix.{matrix_said};
ghost use Rattle.zarfolin.specs.rule.Matrix.{matrix_cells, MatrixTold};
ghost use Rattle.exports.specs.rule.Text.{export_said};
ghost use Rattle.zarfolin.specs.rule.Export.{export_cells, export_length, TellingFive, ExportTold};
ghost use Rattle.imports.specs.rule.Import.{import_said};
ghost use Rattle.zarfolin.specs.rule.Import.{import_cells, ImportTold};
ghost use Rattle.zarfolin.specs.rule.Clean.{clean_cells, CleanTold};
ghost use Rattle.corrections.specs.rule.Truth.{bad_truth};
ghost use Rattle.corrections.specs.rule.Correction.{ListCorrected};
ghost use Rattle.zarfolin.specs.rule.Truth.{TruthTold};
ghost use Rattle.zarfolin.specs.rule.Whole.{whole_cells, WholeTold};
ghost use Rattle.texts.specs.rule.Decode as texts;
ghost use Rattle.zarfolin.specs.rule.Texts.{text_cells, TextTold};
ghost use Rattle.normal.specs.rule.Normal.{normal_said};
ghost use Rattle.zarfolin.specs.rule.Normal.{NormalTold};
ghost use Rattle.mends.specs.rule.Mend as mends;
ghost use Rattle.zarfolin.specs.rule.Mend.{mend_cells, MendTold};
ghost use Rattle.std.specs.Prelude.{◌≡◌};
ghost use Rattle.zarfolin.specs.rule.Version.{version_number};

use corrections::Correction;

// Judges a whole record.
#[unsafe(no_mangle)]
pub extern "C" fn zarfolin_judge_record(table: &[i64], bytes: &[u8], answer: &mut [i64; 4]) -> u64
    ensures { RecordTold table.now bytes.now answer.new result }
{
    zarfolin::zarfolin_judge_record(table, bytes, answer)
}

// Reads one row's value from a record.
#[unsafe(no_mangle)]
pub extern "C" fn zarfolin_read_value(
    table: &[i64],
    row: u64,
    bytes: &[u8],
    list: &mut [i64],
    answer: &mut [i64; 4],
) -> u64
    ensures { ValueTold table.now row bytes.now list.old list.new answer.new
        result }
{
    zarfolin::zarfolin_read_value(table, row, bytes, list, answer)
}

// Judges a whole data file.
#[unsafe(no_mangle)]
pub extern "C" fn zarfolin_judge_file(table: &[i64], d: &[u8], answer: &mut [i64; 4]) -> u64
    ensures { FileTold table.now d.now answer.new result }
{
    zarfolin::zarfolin_judge_file(table, d, answer)
}

// Judges a part of a data file that begins where a record does. A `last` of 0 says that more of the file follows.
#[unsafe(no_mangle)]
pub extern "C" fn zarfolin_judge_part(
    table: &[i64],
    d: &[u8],
    terminator: u64,
    first: u64,
    last: u64,
    answer: &mut [i64; 4],
) -> u64
    ensures { PartTold table.now d.now terminator first last answer.new result }
{
    zarfolin::zarfolin_judge_part(table, d, terminator, first, last, answer)
}

// Writes a data file as a matrix of 64-bit floats: header, summaries, presence bytes, values.
#[unsafe(no_mangle)]
pub extern "C" fn zarfolin_matrix(
    table: &[i64],
    d: &[u8],
    out: &mut [u8],
    answer: &mut [i64; 4],
) -> u64
    ensures { MatrixTold table.now d.now out.old out.new answer.new result }
{
    zarfolin::zarfolin_matrix(table, d, out, answer)
}

// Writes a data file as comma-separated text: a line of names, and a line for each record before the first fault.
#[unsafe(no_mangle)]
pub extern "C" fn zarfolin_export(
    def: &[u8],
    table: &[i64],
    d: &[u8],
    out: &mut [u8],
    answer: &mut [i64; 5],
) -> u64
    ensures { ExportTold def.now table.now d.now out.old out.new
        answer.new result }
{
    zarfolin::zarfolin_export(def, table, d, out, answer)
}

// Builds a data file from comma-separated text: a record of L bytes and CR LF for each line behind the name line.
#[unsafe(no_mangle)]
pub extern "C" fn zarfolin_import(
    def: &[u8],
    table: &[i64],
    text: &[u8],
    out: &mut [u8],
    answer: &mut [i64; 4],
) -> u64
    ensures { ImportTold def.now table.now text.now out.old out.new
        answer.new result }
{
    zarfolin::zarfolin_import(def, table, text, out, answer)
}

// Reads a definition, 1.1 or XML, into a table.
#[unsafe(no_mangle)]
pub extern "C" fn zarfolin_read_definition(
    d: &[u8],
    table: &mut [i64],
    answer: &mut [i64; 4],
) -> u64
    ensures { DefinitionTold d.now table.old table.new answer.new result }
{
    zarfolin::zarfolin_read_definition(d, table, answer)
}

// Writes a clean text of a definition, whose table is lent too.
#[unsafe(no_mangle)]
pub extern "C" fn zarfolin_write_definition(
    d: &[u8],
    table: &[i64],
    out: &mut [u8],
    answer: &mut [i64; 4],
) -> u64
    ensures { CleanTold d.now table.now out.old out.new answer.new result }
{
    zarfolin::zarfolin_write_definition(d, table, out, answer)
}

// Decodes a text of a definition: the signs of a name, a label or a line's text.
#[unsafe(no_mangle)]
pub extern "C" fn zarfolin_decode_text(
    d: &[u8],
    place: u64,
    long: u64,
    list: &mut [i64],
    answer: &mut [i64; 4],
) -> u64
    ensures { TextTold d.now place long list.old list.new answer.new result }
{
    zarfolin::zarfolin_decode_text(d, place, long, list, answer)
}

// Finds the record that starts at a place of a data file.
#[unsafe(no_mangle)]
pub extern "C" fn zarfolin_next_record(d: &[u8], from: u64, answer: &mut [i64; 4]) -> u64
    ensures { NextTold d.now from answer.new result }
{
    zarfolin::zarfolin_next_record(d, from, answer)
}

// Writes missing into a row of a record. Here and below a list or a text that the value has no use for is not looked at.
#[unsafe(no_mangle)]
pub extern "C" fn zarfolin_write_missing(table: &[i64], row: u64, bytes: &mut [u8]) -> u64
    ensures { Written table.now row missing bytes.old bytes.new result }
{
    zarfolin::zarfolin_write_missing(table, row, bytes)
}

// Writes a number, scaled.
#[unsafe(no_mangle)]
pub extern "C" fn zarfolin_write_number(
    table: &[i64],
    row: u64,
    number: i64,
    bytes: &mut [u8],
) -> u64
    ensures { Written table.now row (field.number number) bytes.old bytes.new result }
{
    zarfolin::zarfolin_write_number(table, row, number, bytes)
}

// Writes a truth, 0 or 1.
#[unsafe(no_mangle)]
pub extern "C" fn zarfolin_write_truth(table: &[i64], row: u64, truth: u8, bytes: &mut [u8]) -> u64
    ensures { TruthTold table.now row truth bytes.old bytes.new result }
{
    zarfolin::zarfolin_write_truth(table, row, truth, bytes)
}

// Writes a set.
#[unsafe(no_mangle)]
pub extern "C" fn zarfolin_write_set(table: &[i64], row: u64, list: &[i64], bytes: &mut [u8]) -> u64
    ensures { Written table.now row (members list.now) bytes.old bytes.new result }
{
    zarfolin::zarfolin_write_set(table, row, list, bytes)
}

// Writes a text.
#[unsafe(no_mangle)]
pub extern "C" fn zarfolin_write_text(table: &[i64], row: u64, text: &[u8], bytes: &mut [u8]) -> u64
    ensures { Written table.now row (field.text text.now) bytes.old bytes.new result }
{
    zarfolin::zarfolin_write_text(table, row, text, bytes)
}

// Reads all rows of a record.
#[unsafe(no_mangle)]
pub extern "C" fn zarfolin_read_record(
    table: &[i64],
    bytes: &[u8],
    out: &mut [i64],
    list: &mut [i64],
    answer: &mut [i64; 4],
) -> u64
    ensures { WholeTold table.now bytes.now out.old out.new list.old
        list.new answer.new result }
{
    zarfolin::zarfolin_read_record(table, bytes, out, list, answer)
}

// Writes a list of corrections into a record, in its order, and marks each. The table is tested once. All that
// judges stands in `corrections`, and what one turn gives in its proofs (Walk).
#[unsafe(no_mangle)]
pub extern "C" fn zarfolin_correct(table: &[i64], list: &mut [Correction], bytes: &mut [u8]) -> u64
    ensures { ListCorrected table.now list.old list.new bytes.old bytes.new result }
{
    zarfolin::zarfolin_correct(table, list, bytes)
}

// Gives a record its normal form, in place.
#[unsafe(no_mangle)]
pub extern "C" fn zarfolin_normal(table: &[i64], bytes: &mut [u8], answer: &mut [i64; 4]) -> u64
    ensures { NormalTold table.now bytes.old bytes.new answer.new result }
{
    zarfolin::zarfolin_normal(table, bytes, answer)
}

// Mends a data file into the output: one terminator, one length, no byte below 32; and lists what was changed.
#[unsafe(no_mangle)]
pub extern "C" fn zarfolin_mend(
    table: &[i64],
    d: &[u8],
    out: &mut [u8],
    list: &mut [i64],
    answer: &mut [i64; 4],
) -> u64
    ensures { MendTold table.now d.now out.old out.new list.old
        list.new answer.new result }
{
    zarfolin::zarfolin_mend(table, d, out, list, answer)
}

// The version of the face that this archive has.
#[unsafe(no_mangle)]
pub extern "C" fn zarfolin_version() -> u64
    ensures { result ≡ version_number }
{
    zarfolin::version::zarfolin_version()
}
