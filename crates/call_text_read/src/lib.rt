// The call that reads a text in the line form, and writes its stage file into a buffer that the caller lends. The numbers come in the paper's order:
// 29, 30, 31, then 3 and 6, the reader's numbers for the file made, and 24.
#![tactic(auto)]

ghost use Rattle.std.specs.Prelude.{◌≡◌, ◌≤◌, length};
ghost use Rattle.netlist.specs.Reading.{stage_limits};
ghost use Rattle.write_command.specs.Put.{Put};
ghost use Rattle.verdict.specs.Written.{written};
ghost use Rattle.text_spec.specs.FromText.{from_parsed};
ghost use Rattle.text_spec.specs.Call.{leaves};
ghost use Rattle.text_spec.specs.Promises.{ReadDemand};
ghost use Rattle.text_table.specs.Table.{Full};
ghost use Rattle.text_read.specs.Parts.{cut_file};
ghost use Rattle.call_text_read.specs.Counted.{saying, TextCounted, Few, table_length, work_length, TableFor, file_leaves};

use verdict::Answer;

// The length of the table of the most names that a stage drives: the rails of its inputs, and its gates.
const TABLE: usize = 5 * (2 * netlist::INPUTS + netlist::STAGE_GATES) + 256;

// Fills the table of the names that a text drives, and answers how much of it is used. Where a text has more inputs or gates than a stage may have, that is
// nothing: names are then looked for in the text itself.
fn fill_table(s: &[u8], inputs: usize, gates: usize, table: &mut [u64]) -> usize
    requires { TextCounted s.now inputs gates × (table_length ≤ length table.old) }
    ensures { TableFor s.now inputs gates result table.new }
{
    if netlist::INPUTS < inputs {
        return 0;
    }
    if netlist::STAGE_GATES < gates {
        return 0;
    }
    let used = 5 * (2 * inputs + gates) + 256;
    text_table::index(s, 2 * inputs, &mut table[..used]);
    used
}

// Puts the stage file of a text into a workspace: inputs, gates, outputs, end. Answers its length.
fn put_file(s: &[u8], table: &[u64], inputs: usize, gates: usize, work: &mut [u8]) -> usize
    requires { TextCounted s.now inputs gates × Few inputs gates × Full s.now table.now × (work_length ≤ length work.old) }
    ensures { (result ≡ length (cut_file (saying s.now))) × Put work.old 0 (cut_file (saying s.now)) work.new }
{
    let from = text_scan::piece_len(s, 10) + 1;
    let to = from + text_scan::piece_len(&s[from..], 10);
    write_command::put_inputs(work, 0, inputs);
    let outputs = text_read::put_lines(s, table, to + 1, work);
    let end = text_read::put_outputs(s, table, &s[from..to], work, outputs);
    write_command::put_end(work, end);
    end + 1
}

// The stage file of a text in which 29, 30, 31, 3 and 6 found nothing: the reader's numbers for it, 24, or its bytes.
fn make_file(s: &[u8], table: &[u64], inputs: usize, gates: usize, buffer: &mut [u8]) -> Answer
    requires { TextCounted s.now inputs gates × Few inputs gates × Full s.now table.now }
    ensures { written result buffer.new ≡ file_leaves (saying s.now) buffer.old }
{
    let mut work = [0u8; text_read::WORK];
    let count = put_file(s, table, inputs, gates, &mut work);
    text_read::put_read(&work[..count], buffer)
}

// A text of the line form, whose inputs and gates are counted.
fn read_lines(s: &[u8], inputs: usize, gates: usize, buffer: &mut [u8]) -> Answer
    requires { TextCounted s.now inputs gates }
    ensures { written result buffer.new ≡ leaves (from_parsed stage_limits (length buffer.old) (saying s.now))
        buffer.old }
{
    let mut table = [0u64; TABLE];
    let used = fill_table(s, inputs, gates, &mut table);
    if let Some(i) = text_drive::undriven(s, &table[..used]) {
        return text_read::refuse(30, 1, i);
    }
    if let Some(i) = text_drive::driven_again(s, &table[..used], 2 * inputs) {
        return text_read::refuse(31, 1, i);
    }
    if netlist::INPUTS < inputs {
        return text_read::refuse(3, 1, 1);
    }
    if netlist::STAGE_GATES < gates {
        return text_read::refuse(6, 1, 2 + 10 * netlist::STAGE_GATES);
    }
    make_file(s, &table[..used], inputs, gates, buffer)
}

// Reads a text and writes its stage file into a buffer: the verdict, and how many bytes were written. A refusal writes nothing.
pub fn read_text(s: &[u8], buffer: &mut [u8]) -> Answer
    ensures { ReadDemand s.now buffer.old result buffer.new }
{
    let names = text_lines::names();
    if let Some(i) = text_lines::other_form(&names, s) {
        return text_read::refuse(29, 1, i);
    }
    let n = text_scan::piece_len(s, 10);
    let inputs = text_lines::count(&s[..n], 44) + 1;
    let gates = text_lines::count(s, 10) - 2;
    read_lines(s, inputs, gates, buffer)
}
