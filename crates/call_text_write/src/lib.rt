// A stage file as text in the line form, written into a buffer that the caller lends.
#![tactic(auto)]

ghost use Rattle.std.specs.Prelude.{◌≡◌, ◌≤◌, length};
ghost use Rattle.verdict.specs.Written.{written};
ghost use Rattle.circuit.specs.Stage.{stage_in, StageLoaded};
ghost use Rattle.text_spec.specs.FromText.{if_room};
ghost use Rattle.text_spec.specs.ToText as text;
ghost use Rattle.text_spec.specs.Call.{leaves};
ghost use Rattle.text_spec.specs.Promises.{WriteDemand};

use netlist::Counts;
use verdict::{Answer, Verdict};

// 24, or a text at the start of the buffer.
fn put_whole(bytes: &[u8], buffer: &mut [u8]) -> Answer
    ensures { written result buffer.new ≡ leaves (if_room (length buffer.old) bytes.now) buffer.old }
{
    let count = bytes.len();
    if buffer.len() < count {
        return write_command::refused_by(24, 3);
    }
    write_command::put_bytes(buffer, 0, bytes);
    write_command::wrote(count)
}

// 24, or the text of a loaded stage. It is put into a workspace first, so that its length is known before a byte of the buffer is written.
fn write_room(code: &[u16], counts: Counts, buffer: &mut [u8]) -> Answer
    requires { StageLoaded counts code.now × (1 ≤ counts.inputs) × (1 ≤ counts.outputs) }
    ensures { written result buffer.new ≡ leaves (if_room (length buffer.old) (text.text_for (stage_in counts code.now))) buffer.old }
{
    let mut work = [0u8; text_write::WORK];
    let count = text_write::put_text(code, counts, &mut work);
    put_whole(&work[..count], buffer)
}

// 29, 31, 24, or the text, of a stage that was loaded.
fn write_loaded(code: &[u16], counts: Counts, buffer: &mut [u8]) -> Answer
    requires { StageLoaded counts code.now × (1 ≤ counts.inputs) × (1 ≤ counts.outputs) }
    ensures { written result buffer.new ≡ leaves (text.stage_text (length buffer.old) (stage_in counts code.now)) buffer.old }
{
    if 0 < counts.care {
        return write_command::refused_by(29, 1);
    }
    if let Some(j) = text_write::second_name(code, counts) {
        return write_command::refused(Verdict::fault(31, 1, j));
    }
    write_room(code, counts, buffer)
}

// Writes a stage file as text into a buffer: its verdict, and how many bytes it wrote. A refusal writes nothing.
pub fn write_text(stage: &[u8], buffer: &mut [u8]) -> Answer
    ensures { WriteDemand stage.now buffer.old result buffer.new }
{
    let mut code = [0u16; circuit::form::STAGE_CODE];
    match circuit_load::read_stage(stage, &mut code) {
        Err(refusal) => write_command::refused(Verdict::unreadable(1, refusal)),
        Ok(counts) => write_loaded(&code, counts, buffer),
    }
}
