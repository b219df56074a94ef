// Writing into a buffer that the caller lends: a command of a stage or reference file at a place, and what a call that writes answers. The
// bytes of a command are said in netlist/specs/Writing.antt, the rest in specs/.
#![tactic(auto)]

ghost use Rattle.std.specs.Prelude.{◌≡◌, ◌∷◌, [], ◌+◌, ◌<◌, ◌≤◌, ◌/◌, ◌%◌, length};
ghost use Rattle.netlist.specs.declared.File.TheVariants as file;
ghost use Rattle.netlist.specs.declared.Sort.TheVariants as sort;
ghost use Rattle.netlist.specs.Writing as writing;
ghost use Rattle.verdict.specs.Checks.{verdict};
ghost use Rattle.verdict.specs.Verdicts.{accepted};
ghost use Rattle.write_command.specs.Put.{Put, coded};
ghost use Rattle.verdict.specs.Written.{answer_of};

use verdict::{Answer, Verdict};

// ---- the answer

// A refusal: no byte is written.
pub fn refused(verdict: Verdict) -> Answer
    ensures { result ≡ answer_of verdict 0 }
{
    Answer { verdict, count: 0 }
}

// The same, where nothing is named but a number and a file.
pub fn refused_by(number: u64, file: u64) -> Answer
    ensures { result ≡ answer_of (verdict number file 0 0) 0 }
{
    refused(Verdict {
        number,
        file,
        at: 0,
        word: 0,
    })
}

// Accepted, with so many bytes written.
pub fn wrote(count: usize) -> Answer
    ensures { result ≡ answer_of accepted count }
{
    Answer {
        verdict: Verdict::accepted(),
        count: count as u64,
    }
}

// ---- bytes

// All bytes of a slice.
#[tactic(auto, using(crate::proofs::Joining::put_copied))]
pub fn put_bytes(buffer: &mut [u8], at: usize, bytes: &[u8])
    requires { at + length bytes.now ≤ length buffer.old }
    ensures { Put buffer.old at bytes.now buffer.new }
{
    let end = at + bytes.len();
    buffer[at..end].copy_from_slice(bytes);
}

// An operand, low byte first.
fn put_operand(buffer: &mut [u8], at: usize, v: u16)
    requires { at + 2 ≤ length buffer.old }
    ensures { Put buffer.old at (writing.write_operands 1 (v ∷ [])) buffer.new }
{
    put_bytes(buffer, at, &v.to_le_bytes());
}

// ---- commands of either file

// The inputs command.
pub fn put_inputs(buffer: &mut [u8], at: usize, inputs: usize)
    requires { (at + 2 ≤ length buffer.old) × (inputs < 256) }
    ensures { Put buffer.old at (writing.command_byte file.Stage sort.Inputs ∷ inputs ∷ []) buffer.new }
{
    put_bytes(buffer, at, &[0x01, inputs as u8]);
}

// The end command.
pub fn put_end(buffer: &mut [u8], at: usize)
    requires { at + 1 ≤ length buffer.old }
    ensures { Put buffer.old at (writing.command_byte file.Stage sort.End ∷ []) buffer.new }
{
    put_bytes(buffer, at, &[0x00]);
}

// ---- commands of a stage file

// A care word.
pub fn put_care(buffer: &mut [u8], at: usize, word: u16)
    requires { at + 3 ≤ length buffer.old }
    ensures { Put buffer.old at (writing.write_item file.Stage (writing.care word)) buffer.new }
{
    put_bytes(buffer, at, &[0x06]);
    put_operand(buffer, at + 1, word);
}

// A gate: its kind, and at each of the pins A to D a net, or FFFF at a pin that the kind has not.
pub fn put_stage_gate(buffer: &mut [u8], at: usize, kind: u8, a: u16, b: u16, c: u16, d: u16)
    requires { at + 10 ≤ length buffer.old }
    ensures { Put buffer.old at (writing.write_item file.Stage (writing.gate (coded kind (a ∷ b ∷ c ∷ d ∷ [])))) buffer.new }
{
    put_bytes(buffer, at, &[0x02, kind]);
    put_operand(buffer, at + 2, a);
    put_operand(buffer, at + 4, b);
    put_operand(buffer, at + 6, c);
    put_operand(buffer, at + 8, d);
}

// An output: the nets of its two rails.
pub fn put_stage_output(buffer: &mut [u8], at: usize, rail0: u16, rail1: u16)
    requires { at + 5 ≤ length buffer.old }
    ensures { Put buffer.old at (writing.write_item file.Stage (writing.output (rail0 ∷ rail1 ∷ []))) buffer.new }
{
    put_bytes(buffer, at, &[0x03]);
    put_operand(buffer, at + 1, rail0);
    put_operand(buffer, at + 3, rail1);
}

// ---- commands of a reference file

// A gate: its operation, and two signals, or one and FFFF for NOT.
pub fn put_reference_gate(buffer: &mut [u8], at: usize, operation: u8, a: u16, b: u16)
    requires { at + 6 ≤ length buffer.old }
    ensures { Put buffer.old at (writing.write_item file.Reference (writing.gate (coded operation (a ∷ b ∷ [])))) buffer.new }
{
    put_bytes(buffer, at, &[0x11, operation]);
    put_operand(buffer, at + 2, a);
    put_operand(buffer, at + 4, b);
}

// An output: its signal.
pub fn put_reference_output(buffer: &mut [u8], at: usize, signal: u16)
    requires { at + 3 ≤ length buffer.old }
    ensures { Put buffer.old at (writing.write_item file.Reference (writing.output (signal ∷ []))) buffer.new }
{
    put_bytes(buffer, at, &[0x12]);
    put_operand(buffer, at + 1, signal);
}
