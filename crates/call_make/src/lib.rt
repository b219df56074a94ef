// A stage from a reference, written into a buffer that the caller lends.
#![tactic(auto)]

ghost use Rattle.std.specs.Prelude.{◌≡◌, [], ◌∷◌, map, ◌+◌, ◌*◌, ◌≤◌, length};
ghost use Rattle.netlist.specs.declared.File.TheVariants as file;
ghost use Rattle.netlist.specs.Reading.{stage_limits, reference_limits};
ghost use Rattle.netlist.specs.Formed.{ReferenceFormed};
ghost use Rattle.netlist.specs.Writing as writing;
ghost use Rattle.check_spec.specs.Cases.{judge};
ghost use Rattle.check_spec.specs.Lists.{numbers};
ghost use Rattle.check_spec.specs.Writing.{leaving};
ghost use Rattle.make_spec.specs.Make.{built, made_bytes, make_checks, MakeDemand};
ghost use Rattle.write_command.specs.Put.{Put};
ghost use Rattle.write_command.specs.Parts.{bytes_of};
ghost use Rattle.verdict.specs.Written.{written};
ghost use Rattle.circuit.specs.Reference.{signals_in, reference_in, ReferenceLoaded};
ghost use Rattle.write_made.specs.Rails.{content_in, pair_stored, pairs_in};

use netlist::Counts;
use verdict::{Answer, Verdict};

// ---- the stage

// The rails of the inputs.
fn input_rails(rails: &mut [u16], inputs: usize)
    requires { (2 * inputs ≤ length rails.old) × (2 * inputs ≤ 0xFFFF) }
    ensures { (pairs_in rails.new inputs ≡ map (λ i. 2 * i ∷ (2 * i + 1) ∷ []) (numbers 0 inputs))
        × (length rails.new ≡ length rails.old) }
{
    for i in 0..2 * inputs {
        rails[i] = i as u16;
    }
}

// All gates, after the inputs; the rails of every signal are stored. Answers how many gates are put.
fn put_gates(buffer: &mut [u8], reference: &[u16], sizes: Counts, rails: &mut [u16]) -> usize
    requires { ReferenceLoaded sizes reference.now × ReferenceFormed reference_limits (reference_in sizes reference.now)
        × (2 * (sizes.inputs + sizes.gates) ≤ length rails.old)
        × (pairs_in rails.old sizes.inputs ≡ map (λ i. 2 * i ∷ (2 * i + 1) ∷ []) (numbers 0 sizes.inputs))
        × (length (built (content_in sizes reference.now)).gates ≤ stage_limits.gates)
        × (2 + 10 * length (built (content_in sizes reference.now)).gates ≤ length buffer.old) }
    ensures count { result ≡ length (built (content_in sizes reference.now)).gates }
    ensures put { Put buffer.old 2 (bytes_of file.Stage writing.gate (built (content_in sizes reference.now)).gates)
        buffer.new }
    ensures rails { (pairs_in rails.new (sizes.inputs + sizes.gates) ≡ (built (content_in sizes reference.now)).rails)
        × (length rails.new ≡ length rails.old) }
{
    let mut made: usize = 0;
    for k in 0..sizes.gates {
        made = write_made::put_gate(buffer, reference, sizes, k, rails, made);
    }
    made
}

// The outputs: the rails of their signals.
fn put_outputs(buffer: &mut [u8], at: usize, reference: &[u16], sizes: Counts, rails: &[u16])
    requires { ReferenceLoaded sizes reference.now × (2 * (sizes.inputs + sizes.gates) ≤ length rails.now)
        × (at + 5 * sizes.outputs ≤ length buffer.old) }
    ensures { Put buffer.old at (bytes_of file.Stage writing.output
        (map (pair_stored rails.now) (signals_in sizes reference.now))) buffer.new }
{
    for j in 0..sizes.outputs {
        let signal = circuit::form::signal_of(reference, sizes, j);
        let pair = write_made::rails_of(rails, signal);
        write_command::put_stage_output(buffer, at + 5 * j, pair.rail0, pair.rail1);
    }
}

// The whole stage: inputs, gates, outputs, end.
fn put_stage(buffer: &mut [u8], reference: &[u16], sizes: Counts)
    requires { ReferenceLoaded sizes reference.now × ReferenceFormed reference_limits (reference_in sizes reference.now)
        × (length (built (content_in sizes reference.now)).gates ≤ stage_limits.gates)
        × (length (made_bytes (content_in sizes reference.now)) ≤ length buffer.old) }
    ensures { Put buffer.old 0 (made_bytes (content_in sizes reference.now)) buffer.new }
{
    let mut rails = [0u16; 2 * circuit::SIGNALS];
    input_rails(&mut rails, sizes.inputs);
    write_command::put_inputs(buffer, 0, sizes.inputs);
    let made = put_gates(buffer, reference, sizes, &mut rails);
    let outputs = 2 + 10 * made;
    put_outputs(buffer, outputs, reference, sizes, &rails);
    write_command::put_end(buffer, outputs + 5 * sizes.outputs);
}

// ---- the call

// 25, 26, 27, or the stage, of a reference that was loaded. The length is known before a byte is written.
fn make_loaded(reference: &[u16], sizes: Counts, buffer: &mut [u8]) -> Answer
    requires { ReferenceLoaded sizes reference.now × ReferenceFormed reference_limits (reference_in sizes reference.now) }
    ensures { written result buffer.new ≡ leaving (judge (make_checks (content_in sizes reference.now)
        (length buffer.old))) (made_bytes (content_in sizes reference.now)) buffer.old }
{
    if let Some(x) = write_made::leading_nowhere(reference, sizes) {
        return write_command::refused(Verdict::fault(25, 2, x));
    }
    let gates = 2 * write_made::operation_count(reference, sizes);
    if netlist::STAGE_GATES < gates {
        return write_command::refused(Verdict::fault(26, 2, gates));
    }
    let count = 3 + 10 * gates + 5 * sizes.outputs;
    if buffer.len() < count {
        return write_command::refused(Verdict::fault(27, 3, 0));
    }
    put_stage(buffer, reference, sizes);
    write_command::wrote(count)
}

// Writes a stage that computes what a reference says into a buffer: its verdict, and how many bytes it wrote. A refusal writes nothing.
pub fn make_stage(reference: &[u8], buffer: &mut [u8]) -> Answer
    ensures { MakeDemand reference.now buffer.old result buffer.new }
{
    let mut loaded = [0u16; circuit::form::REFERENCE_CODE];
    match circuit_load::read_reference_within(reference, netlist::reference_limits(), &mut loaded) {
        Err(refusal) => write_command::refused(Verdict::unreadable(2, refusal)),
        Ok(sizes) => make_loaded(&loaded, sizes, buffer),
    }
}
