// The whole that two loaded parts make: the joined stage and the joined reference, put at the start of two buffers.
#![tactic(auto)]

ghost use Rattle.std.specs.Prelude.{◌≡◌, cond, List, map, ℕ, ◌+◌, ◌*◌, ◌≤◌, ◌<◌, length, ltb};
ghost use Rattle.gates.specs.Cell.{pin_count, kind_byte};
ghost use Rattle.netlist.specs.declared.File.TheVariants as file;
ghost use Rattle.netlist.specs.Bytes.{absent};
ghost use Rattle.netlist.specs.Reading.{stage_limits, reference_limits, Within};
ghost use Rattle.netlist.specs.Writing as writing;
ghost use Rattle.write_joined.specs.Whole.{joined_stage, joined_reference};
ghost use Rattle.write_command.specs.Put.{Put};
ghost use Rattle.write_command.specs.Parts.{gate_item, pair_item, signal_item, bytes_of};
ghost use Rattle.circuit.specs.Stage.{cell_in, pin_in, gate_in, stage_gates, stage_outputs, stage_care, stage_in, StageLoaded};
ghost use Rattle.circuit.specs.Reference.{operator_in, operators_in, signals_in, reference_in, ReferenceLoaded};
ghost use Rattle.write_joined.specs.Moved.{net_moved, gate_moved, pair_moved, StageMoves, signal_moved, operation_moved, ReferenceMoves};

use netlist::Counts;

// Where a part stands in the whole: how many of its inputs are outputs of the first part, and where its other nets, or signals, start.
#[derive(Clone, Copy)]
pub struct Move {
    pub inputs: usize,
    pub start: usize,
}

// The first part and a move: where a part stands in the whole whose first part this is.
#[derive(Clone, Copy)]
struct Place<'a> {
    first: &'a [u16],
    counts: Counts,
    moved: Move,
}

// ---- a gate of a stage

// A net of a part, where it stands in the whole.
fn net_in_whole(place: Place, net: u16) -> u16
    requires { StageLoaded place.counts place.first.now × (place.moved.inputs ≤ place.counts.outputs) × (place.moved.start + net < 0x10000) }
    ensures { result ≡ net_moved (stage_in place.entry.counts place.entry.first.now) place.entry.moved net }
{
    let n = net as usize;
    let rails = 2 * place.moved.inputs;
    if n < rails {
        let output = circuit::form::rails_of(place.first, place.counts, n / 2);
        if n % 2 == 1 {
            return output.rail1;
        }
        return output.rail0;
    }
    (place.moved.start + (n - rails)) as u16
}

// The kind of gate k: its cell, with hold or relaxed.
fn kind_at(code: &[u16], counts: Counts, k: usize) -> u8
    requires { StageLoaded counts code.now × (k < counts.gates) }
    ensures { result ≡ kind_byte (cell_in code.now k) (gate_in code.now k).hold }
{
    let cell = circuit::form::cell_of(code, counts, k) as u8;
    if circuit::form::has_hold(code, counts, k) {
        return cell;
    }
    cell + 128
}

// The net at pin i of gate k, where it stands in the whole, or FFFF where the gate has no such pin.
fn pin_in_whole(code: &[u16], counts: Counts, k: usize, i: usize, place: Place) -> u16
    requires { StageLoaded counts code.now × StageMoves counts place.counts place.first.now place.moved × (k < counts.gates) × (i < 4) }
    ensures { result ≡ cond (ltb i (pin_count (cell_in code.now k)))
        (net_moved (stage_in place.entry.counts place.entry.first.now) place.entry.moved (pin_in code.now k i))
        absent }
{
    if i < circuit::form::pin_count(code, counts, k) {
        return net_in_whole(place, circuit::form::pin_of(code, counts, k, i));
    }
    0xFFFF
}

// Gate k of a part, at a place of a buffer.
fn put_gate(buffer: &mut [u8], at: usize, code: &[u16], counts: Counts, k: usize, place: Place)
    requires { StageLoaded counts code.now × StageMoves counts place.counts place.first.now place.moved × (k < counts.gates)
        × (at + 10 ≤ length buffer.old) }
    ensures { Put buffer.old at (writing.write_item file.Stage
        (gate_item (gate_moved (stage_in place.entry.counts place.entry.first.now) place.entry.moved (gate_in code.now k)))) buffer.new }
{
    let a = pin_in_whole(code, counts, k, 0, place);
    let b = pin_in_whole(code, counts, k, 1, place);
    let c = pin_in_whole(code, counts, k, 2, place);
    let d = pin_in_whole(code, counts, k, 3, place);
    write_command::put_stage_gate(buffer, at, kind_at(code, counts, k), a, b, c, d);
}

// ---- the parts of a stage file

// All gates of a part.
fn put_gates(buffer: &mut [u8], at: usize, code: &[u16], counts: Counts, place: Place)
    requires { StageLoaded counts code.now × StageMoves counts place.counts place.first.now place.moved × (at + 10 * counts.gates ≤ length buffer.old) }
    ensures { Put buffer.old at (bytes_of file.Stage gate_item
        (map (gate_moved (stage_in place.entry.counts place.entry.first.now) place.entry.moved) (stage_gates counts code.now))) buffer.new }
{
    for k in 0..counts.gates {
        put_gate(buffer, at + 10 * k, code, counts, k, place);
    }
}

// The outputs of a part.
fn put_outputs(buffer: &mut [u8], at: usize, code: &[u16], counts: Counts, place: Place)
    requires { StageLoaded counts code.now × StageMoves counts place.counts place.first.now place.moved × (at + 5 * counts.outputs ≤ length buffer.old) }
    ensures { Put buffer.old at (bytes_of file.Stage pair_item
        (map (pair_moved (stage_in place.entry.counts place.entry.first.now) place.entry.moved) (stage_outputs counts code.now))) buffer.new }
{
    for j in 0..counts.outputs {
        let rails = circuit::form::rails_of(code, counts, j);
        let rail0 = net_in_whole(place, rails.rail0);
        let rail1 = net_in_whole(place, rails.rail1);
        write_command::put_stage_output(buffer, at + 5 * j, rail0, rail1);
    }
}

// The care words of a part.
fn put_care_words(buffer: &mut [u8], at: usize, code: &[u16], counts: Counts)
    requires { StageLoaded counts code.now × (at + 3 * counts.care ≤ length buffer.old) }
    ensures { Put buffer.old at (bytes_of file.Stage writing.care (stage_care counts code.now)) buffer.new }
{
    for k in 0..counts.care {
        let w = circuit::form::care_of(code, counts, k) as u16;
        write_command::put_care(buffer, at + 3 * k, w);
    }
}

// ---- the parts of a reference file

// A signal of a part, where it stands in the whole.
fn signal_in_whole(place: Place, signal: u16) -> u16
    requires { ReferenceLoaded place.counts place.first.now × (place.moved.inputs ≤ place.counts.outputs) × (place.moved.start + signal < 0x10000) }
    ensures { result ≡ signal_moved (reference_in place.entry.counts place.entry.first.now) place.entry.moved signal }
{
    let n = signal as usize;
    let inputs = place.moved.inputs;
    if n < inputs {
        return circuit::form::signal_of(place.first, place.counts, n);
    }
    (place.moved.start + (n - inputs)) as u16
}

// Gate k of a part, at a place of a buffer; a NOT has FFFF for its second operand.
fn put_operation(
    buffer: &mut [u8],
    at: usize,
    reference: &[u16],
    sizes: Counts,
    k: usize,
    place: Place,
)
    requires { ReferenceLoaded sizes reference.now × ReferenceMoves sizes place.counts place.first.now place.moved × (k < sizes.gates)
        × (at + 6 ≤ length buffer.old) }
    ensures { Put buffer.old at (writing.write_item file.Reference
        (writing.gate (operation_moved (reference_in place.entry.counts place.entry.first.now) place.entry.moved
        (operator_in reference.now k)))) buffer.new }
{
    let operation = circuit::form::operation_of(reference, sizes, k) as u8;
    let operands = circuit::form::operands_of(reference, sizes, k);
    let a = signal_in_whole(place, operands.a);
    if operation == 1 {
        write_command::put_reference_gate(buffer, at, operation, a, 0xFFFF);
    } else {
        let b = signal_in_whole(place, operands.b);
        write_command::put_reference_gate(buffer, at, operation, a, b);
    }
}

// All gates of a part.
fn put_operations(buffer: &mut [u8], at: usize, reference: &[u16], sizes: Counts, place: Place)
    requires { ReferenceLoaded sizes reference.now × ReferenceMoves sizes place.counts place.first.now place.moved
        × (at + 6 * sizes.gates ≤ length buffer.old) }
    ensures { Put buffer.old at (bytes_of file.Reference writing.gate
        (map (operation_moved (reference_in place.entry.counts place.entry.first.now) place.entry.moved)
        (operators_in sizes reference.now))) buffer.new }
{
    for k in 0..sizes.gates {
        put_operation(buffer, at + 6 * k, reference, sizes, k, place);
    }
}

// The outputs of a part.
fn put_signals(buffer: &mut [u8], at: usize, reference: &[u16], sizes: Counts, place: Place)
    requires { ReferenceLoaded sizes reference.now × ReferenceMoves sizes place.counts place.first.now place.moved
        × (at + 3 * sizes.outputs ≤ length buffer.old) }
    ensures { Put buffer.old at (bytes_of file.Reference signal_item
        (map (signal_moved (reference_in place.entry.counts place.entry.first.now) place.entry.moved) (signals_in
        sizes reference.now))) buffer.new }
{
    for j in 0..sizes.outputs {
        let own = circuit::form::signal_of(reference, sizes, j);
        let signal = signal_in_whole(place, own);
        write_command::put_reference_output(buffer, at + 3 * j, signal);
    }
}

// ---- the two files of the whole

// How many bytes the joined stage takes.
pub fn stage_length(counts1: Counts, counts2: Counts) -> usize
    requires { Within stage_limits counts1 × Within stage_limits counts2 × (counts1.care ≤ 0x10000) }
    ensures { (code1 code2 : List ℕ) → result ≡ length (writing.write_stage (joined_stage (stage_in counts1 code1) (stage_in counts2 code2))) }
{
    3 + 3 * counts1.care + 10 * (counts1.gates + counts2.gates) + 5 * counts2.outputs
}

// How many bytes the joined reference takes.
pub fn reference_length(sizes1: Counts, sizes2: Counts) -> usize
    requires { Within reference_limits sizes1 × Within reference_limits sizes2 }
    ensures { (reference1 reference2 : List ℕ) → result ≡ length
        (writing.write_reference (joined_reference (reference_in sizes1 reference1) (reference_in sizes2 reference2))) }
{
    3 + 6 * (sizes1.gates + sizes2.gates) + 3 * sizes2.outputs
}

// The joined stage, from the start of a buffer: inputs, the first part's care words, gates (first part first), the second's outputs, end.
pub fn put_stage(buffer: &mut [u8], code1: &[u16], counts1: Counts, code2: &[u16], counts2: Counts)
    requires { StageLoaded counts1 code1.now × StageLoaded counts2 code2.now × (counts2.inputs ≡ counts1.outputs)
        × (length (writing.write_stage (joined_stage (stage_in counts1 code1.now) (stage_in counts2 code2.now))) ≤ length buffer.old) }
    ensures { Put buffer.old 0 (writing.write_stage
        (joined_stage (stage_in counts1 code1.now) (stage_in counts2 code2.now)))
        buffer.new }
{
    let stays = Place {
        first: code1,
        counts: counts1,
        moved: Move {
            inputs: 0,
            start: 0,
        },
    };
    let follows = Place {
        first: code1,
        counts: counts1,
        moved: Move {
            inputs: counts2.inputs,
            start: 2 * counts1.inputs + counts1.gates,
        },
    };
    let gates = 2 + 3 * counts1.care;
    let gates2 = gates + 10 * counts1.gates;
    let outputs = gates2 + 10 * counts2.gates;
    let end = outputs + 5 * counts2.outputs;
    write_command::put_inputs(buffer, 0, counts1.inputs);
    put_care_words(buffer, 2, code1, counts1);
    put_gates(buffer, gates, code1, counts1, stays);
    put_gates(buffer, gates2, code2, counts2, follows);
    put_outputs(buffer, outputs, code2, counts2, follows);
    write_command::put_end(buffer, end);
}

// The joined reference, from the start of a buffer.
pub fn put_reference(
    buffer: &mut [u8],
    reference1: &[u16],
    sizes1: Counts,
    reference2: &[u16],
    sizes2: Counts,
)
    requires { ReferenceLoaded sizes1 reference1.now × ReferenceLoaded sizes2 reference2.now × (sizes2.inputs ≡ sizes1.outputs)
        × (length (writing.write_reference (joined_reference (reference_in sizes1 reference1.now) (reference_in sizes2 reference2.now))) ≤ length
        buffer.old) }
    ensures { Put buffer.old 0 (writing.write_reference
        (joined_reference (reference_in sizes1 reference1.now) (reference_in sizes2 reference2.now))) buffer.new }
{
    let stays = Place {
        first: reference1,
        counts: sizes1,
        moved: Move {
            inputs: 0,
            start: 0,
        },
    };
    let follows = Place {
        first: reference1,
        counts: sizes1,
        moved: Move {
            inputs: sizes2.inputs,
            start: sizes1.inputs + sizes1.gates,
        },
    };
    let gates2 = 2 + 6 * sizes1.gates;
    let outputs = gates2 + 6 * sizes2.gates;
    let end = outputs + 3 * sizes2.outputs;
    write_command::put_inputs(buffer, 0, sizes1.inputs);
    put_operations(buffer, 2, reference1, sizes1, stays);
    put_operations(buffer, gates2, reference2, sizes2, follows);
    put_signals(buffer, outputs, reference2, sizes2, follows);
    write_command::put_end(buffer, end);
}
