// A reference drawn from a seed, written into a buffer that the caller lends. What is drawn is said in crate `draw_spec`.
#![tactic(auto)]

ghost use Rattle.std.specs.Prelude.{◌≡◌, ℕ, ◌+◌, ◌*◌, ◌/◌, ◌%◌, ◌<◌, ◌≤◌, [], ◌∷◌, length, ◌≢◌};
ghost use Rattle.netlist.specs.declared.File.TheVariants as file;
ghost use Rattle.netlist.specs.Writing as writing;
ghost use Rattle.check_spec.specs.Lists.{numbers, select};
ghost use Rattle.make_spec.specs.Marks.{marked};
ghost use Rattle.write_command.specs.Put.{Put};
ghost use Rattle.write_command.specs.Parts.{signal_item, bytes_of};
ghost use Rattle.verdict.specs.Written.{written};
ghost use Rattle.draw_spec.specs.Draws as draws;
ghost use Rattle.draw_spec.specs.Drawn.{used_by, drawn_reference, drawn_bytes, in_range, drawn};
ghost use Rattle.draw_spec.specs.Demand.{DrawnDemand};
ghost use Rattle.call_draw.specs.Steps.{operands_of, GateDrawn, unmarked};

use verdict::Answer;

// The most signals, and the longest file, in which each of them is an output.
pub const SIGNALS: usize = 50;

pub const LONGEST: usize = 393;

// ---- drawing

// The state after one draw: the sum taken modulo 4,294,967,296.
fn advance(s: u32) -> u32
    ensures { result ≡ draws.advance s }
{
    std::num::wrapping_add_u32(s, 2654435769)
}

// What a draw yields that left state s, modulo k.
fn yielded(s: u32, k: u32) -> u32
    requires { 1 ≤ k }
    ensures { (result ≡ draws.yield s % k) × (result < k) }
{
    (s ^ (s / 65536)) % k
}

// A drawn gate, and the state after it. NOT, 1, has FFFF as its second operand: no `Option`, since the command in the file has FFFF there too, and
// GateDrawn says of the four numbers that they are written as they stand.
#[derive(Clone, Copy)]
pub struct Gate {
    pub operation: u8,
    pub first: u16,
    pub second: u16,
    pub state: u32,
}

// The gate that is drawn from state s after so many signals: the operation, then each operand that it needs.
fn draw_gate(s: u32, signals: u32) -> Gate
    requires { (1 ≤ signals) × (signals ≤ 50) }
    ensures { GateDrawn signals s result }
{
    let one = advance(s);
    let operation = 1 + yielded(one, 6);
    let two = advance(one);
    let first = yielded(two, signals);
    if operation == 1 {
        return Gate {
            operation: 1,
            first: first as u16,
            second: 65535,
            state: two,
        };
    }
    let three = advance(two);
    let second = yielded(three, signals);
    Gate {
        operation: operation as u8,
        first: first as u16,
        second: second as u16,
        state: three,
    }
}

// A mark on each operand of a gate.
fn mark_gate(gate: Gate, marks: &mut [u8])
    requires { (gate.first < length marks.old) × ((gate.operation ≢ 1) → gate.second < length marks.old) }
    ensures { marks.new ≡ marked marks.old (operands_of gate) }
{
    let first = gate.first as usize;
    marks[first] = 1;
    if gate.operation != 1 {
        let second = gate.second as usize;
        marks[second] = 1;
    }
}

// ---- the file

// The drawn gates, after the inputs command, and a mark on each signal that they use.
fn put_gates(seed: u32, inputs: usize, gates: usize, marks: &mut [u8], buffer: &mut [u8])
    requires { (1 ≤ inputs) × (inputs + gates ≤ 50) × (inputs + gates ≤ length marks.old) × (2 + 6 * gates ≤ length buffer.old) }
    ensures put { Put buffer.old 2 (bytes_of file.Reference writing.gate (draws.gates_from inputs gates seed)) buffer.new }
    ensures marks { marks.new ≡ marked marks.old (used_by (draws.gates_from inputs gates seed)) }
{
    let mut state = seed;
    for k in 0..gates {
        let gate = draw_gate(state, (inputs + k) as u32);
        state = gate.state;
        mark_gate(gate, marks);
        write_command::put_reference_gate(
            buffer,
            2 + 6 * k,
            gate.operation,
            gate.first,
            gate.second,
        );
    }
}

// An output for each signal without a mark, in order, from a place on: the place after them.
fn put_outputs(marks: &[u8], signals: usize, buffer: &mut [u8], from: usize) -> usize
    requires { (signals ≤ 50) × (signals ≤ length marks.now) × (from + 3 * signals ≤ length buffer.old) }
    ensures end { result ≡ from + 3 * length (select (unmarked marks.now) (numbers 0 signals)) }
    ensures put { Put buffer.old from (bytes_of file.Reference signal_item (select (unmarked marks.now) (numbers 0 signals)))
        buffer.new }
{
    let mut at = from;
    for x in 0..signals {
        if marks[x] == 0 {
            write_command::put_reference_output(buffer, at, x as u16);
            at += 3;
        }
    }
    at
}

// The whole file, however many outputs it has: its length.
fn put_file(seed: u32, inputs: usize, gates: usize, buffer: &mut [u8]) -> usize
    requires { (1 ≤ inputs) × (inputs ≤ 10) × (gates ≤ 40) × (393 ≤ length buffer.old) }
    ensures count { (result ≡ length (drawn_bytes seed inputs gates))
        × (result ≡ 3 + 6 * gates + 3 * length (drawn_reference seed inputs gates).outputs) × (result ≤ 393) }
    ensures put { Put buffer.old 0 (drawn_bytes seed inputs gates) buffer.new }
{
    let mut marks = [0u8; SIGNALS];
    write_command::put_inputs(buffer, 0, inputs);
    put_gates(seed, inputs, gates, &mut marks, buffer);
    let end = put_outputs(&marks, inputs + gates, buffer, 2 + 6 * gates);
    write_command::put_end(buffer, end);
    end + 1
}

// ---- the call

// n of 1 to 10 and g of 0 to 40.
fn in_range(inputs: usize, gates: usize) -> bool
    ensures { result ≡ in_range inputs gates }
{
    (1..=10).contains(&inputs) && gates <= 40
}

// The call, where the counts are in range: 40, 41 or the file, which is made aside, since a refusal writes nothing. Where it has more outputs than a
// reference may have, it is longer than with just as many.
fn draw_within(seed: u32, inputs: usize, gates: usize, buffer: &mut [u8]) -> Answer
    requires { (1 ≤ inputs) × (inputs ≤ 10) × (gates ≤ 40) }
    ensures { written result buffer.new ≡ drawn seed inputs gates buffer.old }
{
    let mut file = [0u8; LONGEST];
    let count = put_file(seed, inputs, gates, &mut file);
    if 3 + 6 * gates + 3 * netlist::OUTPUTS < count {
        return write_command::refused_by(40, 0);
    }
    if buffer.len() < count {
        return write_command::refused_by(41, 3);
    }
    write_command::put_bytes(buffer, 0, &file[..count]);
    write_command::wrote(count)
}

// Writes the reference that is drawn from a seed, with so many inputs and gates, or refuses by 39, 40 or 41.
pub fn draw_reference(seed: u32, inputs: usize, gates: usize, buffer: &mut [u8]) -> Answer
    ensures { DrawnDemand seed inputs gates buffer.old result buffer.new }
{
    if in_range(inputs, gates) {
        return draw_within(seed, inputs, gates, buffer);
    }
    write_command::refused_by(39, 0)
}
