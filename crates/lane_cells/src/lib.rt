// Cells and reference gates in 64 words at a time. The words of a stage stand in blocks of 64, and a u64 holds a net's levels in the words of a
// block: bit j is its level in word 64 b + j of block b.
#![tactic(auto)]

ghost use Rattle.std.specs.Prelude.{◌≡◌, true, ◌∷◌, [], ℕ, ◌+◌, ◌*◌, ◌≤◌, ◌<◌, length, get_or, take};
ghost use Rattle.std.specs.Int.Bits.{bit_xor};
ghost use Rattle.gates.specs.Expression.{holds};
ghost use Rattle.gates.specs.Cell.{set_expression};
ghost use Rattle.runs.specs.Row.{only};
ghost use Rattle.netlist.specs.Reading.{stage_limits};
ghost use Rattle.verdict.specs.Words.{bits_of};
ghost use Rattle.verdict.specs.Answers as answers;
ghost use Rattle.circuit.specs.Reference.{operator_in, operators_in, ReferenceLoaded};
ghost use Rattle.lane_cells.specs.Lane.{level_in, lane, lane_of};
ghost use Rattle.lane_cells.specs.Cells.{needing, need_of, pins_in, cell_lanes, CellGives};

use netlist::Counts;

// Words of a block for a gate and for each of its four pins; which words they are is said where they are made. Those of a cell (`cell_lanes`) are
// where its set expression holds, and for each pin where it holds and would not with that pin low.
#[derive(Clone, Copy)]
pub struct CellLanes {
    pub set: u64,
    pub a: u64,
    pub b: u64,
    pub c: u64,
    pub d: u64,
}

// A cell of two, three or four pins, from where it is set, and where it would be with each pin low.
fn two(set: u64, a: u64, b: u64) -> CellLanes
    ensures { result ≡ needing set (bit_xor set a) (bit_xor set b) 0 0 }
{
    CellLanes {
        set,
        a: set ^ a,
        b: set ^ b,
        c: 0,
        d: 0,
    }
}

fn three(set: u64, a: u64, b: u64, c: u64) -> CellLanes
    ensures { result ≡ needing set (bit_xor set a) (bit_xor set b) (bit_xor set c) 0 }
{
    CellLanes {
        set,
        a: set ^ a,
        b: set ^ b,
        c: set ^ c,
        d: 0,
    }
}

fn four(set: u64, a: u64, b: u64, c: u64, d: u64) -> CellLanes
    ensures { result ≡ needing set (bit_xor set a) (bit_xor set b) (bit_xor set c) (bit_xor set d) }
{
    CellLanes {
        set,
        a: set ^ a,
        b: set ^ b,
        c: set ^ c,
        d: set ^ d,
    }
}

// What is given for four pins alone.
fn at_pins(a: u64, b: u64, c: u64, d: u64) -> CellLanes
    ensures { result ≡ needing 0 a b c d }
{
    CellLanes { set: 0, a, b, c, d }
}

// A cell by its number, from the levels at its pins: in each word it is set where the table of cells says so.
pub fn cell_lanes(cell: u16, a: u64, b: u64, c: u64, d: u64) -> CellLanes
    requires { (1 ≤ cell) × (cell ≤ 27) }
    ensures { CellGives cell a b c d result }
{
    match cell {
        // 1 TH12
        1 => two(a | b, b, a),
        // 2 TH22
        2 => two(a & b, 0, 0),
        // 3 TH13
        3 => three(a | b | c, b | c, a | c, a | b),
        // 4 TH23
        4 => three((a & b) | (a & c) | (b & c), b & c, a & c, a & b),
        // 5 TH33
        5 => three(a & b & c, 0, 0, 0),
        // 6 TH23w2
        6 => three(a | (b & c), b & c, a, a),
        // 7 TH33w2
        7 => three((a & b) | (a & c), 0, a & c, a & b),
        // 8 TH14
        8 => four(a | b | c | d, b | c | d, a | c | d, a | b | d, a | b | c),
        // 9 TH24
        9 => four(
            (a & b) | (a & c) | (a & d) | (b & c) | (b & d) | (c & d),
            (b & c) | (b & d) | (c & d),
            (a & c) | (a & d) | (c & d),
            (a & b) | (a & d) | (b & d),
            (a & b) | (a & c) | (b & c),
        ),
        // 10 TH34
        10 => four(
            (a & b & c) | (a & b & d) | (a & c & d) | (b & c & d),
            b & c & d,
            a & c & d,
            a & b & d,
            a & b & c,
        ),
        // 11 TH44
        11 => four(a & b & c & d, 0, 0, 0, 0),
        // 12 TH24w2
        12 => four(
            a | (b & c) | (b & d) | (c & d),
            (b & c) | (b & d) | (c & d),
            a | (c & d),
            a | (b & d),
            a | (b & c),
        ),
        // 13 TH34w2
        13 => four(
            (a & b) | (a & c) | (a & d) | (b & c & d),
            b & c & d,
            (a & c) | (a & d),
            (a & b) | (a & d),
            (a & b) | (a & c),
        ),
        // 14 TH44w2
        14 => four(
            (a & b & c) | (a & b & d) | (a & c & d),
            0,
            a & c & d,
            a & b & d,
            a & b & c,
        ),
        // 15 TH34w3
        15 => four(a | (b & c & d), b & c & d, a, a, a),
        // 16 TH44w3
        16 => four(
            (a & b) | (a & c) | (a & d),
            0,
            (a & c) | (a & d),
            (a & b) | (a & d),
            (a & b) | (a & c),
        ),
        // 17 TH24w22
        17 => four(a | b | (c & d), b | (c & d), a | (c & d), a | b, a | b),
        // 18 TH34w22
        18 => four(
            (a & b) | (a & c) | (a & d) | (b & c) | (b & d),
            (b & c) | (b & d),
            (a & c) | (a & d),
            (a & b) | (a & d) | (b & d),
            (a & b) | (a & c) | (b & c),
        ),
        // 19 TH44w22
        19 => four(
            (a & b) | (a & c & d) | (b & c & d),
            b & c & d,
            a & c & d,
            a & b,
            a & b,
        ),
        // 20 TH54w22
        20 => four((a & b & c) | (a & b & d), 0, 0, a & b & d, a & b & c),
        // 21 TH34w32
        21 => four(
            a | (b & c) | (b & d),
            (b & c) | (b & d),
            a,
            a | (b & d),
            a | (b & c),
        ),
        // 22 TH54w32
        22 => four((a & b) | (a & c & d), 0, a & c & d, a & b, a & b),
        // 23 TH44w322
        23 => four(
            (a & b) | (a & c) | (a & d) | (b & c),
            b & c,
            (a & c) | (a & d),
            (a & b) | (a & d),
            (a & b) | (a & c) | (b & c),
        ),
        // 24 TH54w322
        24 => four(
            (a & b) | (a & c) | (b & c & d),
            b & c & d,
            a & c,
            a & b,
            (a & b) | (a & c),
        ),
        // 25 THxor0
        25 => four((a & b) | (c & d), c & d, c & d, a & b, a & b),
        // 26 THand0
        26 => four(
            (a & b) | (b & c) | (a & d),
            b & c,
            a & d,
            (a & b) | (a & d),
            (a & b) | (b & c),
        ),
        // 27 TH24comp
        _ => four(
            (a & c) | (b & c) | (a & d) | (b & d),
            (b & c) | (b & d),
            (a & c) | (a & d),
            (a & d) | (b & d),
            (a & c) | (b & c),
        ),
    }
}

// Where the set expression of a cell holds, and nothing of its pins. A table beside `cell_lanes`, of which it is one field in five: the loops that ask
// nothing of the pins would reckon the other four as well.
pub fn set_lanes(cell: u16, a: u64, b: u64, c: u64, d: u64) -> u64
    requires { (1 ≤ cell) × (cell ≤ 27) }
    ensures { result ≡ (cell_lanes cell a b c d).set }
{
    match cell {
        // 1 TH12
        1 => a | b,
        // 2 TH22
        2 => a & b,
        // 3 TH13
        3 => a | b | c,
        // 4 TH23
        4 => (a & b) | (a & c) | (b & c),
        // 5 TH33
        5 => a & b & c,
        // 6 TH23w2
        6 => a | (b & c),
        // 7 TH33w2
        7 => (a & b) | (a & c),
        // 8 TH14
        8 => a | b | c | d,
        // 9 TH24
        9 => (a & b) | (a & c) | (a & d) | (b & c) | (b & d) | (c & d),
        // 10 TH34
        10 => (a & b & c) | (a & b & d) | (a & c & d) | (b & c & d),
        // 11 TH44
        11 => a & b & c & d,
        // 12 TH24w2
        12 => a | (b & c) | (b & d) | (c & d),
        // 13 TH34w2
        13 => (a & b) | (a & c) | (a & d) | (b & c & d),
        // 14 TH44w2
        14 => (a & b & c) | (a & b & d) | (a & c & d),
        // 15 TH34w3
        15 => a | (b & c & d),
        // 16 TH44w3
        16 => (a & b) | (a & c) | (a & d),
        // 17 TH24w22
        17 => a | b | (c & d),
        // 18 TH34w22
        18 => (a & b) | (a & c) | (a & d) | (b & c) | (b & d),
        // 19 TH44w22
        19 => (a & b) | (a & c & d) | (b & c & d),
        // 20 TH54w22
        20 => (a & b & c) | (a & b & d),
        // 21 TH34w32
        21 => a | (b & c) | (b & d),
        // 22 TH54w32
        22 => (a & b) | (a & c & d),
        // 23 TH44w322
        23 => (a & b) | (a & c) | (a & d) | (b & c),
        // 24 TH54w322
        24 => (a & b) | (a & c) | (b & c & d),
        // 25 THxor0
        25 => (a & b) | (c & d),
        // 26 THand0
        26 => (a & b) | (b & c) | (a & d),
        // 27 TH24comp
        _ => (a & c) | (b & c) | (a & d) | (b & d),
    }
}

// The pins of a cell that set it alone, each in the words in which it is high.
pub fn lone_lanes(cell: u16, a: u64, b: u64, c: u64, d: u64) -> CellLanes
    ensures { (j i : ℕ) → i < 4 → lane j (need_of result i) ≡ true → (pins_in j a b c d i ≡ true) × (holds (set_expression cell) (only i) ≡ true) }
{
    match cell {
        // TH12 and TH24w22: A, B
        1 | 17 => at_pins(a, b, 0, 0),
        // TH13: A, B, C
        3 => at_pins(a, b, c, 0),
        // TH14: A, B, C, D
        8 => at_pins(a, b, c, d),
        // TH23w2, TH24w2, TH34w3 and TH34w32: A
        6 | 12 | 15 | 21 => at_pins(a, 0, 0, 0),
        _ => at_pins(0, 0, 0, 0),
    }
}

// ---- the inputs in a block

// Every word of a block.
pub const ALL: u64 = 0xFFFF_FFFF_FFFF_FFFF;

// Input i in the words of block b: bit i of each. The first six have the same pattern in every block, the others one level in each.
pub fn input_lanes(i: usize, b: usize) -> u64
    requires { i < stage_limits.inputs }
    ensures { (j : ℕ) → j < 64 → level_in j result ≡ level_in i (64 * b + j) }
{
    match i {
        0 => 0xAAAA_AAAA_AAAA_AAAA,
        1 => 0xCCCC_CCCC_CCCC_CCCC,
        2 => 0xF0F0_F0F0_F0F0_F0F0,
        3 => 0xFF00_FF00_FF00_FF00,
        4 => 0xFFFF_0000_FFFF_0000,
        5 => 0xFFFF_FFFF_0000_0000,
        _ => {
            let k = i - 6;
            let q = b >> k;
            if q % 2 == 1 {
                return ALL;
            }
            0
        }
    }
}

// ---- the reference in a block

// What stands at a net or a signal.
pub fn lanes_at(row: &[u64], net: u16) -> u64
    requires { net < length row.now }
    ensures { result ≡ get_or row.now net 0 }
{
    let p = net as usize;
    row[p]
}

// An operation on two signals: 1 NOT, 2 AND, 3 OR, 4 XOR, 5 NAND, 6 NOR. NOT has only the first.
fn operate(operation: u16, a: u64, b: u64) -> u64
    ensures { (j : ℕ) → j < 64 → level_in j result ≡ answers.operate operation (level_in j a ∷ level_in j b ∷ []) }
{
    match operation {
        1 => a ^ ALL,
        2 => a & b,
        3 => a | b,
        4 => a ^ b,
        5 => (a & b) ^ ALL,
        6 => (a | b) ^ ALL,
        _ => 0,
    }
}

// The values of gate k, from those of the signals before it.
fn operator_lanes(reference: &[u16], sizes: Counts, k: usize, values: &[u64]) -> u64
    requires { ReferenceLoaded sizes reference.now × (k < sizes.gates) × (sizes.inputs + k ≤ length values.now) }
    ensures { (j : ℕ) → j < 64 → level_in j result ≡ answers.operate (operator_in reference.now k).code
        (answers.values_at (take (sizes.inputs + k) (lane_of j values.now)) (operator_in reference.now k).operands) }
{
    let operands = circuit::form::operands_of(reference, sizes, k);
    operate(
        circuit::form::operation_of(reference, sizes, k),
        lanes_at(values, operands.a),
        lanes_at(values, operands.b),
    )
}

// The inputs of a reference in block b.
fn spell_inputs(inputs: usize, b: usize, values: &mut [u64])
    requires { (inputs ≤ stage_limits.inputs) × (inputs ≤ length values.old) }
    ensures { (length values.new ≡ length values.old)
        × ((j : ℕ) → j < 64 → take inputs (lane_of j values.new) ≡ bits_of inputs (64 * b + j)) }
{
    for i in 0..inputs {
        values[i] = input_lanes(i, b);
    }
}

// The values of all signals of a reference in block b: the inputs', and each gate's after those before it.
pub fn signal_lanes(reference: &[u16], sizes: Counts, b: usize, values: &mut [u64])
    requires { ReferenceLoaded sizes reference.now × (sizes.inputs + sizes.gates ≤ length values.old) }
    ensures long { length values.new ≡ length values.old }
    ensures values { (j : ℕ) → j < 64 → take (sizes.inputs + sizes.gates) (lane_of j values.new)
        ≡ answers.signal_values (bits_of sizes.inputs (64 * b + j))
        (operators_in sizes reference.now) }
{
    let inputs = sizes.inputs;
    spell_inputs(inputs, b, values);
    for k in 0..sizes.gates {
        values[inputs + k] = operator_lanes(reference, sizes, k, values);
    }
}
