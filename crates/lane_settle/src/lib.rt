// 64 words of a stage settle side by side: the words stand in blocks of 64, and a block's row holds each net's levels in its words.
#![tactic(auto)]

ghost use Rattle.std.specs.Prelude.{◌≡◌, true, ◌⊎◌, List, ℕ, ◌+◌, ◌*◌, ◌^◌, ◌≤◌, ◌<◌, length, get_or};
ghost use Rattle.netlist.specs.Reading.{stage_limits};
ghost use Rattle.circuit.specs.Stage.{net_count, StageLoaded};
ghost use Rattle.circuit.specs.Order.{InOrder};
ghost use Rattle.lane_cells.specs.Lane.{lane, row_in};
ghost use Rattle.lane_settle.specs.Block.{rest_in, Room, Spelled, LanesSettledTo, Resting, Marked, pin_lanes, gate_lanes, PinsMarked};

use lane_cells::CellLanes;
use netlist::Counts;

// As many blocks as the words of the most inputs make.
pub const BLOCKS: usize = netlist::WORDS / 64;

// How many blocks the words of that many inputs make.
pub fn block_count(inputs: usize) -> usize
    requires { inputs ≤ stage_limits.inputs }
    ensures { (result ≤ 16) × (2 ^ inputs ≤ 64 * result) × (64 * result < 2 ^ inputs + 64) }
{
    if inputs < 6 {
        return 1;
    }
    1 << (inputs - 6)
}

// ---- marks

// Net `net` is marked in some words.
pub fn mark(ack: &mut [u64], net: u16, words: u64)
    requires { net < length ack.old }
    ensures { (length ack.new ≡ length ack.old)
        × ((j p : ℕ) → row_in j ack.new p ≡ true → (row_in j ack.old p ≡ true) ⊎ ((p ≡ net) × (lane j words ≡ true))) }
{
    ack[net as usize] |= words;
}

// The nets at the pins of gate k are marked, each in the words that are named for its pin.
pub fn mark_pins(code: &[u16], counts: Counts, k: usize, words: CellLanes, ack: &mut [u64])
    requires { StageLoaded counts code.now × (k < counts.gates) × Room counts ack.old }
    ensures { (length ack.new ≡ length ack.old) × PinsMarked code.now k words ack.old ack.new }
{
    let pins = circuit::form::pins_of(code, counts, k);
    mark(ack, pins.a, words.a);
    mark(ack, pins.b, words.b);
    mark(ack, pins.c, words.c);
    mark(ack, pins.d, words.d);
}

// ---- settling

// The rails of block b: rail 0 of an input is high for 0, rail 1 for 1.
pub fn spell_rails(counts: Counts, b: usize, row: &mut [u64])
    requires { (counts.inputs ≤ stage_limits.inputs) × Room counts row.old × (get_or row.old (net_count counts) 0 ≡ 0) }
    ensures long { length row.new ≡ length row.old }
    ensures spelled { (code : List ℕ) → InOrder counts code → Spelled counts (rest_in counts code b) row.new }
{
    for i in 0..counts.inputs {
        let level = lane_cells::input_lanes(i, b);
        row[2 * i] = level ^ lane_cells::ALL;
        row[2 * i + 1] = level;
    }
}

// The levels at the four pins of a gate, in the words of a block.
#[derive(Clone, Copy)]
pub struct PinLanes {
    pub a: u64,
    pub b: u64,
    pub c: u64,
    pub d: u64,
}

// Those of gate k in a row; a pin that it lacks is at the ground.
pub fn pin_lanes(code: &[u16], counts: Counts, k: usize, row: &[u64]) -> PinLanes
    requires { StageLoaded counts code.now × (k < counts.gates) × Room counts row.now }
    ensures { result ≡ pin_lanes code.now k row.now }
{
    let pins = circuit::form::pins_of(code, counts, k);
    PinLanes {
        a: lane_cells::lanes_at(row, pins.a),
        b: lane_cells::lanes_at(row, pins.b),
        c: lane_cells::lanes_at(row, pins.c),
        d: lane_cells::lanes_at(row, pins.d),
    }
}

// What gate k's cell gives in the words of a block, by the levels at its pins.
fn gate_lanes(code: &[u16], counts: Counts, k: usize, row: &[u64]) -> CellLanes
    requires { StageLoaded counts code.now × (k < counts.gates) × Room counts row.now }
    ensures { result ≡ gate_lanes code.now k row.now }
{
    let cell = circuit::form::cell_of(code, counts, k);
    let at = pin_lanes(code, counts, k, row);
    lane_cells::cell_lanes(cell, at.a, at.b, at.c, at.d)
}

// The gates take their levels in the order, and mark the nets at their pins in the words in which they would not be set without them.
fn settle_gates(code: &[u16], counts: Counts, row: &mut [u64], ack: &mut [u64])
    requires { StageLoaded counts code.now × InOrder counts code.now × Room counts row.old × Room counts ack.old }
    ensures long { (length row.new ≡ length row.old) × (length ack.new ≡ length ack.old) }
    ensures settled { (b : ℕ) → Spelled counts (rest_in counts code.now b) row.old
        → LanesSettledTo counts code.now (rest_in counts code.now b) row.new counts.gates }
    ensures marked { (b : ℕ) → Spelled counts (rest_in counts code.now b) row.old
        → Marked counts code.now b ack.old → Marked counts code.now b ack.new }
{
    let first = 2 * counts.inputs;
    for i in 0..counts.gates {
        let k = circuit::form::gate_at(code, counts, i);
        let cell = gate_lanes(code, counts, k, row);
        row[first + k] = cell.set;
        mark_pins(code, counts, k, cell, ack);
    }
}

// Block b settles: its rails are spelled, the gates take their levels in the order, and mark the nets at their pins in the words in which they
// would not be set without them.
pub fn settle(code: &[u16], counts: Counts, b: usize, row: &mut [u64], ack: &mut [u64])
    requires { StageLoaded counts code.now × InOrder counts code.now × Room counts row.old × Room counts ack.old
        × (get_or row.old (net_count counts) 0 ≡ 0) }
    ensures long { (length row.new ≡ length row.old) × (length ack.new ≡ length ack.old) }
    ensures rest { Resting counts code.now b row.new }
    ensures marked { Marked counts code.now b ack.old → Marked counts code.now b ack.new }
{
    spell_rails(counts, b, row);
    settle_gates(code, counts, row, ack);
}
