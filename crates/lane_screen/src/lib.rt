// Which words of a stage are suspect: in 64 words at a time, where an output is not the reference's DATA, and where a high net is not
// acknowledged. Beside it the least gate that rises in none of them.
#![tactic(auto)]

ghost use Rattle.std.specs.Prelude.{◌≡◌, true, false, ◌⊎◌, ℕ, ◌+◌, ◌*◌, ◌^◌, ◌≤◌, ◌<◌, length, get_or};
ghost use Rattle.runs.specs.Pair.{DataOf};
ghost use Rattle.netlist.specs.Reading.{stage_limits};
ghost use Rattle.verdict.specs.Words.{IsWord};
ghost use Rattle.verdict.specs.Nets.{rail_of};
ghost use Rattle.verdict.specs.Search.{least};
ghost use Rattle.verdict.specs.Checks.{never_rises};
ghost use Rattle.lane_screen.specs.Hold.{WithHold};
ghost use Rattle.circuit.specs.Stage.{net_count, output_in, care_in, stage_in, StageLoaded};
ghost use Rattle.circuit.specs.Order.{InOrder};
ghost use Rattle.circuit.specs.Reference.{signal_in, reference_in};
ghost use Rattle.check_word.specs.Loaded.{BothLoaded};
ghost use Rattle.lane_cells.specs.Lane.{lane, row_in};
ghost use Rattle.lane_settle.specs.Block.{net_in, Room, Resting, MarkedIn};
ghost use Rattle.lane_screen.specs.Marks.{Workspace, PinsAcknowledged, Lone, cofactor_pin, cofactor_of, cofactors_of, AlwaysAcknowledged, AllMarked};
ghost use Rattle.lane_screen.specs.Marks.{AcknowledgedBut};
ghost use Rattle.lane_screen.specs.Suspects.{RiseClean, Unnamed, AllClean};

use lane_cells::CellLanes;
use netlist::Counts;

// The words of a block in which something may be wrong: for 13; and for 14 and 15, those for 13 among them.
#[derive(Clone, Copy)]
pub struct Rise {
    pub wrong: u64,
    pub all: u64,
}

// The words of the files in which something may be wrong: for 13, for 14 and 15 (those for 13 among them), and for 20 and 21.
#[derive(Clone, Copy)]
pub struct Masks {
    pub wrong: [u64; lane_settle::BLOCKS],
    pub rise: [u64; lane_settle::BLOCKS],
    pub fall: [u64; lane_settle::BLOCKS],
}

// What a stage shows where its words settle side by side: the words in which something may be wrong, and the least gate that never rises.
#[derive(Clone, Copy)]
pub struct Screened {
    pub masks: Masks,
    pub low: Option<usize>,
}

// ---- what is acknowledged

// No net is marked.
fn clear(counts: Counts, ack: &mut [u64])
    requires { Room counts ack.old }
    ensures { (length ack.new ≡ length ack.old) × ((p : ℕ) → p < net_count counts → get_or ack.new p 0 ≡ 0) }
{
    ack[..2 * counts.inputs + counts.gates].fill(0);
}

// The rails of the outputs are marked in all words.
fn mark_outputs(code: &[u16], counts: Counts, ack: &mut [u64])
    requires { StageLoaded counts code.now × Room counts ack.old }
    ensures long { length ack.new ≡ length ack.old }
    ensures marked { (j p : ℕ) → row_in j ack.new p ≡ true
        → (row_in j ack.old p ≡ true) ⊎ AlwaysAcknowledged (net_in counts code.now) p }
{
    for j in 0..counts.outputs {
        let rails = circuit::form::rails_of(code, counts, j);
        lane_settle::mark(ack, rails.rail0, lane_cells::ALL);
        lane_settle::mark(ack, rails.rail1, lane_cells::ALL);
    }
}

// The words in which some net is high and not marked.
fn unmarked(counts: Counts, row: &[u64], ack: &[u64]) -> u64
    requires { Room counts row.now × Room counts ack.now }
    ensures { (j : ℕ) → j < 64 → lane j result ≡ false → AllMarked j counts row.now ack.now }
{
    let mut words: u64 = 0;
    for p in 0..2 * counts.inputs + counts.gates {
        words |= row[p] & (row[p] ^ ack[p]);
    }
    words
}

// ---- 13

// The words in which output j does not read as the value that is wanted.
fn misread(code: &[u16], counts: Counts, row: &[u64], j: usize, value: u64) -> u64
    requires { StageLoaded counts code.now × (j < counts.outputs) × Room counts row.now }
    ensures { (l : ℕ) → l < 64 → lane l result ≡ false → DataOf (row_in l row.now) (rail_of (output_in counts code.now j))
        (lane l value) }
{
    let rails = circuit::form::rails_of(code, counts, j);
    let rail0 = lane_cells::lanes_at(row, rails.rail0);
    let rail1 = lane_cells::lanes_at(row, rails.rail1);
    (rail0 ^ value ^ lane_cells::ALL) | (rail1 ^ value)
}

// The words in which some output does not read as its signal in the reference.
fn wrong_words(
    code: &[u16],
    counts: Counts,
    row: &[u64],
    reference: &[u16],
    sizes: Counts,
    values: &[u64],
) -> u64
    requires { BothLoaded counts code.now sizes reference.now × Room counts row.now × (sizes.inputs + sizes.gates ≤ length values.now) }
    ensures { (l : ℕ) → l < 64 → lane l result ≡ false → (j : ℕ) → j < counts.outputs
        → DataOf (row_in l row.now) (rail_of (output_in counts code.now j))
        (row_in l values.now (signal_in sizes reference.now j)) }
{
    let mut words: u64 = 0;
    for j in 0..counts.outputs {
        let signal = circuit::form::signal_of(reference, sizes, j);
        let value = lane_cells::lanes_at(values, signal);
        words |= misread(code, counts, row, j, value);
    }
    words
}

// ---- net by net

// What stands at a pin where it is kept: the pins at net `net` alone are, or all others.
fn cofactor_pin(row: &[u64], alone: bool, net: u16, pin: u16) -> u64
    requires { pin < length row.now }
    ensures { result ≡ cofactor_pin row.now alone net pin }
{
    if (pin == net) == alone {
        return lane_cells::lanes_at(row, pin);
    }
    0
}

// The words in which gate k is set by the pins that are kept.
fn cofactor(code: &[u16], counts: Counts, k: usize, row: &[u64], alone: bool, net: u16) -> u64
    requires { StageLoaded counts code.now × (k < counts.gates) × Room counts row.now }
    ensures { result ≡ cofactor_of code.now k row.now alone net }
{
    let cell = circuit::form::cell_of(code, counts, k);
    let pins = circuit::form::pins_of(code, counts, k);
    let a = cofactor_pin(row, alone, net, pins.a);
    let b = cofactor_pin(row, alone, net, pins.b);
    let c = cofactor_pin(row, alone, net, pins.c);
    let d = cofactor_pin(row, alone, net, pins.d);
    lane_cells::set_lanes(cell, a, b, c, d)
}

// For each pin of gate k the words in which the gate is set by the pins that are kept for its net.
fn cofactors(code: &[u16], counts: Counts, k: usize, row: &[u64], alone: bool) -> CellLanes
    requires { StageLoaded counts code.now × (k < counts.gates) × Room counts row.now }
    ensures { result ≡ cofactors_of code.now k row.now alone }
{
    let pins = circuit::form::pins_of(code, counts, k);
    let a = cofactor(code, counts, k, row, alone, pins.a);
    let b = cofactor(code, counts, k, row, alone, pins.b);
    let c = cofactor(code, counts, k, row, alone, pins.c);
    let d = cofactor(code, counts, k, row, alone, pins.d);
    CellLanes { set: 0, a, b, c, d }
}

// For each pin of gate k the words in which it is high, if it alone sets the gate's cell.
fn lone_gate(code: &[u16], counts: Counts, k: usize, row: &[u64]) -> CellLanes
    requires { StageLoaded counts code.now × (k < counts.gates) × Room counts row.now }
    ensures { Lone code.now k row.now result }
{
    let cell = circuit::form::cell_of(code, counts, k);
    let at = lane_settle::pin_lanes(code, counts, k, row);
    lane_cells::lone_lanes(cell, at.a, at.b, at.c, at.d)
}

// For each pin of gate k words in which its net is acknowledged by the gate. In the rise: the gate is high, and would not be set with that net low.
// On the way back: it may not fall while that net alone is high, which with hold is where it is high, and relaxed where that net alone sets it; if
// this is not asked by net, where that pin alone does.
fn acknowledged_lanes(
    falls: bool,
    by_net: bool,
    code: &[u16],
    counts: Counts,
    k: usize,
    row: &[u64],
) -> CellLanes
    requires { StageLoaded counts code.now × InOrder counts code.now × (k < counts.gates) × Room counts row.now }
    ensures { PinsAcknowledged falls counts code.now k row.now result }
{
    let high = row[2 * counts.inputs + k];
    if falls {
        if circuit::form::has_hold(code, counts, k) {
            return CellLanes {
                set: high,
                a: high,
                b: high,
                c: high,
                d: high,
            };
        }
        if by_net {
            return cofactors(code, counts, k, row, true);
        }
        return lone_gate(code, counts, k, row);
    }
    let low = cofactors(code, counts, k, row, false);
    CellLanes {
        set: high,
        a: high ^ low.a,
        b: high ^ low.b,
        c: high ^ low.c,
        d: high ^ low.d,
    }
}

// Whether no net stands at two pins of gate k: to ask it by net is then to ask it pin by pin. Pins that it lacks, C among them if it has two, are at
// the ground.
fn has_distinct_pins(code: &[u16], counts: Counts, k: usize) -> bool
    requires { StageLoaded counts code.now × (k < counts.gates) }
{
    let pins = circuit::form::pins_of(code, counts, k);
    if pins.a == pins.b {
        return false;
    }
    let ground = 2 * counts.inputs + counts.gates;
    if pins.c as usize == ground {
        return true;
    }
    if pins.a == pins.c || pins.b == pins.c {
        return false;
    }
    pins.a != pins.d && pins.b != pins.d && pins.c != pins.d
}

// The gates mark nets that they acknowledge: each, asked pin by pin, or those with some net at two pins, asked by net.
fn mark_gates(falls: bool, by_net: bool, code: &[u16], counts: Counts, row: &[u64], ack: &mut [u64])
    requires { StageLoaded counts code.now × InOrder counts code.now × Room counts row.now × Room counts ack.old }
    ensures long { length ack.new ≡ length ack.old }
    ensures marked { (b : ℕ) → Resting counts code.now b row.now → MarkedIn falls counts code.now b ack.old
        → MarkedIn falls counts code.now b ack.new }
{
    for k in 0..counts.gates {
        if by_net && has_distinct_pins(code, counts, k) {
            continue;
        }
        lane_settle::mark_pins(
            code,
            counts,
            k,
            acknowledged_lanes(falls, by_net, code, counts, k, row),
            ack,
        );
    }
}

// ---- 14 and 15

// Block b settles; and its words in which some high net is not acknowledged. The marks are made anew. Where they leave some words the gates are
// asked net by net that have one at several pins: it may be needed where none of these is.
fn rise_words(code: &[u16], counts: Counts, b: usize, row: &mut [u64], ack: &mut [u64]) -> u64
    requires { StageLoaded counts code.now × InOrder counts code.now × Room counts row.old × Room counts ack.old
        × (get_or row.old (net_count counts) 0 ≡ 0) }
    ensures long { (length row.new ≡ length row.old) × (length ack.new ≡ length ack.old) }
    ensures rest { Resting counts code.now b row.new }
    ensures words { AcknowledgedBut false counts code.now b result }
{
    clear(counts, ack);
    mark_outputs(code, counts, ack);
    lane_settle::settle(code, counts, b, row, ack);
    let words = unmarked(counts, row, ack);
    if words == 0 {
        return 0;
    }
    mark_gates(false, true, code, counts, row, ack);
    unmarked(counts, row, ack)
}

// ---- 20 and 21

// The words in which some net that is high at the rest is not acknowledged on the way back. The marks are made anew, and where they leave some words
// by net.
fn fall_words(code: &[u16], counts: Counts, row: &[u64], ack: &mut [u64]) -> u64
    requires { StageLoaded counts code.now × InOrder counts code.now × Room counts row.now × Room counts ack.old }
    ensures long { length ack.new ≡ length ack.old }
    ensures words { (b : ℕ) → Resting counts code.now b row.now → AcknowledgedBut true counts code.now b result }
{
    clear(counts, ack);
    mark_outputs(code, counts, ack);
    mark_gates(true, false, code, counts, row, ack);
    let words = unmarked(counts, row, ack);
    if words == 0 {
        return 0;
    }
    mark_gates(true, true, code, counts, row, ack);
    unmarked(counts, row, ack)
}

// ---- all of them

// The words of block b that are suspect for 13, 14 and 15; the stage's row is left at rest in them.
fn rise_block(
    code: &[u16],
    counts: Counts,
    reference: &[u16],
    sizes: Counts,
    b: usize,
    row: &mut [u64],
    ack: &mut [u64],
    values: &mut [u64],
) -> Rise
    requires { BothLoaded counts code.now sizes reference.now × Workspace counts row.old ack.old values.old }
    ensures space { Workspace counts row.new ack.new values.new }
    ensures rest { Resting counts code.now b row.new }
    ensures clean { RiseClean (stage_in counts code.now) (reference_in sizes reference.now) b result }
{
    let unacknowledged = rise_words(code, counts, b, row, ack);
    lane_cells::signal_lanes(reference, sizes, b, values);
    let wrong = wrong_words(code, counts, row, reference, sizes, values);
    Rise {
        wrong,
        all: wrong | unacknowledged,
    }
}

// The words of a block at rest that are suspect for 20 and 21: where every gate has hold it is not asked which, and all are.
fn fall_block(hold: bool, code: &[u16], counts: Counts, row: &[u64], ack: &mut [u64]) -> u64
    requires { StageLoaded counts code.now × InOrder counts code.now × Room counts row.now × Room counts ack.old }
    ensures long { length ack.new ≡ length ack.old }
    ensures words { (b : ℕ) → Resting counts code.now b row.now → AcknowledgedBut true counts code.now b result }
{
    if hold {
        return lane_cells::ALL;
    }
    fall_words(code, counts, row, ack)
}

// Whether every gate has hold, so that 20 and 21 find nothing where 13, 14 and 15 do not.
pub fn all_hold(code: &[u16], counts: Counts) -> bool
    requires { StageLoaded counts code.now }
    ensures { (result ≡ true → WithHold (stage_in counts code.now)) × (WithHold (stage_in counts code.now) → result ≡ true) }
{
    (0..counts.gates).all(|i| circuit::form::has_hold(code, counts, i))
}

// The words of a stage that are suspect, by the reference. A block past those that its inputs make is named whole, and so is one without a word that
// the stage cares for: it is not settled. Where there are fewer than six inputs, the lanes behind the last word repeat the words. For 20 and 21 all
// words are named where every gate has hold. Beside them the least gate that rises in no word of the stage.
pub fn screen(code: &[u16], counts: Counts, reference: &[u16], sizes: Counts) -> Screened
    requires { BothLoaded counts code.now sizes reference.now }
    ensures clean { AllClean (stage_in counts code.now) (reference_in sizes reference.now) result.masks }
    ensures low { result.low ≡ least (never_rises (stage_in counts code.now)) 0 counts.gates }
{
    let mut row = [0u64; circuit::ROW];
    let mut ack = [0u64; circuit::ROW];
    let mut values = [0u64; circuit::SIGNALS];
    let mut wrong = [lane_cells::ALL; lane_settle::BLOCKS];
    let mut rise = [lane_cells::ALL; lane_settle::BLOCKS];
    let mut fall = [lane_cells::ALL; lane_settle::BLOCKS];
    let mut rose = [0u64; netlist::STAGE_GATES];
    let words = lane_rise::word_masks(code, counts);
    let hold = all_hold(code, counts);
    let count = lane_settle::block_count(counts.inputs);
    for b in 0..count {
        let cared = words[b];
        if cared == 0 {
            continue;
        }
        let found = rise_block(
            code,
            counts,
            reference,
            sizes,
            b,
            &mut row,
            &mut ack,
            &mut values,
        );
        wrong[b] = found.wrong;
        rise[b] = found.all;
        fall[b] = fall_block(hold, code, counts, &row, &mut ack);
        lane_rise::note(&row, 2 * counts.inputs, counts.gates, cared, &mut rose);
    }
    let low = lane_rise::never_risen(&rose, counts.gates);
    Screened {
        masks: Masks { wrong, rise, fall },
        low,
    }
}

// Whether a mask names word w.
pub fn is_named(mask: &[u64], w: usize) -> bool
    ensures { (result ≡ false → Unnamed mask.now w) × (Unnamed mask.now w → result ≡ false) }
{
    match mask.get(w / 64) {
        Some(words) => (words >> (w % 64)) % 2 == 1,
        None => true,
    }
}

// Whether a mask names none of the words that so many inputs have.
fn none_of_all(mask: &[u64], inputs: usize) -> bool
    requires { inputs ≤ stage_limits.inputs }
    ensures { result ≡ true → (w : ℕ) → w < 2 ^ inputs → Unnamed mask.now w }
{
    let count = lane_settle::block_count(inputs);
    if mask.len() < count {
        return false;
    }
    mask[..count].iter().all(|words| *words == 0)
}

// Whether a mask names none of a stage's care words.
fn none_listed(mask: &[u64], code: &[u16], counts: Counts) -> bool
    requires { StageLoaded counts code.now }
    ensures { result ≡ true → (k : ℕ) → k < counts.care → Unnamed mask.now (care_in counts code.now k) }
{
    (0..counts.care).all(|k| !is_named(mask, circuit::form::care_of(code, counts, k)))
}

// Whether a mask names none of a stage's words: of its care words, or without a care list of all that its inputs have.
pub fn none_named(mask: &[u64], code: &[u16], counts: Counts) -> bool
    requires { StageLoaded counts code.now }
    ensures { result ≡ true → (w : ℕ) → IsWord (stage_in counts code.now) w → Unnamed mask.now w }
{
    if counts.care == 0 {
        return none_of_all(mask, counts.inputs);
    }
    none_listed(mask, code, counts)
}
