// 14 and 20 in 64 words at a time: in which of them all outputs are DATA with an input NULL, and in which all are NULL while an input keeps its DATA.
#![tactic(auto)]

ghost use Rattle.std.specs.Prelude.{◌≡◌, ℕ, ◌<◌, length, get_or};
ghost use Rattle.runs.specs.Row.{Row};
ghost use Rattle.runs.specs.Pair.{AllData, AllNull};
ghost use Rattle.netlist.specs.Content.{Reference};
ghost use Rattle.check_word.specs.declared.Sweep.TheVariants.{Missing, Remaining};
ghost use Rattle.circuit.specs.Stage.{net_count, stage_in, StageLoaded};
ghost use Rattle.circuit.specs.Order.{InOrder};
ghost use Rattle.lane_settle.specs.Block.{Room, Spelled, NetsOf, Holding, AtRest, Resting};
ghost use Rattle.lane_screen.specs.Suspects.{CleanIn};
ghost use Rattle.lane_complete.specs.Rows.{SettledRows, FallenRows, RailsLow, MayRise, MayNotFall, OnlyIn, passing, missing_in, remaining_in};

use check_word::Sweep;
use netlist::Counts;

// ---- settling

// Where the set expression of gate k holds.
fn set_words(code: &[u16], counts: Counts, k: usize, row: &[u64]) -> u64
    requires { StageLoaded counts code.now × (k < counts.gates) × Room counts row.now }
    ensures { MayRise counts code.now k row.now result }
{
    let cell = circuit::form::cell_of(code, counts, k);
    let at = lane_settle::pin_lanes(code, counts, k, row);
    lane_cells::set_lanes(cell, at.a, at.b, at.c, at.d)
}

// The gates take their levels in the order.
fn settle_gates(code: &[u16], counts: Counts, row: &mut [u64])
    requires { StageLoaded counts code.now × InOrder counts code.now × Room counts row.old }
    ensures long { length row.new ≡ length row.old }
    ensures settled { (rows : ℕ → Row) → SettledRows counts code.now rows → Spelled counts rows row.old
        → Holding counts rows row.new }
{
    let first = 2 * counts.inputs;
    for i in 0..counts.gates {
        let k = circuit::form::gate_at(code, counts, i);
        row[first + k] = set_words(code, counts, k, row);
    }
}

// Block b settles: its rails are spelled, and the gates take their levels. Nothing is marked.
pub fn settle_block(code: &[u16], counts: Counts, b: usize, row: &mut [u64])
    requires { StageLoaded counts code.now × InOrder counts code.now × Room counts row.old × (get_or row.old (net_count counts) 0 ≡ 0) }
    ensures long { length row.new ≡ length row.old }
    ensures rest { Resting counts code.now b row.new }
{
    lane_settle::spell_rails(counts, b, row);
    settle_gates(code, counts, row);
}

// Where gate k may not fall: with hold while some pin is high, and relaxed while its set expression holds.
fn stay_words(code: &[u16], counts: Counts, k: usize, row: &[u64]) -> u64
    requires { StageLoaded counts code.now × (k < counts.gates) × Room counts row.now }
    ensures { MayNotFall counts code.now k row.now result }
{
    if circuit::form::has_hold(code, counts, k) {
        let at = lane_settle::pin_lanes(code, counts, k, row);
        return at.a | at.b | at.c | at.d;
    }
    set_words(code, counts, k, row)
}

// The gates settle by the fall rule in the order, from their levels at the rest. No twin of `settle_gates`: there a level is what is set, here one that stays.
fn fall_gates(code: &[u16], counts: Counts, rest: &[u64], row: &mut [u64])
    requires { StageLoaded counts code.now × InOrder counts code.now × Room counts rest.now × Room counts row.old }
    ensures long { length row.new ≡ length row.old }
    ensures settled { (b i : ℕ) (rows : ℕ → Row) → AtRest counts code.now b rest.now
        → FallenRows counts code.now b i rows → Spelled counts rows row.old → Holding counts rows row.new }
{
    let first = 2 * counts.inputs;
    for i in 0..counts.gates {
        let k = circuit::form::gate_at(code, counts, i);
        row[first + k] = rest[first + k] & stay_words(code, counts, k, row);
    }
}

// ---- outputs

// The words in which all outputs pass a test, which gives the words in which one does by those of its two rails.
fn words_where<F: Fn(u64, u64) -> u64>(code: &[u16], counts: Counts, row: &[u64], test: F) -> u64
    requires { StageLoaded counts code.now × Room counts row.now × F.IsAlwaysCallable test }
    ensures { (f : ℕ → ℕ → ℕ) → ((a b r : ℕ) → F.post test a b r → r ≡ f a b) → result ≡ passing f counts code.now row.now counts.outputs }
{
    let mut words = lane_cells::ALL;
    for j in 0..counts.outputs {
        let rails = circuit::form::rails_of(code, counts, j);
        let rail0 = lane_cells::lanes_at(row, rails.rail0);
        let rail1 = lane_cells::lanes_at(row, rails.rail1);
        words &= test(rail0, rail1);
    }
    words
}

// The words in which all outputs are DATA.
fn data_words(code: &[u16], counts: Counts, row: &[u64]) -> u64
    requires { StageLoaded counts code.now × Room counts row.now }
    ensures { (rows : ℕ → Row) → NetsOf counts rows row.now → OnlyIn AllData counts code.now rows result }
{
    words_where(code, counts, row, |rail0, rail1| rail0 ^ rail1)
}

// The words in which all outputs are NULL.
fn null_words(code: &[u16], counts: Counts, row: &[u64]) -> u64
    requires { StageLoaded counts code.now × Room counts row.now }
    ensures { (rows : ℕ → Row) → NetsOf counts rows row.now → OnlyIn AllNull counts code.now rows result }
{
    words_where(code, counts, row, |rail0, rail1| {
        (rail0 | rail1) ^ lane_cells::ALL
    })
}

// ---- 14

// The words of block b in which all outputs are DATA with input i NULL.
fn without_input(code: &[u16], counts: Counts, b: usize, i: usize, row: &mut [u64]) -> u64
    requires { StageLoaded counts code.now × InOrder counts code.now × (i < counts.inputs) × Room counts row.old
        × (get_or row.old (net_count counts) 0 ≡ 0) }
    ensures long { length row.new ≡ length row.old }
    ensures ground { get_or row.new (net_count counts) 0 ≡ 0 }
    ensures words { OnlyIn AllData counts code.now (missing_in counts code.now b i) result }
{
    lane_settle::spell_rails(counts, b, row);
    row[2 * i] = 0;
    row[2 * i + 1] = 0;
    settle_gates(code, counts, row);
    data_words(code, counts, row)
}

// Those in which that is so with some input NULL.
fn missing_words(code: &[u16], counts: Counts, b: usize) -> u64
    requires { StageLoaded counts code.now × InOrder counts code.now }
    ensures { (reference : Reference) → CleanIn Missing (stage_in counts code.now) reference b result }
{
    let mut row = [0u64; circuit::ROW];
    let mut words: u64 = 0;
    for i in 0..counts.inputs {
        words |= without_input(code, counts, b, i, &mut row);
    }
    words
}

// ---- 20

// The words of a block at rest in which all outputs are NULL, all inputs fallen but i. The rails are low before and after.
fn keeping_input(code: &[u16], counts: Counts, rest: &[u64], i: usize, row: &mut [u64]) -> u64
    requires { StageLoaded counts code.now × InOrder counts code.now × (i < counts.inputs) × Room counts rest.now × Room counts row.old
        × RailsLow counts row.old }
    ensures long { length row.new ≡ length row.old }
    ensures low { (b : ℕ) → AtRest counts code.now b rest.now → RailsLow counts row.new }
    ensures words { (b : ℕ) → AtRest counts code.now b rest.now
        → OnlyIn AllNull counts code.now (remaining_in counts code.now b i) result }
{
    row[2 * i] = rest[2 * i];
    row[2 * i + 1] = rest[2 * i + 1];
    fall_gates(code, counts, rest, row);
    let words = null_words(code, counts, row);
    row[2 * i] = 0;
    row[2 * i + 1] = 0;
    words
}

// The words of block b in which that is so with some input kept.
fn remaining_words(code: &[u16], counts: Counts, b: usize) -> u64
    requires { StageLoaded counts code.now × InOrder counts code.now }
    ensures { (reference : Reference) → CleanIn Remaining (stage_in counts code.now) reference b result }
{
    let mut rest = [0u64; circuit::ROW];
    lane_settle::spell_rails(counts, b, &mut rest);
    settle_gates(code, counts, &mut rest);
    let mut row = [0u64; circuit::ROW];
    let mut words: u64 = 0;
    for i in 0..counts.inputs {
        words |= keeping_input(code, counts, &rest, i, &mut row);
    }
    words
}

// ---- both

// The words of block b in which one of the checks may find something: those in which 14 or 20 does, and all of them for the others.
pub fn input_words(which: Sweep, code: &[u16], counts: Counts, b: usize) -> u64
    requires { StageLoaded counts code.now × InOrder counts code.now }
    ensures { (reference : Reference) → CleanIn which (stage_in counts code.now) reference b result }
{
    match which {
        Sweep::Missing => missing_words(code, counts, b),
        Sweep::Remaining => remaining_words(code, counts, b),
        _ => lane_cells::ALL,
    }
}
