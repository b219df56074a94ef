// The checks of one input word of a loaded stage and reference: 13, 14 and 15 on its rise, 20 and 21 on its fall.
#![tactic(auto)]

ghost use Rattle.std.specs.Prelude.{◌≡◌, ℕ, ◌*◌, ◌<◌, replicate};
ghost use Rattle.netlist.specs.Reading.{stage_limits, Within};
ghost use Rattle.verdict.specs.Rows.{all_null};
ghost use Rattle.verdict.specs.Checks as checks;
ghost use Rattle.verdict.specs.Search.{least};
ghost use Rattle.circuit.specs.Stage.{stage_outputs, stage_in, StageLoaded, stage_gates};
ghost use Rattle.circuit.specs.Order.{InOrder};
ghost use Rattle.circuit.specs.Rows.{RowFor, rail_part, level_part, nets_in, settled_in};
ghost use Rattle.circuit.specs.Reference.{reference_in};
ghost use Rattle.check_word.specs.Fallen.{RestOf, fallen_from};
ghost use Rattle.check_word.specs.Finds.{finds, unobserved};
ghost use Rattle.check_word.specs.Loaded.{BothLoaded};

use netlist::Counts;

// ---- the fall

// The levels of the gates in a row, with all rails low.
fn with_rails_low(counts: Counts, row: &[u8]) -> [u8; circuit::ROW]
    requires { Within stage_limits counts × RowFor counts row.now }
    ensures { RowFor counts result × (rail_part counts result ≡ replicate (2 * counts.inputs) 0) × (level_part counts result ≡ level_part counts row.now) }
{
    let mut low = [0u8; circuit::ROW];
    let first = 2 * counts.inputs;
    let end = first + counts.gates;
    low[first..end].copy_from_slice(&row[first..end]);
    low
}

// From the rest in a row: whether all outputs are NULL once all inputs have fallen but one and the gates have settled by the fall rule, with
// one gate kept high. Where `input` is no input all have fallen; where `gate` is no gate none is kept.
// Both are numbers and no options: what the promise cites, `fallen_from` and the rule of `circuit::fall`, says none by a number past the last.
#[inline(always)]
fn all_fallen(code: &[u16], counts: Counts, rest: &[u8], input: usize, gate: usize) -> bool
    requires { StageLoaded counts code.now × InOrder counts code.now × RowFor counts rest.now }
    ensures { result ≡ all_null (fallen_from counts code.now rest.now input gate) (stage_outputs counts code.now) }
{
    let mut row = with_rails_low(counts, rest);
    if input < counts.inputs {
        row[2 * input] = rest[2 * input];
        row[2 * input + 1] = rest[2 * input + 1];
        circuit::fall(code, counts, &mut row, gate);
        return circuit_values::all_null(code, counts, &row);
    }
    circuit::fall(code, counts, &mut row, gate);
    circuit_values::all_null(code, counts, &row)
}

// ---- 20

// The least input that may keep its DATA, from the rest of word w, while all outputs are NULL.
pub fn remaining_input(code: &[u16], counts: Counts, w: usize) -> Option<usize>
    requires { StageLoaded counts code.now × InOrder counts code.now }
    ensures { result ≡ least (checks.fall_incomplete (stage_in counts code.now) w) 0 counts.inputs }
{
    let mut row = [0u8; circuit::ROW];
    words::settle_word(code, counts, w, &mut row);
    search::least(
        counts.inputs,
        |i| all_fallen(code, counts, &row, i, counts.gates),
    )
}

// ---- 21

// Whether gate g is high at the rest in a row and all outputs are NULL once all inputs have fallen while it is kept high.
fn still_high_at(code: &[u16], counts: Counts, rest: &[u8], g: usize) -> bool
    requires { StageLoaded counts code.now × InOrder counts code.now × RowFor counts rest.now × (g < counts.gates) }
    ensures { (w : ℕ) → RestOf counts code.now rest.now w
        → result ≡ checks.fall_unobservable (stage_in counts code.now) w g }
{
    let net = 2 * counts.inputs + g;
    if rest[net] == 0 {
        return false;
    }
    all_fallen(code, counts, rest, counts.inputs, g)
}

// The least gate that is high in word w and may stay high while all outputs are NULL.
pub fn still_high_gate(code: &[u16], counts: Counts, w: usize) -> Option<usize>
    requires { StageLoaded counts code.now × InOrder counts code.now }
    ensures { result ≡ least (checks.fall_unobservable (stage_in counts code.now) w) 0 counts.gates }
{
    let mut row = [0u8; circuit::ROW];
    words::settle_word(code, counts, w, &mut row);
    search::least(counts.gates, |g| still_high_at(code, counts, &row, g))
}

// ---- 13, 14 and 15: the rise

// The checks that go over the words of a stage: 13, 14 and 15 in the rise, 20 and 21 in the fall.
#[derive(Clone, Copy)]
pub enum Sweep {
    Wrong,
    Missing,
    Unobserved,
    Remaining,
    StillHigh,
}

// ---- 13

// The least output that is not the reference's DATA in word w.
fn wrong_output(
    code: &[u16],
    counts: Counts,
    reference: &[u16],
    sizes: Counts,
    w: usize,
) -> Option<usize>
    requires { BothLoaded counts code.now sizes reference.now }
    ensures { result ≡ least (checks.wrong (stage_in counts code.now) (reference_in sizes reference.now) w) 0
        counts.outputs }
{
    let mut row = [0u8; circuit::ROW];
    words::settle_word(code, counts, w, &mut row);
    let mut values = [0u8; circuit::SIGNALS];
    words::word_bits(w, &mut values);
    circuit_values::signal_values(reference, sizes, &mut values);
    circuit_values::first_misread(code, counts, &row, reference, sizes, &values)
}

// ---- 14

// Whether all outputs are DATA once the stage has settled with input i NULL and the others as in word w.
fn incomplete(code: &[u16], counts: Counts, w: usize, i: usize) -> bool
    requires { StageLoaded counts code.now × InOrder counts code.now × (i < counts.inputs) }
    ensures { result ≡ checks.incomplete (stage_in counts code.now) w i }
{
    let mut row = [0u8; circuit::ROW];
    words::spell_word(counts, w, &mut row);
    row[2 * i] = 0;
    row[2 * i + 1] = 0;
    circuit::settle(code, counts, &mut row);
    circuit_values::all_data(code, counts, &row)
}

// The least input with which NULL, and the others as in word w, all outputs are DATA.
fn missing_input(code: &[u16], counts: Counts, w: usize) -> Option<usize>
    requires { StageLoaded counts code.now × InOrder counts code.now }
    ensures { result ≡ least (checks.incomplete (stage_in counts code.now) w) 0 counts.inputs }
{
    search::least(counts.inputs, |i| incomplete(code, counts, w, i))
}

// ---- 15

// Whether gate g is high in a settled row and all outputs are still DATA once the stage has settled with it held low. Only the gates from its
// place on are evaluated anew: those before it keep their levels.
fn unobserved_at(code: &[u16], counts: Counts, row: &[u8], g: usize) -> bool
    requires { StageLoaded counts code.now × InOrder counts code.now × RowFor counts row.now
        × (nets_in counts row.now ≡ settled_in counts code.now row.now) × (g < counts.gates) }
    ensures { result ≡ unobserved (stage_gates counts code.now) (stage_outputs counts code.now) (rail_part counts row.now) g }
{
    let first = 2 * counts.inputs;
    if row[first + g] == 0 {
        return false;
    }
    let mut held = [0u8; circuit::ROW];
    let size = first + counts.gates + 1;
    held[..size].copy_from_slice(&row[..size]);
    let start = circuit::form::place_of(code, counts, g);
    circuit::settle_from(code, counts, &mut held, start, g);
    circuit_values::all_data(code, counts, &held)
}

// The least gate that is high in word w and with which held low all outputs are still DATA.
fn unobserved_gate(code: &[u16], counts: Counts, w: usize) -> Option<usize>
    requires { StageLoaded counts code.now × InOrder counts code.now }
    ensures { result ≡ least (checks.unobservable (stage_in counts code.now) w) 0 counts.gates }
{
    let mut row = [0u8; circuit::ROW];
    words::settle_word(code, counts, w, &mut row);
    search::least(counts.gates, |g| unobserved_at(code, counts, &row, g))
}

// ---- all of them

// What one of the checks finds in word w.
pub fn find(
    which: Sweep,
    code: &[u16],
    counts: Counts,
    reference: &[u16],
    sizes: Counts,
    w: usize,
) -> Option<usize>
    requires { BothLoaded counts code.now sizes reference.now }
    ensures { result ≡ finds which (stage_in counts code.now) (reference_in sizes reference.now) w }
{
    match which {
        Sweep::Wrong => wrong_output(code, counts, reference, sizes, w),
        Sweep::Missing => missing_input(code, counts, w),
        Sweep::Unobserved => unobserved_gate(code, counts, w),
        Sweep::Remaining => remaining_input(code, counts, w),
        Sweep::StillHigh => still_high_gate(code, counts, w),
    }
}
