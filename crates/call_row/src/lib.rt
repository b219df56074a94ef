// The settled-row call: the verdict on a stage's bytes and a lent row, one byte for each net, and the settled row in its place.
#![tactic(auto)]

ghost use Rattle.std.specs.Prelude.{◌≡◌, ℕ, ◌+◌, ◌*◌, ◌≤◌, ◌<◌, length, get_or, take};
ghost use Rattle.verdict.specs.Rows as rows;
ghost use Rattle.verdict.specs.Search.{least};
ghost use Rattle.verdict.specs.Checks as checks;
ghost use Rattle.verdict.specs.Verdicts as verdicts;
ghost use Rattle.check_spec.specs.Verdicts.{row_verdict, row_after};
ghost use Rattle.check_spec.specs.Demands.{DemandRow};
ghost use Rattle.circuit.specs.Stage.{stage_gates, stage_in, StageLoaded};
ghost use Rattle.circuit.specs.Order.{InOrder};

use netlist::Counts;
use verdict::Verdict;

// ---- 17

// Whether a rail of input i is above 1, or both are 1.
#[tactic(auto, unfolding(verdict::specs::Checks::illegal))]
fn is_illegal(row: &[u8], i: usize) -> bool
    requires { 2 * i + 1 < length row.now }
    ensures { result ≡ checks.illegal row.now i }
{
    let rail0 = row[2 * i];
    let rail1 = row[2 * i + 1];
    1 < rail0 || 1 < rail1 || (rail0 == 1 && rail1 == 1)
}

// The least of the inputs that is illegal.
fn illegal_input(row: &[u8], inputs: usize) -> Option<usize>
    requires { 2 * inputs ≤ length row.now }
    ensures { result ≡ least (checks.illegal row.now) 0 inputs }
{
    search::least(inputs, |i| is_illegal(row, i))
}

// ---- settling

// The lent part of a row, from the first gate's byte on, becomes the levels that settle for the rails. They settle in a row of its own.
fn settle_part(code: &[u16], counts: Counts, rails: &[u8], part: &mut [u8])
    requires { StageLoaded counts code.now × InOrder counts code.now × (length rails.now ≡ 2 * counts.inputs)
        × ((p : ℕ) → get_or rails.now p 0 ≤ 1) × (length part.old ≡ counts.gates) }
    ensures { part.new ≡ rows.settled_levels (stage_gates counts code.now) rails.now }
{
    let mut row = [0u8; circuit::ROW];
    row[..rails.len()].copy_from_slice(rails);
    circuit::settle(code, counts, &mut row);
    let first = 2 * counts.inputs;
    let end = first + counts.gates;
    part.copy_from_slice(&row[first..end]);
}

// The gates of a row settle for its rails, which stay: only the part after them is lent.
fn settle_row(code: &[u16], counts: Counts, row: &mut [u8])
    requires { StageLoaded counts code.now × InOrder counts code.now × (length row.old ≡ 2 * counts.inputs + counts.gates)
        × ((p : ℕ) → p < 2 * counts.inputs → get_or row.old p 0 ≤ 1) }
    ensures { row.new ≡ rows.settled (stage_gates counts code.now) (take (2 * counts.inputs) row.old) }
{
    let first = 2 * counts.inputs;
    let mut rails = [0u8; 2 * netlist::INPUTS];
    rails[..first].copy_from_slice(&row[..first]);
    settle_part(code, counts, &rails[..first], &mut row[first..]);
}

// ---- the call

// A stage that was loaded: 12, which puts its gates in order, then 16, then 17, else the row settles.
fn settle_stage(code: &mut [u16], counts: Counts, row: &mut [u8]) -> Verdict
    requires { StageLoaded counts code.old }
    ensures { verdicts.answer_with result row.new ≡ verdicts.settle_unless (checks.first_fault (checks.row_checks
        (stage_in counts code.old) row.old)) (stage_in counts code.old) row.old }
{
    if let Some(g) = circuit_order::order_gates(code, counts) {
        return Verdict::fault(12, 1, g);
    }
    if row.len() != 2 * counts.inputs + counts.gates {
        return Verdict::fault(16, 3, row.len());
    }
    if let Some(i) = illegal_input(row, counts.inputs) {
        return Verdict::fault(17, 3, i);
    }
    settle_row(code, counts, row);
    Verdict::accepted()
}

// The verdict on a stage's bytes and a lent row. A refusal leaves the row as it was; else the bytes of the inputs keep their values
// and those of the gates become their settled levels.
pub fn settled_row(stage: &[u8], row: &mut [u8]) -> Verdict
    ensures verdict { result ≡ row_verdict stage.now row.old }
    ensures row { row.new ≡ row_after stage.now row.old }
    ensures demands { DemandRow stage.now row.old result row.new }
{
    let mut code = [0u16; circuit::form::STAGE_CODE];
    match circuit_load::read_stage(stage, &mut code) {
        Err(refusal) => Verdict::unreadable(1, refusal),
        Ok(counts) => settle_stage(&mut code, counts, row),
    }
}
