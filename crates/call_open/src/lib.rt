// Opening a stage file for a call that takes a list with some entries for each net: reading, 12 and 16.
#![tactic(auto)]

ghost use Rattle.std.specs.Prelude.{◌≡◌, List, ℕ, ◌*◌, ◌≤◌, length};
ghost use Rattle.circuit.specs.Stage.{net_count, StageLoaded, largest_stage};
ghost use Rattle.call_open.specs.Opened.{OpenedFrom, OpenedAs};

use netlist::Counts;
use verdict::Verdict;

// A stage that was loaded: 12, then 16 for a list with so many entries; else its counts.
fn open_loaded(
    code: &mut [u16],
    counts: Counts,
    given: usize,
    each: usize,
) -> Result<Counts, Verdict>
    requires { StageLoaded counts code.old × (each ≤ 2) }
    ensures { OpenedFrom counts code.old given (each * net_count counts) code.new result }
{
    if let Some(g) = circuit_order::order_gates(code, counts) {
        return Err(Verdict::fault(12, 1, g));
    }
    if given != each * (2 * counts.inputs + counts.gates) {
        return Err(Verdict::fault(16, 3, given));
    }
    Ok(counts)
}

// A stage file and a list with so many entries, of which each net has some: the verdict that refuses them, or the counts of the stage.
pub fn open_stage(
    stage: &[u8],
    given: usize,
    each: usize,
    code: &mut [u16],
) -> Result<Counts, Verdict>
    requires { (each ≤ 2) × (largest_stage ≤ length code.old) }
    ensures { (list : List ℕ) → length list ≡ given → OpenedAs stage.now list each code.new result }
{
    match circuit_load::read_stage(stage, code) {
        Err(refusal) => Err(Verdict::unreadable(1, refusal)),
        Ok(counts) => open_loaded(code, counts, given, each),
    }
}
