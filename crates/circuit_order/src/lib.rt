// Making a topological order of the gates of a loaded stage, and finding the loops that rule it out (12).
// Marks have one byte for each net, and one for the ground, which is never marked.
#![tactic(auto)]

ghost use Rattle.std.specs.Prelude.{◌≡◌, Bool, true, false, ℕ, ◌+◌, ◌*◌, ◌<◌, length, set};
ghost use Rattle.verdict.specs.Loops.{reaches_itself};
ghost use Rattle.verdict.specs.Search.{least};
ghost use Rattle.circuit.specs.Stage.{stage_gates, StageLoaded};
ghost use Rattle.circuit.specs.Form.{Reordered};
ghost use Rattle.circuit_order.specs.Placing.{Placing, is_ready, WaitTo, PlacedAfter, Ordered};
ghost use Rattle.circuit_order.specs.Marks.{Unmarked, Left, Visited, Pins, From, LoopFound};

use netlist::Counts;

// ---- a topological order

// Marks on all gates: they wait.
fn wait_all(counts: Counts, marks: &mut [u8])
    requires { Unmarked counts marks.old }
    ensures { WaitTo counts marks.new counts.gates }
{
    let first = 2 * counts.inputs;
    marks[first..first + counts.gates].fill(1);
}

// Gate k, which is ready, takes the next place of the order.
fn place(code: &mut [u16], counts: Counts, k: usize, waiting: &mut [u8], placed: usize)
    requires { Placing counts code.old waiting.old placed × (k < counts.gates) × (is_ready counts code.old waiting.old k ≡ true) }
    ensures { Placing counts code.new waiting.new (placed + 1) × Reordered counts code.old code.new
        × (waiting.new ≡ set waiting.old (2 * counts.inputs + k) 0) }
{
    circuit::form::place_gate(code, counts, k, placed);
    waiting[2 * counts.inputs + k] = 0;
}

// Gate k is placed, after the gates that feed it and wait: these are placed in the same way first, `depth` gates deep at most. It is left where one of
// them is: then there is a loop, or the order is deeper than that. How many gates are placed then.
fn place_after(
    code: &mut [u16],
    counts: Counts,
    k: usize,
    waiting: &mut [u8],
    taken: usize,
    depth: usize,
) -> usize
    requires { Placing counts code.old waiting.old taken × (k < counts.gates) }
    ensures { PlacedAfter counts code.old code.new waiting.old waiting.new result k depth }
{
    if depth == 0 {
        return taken;
    }
    let mut placed = taken;
    for pin in 0..4 {
        let feeder = circuit::form::pin_of(code, counts, k, pin) as usize;
        if 0 < waiting[feeder] {
            placed = place_after(
                code,
                counts,
                feeder - 2 * counts.inputs,
                waiting,
                placed,
                depth - 1,
            );
            if 0 < waiting[feeder] {
                return placed;
            }
        }
    }
    if waiting[2 * counts.inputs + k] == 0 {
        return placed;
    }
    place(code, counts, k, waiting, placed);
    placed + 1
}

// All gates wait, and each is placed in its turn, if it is not placed by then, until all are or one is left. How many are placed.
fn place_all(code: &mut [u16], counts: Counts, waiting: &mut [u8]) -> usize
    requires { StageLoaded counts code.old × Unmarked counts waiting.old }
    ensures { Ordered counts code.new result × Reordered counts code.old code.new }
{
    wait_all(counts, waiting);
    let depth = 2 * counts.inputs + counts.gates + 1;
    let mut placed: usize = 0;
    for k in 0..counts.gates {
        placed = place_after(code, counts, k, waiting, placed, depth);
        if 0 < waiting[2 * counts.inputs + k] {
            return placed;
        }
    }
    placed
}

// ---- loops

// Visits the gates that gate k comes from and that are left: each is left no more, and what it comes from is visited in turn.
fn visit(code: &[u16], counts: Counts, k: usize, left: &mut [u8])
    requires { StageLoaded counts code.now × (k < counts.gates) × Left counts left.old }
    ensures { Visited counts code.now left.old left.new (Pins counts code.now k) }
{
    for i in 0..4 {
        let net = circuit::form::pin_of(code, counts, k, i) as usize;
        if 0 < left[net] {
            left[net] = 0;
            visit(code, counts, net - 2 * counts.inputs, left);
        }
    }
}

// Whether gate g reaches itself: it does if it is visited among what it comes from. The gates before it, which do not reach themselves, need no visit.
fn reaches_itself(code: &[u16], counts: Counts, g: usize, left: &mut [u8]) -> bool
    requires { StageLoaded counts code.now × (g < counts.gates) × From counts code.now left.old g }
    ensures { result ≡ reaches_itself counts.inputs (stage_gates counts code.now) g }
{
    visit(code, counts, g, left);
    left[2 * counts.inputs + g] == 0
}

// The least gate that reaches itself, gate by gate.
fn least_loop(code: &[u16], counts: Counts) -> Option<usize>
    requires { StageLoaded counts code.now }
    ensures { result ≡ least (reaches_itself counts.inputs (stage_gates counts code.now)) 0 counts.gates }
{
    let mut later = [0u8; circuit::ROW];
    wait_all(counts, &mut later);
    for g in 0..counts.gates {
        let mut left = later;
        if reaches_itself(code, counts, g, &mut left) {
            return Some(g);
        }
        later[2 * counts.inputs + g] = 0;
    }
    None
}

// 12: the least gate that reaches itself. Where there is none, the code then holds a topological order of the gates.
pub fn order_gates(code: &mut [u16], counts: Counts) -> Option<usize>
    requires { StageLoaded counts code.old }
    ensures { LoopFound counts code.old code.new result }
{
    let mut waiting = [0u8; circuit::ROW];
    let placed = place_all(code, counts, &mut waiting);
    if placed == counts.gates {
        return None;
    }
    least_loop(code, counts)
}
