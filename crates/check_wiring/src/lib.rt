// The checks of registers and their completion: 33, a register that reaches itself or has a loop of C-elements behind its Ki, and then one that is fed from
// unequal levels; 34, a Ko that is missing behind a Ki; 35, a net that the rule bars there. What the rules are about is put into tables first.
#![tactic(auto)]

ghost use Rattle.std.specs.Prelude.{◌≡◌, List, ℕ, ◌*◌, ◌≤◌, ◌<◌, length, take};
ghost use Rattle.verdict.specs.Search.{least};
ghost use Rattle.verdict.specs.Checks.{first_fault};
ghost use Rattle.wiring_spec.specs.Parts.{Pipeline, register_count};
ghost use Rattle.wiring_spec.specs.Wiring.{circular};
ghost use Rattle.wiring_spec.specs.Passing.{ReachesOn, Nowhere};
ghost use Rattle.wiring_spec.specs.Table.{wiring_checks};
ghost use Rattle.check_open.specs.Opening.{Table};
ghost use Rattle.check_levels.specs.Graph.{SourcesOf, ComesFrom};
ghost use Rattle.check_rules.specs.Known.{InputsOf, LevelsOf, BehindOf};
ghost use Rattle.check_rules.specs.Rules.{later_checks};
ghost use Rattle.check_wiring.specs.Loaded.{Loaded, Unplaced, Ordered, Forward};
ghost use Rattle.check_wiring.specs.Opened.{OpenedTo};

use check_open::Behind;
use netlist::Counts;
use verdict::Verdict;

// As many registers, and as many nets of registers and C-elements, as there may be.
const MOST: usize = netlist::PARTS;

const NETS: usize = 4 * netlist::PARTS;

// ---- where the data of the registers comes from

// The registers that reach each register.
fn sources_of(raw: &[u16], order: &[u16], counts: Counts, nets: &[u16], regs: &[u16]) -> [u64; MOST]
    requires { Loaded counts raw.now order.now nets.now regs.now }
    ensures long { length result ≡ 64 }
    ensures are { (l : Loaded counts raw.now order.now nets.now regs.now)
        → SourcesOf l.pipeline (take counts.registers result) }
{
    let m = counts.registers;
    let mut none = [0u64; circuit::ROW];
    let mut sources = [0u64; MOST];
    check_levels::gather_sources(nets, order, raw, counts, regs, &mut none, &mut sources[..m]);
    sources
}

// Whether some data of each register comes from an input: no rail of a register is a source here, and each input is source 0. It and `sources_of` are one
// call each, with other seeds and another promise (`InputsOf`, `SourcesOf`): one function with a switch would be no plainer.
fn inputs_of(raw: &[u16], order: &[u16], counts: Counts, regs: &[u16]) -> [u64; MOST]
    requires { (nets : List ℕ) × Loaded counts raw.now order.now nets regs.now }
    ensures long { length result ≡ 64 }
    ensures are { (nets : List ℕ) (l : Loaded counts raw.now order.now nets regs.now)
        → InputsOf l.pipeline (take counts.registers result) }
{
    let m = counts.registers;
    let mut ones = [1u64; circuit::ROW];
    let mut inputs = [0u64; MOST];
    check_levels::gather_sources(
        &raw[..0],
        order,
        raw,
        counts,
        regs,
        &mut ones,
        &mut inputs[..m],
    );
    inputs
}

// The levels of the registers.
fn levels_of(sources: &[u64]) -> [u8; MOST]
    requires { length sources.now ≤ 64 }
    ensures long { length result ≡ 64 }
    ensures are { (p : Pipeline) → SourcesOf p sources.now → ((k : ℕ) → ¬ (ReachesOn p k k))
        → LevelsOf p (take (length sources.now) result) }
{
    let m = sources.len();
    let mut levels = [1u8; MOST];
    check_levels::level_registers(sources, &mut levels[..m]);
    levels
}

// ---- what stands behind the Ki of the registers

// `met` is what is known of the C-elements.
fn open_all(
    nets: &[u16],
    first: usize,
    regs: &[u16],
    behind: &mut [Behind],
    met: &mut [Option<Behind>],
)
    requires { Table nets.now first met.old × (4 * length behind.old ≤ length regs.now) }
    ensures { OpenedTo nets.now first regs.now behind.old behind.new (length behind.old) }
{
    for k in 0..behind.len() {
        behind[k] = check_open::open_net(nets, first, regs[4 * k + 3], met);
    }
}

// Each C-element is opened once for all Ki.
fn open_kis(nets: &[u16], counts: Counts, regs: &[u16], behind: &mut [Behind])
    requires { ((p : Pipeline) × Ordered p counts nets.now regs.now) × (length behind.old ≡ counts.registers) }
    ensures long { length behind.new ≡ counts.registers }
    ensures are { (p : Pipeline) → Ordered p counts nets.now regs.now → Nowhere p (circular p)
        → BehindOf p behind.new }
{
    let first = 2 * counts.inputs + counts.gates;
    let count = 3 * counts.registers + counts.elements;
    let mut met = [None; NETS];
    open_all(nets, first, regs, behind, &mut met[..count]);
}

// ---- 33, the first pass

// Whether register k comes from itself, or has a C-element without a place at its Ki.
fn is_circular(closed: &[u64], counts: Counts, nets: &[u16], regs: &[u16], k: usize) -> bool
    requires { ((p : Pipeline) × Ordered p counts nets.now regs.now × ComesFrom p closed.now) × (k < counts.registers) }
    ensures { (p : Pipeline) → Ordered p counts nets.now regs.now → ComesFrom p closed.now
        → result ≡ circular p k }
{
    if check_levels::is_source(closed, k, k) {
        return true;
    }
    let first = 2 * counts.inputs + counts.gates;
    let count = 3 * counts.registers + counts.elements;
    circuit_place::waits(nets, first, count, regs[4 * k + 3] as usize)
}

fn least_circular(closed: &[u64], counts: Counts, nets: &[u16], regs: &[u16]) -> Option<usize>
    requires { (p : Pipeline) × Ordered p counts nets.now regs.now × ComesFrom p closed.now }
    ensures { (p : Pipeline) → Ordered p counts nets.now regs.now → ComesFrom p closed.now
        → result ≡ least (circular p) 0 (register_count p) }
{
    search::least(
        counts.registers,
        |k| is_circular(closed, counts, nets, regs, k),
    )
}

// The least register that is circular, told from the registers that reach each.
fn find_circular(sources: [u64; MOST], counts: Counts, nets: &[u16], regs: &[u16]) -> Option<usize>
    requires { ((p : Pipeline) × Ordered p counts nets.now regs.now × SourcesOf p (take counts.registers sources)) × (length sources ≡ 64) }
    ensures { (p : Pipeline) → Ordered p counts nets.now regs.now → SourcesOf p (take counts.registers sources)
        → result ≡ least (circular p) 0 (register_count p) }
{
    let m = counts.registers;
    let mut closed = sources;
    check_levels::close(&mut closed[..m]);
    least_circular(&closed[..m], counts, nets, regs)
}

// ---- the checks

// 33, the second pass, then 34, then 35, where the first pass finds nothing.
fn find_others(
    raw: &[u16],
    order: &[u16],
    counts: Counts,
    nets: &[u16],
    regs: &[u16],
    sources: [u64; MOST],
) -> Result<(), Verdict>
    requires { Forward counts raw.now order.now nets.now regs.now sources × (length sources ≡ 64) }
    ensures { (w : Forward counts raw.now order.now nets.now regs.now sources)
        → result ≡ first_fault (later_checks w.loaded.pipeline) }
{
    let m = counts.registers;
    let inputs = inputs_of(raw, order, counts, regs);
    let levels = levels_of(&sources[..m]);
    let mut behind = [Behind {
        kos: 0,
        other: false,
    }; MOST];
    open_kis(nets, counts, regs, &mut behind[..m]);
    check_rules::find_failing(
        regs,
        &sources[..m],
        &inputs[..m],
        &levels[..m],
        &behind[..m],
    )
}

// 33, then 34, then 35, where the gates are in an order and the C-elements in none. These then have places.
pub fn check_registers(
    raw: &[u16],
    order: &[u16],
    counts: Counts,
    nets: &mut [u16],
    regs: &[u16],
) -> Result<(), Verdict>
    requires { Loaded counts raw.now order.now nets.old regs.now × Unplaced nets.old }
    ensures found { (l : Loaded counts raw.now order.now nets.old regs.now)
        → result ≡ first_fault (wiring_checks l.pipeline) }
    ensures kept { (l : Loaded counts raw.now order.now nets.old regs.now)
        → (m : Loaded counts raw.now order.now nets.new regs.now) × (m.pipeline ≡ l.pipeline) }
{
    let sources = sources_of(raw, order, counts, nets, regs);
    let first = 2 * counts.inputs + counts.gates;
    let count = 3 * counts.registers + counts.elements;
    circuit_place::place_elements(nets, first, count);
    if let Some(k) = find_circular(sources, counts, nets, regs) {
        return check_rules::fault(33, k);
    }
    find_others(raw, order, counts, nets, regs, sources)
}
