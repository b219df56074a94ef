// Where the data of each register comes from, as a graph of the registers: which reach which through gates or straight, which also through others, and
// their levels. Bit k of number t says that register k reaches register t.
#![tactic(auto)]

ghost use Rattle.std.specs.Prelude.{◌≡◌, Bool, cond, ◌∷◌, [], ℕ, ◌+◌, ◌*◌, ◌≤◌, ◌<◌, length, get_or};
ghost use Rattle.std.specs.Int.Bits.{bit_or};
ghost use Rattle.wiring_spec.specs.Parts.{Pipeline, register_count, data_of};
ghost use Rattle.wiring_spec.specs.Wiring.{gate_steps, level};
ghost use Rattle.wiring_spec.specs.Passing.{ReachesOn};
ghost use Rattle.wiring_spec.specs.Gathering.{Gathers};
ghost use Rattle.wiring_spec.specs.Tables.{register_slot, RegisterRow};
ghost use Rattle.circuit.specs.Stage.{net_count};
ghost use Rattle.circuit_wire.specs.Wire.{RawLoaded};
ghost use Rattle.check_levels.specs.Sources.{is_member, SetOf, pins_in, RailsIn, Gatherable, Seeds};
ghost use Rattle.check_levels.specs.Graph.{source_in, SourcesOf, ComesFrom, Through, RaisedTo};

use netlist::Counts;

// ---- from net to net

// What leads to a net: a row of an input or of a gate holds it, and a rail of a register is that register by itself. The sort of a net is a number, since
// the table of the nets is one (fixed memory); 1 is a rail (`is_rail`).
fn set_at(rails: &[u16], first: usize, sets: &[u64], net: u16) -> u64
    requires { RailsIn rails.now × (first ≤ length sets.now) }
    ensures { SetOf rails.now first sets.now (net ∷ []) result }
{
    let x = net as usize;
    if x < first {
        return sets[x];
    }
    let i = x - first;
    if rails.len() / 8 <= i {
        return 0;
    }
    if rails[8 * i] == 1 {
        return 1 << rails[8 * i + 6];
    }
    0
}

// What leads to the pins of gate k.
fn pin_sets(rails: &[u16], first: usize, sets: &[u64], raw: &[u16], k: usize) -> u64
    requires { RailsIn rails.now × (first ≤ length sets.now) × (8 * k + 8 ≤ length raw.now) }
    ensures { SetOf rails.now first sets.now (pins_in raw.now k) result }
{
    let a = set_at(rails, first, sets, raw[8 * k + 1]);
    let b = set_at(rails, first, sets, raw[8 * k + 2]);
    let c = set_at(rails, first, sets, raw[8 * k + 3]);
    let d = set_at(rails, first, sets, raw[8 * k + 4]);
    a | (b | (c | d))
}

// What leads to each gate, gate by gate in their order.
fn gather(rails: &[u16], order: &[u16], raw: &[u16], counts: Counts, sets: &mut [u64])
    requires { Gatherable rails.now order.now raw.now counts sets.old }
    ensures long { length sets.new ≡ length sets.old }
    ensures gathered { (p : Pipeline) (own : ℕ → Bool) (t : ℕ) → t < 64 → RawLoaded p counts raw.now
        → Seeds p own t rails.now counts sets.old
        → (x : ℕ) → Gathers (gate_steps p) own (x ∷ []) (is_member rails.now (net_count counts) sets.new t x) }
{
    let inputs = 2 * counts.inputs;
    let first = inputs + counts.gates;
    for i in 0..counts.gates {
        let k = order[8 * i + 5] as usize;
        sets[inputs + k] = pin_sets(rails, first, sets, raw, k);
    }
}

// What leads to the data of register t.
fn data_sets(rails: &[u16], first: usize, sets: &[u64], regs: &[u16], t: usize) -> u64
    requires { RailsIn rails.now × (first ≤ length sets.now) × (4 * t + 4 ≤ length regs.now) }
    ensures { SetOf rails.now first sets.now
        (register_slot regs.now t 1 ∷ register_slot regs.now t 2 ∷ []) result }
{
    let a = set_at(rails, first, sets, regs[4 * t + 1]);
    let b = set_at(rails, first, sets, regs[4 * t + 2]);
    a | b
}

// What leads to the data of each register through gates or straight: of the rails of registers in some rows, and of what the sets of the inputs hold.
pub fn gather_sources(
    rails: &[u16],
    order: &[u16],
    raw: &[u16],
    counts: Counts,
    regs: &[u16],
    sets: &mut [u64],
    sources: &mut [u64],
)
    requires { Gatherable rails.now order.now raw.now counts sets.old × (4 * length sources.old ≤ length regs.now) }
    ensures long { length sources.new ≡ length sources.old }
    ensures gathered { (p : Pipeline) (own : ℕ → Bool) (t : ℕ) → t < 64 → RawLoaded p counts raw.now
        → Seeds p own t rails.now counts sets.old → (u : ℕ) → u < length sources.old → u < register_count p
        → RegisterRow p regs.now u → Gathers (gate_steps p) own (data_of p u) (source_in sources.new t u) }
{
    gather(rails, order, raw, counts, sets);
    let first = 2 * counts.inputs + counts.gates;
    for (t, all) in sources.iter_mut().enumerate() {
        *all = data_sets(rails, first, sets, regs, t);
    }
}

// ---- through registers

// Whether register k is among the sources of register t.
pub fn is_source(sources: &[u64], k: usize, t: usize) -> bool
    requires { (k < 64) × (t < length sources.now) }
    ensures { result ≡ source_in sources.now k t }
{
    let rest = sources[t] >> k;
    rest % 2 == 1
}

// A register's sources, with those of another where these are to be added: sets of registers are numbers of 64 bits, with no heap.
pub fn joined(own: u64, other: u64, add: bool) -> u64
    ensures { result ≡ cond add (bit_or own other) own }
{
    if add {
        return own | other;
    }
    own
}

// The sources of register j become those of all that have j among theirs.
fn close_through(sources: &mut [u64], j: usize)
    requires { (j < 64) × (j < length sources.old) }
    ensures { Through sources.old j (length sources.old) sources.new }
{
    let through = sources[j];
    for t in 0..sources.len() {
        let add = is_source(sources, j, t);
        sources[t] = joined(sources[t], through, add);
    }
}

// Each register's sources become all that it comes from, also through other registers: each register is gone through once.
pub fn close(sources: &mut [u64])
    requires { length sources.old ≤ 64 }
    ensures { (p : Pipeline) → SourcesOf p sources.old → ComesFrom p sources.new }
{
    for j in 0..sources.len() {
        close_through(sources, j);
    }
}

// ---- levels

// A round: the registers whose sources are all known are known next, and every other one gets a level.
fn raise(sources: &[u64], known: u64, level: u8, levels: &mut [u8]) -> u64
    requires { (length levels.old ≤ length sources.now) × (length levels.old ≤ 64) }
    ensures { RaisedTo sources.now known level levels.old levels.new result (length levels.old) }
{
    let mut next: u64 = 0;
    for t in 0..levels.len() {
        if sources[t] & (sources[t] ^ known) == 0 {
            next |= 1 << t;
        } else {
            levels[t] = level;
        }
    }
    next
}

// The levels, where no register comes from itself and all are 1 before: in round l those registers are found whose level is l.
pub fn level_registers(sources: &[u64], levels: &mut [u8])
    requires { (length levels.old ≡ length sources.now) × (length levels.old ≤ 64) }
    ensures long { length levels.new ≡ length levels.old }
    ensures levelled { (p : Pipeline) → SourcesOf p sources.now → ((k : ℕ) → ¬ (ReachesOn p k k))
        → ((t : ℕ) → t < register_count p → get_or levels.old t 0 ≡ 1) → (t : ℕ) → t < register_count p
        → get_or levels.new t 0 ≡ level p t }
{
    let count = levels.len();
    let mut known: u64 = 0;
    for round in 0..count {
        known = raise(sources, known, (round + 2) as u8, levels);
    }
}
