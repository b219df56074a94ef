// Whether a register breaks a rule of the wiring, told from tables of what is known of each: 33, where it is fed from unequal levels; 34, where a Ko is
// missing behind its Ki; 35, where a net is barred there. Bit k of a number says that register k is in a set.
#![tactic(auto)]

ghost use Rattle.std.specs.Prelude.{◌≡◌, ◌≤◌, ◌<◌, length, get_or, eqb, Ok, Err};
ghost use Rattle.verdict.specs.Checks.{verdict, first_fault};
ghost use Rattle.wiring_spec.specs.Parts.{Pipeline, register_count, ki_of};
ghost use Rattle.wiring_spec.specs.Wiring.{uneven, missing, barred};
ghost use Rattle.check_levels.specs.Graph.{source_in, SourcesOf};
ghost use Rattle.check_rules.specs.Known.{InputsOf, LevelsOf, BehindOf, Known, Sized};
ghost use Rattle.check_rules.specs.Rules.{SetTo, lacking, later_checks};

use check_open::Behind;
use verdict::Verdict;

// ---- sets of registers

// Whether a set lacks some of another.
fn lacks(all: u64, few: u64) -> bool
    ensures { result ≡ lacking all few }
{
    few & (few ^ all) != 0
}

// The registers that register k reaches.
fn targets_of(sources: &[u64], k: usize) -> u64
    requires { (k < 64) × (length sources.now ≤ 64) }
    ensures { SetTo (source_in sources.now k) (length sources.now) result }
{
    let mut all: u64 = 0;
    for t in 0..sources.len() {
        let add = check_levels::is_source(sources, k, t);
        all = check_levels::joined(all, 1 << t, add);
    }
    all
}

// The registers of a level.
fn level_set(levels: &[u8], level: u8) -> u64
    requires { length levels.now ≤ 64 }
    ensures { SetTo (λ t. eqb (get_or levels.now t 0) level) (length levels.now) result }
{
    let mut all: u64 = 0;
    for (t, own) in levels.iter().enumerate() {
        all = check_levels::joined(all, 1 << t, *own == level);
    }
    all
}

// ---- the rules

// 33: whether some data of register k comes from another level than the one before its own.
fn is_uneven(sources: &[u64], inputs: &[u64], levels: &[u8], k: usize) -> bool
    requires { (length sources.now ≤ 64) × (length levels.now ≡ length sources.now) × (k < length sources.now) × (k < length inputs.now)
        × (1 ≤ get_or levels.now k 0) }
    ensures { (p : Pipeline) → SourcesOf p sources.now → InputsOf p inputs.now → LevelsOf p levels.now
        → result ≡ uneven p k }
{
    let own = levels[k];
    if lacks(level_set(levels, own - 1), sources[k]) {
        return true;
    }
    if check_levels::is_source(inputs, 0, k) {
        return own != 1;
    }
    false
}

// 34: whether the Ko of a register that register k reaches is missing behind its Ki.
fn is_missing(sources: &[u64], behind: &[Behind], k: usize) -> bool
    requires { (length sources.now ≤ 64) × (k < length sources.now) × (k < length behind.now) }
    ensures { (p : Pipeline) → SourcesOf p sources.now → BehindOf p behind.now → result ≡ missing p k }
{
    lacks(behind[k].kos, targets_of(sources, k))
}

// 35: whether a net that the rule bars stands behind register k's Ki: one that carries data, or the Ko of a register that is neither reached nor of the
// next level. Where it reaches no other, whether its Ki is not the outside.
fn is_barred(ki: u16, sources: &[u64], levels: &[u8], behind: &[Behind], k: usize) -> bool
    requires { (length sources.now ≤ 64) × (length levels.now ≡ length sources.now) × (k < length sources.now) × (k < length behind.now)
        × (get_or levels.now k 0 ≤ 64) }
    ensures { (p : Pipeline) → ki ≡ ki_of p k → SourcesOf p sources.now → LevelsOf p levels.now → BehindOf p behind.now
        → result ≡ barred p k }
{
    let reached = targets_of(sources, k);
    if reached == 0 {
        return ki != 0xFFFE;
    }
    if behind[k].other {
        return true;
    }
    let next = level_set(levels, levels[k] + 1);
    lacks(reached | next, behind[k].kos)
}

// ---- the checks

// A check's fault at register k.
pub fn fault(number: u64, k: usize) -> Result<(), Verdict>
    ensures { result ≡ Err (verdict number 1 k 0) }
{
    Err(Verdict::fault(number, 1, k))
}

// 33 of unequal levels, then 34, then 35, each at the least register.
pub fn find_failing(
    regs: &[u16],
    sources: &[u64],
    inputs: &[u64],
    levels: &[u8],
    behind: &[Behind],
) -> Result<(), Verdict>
    requires { Sized regs.now sources.now inputs.now levels.now behind.now }
    ensures { (p : Pipeline) → Known p regs.now sources.now inputs.now levels.now behind.now
        → result ≡ first_fault (later_checks p) }
{
    let count = sources.len();
    if let Some(k) = search::least(count, |k| is_uneven(sources, inputs, levels, k)) {
        return fault(33, k);
    }
    if let Some(k) = search::least(count, |k| is_missing(sources, behind, k)) {
        return fault(34, k);
    }
    if let Some(k) = search::least(
        count,
        |k| is_barred(regs[4 * k + 3], sources, levels, behind, k),
    ) {
        return fault(35, k);
    }
    Ok(())
}
