// A list of switchings, judged: how many of its steps come before the first that the rules bar, and the row that they leave.
#![tactic(auto)]

ghost use Rattle.std.specs.Prelude.{◌≡◌, ◌≤◌, length, replicate, take, drop};
ghost use Rattle.circuit.specs.Stage.{net_count, StageLoaded};
ghost use Rattle.circuit.specs.Rows.{row_size, RowFor};
ghost use Rattle.circuit_steps.specs.Moves.{moves, loaded_net, row_in};
ghost use Rattle.run_spec.specs.Play.{none_left, PlayDemand};
ghost use Rattle.call_play.specs.Steps.{Taken, Begins, Played, LeftBy};

use netlist::Counts;
use run_spec::PlayAnswer;
use verdict::{Verdict, WordOrder};

// ---- steps

// The steps of a list are taken, one after the other, up to the first that may not be taken; and how many they are.
fn take_steps(code: &[u16], counts: Counts, goal: &[u8], row: &mut [u8], list: &[u16]) -> usize
    requires { StageLoaded counts code.now × RowFor counts goal.now × RowFor counts row.old }
    ensures { Taken (moves (loaded_net counts code.now) (row_in counts goal.now)) counts list.now
        row.old result row.new }
{
    let entries = gates::table();
    let nets = 2 * counts.inputs + counts.gates;
    for (i, step) in list.iter().enumerate() {
        let net = *step as usize;
        if nets <= net {
            return i;
        }
        if !circuit_steps::may_switch(&entries, code, counts, goal, row, net) {
            return i;
        }
        circuit_steps::switch_net(counts, row, net);
    }
    list.len()
}

// Whether no net may switch.
fn has_ended(code: &[u16], counts: Counts, goal: &[u8], row: &[u8]) -> bool
    requires { StageLoaded counts code.now × RowFor counts goal.now × RowFor counts row.now }
    ensures { result ≡ none_left (moves (loaded_net counts code.now) (row_in counts goal.now)) (net_count counts)
        (row_in counts row.now) }
{
    let entries = gates::table();
    let nets = 2 * counts.inputs + counts.gates;
    for net in 0..nets {
        if circuit_steps::may_switch(&entries, code, counts, goal, row, net) {
            return false;
        }
    }
    true
}

// ---- a rise and a fall

// The place where the fall begins in a list of so many steps: a place behind its end is its end.
fn fall_begins(fall: usize, count: usize) -> usize
    ensures { Begins fall count result }
{
    fall.min(count)
}

// The steps of a list of word w that is a rise up to a place, and from there on a fall: this begins only where the rise has ended.
fn play_word(
    code: &[u16],
    counts: Counts,
    w: usize,
    fall: usize,
    list: &[u16],
    row: &mut [u8],
) -> usize
    requires { StageLoaded counts code.now × (row.old ≡ replicate row_size 0) }
    ensures { Played counts code.now w fall list.now result row.new }
{
    let low = [0u8; circuit::ROW];
    let mut goal = [0u8; circuit::ROW];
    words::spell_word(counts, w, &mut goal);
    let rise = fall_begins(fall, list.len());
    let taken = take_steps(code, counts, &goal, row, &list[..rise]);
    if taken < rise {
        return taken;
    }
    if has_ended(code, counts, &goal, row) {
        return taken + take_steps(code, counts, &low, row, &list[rise..]);
    }
    taken
}

// ---- the call

// A stage that was opened: the list is played by the word of a name, and the row holds the levels that are left.
fn play_stage(
    order: WordOrder,
    code: &[u16],
    counts: Counts,
    name: usize,
    fall: usize,
    list: &[u16],
    row: &mut [u8],
) -> PlayAnswer
    requires { StageLoaded counts code.now × (length row.old ≡ net_count counts) }
    ensures { LeftBy order counts code.now name fall list.now result row.new }
{
    let w = words::word_of(order, counts.inputs, name);
    let mut own = [0u8; circuit::ROW];
    let steps = play_word(code, counts, w, fall, list, &mut own);
    let nets = 2 * counts.inputs + counts.gates;
    row.copy_from_slice(&own[..nets]);
    PlayAnswer {
        verdict: Verdict::accepted(),
        steps: steps as u64,
    }
}

// A list of switchings of the word that a name spells, which is a rise up to a place and from there on a fall: how many of its steps come before the
// first that the rules bar, and the row that they leave. A refusal leaves the row as it was.
pub fn play(
    order: WordOrder,
    stage: &[u8],
    name: usize,
    fall: usize,
    list: &[u16],
    row: &mut [u8],
) -> PlayAnswer
    ensures { PlayDemand order stage.now name fall list.now row.old result row.new }
{
    let mut code = [0u16; circuit::form::STAGE_CODE];
    match call_open::open_stage(stage, row.len(), 1, &mut code) {
        Err(verdict) => PlayAnswer { verdict, steps: 0 },
        Ok(counts) => play_stage(order, &code, counts, name, fall, list, row),
    }
}
