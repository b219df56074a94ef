// A run in an order that the caller chooses: at each step, of the nets that may switch, that with the least key does.
#![tactic(auto)]

ghost use Rattle.std.specs.Prelude.{◌≡◌, ◌+◌, ◌*◌, ◌≤◌, ◌<◌, length};
ghost use Rattle.gates.specs.Table.{GateTable};
ghost use Rattle.circuit.specs.Stage.{net_count, StageLoaded};
ghost use Rattle.circuit.specs.Rows.{RowFor};
ghost use Rattle.circuit_steps.specs.Moves.{moves, loaded_net, row_in};
ghost use Rattle.write_run.specs.Listing.{ListedRun, RunPut};
ghost use Rattle.run_spec.specs.Keys.{key_in, KeysDemand};
ghost use Rattle.call_keys.specs.Lists.{BestOf, Earlier, by_keys, rise_in, fall_in, GivenBy};

use netlist::Counts;
use run_spec::RunAnswer;
use verdict::{Verdict, WordOrder};
use write_run::Lengths;

// ---- steps

// The one of two nets with the lesser key, the first if they are equal; where the first is none, the second (Earlier says none by the number of nets).
fn earlier(keys: &[u32], none: usize, best: usize, net: usize) -> usize
    requires { (none ≤ length keys.now) × (best ≤ none) × (net < none) }
    ensures { Earlier (key_in keys.now) none best net result }
{
    if best < none {
        if keys[best] <= keys[net] {
            return best;
        }
    }
    net
}

// Of the nets that may switch, that with the least key, or the number of nets where none may, as `BestOf` and `Earlier`
// say it (specs/Lists.antt).
fn next_by_key(
    entries: &[[u8; 16]; 27],
    code: &[u16],
    counts: Counts,
    goal: &[u8],
    row: &[u8],
    keys: &[u32],
) -> usize
    requires { GateTable entries.now × StageLoaded counts code.now × RowFor counts goal.now × RowFor counts row.now
        × (net_count counts ≤ length keys.now) }
    ensures { BestOf (moves (loaded_net counts code.now) (row_in counts goal.now) (row_in counts row.now))
        (key_in keys.now) (net_count counts) (net_count counts) result }
{
    let nets = 2 * counts.inputs + counts.gates;
    let mut best = nets;
    for net in 0..nets {
        if circuit_steps::may_switch(entries, code, counts, goal, row, net) {
            best = earlier(keys, nets, best, net);
        }
    }
    best
}

// Nets switch one after the other, each time that with the least key, and are listed from a place on; and where they end.
fn list_by_keys(
    code: &[u16],
    counts: Counts,
    goal: &[u8],
    keys: &[u32],
    row: &mut [u8],
    list: &mut [u16],
    start: usize,
) -> usize
    requires { StageLoaded counts code.now × RowFor counts goal.now × RowFor counts row.old × (net_count counts ≤ length keys.now)
        × (start + net_count counts ≤ length list.old) }
    ensures row { RowFor counts row.new }
    ensures listed { ListedRun (by_keys (loaded_net counts code.now) (row_in counts goal.now) (key_in keys.now)
        (row_in counts row.old)) list.old start (row_in counts row.old) result list.new
        (row_in counts row.new) }
{
    let entries = gates::table();
    let nets = 2 * counts.inputs + counts.gates;
    let end = start + nets;
    for count in start..end {
        let net = next_by_key(&entries, code, counts, goal, row, keys);
        if net == nets {
            return count;
        }
        circuit_steps::switch_net(counts, row, net);
        list[count] = net as u16;
    }
    end
}

// ---- the run

// The rise of word w by the first keys, and the fall by those behind them, one after the other from the start of a list.
fn list_run(code: &[u16], counts: Counts, w: usize, keys: &[u32], list: &mut [u16]) -> Lengths
    requires { StageLoaded counts code.now × (length keys.now ≡ 2 * net_count counts) × (2 * net_count counts ≤ length list.old) }
    ensures { RunPut (rise_in counts code.now keys.now w) (fall_in counts code.now keys.now w)
        list.old result list.new }
{
    let nets = 2 * counts.inputs + counts.gates;
    let low = [0u8; circuit::ROW];
    let mut row = [0u8; circuit::ROW];
    let mut goal = [0u8; circuit::ROW];
    words::spell_word(counts, w, &mut goal);
    let rise = list_by_keys(code, counts, &goal, keys, &mut row, list, 0);
    let count = list_by_keys(code, counts, &low, &keys[nets..], &mut row, list, rise);
    Lengths { rise, count }
}

// ---- the call

// A stage that was opened: the run of the word of a name, handed out.
fn run_stage(
    order: WordOrder,
    code: &[u16],
    counts: Counts,
    name: usize,
    keys: &[u32],
    list: &mut [u16],
) -> RunAnswer
    requires { StageLoaded counts code.now × (length keys.now ≡ 2 * net_count counts) }
    ensures { GivenBy order counts code.now name keys.now list.old result list.new }
{
    let w = words::word_of(order, counts.inputs, name);
    let mut run = [0u16; run_spec::RUN];
    let lengths = list_run(code, counts, w, keys, &mut run);
    let count = lengths.count;
    write_run::hand_out(&run[..count], list);
    RunAnswer {
        verdict: Verdict::accepted(),
        rise: lengths.rise as u64,
        count: count as u64,
    }
}

// A full run of the word that a name spells, a rise and a fall, in an order that is chosen by a key for each net in the rise and one for each in the
// fall: of the nets that may switch, that with the least key does.
pub fn run_by_keys(
    order: WordOrder,
    stage: &[u8],
    name: usize,
    keys: &[u32],
    list: &mut [u16],
) -> RunAnswer
    ensures { KeysDemand order stage.now name keys.now list.old result list.new }
{
    let mut code = [0u16; circuit::form::STAGE_CODE];
    match call_open::open_stage(stage, keys.len(), 2, &mut code) {
        Err(verdict) => RunAnswer {
            verdict,
            rise: 0,
            count: 0,
        },
        Ok(counts) => run_stage(order, &code, counts, name, keys, list),
    }
}
