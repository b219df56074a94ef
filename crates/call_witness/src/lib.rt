// The witness of a verdict on two files: a run that shows what the verdict says, the least net that may switch first.
#![tactic(auto)]

ghost use Rattle.std.specs.Prelude.{◌≡◌, true, ℕ, ◌+◌, ◌*◌, ◌≤◌, ◌<◌, length, eqb};
ghost use Rattle.gates.specs.Table.{GateTable};
ghost use Rattle.runs.specs.Net.{nets};
ghost use Rattle.netlist.specs.Reading.{stage_limits, Within};
ghost use Rattle.check_spec.specs.Lists.{some};
ghost use Rattle.check_spec.specs.Content.{plain_files};
ghost use Rattle.verdict.specs.Words.{names};
ghost use Rattle.circuit.specs.Stage.{net_count, stage_in, StageLoaded};
ghost use Rattle.circuit.specs.Rows.{RowFor};
ghost use Rattle.circuit_steps.specs.Moves.{loaded_net, row_in};
ghost use Rattle.circuit_steps.specs.Fed.{FedFrom};
ghost use Rattle.write_run.specs.Listing.{ListedRun, RunPut};
ghost use Rattle.run_spec.specs.Witness.{of_runs, of_falls, asked_or_first, WitnessDemand};
ghost use Rattle.call_witness.specs.Lists.{moving, FirstFrom, LookFrom, least_first, without, alone, GoalIn, input_under, gate_under, NamedIn};
ghost use Rattle.call_witness.specs.Lists.{rise_in, fall_in, name_in, Showable, GivenFor};

use netlist::Counts;
use run_spec::RunAnswer;
use verdict::{Verdict, WordOrder};
use write_run::Lengths;

// ---- steps

// The least net from a place on that may move towards a goal and is not held back, or the number of nets where there is none, as
// `FirstFrom` says it (specs/Lists.antt).
fn least_from(
    entries: &[[u8; 16]; 27],
    code: &[u16],
    counts: Counts,
    goal: &[u8],
    held: usize,
    row: &[u8],
    from: usize,
) -> usize
    requires { GateTable entries.now × StageLoaded counts code.now × RowFor counts goal.now × RowFor counts row.now
        × (from ≤ net_count counts) }
    ensures { FirstFrom (moving (loaded_net counts code.now) (row_in counts goal.now) held
        (row_in counts row.now)) (net_count counts) from result }
{
    let nets = 2 * counts.inputs + counts.gates;
    for net in from..nets {
        if net != held {
            if circuit_steps::may_switch(entries, code, counts, goal, row, net) {
                return net;
            }
        }
    }
    nets
}

// Where to look next once a net has switched: what stands below it, and below all that it feeds, could not switch and cannot now.
fn look_from(fed: &[u16], net: usize) -> usize
    requires { net < length fed.now }
    ensures { LookFrom fed.now net result }
{
    let least = fed[net] as usize;
    if least < net {
        return least;
    }
    net
}

// Nets switch one after the other, each time the least that may, and are listed from a place on; and where they end.
fn list_least(
    code: &[u16],
    counts: Counts,
    goal: &[u8],
    held: usize,
    fed: &[u16],
    row: &mut [u8],
    list: &mut [u16],
    start: usize,
) -> usize
    requires { StageLoaded counts code.now × RowFor counts goal.now × FedFrom counts code.now 0 fed.now × RowFor counts row.old
        × (start + net_count counts ≤ length list.old) }
    ensures row { RowFor counts row.new }
    ensures listed { ListedRun (least_first (loaded_net counts code.now) (row_in counts goal.now) held
        (row_in counts row.old)) list.old start (row_in counts row.old) result list.new
        (row_in counts row.new) }
{
    let entries = gates::table();
    let nets = 2 * counts.inputs + counts.gates;
    let end = start + nets;
    let mut from: usize = 0;
    for count in start..end {
        let net = least_from(&entries, code, counts, goal, held, row, from);
        if net == nets {
            return count;
        }
        circuit_steps::switch_net(counts, row, net);
        list[count] = net as u16;
        from = look_from(fed, net);
    }
    end
}

// ---- goals

// The rails of word w without those of input i; where i is no input, all of them (a number and no `Option`, as `without` and `alone` say it).
fn rails_without(counts: Counts, w: usize, i: usize) -> [u8; circuit::ROW]
    requires { Within stage_limits counts }
    ensures { RowFor counts result × GoalIn counts result (without w i) }
{
    let mut row = [0u8; circuit::ROW];
    words::spell_word(counts, w, &mut row);
    if i < counts.inputs {
        row[2 * i] = 0;
        row[2 * i + 1] = 0;
        return row;
    }
    row
}

// The rails of input i in word w, and no others; where i is no input, none.
fn rails_alone(counts: Counts, w: usize, i: usize) -> [u8; circuit::ROW]
    requires { Within stage_limits counts }
    ensures { RowFor counts result × GoalIn counts result (alone w i) }
{
    let mut row = [0u8; circuit::ROW];
    if i < counts.inputs {
        let mut all = [0u8; circuit::ROW];
        words::spell_word(counts, w, &mut all);
        row[2 * i] = all[2 * i];
        row[2 * i + 1] = all[2 * i + 1];
        return row;
    }
    row
}

// ---- what a verdict names

// Both answer a number for none, as the definitions of these names say it (specs/Lists.antt).

// The input that a verdict of this number names, or none.
fn input_under(counts: Counts, verdict: Verdict, number: u64) -> usize
    ensures { result ≡ input_under counts verdict number }
{
    if verdict.number == number {
        return verdict.at as usize;
    }
    counts.inputs
}

// The net of the gate that a verdict of this number names, or none.
fn gate_under(counts: Counts, verdict: Verdict, number: u64) -> usize
    requires { Within stage_limits counts × (verdict.number ≡ number → verdict.at < counts.gates) }
    ensures { result ≡ gate_under counts verdict number }
{
    if verdict.number == number {
        return 2 * counts.inputs + verdict.at as usize;
    }
    2 * counts.inputs + counts.gates
}

// Whether a verdict's number speaks of runs.
fn has_run(number: u64) -> bool
    ensures { result ≡ some (eqb number) of_runs }
{
    // 32 stands apart: tried as one of the patterns below, and the proof did not close, since what is known where none fits named it no more.
    if number == 32 {
        return true;
    }
    matches!(number, 0 | 13 | 14 | 15 | 20 | 21)
}

// Whether it speaks of a fall.
fn has_fall(number: u64) -> bool
    ensures { result ≡ some (eqb number) of_falls }
{
    // 32 stands apart, as above.
    if number == 32 {
        return true;
    }
    matches!(number, 0 | 20 | 21)
}

// ---- the run

// The rise and the fall of word w that a verdict speaks of, one after the other from the start of a list.
fn list_run(code: &[u16], counts: Counts, verdict: Verdict, w: usize, list: &mut [u16]) -> Lengths
    requires { StageLoaded counts code.now × NamedIn counts verdict × (2 * net_count counts ≤ length list.old) }
    ensures { RunPut (rise_in counts code.now verdict w) (fall_in counts code.now verdict w) list.old result
        list.new }
{
    let mut fed = [0xFFFFu16; circuit::ROW];
    circuit_steps::note_fed(code, counts, &mut fed);
    let mut row = [0u8; circuit::ROW];
    let goal = rails_without(counts, w, input_under(counts, verdict, 14));
    let held = gate_under(counts, verdict, 15);
    let rise = list_least(code, counts, &goal, held, &fed, &mut row, list, 0);
    if has_fall(verdict.number) {
        let back = rails_alone(counts, w, input_under(counts, verdict, 20));
        let kept = gate_under(counts, verdict, 21);
        let count = list_least(code, counts, &back, kept, &fed, &mut row, list, rise);
        return Lengths { rise, count };
    }
    Lengths { rise, count: rise }
}

// ---- files

// The number that is asked for, if it stands in a list; else the first of the list.
fn asked_or_first(list: &[u16], asked: usize) -> usize
    ensures { result ≡ asked_or_first list.now asked }
{
    if list.iter().any(|x| asked == *x as usize) {
        asked
    } else if 0 < list.len() {
        list[0] as usize
    } else {
        0
    }
}

// The name that is asked for, if it is that of a word that is cared for; else the first such name.
fn cared_name(order: WordOrder, code: &[u16], counts: Counts, asked: usize) -> usize
    requires { StageLoaded counts code.now }
    ensures { result ≡ asked_or_first (names order (stage_in counts code.now)) asked }
{
    let mut list = [0u16; words::NAMES];
    let count = words::list_names(order, code, counts, &mut list);
    asked_or_first(&list[..count], asked)
}

// The name of the word whose run is shown: of an accepted pair the one that is asked for, under 32 if it is cared for, else the one that the verdict
// names.
fn name_shown(
    order: WordOrder,
    code: &[u16],
    counts: Counts,
    verdict: Verdict,
    asked: usize,
) -> usize
    requires { StageLoaded counts code.now }
    ensures { result ≡ name_in order (stage_in counts code.now) verdict asked }
{
    if verdict.number == 0 {
        return asked;
    }
    if verdict.number == 32 {
        return cared_name(order, code, counts, asked);
    }
    verdict.word as usize
}

// The run that a verdict on a stage file speaks of, for a name that is asked for.
fn witness_stage(
    order: WordOrder,
    stage: &[u8],
    verdict: Verdict,
    asked: usize,
    list: &mut [u16],
) -> RunAnswer
    requires { Showable stage.now verdict }
    ensures { GivenFor order stage.now verdict asked list.old result list.new }
{
    let mut code = [0u16; circuit::form::STAGE_CODE];
    if let Ok(counts) = circuit_load::read_stage(stage, &mut code) {
        let name = name_shown(order, &code, counts, verdict, asked);
        let w = words::word_of(order, counts.inputs, name);
        let mut run = [0u16; run_spec::RUN];
        let lengths = list_run(&code, counts, verdict, w, &mut run);
        let count = lengths.count;
        write_run::hand_out(&run[..count], list);
        return RunAnswer {
            verdict,
            rise: lengths.rise as u64,
            count: count as u64,
        };
    }
    RunAnswer {
        verdict,
        rise: 0,
        count: 0,
    }
}

// The witness of the verdict on a stage file and a reference file, with words named in an order; of an accepted pair, and under 32, a run of the word
// whose name is asked for.
pub fn witness(
    order: WordOrder,
    stage: &[u8],
    reference: &[u8],
    asked: usize,
    list: &mut [u16],
) -> RunAnswer
    ensures { WitnessDemand order (plain_files stage.now reference.now) asked list.old result list.new }
{
    let verdict = check_files::verdict_on(order, false, stage, reference);
    if has_run(verdict.number) {
        return witness_stage(order, stage, verdict, asked, list);
    }
    RunAnswer {
        verdict,
        rise: 0,
        count: 0,
    }
}
