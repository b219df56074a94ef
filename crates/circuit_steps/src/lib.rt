// One step of a loaded stage: which nets may switch in a row, and where to look next once one has.
#![tactic(auto)]

ghost use Rattle.std.specs.Prelude.{◌≡◌, ◌+◌, ◌*◌, ◌<◌, length, set};
ghost use Rattle.gates.specs.Table.{GateTable};
ghost use Rattle.runs.specs.Row.{toggle};
ghost use Rattle.circuit.specs.Stage.{net_count, StageLoaded};
ghost use Rattle.circuit.specs.Rows.{RowFor};
ghost use Rattle.circuit_steps.specs.Moves.{gate_moves, moves, loaded_net, row_in};
ghost use Rattle.circuit_steps.specs.Fed.{FedFrom};

use netlist::Counts;

// Whether gate k may switch: a low gate where its set expression holds, a high gate where it is not held high any more.
fn gate_moves(entries: &[[u8; 16]; 27], code: &[u16], counts: Counts, k: usize, row: &[u8]) -> bool
    requires { GateTable entries.now × StageLoaded counts code.now × (k < counts.gates) × RowFor counts row.now }
    ensures { result ≡ gate_moves (loaded_net counts code.now) (row_in counts row.now) (2 * counts.inputs + k) }
{
    let net = 2 * counts.inputs + k;
    if row[net] == 0 {
        return 0 < circuit::gate_level(entries, code, counts, k, row);
    }
    circuit::level_falling(entries, code, counts, k, row, counts.gates) == 0
}

// Whether a net may switch: a rail that is not at its goal, and a gate by its rule.
pub fn may_switch(
    entries: &[[u8; 16]; 27],
    code: &[u16],
    counts: Counts,
    goal: &[u8],
    row: &[u8],
    net: usize,
) -> bool
    requires { GateTable entries.now × StageLoaded counts code.now × RowFor counts goal.now × RowFor counts row.now
        × (net < net_count counts) }
    ensures { result ≡ moves (loaded_net counts code.now) (row_in counts goal.now) (row_in counts row.now) net }
{
    let first = 2 * counts.inputs;
    if net < first {
        return row[net] != goal[net];
    }
    gate_moves(entries, code, counts, net - first, row)
}

// A net switches: a low one rises, a high one falls.
pub fn switch_net(counts: Counts, row: &mut [u8], net: usize)
    requires { RowFor counts row.old × (net < net_count counts) }
    ensures row { RowFor counts row.new }
    ensures toggled { row_in counts row.new ≡ toggle (row_in counts row.old) net }
{
    row[net] = 1 - row[net];
}

// ---- where to look next

// A net is noted for the net that stands at a pin.
fn note_pin(fed: &mut [u16], pin: u16, net: u16)
    requires { pin < length fed.old }
    ensures { fed.new ≡ set fed.old pin net }
{
    let p = pin as usize;
    fed[p] = net;
}

// The net of gate k is noted for those at its four pins.
fn note_gate(code: &[u16], counts: Counts, k: usize, fed: &mut [u16])
    requires { StageLoaded counts code.now × (k < counts.gates) × FedFrom counts code.now (k + 1) fed.old }
    ensures { FedFrom counts code.now k fed.new }
{
    let net = (2 * counts.inputs + k) as u16;
    for i in 0..4 {
        note_pin(fed, circuit::form::pin_of(code, counts, k, i), net);
    }
}

// For each net the least that it feeds: the gates are noted from the last to the first. What feeds none keeps its number.
pub fn note_fed(code: &[u16], counts: Counts, fed: &mut [u16])
    requires { StageLoaded counts code.now × (net_count counts < length fed.old) }
    ensures { FedFrom counts code.now 0 fed.new }
{
    for k in (0..counts.gates).rev() {
        note_gate(code, counts, k, fed);
    }
}
