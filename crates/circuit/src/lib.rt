// Circuits in their flat form: settling the rows of a stage.
#![tactic(auto)]

pub mod form;

ghost use Rattle.std.specs.Prelude.{◌≡◌, ◌≤◌, ◌<◌, length, get_or};
ghost use Rattle.gates.specs.Table.{GateTable};
ghost use Rattle.runs.specs.Row.{only};
ghost use Rattle.verdict.specs.Rows as rows;
ghost use Rattle.verdict.specs.Levels.{level_holding};
ghost use Rattle.verdict.specs.Falls.{level_falling};
ghost use Rattle.circuit.specs.Stage.{gate_in, stage_gates, StageLoaded};
ghost use Rattle.circuit.specs.Order.{InOrder};
ghost use Rattle.circuit.specs.Rows.{RowFor, nets_in, level_part, LevelOf, pattern_in, SettledTo, settled_in, settled_holding_in, fallen_in};

use netlist::Counts;

// A place for each net of the largest stage, and one for the ground.
pub const ROW: usize = 2 * netlist::INPUTS + netlist::STAGE_GATES + 1;

// How many signals the largest reference has.
pub const SIGNALS: usize = netlist::INPUTS + netlist::REFERENCE_GATES;

// ---- one gate

// The level of a net in a row, or the value of a signal.
pub fn level(row: &[u8], net: u16) -> u8
    requires { (net < length row.now) × (get_or row.now net 0 ≤ 1) }
    ensures { LevelOf row.now net result }
{
    let p = net as usize;
    row[p]
}

// The pattern of the pins of gate k; those that it lacks are at the ground, and so low.
pub fn pattern(code: &[u16], counts: Counts, k: usize, row: &[u8]) -> u8
    requires { StageLoaded counts code.now × (k < counts.gates) × RowFor counts row.now }
    ensures { result ≡ pattern_in (nets_in counts row.now) code.now k }
{
    let pins = form::pins_of(code, counts, k);
    let a = level(row, pins.a);
    let b = level(row, pins.b);
    let c = level(row, pins.c);
    let d = level(row, pins.d);
    a + 2 * b + 4 * c + 8 * d
}

// 1 where the set expression of gate k holds, else 0.
pub fn gate_level(
    entries: &[[u8; 16]; 27],
    code: &[u16],
    counts: Counts,
    k: usize,
    row: &[u8],
) -> u8
    requires { GateTable entries.now × StageLoaded counts code.now × (k < counts.gates) × RowFor counts row.now }
    ensures { result ≡ rows.is_set (nets_in counts row.now) (gate_in code.now k) }
{
    let cell = form::cell_of(code, counts, k) as u8;
    gates::sets(entries, cell, pattern(code, counts, k, row))
}

// The level that gate k is to have: low where it is held, else by its set expression.
fn level_holding(
    entries: &[[u8; 16]; 27],
    code: &[u16],
    counts: Counts,
    k: usize,
    row: &[u8],
    held: usize,
) -> u8
    requires { GateTable entries.now × StageLoaded counts code.now × (k < counts.gates) × RowFor counts row.now }
    ensures { (result ≡ level_holding held (stage_gates counts code.now) (nets_in counts row.now) k) × (result ≤ 1) }
{
    if k == held {
        return 0;
    }
    gate_level(entries, code, counts, k, row)
}

// ---- settling

// The gates from place `start` of the order on are evaluated once each, in the order; gate `held` stays low. A `held` that
// is no gate holds none: a number and no Option, since settled_holding_in says it by the number. The gates before that place have their
// levels already.
pub fn settle_from(code: &[u16], counts: Counts, row: &mut [u8], start: usize, held: usize)
    requires { StageLoaded counts code.now × InOrder counts code.now × RowFor counts row.old
        × SettledTo start held counts code.now row.old }
    ensures settled { nets_in counts row.new ≡ settled_holding_in held counts code.now row.old }
    ensures row { RowFor counts row.new }
{
    let entries = gates::table();
    let first = 2 * counts.inputs;
    for i in start..counts.gates {
        let k = form::gate_at(code, counts, i);
        row[first + k] = level_holding(&entries, code, counts, k, row, held);
    }
}

// The gates settle for the rails in the row, whatever their levels were.
pub fn settle(code: &[u16], counts: Counts, row: &mut [u8])
    requires { StageLoaded counts code.now × InOrder counts code.now × RowFor counts row.old }
    ensures settled { nets_in counts row.new ≡ settled_in counts code.now row.old }
    ensures row { RowFor counts row.new }
{
    let none = counts.gates;
    settle_from(code, counts, row, 0, none)
}

// ---- falling

// The level that gate k is to have on the way back to NULL: a high gate stays high where it is kept, with hold while some pin is high, and
// without hold while its set expression holds.
pub fn level_falling(
    entries: &[[u8; 16]; 27],
    code: &[u16],
    counts: Counts,
    k: usize,
    row: &[u8],
    kept: usize,
) -> u8
    requires { GateTable entries.now × StageLoaded counts code.now × (k < counts.gates) × RowFor counts row.now }
    ensures { (result ≡ level_falling (only kept) (stage_gates counts code.now) (level_part counts row.now)
        (nets_in counts row.now) k) × (result ≤ 1) }
{
    let net = 2 * counts.inputs + k;
    if row[net] == 0 {
        return 0u8;
    }
    if k == kept {
        return 1u8;
    }
    if form::has_hold(code, counts, k) {
        if pattern(code, counts, k, row) == 0 {
            return 0u8;
        }
        return 1u8;
    }
    gate_level(entries, code, counts, k, row)
}

// The gates settle by the fall rule for the rails in the row, where their levels are the rest's: each is evaluated once, in the order. Gate
// `kept` stays high; where it is no gate, none is kept (a number here too, by fallen_in).
pub fn fall(code: &[u16], counts: Counts, row: &mut [u8], kept: usize)
    requires { StageLoaded counts code.now × InOrder counts code.now × RowFor counts row.old }
    ensures settled { nets_in counts row.new ≡ fallen_in kept counts code.now row.old }
    ensures row { RowFor counts row.new }
{
    let entries = gates::table();
    let first = 2 * counts.inputs;
    for i in 0..counts.gates {
        let k = form::gate_at(code, counts, i);
        row[first + k] = level_falling(&entries, code, counts, k, row, kept);
    }
}
