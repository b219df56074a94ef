// What a loaded circuit gives in a row: the outputs of a stage, which are DATA, which are NULL, and which do not read as the reference's
// values; and the values of the signals of a reference.
#![tactic(auto)]

ghost use Rattle.std.specs.Prelude.{◌≡◌, ◌∷◌, [], ℕ, ◌+◌, ◌≤◌, ◌<◌, length, get_or, take};
ghost use Rattle.verdict.specs.Rows as rows;
ghost use Rattle.verdict.specs.Search.{least};
ghost use Rattle.verdict.specs.Answers as answers;
ghost use Rattle.circuit.specs.Stage.{output_in, stage_outputs, StageLoaded};
ghost use Rattle.circuit.specs.Rows.{RowFor, nets_in};
ghost use Rattle.circuit.specs.Reference.{signal_in, ReferenceLoaded, operator_in, operators_in};
ghost use Rattle.circuit_values.specs.Failing.{RailsHigh, output_fails, misread};

use netlist::Counts;

// ---- DATA

// The levels of the two rails of an output.
#[derive(Clone, Copy)]
struct RailLevels {
    rail0: u8,
    rail1: u8,
}

// Those of output j in a row.
fn rail_levels(code: &[u16], counts: Counts, row: &[u8], j: usize) -> RailLevels
    requires { StageLoaded counts code.now × (j < counts.outputs) × RowFor counts row.now }
    ensures { RailsHigh (nets_in counts row.now) (output_in counts code.now j) result }
{
    let rails = circuit::form::rails_of(code, counts, j);
    RailLevels {
        rail0: circuit::level(row, rails.rail0),
        rail1: circuit::level(row, rails.rail1),
    }
}

// Whether output j is DATA: exactly one of its rails is high.
fn is_data(code: &[u16], counts: Counts, row: &[u8], j: usize) -> bool
    requires { StageLoaded counts code.now × (j < counts.outputs) × RowFor counts row.now }
    ensures { result ≡ rows.is_data (rows.pair_in (nets_in counts row.now) (output_in counts code.now j)) }
{
    let levels = rail_levels(code, counts, row, j);
    levels.rail0 != levels.rail1
}

// The least output that is not DATA, or that there is none: the pairs are taken in turn, and the loop ends at that one. In 14 and 15 it decides.
pub fn first_not_data(code: &[u16], counts: Counts, row: &[u8]) -> Option<usize>
    requires { StageLoaded counts code.now × RowFor counts row.now }
    ensures { result ≡ least (output_fails rows.is_data counts code.now (nets_in counts row.now)) 0 counts.outputs }
{
    search::least(counts.outputs, |j| !is_data(code, counts, row, j))
}

// Whether all outputs are DATA.
pub fn all_data(code: &[u16], counts: Counts, row: &[u8]) -> bool
    requires { StageLoaded counts code.now × RowFor counts row.now }
    ensures { result ≡ rows.all_data (nets_in counts row.now) (stage_outputs counts code.now) }
{
    match first_not_data(code, counts, row) {
        Some(_) => false,
        None => true,
    }
}

// ---- NULL

// Whether output j is NULL: neither of its rails is high.
fn is_null(code: &[u16], counts: Counts, row: &[u8], j: usize) -> bool
    requires { StageLoaded counts code.now × (j < counts.outputs) × RowFor counts row.now }
    ensures { result ≡ rows.is_null (rows.pair_in (nets_in counts row.now) (output_in counts code.now j)) }
{
    let levels = rail_levels(code, counts, row, j);
    levels.rail0 + levels.rail1 == 0
}

// The least output that is not NULL, or that there is none, found in the same way. In 20 and 21 it decides.
fn first_not_null(code: &[u16], counts: Counts, row: &[u8]) -> Option<usize>
    requires { StageLoaded counts code.now × RowFor counts row.now }
    ensures { result ≡ least (output_fails rows.is_null counts code.now (nets_in counts row.now)) 0 counts.outputs }
{
    search::least(counts.outputs, |j| !is_null(code, counts, row, j))
}

// Whether all outputs are NULL.
pub fn all_null(code: &[u16], counts: Counts, row: &[u8]) -> bool
    requires { StageLoaded counts code.now × RowFor counts row.now }
    ensures { result ≡ rows.all_null (nets_in counts row.now) (stage_outputs counts code.now) }
{
    match first_not_null(code, counts, row) {
        Some(_) => false,
        None => true,
    }
}

// ---- the reference's values

// Whether output j is DATA1 for the value 1 and DATA0 for 0.
fn reads_as(code: &[u16], counts: Counts, row: &[u8], j: usize, value: u8) -> bool
    requires { StageLoaded counts code.now × (j < counts.outputs) × RowFor counts row.now × (value ≤ 1) }
    ensures { result ≡ rows.spells (rows.pair_in (nets_in counts row.now) (output_in counts code.now j)) value }
{
    let levels = rail_levels(code, counts, row, j);
    levels.rail1 == value && levels.rail0 + value == 1
}

// The least output that does not read as the value of its signal in the reference.
pub fn first_misread(
    code: &[u16],
    counts: Counts,
    row: &[u8],
    reference: &[u16],
    sizes: Counts,
    values: &[u8],
) -> Option<usize>
    requires { StageLoaded counts code.now × RowFor counts row.now × ReferenceLoaded sizes reference.now × (counts.outputs ≤ sizes.outputs)
        × (sizes.inputs + sizes.gates ≤ length values.now) × ((i : ℕ) → get_or values.now i 0 ≤ 1) }
    ensures { result ≡ least (misread counts code.now (nets_in counts row.now) (λ j. get_or values.now
        (signal_in sizes reference.now j) 0)) 0 counts.outputs }
{
    search::least(counts.outputs, |j| {
        let value = circuit::level(values, circuit::form::signal_of(reference, sizes, j));
        !reads_as(code, counts, row, j, value)
    })
}

// ---- the signals of a reference

// An operation on two bits: 1 NOT, 2 AND, 3 OR, 4 XOR, 5 NAND, 6 NOR. NOT has only the first.
fn operate(operation: u16, a: u8, b: u8) -> u8
    requires { (a ≤ 1) × (b ≤ 1) }
    ensures { (result ≡ answers.operate operation (a ∷ b ∷ [])) × (result ≤ 1) }
{
    match operation {
        1 => 1 - a,
        2 => a.min(b),
        3 => a.max(b),
        4 => (a + b) % 2,
        5 => 1 - a.min(b),
        6 => 1 - a.max(b),
        _ => 0,
    }
}

// The value of gate k, from the values of the signals before it.
fn operator_value(reference: &[u16], sizes: Counts, k: usize, values: &[u8]) -> u8
    requires { ReferenceLoaded sizes reference.now × (k < sizes.gates) × (sizes.inputs + k ≤ length values.now)
        × ((i : ℕ) → get_or values.now i 0 ≤ 1) }
    ensures { (result ≡ answers.operate (operator_in reference.now k).code (answers.values_at (take (sizes.inputs + k) values.now)
        (operator_in reference.now k).operands)) × (result ≤ 1) }
{
    let operands = circuit::form::operands_of(reference, sizes, k);
    operate(
        circuit::form::operation_of(reference, sizes, k),
        circuit::level(values, operands.a),
        circuit::level(values, operands.b),
    )
}

// The values of all signals: the inputs' are there, and each gate's is written after those before it.
pub fn signal_values(reference: &[u16], sizes: Counts, values: &mut [u8])
    requires { ReferenceLoaded sizes reference.now × (sizes.inputs + sizes.gates ≤ length values.old)
        × ((i : ℕ) → get_or values.old i 0 ≤ 1) }
    ensures { (take (sizes.inputs + sizes.gates) values.new ≡ answers.signal_values (take sizes.inputs values.old)
        (operators_in sizes reference.now)) × ((i : ℕ) → get_or values.new i 0 ≤ 1) }
{
    let inputs = sizes.inputs;
    for k in 0..sizes.gates {
        values[inputs + k] = operator_value(reference, sizes, k, values);
    }
}
