// The numbers of the flat form by name: each function answers one field of a gate or an output of a loaded stage or reference.
ghost use Rattle.std.specs.Prelude.{◌≡◌, ◌<◌};
ghost use Rattle.circuit.specs.Stage.{gate_in, place_of, StageLoaded};
ghost use Rattle.circuit.specs.Order.{InOrder};
ghost use Rattle.circuit.specs.Reference.{ReferenceLoaded};
ghost use Rattle.circuit.specs.Form.{CellAt, PinCountAt, PinsAt, PinAt, GateAt, RailsAt, CareAt, GatePlaced, OperationAt, OperandsAt, SignalAt};

use netlist::Counts;

// How many numbers the largest stage takes: eight for a gate, two for an output, one for a care word.
pub const STAGE_CODE: usize = 8 * netlist::STAGE_GATES + 2 * netlist::OUTPUTS + netlist::WORDS;

// The largest reference: three for a gate, one for an output.
pub const REFERENCE_CODE: usize = 3 * netlist::REFERENCE_GATES + netlist::OUTPUTS;

// The nets at the four pins of a gate; a pin that it lacks is at the ground.
#[derive(Clone, Copy)]
pub struct Pins {
    pub a: u16,
    pub b: u16,
    pub c: u16,
    pub d: u16,
}

// The nets of the two rails of an output.
#[derive(Clone, Copy)]
pub struct Rails {
    pub rail0: u16,
    pub rail1: u16,
}

// The two operands of a reference's gate; NOT has its operand twice.
#[derive(Clone, Copy)]
pub struct Operands {
    pub a: u16,
    pub b: u16,
}

// ---- a stage

// The cell of gate k.
pub fn cell_of(code: &[u16], counts: Counts, k: usize) -> u16
    requires { StageLoaded counts code.now × (k < counts.gates) }
    ensures { CellAt code.now k result }
{
    code[8 * k]
}

// How many pins it has.
pub fn pin_count(code: &[u16], counts: Counts, k: usize) -> usize
    requires { StageLoaded counts code.now × (k < counts.gates) }
    ensures { PinCountAt code.now k result }
{
    let cell = cell_of(code, counts, k);
    if cell < 3 {
        return 2;
    }
    if cell < 8 {
        return 3;
    }
    4
}

// Whether gate k has hold.
pub fn has_hold(code: &[u16], counts: Counts, k: usize) -> bool
    requires { StageLoaded counts code.now × (k < counts.gates) }
    ensures { result ≡ (gate_in code.now k).hold }
{
    code[8 * k + 7] == 1
}

// The nets at its pins.
pub fn pins_of(code: &[u16], counts: Counts, k: usize) -> Pins
    requires { StageLoaded counts code.now × (k < counts.gates) }
    ensures { PinsAt counts code.now k result }
{
    let at = 8 * k;
    Pins {
        a: code[at + 1],
        b: code[at + 2],
        c: code[at + 3],
        d: code[at + 4],
    }
}

// The net at pin i of gate k.
pub fn pin_of(code: &[u16], counts: Counts, k: usize, i: usize) -> u16
    requires { StageLoaded counts code.now × (k < counts.gates) × (i < 4) }
    ensures { PinAt counts code.now k i result }
{
    code[8 * k + (1 + i)]
}

// The gate at place i of the order.
pub fn gate_at(code: &[u16], counts: Counts, i: usize) -> usize
    requires { StageLoaded counts code.now × InOrder counts code.now × (i < counts.gates) }
    ensures { GateAt counts code.now i result }
{
    code[8 * i + 5] as usize
}

// The place of gate k in the order.
pub fn place_of(code: &[u16], counts: Counts, k: usize) -> usize
    requires { StageLoaded counts code.now × (k < counts.gates) }
    ensures { result ≡ place_of code.now k }
{
    code[8 * k + 6] as usize
}

// Gate k takes place i of the order.
pub fn place_gate(code: &mut [u16], counts: Counts, k: usize, i: usize)
    requires { StageLoaded counts code.old × (k < counts.gates) × (i < counts.gates) }
    ensures { GatePlaced counts code.old code.new k i }
{
    code[8 * i + 5] = k as u16;
    code[8 * k + 6] = i as u16;
}

// The rails of output j.
pub fn rails_of(code: &[u16], counts: Counts, j: usize) -> Rails
    requires { StageLoaded counts code.now × (j < counts.outputs) }
    ensures { RailsAt counts code.now j result }
{
    let at = 8 * counts.gates + 2 * j;
    Rails {
        rail0: code[at],
        rail1: code[at + 1],
    }
}

// Care word i.
pub fn care_of(code: &[u16], counts: Counts, i: usize) -> usize
    requires { StageLoaded counts code.now × (i < counts.care) }
    ensures { CareAt counts code.now i result }
{
    let outputs = 8 * counts.gates;
    code[outputs + (2 * counts.outputs + i)] as usize
}

// ---- a reference

// The operation of gate k.
pub fn operation_of(reference: &[u16], sizes: Counts, k: usize) -> u16
    requires { ReferenceLoaded sizes reference.now × (k < sizes.gates) }
    ensures { OperationAt reference.now k result }
{
    reference[3 * k]
}

// Its operands.
pub fn operands_of(reference: &[u16], sizes: Counts, k: usize) -> Operands
    requires { ReferenceLoaded sizes reference.now × (k < sizes.gates) }
    ensures { OperandsAt sizes reference.now k result }
{
    let at = 3 * k;
    Operands {
        a: reference[at + 1],
        b: reference[at + 2],
    }
}

// The signal of output j.
pub fn signal_of(reference: &[u16], sizes: Counts, j: usize) -> u16
    requires { ReferenceLoaded sizes reference.now × (j < sizes.outputs) }
    ensures { SignalAt sizes reference.now j result }
{
    let from = 3 * sizes.gates;
    reference[from + j]
}
