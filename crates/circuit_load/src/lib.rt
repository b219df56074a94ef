// Loading a stage or a reference that was read into its flat form, number by number. After this nothing looks at the bytes of a file.
#![tactic(auto)]

ghost use Rattle.std.specs.Prelude.{◌≡◌, ◌∷◌, [], ℕ, ◌+◌, ◌*◌, ◌^◌, ◌≤◌, ◌<◌, length, get_or};
ghost use Rattle.netlist.specs.declared.File.TheVariants as file;
ghost use Rattle.netlist.specs.Commands.{stage_file, most_parts};
ghost use Rattle.netlist.specs.Reading.{nets_of, read_file, stage_limits, reference_limits, NoMore, Within};
ghost use Rattle.netlist.specs.Read.{outcome_of};
ghost use Rattle.netlist.specs.Content.{stage_of, reference_of};
ghost use Rattle.read_file.specs.Files.{part_noted};
ghost use Rattle.wiring_spec.specs.Parts.{part_at};
ghost use Rattle.write_command.specs.Put.{Put};
ghost use Rattle.circuit.specs.Stage.{stage_in, stage_size, largest_stage};
ghost use Rattle.circuit.specs.Reference.{reference_in, reference_size, largest_reference, ReferenceLoaded};
ghost use Rattle.circuit_load.specs.Load.{places_in, FileRead, StageRead, RawStage, ground_of, HoldsStage, HoldsReference};
ghost use Rattle.circuit_load.specs.Load.{pin_number, cell_row, gate_row, gates_number, output_number, WrittenTo, operator_number, reference_number};
ghost use Rattle.circuit_load.specs.Parts.{net_rows, register_rows, NotesRead, parts_in, PartPut, PipelineHeld, HoldsPipeline};

use gates::Kind;
use netlist::{Counts, File, Limits, Refusal};

// The room that the nets of the most registers and C-elements take, and the registers.
pub const NETS_CODE: usize = 32 * netlist::PARTS;

pub const REGISTERS_CODE: usize = 4 * netlist::PARTS;

// The room that reading takes for the places of a stage, and of a reference.
const STAGE_PLACES: usize = netlist::STAGE_GATES
    + netlist::OUTPUTS
    + 2 * netlist::PARTS
    + netlist::WORDS;

const REFERENCE_PLACES: usize = netlist::REFERENCE_GATES + netlist::OUTPUTS + 2 * netlist::PARTS;

// ---- a stage

// The net at pin i of the gate command at a place, or the ground where its kind lacks the pin.
fn pin_number(s: &[u8], at: usize, pins: u8, ground: u16, i: usize) -> u16
    requires { (at + 10 ≤ length s.now) × (i < 4) }
    ensures { result ≡ pin_number s.now at pins ground i }
{
    if i < pins as usize {
        return netlist::operand(s, at + 2 + 2 * i);
    }
    ground
}

// The numbers of gate k: its cell, the nets at its pins, its places in the order, which are not known yet, and 1 for hold or 0.
#[tactic(auto, using(write_command::proofs::Joining::put_copied))]
fn put_gate(code: &mut [u16], k: usize, cell: u16, a: u16, b: u16, c: u16, d: u16, hold: u16)
    requires { 8 * k + 8 ≤ length code.old }
    ensures { Put code.old (8 * k) (cell ∷ a ∷ b ∷ c ∷ d ∷ 0 ∷ 0 ∷ hold ∷ []) code.new }
{
    let at = 8 * k;
    code[at..at + 8].copy_from_slice(&[cell, a, b, c, d, 0, 0, hold]);
}

// The numbers of a gate of a cell, with hold 1 or 0, whose command stands at a place.
fn put_cell(
    s: &[u8],
    at: usize,
    cell: u8,
    pins: u8,
    hold: u16,
    ground: u16,
    code: &mut [u16],
    k: usize,
)
    requires { (at + 10 ≤ length s.now) × (8 * k + 8 ≤ length code.old) }
    ensures { Put code.old (8 * k) (cell_row s.now at cell pins hold ground) code.new }
{
    let a = pin_number(s, at, pins, ground, 0);
    let b = pin_number(s, at, pins, ground, 1);
    let c = pin_number(s, at, pins, ground, 2);
    let d = pin_number(s, at, pins, ground, 3);
    put_gate(code, k, cell as u16, a, b, c, d, hold);
}

// The numbers of gate k, whose command stands at a place.
fn load_gate(s: &[u8], at: usize, ground: u16, code: &mut [u16], k: usize)
    requires { (at + 10 ≤ length s.now) × (8 * k + 8 ≤ length code.old) }
    ensures { Put code.old (8 * k) (gate_row s.now at ground) code.new }
{
    let kind = gates::kind_of(s[at + 1]);
    match kind {
        Kind::Hold { cell, pins } => put_cell(s, at, cell, pins, 1, ground, code, k),
        Kind::Relaxed { cell, pins } => put_cell(s, at, cell, pins, 0, ground, code, k),
        Kind::Unknown => put_gate(code, k, 0, 0, 0, 0, 0, 0),
    }
}

// The numbers of so many gates, whose commands stand at some places.
fn load_gates(s: &[u8], places: &[u16], count: usize, ground: u16, code: &mut [u16])
    requires { (count ≤ length places.now) × ((k : ℕ) → k < count → get_or places.now k 0 + 10 ≤ length s.now) × (8 * count ≤ length code.old) }
    ensures long { length code.new ≡ length code.old }
    ensures written { WrittenTo (gates_number s.now places.now ground) code.new (8 * count) }
{
    for k in 0..count {
        load_gate(s, places[k] as usize, ground, code, k);
    }
}

// Number j of those that follow the gates: the rails of the outputs, then the care words.
fn output_number(s: &[u8], places: &[u16], most: Limits, counts: Counts, j: usize) -> u16
    requires { StageRead most s.now places.now counts × NoMore most stage_limits × (j < 2 * counts.outputs + counts.care) }
    ensures { result ≡ output_number most s.now places.now counts j }
{
    let rails = 2 * counts.outputs;
    if j < rails {
        let at = places[most.gates + j / 2] as usize;
        return netlist::operand(s, at + 1 + 2 * (j % 2));
    }
    let k = j - rails;
    places[most.gates + most.outputs + 2 * netlist::PARTS + k]
}

// The stage that the file holds, in its flat form, with a ground for pins that a kind lacks; its gates are in no order yet.
fn load_stage(s: &[u8], places: &[u16], most: Limits, counts: Counts, ground: u16, code: &mut [u16])
    requires { StageRead most s.now places.now counts × NoMore most stage_limits
        × (stage_size counts ≤ length code.old) }
    ensures same { stage_in counts code.new ≡ stage_of s.now (places_in most counts places.now) }
    ensures raw { RawStage (nets_of (places_in most counts places.now)) counts ground code.new }
{
    load_gates(s, places, counts.gates, ground, code);
    let first = 8 * counts.gates;
    for j in 0..2 * counts.outputs + counts.care {
        code[first + j] = output_number(s, places, most, counts, j);
    }
}

// The ground of a stage.
fn ground_of(counts: Counts) -> u16
    requires { Within stage_limits counts }
    ensures { result ≡ ground_of counts }
{
    if counts.registers == 0 {
        return (2 * counts.inputs + counts.gates) as u16;
    }
    0xFFFF
}

// ---- registers and C-elements

// How many nets after the gates, and how many registers, stand before a register or C-element.
#[derive(Clone, Copy)]
pub struct Spot {
    pub net: usize,
    pub register: usize,
}

// The row of net x after the gates: its sort, its pins, and the number of its register.
#[tactic(auto, using(write_command::proofs::Joining::put_copied))]
fn put_net(nets: &mut [u16], x: usize, sort: u16, a: u16, b: u16, c: u16, d: u16, k: u16)
    requires { 8 * x + 8 ≤ length nets.old }
    ensures { Put nets.old (8 * x) (sort ∷ a ∷ b ∷ c ∷ d ∷ 0 ∷ k ∷ 0 ∷ []) nets.new }
{
    let at = 8 * x;
    nets[at..at + 8].copy_from_slice(&[sort, a, b, c, d, 0, k, 0]);
}

// The row of register k: the net of its rail 0, the nets at its data, and the net at its Ki.
#[tactic(auto, using(write_command::proofs::Joining::put_copied))]
fn put_register(regs: &mut [u16], k: usize, rail: u16, a: u16, b: u16, ki: u16)
    requires { 4 * k + 4 ≤ length regs.old }
    ensures { Put regs.old (4 * k) (rail ∷ a ∷ b ∷ ki ∷ []) regs.new }
{
    let at = 4 * k;
    regs[at..at + 4].copy_from_slice(&[rail, a, b, ki]);
}

// The rows of the register or C-element of a note; what stands before the next.
fn put_part(
    s: &[u8],
    note: u16,
    first: usize,
    here: Spot,
    nets: &mut [u16],
    regs: &mut [u16],
) -> Spot
    requires { NotesRead s.now (note ∷ []) × (first + here.net < 2 ^ 16) × (here.register < 2 ^ 16)
        × (8 * here.net + length (net_rows here.register (parts_in s.now (note ∷ []))) ≤ length nets.old)
        × (4 * here.register + length (register_rows (first + here.net) (parts_in s.now (note ∷ []))) ≤ length regs.old) }
    ensures { PartPut (part_at s.now (part_noted note)) first here nets.old nets.new regs.old
        regs.new result }
{
    let at = (note / 2) as usize;
    let x = here.net;
    let k = here.register;
    let a = netlist::operand(s, at + 1);
    let b = netlist::operand(s, at + 3);
    let c = netlist::operand(s, at + 5);
    if note % 2 == 1 {
        let d = netlist::operand(s, at + 7);
        put_net(nets, x, 3, a, b, c, d, 0);
        return Spot {
            net: x + 1,
            register: k,
        };
    }
    put_net(nets, x, 1, a, 0, 0, 0, k as u16);
    put_net(nets, x + 1, 1, b, 0, 0, 0, k as u16);
    put_net(nets, x + 2, 2, 0, 0, 0, 0, k as u16);
    put_register(regs, k, (first + x) as u16, a, b, c);
    Spot {
        net: x + 3,
        register: k + 1,
    }
}

// The registers and C-elements of which there are notes, in both tables; `first` is the first net after the gates.
fn load_parts(s: &[u8], notes: &[u16], first: usize, nets: &mut [u16], regs: &mut [u16])
    requires { NotesRead s.now notes.now × (first + 3 * length notes.now < 2 ^ 16)
        × (length (net_rows 0 (parts_in s.now notes.now)) ≤ length nets.old)
        × (length (register_rows first (parts_in s.now notes.now)) ≤ length regs.old) }
    ensures nets { Put nets.old 0 (net_rows 0 (parts_in s.now notes.now)) nets.new }
    ensures registers { Put regs.old 0 (register_rows first (parts_in s.now notes.now)) regs.new }
{
    let mut here = Spot {
        net: 0,
        register: 0,
    };
    for note in notes {
        here = put_part(s, *note, first, here, nets, regs);
    }
}

// ---- a stage file

// The stage that the file holds, and its registers and C-elements.
fn load_pipeline(
    s: &[u8],
    places: &[u16],
    most: Limits,
    counts: Counts,
    code: &mut [u16],
    nets: &mut [u16],
    regs: &mut [u16],
)
    requires { StageRead most s.now places.now counts × NoMore most stage_limits
        × (largest_stage ≤ length code.old)
        × (32 * most_parts ≤ length nets.old) × (4 * most_parts ≤ length regs.old) }
    ensures { PipelineHeld s.now (places_in most counts places.now) code.new nets.new regs.new }
{
    load_stage(s, places, most, counts, ground_of(counts), code);
    let from = most.gates + most.outputs;
    let end = from + (counts.registers + counts.elements);
    load_parts(
        s,
        &places[from..end],
        2 * counts.inputs + counts.gates,
        nets,
        regs,
    );
}

// Reads a stage file, with registers or without, within some limits, and loads what it holds.
pub fn read_pipeline_within(
    registers: bool,
    s: &[u8],
    most: Limits,
    code: &mut [u16],
    nets: &mut [u16],
    regs: &mut [u16],
) -> Result<Counts, Refusal>
    requires { NoMore most stage_limits × (largest_stage ≤ length code.old)
        × (32 * most_parts ≤ length nets.old) × (4 * most_parts ≤ length regs.old) }
    ensures answered { result ≡ outcome_of (read_file (stage_file registers) most s.now) }
    ensures loaded { HoldsPipeline s.now (read_file (stage_file registers) most s.now) code.new nets.new
        regs.new }
{
    let mut places = [0u16; STAGE_PLACES];
    let outcome = read_file::read_file(netlist::stage_file(registers), most, s, &mut places);
    if let Ok(counts) = outcome {
        load_pipeline(s, &places, most, counts, code, nets, regs);
    }
    outcome
}

// Reads a stage file without registers, within the limits of a stage file, and loads the stage that it holds.
pub fn read_stage(s: &[u8], code: &mut [u16]) -> Result<Counts, Refusal>
    requires { largest_stage ≤ length code.old }
    ensures answered { result ≡ outcome_of (read_file file.Stage stage_limits s.now) }
    ensures loaded { HoldsStage s.now (read_file file.Stage stage_limits s.now) code.new }
{
    let mut places = [0u16; STAGE_PLACES];
    let most = netlist::stage_limits();
    let outcome = read_file::read_file(File::Stage, most, s, &mut places);
    if let Ok(counts) = outcome {
        load_stage(s, &places, most, counts, ground_of(counts), code);
    }
    outcome
}

// ---- a reference

// Number j of the gate whose command stands at a place.
fn operator_number(s: &[u8], at: usize, j: usize) -> u16
    requires { at + 6 ≤ length s.now }
    ensures { result ≡ operator_number s.now at j }
{
    let operation = s[at + 1];
    if j == 0 {
        return operation as u16;
    }
    if j == 1 {
        return netlist::operand(s, at + 2);
    }
    if operation == 1 {
        return netlist::operand(s, at + 2);
    }
    netlist::operand(s, at + 4)
}

// Number i of the reference.
fn reference_number(s: &[u8], places: &[u16], most: Limits, counts: Counts, i: usize) -> u16
    requires { FileRead file.Reference most s.now places.now counts × NoMore most reference_limits × (i < reference_size counts) }
    ensures { result ≡ reference_number most s.now places.now counts i }
{
    let end = 3 * counts.gates;
    if i < end {
        return operator_number(s, places[i / 3] as usize, i % 3);
    }
    let j = i - end;
    let at = places[most.gates + j] as usize;
    netlist::operand(s, at + 1)
}

// The reference that the file holds, in its flat form.
pub fn load_reference(s: &[u8], places: &[u16], most: Limits, sizes: Counts, reference: &mut [u16])
    requires { FileRead file.Reference most s.now places.now sizes × NoMore most reference_limits
        × (reference_size sizes ≤ length reference.old) }
    ensures same { reference_in sizes reference.new ≡ reference_of s.now (places_in most sizes places.now) }
    ensures loaded { ReferenceLoaded sizes reference.new }
{
    for i in 0..3 * sizes.gates + sizes.outputs {
        reference[i] = reference_number(s, places, most, sizes, i);
    }
}

// Reads a reference file within some limits, and loads the reference that it holds.
pub fn read_reference_within(s: &[u8], most: Limits, code: &mut [u16]) -> Result<Counts, Refusal>
    requires { NoMore most reference_limits × (largest_reference ≤ length code.old) }
    ensures answered { result ≡ outcome_of (read_file file.Reference most s.now) }
    ensures loaded { HoldsReference s.now (read_file file.Reference most s.now) code.new }
{
    let mut places = [0u16; REFERENCE_PLACES];
    let outcome = read_file::read_file(File::Reference, most, s, &mut places);
    if let Ok(counts) = outcome {
        load_reference(s, &places, most, counts, code);
    }
    outcome
}
