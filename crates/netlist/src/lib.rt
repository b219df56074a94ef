// The stage and reference files: what stands in them, and how they are read. What it means is said in specs/.
#![tactic(auto)]

ghost use Rattle.std.specs.Prelude.{◌≡◌, ◌+◌, ◌<◌, length};
ghost use Rattle.netlist.specs.Bytes as bytes;
ghost use Rattle.netlist.specs.Commands as commands;
ghost use Rattle.netlist.specs.Reading as reading;

// Which file is read: a stage, a stage with registers, or a reference.
#[derive(Clone, Copy)]
pub enum File {
    Stage,
    Pipeline,
    Reference,
}

// A stage file, with registers or without. No `From<bool>`: where it is called, `true` alone would not say what it stands for.
pub fn stage_file(registers: bool) -> File
    ensures { result ≡ commands.stage_file registers }
{
    if registers {
        File::Pipeline
    } else {
        File::Stage
    }
}

// What a command byte calls for. An unknown byte is a case and no `None`: it has a row of the command table, with a width (`form_in`).
#[derive(Clone, Copy)]
pub enum Sort {
    End,
    Inputs,
    Gate,
    Output,
    Care,
    Unknown,
    Register,
    Element,
}

// The most inputs, gates and outputs that a file may have.
#[derive(Clone, Copy)]
pub struct Limits {
    pub inputs: usize,
    pub gates: usize,
    pub outputs: usize,
}

// What the two files may have; workspaces are as large as these make them.
pub const INPUTS: usize = 10;

pub const OUTPUTS: usize = 16;

pub const STAGE_GATES: usize = 256;

pub const REFERENCE_GATES: usize = 512;

// The gates that the files of a part may have, which is to be joined with another.
const PART_STAGE_GATES: usize = 128;

const PART_REFERENCE_GATES: usize = 256;

// The registers, and the C-elements, that a pipeline may have.
pub const PARTS: usize = 64;

// How many words that many inputs have, and so the most care words.
pub const WORDS: usize = 1 << INPUTS;

// The limits of a file with so many gates at most: all files have the same of inputs and of outputs.
fn with_gates(gates: usize) -> Limits
    ensures inputs { result.inputs ≡ reading.stage_limits.inputs }
    ensures gates { result.gates ≡ gates }
    ensures outputs { result.outputs ≡ reading.stage_limits.outputs }
{
    Limits {
        inputs: INPUTS,
        gates,
        outputs: OUTPUTS,
    }
}

// The limits of a stage file.
pub fn stage_limits() -> Limits
    ensures { result ≡ reading.stage_limits }
{
    with_gates(STAGE_GATES)
}

// The limits of a reference file.
pub fn reference_limits() -> Limits
    ensures { result ≡ reading.reference_limits }
{
    with_gates(REFERENCE_GATES)
}

// The limits of a part's stage file.
pub fn part_stage_limits() -> Limits
    ensures { result ≡ reading.part_stage_limits }
{
    with_gates(PART_STAGE_GATES)
}

// The limits of a part's reference file.
pub fn part_reference_limits() -> Limits
    ensures { result ≡ reading.part_reference_limits }
{
    with_gates(PART_REFERENCE_GATES)
}

// A position in a file.
#[derive(Clone, Copy)]
pub struct Cursor {
    pub at: usize,
}

// The count of the inputs command, how many gates, outputs, care words, registers and C-elements there are, and the least that the next care
// word may be: before a position of a file, or in all.
#[derive(Clone, Copy)]
pub struct Counts {
    pub inputs: usize,
    pub gates: usize,
    pub outputs: usize,
    pub care: usize,
    pub floor: usize,
    pub registers: usize,
    pub elements: usize,
}

// What stands at a position: a command, with the position after it, or the refusal that ends the reading. It is no `Result`: the reader of a file is to take
// `let Next::Command(..) = next else` (docs/promises/form.md).
#[derive(Clone, Copy)]
pub enum Next {
    Command(Sort, Cursor),
    Refused { number: u8, at: usize },
}

// What an operand has to name: any net of the stage, a signal of the reference that is an input or an earlier gate, any signal of the
// reference; or it is a number and names nothing. In a pipeline: a net that carries data; any net; any net, or FFFE.
#[derive(Clone, Copy)]
pub enum Role {
    AnyNet,
    EarlierSignal,
    AnySignal,
    Number,
    Data,
    Pin,
    Request,
}

// A row of the command table: the sort of a command, how many bytes stand before its operands, the command byte included, and how many u16
// operands follow.
#[derive(Clone, Copy)]
pub struct Form {
    pub sort: Sort,
    pub lead: usize,
    pub operands: usize,
}

// Why a file cannot be read: a number, and the place that it names. The numbers are those of docs/VERDICTS.md, which definitions, callers in C and users
// know: an enum of them would be turned back into the number wherever it is met.
#[derive(Clone, Copy)]
pub struct Refusal {
    pub number: u8,
    pub at: usize,
}

// The u16 operand at a place, low byte first.
pub fn operand(s: &[u8], at: usize) -> u16
    requires { at + 1 < length s.now }
    ensures { result ≡ bytes.operand s.now at }
{
    s[at] as u16 + 256 * (s[at + 1] as u16)
}
