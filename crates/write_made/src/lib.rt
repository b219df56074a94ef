// What makes a stage from a loaded reference: the signals that lead to no output (25), how many gates it needs (26), and one operation as
// gates of a stage, put into a buffer.
#![tactic(auto)]

ghost use Rattle.std.specs.Prelude.{◌≡◌, not, [], ◌∷◌, ◌+◌, ◌≤◌, ◌<◌, ℕ, ◌*◌, length, set};
ghost use Rattle.netlist.specs.Reading.{reference_limits, stage_limits};
ghost use Rattle.netlist.specs.Formed.{ReferenceFormed};
ghost use Rattle.netlist.specs.declared.File.TheVariants as file;
ghost use Rattle.verdict.specs.Rows.{high};
ghost use Rattle.verdict.specs.Search.{least};
ghost use Rattle.netlist.specs.Writing as writing;
ghost use Rattle.make_spec.specs.Make.{gate, realize, leads_out};
ghost use Rattle.make_spec.specs.Count.{operations};
ghost use Rattle.make_spec.specs.Marks.{marked, marked_from};
ghost use Rattle.circuit.specs.Reference.{operator_in, operators_in, signals_in, reference_in, ReferenceLoaded};
ghost use Rattle.write_command.specs.Put.{Put};
ghost use Rattle.write_command.specs.Parts.{bytes_of};
ghost use Rattle.write_made.specs.Rails.{content_in, pair_of, pair_stored, becomes};

use circuit::form::Rails;
use netlist::Counts;

// ---- 25: signals that are no output and lead to none

// Marks the outputs.
fn mark_outputs(reference: &[u16], sizes: Counts, marks: &mut [u8])
    requires { ReferenceLoaded sizes reference.now × (sizes.inputs + sizes.gates ≤ length marks.old) }
    ensures { marks.new ≡ marked marks.old (signals_in sizes reference.now) }
{
    for j in 0..sizes.outputs {
        let signal = circuit::form::signal_of(reference, sizes, j) as usize;
        marks[signal] = 1;
    }
}

// Marks the operands of gate k.
fn mark_operands(reference: &[u16], sizes: Counts, k: usize, marks: &mut [u8])
    requires { ReferenceLoaded sizes reference.now × (k < sizes.gates) × (sizes.inputs + sizes.gates ≤ length marks.old) }
    ensures { marks.new ≡ marked marks.old (operator_in reference.now k).operands }
{
    let operands = circuit::form::operands_of(reference, sizes, k);
    let a = operands.a as usize;
    marks[a] = 1;
    if circuit::form::operation_of(reference, sizes, k) != 1 {
        let b = operands.b as usize;
        marks[b] = 1;
    }
}

// Marks the operands of every marked gate, of the last first.
fn mark_leading(reference: &[u16], sizes: Counts, marks: &mut [u8])
    requires { ReferenceLoaded sizes reference.now × (sizes.inputs + sizes.gates ≤ length marks.old) }
    ensures { marks.new ≡ marked_from sizes.inputs (operators_in sizes reference.now) marks.old }
{
    let inputs = sizes.inputs;
    for k in (0..sizes.gates).rev() {
        if 0 < marks[inputs + k] {
            mark_operands(reference, sizes, k, marks);
        }
    }
}

// The least of the first signals that is not marked.
fn unmarked(marks: &[u8], count: usize) -> Option<usize>
    requires { count ≤ length marks.now }
    ensures { result ≡ least (λ x. not (high marks.now x)) 0 count }
{
    for x in 0..count {
        if marks[x] == 0 {
            return Some(x);
        }
    }
    None
}

// The least signal that is no output and leads to none.
pub fn leading_nowhere(reference: &[u16], sizes: Counts) -> Option<usize>
    requires { ReferenceLoaded sizes reference.now × ReferenceFormed reference_limits (reference_in sizes reference.now) }
    ensures { result ≡ least (λ x. not (leads_out (content_in sizes reference.now) x)) 0 (sizes.inputs + sizes.gates) }
{
    let mut marks = [0u8; circuit::SIGNALS];
    mark_outputs(reference, sizes, &mut marks);
    mark_leading(reference, sizes, &mut marks);
    unmarked(&marks, sizes.inputs + sizes.gates)
}

// ---- 26: how many gates are needed

// How many gates of the reference are not NOT.
pub fn operation_count(reference: &[u16], sizes: Counts) -> usize
    requires { ReferenceLoaded sizes reference.now }
    ensures { (result ≡ operations (operators_in sizes reference.now)) × (result ≤ sizes.gates) }
{
    let mut count: usize = 0;
    for k in (0..sizes.gates).rev() {
        if circuit::form::operation_of(reference, sizes, k) != 1 {
            count += 1;
        }
    }
    count
}

// ---- one operation as gates

// The rails of a signal.
pub fn rails_of(rails: &[u16], signal: u16) -> Rails
    requires { 2 * signal + 1 < length rails.now }
    ensures { pair_of result ≡ pair_stored rails.now signal }
{
    let at = 2 * (signal as usize);
    Rails {
        rail0: rails[at],
        rail1: rails[at + 1],
    }
}

// The rails of an operation's result, where the next gate drives net `next`: NOT swaps the rails of its operand; AND and NOR have rail 1 first,
// the others rail 0. Two arms are alike: behind an arm of two numbers the last one does not know that it is neither.
fn result_rails(operation: u16, a: Rails, next: u16) -> Rails
    requires { (1 ≤ operation) × (operation ≤ 6) × (next < 0xFFFF) }
    ensures { (b : Rails) → pair_of result ∷ [] ≡ (realize operation (pair_of a) (pair_of b) next).rails }
{
    match operation {
        1 => Rails {
            rail0: a.rail1,
            rail1: a.rail0,
        },
        2 => Rails {
            rail0: next + 1,
            rail1: next,
        },
        6 => Rails {
            rail0: next + 1,
            rail1: next,
        },
        _ => Rails {
            rail0: next,
            rail1: next + 1,
        },
    }
}

// The two gates of AND: TH22 of the rails 1, then THand0. OR has the same two with rails 0 and 1 of its operands exchanged.
fn put_and(buffer: &mut [u8], at: usize, a0: u16, b0: u16, a1: u16, b1: u16)
    requires { at + 20 ≤ length buffer.old }
    ensures { Put buffer.old at (bytes_of file.Stage writing.gate (gate 2 (a1 ∷ b1 ∷ []) ∷ gate 26 (a0 ∷ b0 ∷ a1 ∷ b1 ∷ []) ∷ []))
        buffer.new }
{
    write_command::put_stage_gate(buffer, at, 2, a1, b1, 0xFFFF, 0xFFFF);
    write_command::put_stage_gate(buffer, at + 10, 26, a0, b0, a1, b1);
}

// THxor0, then TH24comp of the same pins.
fn put_xor(buffer: &mut [u8], at: usize, a0: u16, b0: u16, a1: u16, b1: u16)
    requires { at + 20 ≤ length buffer.old }
    ensures { Put buffer.old at (bytes_of file.Stage writing.gate
        (gate 25 (a0 ∷ b0 ∷ a1 ∷ b1 ∷ []) ∷ gate 27 (a0 ∷ b0 ∷ a1 ∷ b1 ∷ []) ∷ [])) buffer.new }
{
    write_command::put_stage_gate(buffer, at, 25, a0, b0, a1, b1);
    write_command::put_stage_gate(buffer, at + 10, 27, a0, b0, a1, b1);
}

// The two gates of an operation that is not NOT. NAND and NOR have the gates of AND and OR; NAND has an arm of its own, as in `result_rails`.
fn put_operation(buffer: &mut [u8], at: usize, operation: u16, a: Rails, b: Rails)
    requires { (2 ≤ operation) × (operation ≤ 6) × (at + 20 ≤ length buffer.old) }
    ensures { (next : ℕ) → Put buffer.old at (bytes_of file.Stage writing.gate (realize operation (pair_of a) (pair_of b) next).gates)
        buffer.new }
{
    match operation {
        2 => put_and(buffer, at, a.rail0, b.rail0, a.rail1, b.rail1),
        4 => put_xor(buffer, at, a.rail0, b.rail0, a.rail1, b.rail1),
        5 => put_and(buffer, at, a.rail0, b.rail0, a.rail1, b.rail1),
        _ => put_and(buffer, at, a.rail1, b.rail1, a.rail0, b.rail0),
    }
}

// Gate k of the reference, where `made` gates were put before: its gates are put, its rails stored. Answers how many gates are put then. A NOT has its
// operand twice in the flat form, so that both are read without a test.
pub fn put_gate(
    buffer: &mut [u8],
    reference: &[u16],
    sizes: Counts,
    k: usize,
    rails: &mut [u16],
    made: usize,
) -> usize
    requires { ReferenceLoaded sizes reference.now × (k < sizes.gates) × (2 * (sizes.inputs + sizes.gates) ≤ length rails.old)
        × (made ≤ stage_limits.gates)
        × (2 + 10 * (made + 2 * operations (operator_in reference.now k ∷ [])) ≤ length buffer.old) }
    ensures count { result ≡ made + length (becomes sizes reference.now k rails.old made).gates }
    ensures put { Put buffer.old (2 + 10 * made)
        (bytes_of file.Stage writing.gate (becomes sizes reference.now k rails.old made
        ).gates) buffer.new }
    ensures rails { (p : Rails) × (pair_of p ∷ [] ≡ (becomes sizes reference.now k rails.old made).rails)
        × (rails.new ≡ set (set rails.old (2 * (sizes.inputs + k)) p.rail0) (2 * (sizes.inputs + k) + 1) p.rail1) }
{
    let at = 2 * (sizes.inputs + k);
    let operation = circuit::form::operation_of(reference, sizes, k);
    let operands = circuit::form::operands_of(reference, sizes, k);
    let a = rails_of(rails, operands.a);
    let b = rails_of(rails, operands.b);
    let result = result_rails(operation, a, (2 * sizes.inputs + made) as u16);
    rails[at] = result.rail0;
    rails[at + 1] = result.rail1;
    if operation == 1 {
        return made;
    }
    put_operation(buffer, 2 + 10 * made, operation, a, b);
    made + 2
}
