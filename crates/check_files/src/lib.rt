// The check of two files: both are read and loaded, then the checks 10, 11, 12, 33, 34, 35, 28 and those that settle the stage in its words follow in this
// order. From 28 on they look at the stage whose registers are wires.
#![tactic(auto)]

ghost use Rattle.std.specs.Prelude.{◌≡◌, ◌∷◌, ◌+◌, ◌*◌, ◌/◌, ◌≤◌, length, Ok, Err};
ghost use Rattle.netlist.specs.Reading.{stage_limits, reference_limits, NoMore, Within};
ghost use Rattle.verdict.specs.Retired.{retired_at};
ghost use Rattle.verdict.specs.Search.{least};
ghost use Rattle.verdict.specs.Checks as checks;
ghost use Rattle.wiring_spec.specs.Wires.{resolve};
ghost use Rattle.wiring_spec.specs.Table.{wiring_checks};
ghost use Rattle.check_spec.specs.Content.{pipeline_of, wired, files, files_within};
ghost use Rattle.check_spec.specs.Verdicts.{verdict_on};
ghost use Rattle.check_spec.specs.Demands.{Demand2, Demand3};
ghost use Rattle.check_spec.specs.Loaded.{stage_view};
ghost use Rattle.circuit.specs.Stage.{net_count, stage_gates, stage_in, largest_stage, StageLoaded};
ghost use Rattle.circuit.specs.Reference.{reference_in, largest_reference, ReferenceLoaded};
ghost use Rattle.circuit_wire.specs.Wire.{ResolvedTo, WiredTo, stage_by};
ghost use Rattle.check_word.specs.Loaded.{BothLoaded};
ghost use Rattle.check_files.specs.Held.{StageHeld, Roomy, content_in, RegistersHeld, StageOrdered};
ghost use Rattle.check_files.specs.Judgement.{verdict_of, JudgedAs};

use netlist::{Counts, Limits};
use verdict::{Verdict, WordOrder};

// The counts of the two files of a pair that is accepted.
#[derive(Clone, Copy)]
pub struct Sizes {
    pub stage: Counts,
    pub reference: Counts,
}

// The least gate of a retired kind. A `for` and not `search::least`, with which the edit `retired-past-last` would be refused by a goal's name alone.
fn least_retired(code: &[u16], counts: Counts) -> Option<usize>
    requires { StageLoaded counts code.now }
    ensures { result ≡ least (retired_at (stage_gates counts code.now)) 0 counts.gates }
{
    for k in 0..counts.gates {
        if gates::is_retired(circuit::form::cell_of(code, counts, k)) {
            return Some(k);
        }
    }
    None
}

// 12: the least gate that reaches itself. Where there is none, the code then holds an order of the gates.
fn find_loop(code: &mut [u16], counts: Counts) -> Result<(), Verdict>
    requires { StageLoaded counts code.old }
    ensures found { result ≡ checks.finding (checks.looped (stage_in counts code.old)) }
    ensures passed { result ≡ Ok tt → StageOrdered counts code.new (stage_in counts code.old) }
{
    if let Some(g) = circuit_order::order_gates(code, counts) {
        return Err(Verdict::fault(12, 1, g));
    }
    Ok(())
}

// The registers become wires: each pin and each output gets the net that its own comes from.
fn connect(code: &mut [u16], counts: Counts, nets: &mut [u16])
    requires { Within stage_limits counts × (8 * counts.gates + 2 * counts.outputs ≤ length code.old)
        × (net_count counts + length nets.old / 8 ≤ 65536) }
    ensures resolved { ResolvedTo nets.old nets.new (net_count counts) counts.registers (length nets.old / 8) }
    ensures wired { WiredTo nets.new counts code.old code.old code.new
        (8 * counts.gates + 2 * counts.outputs) }
{
    let mut raw = [0u16; circuit::form::STAGE_CODE];
    circuit_wire::copy(code, &mut raw, 8 * counts.gates + 2 * counts.outputs);
    circuit_wire::resolve_rails(nets, 2 * counts.inputs + counts.gates, counts.registers);
    circuit_wire::wire_stage(nets, counts, &raw, code);
}

// Of a stage with registers 12, which follows gates only, then 33, 34 and 35. Where they find nothing the code then holds the stage whose registers are
// wires, with an order of its gates: that stage has no loop.
fn wire_registers(
    code: &mut [u16],
    counts: Counts,
    nets: &mut [u16],
    regs: &[u16],
) -> Result<(), Verdict>
    requires { RegistersHeld counts code.old nets.old regs.now }
    ensures found { (h : RegistersHeld counts code.old nets.old regs.now)
        → result ≡ checks.first_fault (checks.looped (stage_in counts code.old) ∷ wiring_checks h.pipeline) }
    ensures passed { (h : RegistersHeld counts code.old nets.old regs.now) → result ≡ Ok tt
        → StageOrdered counts code.new (stage_by (resolve h.pipeline) (stage_in counts code.old)) }
{
    let mut cut = [0u16; circuit::form::STAGE_CODE];
    let bare = circuit_wire::bare_counts(counts);
    circuit_wire::wire_stage(&nets[0..0], bare, code, &mut cut);
    find_loop(&mut cut, bare)?;
    // Not by `?`, for the edit `miswired-accepted`.
    if let Err(wiring) = check_wiring::check_registers(code, &cut, counts, nets, regs) {
        return Err(wiring);
    }
    connect(code, counts, nets);
    find_loop(code, counts)
}

// 12, then 33, 34 and 35 where there are registers. Where they find nothing the code then holds the wired stage, with an order of its gates.
fn check_wires(
    code: &mut [u16],
    counts: Counts,
    nets: &mut [u16],
    regs: &[u16],
) -> Result<(), Verdict>
    requires { StageHeld counts code.old nets.old regs.now × Roomy nets.old regs.now }
    ensures found { (h : StageHeld counts code.old nets.old regs.now)
        → result ≡ checks.first_fault (checks.looped (stage_view (content_in h)) ∷ wiring_checks (pipeline_of (content_in h))) }
    ensures passed { (h : StageHeld counts code.old nets.old regs.now) → result ≡ Ok tt
        → StageOrdered counts code.new (stage_view (wired (content_in h))) }
{
    if counts.registers == 0 {
        return find_loop(code, counts);
    }
    let end = 8 * (3 * counts.registers + counts.elements);
    wire_registers(code, counts, &mut nets[..end], regs)
}

// 10, then 11, then 12, 33, 34 and 35, then 28, then the sweeps over the words and 32.
fn judge(
    order: WordOrder,
    code: &mut [u16],
    counts: Counts,
    nets: &mut [u16],
    regs: &[u16],
    reference: &[u16],
    sizes: Counts,
) -> Result<(), Verdict>
    requires { StageHeld counts code.old nets.old regs.now × Roomy nets.old regs.now × ReferenceLoaded sizes reference.now }
    ensures found { (h : StageHeld counts code.old nets.old regs.now)
        → result ≡ checks.first_fault (checks.checks order (stage_view (content_in h)) (wiring_checks (pipeline_of (content_in h)))
        (stage_view (wired (content_in h))) (reference_in sizes reference.now)) }
    ensures passed { (h : StageHeld counts code.old nets.old regs.now) → result ≡ Ok tt
        → BothLoaded counts code.new sizes reference.now × (stage_in counts code.new ≡ stage_view (wired (content_in h))) }
{
    if counts.inputs != sizes.inputs {
        return Err(Verdict {
            number: 10,
            file: 0,
            at: counts.inputs as u64,
            word: sizes.inputs as u64,
        });
    }
    if counts.outputs != sizes.outputs {
        return Err(Verdict {
            number: 11,
            file: 0,
            at: counts.outputs as u64,
            word: sizes.outputs as u64,
        });
    }
    // Not by `?`: the edit `wiring-accepted` would be refused by a goal's name alone.
    if let Err(fault) = check_wires(code, counts, nets, regs) {
        return Err(fault);
    }
    if let Some(g) = least_retired(code, counts) {
        return Err(Verdict::fault(28, 1, g));
    }
    check_words::sweep_all(order, code, counts, reference, sizes)
}

// The check of a stage file, with registers or without, and a reference file, which are read within some limits, with words named in an order. The
// circuits of an accepted pair are left in the two slices.
pub fn check_loading(
    order: WordOrder,
    registers: bool,
    stage: &[u8],
    reference: &[u8],
    stage_most: Limits,
    reference_most: Limits,
    code: &mut [u16],
    loaded: &mut [u16],
) -> Result<Sizes, Verdict>
    requires { NoMore stage_most stage_limits × NoMore reference_most reference_limits
        × (largest_stage ≤ length code.old) × (largest_reference ≤ length loaded.old) }
    ensures { JudgedAs order (files_within registers stage_most reference_most stage.now reference.now) result
        code.new loaded.new }
{
    let mut nets = [0u16; circuit_load::NETS_CODE];
    let mut regs = [0u16; circuit_load::REGISTERS_CODE];
    let counts = match circuit_load::read_pipeline_within(
        registers, stage, stage_most, code, &mut nets, &mut regs,
    ) {
        Ok(counts) => counts,
        Err(refusal) => return Err(Verdict::unreadable(1, refusal)),
    };
    let sizes = match circuit_load::read_reference_within(reference, reference_most, loaded) {
        Ok(sizes) => sizes,
        Err(refusal) => return Err(Verdict::unreadable(2, refusal)),
    };
    judge(order, code, counts, &mut nets, &regs, loaded, sizes)?;
    Ok(Sizes {
        stage: counts,
        reference: sizes,
    })
}

// The verdict on a stage file, with registers or without, and a reference file, with words named in an order.
pub fn verdict_on(order: WordOrder, registers: bool, stage: &[u8], reference: &[u8]) -> Verdict
    ensures { result ≡ verdict_on order (files_within registers stage_limits reference_limits stage.now reference.now) }
{
    let mut code = [0u16; circuit::form::STAGE_CODE];
    let mut loaded = [0u16; circuit::form::REFERENCE_CODE];
    match check_loading(
        order,
        registers,
        stage,
        reference,
        netlist::stage_limits(),
        netlist::reference_limits(),
        &mut code,
        &mut loaded,
    ) {
        Ok(_) => Verdict::accepted(),
        Err(verdict) => verdict,
    }
}

// The check of a stage file and a reference file, with words named in an order. This call alone reads registers.
pub fn check(order: WordOrder, stage: &[u8], reference: &[u8]) -> Verdict
    ensures verdict { result ≡ verdict_on order (files stage.now reference.now) }
    ensures demand2 { Demand2 order (files stage.now reference.now) result }
    ensures runs { Demand3 order (files stage.now reference.now) result }
{
    verdict_on(order, true, stage, reference)
}
