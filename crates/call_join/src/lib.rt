// The join of two stages with their references: output j of the first is tied to input j of the second, and the whole is written into two
// buffers that the caller lends.
#![tactic(auto)]

ghost use Rattle.std.specs.Prelude.{◌≡◌, ℕ, ◌+◌, ◌*◌, ◌^◌, ◌≤◌, ◌<◌, length, get_or};
ghost use Rattle.netlist.specs.Content.{Stage, Reference};
ghost use Rattle.netlist.specs.Reading.{stage_limits};
ghost use Rattle.verdict.specs.Words.{names};
ghost use Rattle.verdict.specs.Checks.{sweep};
ghost use Rattle.circuit.specs.Stage.{stage_care, stage_in, StageLoaded};
ghost use Rattle.circuit.specs.Reference.{reference_in, ReferenceLoaded};
ghost use Rattle.words.specs.Listed.{Marked};
ghost use Rattle.lane_cells.specs.Lane.{lane};
ghost use Rattle.check_spec.specs.Cases.{judge};
ghost use Rattle.check_spec.specs.Content.{Files, part_files};
ghost use Rattle.join_spec.specs.Joining.{whole, seam_checks, JoinDemand};
ghost use Rattle.call_join.specs.Steps.{uncared_for, answer_in, NamesUncared, uncared_under, PartsLoaded, PartsHeld, answer_with, Leaves};

use join_spec::JoinAnswer;
use netlist::Counts;
use verdict::{Verdict, WordOrder};

// ---- 23: words whose answer the second part does not care for

// The word that the outputs of a reference spell in word j of a block, from the values of its signals there: output k is bit k.
fn word_answered(reference: &[u16], sizes: Counts, values: &[u64], j: usize) -> usize
    requires { ReferenceLoaded sizes reference.now × (sizes.inputs + sizes.gates ≤ length values.now) × (j < 64) }
    ensures { result ≡ answer_in sizes reference.now values.now j }
{
    let mut word: usize = 0;
    for k in (0..sizes.outputs).rev() {
        let signal = circuit::form::signal_of(reference, sizes, k);
        let rest = lane_cells::lanes_at(values, signal) >> j;
        word = (rest % 2) as usize + 2 * word;
    }
    word
}

// The words of a block whose answer the second part does not care for, from the values of the first's signals there. The care words are marked.
fn uncared_words(
    reference1: &[u16],
    sizes1: Counts,
    values: &[u64],
    code2: &[u16],
    counts2: Counts,
    marks: &[u8],
) -> u64
    requires { ReferenceLoaded sizes1 reference1.now × (sizes1.inputs + sizes1.gates ≤ length values.now) × StageLoaded counts2 code2.now
        × Marked (stage_care counts2 code2.now) marks.now × (2 ^ sizes1.outputs ≤ length marks.now) }
    ensures { (j : ℕ) → j < 64 → lane j result ≡ uncared_for (stage_in counts2 code2.now) (answer_in sizes1 reference1.now
        values.now j) }
{
    let mut words: u64 = 0;
    for j in 0..64 {
        let answer = word_answered(reference1, sizes1, values, j);
        if words::is_marked(code2, counts2, marks, answer) {
            continue;
        }
        words |= 1 << j;
    }
    words
}

// Those of all words that so many inputs have, as a mask for each block.
fn uncared_masks(
    inputs: usize,
    reference1: &[u16],
    sizes1: Counts,
    code2: &[u16],
    counts2: Counts,
) -> [u64; lane_settle::BLOCKS]
    requires { (inputs ≤ stage_limits.inputs) × ReferenceLoaded sizes1 reference1.now × StageLoaded counts2 code2.now
        × (sizes1.outputs ≡ counts2.inputs) }
    ensures { NamesUncared inputs (reference_in sizes1 reference1.now) (stage_in counts2 code2.now) result }
{
    let mut marks = [0u8; words::NAMES];
    words::mark_care(code2, counts2, &mut marks);
    let mut values = [0u64; circuit::SIGNALS];
    let mut masks = [0u64; lane_settle::BLOCKS];
    for b in 0..lane_settle::block_count(inputs) {
        lane_cells::signal_lanes(reference1, sizes1, b, &mut values);
        masks[b] = uncared_words(reference1, sizes1, &values, code2, counts2, &marks);
    }
    masks
}

// The least of some names whose word the masks name.
fn uncared_named(
    order: WordOrder,
    list: &[u16],
    inputs: usize,
    masks: &[u64],
) -> Result<(), Verdict>
    requires { (inputs ≤ stage_limits.inputs) × ((k : ℕ) → k < length list.now → get_or list.now k 0 < 2 ^ inputs) }
    ensures { (function : Reference) (second : Stage) → NamesUncared inputs function second masks.now
        → result ≡ sweep 23 0 (uncared_under order inputs function second) list.now }
{
    for name in list {
        let w = words::word_of(order, inputs, *name as usize);
        if lane_screen::is_named(masks, w) {
            return Err(Verdict {
                number: 23,
                file: 0,
                at: 0,
                word: *name as u64,
            });
        }
    }
    Ok(())
}

// The same of the names of the first part's words.
fn uncared_listed(
    order: WordOrder,
    code1: &[u16],
    counts1: Counts,
    masks: &[u64],
) -> Result<(), Verdict>
    requires { StageLoaded counts1 code1.now }
    ensures { (function : Reference) (second : Stage) → NamesUncared counts1.inputs function second masks.now
        → result ≡ sweep 23 0 (uncared_under order counts1.inputs function second) (names order (stage_in counts1 code1.now)) }
{
    let mut list = [0u16; words::NAMES];
    let count = words::list_names(order, code1, counts1, &mut list);
    uncared_named(order, &list[..count], counts1.inputs, masks)
}

// The least word of the first part, by its name, whose answer the second does not care for. Without a care list it cares for every answer, and
// where the masks name none of the first part's words they are not looked at by name.
fn uncared(
    order: WordOrder,
    code1: &[u16],
    counts1: Counts,
    reference1: &[u16],
    sizes1: Counts,
    code2: &[u16],
    counts2: Counts,
) -> Result<(), Verdict>
    requires { StageLoaded counts1 code1.now × ReferenceLoaded sizes1 reference1.now × StageLoaded counts2 code2.now
        × (sizes1.outputs ≡ counts2.inputs) }
    ensures { result ≡ sweep 23 0 (uncared_under order counts1.inputs (reference_in sizes1 reference1.now) (stage_in counts2 code2.now))
        (names order (stage_in counts1 code1.now)) }
{
    if counts2.care == 0 {
        return Ok(());
    }
    let masks = uncared_masks(counts1.inputs, reference1, sizes1, code2, counts2);
    if lane_screen::none_named(&masks, code1, counts1) {
        return Ok(());
    }
    uncared_listed(order, code1, counts1, &masks)
}

// ---- the call

// The counts of the four files.
#[derive(Clone, Copy)]
pub struct FileCounts {
    pub stage1: Counts,
    pub reference1: Counts,
    pub stage2: Counts,
    pub reference2: Counts,
}

// A refusal: neither buffer is written.
fn refusal(verdict: Verdict) -> JoinAnswer
    ensures { result ≡ answer_with verdict 0 0 }
{
    JoinAnswer {
        verdict,
        stage_count: 0,
        reference_count: 0,
    }
}

// 22, 23, 24, or the whole: two parts that were loaded, and buffers for their join. Both lengths are looked at before a byte is written.
fn join_loaded(
    order: WordOrder,
    code1: &[u16],
    reference1: &[u16],
    code2: &[u16],
    reference2: &[u16],
    counts: FileCounts,
    stage_out: &mut [u8],
    reference_out: &mut [u8],
) -> JoinAnswer
    requires { PartsLoaded counts code1.now reference1.now code2.now reference2.now }
    ensures { (one two : Files) → PartsHeld counts code1.now reference1.now code2.now reference2.now one two
        → Leaves (judge (seam_checks order one two (length stage_out.old) (length reference_out.old))) (whole one two) result
        stage_out.old reference_out.old stage_out.new reference_out.new }
{
    let counts1 = counts.stage1;
    let sizes1 = counts.reference1;
    let counts2 = counts.stage2;
    let sizes2 = counts.reference2;
    if counts1.outputs != counts2.inputs {
        return refusal(Verdict {
            number: 22,
            file: 0,
            at: counts1.outputs as u64,
            word: counts2.inputs as u64,
        });
    }
    if let Err(v) = uncared(order, code1, counts1, reference1, sizes1, code2, counts2) {
        return refusal(v);
    }
    let stage_count = write_joined::stage_length(counts1, counts2);
    let reference_count = write_joined::reference_length(sizes1, sizes2);
    if stage_out.len() < stage_count {
        return refusal(Verdict::fault(24, 3, 0));
    }
    if reference_out.len() < reference_count {
        return refusal(Verdict::fault(24, 3, 0));
    }
    write_joined::put_stage(stage_out, code1, counts1, code2, counts2);
    write_joined::put_reference(reference_out, reference1, sizes1, reference2, sizes2);
    JoinAnswer {
        verdict: Verdict::accepted(),
        stage_count: stage_count as u64,
        reference_count: reference_count as u64,
    }
}

// The join of two stages with their references into two buffers. A part's own refusal is passed on, first part first, the second's with 3
// added to its file; 22, 23 and 24 follow. Words are named in an order.
pub fn join(
    order: WordOrder,
    stage1: &[u8],
    reference1: &[u8],
    stage2: &[u8],
    reference2: &[u8],
    stage_out: &mut [u8],
    reference_out: &mut [u8],
) -> JoinAnswer
    ensures { JoinDemand order (part_files stage1.now reference1.now) (part_files stage2.now reference2.now)
        stage_out.old reference_out.old result stage_out.new reference_out.new }
{
    let most = netlist::part_stage_limits();
    let reference_most = netlist::part_reference_limits();
    let mut code1 = [0u16; circuit::form::STAGE_CODE];
    let mut loaded1 = [0u16; circuit::form::REFERENCE_CODE];
    let mut code2 = [0u16; circuit::form::STAGE_CODE];
    let mut loaded2 = [0u16; circuit::form::REFERENCE_CODE];
    let one = match check_files::check_loading(
        order,
        false,
        stage1,
        reference1,
        most,
        reference_most,
        &mut code1,
        &mut loaded1,
    ) {
        Ok(one) => one,
        Err(v) => return refusal(v),
    };
    let two = match check_files::check_loading(
        order,
        false,
        stage2,
        reference2,
        most,
        reference_most,
        &mut code2,
        &mut loaded2,
    ) {
        Ok(two) => two,
        Err(v) => {
            return refusal(Verdict {
                number: v.number,
                file: v.file + 3,
                at: v.at,
                word: v.word,
            });
        }
    };
    join_loaded(
        order,
        &code1,
        &loaded1,
        &code2,
        &loaded2,
        FileCounts {
            stage1: one.stage,
            reference1: one.reference,
            stage2: two.stage,
            reference2: two.reference,
        },
        stage_out,
        reference_out,
    )
}
