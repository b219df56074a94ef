// The public calls. Their contracts cite the definitions of the crates of notions, at the limits of crate `netlist`, and ask nothing of the
// caller. Crate `fovaheju_c` has them for C.
#![tactic(auto)]

ghost use Rattle.std.specs.Prelude.{◌≡◌};
ghost use Rattle.check_spec.specs.Content as content;
ghost use Rattle.check_spec.specs.Verdicts.{verdict_on, row_verdict, row_after};
ghost use Rattle.check_spec.specs.Demands.{Demand2, Demand3, DemandRow};
ghost use Rattle.report_spec.specs.Report.{report_on, ReportMeans};
ghost use Rattle.join_spec.specs.Joining.{JoinDemand};
ghost use Rattle.make_spec.specs.Make.{MakeDemand};
ghost use Rattle.text_spec.specs.Promises.{ReadDemand, WriteDemand};
ghost use Rattle.next_spec.specs.Family.{NextDemand};
ghost use Rattle.draw_spec.specs.Demand.{DrawnDemand};
ghost use Rattle.run_spec.specs.Witness.{WitnessDemand};
ghost use Rattle.run_spec.specs.Play.{PlayDemand};
ghost use Rattle.run_spec.specs.Keys.{KeysDemand};

use join_spec::JoinAnswer;
use report_spec::Report;
use run_spec::{PlayAnswer, RunAnswer};
use verdict::{Answer, Verdict, WordOrder};

// The check of a stage file against a reference file, with words named in an order. The verdict is the one that the definitions give, and
// demands 2 and 3 hold of it, with one run from another for an accepted stage.
pub fn check(order: WordOrder, stage: &[u8], reference: &[u8]) -> Verdict
    ensures verdict { result ≡ verdict_on order (content.files stage.now reference.now) }
    ensures demand2 { Demand2 order (content.files stage.now reference.now) result }
    ensures runs { Demand3 order (content.files stage.now reference.now) result }
{
    check_files::check(order, stage, reference)
}

// The switching report of a stage file without registers against a reference file: the check's verdict, and of an accepted stage how many gates are high
// at the rest of each word, in the order of their names, and in all words together, which is half of all gate switchings when each word rises and falls
// once.
pub fn report(order: WordOrder, stage: &[u8], reference: &[u8]) -> Report
    ensures report { result ≡ report_on order (content.plain_files stage.now reference.now) }
    ensures means { ReportMeans (content.plain_files stage.now reference.now) result }
{
    call_report::report_on(order, stage, reference)
}

// The settled-row call: the verdict on a stage file and a lent row, one byte for each net. A refusal leaves the row as it was; else the
// bytes of the inputs keep their values and those of the gates become their settled levels.
pub fn settled_row(stage: &[u8], row: &mut [u8]) -> Verdict
    ensures verdict { result ≡ row_verdict stage.now row.old }
    ensures row { row.new ≡ row_after stage.now row.old }
    ensures demands { DemandRow stage.now row.old result row.new }
{
    call_row::settled_row(stage, row)
}

// The join of two stages with their references: output j of the first is tied to input j of the second, and the joined stage and reference are
// written at the start of two lent buffers. A refusal leaves both as they were.
pub fn join(
    order: WordOrder,
    stage1: &[u8],
    reference1: &[u8],
    stage2: &[u8],
    reference2: &[u8],
    stage_out: &mut [u8],
    reference_out: &mut [u8],
) -> JoinAnswer
    ensures { JoinDemand order (content.part_files stage1.now reference1.now)
        (content.part_files stage2.now reference2.now)
        stage_out.old reference_out.old result stage_out.new reference_out.new }
{
    call_join::join(
        order,
        stage1,
        reference1,
        stage2,
        reference2,
        stage_out,
        reference_out,
    )
}

// A stage from a reference: every operation but NOT becomes two gates, NOT swaps rails, and the stage is written at the start of a lent buffer. It is
// accepted against its reference, unless a gate never rises. A refusal leaves the buffer as it was.
pub fn make_stage(reference: &[u8], stage_out: &mut [u8]) -> Answer
    ensures { MakeDemand reference.now stage_out.old result stage_out.new }
{
    call_make::make_stage(reference, stage_out)
}

// The stage file of a text in the line form, gates before outputs, written at the start of a lent buffer. The file reads. A refusal leaves the buffer as it
// was.
pub fn read_text(text: &[u8], stage_out: &mut [u8]) -> Answer
    ensures { ReadDemand text.now stage_out.old result stage_out.new }
{
    call_text_read::read_text(text, stage_out)
}

// A stage file as text in the line form, written at the start of a lent buffer. Read again, the text gives the file's own bytes, if its gates stand before
// its outputs. A refusal leaves the buffer as it was.
pub fn write_text(stage: &[u8], text_out: &mut [u8]) -> Answer
    ensures { WriteDemand stage.now text_out.old result text_out.new }
{
    call_text_write::write_text(stage, text_out)
}

// The next file of the family of small stages, by inputs, then gates, then bytes: after a file of the family or the empty file, written at the start of
// a lent buffer. A refusal leaves the buffer as it was.
pub fn next_stage(stage: &[u8], stage_out: &mut [u8]) -> Answer
    ensures { NextDemand stage.now stage_out.old result stage_out.new }
{
    call_next::next_stage(stage, stage_out)
}

// The reference that is drawn from a seed, with so many inputs and gates, written at the start of a lent buffer. It reads, and a stage is made of it
// without refusal 25. A refusal leaves the buffer as it was.
pub fn draw_reference(seed: u32, inputs: usize, gates: usize, reference_out: &mut [u8]) -> Answer
    ensures { DrawnDemand seed inputs gates reference_out.old result reference_out.new }
{
    call_draw::draw_reference(seed, inputs, gates, reference_out)
}

// The witness of a verdict on two files, the stage without registers: the check's verdict, and a run that shows what it says, the least net that may
// switch first, at the start of a lent list. Of an accepted pair it is a full rise and a full fall of the word whose name is asked for; of a number that
// speaks of no run there is none. A list too short is left as it was, and the answer still says how long the run is.
pub fn witness(
    order: WordOrder,
    stage: &[u8],
    reference: &[u8],
    asked: usize,
    list: &mut [u16],
) -> RunAnswer
    ensures { WitnessDemand order (content.plain_files stage.now reference.now) asked list.old result list.new }
{
    call_witness::witness(order, stage, reference, asked, list)
}

// A list of switchings of a word, a rise up to place `fall` and from there on a fall, judged: how many steps come before the first that the rules bar, and
// in a lent row, one byte for each net, the levels after these. A refusal leaves the row as it was.
pub fn play(
    order: WordOrder,
    stage: &[u8],
    name: usize,
    fall: usize,
    list: &[u16],
    row: &mut [u8],
) -> PlayAnswer
    ensures { PlayDemand order stage.now name fall list.now row.old result row.new }
{
    call_play::play(order, stage, name, fall, list, row)
}

// A full rise and a full fall of a word in an order that the caller chooses, by a key for each net in the rise and then one for each in the fall: at each
// step that net with the least key of those that may switch does. The run stands at the start of a lent list; one too short is left as it was.
pub fn run_by_keys(
    order: WordOrder,
    stage: &[u8],
    name: usize,
    keys: &[u32],
    list: &mut [u16],
) -> RunAnswer
    ensures { KeysDemand order stage.now name keys.now list.old result list.new }
{
    call_keys::run_by_keys(order, stage, name, keys, list)
}
