// The public calls for callers in C and in Rust: each function is the call of crate `fovaheju` that it is named after, with the same contract, and asks
// nothing of the caller. include/fovaheju.h declares them.
#![tactic(auto)]

ghost use Rattle.std.specs.Prelude.{◌≡◌};
ghost use Rattle.check_spec.specs.Content as content;
ghost use Rattle.check_spec.specs.Words.{order_of};
ghost use Rattle.check_spec.specs.Verdicts.{verdict_on, row_verdict, row_after};
ghost use Rattle.check_spec.specs.Demands.{Demand2, Demand3, DemandRow};
ghost use Rattle.report_spec.specs.Report.{report_on, ReportMeans};
ghost use Rattle.join_spec.specs.Joining.{JoinDemand};
ghost use Rattle.make_spec.specs.Make.{MakeDemand};
ghost use Rattle.text_spec.specs.Promises.{ReadDemand, WriteDemand};
ghost use Rattle.next_spec.specs.Family.{NextDemand};
ghost use Rattle.draw_spec.specs.Demand.{DrawnDemand};
ghost use Rattle.run_spec.specs.Witness.{WitnessDemand};
ghost use Rattle.run_spec.specs.Play.{PlayDemand};
ghost use Rattle.run_spec.specs.Keys.{KeysDemand};

use join_spec::JoinAnswer;
use report_spec::Report;
use run_spec::{PlayAnswer, RunAnswer};
use verdict::{Answer, Verdict, WordOrder};

// The order of words that a number stands for: 0 has input 0 as the highest bit of a word, every other number has it as the lowest. No `From<u64>`:
// it would stand beside the type, in crate `verdict`, for all crates, and only callers in C give a number.
fn order_of(mark: u64) -> WordOrder
    ensures { result ≡ order_of mark }
{
    if mark == 0 {
        return WordOrder::FirstHighest;
    }
    WordOrder::FirstLowest
}

// The check for callers in C and in Rust, with the contract of `check`.
#[unsafe(no_mangle)]
pub extern "C" fn fovaheju_check(order: u64, stage: &[u8], reference: &[u8]) -> Verdict
    ensures verdict { result ≡ verdict_on (order_of order) (content.files stage.now reference.now) }
    ensures demand2 { Demand2 (order_of order) (content.files stage.now reference.now) result }
    ensures runs { Demand3 (order_of order) (content.files stage.now reference.now) result }
{
    fovaheju::check(order_of(order), stage, reference)
}

// The report for callers in C and in Rust, with the contract of `report`.
#[unsafe(no_mangle)]
pub extern "C" fn fovaheju_report(order: u64, stage: &[u8], reference: &[u8]) -> Report
    ensures report { result ≡ report_on (order_of order) (content.plain_files stage.now reference.now) }
    ensures means { ReportMeans (content.plain_files stage.now reference.now) result }
{
    fovaheju::report(order_of(order), stage, reference)
}

// The settled-row call for callers in C and in Rust, with the contract of `settled_row`.
#[unsafe(no_mangle)]
pub extern "C" fn fovaheju_settled_row(stage: &[u8], row: &mut [u8]) -> Verdict
    ensures verdict { result ≡ row_verdict stage.now row.old }
    ensures row { row.new ≡ row_after stage.now row.old }
    ensures demands { DemandRow stage.now row.old result row.new }
{
    fovaheju::settled_row(stage, row)
}

// The join for callers in C and in Rust, with the contract of `join`.
#[unsafe(no_mangle)]
pub extern "C" fn fovaheju_join(
    order: u64,
    stage1: &[u8],
    reference1: &[u8],
    stage2: &[u8],
    reference2: &[u8],
    stage_out: &mut [u8],
    reference_out: &mut [u8],
) -> JoinAnswer
    ensures { JoinDemand (order_of order) (content.part_files stage1.now reference1.now)
        (content.part_files stage2.now reference2.now)
        stage_out.old reference_out.old result stage_out.new reference_out.new }
{
    fovaheju::join(
        order_of(order),
        stage1,
        reference1,
        stage2,
        reference2,
        stage_out,
        reference_out,
    )
}

// The stage from a reference for callers in C and in Rust, with the contract of `make_stage`.
#[unsafe(no_mangle)]
pub extern "C" fn fovaheju_make_stage(reference: &[u8], stage_out: &mut [u8]) -> Answer
    ensures { MakeDemand reference.now stage_out.old result stage_out.new }
{
    fovaheju::make_stage(reference, stage_out)
}

// The stage file of a text for callers in C and in Rust, with the contract of `read_text`.
#[unsafe(no_mangle)]
pub extern "C" fn fovaheju_read_text(text: &[u8], stage_out: &mut [u8]) -> Answer
    ensures { ReadDemand text.now stage_out.old result stage_out.new }
{
    fovaheju::read_text(text, stage_out)
}

// The text of a stage file for callers in C and in Rust, with the contract of `write_text`.
#[unsafe(no_mangle)]
pub extern "C" fn fovaheju_write_text(stage: &[u8], text_out: &mut [u8]) -> Answer
    ensures { WriteDemand stage.now text_out.old result text_out.new }
{
    fovaheju::write_text(stage, text_out)
}

// The next file of the family for callers in C and in Rust, with the contract of `next_stage`.
#[unsafe(no_mangle)]
pub extern "C" fn fovaheju_next_stage(stage: &[u8], stage_out: &mut [u8]) -> Answer
    ensures { NextDemand stage.now stage_out.old result stage_out.new }
{
    fovaheju::next_stage(stage, stage_out)
}

// The drawn reference for callers in C and in Rust, with the contract of `draw_reference`.
#[unsafe(no_mangle)]
pub extern "C" fn fovaheju_draw_reference(
    seed: u32,
    inputs: usize,
    gates: usize,
    reference_out: &mut [u8],
) -> Answer
    ensures { DrawnDemand seed inputs gates reference_out.old result reference_out.new }
{
    fovaheju::draw_reference(seed, inputs, gates, reference_out)
}

// The witness for callers in C and in Rust, with the contract of `witness`.
#[unsafe(no_mangle)]
pub extern "C" fn fovaheju_witness(
    order: u64,
    stage: &[u8],
    reference: &[u8],
    asked: usize,
    list: &mut [u16],
) -> RunAnswer
    ensures { WitnessDemand (order_of order) (content.plain_files stage.now reference.now) asked list.old result
        list.new }
{
    fovaheju::witness(order_of(order), stage, reference, asked, list)
}

// The judging of a list for callers in C and in Rust, with the contract of `play`.
#[unsafe(no_mangle)]
pub extern "C" fn fovaheju_play(
    order: u64,
    stage: &[u8],
    name: usize,
    fall: usize,
    list: &[u16],
    row: &mut [u8],
) -> PlayAnswer
    ensures { PlayDemand (order_of order) stage.now name fall list.now row.old result row.new }
{
    fovaheju::play(order_of(order), stage, name, fall, list, row)
}

// The run by keys for callers in C and in Rust, with the contract of `run_by_keys`.
#[unsafe(no_mangle)]
pub extern "C" fn fovaheju_run_by_keys(
    order: u64,
    stage: &[u8],
    name: usize,
    keys: &[u32],
    list: &mut [u16],
) -> RunAnswer
    ensures { KeysDemand (order_of order) stage.now name keys.now list.old result list.new }
{
    fovaheju::run_by_keys(order_of(order), stage, name, keys, list)
}
