// The switching report: how many gates are high at rest, word by word, and in all words together.
#![tactic(auto)]

ghost use Rattle.std.specs.Prelude.{◌≡◌, ◌^◌, ◌≤◌, length, replicate};
ghost use Rattle.netlist.specs.Reading.{Ascending, stage_limits};
ghost use Rattle.verdict.specs.Levels.{sum};
ghost use Rattle.verdict.specs.Words.{names};
ghost use Rattle.verdict.specs.Verdicts.{accepted};
ghost use Rattle.circuit.specs.Stage.{stage_in, StageLoaded};
ghost use Rattle.circuit.specs.Order.{InOrder};
ghost use Rattle.call_report.specs.Report as spec;
ghost use Rattle.check_spec.specs.Content.{plain_files};
ghost use Rattle.report_spec.specs.Report.{report_on, ReportMeans};
ghost use Rattle.call_report.specs.Lines.{lines_by};

use netlist::Counts;
use report_spec::Report;
use verdict::{Verdict, WordOrder};

// The lines of some names are written, by how many gates are high in each word of the files; and the sum of the lines.
fn write_lines(
    order: WordOrder,
    inputs: usize,
    list: &[u16],
    high: &[u16],
    lines: &mut [u16],
) -> u64
    requires { (inputs ≤ stage_limits.inputs) × Ascending (2 ^ inputs) 0 list.now × (2 ^ inputs ≤ length high.now)
        × (length list.now ≤ spec.most_lines) × (lines.old ≡ replicate spec.most_lines 0) }
    ensures { (result ≡ sum (lines_by order inputs high.now list.now))
        × (lines.new ≡ spec.padded (lines_by order inputs high.now list.now)) }
{
    let mut total: u64 = 0;
    for (k, name) in list.iter().enumerate() {
        let w = words::word_of(order, inputs, *name as usize);
        let count = high[w];
        lines[k] = count;
        total += count as u64;
    }
    total
}

// The lines of all words, whose names are listed, and the sum of the lines.
fn fill_lines(
    order: WordOrder,
    code: &[u16],
    counts: Counts,
    list: &[u16],
    lines: &mut [u16],
) -> u64
    requires { StageLoaded counts code.now × InOrder counts code.now × (list.now ≡ names order (stage_in counts code.now))
        × (length list.now ≤ spec.most_lines) × (lines.old ≡ replicate spec.most_lines 0) }
    ensures { (result ≡ spec.total order (stage_in counts code.now))
        × (lines.new ≡ spec.padded (spec.lines order (stage_in counts code.now))) }
{
    let mut high = [0u16; report_spec::LINES];
    lane_count::count_words(code, counts, &mut high);
    write_lines(order, counts.inputs, list, &high, lines)
}

// The report of a stage that was accepted.
fn report_stage(order: WordOrder, code: &[u16], counts: Counts) -> Report
    requires { StageLoaded counts code.now × InOrder counts code.now }
    ensures { result ≡ spec.stage_report order accepted (stage_in counts code.now) }
{
    let mut lines = [0u16; report_spec::LINES];
    let mut list = [0u16; report_spec::LINES];
    let count = words::list_names(order, code, counts, &mut list);
    let total = fill_lines(order, code, counts, &list[..count], &mut lines);
    Report {
        verdict: Verdict::accepted(),
        words: count as u64,
        total,
        lines,
        names: list,
    }
}

// The report of a stage file against a reference file, with words named in an order.
pub fn report_on(order: WordOrder, stage: &[u8], reference: &[u8]) -> Report
    ensures report { result ≡ report_on order (plain_files stage.now reference.now) }
    ensures means { ReportMeans (plain_files stage.now reference.now) result }
{
    let mut code = [0u16; circuit::form::STAGE_CODE];
    let mut loaded = [0u16; circuit::form::REFERENCE_CODE];
    let judgement = check_files::check_loading(
        order,
        false,
        stage,
        reference,
        netlist::stage_limits(),
        netlist::reference_limits(),
        &mut code,
        &mut loaded,
    );
    match judgement {
        Err(verdict) => Report {
            verdict,
            words: 0,
            total: 0,
            lines: [0u16; report_spec::LINES],
            names: [0u16; report_spec::LINES],
        },
        Ok(sizes) => report_stage(order, &code, sizes.stage),
    }
}
