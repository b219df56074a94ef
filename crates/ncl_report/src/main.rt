// Reads stage.ncl and reference.ncl, at most 8,192 bytes of each, and prints the switching report: for each word of an accepted stage a
// line with the word and the number of gates high at its rest, then a line with the total. Of a refused pair it prints the verdict.
// A word is named with input 0 as its highest bit; with the argument `lowest`, as its lowest.
#![tactic(auto)]

fn main(rt: HostRuntime) {
    let mut stage = [0u8; 8192];
    let stage_len = console::load(&rt, b"stage.ncl", &mut stage);
    let mut reference = [0u8; 8192];
    let reference_len = console::load(&rt, b"reference.ncl", &mut reference);
    let report = call_report::report_on(
        console::word_order(&rt),
        &stage[..stage_len],
        &reference[..reference_len],
    );
    console::print_report(&rt, report);
}
