// Reads reference.ncl, at most 8,192 bytes of it, and prints the verdict on making a stage of it. Where it accepts, the stage is written as stage.ncl;
// otherwise no file is touched. Where the stage could not be written, no verdict is printed.
#![tactic(auto)]

fn main(rt: HostRuntime) {
    let mut reference = [0u8; 8192];
    let n = console::load(&rt, b"reference.ncl", &mut reference);
    let mut stage = [0u8; 8192];
    let answer = call_make::make_stage(&reference[..n], &mut stage);
    if answer.verdict.number == 0 {
        if !console::save(&rt, b"stage.ncl", &stage, answer.count) {
            return;
        }
    }
    console::print_verdict(&rt, answer.verdict);
}
