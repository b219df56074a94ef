// Reads stage1.ncl, reference1.ncl, stage2.ncl and reference2.ncl, at most 8,192 bytes of each, and prints the verdict of their join. Where it
// accepts, the joined stage and reference are written as stage.ncl and reference.ncl; otherwise no file is touched. Where
// one of them could not be written, no verdict is printed.
// A word is named with input 0 as its highest bit; with the argument `lowest`, as its lowest.
#![tactic(auto)]

fn main(rt: HostRuntime) {
    let mut stage1 = [0u8; 8192];
    let a = console::load(&rt, b"stage1.ncl", &mut stage1);
    let mut reference1 = [0u8; 8192];
    let b = console::load(&rt, b"reference1.ncl", &mut reference1);
    let mut stage2 = [0u8; 8192];
    let c = console::load(&rt, b"stage2.ncl", &mut stage2);
    let mut reference2 = [0u8; 8192];
    let d = console::load(&rt, b"reference2.ncl", &mut reference2);
    let mut stage = [0u8; 8192];
    let mut reference = [0u8; 8192];
    let answer = call_join::join(
        console::word_order(&rt),
        &stage1[..a],
        &reference1[..b],
        &stage2[..c],
        &reference2[..d],
        &mut stage,
        &mut reference,
    );
    if answer.verdict.number == 0 {
        if !console::save(&rt, b"stage.ncl", &stage, answer.stage_count) {
            return;
        }
        if !console::save(&rt, b"reference.ncl", &reference, answer.reference_count) {
            return;
        }
    }
    console::print_verdict(&rt, answer.verdict);
}
