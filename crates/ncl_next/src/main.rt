// Reads stage.ncl, at most 8,192 bytes of it, and prints the verdict on the file of the family of small stages that comes after it. Where there is one, it
// is written as next.ncl; otherwise no file is touched. Where it could not be written, no verdict is printed.
#![tactic(auto)]

fn main(rt: HostRuntime) {
    let mut stage = [0u8; 8192];
    let n = console::load(&rt, b"stage.ncl", &mut stage);
    let mut next = [0u8; 28];
    let answer = call_next::next_stage(&stage[..n], &mut next);
    if answer.verdict.number == 0 {
        if !console::save(&rt, b"next.ncl", &next, answer.count) {
            return;
        }
    }
    console::print_verdict(&rt, answer.verdict);
}
