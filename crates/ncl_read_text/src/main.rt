// Reads stage.txt, a stage in the line form, and prints the verdict on reading it. Where it accepts, the stage file is written as stage.ncl; otherwise
// no file is touched. Where the stage file could not be written, no verdict is printed; nor is one on a text of more than 32,768 bytes, since what is
// cut off could decide it. The longest text that reads has 27,322.
#![tactic(auto)]

fn main(rt: HostRuntime) {
    // One byte more than is taken, to see whether there are more.
    let mut text = [0u8; 32769];
    let n = console::load(&rt, b"stage.txt", &mut text);
    if 32768 < n {
        let _ = eprintln!(rt; "stage.txt has more than 32768 bytes");
        return;
    }
    let mut stage = [0u8; 8192];
    let answer = call_text_read::read_text(&text[..n], &mut stage);
    if answer.verdict.number == 0 {
        if !console::save(&rt, b"stage.ncl", &stage, answer.count) {
            return;
        }
    }
    console::print_verdict(&rt, answer.verdict);
}
