// Reads stage.ncl, at most 8,192 bytes of it, and prints the verdict on writing it in the line form. Where it accepts, the text is written as stage.txt;
// otherwise no file is touched. Where the text could not be written, no verdict is printed. The longest text has 10,012 bytes.
#![tactic(auto)]

fn main(rt: HostRuntime) {
    let mut stage = [0u8; 8192];
    let n = console::load(&rt, b"stage.ncl", &mut stage);
    let mut text = [0u8; 16384];
    let answer = call_text_write::write_text(&stage[..n], &mut text);
    if answer.verdict.number == 0 {
        if !console::save(&rt, b"stage.txt", &text, answer.count) {
            return;
        }
    }
    console::print_verdict(&rt, answer.verdict);
}
