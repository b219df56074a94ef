// Reads stage.ncl and reference.ncl, at most 8,192 bytes of each, and prints the verdict: four numbers with single spaces and a newline.
// A word is named with input 0 as its highest bit; with the argument `lowest`, as its lowest.
#![tactic(auto)]

fn main(rt: HostRuntime) {
    let mut stage = [0u8; 8192];
    let stage_len = console::load(&rt, b"stage.ncl", &mut stage);
    let mut reference = [0u8; 8192];
    let reference_len = console::load(&rt, b"reference.ncl", &mut reference);
    console::print_verdict(
        &rt,
        check_files::check(
            console::word_order(&rt),
            &stage[..stage_len],
            &reference[..reference_len],
        ),
    );
}
