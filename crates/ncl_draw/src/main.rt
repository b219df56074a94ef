// ncl_draw SEED INPUTS GATES: draws a reference from a seed, with so many inputs and gates, and prints the verdict. Where it accepts, the reference is
// written as reference.ncl; otherwise no file is touched. Where it could not be written, or an argument is no number, no verdict is printed.
#![tactic(auto)]

use std::rt::{Env, Files};

// The number that some digits spell. `parse` would take a plus before them.
fn decimal(text: &[u8]) -> Option<u64> {
    let digits = str::from_utf8(text).ok()?;
    if digits.starts_with('+') {
        return None;
    }
    digits.parse().ok()
}

// Argument i as a number. One that is missing or too long has no digits.
fn argument<R: Env>(rt: &R, i: usize) -> Option<u64> {
    let mut text = [0u8; 20];
    let n = rt.arg(i, &mut text).ok()?;
    decimal(&text[..n])
}

fn draw<R: Files + Print + Eprint>(rt: &R, seed: u32, inputs: usize, gates: usize) {
    let mut reference = [0u8; 512];
    let answer = call_draw::draw_reference(seed, inputs, gates, &mut reference);
    if answer.verdict.number == 0 {
        if !console::save(rt, b"reference.ncl", &reference, answer.count) {
            return;
        }
    }
    console::print_verdict(rt, answer.verdict);
}

fn main(rt: HostRuntime) {
    let Some(seed) = argument(&rt, 1).and_then(|n| u32::try_from(n).ok()) else {
        let _ = eprintln!(rt; "ncl_draw: the seed must be a decimal number up to 4294967295");
        return;
    };
    let Some(inputs) = argument(&rt, 2) else {
        let _ = eprintln!(rt;
            "ncl_draw: the inputs must be a decimal number up to 18446744073709551615"
        );
        return;
    };
    let Some(gates) = argument(&rt, 3) else {
        let _ = eprintln!(rt;
            "ncl_draw: the gates must be a decimal number up to 18446744073709551615"
        );
        return;
    };
    draw(&rt, seed, inputs as usize, gates as usize);
}
