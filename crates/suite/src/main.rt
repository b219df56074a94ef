// Makes the public calls on the stored cases: each file in data/ holds those of one call, and has its name. Calls that name words are made with
// input 0 as the highest bit of a word, and then once more as the lowest. Prints the name of the call, a line for each case, and `end` where the
// file has its end. The cases, and the lines that an independent judge gives them, are written by tests/src/bin/suite.rs.
#![tactic(auto)]

mod packed;

ghost use Rattle.std.specs.Prelude.{◌≤◌, length};

use join_spec::JoinAnswer;
use std::fs::File;
use std::io::Read;
use std::rt::Files;
use verdict::{Answer, Verdict, WordOrder};

// Writes a line that stands at the start of a buffer.
fn print_line<R: Print>(rt: &R, line: &[u8], n: usize)
    requires { n ≤ length line.now }
{
    let _ = rt.write_all(&line[..n]);
}

// What follows reads the operands of a call, makes it and prints the line of case i. The operands are its arguments, in their order: files and
// the buffers that are lent, each of at most 8,192 bytes; the line has room for so many.

fn check<R: Print, F: Read>(rt: &R, i: usize, order: WordOrder, file: &mut F) {
    let mut stage = [0u8; 8192];
    let s = packed::next_operand(file, &mut stage);
    let mut reference = [0u8; 8192];
    let r = packed::next_operand(file, &mut reference);
    let verdict = fovaheju::check(order, &stage[..s], &reference[..r]);
    let mut line = [0u8; 88];
    let n = write_cases::put_verdict(&mut line, i, verdict);
    print_line(rt, &line, n);
}

fn report<R: Print, F: Read>(rt: &R, i: usize, order: WordOrder, file: &mut F) {
    let mut stage = [0u8; 8192];
    let s = packed::next_operand(file, &mut stage);
    let mut reference = [0u8; 8192];
    let r = packed::next_operand(file, &mut reference);
    let report = fovaheju::report(order, &stage[..s], &reference[..r]);
    let mut line = [0u8; 12376];
    let n = write_cases::put_report(&mut line, i, report);
    print_line(rt, &line, n);
}

// A row after the call. One that is longer than an operand has no line.
fn print_row<R: Print>(rt: &R, i: usize, verdict: Verdict, row: &[u8]) {
    if 8192 < row.len() {
        return;
    }
    let mut line = [0u8; 32857];
    let n = write_cases::put_row(&mut line, i, verdict, row);
    print_line(rt, &line, n);
}

fn settle<R: Print>(rt: &R, i: usize, stage: &[u8], row: &mut [u8]) {
    let verdict = fovaheju::settled_row(stage, row);
    print_row(rt, i, verdict, row);
}

fn settled_row<R: Print, F: Read>(rt: &R, i: usize, file: &mut F) {
    let mut stage = [0u8; 8192];
    let s = packed::next_operand(file, &mut stage);
    let mut row = [0u8; 8192];
    let n = packed::next_operand(file, &mut row);
    settle(rt, i, &stage[..s], &mut row[..n]);
}

// The answer of a join, and the two buffers after it.
fn print_joined<R: Print>(rt: &R, i: usize, answer: JoinAnswer, stage: &[u8], reference: &[u8]) {
    if 8192 < stage.len() {
        return;
    }
    if 8192 < reference.len() {
        return;
    }
    let mut line = [0u8; 65668];
    let n = write_cases::put_joined(
        &mut line,
        i,
        answer.verdict,
        answer.stage_count,
        answer.reference_count,
        stage,
        reference,
    );
    print_line(rt, &line, n);
}

// The number of a case, and the order in which it names words.
#[derive(Clone, Copy)]
struct Case {
    i: usize,
    order: WordOrder,
}

fn join_parts<R: Print>(
    rt: &R,
    case: Case,
    stage1: &[u8],
    reference1: &[u8],
    stage2: &[u8],
    reference2: &[u8],
    stage: &mut [u8],
    reference: &mut [u8],
) {
    let answer = fovaheju::join(
        case.order, stage1, reference1, stage2, reference2, stage, reference,
    );
    print_joined(rt, case.i, answer, stage, reference);
}

fn join<R: Print, F: Read>(rt: &R, i: usize, order: WordOrder, file: &mut F) {
    let mut stage1 = [0u8; 8192];
    let a = packed::next_operand(file, &mut stage1);
    let mut reference1 = [0u8; 8192];
    let b = packed::next_operand(file, &mut reference1);
    let mut stage2 = [0u8; 8192];
    let c = packed::next_operand(file, &mut stage2);
    let mut reference2 = [0u8; 8192];
    let d = packed::next_operand(file, &mut reference2);
    let mut stage = [0u8; 8192];
    let e = packed::next_operand(file, &mut stage);
    let mut reference = [0u8; 8192];
    let f = packed::next_operand(file, &mut reference);
    join_parts(
        rt,
        Case { i, order },
        &stage1[..a],
        &reference1[..b],
        &stage2[..c],
        &reference2[..d],
        &mut stage[..e],
        &mut reference[..f],
    );
}

// The answer of a call that writes one file or text, and the buffer after it.
fn print_written<R: Print>(rt: &R, i: usize, answer: Answer, buffer: &[u8]) {
    if 8192 < buffer.len() {
        return;
    }
    let mut line = [0u8; 32878];
    let n = write_cases::put_written(&mut line, i, answer.verdict, answer.count, buffer);
    print_line(rt, &line, n);
}

fn make<R: Print>(rt: &R, i: usize, reference: &[u8], stage: &mut [u8]) {
    let answer = fovaheju::make_stage(reference, stage);
    print_written(rt, i, answer, stage);
}

fn make_stage<R: Print, F: Read>(rt: &R, i: usize, file: &mut F) {
    let mut reference = [0u8; 8192];
    let r = packed::next_operand(file, &mut reference);
    let mut stage = [0u8; 8192];
    let s = packed::next_operand(file, &mut stage);
    make(rt, i, &reference[..r], &mut stage[..s]);
}

fn read_into<R: Print>(rt: &R, i: usize, text: &[u8], stage: &mut [u8]) {
    let answer = fovaheju::read_text(text, stage);
    print_written(rt, i, answer, stage);
}

fn read_text<R: Print, F: Read>(rt: &R, i: usize, file: &mut F) {
    let mut text = [0u8; 8192];
    let t = packed::next_operand(file, &mut text);
    let mut stage = [0u8; 8192];
    let s = packed::next_operand(file, &mut stage);
    read_into(rt, i, &text[..t], &mut stage[..s]);
}

fn write_into<R: Print>(rt: &R, i: usize, stage: &[u8], text: &mut [u8]) {
    let answer = fovaheju::write_text(stage, text);
    print_written(rt, i, answer, text);
}

fn write_text<R: Print, F: Read>(rt: &R, i: usize, file: &mut F) {
    let mut stage = [0u8; 8192];
    let s = packed::next_operand(file, &mut stage);
    let mut text = [0u8; 8192];
    let t = packed::next_operand(file, &mut text);
    write_into(rt, i, &stage[..s], &mut text[..t]);
}

// Makes call `call` on the operands that come next in a file, and prints the line of case i. Answers whether there is such a call.
fn run_call<R: Print, F: Read>(rt: &R, call: u8, i: usize, order: WordOrder, file: &mut F) -> bool {
    match call {
        1 => check(rt, i, order, file),
        2 => report(rt, i, order, file),
        3 => settled_row(rt, i, file),
        4 => join(rt, i, order, file),
        5 => make_stage(rt, i, file),
        6 => read_text(rt, i, file),
        7 => write_text(rt, i, file),
        _ => return false,
    }
    true
}

// The line of the next case of a file, whose number is i, or that of the end. Answers whether another case may follow.
fn run_case<R: Print, F: Read>(rt: &R, i: usize, order: WordOrder, file: &mut F) -> bool {
    let call = packed::next_byte(file);
    if call == packed::END {
        let _ = rt.write_all(b"end\n");
        return false;
    }
    run_call(rt, call, i, order, file)
}

// A file has at most 1,000 cases, so that three digits number them.
fn run_cases<R: Print, F: Read>(rt: &R, order: WordOrder, file: &mut F) {
    for i in 0..1000 {
        if !run_case(rt, i, order, file) {
            return;
        }
    }
}

// Of a file that cannot be opened the name alone is printed.
fn run<R: Files + Print>(rt: &R, heading: &str, order: WordOrder, path: &str) {
    let _ = rt.println(heading);
    let Ok(mut file) = File::open(rt, path) else {
        return;
    };
    run_cases(rt, order, &mut file);
}

fn main(rt: HostRuntime) {
    run(&rt, "check", WordOrder::FirstHighest, "check");
    run(&rt, "check lowest", WordOrder::FirstLowest, "check");
    run(&rt, "report", WordOrder::FirstHighest, "report");
    run(&rt, "report lowest", WordOrder::FirstLowest, "report");
    run(&rt, "settled_row", WordOrder::FirstHighest, "settled_row");
    run(&rt, "join", WordOrder::FirstHighest, "join");
    run(&rt, "join lowest", WordOrder::FirstLowest, "join");
    run(&rt, "make_stage", WordOrder::FirstHighest, "make_stage");
    run(&rt, "read_text", WordOrder::FirstHighest, "read_text");
    run(&rt, "write_text", WordOrder::FirstHighest, "write_text");
}
