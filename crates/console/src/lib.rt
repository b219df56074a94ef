// What the programs share: the start of a file, numbers on standard output, and a file that is written. No contract can say what is read or
// written there; of a reader and a writer whose bytes are known it is said.
#![tactic(auto)]

ghost use Rattle.console.specs.Counts.{IsPrefixLen};
ghost use Rattle.std.specs.Prelude.{◌≡◌, ◌≤◌, IfOk, IfSome, IsTrue, OnErr, length, take};
ghost use Rattle.std.specs.Io.{StartsWith};
ghost use Rattle.std.specs.Io.KnownBytes.{Appends, Consumes};
ghost use Rattle.print_spec.specs.Lines as lines;

use report_spec::Report;
use std::fs::File;
use std::io;
use std::io::{Read, Write};
use std::rt::{Env, Files};
use verdict::{Verdict, WordOrder};

// Puts the start of a file at the start of buf, as many bytes as there is room for, and answers how many. A file that is missing or
// cannot be read counts as empty, and so do a folder and a name that is no text.
pub fn load<R: Files>(rt: &R, path: &[u8], buf: &mut [u8]) -> usize
    ensures { IsPrefixLen result buf.new }
{
    match str::from_utf8(path) {
        Ok(name) => load_opened(File::open(rt, name), buf),
        Err(_) => 0,
    }
}

// The same of a file that was opened. One that could not be opened has no byte and leaves buf as it is. Of one whose bytes are known they are its
// first.
fn load_opened<F: Read + Drop>(opened: io::Result<F>, buf: &mut [u8]) -> usize
    ensures prefix_len { IsPrefixLen result buf.new }
    ensures missing { OnErr opened (result ≡ 0) }
    ensures kept { OnErr opened (buf.new ≡ buf.old) }
    ensures bytes { IfOk opened (λ f. IfSome (F.remaining f) (λ xs. StartsWith xs (take result buf.new))) }
{
    let Ok(mut file) = opened else {
        return 0;
    };
    read_full(&mut file, buf)
}

// Reads until buf is full, the reader ends or a read fails, and answers how many bytes it put at the start of buf. Of a reader whose bytes are known
// they are its next ones.
pub fn read_full<F: Read>(file: &mut F, buf: &mut [u8]) -> usize
    ensures prefix_len { IsPrefixLen result buf.new }
    ensures bytes { Consumes (F.remaining file.old) (F.remaining file.new) (take result buf.new) }
{
    let mut done = 0;
    // A `while`: a read says how far it came, and `read_exact` does not say how many bytes a shorter file had.
    while done < buf.len() {
        let Ok(n) = file.read(&mut buf[done..]) else {
            break;
        };
        if n == 0 {
            break;
        }
        done += n;
    }
    done
}

fn complain<R: Eprint>(rt: &R, path: &str) {
    let _ = rt.eprintln(format_args!("{path} could not be written"));
}

// Writes the first n bytes of a buffer to a file that was opened, and answers whether it took them all. A writer whose bytes are known then has them
// behind those that it had.
fn write_start<W: Write>(file: &mut W, buffer: &[u8], n: usize) -> bool
    ensures within { IsTrue result → n ≤ length buffer.now }
    ensures bytes { IsTrue result → Appends (W.contents file.old) (W.contents file.new) (take n buffer.now) }
{
    if buffer.len() < n {
        return false;
    }
    file.write_all(&buffer[..n]).is_ok()
}

// Writes the first bytes of a buffer into a file, and answers whether the file has them all. One that cannot be opened, or that does not take them
// all, as on a full disk, is said on standard error.
pub fn save<R: Files + Eprint>(rt: &R, path: &[u8], buffer: &[u8], count: u64) -> bool {
    let Ok(name) = str::from_utf8(path) else {
        complain(rt, "a file whose name is no text");
        return false;
    };
    let Ok(mut file) = File::create(rt, name) else {
        complain(rt, name);
        return false;
    };
    if write_start(&mut file, buffer, count as usize) {
        return true;
    }
    complain(rt, name);
    false
}

// The order in which a program names words: with input 0 as the lowest bit where the program was started with the argument `lowest`, else with
// input 0 as the highest.
pub fn word_order<R: Env>(rt: &R) -> WordOrder {
    let mut word = [0u8; 7];
    let Ok(n) = rt.arg(1, &mut word) else {
        return WordOrder::FirstHighest;
    };
    if &word[..n] == b"lowest".as_slice() {
        return WordOrder::FirstLowest;
    }
    WordOrder::FirstHighest
}

// ---- what is printed

// What standard output does not take, as on a full disk, is said on standard error.
fn complain_unless<R: Eprint>(rt: &R, written: bool) {
    if !written {
        let _ = rt.eprintln("standard output could not be written");
    }
}

// Writes the text of a verdict, which is what it is handed, and answers whether the writer took it all. A writer whose bytes are known then has it
// behind those that it had.
fn write_verdict_line<W: Write>(out: &mut W, text: &[u8], v: Verdict) -> bool
    requires { text.now ≡ lines.verdict_line v }
    ensures { IsTrue result → Appends (W.contents out.old) (W.contents out.new) (lines.verdict_line v) }
{
    out.write_all(text).is_ok()
}

// The four numbers, with single spaces between them and a newline.
pub fn print_verdict<R: Print + Eprint>(rt: &R, v: Verdict) {
    let mut line = [0u8; write_lines::VERDICT_LINE];
    let n = write_lines::put_verdict_line(&mut line, v);
    let written = write_verdict_line(&mut io::writer(rt), &line[..n], v);
    complain_unless(rt, written);
}

// The same of a report. Two functions, not one: each asks that the text is the one of what it is handed, which a function of any text could not say.
fn write_report_lines<W: Write>(out: &mut W, text: &[u8], report: Report) -> bool
    requires { text.now ≡ lines.report_lines report }
    ensures { IsTrue result → Appends (W.contents out.old) (W.contents out.new) (lines.report_lines report) }
{
    out.write_all(text).is_ok()
}

// The lines of a report, each with the word and the number of gates high at its rest; then the total. Of a refused pair the verdict alone.
pub fn print_report<R: Print + Eprint>(rt: &R, report: Report) {
    let mut text = [0u8; write_lines::REPORT_LINES];
    let n = write_lines::put_report_lines(&mut text, report);
    let written = write_report_lines(&mut io::writer(rt), &text[..n], report);
    complain_unless(rt, written);
}
