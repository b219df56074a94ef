// What programs print, put into a buffer: the text of a verdict, and that of a report. Each function answers the place after what it put.
#![tactic(auto)]

ghost use Rattle.std.specs.Prelude.{◌≡◌, ◌∷◌, ◌+◌, ◌*◌, ◌≤◌, length, take};
ghost use Rattle.text_spec.specs.Characters.{space};
ghost use Rattle.print_spec.specs.Decimal.{decimal};
ghost use Rattle.print_spec.specs.Lines as lines;
ghost use Rattle.write_lines.specs.Within.{PutWithin};

use report_spec::Report;
use verdict::Verdict;

// How long the line of a verdict and the lines of a report are at most.
pub const VERDICT_LINE: usize = 84;

pub const REPORT_LINES: usize = 12 * report_spec::LINES + 84;

// ---- numbers

// A number, of at most 20 digits.
fn put_number(buffer: &mut [u8], at: usize, n: u64) -> usize
    requires { at + 20 ≤ length buffer.old }
    ensures { PutWithin 20 buffer.old at (decimal n) buffer.new result }
{
    write_decimal::put_decimal(buffer, at, n as usize)
}

// The same, of at most 5 digits.
fn put_small(buffer: &mut [u8], at: usize, n: u16) -> usize
    requires { at + 5 ≤ length buffer.old }
    ensures { PutWithin 5 buffer.old at (decimal n) buffer.new result }
{
    write_decimal::put_decimal(buffer, at, n as usize)
}

// A space and a number.
pub fn put_next(buffer: &mut [u8], at: usize, n: u64) -> usize
    requires { at + 21 ≤ length buffer.old }
    ensures { PutWithin 21 buffer.old at (space ∷ decimal n) buffer.new result }
{
    let first = write_decimal::put_char(buffer, at, b' ');
    put_number(buffer, first, n)
}

// ---- a verdict

// The four numbers, with single spaces between them.
pub fn put_verdict(buffer: &mut [u8], at: usize, v: Verdict) -> usize
    requires { at + 83 ≤ length buffer.old }
    ensures { PutWithin 83 buffer.old at (lines.verdict_text v) buffer.new result }
{
    let file = put_number(buffer, at, v.number);
    let place = put_next(buffer, file, v.file);
    let word = put_next(buffer, place, v.at);
    put_next(buffer, word, v.word)
}

// ---- a report

// A word and its number of gates, with a character between them and one after them.
fn put_word(buffer: &mut [u8], at: usize, word: u16, high: u16, between: u8, after: u8) -> usize
    requires { at + 12 ≤ length buffer.old }
    ensures { PutWithin 12 buffer.old at (lines.word_text between after word high) buffer.new result }
{
    let end = put_small(buffer, at, word);
    let next = write_decimal::put_char(buffer, end, between);
    let last = put_small(buffer, next, high);
    write_decimal::put_char(buffer, last, after)
}

// The first so many words of a report.
fn put_words(
    buffer: &mut [u8],
    start: usize,
    names: &[u16],
    highs: &[u16],
    words: usize,
    between: u8,
    after: u8,
) -> usize
    requires { start + 12 * length highs.now ≤ length buffer.old }
    ensures { PutWithin (12 * length highs.now) buffer.old start
        (lines.word_texts between after (take words names.now) (take words highs.now)) buffer.new result }
{
    let mut at = start;
    // By places: the edit `first-word-left` begins at the second.
    for k in 0..words.min(names.len()).min(highs.len()) {
        at = put_word(buffer, at, names[k], highs[k], between, after);
    }
    at
}

// `total` and a number.
fn put_total(buffer: &mut [u8], at: usize, total: u64) -> usize
    requires { at + 26 ≤ length buffer.old }
    ensures { PutWithin 26 buffer.old at (lines.total_text total) buffer.new result }
{
    write_command::put_bytes(buffer, at, b"total");
    put_next(buffer, at + 5, total)
}

// The words of a report, each with a character between the word and its number and one after them, then the total. Of a refused pair the verdict alone.
pub fn put_report(buffer: &mut [u8], at: usize, report: Report, between: u8, after: u8) -> usize
    requires { at + 12371 ≤ length buffer.old }
    ensures { PutWithin 12371 buffer.old at (lines.report_text between after report) buffer.new result }
{
    if report.verdict.number == 0 {
        let end = put_words(
            buffer,
            at,
            &report.names,
            &report.lines,
            report.words as usize,
            between,
            after,
        );
        return put_total(buffer, end, report.total);
    }
    put_verdict(buffer, at, report.verdict)
}

// ---- whole texts

// "The four numbers with single spaces and a newline".
pub fn put_verdict_line(buffer: &mut [u8], v: Verdict) -> usize
    requires { 84 ≤ length buffer.old }
    ensures buffer_after { take result buffer.new ≡ lines.verdict_line v }
    ensures fits { result ≤ length buffer.new }
{
    let end = put_verdict(buffer, 0, v);
    write_decimal::put_char(buffer, end, b'\n')
}

// "One line per word", then the total.
pub fn put_report_lines(buffer: &mut [u8], report: Report) -> usize
    requires { 12372 ≤ length buffer.old }
    ensures buffer_after { take result buffer.new ≡ lines.report_lines report }
    ensures fits { result ≤ length buffer.new }
{
    let last = put_report(buffer, 0, report, b' ', b'\n');
    write_decimal::put_char(buffer, last, b'\n')
}
