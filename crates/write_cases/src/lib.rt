// The line that the suite prints of a stored case, put at the start of a buffer. Each function of a whole line answers how long it is.
#![tactic(auto)]

ghost use Rattle.std.specs.Prelude.{◌≡◌, ◌∷◌, [], ◌+◌, ◌*◌, ◌≤◌, ◌<◌, length, take};
ghost use Rattle.print_spec.specs.Cases as cases;
ghost use Rattle.print_spec.specs.Decimal.{decimal};
ghost use Rattle.text_spec.specs.Characters.{space};
ghost use Rattle.write_lines.specs.Within.{PutWithin};

use report_spec::Report;
use verdict::Verdict;

// ---- parts

// The number of a case in three digits, and a space.
fn put_number(line: &mut [u8], i: usize) -> usize
    requires { 4 ≤ length line.old }
    ensures { PutWithin 4 line.old 0 (cases.case_number i) line.new result }
{
    line[0] = 48 + (i / 100 % 10) as u8;
    line[1] = 48 + (i / 10 % 10) as u8;
    line[2] = 48 + (i % 10) as u8;
    line[3] = b' ';
    4
}

// A space and a byte as a number.
fn put_byte(line: &mut [u8], at: usize, byte: u8) -> usize
    requires { at + 4 ≤ length line.old }
    ensures { PutWithin 4 line.old at (space ∷ decimal byte) line.new result }
{
    let first = write_decimal::put_char(line, at, b' ');
    write_decimal::put_decimal(line, first, byte as usize)
}

// The same of each byte.
fn put_bytes(line: &mut [u8], start: usize, bytes: &[u8]) -> usize
    requires { start + 4 * length bytes.now ≤ length line.old }
    ensures { PutWithin (4 * length bytes.now) line.old start (cases.numbers_then bytes.now []) line.new result }
{
    let mut at = start;
    // By places: the edit `first-byte-left` begins at the second.
    for k in 0..bytes.len() {
        at = put_byte(line, at, bytes[k]);
    }
    at
}

// A colon and the bytes of a buffer.
fn put_buffer(line: &mut [u8], at: usize, bytes: &[u8]) -> usize
    requires { at + 1 + 4 * length bytes.now ≤ length line.old }
    ensures { PutWithin (1 + 4 * length bytes.now) line.old at
        (cases.colon ∷ cases.numbers_then bytes.now []) line.new result }
{
    let first = write_decimal::put_char(line, at, b':');
    put_bytes(line, first, bytes)
}

// The number of a case and a verdict.
fn put_start(line: &mut [u8], i: usize, v: Verdict) -> usize
    requires { 87 ≤ length line.old }
    ensures { PutWithin 87 line.old 0 (cases.case_start i v) line.new result }
{
    let at = put_number(line, i);
    write_lines::put_verdict(line, at, v)
}

// ---- whole lines

// A verdict.
pub fn put_verdict(line: &mut [u8], i: usize, v: Verdict) -> usize
    requires { 88 ≤ length line.old }
    ensures line_after { take result line.new ≡ cases.answer_line i v [] [] }
    ensures fits { result ≤ length line.new }
{
    let end = put_start(line, i, v);
    write_decimal::put_char(line, end, b'\n')
}

// A verdict and a buffer.
pub fn put_row(line: &mut [u8], i: usize, v: Verdict, row: &[u8]) -> usize
    requires { 89 + 4 * length row.now ≤ length line.old }
    ensures line_after { take result line.new ≡ cases.answer_line i v [] (row.now ∷ []) }
    ensures fits { result ≤ length line.new }
{
    let at = put_start(line, i, v);
    let end = put_buffer(line, at, row);
    write_decimal::put_char(line, end, b'\n')
}

// A verdict, how many bytes were written, and the buffer.
pub fn put_written(line: &mut [u8], i: usize, v: Verdict, count: u64, buffer: &[u8]) -> usize
    requires { 110 + 4 * length buffer.now ≤ length line.old }
    ensures line_after { take result line.new ≡ cases.answer_line i v (count ∷ []) (buffer.now ∷ []) }
    ensures fits { result ≤ length line.new }
{
    let at = put_start(line, i, v);
    let next = write_lines::put_next(line, at, count);
    let end = put_buffer(line, next, buffer);
    write_decimal::put_char(line, end, b'\n')
}

// A verdict, how many bytes were written to each of two buffers, and the buffers.
pub fn put_joined(
    line: &mut [u8],
    i: usize,
    v: Verdict,
    stage_count: u64,
    reference_count: u64,
    stage: &[u8],
    reference: &[u8],
) -> usize
    requires { 132 + 4 * length stage.now + 4 * length reference.now ≤ length line.old }
    ensures line_after { take result line.new ≡ cases.answer_line i v (stage_count ∷ reference_count ∷ [])
        (stage.now ∷ reference.now ∷ []) }
    ensures fits { result ≤ length line.new }
{
    let first = put_start(line, i, v);
    let second = write_lines::put_next(line, first, stage_count);
    let third = write_lines::put_next(line, second, reference_count);
    let fourth = put_buffer(line, third, stage);
    let end = put_buffer(line, fourth, reference);
    write_decimal::put_char(line, end, b'\n')
}

// A report.
pub fn put_report(line: &mut [u8], i: usize, report: Report) -> usize
    requires { 12376 ≤ length line.old }
    ensures line_after { take result line.new ≡ cases.report_line i report }
    ensures fits { result ≤ length line.new }
{
    let at = put_number(line, i);
    let end = write_lines::put_report(line, at, report, b':', b' ');
    write_decimal::put_char(line, end, b'\n')
}
