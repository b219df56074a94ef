// Cases packed in a file, one after the other: the byte of a call, then its operands, each as its length in two bytes, the low one first, and
// so many bytes. The byte 0 stands after the last case.
ghost use Rattle.console.specs.Counts.{IsPrefixLen};

use std::io::Read;

pub const END: u8 = 0;

// The next byte of a file; 255 where the file has ended.
pub fn next_byte<F: Read>(file: &mut F) -> u8 {
    let mut byte = [255u8; 1];
    console::read_full(file, &mut byte);
    byte[0]
}

fn next_length<F: Read>(file: &mut F) -> usize {
    let low = next_byte(file);
    let high = next_byte(file);
    usize::from(u16::from_le_bytes([low, high]))
}

// Puts the next operand at the start of a buffer and answers its length. One that does not fit counts as empty, and its bytes are not passed.
pub fn next_operand<F: Read>(file: &mut F, buffer: &mut [u8]) -> usize
    ensures { IsPrefixLen result buffer.new }
{
    let n = next_length(file);
    if buffer.len() < n {
        return 0;
    }
    console::read_full(file, &mut buffer[..n])
}
