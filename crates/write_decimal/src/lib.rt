// Characters and decimal numbers, put into a buffer. Each function answers the place after what it put.
#![tactic(auto)]

ghost use Rattle.std.specs.Prelude.{◌∷◌, [], ◌+◌, ◌≤◌, length};
ghost use Rattle.print_spec.specs.Decimal.{decimal};
ghost use Rattle.write_decimal.specs.Put.{PutNext};

// A character.
pub fn put_char(buffer: &mut [u8], at: usize, b: u8) -> usize
    requires { at + 1 ≤ length buffer.old }
    ensures { PutNext buffer.old at (b ∷ []) buffer.new result }
{
    buffer[at] = b;
    at + 1
}

// A number in decimal: the digits before the last one, if there are any, and the last one. Not `write!`: it says whether the text fits, and not the
// place after it.
pub fn put_decimal(buffer: &mut [u8], at: usize, n: usize) -> usize
    requires { at + length (decimal n) ≤ length buffer.old }
    ensures { PutNext buffer.old at (decimal n) buffer.new result }
{
    if n < 10 {
        return put_char(buffer, at, 48 + n as u8);
    }
    let last = put_decimal(buffer, at, n / 10);
    put_char(buffer, last, 48 + (n % 10) as u8)
}
