// The next file of the family of small stages. What the family and its order are, is said in next_spec/specs/Family.antt.
#![tactic(auto)]

ghost use Rattle.std.specs.Prelude.{◌≡◌, ◌∷◌, [], ℕ, ◌+◌, ◌*◌, ◌-◌, ◌/◌, ◌%◌, ◌≤◌, ◌<◌, length, get_or, drop};
ghost use Rattle.netlist.specs.declared.File.TheVariants as file;
ghost use Rattle.netlist.specs.Writing.{gate, write_item};
ghost use Rattle.write_command.specs.Put.{Put};
ghost use Rattle.write_command.specs.Parts.{bytes_of};
ghost use Rattle.verdict.specs.Written.{written};
ghost use Rattle.next_spec.specs.Family.{file_of, NextDemand};
ghost use Rattle.next_spec.specs.Numbered as numbered;
ghost use Rattle.next_spec.specs.Numbered.{gate_numbered, gates_numbered, stage_numbered};
ghost use Rattle.next_spec.specs.Listing as listing;
ghost use Rattle.next_spec.specs.Listing.{InShape, has_pin, two_free, no_loop, Listed, onward};
ghost use Rattle.call_next.specs.Steps.{gate_at, gates_at, number_in, Located, FoundFree, First, ListedAt, written_at};

use verdict::Answer;

// Where a file stands: before the family, at a number of the stages of its shape, or nowhere. Three cases, so no `Option`.
#[derive(Clone, Copy)]
pub enum Place {
    Start,
    Stage(usize, usize, usize),
    Outside,
}

// ---- numbers

// The square of a number of nets.
fn square(m: usize) -> usize
    requires { m ≤ 6 }
    ensures { (result ≡ m * m) × (result ≤ 36) × (m ≤ result) }
{
    m * m
}

// How many stages have so many inputs and gates, loops or not.
fn stages(inputs: usize, gates: usize) -> usize
    requires { InShape inputs gates }
    ensures { (result ≡ numbered.stages inputs gates) × (result ≤ 186624) }
{
    match (inputs, gates) {
        (1, 0) => 4,
        (1, 1) => 162,
        (1, _) => 16384,
        (_, 0) => 16,
        (_, 1) => 1250,
        _ => 186624,
    }
}

// ---- loops

// Whether gate x over m nets has a net at one of its pins.
fn has_pin(m: usize, x: usize, net: usize) -> bool
    requires { (1 ≤ m) × (m ≤ 6) }
    ensures { result ≡ has_pin m x net }
{
    let y = x % square(m);
    y / m == net || y % m == net
}

// Whether two gates, over the nets of so many inputs and these gates, have no loop. Test by test: in one expression a wrong pin makes a goal that the
// search gives up, and does not refuse.
fn two_free(inputs: usize, a: usize, b: usize) -> bool
    requires { (1 ≤ inputs) × (inputs ≤ 2) }
    ensures { result ≡ two_free inputs a b }
{
    let m = 2 * inputs + 2;
    if has_pin(m, a, 2 * inputs) {
        return false;
    }
    if has_pin(m, b, 2 * inputs + 1) {
        return false;
    }
    if has_pin(m, a, 2 * inputs + 1) {
        return !has_pin(m, b, 2 * inputs);
    }
    true
}

// Whether list x of the gates of a shape has no loop.
fn no_loop(inputs: usize, gates: usize, x: usize) -> bool
    requires { InShape inputs gates }
    ensures { result ≡ no_loop inputs gates x }
{
    if gates == 0 {
        return true;
    }
    if gates == 1 {
        return !has_pin(2 * inputs + 1, x, 2 * inputs);
    }
    let k = 2 * square(2 * inputs + 2);
    two_free(inputs, x / k, x % k)
}

// Whether a numbered stage has no loop.
fn loop_free(inputs: usize, gates: usize, number: usize) -> bool
    requires { InShape inputs gates × (number < numbered.stages inputs gates) }
    ensures { result ≡ listing.free inputs gates number }
{
    no_loop(inputs, gates, number / square(2 * inputs + gates))
}

// The least number without a loop, from a number on.
fn next_number(inputs: usize, gates: usize, from: usize) -> Option<usize>
    requires { InShape inputs gates × (from ≤ numbered.stages inputs gates) }
    ensures { FoundFree inputs gates from result }
{
    let count = stages(inputs, gates);
    for z in from..count {
        if loop_free(inputs, gates, z) {
            return Some(z);
        }
    }
    None
}

// ---- the stage after a number

// The first stage of the shapes after this one.
fn next_shape(inputs: usize, gates: usize) -> Place
    requires { InShape inputs gates }
    ensures { First (listing.stages_of (drop (3 * (inputs - 1) + gates + 1) listing.shapes)) result }
{
    if gates < 2 {
        return Place::Stage(inputs, gates + 1, 0);
    }
    if inputs < 2 {
        return Place::Stage(inputs + 1, 0, 0);
    }
    Place::Outside
}

// The first stage of the family from a number of its shape on.
fn first_from(inputs: usize, gates: usize, number: usize) -> Place
    requires { InShape inputs gates × (number ≤ numbered.stages inputs gates) }
    ensures { First (onward inputs gates number) result }
{
    let found = next_number(inputs, gates, number);
    match found {
        Some(z) => Place::Stage(inputs, gates, z),
        None => next_shape(inputs, gates),
    }
}

// ---- writing

// Gate x over m nets, at a place.
fn put_gate(m: usize, x: usize, buffer: &mut [u8], at: usize)
    requires { (1 ≤ m) × (m ≤ 6) × (x < 2 * (m * m)) × (at + 10 ≤ length buffer.old) }
    ensures { Put buffer.old at (write_item file.Stage (gate (gate_numbered m x))) buffer.new }
{
    let k = square(m);
    let y = x % k;
    write_command::put_stage_gate(
        buffer,
        at,
        (1 + x / k) as u8,
        (y / m) as u16,
        (y % m) as u16,
        65535,
        65535,
    );
}

// List x of the gates of a shape, after the inputs command.
fn put_gates(inputs: usize, gates: usize, x: usize, buffer: &mut [u8])
    requires { InShape inputs gates × (x < numbered.lists (2 * inputs + gates) gates) × (8 + 10 * gates ≤ length buffer.old) }
    ensures { Put buffer.old 2 (bytes_of file.Stage gate (gates_numbered (2 * inputs + gates) gates x)) buffer.new }
{
    let m = 2 * inputs + gates;
    if gates == 0 {
        return;
    }
    if gates == 1 {
        put_gate(m, x, buffer, 2);
        return;
    }
    let k = 2 * square(m);
    put_gate(m, x / k, buffer, 2);
    put_gate(m, x % k, buffer, 12);
}

// The file of a numbered stage.
fn write_stage(inputs: usize, gates: usize, number: usize, buffer: &mut [u8])
    requires { InShape inputs gates × (number < numbered.stages inputs gates) × (8 + 10 * gates ≤ length buffer.old) }
    ensures { Put buffer.old 0 (file_of (stage_numbered inputs gates number)) buffer.new }
{
    let m = 2 * inputs + gates;
    let k = square(m);
    let y = number % k;
    write_command::put_inputs(buffer, 0, inputs);
    put_gates(inputs, gates, number / k, buffer);
    write_command::put_stage_output(buffer, 2 + 10 * gates, (y / m) as u16, (y % m) as u16);
    write_command::put_end(buffer, 7 + 10 * gates);
}

// ---- reading

// The number that the gate at a place shows, over m nets.
fn gate_at(s: &[u8], m: usize, at: usize) -> usize
    requires { (m ≤ 6) × (at + 5 ≤ length s.now) }
    ensures { (result ≡ gate_at s.now m at) × (result ≤ 20000) }
{
    let kind = wide(s[at + 1]);
    let a = wide(s[at + 2]);
    let b = wide(s[at + 4]);
    if kind == 0 {
        return a * m + b;
    }
    (kind - 1) * square(m) + (a * m + b)
}

fn wide(x: u8) -> usize
    ensures { (result ≡ x) × (result ≤ 255) }
{
    x as usize
}

// The number that the gates of a file show.
fn gates_at(s: &[u8], m: usize, gates: usize) -> usize
    requires { (m ≤ 6) × (gates ≤ 2) × (8 + 10 * gates ≤ length s.now) }
    ensures { (result ≡ gates_at s.now m gates) × (result ≤ 2000000) }
{
    if gates == 0 {
        return 0;
    }
    if gates == 1 {
        return gate_at(s, m, 2);
    }
    gate_at(s, m, 2) * (2 * square(m)) + gate_at(s, m, 12)
}

// The number that a file shows.
fn number_in(s: &[u8], m: usize, gates: usize) -> usize
    requires { (m ≤ 6) × (gates ≤ 2) × (8 + 10 * gates ≤ length s.now) }
    ensures { result ≡ number_in s.now m gates }
{
    let r0 = wide(s[3 + 10 * gates]);
    let r1 = wide(s[5 + 10 * gates]);
    gates_at(s, m, gates) * square(m) + (r0 * m + r1)
}

// ---- the call

// Where a file stands that has the length and the input count of a shape.
fn locate_shaped(s: &[u8], inputs: usize, gates: usize) -> Place
    requires { InShape inputs gates × (length s.now ≡ 8 + 10 * gates) × (get_or s.now 1 0 ≡ inputs) }
    ensures { Located s.now result }
{
    let m = 2 * inputs + gates;
    let number = number_in(s, m, gates);
    if stages(inputs, gates) <= number {
        return Place::Outside;
    }
    if loop_free(inputs, gates, number) {
        let mut bytes: [u8; 28] = [0; 28];
        write_stage(inputs, gates, number, &mut bytes);
        if bytes.starts_with(s) {
            return Place::Stage(inputs, gates, number);
        }
        return Place::Outside;
    }
    Place::Outside
}

// Where a file stands.
fn locate(s: &[u8]) -> Place
    ensures { Located s.now result }
{
    let long = s.len();
    if long == 0 {
        return Place::Start;
    }
    if long < 8 || 28 < long || long % 10 != 8 {
        return Place::Outside;
    }
    let inputs = wide(s[1]);
    if inputs < 1 || 2 < inputs {
        return Place::Outside;
    }
    locate_shaped(s, inputs, (long - 8) / 10)
}

// The file of a stage of the family, or the refusal 38.
fn write_number(inputs: usize, gates: usize, number: usize, buffer: &mut [u8]) -> Answer
    requires { Listed inputs gates number }
    ensures { written result buffer.new ≡ written_at (Place.Stage inputs gates number) buffer.old }
{
    let size = 8 + 10 * gates;
    if buffer.len() < size {
        return write_command::refused_by(38, 3);
    }
    write_stage(inputs, gates, number, buffer);
    write_command::wrote(size)
}

// The file of the stage at a place, or the refusal 36 where there is none, or 38.
fn write_place(place: Place, buffer: &mut [u8]) -> Answer
    requires { ListedAt place }
    ensures { written result buffer.new ≡ written_at place buffer.old }
{
    match place {
        Place::Stage(inputs, gates, number) => write_number(inputs, gates, number, buffer),
        Place::Start => write_command::refused_by(36, 1),
        Place::Outside => write_command::refused_by(36, 1),
    }
}

// Writes the file of the family after a file, or refuses by 37, 36 or 38.
pub fn next_stage(s: &[u8], buffer: &mut [u8]) -> Answer
    ensures { NextDemand s.now buffer.old result buffer.new }
{
    let at = locate(s);
    match at {
        Place::Start => {
            let following = first_from(1, 0, 0);
            write_place(following, buffer)
        }
        Place::Stage(inputs, gates, number) => {
            let following = first_from(inputs, gates, number + 1);
            write_place(following, buffer)
        }
        Place::Outside => write_command::refused_by(37, 1),
    }
}
