// The text of a loaded stage in the line form, put into a buffer part by part; and 31, an output that would give a net a second name. Each
// function that puts something answers the place after it. The text is said in text_spec/specs/ToText.antt.
#![tactic(auto)]

ghost use Rattle.std.specs.Prelude.{◌≡◌, ◌+◌, ◌*◌, ◌≤◌, ◌<◌, [], length};
ghost use Rattle.std.specs.List.{list_any, range_with_len};
ghost use Rattle.circuit.specs.Stage.{net_count, pin_in, output_in, stage_outputs, stage_in, StageLoaded};
ghost use Rattle.text_spec.specs.Characters as characters;
ghost use Rattle.text_spec.specs.ToText as text;
ghost use Rattle.text_lines.specs.Names.{NameTable};
ghost use Rattle.write_decimal.specs.Put.{PutNext};
ghost use Rattle.text_write.specs.Parts.{kind_in, input_names, output_names_in, pin_names, gate_line, gate_lines};
ghost use Rattle.text_write.specs.Second.{names_net, given, second};

use netlist::Counts;

// Room for the text of the largest stage: at most 5 bytes for each name in the first two lines, with what follows it, and 46 for each gate line.
pub const WORK: usize = 5 * netlist::INPUTS + 5 * netlist::OUTPUTS + 46 * netlist::STAGE_GATES + 2;

// ---- names

// A letter and a number.
fn put_numbered(work: &mut [u8], at: usize, letter: u8, i: usize) -> usize
    requires { (i < 1000) × (at + length (text.numbered letter i) ≤ length work.old) }
    ensures { PutNext work.old at (text.numbered letter i) work.new result }
{
    let next = write_decimal::put_char(work, at, letter);
    write_decimal::put_decimal(work, next, i)
}

// A letter and a number, with _0 or _1.
fn put_rail(work: &mut [u8], at: usize, letter: u8, i: usize, rail: usize) -> usize
    requires { (i < 1000) × (rail < 2) × (at + length (characters.rail (text.numbered letter i) rail) ≤ length work.old) }
    ensures { PutNext work.old at (characters.rail (text.numbered letter i) rail) work.new result }
{
    let next = put_numbered(work, at, letter, i);
    let last = write_decimal::put_char(work, next, b'_');
    write_decimal::put_char(work, last, 48 + rail as u8)
}

// The name of the net of a gate: that of the first rail of an output that is on it, or else its own.
fn put_gate_net(code: &[u16], counts: Counts, v: usize, work: &mut [u8], at: usize) -> usize
    requires { StageLoaded counts code.now × (2 * counts.inputs ≤ v) × (v ≤ net_count counts)
        × (at + length (text.net_name counts.inputs (stage_outputs counts code.now) v) ≤ length work.old) }
    ensures { PutNext work.old at (text.net_name counts.inputs (stage_outputs counts code.now) v) work.new result }
{
    for i in 0..counts.outputs {
        let rails = circuit::form::rails_of(code, counts, i);
        if rails.rail0 as usize == v {
            return put_rail(work, at, b'y', i, 0);
        }
        if rails.rail1 as usize == v {
            return put_rail(work, at, b'y', i, 1);
        }
    }
    put_numbered(work, at, b'g', v - 2 * counts.inputs)
}

// The name of a net.
fn put_net(code: &[u16], counts: Counts, v: usize, work: &mut [u8], at: usize) -> usize
    requires { StageLoaded counts code.now × (v ≤ net_count counts)
        × (at + length (text.net_name counts.inputs (stage_outputs counts code.now) v) ≤ length work.old) }
    ensures { PutNext work.old at (text.net_name counts.inputs (stage_outputs counts code.now) v) work.new result }
{
    if v < 2 * counts.inputs {
        return put_rail(work, at, b'x', v / 2, v % 2);
    }
    put_gate_net(code, counts, v, work, at)
}

// ---- the lines of names

// The names of the inputs.
fn put_input_names(inputs: usize, work: &mut [u8], start: usize) -> usize
    requires { (1 ≤ inputs) × (inputs ≤ 10) × (start + length (input_names inputs) ≤ length work.old) }
    ensures { PutNext work.old start (input_names inputs) work.new result }
{
    let mut at = put_numbered(work, start, b'x', 0);
    for i in 1..inputs {
        at = write_decimal::put_char(work, at, b',');
        at = put_numbered(work, at, b'x', i);
    }
    at
}

// Output j is an input pair, rail 0 first.
fn is_straight(code: &[u16], counts: Counts, j: usize) -> bool
    requires { StageLoaded counts code.now × (j < counts.outputs) }
    ensures { result ≡ text.straight counts.inputs (output_in counts code.now j) }
{
    let rails = circuit::form::rails_of(code, counts, j);
    let rail0 = rails.rail0 as usize;
    let rail1 = rails.rail1 as usize;
    if 2 * counts.inputs <= rail0 {
        return false;
    }
    if rail0 % 2 == 0 {
        return rail1 == rail0 + 1;
    }
    false
}

// The name of output j.
fn put_output_name(code: &[u16], counts: Counts, j: usize, work: &mut [u8], at: usize) -> usize
    requires { StageLoaded counts code.now × (j < counts.outputs)
        × (at + length (text.output_name counts.inputs j (output_in counts code.now j)) ≤ length work.old) }
    ensures { PutNext work.old at (text.output_name counts.inputs j (output_in counts code.now j)) work.new result }
{
    if is_straight(code, counts, j) {
        let rail0 = circuit::form::rails_of(code, counts, j).rail0 as usize;
        return put_numbered(work, at, b'x', rail0 / 2);
    }
    put_numbered(work, at, b'y', j)
}

// The names of the outputs.
fn put_output_names(code: &[u16], counts: Counts, work: &mut [u8], start: usize) -> usize
    requires { StageLoaded counts code.now × (1 ≤ counts.outputs) × (start + length (output_names_in counts code.now) ≤ length work.old) }
    ensures { PutNext work.old start (output_names_in counts code.now) work.new result }
{
    let mut at = put_output_name(code, counts, 0, work, start);
    for j in 1..counts.outputs {
        at = write_decimal::put_char(work, at, b',');
        at = put_output_name(code, counts, j, work, at);
    }
    at
}

// ---- gate lines

// The name of a cell, from the table of their names.
fn put_cell(names: &[u8], cell: usize, work: &mut [u8], at: usize) -> usize
    requires { NameTable names.now × (1 ≤ cell) × (cell ≤ 27) × (at + length (characters.cell_name cell) ≤ length work.old) }
    ensures { PutNext work.old at (characters.cell_name cell) work.new result }
{
    let row = 9 * (cell - 1);
    let from = row + 1;
    let to = from + names[row] as usize;
    write_command::put_bytes(work, at, &names[from..to]);
    at + (to - from)
}

// The name of the kind of gate k.
fn put_kind(
    names: &[u8],
    code: &[u16],
    counts: Counts,
    k: usize,
    work: &mut [u8],
    at: usize,
) -> usize
    requires { NameTable names.now × StageLoaded counts code.now × (k < counts.gates)
        × (at + length (characters.kind_name (kind_in code.now k)) ≤ length work.old) }
    ensures { PutNext work.old at (characters.kind_name (kind_in code.now k)) work.new result }
{
    let cell = circuit::form::cell_of(code, counts, k) as usize;
    if circuit::form::has_hold(code, counts, k) {
        return put_cell(names, cell, work, at);
    }
    let next = write_decimal::put_char(work, at, b'r');
    put_cell(names, cell, work, next)
}

// The name of the net at pin i of gate k.
fn put_pin(code: &[u16], counts: Counts, k: usize, i: usize, work: &mut [u8], at: usize) -> usize
    requires { StageLoaded counts code.now × (k < counts.gates) × (i < 4)
        × (at + length (text.net_name counts.inputs (stage_outputs counts code.now) (pin_in code.now k i)) ≤ length work.old) }
    ensures { PutNext work.old at (text.net_name counts.inputs (stage_outputs counts code.now) (pin_in code.now k i))
        work.new result }
{
    let net = circuit::form::pin_of(code, counts, k, i) as usize;
    put_net(code, counts, net, work, at)
}

// The names of the nets at the pins of gate k.
fn put_pins(code: &[u16], counts: Counts, k: usize, work: &mut [u8], start: usize) -> usize
    requires { StageLoaded counts code.now × (k < counts.gates) × (start + length (pin_names counts code.now k) ≤ length work.old) }
    ensures { PutNext work.old start (pin_names counts code.now k) work.new result }
{
    let count = circuit::form::pin_count(code, counts, k);
    let mut at = put_pin(code, counts, k, 0, work, start);
    for i in 1..count {
        at = write_decimal::put_char(work, at, b',');
        at = put_pin(code, counts, k, i, work, at);
    }
    at
}

// The line of gate k: kind, pins, net.
fn put_gate(
    names: &[u8],
    code: &[u16],
    counts: Counts,
    k: usize,
    work: &mut [u8],
    at: usize,
) -> usize
    requires { NameTable names.now × StageLoaded counts code.now × (k < counts.gates)
        × (at + length (gate_line counts code.now k) ≤ length work.old) }
    ensures { PutNext work.old at (gate_line counts code.now k) work.new result }
{
    let kind = put_kind(names, code, counts, k, work, at);
    let pins = write_decimal::put_char(work, kind, b' ');
    let last = put_pins(code, counts, k, work, pins);
    let net = write_decimal::put_char(work, last, b' ');
    put_net(code, counts, 2 * counts.inputs + k, work, net)
}

// The lines of all gates.
fn put_gates(code: &[u16], counts: Counts, work: &mut [u8], start: usize) -> usize
    requires { StageLoaded counts code.now × (start + length (gate_lines counts code.now) ≤ length work.old) }
    ensures { PutNext work.old start (gate_lines counts code.now) work.new result }
{
    let names = text_lines::names();
    let mut at = start;
    for k in 0..counts.gates {
        at = put_gate(&names, code, counts, k, work, at);
        at = write_decimal::put_char(work, at, b'\n');
    }
    at
}

// The whole text: the names of the inputs, those of the outputs, and the gate lines. Answers how long it is.
pub fn put_text(code: &[u16], counts: Counts, work: &mut [u8]) -> usize
    requires { StageLoaded counts code.now × (1 ≤ counts.inputs) × (1 ≤ counts.outputs)
        × (length (text.text_for (stage_in counts code.now)) ≤ length work.old) }
    ensures { PutNext work.old 0 (text.text_for (stage_in counts code.now)) work.new result }
{
    let inputs = put_input_names(counts.inputs, work, 0);
    let line1 = write_decimal::put_char(work, inputs, b'\n');
    let outputs = put_output_names(code, counts, work, line1);
    let line2 = write_decimal::put_char(work, outputs, b'\n');
    put_gates(code, counts, work, line2)
}

// ---- 31

// Output j, if it is no input pair, names a net: one of its rails is on it.
fn names_net(code: &[u16], counts: Counts, j: usize, v: u16) -> bool
    requires { StageLoaded counts code.now × (j < counts.outputs) }
    ensures { result ≡ names_net counts.inputs (output_in counts code.now j) v }
{
    if is_straight(code, counts, j) {
        return false;
    }
    let rails = circuit::form::rails_of(code, counts, j);
    if v == rails.rail1 {
        return true;
    }
    v == rails.rail0
}

// An output before output j names a net.
fn names_before(code: &[u16], counts: Counts, j: usize, v: u16) -> bool
    requires { StageLoaded counts code.now × (j ≤ counts.outputs) }
    ensures { result ≡ list_any (λ i. names_net counts.inputs (output_in counts code.now i) v) (range_with_len 0 j) }
{
    (0..j).any(|i| names_net(code, counts, i, v))
}

// A net has a name before output j: it is an input's rail, or an earlier output names it.
fn is_named(code: &[u16], counts: Counts, j: usize, v: u16) -> bool
    requires { StageLoaded counts code.now × (j ≤ counts.outputs) }
    ensures { result ≡ text.named counts.inputs (given counts.inputs (output_in counts code.now) j) v }
{
    (v as usize) < 2 * counts.inputs || names_before(code, counts, j, v)
}

// Output j would give a net a second name.
fn is_second(code: &[u16], counts: Counts, j: usize) -> bool
    requires { StageLoaded counts code.now × (j < counts.outputs) }
    ensures { result ≡ second counts.inputs (given counts.inputs (output_in counts code.now) j) (output_in counts code.now j) }
{
    if is_straight(code, counts, j) {
        return false;
    }
    let rails = circuit::form::rails_of(code, counts, j);
    let rail0 = rails.rail0;
    let rail1 = rails.rail1;
    if is_named(code, counts, j, rail0) {
        return true;
    }
    if rail1 == rail0 {
        return true;
    }
    is_named(code, counts, j, rail1)
}

// The least output that would give a net a second name.
pub fn second_name(code: &[u16], counts: Counts) -> Option<usize>
    requires { StageLoaded counts code.now }
    ensures { result ≡ text.second_name counts.inputs [] 0 (stage_outputs counts code.now) }
{
    for j in 0..counts.outputs {
        if is_second(code, counts, j) {
            return Some(j);
        }
    }
    None
}
