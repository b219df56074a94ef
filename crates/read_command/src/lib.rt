// Reading a stage or reference file, one command at a time. What is read is defined in the crate netlist.
#![tactic(auto)]

ghost use Rattle.std.specs.Prelude.{◌≡◌, false, ◌+◌, ◌*◌, ◌^◌, ◌<◌, ◌≤◌, length, ltb};
ghost use Rattle.netlist.specs.declared.File.TheVariants as file;
ghost use Rattle.netlist.specs.declared.File.TheVariants.{Reference};
ghost use Rattle.netlist.specs.Bytes as bytes;
ghost use Rattle.netlist.specs.Commands as commands;

use gates::Kind;
use netlist::{Counts, Cursor, File, Form, Limits, Next, Role, Sort};

// ---- the command table

// A row: the command's sort, how many bytes stand before its operands, and how many u16 operands follow.
fn as_form(sort: Sort, lead: usize, operands: usize) -> Form
    ensures { result ≡ commands.as_form sort lead operands }
{
    Form {
        sort,
        lead,
        operands,
    }
}

// The row of a command byte that only a stage has.
fn stage_form(command: u8) -> Form
    ensures { result ≡ commands.form_in (commands.own_commands file.Stage) command }
{
    match command {
        0x02 => as_form(Sort::Gate, 2, 4),
        0x03 => as_form(Sort::Output, 1, 2),
        0x06 => as_form(Sort::Care, 1, 1),
        _ => as_form(Sort::Unknown, 1, 0),
    }
}

// The row of a command byte that only a pipeline has.
fn pipeline_form(command: u8) -> Form
    ensures { result ≡ commands.form_in (commands.own_commands file.Pipeline) command }
{
    match command {
        0x02 => as_form(Sort::Gate, 2, 4),
        0x03 => as_form(Sort::Output, 1, 2),
        0x04 => as_form(Sort::Register, 1, 3),
        0x05 => as_form(Sort::Element, 1, 4),
        0x06 => as_form(Sort::Care, 1, 1),
        _ => as_form(Sort::Unknown, 1, 0),
    }
}

// The row of a command byte that only a reference has.
fn reference_form(command: u8) -> Form
    ensures { result ≡ commands.form_in (commands.own_commands file.Reference) command }
{
    match command {
        0x11 => as_form(Sort::Gate, 2, 2),
        0x12 => as_form(Sort::Output, 1, 1),
        _ => as_form(Sort::Unknown, 1, 0),
    }
}

// The row of a command byte. The byte alone says which operands follow.
pub fn form_of(file: File, command: u8) -> Form
    ensures { result ≡ commands.form_of file command }
{
    match command {
        0x00 => as_form(Sort::End, 1, 0),
        0x01 => as_form(Sort::Inputs, 2, 0),
        _ => match file {
            File::Stage => stage_form(command),
            File::Pipeline => pipeline_form(command),
            File::Reference => reference_form(command),
        },
    }
}

// What operand i of a command of a pipeline has to name.
fn pipeline_role(sort: Sort, i: usize) -> Role
    ensures { result ≡ commands.role_of file.Pipeline sort i }
{
    match sort {
        Sort::Gate => Role::Data,
        Sort::Output => Role::Data,
        Sort::Register => { if i < 2 { Role::Data } else { Role::Request } }
        Sort::Element => Role::Pin,
        _ => Role::Number,
    }
}

// Of a command of a reference.
fn reference_role(sort: Sort, i: usize) -> Role
    ensures { result ≡ commands.role_of file.Reference sort i }
{
    match sort {
        Sort::Gate => Role::EarlierSignal,
        Sort::Output => Role::AnySignal,
        _ => Role::Number,
    }
}

// Of a command of a stage.
fn stage_role(sort: Sort, i: usize) -> Role
    ensures { result ≡ commands.role_of file.Stage sort i }
{
    match sort {
        Sort::Gate => Role::AnyNet,
        Sort::Output => Role::AnyNet,
        _ => Role::Number,
    }
}

// What operand i of a command has to name.
pub fn role_of(file: File, sort: Sort, i: usize) -> Role
    ensures { result ≡ commands.role_of file sort i }
{
    match file {
        File::Stage => stage_role(sort, i),
        File::Pipeline => pipeline_role(sort, i),
        File::Reference => reference_role(sort, i),
    }
}

// How many bytes a command has.
pub fn width(form: Form) -> usize
    requires { commands.width form < 2 ^ 64 }
    ensures { result ≡ commands.width form }
{
    form.lead + 2 * form.operands
}

// How many pins a gate of a kind has; 0 where there is no such kind: a number and no Option, since commands.needed of specs/ says it so.
fn pins_needed(kind: Kind) -> usize
    ensures { result ≡ commands.pins_needed kind }
{
    match kind {
        Kind::Hold { cell: _, pins } => pins as usize,
        Kind::Relaxed { cell: _, pins } => pins as usize,
        Kind::Unknown => 0,
    }
}

// How many of a gate's operands its kind or operation needs, from the first on; 0 where there is no such kind or operation (by commands.needed).
pub fn needed(file: File, code: u8) -> usize
    ensures { result ≡ commands.needed file code }
{
    match file {
        File::Reference => match code {
            1 => 1,
            2..=6 => 2,
            _ => 0,
        },
        _ => pins_needed(gates::kind_of(code)),
    }
}

// ---- the command at a position

// 5: operand i, of which the first k are needed, is needed but FFFF, or not needed and not FFFF.
fn misfit(k: usize, i: usize, v: u16) -> bool
    ensures { result ≡ commands.misfit k i v }
{
    if i < k { v == 0xFFFF } else { v != 0xFFFF }
}

// The first such operand among m that stand from a place on.
fn first_misfit(k: usize, s: &[u8], at: usize, m: usize) -> Option<usize>
    requires { at + 2 * m ≤ length s.now }
    ensures { result ≡ commands.misfit_from k 0 s.now at m }
{
    for i in 0..m {
        let place = at + 2 * i;
        let v = netlist::operand(s, place);
        if misfit(k, i, v) {
            return Some(place);
        }
    }
    None
}

// A gate all of whose bytes are there, after g gates: 6, then 4, then 5 by operand.
fn take_gate(
    file: File,
    most: Limits,
    s: &[u8],
    at: usize,
    g: usize,
    form: Form,
    taken: Next,
) -> Next
    requires { (2 ≤ form.lead) × (at + commands.width form ≤ length s.now) }
    ensures { result ≡ commands.take_gate file most s.now at g form taken }
{
    if most.gates <= g {
        return Next::Refused { number: 6, at };
    }
    let code = at + 1;
    let k = needed(file, s[code]);
    if k == 0 {
        return Next::Refused {
            number: 4,
            at: code,
        };
    }
    let found = first_misfit(k, s, at + form.lead, form.operands);
    match found {
        Some(place) => Next::Refused {
            number: 5,
            at: place,
        },
        None => taken,
    }
}

// How many of the four pins from a place on a C-element uses: A and B, C where it is not FFFF, and D only if C is used and D is not FFFF.
pub fn pins_used(s: &[u8], place: usize) -> usize
    requires { place + 8 ≤ length s.now }
    ensures { result ≡ commands.pins_used s.now place }
{
    if netlist::operand(s, place + 4) == 0xFFFF {
        return 2;
    }
    if netlist::operand(s, place + 6) == 0xFFFF {
        return 3;
    }
    4
}

// A C-element all of whose bytes are there, after m of them: 6, then 5 by pin.
fn take_element(s: &[u8], at: usize, m: usize, form: Form, taken: Next) -> Next
    requires { (form.operands ≡ 4) × (at + commands.width form ≤ length s.now) }
    ensures { result ≡ commands.take_element s.now at m form taken }
{
    if netlist::PARTS <= m {
        return Next::Refused { number: 6, at };
    }
    let first = at + form.lead;
    let found = first_misfit(pins_used(s, first), s, first, form.operands);
    match found {
        Some(place) => Next::Refused {
            number: 5,
            at: place,
        },
        None => taken,
    }
}

// A number is a word of n inputs. A u16 is one of 16 inputs or more.
fn is_word(w: u16, n: usize) -> bool
    ensures { result ≡ ltb w (2 ^ n) }
{
    if n < 16 {
        return (w as usize) < 1 << n;
    }
    true
}

// A care word at a place: 18, then 19.
fn take_care(s: &[u8], place: usize, before: Counts, taken: Next) -> Next
    requires { place + 1 < length s.now }
    ensures { result ≡ commands.take_care s.now place before taken }
{
    let w = netlist::operand(s, place);
    if is_word(w, before.inputs) {
        if (w as usize) < before.floor {
            return Next::Refused {
                number: 19,
                at: place,
            };
        }
        return taken;
    }
    Next::Refused {
        number: 18,
        at: place,
    }
}

// A command all of whose bytes are there, by its sort: its refusals, or the command with the position after it. Inputs: 3 where
// the count is not in 1 to the limit. An output, a register: 6.
fn take_command(file: File, most: Limits, s: &[u8], at: usize, before: Counts, form: Form) -> Next
    requires { (form ≡ commands.form_of file (bytes.byte s.now at)) × (at + commands.width form ≤ length s.now) }
    ensures { result ≡ commands.take_command file most s.now at before form }
{
    let sort = form.sort;
    let after = at + width(form);
    let taken = Next::Command(sort, Cursor { at: after });
    match sort {
        Sort::Inputs => {
            let count = at + 1;
            let n = s[count] as usize;
            if 1 <= n {
                if n <= most.inputs {
                    return taken;
                }
            }
            Next::Refused {
                number: 3,
                at: count,
            }
        }
        Sort::Gate => take_gate(file, most, s, at, before.gates, form, taken),
        Sort::Output => {
            if most.outputs <= before.outputs {
                Next::Refused { number: 6, at }
            } else {
                taken
            }
        }
        Sort::Care => take_care(s, at + form.lead, before, taken),
        Sort::Register => {
            if netlist::PARTS <= before.registers {
                Next::Refused { number: 6, at }
            } else {
                taken
            }
        }
        Sort::Element => take_element(s, at, before.elements, form, taken),
        Sort::End | Sort::Unknown => taken,
    }
}

// A command with a row of the table, at a position where it may stand: 1, then those of its sort. The room for it is compared with what is
// left of the file, so that no sum wraps, whatever the position.
fn take_row(
    file: File,
    most: Limits,
    s: &[u8],
    at: usize,
    before: Counts,
    sort: Sort,
    lead: usize,
    operands: usize,
) -> Next
    requires at_in_bounds { (at < length s.now) × (commands.stray at sort ≡ false) }
    requires operands_value { commands.as_form sort lead operands ≡ commands.form_of file (bytes.byte s.now at) }
    ensures { result ≡ commands.next_at file most s.now at before }
{
    let form = as_form(sort, lead, operands);
    if s.len() - at < width(form) {
        return Next::Refused {
            number: 1,
            at: s.len(),
        };
    }
    take_command(file, most, s, at, before, form)
}

// The first command of a file: 2 where it is not 01.
fn take_first(file: File, most: Limits, s: &[u8], before: Counts) -> Next
    requires { 0 < length s.now }
    ensures { result ≡ commands.next_at file most s.now 0 before }
{
    let command = s[0];
    match command {
        0x01 => take_row(file, most, s, 0, before, Sort::Inputs, 2, 0),
        _ => Next::Refused { number: 2, at: 0 },
    }
}

// A later command of a stage or a pipeline: 2 where it is none of that file, or 01 again. Each row comes with its numbers, so that each is
// read by code of its own.
fn take_stage(file: File, most: Limits, s: &[u8], at: usize, before: Counts) -> Next
    requires { (at < length s.now) × (1 ≤ at) × (file ≡ Reference → ⊥) }
    ensures { result ≡ commands.next_at file most s.now at before }
{
    let command = s[at];
    match command {
        0x00 => take_row(file, most, s, at, before, Sort::End, 1, 0),
        0x02 => take_row(file, most, s, at, before, Sort::Gate, 2, 4),
        0x03 => take_row(file, most, s, at, before, Sort::Output, 1, 2),
        0x04 => match file {
            File::Pipeline => take_row(file, most, s, at, before, Sort::Register, 1, 3),
            _ => Next::Refused { number: 2, at },
        },
        0x05 => match file {
            File::Pipeline => take_row(file, most, s, at, before, Sort::Element, 1, 4),
            _ => Next::Refused { number: 2, at },
        },
        0x06 => take_row(file, most, s, at, before, Sort::Care, 1, 1),
        _ => Next::Refused { number: 2, at },
    }
}

// A later command of a reference.
fn take_reference(most: Limits, s: &[u8], at: usize, before: Counts) -> Next
    requires { (at < length s.now) × (1 ≤ at) }
    ensures { result ≡ commands.next_at file.Reference most s.now at before }
{
    let command = s[at];
    match command {
        0x00 => take_row(File::Reference, most, s, at, before, Sort::End, 1, 0),
        0x11 => take_row(File::Reference, most, s, at, before, Sort::Gate, 2, 2),
        0x12 => take_row(File::Reference, most, s, at, before, Sort::Output, 1, 1),
        _ => Next::Refused { number: 2, at },
    }
}

// The command at a position, or the refusal that ends the reading there: 2, then 1, then those of its sort.
pub fn next_command(file: File, most: Limits, s: &[u8], here: Cursor, before: Counts) -> Next
    ensures { result ≡ commands.next_at file most s.now here.at before }
{
    let at = here.at;
    if s.len() <= at {
        return Next::Refused {
            number: 1,
            at: s.len(),
        };
    }
    if at == 0 {
        return take_first(file, most, s, before);
    }
    match file {
        File::Reference => take_reference(most, s, at, before),
        _ => take_stage(file, most, s, at, before),
    }
}
