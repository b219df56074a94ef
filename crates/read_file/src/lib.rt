// Reading a whole stage or reference file. A reader over its bytes takes one command at a time; what a command is, and how a file is
// refused, is said in the crate netlist, and one command is read in the crate read_command.
#![tactic(auto)]

ghost use Rattle.std.specs.Prelude.{◌≡◌, true, map, ℕ, ◌+◌, ◌*◌, ◌^◌, ◌<◌, ◌≤◌, length, Err};
ghost use Rattle.netlist.specs.Commands as commands;
ghost use Rattle.netlist.specs.Bytes as bytes;
ghost use Rattle.netlist.specs.Reading as reading;
ghost use Rattle.netlist.specs.Read as read;
ghost use Rattle.netlist.specs.Types as types;
ghost use Rattle.read_file.specs.Files as files;

use netlist::{Counts, Cursor, File, Form, Limits, Next, Refusal, Role, Sort};

// ---- the reader

// The bytes of a file, and a position in them.
#[derive(Clone, Copy)]
pub struct Reader<'a> {
    pub src: &'a [u8],
    pub here: Cursor,
}

// A reader at a position.
pub fn over<'a>(src: &'a [u8], here: Cursor) -> Reader<'a>
    ensures { (result.src ≡ src.entry) × (result.here ≡ here) }
{
    Reader { src, here }
}

// The command at the reader's position, with the position after it, or the refusal that ends the reading there. It depends on which
// file is read, on its limits, and on what stands before the position.
pub fn next<'a>(file: File, most: Limits, r: Reader<'a>, before: Counts) -> Next
    ensures { result ≡ commands.next_at file most r.entry.src.now r.entry.here.at before }
{
    read_command::next_command(file, most, r.src, r.here, before)
}

// The same for callers that hold the file themselves: a reader is made at the position and takes one command.
pub fn take_next(file: File, most: Limits, s: &[u8], here: Cursor, before: Counts) -> Next
    ensures { result ≡ commands.next_at file most s.now here.at before }
{
    next(file, most, over(s, here), before)
}

// ---- 9: an operand that names nothing

// What a net after the gates carries: data, or a register's Ko or the net of a C-element; or there is no such net.
#[derive(Clone, Copy)]
pub enum Carried {
    Data,
    Completion,
    Nothing,
}

// How many nets a register or a C-element has: a register two rails and Ko, a C-element one net.
fn nets_of(note: u16) -> usize
    ensures { result ≡ length (files.nets_noted note) }
{
    if note % 2 == 1 { 1 } else { 3 }
}

// What net i of them carries.
fn own_net(note: u16, i: usize) -> Carried
    requires { i < length (files.nets_noted note) }
    ensures { result ≡ files.carried_at (files.nets_noted note) i }
{
    if note % 2 == 1 {
        return Carried::Completion;
    }
    if i < 2 {
        return Carried::Data;
    }
    Carried::Completion
}

// What net i after the gates carries.
fn part_net(notes: &[u16], i: usize) -> Carried
    ensures { result ≡ files.carried_at (reading.part_nets (reading.sorts_of (map files.part_noted notes.now))) i }
{
    let mut left = i;
    for note in notes {
        let own = nets_of(*note);
        if left < own {
            return own_net(*note, left);
        }
        left -= own;
    }
    Carried::Nothing
}

// Whether a number names a net that carries data, with n inputs, g gates and the notes of the registers and C-elements.
fn carries_data(n: usize, g: usize, notes: &[u16], v: usize) -> bool
    requires { 2 * n + g < 2 ^ 64 }
    ensures { result ≡ reading.carries_data (files.nets_with n g notes.now) v }
{
    let first = 2 * n + g;
    if v < first {
        return true;
    }
    match part_net(notes, v - first) {
        Carried::Data => true,
        Carried::Completion => false,
        Carried::Nothing => false,
    }
}

// Whether a number names any net.
fn is_net(n: usize, g: usize, notes: &[u16], v: usize) -> bool
    requires { 2 * n + g < 2 ^ 64 }
    ensures { result ≡ reading.is_net (files.nets_with n g notes.now) v }
{
    let first = 2 * n + g;
    if v < first {
        return true;
    }
    match part_net(notes, v - first) {
        Carried::Data => true,
        Carried::Completion => true,
        Carried::Nothing => false,
    }
}

// Whether a number names what its role asks for, where k gates stand before its command.
fn names(role: Role, n: usize, g: usize, notes: &[u16], k: usize, v: usize) -> bool
    requires { (2 * n + g < 2 ^ 64) × (n + k < 2 ^ 64) }
    ensures { result ≡ reading.names role (files.nets_with n g notes.now) k v }
{
    match role {
        Role::AnyNet => v < 2 * n + g,
        Role::EarlierSignal => v < n + k,
        Role::AnySignal => v < n + g,
        Role::Number => true,
        Role::Data => carries_data(n, g, notes, v),
        Role::Pin => is_net(n, g, notes, v),
        Role::Request => {
            if v == 0xFFFE {
                return true;
            }
            is_net(n, g, notes, v)
        }
    }
}

// How many of its operands the command at a position uses, from the first on.
fn used_operands(file: File, s: &[u8], at: usize, form: Form) -> usize
    requires { (form ≡ commands.form_of file (bytes.byte s.now at)) × (at + commands.width form ≤ length s.now) }
    ensures { result ≡ commands.used file s.now at form }
{
    let sort = form.sort;
    match sort {
        Sort::Gate => read_command::needed(file, s[at + 1]),
        Sort::Element => read_command::pins_used(s, at + form.lead),
        _ => form.operands,
    }
}

// The first of them that does not name what it is asked for, where k gates stand before the command.
fn nameless_at(
    file: File,
    n: usize,
    g: usize,
    notes: &[u16],
    s: &[u8],
    at: usize,
    k: usize,
    form: Form,
) -> Option<usize>
    requires form_value { (form ≡ commands.form_of file (bytes.byte s.now at)) × (at + commands.width form ≤ length s.now) }
    requires g_bound { (2 * n + g < 2 ^ 64) × (n + k < 2 ^ 64) }
    ensures { result ≡ reading.nameless_at file (files.nets_with n g notes.now) s.now at k form }
{
    let sort = form.sort;
    let first = at + form.lead;
    let m = used_operands(file, s, at, form);
    for j in 0..m {
        let place = first + 2 * j;
        let v = netlist::operand(s, place) as usize;
        let role = read_command::role_of(file, sort, j);
        if !names(role, n, g, notes, k, v) {
            return Some(place);
        }
    }
    None
}

// The first operand of a file that names nothing, in the order of the file, which whole commands fill.
fn find_nameless(file: File, n: usize, g: usize, notes: &[u16], s: &[u8]) -> Option<usize>
    requires { files.Countable n g × files.FilledTo file s.now (length s.now) }
    ensures { result ≡ reading.nameless_from (length s.now) file (files.nets_with n g notes.now) s.now 0 0 }
{
    let mut at: usize = 0;
    let mut k: usize = 0;
    // A `while`: the position moves on by the width of the command that stands there, and not by one.
    while at < s.len() {
        let form = read_command::form_of(file, s[at]);
        if let Some(place) = nameless_at(file, n, g, notes, s, at, k, form) {
            return Some(place);
        }
        let after = at + read_command::width(form);
        let sort = form.sort;
        match sort {
            Sort::Gate => {
                k += 1;
            }
            _ => {}
        }
        at = after;
    }
    None
}

// ---- 9 while the commands are read

// More than any nets reach: the operands are to be asked one by one. A number and no Option: a top is only compared, and Topped and Settled of
// specs/ say it by the number.
const ASKED: usize = 0x100000000;

// How far operands may reach that are asked by their numbers alone: in a reference to the last signal, else to the last net of a gate.
fn reach(file: File, n: usize, g: usize) -> usize
    requires { files.Countable n g }
    ensures { result ≡ files.reach file n g }
{
    match file {
        File::Reference => n + g,
        _ => 2 * n + g,
    }
}

// The number after an operand; where some may be spare, FFFF is none and gives 0.
fn past(v: u16, spare: bool) -> usize
    ensures { files.Present spare v → v < result }
{
    let next = v as usize + 1;
    if spare { next % 0x10000 } else { next }
}

// A top above m operands from a place on, and no lower than one before.
fn above(top: usize, s: &[u8], place: usize, m: usize, spare: bool) -> usize
    requires { place + 2 * m ≤ length s.now }
    ensures { (top ≤ result) × files.Below s.now place m spare result }
{
    let mut high = top;
    for i in 0..m {
        let v = netlist::operand(s, place + 2 * i);
        high = high.max(past(v, spare));
    }
    high
}

// A top after a command of a sort, where one stood before it.
fn top_after(file: File, sort: Sort, s: &[u8], at: usize, before: Counts, top: usize) -> usize
    requires { files.Stands file s.now at sort × files.Countable before.inputs before.gates }
    ensures { files.Topped file s.now at before top result }
{
    match sort {
        Sort::Gate => match file {
            File::Reference => {
                if above(0, s, at + 2, 2, true) <= before.inputs + before.gates {
                    top
                } else {
                    ASKED
                }
            }
            _ => above(top, s, at + 2, 4, true),
        },
        Sort::Output => match file {
            File::Reference => above(top, s, at + 1, 1, false),
            _ => above(top, s, at + 1, 2, false),
        },
        Sort::Register | Sort::Element => ASKED,
        _ => top,
    }
}

// The search for 9, where a top is known: within reach there is nothing to ask.
fn first_nameless(
    file: File,
    n: usize,
    g: usize,
    notes: &[u16],
    s: &[u8],
    top: usize,
) -> Option<usize>
    requires { files.Countable n g × files.FilledTo file s.now (length s.now) × files.Settled file s.now n top }
    ensures { result ≡ reading.nameless_from (length s.now) file (files.nets_with n g notes.now) s.now 0 0 }
{
    if top <= reach(file, n, g) {
        return None;
    }
    find_nameless(file, n, g, notes, s)
}

// ---- the whole file

// The refusal of a command that cannot be read, as the file's. What is answered for a command that was read is not said.
fn refusal(next: Next) -> Result<Counts, Refusal>
    ensures { (number at : ℕ) → next ≡ Next.Refused number at → result ≡ Err (types.refusal number at) }
{
    match next {
        Next::Refused { number, at } => Err(Refusal { number, at }),
        Next::Command(_, after) => Err(Refusal {
            number: 0,
            at: after.at,
        }),
    }
}

// At the end command, whose place is given with the counts before it, the notes of the registers and C-elements, and a top: 8, 7, then 9.
fn finish(
    file: File,
    s: &[u8],
    at: usize,
    counts: Counts,
    notes: &[u16],
    top: usize,
) -> Result<Counts, Refusal>
    requires countable { files.Countable counts.inputs counts.gates × (at < length s.now) × files.FilledTo file s.now (at + 1) }
    requires settled { length s.now ≤ at + 1 → files.Settled file s.now counts.inputs top }
    ensures { (p : reading.Places) → reading.counts_of p ≡ counts → p.parts ≡ map files.part_noted notes.now
        → result ≡ read.outcome_of (reading.finish file s.now at p) }
{
    if counts.outputs == 0 {
        return Err(Refusal { number: 8, at });
    }
    let after = at + 1;
    if after < s.len() {
        return Err(Refusal {
            number: 7,
            at: after,
        });
    }
    if let Some(place) = first_nameless(file, counts.inputs, counts.gates, notes, s, top) {
        return Err(Refusal {
            number: 9,
            at: place,
        });
    }
    Ok(counts)
}

// Notes a command of a sort at a position, where some stand before it; the counts then.
fn note(sort: Sort, most: Limits, s: &[u8], at: usize, places: &mut [u16], before: Counts) -> Counts
    requires { files.Notable sort most s.now at before (length places.old) }
    ensures { files.NotedIn sort most s.now at places.old before places.new result }
{
    let mut after = before;
    match sort {
        Sort::Inputs => {
            after.inputs = s[at + 1] as usize;
        }
        Sort::Gate => {
            let g = before.gates;
            places[g] = at as u16;
            after.gates = g + 1;
        }
        Sort::Output => {
            let o = before.outputs;
            places[most.gates + o] = at as u16;
            after.outputs = o + 1;
        }
        Sort::Register => {
            let k = before.registers;
            places[most.gates + most.outputs + (k + before.elements)] = (2 * at) as u16;
            after.registers = k + 1;
        }
        Sort::Element => {
            let k = before.elements;
            places[most.gates + most.outputs + (before.registers + k)] = (2 * at + 1) as u16;
            after.elements = k + 1;
        }
        Sort::Care => {
            let k = before.care;
            let w = netlist::operand(s, at + 1);
            places[most.gates + most.outputs + 2 * netlist::PARTS + k] = w;
            after.care = k + 1;
            after.floor = w as usize + 1;
        }
        Sort::End | Sort::Unknown => {}
    }
    after
}

// No more than there are words of n inputs: all of them that are u16s.
fn words_of(n: usize) -> usize
    ensures { result ≤ 2 ^ n }
{
    if n < 16 { 1 << n } else { 0x10000 }
}

// Whether a care word stands at a position, whole, no lower than a floor and below some number.
fn word_at(s: &[u8], at: usize, floor: usize, below: usize) -> bool
    requires { at ≤ length s.now }
    ensures { result ≡ true → files.WordAt s.now at floor below }
{
    if s.len() - at < 3 {
        return false;
    }
    if s[at] != 0x06 {
        return false;
    }
    let w = netlist::operand(s, at + 1) as usize;
    if w < floor {
        return false;
    }
    w < below
}

// Reads a whole file, one command at a time, and care words that follow one another at once. The places of its gates go into the lent slice
// from index 0 on, those of its outputs from index most.gates on, the notes of its registers and C-elements behind room for the most outputs,
// and its care words behind room for the most of these.
pub fn read_file(file: File, most: Limits, s: &[u8], places: &mut [u16]) -> Result<Counts, Refusal>
    requires { files.RoomFor file most (length places.old) }
    ensures answered { result ≡ read.outcome_of (reading.read_file file most s.now) }
    ensures placed { files.Placed most (reading.read_file file most s.now) places.new }
{
    let first_part = most.gates + most.outputs;
    let mut at: usize = 0;
    let mut top: usize = 0;
    let mut counts = Counts {
        inputs: 0,
        gates: 0,
        outputs: 0,
        care: 0,
        floor: 0,
        registers: 0,
        elements: 0,
    };
    // A `while`: the position moves on by the width of the command that stands there, and past the care words that follow one.
    while at < s.len() {
        let next = take_next(file, most, s, Cursor { at }, counts);
        let Next::Command(sort, after) = next else {
            return refusal(next);
        };
        if let Sort::End = sort {
            let end = first_part + (counts.registers + counts.elements);
            return finish(file, s, at, counts, &places[first_part..end], top);
        }
        top = top_after(file, sort, s, at, counts, top);
        counts = note(sort, most, s, at, places, counts);
        at = after.at;
        if let Sort::Care = sort {
            let below = words_of(counts.inputs);
            while word_at(s, at, counts.floor, below) {
                counts = note(Sort::Care, most, s, at, places, counts);
                at += 3;
            }
        }
    }
    Err(Refusal {
        number: 1,
        at: s.len(),
    })
}
