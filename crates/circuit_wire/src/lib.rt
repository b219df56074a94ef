// Registers as wires: the stage of a pipeline as the file has it becomes the wired one, in which each pin and each rail has the net that its own comes
// from.
#![tactic(auto)]

ghost use Rattle.std.specs.Prelude.{◌≡◌, ◌+◌, ◌*◌, ◌/◌, ◌≤◌, length};
ghost use Rattle.netlist.specs.Reading.{stage_limits, Within};
ghost use Rattle.wiring_spec.specs.Wires.{times};
ghost use Rattle.circuit_wire.specs.Wire.{wire_in, ResolvedTo, wired_net, names_net, wired_number, WiredTo, bare, CopiedTo};

use netlist::Counts;

// ---- along wires

// The net that a rail of a register comes from; any other net is its own.
fn wire(nets: &[u16], first: usize, net: u16) -> u16
    ensures { result ≡ wire_in nets.now first net }
{
    let x = net as usize;
    if x < first {
        return net;
    }
    let i = x - first;
    if nets.len() / 8 <= i {
        return net;
    }
    if nets[8 * i] == 1 {
        return nets[8 * i + 1];
    }
    net
}

// A net, followed through some registers, as long as it comes from another net.
fn resolve(nets: &[u16], first: usize, registers: usize, net: u16) -> u16
    ensures { result ≡ times registers (wire_in nets.now first) net }
{
    let mut x = net;
    for _step in 0..registers {
        let next = wire(nets, first, x);
        if next == x {
            return x;
        }
        x = next;
    }
    x
}

// Each net after the gates gets the net that it comes from through all registers.
pub fn resolve_rails(nets: &mut [u16], first: usize, registers: usize)
    requires { first + length nets.old / 8 ≤ 65536 }
    ensures { ResolvedTo nets.old nets.new first registers (length nets.old / 8) }
{
    for i in 0..nets.len() / 8 {
        nets[8 * i + 7] = resolve(nets, first, registers, (first + i) as u16);
    }
}

// ---- the wired stage

// What a pin or a rail names in the wired stage.
fn wired_net(nets: &[u16], first: u16, net: u16) -> u16
    ensures { result ≡ wired_net nets.now first net }
{
    if net < first {
        return net;
    }
    let i = (net - first) as usize;
    if nets.len() / 8 <= i {
        return first;
    }
    nets[8 * i + 7]
}

// Whether number i of the code of a stage names a net, where its gates have so many numbers.
fn names_net(gates: usize, i: usize) -> bool
    ensures { result ≡ names_net gates i }
{
    if i < gates {
        let j = i % 8;
        if j == 0 {
            return false;
        }
        return j <= 4;
    }
    true
}

// Number i of the code of the wired stage, where it was v in the file's.
fn wired_number(nets: &[u16], counts: Counts, i: usize, v: u16) -> u16
    requires { Within stage_limits counts }
    ensures { result ≡ wired_number nets.now counts i v }
{
    if names_net(8 * counts.gates, i) {
        return wired_net(nets, (2 * counts.inputs + counts.gates) as u16, v);
    }
    v
}

// The wired stage, number by number. With no row of a net after the gates, those nets become the ground.
pub fn wire_stage(nets: &[u16], counts: Counts, raw: &[u16], code: &mut [u16])
    requires { Within stage_limits counts × (8 * counts.gates + 2 * counts.outputs ≤ length raw.now)
        × (8 * counts.gates + 2 * counts.outputs ≤ length code.old) }
    ensures { WiredTo nets.now counts raw.now code.old code.new (8 * counts.gates + 2 * counts.outputs) }
{
    for i in 0..8 * counts.gates + 2 * counts.outputs {
        code[i] = wired_number(nets, counts, i, raw[i]);
    }
}

// The gates of a stage by themselves.
pub fn bare_counts(counts: Counts) -> Counts
    ensures { result ≡ bare counts }
{
    Counts {
        inputs: counts.inputs,
        gates: counts.gates,
        outputs: 0,
        care: 0,
        floor: 0,
        registers: 0,
        elements: 0,
    }
}

// The first numbers of one code become those of another.
pub fn copy(from: &[u16], to: &mut [u16], end: usize)
    requires { (end ≤ length from.now) × (end ≤ length to.old) }
    ensures { CopiedTo from.now to.old to.new end }
{
    to[..end].copy_from_slice(&from[..end]);
}
