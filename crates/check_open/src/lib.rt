// Opening the C-elements behind a Ki: which registers' Ko stand there, and whether a net that carries data does. Each C-element is opened once.
#![tactic(auto)]

ghost use Rattle.std.specs.Prelude.{◌≡◌, cond, ◌||◌, ℕ, ◌+◌, ◌*◌, ◌%◌, ◌≤◌, ◌<◌, length, get_or, set, ltb};
ghost use Rattle.std.specs.Int.Bits.{bit_or};
ghost use Rattle.wiring_spec.specs.Tables.{slot};
ghost use Rattle.circuit_place.specs.Placing.{place};
ghost use Rattle.check_open.specs.Opening.{Own, Table, Opened};

// What stands behind a net: the registers whose Ko is there, bit t for register t, and whether a net that carries data is.
#[derive(Clone, Copy)]
pub struct Behind {
    pub kos: u64,
    pub other: bool,
}

// The place of a net's C-element in the order, 0 for a net of another sort: a number, as the table of the nets holds it and the definition `place` says.
fn place_of(nets: &[u16], first: usize, x: usize) -> u16
    requires { length nets.now % 8 ≡ 0 }
    ensures { result ≡ place nets.now first x }
{
    if x < first {
        return 0;
    }
    let i = x - first;
    if nets.len() / 8 <= i {
        return 0;
    }
    nets[8 * i + 5]
}

// What a net is by itself.
fn own(nets: &[u16], first: usize, x: usize) -> Behind
    requires { (length nets.now % 8 ≡ 0) × ((i : ℕ) → slot nets.now i 0 ≡ 2 → slot nets.now i 6 < 64) }
    ensures { Own nets.now first x result }
{
    if x < first {
        return Behind {
            kos: 0,
            other: true,
        };
    }
    let i = x - first;
    if nets.len() / 8 <= i {
        return Behind {
            kos: 0,
            other: false,
        };
    }
    if nets[8 * i] == 2 {
        return Behind {
            kos: 1 << nets[8 * i + 6],
            other: false,
        };
    }
    Behind {
        kos: 0,
        other: nets[8 * i] == 1,
    }
}

// What stands behind either of two nets.
fn joined(a: Behind, b: Behind) -> Behind
    ensures { (result.kos ≡ bit_or a.kos b.kos) × (result.other ≡ (a.other || b.other)) }
{
    if a.other {
        return Behind {
            kos: a.kos | b.kos,
            other: true,
        };
    }
    Behind {
        kos: a.kos | b.kos,
        other: b.other,
    }
}

// The number at pin j of the C-element of a row.
fn pin_at(nets: &[u16], i: usize, j: usize) -> u16
    requires { (8 * i + 8 ≤ length nets.now) × (j < 4) }
    ensures { result ≡ slot nets.now i (1 + j) }
{
    nets[8 * i + (1 + j)]
}

// A C-element behind a Ki is opened, and those at its pins again, until only other nets remain. What was found of one, in `met`, is not looked for again. A
// number past the nets names none.
pub fn open_net(nets: &[u16], first: usize, net: u16, met: &mut [Option<Behind>]) -> Behind
    requires { Table nets.now first met.old }
    ensures { Opened nets.now first net result (length met.old) met.new }
{
    let x = net as usize;
    if place_of(nets, first, x) == 0 {
        return own(nets, first, x);
    }
    let i = x - first;
    if let Some(all) = met[i] {
        return all;
    }
    let mut all = Behind {
        kos: 0,
        other: false,
    };
    for j in (0..4).rev() {
        let pin = open_net(nets, first, pin_at(nets, i, j), met);
        all = joined(pin, all);
    }
    met[i] = Some(all);
    all
}
