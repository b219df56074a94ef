// Placing the C-elements in an order in which each comes after those at its pins.
#![tactic(auto)]

ghost use Rattle.std.specs.Prelude.{◌≡◌, ◌&&◌, not, ◌+◌, ◌*◌, ◌≤◌, ◌<◌, length};
ghost use Rattle.verdict.specs.Lists.{some};
ghost use Rattle.circuit_place.specs.Placing.{waiting, four, Placing, Stuck, Passed};

// Whether a net is a C-element without a place.
#[tactic(auto, unfolding(crate::specs::Placing::waiting))]
pub fn waits(code: &[u16], first: usize, count: usize, net: usize) -> bool
    requires { length code.now ≡ 8 * count }
    ensures { result ≡ waiting code.now first count net }
{
    if net < first || count <= net - first {
        return false;
    }
    let i = net - first;
    code[8 * i] == 3 && code[8 * i + 5] == 0
}

// Whether one of the four nets from `at` on is a C-element without a place. Four calls and no `any`: of that the proof did not close, since `some` is a
// word of this repository, and is no plainer for four.
#[tactic(auto, unfolding(verdict::specs::Lists::some))]
fn pin_waits(code: &[u16], first: usize, count: usize, at: usize) -> bool
    requires { (length code.now ≡ 8 * count) × (at + 4 ≤ length code.now) }
    ensures { result ≡ some (waiting code.now first count) (four code.now at) }
{
    waits(code, first, count, code[at] as usize)
        || waits(code, first, count, code[at + 1] as usize)
        || waits(code, first, count, code[at + 2] as usize)
        || waits(code, first, count, code[at + 3] as usize)
}

// Whether net i after the gates is to be placed: a C-element without a place, none such at a pin of it.
fn is_ready(code: &[u16], first: usize, count: usize, i: usize) -> bool
    requires { (length code.now ≡ 8 * count) × (i < count) × (first + count < 65536) }
    ensures { result ≡ (waiting code.now first count (first + i)
        && not (some (waiting code.now first count) (four code.now (8 * i + 1)))) }
{
    waits(code, first, count, first + i) && !pin_waits(code, first, count, 8 * i + 1)
}

// A pass: each C-element that is ready takes the next place. How many have one then.
fn place_ready(code: &mut [u16], first: usize, count: usize, taken: usize) -> usize
    requires { (first + count < 65536) × Placing code.old code.old first count taken }
    ensures { Passed code.old code.new first count taken result }
{
    let mut placed = taken;
    for i in 0..count {
        if is_ready(code, first, count, i) {
            placed += 1;
            code[8 * i + 5] = placed as u16;
        }
    }
    placed
}

// Passes, until one places none. How many C-elements have a place then; every other one has such a one at a pin.
pub fn place_elements(code: &mut [u16], first: usize, count: usize) -> usize
    requires { (first + count < 65536) × Placing code.old code.old first count 0 }
    ensures { Passed code.old code.new first count result result }
{
    let mut placed: usize = 0;
    // A `loop`: it counts no index, and ends at the first pass that places none.
    loop {
        let more = place_ready(code, first, count, placed);
        if more == placed {
            return placed;
        }
        placed = more;
    }
}
