// How many gates are high at the rest of each word, 64 words at a time: a counter for each word of a block, all of them side by side.
#![tactic(auto)]

ghost use Rattle.std.specs.Prelude.{◌≡◌, ℕ, ◌+◌, ◌*◌, ◌^◌, ◌≤◌, ◌<◌, length, get_or, take, drop};
ghost use Rattle.netlist.specs.Reading.{stage_limits};
ghost use Rattle.verdict.specs.Levels.{sum};
ghost use Rattle.circuit.specs.Stage.{stage_in, StageLoaded};
ghost use Rattle.circuit.specs.Order.{InOrder};
ghost use Rattle.lane_cells.specs.Lane.{level_in, lane_of};
ghost use Rattle.report_spec.specs.High.{HighIn};
ghost use Rattle.lane_count.specs.Counters.{Sums, counted, counted_beside, digit_count};

use netlist::Counts;

// As many digits as the most gates take.
const DIGITS: usize = 9;

// Two digits of a sum in each word.
#[derive(Clone, Copy)]
struct Sum {
    low: u64,
    high: u64,
}

// The sum of three levels.
fn sum_of(a: u64, b: u64, c: u64) -> Sum
    ensures { Sums result a b c }
{
    let half = a ^ b;
    Sum {
        low: half ^ c,
        high: (a & b) ^ (half & c),
    }
}

// The same of a level and two nets of a row.
fn sum_pair(level: u64, row: &[u64], at: usize) -> Sum
    requires { at + 2 ≤ length row.now }
    ensures { Sums result level (get_or row.now at 0) (get_or row.now (at + 1) 0) }
{
    sum_of(level, row[at], row[at + 1])
}

// A level is added to the digit at place `from` of each counter, and what it carries to those above.
fn add(digits: &mut [u64], from: usize, level: u64)
    requires { (j : ℕ) → counted j digits.old + 2 ^ from * level_in j level < 2 ^ length digits.old }
    ensures { (length digits.new ≡ length digits.old)
        × ((j : ℕ) → counted j digits.new ≡ counted j digits.old + 2 ^ from * level_in j level) }
{
    let mut carry = level;
    for i in from..digits.len() {
        let digit = digits[i];
        digits[i] = digit ^ carry;
        carry = digit & carry;
    }
}

// Each counter goes up by the levels of eight nets of a row: what they carry out of the three lowest digits is one level again.
fn add_eight(digits: &mut [u64], row: &[u64], at: usize)
    requires { (3 ≤ length digits.old) × (at + 8 ≤ length row.now) × ((j : ℕ) → counted j digits.old + 8 < 2 ^ length digits.old) }
    ensures { (length digits.new ≡ length digits.old)
        × ((j : ℕ) → counted j digits.new ≡ counted j digits.old + sum (take 8 (drop at (lane_of j row.now)))) }
{
    let ab = sum_pair(digits[0], row, at);
    let cd = sum_pair(ab.low, row, at + 2);
    let ef = sum_pair(cd.low, row, at + 4);
    let gh = sum_pair(ef.low, row, at + 6);
    let abcd = sum_of(digits[1], ab.high, cd.high);
    let efgh = sum_of(abcd.low, ef.high, gh.high);
    let all = sum_of(digits[2], abcd.high, efgh.high);
    digits[0] = gh.low;
    digits[1] = efgh.low;
    digits[2] = all.low;
    add(digits, 3, all.high);
}

// How many of so many nets, from a place of a row on, are high in each word.
fn count_high(row: &[u64], from: usize, count: usize) -> [u64; DIGITS]
    requires { (from + count ≤ length row.now) × (count < 2 ^ digit_count) }
    ensures { (length result ≡ digit_count) × ((j : ℕ) → counted j result ≡ sum (take count (drop from (lane_of j row.now)))) }
{
    let mut digits = [0u64; DIGITS];
    let eights = count / 8;
    for i in 0..eights {
        add_eight(&mut digits, row, from + 8 * i);
    }
    for i in 8 * eights..count {
        add(&mut digits, 0, row[from + i]);
    }
    digits
}

// What the counters of the words j, 16 + j, 32 + j and 48 + j say, side by side.
fn counters(digits: &[u64], j: usize) -> u64
    requires { (length digits.now ≤ 16) × (j < 16) }
    ensures { result ≡ counted_beside j digits.now }
{
    let mut high: u64 = 0;
    for i in (0..digits.len()).rev() {
        high = 2 * high + (digits[i] >> j & 0x0001_0001_0001_0001);
    }
    high
}

// The counters of block b are written for its words, behind those of the blocks before it.
fn write_counters(digits: &[u64], b: usize, high: &mut [u16])
    requires { (length digits.now ≤ 16) × (64 * b + 64 ≤ length high.old) }
    ensures long { length high.new ≡ length high.old }
    ensures written { (j : ℕ) → j < 64 → get_or high.new (64 * b + j) 0 ≡ counted j digits.now }
    ensures before { (w : ℕ) → w < 64 * b → get_or high.new w 0 ≡ get_or high.old w 0 }
{
    let first = 64 * b;
    for j in 0..16 {
        let four = counters(digits, j);
        high[first + j] = (four % 65536) as u16;
        high[first + 16 + j] = (four / 65536 % 65536) as u16;
        high[first + 32 + j] = (four / 4294967296 % 65536) as u16;
        high[first + 48 + j] = (four / 281474976710656) as u16;
    }
}

// How many gates are high at the rest of each word that the inputs have.
pub fn count_words(code: &[u16], counts: Counts, high: &mut [u16])
    requires { StageLoaded counts code.now × InOrder counts code.now × (2 ^ stage_limits.inputs ≤ length high.old) }
    ensures long { length high.new ≡ length high.old }
    ensures high { HighIn (stage_in counts code.now) high.new }
{
    let mut row = [0u64; circuit::ROW];
    let count = lane_settle::block_count(counts.inputs);
    for b in 0..count {
        lane_complete::settle_block(code, counts, b, &mut row);
        let digits = count_high(&row, 2 * counts.inputs, counts.gates);
        write_counters(&digits, b, high);
    }
}
