// The input words of a stage. By name: the word that a name spells in either order, and the names of all words, the least first. On the
// rails: the bits of a word, the rails that spell it, and the row that is settled in it.
#![tactic(auto)]

ghost use Rattle.std.specs.Prelude.{◌≡◌, cond, ◌++◌, map, ◌^◌, ◌≤◌, ◌<◌, length, drop};
ghost use Rattle.netlist.specs.Reading.{stage_limits};
ghost use Rattle.verdict.specs.declared.WordOrder.TheVariants.{FirstHighest};
ghost use Rattle.verdict.specs.Words.{words, spelled, is_in, names, bits_of, rails_of, rails_in};
ghost use Rattle.verdict.specs.Rows.{settled};
ghost use Rattle.circuit.specs.Stage.{stage_care, stage_in, StageLoaded, stage_gates};
ghost use Rattle.circuit.specs.Order.{InOrder};
ghost use Rattle.circuit.specs.Rows.{RowFor, nets_in, rail_part};
ghost use Rattle.words.specs.Listed.{Listed, NoneMarked, Marked};

use netlist::Counts;
use verdict::WordOrder;

// ---- by name

// A name for each word of the most inputs.
pub const NAMES: usize = 1 << netlist::INPUTS;

// Each number of five bits, with its bits in turned order. `reverse_bits` of the library goes bit by bit, which was most of a sweep.
const TURNED_FIVE: [u8; 32] = [
    0, 16, 8, 24, 4, 20, 12, 28, 2, 18, 10, 26, 6, 22, 14, 30, 1, 17, 9, 25, 5, 21, 13, 29, 3, 19,
    11, 27, 7, 23, 15, 31,
];

// Five bits in turned order.
fn turned_five(bits: usize) -> usize
    requires { bits < 32 }
    ensures { result ≡ spelled FirstHighest 5 bits }
{
    TURNED_FIVE[bits] as usize
}

// The word that a name spells where input 0 is the highest bit of as many as there are inputs: the bits in turned order. Those of the most inputs
// are turned, five at a time, and as many of them as are inputs are the highest.
fn turned(inputs: usize, name: usize) -> usize
    requires { inputs ≤ stage_limits.inputs }
    ensures { result ≡ spelled FirstHighest inputs name }
{
    let first = turned_five(name % 32);
    let last = turned_five(name / 32 % 32);
    (last + 32 * first) >> (netlist::INPUTS - inputs)
}

// The word that a name spells, with words named in an order.
pub fn word_of(order: WordOrder, inputs: usize, name: usize) -> usize
    requires { inputs ≤ stage_limits.inputs }
    ensures { result ≡ spelled order inputs name }
{
    match order {
        WordOrder::FirstHighest => turned(inputs, name),
        WordOrder::FirstLowest => name,
    }
}

// Marks the care words of a stage, a byte for each word. A list that is empty marks none.
pub fn mark_care(code: &[u16], counts: Counts, marks: &mut [u8])
    requires { StageLoaded counts code.now × NoneMarked marks.old }
    ensures { Marked (stage_care counts code.now) marks.new × (length marks.new ≡ length marks.old) }
{
    for k in 0..counts.care {
        let w = circuit::form::care_of(code, counts, k);
        if w < marks.len() {
            marks[w] = 1;
        }
    }
}

// Whether w is a word of a stage whose care words are marked: one of these, or without a list one that its inputs have.
pub fn is_marked(code: &[u16], counts: Counts, marks: &[u8], w: usize) -> bool
    requires { StageLoaded counts code.now × Marked (stage_care counts code.now) marks.now × (w < length marks.now) }
    ensures { result ≡ is_in w (words (stage_in counts code.now)) }
{
    if counts.care == 0 {
        return w < 1 << counts.inputs;
    }
    0 < marks[w]
}

// Lists the names of a stage's words from the start of `list`, the least first, and answers how many they are.
pub fn list_names(order: WordOrder, code: &[u16], counts: Counts, list: &mut [u16]) -> usize
    requires { StageLoaded counts code.now × (2 ^ stage_limits.inputs ≤ length list.old) }
    ensures { Listed (names order (stage_in counts code.now)) list.old result list.new }
{
    let inputs = counts.inputs;
    let mut marks = [0u8; NAMES];
    mark_care(code, counts, &mut marks);
    let all: usize = 1 << inputs;
    let mut count: usize = 0;
    for name in 0..all {
        let w = word_of(order, inputs, name);
        if is_marked(code, counts, &marks, w) {
            list[count] = name as u16;
            count += 1;
        }
    }
    count
}

// Lists the words that these names spell.
pub fn list_words(order: WordOrder, code: &[u16], counts: Counts, list: &mut [u16]) -> usize
    requires { StageLoaded counts code.now × (2 ^ stage_limits.inputs ≤ length list.old) }
    ensures { Listed (map (spelled order counts.inputs) (names order (stage_in counts code.now))) list.old result
        list.new }
{
    let count = list_names(order, code, counts, list);
    for i in 0..count {
        let name = list[i];
        list[i] = word_of(order, counts.inputs, name as usize) as u16;
    }
    count
}

// ---- on the rails

// The bits of word w: input i has bit i.
pub fn word_bits(w: usize, bits: &mut [u8])
    ensures { bits.new ≡ bits_of (length bits.old) w }
{
    let mut rest = w;
    for bit in bits.iter_mut() {
        *bit = (rest % 2) as u8;
        rest /= 2;
    }
}

// The rails that spell word w: rail 0 of an input is high for 0, rail 1 for 1.
pub fn spell_word(counts: Counts, w: usize, row: &mut [u8])
    requires { RowFor counts row.old }
    ensures rails { rail_part counts row.new ≡ rails_of (bits_of counts.inputs w) }
    ensures row { RowFor counts row.new }
{
    let mut rest = w;
    for i in 0..counts.inputs {
        let b = (rest % 2) as u8;
        row[2 * i] = 1 - b;
        row[2 * i + 1] = b;
        rest /= 2;
    }
}

// The stage settles in word w.
pub fn settle_word(code: &[u16], counts: Counts, w: usize, row: &mut [u8])
    requires { StageLoaded counts code.now × InOrder counts code.now × RowFor counts row.old }
    ensures settled { nets_in counts row.new ≡ settled (stage_gates counts code.now) (rails_in (stage_in counts
        code.now) w) }
    ensures row { RowFor counts row.new }
{
    spell_word(counts, w, row);
    circuit::settle(code, counts, row);
}
