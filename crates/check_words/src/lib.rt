// The sweeps of 13, 14 and 15, and of 20 and 21, over the words of a stage and a reference in their flat forms, and 32 after them.
#![tactic(auto)]

ghost use Rattle.std.specs.Prelude.{◌≡◌, true, ◌≤◌, ◌<◌, ℕ, map, length, get_or, Ok, Err};
ghost use Rattle.netlist.specs.Content.{Reference};
ghost use Rattle.verdict.specs.Words.{spelled, names};
ghost use Rattle.verdict.specs.Checks as checks;
ghost use Rattle.circuit.specs.Stage.{stage_in, StageLoaded};
ghost use Rattle.circuit.specs.Order.{InOrder};
ghost use Rattle.circuit.specs.Reference.{reference_in};
ghost use Rattle.check_word.specs.Loaded.{BothLoaded};
ghost use Rattle.check_word.specs.Finds.{finds};
ghost use Rattle.lane_screen.specs.Suspects.{Clean, AllClean};
ghost use Rattle.check_words.specs.Sweeps.{number_of, swept, sweep_at, mask_of, Enough, UnnamedFrom};
ghost use Rattle.std.specs.Option.{MatchOption};

use check_word::Sweep;
use lane_screen::Masks;
use netlist::Counts;
use verdict::{Verdict, WordOrder};

// The number of a check.
fn number_of(which: Sweep) -> u64
    ensures { result ≡ number_of which }
{
    match which {
        Sweep::Wrong => 13,
        Sweep::Missing => 14,
        Sweep::Unobserved => 15,
        Sweep::Remaining => 20,
        Sweep::StillHigh => 21,
    }
}

// Whether a block of a mask has one or two words: to look at these is then less work than to settle the block with each input.
fn has_few(words: u64) -> bool {
    words.count_ones() <= 2
}

// The first time that block b is asked for, its words in which 14 or 20 finds nothing are taken out of the mask, unless there are few.
fn narrow(
    which: Sweep,
    mask: &mut [u64],
    asked: &mut [bool],
    code: &[u16],
    counts: Counts,
    b: usize,
)
    requires { StageLoaded counts code.now × InOrder counts code.now }
    ensures long { (length mask.new ≡ length mask.old) × (length asked.new ≡ length asked.old) }
    ensures clean { (reference : Reference) → Clean which (stage_in counts code.now) reference mask.old
        → Clean which (stage_in counts code.now) reference mask.new }
{
    if b < mask.len() {
        if b < asked.len() {
            if asked[b] {
                return;
            }
            asked[b] = true;
            let old = mask[b];
            if has_few(old) {
                return;
            }
            let words = lane_complete::input_words(which, code, counts, b);
            mask[b] = old & words;
        }
    }
}

// What one of the checks finds in word w. A word that its mask does not name once its block is asked is passed over.
fn find_suspect(
    which: Sweep,
    mask: &mut [u64],
    asked: &mut [bool],
    code: &[u16],
    counts: Counts,
    reference: &[u16],
    sizes: Counts,
    w: usize,
) -> Option<usize>
    requires { BothLoaded counts code.now sizes reference.now
        × Clean which (stage_in counts code.now) (reference_in sizes reference.now) mask.old }
    ensures long { (length mask.new ≡ length mask.old) × (length asked.new ≡ length asked.old) }
    ensures clean { Clean which (stage_in counts code.now) (reference_in sizes reference.now) mask.new }
    ensures found { result ≡ finds which (stage_in counts code.now) (reference_in sizes reference.now) w }
{
    narrow(which, mask, asked, code, counts, w / 64);
    if lane_screen::is_named(mask, w) {
        return check_word::find(which, code, counts, reference, sizes, w);
    }
    None
}

// The first place of a list, from place `from` on, at which a mask names the word.
fn next_named(list: &[u16], mask: &[u64], from: usize) -> Option<usize>
    ensures { MatchOption result (UnnamedFrom mask.now list.now from (length list.now))
        (λ k. (from ≤ k) × (k < length list.now) × UnnamedFrom mask.now list.now from k) }
{
    for k in from..list.len() {
        if lane_screen::is_named(mask, list[k] as usize) {
            return Some(k);
        }
    }
    None
}

// What one of the checks finds in the words of a stage, which are listed by their names: the name of the first of them with a fault, and the least
// fault in it. The mask is narrowed on the way, block by block. After a word the next is the next that is named.
fn sweep_words(
    which: Sweep,
    order: WordOrder,
    list: &[u16],
    mask: [u64; lane_settle::BLOCKS],
    code: &[u16],
    counts: Counts,
    reference: &[u16],
    sizes: Counts,
) -> Result<(), Verdict>
    requires { BothLoaded counts code.now sizes reference.now
        × (list.now ≡ map (spelled order counts.inputs) (names order (stage_in counts code.now)))
        × Clean which (stage_in counts code.now) (reference_in sizes reference.now) mask }
    ensures { result ≡ swept which order (stage_in counts code.now) (reference_in sizes reference.now) }
{
    let number = number_of(which);
    let mut left = mask;
    let mut asked = [false; lane_settle::BLOCKS];
    let mut from: usize = 0;
    // A `while`: the mask is narrowed on the way, and the next place is the next that what is left of it names.
    while let Some(k) = next_named(list, &left, from) {
        let w = list[k] as usize;
        if let Some(i) = find_suspect(
            which, &mut left, &mut asked, code, counts, reference, sizes, w,
        ) {
            let name = words::word_of(order, counts.inputs, w);
            return Err(Verdict {
                number,
                file: 1,
                at: i as u64,
                word: name as u64,
            });
        }
        from = k + 1;
    }
    Ok(())
}

// The same, where no word is looked at if none is named.
fn sweep_check(
    which: Sweep,
    order: WordOrder,
    list: &[u16],
    mask: [u64; lane_settle::BLOCKS],
    code: &[u16],
    counts: Counts,
    reference: &[u16],
    sizes: Counts,
) -> Result<(), Verdict>
    requires { BothLoaded counts code.now sizes reference.now
        × (list.now ≡ map (spelled order counts.inputs) (names order (stage_in counts code.now)))
        × Clean which (stage_in counts code.now) (reference_in sizes reference.now) mask }
    ensures { result ≡ swept which order (stage_in counts code.now) (reference_in sizes reference.now) }
{
    if lane_screen::none_named(&mask, code, counts) {
        return Ok(());
    }
    sweep_words(which, order, list, mask, code, counts, reference, sizes)
}

// The checks in the order in which they sweep the words, those of the rise first. A match like the definition's (`sweep_at`), and no array: it is
// asked place by place, and `number_of` and `mask_of` are asked check by check.
fn sweep_at(i: usize) -> Sweep
    requires { i < 5 }
    ensures { result ≡ sweep_at i }
{
    match i {
        0 => Sweep::Wrong,
        1 => Sweep::Missing,
        2 => Sweep::Unobserved,
        3 => Sweep::Remaining,
        _ => Sweep::StillHigh,
    }
}

// The mask of a check.
fn mask_of(which: Sweep, masks: Masks) -> [u64; lane_settle::BLOCKS]
    ensures value { result ≡ mask_of which masks }
    ensures long { length result ≡ 16 }
{
    let wrong = masks.wrong;
    let rise = masks.rise;
    let fall = masks.fall;
    match which {
        Sweep::Wrong => wrong,
        Sweep::Missing => rise,
        Sweep::Unobserved => rise,
        Sweep::Remaining => fall,
        Sweep::StillHigh => fall,
    }
}

// How many of the checks are made: where every gate has hold, a stage whose rise passes is not refused for its fall.
fn sweep_count(code: &[u16], counts: Counts) -> usize
    requires { StageLoaded counts code.now }
    ensures { Enough (stage_in counts code.now) result }
{
    if lane_screen::all_hold(code, counts) {
        return 3;
    }
    5
}

// The checks one after the other, up to the first that finds something.
fn sweep_named(
    order: WordOrder,
    list: &[u16],
    masks: Masks,
    code: &[u16],
    counts: Counts,
    reference: &[u16],
    sizes: Counts,
) -> Result<(), Verdict>
    requires { BothLoaded counts code.now sizes reference.now
        × (list.now ≡ map (spelled order counts.inputs) (names order (stage_in counts code.now)))
        × AllClean (stage_in counts code.now) (reference_in sizes reference.now) masks }
    ensures { result ≡ checks.first_fault (checks.sweeps order (stage_in counts code.now) (reference_in sizes reference.now)) }
{
    let count = sweep_count(code, counts);
    for i in 0..count {
        let which = sweep_at(i);
        let mask = mask_of(which, masks);
        sweep_check(which, order, list, mask, code, counts, reference, sizes)?;
    }
    Ok(())
}

// Whether the masks name no word in which a check may find something: where every gate has hold those of the fall are not asked for.
fn nothing_named(masks: Masks, code: &[u16], counts: Counts) -> bool
    requires { StageLoaded counts code.now × InOrder counts code.now }
    ensures { result ≡ true → (order : WordOrder) (reference : Reference) → counts.outputs ≤ length reference.outputs
        → AllClean (stage_in counts code.now) reference masks
        → Ok tt ≡ checks.first_fault (checks.sweeps order (stage_in counts code.now) reference) }
{
    let wrong = masks.wrong;
    if lane_screen::none_named(&wrong, code, counts) {
        let rise = masks.rise;
        if lane_screen::none_named(&rise, code, counts) {
            if lane_screen::all_hold(code, counts) {
                return true;
            }
            let fall = masks.fall;
            if lane_screen::none_named(&fall, code, counts) {
                return true;
            }
        }
    }
    false
}

// 32 at the least gate that never rises, if there is one.
fn find_idle(low: Option<usize>) -> Result<(), Verdict>
    ensures { result ≡ checks.at_fault 32 1 0 low (Ok tt) }
{
    match low {
        Some(g) => Err(Verdict::fault(32, 1, g)),
        None => Ok(()),
    }
}

// All checks that settle a stage in its words: the words that are suspect are found first, 64 at a time, and on the way the least gate that never
// rises. Where there are such words all words are listed once by their names, and swept in that order. 32 comes last.
pub fn sweep_all(
    order: WordOrder,
    code: &[u16],
    counts: Counts,
    reference: &[u16],
    sizes: Counts,
) -> Result<(), Verdict>
    requires { BothLoaded counts code.now sizes reference.now }
    ensures { result ≡ checks.first_fault (checks.word_checks order (stage_in counts code.now) (reference_in sizes reference.now)) }
{
    let screened = lane_screen::screen(code, counts, reference, sizes);
    let masks = screened.masks;
    let low = screened.low;
    let last = find_idle(low);
    if nothing_named(masks, code, counts) {
        return last;
    }
    let mut list = [0u16; words::NAMES];
    let count = words::list_words(order, code, counts, &mut list);
    sweep_named(order, &list[..count], masks, code, counts, reference, sizes)?;
    last
}
