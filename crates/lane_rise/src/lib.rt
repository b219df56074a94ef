// Which gates rise in some word that a stage cares for, noted where a block of 64 words has settled, and the least gate that never does.
#![tactic(auto)]

ghost use Rattle.std.specs.Prelude.{◌≡◌, ◌+◌, ◌≤◌, length};
ghost use Rattle.netlist.specs.Content.{Stage};
ghost use Rattle.verdict.specs.Search.{least};
ghost use Rattle.verdict.specs.Checks.{never_rises};
ghost use Rattle.circuit.specs.Stage.{stage_in, StageLoaded};
ghost use Rattle.lane_rise.specs.Rising.{WordMasks, ListedIn, NotedIn, Noted};

use netlist::Counts;

// The care words of a stage as a mask for each block, each taken below 2 to the power of the inputs.
fn listed_words(code: &[u16], counts: Counts) -> [u64; lane_settle::BLOCKS]
    requires { StageLoaded counts code.now }
    ensures { ListedIn counts code.now counts.care result }
{
    let size: usize = 1 << counts.inputs;
    let mut masks = [0u64; lane_settle::BLOCKS];
    for k in 0..counts.care {
        let w = circuit::form::care_of(code, counts, k) % size;
        masks[w / 64] |= 1 << (w % 64);
    }
    masks
}

// The words of a stage as a mask for each block: its care words, or all where it has no care list.
pub fn word_masks(code: &[u16], counts: Counts) -> [u64; lane_settle::BLOCKS]
    requires { StageLoaded counts code.now }
    ensures { WordMasks (stage_in counts code.now) result }
{
    if counts.care == 0 {
        return [lane_cells::ALL; lane_settle::BLOCKS];
    }
    listed_words(code, counts)
}

// The gates that are high in the words of a mask are noted, by a row of a block that has settled.
pub fn note(row: &[u64], from: usize, count: usize, words: u64, rose: &mut [u64])
    requires { (from + count ≤ length row.now) × (count ≤ length rose.old) }
    ensures { NotedIn row.now from count words rose.old rose.new }
{
    for k in 0..count {
        rose[k] |= row[from + k] & words;
    }
}

// The least of so many gates that was never noted: it rises in no word of the stage.
pub fn never_risen(rose: &[u64], count: usize) -> Option<usize>
    requires { count ≤ length rose.now }
    ensures { (s : Stage) → length s.gates ≡ count → Noted s rose.now → result ≡ least (never_rises s) 0 count }
{
    for g in 0..count {
        if rose[g] == 0 {
            return Some(g);
        }
    }
    None
}
