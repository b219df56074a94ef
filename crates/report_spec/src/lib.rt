// The switching report of two files: how many gates are high at rest, word by word, and in all words together; and what its total counts. The
// definitions and what is shown of them are in specs/ and proofs/, and nothing is run.
#![tactic(auto)]

use verdict::Verdict;

// A line for each word of the most inputs.
pub const LINES: usize = 1 << netlist::INPUTS;

// The verdict on the two files; and of an accepted stage how many words it has, how many gates are high at the rest of each, in the order
// of their names, how many that makes, and the names of these words. What stands behind the last word is 0, and so is all of it where the pair is
// refused. Laid out as C does: the C function of crate `fovaheju_c` answers one.
#[repr(C)]
#[derive(Clone, Copy)]
pub struct Report {
    pub verdict: Verdict,
    pub words: u64,
    pub total: u64,
    pub lines: [u16; LINES],
    pub names: [u16; LINES],
}
