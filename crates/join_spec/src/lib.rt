// Two stages in a row. The definitions and what is shown of them are in specs/ and proofs/, and nothing is run.
#![tactic(auto)]

use verdict::Verdict;

// The verdict of the join, and how many bytes it wrote into each of the two buffers. Laid out as C does: the C function of crate `fovaheju_c`
// answers one.
#[repr(C)]
#[derive(Clone, Copy)]
pub struct JoinAnswer {
    pub verdict: Verdict,
    pub stage_count: u64,
    pub reference_count: u64,
}
