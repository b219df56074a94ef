// Runs that calls hand out, and lists of switchings that a call judges: what they answer. The definitions and what is shown of them are in specs/ and
// proofs/, and nothing is run.
#![tactic(auto)]

use verdict::Verdict;

// Room for the longest run: each net of the largest stage rises once and falls once.
pub const RUN: usize = 2 * (2 * netlist::INPUTS + netlist::STAGE_GATES);

// The verdict; how many switchings the rise has, so that the fall begins at place `rise` of the list; and how many the rise and the fall have together.
// Laid out as C does: C functions of crate `fovaheju_c` answer one.
#[repr(C)]
#[derive(Clone, Copy)]
pub struct RunAnswer {
    pub verdict: Verdict,
    pub rise: u64,
    pub count: u64,
}

// The verdict, and how many steps of a list come before the first that the rules bar; all of them where they bar none. Laid out as C does.
#[repr(C)]
#[derive(Clone, Copy)]
pub struct PlayAnswer {
    pub verdict: Verdict,
    pub steps: u64,
}
