// The verdict's type, and how words are named. What they mean is said in specs/.
#![tactic(auto)]

ghost use Rattle.std.specs.Prelude.{◌≡◌};
ghost use Rattle.verdict.specs.FourNumbers.{verdict, accepted};

use netlist::Refusal;

// The four numbers of a verdict, laid out as C does: the C functions of crate `fovaheju_c` answer one. `word` is the name of a word under 13 to 15,
// 20, 21 and 23, a count under 10, 11 and 22, and else 0.
#[repr(C)]
#[derive(Clone, Copy)]
pub struct Verdict {
    pub number: u64,
    pub file: u64,
    pub at: u64,
    pub word: u64,
}

impl Verdict {
    // Nothing is found.
    pub fn accepted() -> Verdict
        ensures { result ≡ accepted }
    {
        Verdict {
            number: 0,
            file: 0,
            at: 0,
            word: 0,
        }
    }

    // A fault at a place of a file; it names no word.
    pub fn fault(number: u64, file: u64, at: usize) -> Verdict
        ensures { result ≡ verdict number file at 0 }
    {
        Verdict {
            number,
            file,
            at: at as u64,
            word: 0,
        }
    }

    // A file that cannot be read.
    pub fn unreadable(file: u64, refusal: Refusal) -> Verdict
        ensures { result ≡ verdict refusal.number file refusal.at 0 }
    {
        Verdict::fault(refusal.number as u64, file, refusal.at)
    }
}

// How a word is named. By default input 0, the first, is the highest bit of as many as there are inputs: of two inputs, 2 is the word in which
// input 0 alone is 1. In the old order, which is that of the files, input 0 is the lowest bit.
#[derive(Clone, Copy)]
pub enum WordOrder {
    FirstHighest,
    FirstLowest,
}

// The verdict of a call that writes one file, and how many bytes it wrote. Laid out as C does, for C functions that answer one.
#[repr(C)]
#[derive(Clone, Copy)]
pub struct Answer {
    pub verdict: Verdict,
    pub count: u64,
}
