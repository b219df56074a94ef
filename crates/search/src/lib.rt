// The search that many checks make: the least of some numbers that passes a test.
#![tactic(auto)]

ghost use Rattle.std.specs.Prelude.{◌≡◌, ℕ, Bool, ◌<◌};
ghost use Rattle.verdict.specs.Search.{least};

// The least number below `end` that passes a test, or that there is none. Where each call of the test answers what `p` says, it is the least of `p`.
pub fn least<F: Fn(usize) -> bool>(end: usize, test: F) -> Option<usize>
    requires { (j : ℕ) → j < end → F.pre test j }
    ensures { (p : ℕ → Bool) → ((j : ℕ) (r : Bool) → j < end → F.post test j r → r ≡ p j) → result ≡ least p 0 end }
{
    for j in 0..end {
        if test(j) {
            return Some(j);
        }
    }
    None
}
