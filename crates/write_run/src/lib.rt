// A run in the list that a caller lends.
#![tactic(auto)]

ghost use Rattle.std.specs.Prelude.{◌≡◌};
ghost use Rattle.run_spec.specs.Played.{handed_out};

// How many switchings a rise has, and a rise and a fall together.
#[derive(Clone, Copy)]
pub struct Lengths {
    pub rise: usize,
    pub count: usize,
}

// A run is written at the start of a list that has room for it; a list too short is left as it was.
#[tactic(auto, unfolding(run_spec::specs::Played::handed_out))]
pub fn hand_out(run: &[u16], list: &mut [u16])
    ensures { list.new ≡ handed_out run.now list.old }
{
    if list.len() < run.len() {
        return;
    }
    list[..run.len()].copy_from_slice(run);
}
