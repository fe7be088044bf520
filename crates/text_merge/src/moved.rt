// Places that count from the first byte of the whole.
ghost use Rattle.std.specs.Prelude.{◌≡◌};
ghost use Rattle.text_merge.specs.Output.{reached, moved_place};

// The sum of two offsets, as far as it goes.
#[tactic(auto, unfolding(crate::specs::Output::reached))]
pub fn reach(at: usize, next: usize) -> usize
    ensures { result ≡ reached at next }
{
    at.saturating_add(next)
}

// The place of a refusal of what begins at an offset: 16's moves, the others' stay.
#[tactic(auto, unfolding(crate::specs::Output::moved_place))]
pub fn moved_place(number: u64, place: usize, at: usize) -> usize
    ensures { result ≡ moved_place number place at }
{
    if number == 16 {
        return reach(at, place);
    }
    place
}
