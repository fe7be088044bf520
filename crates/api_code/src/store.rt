// Counts stored for a caller.
ghost use Rattle.std.specs.Prelude.{◌≡◌, [], ◌∷◌};
ghost use Rattle.std.proofs.lemmas.List.Edits.{sets};

use base_buffer::put;

// Two counts, at the beginning of a buffer.
pub fn store_two(counts: &mut [u64], one: u64, two: u64)
    ensures { counts.new ≡ sets counts.old 0 (one ∷ two ∷ []) }
{
    put(counts, 0, one);
    put(counts, 1, two);
}

// k, cost and bound.
pub fn store_three(counts: &mut [u64], terminals: u64, cost: u64, bound: u64)
    ensures { counts.new ≡ sets counts.old 0 (terminals ∷ cost ∷ bound ∷ []) }
{
    put(counts, 0, terminals);
    put(counts, 1, cost);
    put(counts, 2, bound);
}

// The same with rounds and the number of moats behind them.
pub fn store_five(
    counts: &mut [u64],
    terminals: u64,
    cost: u64,
    bound: u64,
    rounds: u64,
    duals: u64,
)
    ensures { counts.new ≡ sets counts.old 0 (terminals ∷ cost ∷ bound ∷ rounds ∷ duals ∷ []) }
{
    store_three(counts, terminals, cost, bound);
    put(counts, 3, rounds);
    put(counts, 4, duals);
}
