// A row of the result: what is answered for one track, as four numbers.
ghost use Rattle.std.specs.Prelude.{◌≡◌, ◌<◌, ◌^◌, [], ◌∷◌};
ghost use Rattle.std.proofs.lemmas.List.Edits.{sets};
ghost use Rattle.closed_rule.specs.Closed.{closed_outcome, row_of};

use base_buffer::put;
use closed_rule::Closed;

// Four numbers from place `at` on.
fn store_four(res: &mut [u64], at: usize, one: u64, two: u64, three: u64, four: u64)
    requires { at < 2 ^ 32 }
    ensures { res.new ≡ sets res.old at (one ∷ two ∷ three ∷ four ∷ []) }
{
    put(res, at, one);
    put(res, at + 1, two);
    put(res, at + 2, three);
    put(res, at + 3, four);
}

// The refusal or 0, its place, the cost, the bound.
pub fn store_row(res: &mut [u64], at: usize, row: Closed)
    requires { at < 2 ^ 32 }
    ensures { res.new ≡ sets res.old at (row_of (closed_outcome row)) }
{
    match row {
        Closed::Finished { cost, bound } => store_four(res, at, 0, 0, cost, bound),
        Closed::Refused { number, place } => { store_four(res, at, number, place as u64, 0, 0) }
    }
}
