// The floor for a caller that gets one number back and the figures in a lent buffer. Definitions in specs/FloorCall.
ghost use Rattle.std.specs.Prelude.{◌≡◌, [], ◌∷◌};
ghost use Rattle.std.proofs.lemmas.List.Edits.{sets};
ghost use Rattle.survey_core.specs.Survey.{lent_with};
ghost use Rattle.api_code.specs.Code.{code_of};
ghost use Rattle.api_plan.specs.FloorCall.{floor_call, floored_counts};

use base_buffer::put;
use floor_rule::Floored;

// Entries of the counts of the floor.
pub const FLOOR_FIGURES: usize = 4;

fn store_four(counts: &mut [u64], floor: u64, terminals: u64, cost: u64, bound: u64)
    ensures { counts.new ≡ sets counts.old 0 (floor ∷ terminals ∷ cost ∷ bound ∷ []) }
{
    put(counts, 0, floor);
    put(counts, 1, terminals);
    put(counts, 2, cost);
    put(counts, 3, bound);
}

// A floor under every set of tracks that joins every group. `counts` gets the floor, k, cost and bound.
pub fn floor_call(
    groups: &[u8],
    firsts: &[u32],
    seconds: &[u32],
    weights: &[u32],
    owners: &[u32],
    others: &[u8],
    counts: &mut [u64],
) -> u64
    ensures code { let s = lent_with groups.now firsts.now seconds.now weights.now owners.now others.now in
        result ≡ code_of (floor_call s counts.old) }
    ensures counts { let s = lent_with groups.now firsts.now seconds.now weights.now owners.now others.now in
        counts.new ≡ floored_counts s counts.old }
{
    if counts.len() < FLOOR_FIGURES {
        return api_code::short_counts(groups, firsts, seconds, weights, owners, others);
    }
    let answer = floor_core::floor(groups, firsts, seconds, weights, owners, others);
    match answer {
        Floored::Finished {
            floor,
            terminals,
            cost,
            bound,
        } => {
            store_four(counts, floor, terminals, cost, bound);
            0
        }
        Floored::Refused { number, place } => api_code::code(number, place),
    }
}
