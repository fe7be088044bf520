// Why a track is on the sheet, for a caller that gets one number back and the reason's numbers in a lent buffer.
// Definitions in specs/Call and specs/Stored. `why_call` answers 0, or number + 256 * place.
#![tactic(auto)]

ghost use Rattle.std.specs.Prelude.{◌≡◌};
ghost use Rattle.survey_core.specs.Survey.{lent_with};
ghost use Rattle.api_code.specs.Code.{code_of};
ghost use Rattle.api_why.specs.Call.{why_call, why_route, why_figured};

mod store;

// Entries of the counts: kind, list, smaller, larger, entries of the route, round.
pub const WHY_FIGURES: usize = 6;

// Says why a track has its mark. `counts` gets the mark as kind, the list, its two members, the entries of the route
// and the round; `route` gets the tracks between the two, in walking order from the smaller.
pub fn why_call(
    groups: &[u8],
    firsts: &[u32],
    seconds: &[u32],
    weights: &[u32],
    owners: &[u32],
    others: &[u8],
    track: u32,
    route: &mut [u32],
    counts: &mut [u64],
) -> u64
    ensures code { let s = lent_with groups.now firsts.now seconds.now weights.now owners.now others.now in
        result ≡ code_of (why_call s track route.old counts.old) }
    ensures route { let s = lent_with groups.now firsts.now seconds.now weights.now owners.now others.now in
        route.new ≡ why_route s track route.old counts.old }
    ensures counts { let s = lent_with groups.now firsts.now seconds.now weights.now owners.now others.now in
        counts.new ≡ why_figured s track route.old counts.old }
{
    if counts.len() < WHY_FIGURES {
        return api_code::short_counts(groups, firsts, seconds, weights, owners, others);
    }
    let asked = track as usize;
    let answer = why_core::why(
        groups, firsts, seconds, weights, owners, others, asked, route,
    );
    crate::store::store_answer(answer, counts)
}
