// Why a track is on the sheet: the call, which plans in buffers of its own. Definitions and promises are why_rule's;
// how pairs, rounds and routes are found is specs/Parted, Replay and Walk. `why` answers the reason and writes a kept
// track's route, or refuses with 1 to 8, 18 or 19.
#![tactic(auto)]

ghost use Rattle.std.specs.Prelude.{◌≡◌, ◌++◌, length, drop, replicate};
ghost use Rattle.base_limits.specs.Limits.{max_edges};
ghost use Rattle.base_limits.specs.Verdict.{answer};
ghost use Rattle.survey_core.specs.Survey.{survey_with, lent_with, lent_survey};
ghost use Rattle.plan_drop.specs.Judge.{marks_pruned};
ghost use Rattle.why_rule.specs.Reason.{reason_of};
ghost use Rattle.why_rule.specs.Why.{why_counts, route_in, reasoning, route_after};
ghost use Rattle.why_rule.specs.Answer.{why_outcome};
ghost use Rattle.why_rule.specs.Promise.{WhyPromises};
ghost use Rattle.why_core.specs.Asked.{Asked};

use crate::kept::explain_kept;
use base_buffer::at;
use base_limits::{MAX_DUALS, MAX_EDGES, MAX_VERTICES, Verdict};
use why_rule::Why;

mod kept;
mod pair;
mod parted;
mod refusal;
mod round;
mod route;
mod visit;

// The marks of a plan, from what growing picked.
fn plan_marks(
    lists: &[u8],
    firsts: &[u32],
    seconds: &[u32],
    weights: &[u32],
    picked: &[u8],
) -> [u8; MAX_EDGES]
    ensures { let s = lent_survey lists.now firsts.now seconds.now weights.now in
        result ≡ marks_pruned s picked.now (replicate max_edges 0) }
{
    let mut marks = [0u8; MAX_EDGES];
    plan_drop::prune(lists, firsts, seconds, weights, picked, &mut marks);
    marks
}

// Plans over the poured lists, and explains the mark of the track.
fn explain(
    groups: &[u8],
    firsts: &[u32],
    seconds: &[u32],
    weights: &[u32],
    owners: &[u32],
    others: &[u8],
    lists: &[u8],
    track: usize,
    route: &mut [u32],
) -> Why
    requires { Asked (survey_with groups.now firsts.now seconds.now weights.now owners.now others.now)
        lists.now (length route.old) track }
    ensures result_value { let s = lent_with groups.now firsts.now seconds.now weights.now owners.now others.now in
        why_outcome result ≡ answer (why_counts (reason_of s track)) }
    ensures route_value { let s = lent_with groups.now firsts.now seconds.now weights.now owners.now others.now in
        let entries = route_in (reason_of s track) in
        route.new ≡ entries ++ drop (length entries) route.old }
{
    let mut values = [0u64; MAX_DUALS];
    let mut picked = [0u8; MAX_EDGES];
    let mut order = [0u32; MAX_VERTICES];
    let grown = plan_rounds::grow(
        lists,
        firsts,
        seconds,
        weights,
        &mut values,
        &mut picked,
        &mut order,
    );
    let rounds = grown.rounds;
    let m = firsts.len();
    let marks = plan_marks(lists, firsts, seconds, weights, &picked[0..m]);
    match at(&marks, track) {
        0 => {
            let picks = &order[0..rounds];
            let round = crate::round::join_round(lists, firsts, seconds, weights, picks, track);
            Why::Passed {
                round: round as u64,
            }
        }
        1 => Why::Dropped,
        2 => explain_kept(
            groups, firsts, seconds, weights, owners, others, lists, &marks, track, route,
        ),
        _ => Why::Dropped,
    }
}

// Says why a track is marked as it is. A kept track: the lowest list parted without it, the lowest pair of its members
// so parted, and into `route` the kept tracks between the two, in walking order from the smaller; a dropped one; one
// that was not picked, with the round after which its ends were first in one component, 0 for never. Refused: 1 to 6
// and 18, then 7 for a route shorter than n - 1, then 8, then 19 for a number of m or more, with that number as place.
pub fn why(
    groups: &[u8],
    firsts: &[u32],
    seconds: &[u32],
    weights: &[u32],
    owners: &[u32],
    others: &[u8],
    track: usize,
    route: &mut [u32],
) -> Why
    ensures result_value { let s = lent_with groups.now firsts.now seconds.now weights.now owners.now others.now in
        why_outcome result ≡ reasoning s (length route.old) track }
    ensures route_value { let s = lent_with groups.now firsts.now seconds.now weights.now owners.now others.now in
        route.new ≡ route_after s track route.old }
    ensures promises { let s = lent_with groups.now firsts.now seconds.now weights.now owners.now others.now in
        WhyPromises s track route.old route.new (why_outcome result) }
{
    let found = crate::refusal::why_refusal(
        groups,
        firsts,
        seconds,
        weights,
        owners,
        others,
        route.len(),
        track,
    );
    if let Verdict::Refused { number, place } = found {
        return Why::Refused { number, place };
    }
    let poured = survey_lists::pour::pour(groups, owners, others);
    let n = groups.len();
    let lists = &poured[0..n];
    explain(
        groups, firsts, seconds, weights, owners, others, lists, track, route,
    )
}
