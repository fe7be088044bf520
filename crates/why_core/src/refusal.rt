// The refusals of asking why: 1 to 6 and 18, then 7, 8 and 19.
ghost use Rattle.std.specs.Prelude.{◌≡◌, leb};
ghost use Rattle.base_limits.specs.Verdict.{refuse_if, ◌before◌};
ghost use Rattle.survey_core.specs.Survey.{lent_with};
ghost use Rattle.why_rule.specs.Why.{why_refusal};

use base_limits::Verdict;
use survey_components::Chosen;

// 19: there is no such track.
fn track_refusal(m: usize, track: usize) -> Verdict
    ensures { result ≡ refuse_if (leb m track) 19 track }
{
    if m <= track {
        return Verdict::Refused {
            number: 19,
            place: track,
        };
    }
    Verdict::Fine
}

// The first finding; the second only where the first has none.
fn first_of(first: Verdict, second: Verdict) -> Verdict
    ensures { result ≡ (first before second) }
{
    let Verdict::Fine = first else {
        return first;
    };
    second
}

// 1 to 6 and 18 for the survey, then 7 for a route buffer of fewer than n - 1 entries, then 8, then 19 for a track
// number of m or more, with that number as place.
pub fn why_refusal(
    groups: &[u8],
    firsts: &[u32],
    seconds: &[u32],
    weights: &[u32],
    owners: &[u32],
    others: &[u8],
    route: usize,
    track: usize,
) -> Verdict
    ensures { result ≡ why_refusal (lent_with groups.now firsts.now seconds.now weights.now owners.now others.now) route track }
{
    let unsound = survey_refusal::survey_refusal(groups, firsts, seconds, weights, owners, others);
    let Verdict::Fine = unsound else {
        return unsound;
    };
    if route < groups.len() - 1 {
        return Verdict::Refused {
            number: 7,
            place: 0,
        };
    }
    let apart = survey_lists::group_refusal(
        groups,
        firsts,
        seconds,
        weights,
        owners,
        others,
        Chosen::All,
        &[],
        8,
    );
    let past = track_refusal(firsts.len(), track);
    first_of(apart, past)
}
