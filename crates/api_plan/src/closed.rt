// Plans with one track closed, for a caller that gets one number back and a row for each track in a lent buffer.
// Definitions in closed_rule.
ghost use Rattle.std.specs.Prelude.{◌≡◌, length};
ghost use Rattle.survey_core.specs.Survey.{lent_with};
ghost use Rattle.api_code.specs.Code.{code_of};
ghost use Rattle.closed_rule.specs.Closed.{closed_refusal, result_after};

use base_limits::Verdict;

// Plans with one track closed, for each track of a list. `result` gets four numbers for each: the refusal or 0, its
// place, the cost, the bound.
pub fn closed_call(
    groups: &[u8],
    firsts: &[u32],
    seconds: &[u32],
    weights: &[u32],
    owners: &[u32],
    others: &[u8],
    tracks: &[u32],
    res: &mut [u64],
) -> u64
    ensures code { let s = lent_with groups.now firsts.now seconds.now weights.now owners.now others.now in
        result ≡ code_of (closed_refusal s (length tracks.now) (length res.old)) }
    ensures res { let s = lent_with groups.now firsts.now seconds.now weights.now owners.now others.now in
        res.new ≡ result_after s tracks.now res.old }
{
    let found = closed_core::closed(
        groups, firsts, seconds, weights, owners, others, tracks, res,
    );
    match found {
        Verdict::Refused { number, place } => api_code::code(number, place),
        Verdict::Fine => 0,
    }
}
