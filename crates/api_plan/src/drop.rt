// Dropping for a caller that gets one number back and the counts in a lent buffer. Definitions in specs/GrowCall.
ghost use Rattle.std.specs.Prelude.{◌≡◌};
ghost use Rattle.survey_core.specs.Survey.{lent_with};
ghost use Rattle.api_code.specs.Code.{code_of};
ghost use Rattle.api_plan.specs.GrowCall.{drop_call, drop_marks, dropped_counts};

use crate::grow::DROP_FIGURES;
use plan_rule::Dropped;

// Drops what no list needs of the tracks marked 1: the others become 2. `counts` gets k and the kept cost.
pub fn drop_call(
    groups: &[u8],
    firsts: &[u32],
    seconds: &[u32],
    weights: &[u32],
    owners: &[u32],
    others: &[u8],
    marks: &mut [u8],
    counts: &mut [u64],
) -> u64
    ensures code { let s = lent_with groups.now firsts.now seconds.now weights.now owners.now others.now in
        result ≡ code_of (drop_call s marks.old counts.old) }
    ensures marks { let s = lent_with groups.now firsts.now seconds.now weights.now owners.now others.now in
        marks.new ≡ drop_marks s marks.old counts.old }
    ensures counts { let s = lent_with groups.now firsts.now seconds.now weights.now owners.now others.now in
        counts.new ≡ dropped_counts s marks.old counts.old }
{
    if counts.len() < DROP_FIGURES {
        return api_code::short_counts(groups, firsts, seconds, weights, owners, others);
    }
    let answer = plan_core::prune_plan(groups, firsts, seconds, weights, owners, others, marks);
    match answer {
        Dropped::Finished { terminals, cost } => {
            api_code::store_two(counts, terminals, cost);
            0
        }
        Dropped::Refused { number, place } => api_code::code(number, place),
    }
}
