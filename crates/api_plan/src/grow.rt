// Growing for a caller that gets one number back and its counts in a lent buffer. Definitions, of dropping too, in
// specs/.
ghost use Rattle.std.specs.Prelude.{◌≡◌};
ghost use Rattle.survey_core.specs.Survey.{lent_with};
ghost use Rattle.api_code.specs.Code.{code_of};
ghost use Rattle.api_plan.specs.Call.{plan_call, plan_records};
ghost use Rattle.api_plan.specs.GrowCall.{grow_marks, grow_counts};

use crate::PLAN_FIGURES;
use plan_rule::Planned;

// Entries of the counts of dropping.
pub const DROP_FIGURES: usize = 2;

// Grows without dropping: marks 0 and 1. `counts` gets planning's counts with cost 0.
pub fn grow_call(
    groups: &[u8],
    firsts: &[u32],
    seconds: &[u32],
    weights: &[u32],
    owners: &[u32],
    others: &[u8],
    marks: &mut [u8],
    records: &mut [u8],
    counts: &mut [u64],
) -> u64
    ensures code { let s = lent_with groups.now firsts.now seconds.now weights.now owners.now others.now in
        result ≡ code_of (plan_call s marks.old records.old counts.old) }
    ensures marks { let s = lent_with groups.now firsts.now seconds.now weights.now owners.now others.now in
        marks.new ≡ grow_marks s marks.old records.old counts.old }
    ensures records { let s = lent_with groups.now firsts.now seconds.now weights.now owners.now others.now in
        records.new ≡ plan_records s marks.old records.old counts.old }
    ensures counts { let s = lent_with groups.now firsts.now seconds.now weights.now owners.now others.now in
        counts.new ≡ grow_counts s marks.old records.old counts.old }
{
    if counts.len() < PLAN_FIGURES {
        return api_code::short_counts(groups, firsts, seconds, weights, owners, others);
    }
    let answer = plan_core::grow_plan(
        groups, firsts, seconds, weights, owners, others, marks, records,
    );
    match answer {
        Planned::Finished {
            terminals,
            cost,
            bound,
            rounds,
            duals,
        } => {
            api_code::store_five(counts, terminals, cost, bound, rounds, duals);
            0
        }
        Planned::Refused { number, place } => api_code::code(number, place),
    }
}
