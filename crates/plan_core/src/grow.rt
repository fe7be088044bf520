// Growing: planning's refusals 1 to 8 and 18, then the growth over the poured lists.
ghost use Rattle.std.specs.Prelude.{◌≡◌, length};
ghost use Rattle.survey_core.specs.Survey.{lent_with};
ghost use Rattle.plan_rule.specs.Plan.{records_after};
ghost use Rattle.plan_rule.specs.Growing.{growing, marks_grown};
ghost use Rattle.plan_rule.specs.Answer.{planned_outcome};

use crate::poured::grow_poured;
use crate::refusal::plan_refusal;
use base_limits::Verdict;
use plan_rule::Planned;

// Grows a survey into lent buffers for marks, 0 and 1, and moat records. It refuses as planning does, and answers
// planning's counts with cost 0. Dropping accepts the marks that it leaves, and then they are planning's.
pub fn grow_plan(
    groups: &[u8],
    firsts: &[u32],
    seconds: &[u32],
    weights: &[u32],
    owners: &[u32],
    others: &[u8],
    marks: &mut [u8],
    records: &mut [u8],
) -> Planned
    ensures result_value { let s = lent_with groups.now firsts.now seconds.now weights.now owners.now others.now in
        planned_outcome result ≡ growing s (length marks.old) (length records.old) }
    ensures marks_value { let s = lent_with groups.now firsts.now seconds.now weights.now owners.now others.now in
        marks.new ≡ marks_grown s marks.old records.old }
    ensures records_value { let s = lent_with groups.now firsts.now seconds.now weights.now owners.now others.now in
        records.new ≡ records_after s marks.old records.old }
{
    let found = plan_refusal(
        groups,
        firsts,
        seconds,
        weights,
        owners,
        others,
        marks.len(),
        records.len(),
    );
    if let Verdict::Refused { number, place } = found {
        return Planned::Refused { number, place };
    }
    let poured = survey_lists::pour::pour(groups, owners, others);
    let n = groups.len();
    grow_poured(&poured[0..n], firsts, seconds, weights, marks, records)
}
