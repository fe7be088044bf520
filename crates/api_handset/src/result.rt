// Planning of a survey in numbers, with the counts as bytes in a lent slice. Definitions in specs/.
ghost use Rattle.std.specs.Prelude.{◌≡◌};
ghost use Rattle.base_limits.specs.Verdict.{written};
ghost use Rattle.survey_core.specs.Survey.{lent_with};
ghost use Rattle.api_code.specs.Code.{code_of};
ghost use Rattle.plan_rule.specs.Plan.{marks_after, records_after};
ghost use Rattle.api_plan.specs.Call.{drawn_figures};
ghost use Rattle.api_handset.specs.Call.{result_after, plan_with};

use api_plan::PLAN_FIGURES;
use base_limits::VALUE_BYTES;

// Bytes of the counts.
pub const PLAN_BYTES: usize = PLAN_FIGURES * VALUE_BYTES;

// Plans a survey in numbers: no entry for counts is lent on where the result is too short.
pub fn plan_words(
    groups: &[u8],
    firsts: &[u32],
    seconds: &[u32],
    weights: &[u32],
    owners: &[u32],
    others: &[u8],
    marks: &mut [u8],
    records: &mut [u8],
    res: &mut [u8],
) -> u64
    ensures result_value { let s = lent_with groups.now firsts.now seconds.now weights.now owners.now others.now in
        result ≡ code_of (plan_with s marks.old records.old res.old) }
    ensures marks_value { let s = lent_with groups.now firsts.now seconds.now weights.now owners.now others.now in
        let v = plan_with s marks.old records.old res.old in
        marks.new ≡ written v (marks_after s marks.old records.old) marks.old }
    ensures records_value { let s = lent_with groups.now firsts.now seconds.now weights.now owners.now others.now in
        let v = plan_with s marks.old records.old res.old in
        records.new ≡ written v (records_after s marks.old records.old) records.old }
    ensures res_value { let s = lent_with groups.now firsts.now seconds.now weights.now owners.now others.now in
        let v = plan_with s marks.old records.old res.old in
        res.new ≡ result_after v (drawn_figures s) res.old }
{
    let mut counts = [0u64; PLAN_FIGURES];
    let room = api_code::lent_on(res.len(), PLAN_BYTES, PLAN_FIGURES);
    let answer = api_plan::plan_call(
        groups,
        firsts,
        seconds,
        weights,
        owners,
        others,
        marks,
        records,
        &mut counts[0..room],
    );
    if 0 < answer {
        return answer;
    }
    crate::counts::write_counts(res, &counts);
    answer
}
