// Planning a survey that 1 to 6, 18 and 7 do not refuse: the growth over the poured lists, the marks and the moats, or 8.
ghost use Rattle.std.specs.Prelude.{◌≡◌, length};
ghost use Rattle.survey_core.specs.Survey.{survey_from, survey_with, lent_survey, lent_with};
ghost use Rattle.survey_core.specs.Sound.{SurveySound};
ghost use Rattle.plan_rule.specs.Plan.{counting, marks_after, records_after};
ghost use Rattle.plan_rule.specs.Answer.{planned_outcome};
ghost use Rattle.plan_core.specs.Planned.{marks_joined, Fits, counts_joined, records_joined};

use crate::planned::grow_marks;
use crate::unjoined::unjoined_place;
use base_limits::{MAX_DUALS, MAX_VERTICES, Verdict};
use plan_rule::Planned;

// Counts, marks and records over poured lists.
fn poured_plan(
    groups: &[u8],
    firsts: &[u32],
    seconds: &[u32],
    weights: &[u32],
    marks: &mut [u8],
    records: &mut [u8],
) -> Planned
    requires { Fits (survey_from groups.now firsts.now seconds.now weights.now)
        (length marks.old) (length records.old) }
    ensures result_value { planned_outcome result ≡ counts_joined (lent_survey groups.now firsts.now seconds.now weights.now) }
    ensures marks_value { marks.new ≡ marks_joined (lent_survey groups.now firsts.now seconds.now weights.now) marks.old }
    ensures records_value { records.new ≡ records_joined (lent_survey groups.now firsts.now seconds.now weights.now) records.old }
{
    let mut values = [0u64; MAX_DUALS];
    let mut order = [0u32; MAX_VERTICES];
    let marked = grow_marks(
        groups,
        firsts,
        seconds,
        weights,
        &mut values,
        &mut order,
        marks,
    );
    if !marked.joins {
        return Planned::Refused {
            number: 8,
            place: 0,
        };
    }
    let rounds = marked.rounds;
    let duals = plan_draw::draw(
        groups.len(),
        firsts,
        seconds,
        &values,
        &order,
        rounds,
        records,
    );
    Planned::Finished {
        terminals: survey_groups::terminals::terminals(groups),
        cost: check_core::kept_cost(firsts, weights, marks),
        bound: marked.bound,
        rounds: rounds as u64,
        duals: duals as u64,
    }
}

// The plan of the lists.
pub fn lent_plan(
    groups: &[u8],
    firsts: &[u32],
    seconds: &[u32],
    weights: &[u32],
    owners: &[u32],
    others: &[u8],
    marks: &mut [u8],
    records: &mut [u8],
) -> Planned
    requires { Fits (survey_with groups.now firsts.now seconds.now weights.now owners.now others.now)
        (length marks.old) (length records.old) }
    ensures result_value { let s = lent_with groups.now firsts.now seconds.now weights.now owners.now others.now in
        planned_outcome result ≡ counting s (length marks.old) (length records.old) }
    ensures marks_value { let s = lent_with groups.now firsts.now seconds.now weights.now owners.now others.now in
        marks.new ≡ marks_after s marks.old records.old }
    ensures records_value { let s = lent_with groups.now firsts.now seconds.now weights.now owners.now others.now in
        records.new ≡ records_after s marks.old records.old }
{
    let poured = survey_lists::pour::pour(groups, owners, others);
    let n = groups.len();
    let planned = poured_plan(&poured[0..n], firsts, seconds, weights, marks, records);
    if let Planned::Refused {
        number: _,
        place: _,
    } = planned
    {
        let place = unjoined_place(groups, firsts, seconds, weights, owners, others);
        return Planned::Refused { number: 8, place };
    }
    planned
}
