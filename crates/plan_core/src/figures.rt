// Planning without its moats, for calls that plan in buffers of their own: the growth and the dropping, nothing drawn.
ghost use Rattle.std.specs.Prelude.{◌≡◌};
ghost use Rattle.survey_core.specs.Survey.{survey_from, survey_with, lent_survey, lent_with};
ghost use Rattle.survey_core.specs.Sound.{SurveySound};
ghost use Rattle.plan_rule.specs.Figures.{figuring, marks_figured, figured_outcome};
ghost use Rattle.plan_core.specs.Planned.{marks_joined, figures_joined};

use crate::planned::grow_marks;
use crate::unjoined::unjoined_place;
use base_limits::{MAX_DUALS, MAX_EDGES, MAX_VERTICES, Verdict};
use plan_rule::Figured;

// Figures and marks over poured lists.
fn poured_figures(
    groups: &[u8],
    firsts: &[u32],
    seconds: &[u32],
    weights: &[u32],
    marks: &mut [u8; MAX_EDGES],
) -> Figured
    requires { SurveySound (survey_from groups.now firsts.now seconds.now weights.now) }
    ensures result_value { figured_outcome result ≡ figures_joined (lent_survey groups.now firsts.now seconds.now weights.now) }
    ensures marks_value { marks.new ≡ marks_joined (lent_survey groups.now firsts.now seconds.now weights.now) marks.old }
{
    let mut values = [0u64; MAX_DUALS];
    let mut order = [0u32; MAX_VERTICES];
    let marked = grow_marks(
        groups,
        firsts,
        seconds,
        weights,
        &mut values,
        &mut order,
        marks,
    );
    if !marked.joins {
        return Figured::Refused {
            number: 8,
            place: 0,
        };
    }
    Figured::Finished {
        terminals: survey_groups::terminals::terminals(groups),
        cost: check_core::kept_cost(firsts, weights, marks),
        bound: marked.bound,
        rounds: marked.rounds as u64,
    }
}

// The figures and marks of a survey that 1 to 6 and 18 do not refuse.
pub fn sound_figures(
    groups: &[u8],
    firsts: &[u32],
    seconds: &[u32],
    weights: &[u32],
    owners: &[u32],
    others: &[u8],
    marks: &mut [u8; MAX_EDGES],
) -> Figured
    requires { SurveySound
        (survey_with groups.now firsts.now seconds.now weights.now owners.now others.now) }
    ensures result_value { let s = lent_with groups.now firsts.now seconds.now weights.now owners.now others.now in
        figured_outcome result ≡ figuring s }
    ensures marks_value { let s = lent_with groups.now firsts.now seconds.now weights.now owners.now others.now in
        marks.new ≡ marks_figured s marks.old }
{
    let poured = survey_lists::pour::pour(groups, owners, others);
    let n = groups.len();
    let figured = poured_figures(&poured[0..n], firsts, seconds, weights, marks);
    if let Figured::Refused {
        number: _,
        place: _,
    } = figured
    {
        let place = unjoined_place(groups, firsts, seconds, weights, owners, others);
        return Figured::Refused { number: 8, place };
    }
    figured
}

// Planning's refusals but 7, in its order; else k, cost, bound and rounds, and the marks, as planning has them.
pub fn figures(
    groups: &[u8],
    firsts: &[u32],
    seconds: &[u32],
    weights: &[u32],
    owners: &[u32],
    others: &[u8],
    marks: &mut [u8; MAX_EDGES],
) -> Figured
    ensures result_value { let s = lent_with groups.now firsts.now seconds.now weights.now owners.now others.now in
        figured_outcome result ≡ figuring s }
    ensures marks_value { let s = lent_with groups.now firsts.now seconds.now weights.now owners.now others.now in
        marks.new ≡ marks_figured s marks.old }
{
    let found = survey_refusal::survey_refusal(groups, firsts, seconds, weights, owners, others);
    if let Verdict::Refused { number, place } = found {
        return Figured::Refused { number, place };
    }
    sound_figures(groups, firsts, seconds, weights, owners, others, marks)
}
