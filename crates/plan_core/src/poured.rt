// Growing over poured lists: the rounds, the picked tracks as marks, the moats as records.
ghost use Rattle.survey_core.specs.Survey.{survey_from, lent_survey};
ghost use Rattle.survey_core.specs.Sound.{SurveySound};
ghost use Rattle.plan_rule.specs.Answer.{planned_outcome};
ghost use Rattle.plan_core.specs.Grown.{GrownInto};

use base_limits::{MAX_DUALS, MAX_EDGES, MAX_VERTICES};
use plan_rule::Planned;

// Rounds, picked tracks, moats, and the counts.
pub fn grow_poured(
    groups: &[u8],
    firsts: &[u32],
    seconds: &[u32],
    weights: &[u32],
    marks: &mut [u8],
    records: &mut [u8],
) -> Planned
    requires { SurveySound (survey_from groups.now firsts.now seconds.now weights.now) }
    ensures { let s = lent_survey groups.now firsts.now seconds.now weights.now in
        GrownInto s marks.old records.old (planned_outcome result) marks.new records.new }
{
    let mut values = [0u64; MAX_DUALS];
    let mut picked = [0u8; MAX_EDGES];
    let mut order = [0u32; MAX_VERTICES];
    let grown = plan_rounds::grow_rounds(
        groups,
        firsts,
        seconds,
        weights,
        &mut values,
        &mut picked,
        &mut order,
    );
    let rounds = grown.rounds;
    let bound = grown.bound;
    let m = firsts.len().min(marks.len());
    marks[..m].copy_from_slice(&picked[..m]);
    let duals = plan_draw::draw(
        groups.len(),
        firsts,
        seconds,
        &values,
        &order,
        rounds,
        records,
    );
    let terminals = survey_groups::terminals::terminals(groups);
    crate::counts::grown_counts(terminals, bound, rounds, duals)
}
