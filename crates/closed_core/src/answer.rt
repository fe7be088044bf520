// What is answered for a survey that 1 to 6 and 18 do not refuse: cost and bound of its plan, or 8.
ghost use Rattle.std.specs.Prelude.{◌≡◌, false};
ghost use Rattle.survey_core.specs.Survey.{survey_from, survey_with, lent_survey, lent_with};
ghost use Rattle.survey_core.specs.Sound.{SurveySound};
ghost use Rattle.plan_rule.specs.Figures.{figuring};
ghost use Rattle.plan_core.specs.Planned.{joinable, figures_joined};
ghost use Rattle.closed_rule.specs.Closed.{closed_outcome};
ghost use Rattle.closed_core.specs.LeftOut.{closed_of};

use crate::alone::kept_alone;
use base_limits::{MAX_DUALS, MAX_EDGES, MAX_VERTICES, Verdict};
use closed_rule::Closed;
use survey_components::Chosen;

// For poured lists: 8 has no place.
fn poured_answer(groups: &[u8], firsts: &[u32], seconds: &[u32], weights: &[u32]) -> Closed
    requires { SurveySound (survey_from groups.now firsts.now seconds.now weights.now) }
    ensures { closed_outcome result ≡ closed_of (figures_joined (lent_survey groups.now firsts.now seconds.now weights.now)) }
{
    let mut values = [0u64; MAX_DUALS];
    let mut picks = [0u8; MAX_EDGES];
    let mut order = [0u32; MAX_VERTICES];
    let grown = plan_rounds::grow_rounds(
        groups,
        firsts,
        seconds,
        weights,
        &mut values,
        &mut picks,
        &mut order,
    );
    kept_alone(groups, firsts, seconds, weights, &picks, grown.bound)
}

// 8 for lists that cannot be joined: the lowest of them.
fn unjoined_answer(
    groups: &[u8],
    firsts: &[u32],
    seconds: &[u32],
    weights: &[u32],
    owners: &[u32],
    others: &[u8],
) -> Closed
    requires survey_sound { SurveySound
        (survey_with groups.now firsts.now seconds.now weights.now owners.now others.now) }
    requires others_value { joinable
        (survey_with groups.now firsts.now seconds.now weights.now owners.now others.now) ≡ false }
    ensures { let s = lent_with groups.now firsts.now seconds.now weights.now owners.now others.now in
        closed_outcome result ≡ closed_of (figuring s) }
{
    let found = survey_lists::unjoined_refusal(
        groups,
        firsts,
        seconds,
        weights,
        owners,
        others,
        Chosen::All,
        &[],
        8,
    );
    match found {
        Verdict::Fine => Closed::Refused {
            number: 8,
            place: 0,
        },
        Verdict::Refused { number, place } => Closed::Refused { number, place },
    }
}

// For a survey.
pub fn sound_answer(
    groups: &[u8],
    firsts: &[u32],
    seconds: &[u32],
    weights: &[u32],
    owners: &[u32],
    others: &[u8],
) -> Closed
    requires { SurveySound
        (survey_with groups.now firsts.now seconds.now weights.now owners.now others.now) }
    ensures { let s = lent_with groups.now firsts.now seconds.now weights.now owners.now others.now in
        closed_outcome result ≡ closed_of (figuring s) }
{
    let poured = survey_lists::pour::pour(groups, owners, others);
    let n = groups.len();
    let answer = poured_answer(&poured[0..n], firsts, seconds, weights);
    if let Closed::Refused {
        number: _,
        place: _,
    } = answer
    {
        return unjoined_answer(groups, firsts, seconds, weights, owners, others);
    }
    answer
}
