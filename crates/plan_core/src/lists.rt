// What dropping refuses of the poured groups, said of the lists.
ghost use Rattle.std.specs.Prelude.{◌≡◌};
ghost use Rattle.survey_core.specs.Survey.{survey_with, lent_with};
ghost use Rattle.survey_core.specs.Sound.{SurveySound};
ghost use Rattle.survey_core.specs.Refusal.{group_refusal};
ghost use Rattle.survey_components.specs.Labels.{chosen};
ghost use Rattle.survey_components.specs.declared.Chosen.TheVariants.{Kept};
ghost use Rattle.plan_core.specs.Picks.{by_lists};

use base_limits::Verdict;
use survey_components::Chosen;

// What was found of the poured groups, said of the lists: 14 names a list, and not the group that it was poured into.
pub fn list_refusal(
    found: Verdict,
    groups: &[u8],
    firsts: &[u32],
    seconds: &[u32],
    weights: &[u32],
    owners: &[u32],
    others: &[u8],
    picks: &[u8],
) -> Verdict
    requires { SurveySound
        (survey_with groups.now firsts.now seconds.now weights.now owners.now others.now) }
    ensures { let s = lent_with groups.now firsts.now seconds.now weights.now owners.now others.now in
        result ≡ by_lists found (group_refusal s 14 (chosen Kept picks.now)) }
{
    let Verdict::Refused { number, place } = found else {
        return Verdict::Fine;
    };
    if number == 14 {
        return survey_lists::unjoined_refusal(
            groups,
            firsts,
            seconds,
            weights,
            owners,
            others,
            Chosen::Kept,
            picks,
            14,
        );
    }
    Verdict::Refused { number, place }
}
