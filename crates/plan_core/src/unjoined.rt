// 8 for lists that cannot be joined, as planning and its figures give it.
ghost use Rattle.std.specs.Prelude.{◌≡◌, false};
ghost use Rattle.base_limits.specs.declared.Verdict.TheVariants.{Refused};
ghost use Rattle.theory_steiner.specs.Problem.{all_usable};
ghost use Rattle.survey_core.specs.Survey.{survey_with, lent_with, problem_of};
ghost use Rattle.survey_core.specs.Sound.{SurveySound};
ghost use Rattle.survey_core.specs.Refusal.{group_refusal};
ghost use Rattle.plan_core.specs.Planned.{joinable};

use base_limits::Verdict;
use survey_components::Chosen;

// The lowest list that cannot be joined, the place of 8.
pub fn unjoined_place(
    groups: &[u8],
    firsts: &[u32],
    seconds: &[u32],
    weights: &[u32],
    owners: &[u32],
    others: &[u8],
) -> usize
    requires survey_sound { SurveySound
        (survey_with groups.now firsts.now seconds.now weights.now owners.now others.now) }
    requires others_value { joinable
        (survey_with groups.now firsts.now seconds.now weights.now owners.now others.now) ≡ false }
    ensures { let s = lent_with groups.now firsts.now seconds.now weights.now owners.now others.now in
        group_refusal s 8 (all_usable (problem_of s)) ≡ Refused 8 result }
{
    let found = survey_lists::unjoined_refusal(
        groups,
        firsts,
        seconds,
        weights,
        owners,
        others,
        Chosen::All,
        &[],
        8,
    );
    match found {
        Verdict::Fine => 0,
        Verdict::Refused { number: _, place } => place,
    }
}
