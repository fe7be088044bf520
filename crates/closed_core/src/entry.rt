// What is answered for one track, with the figures and marks of the plan in which all tracks are open.
ghost use Rattle.std.specs.Prelude.{◌≡◌, replicate};
ghost use Rattle.base_limits.specs.Limits.{max_edges};
ghost use Rattle.survey_core.specs.Survey.{survey_with, lent_with};
ghost use Rattle.survey_core.specs.Sound.{SurveySound};
ghost use Rattle.plan_rule.specs.Figures.{figuring, marks_figured, figured_outcome};
ghost use Rattle.closed_rule.specs.Closed.{closed_entry, closed_outcome};

use crate::omit::answer_without;
use closed_rule::Closed;
use plan_rule::Figured;

// 19 for a number that is no track's; the figures of the whole plan for a track that it does not pick; else those of
// the plan without the track, or 8.
pub fn entry(
    groups: &[u8],
    firsts: &[u32],
    seconds: &[u32],
    weights: &[u32],
    owners: &[u32],
    others: &[u8],
    whole: Figured,
    marks: &[u8],
    track: u32,
) -> Closed
    requires survey_sound { SurveySound
        (survey_with groups.now firsts.now seconds.now weights.now owners.now others.now) }
    requires whole_value { figured_outcome whole ≡ figuring
        (survey_with groups.now firsts.now seconds.now weights.now owners.now others.now) }
    requires marks_value { marks.now ≡ marks_figured
        (survey_with groups.now firsts.now seconds.now weights.now owners.now others.now)
        (replicate max_edges 0) }
    ensures { let s = lent_with groups.now firsts.now seconds.now weights.now owners.now others.now in
        closed_outcome result ≡ closed_entry s track }
{
    let c = track as usize;
    if firsts.len() <= c {
        return Closed::Refused {
            number: 19,
            place: c,
        };
    }
    if !survey_components::is_picked(marks, c) {
        if let Figured::Finished {
            terminals: _,
            cost,
            bound,
            rounds: _,
        } = whole
        {
            return Closed::Finished { cost, bound };
        }
    }
    answer_without(groups, firsts, seconds, weights, owners, others, c)
}
