// What ends the call: 1 to 6, 18, then 24, then 7, then 8.
ghost use Rattle.std.specs.Prelude.{◌≡◌, ◌+◌, ◌<◌};
ghost use Rattle.survey_core.specs.Survey.{lent_with};
ghost use Rattle.winter_rule.specs.Winter.{strength_refusal, strengths_refusal, given_refusal, winter_refusal};

use base_limits::Verdict;
use survey_components::Chosen;
use winter_rule::{MAX_STRENGTH, STRENGTHS};

// 24 for a strength of 0 or over 15, at its group.
fn strength_refusal(strength: u8, group: usize) -> Verdict
    ensures { result ≡ strength_refusal strength group }
{
    if strength < 1 {
        return Verdict::Refused {
            number: 24,
            place: group,
        };
    }
    if MAX_STRENGTH < strength {
        return Verdict::Refused {
            number: 24,
            place: group,
        };
    }
    Verdict::Fine
}

// 24: at 0 for a list of another length, else at the lowest group whose strength is 0 or over 15.
fn strengths_refusal(strengths: &[u8]) -> Verdict
    ensures { result ≡ strengths_refusal strengths.now }
{
    if strengths.len() != STRENGTHS {
        return Verdict::Refused {
            number: 24,
            place: 0,
        };
    }
    for (i, strength) in strengths.iter().enumerate() {
        let found = strength_refusal(*strength, i + 1);
        let Verdict::Fine = found else {
            return found;
        };
    }
    Verdict::Fine
}

// 1 to 6 and 18, then 24.
pub fn given_refusal(
    groups: &[u8],
    firsts: &[u32],
    seconds: &[u32],
    weights: &[u32],
    owners: &[u32],
    others: &[u8],
    strengths: &[u8],
) -> Verdict
    ensures { let s = lent_with groups.now firsts.now seconds.now weights.now owners.now others.now in
        result ≡ given_refusal s strengths.now }
{
    let unsound = survey_refusal::survey_refusal(groups, firsts, seconds, weights, owners, others);
    let Verdict::Fine = unsound else {
        return unsound;
    };
    strengths_refusal(strengths)
}

// Then 7 for fewer bytes of copies than tracks, then 8 of the whole survey.
pub fn winter_refusal(
    groups: &[u8],
    firsts: &[u32],
    seconds: &[u32],
    weights: &[u32],
    owners: &[u32],
    others: &[u8],
    strengths: &[u8],
    room: usize,
) -> Verdict
    ensures { let s = lent_with groups.now firsts.now seconds.now weights.now owners.now others.now in
        result ≡ winter_refusal s strengths.now room }
{
    let given = given_refusal(groups, firsts, seconds, weights, owners, others, strengths);
    let Verdict::Fine = given else {
        return given;
    };
    if room < firsts.len() {
        return Verdict::Refused {
            number: 7,
            place: 0,
        };
    }
    survey_lists::group_refusal(
        groups,
        firsts,
        seconds,
        weights,
        owners,
        others,
        Chosen::All,
        &[],
        8,
    )
}
