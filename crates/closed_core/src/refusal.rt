// What ends the whole call: 1 to 6, 18, then 7.
ghost use Rattle.std.specs.Prelude.{◌≡◌};
ghost use Rattle.survey_core.specs.Survey.{lent_with};
ghost use Rattle.closed_rule.specs.Closed.{closed_refusal};

use base_limits::Verdict;
use closed_rule::{MAX_CLOSED, ROW_FIGURES};

// 1 to 6 and 18, then 7 for more than 256 tracks, or a result too short for a row for each.
pub fn closed_refusal(
    groups: &[u8],
    firsts: &[u32],
    seconds: &[u32],
    weights: &[u32],
    owners: &[u32],
    others: &[u8],
    tracks: usize,
    res: usize,
) -> Verdict
    ensures { result ≡ closed_refusal (lent_with groups.now firsts.now seconds.now weights.now owners.now others.now) tracks res }
{
    let unsound = survey_refusal::survey_refusal(groups, firsts, seconds, weights, owners, others);
    let Verdict::Fine = unsound else {
        return unsound;
    };
    if MAX_CLOSED < tracks {
        return Verdict::Refused {
            number: 7,
            place: 0,
        };
    }
    if res < ROW_FIGURES * tracks {
        return Verdict::Refused {
            number: 7,
            place: 0,
        };
    }
    Verdict::Fine
}
