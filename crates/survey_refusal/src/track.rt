// Refusals 4, 5 and 6 of one track.
ghost use Rattle.std.specs.Prelude.{◌≡◌};
ghost use Rattle.survey_core.specs.Survey.{lent_survey};
ghost use Rattle.survey_core.specs.Refusal.{edge_refusal};

use base_limits::{MAX_WEIGHT, Verdict};

// What is wrong with one track: 4, 5 or 6.
pub fn edge_refusal(
    groups: &[u8],
    firsts: &[u32],
    seconds: &[u32],
    weights: &[u32],
    e: usize,
) -> Verdict
    ensures { result ≡ edge_refusal (lent_survey groups.now firsts.now seconds.now weights.now) e }
{
    let first = base_buffer::at(firsts, e);
    let second = base_buffer::at(seconds, e);
    if groups.len() <= first as usize {
        return Verdict::Refused {
            number: 4,
            place: e,
        };
    }
    if groups.len() <= second as usize {
        return Verdict::Refused {
            number: 4,
            place: e,
        };
    }
    if first == second {
        return Verdict::Refused {
            number: 5,
            place: e,
        };
    }
    if MAX_WEIGHT < base_buffer::at(weights, e) {
        return Verdict::Refused {
            number: 6,
            place: e,
        };
    }
    Verdict::Fine
}
