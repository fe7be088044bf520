// Lent marks before dropping: refusals 1 to 6, 18, 9 and 10, and the marks as if every picked track were kept.
ghost use Rattle.std.specs.Prelude.{◌≡◌, length, get_or, replicate, ltb};
ghost use Rattle.base_finite.specs.Below.{counted};
ghost use Rattle.base_buffer.specs.Store.{remade};
ghost use Rattle.base_limits.specs.Limits.{max_edges};
ghost use Rattle.base_limits.specs.Verdict.{refuse_if, lowest_below};
ghost use Rattle.survey_core.specs.Survey.{lent_with};
ghost use Rattle.survey_components.specs.Labels.{picked_in};
ghost use Rattle.plan_core.specs.Picks.{marked_refusal};

use base_buffer::put;
use base_limits::{MAX_EDGES, Verdict};
use survey_components::is_picked;

// 10: a mark above 1.
fn mark_refusal(mark: u8, e: usize) -> Verdict
    ensures { result ≡ refuse_if (ltb 1 mark) 10 e }
{
    match mark {
        0 => Verdict::Fine,
        1 => Verdict::Fine,
        2 => Verdict::Refused {
            number: 10,
            place: e,
        },
        _ => Verdict::Refused {
            number: 10,
            place: e,
        },
    }
}

// The lowest track with a mark above 1.
fn marks_refusal(marks: &[u8]) -> Verdict
    ensures { result ≡ lowest_below (length marks.now) (λ e. refuse_if (ltb 1 (get_or marks.now e 0)) 10 e) }
{
    for (e, mark) in marks.iter().enumerate() {
        let found = mark_refusal(*mark, e);
        let Verdict::Fine = found else {
            return found;
        };
    }
    Verdict::Fine
}

// 1 to 6 and 18, then 9 for marks not m long, then 10.
pub fn marked_refusal(
    groups: &[u8],
    firsts: &[u32],
    seconds: &[u32],
    weights: &[u32],
    owners: &[u32],
    others: &[u8],
    marks: &[u8],
) -> Verdict
    ensures { result ≡ marked_refusal (lent_with groups.now firsts.now seconds.now weights.now owners.now others.now) marks.now }
{
    let unsound = survey_refusal::survey_refusal(groups, firsts, seconds, weights, owners, others);
    let Verdict::Fine = unsound else {
        return unsound;
    };
    if marks.len() != firsts.len() {
        return Verdict::Refused {
            number: 9,
            place: 0,
        };
    }
    marks_refusal(marks)
}

// The first m marks, as if every picked track were kept: 2 for a picked one, else 0.
pub fn kept_picks(marks: &[u8], m: usize) -> [u8; MAX_EDGES]
    ensures { result ≡ remade (λ e x. counted (picked_in marks.now e) 2) m (replicate max_edges 0) }
{
    let mut picks = [0u8; MAX_EDGES];
    for e in 0..m {
        put(&mut picks, e, 2 * u8::from(is_picked(marks, e)));
    }
    picks
}
