// Refusals 1 to 6 and 18 of a survey, decided: definitions in survey_core, the test over all tracks at once in
// specs/Fault. `survey_refusal` judges a survey with pairs, `edges::survey_refusal` one without.
#![tactic(auto)]

ghost use Rattle.std.specs.Prelude.{◌≡◌, ◌||◌, eqb, ltb};
ghost use Rattle.base_limits.specs.Limits.{max_vertices};
ghost use Rattle.base_limits.specs.Verdict.{refuse_if, ◌before◌};
ghost use Rattle.base_limits.specs.declared.Verdict.TheVariants.{Refused};
ghost use Rattle.survey_core.specs.Survey.{lent_with};
ghost use Rattle.survey_core.specs.Refusal.{survey_refusal};

use crate::rising::pairs_refusal;
use base_limits::{MAX_VERTICES, Verdict};

pub mod edges;
mod fault;
mod rising;
mod track;

// The pair buffers differ in length: 1 comes before 2.
fn uneven_refusal(n: usize) -> Verdict
    ensures { result ≡ (refuse_if (eqb n 0 || ltb max_vertices n) 1 0 before Refused 2 0) }
{
    if n == 0 {
        return Verdict::Refused {
            number: 1,
            place: 0,
        };
    }
    if MAX_VERTICES < n {
        return Verdict::Refused {
            number: 1,
            place: 0,
        };
    }
    Verdict::Refused {
        number: 2,
        place: 0,
    }
}

// 1, 2 and 3, then the tracks rising with 4, 5 and 6, then 18 by pair.
pub fn survey_refusal(
    groups: &[u8],
    firsts: &[u32],
    seconds: &[u32],
    weights: &[u32],
    owners: &[u32],
    others: &[u8],
) -> Verdict
    ensures { result ≡ survey_refusal (lent_with groups.now firsts.now seconds.now weights.now owners.now others.now) }
{
    if owners.len() != others.len() {
        return uneven_refusal(groups.len());
    }
    let found = crate::edges::survey_refusal(groups, firsts, seconds, weights);
    let Verdict::Fine = found else {
        return found;
    };
    pairs_refusal(groups, owners, others)
}
