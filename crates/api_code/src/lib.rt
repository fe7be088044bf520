// What every call from another language needs: a refusal as one number, counts stored, and the answer where they do not
// fit. Definitions in specs/Code.
#![tactic(auto)]

ghost use Rattle.std.specs.Prelude.{◌≡◌, ◌+◌, ◌*◌};
ghost use Rattle.base_limits.specs.Verdict.{◌before◌};
ghost use Rattle.base_limits.specs.declared.Verdict.TheVariants.{Refused};
ghost use Rattle.survey_core.specs.Survey.{lent_with};
ghost use Rattle.survey_core.specs.Refusal.{survey_refusal};
ghost use Rattle.api_code.specs.Code.{place_unit, code_of, capped, lent_on};

use base_limits::Verdict;

mod store;

pub use store::{store_five, store_three, store_two};

// A refusal's place counts this many times.
const PLACE_UNIT: u64 = 256;

// A refusal as one number.
pub fn code(number: u64, place: usize) -> u64
    ensures { result ≡ capped (number + place_unit * place) }
{
    let above = PLACE_UNIT.saturating_mul(place as u64);
    number.saturating_add(above)
}

// The answer of a call whose counts do not fit: 1 to 6, 18, else 7.
pub fn short_counts(
    groups: &[u8],
    firsts: &[u32],
    seconds: &[u32],
    weights: &[u32],
    owners: &[u32],
    others: &[u8],
) -> u64
    ensures { let s = lent_with groups.now firsts.now seconds.now weights.now owners.now others.now in
        result ≡ code_of (survey_refusal s before Refused 7 0) }
{
    let found = survey_refusal::survey_refusal(groups, firsts, seconds, weights, owners, others);
    match found {
        Verdict::Refused { number, place } => code(number, place),
        Verdict::Fine => 7,
    }
}

// How much of a buffer is lent on: nothing where the counts do not fit.
pub fn lent_on(long: usize, wanted: usize, whole: usize) -> usize
    ensures { result ≡ lent_on long wanted whole }
{
    if long < wanted {
        return 0;
    }
    whole
}
