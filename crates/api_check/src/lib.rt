// Checking for a caller that gets one number back and the counts in a lent buffer. Definitions in specs/Call and
// specs/VerifyCall. `check_call` judges marks and records, `verify_call` a printed plan behind its survey.
#![tactic(auto)]

ghost use Rattle.std.specs.Prelude.{◌≡◌};
ghost use Rattle.survey_core.specs.Survey.{lent_with};
ghost use Rattle.api_code.specs.Code.{code_of};
ghost use Rattle.api_check.specs.Call.{check_call, check_counts};

use check_core::Checking;

mod verify;

pub use verify::verify_call;

// Entries of the counts.
pub const CHECK_FIGURES: usize = 3;

// Checks marks and moat records against a survey with pairs. `counts` gets k, the kept cost and the bound.
pub fn check_call(
    groups: &[u8],
    firsts: &[u32],
    seconds: &[u32],
    weights: &[u32],
    owners: &[u32],
    others: &[u8],
    marks: &[u8],
    records: &[u8],
    counts: &mut [u64],
) -> u64
    ensures code { let s = lent_with groups.now firsts.now seconds.now weights.now owners.now others.now in
        result ≡ code_of (check_call s marks.now records.now counts.old) }
    ensures counts { let s = lent_with groups.now firsts.now seconds.now weights.now owners.now others.now in
        counts.new ≡ check_counts s marks.now records.now counts.old }
{
    if counts.len() < CHECK_FIGURES {
        return api_code::short_counts(groups, firsts, seconds, weights, owners, others);
    }
    let answer = check_core::check(
        groups, firsts, seconds, weights, owners, others, marks, records,
    );
    match answer {
        Checking::Passed {
            terminals,
            cost,
            bound,
        } => {
            api_code::store_three(counts, terminals, cost, bound);
            0
        }
        Checking::Refused { number, place } => api_code::code(number, place),
    }
}
