// Checking a survey's text with a printed plan behind it, for a caller that gets one number back and its counts in a
// lent buffer. Definitions in specs/.
ghost use Rattle.std.specs.Prelude.{◌≡◌, length};
ghost use Rattle.check_printed.specs.Answer.{verified_outcome};
ghost use Rattle.api_code.specs.Code.{code_of, capped, verdict_of, counts_for, room_for};
ghost use Rattle.api_check.specs.Call.{check_figures, check_figures_of};
ghost use Rattle.api_check.specs.VerifyCall.{verify_call};

use crate::CHECK_FIGURES;
use check_printed::Verified;

// What the check answered, as one number; `counts` gets k, cost and bound.
fn verified_code(answer: Verified, counts: &mut [u64]) -> u64
    ensures result_value { let found = room_for check_figures (length counts.old) (verified_outcome answer) in
        result ≡ capped (code_of (verdict_of found)) }
    ensures counts_value { let found = room_for check_figures (length counts.old) (verified_outcome answer) in
        counts.new ≡ counts_for found check_figures_of counts.old }
{
    match answer {
        Verified::Passed {
            terminals,
            cost,
            bound,
        } => {
            if counts.len() < CHECK_FIGURES {
                return 7;
            }
            api_code::store_three(counts, terminals, cost, bound);
            0
        }
        Verified::Refused { number, place } => api_code::code(number, place),
    }
}

// Checks a survey's text with a printed plan behind it. `counts` gets k, the kept cost and the bound.
pub fn verify_call(text: &[u8], counts: &mut [u64]) -> u64
    ensures code { result ≡ capped (code_of (verdict_of (verify_call text.now counts.old))) }
    ensures counts { counts.new ≡ counts_for (verify_call text.now counts.old) check_figures_of counts.old }
{
    let answer = check_printed::verify(text);
    verified_code(answer, counts)
}
