// Printing of a survey in the same way.
ghost use Rattle.std.specs.Prelude.{◌≡◌};
ghost use Rattle.format_survey_print.specs.Print.{survey_lent};
ghost use Rattle.api_code.specs.Code.{code_of};
ghost use Rattle.api_print.specs.Call.{survey_call, survey_out, survey_counts};

use crate::{PRINT_FIGURES, printed_code};
use format_survey_print::print_survey;

// Prints a survey's text. `counts` gets its length.
pub fn print_survey_call(
    groups: &[u8],
    firsts: &[u32],
    seconds: &[u32],
    weights: &[u32],
    owners: &[u32],
    others: &[u8],
    out: &mut [u8],
    counts: &mut [u64],
) -> u64
    ensures code { let s = survey_lent groups.now firsts.now seconds.now weights.now owners.now others.now in
        result ≡ code_of (survey_call s out.old counts.old) }
    ensures out { let s = survey_lent groups.now firsts.now seconds.now weights.now owners.now others.now in
        out.new ≡ survey_out s out.old counts.old }
    ensures counts { let s = survey_lent groups.now firsts.now seconds.now weights.now owners.now others.now in
        counts.new ≡ survey_counts s out.old counts.old }
{
    let room = api_code::lent_on(counts.len(), PRINT_FIGURES, out.len());
    let answer = print_survey(
        groups,
        firsts,
        seconds,
        weights,
        owners,
        others,
        &mut out[0..room],
    );
    printed_code(answer, counts)
}
