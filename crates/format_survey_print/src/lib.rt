// A survey's text out, which reading takes back. Definitions in specs/Print. `print_survey` answers the text's length,
// or refuses with 2 or 7.
#![tactic(auto)]

ghost use Rattle.std.specs.Prelude.{◌≡◌};
ghost use Rattle.format_survey_print.specs.Print.{survey_lent, survey_printed, survey_printed_out};

use crate::write::put_survey;
use format_print::Printed;

mod put;
mod write;

// Prints a survey's text: 2 where the buffers of the edges or those of the pairs differ in length, then 7 where the
// text does not fit; either way nothing is written. It checks nothing else: the text of a survey that planning refuses
// is printed too.
pub fn print_survey(
    groups: &[u8],
    firsts: &[u32],
    seconds: &[u32],
    weights: &[u32],
    owners: &[u32],
    others: &[u8],
    out: &mut [u8],
) -> Printed
    ensures value { result ≡ survey_printed (survey_lent groups.now firsts.now seconds.now weights.now owners.now others.now) out.old }
    ensures out_value { out.new ≡ survey_printed_out (survey_lent groups.now firsts.now seconds.now weights.now owners.now others.now) out.old }
{
    if firsts.len() != seconds.len() {
        return Printed::Refused {
            number: 2,
            place: 0,
        };
    }
    if firsts.len() != weights.len() {
        return Printed::Refused {
            number: 2,
            place: 0,
        };
    }
    if owners.len() != others.len() {
        return Printed::Refused {
            number: 2,
            place: 0,
        };
    }
    let need = put_survey(
        &mut out[0..0],
        0,
        groups,
        firsts,
        seconds,
        weights,
        owners,
        others,
    );
    if out.len() < need {
        return Printed::Refused {
            number: 7,
            place: 0,
        };
    }
    Printed::Length(put_survey(out, 0, groups, firsts, seconds, weights, owners, others))
}
