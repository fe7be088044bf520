// The floor of a survey, printed.
ghost use Rattle.std.specs.Prelude.{◌≡◌};
ghost use Rattle.survey_core.specs.Survey.{lent_with};
ghost use Rattle.format_print.specs.Print.{printed, printed_out};
ghost use Rattle.text_floor.specs.Output.{survey_floor};

use crate::print::print_floor;
use floor_rule::Floored;
use format_print::Printed;

// Prints the floor, the cost and the gap, or the refusal's two lines.
pub fn floor_survey(
    groups: &[u8],
    firsts: &[u32],
    seconds: &[u32],
    weights: &[u32],
    owners: &[u32],
    others: &[u8],
    out: &mut [u8],
) -> Printed
    ensures result_value { let s = lent_with groups.now firsts.now seconds.now weights.now owners.now others.now in
        result ≡ printed (survey_floor s) out.old }
    ensures out_value { let s = lent_with groups.now firsts.now seconds.now weights.now owners.now others.now in
        out.new ≡ printed_out (survey_floor s) out.old }
{
    let found = floor_core::floor(groups, firsts, seconds, weights, owners, others);
    match found {
        Floored::Refused { number, place } => format_print::print_refusal(number, place, out),
        Floored::Finished {
            floor,
            terminals: _,
            cost,
            bound: _,
        } => print_floor(floor, cost, out),
    }
}
