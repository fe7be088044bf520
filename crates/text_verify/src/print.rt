// Prints what a check has found.
ghost use Rattle.std.specs.Prelude.{◌≡◌, ◌≤◌, length};
ghost use Rattle.format_print.specs.Print.{printed, printed_out};
ghost use Rattle.check_printed.specs.Answer.{verified_outcome};
ghost use Rattle.text_verify.specs.Output.{findings_text, findings_room};

use crate::findings::print_passed;
use check_printed::Verified;
use format_print::{Printed, print_refusal};

// Prints `passed`, sites, cost and bound, or the refusal's two lines; 7 where that does not fit.
pub fn print_findings(found: Verified, out: &mut [u8]) -> Printed
    ensures value { result ≡ printed (findings_text (verified_outcome found)) out.old }
    ensures out_value { out.new ≡ printed_out (findings_text (verified_outcome found)) out.old }
    ensures fits { length (findings_text (verified_outcome found)) ≤ findings_room }
{
    match found {
        Verified::Passed {
            terminals,
            cost,
            bound,
        } => print_passed(terminals, cost, bound, out),
        Verified::Refused { number, place } => print_refusal(number, place, out),
    }
}
