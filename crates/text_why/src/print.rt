// Prints what asking why answers: the reason, with the route that it left in a buffer, or the refusal's two lines.
ghost use Rattle.std.specs.Prelude.{◌≡◌};
ghost use Rattle.format_print.specs.Print.{printed, printed_out};
ghost use Rattle.why_rule.specs.Answer.{why_outcome};
ghost use Rattle.text_why.specs.WhyAnswer.{why_answer_text, WhyAnswerWords};

use base_buffer::at_most;
use format_print::Printed;
use format_why::print_reason;
use why_rule::Why;

// Prints the answer for the track that was asked about: the reason, with the first entries of the route, or the
// refusal's two lines.
pub fn print_why(told: Why, asked: u64, route: &[u32], out: &mut [u8]) -> Printed
    ensures value { result ≡ printed (why_answer_text (why_outcome told) asked route.now) out.old }
    ensures out_value { out.new ≡ printed_out (why_answer_text (why_outcome told) asked route.now) out.old }
    ensures words { WhyAnswerWords (why_outcome told) }
{
    match told {
        Why::Kept {
            group,
            smaller,
            larger,
            entries,
        } => {
            let size = at_most(entries as usize, route.len());
            print_reason(asked, 2, group, smaller, larger, 0, &route[0..size], out)
        }
        Why::Dropped => print_reason(asked, 1, 0, 0, 0, 0, &route[0..0], out),
        Why::Passed { round } => print_reason(asked, 0, 0, 0, 0, round, &route[0..0], out),
        Why::Refused { number, place } => format_print::print_refusal(number, place, out),
    }
}
