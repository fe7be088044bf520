// Prints what came of the texts: the report, or a refusal's two lines.
ghost use Rattle.std.specs.Prelude.{◌≡◌};
ghost use Rattle.format_print.specs.Print.{printed, printed_out};
ghost use Rattle.text_season.specs.Added.{answer_text, printed_bytes};

use base_limits::Verdict;
use format_print::Printed;
use season_rule::Report;

// The report, or the refusal's two lines; 7 where that does not fit.
pub fn print_answer(verdict: Verdict, report: Report, out: &mut [u8]) -> Printed
    ensures value { result ≡ printed (answer_text verdict report) out.old }
    ensures out_value { out.new ≡ printed_out (answer_text verdict report) out.old }
{
    match verdict {
        Verdict::Refused { number, place } => format_print::print_refusal(number, place, out),
        Verdict::Fine => season_core::print_report(report, out),
    }
}

// The same: how many bytes of the buffer are printed, 0 where it does not fit.
pub fn print_bytes(verdict: Verdict, report: Report, out: &mut [u8]) -> usize
    ensures value { result ≡ printed_bytes (answer_text verdict report) out.old }
    ensures out_value { out.new ≡ printed_out (answer_text verdict report) out.old }
{
    let answer = print_answer(verdict, report, out);
    let Printed::Length(n) = answer else {
        return 0;
    };
    n
}
