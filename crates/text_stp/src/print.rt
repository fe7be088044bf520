// Prints what reading an STP text answers: the survey that it left in four buffers, or the refusal's two lines.
ghost use Rattle.std.specs.Prelude.{◌≡◌};
ghost use Rattle.format_stp.specs.Answer.{stp_answer};
ghost use Rattle.text_stp.specs.Stored.{stored_printed, stored_printed_out, StoredWords};

use base_buffer::at_most;
use format_print::Printed;
use format_stp::StpRead;

// Prints the answer: the survey, of the first groups and tracks, or the refusal's two lines.
pub fn print_read(
    read: StpRead,
    groups: &[u8],
    firsts: &[u32],
    seconds: &[u32],
    weights: &[u32],
    out: &mut [u8],
) -> Printed
    ensures value { result ≡ stored_printed (stp_answer read) groups.now firsts.now seconds.now weights.now out.old }
    ensures out_value { let answer = stp_answer read in
        out.new ≡ stored_printed_out answer groups.now firsts.now seconds.now weights.now out.old }
    ensures words { StoredWords (stp_answer read) }
{
    match read {
        StpRead::Refused { number, place } => format_print::print_refusal(number, place, out),
        StpRead::Survey { vertices, edges } => {
            let n = at_most(vertices, groups.len());
            let f = at_most(edges, firsts.len());
            let s = at_most(edges, seconds.len());
            let w = at_most(edges, weights.len());
            format_survey_print::print_survey(
                &groups[0..n],
                &firsts[0..f],
                &seconds[0..s],
                &weights[0..w],
                &[],
                &[],
                out,
            )
        }
    }
}
