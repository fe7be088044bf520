// Asks why a track of a survey has its mark, and prints the answer.
ghost use Rattle.std.specs.Prelude.{◌≡◌, ◌≤◌, length};
ghost use Rattle.base_limits.specs.Limits.{why_room};
ghost use Rattle.survey_core.specs.Survey.{lent_with};
ghost use Rattle.format_print.specs.Print.{printed, printed_out};
ghost use Rattle.text_why.specs.Output.{survey_lines};

use crate::print::print_why;
use base_limits::MAX_ROUTE;
use format_print::Printed;

// Prints why a track of a survey has its mark, or the refusal's two lines.
pub fn why_survey(
    groups: &[u8],
    firsts: &[u32],
    seconds: &[u32],
    weights: &[u32],
    owners: &[u32],
    others: &[u8],
    track: usize,
    out: &mut [u8],
) -> Printed
    ensures result_value { let s = lent_with groups.now firsts.now seconds.now weights.now owners.now others.now in
        result ≡ printed (survey_lines s track) out.old }
    ensures out_value { let s = lent_with groups.now firsts.now seconds.now weights.now owners.now others.now in
        out.new ≡ printed_out (survey_lines s track) out.old }
    ensures fits { let s = lent_with groups.now firsts.now seconds.now weights.now owners.now others.now in
        length (survey_lines s track) ≤ why_room }
{
    let mut route = [0u32; MAX_ROUTE];
    let asked = track as u64;
    let told = why_core::why(
        groups, firsts, seconds, weights, owners, others, track, &mut route,
    );
    print_why(told, asked, &route, out)
}
