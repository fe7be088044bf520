// The rows of a list of closed tracks of a survey, printed.
ghost use Rattle.std.specs.Prelude.{◌≡◌};
ghost use Rattle.survey_core.specs.Survey.{lent_with};
ghost use Rattle.format_print.specs.Print.{printed, printed_out};
ghost use Rattle.text_closed.specs.Output.{survey_lines};

use base_limits::Verdict;
use closed_rule::{MAX_CLOSED, ROW_FIGURES};
use format_print::Printed;

// Room for every row.
const ROWS_ROOM: usize = ROW_FIGURES * MAX_CLOSED;

// Prints a line for each track, or the refusal's two lines.
pub fn closed_survey(
    groups: &[u8],
    firsts: &[u32],
    seconds: &[u32],
    weights: &[u32],
    owners: &[u32],
    others: &[u8],
    tracks: &[u32],
    out: &mut [u8],
) -> Printed
    ensures result_value { let s = lent_with groups.now firsts.now seconds.now weights.now owners.now others.now in
        result ≡ printed (survey_lines s tracks.now) out.old }
    ensures out_value { let s = lent_with groups.now firsts.now seconds.now weights.now owners.now others.now in
        out.new ≡ printed_out (survey_lines s tracks.now) out.old }
{
    let mut result = [0u64; ROWS_ROOM];
    let found = closed_core::closed(
        groups,
        firsts,
        seconds,
        weights,
        owners,
        others,
        tracks,
        &mut result,
    );
    match found {
        Verdict::Refused { number, place } => format_print::print_refusal(number, place, out),
        Verdict::Fine => format_print::print_rows(tracks, &result, out),
    }
}
