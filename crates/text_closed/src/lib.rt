// A survey's text and a list of tracks in, the rows of their closing out: what the program `closed` does between
// reading and writing.
#![tactic(auto)]

ghost use Rattle.std.specs.Prelude.{◌≡◌};
ghost use Rattle.format_print.specs.Print.{printed, printed_out};
ghost use Rattle.text_closed.specs.Output.{closed_output};

use crate::survey::closed_survey;
use base_limits::{MAX_EDGES, MAX_PAIRS, MAX_VERTICES};
use format_print::Printed;
use format_survey::Reading;

mod survey;

// Prints a line for each track of a list, of the survey that a text says, or the two lines of the refusal of reading or
// of the call; 7 where that does not fit.
pub fn closed_text(text: &[u8], tracks: &[u32], out: &mut [u8]) -> Printed
    ensures value { result ≡ printed (closed_output text.now tracks.now) out.old }
    ensures out_value { out.new ≡ printed_out (closed_output text.now tracks.now) out.old }
{
    let mut groups = [0u8; MAX_VERTICES];
    let mut firsts = [0u32; MAX_EDGES];
    let mut seconds = [0u32; MAX_EDGES];
    let mut weights = [0u32; MAX_EDGES];
    let mut owners = [0u32; MAX_PAIRS];
    let mut others = [0u8; MAX_PAIRS];
    match format_survey::read(
        text,
        &mut groups,
        &mut firsts,
        &mut seconds,
        &mut weights,
        &mut owners,
        &mut others,
    ) {
        Reading::Refused { number, place } => format_print::print_refusal(number, place, out),
        Reading::Survey {
            vertices,
            edges,
            pairs,
        } => closed_survey(
            &groups[0..vertices],
            &firsts[0..edges],
            &seconds[0..edges],
            &weights[0..edges],
            &owners[0..pairs],
            &others[0..pairs],
            tracks,
            out,
        ),
    }
}
