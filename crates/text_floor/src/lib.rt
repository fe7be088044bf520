// A survey's text in, the floor, the plan's cost and the gap between them out: what the program `floor` does between
// reading and writing.
#![tactic(auto)]

ghost use Rattle.std.specs.Prelude.{◌≡◌};
ghost use Rattle.format_print.specs.Print.{printed, printed_out};
ghost use Rattle.text_floor.specs.Output.{floor_output};

use crate::survey::floor_survey;
use base_limits::{MAX_EDGES, MAX_PAIRS, MAX_VERTICES};
use format_print::Printed;
use format_survey::Reading;

mod gap;
mod print;
mod survey;

// Prints the floor of the survey that a text says, or the two lines of the refusal of reading or of the call; 7 where
// that does not fit.
pub fn floor_text(text: &[u8], out: &mut [u8]) -> Printed
    ensures value { result ≡ printed (floor_output text.now) out.old }
    ensures out_value { out.new ≡ printed_out (floor_output text.now) out.old }
{
    let mut groups = [0u8; MAX_VERTICES];
    let mut firsts = [0u32; MAX_EDGES];
    let mut seconds = [0u32; MAX_EDGES];
    let mut weights = [0u32; MAX_EDGES];
    let mut owners = [0u32; MAX_PAIRS];
    let mut others = [0u8; MAX_PAIRS];
    match format_survey::read(
        text,
        &mut groups,
        &mut firsts,
        &mut seconds,
        &mut weights,
        &mut owners,
        &mut others,
    ) {
        Reading::Refused { number, place } => format_print::print_refusal(number, place, out),
        Reading::Survey {
            vertices,
            edges,
            pairs,
        } => floor_survey(
            &groups[0..vertices],
            &firsts[0..edges],
            &seconds[0..edges],
            &weights[0..edges],
            &owners[0..pairs],
            &others[0..pairs],
            out,
        ),
    }
}
