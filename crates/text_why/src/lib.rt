// What `why` prints for a text and a track: the reason's text, or the two lines of a refusal. Definitions in
// specs/Output. `why_text` answers the length for any buffer, `why_whole` for one that always holds it; `track_number`
// reads the argument.
#![tactic(auto)]

ghost use Rattle.std.specs.Prelude.{◌≡◌, ◌++◌, ◌≤◌, length, drop};
ghost use Rattle.base_limits.specs.Limits.{why_room};
ghost use Rattle.format_print.specs.Print.{printed, printed_out};
ghost use Rattle.text_why.specs.Output.{why_output};

use crate::survey::why_survey;
use base_limits::{MAX_EDGES, MAX_PAIRS, MAX_VERTICES, WHY_ROOM};
use format_print::Printed;
use format_survey::Reading;

mod print;
mod survey;
mod track;

pub use track::track_number;

// Prints why a track of the survey that a text says has its mark, or the two lines of the refusal of reading or asking;
// 7 where that does not fit. A buffer of `WHY_ROOM` bytes always holds it.
pub fn why_text(text: &[u8], track: usize, out: &mut [u8]) -> Printed
    ensures value { result ≡ printed (why_output text.now track) out.old }
    ensures out_value { out.new ≡ printed_out (why_output text.now track) out.old }
    ensures fits { length (why_output text.now track) ≤ why_room }
{
    let mut groups = [0u8; MAX_VERTICES];
    let mut firsts = [0u32; MAX_EDGES];
    let mut seconds = [0u32; MAX_EDGES];
    let mut weights = [0u32; MAX_EDGES];
    let mut owners = [0u32; MAX_PAIRS];
    let mut others = [0u8; MAX_PAIRS];
    match format_survey::read(
        text,
        &mut groups,
        &mut firsts,
        &mut seconds,
        &mut weights,
        &mut owners,
        &mut others,
    ) {
        Reading::Refused { number, place } => format_print::print_refusal(number, place, out),
        Reading::Survey {
            vertices,
            edges,
            pairs,
        } => why_survey(
            &groups[0..vertices],
            &firsts[0..edges],
            &seconds[0..edges],
            &weights[0..edges],
            &owners[0..pairs],
            &others[0..pairs],
            track,
            out,
        ),
    }
}

// The same into a buffer that always holds it: the number of bytes printed, and no refusal. 7 cannot come, so that 0 is
// never answered.
pub fn why_whole(text: &[u8], track: usize, out: &mut [u8; WHY_ROOM]) -> usize
    ensures value { result ≡ length (why_output text.now track) }
    ensures out_value { out.new ≡ why_output text.now track ++ drop (length (why_output text.now track)) out.old }
    ensures fits { result ≤ length out.new }
{
    let answer = why_text(text, track, out);
    let Printed::Length(n) = answer else {
        return 0;
    };
    n
}
