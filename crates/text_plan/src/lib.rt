// What `plan` prints for a text: a survey's text in, its plan's text or the two lines of a refusal out. Definitions in
// specs/Output. `plan_text` answers the length for any buffer, `plan_whole` for one that always holds it.
#![tactic(auto)]

ghost use Rattle.std.specs.Prelude.{◌≡◌, ◌++◌, ◌≤◌, length, drop};
ghost use Rattle.base_limits.specs.Limits.{plan_room};
ghost use Rattle.format_print.specs.Print.{printed, printed_out};
ghost use Rattle.text_plan.specs.Output.{plan_output};

use crate::survey::plan_survey;
use base_limits::{MAX_EDGES, MAX_PAIRS, MAX_VERTICES, PLAN_ROOM};
use format_print::Printed;
use format_survey::Reading;

mod print;
mod survey;

// Prints the plan of the survey that a text says, or the two lines of the refusal of reading or planning; 7 where that
// does not fit. A buffer of `PLAN_ROOM` bytes always holds it.
pub fn plan_text(text: &[u8], out: &mut [u8]) -> Printed
    ensures value { result ≡ printed (plan_output text.now) out.old }
    ensures out_value { out.new ≡ printed_out (plan_output text.now) out.old }
    ensures fits { length (plan_output text.now) ≤ plan_room }
{
    let mut groups = [0u8; MAX_VERTICES];
    let mut firsts = [0u32; MAX_EDGES];
    let mut seconds = [0u32; MAX_EDGES];
    let mut weights = [0u32; MAX_EDGES];
    let mut owners = [0u32; MAX_PAIRS];
    let mut others = [0u8; MAX_PAIRS];
    match format_survey::read(
        text,
        &mut groups,
        &mut firsts,
        &mut seconds,
        &mut weights,
        &mut owners,
        &mut others,
    ) {
        Reading::Refused { number, place } => format_print::print_refusal(number, place, out),
        Reading::Survey {
            vertices,
            edges,
            pairs,
        } => plan_survey(
            &groups[0..vertices],
            &firsts[0..edges],
            &seconds[0..edges],
            &weights[0..edges],
            &owners[0..pairs],
            &others[0..pairs],
            out,
        ),
    }
}

// The same into a buffer that always holds it: the number of bytes printed, and no refusal. 7 cannot come, so that 0 is
// never answered.
pub fn plan_whole(text: &[u8], out: &mut [u8; PLAN_ROOM]) -> usize
    ensures value { result ≡ length (plan_output text.now) }
    ensures out_value { out.new ≡ plan_output text.now ++ drop (length (plan_output text.now)) out.old }
    ensures fits { result ≤ length out.new }
{
    let answer = plan_text(text, out);
    let Printed::Length(n) = answer else {
        return 0;
    };
    n
}
