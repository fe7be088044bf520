// What `stp` prints for an STP text: our own survey text, or the two lines of a refusal. Definitions in
// specs/StpOutput. `stp_text` answers the length for any buffer, `stp_whole` for one that always holds it.
#![tactic(auto)]

ghost use Rattle.std.specs.Prelude.{◌≡◌, ◌++◌, ◌≤◌, length, drop};
ghost use Rattle.base_limits.specs.Limits.{survey_room};
ghost use Rattle.format_print.specs.Print.{printed, printed_out};
ghost use Rattle.text_stp.specs.StpOutput.{stp_output};

use crate::cut::judge;
use crate::print::print_read;
use base_buffer::at_most;
use base_limits::{MAX_EDGES, MAX_VERTICES, SURVEY_ROOM};
use format_print::Printed;

mod cut;
mod print;

// Bytes of a text that is read, at most: a comment of 1 MiB, which is sixteen times a survey's room, and once that room
// for the rest.
pub const STP_ROOM: usize = 17 * SURVEY_ROOM;

// One more, by which a longer text is known.
pub const STP_INPUT: usize = STP_ROOM + 1;

// Prints the survey that an STP text says, or the two lines of the refusal of reading. Of a longer text the first
// `STP_ROOM` bytes are read, and it is refused with 7 where nothing is refused before their end. 7 is answered where
// what is printed does not fit; a buffer of `SURVEY_ROOM` bytes always holds it.
pub fn stp_text(text: &[u8], out: &mut [u8]) -> Printed
    ensures value { result ≡ printed (stp_output text.now) out.old }
    ensures out_value { out.new ≡ printed_out (stp_output text.now) out.old }
    ensures fits { length (stp_output text.now) ≤ survey_room }
{
    let n = at_most(STP_ROOM, text.len());
    let mut groups = [0u8; MAX_VERTICES];
    let mut firsts = [0u32; MAX_EDGES];
    let mut seconds = [0u32; MAX_EDGES];
    let mut weights = [0u32; MAX_EDGES];
    let read = format_stp::read_stp(
        &text[0..n],
        &mut groups,
        &mut firsts,
        &mut seconds,
        &mut weights,
    );
    let said = judge(read, text.len());
    print_read(said, &groups, &firsts, &seconds, &weights, out)
}

// The same into a buffer that always holds it: the number of bytes printed, and no refusal. 7 cannot come, so that 0 is
// never answered.
pub fn stp_whole(text: &[u8], out: &mut [u8; SURVEY_ROOM]) -> usize
    ensures value { result ≡ length (stp_output text.now) }
    ensures out_value { out.new ≡ stp_output text.now ++ drop (length (stp_output text.now)) out.old }
    ensures fits { result ≤ length out.new }
{
    let answer = stp_text(text, out);
    let Printed::Length(n) = answer else {
        return 0;
    };
    n
}
