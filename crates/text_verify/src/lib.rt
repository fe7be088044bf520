// What `verify` prints for a survey's text with a plan's behind it: `passed` with the figures, or the two lines of a
// refusal. Definitions in specs/Output. `verify_text` answers the length for any buffer, `verify_whole` for one that
// always holds it.
#![tactic(auto)]

ghost use Rattle.std.specs.Prelude.{◌≡◌, ◌++◌, ◌≤◌, length, drop};
ghost use Rattle.format_print.specs.Print.{printed, printed_out};
ghost use Rattle.text_verify.specs.Output.{findings_room, verify_output};

use crate::print::print_findings;
use base_limits::WORD_DIGITS;
use format_print::Printed;

mod findings;
mod print;

// Bytes that hold whatever is printed: 24 for `passed`, its newline and three keys, and three numbers with their
// newlines.
pub const FINDINGS_ROOM: usize = 24 + 3 * (WORD_DIGITS + 1);

// Where the figures of a plan that passes begin: behind `passed` and its newline.
pub const FIGURES_FROM: usize = 7;

// Checks a survey text with a printed plan behind it and prints `passed`, sites, cost and bound, or the refusal's two
// lines; 7 where that does not fit. A buffer of `FINDINGS_ROOM` bytes always holds it.
pub fn verify_text(text: &[u8], out: &mut [u8]) -> Printed
    ensures value { result ≡ printed (verify_output text.now) out.old }
    ensures out_value { out.new ≡ printed_out (verify_output text.now) out.old }
    ensures fits { length (verify_output text.now) ≤ findings_room }
{
    let found = check_printed::verify(text);
    print_findings(found, out)
}

// The same into a buffer that always holds it: the number of bytes printed, and no refusal. 7 cannot come, so that 0 is
// never answered.
pub fn verify_whole(text: &[u8], out: &mut [u8; FINDINGS_ROOM]) -> usize
    ensures value { result ≡ length (verify_output text.now) }
    ensures out_value { out.new ≡ verify_output text.now ++ drop (length (verify_output text.now)) out.old }
    ensures fits { result ≤ length out.new }
{
    let answer = verify_text(text, out);
    let Printed::Length(n) = answer else {
        return 0;
    };
    n
}

// A buffer of this size.
pub fn findings_buffer() -> [u8; FINDINGS_ROOM]
    ensures { length result ≡ findings_room }
{
    [0; FINDINGS_ROOM]
}
