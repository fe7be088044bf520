// Reads two survey texts, one after the other, and the tie lines behind them on standard input, and prints the text of
// the one survey that they become, or the two lines of a refusal. All between reading and writing is
// `text_merge::merge_text`. More bytes than two surveys and their ties can have are not read.
#![tactic(auto)]

ghost use Rattle.std.specs.Prelude.{◌*◌, OnOk};
ghost use Rattle.base_limits.specs.Limits.{survey_room};
ghost use Rattle.text_merge.specs.Output.{merge_output};
ghost use Rattle.program_io.specs.Prints.{PrintsWithin};

use base_limits::SURVEY_ROOM;
use format_print::Printed;
use program_io::Answers;
use std::io;
use std::io::{Read, Write};

// Bytes for the texts of two surveys, and as many for the ties.
const ROOM: usize = 3 * SURVEY_ROOM;

struct Merge;

impl Answers for Merge {
    ghost output = { merge_output };

    fn answer(text: &[u8], out: &mut [u8]) -> Printed {
        text_merge::merge_text(text, out)
    }
}

// What the program does, from its input to its output.
fn run<R: Read, W: Write>(input: &mut R, output: &mut W) -> io::Result<()>
    ensures { OnOk result (PrintsWithin (3 * survey_room) merge_output survey_room (R.remaining input.old) (W.contents output.old) (W.contents output.new)) }
{
    program_io::answer_input::<Merge, R, W, ROOM, SURVEY_ROOM>(input, output)
}

fn main(rt: HostRuntime) -> io::Result<()> {
    run(&mut rt.stdin(), &mut rt.stdout())
}
