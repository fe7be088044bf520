// Reads a survey's text with strength lines behind it on standard input, and prints the total price and the copies of
// each track that is copied, or the two lines of a refusal. All between reading and writing is
// `text_winter::winter_text`.
#![tactic(auto)]

ghost use Rattle.std.specs.Prelude.{◌*◌, OnOk};
ghost use Rattle.base_limits.specs.Limits.{survey_room};
ghost use Rattle.text_winter.specs.Output.{winter_output};
ghost use Rattle.program_io.specs.Prints.{PrintsWithin};

use base_limits::SURVEY_ROOM;
use format_print::Printed;
use program_io::Answers;
use std::io;
use std::io::{Read, Write};

// Bytes that are read: more than every text that is accepted has, which is a survey's and 17 for each of 255 lines.
const INPUT_ROOM: usize = 2 * SURVEY_ROOM;

// Bytes that hold the lines of 2,048 tracks: 15 for each, and the price.
const LINES_ROOM: usize = 32768;

struct Winter;

impl Answers for Winter {
    ghost output = { winter_output };

    fn answer(text: &[u8], out: &mut [u8]) -> Printed {
        text_winter::winter_text(text, out)
    }
}

// What the program does, from its input to its output.
fn run<R: Read, W: Write>(input: &mut R, output: &mut W) -> io::Result<()>
    ensures { OnOk result (PrintsWithin (2 * survey_room) winter_output 32768 (R.remaining input.old) (W.contents output.old) (W.contents output.new)) }
{
    program_io::answer_input::<Winter, R, W, INPUT_ROOM, LINES_ROOM>(input, output)
}

fn main(rt: HostRuntime) -> io::Result<()> {
    run(&mut rt.stdin(), &mut rt.stdout())
}
