// Reads a survey's text on standard input and prints a floor under every set of tracks that joins every group, what the
// plan costs, and how far it may be above the cheapest in tenths of a percent; or the two lines of a refusal. All
// between reading and writing is `text_floor::floor_text`.
#![tactic(auto)]

ghost use Rattle.std.specs.Prelude.{OnOk};
ghost use Rattle.base_limits.specs.Limits.{survey_room};
ghost use Rattle.text_floor.specs.Output.{floor_output};
ghost use Rattle.program_io.specs.Prints.{PrintsWithin};

use base_limits::SURVEY_ROOM;
use format_print::Printed;
use program_io::Answers;
use std::io;
use std::io::{Read, Write};

// Bytes that hold three lines with a number each, or a refusal's two.
const LINES_ROOM: usize = 128;

struct Floor;

impl Answers for Floor {
    ghost output = { floor_output };

    fn answer(text: &[u8], out: &mut [u8]) -> Printed {
        text_floor::floor_text(text, out)
    }
}

// What the program does, from its input to its output.
fn run<R: Read, W: Write>(input: &mut R, output: &mut W) -> io::Result<()>
    ensures { OnOk result (PrintsWithin survey_room floor_output 128 (R.remaining input.old) (W.contents output.old) (W.contents output.new)) }
{
    program_io::answer_input::<Floor, R, W, SURVEY_ROOM, LINES_ROOM>(input, output)
}

fn main(rt: HostRuntime) -> io::Result<()> {
    run(&mut rt.stdin(), &mut rt.stdout())
}
