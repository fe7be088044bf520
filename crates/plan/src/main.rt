// Reads a survey's text on standard input and prints its plan, or the two lines of a refusal. All between reading and
// writing is `text_plan::plan_whole`; a text longer than the buffer has the output of its first bytes
// (`output_first_bytes`). Where the plan's figures show it, and the plan could be written, it says on standard error
// that no cheaper plan exists (`format_plan::remark`).
#![tactic(auto)]

ghost use Rattle.std.specs.Prelude.{◌≡◌, OnOk, length};
ghost use Rattle.base_limits.specs.Limits.{survey_room};
ghost use Rattle.text_plan.specs.Output.{plan_output};
ghost use Rattle.format_plan.specs.Remark.{remark_on};
ghost use Rattle.program_io.specs.Prints.{Prints};

use base_limits::SURVEY_ROOM;
use std::io;
use std::io::{Read, Write};

// Bytes for every survey's text.
fn room() -> [u8; SURVEY_ROOM]
    ensures { length result ≡ survey_room }
{
    [0; SURVEY_ROOM]
}

// What the program does, from its input to its outputs.
fn run<R: Read, W: Write, E: Write>(input: &mut R, output: &mut W, errors: &mut E) -> io::Result<()>
    ensures output { OnOk result (Prints survey_room plan_output (R.remaining input.old) (W.contents output.old) (W.contents output.new)) }
    ensures errors { OnOk result (Prints survey_room (λ t. remark_on (plan_output t) 0) (R.remaining input.old) (E.contents errors.old) (E.contents errors.new)) }
{
    let mut bytes = room();
    let got = program_io::read_full(input, &mut bytes)?;
    let mut out = format_print::plan_buffer();
    let printed = text_plan::plan_whole(&bytes[..got], &mut out);
    let said = format_plan::remark::remark(&out[..printed], 0);
    let line = format_plan::remark::REMARK;
    output.write_all(&out[..printed])?;
    errors.write_all(&line[..said])
}

fn main(rt: HostRuntime) -> io::Result<()> {
    run(&mut rt.stdin(), &mut rt.stdout(), &mut rt.stderr())
}
