// Reads a survey text and the printed plan behind it on standard input, and prints what the plan is worth: `passed`,
// terminals, cost and bound as the checker finds them, or the refusal. All between reading and writing is
// `text_verify::verify_whole`; a text longer than the buffer does not pass (`passed_cut`). Where the figures show it,
// and could be written, it says on standard error that no cheaper plan exists (`format_plan::remark`).
#![tactic(auto)]

ghost use Rattle.std.specs.Prelude.{◌≡◌, OnOk, length};
ghost use Rattle.base_limits.specs.Limits.{verify_room};
ghost use Rattle.text_verify.specs.Output.{verify_output};
ghost use Rattle.format_plan.specs.Remark.{remark_on};
ghost use Rattle.program_io.specs.Prints.{Prints};

use base_limits::VERIFY_ROOM;
use std::io;
use std::io::{Read, Write};

// Bytes for every survey's text with a plan's behind it.
fn room() -> [u8; VERIFY_ROOM]
    ensures { length result ≡ verify_room }
{
    [0; VERIFY_ROOM]
}

// What the program does, from its input to its outputs.
fn run<R: Read, W: Write, E: Write>(input: &mut R, output: &mut W, errors: &mut E) -> io::Result<()>
    ensures output { OnOk result (Prints verify_room verify_output (R.remaining input.old) (W.contents output.old) (W.contents output.new)) }
    ensures errors { OnOk result (Prints verify_room (λ t. remark_on (verify_output t) 7) (R.remaining input.old) (E.contents errors.old) (E.contents errors.new)) }
{
    let mut bytes = room();
    let got = program_io::read_full(input, &mut bytes)?;
    let mut out = text_verify::findings_buffer();
    let printed = text_verify::verify_whole(&bytes[..got], &mut out);
    let said = format_plan::remark::remark(&out[..printed], text_verify::FIGURES_FROM);
    let line = format_plan::remark::REMARK;
    output.write_all(&out[..printed])?;
    errors.write_all(&line[..said])
}

fn main(rt: HostRuntime) -> io::Result<()> {
    run(&mut rt.stdin(), &mut rt.stdout(), &mut rt.stderr())
}
