// Reads a SteinLib STP text on standard input and prints the survey that it says, as our own text, or the two lines of
// a refusal. All between reading and writing is `text_stp::stp_whole`. One byte more than the room is read, so that
// a longer text is refused and not cut (`stp_first_bytes`).
#![tactic(auto)]

ghost use Rattle.std.specs.Prelude.{◌≡◌, ◌+◌, OnOk, length};
ghost use Rattle.base_limits.specs.Limits.{survey_room};
ghost use Rattle.text_stp.specs.StpOutput.{stp_room, stp_output};
ghost use Rattle.program_io.specs.Prints.{Prints};

use base_limits::SURVEY_ROOM;
use std::io;
use std::io::{Read, Write};
use text_stp::STP_INPUT;

// Bytes for every text that is read, and one more.
fn room() -> [u8; STP_INPUT]
    ensures { length result ≡ stp_room + 1 }
{
    [0; STP_INPUT]
}

// Bytes for every survey's text.
fn survey_buffer() -> [u8; SURVEY_ROOM]
    ensures { length result ≡ survey_room }
{
    [0; SURVEY_ROOM]
}

// What the program does, from its input to its output.
fn run<R: Read, W: Write>(input: &mut R, output: &mut W) -> io::Result<()>
    ensures { OnOk result (Prints (stp_room + 1) stp_output (R.remaining input.old) (W.contents output.old) (W.contents output.new)) }
{
    let mut bytes = room();
    let got = program_io::read_full(input, &mut bytes)?;
    let mut out = survey_buffer();
    let printed = text_stp::stp_whole(&bytes[..got], &mut out);
    output.write_all(&out[..printed])
}

fn main(rt: HostRuntime) -> io::Result<()> {
    run(&mut rt.stdin(), &mut rt.stdout())
}
