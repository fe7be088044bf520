// Reads a survey's text on standard input and a track number as its argument, and prints why the track has its mark, or
// the two lines of a refusal; nothing where the argument is no track number. All between reading and writing is
// `text_why::why_whole`; a longer text has the output of its first bytes (`why_first_bytes`).
#![tactic(auto)]

ghost use Rattle.std.specs.Prelude.{◌≡◌, OnOk, length};
ghost use Rattle.base_limits.specs.Limits.{survey_room};
ghost use Rattle.text_why.specs.Output.{why_output};
ghost use Rattle.program_io.specs.Prints.{Prints};

use base_limits::{COUNT_DIGITS, SURVEY_ROOM};
use format_read::Number;
use std::io;
use std::io::{Read, Write};
use std::rt::Env;

// What is said on standard error where the argument is no track number.
const USAGE: [u8; 64] = *b"why: give a track number as the one argument, a survey as input\n";

// Bytes for every survey's text.
fn room() -> [u8; SURVEY_ROOM]
    ensures { length result ≡ survey_room }
{
    [0; SURVEY_ROOM]
}

// Reads the survey and prints why this track has its mark.
fn answer<R: Read, W: Write>(input: &mut R, output: &mut W, track: usize) -> io::Result<()>
    ensures { OnOk result (Prints survey_room (λ t. why_output t track) (R.remaining input.old) (W.contents output.old) (W.contents output.new)) }
{
    let mut bytes = room();
    let got = program_io::read_full(input, &mut bytes)?;
    let mut out = format_why::why_buffer();
    let printed = text_why::why_whole(&bytes[..got], track, &mut out);
    output.write_all(&out[..printed])
}

// The track that the one argument says. An argument that is longer than a track number can be counts as none.
fn track_asked<V: Env>(arguments: &V) -> Option<usize> {
    let mut word = [0u8; COUNT_DIGITS];
    let got = program_io::argument(arguments, 1, &mut word);
    let said = text_why::track_number(&word[..got]);
    let Number::Value { value, next: _ } = said else {
        return None;
    };
    if program_io::argument_count(arguments, 3) != 2 {
        return None;
    }
    Some(value as usize)
}

fn main(rt: HostRuntime) -> io::Result<()> {
    match track_asked(&rt) {
        Some(track) => answer(&mut rt.stdin(), &mut rt.stdout(), track),
        None => rt.stderr().write_all(&USAGE),
    }
}
