// Reads a survey text on standard input and track numbers as its arguments, and prints for each track the cost and the
// bound of the plan in which it is closed, or why there is none; or the two lines of a refusal. All between reading and
// writing is `text_closed::closed_text`. Where an argument is no track number, or there is none or more than 256,
// nothing is printed.
#![tactic(auto)]

ghost use Rattle.std.specs.Prelude.{◌≡◌, ◌≤◌, IfSome, OnOk, length};
ghost use Rattle.base_limits.specs.Limits.{survey_room};
ghost use Rattle.text_closed.specs.Output.{closed_output};
ghost use Rattle.program_io.specs.Prints.{PrintsWithin};

use base_limits::{COUNT_DIGITS, SURVEY_ROOM};
use closed_rule::MAX_CLOSED;
use format_read::Number;
use std::io;
use std::io::{Read, Write};
use std::rt::Env;

// What is said on standard error where the arguments are no track numbers.
const USAGE: [u8; 73] =
    *b"closed: give up to 256 track numbers as the arguments, a survey as input\n";

// Bytes that hold the lines of 256 tracks: 78 for each.
const LINES_ROOM: usize = 20480;

// Bytes for every survey's text.
fn room() -> [u8; SURVEY_ROOM]
    ensures { length result ≡ survey_room }
{
    [0; SURVEY_ROOM]
}

// Reads the survey and prints the lines of these tracks.
fn answer<R: Read, W: Write>(input: &mut R, output: &mut W, tracks: &[u32]) -> io::Result<()>
    ensures { OnOk result (PrintsWithin survey_room (λ t. closed_output t tracks.now) 20480 (R.remaining input.old) (W.contents output.old) (W.contents output.new)) }
{
    let mut bytes = room();
    let got = program_io::read_full(input, &mut bytes)?;
    let mut out = [0u8; LINES_ROOM];
    let told = text_closed::closed_text(&bytes[..got], tracks, &mut out);
    program_io::write_printed(told, &out, output)
}

// The track number that an argument says; one that is longer than a track number can be says none.
fn track_of<V: Env>(arguments: &V, i: usize) -> Number {
    let mut word = [0u8; COUNT_DIGITS];
    let got = program_io::argument(arguments, i, &mut word);
    text_why::track_number(&word[..got])
}

// As a number of 32 bits; no track number has more.
fn narrow(value: u64) -> u32 {
    value.min(4294967295) as u32
}

// Puts the tracks that the arguments say at the start and says how many they are. There are none where an argument is no
// track number, or where there are no arguments or more than 256.
fn tracks_asked<V: Env>(arguments: &V, tracks: &mut [u32; MAX_CLOSED]) -> Option<usize>
    ensures { IfSome result (λ n. n ≤ length tracks.new) }
{
    let count = program_io::argument_count(arguments, MAX_CLOSED + 2);
    if count < 2 {
        return None;
    }
    if MAX_CLOSED + 1 < count {
        return None;
    }
    for i in 1..count {
        let said = track_of(arguments, i);
        let Number::Value { value, next: _ } = said else {
            return None;
        };
        base_buffer::put(tracks, i - 1, narrow(value));
    }
    Some(count - 1)
}

fn main(rt: HostRuntime) -> io::Result<()> {
    let mut tracks = [0u32; MAX_CLOSED];
    match tracks_asked(&rt, &mut tracks) {
        Some(n) => answer(&mut rt.stdin(), &mut rt.stdout(), &tracks[..n]),
        None => rt.stderr().write_all(&USAGE),
    }
}
