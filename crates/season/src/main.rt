// Reads survey texts, one after the other, on standard input and prints the report over their surveys; or the two lines
// of the refusal of the first text that reading refuses, with the place in that text, or of a 1,001st survey (3), and
// nothing else. What is done with each text is `text_season::add_text`.
#![tactic(auto)]

ghost use Rattle.std.specs.Prelude.{◌≡◌, ◌*◌, length};
ghost use Rattle.base_limits.specs.Limits.{survey_room};

use base_limits::{SURVEY_ROOM, Verdict};
use season_rule::{MAX_SURVEYS, REPORT_ROOM};
use std::io;
use std::io::{Read, Write};
use text_season::TextAdded;

// Bytes that are held: a text that begins in the first half ends within them.
const ROOM: usize = 2 * SURVEY_ROOM;

fn room() -> [u8; ROOM]
    ensures { length result ≡ 2 * survey_room }
{
    [0; ROOM]
}

// The bytes that are held and not used yet: from an offset on, up to another.
#[derive(Drop)]
struct Window {
    at: usize,
    held: usize,
}

// Moves these bytes to the front and reads behind them.
fn refill<R: Read>(reader: &mut R, input: &mut [u8], at: usize, held: usize) -> io::Result<Window> {
    let from = at.min(held);
    let left = held - from;
    text_season::to_front(input, from);
    let n = input.len();
    let kept = left.min(n);
    let got = program_io::read_full(reader, &mut input[kept..n])?;
    let more = got.min(n - kept);
    Ok(Window {
        at: 0,
        held: kept + more,
    })
}

// The same where the first half is used and there may be more to read: the last reading has filled the buffer.
fn advance<R: Read>(
    reader: &mut R,
    input: &mut [u8],
    at: usize,
    held: usize,
) -> io::Result<Window> {
    if at < SURVEY_ROOM {
        return Ok(Window { at, held });
    }
    if held < input.len() {
        return Ok(Window { at, held });
    }
    refill(reader, input, at, held)
}

// Adds text after text to the report, up to the end of the input or the first refusal.
fn collect<R: Read>(reader: &mut R, input: &mut [u8]) -> io::Result<TextAdded> {
    let mut report = season_core::empty_report();
    let mut held = program_io::read_full(reader, input)?;
    let mut at = 0;
    for _ in 0..=MAX_SURVEYS {
        let end = held.min(input.len());
        let start = at.min(end);
        if end <= start {
            break;
        }
        let added = text_season::add_text(report, &input[start..end]);
        let verdict = added.verdict;
        let Verdict::Fine = verdict else {
            return Ok(added);
        };
        report = added.report;
        let used = added.used.min(end - start);
        let window = advance(reader, input, start + used, end)?;
        at = window.at;
        held = window.held;
    }
    Ok(TextAdded {
        verdict: Verdict::Fine,
        used: 0,
        report,
    })
}

// What the program does, from its input to its output.
fn run<R: Read, W: Write>(input: &mut R, output: &mut W) -> io::Result<()> {
    let mut bytes = room();
    let added = collect(input, &mut bytes)?;
    let verdict = added.verdict;
    let report = added.report;
    let mut out = [0u8; REPORT_ROOM];
    let printed = text_season::print_bytes(verdict, report, &mut out);
    output.write_all(&out[0..printed])
}

fn main(rt: HostRuntime) -> io::Result<()> {
    run(&mut rt.stdin(), &mut rt.stdout())
}
