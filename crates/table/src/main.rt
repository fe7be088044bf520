// Without an argument: reads a survey text on standard input and writes its track table, twelve bytes a track. With
// `pack` or `unpack`: reads such a table, or a packed one, and writes the other. All between reading and writing is
// `text_table::survey_table`, `format_table::pack_table` and `format_table::unpack_table`. A refusal's two lines go to
// standard error, since every byte may stand in a table; then nothing is written to standard output. A text longer
// than the buffer has the table of its first bytes (`table_first_bytes`); a table longer than every survey's is 7.
#![tactic(auto)]

ghost use Rattle.std.specs.Prelude.{◌≡◌, ◌+◌, length};
ghost use Rattle.base_limits.specs.Limits.{survey_room};
ghost use Rattle.format_table.specs.Table.{track_bytes};
ghost use Rattle.text_table.specs.TrackTable.{table_room};

use base_limits::{SURVEY_ROOM, Verdict, WORD_DIGITS};
use format_print::Printed;
use format_table::TRACK_BYTES;
use std::io;
use std::io::{Read, Write};
use std::rt::Env;
use text_table::TABLE_ROOM;

// What is said on standard error where the argument is another.
const USAGE: [u8; 67] = *b"table: give no argument with a survey, pack or unpack with a table\n";

const PACK: [u8; 4] = *b"pack";

const UNPACK: [u8; 6] = *b"unpack";

// Bytes of a refusal's two lines: their keys and ends, and two numbers.
const REFUSAL_ROOM: usize = 16 + 2 * WORD_DIGITS;

// Bytes for every survey's table, and one track more, by which a longer one is known.
const TABLE_INPUT: usize = TABLE_ROOM + TRACK_BYTES;

// Bytes for every survey's text.
fn survey_room() -> [u8; SURVEY_ROOM]
    ensures { length result ≡ survey_room }
{
    [0; SURVEY_ROOM]
}

// Bytes for every survey's table.
fn table_room() -> [u8; TABLE_ROOM]
    ensures { length result ≡ table_room }
{
    [0; TABLE_ROOM]
}

// Bytes for a table that is read.
fn table_input() -> [u8; TABLE_INPUT]
    ensures { length result ≡ table_room + track_bytes }
{
    [0; TABLE_INPUT]
}

// Writes the first n of these bytes.
fn write_first<W: Write>(output: &mut W, bytes: &[u8], n: usize) -> io::Result<()> {
    output.write_all(&bytes[..n.min(bytes.len())])
}

// Writes a refusal's two lines to standard error.
fn write_refusal<E: Write>(errors: &mut E, number: u64, place: usize) -> io::Result<()> {
    let mut lines = [0u8; REFUSAL_ROOM];
    let said = format_print::print_refusal(number, place, &mut lines);
    let Printed::Length(n) = said else {
        return Ok(());
    };
    write_first(errors, &lines, n)
}

// A survey's text in, its table out.
fn write_survey_table<R: Read, W: Write, E: Write>(
    input: &mut R,
    output: &mut W,
    errors: &mut E,
) -> io::Result<()> {
    let mut bytes = survey_room();
    let got = program_io::read_full(input, &mut bytes)?;
    let mut table = table_room();
    let said = text_table::survey_table(&bytes[..got], &mut table);
    match said {
        Printed::Length(n) => write_first(output, &table, n),
        Printed::Refused { number, place } => write_refusal(errors, number, place),
    }
}

// A table in, what a function makes of it out: the packed one, or the table of a packed one.
fn write_turned<R: Read, W: Write, E: Write, F: FnOnce(&[u8], &mut [u8]) -> Verdict>(
    input: &mut R,
    output: &mut W,
    errors: &mut E,
    turn: F,
) -> io::Result<()>
    requires { F.IsAlwaysCallable turn }
{
    let mut bytes = table_input();
    let got = program_io::read_full(input, &mut bytes)?;
    let mut table = table_room();
    match turn(&bytes[..got], &mut table) {
        Verdict::Fine => write_first(output, &table, got),
        Verdict::Refused { number, place } => write_refusal(errors, number, place),
    }
}

// What is done with the input.
#[derive(Clone, Copy)]
enum Task {
    SurveyTable,
    Pack,
    Unpack,
}

// The task that the arguments name.
fn task_asked<V: Env>(arguments: &V) -> Option<Task> {
    let count = program_io::argument_count(arguments, 3);
    if count == 1 {
        return Some(Task::SurveyTable);
    }
    if count != 2 {
        return None;
    }
    let mut argument = [0u8; 8];
    let got = program_io::argument(arguments, 1, &mut argument);
    if argument[..got] == PACK[..] {
        return Some(Task::Pack);
    }
    if argument[..got] == UNPACK[..] {
        return Some(Task::Unpack);
    }
    None
}

fn main(rt: HostRuntime) -> io::Result<()> {
    match task_asked(&rt) {
        Some(Task::SurveyTable) => write_survey_table(
            &mut rt.stdin(),
            &mut rt.stdout(),
            &mut rt.stderr(),
        ),
        Some(Task::Pack) => write_turned(
            &mut rt.stdin(),
            &mut rt.stdout(),
            &mut rt.stderr(),
            |table, out| format_table::pack_table(table, out),
        ),
        Some(Task::Unpack) => write_turned(
            &mut rt.stdin(),
            &mut rt.stdout(),
            &mut rt.stderr(),
            |table, out| format_table::unpack_table(table, out),
        ),
        None => rt.stderr().write_all(&USAGE),
    }
}
