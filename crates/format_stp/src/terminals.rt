// Reads an STP text from the end of its graph on: the terminals, which form group 1, the line EOF and the end.
ghost use Rattle.std.specs.Prelude.{◌≡◌};
ghost use Rattle.format_read.specs.Step.{found, ◌then◌};
ghost use Rattle.format_read.specs.Answer.{number_step};
ghost use Rattle.format_stp.specs.StpWord.{after_empty};
ghost use Rattle.format_stp.specs.StpReading.{terminal_line, terminal_lines};
ghost use Rattle.format_stp.specs.TerminalsAnswer.{groups_step};
ghost use Rattle.format_stp.specs.Terminals.{terminals_from};
ghost use Rattle.format_stp.specs.Terminals.{terminals_to_end, groups_after};

use crate::head::line;
use crate::number::free_number;
use crate::sections::{terminals_announced, terminals_closed};
use base_buffer::put;
use base_limits::{ENDPOINT_DIGITS, MAX_VERTICES};
use format_read::{Cursor, Number};
use format_write::put_bytes;

const TERMINAL: [u8; 2] = *b"T ";

// `T v`, behind empty lines: a vertex that is in no group yet.
fn terminal_line(text: &[u8], cursor: Cursor, vertices: usize, groups: &[u8]) -> Number
    ensures { number_step result ≡ after_empty (terminal_line vertices groups.now) text.now cursor.at }
{
    let word = line(text, cursor, &TERMINAL);
    let Number::Value { value: _, next } = word else {
        return word;
    };
    free_number(text, next, groups, 1, vertices, ENDPOINT_DIGITS, false)
}

// So many lines `T v`; each puts its vertex into group 1.
fn terminal_lines(
    text: &[u8],
    cursor: Cursor,
    vertices: usize,
    count: usize,
    groups: &mut [u8],
) -> Number
    ensures { groups_step result groups.new ≡ terminal_lines vertices count groups.old text.now cursor.at }
{
    let mut next = cursor;
    for _left in (0..count).rev() {
        let step = terminal_line(text, next, vertices, groups);
        let Number::Value { value, next: after } = step else {
            return step;
        };
        put(groups, (value as usize).saturating_sub(1), 1);
        next = after;
    }
    Number::Value { value: 0, next }
}

// From the end of the graph to the end of the text, where the groups are these at the start.
fn terminals_from(text: &[u8], cursor: Cursor, vertices: usize, groups: &mut [u8]) -> Number
    ensures { groups_step result groups.new ≡ terminals_from vertices groups.old text.now cursor.at }
{
    let one = terminals_announced(text, cursor, vertices);
    let Number::Value {
        value: count,
        next: a,
    } = one
    else {
        return one;
    };
    let two = terminal_lines(text, a, vertices, count as usize, groups);
    let Number::Value { value: _, next: b } = two else {
        return two;
    };
    terminals_closed(text, b)
}

// From the end of the graph to the end of the text: group 1 for every terminal and 0 for the other vertices, written
// where all is read, as far as the buffer reaches; 1 where there are more vertices than the limit.
pub fn terminals(text: &[u8], cursor: Cursor, vertices: usize, groups: &mut [u8]) -> Number
    ensures { let read = terminals_to_end vertices text.now cursor.at in
        (number_step result ≡ (read then λ gs p. found 0 p)) × (groups.new ≡ groups_after read groups.old) }
{
    if MAX_VERTICES < vertices {
        return Number::Refused {
            number: 1,
            place: 0,
        };
    }
    let mut held = [0u8; MAX_VERTICES];
    let step = terminals_from(text, cursor, vertices, &mut held[0..vertices]);
    let Number::Value { value: _, next } = step else {
        return step;
    };
    put_bytes(groups, 0, &held[0..vertices]);
    Number::Value { value: 0, next }
}
