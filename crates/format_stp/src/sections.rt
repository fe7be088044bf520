// Reads the lines of an STP text that stand around its terminals: from the end of the graph to their number, and behind
// them to the end of the text.
ghost use Rattle.std.specs.Prelude.{◌≡◌};
ghost use Rattle.format_read.specs.Bytes.{end_at};
ghost use Rattle.format_read.specs.Answer.{number_step};
ghost use Rattle.format_stp.specs.StpWord.{after_empty};
ghost use Rattle.format_stp.specs.StpReading.{terminal_count};
ghost use Rattle.format_stp.specs.Section.{terminals_announced, terminals_closed};

use crate::head::{line, skip};
use crate::number::free_number;
use base_limits::COUNT_DIGITS;
use format_read::{Cursor, Number};

const END: [u8; 4] = *b"END\n";

const SECTION_TERMINALS: [u8; 18] = *b"SECTION Terminals\n";

const TERMINALS: [u8; 10] = *b"Terminals ";

const EOF: [u8; 4] = *b"EOF\n";

// `Terminals t`, behind empty lines: no more than there are vertices.
fn terminal_count(text: &[u8], cursor: Cursor, vertices: usize) -> Number
    ensures { number_step result ≡ after_empty (terminal_count vertices) text.now cursor.at }
{
    let word = line(text, cursor, &TERMINALS);
    let Number::Value { value: _, next } = word else {
        return word;
    };
    free_number(text, next, &text[0..0], 0, vertices, COUNT_DIGITS, false)
}

// The lines from the end of the graph to the number of terminals.
pub fn terminals_announced(text: &[u8], cursor: Cursor, vertices: usize) -> Number
    ensures { number_step result ≡ terminals_announced vertices text.now cursor.at }
{
    let one = line(text, cursor, &END);
    let Number::Value { value: _, next: a } = one else {
        return one;
    };
    let two = line(text, a, &SECTION_TERMINALS);
    let Number::Value { value: _, next: b } = two else {
        return two;
    };
    terminal_count(text, b, vertices)
}

// Only empty lines stand from here on.
fn ended(text: &[u8], cursor: Cursor) -> Number
    ensures { number_step result ≡ after_empty end_at text.now cursor.at }
{
    let last = skip(text, cursor);
    let at = last.at;
    if at < text.len() {
        return Number::Refused {
            number: 16,
            place: at,
        };
    }
    Number::Value {
        value: 0,
        next: last,
    }
}

// The lines behind the terminals, to the end of the text.
pub fn terminals_closed(text: &[u8], cursor: Cursor) -> Number
    ensures { number_step result ≡ terminals_closed text.now cursor.at }
{
    let one = line(text, cursor, &END);
    let Number::Value { value: _, next: a } = one else {
        return one;
    };
    let two = line(text, a, &EOF);
    let Number::Value { value: _, next: b } = two else {
        return two;
    };
    ended(text, b)
}
