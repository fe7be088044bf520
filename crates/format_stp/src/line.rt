// Reads one track line of an STP text, `E u v price`, behind empty lines. Ends count from 1 there and from 0 here.
ghost use Rattle.std.specs.Prelude.{◌≡◌, ◌-◌};
ghost use Rattle.format_read.specs.Answer.{number_step};
ghost use Rattle.format_survey.specs.LinesAnswer.{edge_step};
ghost use Rattle.format_stp.specs.StpWord.{after_empty};
ghost use Rattle.format_stp.specs.StpReading.{stp_end, stp_edge};

use crate::head::skip;
use crate::number::free_number;
use base_limits::{ENDPOINT_DIGITS, WEIGHT_DIGITS};
use format_read::{Cursor, Number, fixed, number_to};
use format_survey::{EdgeLine, stopped_edge};

const EDGE: [u8; 2] = *b"E ";

// An end of a track, from 1 to the number of vertices, and the space behind it.
fn endpoint(text: &[u8], cursor: Cursor, vertices: usize) -> Number
    ensures { number_step result ≡ stp_end vertices text.now cursor.at }
{
    free_number(
        text,
        cursor,
        &text[0..0],
        1,
        vertices,
        ENDPOINT_DIGITS,
        true,
    )
}

// A vertex that counts from 1, counted from 0.
fn from_zero(x: u64) -> u64
    ensures { result ≡ x - 1 }
{
    x.saturating_sub(1)
}

// `E u v price`.
fn edge_line(text: &[u8], cursor: Cursor, vertices: usize) -> EdgeLine
    ensures { edge_step result ≡ stp_edge vertices text.now cursor.at }
{
    let word = fixed(text, cursor, &EDGE);
    let Number::Value { value: _, next: a } = word else {
        return stopped_edge(word);
    };
    let one = endpoint(text, a, vertices);
    let Number::Value {
        value: first,
        next: b,
    } = one
    else {
        return stopped_edge(one);
    };
    let two = endpoint(text, b, vertices);
    let Number::Value {
        value: second,
        next: c,
    } = two
    else {
        return stopped_edge(two);
    };
    let three = number_to(text, c, WEIGHT_DIGITS, false);
    let Number::Value {
        value: weight,
        next,
    } = three
    else {
        return stopped_edge(three);
    };
    EdgeLine::Edge {
        first: from_zero(first),
        second: from_zero(second),
        weight,
        next,
    }
}

// The same behind empty lines.
pub fn edge_after(text: &[u8], cursor: Cursor, vertices: usize) -> EdgeLine
    ensures { edge_step result ≡ after_empty (stp_edge vertices) text.now cursor.at }
{
    edge_line(text, skip(text, cursor), vertices)
}
