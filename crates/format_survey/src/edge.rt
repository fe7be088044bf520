// Reads a line `link=u,v,price` of a survey text.
ghost use Rattle.std.specs.Prelude.{◌≡◌};
ghost use Rattle.format_read.specs.Answer.{number_step};
ghost use Rattle.format_read.specs.Step.{stopped};
ghost use Rattle.format_survey.specs.Line.{edge_line};
ghost use Rattle.format_survey.specs.LinesAnswer.{edge_step};

use crate::EdgeLine;
use base_limits::{ENDPOINT_DIGITS, WEIGHT_DIGITS};
use format_read::{Cursor, Number, fixed, number_to};

// A refused step, as the answer of an edge's line.
pub fn stopped_edge(step: Number) -> EdgeLine
    ensures { edge_step result ≡ stopped (number_step step) }
{
    match step {
        Number::Refused { number, place } => EdgeLine::Refused { number, place },
        Number::Value { value: _, next } => {
            let place = next.at;
            EdgeLine::Refused { number: 16, place }
        }
    }
}

// `link=u,v,price`.
pub fn edge_line(text: &[u8], cursor: Cursor, edge: usize) -> EdgeLine
    ensures { edge_step result ≡ edge_line text.now edge cursor.at }
{
    let key = fixed(text, cursor, &format_write::LINK);
    let Number::Value { value: _, next: a } = key else {
        return stopped_edge(key);
    };
    let one = number_to(text, a, ENDPOINT_DIGITS, true);
    let Number::Value {
        value: first,
        next: b,
    } = one
    else {
        return stopped_edge(one);
    };
    let two = number_to(text, b, ENDPOINT_DIGITS, true);
    let Number::Value {
        value: second,
        next: c,
    } = two
    else {
        return stopped_edge(two);
    };
    let three = number_to(text, c, WEIGHT_DIGITS, false);
    let Number::Value {
        value: weight,
        next,
    } = three
    else {
        return stopped_edge(three);
    };
    EdgeLine::Edge {
        first,
        second,
        weight,
        next,
    }
}
