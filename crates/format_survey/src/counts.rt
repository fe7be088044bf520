// Reads the two count lines of a survey text.
ghost use Rattle.std.specs.Prelude.{◌≡◌};
ghost use Rattle.format_read.specs.Answer.{number_step};
ghost use Rattle.format_read.specs.Step.{stopped};
ghost use Rattle.format_survey.specs.Line.{counts_at, vertices_test, edges_test, count_line};
ghost use Rattle.format_survey.specs.LinesAnswer.{counts_step};

use crate::Head;
use base_limits::{COUNT_DIGITS, MAX_EDGES, MAX_VERTICES};
use format_read::{Cursor, Number, number_line};

// A line of a key and the number of vertices: 1, then 7 where the group buffer, of length lent, is short.
pub fn vertices_line(text: &[u8], cursor: Cursor, key: &[u8], lent: usize) -> Number
    ensures { number_step result ≡ count_line key.now (vertices_test lent) text.now cursor.at }
{
    let line = number_line(text, cursor, key, COUNT_DIGITS);
    let Number::Value { value, next: _ } = line else {
        return line;
    };
    let count = value as usize;
    if count == 0 {
        return Number::Refused {
            number: 1,
            place: 0,
        };
    }
    if MAX_VERTICES < count {
        return Number::Refused {
            number: 1,
            place: 0,
        };
    }
    if lent < count {
        return Number::Refused {
            number: 7,
            place: 0,
        };
    }
    line
}

// A line of a key and the number of edges: 3, then 7 where one of the other three buffers is short.
pub fn edges_line(
    text: &[u8],
    cursor: Cursor,
    key: &[u8],
    firsts: usize,
    seconds: usize,
    weights: usize,
) -> Number
    ensures { number_step result ≡ count_line key.now (edges_test firsts seconds weights) text.now cursor.at }
{
    let step = number_line(text, cursor, key, COUNT_DIGITS);
    let Number::Value { value, next: _ } = step else {
        return step;
    };
    let count = value as usize;
    if MAX_EDGES < count {
        return Number::Refused {
            number: 3,
            place: 0,
        };
    }
    if firsts < count {
        return Number::Refused {
            number: 7,
            place: 0,
        };
    }
    if seconds < count {
        return Number::Refused {
            number: 7,
            place: 0,
        };
    }
    if weights < count {
        return Number::Refused {
            number: 7,
            place: 0,
        };
    }
    step
}

// A refused step, as the answer of the two count lines.
pub fn stopped_head(step: Number) -> Head
    ensures { counts_step result ≡ stopped (number_step step) }
{
    match step {
        Number::Refused { number, place } => Head::Refused { number, place },
        Number::Value { value: _, next } => {
            let place = next.at;
            Head::Refused { number: 16, place }
        }
    }
}

// The two count lines, with which a text begins; the lengths are those of the lent buffers.
pub fn counts(text: &[u8], groups: usize, firsts: usize, seconds: usize, weights: usize) -> Head
    ensures { counts_step result ≡ counts_at (vertices_test groups) (edges_test firsts seconds weights) text.now }
{
    let one = vertices_line(text, Cursor { at: 0 }, &format_write::NODES, groups);
    let Number::Value {
        value: vertices,
        next: after,
    } = one
    else {
        return stopped_head(one);
    };
    let two = edges_line(text, after, &format_write::LINKS, firsts, seconds, weights);
    let Number::Value { value: edges, next } = two else {
        return stopped_head(two);
    };
    Head::Counts {
        vertices: vertices as usize,
        edges: edges as usize,
        next,
    }
}
