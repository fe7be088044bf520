// Reads the lines `link=u,v,price` of a survey text.
ghost use Rattle.std.specs.Prelude.{◌≡◌};
ghost use Rattle.std.proofs.lemmas.List.Edits.{sets};
ghost use Rattle.format_read.specs.Answer.{number_step};
ghost use Rattle.format_read.specs.Step.{stopped};
ghost use Rattle.format_survey.specs.Line.{edge_lines, firsts_of, seconds_of, weights_of};
ghost use Rattle.format_survey.specs.LinesAnswer.{edge_step};

use crate::EdgeLine;
use crate::edge::edge_line;
use base_buffer::put;
use format_read::{Cursor, Number};

// A refused line of an edge, as the answer of the lines.
pub fn stopped_line(line: EdgeLine) -> Number
    ensures { number_step result ≡ stopped (edge_step line) }
{
    match line {
        EdgeLine::Refused { number, place } => Number::Refused { number, place },
        EdgeLine::Edge {
            first: _,
            second: _,
            weight: _,
            next,
        } => {
            let place = next.at;
            Number::Refused { number: 16, place }
        }
    }
}

// So many lines `link=u,v,price`, in the same way.
pub fn edge_lines(
    text: &[u8],
    cursor: Cursor,
    count: usize,
    firsts: &mut [u32],
    seconds: &mut [u32],
    weights: &mut [u32],
) -> Number
    ensures { let lines = edge_lines text.now count cursor.at in
        (number_step result ≡ lines.end)
        × (firsts.new ≡ sets firsts.old 0 (firsts_of lines.values))
        × (seconds.new ≡ sets seconds.old 0 (seconds_of lines.values))
        × (weights.new ≡ sets weights.old 0 (weights_of lines.values)) }
{
    let mut next = cursor;
    for edge in 0..count {
        let line = edge_line(text, next, edge);
        let EdgeLine::Edge {
            first,
            second,
            weight,
            next: after,
        } = line
        else {
            return stopped_line(line);
        };
        put(firsts, edge, first as u32);
        put(seconds, edge, second as u32);
        put(weights, edge, weight as u32);
        next = after;
    }
    Number::Value { value: 0, next }
}
