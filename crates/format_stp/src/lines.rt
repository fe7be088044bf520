// Reads the track lines of an STP text, and stores what they say.
ghost use Rattle.std.specs.Prelude.{◌≡◌};
ghost use Rattle.std.proofs.lemmas.List.Edits.{sets};
ghost use Rattle.format_read.specs.Answer.{number_step};
ghost use Rattle.format_survey.specs.Line.{firsts_of, seconds_of, weights_of};
ghost use Rattle.format_stp.specs.StpReading.{stp_edges};

use crate::line::edge_after;
use base_buffer::put;
use format_read::{Cursor, Number};
use format_survey::{EdgeLine, stopped_line};

// So many track lines; the values up to the first refusal go into the buffers, as far as these reach.
pub fn edge_lines(
    text: &[u8],
    cursor: Cursor,
    vertices: usize,
    count: usize,
    firsts: &mut [u32],
    seconds: &mut [u32],
    weights: &mut [u32],
) -> Number
    ensures { let lines = stp_edges vertices text.now count cursor.at in
        (number_step result ≡ lines.end)
        × (firsts.new ≡ sets firsts.old 0 (firsts_of lines.values))
        × (seconds.new ≡ sets seconds.old 0 (seconds_of lines.values))
        × (weights.new ≡ sets weights.old 0 (weights_of lines.values)) }
{
    let mut next = cursor;
    for edge in 0..count {
        let line = edge_after(text, next, vertices);
        let EdgeLine::Edge {
            first,
            second,
            weight,
            next: after,
        } = line
        else {
            return stopped_line(line);
        };
        put(firsts, edge, first as u32);
        put(seconds, edge, second as u32);
        put(weights, edge, weight as u32);
        next = after;
    }
    Number::Value { value: 0, next }
}
