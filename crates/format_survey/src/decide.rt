// How the lines after a survey text's counts end, found before any of them is stored.
ghost use Rattle.std.specs.Prelude.{◌≡◌};
ghost use Rattle.base_limits.specs.Limits.{max_vertices};
ghost use Rattle.format_read.specs.Answer.{number_step};
ghost use Rattle.format_read.specs.Bytes.{end_at};
ghost use Rattle.format_read.specs.Step.{found, ◌then◌, stopped};
ghost use Rattle.format_survey.specs.Line.{lines_with};
ghost use Rattle.format_survey.specs.LinesAnswer.{counts_step};
ghost use Rattle.format_survey.specs.Reading.{step_outcome};
ghost use Rattle.format_survey.specs.Answer.{counts_outcome};

use crate::tail::survey_lines;
use crate::{Head, Reading};
use base_limits::MAX_VERTICES;
use format_read::{Cursor, Number};

// Refused with 16 where the text goes on behind its last line.
fn ended(text: &[u8], lines: Number) -> Number
    ensures { number_step result ≡ (number_step lines then λ k p. end_at text.now p then λ z q. found k q) }
{
    let Number::Value {
        value: pairs,
        next: last,
    } = lines
    else {
        return lines;
    };
    let end = last.at;
    if end < text.len() {
        return Number::Refused {
            number: 16,
            place: end,
        };
    }
    Number::Value {
        value: pairs,
        next: last,
    }
}

// How the lines after the counts end, and how many pairs there are: a pass over them that stores into groups of its
// own, as many as there may be, and buffers of no length.
pub fn decided(text: &[u8], cursor: Cursor, vertices: usize, edges: usize, room: usize) -> Number
    ensures { let lines = lines_with max_vertices room text.now vertices edges cursor.at in
        number_step result ≡ (lines.end then λ k p. end_at text.now p then λ z q. found k q) }
{
    let mut groups = [0u8; MAX_VERTICES];
    let mut firsts = [0u32; 0];
    let mut seconds = [0u32; 0];
    let mut weights = [0u32; 0];
    let mut owners = [0u32; 0];
    let mut others = [0u8; 0];
    let lines = survey_lines(
        text,
        cursor,
        vertices,
        edges,
        room,
        &mut groups,
        &mut firsts,
        &mut seconds,
        &mut weights,
        &mut owners,
        &mut others,
    );
    ended(text, lines)
}

// Refused counts, as the answer of reading.
pub fn stopped_counts(head: Head) -> Reading
    ensures { counts_outcome result ≡ step_outcome (stopped (counts_step head)) }
{
    match head {
        Head::Refused { number, place } => Reading::Refused { number, place },
        Head::Counts {
            vertices: _,
            edges: _,
            next,
        } => {
            let place = next.at;
            Reading::Refused { number: 16, place }
        }
    }
}

// A refused line after them, in the same way.
pub fn stopped_lines(step: Number) -> Reading
    ensures { counts_outcome result ≡ step_outcome (stopped (number_step step)) }
{
    match step {
        Number::Refused { number, place } => Reading::Refused { number, place },
        Number::Value { value: _, next } => {
            let place = next.at;
            Reading::Refused { number: 16, place }
        }
    }
}
