// Reads the lines `node=g` of a survey text.
ghost use Rattle.std.specs.Prelude.{◌≡◌};
ghost use Rattle.std.proofs.lemmas.List.Edits.{sets};
ghost use Rattle.format_read.specs.Answer.{number_step};
ghost use Rattle.format_survey.specs.Line.{group_lines, group_test, group_line};

use base_buffer::put;
use base_limits::{GROUP_DIGITS, GROUP_NUMBERS};
use format_read::{Cursor, Number, number_line};

// `node=g` of a vertex: 17 where the group is over 255.
fn group_line(text: &[u8], cursor: Cursor, vertex: usize) -> Number
    ensures { number_step result ≡ group_line group_test text.now vertex cursor.at }
{
    let step = number_line(text, cursor, &format_write::NODE, GROUP_DIGITS);
    let Number::Value { value, next: _ } = step else {
        return step;
    };
    let group = value as usize;
    if GROUP_NUMBERS <= group {
        return Number::Refused {
            number: 17,
            place: vertex,
        };
    }
    step
}

// So many lines `node=g`; the groups up to the first refusal go into the buffer, as far as it reaches.
pub fn group_lines(text: &[u8], cursor: Cursor, count: usize, groups: &mut [u8]) -> Number
    ensures { let lines = group_lines group_test text.now count cursor.at in
        (number_step result ≡ lines.end) × (groups.new ≡ sets groups.old 0 lines.values) }
{
    let mut next = cursor;
    for vertex in 0..count {
        let step = group_line(text, next, vertex);
        let Number::Value { value, next: after } = step else {
            return step;
        };
        put(groups, vertex, value as u8);
        next = after;
    }
    Number::Value { value: 0, next }
}
