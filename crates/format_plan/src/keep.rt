// Reads the lines of the kept edges of a printed plan.
ghost use Rattle.std.specs.Prelude.{◌≡◌};
ghost use Rattle.format_read.specs.Answer.{number_step};
ghost use Rattle.format_plan.specs.Lines.{keep_line, kept_at, put_mark};
ghost use Rattle.format_read.specs.Items.{Ends};

use base_limits::KEPT_DIGITS;
use format_read::{Class, Cursor, Number};

// `keep=e`, line i of its kind: 26 where e is below low or no track.
fn keep_line(text: &[u8], cursor: Cursor, edges: usize, low: u64, i: usize) -> Number
    ensures { number_step result ≡ keep_line text.now edges low i cursor.at }
{
    let step = format_read::number_line(text, cursor, &format_write::KEPT, KEPT_DIGITS);
    let Number::Value { value, next: _ } = step else {
        return step;
    };
    if value < low {
        return Number::Refused {
            number: 26,
            place: i,
        };
    }
    if edges <= value as usize {
        return Number::Refused {
            number: 26,
            place: i,
        };
    }
    step
}

// The keep lines; the marks of their tracks are stored up to the first refusal, as far as the buffer reaches.
pub fn keep_lines(text: &[u8], cursor: Cursor, edges: usize, marks: &mut [u8]) -> Number
    ensures { Ends put_mark (kept_at text.now edges cursor.at) marks.old (number_step result) marks.new }
{
    let mut next = cursor;
    let mut low = 0;
    for i in 0..text.len() {
        let at = next.at;
        if !format_read::is_class(text, at, Class::Keep) {
            return Number::Value { value: low, next };
        }
        let step = keep_line(text, next, edges, low, i);
        let Number::Value { value, next: after } = step else {
            return step;
        };
        base_buffer::put(marks, value as usize, 2);
        low = value + 1;
        next = after;
    }
    let place = next.at;
    Number::Refused { number: 16, place }
}
