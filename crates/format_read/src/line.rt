// Reads a number with the byte that ends it, and a line of a key and a number.
ghost use Rattle.std.specs.Prelude.{◌≡◌, min};
ghost use Rattle.base_limits.specs.Limits.{max_digits};
ghost use Rattle.format_read.specs.Number.{stop_of, number_to, number_line};
ghost use Rattle.format_read.specs.Bytes.{byte_is};
ghost use Rattle.format_read.specs.Answer.{number_step};

use crate::{Class, Cursor, Number, fixed, is_class, number_at};

// The number at an offset has ended there, with a comma where one is wanted and otherwise with byte 10.
fn ends(text: &[u8], at: usize, comma: bool) -> bool
    ensures { result ≡ byte_is text.now at (stop_of comma) }
{
    if comma {
        return is_class(text, at, Class::Comma);
    }
    is_class(text, at, Class::LineEnd)
}

// A number, and the byte that ends it.
pub fn number_to(text: &[u8], cursor: Cursor, limit: usize, comma: bool) -> Number
    ensures { number_step result ≡ number_to (min limit max_digits) (stop_of comma) text.now cursor.at }
{
    let step = number_at(text, cursor, limit);
    let Number::Value { value, next } = step else {
        return step;
    };
    let end = next.at;
    if ends(text, end, comma) {
        return Number::Value {
            value,
            next: Cursor { at: end + 1 },
        };
    }
    Number::Refused {
        number: 16,
        place: end,
    }
}

// A line of a key and one number of at most limit digits.
pub fn number_line(text: &[u8], cursor: Cursor, key: &[u8], limit: usize) -> Number
    ensures { number_step result ≡ number_line key.now (min limit max_digits) text.now cursor.at }
{
    let step = fixed(text, cursor, key);
    let Number::Value { value: _, next } = step else {
        return step;
    };
    number_to(text, next, limit, false)
}
