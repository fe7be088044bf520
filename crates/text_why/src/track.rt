// A track number as a word: what the program `why` makes of its argument.
ghost use Rattle.std.specs.Prelude.{◌≡◌};
ghost use Rattle.format_read.specs.Answer.{number_step};
ghost use Rattle.text_why.specs.Output.{track_at};

use base_limits::COUNT_DIGITS;
use format_read::{Cursor, Number};

// The track number that a word says, which is its digits and nothing else; at most those of a count.
pub fn track_number(word: &[u8]) -> Number
    ensures { number_step result ≡ track_at word.now }
{
    let step = format_read::number_at(word, Cursor { at: 0 }, COUNT_DIGITS);
    let Number::Value { value, next } = step else {
        return step;
    };
    let end = next.at;
    if end < word.len() {
        return Number::Refused {
            number: 16,
            place: end,
        };
    }
    Number::Value {
        value,
        next: Cursor { at: end },
    }
}
