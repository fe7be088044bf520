// Reads the pair of an also line, before it is tested, and says for how many pairs there is room.
ghost use Rattle.std.specs.Prelude.{◌≡◌, min};
ghost use Rattle.format_read.specs.Answer.{number_step};
ghost use Rattle.format_read.specs.Step.{stopped};
ghost use Rattle.format_also.specs.Pair.{pair_at};
ghost use Rattle.format_also.specs.Answer.{pair_step};

use crate::PairLine;
use base_limits::ALSO_DIGITS;
use format_read::{Cursor, Number, fixed, number_to};

// A refused step, as the answer of an also line.
fn stopped_pair(step: Number) -> PairLine
    ensures { pair_step result ≡ stopped (number_step step) }
{
    match step {
        Number::Refused { number, place } => PairLine::Refused { number, place },
        Number::Value { value: _, next } => {
            let place = next.at;
            PairLine::Refused { number: 16, place }
        }
    }
}

// `also=v,g`, before it is tested.
pub fn pair_at(text: &[u8], cursor: Cursor) -> PairLine
    ensures { pair_step result ≡ pair_at text.now cursor.at }
{
    let key = fixed(text, cursor, &format_write::ALSO);
    let Number::Value { value: _, next: a } = key else {
        return stopped_pair(key);
    };
    let one = number_to(text, a, ALSO_DIGITS, true);
    let Number::Value {
        value: owner,
        next: b,
    } = one
    else {
        return stopped_pair(one);
    };
    let two = number_to(text, b, ALSO_DIGITS, false);
    let Number::Value { value: other, next } = two else {
        return stopped_pair(two);
    };
    PairLine::Pair { owner, other, next }
}

// The pairs that two buffers of these lengths hold: the shorter counts.
pub fn pair_room(owners: usize, others: usize) -> usize
    ensures { result ≡ min owners others }
{
    owners.min(others)
}
