// Reads the members of a dual in a printed plan.
ghost use Rattle.std.specs.Prelude.{◌≡◌};
ghost use Rattle.format_read.specs.Answer.{number_step};
ghost use Rattle.format_plan.specs.Lines.{member_step, risen, members_at, put_member};
ghost use Rattle.format_read.specs.Items.{Ends};

use base_limits::{MAX_VERTICES, MEMBER_DIGITS};
use format_read::{Class, Cursor, Number};

// Members lie below the first; the second is past all that may stand in a list of members.
pub const MEMBER_NUMBERS: u64 = MAX_VERTICES as u64;

const NOT_RISEN: u64 = MEMBER_NUMBERS + 1;

// Member i of a dual, with the comma before it unless it is the first.
fn member_at(text: &[u8], cursor: Cursor, low: u64, i: usize) -> Number
    ensures { number_step result ≡ member_step text.now low i cursor.at }
{
    if i == 0 {
        return format_read::number_at(text, cursor, MEMBER_DIGITS);
    }
    let step = format_read::class_step(text, cursor, Class::Comma);
    let Number::Value { value: _, next } = step else {
        return step;
    };
    format_read::number_at(text, next, MEMBER_DIGITS)
}

// The lowest member that may follow v; past all members once one is none or does not rise.
fn risen_after(low: u64, v: u64) -> u64
    ensures { result ≡ risen low v }
{
    if v < low {
        return NOT_RISEN;
    }
    if MEMBER_NUMBERS <= v {
        return NOT_RISEN;
    }
    v + 1
}

// The members of a dual, up to byte 10; they are added to the part up to the first refusal, as far as it reaches.
pub fn members(text: &[u8], cursor: Cursor, part: &mut [u8]) -> Number
    ensures { Ends put_member (members_at text.now cursor.at) part.old (number_step result) part.new }
{
    let mut next = cursor;
    let mut low = 0;
    for i in 0..text.len() {
        let at = next.at;
        if format_read::is_class(text, at, Class::LineEnd) {
            return Number::Value { value: low, next };
        }
        let step = member_at(text, next, low, i);
        let Number::Value { value, next: after } = step else {
            return step;
        };
        format_record::add_member(part, value as usize);
        low = risen_after(low, value);
        next = after;
    }
    let place = next.at;
    Number::Refused { number: 16, place }
}
