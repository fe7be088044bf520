// Reads the lines of the duals of a printed plan.
ghost use Rattle.std.specs.Prelude.{◌≡◌, length};
ghost use Rattle.base_limits.specs.Limits.{record_bytes};
ghost use Rattle.format_read.specs.Answer.{number_step};
ghost use Rattle.format_plan.specs.Lines.{members_at, put_dual, dual_head, listed_dual, dual_record, dual_line_at};
ghost use Rattle.format_plan.specs.Lines.{duals_at};
ghost use Rattle.format_plan.specs.LinesAnswer.{Members, DualRead};
ghost use Rattle.format_read.specs.Items.{Ends};

use crate::members::{MEMBER_NUMBERS, members};
use base_limits::{MAX_DUALS, RECORD_BYTES, VALUE_DIGITS};
use format_read::{Class, Cursor, Number};

// The start of a dual's line, `moat=amount:`.
fn dual_head(text: &[u8], cursor: Cursor) -> Number
    ensures { number_step result ≡ dual_head text.now cursor.at }
{
    let key = format_read::fixed(text, cursor, &format_write::DUAL);
    let Number::Value { value: _, next: a } = key else {
        return key;
    };
    let sum = format_read::number_at(text, a, VALUE_DIGITS);
    let Number::Value {
        value: amount,
        next: b,
    } = sum
    else {
        return sum;
    };
    let mark = format_read::class_step(text, b, Class::Colon);
    let Number::Value { value: _, next } = mark else {
        return mark;
    };
    Number::Value {
        value: amount,
        next,
    }
}

// Writes the record of a dual whose members stand at the cursor.
fn fill_record(text: &[u8], list: Cursor, amount: u64, part: &mut [u8])
    requires { (length part.old ≡ record_bytes) × Members (members_at text.now list.at).values }
    ensures { part.new ≡ dual_record (listed_dual text.now amount list.at) }
{
    format_record::start_record(part, amount);
    members(text, list, part);
}

// The same for record i of a buffer, where it has room.
fn store_dual(text: &[u8], list: Cursor, amount: u64, i: usize, records: &mut [u8])
    requires { Members (members_at text.now list.at).values }
    ensures { records.new ≡ put_dual records.old i (listed_dual text.now amount list.at) }
{
    if i < records.len() / RECORD_BYTES {
        let start = RECORD_BYTES * i;
        let end = start + RECORD_BYTES;
        fill_record(text, list, amount, &mut records[start..end]);
    }
}

// Dual line i; its record is stored where it is not refused and the buffer has room.
fn dual_line(text: &[u8], cursor: Cursor, i: usize, records: &mut [u8]) -> Number
    ensures { DualRead (dual_line_at text.now i cursor.at) (number_step result) i records.old records.new }
{
    let head = dual_head(text, cursor);
    let Number::Value {
        value: amount,
        next: list,
    } = head
    else {
        return head;
    };
    let step = members(text, list, &mut records[0..0]);
    let Number::Value {
        value: low,
        next: last,
    } = step
    else {
        return step;
    };
    if MEMBER_NUMBERS < low {
        return Number::Refused {
            number: 27,
            place: i,
        };
    }
    if MAX_DUALS <= i {
        return Number::Refused {
            number: 28,
            place: i,
        };
    }
    store_dual(text, list, amount, i, records);
    let end = last.at;
    Number::Value {
        value: 0,
        next: Cursor { at: end + 1 },
    }
}

// The dual lines, to the end of the text; their records are stored up to the first refusal, as far as the buffer
// reaches.
pub fn dual_lines(text: &[u8], cursor: Cursor, records: &mut [u8]) -> Number
    ensures { Ends put_dual (duals_at text.now cursor.at) records.old (number_step result) records.new }
{
    let mut next = cursor;
    for i in 0..text.len() {
        let at = next.at;
        if text.len() <= at {
            return Number::Value {
                value: i as u64,
                next,
            };
        }
        let step = dual_line(text, next, i, records);
        let Number::Value {
            value: _,
            next: after,
        } = step
        else {
            return step;
        };
        next = after;
    }
    let place = next.at;
    Number::Refused { number: 16, place }
}
