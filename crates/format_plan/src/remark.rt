// Says of printed figures that no cheaper plan exists, where they show it: what `plan` and `verify` put on standard
// error.
ghost use Rattle.std.specs.Prelude.{◌≡◌, ◌≤◌, take};
ghost use Rattle.format_read.specs.Answer.{number_step};
ghost use Rattle.format_plan.specs.Remark.{remark_line, remark_bytes, shown, figures_at, remark_on};

use base_limits::FIGURE_DIGITS;
use format_read::{Cursor, Number};

// The bytes of the line.
pub const REMARK_BYTES: usize = 23;

// The line.
pub const REMARK: [u8; REMARK_BYTES] = *b"no cheaper plan exists\n";

// 1 where twice the cost is at most the bound, else 0.
fn shown(cost: u64, bound: u64) -> u64
    ensures { result ≡ shown cost bound }
{
    u64::from(cost <= bound / 2)
}

// The lines of sites, cost and bound at the cursor, and what they show.
fn figure_lines(text: &[u8], cursor: Cursor) -> Number
    ensures { number_step result ≡ figures_at text.now cursor.at }
{
    let one = format_read::number_line(text, cursor, &format_write::TERMINALS, FIGURE_DIGITS);
    let Number::Value { value: _, next: a } = one else {
        return one;
    };
    let two = format_read::number_line(text, a, &format_write::COST, FIGURE_DIGITS);
    let Number::Value {
        value: cost,
        next: b,
    } = two
    else {
        return two;
    };
    let three = format_read::number_line(text, b, &format_write::BOUND, FIGURE_DIGITS);
    let Number::Value { value: bound, next } = three else {
        return three;
    };
    let value = shown(cost, bound);
    Number::Value { value, next }
}

// How many bytes of the line are said of a text whose figures stand from an offset on: all or none.
pub fn remark(text: &[u8], from: usize) -> usize
    ensures remark_line_value { take result remark_line ≡ remark_on text.now from }
    ensures fits { result ≤ remark_bytes }
{
    let figures = figure_lines(text, Cursor { at: from });
    let Number::Value { value, next: _ } = figures else {
        return 0;
    };
    if value == 0 {
        return 0;
    }
    REMARK_BYTES
}
