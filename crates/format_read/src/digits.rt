// The digits of a number in a text, and their value.
ghost use Rattle.std.specs.Prelude.{◌≡◌, ◌-◌, ◌≤◌, min, length};
ghost use Rattle.base_limits.specs.Limits.{max_digits};
ghost use Rattle.format_write.specs.Decimal.{spelled_after};
ghost use Rattle.format_read.specs.Number.{digits_end, numeral_end, numeral_at, number_at};
ghost use Rattle.format_read.specs.Answer.{number_step};

use crate::classes::{class_from, class_of, is_digit};
use crate::{Class, Cursor, Number};
use base_limits::MAX_DIGITS;

// Where the digits from at on end, of which at most limit are taken.
fn digits_end(text: &[u8], at: usize, limit: usize) -> usize
    ensures { result ≡ digits_end limit text.now at }
{
    let mut end = at;
    for _ in 0..limit {
        if !is_digit(class_of(base_buffer::at(text, end))) {
            return end;
        }
        end += 1;
    }
    end
}

// The same for a number, where after a leading 0 comes no digit.
fn numeral_end(text: &[u8], at: usize, limit: usize) -> usize
    ensures { result ≡ numeral_end limit text.now at }
{
    if class_from(text, at, Class::Zero) {
        return at + 1;
    }
    digits_end(text, at, limit)
}

// The digits of the number at an offset, as a part of the text.
fn digits(text: &[u8], at: usize, limit: usize) -> &[u8]
    ensures { result.now ≡ numeral_at limit text.now at }
{
    let end = numeral_end(text, at, limit);
    if text.len() < end {
        return &text[0..0];
    }
    &text[at..end]
}

// The number that decimal digits write.
fn value(digits: &[u8]) -> u64
    requires { length digits.now ≤ max_digits }
    ensures { result ≡ spelled_after 0 digits.now }
{
    let mut n: u64 = 0;
    for d in digits {
        n = n * 10 + u64::from(d.saturating_sub(b'0'));
    }
    n
}

// The number of at most limit digits at an offset.
pub fn number_from(text: &[u8], at: usize, limit: usize) -> Number
    ensures { number_step result ≡ number_at (min limit max_digits) text.now at }
{
    let part = digits(text, at, limit.min(MAX_DIGITS));
    let width = part.len();
    if width == 0 {
        return Number::Refused {
            number: 16,
            place: at,
        };
    }
    Number::Value {
        value: value(part),
        next: Cursor { at: at + width },
    }
}
