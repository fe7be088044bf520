// Reads a number of an STP text that must be one of some: an end from 1 to the node count, a terminal that was not
// named before, no more terminals than nodes. It is refused at the first byte with which none of these can go on.
ghost use Rattle.std.specs.Prelude.{◌≡◌, get_or, ◌+◌, ◌*◌, ◌-◌, ◌^◌, ◌≤◌, min};
ghost use Rattle.base_limits.specs.Limits.{max_digits};
ghost use Rattle.format_read.specs.Answer.{number_step};
ghost use Rattle.format_read.specs.Number.{class_of, is_digit};
ghost use Rattle.format_stp.specs.StpNumber.{is_free, with_digit, goes_on, digits_after, more_after, free_to, stop_byte};

use crate::free::{is_free, opens};
use base_limits::MAX_DIGITS;
use format_read::{Class, Cursor, Number, is_class};

// A digit stands at an offset.
fn is_digit(text: &[u8], at: usize) -> bool
    ensures { result ≡ is_digit (class_of (get_or text.now at 0)) }
{
    if is_class(text, at, Class::Zero) {
        return true;
    }
    is_class(text, at, Class::Digit)
}

// The number with one more digit.
#[tactic(auto, unfolding(crate::specs::StpNumber::with_digit))]
fn with_digit(x: usize, b: u8) -> usize
    requires { x * 10 ≤ 10 ^ max_digits }
    ensures { result ≡ with_digit x b }
{
    x * 10 + usize::from(b.saturating_sub(b'0'))
}

// A digit stands at an offset with which a free number can go on.
#[tactic(auto, unfolding(crate::specs::StpNumber::goes_on))]
fn goes_on(
    text: &[u8],
    at: usize,
    groups: &[u8],
    low: usize,
    high: usize,
    more: usize,
    x: usize,
) -> bool
    requires { x * 10 ≤ 10 ^ max_digits }
    ensures { result ≡ goes_on (is_free groups.now low high) high more x (get_or text.now at 0) }
{
    let longer = with_digit(x, base_buffer::at(text, at));
    is_digit(text, at) && opens(groups, low, high, more, longer)
}

// The byte that ends a number: a space or the end of the line.
#[tactic(auto, unfolding(crate::specs::StpNumber::stop_byte))]
fn stop_byte(spaced: bool) -> u8
    ensures { result ≡ stop_byte spaced }
{
    if spaced {
        return b' ';
    }
    b'\n'
}

// The number x ends at an offset, where it is free.
fn free_end(
    text: &[u8],
    at: usize,
    groups: &[u8],
    low: usize,
    high: usize,
    x: usize,
    spaced: bool,
) -> Number
    ensures { number_step result ≡ digits_after (is_free groups.now low high) high (stop_byte spaced) 0 x text.now at }
{
    if base_buffer::at(text, at) == stop_byte(spaced) {
        if is_free(groups, low, high, x) {
            return Number::Value {
                value: x as u64,
                next: Cursor { at: at + 1 },
            };
        }
    }
    Number::Refused {
        number: 16,
        place: at,
    }
}

// The rest of a number, after the digits of its beginning.
fn digits_after(
    text: &[u8],
    from: usize,
    groups: &[u8],
    low: usize,
    high: usize,
    most: usize,
    first: usize,
    spaced: bool,
) -> Number
    requires { (first + 1) * 10 ^ most ≤ 10 ^ max_digits }
    ensures { let free = is_free groups.now low high in
        number_step result ≡ digits_after free high (stop_byte spaced) most first text.now from }
{
    let mut at = from;
    let mut x = first;
    for more in (0..most).rev() {
        if !goes_on(text, at, groups, low, high, more, x) {
            return free_end(text, at, groups, low, high, x, spaced);
        }
        x = with_digit(x, base_buffer::at(text, at));
        at += 1;
    }
    free_end(text, at, groups, low, high, x, spaced)
}

// How many digits may follow the first: none after a 0.
#[tactic(auto, unfolding(crate::specs::StpNumber::more_after))]
fn more_after(limit: usize, b: u8) -> usize
    ensures { result ≡ more_after (min limit max_digits) b }
{
    if b == b'0' {
        return 0;
    }
    limit.min(MAX_DIGITS).saturating_sub(1)
}

// A free number of at most limit digits at the cursor, and the byte that ends it.
pub fn free_number(
    text: &[u8],
    cursor: Cursor,
    groups: &[u8],
    low: usize,
    high: usize,
    limit: usize,
    spaced: bool,
) -> Number
    ensures { let free = is_free groups.now low high in
        number_step result ≡ free_to free high (stop_byte spaced) (min limit max_digits) text.now cursor.at }
{
    let at = cursor.at;
    let b = base_buffer::at(text, at);
    let more = more_after(limit, b);
    if goes_on(text, at, groups, low, high, more, 0) {
        return digits_after(
            text,
            at + 1,
            groups,
            low,
            high,
            more,
            with_digit(0, b),
            spaced,
        );
    }
    Number::Refused {
        number: 16,
        place: at,
    }
}
