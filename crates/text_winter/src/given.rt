// Reads the strength lines behind a survey's text.
ghost use Rattle.std.specs.Prelude.{◌≡◌};
ghost use Rattle.format_read.specs.Answer.{number_step};
ghost use Rattle.format_read.specs.Items.{puts};
ghost use Rattle.format_read.specs.Step.{stopped};
ghost use Rattle.text_winter.specs.Given.{given_of, given_at, given_test, given_line};
ghost use Rattle.text_winter.specs.Given.{givens_at, put_strength, given_step};

use crate::GivenLine;
use base_buffer::put;
use base_limits::Verdict;
use format_read::{Cursor, Number, fixed, number_to};
use winter_rule::{MAX_STRENGTH, STRENGTHS};

const STRENGTH: [u8; 9] = *b"strength=";

// Digits of a number in a strength line, at most.
const STRENGTH_DIGITS: usize = 3;

// A turn more than there may be lines.
const GIVEN_TURNS: usize = STRENGTHS + 1;

// Group numbers, and the highest strength, as wide as what is read.
const GROUPS: u64 = STRENGTHS as u64;

const HIGHEST: u64 = MAX_STRENGTH as u64;

// A refused step, as the answer of a strength line.
fn stopped_given(step: Number) -> GivenLine
    ensures { given_step result ≡ stopped (number_step step) }
{
    match step {
        Number::Refused { number, place } => GivenLine::Refused { number, place },
        Number::Value { value: _, next } => {
            let place = next.at;
            GivenLine::Refused { number: 16, place }
        }
    }
}

// `strength=g,s`, before it is tested.
fn given_at(text: &[u8], cursor: Cursor) -> GivenLine
    ensures { given_step result ≡ given_at text.now cursor.at }
{
    let key = fixed(text, cursor, &STRENGTH);
    let Number::Value { value: _, next: a } = key else {
        return stopped_given(key);
    };
    let one = number_to(text, a, STRENGTH_DIGITS, true);
    let Number::Value {
        value: group,
        next: b,
    } = one
    else {
        return stopped_given(one);
    };
    let two = number_to(text, b, STRENGTH_DIGITS, false);
    let Number::Value {
        value: strength,
        next,
    } = two
    else {
        return stopped_given(two);
    };
    GivenLine::Given {
        group,
        strength,
        next,
    }
}

// 24 for a group that is not above the one before, or none, and for a strength of 0 or over 15.
fn given_test(low: u64, group: u64, strength: u64) -> Verdict
    ensures { result ≡ given_test low (given_of group strength) }
{
    let place = group as usize;
    if group <= low {
        return Verdict::Refused { number: 24, place };
    }
    if GROUPS < group {
        return Verdict::Refused { number: 24, place };
    }
    if strength < 1 {
        return Verdict::Refused { number: 24, place };
    }
    if HIGHEST < strength {
        return Verdict::Refused { number: 24, place };
    }
    Verdict::Fine
}

// A strength line behind one of group low.
fn given_line(text: &[u8], cursor: Cursor, low: u64) -> GivenLine
    ensures { given_step result ≡ given_line text.now low cursor.at }
{
    let line = given_at(text, cursor);
    let GivenLine::Given {
        group,
        strength,
        next: _,
    } = line
    else {
        return line;
    };
    match given_test(low, group, strength) {
        Verdict::Fine => line,
        Verdict::Refused { number, place } => GivenLine::Refused { number, place },
    }
}

// A refused line, as the answer of the lines.
fn stopped_line(line: GivenLine) -> Number
    ensures { number_step result ≡ stopped (given_step line) }
{
    match line {
        GivenLine::Refused { number, place } => Number::Refused { number, place },
        GivenLine::Given {
            group: _,
            strength: _,
            next,
        } => {
            let place = next.at;
            Number::Refused { number: 16, place }
        }
    }
}

// The strength lines up to the end of the text; those before the first refusal are stored.
pub fn strength_lines(text: &[u8], cursor: Cursor, strengths: &mut [u8]) -> Number
    ensures result_value { number_step result ≡ (givens_at text.now cursor.at).end }
    ensures strengths_value { strengths.new ≡ puts put_strength strengths.old 0 (givens_at text.now cursor.at).values }
{
    let mut next = cursor;
    let mut low = 0;
    for _i in 0..GIVEN_TURNS {
        let at = next.at;
        if text.len() <= at {
            return Number::Value { value: low, next };
        }
        let line = given_line(text, next, low);
        let GivenLine::Given {
            group,
            strength,
            next: after,
        } = line
        else {
            return stopped_line(line);
        };
        put(strengths, (group - 1) as usize, strength as u8);
        low = group;
        next = after;
    }
    let place = next.at;
    Number::Refused { number: 16, place }
}
