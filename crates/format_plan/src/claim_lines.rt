// Reads the counts that a printed plan claims.
ghost use Rattle.std.specs.Prelude.{◌≡◌};
ghost use Rattle.format_read.specs.Answer.{number_step};
ghost use Rattle.format_read.specs.Step.{stopped};
ghost use Rattle.format_plan.specs.Plan.{claims_at};
ghost use Rattle.format_plan.specs.Answer.{claims_step};

use crate::Claims;
use base_limits::FIGURE_DIGITS;
use format_read::{Cursor, Number};

// A refused step, as the answer of the lines of counts.
fn stopped_claims(step: Number) -> Claims
    ensures { claims_step result ≡ stopped (number_step step) }
{
    match step {
        Number::Refused { number, place } => Claims::Refused { number, place },
        Number::Value { value: _, next } => {
            let place = next.at;
            Claims::Refused { number: 16, place }
        }
    }
}

// The four lines of counts.
pub fn claim_lines(text: &[u8], cursor: Cursor) -> Claims
    ensures { claims_step result ≡ claims_at text.now cursor.at }
{
    let one = format_read::number_line(text, cursor, &format_write::TERMINALS, FIGURE_DIGITS);
    let Number::Value {
        value: terminals,
        next: a,
    } = one
    else {
        return stopped_claims(one);
    };
    let two = format_read::number_line(text, a, &format_write::COST, FIGURE_DIGITS);
    let Number::Value {
        value: cost,
        next: b,
    } = two
    else {
        return stopped_claims(two);
    };
    let three = format_read::number_line(text, b, &format_write::BOUND, FIGURE_DIGITS);
    let Number::Value {
        value: bound,
        next: c,
    } = three
    else {
        return stopped_claims(three);
    };
    let four = format_read::number_line(text, c, &format_write::ROUNDS, FIGURE_DIGITS);
    let Number::Value {
        value: rounds,
        next,
    } = four
    else {
        return stopped_claims(four);
    };
    Claims::Found {
        terminals,
        cost,
        bound,
        rounds,
        next,
    }
}
