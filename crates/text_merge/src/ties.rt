// The tie lines at the end of a text.
ghost use Rattle.std.specs.Prelude.{◌≡◌};
ghost use Rattle.std.proofs.lemmas.List.Edits.{sets};
ghost use Rattle.format_read.specs.Answer.{number_step};
ghost use Rattle.format_read.specs.Step.{stopped};
ghost use Rattle.format_also.specs.Pair.{pairs_counted, owners_of, others_of};
ghost use Rattle.format_also.specs.Answer.{pair_step};
ghost use Rattle.text_merge.specs.Ties.{tie_at, tie_line, tie_lines};

use base_buffer::put;
use base_limits::{ENDPOINT_DIGITS, MAX_VERTICES};
use format_also::PairLine;
use format_read::{Cursor, Number, number_to};

// The key of a tie line.
const TIE: [u8; 4] = *b"tie=";

// Tie lines of a text, at most, and a turn more than these.
const MAX_TIES: usize = MAX_VERTICES;

const TIE_TURNS: usize = MAX_TIES + 1;

// A refused step, as the answer of a tie line.
fn stopped_tie(step: Number) -> PairLine
    ensures { pair_step result ≡ stopped (number_step step) }
{
    match step {
        Number::Refused { number, place } => PairLine::Refused { number, place },
        Number::Value { value: _, next } => {
            let place = next.at;
            PairLine::Refused { number: 16, place }
        }
    }
}

// `tie=u,v`.
fn tie_at(text: &[u8], cursor: Cursor) -> PairLine
    ensures { pair_step result ≡ tie_at text.now cursor.at }
{
    let key = format_read::fixed(text, cursor, &TIE);
    let Number::Value { value: _, next: a } = key else {
        return stopped_tie(key);
    };
    let one = number_to(text, a, ENDPOINT_DIGITS, true);
    let Number::Value {
        value: owner,
        next: b,
    } = one
    else {
        return stopped_tie(one);
    };
    let two = number_to(text, b, ENDPOINT_DIGITS, false);
    let Number::Value { value: other, next } = two else {
        return stopped_tie(two);
    };
    PairLine::Pair { owner, other, next }
}

// Tie line i; past the last that may be, no such line stands in a text.
fn tie_line(text: &[u8], cursor: Cursor, i: usize) -> PairLine
    ensures { pair_step result ≡ tie_line text.now i cursor.at }
{
    let at = cursor.at;
    if MAX_TIES <= i {
        return PairLine::Refused {
            number: 16,
            place: at,
        };
    }
    tie_at(text, cursor)
}

// A refused tie line, as the answer of the lines.
fn stopped_line(line: PairLine) -> Number
    ensures { number_step result ≡ stopped (pair_step line) }
{
    match line {
        PairLine::Refused { number, place } => Number::Refused { number, place },
        PairLine::Pair {
            owner: _,
            other: _,
            next,
        } => {
            let place = next.at;
            Number::Refused { number: 16, place }
        }
    }
}

// The tie lines that a text is, and how many they are; the ties before the first refusal go into the buffers, as far
// as these reach.
pub fn tie_lines(text: &[u8], firsts: &mut [u32], seconds: &mut [u32]) -> Number
    ensures { let lines = tie_lines text.now in
        (number_step result ≡ pairs_counted lines)
        × (firsts.new ≡ sets firsts.old 0 (owners_of lines.values))
        × (seconds.new ≡ sets seconds.old 0 (others_of lines.values)) }
{
    let mut next = Cursor { at: 0 };
    for i in 0..TIE_TURNS {
        let at = next.at;
        if text.len() <= at {
            return Number::Value {
                value: i as u64,
                next,
            };
        }
        let line = tie_line(text, next, i);
        let PairLine::Pair {
            owner,
            other,
            next: after,
        } = line
        else {
            return stopped_line(line);
        };
        put(firsts, i, owner as u32);
        put(seconds, i, other as u32);
        next = after;
    }
    let place = next.at;
    Number::Refused { number: 16, place }
}
