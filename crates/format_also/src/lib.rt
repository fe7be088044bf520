// The also lines of a survey's text, each a junction and a further group of it. Definitions in specs/Pair (17, 18 and 7
// of a line) and specs/WellFormed. `pair_lines` reads them, up to the first byte that begins none, and `put_pairs`
// writes them.
#![tactic(auto)]

ghost use Rattle.std.specs.Prelude.{◌≡◌};
ghost use Rattle.std.proofs.lemmas.List.Edits.{sets};
ghost use Rattle.format_read.specs.Answer.{number_step};
ghost use Rattle.format_read.specs.Step.{stopped};
ghost use Rattle.format_also.specs.Pair.{also_at, pairs_counted, owners_of, others_of};
ghost use Rattle.format_also.specs.Answer.{pair_step};

use crate::line::also_line;
use crate::test::rank;
use base_buffer::put;
use base_limits::MAX_PAIRS;
use format_read::{Class, Cursor, Number, is_class};

mod line;
mod pair;
mod print;
mod test;

pub use pair::pair_room;
pub use print::put_pairs;

#[derive(Drop)]
pub enum PairLine {
    Pair {
        owner: u64,
        other: u64,
        next: Cursor,
    },
    Refused {
        number: u64,
        place: usize,
    },
}

// A turn more than there may be lines.
const ALSO_TURNS: usize = MAX_PAIRS + 1;

// A refused also line, as the answer of the lines.
fn stopped_line(line: PairLine) -> Number
    ensures { number_step result ≡ stopped (pair_step line) }
{
    match line {
        PairLine::Refused { number, place } => Number::Refused { number, place },
        PairLine::Pair {
            owner: _,
            other: _,
            next,
        } => {
            let place = next.at;
            Number::Refused { number: 16, place }
        }
    }
}

// The also lines, and how many they are, where there is room for so many pairs; the pairs before the first refusal go
// into the buffers, as far as these reach.
pub fn pair_lines(
    text: &[u8],
    cursor: Cursor,
    groups: &[u8],
    room: usize,
    owners: &mut [u32],
    others: &mut [u8],
) -> Number
    ensures { let lines = also_at text.now groups.now room cursor.at in
        (number_step result ≡ pairs_counted lines)
        × (owners.new ≡ sets owners.old 0 (owners_of lines.values))
        × (others.new ≡ sets others.old 0 (others_of lines.values)) }
{
    let mut next = cursor;
    let mut low = 0;
    for i in 0..ALSO_TURNS {
        let at = next.at;
        if !is_class(text, at, Class::Also) {
            return Number::Value {
                value: i as u64,
                next,
            };
        }
        let line = also_line(text, next, groups, room, low, i);
        let PairLine::Pair {
            owner,
            other,
            next: after,
        } = line
        else {
            return stopped_line(line);
        };
        let vertex = owner as u32;
        let group = other as u8;
        put(owners, i, vertex);
        put(others, i, group);
        low = rank(vertex, u32::from(group));
        next = after;
    }
    let place = next.at;
    Number::Refused { number: 16, place }
}
