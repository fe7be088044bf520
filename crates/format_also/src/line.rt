// Reads one also line of a survey's text, and tests its pair.
ghost use Rattle.std.specs.Prelude.{◌≡◌};
ghost use Rattle.format_also.specs.Pair.{also_line};
ghost use Rattle.format_also.specs.Answer.{pair_step};

use crate::PairLine;
use crate::pair::pair_at;
use crate::test::pair_test;
use base_limits::{MAX_PAIRS, Verdict};
use format_read::Cursor;

// Also line i, where the pair before it has the rank low and there is room for so many pairs.
pub fn also_line(
    text: &[u8],
    cursor: Cursor,
    groups: &[u8],
    room: usize,
    low: u64,
    i: usize,
) -> PairLine
    ensures { pair_step result ≡ also_line text.now groups.now room low i cursor.at }
{
    let at = cursor.at;
    if MAX_PAIRS <= i {
        return PairLine::Refused {
            number: 16,
            place: at,
        };
    }
    let line = pair_at(text, cursor);
    let PairLine::Pair {
        owner,
        other,
        next: _,
    } = line
    else {
        return line;
    };
    match pair_test(groups, room, low, i, owner as u32, other as u32) {
        Verdict::Fine => line,
        Verdict::Refused { number, place } => PairLine::Refused { number, place },
    }
}
