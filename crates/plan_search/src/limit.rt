// The limit below which the search looks: the time that it goes by, and the next block with a floor below the
// limit. Definitions in specs/.
ghost use Rattle.std.specs.Prelude.{◌≡◌, ◌-◌};
ghost use Rattle.plan_search.specs.Scan.{limit_of, capped_time, next_block};
ghost use Rattle.plan_search.specs.Between.{winner_in};

use crate::delay::Winner;
use crate::{NO_KEY, TIME_LIMIT};
use base_buffer::at;

const LAST_TIME: u64 = TIME_LIMIT - 1;

// The time that the search goes by: a later one is taken for the last whose sums fit.
pub fn capped_time(time: u64) -> u64
    ensures { result ≡ capped_time time }
{
    time.min(LAST_TIME)
}

// Twice the time of the best so far.
pub fn limit_of(time: u64, best: Option<Winner>) -> u64
    ensures { result ≡ limit_of (capped_time time) (winner_in best) }
{
    let Some(Winner { e: _, d }) = best else {
        return NO_KEY;
    };
    if d < TIME_LIMIT {
        return 2 * (capped_time(time) + d);
    }
    NO_KEY
}

// The first block from `from` on whose floor is below the limit.
pub fn next_block(floors: &[u64], from: usize, to: usize, limit: u64) -> usize
    ensures { result ≡ next_block floors.now limit from (to - from) }
{
    for b in from..to {
        if at(floors, b) < limit {
            return b;
        }
    }
    from.max(to)
}
