// The delay of an edge, and the better of two. Definitions in specs/Between, types in `delay`.
ghost use Rattle.std.specs.Prelude.{◌≡◌, eqb};
ghost use Rattle.theory_steiner.specs.Growth.{active_ends, delay_of, better};
ghost use Rattle.plan_search.specs.Between.{ends_in, delay_in, winner_in};

use crate::delay::{ActiveEnds, Winner};

// How many ends of an edge between two components are active.
fn active_ends(first: u8, second: u8) -> ActiveEnds
    ensures { ends_in result ≡ active_ends (eqb first 1) (eqb second 1) }
{
    if first == 1 {
        if second == 1 {
            return ActiveEnds::Both;
        }
        return ActiveEnds::One;
    }
    if second == 1 {
        return ActiveEnds::One;
    }
    ActiveEnds::Neither
}

// The delay by whether each end is active, and what remains; none if neither is.
pub fn delay_of(first: u8, second: u8, slack: u64) -> Option<u64>
    ensures { delay_in result ≡ delay_of (eqb first 1) (eqb second 1) slack }
{
    let ends = active_ends(first, second);
    match ends {
        ActiveEnds::Neither => None,
        ActiveEnds::One => Some(slack),
        ActiveEnds::Both => Some(slack / 2),
    }
}

// The earlier edge keeps its place unless the later one's delay is smaller. The answer is made anew and no copy, which
// takes the compiler several moves through memory.
pub fn better_of(best: Option<Winner>, e: usize, delay: Option<u64>) -> Option<Winner>
    ensures { winner_in result ≡ better (winner_in best) e (delay_in delay) }
{
    let Some(Winner { e: f, d: c }) = best else {
        let Some(d) = delay else {
            return None;
        };
        return Some(Winner { e, d });
    };
    let Some(d) = delay else {
        return Some(Winner { e: f, d: c });
    };
    if d < c {
        return Some(Winner { e, d });
    }
    Some(Winner { e: f, d: c })
}
