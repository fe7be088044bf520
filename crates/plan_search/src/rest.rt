// Which edges rest: those with both ends idle and alone. Definitions in specs/.
ghost use Rattle.std.specs.Prelude.{◌≡◌};
ghost use Rattle.plan_search.specs.Tables.{alone_at, rests_between};

use crate::delay::End;

// Whether the end at vertex v is not active, and a component of its own.
pub fn alone_at(v: usize, end: End) -> bool
    ensures { result ≡ alone_at v end }
{
    if end.flag == 1 {
        return false;
    }
    end.label as usize == v
}

// Whether an edge between vertices u and v rests.
pub fn rests_between(u: usize, v: usize, first: End, second: End) -> bool
    ensures { result ≡ rests_between u v first second }
{
    if alone_at(u, first) {
        return alone_at(v, second);
    }
    false
}
