// What waking an edge asks and notes: whether it ends at a vertex, its key, and the floor of its block. Definitions in
// plan_wake.
ghost use Rattle.std.specs.Prelude.{◌≡◌};
ghost use Rattle.plan_wake.specs.Wake.{ends_at, woken_key, lowered};

use base_buffer::{at, put};

// Whether edge e has vertex c as an end.
pub fn ends_at(firsts: &[u32], seconds: &[u32], c: u32, e: usize) -> bool
    ensures { result ≡ ends_at firsts.now seconds.now c e }
{
    if at(firsts, e) == c {
        return true;
    }
    at(seconds, e) == c
}

// The key of edge e, woken at a vertex that is so far behind.
pub fn woken_key(weights: &[u32], behind: u64, e: usize) -> u64
    ensures { result ≡ woken_key weights.now behind e }
{
    plan_search::capped_time(behind) + 2 * u64::from(at(weights, e))
}

// The floor of block b becomes the key if it is above it.
pub fn lower_floor(floors: &mut [u64], b: usize, key: u64)
    ensures { floors.new ≡ lowered floors.old b key }
{
    if key < at(floors, b) {
        put(floors, b, key);
    }
}
