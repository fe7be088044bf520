// Waking the edges that end at a vertex, block by block. Definitions in specs/.
ghost use Rattle.std.specs.Prelude.{◌≡◌, ◌-◌, ◌≤◌, get_or, length, eqb};
ghost use Rattle.base_finite.specs.Below.{counted, any_below};
ghost use Rattle.plan_wake.specs.Wake.{ends_at, notes_from, woken_key, woken_edge, woken_on};

use crate::key::{ends_at, lower_floor, woken_key};
use base_buffer::put;
use plan_search::BLOCK_EDGES;

// So many edges are compared with a vertex at once (`wake_edges`).
const WAKE_EDGES: usize = 16;

// 1 if some of these ends is c. The loop runs to its end, so that several are compared at once.
fn has_end(ends: &[u32], c: u32) -> u32
    ensures { result ≡ counted (any_below (length ends.now) (λ i. eqb (get_or ends.now i 0) c)) 1 }
{
    let mut found = 0;
    for x in ends {
        found |= u32::from(*x == c);
    }
    found
}

// Edge e is woken if it ends at c.
fn wake_edge(
    firsts: &[u32],
    seconds: &[u32],
    weights: &[u32],
    c: u32,
    behind: u64,
    keys: &mut [u64],
    floors: &mut [u64],
    e: usize,
)
    ensures { let s = notes_from keys.old floors.old in
        let woken = woken_edge (ends_at firsts.now seconds.now c) (woken_key weights.now behind) s e in
        notes_from keys.new floors.new ≡ woken }
{
    if ends_at(firsts, seconds, c, e) {
        let key = woken_key(weights, behind, e);
        put(keys, e, key);
        lower_floor(floors, e / BLOCK_EDGES, key);
    }
}

// Those of some edges that end at c.
fn wake_edges(
    firsts: &[u32],
    seconds: &[u32],
    weights: &[u32],
    c: u32,
    behind: u64,
    keys: &mut [u64],
    floors: &mut [u64],
    from: usize,
    to: usize,
)
    ensures { let s = notes_from keys.old floors.old in
        let woken = woken_on (ends_at firsts.now seconds.now c) (woken_key weights.now behind) s from (to - from) in
        notes_from keys.new floors.new ≡ woken }
{
    for e in from..to {
        wake_edge(firsts, seconds, weights, c, behind, keys, floors, e);
    }
}

// Those of a part, which is passed over if none of them ends at c.
fn wake_part(
    firsts: &[u32],
    seconds: &[u32],
    weights: &[u32],
    c: u32,
    behind: u64,
    keys: &mut [u64],
    floors: &mut [u64],
    from: usize,
    to: usize,
)
    requires from_le_to { from ≤ to }
    requires to_in_bounds { to ≤ length firsts.now }
    requires to_in_bounds_2 { to ≤ length seconds.now }
    ensures { let s = notes_from keys.old floors.old in
        let woken = woken_on (ends_at firsts.now seconds.now c) (woken_key weights.now behind) s from (to - from) in
        notes_from keys.new floors.new ≡ woken }
{
    let found = has_end(&firsts[from..to], c) | has_end(&seconds[from..to], c);
    if 0 < found {
        wake_edges(firsts, seconds, weights, c, behind, keys, floors, from, to);
    }
}

// All edges that end at c: part after part, each of as many edges, so that they are compared at once; then the rest.
pub fn wake_ends(
    firsts: &[u32],
    seconds: &[u32],
    weights: &[u32],
    c: u32,
    behind: u64,
    keys: &mut [u64],
    floors: &mut [u64],
)
    ensures { let m = length firsts.now in
        let s = notes_from keys.old floors.old in
        let woken = woken_on (ends_at firsts.now seconds.now c) (woken_key weights.now behind) s 0 m in
        notes_from keys.new floors.new ≡ woken }
{
    let parts = firsts.len().min(seconds.len()) / WAKE_EDGES;
    for part in 0..parts {
        let from = WAKE_EDGES * part;
        let to = from + WAKE_EDGES;
        wake_part(firsts, seconds, weights, c, behind, keys, floors, from, to);
    }
    wake_edges(
        firsts,
        seconds,
        weights,
        c,
        behind,
        keys,
        floors,
        WAKE_EDGES * parts,
        firsts.len(),
    );
}
