// The search for a round's winner over arrays: tracks that cannot win yet are passed over by their keys, and blocks by
// their floors. Definitions in specs/Scan, Keys, Between, Held and Tables. `find_winner` answers the winner and its
// wait; `start_keys` makes the keys of the start.
#![tactic(auto)]

ghost use Rattle.std.specs.Prelude.{◌≡◌, ◌-◌, ◌*◌, ◌<◌, ◌≤◌, set, length};
ghost use Rattle.plan_search.specs.Scan.{time_limit, capped_time, block_edges, block_size, blocks_of, lowest_key};
ghost use Rattle.plan_search.specs.Tables.{tables_in, on_by, pass_by, scan_from};
ghost use Rattle.plan_search.specs.Between.{winner_in};

use crate::limit::{limit_of, next_block};
use base_buffer::{at, put};
use base_limits::MAX_EDGES;

mod better;
mod delay;
mod keys;
mod limit;
mod look;
mod rest;

pub use delay::{Winner, settled};
pub use keys::start_keys;
pub use limit::capped_time;

// The key of an edge inside a component or at rest (`no_key`).
pub const NO_KEY: u64 = 18446744073709551615;

// The search goes by times below 2^62, whose sums fit (`time_limit`).
pub const TIME_LIMIT: u64 = 4611686018427387904;

// Edges of a whole block (`block_edges`).
pub const BLOCK_EDGES: usize = 8;

// Blocks, at most (`max_blocks`).
pub const MAX_BLOCKS: usize = MAX_EDGES / BLOCK_EDGES + 1;

// What the edges of a block leave: the best so far, and the lowest of their keys.
#[derive(Clone, Copy)]
struct Passed {
    best: Option<Winner>,
    low: u64,
}

// Looks at the edges of a block whose noted keys do not say that they come later than the best so far.
fn scan_block(
    firsts: &[u32],
    seconds: &[u32],
    weights: &[u32],
    labels: &[u32],
    loads: &[u64],
    flags: &[u8],
    time: u64,
    keys: &mut [u64],
    from: usize,
    to: usize,
    best: Option<Winner>,
) -> Passed
    requires { time < time_limit }
    ensures best_value { let t = tables_in firsts.now seconds.now weights.now labels.now loads.now flags.now in
        winner_in result.best ≡ (on_by t time (scan_from (winner_in best) keys.old) from (to - from)).best }
    ensures keys_value { let t = tables_in firsts.now seconds.now weights.now labels.now loads.now flags.now in
        keys.new ≡ (on_by t time (scan_from (winner_in best) keys.old) from (to - from)).keys }
    ensures low_value { result.low ≡ lowest_key keys.new from (to - from) }
{
    let mut winner = best;
    let mut limit = limit_of(time, best);
    let mut low = NO_KEY;
    for e in from..to {
        if at(keys, e) < limit {
            winner = crate::look::look(
                firsts, seconds, weights, labels, loads, flags, time, keys, e, winner,
            );
            limit = limit_of(time, winner);
        }
        low = low.min(at(keys, e));
    }
    Passed { best: winner, low }
}

// How many edges block b has.
fn block_size(m: usize, b: usize) -> usize
    requires { block_edges * b ≤ m }
    ensures { result ≡ block_size m b }
{
    (m - BLOCK_EDGES * b).min(BLOCK_EDGES)
}

// Looks through block b, and notes its floor.
fn pass_block(
    firsts: &[u32],
    seconds: &[u32],
    weights: &[u32],
    labels: &[u32],
    loads: &[u64],
    flags: &[u8],
    time: u64,
    keys: &mut [u64],
    floors: &mut [u64],
    b: usize,
    best: Option<Winner>,
) -> Option<Winner>
    requires time_lt_time_limit { time < time_limit }
    requires b_in_bounds { block_edges * b ≤ length firsts.now }
    ensures result_value { let t = tables_in firsts.now seconds.now weights.now labels.now loads.now flags.now in
        let size = block_size (length firsts.now) b in
        winner_in result ≡ (on_by t time (scan_from (winner_in best) keys.old) (block_edges * b) size).best }
    ensures keys_value { let t = tables_in firsts.now seconds.now weights.now labels.now loads.now flags.now in
        let size = block_size (length firsts.now) b in
        keys.new ≡ (on_by t time (scan_from (winner_in best) keys.old) (block_edges * b) size).keys }
    ensures floors_value { let size = block_size (length firsts.now) b in
        floors.new ≡ set floors.old b (lowest_key keys.new (block_edges * b) size) }
{
    let from = BLOCK_EDGES * b;
    let to = from + block_size(firsts.len(), b);
    let passed = scan_block(
        firsts, seconds, weights, labels, loads, flags, time, keys, from, to, best,
    );
    put(floors, b, passed.low);
    passed.best
}

// The smallest delay, and among equals the lowest edge. Blocks whose floors say that all their edges come later are
// passed over.
pub fn find_winner(
    firsts: &[u32],
    seconds: &[u32],
    weights: &[u32],
    labels: &[u32],
    loads: &[u64],
    flags: &[u8],
    time: u64,
    keys: &mut [u64],
    floors: &mut [u64],
) -> Option<Winner>
    ensures result_value { let t = tables_in firsts.now seconds.now weights.now labels.now loads.now flags.now in
        let blocks = blocks_of (length firsts.now) in
        winner_in result ≡ (pass_by t (capped_time time) keys.old floors.old blocks).scanned.best }
    ensures keys_value { let t = tables_in firsts.now seconds.now weights.now labels.now loads.now flags.now in
        let blocks = blocks_of (length firsts.now) in
        keys.new ≡ (pass_by t (capped_time time) keys.old floors.old blocks).scanned.keys }
    ensures floors_value { let t = tables_in firsts.now seconds.now weights.now labels.now loads.now flags.now in
        let blocks = blocks_of (length firsts.now) in
        floors.new ≡ (pass_by t (capped_time time) keys.old floors.old blocks).floors }
{
    let capped = crate::limit::capped_time(time);
    let mut best: Option<Winner> = None;
    let mut limit = NO_KEY;
    let blocks = firsts.len() / BLOCK_EDGES + 1;
    let mut b = next_block(floors, 0, blocks, limit);
    // Stays a while: the next block is the one that `next_block` finds, no fixed step on.
    while b < blocks {
        best = pass_block(
            firsts, seconds, weights, labels, loads, flags, capped, keys, floors, b, best,
        );
        limit = limit_of(capped, best);
        b = next_block(floors, b + 1, blocks, limit);
    }
    best
}
