// A floor under the cost of every set of tracks that joins every group: dual ascent over directed cuts (specs/Ascent),
// over the survey's lists poured together (specs/Number), with the plan's figures (specs/Floor), and what is promised
// of it (specs/Promise). It holds the type of the answer, and no function.
#![tactic(auto)]

use base_limits::{MAX_EDGES, MAX_WEIGHT};

// Arcs, at most: each track is two.
pub const MAX_ARCS: usize = 2 * MAX_EDGES;

// No set of tracks costs more.
pub const MAX_COST: u64 = (MAX_EDGES as u64) * (MAX_WEIGHT as u64);

// What is answered: the floor, k, what the plan costs and its bound; or a refusal's number and place.
#[derive(Drop)]
pub enum Floored {
    Finished {
        floor: u64,
        terminals: u64,
        cost: u64,
        bound: u64,
    },
    Refused {
        number: u64,
        place: usize,
    },
}
