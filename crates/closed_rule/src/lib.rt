// Plans with one track closed: what a call for a list of tracks answers and writes, and what it promises. Definitions
// and laws in specs/, no functions.
#![tactic(auto)]

// Tracks of one call, and numbers of a row, at most.
pub const MAX_CLOSED: usize = 256;

pub const ROW_FIGURES: usize = 4;

// What is answered for one track: what the plan with the track closed costs, and its bound; or a refusal's number and
// place.
#[derive(Drop)]
pub enum Closed {
    Finished { cost: u64, bound: u64 },
    Refused { number: u64, place: usize },
}
