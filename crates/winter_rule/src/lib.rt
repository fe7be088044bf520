// Groups that carry a strength, and copies of tracks that meet it: what the call answers and writes, and what it
// promises. Definitions and laws in specs/, no functions.
#![tactic(auto)]

// Strengths of one call, that of group 1 first; the highest; and its bits.
pub const STRENGTHS: usize = 255;

pub const MAX_STRENGTH: u8 = 15;

pub const STRENGTH_BITS: usize = 4;

// The total price of the copies; or a refusal's number and place.
#[derive(Drop)]
pub enum Winter {
    Finished { total: u64 },
    Refused { number: u64, place: usize },
}
