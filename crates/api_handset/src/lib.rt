// Planning and checking from the handset, with bytes alone. Definitions in specs/Words (numbers as bytes), Slices (the
// survey that slices spell), Call (what is answered and written) and Crossing. `handset_plan` and `handset_check`
// answer 0, or number + 256 * place.
#![tactic(auto)]

mod check;
mod counts;
mod lengths;
mod plan;
mod result;
mod result_check;
mod words;

pub use check::handset_check;
pub use counts::write_counts;
pub use plan::handset_plan;
