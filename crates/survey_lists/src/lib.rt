// Member lists that overlap: those that share a member poured together (specs/Pouring), and 8 and 14 by lists
// (specs/Split). `pour::pour` answers the poured groups, `unjoined_refusal` the lowest list that tracks leave
// apart, of a survey that was judged, `group_refusal` of any.
#![tactic(auto)]

mod homes;
pub mod pour;
mod split;

pub use split::{group_refusal, unjoined_refusal};
