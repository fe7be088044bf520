// Plans, moat lines, rows of closed tracks and refusals out. What printing answers and writes is specs/Print, what fits
// is specs/Within. Each call answers the text's length (`Printed`), or a refusal, and then the buffer holds what it held.
#![tactic(auto)]

mod closed;
mod lines;
mod plan;
mod put_dual;
mod put_plan;

pub use closed::{print_rows, put_field};
pub use lines::{print_dual, print_refusal};
pub use plan::{plan_buffer, print_plan};

// The text's length, or a refusal's number and place.
#[derive(Drop)]
pub enum Printed {
    Length(usize),
    Refused { number: u64, place: usize },
}
