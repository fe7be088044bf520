// Printing, and packing of track tables, for a caller that gets one number back and a text's length in a lent buffer.
// Definitions in specs/Call. Every call answers 0, or number + 256 * place.
#![tactic(auto)]

ghost use Rattle.std.specs.Prelude.{◌≡◌};
ghost use Rattle.api_code.specs.Code.{code_of, capped};
ghost use Rattle.api_print.specs.Call.{printed_code, printed_counts, dual_call, dual_out, dual_counts};

use base_buffer::put;
use format_print::{Printed, print_dual};

mod plan;
mod survey;
mod table;

pub use plan::print_plan_call;
pub use survey::print_survey_call;
pub use table::{pack_table_call, unpack_table_call};

// Entries of the counts.
pub const PRINT_FIGURES: usize = 1;

// What printing answered, as one number; `counts` gets the text's length.
pub fn printed_code(answer: Printed, counts: &mut [u64]) -> u64
    ensures value { result ≡ capped (printed_code answer) }
    ensures counts_value { counts.new ≡ printed_counts answer counts.old }
{
    match answer {
        Printed::Length(n) => {
            put(counts, 0, n as u64);
            0
        }
        Printed::Refused { number, place } => api_code::code(number, place),
    }
}

// Prints the line of a moat record. `counts` gets its length.
pub fn print_dual_call(part: &[u8], out: &mut [u8], counts: &mut [u64]) -> u64
    ensures code { result ≡ code_of (dual_call part.now out.old counts.old) }
    ensures out { out.new ≡ dual_out part.now out.old counts.old }
    ensures counts { counts.new ≡ dual_counts part.now out.old counts.old }
{
    let room = api_code::lent_on(counts.len(), PRINT_FIGURES, out.len());
    let answer = print_dual(part, &mut out[0..room]);
    printed_code(answer, counts)
}
