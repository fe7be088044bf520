// Printing of a plan for a caller that gets one number back and the text's length in a lent buffer.
ghost use Rattle.std.specs.Prelude.{◌≡◌};
ghost use Rattle.format_write.specs.Text.{plan_text};
ghost use Rattle.api_code.specs.Code.{code_of};
ghost use Rattle.api_print.specs.Call.{text_call, text_out, text_counts};

use crate::{PRINT_FIGURES, printed_code};
use format_print::print_plan;

// Prints a plan from its figures, marks and moat records. `counts` gets the text's length.
pub fn print_plan_call(
    terminals: u64,
    cost: u64,
    bound: u64,
    rounds: u64,
    marks: &[u8],
    records: &[u8],
    out: &mut [u8],
    counts: &mut [u64],
) -> u64
    ensures code { let text = plan_text terminals cost bound rounds marks.now records.now in
        result ≡ code_of (text_call text out.old counts.old) }
    ensures out { let text = plan_text terminals cost bound rounds marks.now records.now in
        out.new ≡ text_out text out.old counts.old }
    ensures counts { let text = plan_text terminals cost bound rounds marks.now records.now in
        counts.new ≡ text_counts text out.old counts.old }
{
    let room = api_code::lent_on(counts.len(), PRINT_FIGURES, out.len());
    let answer = print_plan(
        terminals,
        cost,
        bound,
        rounds,
        marks,
        records,
        &mut out[0..room],
    );
    printed_code(answer, counts)
}
