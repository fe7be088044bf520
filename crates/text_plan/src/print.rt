// Prints what planning answers: the plan that it left in two buffers, or the refusal's two lines.
ghost use Rattle.std.specs.Prelude.{◌≡◌};
ghost use Rattle.format_print.specs.Print.{printed, printed_out};
ghost use Rattle.plan_rule.specs.Answer.{planned_outcome};
ghost use Rattle.text_plan.specs.Planned.{records_held, planned_text, WordsIn};

use base_buffer::at_most;
use base_limits::RECORD_BYTES;
use format_print::Printed;
use plan_rule::Planned;

// As many bytes as these moats have records, or all.
fn record_bytes(duals: u64, room: usize) -> usize
    ensures { result ≡ records_held duals room }
{
    let wanted = duals as usize;
    if room / RECORD_BYTES < wanted {
        return room;
    }
    RECORD_BYTES * wanted
}

// Prints the answer: the plan, of the first marks and the first records, or the refusal's two lines.
pub fn print_planned(
    planned: Planned,
    edges: usize,
    marks: &[u8],
    records: &[u8],
    out: &mut [u8],
) -> Printed
    ensures result_value { let text = planned_text (planned_outcome planned) edges marks.now records.now in
        result ≡ printed text out.old }
    ensures out_value { let text = planned_text (planned_outcome planned) edges marks.now records.now in
        out.new ≡ printed_out text out.old }
    ensures words { WordsIn (planned_outcome planned) }
{
    match planned {
        Planned::Refused { number, place } => format_print::print_refusal(number, place, out),
        Planned::Finished {
            terminals,
            cost,
            bound,
            rounds,
            duals,
        } => {
            let tracks = at_most(edges, marks.len());
            let size = record_bytes(duals, records.len());
            format_print::print_plan(
                terminals,
                cost,
                bound,
                rounds,
                &marks[0..tracks],
                &records[0..size],
                out,
            )
        }
    }
}
