// Plans a survey and prints the plan.
ghost use Rattle.std.specs.Prelude.{◌≡◌, ◌≤◌, length};
ghost use Rattle.base_limits.specs.Limits.{plan_room};
ghost use Rattle.survey_core.specs.Survey.{lent_with};
ghost use Rattle.format_print.specs.Print.{printed, printed_out};
ghost use Rattle.text_plan.specs.Output.{survey_output};

use crate::print::print_planned;
use base_limits::{MAX_EDGES, RECORDS_ROOM};
use format_print::Printed;

// Plans a survey and prints the plan, or the refusal's two lines.
pub fn plan_survey(
    groups: &[u8],
    firsts: &[u32],
    seconds: &[u32],
    weights: &[u32],
    owners: &[u32],
    others: &[u8],
    out: &mut [u8],
) -> Printed
    ensures result_value { let s = lent_with groups.now firsts.now seconds.now weights.now owners.now others.now in
        result ≡ printed (survey_output s) out.old }
    ensures out_value { let s = lent_with groups.now firsts.now seconds.now weights.now owners.now others.now in
        out.new ≡ printed_out (survey_output s) out.old }
    ensures fits { let s = lent_with groups.now firsts.now seconds.now weights.now owners.now others.now in
        length (survey_output s) ≤ plan_room }
{
    let mut marks = [0u8; MAX_EDGES];
    let mut records = [0u8; RECORDS_ROOM];
    let planned = plan_core::plan(
        groups,
        firsts,
        seconds,
        weights,
        owners,
        others,
        &mut marks,
        &mut records,
    );
    print_planned(planned, firsts.len(), &marks, &records, out)
}
