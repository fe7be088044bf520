// What merging makes of two surveys and their ties, printed.
ghost use Rattle.std.specs.Prelude.{◌≡◌};
ghost use Rattle.survey_core.specs.Survey.{lent_with};
ghost use Rattle.format_print.specs.Print.{printed, printed_out};
ghost use Rattle.merge_rule.specs.Ties.{ties_from};
ghost use Rattle.merge_rule.specs.Refusal.{merged_outcome};
ghost use Rattle.text_merge.specs.Output.{merged_text, stored_printed, stored_out};

use base_buffer::at_most;
use base_limits::{MAX_EDGES, MAX_PAIRS, MAX_VERTICES};
use format_print::Printed;
use merge_rule::Merged;

// Prints the answer: the survey at the head of six buffers, or the refusal's two lines.
fn print_merged(
    answer: Merged,
    groups: &[u8],
    firsts: &[u32],
    seconds: &[u32],
    weights: &[u32],
    owners: &[u32],
    others: &[u8],
    out: &mut [u8],
) -> Printed
    ensures result_value { let s = lent_with groups.now firsts.now seconds.now weights.now owners.now others.now in
        result ≡ stored_printed (merged_outcome answer) s out.old }
    ensures out_value { let s = lent_with groups.now firsts.now seconds.now weights.now owners.now others.now in
        out.new ≡ stored_out (merged_outcome answer) s out.old }
{
    match answer {
        Merged::Refused { number, place } => format_print::print_refusal(number, place, out),
        Merged::Finished {
            vertices,
            edges,
            pairs,
        } => {
            let n = at_most(vertices, groups.len());
            let f = at_most(edges, firsts.len());
            let s = at_most(edges, seconds.len());
            let w = at_most(edges, weights.len());
            let o = at_most(pairs, owners.len());
            let x = at_most(pairs, others.len());
            format_survey_print::print_survey(
                &groups[0..n],
                &firsts[0..f],
                &seconds[0..s],
                &weights[0..w],
                &owners[0..o],
                &others[0..x],
                out,
            )
        }
    }
}

// Prints the survey that two become, or the refusal's two lines.
pub fn merged_text(
    groups: &[u8],
    firsts: &[u32],
    seconds: &[u32],
    weights: &[u32],
    owners: &[u32],
    others: &[u8],
    second_groups: &[u8],
    second_firsts: &[u32],
    second_seconds: &[u32],
    second_weights: &[u32],
    second_owners: &[u32],
    second_others: &[u8],
    tie_firsts: &[u32],
    tie_seconds: &[u32],
    out: &mut [u8],
) -> Printed
    ensures result_value { let a = lent_with groups.now firsts.now seconds.now weights.now owners.now others.now in
        let b = lent_with second_groups.now second_firsts.now second_seconds.now second_weights.now second_owners.now second_others.now in
        result ≡ printed (merged_text a b (ties_from tie_firsts.now tie_seconds.now)) out.old }
    ensures out_value { let a = lent_with groups.now firsts.now seconds.now weights.now owners.now others.now in
        let b = lent_with second_groups.now second_firsts.now second_seconds.now second_weights.now second_owners.now second_others.now in
        out.new ≡ printed_out (merged_text a b (ties_from tie_firsts.now tie_seconds.now)) out.old }
{
    let mut out_groups = [0u8; MAX_VERTICES];
    let mut out_firsts = [0u32; MAX_EDGES];
    let mut out_seconds = [0u32; MAX_EDGES];
    let mut out_weights = [0u32; MAX_EDGES];
    let mut out_owners = [0u32; MAX_PAIRS];
    let mut out_others = [0u8; MAX_PAIRS];
    let answer = merge_core::merge(
        groups,
        firsts,
        seconds,
        weights,
        owners,
        others,
        second_groups,
        second_firsts,
        second_seconds,
        second_weights,
        second_owners,
        second_others,
        tie_firsts,
        tie_seconds,
        &mut out_groups,
        &mut out_firsts,
        &mut out_seconds,
        &mut out_weights,
        &mut out_owners,
        &mut out_others,
    );
    print_merged(
        answer,
        &out_groups,
        &out_firsts,
        &out_seconds,
        &out_weights,
        &out_owners,
        &out_others,
        out,
    )
}
