// One survey of two neighbouring ones, for a caller that gets one number back and the counts in a lent buffer.
// Definitions in specs/Call.
#![tactic(auto)]

ghost use Rattle.std.specs.Prelude.{◌≡◌, length};
ghost use Rattle.survey_core.specs.Survey.{survey_with, lent_with};
ghost use Rattle.api_code.specs.Code.{code_of, capped, verdict_of, counts_for};
ghost use Rattle.merge_rule.specs.Ties.{ties_from};
ghost use Rattle.merge_rule.specs.Refusal.{room_of, merged_outcome};
ghost use Rattle.api_merge.specs.Call.{merge_figures_of, call_refusal, merge_out, merge_counts};

use merge_rule::{MERGE_FIGURES, Merged};

// What merging answered, as one number; `counts` gets n, m and the number of pairs.
fn merge_code(answer: Merged, counts: &mut [u64]) -> u64
    ensures value { result ≡ capped (code_of (verdict_of (merged_outcome answer))) }
    ensures counts_value { counts.new ≡ counts_for (merged_outcome answer) merge_figures_of counts.old }
{
    match answer {
        Merged::Finished {
            vertices,
            edges,
            pairs,
        } => {
            api_code::store_three(counts, vertices as u64, edges as u64, pairs as u64);
            0
        }
        Merged::Refused { number, place } => api_code::code(number, place),
    }
}

// Makes one survey of two, given ties. `counts` gets n, m and the number of pairs of the result.
pub fn merge_call(
    groups: &[u8],
    firsts: &[u32],
    seconds: &[u32],
    weights: &[u32],
    owners: &[u32],
    others: &[u8],
    second_groups: &[u8],
    second_firsts: &[u32],
    second_seconds: &[u32],
    second_weights: &[u32],
    second_owners: &[u32],
    second_others: &[u8],
    tie_firsts: &[u32],
    tie_seconds: &[u32],
    out_groups: &mut [u8],
    out_firsts: &mut [u32],
    out_seconds: &mut [u32],
    out_weights: &mut [u32],
    out_owners: &mut [u32],
    out_others: &mut [u8],
    counts: &mut [u64],
) -> u64
    ensures code { let a = lent_with groups.now firsts.now seconds.now weights.now owners.now others.now in
        let b = lent_with second_groups.now second_firsts.now second_seconds.now second_weights.now second_owners.now second_others.now in
        let ties = ties_from tie_firsts.now tie_seconds.now in
        let out = lent_with out_groups.old out_firsts.old out_seconds.old out_weights.old out_owners.old out_others.old in
        result ≡ code_of (call_refusal a b ties (room_of out) (length counts.old)) }
    ensures buffers { let a = lent_with groups.now firsts.now seconds.now weights.now owners.now others.now in
        let b = lent_with second_groups.now second_firsts.now second_seconds.now second_weights.now second_owners.now second_others.now in
        let ties = ties_from tie_firsts.now tie_seconds.now in
        let out = lent_with out_groups.old out_firsts.old out_seconds.old out_weights.old out_owners.old out_others.old in
        survey_with out_groups.new out_firsts.new out_seconds.new out_weights.new out_owners.new
        out_others.new ≡ merge_out a b ties out (length counts.old) }
    ensures counts { let a = lent_with groups.now firsts.now seconds.now weights.now owners.now others.now in
        let b = lent_with second_groups.now second_firsts.now second_seconds.now second_weights.now second_owners.now second_others.now in
        let ties = ties_from tie_firsts.now tie_seconds.now in
        let out = lent_with out_groups.old out_firsts.old out_seconds.old out_weights.old out_owners.old out_others.old in
        counts.new ≡ merge_counts a b ties (room_of out) counts.old }
{
    let room = api_code::lent_on(counts.len(), MERGE_FIGURES, out_groups.len());
    let answer = merge_core::merge(
        groups,
        firsts,
        seconds,
        weights,
        owners,
        others,
        second_groups,
        second_firsts,
        second_seconds,
        second_weights,
        second_owners,
        second_others,
        tie_firsts,
        tie_seconds,
        &mut out_groups[0..room],
        out_firsts,
        out_seconds,
        out_weights,
        out_owners,
        out_others,
    );
    merge_code(answer, counts)
}
