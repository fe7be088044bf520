// One survey of two neighbouring ones, given ties between them. Definitions and promises in merge_rule.
#![tactic(auto)]

ghost use Rattle.std.specs.Prelude.{◌≡◌};
ghost use Rattle.survey_core.specs.Survey.{survey_with, lent_with};
ghost use Rattle.merge_rule.specs.Ties.{ties_from};
ghost use Rattle.merge_rule.specs.Refusal.{merging, room_of, merged_after, merged_outcome};
ghost use Rattle.merge_rule.specs.Promise.{MergePromises};

use crate::counts::{large_refusal, room_refusal};
use crate::pairs::collect_pairs;
use crate::places::store_places;
use crate::ties::ties_refusal;
use crate::write::{write_ends, write_groups, write_pairs, write_weights};
use base_limits::{MAX_PAIRS, MAX_VERTICES, Verdict};
use merge_rule::Merged;
use survey_refusal::survey_refusal;

mod counts;
mod find;
mod pairs;
mod places;
mod row;
mod ties;
mod write;

// One survey of two. Junctions of the first keep their numbers, the untied ones of the second follow, rising; tracks of
// the first come first. A tied junction has the groups of both: its own is the first's, or the second's where that is
// 0, and every other is a pair once. Refused are the first's 1 to 6 and 18, the second's, then 2 and 22 for the ties,
// then for the result 1, 3, 18 and 7; a refusal writes nothing. Both surveys can be read out of the result again.
pub fn merge(
    groups: &[u8],
    firsts: &[u32],
    seconds: &[u32],
    weights: &[u32],
    owners: &[u32],
    others: &[u8],
    second_groups: &[u8],
    second_firsts: &[u32],
    second_seconds: &[u32],
    second_weights: &[u32],
    second_owners: &[u32],
    second_others: &[u8],
    tie_firsts: &[u32],
    tie_seconds: &[u32],
    out_groups: &mut [u8],
    out_firsts: &mut [u32],
    out_seconds: &mut [u32],
    out_weights: &mut [u32],
    out_owners: &mut [u32],
    out_others: &mut [u8],
) -> Merged
    ensures result_value { let a = lent_with groups.now firsts.now seconds.now weights.now owners.now others.now in
        let b = lent_with second_groups.now second_firsts.now second_seconds.now second_weights.now second_owners.now second_others.now in
        let ties = ties_from tie_firsts.now tie_seconds.now in
        let out = lent_with out_groups.old out_firsts.old out_seconds.old out_weights.old out_owners.old out_others.old in
        merged_outcome result ≡ merging a b ties (room_of out) }
    ensures out_others_value { let a = lent_with groups.now firsts.now seconds.now weights.now owners.now others.now in
        let b = lent_with second_groups.now second_firsts.now second_seconds.now second_weights.now second_owners.now second_others.now in
        let ties = ties_from tie_firsts.now tie_seconds.now in
        let out = lent_with out_groups.old out_firsts.old out_seconds.old out_weights.old out_owners.old out_others.old in
        survey_with out_groups.new out_firsts.new out_seconds.new out_weights.new out_owners.new
        out_others.new ≡ merged_after a b ties out }
    ensures promises { let a = lent_with groups.now firsts.now seconds.now weights.now owners.now others.now in
        let b = lent_with second_groups.now second_firsts.now second_seconds.now second_weights.now second_owners.now second_others.now in
        let ties = ties_from tie_firsts.now tie_seconds.now in
        let out = lent_with out_groups.old out_firsts.old out_seconds.old out_weights.old out_owners.old out_others.old in
        MergePromises a b ties out result }
{
    let first_found = survey_refusal(groups, firsts, seconds, weights, owners, others);
    if let Verdict::Refused { number, place } = first_found {
        return Merged::Refused { number, place };
    }
    let second_found = survey_refusal(
        second_groups,
        second_firsts,
        second_seconds,
        second_weights,
        second_owners,
        second_others,
    );
    if let Verdict::Refused { number, place } = second_found {
        return Merged::Refused { number, place };
    }
    let ties_found = ties_refusal(groups.len(), second_groups.len(), tie_firsts, tie_seconds);
    if let Verdict::Refused { number, place } = ties_found {
        return Merged::Refused { number, place };
    }
    let mut places = [0u32; MAX_VERTICES];
    let vertices = store_places(
        groups.len(),
        second_groups.len(),
        tie_firsts,
        tie_seconds,
        &mut places,
    );
    let edges = firsts.len() + second_firsts.len();
    let mut ranks = [0u32; MAX_PAIRS];
    let pairs = collect_pairs(
        groups,
        owners,
        others,
        second_groups,
        second_owners,
        second_others,
        &places,
        vertices,
        &mut ranks,
    );
    let large = large_refusal(vertices, edges, pairs);
    if let Verdict::Refused { number, place } = large {
        return Merged::Refused { number, place };
    }
    let short = room_refusal(
        vertices,
        edges,
        pairs,
        out_groups.len(),
        out_firsts.len(),
        out_seconds.len(),
        out_weights.len(),
        out_owners.len(),
        out_others.len(),
    );
    if let Verdict::Refused { number, place } = short {
        return Merged::Refused { number, place };
    }
    write_groups(groups, second_groups, &places, vertices, out_groups);
    write_ends(firsts, second_firsts, &places, out_firsts);
    write_ends(seconds, second_seconds, &places, out_seconds);
    write_weights(weights, second_weights, out_weights);
    write_pairs(&ranks, pairs, out_owners, out_others);
    Merged::Finished {
        vertices,
        edges,
        pairs,
    }
}
