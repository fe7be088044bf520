// Which picked tracks of a forest are needed: each has a cut of its own, and 64 of them are judged at once. Definitions
// in specs/Side, Needed, Judge and the like. `prune_picks` writes the marks, or answers 21 or 14; `prune` judges the
// survey and the picks first.
#![tactic(auto)]

ghost use Rattle.std.specs.Prelude.{◌≡◌, [], length};
ghost use Rattle.base_finite.specs.Below.{tabulate};
ghost use Rattle.base_limits.specs.Limits.{max_vertices};
ghost use Rattle.base_limits.specs.Verdict.{◌before◌, written};
ghost use Rattle.survey_core.specs.Survey.{survey_from, lent_survey};
ghost use Rattle.survey_core.specs.Refusal.{group_refusal};
ghost use Rattle.survey_groups.specs.Mate.{mate_of};
ghost use Rattle.survey_components.specs.Labels.{picked_in};
ghost use Rattle.survey_components.specs.Forest.{loop_refusal, forest_refusal};
ghost use Rattle.plan_drop.specs.Prunable.{Picks, Prunable, unweighted};
ghost use Rattle.plan_drop.specs.Judge.{batch_marks, pruned_marks, marks_pruned};

use base_limits::{MAX_VERTICES, Verdict};

mod bits;
mod dropped;
mod judge;
mod peel;
mod sides;
mod taken;
mod word;

// Edges of one batch.
pub const WORD_BITS: usize = 64;

// The 64 picked edges from index base on, by an order in which vertices may hang on others by their links.
fn prune_batch(
    groups: &[u8],
    firsts: &[u32],
    seconds: &[u32],
    picked: &[u8],
    mates: &[u32; MAX_VERTICES],
    order: &[u32; MAX_VERTICES],
    others: &[u32; MAX_VERTICES],
    links: &[u32; MAX_VERTICES],
    count: usize,
    marks: &mut [u8],
    base: usize,
)
    requires { Prunable groups.now firsts.now seconds.now picked.now
        × (mates.now ≡ tabulate max_vertices (mate_of groups.now)) }
    ensures { let p = unweighted groups.now firsts.now seconds.now in
        marks.new ≡ batch_marks p (picked_in picked.now) base (length firsts.now) marks.old }
{
    let words = crate::sides::side_words(
        firsts, seconds, picked, order, others, links, count, base,
    );
    crate::judge::judge_edges(
        &words,
        mates,
        groups.len(),
        picked,
        base,
        marks,
        firsts.len(),
    );
}

// All batches. Which edges a picked set needs is found by their sides, and those are only defined in a forest that
// joins every group.
fn prune_forest(groups: &[u8], firsts: &[u32], seconds: &[u32], picked: &[u8], marks: &mut [u8])
    requires { Prunable groups.now firsts.now seconds.now picked.now }
    ensures { let p = unweighted groups.now firsts.now seconds.now in
        marks.new ≡ pruned_marks p (picked_in picked.now) (length firsts.now) marks.old }
{
    crate::dropped::drop_all(picked, marks, firsts.len());
    let mates = survey_groups::mates::mates(groups);
    let guess = crate::peel::peel(firsts, seconds, picked, groups.len() as u32);
    let order = guess.order;
    let others = guess.others;
    let links = guess.marks;
    let hung = guess.count;
    let count = crate::dropped::count_picked(picked, firsts.len());
    for base in (0..count).step_by(WORD_BITS) {
        prune_batch(
            groups, firsts, seconds, picked, &mates, &order, &others, &links, hung, marks, base,
        );
    }
}

// Marks every edge of a survey that 1 to 6 do not refuse, of picks of its tracks: 0 not picked, 1 picked and dropped, 2
// needed. Refused, with no mark written, are 21 for a picked track that closes a loop, 14 for a group that the picked
// tracks leave apart.
pub fn prune_picks(
    groups: &[u8],
    firsts: &[u32],
    seconds: &[u32],
    picked: &[u8],
    marks: &mut [u8],
) -> Verdict
    requires { Picks groups.now firsts.now seconds.now picked.now }
    ensures result_value { let s = survey_from groups.now firsts.now seconds.now [] in
        result ≡ (loop_refusal s (picked_in picked.now) before group_refusal s 14 (picked_in picked.now)) }
    ensures marks_value { let p = unweighted groups.now firsts.now seconds.now in
        let pruned = pruned_marks p (picked_in picked.now) (length firsts.now) marks.old in
        marks.new ≡ written result pruned marks.old }
{
    let found = survey_components::loop_refusal(groups, firsts, seconds, picked);
    let Verdict::Fine = found else {
        return found;
    };
    prune_forest(groups, firsts, seconds, picked, marks);
    Verdict::Fine
}

// The same of any survey and any picks: 1 to 6 and 9 for picks not m long come before 21 and 14.
pub fn prune(
    groups: &[u8],
    firsts: &[u32],
    seconds: &[u32],
    weights: &[u32],
    picked: &[u8],
    marks: &mut [u8],
) -> Verdict
    ensures value { result ≡ forest_refusal (lent_survey groups.now firsts.now seconds.now weights.now) picked.now }
    ensures marks_value { marks.new ≡ marks_pruned (lent_survey groups.now firsts.now seconds.now weights.now) picked.now marks.old }
{
    let found = survey_components::forest_refusal(groups, firsts, seconds, weights, picked);
    let Verdict::Fine = found else {
        return found;
    };
    prune_forest(groups, firsts, seconds, picked, marks);
    Verdict::Fine
}
