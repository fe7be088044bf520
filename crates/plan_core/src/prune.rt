// Dropping: any marks 0 and 1, of which those of needed tracks become 2. Definitions in plan_rule and in specs/.
ghost use Rattle.std.specs.Prelude.{◌≡◌};
ghost use Rattle.survey_core.specs.Survey.{survey_with, lent_with};
ghost use Rattle.plan_rule.specs.Dropping.{dropping, marks_dropped};
ghost use Rattle.plan_rule.specs.DropPromise.{Marked, DropPromises};
ghost use Rattle.plan_rule.specs.Answer.{dropped_outcome};

use crate::lists::list_refusal;
use crate::marks::{kept_picks, marked_refusal};
use base_limits::Verdict;
use plan_rule::Dropped;

// Dropping behind 10: 21, 14, and the marks.
fn prune_marked(
    groups: &[u8],
    firsts: &[u32],
    seconds: &[u32],
    weights: &[u32],
    owners: &[u32],
    others: &[u8],
    marks: &mut [u8],
) -> Dropped
    requires { Marked (survey_with groups.now firsts.now seconds.now weights.now owners.now others.now)
        marks.old }
    ensures result_value { let s = lent_with groups.now firsts.now seconds.now weights.now owners.now others.now in
        dropped_outcome result ≡ dropping s marks.old }
    ensures marks_value { let s = lent_with groups.now firsts.now seconds.now weights.now owners.now others.now in
        marks.new ≡ marks_dropped s marks.old }
{
    let n = groups.len();
    let m = firsts.len();
    let poured = survey_lists::pour::pour(groups, owners, others);
    let lists = &poured[0..n];
    let all = kept_picks(marks, m);
    let picks = &all[0..m];
    let pruned = plan_drop::prune_picks(lists, firsts, seconds, picks, marks);
    let found = list_refusal(
        pruned, groups, firsts, seconds, weights, owners, others, picks,
    );
    if let Verdict::Refused { number, place } = found {
        return Dropped::Refused { number, place };
    }
    let terminals = survey_groups::terminals::terminals(lists);
    let cost = check_core::kept_cost(firsts, weights, marks);
    Dropped::Finished { terminals, cost }
}

// Drops what is not needed of any marks 0 and 1: needed 1s become 2, and nothing else is written. Finished exactly if
// the marks are those of a forest that joins every list; then what is kept joins every list, and none of it can be
// spared. 21 exactly if a picked track closes a loop, and then the lowest; 14 for the picked tracks, as the checker
// gives it for the kept ones. Accuracy is promised where the checker passes the marks.
pub fn prune_plan(
    groups: &[u8],
    firsts: &[u32],
    seconds: &[u32],
    weights: &[u32],
    owners: &[u32],
    others: &[u8],
    marks: &mut [u8],
) -> Dropped
    ensures result_value { let s = lent_with groups.now firsts.now seconds.now weights.now owners.now others.now in
        dropped_outcome result ≡ dropping s marks.old }
    ensures marks_value { let s = lent_with groups.now firsts.now seconds.now weights.now owners.now others.now in
        marks.new ≡ marks_dropped s marks.old }
    ensures promises { let s = lent_with groups.now firsts.now seconds.now weights.now owners.now others.now in
        DropPromises s marks.old marks.new (dropped_outcome result) }
{
    let unfit = marked_refusal(groups, firsts, seconds, weights, owners, others, marks);
    if let Verdict::Refused { number, place } = unfit {
        return Dropped::Refused { number, place };
    }
    prune_marked(groups, firsts, seconds, weights, owners, others, marks)
}
