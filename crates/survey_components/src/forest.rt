// Tracks that close a loop: what keeps marks from being those of a forest that joins every group.
ghost use Rattle.std.specs.Prelude.{◌≡◌, cond, ◌&&◌, [], get_or, length};
ghost use Rattle.base_limits.specs.Verdict.{refuse_if, ◌before◌};
ghost use Rattle.survey_core.specs.Survey.{survey_from, lent_survey};
ghost use Rattle.survey_core.specs.Refusal.{group_refusal};
ghost use Rattle.survey_components.specs.Roots.{ends_hung, one_root};
ghost use Rattle.survey_components.specs.Labels.{picked_in};
ghost use Rattle.survey_components.specs.Forest.{EndsBelow, loop_refusal, forest_refusal};

use crate::hang::hang_ends;
use crate::is_picked;
use base_limits::{MAX_VERTICES, Verdict};

// The ends of edge e come into one tree, if it is picked; 21 where they are in one already.
fn join_picked(
    firsts: &[u32],
    seconds: &[u32],
    picked: &[u8],
    labels: &mut [u32],
    e: usize,
) -> Verdict
    ensures closed { let first = get_or firsts.now e 0 in
        let second = get_or seconds.now e 0 in
        let one = one_root (length firsts.now) first second labels.old in
        result ≡ refuse_if (picked_in picked.now e && one) 21 e }
    ensures joined { let first = get_or firsts.now e 0 in
        let hung = ends_hung (length firsts.now) first (get_or seconds.now e 0) labels.old in
        labels.new ≡ cond (picked_in picked.now e) hung labels.old }
{
    if is_picked(picked, e) {
        let linked = hang_ends(
            labels,
            base_buffer::at(firsts, e),
            base_buffer::at(seconds, e),
            firsts.len(),
        );
        if linked {
            return Verdict::Refused {
                number: 21,
                place: e,
            };
        }
        return Verdict::Fine;
    }
    Verdict::Fine
}

// 21 at the lowest picked track whose ends are linked already, then 14.
pub fn loop_refusal(groups: &[u8], firsts: &[u32], seconds: &[u32], picked: &[u8]) -> Verdict
    requires { EndsBelow groups.now firsts.now seconds.now }
    ensures { let s = survey_from groups.now firsts.now seconds.now [] in
        let picks = picked_in picked.now in
        result ≡ (loop_refusal s picks before group_refusal s 14 picks) }
{
    let mut labels = [0u32; MAX_VERTICES];
    crate::labels::own_labels(&mut labels);
    for e in 0..firsts.len() {
        let found = join_picked(firsts, seconds, picked, &mut labels[0..groups.len()], e);
        let Verdict::Fine = found else {
            return found;
        };
    }
    crate::level::level(&mut labels[0..groups.len()], firsts.len());
    survey_groups::split_refusal(groups, &labels, 14)
}

// What keeps marks from being those of a forest that joins every group: 1 to 6, 9 for marks not m long, 21, then 14 for
// the picked tracks.
pub fn forest_refusal(
    groups: &[u8],
    firsts: &[u32],
    seconds: &[u32],
    weights: &[u32],
    picked: &[u8],
) -> Verdict
    ensures { result ≡ forest_refusal (lent_survey groups.now firsts.now seconds.now weights.now) picked.now }
{
    let found = survey_refusal::edges::survey_refusal(groups, firsts, seconds, weights);
    let Verdict::Fine = found else {
        return found;
    };
    if picked.len() != firsts.len() {
        return Verdict::Refused {
            number: 9,
            place: 0,
        };
    }
    loop_refusal(groups, firsts, seconds, picked)
}
