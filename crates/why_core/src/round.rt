// The round after which the ends of an edge are first in one component: the picks are merged once more, in their order.
ghost use Rattle.std.specs.Prelude.{◌≡◌, get_or, eqb};
ghost use Rattle.base_limits.specs.Verdict.{written};
ghost use Rattle.survey_core.specs.Survey.{lent_survey};
ghost use Rattle.survey_core.specs.Refusal.{survey_refusal};
ghost use Rattle.survey_components.specs.Buffer.{ends_joined};
ghost use Rattle.why_core.specs.Replay.{PicksFit, round_in};

use base_buffer::at;
use base_limits::{MAX_VERTICES, Verdict};

// The components of the ends of a pick become one.
fn merge_pick(firsts: &[u32], seconds: &[u32], labels: &mut [u32], pick: usize)
    ensures { labels.new ≡ ends_joined (get_or firsts.now pick 0) (get_or seconds.now pick 0) labels.old }
{
    let first = at(firsts, pick);
    let second = at(seconds, pick);
    let z = at(labels, first as usize);
    survey_components::merge(labels, first, second, z);
}

// Whether the ends of edge e have one label.
fn are_joined(firsts: &[u32], seconds: &[u32], labels: &[u32], e: usize) -> bool
    ensures { result ≡ eqb (get_or labels.now (get_or firsts.now e 0) 0) (get_or labels.now (get_or seconds.now e 0) 0) }
{
    let first = at(labels, at(firsts, e) as usize);
    let second = at(labels, at(seconds, e) as usize);
    first == second
}

// The least number of picks that link the ends of edge e; 0 where all do not.
fn find_round(firsts: &[u32], seconds: &[u32], order: &[u32], e: usize) -> usize
    requires { PicksFit firsts.now seconds.now }
    ensures { result ≡ round_in firsts.now seconds.now order.now e }
{
    let mut labels = [0u32; MAX_VERTICES];
    survey_components::own_labels(&mut labels);
    if are_joined(firsts, seconds, &labels, e) {
        return 0;
    }
    for (r, pick) in order.iter().enumerate() {
        merge_pick(firsts, seconds, &mut labels, *pick as usize);
        if are_joined(firsts, seconds, &labels, e) {
            return r + 1;
        }
    }
    0
}

// The round after which the ends of edge e are first in one component, rounds counted from 1, where the picks are in
// this order; 0 where they never are, and where one of 1 to 6 comes.
pub fn join_round(
    groups: &[u8],
    firsts: &[u32],
    seconds: &[u32],
    weights: &[u32],
    order: &[u32],
    e: usize,
) -> usize
    ensures { let s = lent_survey groups.now firsts.now seconds.now weights.now in
        result ≡ written (survey_refusal s) (round_in firsts.now seconds.now order.now e) 0 }
{
    let found = survey_refusal::edges::survey_refusal(groups, firsts, seconds, weights);
    let Verdict::Fine = found else {
        return 0;
    };
    find_round(firsts, seconds, order, e)
}
