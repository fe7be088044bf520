// A survey with one track left out, and what is answered for it.
ghost use Rattle.std.specs.Prelude.{◌≡◌, ◌-◌, ◌≤◌, ◌<◌, get_or, length, replicate};
ghost use Rattle.base_buffer.specs.Store.{remade};
ghost use Rattle.base_limits.specs.Limits.{max_edges};
ghost use Rattle.theory_steiner.specs.Closed.{skipping};
ghost use Rattle.survey_core.specs.Survey.{survey_with, lent_with};
ghost use Rattle.survey_core.specs.Sound.{SurveySound};
ghost use Rattle.plan_rule.specs.Figures.{figuring};
ghost use Rattle.closed_rule.specs.Closed.{closed_outcome};
ghost use Rattle.closed_core.specs.LeftOut.{left_out, closed_of};

use base_limits::MAX_EDGES;
use closed_rule::Closed;

// The numbers before entry c, at their places.
fn copy_below(list: &[u32], c: usize, left: &mut [u32; MAX_EDGES])
    requires { (c < length list.now) × (length list.now ≤ max_edges) × (left.old ≡ replicate max_edges 0) }
    ensures { left.new ≡ remade (λ e x. get_or list.now (skipping c e) 0) c left.old }
{
    for e in 0..c {
        left[e] = list[e];
    }
}

// The numbers after entry c, each one place lower, up to `count` of them in all.
fn copy_above(list: &[u32], c: usize, count: usize, left: &mut [u32; MAX_EDGES])
    requires c_le_count { (c ≤ count) × (count < length list.now) × (length list.now ≤ max_edges) }
    requires left_value { left.old ≡ remade (λ e x. get_or list.now (skipping c e) 0) c (replicate max_edges 0) }
    ensures { left.new ≡ remade (λ e x. get_or list.now (skipping c e) 0) count (replicate max_edges 0) }
{
    for e in c..count {
        left[e] = list[e + 1];
    }
}

// The numbers of a list without entry c.
fn leave_out(list: &[u32], c: usize, left: &mut [u32; MAX_EDGES])
    requires { (c < length list.now) × (length list.now ≤ max_edges) × (left.old ≡ replicate max_edges 0) }
    ensures { let count = length list.now - 1 in
        left.new ≡ remade (λ e x. get_or list.now (skipping c e) 0) count (replicate max_edges 0) }
{
    copy_below(list, c, left);
    copy_above(list, c, list.len() - 1, left);
}

// What is answered for a survey, with track c left out.
pub fn answer_without(
    groups: &[u8],
    firsts: &[u32],
    seconds: &[u32],
    weights: &[u32],
    owners: &[u32],
    others: &[u8],
    c: usize,
) -> Closed
    requires survey_sound { SurveySound
        (survey_with groups.now firsts.now seconds.now weights.now owners.now others.now) }
    requires c_in_bounds { c < length firsts.now }
    ensures { let s = lent_with groups.now firsts.now seconds.now weights.now owners.now others.now in
        closed_outcome result ≡ closed_of (figuring (left_out s c)) }
{
    let count = firsts.len() - 1;
    let mut open_firsts = [0u32; MAX_EDGES];
    let mut open_seconds = [0u32; MAX_EDGES];
    let mut open_weights = [0u32; MAX_EDGES];
    leave_out(firsts, c, &mut open_firsts);
    leave_out(seconds, c, &mut open_seconds);
    leave_out(weights, c, &mut open_weights);
    crate::answer::sound_answer(
        groups,
        &open_firsts[0..count],
        &open_seconds[0..count],
        &open_weights[0..count],
        owners,
        others,
    )
}
