// What tracks leave apart: the lowest list and the lowest pair of its members. Sets of tracks are marks of kept ones.
ghost use Rattle.std.specs.Prelude.{◌≡◌, replicate, leb};
ghost use Rattle.base_finite.specs.Below.{counted};
ghost use Rattle.base_limits.specs.Limits.{max_edges};
ghost use Rattle.base_limits.specs.Verdict.{◌before◌};
ghost use Rattle.base_buffer.specs.Store.{remade};
ghost use Rattle.survey_core.specs.Survey.{lent_with};
ghost use Rattle.survey_core.specs.Refusal.{survey_refusal, group_refusal};
ghost use Rattle.survey_components.specs.Labels.{chosen};
ghost use Rattle.survey_components.specs.declared.Chosen.TheVariants.{Kept};
ghost use Rattle.why_rule.specs.Reason.{place_of};
ghost use Rattle.why_core.specs.Parted.{least_mark, marked_but, PairOf};

use base_buffer::{at, put};
use base_limits::{MAX_EDGES, Verdict};
use survey_components::Chosen;

// A list and two of its members.
#[derive(Drop)]
pub struct Pair {
    pub group: usize,
    pub smaller: usize,
    pub larger: usize,
}

// Tracks by their marks: the picked ones, or the kept ones.
#[derive(Clone, Copy)]
pub enum Tracks {
    Picks,
    Keeps,
}

// Whether a mark is that of a picked track.
fn is_pick(mark: u8) -> bool
    ensures { result ≡ leb 1 mark }
{
    match mark {
        0 => false,
        1 => true,
        2 => true,
        _ => true,
    }
}

// Whether a mark is that of a kept track, or above.
fn is_keep(mark: u8) -> bool
    ensures { result ≡ leb 2 mark }
{
    match mark {
        0 => false,
        1 => false,
        2 => true,
        _ => true,
    }
}

// Whether a mark is that of one of these tracks.
fn is_among(set: Tracks, mark: u8) -> bool
    ensures { result ≡ leb (least_mark set) mark }
{
    match set {
        Tracks::Picks => is_pick(mark),
        Tracks::Keeps => is_keep(mark),
    }
}

// 2 for one of these tracks, unless it is the one left out; else 0.
fn mark_but(marks: &[u8], set: Tracks, out: usize, e: usize) -> u8
    ensures { result ≡ counted (marked_but marks.now (least_mark set) out e) 2 }
{
    if e == out {
        return 0;
    }
    if is_among(set, at(marks, e)) {
        return 2;
    }
    0
}

// These tracks below m, but one, as marks of kept tracks.
pub fn marks_but(marks: &[u8], set: Tracks, out: usize, m: usize) -> [u8; MAX_EDGES]
    ensures { result ≡ remade (λ e x. counted (marked_but marks.now (least_mark set) out e) 2) m (replicate max_edges 0) }
{
    let mut chosen = [0u8; MAX_EDGES];
    for e in 0..m {
        put(&mut chosen, e, mark_but(marks, set, out, e));
    }
    chosen
}

// The lowest list that the kept tracks leave apart, 0 where there is none.
fn parted_list(
    groups: &[u8],
    firsts: &[u32],
    seconds: &[u32],
    weights: &[u32],
    owners: &[u32],
    others: &[u8],
    marks: &[u8],
) -> usize
    ensures { let s = lent_with groups.now firsts.now seconds.now weights.now owners.now others.now in
        result ≡ place_of (survey_refusal s before group_refusal s 0 (chosen Kept marks.now)) }
{
    let found = survey_lists::group_refusal(
        groups,
        firsts,
        seconds,
        weights,
        owners,
        others,
        Chosen::Kept,
        marks,
        0,
    );
    match found {
        Verdict::Fine => 0,
        Verdict::Refused { number: _, place } => place,
    }
}

// That list, its lowest member, and the lowest that the kept tracks do not link with it.
pub fn parted_pair(
    groups: &[u8],
    firsts: &[u32],
    seconds: &[u32],
    weights: &[u32],
    owners: &[u32],
    others: &[u8],
    marks: &[u8],
) -> Pair
    ensures { PairOf (lent_with groups.now firsts.now seconds.now weights.now owners.now others.now) marks.now result }
{
    let group = parted_list(groups, firsts, seconds, weights, owners, others, marks);
    let labels = survey_components::set_labels(
        groups,
        firsts,
        seconds,
        weights,
        Chosen::Kept,
        marks,
    );
    let smaller = crate::pair::first_member(groups, owners, others, group);
    let larger = crate::pair::first_apart(groups, owners, others, &labels, group, smaller);
    Pair {
        group,
        smaller,
        larger,
    }
}
