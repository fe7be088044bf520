// Why a kept track is kept: what the other picked tracks leave apart, and the route over the kept ones.
ghost use Rattle.std.specs.Prelude.{◌≡◌};
ghost use Rattle.base_limits.specs.Verdict.{answer};
ghost use Rattle.survey_core.specs.Survey.{lent_with};
ghost use Rattle.why_rule.specs.Answer.{why_outcome};
ghost use Rattle.why_core.specs.Kept.{kept_counts, KeptAnswer};

use crate::parted::{Pair, Tracks};
use base_limits::MAX_EDGES;
use why_rule::Why;

// The answer for a kept track.
fn kept_answer(pair: Pair, entries: usize) -> Why
    ensures { why_outcome result ≡ answer (kept_counts pair entries) }
{
    Why::Kept {
        group: pair.group as u64,
        smaller: pair.smaller as u64,
        larger: pair.larger as u64,
        entries: entries as u64,
    }
}

// The lowest pair that the tracks with a mark leave apart without this one, and the route over those with mark 2.
pub fn explain_kept(
    groups: &[u8],
    firsts: &[u32],
    seconds: &[u32],
    weights: &[u32],
    owners: &[u32],
    others: &[u8],
    lists: &[u8],
    marks: &[u8],
    track: usize,
    route: &mut [u32],
) -> Why
    ensures { let s = lent_with groups.now firsts.now seconds.now weights.now owners.now others.now in
        KeptAnswer s lists.now marks.now track route.old (why_outcome result) route.new }
{
    let m = firsts.len();
    let rest = crate::parted::marks_but(marks, Tracks::Picks, track, m);
    let pair = crate::parted::parted_pair(groups, firsts, seconds, weights, owners, others, &rest);
    let kept = crate::parted::marks_but(marks, Tracks::Keeps, m, m);
    let from = pair.smaller;
    let to = pair.larger;
    let size = m.min(MAX_EDGES);
    let entries = crate::route::find_route(
        lists,
        firsts,
        seconds,
        weights,
        &kept[0..size],
        from,
        to,
        route,
    );
    kept_answer(pair, entries)
}
