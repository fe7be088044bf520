// The route between two vertices of a forest: a recursive walk, the number of unvisited vertices falling at each call.
// An entry is stored on the way back from the goal, so that nothing is written past the route.
ghost use Rattle.std.specs.Prelude.{◌≡◌, ◌++◌, length, drop};
ghost use Rattle.base_limits.specs.Verdict.{written};
ghost use Rattle.survey_core.specs.Survey.{lent_survey, problem_of};
ghost use Rattle.survey_components.specs.Labels.{picked_in};
ghost use Rattle.theory_route.specs.Route.{far_end, route_of};
ghost use Rattle.why_core.specs.Visit.{end_in};
ghost use Rattle.why_core.specs.Walk.{Walkable, WalkEnds, route_refusal};

use base_buffer::{at, put};
use base_limits::{MAX_VERTICES, Verdict};

// The other end of edge e.
fn far_end(firsts: &[u32], seconds: &[u32], e: usize, v: usize) -> usize
    ensures { result ≡ far_end (end_in firsts.now) (end_in seconds.now) e v }
{
    let first = at(firsts, e) as usize;
    if first == v {
        return at(seconds, e) as usize;
    }
    first
}

// Walks from v towards the goal over vertices not visited yet; `depth` entries lie before it. It arrives with so many
// entries, or is lost.
fn walk(
    firsts: &[u32],
    seconds: &[u32],
    kept: &[u8],
    visited: &mut [u8],
    route: &mut [u32],
    v: usize,
    goal: usize,
    depth: usize,
) -> Option<usize>
    requires { Walkable firsts.now seconds.now kept.now visited.old depth }
    ensures { WalkEnds (end_in firsts.now) (end_in seconds.now) (picked_in kept.now) v goal depth
        visited.old visited.new route.old route.new result }
{
    if !crate::visit::visit(visited, v) {
        return None;
    }
    if v == goal {
        return Some(depth);
    }
    for e in 0..firsts.len() {
        if crate::visit::is_at(firsts, seconds, kept, e, v) {
            let next = far_end(firsts, seconds, e, v);
            let walked = walk(firsts, seconds, kept, visited, route, next, goal, depth + 1);
            if let Some(entries) = walked {
                put(route, depth, e as u32);
                return Some(entries);
            }
        }
    }
    None
}

// The edges of a route between two vertices by the tracks that are marked, in walking order; answers how many. None,
// and nothing is stored, where these are not a forest that joins every group, the buffer is shorter than a route can
// be, or the two are not linked.
pub fn find_route(
    groups: &[u8],
    firsts: &[u32],
    seconds: &[u32],
    weights: &[u32],
    kept: &[u8],
    from: usize,
    to: usize,
    route: &mut [u32],
) -> usize
    ensures result_value { let s = lent_survey groups.now firsts.now seconds.now weights.now in
        let entries = route_of (problem_of s) (picked_in kept.now) from to in
        result ≡ written (route_refusal s kept.now (length route.old)) (length entries) 0 }
    ensures route_value { let s = lent_survey groups.now firsts.now seconds.now weights.now in
        let entries = route_of (problem_of s) (picked_in kept.now) from to in
        let made = entries ++ drop (length entries) route.old in
        route.new ≡ written (route_refusal s kept.now (length route.old)) made route.old }
{
    let found = survey_components::forest_refusal(groups, firsts, seconds, weights, kept);
    let Verdict::Fine = found else {
        return 0;
    };
    let n = groups.len();
    if route.len() < n - 1 {
        return 0;
    }
    let mut visited = [0u8; MAX_VERTICES];
    let walked = walk(
        firsts,
        seconds,
        kept,
        &mut visited[0..n],
        route,
        from,
        to,
        0,
    );
    walked.unwrap_or(0)
}
