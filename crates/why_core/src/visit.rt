// What a walk of a forest asks at a vertex: whether it was visited before, and which edges of the forest are at it.
ghost use Rattle.std.specs.Prelude.{◌≡◌, cond, ◌&&◌, set};
ghost use Rattle.survey_components.specs.Labels.{picked_in};
ghost use Rattle.theory_route.specs.Route.{is_end};
ghost use Rattle.why_core.specs.Visit.{is_unvisited, end_in};

use base_buffer::{at, put};

// Visits v; whether it is a vertex that was not visited yet.
pub fn visit(visited: &mut [u8], v: usize) -> bool
    ensures value { result ≡ is_unvisited visited.old v }
    ensures visited_value { visited.new ≡ cond (is_unvisited visited.old v) (set visited.old v 1) visited.old }
{
    if visited.len() <= v {
        return false;
    }
    if at(visited, v) != 0 {
        return false;
    }
    put(visited, v, 1);
    true
}

// Whether edge e is of the forest and has v for an end.
pub fn is_at(firsts: &[u32], seconds: &[u32], kept: &[u8], e: usize, v: usize) -> bool
    ensures { result ≡ (picked_in kept.now e && is_end (end_in firsts.now) (end_in seconds.now) e v) }
{
    if !survey_components::is_picked(kept, e) {
        return false;
    }
    if at(firsts, e) as usize == v {
        return true;
    }
    at(seconds, e) as usize == v
}
