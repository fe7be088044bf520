// The arcs by the vertex that they lead to. Definitions in specs/Chain.
ghost use Rattle.std.specs.Prelude.{◌≡◌, ◌+◌, ◌<◌, replicate};
ghost use Rattle.base_limits.specs.Limits.{max_vertices};
ghost use Rattle.floor_rule.specs.Ascent.{arc_count};
ghost use Rattle.floor_core.specs.Chain.{Ends, Chained};

use crate::arcs::{head_of, tail_of};
use base_buffer::{at, put};
use base_limits::MAX_VERTICES;
use floor_rule::MAX_ARCS;

// Arc a, linked to the last before it that leads where it does.
fn chain_arc(
    firsts: &[u32],
    seconds: &[u32],
    a: usize,
    tops: &mut [u32; MAX_VERTICES],
    links: &mut [u32; MAX_ARCS],
)
    requires ends { Ends max_vertices firsts.now seconds.now }
    requires a_bound { a < arc_count firsts.now }
    requires chained { Chained firsts.now seconds.now a tops.old links.old }
    ensures { Chained firsts.now seconds.now (a + 1) tops.new links.new }
{
    let head = head_of(firsts, seconds, a);
    let before = at(tops, head);
    let tail = tail_of(firsts, seconds, a);
    put(links, a, (tail as u32) + 512 * before);
    put(tops, head, (a as u32) + 1);
}

// All arcs.
pub fn chain(
    firsts: &[u32],
    seconds: &[u32],
    arcs: usize,
    tops: &mut [u32; MAX_VERTICES],
    links: &mut [u32; MAX_ARCS],
)
    requires arcs_value { arcs ≡ arc_count firsts.now }
    requires ends { Ends max_vertices firsts.now seconds.now }
    requires tops_value { tops.old ≡ replicate max_vertices 0 }
    ensures { Chained firsts.now seconds.now (arc_count firsts.now) tops.new links.new }
{
    for a in 0..arcs {
        chain_arc(firsts, seconds, a, tops, links);
    }
}
