// A walk against the arcs without rest: it finds all vertices from which they lead to the one where it begins, by a
// queue, unless the root is among them, and on its way the arcs with a rest that may enter what is found.
ghost use Rattle.std.specs.Prelude.{◌≡◌, ℕ, suc, ◌+◌, ◌/◌, ◌≤◌, ◌<◌, get_or};
ghost use Rattle.base_limits.specs.Limits.{max_vertices};
ghost use Rattle.floor_rule.specs.Ascent.{max_arcs};
ghost use Rattle.floor_core.specs.Walk.{Ground, arcs_in, tail_in, head_in, LinkedIn, ChainedIn, LeadsTo, Turn, Begun, Next, CutFound};

use base_buffer::{at, put};
use base_limits::MAX_VERTICES;
use floor_rule::MAX_ARCS;

// How many vertices are found, and how many arcs are at the rim.
#[derive(Drop)]
struct Seen {
    vertices: usize,
    arcs: usize,
}

// Arc a, which comes from `tail`: that is found, if the arc has no rest; else the arc is at the rim.
fn look_arc(
    rests: &[u32; MAX_ARCS],
    flags: &mut [u8; MAX_VERTICES],
    found: &mut [u32; MAX_VERTICES],
    rim: &mut [u32; MAX_ARCS],
    a: u32,
    tail: u32,
    vertices: usize,
    arcs: usize,
) -> Seen
    requires { (vertices < max_vertices + max_arcs) × (arcs < max_arcs + max_arcs) }
    ensures vertices_bound { (result.vertices ≤ vertices + 1) × (result.arcs ≤ arcs + 1) }
    ensures turn { (g : Ground) (i v : ℕ) → a < arcs_in g → head_in g a ≡ v → tail ≡ tail_in g a
        → Turn g rests.now i v (suc a) flags.old found.old rim.old vertices arcs
        → Turn g rests.now i v a flags.new found.new rim.new result.vertices result.arcs }
{
    if at(flags, tail as usize) != 0 {
        return Seen { vertices, arcs };
    }
    if at(rests, a as usize) != 0 {
        put(rim, arcs, a);
        return Seen {
            vertices,
            arcs: arcs + 1,
        };
    }
    put(flags, tail as usize, 1);
    put(found, vertices, tail);
    Seen {
        vertices: vertices + 1,
        arcs,
    }
}

// The arcs that lead to a vertex, from the last on: its number and one, where 0 is none.
fn look(
    links: &[u32; MAX_ARCS],
    rests: &[u32; MAX_ARCS],
    flags: &mut [u8; MAX_VERTICES],
    found: &mut [u32; MAX_VERTICES],
    rim: &mut [u32; MAX_ARCS],
    last: u32,
    before: Seen,
) -> Seen
    requires vertices_le_max_vertices { (before.vertices ≤ max_vertices) × (before.arcs ≤ max_arcs) × (last ≤ max_arcs) }
    requires by_index { (a : ℕ) → a < last → get_or links.now a 0 / 512 ≤ a }
    ensures { (g : Ground) (i v : ℕ) → LinkedIn g links.now → LeadsTo g v last
        → Turn g rests.now i v last flags.old found.old rim.old before.vertices before.arcs
        → Turn g rests.now i v 0 flags.new found.new rim.new result.vertices result.arcs }
{
    let mut seen = before;
    let mut x = last;
    // Stays a while: the next x is read from the arc's link, no constant step.
    while 0 < x {
        let link = at(links, (x - 1) as usize);
        seen = look_arc(
            rests,
            flags,
            found,
            rim,
            x - 1,
            link % 512,
            seen.vertices,
            seen.arcs,
        );
        x = link / 512;
    }
    seen
}

// The arcs that lead to v, if they are not looked at already.
fn look_at(
    tops: &[u32; MAX_VERTICES],
    links: &[u32; MAX_ARCS],
    rests: &[u32; MAX_ARCS],
    flags: &mut [u8; MAX_VERTICES],
    found: &mut [u32; MAX_VERTICES],
    rim: &mut [u32; MAX_ARCS],
    v: usize,
    before: Seen,
) -> Seen
    requires { Next tops.now links.now rests.now flags.old found.old rim.old
        v before.vertices before.arcs }
    ensures { (g : Ground) (i : ℕ) → ChainedIn g tops.now links.now → i < before.vertices
        → v ≡ get_or found.old i 0
        → Turn g rests.now i 0 0 flags.old found.old rim.old before.vertices before.arcs
        → Turn g rests.now (i + 1) 0 0 flags.new found.new rim.new result.vertices result.arcs }
{
    if at(flags, v) == 2 {
        return before;
    }
    put(flags, v, 2);
    look(links, rests, flags, found, rim, at(tops, v), before)
}

// From one vertex on, which alone has a flag and stands in the queue: how many arcs are at the rim, or None where the
// root is found.
pub fn walk(
    tops: &[u32; MAX_VERTICES],
    links: &[u32; MAX_ARCS],
    rests: &[u32; MAX_ARCS],
    flags: &mut [u8; MAX_VERTICES],
    found: &mut [u32; MAX_VERTICES],
    rim: &mut [u32; MAX_ARCS],
    root: usize,
) -> Option<usize>
    requires { Begun tops.now links.now rests.now flags.old found.old rim.old }
    ensures { (g : Ground) → ChainedIn g tops.now links.now
        → Turn g rests.now 0 0 0 flags.old found.old rim.old 1 0
        → CutFound g rests.now flags.new rim.new root result }
{
    let mut seen = Seen {
        vertices: 1,
        arcs: 0,
    };
    let mut i = 0;
    // Stays a while: the queue grows as it is walked, so its end is no bound known at the start.
    while i < seen.vertices {
        if at(flags, root) != 0 {
            return None;
        }
        let v = at(found, i) as usize;
        seen = look_at(tops, links, rests, flags, found, rim, v, seen);
        i += 1;
    }
    if at(flags, root) != 0 {
        return None;
    }
    Some(seen.arcs)
}
