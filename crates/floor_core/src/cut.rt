// The cut round a vertex, and what the arcs that enter it bear.
ghost use Rattle.std.specs.Prelude.{◌≡◌, ℕ, ◌+◌, ◌-◌, ◌^◌, ◌≤◌, ◌<◌, List, length};
ghost use Rattle.floor_rule.specs.Ascent.{max_arcs, arc_count, least_rest, loaded};
ghost use Rattle.floor_core.specs.Chain.{Ends, Chained, CutRaised};
ghost use Rattle.floor_core.specs.Walk.{Ground, arcs_in, LinkedIn, Cut, Narrow};
ghost use Rattle.floor_core.specs.Laws.Rim.{Narrows};

use crate::walk::walk;
use base_buffer::{at, put};
use base_limits::MAX_VERTICES;
use floor_rule::MAX_ARCS;

// By how much a cut can be raised, and how many arcs enter it.
#[derive(Drop)]
struct Narrowed {
    least: u64,
    arcs: usize,
}

// The arc at place j of the rim: if it comes from outside it is kept in front, and its rest may be the least.
fn narrow_at(
    links: &[u32; MAX_ARCS],
    rests: &[u32; MAX_ARCS],
    flags: &[u8; MAX_VERTICES],
    rim: &mut [u32; MAX_ARCS],
    j: usize,
    least: u64,
    kept: usize,
) -> Narrowed
    requires { kept + 1 < 2 ^ 64 }
    ensures arcs_bound { result.arcs ≤ kept + 1 }
    ensures by_index { (first : List ℕ) (arcs cap : ℕ)
        → Narrows links.now flags.now first arcs rests.now cap j least kept rim.old → j < arcs
        → Narrows links.now flags.now first arcs rests.now cap (j + 1) result.least result.arcs rim.new }
{
    let a = at(rim, j);
    let i = a as usize;
    let tail = (at(links, i) % 512) as usize;
    if at(flags, tail) != 0 {
        return Narrowed { least, arcs: kept };
    }
    put(rim, kept, a);
    Narrowed {
        least: least.min(u64::from(at(rests, i))),
        arcs: kept + 1,
    }
}

// The arcs that enter, in front, and the least of their rests, no more than the cap.
fn narrow(
    links: &[u32; MAX_ARCS],
    rests: &[u32; MAX_ARCS],
    flags: &[u8; MAX_VERTICES],
    rim: &mut [u32; MAX_ARCS],
    arcs: usize,
    cap: u64,
) -> Narrowed
    ensures { (g : Ground) → LinkedIn g links.now → Cut g rests.now flags.now rim.old arcs
        → (result.least ≡ least_rest g.firsts g.seconds rests.now flags.now cap (arcs_in g))
        × Narrow g rests.now flags.now rim.new result.arcs }
{
    let mut found = Narrowed {
        least: cap,
        arcs: 0,
    };
    for j in 0..arcs {
        found = narrow_at(links, rests, flags, rim, j, found.least, found.arcs);
    }
    found
}

// A rest less by d, and 0 where that is more.
fn less(rest: u32, d: u64) -> u32
    ensures { result ≡ rest - d }
{
    u64::from(rest).saturating_sub(d) as u32
}

// A cut of value d on the arcs that enter.
fn load(rim: &[u32; MAX_ARCS], arcs: usize, rests: &mut [u32], d: u64)
    requires { length rests.old ≡ max_arcs }
    ensures { (g : Ground) (flags : List ℕ) → Narrow g rests.old flags rim.now arcs
        → rests.new ≡ loaded g.firsts g.seconds flags d rests.old }
{
    for j in 0..arcs {
        let a = at(rim, j) as usize;
        let rest = less(at(rests, a), d);
        put(rests, a, rest);
    }
}

// The cut round v, raised by as much as the arcs bear and no more than the cap: by how much, or None where the root is
// inside. Of n vertices and the arcs by the vertex that they lead to; what the rim holds afterwards is of no use.
pub fn raise_cut(
    firsts: &[u32],
    seconds: &[u32],
    tops: &[u32; MAX_VERTICES],
    links: &[u32; MAX_ARCS],
    rests: &mut [u32; MAX_ARCS],
    rim: &mut [u32; MAX_ARCS],
    n: usize,
    root: usize,
    v: usize,
    cap: u64,
) -> Option<u64>
    requires ends { Ends n firsts.now seconds.now }
    requires chained { Chained firsts.now seconds.now (arc_count firsts.now) tops.now links.now }
    requires v_lt_n { v < n }
    ensures { CutRaised
        firsts.now seconds.now n root v cap rests.old rests.new result }
{
    let mut flags = [0u8; MAX_VERTICES];
    put(&mut flags, v, 1);
    let mut found = [0u32; MAX_VERTICES];
    put(&mut found, 0, v as u32);
    let arcs = walk(tops, links, rests, &mut flags, &mut found, rim, root)?;
    let found = narrow(links, rests, &flags, rim, arcs, cap);
    load(rim, found.arcs, rests, found.least);
    Some(found.least)
}
