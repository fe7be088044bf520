// Waking the tracks that rest at a junction when it is joined: they get keys again, and the floors of their blocks are
// lowered to these. Definitions in specs/Wake. `wake_joined` does it for the two components that a round joins.
#![tactic(auto)]

ghost use Rattle.std.specs.Prelude.{◌≡◌};
ghost use Rattle.plan_search.specs.Tables.{tables_in};
ghost use Rattle.plan_wake.specs.Wake.{notes_from, behind_by, woken_at, woken_by};

use base_buffer::at;

mod ends;
mod key;

// How far the load of idle vertex c is behind the time.
fn behind_by(loads: &[u64], time: u64, c: usize) -> u64
    ensures { result ≡ behind_by loads.now time c }
{
    time.saturating_sub(at(loads, c))
}

// The edges at vertex c, if it is idle.
fn wake_vertex(
    firsts: &[u32],
    seconds: &[u32],
    weights: &[u32],
    loads: &[u64],
    flags: &[u8],
    time: u64,
    n: usize,
    c: u32,
    keys: &mut [u64],
    floors: &mut [u64],
)
    ensures { let s = notes_from keys.old floors.old in
        let woken = woken_at firsts.now seconds.now weights.now loads.now flags.now time n c s in
        notes_from keys.new floors.new ≡ woken }
{
    let i = c as usize;
    if n <= i {
        return;
    }
    if at(flags, i) == 1 {
        return;
    }
    let behind = behind_by(loads, time, i);
    crate::ends::wake_ends(firsts, seconds, weights, c, behind, keys, floors);
}

// The edges at the two components that edge e joins, before it joins them.
pub fn wake_joined(
    firsts: &[u32],
    seconds: &[u32],
    weights: &[u32],
    labels: &[u32],
    loads: &[u64],
    flags: &[u8],
    time: u64,
    n: usize,
    e: usize,
    keys: &mut [u64],
    floors: &mut [u64],
)
    ensures { let t = tables_in firsts.now seconds.now weights.now labels.now loads.now flags.now in
        notes_from keys.new floors.new ≡ woken_by t time n e (notes_from keys.old floors.old) }
{
    let x = at(labels, at(firsts, e) as usize);
    wake_vertex(
        firsts, seconds, weights, loads, flags, time, n, x, keys, floors,
    );
    let y = at(labels, at(seconds, e) as usize);
    wake_vertex(
        firsts, seconds, weights, loads, flags, time, n, y, keys, floors,
    );
}
