// What is held for values and for loads, settled or turned where a component changes. Definitions in specs/.
ghost use Rattle.std.specs.Prelude.{◌≡◌};
ghost use Rattle.plan_rounds.specs.Tables.{settled_at, settled_values};
ghost use Rattle.plan_rounds.specs.Tables.{turned_members, turned_component, turned_to};

use crate::turn::turn_load;
use base_buffer::{at, put};
use base_limits::{MAX_DUALS, MAX_VERTICES};

// The value of component c in place of what is held for it, or the other way round.
pub fn settle(values: &mut [u64; MAX_DUALS], flags: &[u8; MAX_DUALS], c: u32, time: u64)
    ensures { values.new ≡ settled_at flags.now time c values.old }
{
    let i = c as usize;
    let x = plan_search::settled(at(values, i), at(flags, i), time);
    put(values, i, x);
}

// And for the first components.
pub fn settle_all(values: &mut [u64; MAX_DUALS], flags: &[u8; MAX_DUALS], count: usize, time: u64)
    ensures { values.new ≡ settled_values flags.now count time values.old }
{
    for c in 0..count {
        let x = plan_search::settled(at(values, c), at(flags, c), time);
        put(values, c, x);
    }
}

// What is held for the loads of those of the first n vertices that are of component c, turned.
fn turn_members(
    loads: &mut [u64; MAX_VERTICES],
    labels: &[u32; MAX_VERTICES],
    n: usize,
    time: u64,
    c: u32,
)
    ensures { loads.new ≡ turned_members labels.now n time c loads.old }
{
    for v in 0..n {
        if at(labels, v) == c {
            turn_load(loads, v, time);
        }
    }
}

// The same for component c: a number below n is that of a single vertex.
fn turn_component(
    loads: &mut [u64; MAX_VERTICES],
    labels: &[u32; MAX_VERTICES],
    n: usize,
    time: u64,
    c: u32,
)
    ensures { loads.new ≡ turned_component labels.now n time c loads.old }
{
    let v = c as usize;
    if v < n {
        turn_load(loads, v, time);
        return;
    }
    turn_members(loads, labels, n, time, c);
}

// The same if component c, which becomes part of one with this flag, had another.
pub fn turn_loads(
    loads: &mut [u64; MAX_VERTICES],
    flag: u8,
    flags: &[u8; MAX_DUALS],
    labels: &[u32; MAX_VERTICES],
    n: usize,
    time: u64,
    c: u32,
)
    ensures { loads.new ≡ turned_to flag flags.now labels.now n time c loads.old }
{
    let before = at(flags, c as usize);
    if before == flag {
        return;
    }
    turn_component(loads, labels, n, time, c);
}
