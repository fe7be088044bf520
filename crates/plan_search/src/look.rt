// A look at one edge: its delay against the best so far, and its key. Definitions in specs/.
ghost use Rattle.std.specs.Prelude.{◌≡◌, ◌<◌, set};
ghost use Rattle.theory_steiner.specs.Growth.{better};
ghost use Rattle.plan_search.specs.Scan.{time_limit, capped_time};
ghost use Rattle.plan_search.specs.Tables.{tables_in, delay_by, reach_between, key_between, key_by};
ghost use Rattle.plan_search.specs.Between.{winner_in, delay_between};

use crate::NO_KEY;
use crate::better::{better_of, delay_of};
use crate::delay::{End, Winner, edge_slack, end_at};
use crate::limit::capped_time;
use crate::rest::{alone_at, rests_between};
use base_buffer::put;

// What has to be grown over of an edge of which so much remains: twice that where an end is idle and alone.
fn reach_between(u: usize, v: usize, first: End, second: End, slack: u64) -> u64
    requires { slack < time_limit }
    ensures { result ≡ reach_between u v first second slack }
{
    if alone_at(u, first) {
        return 2 * slack;
    }
    if alone_at(v, second) {
        return 2 * slack;
    }
    slack
}

// Notes the key of edge e between the ends at two vertices: the best with it.
fn note_edge(
    keys: &mut [u64],
    e: usize,
    time: u64,
    weight: u32,
    u: usize,
    v: usize,
    first: End,
    second: End,
    best: Option<Winner>,
) -> Option<Winner>
    requires { time < time_limit }
    ensures result_value { winner_in result ≡ better (winner_in best) e (delay_between first second weight) }
    ensures keys_value { keys.new ≡ set keys.old e (key_between time u v first second weight) }
{
    if first.label == second.label {
        put(keys, e, NO_KEY);
        return better_of(best, e, None);
    }
    if rests_between(u, v, first, second) {
        put(keys, e, NO_KEY);
        return better_of(best, e, None);
    }
    let slack = edge_slack(weight, first.load, second.load);
    put(
        keys,
        e,
        2 * time + reach_between(u, v, first, second, slack),
    );
    better_of(best, e, delay_of(first.flag, second.flag, slack))
}

// Looks at edge e: the best with it, and its key noted.
pub fn look(
    firsts: &[u32],
    seconds: &[u32],
    weights: &[u32],
    labels: &[u32],
    loads: &[u64],
    flags: &[u8],
    time: u64,
    keys: &mut [u64],
    e: usize,
    best: Option<Winner>,
) -> Option<Winner>
    ensures result_value { let t = tables_in firsts.now seconds.now weights.now labels.now loads.now flags.now in
        winner_in result ≡ better (winner_in best) e (delay_by t (capped_time time) e) }
    ensures keys_value { let t = tables_in firsts.now seconds.now weights.now labels.now loads.now flags.now in
        keys.new ≡ set keys.old e (key_by t (capped_time time) e) }
{
    let capped = capped_time(time);
    let a = base_buffer::at(firsts, e) as usize;
    let b = base_buffer::at(seconds, e) as usize;
    let first = end_at(labels, loads, flags, capped, a);
    let second = end_at(labels, loads, flags, capped, b);
    note_edge(
        keys,
        e,
        capped,
        base_buffer::at(weights, e),
        a,
        b,
        first,
        second,
        best,
    )
}
