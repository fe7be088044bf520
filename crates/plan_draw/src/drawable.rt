// Whether the trace of a growth can be replayed.
ghost use Rattle.std.specs.Prelude.{◌≡◌};
ghost use Rattle.base_finite.specs.Below.{all_below};
ghost use Rattle.plan_draw.specs.Trace.{end_of, lent_trace, ends_fit, is_drawable};

use base_buffer::at;
use base_limits::{MAX_VERTICES, RECORD_BYTES};

// Whether the ends of the edge of round r are vertices.
fn round_fits(firsts: &[u32], seconds: &[u32], order: &[u32], n: usize, r: usize) -> bool
    ensures { let first = end_of firsts.now order.now in
        let second = end_of seconds.now order.now in
        result ≡ ends_fit n first second r }
{
    let e = at(order, r) as usize;
    if n <= at(firsts, e) as usize {
        return false;
    }
    if n <= at(seconds, e) as usize {
        return false;
    }
    true
}

// The same of all rounds.
fn rounds_fit(firsts: &[u32], seconds: &[u32], order: &[u32], n: usize, rounds: usize) -> bool
    ensures { let first = end_of firsts.now order.now in
        let second = end_of seconds.now order.now in
        result ≡ all_below rounds (ends_fit n first second) }
{
    for r in 0..rounds {
        if !round_fits(firsts, seconds, order, n, r) {
            return false;
        }
    }
    true
}

// Whether a trace can be replayed, with room for so many bytes of records.
pub fn is_drawable(
    n: usize,
    firsts: &[u32],
    seconds: &[u32],
    values: &[u64],
    order: &[u32],
    rounds: usize,
    room: usize,
) -> bool
    ensures { result ≡ is_drawable (lent_trace n firsts.now seconds.now values.now order.now rounds) room }
{
    if MAX_VERTICES < n {
        return false;
    }
    if n < rounds {
        return false;
    }
    if room < RECORD_BYTES * (n + rounds) {
        return false;
    }
    rounds_fit(firsts, seconds, order, n, rounds)
}
