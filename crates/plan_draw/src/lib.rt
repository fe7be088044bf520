// The moats of a growth as records, single junctions first, then merged components as they arose. Definitions in
// specs/Trace, Members and Drawing. `draw` writes the records of a trace and answers how many there are.
#![tactic(auto)]

ghost use Rattle.std.specs.Prelude.{◌≡◌, length};
ghost use Rattle.plan_draw.specs.Drawing.{records_over};
ghost use Rattle.plan_draw.specs.Trace.{trace_from, lent_trace, trace_duals, Drawable, drawn_duals};

use crate::append::write_dual;
use crate::arise::arise;
use crate::drawable::is_drawable;
use crate::trees::NUMBERS;
use base_limits::{MAX_VERTICES, RECORD_BYTES};

mod append;
mod arise;
mod drawable;
mod members;
mod record;
mod sets;
mod trees;

// The duals of a trace that can be replayed.
fn draw_trace(
    n: usize,
    firsts: &[u32],
    seconds: &[u32],
    values: &[u64],
    order: &[u32],
    rounds: usize,
    records: &mut [u8],
) -> usize
    requires { Drawable (trace_from n firsts.now seconds.now values.now order.now rounds) records.old }
    ensures count { result ≡ length (trace_duals (lent_trace n firsts.now seconds.now values.now order.now rounds)) }
    ensures written { let ds = trace_duals (lent_trace n firsts.now seconds.now values.now order.now rounds) in
        records.new ≡ records_over ds records.old }
{
    let mut ups = [0u32; NUMBERS];
    let none = [0u8; RECORD_BYTES];
    let mut sets = [none; MAX_VERTICES];
    let end = n + rounds;
    let mut count = 0;
    for c in 0..end {
        let set = arise(&mut ups, &mut sets, firsts, seconds, order, n, c as u32);
        count = write_dual(records, count, base_buffer::at(values, c), &set);
    }
    count
}

// The duals of a finished growth, from the values of the component numbers and the edges that the rounds picked in
// order; answers how many there are. A trace that no growth within the limits leaves, or one without room for its
// records, has none.
pub fn draw(
    n: usize,
    firsts: &[u32],
    seconds: &[u32],
    values: &[u64],
    order: &[u32],
    rounds: usize,
    records: &mut [u8],
) -> usize
    ensures count { let t = lent_trace n firsts.now seconds.now values.now order.now rounds in
        result ≡ length (drawn_duals t (length records.old)) }
    ensures written { let t = lent_trace n firsts.now seconds.now values.now order.now rounds in
        records.new ≡ records_over (drawn_duals t (length records.old)) records.old }
{
    if is_drawable(n, firsts, seconds, values, order, rounds, records.len()) {
        return draw_trace(n, firsts, seconds, values, order, rounds, records);
    }
    0
}
