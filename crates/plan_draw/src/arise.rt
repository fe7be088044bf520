// The components of a trace, as they arise.
ghost use Rattle.std.specs.Prelude.{◌≡◌};
ghost use Rattle.plan_draw.specs.Members.{union_of, sets_kept};
ghost use Rattle.plan_draw.specs.Trace.{end_of, part_of, hung_on};

use crate::trees::{NUMBERS, part_of};
use base_limits::RECORD_BYTES;

// Component c arises; answers its members. Component n + r is made of those of the ends of round r's edge.
pub fn arise(
    ups: &mut [u32; NUMBERS],
    sets: &mut [[u8; RECORD_BYTES]],
    firsts: &[u32],
    seconds: &[u32],
    order: &[u32],
    n: usize,
    c: u32,
) -> [u8; RECORD_BYTES]
    ensures set { let x = part_of (end_of firsts.now order.now) n c ups.old in
        let y = part_of (end_of seconds.now order.now) n c x.parents in
        result ≡ union_of sets.old n x.root y.root }
    ensures ups { let x = part_of (end_of firsts.now order.now) n c ups.old in
        let y = part_of (end_of seconds.now order.now) n c x.parents in
        ups.new ≡ hung_on x.root y.root c y.parents }
    ensures sets { sets.new ≡ sets_kept n c result sets.old }
{
    let x = part_of(ups, firsts, order, n, c);
    let y = part_of(ups, seconds, order, n, c);
    let set = crate::members::union_of(sets, n, x as usize, y as usize);
    crate::trees::hang(ups, x, y, c);
    crate::sets::keep(sets, n, c, &set);
    set
}
