// Trees of component numbers: each hangs on the component that it became part of.
ghost use Rattle.std.specs.Prelude.{◌≡◌};
ghost use Rattle.plan_draw.specs.Trace.{end_of, part_of, hung_on};

use base_buffer::{at, put};
use base_limits::MAX_VERTICES;

// Component numbers, at most: one for each vertex, and one for each round.
pub const NUMBERS: usize = 2 * MAX_VERTICES;

// What component c is made of at one end: a single vertex of itself, any other of the component of that end.
pub fn part_of(ups: &mut [u32; NUMBERS], ends: &[u32], order: &[u32], n: usize, c: u32) -> u32
    ensures part { result ≡ (part_of (end_of ends.now order.now) n c ups.old).root }
    ensures left { ups.new ≡ (part_of (end_of ends.now order.now) n c ups.old).parents }
{
    let k = c as usize;
    if k < n {
        return c;
    }
    let e = at(order, k - n) as usize;
    survey_components::climb(ups, at(ends, e), k)
}

// Component c has arisen of x and y, which hang on it.
pub fn hang(ups: &mut [u32; NUMBERS], x: u32, y: u32, c: u32)
    ensures { ups.new ≡ hung_on x y c ups.old }
{
    put(ups, x as usize, c);
    put(ups, y as usize, c);
    put(ups, c as usize, c);
}
