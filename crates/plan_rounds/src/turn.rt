// What is held for the load of a vertex, turned. Definitions in specs/.
ghost use Rattle.std.specs.Prelude.{◌≡◌};
ghost use Rattle.plan_rounds.specs.Tables.{turned_at};

use base_buffer::{at, put};
use base_limits::MAX_VERTICES;

// What is held for the load of vertex v, turned.
pub fn turn_load(loads: &mut [u64; MAX_VERTICES], v: usize, time: u64)
    ensures { loads.new ≡ turned_at time v loads.old }
{
    let x = plan_search::settled(at(loads, v), 1, time);
    put(loads, v, x);
}
