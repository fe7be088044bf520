// Members of merged components, a record of value 0 for each round.
ghost use Rattle.std.specs.Prelude.{◌≡◌, get_or};
ghost use Rattle.plan_draw.specs.Members.{no_member, sets_kept};

use base_buffer::put;
use base_limits::RECORD_BYTES;

// The record that round k left.
pub fn set_at(sets: &[[u8; RECORD_BYTES]], k: usize) -> [u8; RECORD_BYTES]
    ensures { result ≡ get_or sets.now k no_member }
{
    if k < sets.len() {
        return sets[k];
    }
    [0u8; RECORD_BYTES]
}

// The record of component c is kept; a single vertex needs none.
pub fn keep(sets: &mut [[u8; RECORD_BYTES]], n: usize, c: u32, part: &[u8; RECORD_BYTES])
    ensures { sets.new ≡ sets_kept n c part.now sets.old }
{
    let k = c as usize;
    if k < n {
        return;
    }
    put(sets, k - n, *part);
}
