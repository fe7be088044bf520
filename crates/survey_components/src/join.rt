// What joining the ends of one edge takes: whether its mark is that of a kept one, and two vertices brought into one
// tree.
ghost use Rattle.std.specs.Prelude.{◌≡◌, eqb};
ghost use Rattle.survey_components.specs.Met.{ends_met};

use crate::hang::hang_ends;
use base_buffer::at;

// Whether the mark is that of a kept edge.
pub fn is_kept(mark: u8) -> bool
    ensures { result ≡ eqb mark 2 }
{
    match mark {
        0 => false,
        1 => false,
        2 => true,
        _ => false,
    }
}

// Two vertices come into one tree. Those that hang on one vertex are in one already, and nothing is written.
pub fn join_ends(labels: &mut [u32], first: u32, second: u32, steps: usize)
    ensures { labels.new ≡ ends_met steps first second labels.old }
{
    let up = at(labels, first as usize);
    if up == at(labels, second as usize) {
        return;
    }
    hang_ends(labels, first, second, steps);
}
