// An edge joins two components that are trees. Definitions in specs/Roots.
ghost use Rattle.std.specs.Prelude.{◌≡◌};
ghost use Rattle.survey_components.specs.Roots.{one_root, ends_hung};

use crate::labels::climb;
use base_buffer::put;

// The components of two vertices become that of the first; answers whether they were one already.
pub fn hang_ends(parents: &mut [u32], first: u32, second: u32, steps: usize) -> bool
    ensures one { result ≡ one_root steps first second parents.old }
    ensures hung { parents.new ≡ ends_hung steps first second parents.old }
{
    let x = climb(parents, first, steps);
    let y = climb(parents, second, steps);
    put(parents, y as usize, x);
    x == y
}
