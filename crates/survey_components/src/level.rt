// Trees become labels: each vertex hangs on its root. Definitions in specs/Roots.
ghost use Rattle.std.specs.Prelude.{◌≡◌, length};
ghost use Rattle.survey_components.specs.Roots.{levelled};

use crate::labels::climb;
use base_buffer::{at, put};

// Each vertex hangs on its root.
pub fn level(parents: &mut [u32], steps: usize)
    ensures { parents.new ≡ levelled steps (length parents.old) parents.old }
{
    for v in 0..parents.len() {
        let root = climb(parents, at(parents, v), steps);
        put(parents, v, root);
    }
}
