// Picked edges before any is judged: all of them dropped, and how many they are. Definitions in specs/.
ghost use Rattle.std.specs.Prelude.{◌≡◌};
ghost use Rattle.base_finite.specs.Below.{count_below};
ghost use Rattle.survey_components.specs.Labels.{picked_in};
ghost use Rattle.plan_drop.specs.Dropped.{dropped_marks};

use base_buffer::put;
use survey_components::is_picked;

// The marks before any edge is judged needed: 1 for a picked one, else 0.
pub fn drop_all(picked: &[u8], marks: &mut [u8], m: usize)
    ensures { marks.new ≡ dropped_marks (picked_in picked.now) m marks.old }
{
    for e in 0..m {
        put(marks, e, u8::from(is_picked(picked, e)));
    }
}

// How many edges below m are picked.
pub fn count_picked(picked: &[u8], m: usize) -> usize
    ensures { result ≡ count_below m (picked_in picked.now) }
{
    (0..m).filter(|e| is_picked(picked, *e)).count()
}
