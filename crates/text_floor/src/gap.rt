// How far the plan may be above the cheapest set of tracks.
ghost use Rattle.std.specs.Prelude.{◌≡◌, ◌≤◌};
ghost use Rattle.floor_rule.specs.Ascent.{max_cost};
ghost use Rattle.text_floor.specs.Gap.{gap_of};

// Tenths of a percent of the whole.
const TENTHS: u64 = 1000;

// In tenths of a percent of the floor, rounded up.
pub fn gap_of(floor: u64, cost: u64) -> u64
    requires floor_le_cost { floor ≤ cost }
    requires cost_le_max_cost { cost ≤ max_cost }
    ensures { result ≡ gap_of floor cost }
{
    if floor == 0 {
        return 0;
    }
    (TENTHS * (cost - floor)).div_ceil(floor)
}
