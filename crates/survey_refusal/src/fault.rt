// Whether refusal 4, 5 or 6 applies to one track, as 0 or 1. Definitions in specs/.
ghost use Rattle.std.specs.Prelude.{◌≡◌};
ghost use Rattle.base_finite.specs.Below.{counted};
ghost use Rattle.survey_refusal.specs.Fault.{faulty};

use base_limits::MAX_WEIGHT;

// 1 if something is wrong with an edge.
pub fn edge_fault(n: u32, first: u32, second: u32, weight: u32) -> u32
    ensures { result ≡ counted (faulty n first second weight) 1 }
{
    u32::from(n <= first)
        | u32::from(n <= second)
        | u32::from(first == second)
        | u32::from(MAX_WEIGHT < weight)
}
