// What the kept edges cost.
ghost use Rattle.std.specs.Prelude.{◌≡◌, eqb};
ghost use Rattle.base_finite.specs.Below.{counted};
ghost use Rattle.check_core.specs.Cost.{kept_cost};

use base_limits::MAX_EDGES;

// The weight of a kept edge, else 0.
fn kept_weight(mark: u8, weight: u32) -> u64
    ensures { result ≡ counted (eqb mark 2) weight }
{
    match mark {
        0 => 0,
        1 => 0,
        2 => u64::from(weight),
        _ => 0,
    }
}

// What the kept edges cost.
pub fn kept_cost(firsts: &[u32], weights: &[u32], marks: &[u8]) -> u64
    ensures { result ≡ kept_cost firsts.now weights.now marks.now }
{
    let m = MAX_EDGES.min(firsts.len());
    let mut cost: u64 = 0;
    for e in 0..m {
        cost += kept_weight(base_buffer::at(marks, e), base_buffer::at(weights, e));
    }
    cost
}
