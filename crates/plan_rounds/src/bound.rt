// What a growth ends with: its values settled, and their sum. Definitions in specs/.
ghost use Rattle.std.specs.Prelude.{◌≡◌, ◌%◌, ◌^◌, slice_index};
ghost use Rattle.base_finite.specs.Below.{sum_below};
ghost use Rattle.plan_rounds.specs.Tables.{settled_values};

use crate::Grown;
use base_buffer::at;
use base_limits::MAX_DUALS;

// The sum of the first `count` values, modulo 2^64.
fn sum_values(values: &[u64; MAX_DUALS], count: usize) -> u64
    ensures { result ≡ sum_below count (λ c. slice_index values.now c) % 2 ^ 64 }
{
    let mut sum = 0;
    for c in 0..count {
        sum = std::num::wrapping_add_u64(sum, at(values, c));
    }
    sum
}

// The values of the first `count` components in place of what is held for them at the end; answers the rounds, and the
// sum of these values, modulo 2^64.
pub fn settle_bound(
    values: &mut [u64; MAX_DUALS],
    flags: &[u8; MAX_DUALS],
    count: usize,
    rounds: usize,
    time: u64,
) -> Grown
    ensures rounds_value { (result.rounds ≡ rounds)
        × (result.bound ≡ sum_below count (λ c. slice_index values.new c) % 2 ^ 64) }
    ensures values_value { values.new ≡ settled_values flags.now count time values.old }
{
    crate::settle::settle_all(values, flags, count, time);
    let bound = sum_values(values, count);
    Grown { rounds, bound }
}
