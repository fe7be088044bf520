// The two components that become one: what is held for their loads turned, their values settled. Definitions in
// plan_rounds.
ghost use Rattle.std.specs.Prelude.{◌≡◌};
ghost use Rattle.plan_rounds.specs.Tables.{settled_at, turned_to};

use base_limits::{MAX_DUALS, MAX_VERTICES};

// What is held for the loads of the members of x and of y, turned where what they become has another flag.
pub fn turn_both(
    loads: &mut [u64; MAX_VERTICES],
    flag: u8,
    flags: &[u8; MAX_DUALS],
    labels: &[u32; MAX_VERTICES],
    n: usize,
    time: u64,
    x: u32,
    y: u32,
)
    ensures { let part = turned_to flag flags.now labels.now n time x loads.old in
        loads.new ≡ turned_to flag flags.now labels.now n time y part }
{
    crate::settle::turn_loads(loads, flag, flags, labels, n, time, x);
    crate::settle::turn_loads(loads, flag, flags, labels, n, time, y);
}

// The values of x and of y in place of what is held for them.
pub fn settle_both(
    values: &mut [u64; MAX_DUALS],
    flags: &[u8; MAX_DUALS],
    x: u32,
    y: u32,
    time: u64,
)
    ensures { values.new ≡ settled_at flags.now time y (settled_at flags.now time x values.old) }
{
    crate::settle::settle(values, flags, x, time);
    crate::settle::settle(values, flags, y, time);
}
