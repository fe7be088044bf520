// Two components become one: labels, flags, values and loads. Definitions in specs/.
ghost use Rattle.std.specs.Prelude.{◌≡◌, slice_index_or};
ghost use Rattle.base_finite.specs.Below.{counted};
ghost use Rattle.plan_active.specs.Flags.{joined_active, relabelled_first, merged_flags};
ghost use Rattle.plan_rounds.specs.Tables.{settled_at};
ghost use Rattle.plan_rounds.specs.Tables.{turned_to};

use base_limits::{MAX_DUALS, MAX_VERTICES};

// The components of two vertices become z: what is held for the loads of their members is turned where z has another
// flag, their values are settled, and z's is held from now on.
pub fn join(
    values: &mut [u64; MAX_DUALS],
    loads: &mut [u64; MAX_VERTICES],
    labels: &mut [u32; MAX_VERTICES],
    flags: &mut [u8; MAX_DUALS],
    mates: &[u32; MAX_VERTICES],
    members: &[u32; MAX_VERTICES],
    count: usize,
    n: usize,
    first: u32,
    second: u32,
    z: u32,
    time: u64,
)
    ensures fact { let x = slice_index_or labels.old first 0 in
        let y = slice_index_or labels.old second 0 in
        let active = joined_active mates.now labels.old members.now count first second in
        (labels.new ≡ relabelled_first n x y z labels.old)
        × (flags.new ≡ merged_flags x y z (counted active 1) flags.old) }
    ensures values_value { let x = slice_index_or labels.old first 0 in
        let y = slice_index_or labels.old second 0 in
        let parts = settled_at flags.old time y (settled_at flags.old time x values.old) in
        values.new ≡ settled_at flags.new time z parts }
    ensures loads_value { let x = slice_index_or labels.old first 0 in
        let y = slice_index_or labels.old second 0 in
        let flag = counted (joined_active mates.now labels.old members.now count first second) 1 in
        let part = turned_to flag flags.old labels.old n time x loads.old in
        loads.new ≡ turned_to flag flags.old labels.old n time y part }
{
    let x = base_buffer::at(labels, first as usize);
    let y = base_buffer::at(labels, second as usize);
    let flag = plan_active::joined_flag(mates, labels, members, count, first, second);
    crate::both::turn_both(loads, flag, flags, labels, n, time, x, y);
    crate::both::settle_both(values, flags, x, y, time);
    plan_active::merge(labels, flags, n, x, y, z, flag);
    crate::settle::settle(values, flags, z, time);
}
