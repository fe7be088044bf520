// One round of growth over arrays, whatever they hold. Definitions in specs/.
ghost use Rattle.std.specs.Prelude.{◌≡◌};
ghost use Rattle.plan_search.specs.Between.{winner_in};
ghost use Rattle.plan_search.specs.Tables.{tables_in};
ghost use Rattle.plan_rounds.specs.Round.{new_round_arrays, search_by, round_by};

use base_buffer::at;
use base_limits::{MAX_DUALS, MAX_EDGES, MAX_VERTICES};
use plan_search::{MAX_BLOCKS, Winner};

// One round of n vertices: its winner, and the arrays after it. The two components that the winner joins become z.
pub fn round(
    firsts: &[u32],
    seconds: &[u32],
    weights: &[u32],
    labels: &mut [u32; MAX_VERTICES],
    loads: &mut [u64; MAX_VERTICES],
    values: &mut [u64; MAX_DUALS],
    keys: &mut [u64; MAX_EDGES],
    floors: &mut [u64; MAX_BLOCKS],
    flags: &mut [u8; MAX_DUALS],
    mates: &[u32; MAX_VERTICES],
    members: &[u32; MAX_VERTICES],
    count: usize,
    n: usize,
    z: u32,
    time: u64,
) -> Option<Winner>
    ensures result_value { let t = tables_in firsts.now seconds.now weights.now labels.old loads.old flags.old in
        winner_in result ≡ (search_by t time keys.old floors.old).scanned.best }
    ensures flags_value { let t = tables_in firsts.now seconds.now weights.now labels.old loads.old flags.old in
        let search = search_by t time keys.old floors.old in
        new_round_arrays labels.new loads.new values.new keys.new floors.new flags.new
        ≡ round_by t mates.now members.now count n z time values.old search search.scanned.best }
{
    let found = plan_search::find_winner(
        firsts, seconds, weights, labels, loads, flags, time, keys, floors,
    );
    let Some(Winner { e, d }) = found else {
        return None;
    };
    plan_wake::wake_joined(
        firsts, seconds, weights, labels, loads, flags, time, n, e, keys, floors,
    );
    let later = std::num::wrapping_add_u64(time, d);
    let first = at(firsts, e);
    let second = at(seconds, e);
    crate::join::join(
        values, loads, labels, flags, mates, members, count, n, first, second, z, later,
    );
    Some(Winner { e, d })
}
