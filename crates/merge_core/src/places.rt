// Where the junctions of the second survey come to stand in the result.
ghost use Rattle.std.specs.Prelude.{◌≡◌, ◌≤◌, ◌<◌, ◌^◌, cond, not, get_or, ltb};
ghost use Rattle.std.proofs.lemmas.List.Edits.{sets};
ghost use Rattle.base_finite.specs.Below.{counted, tabulate};
ghost use Rattle.base_limits.specs.Limits.{max_vertices};
ghost use Rattle.merge_rule.specs.Ties.{ties_from, placed, merged_count};

use crate::find::find_in;
use base_limits::MAX_VERTICES;

// The junction of the first that tie i names; `next` where i is past the last tie.
fn place_at(firsts: &[u32], count: usize, i: usize, next: usize) -> u32
    requires { next < 2 ^ 32 }
    ensures { result ≡ cond (ltb i count) (get_or firsts.now i 0) next }
{
    if i < count {
        return base_buffer::at(firsts, i);
    }
    next as u32
}

// 1 where i is past the last tie, else 0.
fn one_if_past(i: usize, count: usize) -> usize
    ensures { result ≡ counted (not (ltb i count)) 1 }
{
    if i < count {
        return 0;
    }
    1
}

// The place of each of the second's m junctions, where the first has n; answers how many junctions the result has.
pub fn store_places(
    n: usize,
    m: usize,
    firsts: &[u32],
    seconds: &[u32],
    places: &mut [u32; MAX_VERTICES],
) -> usize
    requires n_le_max_vertices { n ≤ max_vertices }
    requires m_le_max_vertices { m ≤ max_vertices }
    ensures value { result ≡ merged_count n m (ties_from firsts.now seconds.now) }
    ensures places_value { places.new ≡ sets places.old 0 (tabulate m (placed n (ties_from firsts.now seconds.now))) }
{
    let mut next = n;
    for v in 0..m {
        let i = find_in(seconds, seconds.len(), v);
        base_buffer::put(places, v, place_at(firsts, seconds.len(), i, next));
        next += one_if_past(i, seconds.len());
    }
    next
}
