// The pairs of the result, each as one number, v * 256 + g, so that they rise as the pairs do.
ghost use Rattle.std.specs.Prelude.{◌≡◌, ◌+◌, ◌*◌, ◌≤◌, ◌<◌, ◌^◌, length};
ghost use Rattle.std.proofs.lemmas.List.Edits.{sets};
ghost use Rattle.base_limits.specs.Limits.{max_vertices, group_numbers};
ghost use Rattle.survey_core.specs.Lists.{lent_lists};
ghost use Rattle.merge_core.specs.Pairs.{flagged, row_pairs, pairs_by};

use crate::find::find_in;
use crate::row::row_of;
use base_limits::{GROUP_NUMBERS, MAX_PAIRS};

// One more pair where the flag is set; past the end of the buffer it only counts.
fn append_if(pairs: &mut [u32], count: usize, flag: u8, pair: u32) -> usize
    requires { count < 2 ^ 32 }
    ensures value { result ≡ count + length (flagged flag pair) }
    ensures pairs_value { pairs.new ≡ sets pairs.old count (flagged flag pair) }
{
    if flag == 0 {
        return count;
    }
    base_buffer::put(pairs, count, pair);
    count + 1
}

// The pairs of a row of flags.
fn append_row(pairs: &mut [u32], count: usize, row: &[u8; GROUP_NUMBERS], w: usize) -> usize
    requires count_bound { count ≤ 2 * max_vertices * group_numbers }
    requires w_bound { w < 2 * max_vertices }
    ensures value { result ≡ count + length (row_pairs row.now w group_numbers) }
    ensures pairs_value { pairs.new ≡ sets pairs.old count (row_pairs row.now w group_numbers) }
{
    let mut next = count;
    for (g, flag) in row.iter().enumerate() {
        next = append_if(pairs, next, *flag, (w * GROUP_NUMBERS + g) as u32);
    }
    next
}

// All pairs of a result of so many junctions, of which the buffer keeps as many as it holds; answers how many there
// are. Of the second survey, junction v stands at `places` v.
pub fn collect_pairs(
    groups: &[u8],
    owners: &[u32],
    others: &[u8],
    second_groups: &[u8],
    second_owners: &[u32],
    second_others: &[u8],
    places: &[u32],
    vertices: usize,
    pairs: &mut [u32; MAX_PAIRS],
) -> usize
    requires { vertices ≤ 2 * max_vertices }
    ensures result_value { let all = pairs_by (lent_lists groups.now owners.now others.now)
        (lent_lists second_groups.now second_owners.now second_others.now) places.now (vertices * group_numbers) in
        result ≡ length all }
    ensures pairs_value { let all = pairs_by (lent_lists groups.now owners.now others.now)
        (lent_lists second_groups.now second_owners.now second_others.now) places.now (vertices * group_numbers) in
        pairs.new ≡ sets pairs.old 0 all }
{
    let mut count = 0;
    for w in 0..vertices {
        let v = find_in(places, second_groups.len(), w);
        let row = row_of(
            groups,
            owners,
            others,
            second_groups,
            second_owners,
            second_others,
            w,
            v,
        );
        count = append_row(pairs, count, &row, w);
    }
    count
}
