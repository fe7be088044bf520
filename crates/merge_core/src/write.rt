// What is written of the result, buffer by buffer.
ghost use Rattle.std.specs.Prelude.{◌≡◌, ◌+◌, ◌≤◌, ◌<◌, map, ◌++◌, get_or, length, take};
ghost use Rattle.std.proofs.lemmas.List.Edits.{sets};
ghost use Rattle.base_finite.specs.Below.{tabulate};
ghost use Rattle.base_limits.specs.Limits.{max_edges};
ghost use Rattle.merge_rule.specs.Merged.{pair_vertex, pair_group};
ghost use Rattle.merge_core.specs.Row.{own_with};
ghost use Rattle.merge_core.specs.Pairs.{standing_in};

use crate::find::find_in;
use crate::row::own_of;
use base_buffer::{at, put};
use base_limits::GROUP_NUMBERS;

// The own group of each junction.
pub fn write_groups(
    groups: &[u8],
    second_groups: &[u8],
    places: &[u32],
    vertices: usize,
    out: &mut [u8],
)
    ensures { out.new ≡ sets out.old 0 (tabulate vertices (λ w. own_with groups.now second_groups.now w
        (standing_in places.now (length second_groups.now) w))) }
{
    for w in 0..vertices {
        let v = find_in(places, second_groups.len(), w);
        base_buffer::put(out, w, own_of(groups, second_groups, w, v));
    }
}

// A list, from place `at` on.
fn copy_at(list: &[u32], at: usize, out: &mut [u32])
    requires at_le_max_edges { at ≤ max_edges }
    requires list_len_bound { length list.now ≤ max_edges }
    ensures { out.new ≡ sets out.old at list.now }
{
    for (i, x) in list.iter().enumerate() {
        put(out, at + i, *x);
    }
}

// The place of each entry of a list, from place `at` on.
fn copy_places(list: &[u32], places: &[u32], at: usize, out: &mut [u32])
    requires at_le_max_edges { at ≤ max_edges }
    requires list_len_bound { length list.now ≤ max_edges }
    ensures { out.new ≡ sets out.old at (map (λ v. get_or places.now v 0) list.now) }
{
    for (i, v) in list.iter().enumerate() {
        put(out, at + i, base_buffer::at(places, *v as usize));
    }
}

// The first's weights, then the second's.
pub fn write_weights(weights: &[u32], second_weights: &[u32], out: &mut [u32])
    requires weights_len_bound { length weights.now ≤ max_edges }
    requires second_weights_len_bound { length second_weights.now ≤ max_edges }
    ensures { out.new ≡ sets out.old 0 (weights.now ++ second_weights.now) }
{
    copy_at(weights, 0, out);
    copy_at(second_weights, weights.len(), out);
}

// The first's ends, then the places of the second's.
pub fn write_ends(ends: &[u32], second_ends: &[u32], places: &[u32], out: &mut [u32])
    requires ends_len_bound { length ends.now ≤ max_edges }
    requires second_ends_len_bound { length second_ends.now ≤ max_edges }
    ensures { out.new ≡ sets out.old 0 (ends.now ++ map (λ v. get_or places.now v 0) second_ends.now) }
{
    copy_at(ends, 0, out);
    copy_places(second_ends, places, ends.len(), out);
}

// The first `count` pairs, taken apart.
pub fn write_pairs(pairs: &[u32], count: usize, owners: &mut [u32], others: &mut [u8])
    requires { count ≤ length pairs.now }
    ensures owners_value { owners.new ≡ sets owners.old 0 (map pair_vertex (take count pairs.now)) }
    ensures others_value { others.new ≡ sets others.old 0 (map pair_group (take count pairs.now)) }
{
    for i in 0..count {
        let pair = at(pairs, i) as usize;
        put(owners, i, (pair / GROUP_NUMBERS) as u32);
        base_buffer::put(others, i, (pair % GROUP_NUMBERS) as u8);
    }
}
