// The bits of strengths, and the own groups and pairs whose strength has one.
ghost use Rattle.std.specs.Prelude.{◌≡◌, cond, ◌+◌, ◌^◌, ◌≤◌, ◌<◌, get_or, length, replicate, set};
ghost use Rattle.base_buffer.specs.Store.{remade};
ghost use Rattle.base_finite.specs.Below.{counted, count_below};
ghost use Rattle.base_limits.specs.Limits.{max_vertices, max_pairs};
ghost use Rattle.theory_steiner.specs.Strength.{strength_bits, has_bit};
ghost use Rattle.winter_rule.specs.Winter.{strength_of};
ghost use Rattle.winter_core.specs.Bit.{carries, bit_group, pair_carries, passed};

use base_buffer::{at, put};
use base_limits::MAX_VERTICES;

// How often a track that is kept for this bit counts.
pub fn power(bit: usize) -> u8
    requires { bit < strength_bits }
    ensures { result ≡ 2 ^ bit }
{
    if bit < 1 {
        return 1;
    }
    if bit < 2 {
        return 2;
    }
    if bit < 3 {
        return 4;
    }
    8
}

fn has_bit(strength: u8, bit: usize) -> bool
    requires { bit < strength_bits }
    ensures { result ≡ has_bit strength bit }
{
    strength / power(bit) % 2 == 1
}

// The strength of a group, in a list that begins with that of group 1.
fn strength_of(strengths: &[u8], group: u8) -> u8
    ensures { result ≡ strength_of strengths.now group }
{
    if group < 1 {
        return at(strengths, 0);
    }
    at(strengths, usize::from(group) - 1)
}

// Whether the strength of a group has the bit.
fn carries(strengths: &[u8], bit: usize, group: u8) -> bool
    requires { bit < strength_bits }
    ensures { result ≡ carries strengths.now bit group }
{
    has_bit(strength_of(strengths, group), bit)
}

fn bit_group(strengths: &[u8], bit: usize, group: u8) -> u8
    requires { bit < strength_bits }
    ensures { result ≡ bit_group strengths.now bit group }
{
    if carries(strengths, bit, group) {
        return group;
    }
    0
}

// The own groups with the bit, 0 for others.
pub fn bit_groups(groups: &[u8], strengths: &[u8], bit: usize) -> [u8; MAX_VERTICES]
    requires { bit < strength_bits }
    ensures { result ≡ remade (λ v x. bit_group strengths.now bit (get_or groups.now v 0))
        (length groups.now) (replicate max_vertices 0) }
{
    let mut room = [0u8; MAX_VERTICES];
    for (v, group) in groups.iter().enumerate() {
        put(&mut room, v, bit_group(strengths, bit, *group));
    }
    room
}

// x at place i, if it is to be kept.
fn put_if<T: Copy>(room: &mut [T], i: usize, x: T, keep: bool)
    ensures { room.new ≡ cond keep (set room.old i x) room.old }
{
    if keep {
        put(room, i, x);
    }
}

// The pairs of groups with the bit, in their order; answers how many.
pub fn bit_pairs(
    owners: &[u32],
    others: &[u8],
    strengths: &[u8],
    bit: usize,
    carriers: &mut [u32],
    carried: &mut [u8],
) -> usize
    requires bit_lt_strength_bits { bit < strength_bits }
    requires owners_len_bound { length owners.now ≤ max_pairs }
    requires owners_in_bounds { length owners.now ≤ length carriers.old }
    requires owners_in_bounds_2 { length owners.now ≤ length carried.old }
    ensures value { result ≡ count_below (length owners.now) (pair_carries strengths.now others.now bit) }
    ensures carriers_value { carriers.new
        ≡ passed (pair_carries strengths.now others.now bit) owners.now carriers.old (length owners.now) }
    ensures carried_value { carried.new
        ≡ passed (pair_carries strengths.now others.now bit) others.now carried.old (length owners.now) }
{
    let mut count = 0;
    for i in 0..owners.len() {
        let other = at(others, i);
        let keep = carries(strengths, bit, other);
        put_if(carriers, count, at(owners, i), keep);
        put_if(carried, count, other, keep);
        count += usize::from(keep);
    }
    count
}
