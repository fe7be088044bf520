// The groups of the ascent: lists that share a member are one, numbered by the lowest of their numbers.
ghost use Rattle.std.specs.Prelude.{◌≡◌, cond, length, get_or, set, replicate, eqb};
ghost use Rattle.base_buffer.specs.Store.{remade};
ghost use Rattle.base_limits.specs.Limits.{max_vertices, group_numbers};
ghost use Rattle.floor_rule.specs.Number.{lower_number, number_of};
ghost use Rattle.floor_core.specs.Tables.{OwnLows, PairedLows};

use base_buffer::{at, put};
use base_limits::{GROUP_NUMBERS, MAX_VERTICES};

// The lower of two numbers, where 0 is none.
fn lower_number(x: u8, y: u8) -> u8
    ensures { result ≡ lower_number x y }
{
    match (x, y) {
        (low, 0) | (0, low) => low,
        _ => x.min(y),
    }
}

// One list more of poured group c.
fn note(lows: &mut [u8; GROUP_NUMBERS], c: u8, number: u8)
    ensures { lows.new ≡ set lows.old c (lower_number (get_or lows.old c 0) number) }
{
    let low = lower_number(at(lows, usize::from(c)), number);
    put(lows, usize::from(c), low);
}

// The lowest own number of the members of each poured group.
fn own_lows(poured: &[u8], groups: &[u8], lows: &mut [u8; GROUP_NUMBERS])
    requires { lows.old ≡ replicate group_numbers 0 }
    ensures { OwnLows poured.now groups.now (length groups.now) lows.new }
{
    for (v, number) in groups.iter().enumerate() {
        note(lows, at(poured, v), *number);
    }
}

// The lowest number of the lists that members of each poured group are in.
fn paired_lows(
    poured: &[u8],
    groups: &[u8],
    owners: &[u32],
    others: &[u8],
    lows: &mut [u8; GROUP_NUMBERS],
)
    requires { lows.old ≡ replicate group_numbers 0 }
    ensures { PairedLows
        poured.now groups.now owners.now others.now (length owners.now) lows.new }
{
    own_lows(poured, groups, lows);
    for (i, v) in owners.iter().enumerate() {
        note(lows, at(poured, *v as usize), at(others, i));
    }
}

// The number of poured group c, of its lowest; 0 is no group.
fn number_of(lows: &[u8; GROUP_NUMBERS], c: u8) -> u8
    ensures { result ≡ cond (eqb c 0) 0 (get_or lows.now c 0) }
{
    if c == 0 {
        return 0;
    }
    at(lows, usize::from(c))
}

// The groups of the ascent, zeros behind the last.
pub fn numbered(poured: &[u8], groups: &[u8], owners: &[u32], others: &[u8]) -> [u8; MAX_VERTICES]
    ensures { result ≡ remade
        (λ v x. number_of poured.now groups.now owners.now others.now (get_or poured.now v 0))
        (length groups.now) (replicate max_vertices 0) }
{
    let mut lows = [0u8; GROUP_NUMBERS];
    paired_lows(poured, groups, owners, others, &mut lows);
    let mut room = [0u8; MAX_VERTICES];
    for v in 0..groups.len() {
        put(&mut room, v, number_of(&lows, at(poured, v)));
    }
    room
}
