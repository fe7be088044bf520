// The groups of one junction of the result, as a row of flags.
ghost use Rattle.std.specs.Prelude.{◌≡◌, cond, ◌||◌, length, set, eqb};
ghost use Rattle.base_finite.specs.Below.{counted, tabulate};
ghost use Rattle.base_limits.specs.Limits.{group_numbers};
ghost use Rattle.survey_core.specs.Lists.{lent_lists, is_paired, own};
ghost use Rattle.merge_core.specs.Row.{marked, paired_below, further_with, own_with};

use base_buffer::{at, put};
use base_limits::GROUP_NUMBERS;

// The flag of a group, where the pair is v's.
fn mark_if(flags: &mut [u8], owner: u32, other: u8, v: usize)
    ensures { flags.new ≡ cond (eqb owner v) (set flags.old other 1) flags.old }
{
    if owner as usize == v {
        put(flags, usize::from(other), 1);
    }
}

// The flags of the groups that v has by pairs.
fn mark_pairs(flags: &mut [u8], owners: &[u32], others: &[u8], v: usize)
    ensures { flags.new ≡ marked (λ g. paired_below owners.now others.now (length owners.now) g v) flags.old }
{
    for i in 0..owners.len() {
        mark_if(flags, base_buffer::at(owners, i), at(others, i), v);
    }
}

// And of its own group.
fn mark_groups(flags: &mut [u8], groups: &[u8], owners: &[u32], others: &[u8], v: usize)
    ensures { let l = lent_lists groups.now owners.now others.now in
        flags.new ≡ marked (λ g. is_paired l g v || eqb (own l v) g) flags.old }
{
    mark_pairs(flags, owners, others, v);
    put(flags, usize::from(at(groups, v)), 1);
}

// The own group of a junction that is w of the first and v of the second: the first's, or the second's where that is 0.
pub fn own_of(groups: &[u8], second_groups: &[u8], w: usize, v: usize) -> u8
    ensures { result ≡ own_with groups.now second_groups.now w v }
{
    let own = at(groups, w);
    if own == 0 {
        return at(second_groups, v);
    }
    own
}

// A flag for each group that the junction w of the first and v of the second has and that is not its own.
pub fn row_of(
    groups: &[u8],
    owners: &[u32],
    others: &[u8],
    second_groups: &[u8],
    second_owners: &[u32],
    second_others: &[u8],
    w: usize,
    v: usize,
) -> [u8; GROUP_NUMBERS]
    ensures { result ≡ tabulate group_numbers (λ g. counted (further_with (lent_lists groups.now owners.now others.now)
        (lent_lists second_groups.now second_owners.now second_others.now) w v g) 1) }
{
    let mut flags = [0u8; GROUP_NUMBERS];
    mark_groups(&mut flags, groups, owners, others, w);
    mark_groups(&mut flags, second_groups, second_owners, second_others, v);
    put(
        &mut flags,
        usize::from(own_of(groups, second_groups, w, v)),
        0,
    );
    put(&mut flags, 0, 0);
    flags
}
