// The home of each vertex: the first list that it is in.
ghost use Rattle.std.specs.Prelude.{◌≡◌, cond, ◌&&◌, get_or, length, set, eqb, ltb};
ghost use Rattle.base_finite.specs.Below.{tabulate};
ghost use Rattle.base_limits.specs.Limits.{max_vertices};
ghost use Rattle.survey_core.specs.Lists.{lent_lists};
ghost use Rattle.survey_lists.specs.Pouring.{home, room_of};

use base_buffer::{at, put};
use base_limits::MAX_VERTICES;

// The group of pair i, if it is a pair of v.
fn pair_of(owners: &[u32], others: &[u8], v: usize, i: usize) -> u8
    ensures { result ≡ cond (eqb (get_or owners.now i 0) v) (get_or others.now i 0) 0 }
{
    if at(owners, i) as usize == v {
        return at(others, i);
    }
    0
}

// One list of v: its own group, or that of its first pair.
pub fn home(groups: &[u8], owners: &[u32], others: &[u8], v: usize) -> u8
    ensures { result ≡ home (lent_lists groups.now owners.now others.now) v }
{
    let own = at(groups, v);
    if own != 0 {
        return own;
    }
    for i in 0..owners.len() {
        let found = pair_of(owners, others, v, i);
        if found != 0 {
            return found;
        }
    }
    0
}

// The own groups.
pub fn own_groups(groups: &[u8]) -> [u8; MAX_VERTICES]
    ensures { result ≡ room_of (length groups.now) (λ v. get_or groups.now v 0) }
{
    let mut room = [0u8; MAX_VERTICES];
    for (v, group) in groups.iter().enumerate() {
        put(&mut room, v, *group);
    }
    room
}

// A list for v, if it has none yet.
fn note_home(homes: &mut [u8], v: usize, group: u8)
    ensures { let none = ltb v max_vertices && eqb (get_or homes.old v 0) 0 in
        homes.new ≡ cond none (set homes.old v group) homes.old }
{
    if MAX_VERTICES <= v {
        return;
    }
    if at(homes, v) != 0 {
        return;
    }
    put(homes, v, group);
}

// The homes of all vertices that a survey may have, in one pass over the pairs.
pub fn homes(groups: &[u8], owners: &[u32], others: &[u8]) -> [u8; MAX_VERTICES]
    ensures { result ≡ tabulate max_vertices (home (lent_lists groups.now owners.now others.now)) }
{
    let mut housed = own_groups(groups);
    for i in 0..owners.len() {
        note_home(&mut housed, at(owners, i) as usize, at(others, i));
    }
    housed
}
