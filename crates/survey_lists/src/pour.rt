// Pours lists together that share a member.
ghost use Rattle.std.specs.Prelude.{◌≡◌, get_or, length};
ghost use Rattle.base_finite.specs.Below.{tabulate};
ghost use Rattle.base_limits.specs.Limits.{max_vertices, group_numbers};
ghost use Rattle.survey_components.specs.Buffer.{ends_joined};
ghost use Rattle.survey_core.specs.Lists.{lists_from, lent_lists};
ghost use Rattle.survey_lists.specs.Pouring.{home, poured_label, poured, room_of};

use crate::homes::{home, homes, own_groups};
use base_buffer::{at, put};
use base_limits::{GROUP_NUMBERS, MAX_VERTICES};

// The home of any vertex, from the table where that reaches.
fn home_at(homes: &[u8], groups: &[u8], owners: &[u32], others: &[u8], v: usize) -> u8
    requires { homes.now ≡ tabulate max_vertices (home (lists_from groups.now owners.now others.now)) }
    ensures { result ≡ home (lent_lists groups.now owners.now others.now) v }
{
    if v < MAX_VERTICES {
        return at(homes, v);
    }
    home(groups, owners, others, v)
}

// The list of pair i and the home of its vertex become one.
fn join_pair(
    homes: &[u8],
    groups: &[u8],
    owners: &[u32],
    others: &[u8],
    labels: &mut [u32],
    i: usize,
)
    requires { homes.now ≡ tabulate max_vertices (home (lists_from groups.now owners.now others.now)) }
    ensures { let first = home (lent_lists groups.now owners.now others.now) (get_or owners.now i 0) in
        labels.new ≡ ends_joined first (get_or others.now i 0) labels.old }
{
    let first = home_at(homes, groups, owners, others, at(owners, i) as usize);
    let second = at(others, i);
    let z = at(labels, usize::from(first));
    survey_components::merge(labels, first as u32, second as u32, z);
}

// Labels of the lists: those that are poured together have one.
fn label_lists(homes: &[u8], groups: &[u8], owners: &[u32], others: &[u8]) -> [u32; GROUP_NUMBERS]
    requires { homes.now ≡ tabulate max_vertices (home (lists_from groups.now owners.now others.now)) }
    ensures { result ≡ tabulate group_numbers (poured_label (lent_lists groups.now owners.now others.now)) }
{
    let mut labels = [0u32; GROUP_NUMBERS];
    survey_components::own_labels(&mut labels);
    for i in 0..owners.len() {
        join_pair(homes, groups, owners, others, &mut labels, i);
    }
    labels
}

// The poured group of v, by the labels of the lists.
fn poured_group(
    homes: &[u8],
    groups: &[u8],
    owners: &[u32],
    others: &[u8],
    labels: &[u32],
    v: usize,
) -> u8
    requires homes_value { homes.now ≡ tabulate max_vertices (home (lists_from groups.now owners.now others.now)) }
    requires labels_value { labels.now ≡ tabulate group_numbers (poured_label (lists_from groups.now owners.now others.now)) }
    ensures { result ≡ poured (lent_lists groups.now owners.now others.now) v }
{
    let list = home_at(homes, groups, owners, others, v);
    at(labels, usize::from(list)) as u8
}

// The poured groups of a survey with pairs.
fn poured_groups(groups: &[u8], owners: &[u32], others: &[u8]) -> [u8; MAX_VERTICES]
    ensures { result ≡ room_of (length groups.now) (poured (lent_lists groups.now owners.now others.now)) }
{
    let housed = homes(groups, owners, others);
    let labels = label_lists(&housed, groups, owners, others);
    let mut room = [0u8; MAX_VERTICES];
    for v in 0..groups.len() {
        put(
            &mut room,
            v,
            poured_group(&housed, groups, owners, others, &labels, v),
        );
    }
    room
}

// The groups of the vertices after pouring, zeros behind the last. Without pairs they are the own groups.
pub fn pour(groups: &[u8], owners: &[u32], others: &[u8]) -> [u8; MAX_VERTICES]
    ensures { result ≡ room_of (length groups.now) (poured (lent_lists groups.now owners.now others.now)) }
{
    if owners.len() == 0 {
        return own_groups(groups);
    }
    poured_groups(groups, owners, others)
}
