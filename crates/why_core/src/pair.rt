// The lowest pair of members of a list that have different labels, by two scans. Lists may overlap: a vertex is a
// member by its own group or by a pair.
ghost use Rattle.std.specs.Prelude.{◌≡◌, ◌&&◌, not, [], get_or, length, eqb};
ghost use Rattle.survey_core.specs.Lists.{lists_from, lent_lists, is_paired, in_list};
ghost use Rattle.theory_route.specs.First.{first_below};

use base_buffer::at;

// Whether pair i puts v into list g.
fn is_pair(owners: &[u32], others: &[u8], g: usize, v: usize, i: usize) -> bool
    ensures { result ≡ (eqb (get_or owners.now i 0) v && eqb (get_or others.now i 0) g) }
{
    if at(owners, i) as usize != v {
        return false;
    }
    usize::from(at(others, i)) == g
}

// Whether some pair does.
fn is_paired(owners: &[u32], others: &[u8], g: usize, v: usize) -> bool
    ensures { result ≡ is_paired (lists_from [] owners.now others.now) g v }
{
    (0..owners.len()).any(|i| is_pair(owners, others, g, v, i))
}

// Whether v is a member of list g; 0 is no list.
fn is_member(groups: &[u8], owners: &[u32], others: &[u8], g: usize, v: usize) -> bool
    ensures { result ≡ in_list (lent_lists groups.now owners.now others.now) g v }
{
    if g == 0 {
        return false;
    }
    if is_paired(owners, others, g, v) {
        return true;
    }
    usize::from(at(groups, v)) == g
}

// The lowest member of list g; the number of vertices where it has none.
pub fn first_member(groups: &[u8], owners: &[u32], others: &[u8], g: usize) -> usize
    ensures { result ≡ first_below (length groups.now) (in_list (lent_lists groups.now owners.now others.now) g) }
{
    let n = groups.len();
    (0..n)
        .find(|v| is_member(groups, owners, others, g, *v))
        .unwrap_or(n)
}

// Whether v is a member of list g with another label than u.
fn is_apart(
    groups: &[u8],
    owners: &[u32],
    others: &[u8],
    labels: &[u32],
    g: usize,
    u: usize,
    v: usize,
) -> bool
    ensures { let l = lent_lists groups.now owners.now others.now in
        result ≡ (in_list l g v && not (eqb (get_or labels.now u 0) (get_or labels.now v 0))) }
{
    if !is_member(groups, owners, others, g, v) {
        return false;
    }
    at(labels, u) != at(labels, v)
}

// The lowest member of list g with another label than u; the number of vertices where there is none.
pub fn first_apart(
    groups: &[u8],
    owners: &[u32],
    others: &[u8],
    labels: &[u32],
    g: usize,
    u: usize,
) -> usize
    ensures { let l = lent_lists groups.now owners.now others.now in
        result ≡ first_below (length groups.now)
        (λ v. in_list l g v && not (eqb (get_or labels.now u 0) (get_or labels.now v 0))) }
{
    let n = groups.len();
    (0..n)
        .find(|v| is_apart(groups, owners, others, labels, g, u, *v))
        .unwrap_or(n)
}
