// Whether what two components become is active. Definitions in specs/.
ghost use Rattle.std.specs.Prelude.{◌≡◌, get_or};
ghost use Rattle.base_finite.specs.Below.{counted, any_below};
ghost use Rattle.plan_active.specs.Flags.{of_either, apart_from_mate, joined_active};

use base_buffer::at;
use base_limits::MAX_VERTICES;

// Whether a label is x or y.
fn is_either(label: u32, x: u32, y: u32) -> bool
    ensures { result ≡ of_either x y label }
{
    if label == x {
        return true;
    }
    label == y
}

// Whether of vertex v and its mate one is in component x or y, and the other in neither.
fn is_parted(
    mates: &[u32; MAX_VERTICES],
    labels: &[u32; MAX_VERTICES],
    x: u32,
    y: u32,
    v: u32,
) -> bool
    ensures { result ≡ apart_from_mate mates.now labels.now x y v }
{
    let i = v as usize;
    let mate = at(mates, i) as usize;
    let own = is_either(at(labels, i), x, y);
    let other = is_either(at(labels, mate), x, y);
    if own {
        return !other;
    }
    other
}

// Whether one of the first `count` listed vertices is.
fn is_any_parted(
    mates: &[u32; MAX_VERTICES],
    labels: &[u32; MAX_VERTICES],
    members: &[u32; MAX_VERTICES],
    count: usize,
    x: u32,
    y: u32,
) -> bool
    ensures { result ≡ any_below count (λ k. apart_from_mate mates.now labels.now x y (get_or members.now k 0)) }
{
    for k in 0..count {
        if is_parted(mates, labels, x, y, at(members, k)) {
            return true;
        }
    }
    false
}

// The flag of what the components of two vertices become, found before they do: by these two, then by the list.
pub fn joined_flag(
    mates: &[u32; MAX_VERTICES],
    labels: &[u32; MAX_VERTICES],
    members: &[u32; MAX_VERTICES],
    count: usize,
    first: u32,
    second: u32,
) -> u8
    ensures { result ≡ counted (joined_active mates.now labels.now members.now count first second) 1 }
{
    let x = at(labels, first as usize);
    let y = at(labels, second as usize);
    if is_parted(mates, labels, x, y, first) {
        return 1;
    }
    if is_parted(mates, labels, x, y, second) {
        return 1;
    }
    if is_any_parted(mates, labels, members, count, x, y) {
        return 1;
    }
    0
}
