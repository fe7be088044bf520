// Which components are active, as flags by component number, and whether a merged one will be. Definitions in
// specs/Flags. `active_flags` makes those of the start, `joined_flag` that of a merged component, `merge` its labels
// and flags.
#![tactic(auto)]

ghost use Rattle.std.specs.Prelude.{◌≡◌};
ghost use Rattle.plan_active.specs.Flags.{relabelled_first, merged_flags};

use crate::relabel::relabel_first;
use base_buffer::put;
use base_limits::{MAX_DUALS, MAX_VERTICES};

mod flags;
mod mated;
mod parted;
mod relabel;

pub use flags::active_flags;
pub use mated::list_members;
pub use parted::joined_flag;

// The components x and y become z among the first n vertices, and their flags give way to its flag.
pub fn merge(
    labels: &mut [u32; MAX_VERTICES],
    flags: &mut [u8; MAX_DUALS],
    n: usize,
    x: u32,
    y: u32,
    z: u32,
    flag: u8,
)
    ensures labels_value { labels.new ≡ relabelled_first n x y z labels.old }
    ensures flags_value { flags.new ≡ merged_flags x y z flag flags.old }
{
    relabel_first(labels, n, x, y, z);
    put(flags, x as usize, 0);
    put(flags, y as usize, 0);
    put(flags, z as usize, flag);
}
