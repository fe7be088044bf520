// Which components are active at the start, as flags by component number. Definitions in specs/.
ghost use Rattle.std.specs.Prelude.{◌≡◌};
ghost use Rattle.plan_active.specs.Flags.{flagged, active_flags};

use base_buffer::{at, put};
use base_limits::{MAX_DUALS, MAX_VERTICES};

// The component of a vertex of a split group is active.
fn flag_label(flags: &mut [u8; MAX_DUALS], summary: u64, label: u32)
    ensures { flags.new ≡ flagged flags.old summary label }
{
    if summary == 1 {
        put(flags, label as usize, 1);
    }
}

// 1 for each active component number, 0 for the others.
pub fn active_flags(groups: &[u8], labels: &[u32; MAX_VERTICES]) -> [u8; MAX_DUALS]
    ensures { result ≡ active_flags groups.now labels.now }
{
    let table = survey_groups::spreads(groups, labels);
    let mut flags = [0u8; MAX_DUALS];
    for v in 0..groups.len() {
        let summary = at(&table, usize::from(base_buffer::at(groups, v)));
        flag_label(&mut flags, summary, at(labels, v));
    }
    flags
}
