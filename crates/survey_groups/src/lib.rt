// How the members of groups lie over components: a summary of each group (specs/Spread), the member of its group before
// each junction (specs/Mate). Functions find the lowest split group, say whether a cut separates, and count sites.
#![tactic(auto)]

ghost use Rattle.std.specs.Prelude.{◌≡◌, ℕ, ◌+◌, ◌<◌, ◌^◌, get_or, length};
ghost use Rattle.base_finite.specs.Below.{tabulate};
ghost use Rattle.base_limits.specs.Limits.{group_numbers};
ghost use Rattle.survey_core.specs.Survey.{groups_alone};
ghost use Rattle.survey_groups.specs.Spread.{noted, noted_in, spread};

use base_buffer::{at, put};
use base_limits::GROUP_NUMBERS;

pub mod mates;
mod separating;
pub mod terminals;

pub use separating::{first_split, is_separating, split_refusal};

// What one more member's label makes of a group's summary.
fn noted_label(summary: u64, label: u64) -> u64
    requires { label + 2 < 2 ^ 64 }
    ensures { result ≡ noted summary label }
{
    if summary == 0 {
        return label + 2;
    }
    if summary == label + 2 {
        return label + 2;
    }
    1
}

// One more vertex in the table of all groups.
fn note(table: &mut [u64], group: u8, label: u64)
    requires { label + 2 < 2 ^ 64 }
    ensures { table.new ≡ noted_in table.old group label }
{
    if group == 0 {
        return;
    }
    let g = usize::from(group);
    let x = noted_label(at(table, g), label);
    put(table, g, x);
}

// The same with a label of a buffer, which always fits.
pub fn note_label(table: &mut [u64], group: u8, label: u32)
    ensures { table.new ≡ noted_in table.old group label }
{
    note(table, group, u64::from(label));
}

// The table of all groups under given labels.
pub fn spreads(groups: &[u8], labels: &[u32]) -> [u64; GROUP_NUMBERS]
    ensures { let s = groups_alone groups.now in
        let label : ℕ → ℕ = λ v. get_or labels.now v 0 in
        result ≡ tabulate group_numbers (λ g. spread s label g (length groups.now)) }
{
    let mut table = [0u64; GROUP_NUMBERS];
    for v in 0..groups.len() {
        note(
            &mut table,
            base_buffer::at(groups, v),
            u64::from(base_buffer::at(labels, v)),
        );
    }
    table
}

// The table of all groups where each vertex has its own label.
pub fn own_spreads(groups: &[u8]) -> [u64; GROUP_NUMBERS]
    ensures { let s = groups_alone groups.now in
        result ≡ tabulate group_numbers (λ g. spread s (λ v. v) g (length groups.now)) }
{
    let mut table = [0u64; GROUP_NUMBERS];
    for (v, group) in groups.iter().enumerate() {
        note(&mut table, *group, v as u64);
    }
    table
}
