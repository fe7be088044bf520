// How many vertices are terminals.
ghost use Rattle.std.specs.Prelude.{◌≡◌, get_or, length, eqb};
ghost use Rattle.base_finite.specs.Below.{count_below};
ghost use Rattle.theory_steiner.specs.Problem.{terminals};
ghost use Rattle.survey_core.specs.Survey.{groups_alone, problem_of};

use crate::own_spreads;
use base_buffer::at;

// How many vertices are in groups that a table says are split.
fn count_split(groups: &[u8], table: &[u64]) -> u64
    ensures { result ≡ count_below (length groups.now) (λ v. eqb (get_or table.now (get_or groups.now v 0) 0) 1) }
{
    let mut count = 0;
    for group in groups {
        count += u64::from(at(table, usize::from(*group)) == 1);
    }
    count
}

// k: how many vertices are in groups of two or more.
pub fn terminals(groups: &[u8]) -> u64
    ensures { result ≡ terminals (problem_of (groups_alone groups.now)) }
{
    let table = own_spreads(groups);
    count_split(groups, &table)
}
