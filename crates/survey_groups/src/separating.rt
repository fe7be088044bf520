// Which groups are split by labels, and whether a set of vertices separates some group.
ghost use Rattle.std.specs.Prelude.{◌≡◌, ℕ, Bool, not, get_or, length, eqb};
ghost use Rattle.base_limits.specs.Limits.{group_numbers};
ghost use Rattle.base_limits.specs.Verdict.{refuse_if, lowest_below};
ghost use Rattle.theory_steiner.specs.Problem.{separates};
ghost use Rattle.survey_core.specs.Survey.{groups_alone, group_joined, problem_of};
ghost use Rattle.survey_groups.specs.Spread.{Sides};

use crate::spreads;
use base_buffer::at;
use base_limits::{GROUP_NUMBERS, Verdict};

// The lowest group that a table says is split.
pub fn first_split(table: &[u64], number: u64) -> Verdict
    ensures { result ≡ lowest_below group_numbers (λ g. refuse_if (eqb (get_or table.now g 0) 1) number g) }
{
    for g in 0..GROUP_NUMBERS {
        if at(table, g) == 1 {
            return Verdict::Refused { number, place: g };
        }
    }
    Verdict::Fine
}

// The lowest group whose members have different labels.
pub fn split_refusal(groups: &[u8], labels: &[u32], number: u64) -> Verdict
    ensures { let s = groups_alone groups.now in
        let label : ℕ → ℕ = λ v. get_or labels.now v 0 in
        result ≡ lowest_below group_numbers (λ g. refuse_if (not (group_joined s label g)) number g) }
{
    let table = spreads(groups, labels);
    first_split(&table, number)
}

// Whether some group has members on both sides of a set of vertices, whose sides the labels are.
pub fn is_separating(groups: &[u8], labels: &[u32]) -> bool
    ensures { (S : ℕ → Bool) → Sides S (length groups.now) labels.now
        → result ≡ separates (problem_of (groups_alone groups.now)) S }
{
    let split = split_refusal(groups, labels, 0);
    match split {
        Verdict::Fine => false,
        Verdict::Refused {
            number: _,
            place: _,
        } => true,
    }
}
