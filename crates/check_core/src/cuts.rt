// The cuts that duals are: whether each has members of some group on both sides.
ghost use Rattle.std.specs.Prelude.{◌≡◌, Bool, not, ℕ, ◌≤◌, ◌/◌, length};
ghost use Rattle.base_finite.specs.Below.{counted, tabulate};
ghost use Rattle.base_limits.specs.Limits.{max_vertices, record_bytes};
ghost use Rattle.base_limits.specs.Verdict.{refuse_if, lowest_below};
ghost use Rattle.format_record.specs.Record.{member_in};
ghost use Rattle.theory_steiner.specs.Problem.{separates};
ghost use Rattle.survey_core.specs.Survey.{groups_alone, problem_of};
ghost use Rattle.check_rule.specs.Check.{dual_at};

use crate::scan::lowest;
use base_limits::{MAX_VERTICES, RECORD_BYTES, Verdict};

// The sides of a cut as labels.
fn sides(part: &[u8]) -> [u32; MAX_VERTICES]
    ensures { result ≡ tabulate max_vertices (λ v. counted (member_in part.now v) 1) }
{
    let mut labels = [0u32; MAX_VERTICES];
    for (v, label) in labels.iter_mut().enumerate() {
        *label = u32::from(format_record::member(part, v));
    }
    labels
}

// 12: a cut with no group's members on both sides.
fn cut_refusal(groups: &[u8], part: &[u8], i: usize) -> Verdict
    requires { length part.now ≤ record_bytes }
    ensures { let p = problem_of (groups_alone groups.now) in
        result ≡ refuse_if (not (separates p (member_in part.now))) 12 i }
{
    let labels = sides(part);
    if survey_groups::is_separating(groups, &labels) {
        return Verdict::Fine;
    }
    Verdict::Refused {
        number: 12,
        place: i,
    }
}

// The lowest record that 12 refuses.
pub fn cuts_refusal(groups: &[u8], records: &[u8]) -> Verdict
    ensures { let p = problem_of (groups_alone groups.now) in
        let cut : ℕ → ℕ → Bool = λ i. (dual_at records.now i).holds in
        result ≡ lowest_below (length records.now / record_bytes) (λ i. refuse_if (not (separates p (cut i))) 12 i) }
{
    lowest(
        records.len() / RECORD_BYTES,
        |i| cut_refusal(groups, format_record::record(records, i), i),
    )
}
