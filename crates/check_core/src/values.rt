// The values and the members of duals: 11.
ghost use Rattle.std.specs.Prelude.{◌≡◌, ◌&&◌, ◌*◌, ◌/◌, length, leb};
ghost use Rattle.base_finite.specs.Below.{any_below};
ghost use Rattle.base_limits.specs.Limits.{member_bytes, record_bytes};
ghost use Rattle.base_limits.specs.Verdict.{lowest_below};
ghost use Rattle.format_record.specs.Record.{member_in};
ghost use Rattle.survey_core.specs.Survey.{groups_alone};
ghost use Rattle.check_rule.specs.Check.{dual_at, dual_refusal};
ghost use Rattle.check_core.specs.Duals.{dual_of_record};

use crate::scan::lowest;
use base_limits::{MAX_VALUE, MEMBER_BYTES, RECORD_BYTES, Verdict};

// Whether v is a member and no vertex.
fn is_stray(part: &[u8], n: usize, v: usize) -> bool
    ensures { result ≡ (leb n v && member_in part.now v) }
{
    n <= v && format_record::member(part, v)
}

// Whether some member is no vertex.
fn has_stray(part: &[u8], n: usize) -> bool
    ensures { result ≡ any_below (8 * member_bytes) (λ v. leb n v && member_in part.now v) }
{
    for v in 0..8 * MEMBER_BYTES {
        if is_stray(part, n, v) {
            return true;
        }
    }
    false
}

// 11: a value of 0 or too large, or a member that is no vertex.
fn dual_refusal(groups: &[u8], part: &[u8], i: usize) -> Verdict
    ensures { result ≡ dual_refusal (groups_alone groups.now) (dual_of_record part.now) i }
{
    let value = format_record::value(part);
    if value == 0 {
        return Verdict::Refused {
            number: 11,
            place: i,
        };
    }
    if MAX_VALUE < value {
        return Verdict::Refused {
            number: 11,
            place: i,
        };
    }
    if has_stray(part, groups.len()) {
        return Verdict::Refused {
            number: 11,
            place: i,
        };
    }
    Verdict::Fine
}

// The lowest record that 11 refuses.
pub fn values_refusal(groups: &[u8], records: &[u8]) -> Verdict
    ensures { let s = groups_alone groups.now in
        result ≡ lowest_below (length records.now / record_bytes) (λ i. dual_refusal s (dual_at records.now i) i) }
{
    lowest(
        records.len() / RECORD_BYTES,
        |i| dual_refusal(groups, format_record::record(records, i), i),
    )
}
