// What moats are refused for, 11 to 13, and the loads of the edges. Definitions in specs/.
ghost use Rattle.std.specs.Prelude.{◌≡◌, Bool, [], ℕ, ◌*◌, get_or, length, ltb};
ghost use Rattle.std.specs.Bool.{xor};
ghost use Rattle.base_finite.specs.Below.{counted};
ghost use Rattle.base_limits.specs.Verdict.{refuse_if, lowest_below};
ghost use Rattle.format_record.specs.Record.{value_in, member_in};
ghost use Rattle.theory_steiner.specs.Dual.{dual_load};
ghost use Rattle.survey_core.specs.Survey.{survey_from, lent_survey, problem_of};
ghost use Rattle.check_rule.specs.Check.{duals_in};
ghost use Rattle.check_core.specs.Moats.{load_between, DualsFit, few_duals_refusal};

use crate::scan::{lowest, total};
use base_limits::{MAX_DUALS, RECORD_BYTES, Verdict};

// The value of a dual with exactly one of u and v inside, else 0.
fn crossing_value(part: &[u8], u: usize, v: usize) -> u64
    ensures { result ≡ counted (xor (member_in part.now u) (member_in part.now v)) (value_in part.now) }
{
    if format_record::member(part, u) != format_record::member(part, v) {
        return format_record::value(part);
    }
    0
}

// The dual load of an edge between u and v.
fn load_between(records: &[u8], u: usize, v: usize) -> u64
    requires { DualsFit records.now }
    ensures { result ≡ load_between records.now u v }
{
    total(records, |part| crossing_value(part, u, v))
}

// 13: a dual load above twice the weight.
fn load_refusal(records: &[u8], first: u32, second: u32, weight: u32, e: usize) -> Verdict
    requires { DualsFit records.now }
    ensures { result ≡ refuse_if (ltb (2 * weight) (load_between records.now first second)) 13 e }
{
    let load = load_between(records, first as usize, second as usize);
    if 2 * u64::from(weight) < load {
        return Verdict::Refused {
            number: 13,
            place: e,
        };
    }
    Verdict::Fine
}

// The lowest edge that 13 refuses.
fn loads_refusal(firsts: &[u32], seconds: &[u32], weights: &[u32], records: &[u8]) -> Verdict
    requires { DualsFit records.now }
    ensures { let p = problem_of (survey_from [] firsts.now seconds.now weights.now) in
        let overtight : ℕ → Bool = λ e. ltb (2 * get_or weights.now e 0) (dual_load p (duals_in records.now) e) in
        result ≡ lowest_below (length firsts.now) (λ e. refuse_if (overtight e) 13 e) }
{
    lowest(firsts.len(), |e| {
        load_refusal(
            records,
            base_buffer::at(firsts, e),
            base_buffer::at(seconds, e),
            base_buffer::at(weights, e),
            e,
        )
    })
}

// 11, 12 and 13, of no more moats than a plan has; too many are refused by 9.
pub fn duals_refusal(
    groups: &[u8],
    firsts: &[u32],
    seconds: &[u32],
    weights: &[u32],
    records: &[u8],
) -> Verdict
    ensures { result ≡ few_duals_refusal (lent_survey groups.now firsts.now seconds.now weights.now) records.now }
{
    if MAX_DUALS < records.len() / RECORD_BYTES {
        return Verdict::Fine;
    }
    let unfit = crate::values::values_refusal(groups, records);
    let Verdict::Fine = unfit else {
        return unfit;
    };
    let whole = crate::cuts::cuts_refusal(groups, records);
    let Verdict::Fine = whole else {
        return whole;
    };
    loads_refusal(firsts, seconds, weights, records)
}
