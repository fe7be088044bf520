// Planning, growing, dropping, and copies for groups with strengths, for a caller that gets one number back and the
// counts in a lent buffer. Definitions in specs/Call, specs/GrowCall and specs/WinterCall. `plan_call`, `grow_call`,
// `drop_call` and `winter_call` answer 0, or number + 256 * place.
#![tactic(auto)]

ghost use Rattle.std.specs.Prelude.{◌≡◌};
ghost use Rattle.survey_core.specs.Survey.{lent_with};
ghost use Rattle.api_code.specs.Code.{code_of};
ghost use Rattle.api_plan.specs.Call.{plan_call, plan_marks, plan_records, plan_counts};

pub use drop::drop_call;
pub use grow::grow_call;
use plan_rule::Planned;

mod closed;
mod drop;
mod floor;
mod grow;
mod winter;

pub use closed::closed_call;
pub use floor::floor_call;
pub use winter::winter_call;

// Entries of the counts.
pub const PLAN_FIGURES: usize = 5;

// Plans a survey with pairs (owners, others). `counts` gets k, cost, bound, rounds and the number of moats.
pub fn plan_call(
    groups: &[u8],
    firsts: &[u32],
    seconds: &[u32],
    weights: &[u32],
    owners: &[u32],
    others: &[u8],
    marks: &mut [u8],
    records: &mut [u8],
    counts: &mut [u64],
) -> u64
    ensures code { let s = lent_with groups.now firsts.now seconds.now weights.now owners.now others.now in
        result ≡ code_of (plan_call s marks.old records.old counts.old) }
    ensures marks { let s = lent_with groups.now firsts.now seconds.now weights.now owners.now others.now in
        marks.new ≡ plan_marks s marks.old records.old counts.old }
    ensures records { let s = lent_with groups.now firsts.now seconds.now weights.now owners.now others.now in
        records.new ≡ plan_records s marks.old records.old counts.old }
    ensures counts { let s = lent_with groups.now firsts.now seconds.now weights.now owners.now others.now in
        counts.new ≡ plan_counts s marks.old records.old counts.old }
{
    if counts.len() < PLAN_FIGURES {
        return api_code::short_counts(groups, firsts, seconds, weights, owners, others);
    }
    let answer = plan_core::plan(
        groups, firsts, seconds, weights, owners, others, marks, records,
    );
    match answer {
        Planned::Finished {
            terminals,
            cost,
            bound,
            rounds,
            duals,
        } => {
            api_code::store_five(counts, terminals, cost, bound, rounds, duals);
            0
        }
        Planned::Refused { number, place } => api_code::code(number, place),
    }
}
