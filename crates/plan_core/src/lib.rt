// Planning: growing, then dropping. Definitions and promises are plan_rule's; specs/Grown, Planned and
// Picks say what the parts leave. `plan`, `grow_plan` and `prune_plan` answer counts and fill marks and records, or refuse.
#![tactic(auto)]

ghost use Rattle.std.specs.Prelude.{◌≡◌, length};
ghost use Rattle.survey_core.specs.Survey.{lent_with};
ghost use Rattle.plan_rule.specs.Plan.{counting, marks_after, records_after};
ghost use Rattle.plan_rule.specs.Answer.{planned_outcome};
ghost use Rattle.plan_rule.specs.Promise.{Promises};
ghost use Rattle.plan_rule.specs.Stages.{InStages};

use crate::refusal::lent_refusal;
use crate::whole::lent_plan;
use base_limits::Verdict;
use plan_rule::Planned;

mod counts;
pub mod figures;
mod grow;
mod lists;
mod marks;
mod planned;
mod poured;
mod prune;
mod refusal;
mod unjoined;
mod whole;

pub use grow::grow_plan;
pub use prune::prune_plan;

// Plans a survey into lent buffers for marks and moat records. Finished exactly if none of 1 to 8 and 18 applies; 8
// exactly if no set of tracks joins some group, and then the lowest; a finished plan passes the checker, is within the
// accuracy rule, and is a cheapest one with two sites or with all junctions in one list. Growing and then dropping by
// themselves come to the same. Lists that share a member are poured together, which changes nothing but the place of 8.
pub fn plan(
    groups: &[u8],
    firsts: &[u32],
    seconds: &[u32],
    weights: &[u32],
    owners: &[u32],
    others: &[u8],
    marks: &mut [u8],
    records: &mut [u8],
) -> Planned
    ensures result_value { let s = lent_with groups.now firsts.now seconds.now weights.now owners.now others.now in
        planned_outcome result ≡ counting s (length marks.old) (length records.old) }
    ensures marks_value { let s = lent_with groups.now firsts.now seconds.now weights.now owners.now others.now in
        marks.new ≡ marks_after s marks.old records.old }
    ensures records_value { let s = lent_with groups.now firsts.now seconds.now weights.now owners.now others.now in
        records.new ≡ records_after s marks.old records.old }
    ensures promises { let s = lent_with groups.now firsts.now seconds.now weights.now owners.now others.now in
        Promises s marks.old records.old (planned_outcome result) }
    ensures stages { let s = lent_with groups.now firsts.now seconds.now weights.now owners.now others.now in
        InStages s marks.old records.old }
{
    let found = lent_refusal(
        groups,
        firsts,
        seconds,
        weights,
        owners,
        others,
        marks.len(),
        records.len(),
    );
    if let Verdict::Refused { number, place } = found {
        return Planned::Refused { number, place };
    }
    lent_plan(
        groups, firsts, seconds, weights, owners, others, marks, records,
    )
}
