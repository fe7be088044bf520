// The checker of plans: any marks and any moat records against a survey. What it answers is check_rule's definition;
// how sums and stages go is specs/Duals, Moats, Cost and Stage. `check` answers k, kept cost and bound, or 1 to 6, 18
// or 9 to 15.
#![tactic(auto)]

ghost use Rattle.std.specs.Prelude.{◌≡◌, []};
ghost use Rattle.base_limits.specs.Verdict.{outcome, answer};
ghost use Rattle.survey_core.specs.Survey.{survey_from, lent_with};
ghost use Rattle.survey_core.specs.Accuracy.{Accurate, DualBound};
ghost use Rattle.check_rule.specs.Passing.{Passing};
ghost use Rattle.check_rule.specs.Check.{Checked, rule_refusal, checked_of, checking};
ghost use Rattle.check_core.specs.Stage.{input_refusal, PlanFits, checked_outcome};

use base_limits::Verdict;
use survey_components::Chosen;

mod cost;
mod cuts;
mod duals;
mod marks;
mod moats;
mod rule;
mod scan;
mod values;

pub use cost::kept_cost;

// k, kept cost and bound of a plan that passes; or a refusal's number and place.
#[derive(Drop)]
pub enum Checking {
    Passed {
        terminals: u64,
        cost: u64,
        bound: u64,
    },
    Refused {
        number: u64,
        place: usize,
    },
}

// 1 to 6, 18, then 9 and 10.
fn input_refusal(
    groups: &[u8],
    firsts: &[u32],
    seconds: &[u32],
    weights: &[u32],
    owners: &[u32],
    others: &[u8],
    marks: &[u8],
    records: &[u8],
) -> Verdict
    ensures { let s = lent_with groups.now firsts.now seconds.now weights.now owners.now others.now in
        result ≡ input_refusal s marks.now records.now }
{
    let unsound = survey_refusal::survey_refusal(groups, firsts, seconds, weights, owners, others);
    let Verdict::Fine = unsound else {
        return unsound;
    };
    let unshaped = crate::marks::shape_refusal(firsts, marks, records);
    let Verdict::Fine = unshaped else {
        return unshaped;
    };
    crate::marks::marks_refusal(firsts.len(), marks)
}

// The counts, if the accuracy rule's premise holds of them; else 15.
fn judge(groups: &[u8], firsts: &[u32], weights: &[u32], marks: &[u8], records: &[u8]) -> Checking
    requires { PlanFits groups.now firsts.now weights.now marks.now records.now }
    ensures { let s = survey_from groups.now firsts.now [] weights.now in
        let counts = checked_of s marks.now records.now in
        checked_outcome result ≡ outcome (rule_refusal counts) counts }
{
    let terminals = survey_groups::terminals::terminals(groups);
    let cost = crate::cost::kept_cost(firsts, weights, marks);
    let bound = duals::bound(records);
    let found = rule::rule_refusal(terminals, cost, bound);
    match found {
        Verdict::Fine => Checking::Passed {
            terminals,
            cost,
            bound,
        },
        Verdict::Refused { number, place } => Checking::Refused { number, place },
    }
}

// Checks a plan, marks and moat records, against a survey. It passes exactly if none of 1 to 6, 18 and 9 to 15 applies,
// and then the accuracy rule holds of the k and the kept cost that it answers, and no joining set costs less than half
// the bound. Lists that share a member are poured
// together for what does not depend on their numbers.
pub fn check(
    groups: &[u8],
    firsts: &[u32],
    seconds: &[u32],
    weights: &[u32],
    owners: &[u32],
    others: &[u8],
    marks: &[u8],
    records: &[u8],
) -> Checking
    ensures result_value { let s = lent_with groups.now firsts.now seconds.now weights.now owners.now others.now in
        checked_outcome result ≡ checking s marks.now records.now }
    ensures passed { let s = lent_with groups.now firsts.now seconds.now weights.now owners.now others.now in
        ((c : Checked) → checked_outcome result ≡ answer c → Passing s marks.now records.now)
        × (Passing s marks.now records.now → checked_outcome result ≡ answer (checked_of s marks.now records.now)) }
    ensures accurate { let s = lent_with groups.now firsts.now seconds.now weights.now owners.now others.now in
        ((c : Checked) → checked_outcome result ≡ answer c → Accurate s c.terminals c.cost) }
    ensures bounded { let s = lent_with groups.now firsts.now seconds.now weights.now owners.now others.now in
        ((c : Checked) → checked_outcome result ≡ answer c → DualBound s c.bound) }
{
    let unfit = input_refusal(
        groups, firsts, seconds, weights, owners, others, marks, records,
    );
    if let Verdict::Refused { number, place } = unfit {
        return Checking::Refused { number, place };
    }
    let poured = survey_lists::pour::pour(groups, owners, others);
    let n = groups.len();
    let unsound = crate::moats::duals_refusal(&poured[0..n], firsts, seconds, weights, records);
    if let Verdict::Refused { number, place } = unsound {
        return Checking::Refused { number, place };
    }
    let apart = survey_lists::group_refusal(
        groups,
        firsts,
        seconds,
        weights,
        owners,
        others,
        Chosen::Kept,
        marks,
        14,
    );
    if let Verdict::Refused { number, place } = apart {
        return Checking::Refused { number, place };
    }
    judge(&poured[0..n], firsts, weights, marks, records)
}
