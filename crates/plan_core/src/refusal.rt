// Planning's refusals, 1 to 8 and 18, in their order; growing gives the same.
ghost use Rattle.std.specs.Prelude.{◌≡◌, ◌||◌, ◌≤◌, ◌*◌, ltb};
ghost use Rattle.base_limits.specs.Limits.{max_vertices, record_bytes, duals_for};
ghost use Rattle.base_limits.specs.Verdict.{refuse_if};
ghost use Rattle.survey_core.specs.Survey.{lent_with};
ghost use Rattle.plan_rule.specs.Plan.{plan_refusal};
ghost use Rattle.plan_core.specs.Planned.{lent_refusal};

use base_limits::{RECORD_BYTES, Verdict};
use survey_components::Chosen;

// 7: a lent buffer is too short for m marks, or for the records of n junctions.
fn room_refusal(n: usize, m: usize, marks: usize, records: usize) -> Verdict
    requires { n ≤ max_vertices }
    ensures { result ≡ refuse_if (ltb marks m || ltb records (record_bytes * duals_for n)) 7 0 }
{
    if marks < m {
        return Verdict::Refused {
            number: 7,
            place: 0,
        };
    }
    if n == 0 {
        return Verdict::Fine;
    }
    if records < RECORD_BYTES * (2 * n - 1) {
        return Verdict::Refused {
            number: 7,
            place: 0,
        };
    }
    Verdict::Fine
}

// 1, 2, 3, then 4, 5, 6 by track, then 18 by pair, then 7.
pub fn lent_refusal(
    groups: &[u8],
    firsts: &[u32],
    seconds: &[u32],
    weights: &[u32],
    owners: &[u32],
    others: &[u8],
    marks: usize,
    records: usize,
) -> Verdict
    ensures { result ≡ lent_refusal (lent_with groups.now firsts.now seconds.now weights.now owners.now others.now) marks records }
{
    let unsound = survey_refusal::survey_refusal(groups, firsts, seconds, weights, owners, others);
    let Verdict::Fine = unsound else {
        return unsound;
    };
    room_refusal(groups.len(), firsts.len(), marks, records)
}

// Then 8.
pub fn plan_refusal(
    groups: &[u8],
    firsts: &[u32],
    seconds: &[u32],
    weights: &[u32],
    owners: &[u32],
    others: &[u8],
    marks: usize,
    records: usize,
) -> Verdict
    ensures { result ≡ plan_refusal (lent_with groups.now firsts.now seconds.now weights.now owners.now others.now) marks records }
{
    let found = lent_refusal(
        groups, firsts, seconds, weights, owners, others, marks, records,
    );
    let Verdict::Fine = found else {
        return found;
    };
    survey_lists::unjoined_refusal(
        groups,
        firsts,
        seconds,
        weights,
        owners,
        others,
        Chosen::All,
        &[],
        8,
    )
}
