// Adds one outcome of planning to a season's report. Definitions in season_rule.
ghost use Rattle.std.specs.Prelude.{◌≡◌, ◌*◌, ◌≤◌};
ghost use Rattle.base_limits.specs.Verdict.{refusal, answer};
ghost use Rattle.plan_rule.specs.Figures.{figured_outcome};
ghost use Rattle.season_rule.specs.Figures.{figures_of, cost_of};
ghost use Rattle.season_rule.specs.Report.{empty_report, season_refusal, added, most_cost};
ghost use Rattle.season_rule.specs.Report.{farther as farther_of};
ghost use Rattle.season_core.specs.Room.{plan_refusal, count_refusal};

use crate::wide::above;
use base_buffer::put;
use base_limits::Verdict;
use plan_rule::Figured;
use season_rule::{Added, Farthest, MAX_SURVEYS, REFUSAL_NUMBERS, Report};

// The largest number of 64 bits, and half of it.
const WORD_MAX: u64 = 18446744073709551615;

const HALF_MAX: u64 = 9223372036854775807;

// The first report.
pub fn empty_report() -> Report
    ensures { result ≡ empty_report }
{
    let refused = [0u64; REFUSAL_NUMBERS];
    Report {
        surveys: 0,
        planned: 0,
        cost: 0,
        bound: 0,
        refused,
        farthest: Farthest::Nothing,
    }
}

// 3 where a plan would be the 1,001st survey, or carry a count or a total past 64 bits.
fn plan_refusal(
    surveys: u64,
    planned: u64,
    costs: u64,
    cost: u64,
    bounds: u64,
    bound: u64,
) -> Verdict
    ensures { result ≡ plan_refusal surveys planned costs cost bounds bound }
{
    if MAX_SURVEYS <= surveys {
        return Verdict::Refused {
            number: 3,
            place: 0,
        };
    }
    if WORD_MAX <= planned {
        return Verdict::Refused {
            number: 3,
            place: 0,
        };
    }
    if WORD_MAX - costs < cost {
        return Verdict::Refused {
            number: 3,
            place: 0,
        };
    }
    if WORD_MAX - bounds < bound {
        return Verdict::Refused {
            number: 3,
            place: 0,
        };
    }
    Verdict::Fine
}

// 3 where a refused survey would be the 1,001st, or carry its count past 64 bits.
fn count_refusal(surveys: u64, count: u64) -> Verdict
    ensures { result ≡ count_refusal surveys count }
{
    if MAX_SURVEYS <= surveys {
        return Verdict::Refused {
            number: 3,
            place: 0,
        };
    }
    if WORD_MAX <= count {
        return Verdict::Refused {
            number: 3,
            place: 0,
        };
    }
    Verdict::Fine
}

// Twice a cost, where that has 64 bits.
fn twice(cost: u64) -> u64
    ensures { cost ≤ most_cost → result ≡ 2 * cost }
{
    if cost <= HALF_MAX {
        return 2 * cost;
    }
    0
}

// The plan at this position, where its ratio is larger.
fn farther(far: Farthest, position: u64, twice: u64, bound: u64) -> Farthest
    ensures { result ≡ farther_of far position twice bound }
{
    if bound < 1 {
        return far;
    }
    match far {
        Farthest::Nothing => {
            Farthest::At {
                position,
                twice,
                bound,
            }
        }
        Farthest::At {
            position: first,
            twice: far_twice,
            bound: far_bound,
        } => {
            if above(twice, bound, far_twice, far_bound) {
                return Farthest::At {
                    position,
                    twice,
                    bound,
                };
            }
            Farthest::At {
                position: first,
                twice: far_twice,
                bound: far_bound,
            }
        }
    }
}

// A survey that was planned at this cost and bound.
pub fn add_plan(report: Report, cost: u64, bound: u64) -> Added
    ensures verdict_value { result.verdict ≡ season_refusal report (answer (record { cost = cost; bound = bound })) }
    ensures report_value { cost ≤ most_cost → result.report ≡ added report (answer (record { cost = cost; bound = bound })) }
{
    let found = plan_refusal(
        report.surveys,
        report.planned,
        report.cost,
        cost,
        report.bound,
        bound,
    );
    let Verdict::Fine = found else {
        return Added {
            verdict: found,
            report,
        };
    };
    let refused = report.refused;
    let far = report.farthest;
    let farthest = farther(far, report.surveys, twice(cost), bound);
    let next = Report {
        surveys: report.surveys + 1,
        planned: report.planned + 1,
        cost: report.cost + cost,
        bound: report.bound + bound,
        refused,
        farthest,
    };
    Added {
        verdict: Verdict::Fine,
        report: next,
    }
}

// A survey that was refused under this number.
pub fn add_refusal(report: Report, number: u64, place: usize) -> Added
    ensures verdict_value { result.verdict ≡ season_refusal report (refusal number place) }
    ensures report_value { result.report ≡ added report (refusal number place) }
{
    let mut refused = report.refused;
    let at = number as usize;
    let count = base_buffer::at(&refused, at);
    let found = count_refusal(report.surveys, count);
    let Verdict::Fine = found else {
        return Added {
            verdict: found,
            report,
        };
    };
    put(&mut refused, at, count + 1);
    let farthest = report.farthest;
    let next = Report {
        surveys: report.surveys + 1,
        planned: report.planned,
        cost: report.cost,
        bound: report.bound,
        refused,
        farthest,
    };
    Added {
        verdict: Verdict::Fine,
        report: next,
    }
}

// A survey with these figures, or this refusal.
pub fn add_figured(report: Report, figured: Figured) -> Added
    ensures verdict_value { result.verdict ≡ season_refusal report (figures_of (figured_outcome figured)) }
    ensures fact { let o = figures_of (figured_outcome figured) in
        (cost_of o ≤ most_cost → result.report ≡ added report o) }
{
    match figured {
        Figured::Finished {
            terminals: _,
            cost,
            bound,
            rounds: _,
        } => add_plan(report, cost, bound),
        Figured::Refused { number, place } => add_refusal(report, number, place),
    }
}
