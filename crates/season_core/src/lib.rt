// Adds a survey to a season's report: plans it, without moats, in a buffer of its own for the marks. Definitions in
// season_rule.
#![tactic(auto)]

ghost use Rattle.std.specs.Prelude.{◌≡◌};
ghost use Rattle.survey_core.specs.Survey.{lent_with};
ghost use Rattle.season_rule.specs.Figures.{figures};
ghost use Rattle.season_rule.specs.Report.{season_refusal, add_survey};

use crate::add::add_figured;
pub use add::empty_report;
use base_limits::MAX_EDGES;
pub use print::print_report;
use season_rule::{Added, Report};

mod add;
mod print;
mod wide;

// The report with this survey added, planned or refused; or 3, and the report as it was, for a 1,001st survey and where
// a count or a total would pass 64 bits.
pub fn add_survey(
    report: Report,
    groups: &[u8],
    firsts: &[u32],
    seconds: &[u32],
    weights: &[u32],
    owners: &[u32],
    others: &[u8],
) -> Added
    ensures verdict_value { let s = lent_with groups.now firsts.now seconds.now weights.now owners.now others.now in
        result.verdict ≡ season_refusal report (figures s) }
    ensures report_value { let s = lent_with groups.now firsts.now seconds.now weights.now owners.now others.now in
        result.report ≡ add_survey report s }
{
    let mut marks = [0u8; MAX_EDGES];
    let figured = plan_core::figures::figures(
        groups, firsts, seconds, weights, owners, others, &mut marks,
    );
    add_figured(report, figured)
}
