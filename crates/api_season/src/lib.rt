// The season for other languages: the report is a lent slice of bytes, which a call reads, adds a survey to and writes
// back. Definitions in specs/: Bytes (the report as bytes), Call (what the calls answer and leave).
#![tactic(auto)]

ghost use Rattle.std.specs.Prelude.{◌≡◌};
ghost use Rattle.survey_core.specs.Survey.{lent_with};
ghost use Rattle.api_code.specs.Code.{code_of};
ghost use Rattle.api_season.specs.Call.{season_call, season_bytes, print_call, print_out, print_counts};

use api_print::PRINT_FIGURES;
use base_limits::Verdict;

mod bytes;

// Bytes of a report.
pub use bytes::REPORT_BYTES;

// Adds a survey with pairs (owners, others) to a report, planned or refused. 7 for a slice that is too short, 3 for a
// 1,001st survey and where a count or a total would pass 64 bits.
pub fn season_call(
    report: &mut [u8],
    groups: &[u8],
    firsts: &[u32],
    seconds: &[u32],
    weights: &[u32],
    owners: &[u32],
    others: &[u8],
) -> u64
    ensures code { let s = lent_with groups.now firsts.now seconds.now weights.now owners.now others.now in
        result ≡ code_of (season_call report.old s) }
    ensures report { let s = lent_with groups.now firsts.now seconds.now weights.now owners.now others.now in
        report.new ≡ season_bytes report.old s }
{
    if report.len() < REPORT_BYTES {
        return 7;
    }
    let before = bytes::report_in(report);
    let added = season_core::add_survey(before, groups, firsts, seconds, weights, owners, others);
    let verdict = added.verdict;
    match verdict {
        Verdict::Refused { number, place } => api_code::code(number, place),
        Verdict::Fine => {
            let after = added.report;
            bytes::write_report(report, after);
            0
        }
    }
}

// Prints a report. `counts` gets the text's length. 7 for a report, a buffer or counts that are too short.
pub fn print_season_call(report: &[u8], out: &mut [u8], counts: &mut [u64]) -> u64
    ensures code { result ≡ code_of (print_call report.now out.old counts.old) }
    ensures out { out.new ≡ print_out report.now out.old counts.old }
    ensures counts { counts.new ≡ print_counts report.now out.old counts.old }
{
    if report.len() < REPORT_BYTES {
        return 7;
    }
    let read = bytes::report_in(report);
    let room = api_code::lent_on(counts.len(), PRINT_FIGURES, out.len());
    let answer = season_core::print_report(read, &mut out[0..room]);
    api_print::printed_code(answer, counts)
}
