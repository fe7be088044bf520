// A report read from bytes and written into them. Definitions in specs/Bytes.
ghost use Rattle.std.specs.Prelude.{◌≡◌, ◌++◌, ◌+◌, ◌≤◌, ◌<◌, length};
ghost use Rattle.base_finite.specs.Below.{tabulate};
ghost use Rattle.season_rule.specs.Report.{refusal_numbers};
ghost use Rattle.api_season.specs.Bytes.{head_figures, report_bytes, figure_at, far_in, far_numbers, report_in, with_report};

use api_handset::write_counts;
use base_limits::VALUE_BYTES;
use season_rule::{Farthest, REFUSAL_NUMBERS, Report};

// Numbers before the refusals, and of the farthest plan.
const HEAD_FIGURES: usize = 4;

const FAR_FIGURES: usize = 3;

// Where the refusals and the farthest plan begin, and where a report ends.
const REFUSED_AT: usize = VALUE_BYTES * HEAD_FIGURES;

const FAR_AT: usize = REFUSED_AT + VALUE_BYTES * REFUSAL_NUMBERS;

pub const REPORT_BYTES: usize = FAR_AT + VALUE_BYTES * FAR_FIGURES;

// Number i of a slice, lowest byte first; 0 past its end.
fn figure(bytes: &[u8], i: usize) -> u64
    ensures { result ≡ figure_at bytes.now i }
{
    let n = bytes.len();
    if n / VALUE_BYTES < i {
        return 0;
    }
    let at = VALUE_BYTES * i;
    format_record::value(&bytes[at..n])
}

// The counts of refusals by number.
fn refusals(bytes: &[u8]) -> [u64; REFUSAL_NUMBERS]
    ensures { result ≡ tabulate refusal_numbers (λ k. figure_at bytes.now (head_figures + k)) }
{
    let mut refused = [0u64; REFUSAL_NUMBERS];
    for (k, count) in refused.iter_mut().enumerate() {
        *count = figure(bytes, HEAD_FIGURES + k);
    }
    refused
}

// The farthest plan by its three numbers.
fn far_in(position: u64, twice: u64, bound: u64) -> Farthest
    ensures { result ≡ far_in position twice bound }
{
    if 0 < bound {
        return Farthest::At {
            position,
            twice,
            bound,
        };
    }
    Farthest::Nothing
}

// The report that bytes are.
pub fn report_in(bytes: &[u8]) -> Report
    ensures { result ≡ report_in bytes.now }
{
    let refused = refusals(bytes);
    let farthest = far_in(figure(bytes, 23), figure(bytes, 24), figure(bytes, 25));
    Report {
        surveys: figure(bytes, 0),
        planned: figure(bytes, 1),
        cost: figure(bytes, 2),
        bound: figure(bytes, 3),
        refused,
        farthest,
    }
}

// The three numbers of the farthest plan.
fn far_numbers(far: Farthest) -> [u64; FAR_FIGURES]
    ensures { result ≡ far_numbers far }
{
    match far {
        Farthest::Nothing => [0, 0, 0],
        Farthest::At {
            position,
            twice,
            bound,
        } => [position, twice, bound],
    }
}

// Writes a report at the beginning of a slice that holds it.
pub fn write_report(bytes: &mut [u8], report: Report)
    requires { report_bytes ≤ length bytes.old }
    ensures { bytes.new ≡ with_report bytes.old report }
{
    let head = [report.surveys, report.planned, report.cost, report.bound];
    let refused = report.refused;
    let farthest = report.farthest;
    let far = far_numbers(farthest);
    write_counts(&mut bytes[0..REFUSED_AT], &head);
    write_counts(&mut bytes[REFUSED_AT..FAR_AT], &refused);
    write_counts(&mut bytes[FAR_AT..REPORT_BYTES], &far);
}
