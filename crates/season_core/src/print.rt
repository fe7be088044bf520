// Prints a season's report. Definitions in season_rule.
ghost use Rattle.std.specs.Prelude.{◌≡◌, ◌∷◌, []};
ghost use Rattle.format_write.specs.Wrote.{Wrote};
ghost use Rattle.format_print.specs.Print.{printed, printed_out};
ghost use Rattle.season_rule.specs.Text.{far_key, list_line, refused_line, refused_lines, far_line, report_text};

use format_print::Printed;
use format_write::{put, put_bytes, put_line, put_number};
use season_rule::{Farthest, Report};

const PLANNED: [u8; 8] = *b"planned=";

const FAR: [u8; 4] = *b"far=";

const FAR_NONE: [u8; 9] = *b"far=none\n";

// Writes a line key=x,y.
fn put_pair(out: &mut [u8], at: usize, key: &[u8], x: u64, y: u64) -> usize
    ensures { Wrote out.old at (list_line key.now (x ∷ y ∷ [])) out.new result }
{
    let next = put_bytes(out, at, key);
    let next = put_number(out, next, x);
    let next = put(out, next, b',');
    let next = put_number(out, next, y);
    put(out, next, b'\n')
}

// Writes the line of a refusal's number that was met.
fn put_count(out: &mut [u8], at: usize, count: u64, number: usize) -> usize
    ensures { Wrote out.old at (refused_line count number) out.new result }
{
    if 0 < count {
        return put_pair(out, at, &format_write::REFUSED, number as u64, count);
    }
    at
}

// Writes the lines of the numbers met, rising.
fn put_counts(out: &mut [u8], at: usize, counts: &[u64]) -> usize
    ensures { Wrote out.old at (refused_lines counts.now) out.new result }
{
    let mut next = at;
    for (k, count) in counts.iter().enumerate() {
        next = put_count(out, next, *count, k);
    }
    next
}

// Writes the three numbers of the farthest plan.
fn put_at(out: &mut [u8], at: usize, position: u64, twice: u64, bound: u64) -> usize
    ensures { Wrote out.old at (list_line far_key (position ∷ twice ∷ bound ∷ [])) out.new result }
{
    let next = put_bytes(out, at, &FAR);
    let next = put_number(out, next, position);
    let next = put(out, next, b',');
    let next = put_number(out, next, twice);
    let next = put(out, next, b',');
    let next = put_number(out, next, bound);
    put(out, next, b'\n')
}

// Writes the farthest plan, or that there is none.
fn put_far(out: &mut [u8], at: usize, far: Farthest) -> usize
    ensures { Wrote out.old at (far_line far) out.new result }
{
    match far {
        Farthest::Nothing => put_bytes(out, at, &FAR_NONE),
        Farthest::At {
            position,
            twice,
            bound,
        } => put_at(out, at, position, twice, bound),
    }
}

// Writes a whole report.
fn put_report(out: &mut [u8], at: usize, report: Report) -> usize
    ensures { Wrote out.old at (report_text report) out.new result }
{
    let counts = report.refused;
    let far = report.farthest;
    let next = put_line(out, at, &PLANNED, report.planned);
    let next = put_line(out, next, &format_write::COST, report.cost);
    let next = put_line(out, next, &format_write::BOUND, report.bound);
    let next = put_counts(out, next, &counts);
    put_far(out, next, far)
}

// Prints a report. The text is measured on an empty part of the buffer before it is written.
pub fn print_report(report: Report, out: &mut [u8]) -> Printed
    ensures value { result ≡ printed (report_text report) out.old }
    ensures out_value { out.new ≡ printed_out (report_text report) out.old }
{
    let need = put_report(&mut out[0..0], 0, report);
    if out.len() < need {
        return Printed::Refused {
            number: 7,
            place: 0,
        };
    }
    Printed::Length(put_report(out, 0, report))
}
