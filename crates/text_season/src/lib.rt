// A survey's text at the front of a text in, the report with its survey added out: what the program `season` does with
// one text after another. Definitions in specs/.
#![tactic(auto)]

ghost use Rattle.std.specs.Prelude.{◌≡◌, ◌≤◌};
ghost use Rattle.base_limits.specs.Limits.{max_vertices, max_edges, max_pairs};
ghost use Rattle.format_read.specs.Step.{stopped};
ghost use Rattle.format_read.specs.Answer.{number_step};
ghost use Rattle.format_survey.specs.LinesAnswer.{counts_step};
ghost use Rattle.survey_core.specs.Survey.{lent_with};
ghost use Rattle.check_printed.specs.Verify.{survey_lines_at};
ghost use Rattle.text_season.specs.Added.{text_refused, survey_added, added_from, text_added};

use base_limits::{MAX_EDGES, MAX_PAIRS, MAX_VERTICES, Verdict};
use format_read::{Cursor, Number};
use format_survey::Head;
use season_rule::Report;

mod front;
mod print;

pub use front::to_front;
pub use print::print_bytes;

// What adding a text's survey answers: the refusal of reading or of the season, or none; how many bytes the survey's
// text has, 0 where reading refuses it; and the report after it, unchanged by a refusal.
#[derive(Drop)]
pub struct TextAdded {
    pub verdict: Verdict,
    pub used: usize,
    pub report: Report,
}

// Refused counts, as the answer.
fn stopped_counts(report: Report, head: Head) -> TextAdded
    ensures { result ≡ added_from report (stopped (counts_step head)) }
{
    match head {
        Head::Refused { number, place } => refused_text(report, number, place),
        Head::Counts {
            vertices: _,
            edges: _,
            next,
        } => {
            let place = next.at;
            refused_text(report, 16, place)
        }
    }
}

// A refused line after them, in the same way.
fn stopped_lines(report: Report, step: Number) -> TextAdded
    ensures { result ≡ added_from report (stopped (number_step step)) }
{
    match step {
        Number::Refused { number, place } => refused_text(report, number, place),
        Number::Value { value: _, next } => {
            let place = next.at;
            refused_text(report, 16, place)
        }
    }
}

// A text that reading refuses.
fn refused_text(report: Report, number: u64, place: usize) -> TextAdded
    ensures { result ≡ text_refused report number place }
{
    let verdict = Verdict::Refused { number, place };
    TextAdded {
        verdict,
        used: 0,
        report,
    }
}

// A survey that was read from so many bytes.
fn add_read(
    report: Report,
    used: usize,
    groups: &[u8],
    firsts: &[u32],
    seconds: &[u32],
    weights: &[u32],
    owners: &[u32],
    others: &[u8],
) -> TextAdded
    ensures { let s = lent_with groups.now firsts.now seconds.now weights.now owners.now others.now in
        result ≡ survey_added report used s }
{
    let added = season_core::add_survey(report, groups, firsts, seconds, weights, owners, others);
    let verdict = added.verdict;
    let after = added.report;
    TextAdded {
        verdict,
        used,
        report: after,
    }
}

// The lines of a survey after its counts.
fn add_lines(
    report: Report,
    text: &[u8],
    cursor: Cursor,
    vertices: usize,
    edges: usize,
) -> TextAdded
    requires { (vertices ≤ max_vertices) × (edges ≤ max_edges) }
    ensures { let survey = survey_lines_at max_pairs text.now (record { vertices = vertices; edges = edges }) cursor.at in
        result ≡ added_from report survey }
{
    let mut groups = [0u8; MAX_VERTICES];
    let mut firsts = [0u32; MAX_EDGES];
    let mut seconds = [0u32; MAX_EDGES];
    let mut weights = [0u32; MAX_EDGES];
    let mut owners = [0u32; MAX_PAIRS];
    let mut others = [0u8; MAX_PAIRS];
    let step = format_survey::survey_lines(
        text,
        cursor,
        vertices,
        edges,
        MAX_PAIRS,
        &mut groups,
        &mut firsts,
        &mut seconds,
        &mut weights,
        &mut owners,
        &mut others,
    );
    let Number::Value { value, next } = step else {
        return stopped_lines(report, step);
    };
    let at = next.at;
    let pairs = value as usize;
    add_read(
        report,
        at,
        &groups[0..vertices],
        &firsts[0..edges],
        &seconds[0..edges],
        &weights[0..edges],
        &owners[0..pairs],
        &others[0..pairs],
    )
}

// Adds the survey at the front of a text; whatever stands behind it is not looked at.
pub fn add_text(report: Report, text: &[u8]) -> TextAdded
    ensures { result ≡ text_added report text.now }
{
    let head = format_survey::counts::counts(text, MAX_VERTICES, MAX_EDGES, MAX_EDGES, MAX_EDGES);
    let Head::Counts {
        vertices,
        edges,
        next,
    } = head
    else {
        return stopped_counts(report, head);
    };
    add_lines(report, text, next, vertices, edges)
}
