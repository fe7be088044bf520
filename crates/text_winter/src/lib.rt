// A survey's text with strength lines behind it in, copies of tracks out: what the program `winter` does between
// reading and writing. Definitions in specs/.
#![tactic(auto)]

ghost use Rattle.std.specs.Prelude.{◌≡◌, ◌≤◌};
ghost use Rattle.base_limits.specs.Limits.{max_vertices, max_edges, max_pairs};
ghost use Rattle.format_print.specs.Print.{printed, printed_out};
ghost use Rattle.survey_core.specs.Survey.{lent_with};
ghost use Rattle.check_printed.specs.Verify.{survey_lines_at};
ghost use Rattle.text_winter.specs.Given.{givens_at};
ghost use Rattle.text_winter.specs.Output.{survey_output, given_output, behind_output, winter_output};

use crate::given::strength_lines;
use crate::print::print_copies;
use base_limits::{MAX_EDGES, MAX_PAIRS, MAX_VERTICES};
use format_print::Printed;
use format_read::{Cursor, Number};
use format_survey::Head;
use winter_rule::{STRENGTHS, Winter};

mod given;
mod print;

// A group and its strength with the next cursor, or a refusal's number and place.
#[derive(Drop)]
pub enum GivenLine {
    Given {
        group: u64,
        strength: u64,
        next: Cursor,
    },
    Refused {
        number: u64,
        place: usize,
    },
}

// Prints the copies of a survey, or the two lines of the refusal.
fn winter_survey(
    groups: &[u8],
    firsts: &[u32],
    seconds: &[u32],
    weights: &[u32],
    owners: &[u32],
    others: &[u8],
    strengths: &[u8],
    out: &mut [u8],
) -> Printed
    ensures result_value { let s = lent_with groups.now firsts.now seconds.now weights.now owners.now others.now in
        result ≡ printed (survey_output s strengths.now) out.old }
    ensures out_value { let s = lent_with groups.now firsts.now seconds.now weights.now owners.now others.now in
        out.new ≡ printed_out (survey_output s strengths.now) out.old }
{
    let mut copies = [0u8; MAX_EDGES];
    match winter_core::winter(
        groups,
        firsts,
        seconds,
        weights,
        owners,
        others,
        strengths,
        &mut copies,
    ) {
        Winter::Refused { number, place } => format_print::print_refusal(number, place, out),
        Winter::Finished { total } => print_copies(total, &copies, out),
    }
}

// Reads the strength lines behind a survey that was read.
fn winter_given(
    text: &[u8],
    cursor: Cursor,
    groups: &[u8],
    firsts: &[u32],
    seconds: &[u32],
    weights: &[u32],
    owners: &[u32],
    others: &[u8],
    out: &mut [u8],
) -> Printed
    ensures result_value { let s = lent_with groups.now firsts.now seconds.now weights.now owners.now others.now in
        let lines = givens_at text.now cursor.at in
        result ≡ printed (given_output s lines.values lines.end) out.old }
    ensures out_value { let s = lent_with groups.now firsts.now seconds.now weights.now owners.now others.now in
        let lines = givens_at text.now cursor.at in
        out.new ≡ printed_out (given_output s lines.values lines.end) out.old }
{
    let mut strengths = [1u8; STRENGTHS];
    match strength_lines(text, cursor, &mut strengths) {
        Number::Refused { number, place } => format_print::print_refusal(number, place, out),
        Number::Value { value: _, next: _ } => winter_survey(
            groups, firsts, seconds, weights, owners, others, &strengths, out,
        ),
    }
}

// The lines of a survey after its counts, and what follows.
fn winter_lines(
    text: &[u8],
    cursor: Cursor,
    vertices: usize,
    edges: usize,
    out: &mut [u8],
) -> Printed
    requires { (vertices ≤ max_vertices) × (edges ≤ max_edges) }
    ensures result_value { let survey = survey_lines_at max_pairs text.now (record { vertices = vertices; edges = edges }) cursor.at in
        result ≡ printed (behind_output text.now survey) out.old }
    ensures out_value { let survey = survey_lines_at max_pairs text.now (record { vertices = vertices; edges = edges }) cursor.at in
        out.new ≡ printed_out (behind_output text.now survey) out.old }
{
    let mut groups = [0u8; MAX_VERTICES];
    let mut firsts = [0u32; MAX_EDGES];
    let mut seconds = [0u32; MAX_EDGES];
    let mut weights = [0u32; MAX_EDGES];
    let mut owners = [0u32; MAX_PAIRS];
    let mut others = [0u8; MAX_PAIRS];
    match format_survey::survey_lines(
        text,
        cursor,
        vertices,
        edges,
        MAX_PAIRS,
        &mut groups,
        &mut firsts,
        &mut seconds,
        &mut weights,
        &mut owners,
        &mut others,
    ) {
        Number::Refused { number, place } => format_print::print_refusal(number, place, out),
        Number::Value { value, next } => {
            let pairs = value as usize;
            winter_given(
                text,
                next,
                &groups[0..vertices],
                &firsts[0..edges],
                &seconds[0..edges],
                &weights[0..edges],
                &owners[0..pairs],
                &others[0..pairs],
                out,
            )
        }
    }
}

// Prints the copies for the survey and the strengths that a text says, or the two lines of the refusal of reading or of
// the call; 7 where that does not fit.
pub fn winter_text(text: &[u8], out: &mut [u8]) -> Printed
    ensures value { result ≡ printed (winter_output text.now) out.old }
    ensures out_value { out.new ≡ printed_out (winter_output text.now) out.old }
{
    match format_survey::counts::counts(text, MAX_VERTICES, MAX_EDGES, MAX_EDGES, MAX_EDGES) {
        Head::Refused { number, place } => format_print::print_refusal(number, place, out),
        Head::Counts {
            vertices,
            edges,
            next,
        } => winter_lines(text, next, vertices, edges, out),
    }
}
