// A survey's text with a printed plan behind it, read and checked. Definitions in specs/Verify, what passing is worth
// in specs/Worth. `verify` answers k, cost and bound as the checker finds them, or the refusal of either text, of the
// checker, or 25 where a claim is false.
#![tactic(auto)]

ghost use Rattle.std.specs.Prelude.{◌≡◌, ◌≤◌, length};
ghost use Rattle.base_limits.specs.Limits.{max_vertices, max_edges, max_pairs};
ghost use Rattle.format_read.specs.Step.{stopped};
ghost use Rattle.format_read.specs.Answer.{number_step};
ghost use Rattle.format_survey.specs.LinesAnswer.{counts_step};
ghost use Rattle.format_survey.specs.Reading.{step_outcome};
ghost use Rattle.format_plan.specs.Answer.{plan_outcome};
ghost use Rattle.survey_core.specs.Survey.{lent_with};
ghost use Rattle.check_printed.specs.Verify.{survey_lines_at, plan_verified, plan_from, verified_from, verifying};
ghost use Rattle.check_printed.specs.Answer.{verified_outcome, refused_only};

use crate::claims::judge;
use base_limits::{MAX_EDGES, MAX_PAIRS, MAX_VERTICES, RECORD_BYTES, RECORDS_ROOM};
use format_plan::PlanText;
use format_read::{Cursor, Number};
use format_survey::Head;

mod claims;

// k, kept cost and bound as the checker finds them; or a refusal's number and place.
#[derive(Drop)]
pub enum Verified {
    Passed {
        terminals: u64,
        cost: u64,
        bound: u64,
    },
    Refused {
        number: u64,
        place: usize,
    },
}

// Refused counts, as the answer of the check.
fn stopped_counts(head: Head) -> Verified
    ensures { verified_outcome result ≡ step_outcome (stopped (counts_step head)) }
{
    match head {
        Head::Refused { number, place } => Verified::Refused { number, place },
        Head::Counts {
            vertices: _,
            edges: _,
            next,
        } => {
            let place = next.at;
            Verified::Refused { number: 16, place }
        }
    }
}

// A refused line of the survey, in the same way.
fn stopped_lines(step: Number) -> Verified
    ensures { verified_outcome result ≡ step_outcome (stopped (number_step step)) }
{
    match step {
        Number::Refused { number, place } => Verified::Refused { number, place },
        Number::Value { value: _, next } => {
            let place = next.at;
            Verified::Refused { number: 16, place }
        }
    }
}

// A refused plan, in the same way.
fn stopped_plan(plan: PlanText) -> Verified
    ensures { verified_outcome result ≡ refused_only (plan_outcome plan) }
{
    match plan {
        PlanText::Refused { number, place } => Verified::Refused { number, place },
        PlanText::Plan {
            terminals: _,
            cost: _,
            bound: _,
            rounds: _,
            duals: _,
        } => Verified::Refused {
            number: 16,
            place: 0,
        },
    }
}

// The printed plan from an offset on, against a survey.
fn verify_plan(
    text: &[u8],
    at: usize,
    groups: &[u8],
    firsts: &[u32],
    seconds: &[u32],
    weights: &[u32],
    owners: &[u32],
    others: &[u8],
) -> Verified
    requires { length firsts.now ≤ max_edges }
    ensures { let s = lent_with groups.now firsts.now seconds.now weights.now owners.now others.now in
        verified_outcome result ≡ plan_verified s (plan_from text.now s at) }
{
    let mut marks = [0u8; MAX_EDGES];
    let mut records = [0u8; RECORDS_ROOM];
    let edges = firsts.len();
    let plan = format_plan::read_plan(text, at, edges, &mut marks, &mut records);
    let PlanText::Plan {
        terminals,
        cost,
        bound,
        rounds: _,
        duals,
    } = plan
    else {
        return stopped_plan(plan);
    };
    let size = RECORD_BYTES * duals;
    judge(
        groups,
        firsts,
        seconds,
        weights,
        owners,
        others,
        &marks[0..edges],
        &records[0..size],
        terminals,
        cost,
        bound,
    )
}

// The lines of a survey after its counts, and the printed plan behind them.
fn verify_lines(text: &[u8], cursor: Cursor, vertices: usize, edges: usize) -> Verified
    requires { (vertices ≤ max_vertices) × (edges ≤ max_edges) }
    ensures { let survey = survey_lines_at max_pairs text.now (record { vertices = vertices; edges = edges }) cursor.at in
        verified_outcome result ≡ verified_from text.now survey }
{
    let mut groups = [0u8; MAX_VERTICES];
    let mut firsts = [0u32; MAX_EDGES];
    let mut seconds = [0u32; MAX_EDGES];
    let mut weights = [0u32; MAX_EDGES];
    let mut owners = [0u32; MAX_PAIRS];
    let mut others = [0u8; MAX_PAIRS];
    let step = format_survey::survey_lines(
        text,
        cursor,
        vertices,
        edges,
        MAX_PAIRS,
        &mut groups,
        &mut firsts,
        &mut seconds,
        &mut weights,
        &mut owners,
        &mut others,
    );
    let Number::Value { value, next } = step else {
        return stopped_lines(step);
    };
    let at = next.at;
    let pairs = value as usize;
    verify_plan(
        text,
        at,
        &groups[0..vertices],
        &firsts[0..edges],
        &seconds[0..edges],
        &weights[0..edges],
        &owners[0..pairs],
        &others[0..pairs],
    )
}

// Checks a survey text with a printed plan behind it.
pub fn verify(text: &[u8]) -> Verified
    ensures { verified_outcome result ≡ verifying text.now }
{
    let head = format_survey::counts::counts(text, MAX_VERTICES, MAX_EDGES, MAX_EDGES, MAX_EDGES);
    let Head::Counts {
        vertices,
        edges,
        next,
    } = head
    else {
        return stopped_counts(head);
    };
    verify_lines(text, next, vertices, edges)
}
