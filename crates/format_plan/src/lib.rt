// A printed plan's text in. What its lines are is specs/Lines, what a plan is specs/Plan, which texts are plans
// specs/WellFormed. `read_plan` answers the counts that the plan claims and fills marks and records, or refuses with 7,
// 16, 26, 27 or 28.
#![tactic(auto)]

ghost use Rattle.std.specs.Prelude.{◌≡◌, ◌*◌, ◌++◌, length, drop};
ghost use Rattle.base_limits.specs.Limits.{record_bytes};
ghost use Rattle.format_read.specs.Answer.{number_step};
ghost use Rattle.format_read.specs.Step.{stopped, stored_if};
ghost use Rattle.format_read.specs.Items.{puts};
ghost use Rattle.format_survey.specs.Reading.{step_outcome};
ghost use Rattle.format_plan.specs.Lines.{put_mark, put_dual};
ghost use Rattle.format_plan.specs.Plan.{plan_lines_at, cleared, plan_reading, marks_of, dual_records, roomed, marks_read, records_read};
ghost use Rattle.format_plan.specs.Answer.{claims_step, plan_outcome, read_of};

use crate::claim_lines::claim_lines;
use base_limits::RECORD_BYTES;
use format_read::{Cursor, Number};

mod claim_lines;
mod duals;
mod keep;
mod members;
pub mod remark;

// The counts that a plan claims, with the next cursor.
#[derive(Drop)]
pub enum Claims {
    Found {
        terminals: u64,
        cost: u64,
        bound: u64,
        rounds: u64,
        next: Cursor,
    },
    Refused {
        number: u64,
        place: usize,
    },
}

// What a printed plan says of its counts, and the number of its duals; or a refusal.
#[derive(Drop)]
pub enum PlanText {
    Plan {
        terminals: u64,
        cost: u64,
        bound: u64,
        rounds: u64,
        duals: usize,
    },
    Refused {
        number: u64,
        place: usize,
    },
}

// The lines after the counts; marks and records are stored up to the first refusal, as far as the buffers reach.
fn plan_body(
    text: &[u8],
    cursor: Cursor,
    edges: usize,
    marks: &mut [u8],
    records: &mut [u8],
) -> Number
    ensures { let lines = plan_lines_at text.now edges cursor.at in
        (number_step result ≡ lines.end)
        × (marks.new ≡ puts put_mark marks.old 0 lines.kept)
        × (records.new ≡ puts put_dual records.old 0 lines.duals) }
{
    let kept = crate::keep::keep_lines(text, cursor, edges, marks);
    let Number::Value { value: _, next } = kept else {
        return kept;
    };
    crate::duals::dual_lines(text, next, records)
}

// The two passes over the lines after the counts: the first decides, into buffers of no length, and the second stores.
fn plan_lines(
    text: &[u8],
    cursor: Cursor,
    edges: usize,
    marks: &mut [u8],
    records: &mut [u8],
) -> Number
    ensures { let lines = plan_lines_at text.now edges cursor.at in
        let size = record_bytes * length lines.duals in
        (number_step result ≡ roomed lines edges (length marks.old) (length records.old))
        × (marks.new ≡ stored_if (number_step result) (marks_of edges lines.kept ++ drop edges marks.old) marks.old)
        × (records.new ≡
        stored_if (number_step result) (dual_records lines.duals ++ drop size records.old) records.old) }
{
    let found = plan_body(text, cursor, edges, &mut marks[0..0], &mut records[0..0]);
    let Number::Value {
        value: count,
        next: _,
    } = found
    else {
        return found;
    };
    if marks.len() < edges {
        return Number::Refused {
            number: 7,
            place: 0,
        };
    }
    if records.len() / RECORD_BYTES < count as usize {
        return Number::Refused {
            number: 7,
            place: 0,
        };
    }
    marks[0..edges].fill(0);
    plan_body(text, cursor, edges, marks, records)
}

// Refused counts, as the answer of reading.
fn stopped_counts(claims: Claims) -> PlanText
    ensures { plan_outcome result ≡ step_outcome (stopped (claims_step claims)) }
{
    match claims {
        Claims::Refused { number, place } => PlanText::Refused { number, place },
        Claims::Found {
            terminals: _,
            cost: _,
            bound: _,
            rounds: _,
            next,
        } => {
            let place = next.at;
            PlanText::Refused { number: 16, place }
        }
    }
}

// A refused line after them, in the same way.
fn stopped_lines(step: Number) -> PlanText
    ensures { plan_outcome result ≡ step_outcome (stopped (number_step step)) }
{
    match step {
        Number::Refused { number, place } => PlanText::Refused { number, place },
        Number::Value { value: _, next } => {
            let place = next.at;
            PlanText::Refused { number: 16, place }
        }
    }
}

// Reads a printed plan for so many tracks, from an offset of the text on, into the lent buffers; a refusal writes
// nothing.
pub fn read_plan(
    text: &[u8],
    from: usize,
    edges: usize,
    marks: &mut [u8],
    records: &mut [u8],
) -> PlanText
    ensures { let plan = plan_reading text.now from edges marks.old records.old in
        (plan_outcome result ≡ read_of plan)
        × (marks.new ≡ marks_read plan edges marks.old)
        × (records.new ≡ records_read plan records.old) }
{
    let claims = claim_lines(text, Cursor { at: from });
    let Claims::Found {
        terminals,
        cost,
        bound,
        rounds,
        next,
    } = claims
    else {
        return stopped_counts(claims);
    };
    let lines = plan_lines(text, next, edges, marks, records);
    let Number::Value { value, next: _ } = lines else {
        return stopped_lines(lines);
    };
    PlanText::Plan {
        terminals,
        cost,
        bound,
        rounds,
        duals: value as usize,
    }
}
