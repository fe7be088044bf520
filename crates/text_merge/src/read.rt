// The survey at the front of a text, in buffers.
ghost use Rattle.std.specs.Prelude.{◌≡◌, ◌≤◌, length};
ghost use Rattle.base_limits.specs.Limits.{max_vertices, max_edges, max_pairs};
ghost use Rattle.format_read.specs.Answer.{number_step};
ghost use Rattle.format_read.specs.Step.{stopped};
ghost use Rattle.format_survey.specs.LinesAnswer.{counts_step};
ghost use Rattle.text_merge.specs.Front.{FrontRead, front_of};

use crate::Front;
use base_limits::{MAX_EDGES, MAX_PAIRS, MAX_VERTICES};
use format_read::Number;
use format_survey::Head;

// Refused counts, as the answer.
fn stopped_counts(head: Head) -> Front
    ensures { result ≡ front_of (stopped (counts_step head)) }
{
    match head {
        Head::Refused { number, place } => Front::Refused { number, place },
        Head::Counts {
            vertices: _,
            edges: _,
            next,
        } => {
            let place = next.at;
            Front::Refused { number: 16, place }
        }
    }
}

// A refused line after them, in the same way.
fn stopped_lines(step: Number) -> Front
    ensures { result ≡ front_of (stopped (number_step step)) }
{
    match step {
        Number::Refused { number, place } => Front::Refused { number, place },
        Number::Value { value: _, next } => {
            let place = next.at;
            Front::Refused { number: 16, place }
        }
    }
}

// Reads the survey at the front of a text; whatever stands behind it is not looked at.
pub fn read_front(
    text: &[u8],
    groups: &mut [u8],
    firsts: &mut [u32],
    seconds: &mut [u32],
    weights: &mut [u32],
    owners: &mut [u32],
    others: &mut [u8],
) -> Front
    requires { (max_vertices ≤ length groups.old) × ((max_edges ≤ length firsts.old)
        × ((max_edges ≤ length seconds.old) × ((max_edges ≤ length weights.old)
        × ((max_pairs ≤ length owners.old) × (max_pairs ≤ length others.old))))) }
    ensures { FrontRead text.now result groups.new firsts.new seconds.new weights.new owners.new others.new }
{
    let head = format_survey::counts::counts(text, MAX_VERTICES, MAX_EDGES, MAX_EDGES, MAX_EDGES);
    let Head::Counts {
        vertices,
        edges,
        next,
    } = head
    else {
        return stopped_counts(head);
    };
    let step = format_survey::survey_lines(
        text, next, vertices, edges, MAX_PAIRS, groups, firsts, seconds, weights, owners, others,
    );
    let Number::Value { value, next: last } = step else {
        return stopped_lines(step);
    };
    let at = last.at;
    Front::Survey {
        vertices,
        edges,
        pairs: value as usize,
        next: at,
    }
}
