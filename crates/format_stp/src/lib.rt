// SteinLib STP texts in, the undirected subset (docs/STP.md). The grammar is specs/Subset, how a text is read
// specs/StpReading. `read_stp` answers n and m and fills the lent buffers of a survey, or refuses with 1, 3, 7 or 20.
#![tactic(auto)]

ghost use Rattle.std.specs.Prelude.{◌≡◌};
ghost use Rattle.format_read.specs.Step.{found, stopped, ◌then◌};
ghost use Rattle.format_read.specs.Answer.{number_step};
ghost use Rattle.format_survey.specs.LinesAnswer.{counts_step};
ghost use Rattle.format_survey.specs.Line.{firsts_of, seconds_of, weights_of};
ghost use Rattle.format_survey.specs.Reading.{filled};
ghost use Rattle.format_stp.specs.StpReading.{stp_tests, stp_outcome, stp_reading};
ghost use Rattle.format_stp.specs.Parts.{stp_counts, stp_lines, stored_by};
ghost use Rattle.format_stp.specs.Answer.{stp_answer, stp_counts_of};
ghost use Rattle.format_stp.specs.Promises.{stp_buffers, StpPromises};

use crate::head::{head, skip};
use crate::lines::edge_lines;
use crate::refusal::stp_number;
use crate::terminals::terminals;
use format_read::{Cursor, Number};
use format_survey::Head;
use format_survey::counts::{edges_line, stopped_head, vertices_line};

mod free;
mod head;
mod line;
mod lines;
mod number;
mod refusal;
mod sections;
mod terminals;

const NODES: [u8; 6] = *b"Nodes ";

const EDGES: [u8; 6] = *b"Edges ";

#[derive(Drop)]
pub enum StpRead {
    Survey { vertices: usize, edges: usize },
    Refused { number: u64, place: usize },
}

// The beginning of a text to its two counts; the lengths are those of the lent buffers.
fn counts(text: &[u8], groups: usize, firsts: usize, seconds: usize, weights: usize) -> Head
    ensures { counts_step result ≡ stp_counts (stp_tests groups firsts seconds weights) text.now }
{
    let one = head(text);
    let Number::Value { value: _, next: a } = one else {
        return stopped_head(one);
    };
    let two = vertices_line(text, skip(text, a), &NODES, groups);
    let Number::Value {
        value: vertices,
        next: b,
    } = two
    else {
        return stopped_head(two);
    };
    let three = edges_line(text, skip(text, b), &EDGES, firsts, seconds, weights);
    let Number::Value { value: edges, next } = three else {
        return stopped_head(three);
    };
    Head::Counts {
        vertices: vertices as usize,
        edges: edges as usize,
        next,
    }
}

// The lines behind the counts, to the end of the text. The tracks are read twice: into no buffer, and, where all is
// read, into theirs.
fn read_lines(
    text: &[u8],
    cursor: Cursor,
    vertices: usize,
    edges: usize,
    groups: &mut [u8],
    firsts: &mut [u32],
    seconds: &mut [u32],
    weights: &mut [u32],
) -> Number
    ensures { let lines = stp_lines vertices edges text.now cursor.at in
        (number_step result ≡ (lines then λ x p. found 0 p))
        × (groups.new ≡ stored_by lines (λ x. x.groups) groups.old)
        × (firsts.new ≡ stored_by lines (λ x. firsts_of x.lines) firsts.old)
        × (seconds.new ≡ stored_by lines (λ x. seconds_of x.lines) seconds.old)
        × (weights.new ≡ stored_by lines (λ x. weights_of x.lines) weights.old) }
{
    let tracks = edge_lines(
        text,
        cursor,
        vertices,
        edges,
        &mut firsts[0..0],
        &mut seconds[0..0],
        &mut weights[0..0],
    );
    let Number::Value { value: _, next } = tracks else {
        return tracks;
    };
    let last = terminals(text, next, vertices, groups);
    let Number::Value { value: _, next: _ } = last else {
        return last;
    };
    edge_lines(text, cursor, vertices, edges, firsts, seconds, weights);
    last
}

// Refused counts, as the answer of reading.
fn stopped_counts(head: Head) -> StpRead
    ensures { stp_answer result ≡ stp_outcome (stopped (counts_step head)) }
{
    match head {
        Head::Refused { number, place } => StpRead::Refused {
            number: stp_number(number),
            place,
        },
        Head::Counts {
            vertices: _,
            edges: _,
            next,
        } => {
            let place = next.at;
            StpRead::Refused { number: 20, place }
        }
    }
}

// A refused line behind them, in the same way.
fn stopped_lines(step: Number) -> StpRead
    ensures { stp_answer result ≡ stp_outcome (stopped (number_step step)) }
{
    match step {
        Number::Refused { number, place } => StpRead::Refused {
            number: stp_number(number),
            place,
        },
        Number::Value { value: _, next } => {
            let place = next.at;
            StpRead::Refused { number: 20, place }
        }
    }
}

// Reads an STP text into the lent buffers; a refusal writes nothing.
pub fn read_stp(
    text: &[u8],
    groups: &mut [u8],
    firsts: &mut [u32],
    seconds: &mut [u32],
    weights: &mut [u32],
) -> StpRead
    ensures result_value { let read = stp_reading text.now groups.old firsts.old seconds.old weights.old in
        stp_answer result ≡ stp_counts_of read }
    ensures groups_value { let read = stp_reading text.now groups.old firsts.old seconds.old weights.old in
        groups.new ≡ filled read (λ x. x.groups) groups.old }
    ensures firsts_value { let read = stp_reading text.now groups.old firsts.old seconds.old weights.old in
        firsts.new ≡ filled read (λ x. firsts_of x.lines) firsts.old }
    ensures seconds_value { let read = stp_reading text.now groups.old firsts.old seconds.old weights.old in
        seconds.new ≡ filled read (λ x. seconds_of x.lines) seconds.old }
    ensures weights_value { let read = stp_reading text.now groups.old firsts.old seconds.old weights.old in
        weights.new ≡ filled read (λ x. weights_of x.lines) weights.old }
    ensures promises { let before = stp_buffers groups.old firsts.old seconds.old weights.old in
        let after = stp_buffers groups.new firsts.new seconds.new weights.new in
        StpPromises text.now before (stp_answer result) after }
{
    let head = counts(
        text,
        groups.len(),
        firsts.len(),
        seconds.len(),
        weights.len(),
    );
    let Head::Counts {
        vertices,
        edges,
        next,
    } = head
    else {
        return stopped_counts(head);
    };
    let lines = read_lines(
        text, next, vertices, edges, groups, firsts, seconds, weights,
    );
    let Number::Value { value: _, next: _ } = lines else {
        return stopped_lines(lines);
    };
    StpRead::Survey { vertices, edges }
}
