// A survey's text in: what its lines are (specs/Line), how it is read (specs/Reading), which texts are well-formed and
// how a refused one begins (specs/WellFormed, Beginning). `read` answers n, m and the number of pairs and fills the
// lent buffers, or refuses with 1, 3, 7, 16, 17 or 18 and writes nothing.
#![tactic(auto)]

ghost use Rattle.std.specs.Prelude.{◌≡◌, length};
ghost use Rattle.format_survey.specs.Line.{lent_lengths};
ghost use Rattle.format_survey.specs.Reading.{reading, filled};
ghost use Rattle.format_survey.specs.Answer.{counts_of, counts_outcome};

use crate::counts::counts;
use crate::decide::{decided, stopped_counts, stopped_lines};
use format_also::pair_room;
use format_read::{Cursor, Number};

pub mod counts;
mod decide;
mod edge;
mod edges;
mod groups;
mod tail;

pub use edge::stopped_edge;
pub use edges::stopped_line;
pub use tail::survey_lines;

#[derive(Drop)]
pub enum EdgeLine {
    Edge {
        first: u64,
        second: u64,
        weight: u64,
        next: Cursor,
    },
    Refused {
        number: u64,
        place: usize,
    },
}

#[derive(Drop)]
pub enum Head {
    Counts {
        vertices: usize,
        edges: usize,
        next: Cursor,
    },
    Refused {
        number: u64,
        place: usize,
    },
}

#[derive(Drop)]
pub enum Reading {
    Survey {
        vertices: usize,
        edges: usize,
        pairs: usize,
    },
    Refused {
        number: u64,
        place: usize,
    },
}

// Reads a survey text into the lent buffers; a refusal writes nothing.
pub fn read(
    text: &[u8],
    groups: &mut [u8],
    firsts: &mut [u32],
    seconds: &mut [u32],
    weights: &mut [u32],
    owners: &mut [u32],
    others: &mut [u8],
) -> Reading
    ensures result_value { let lent = lent_lengths groups.old firsts.old seconds.old weights.old owners.old others.old in
        counts_outcome result ≡ counts_of (reading text.now lent) }
    ensures groups_value { let lent = lent_lengths groups.old firsts.old seconds.old weights.old owners.old others.old in
        groups.new ≡ filled (reading text.now lent) (λ s. s.groups) groups.old }
    ensures firsts_value { let lent = lent_lengths groups.old firsts.old seconds.old weights.old owners.old others.old in
        firsts.new ≡ filled (reading text.now lent) (λ s. s.firsts) firsts.old }
    ensures seconds_value { let lent = lent_lengths groups.old firsts.old seconds.old weights.old owners.old others.old in
        seconds.new ≡ filled (reading text.now lent) (λ s. s.seconds) seconds.old }
    ensures weights_value { let lent = lent_lengths groups.old firsts.old seconds.old weights.old owners.old others.old in
        weights.new ≡ filled (reading text.now lent) (λ s. s.weights) weights.old }
    ensures owners_value { let lent = lent_lengths groups.old firsts.old seconds.old weights.old owners.old others.old in
        owners.new ≡ filled (reading text.now lent) (λ s. s.owners) owners.old }
    ensures others_value { let lent = lent_lengths groups.old firsts.old seconds.old weights.old owners.old others.old in
        others.new ≡ filled (reading text.now lent) (λ s. s.others) others.old }
{
    let head = counts(
        text,
        groups.len(),
        firsts.len(),
        seconds.len(),
        weights.len(),
    );
    let Head::Counts {
        vertices,
        edges,
        next,
    } = head
    else {
        return stopped_counts(head);
    };
    let room = pair_room(owners.len(), others.len());
    let found = decided(text, next, vertices, edges, room);
    let Number::Value {
        value: pairs,
        next: _,
    } = found
    else {
        return stopped_lines(found);
    };
    survey_lines(
        text, next, vertices, edges, room, groups, firsts, seconds, weights, owners, others,
    );
    Reading::Survey {
        vertices,
        edges,
        pairs: pairs as usize,
    }
}
