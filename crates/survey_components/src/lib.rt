// Sets of tracks by their marks, the components that a set makes, as labels in a buffer, and its loops. Definitions in
// specs/Labels, Roots, Met, Forest and Buffer. `joined_labels` leaves labels, `loop_refusal` answers 21 or 14, of a survey
// that 1 to 6 do not refuse; `set_labels` and `forest_refusal` judge it first.
#![tactic(auto)]

ghost use Rattle.std.specs.Prelude.{◌≡◌, ℕ, cond, [], get_or, length, replicate};
ghost use Rattle.base_finite.specs.Below.{tabulate};
ghost use Rattle.theory_graph.specs.Component.{components};
ghost use Rattle.base_limits.specs.Limits.{max_vertices};
ghost use Rattle.base_limits.specs.Verdict.{written};
ghost use Rattle.survey_core.specs.Survey.{survey_from, lent_survey};
ghost use Rattle.survey_core.specs.Refusal.{survey_refusal};
ghost use Rattle.survey_components.specs.Labels.{chosen_mark, chosen, picked_in, EndsFit, labels_of};
ghost use Rattle.survey_components.specs.Met.{ends_met};
ghost use Rattle.survey_components.specs.Forest.{EndsBelow};

use crate::join::{is_kept, join_ends};
use base_buffer::at;
use base_limits::{MAX_VERTICES, Verdict};

mod forest;
mod hang;
mod join;
mod labels;
mod level;

pub use forest::{forest_refusal, loop_refusal};
pub use labels::{climb, merge, own_labels, relabel};

// A set of edges: all of a survey's, or those that are marked kept.
#[derive(Clone, Copy)]
pub enum Chosen {
    All,
    Kept,
}

fn is_chosen(set: Chosen, mark: u8) -> bool
    ensures { result ≡ chosen_mark set mark }
{
    match set {
        Chosen::All => true,
        Chosen::Kept => is_kept(mark),
    }
}

// Whether the mark of edge e is that of a picked one.
pub fn is_picked(marks: &[u8], e: usize) -> bool
    ensures { result ≡ picked_in marks.now e }
{
    match at(marks, e) {
        0 => false,
        1 => true,
        2 => true,
        _ => true,
    }
}

// The ends of edge e come into one tree, if it is in the set.
fn join_edge(
    set: Chosen,
    firsts: &[u32],
    seconds: &[u32],
    marks: &[u8],
    labels: &mut [u32],
    e: usize,
)
    ensures { let first = get_or firsts.now e 0 in
        let met = ends_met (length firsts.now) first (get_or seconds.now e 0) labels.old in
        labels.new ≡ cond (chosen set marks.now e) met labels.old }
{
    if is_chosen(set, at(marks, e)) {
        join_ends(labels, at(firsts, e), at(seconds, e), firsts.len());
    }
}

// Vertices that are their own components get the labels of those that the edges of the set make.
fn label_components(set: Chosen, firsts: &[u32], seconds: &[u32], marks: &[u8], labels: &mut [u32])
    requires { EndsFit firsts.now seconds.now labels.old }
    ensures { let first : ℕ → ℕ = λ e. get_or firsts.now e 0 in
        let second : ℕ → ℕ = λ e. get_or seconds.now e 0 in
        let label = components max_vertices first second (chosen set marks.now) (length firsts.now) in
        labels.new ≡ tabulate (length labels.old) label }
{
    for e in 0..firsts.len() {
        join_edge(set, firsts, seconds, marks, labels, e);
    }
    crate::level::level(labels, firsts.len());
}

// The labels of the components that the edges of the set make.
pub fn joined_labels(
    groups: &[u8],
    firsts: &[u32],
    seconds: &[u32],
    set: Chosen,
    marks: &[u8],
) -> [u32; MAX_VERTICES]
    requires { EndsBelow groups.now firsts.now seconds.now }
    ensures { let s = survey_from groups.now firsts.now seconds.now [] in
        result ≡ labels_of s (chosen set marks.now) }
{
    let mut labels = [0u32; MAX_VERTICES];
    own_labels(&mut labels);
    label_components(set, firsts, seconds, marks, &mut labels[0..groups.len()]);
    labels
}

// The same of any survey; zeros where one of 1 to 6 comes.
pub fn set_labels(
    groups: &[u8],
    firsts: &[u32],
    seconds: &[u32],
    weights: &[u32],
    set: Chosen,
    marks: &[u8],
) -> [u32; MAX_VERTICES]
    ensures { let s = lent_survey groups.now firsts.now seconds.now weights.now in
        result ≡ written (survey_refusal s) (labels_of s (chosen set marks.now)) (replicate max_vertices 0) }
{
    let found = survey_refusal::edges::survey_refusal(groups, firsts, seconds, weights);
    let Verdict::Fine = found else {
        return [0u32; MAX_VERTICES];
    };
    joined_labels(groups, firsts, seconds, set, marks)
}
