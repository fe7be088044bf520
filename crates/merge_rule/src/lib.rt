// One survey of two neighbouring ones and ties between them: what it is, what is refused, and that both can be read out
// of it again. Definitions and laws in specs/, no functions.
#![tactic(auto)]

// Numbers of a merged survey that are answered: junctions, tracks, pairs.
pub const MERGE_FIGURES: usize = 3;

// What merging answers: n, m and the number of pairs of the result; or a refusal's number and place.
#[derive(Drop)]
pub enum Merged {
    Finished {
        vertices: usize,
        edges: usize,
        pairs: usize,
    },
    Refused {
        number: u64,
        place: usize,
    },
}
