// What is refused of the result by its counts: 1, 3, 18 and 7.
ghost use Rattle.std.specs.Prelude.{◌≡◌};
ghost use Rattle.merge_rule.specs.Refusal.{counts_from, room_from, large_refusal, room_refusal};

use base_limits::{MAX_EDGES, MAX_PAIRS, MAX_VERTICES, Verdict};

// 1 for too many junctions, 3 for too many tracks, 18 for a 257th pair.
pub fn large_refusal(vertices: usize, edges: usize, pairs: usize) -> Verdict
    ensures { result ≡ large_refusal (counts_from vertices edges pairs) }
{
    if MAX_VERTICES < vertices {
        return Verdict::Refused {
            number: 1,
            place: 0,
        };
    }
    if MAX_EDGES < edges {
        return Verdict::Refused {
            number: 3,
            place: 0,
        };
    }
    if MAX_PAIRS < pairs {
        return Verdict::Refused {
            number: 18,
            place: MAX_PAIRS,
        };
    }
    Verdict::Fine
}

// 7 for a buffer that is too short.
pub fn room_refusal(
    vertices: usize,
    edges: usize,
    pairs: usize,
    groups: usize,
    firsts: usize,
    seconds: usize,
    weights: usize,
    owners: usize,
    others: usize,
) -> Verdict
    ensures { result ≡ room_refusal (counts_from vertices edges pairs)
        (room_from groups firsts seconds weights owners others) }
{
    let short = Verdict::Refused {
        number: 7,
        place: 0,
    };
    if groups < vertices {
        return short;
    }
    if firsts < edges {
        return short;
    }
    if seconds < edges {
        return short;
    }
    if weights < edges {
        return short;
    }
    if owners < pairs {
        return short;
    }
    if others < pairs {
        return short;
    }
    Verdict::Fine
}
