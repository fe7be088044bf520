// What the lengths of slices from the handset are refused for, before a byte is read. Definitions in specs/.
ghost use Rattle.std.specs.Prelude.{◌≡◌};
ghost use Rattle.api_handset.specs.Slices.{is_ragged, any_ragged, are_uneven, lengths_refusal, pairs_seen};

use crate::words::{PAIRS_SEEN, WORD_BYTES};
use base_limits::{MAX_EDGES, MAX_VERTICES, Verdict};

// How many of so many pairs are looked at.
pub fn pairs_seen(pairs: usize) -> usize
    ensures { result ≡ pairs_seen pairs }
{
    PAIRS_SEEN.min(pairs)
}

// Whether a length is not a multiple of four.
fn is_ragged(long: usize) -> bool
    ensures { result ≡ is_ragged long }
{
    long % WORD_BYTES != 0
}

// Whether some slice of numbers is not a multiple of four long.
fn any_ragged(firsts: usize, seconds: usize, weights: usize, owners: usize) -> bool
    ensures { result ≡ any_ragged firsts seconds weights owners }
{
    if is_ragged(firsts) {
        return true;
    }
    if is_ragged(seconds) {
        return true;
    }
    if is_ragged(weights) {
        return true;
    }
    is_ragged(owners)
}

// Whether slices that are read side by side differ in length.
fn are_uneven(firsts: usize, seconds: usize, weights: usize, owners: usize, others: usize) -> bool
    ensures { result ≡ are_uneven firsts seconds weights owners others }
{
    let edges = firsts / WORD_BYTES;
    if edges != seconds / WORD_BYTES {
        return true;
    }
    if edges != weights / WORD_BYTES {
        return true;
    }
    owners / WORD_BYTES != others
}

// What the six lengths alone are refused for: 1, 2, 3.
pub fn lengths_refusal(
    groups: usize,
    firsts: usize,
    seconds: usize,
    weights: usize,
    owners: usize,
    others: usize,
) -> Verdict
    ensures { result ≡ lengths_refusal groups firsts seconds weights owners others }
{
    if groups == 0 {
        return Verdict::Refused {
            number: 1,
            place: 0,
        };
    }
    if MAX_VERTICES < groups {
        return Verdict::Refused {
            number: 1,
            place: 0,
        };
    }
    if any_ragged(firsts, seconds, weights, owners) {
        return Verdict::Refused {
            number: 2,
            place: 0,
        };
    }
    if are_uneven(firsts, seconds, weights, owners, others) {
        return Verdict::Refused {
            number: 2,
            place: 0,
        };
    }
    if MAX_EDGES < firsts / WORD_BYTES {
        return Verdict::Refused {
            number: 3,
            place: 0,
        };
    }
    Verdict::Fine
}
