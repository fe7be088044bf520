// Judging a batch of picked edges by the words: an edge is needed exactly if some vertex and its mate lie on its two
// sides. Definitions in specs/.
ghost use Rattle.std.specs.Prelude.{◌≡◌, ◌+◌, ◌^◌, ◌<◌};
ghost use Rattle.base_buffer.specs.Store.{remade};
ghost use Rattle.survey_components.specs.Labels.{picked_in};
ghost use Rattle.plan_drop.specs.Parted.{parted_below};
ghost use Rattle.plan_drop.specs.Needed.{judged, raised, MarkStep};

use crate::WORD_BITS;
use base_buffer::put;
use base_limits::MAX_VERTICES;
use survey_components::is_picked;

// Whether the edge with index i is of this batch and its bit is set.
fn is_needed(bits: u64, base: usize, i: usize) -> bool
    ensures { result ≡ judged bits base i }
{
    if i < base {
        return false;
    }
    if WORD_BITS <= i - base {
        return false;
    }
    (bits >> (i - base)) % 2 == 1
}

// Edge e, which has the index i if it is picked, gets 2 if it is needed; the answer is the next index.
fn judge_edge(bits: u64, picked: &[u8], base: usize, marks: &mut [u8], e: usize, i: usize) -> usize
    requires { i + 1 < 2 ^ 64 }
    ensures { MarkStep (picked_in picked.now e) (judged bits base i) e i marks.old result marks.new }
{
    if is_picked(picked, e) {
        if is_needed(bits, base, i) {
            put(marks, e, 2);
            return i + 1;
        }
        return i + 1;
    }
    i
}

// All edges below m, by the words of n vertices and their mates.
pub fn judge_edges(
    words: &[u64; MAX_VERTICES],
    mates: &[u32; MAX_VERTICES],
    n: usize,
    picked: &[u8],
    base: usize,
    marks: &mut [u8],
    m: usize,
)
    ensures { let judgement = judged (parted_below words.now mates.now n) base in
        marks.new ≡ remade (raised (picked_in picked.now) judgement) m marks.old }
{
    let bits = crate::bits::parted(words, mates, n);
    let mut i = 0;
    for e in 0..m {
        i = judge_edge(bits, picked, base, marks, e, i);
    }
}
