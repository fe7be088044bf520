// One word for each vertex: its sides of up to 64 picked edges. Definitions in specs/.
ghost use Rattle.std.specs.Prelude.{◌≡◌, ℕ, not, ◌||◌, length, replicate, ◌==◌, bit_xor, slice_index, slice_index_or};
ghost use Rattle.base_limits.specs.Limits.{max_vertices};
ghost use Rattle.survey_components.specs.Labels.{picked_in};
ghost use Rattle.plan_drop.specs.Word.{own_word, are_alone, hung_at, hung_from};
ghost use Rattle.plan_drop.specs.Tried.{tried_words};

use crate::taken::taken_words;
use crate::word::own_word;
use base_buffer::{at, put};
use base_limits::MAX_VERTICES;
use survey_components::is_picked;

// Vertex v gets the word of the one that it hangs on, turned in the bit of the edge between them.
fn hang(
    others: &[u32; MAX_VERTICES],
    marks: &[u32; MAX_VERTICES],
    base: usize,
    v: u32,
    words: &mut [u64; MAX_VERTICES],
)
    ensures { words.new ≡ hung_at others.now marks.now base v words.old }
{
    let i = v as usize;
    let mark = at(marks, i);
    if mark == 0 {
        return;
    }
    let up = at(others, i) as usize;
    let word = at(words, up) ^ own_word(base, (mark - 1) as usize);
    put(words, i, word);
}

// The words of vertices that hang on one another in some order.
fn hung_words(
    order: &[u32; MAX_VERTICES],
    others: &[u32; MAX_VERTICES],
    marks: &[u32; MAX_VERTICES],
    count: usize,
    base: usize,
) -> [u64; MAX_VERTICES]
    ensures { result ≡ hung_from order.now others.now marks.now base count (replicate max_vertices 0) }
{
    let mut words = [0u64; MAX_VERTICES];
    for k in (0..count).rev() {
        hang(others, marks, base, at(order, k), &mut words);
    }
    words
}

// Whether edge e, which has the index i, is not picked, or the words of its ends differ in its own bit alone.
fn is_own(
    firsts: &[u32],
    seconds: &[u32],
    picked: &[u8],
    words: &[u64; MAX_VERTICES],
    base: usize,
    e: usize,
    i: usize,
) -> bool
    ensures { let first = slice_index_or words.now (slice_index firsts.now e) 0 in
        let second = slice_index_or words.now (slice_index seconds.now e) 0 in
        result ≡ (not (picked_in picked.now e) || bit_xor first second == (own_word base i)) }
{
    if is_picked(picked, e) {
        let a = at(firsts, e) as usize;
        let b = at(seconds, e) as usize;
        return at(words, a) ^ at(words, b) == own_word(base, i);
    }
    true
}

// Whether each picked edge is alone in its bit.
fn is_alone(
    firsts: &[u32],
    seconds: &[u32],
    picked: &[u8],
    words: &[u64; MAX_VERTICES],
    base: usize,
) -> bool
    ensures { let first : ℕ → ℕ = λ e. slice_index_or firsts.now e 0 in
        let second : ℕ → ℕ = λ e. slice_index_or seconds.now e 0 in
        result ≡ are_alone first second (picked_in picked.now) base (length firsts.now) words.now }
{
    let mut i = 0;
    for e in 0..firsts.len() {
        if !is_own(firsts, seconds, picked, words, base, e, i) {
            return false;
        }
        i += usize::from(is_picked(picked, e));
    }
    true
}

// The words of all vertices for the picked edges whose indexes are the 64 from base on. An order in which a forest
// hangs together gives them at once; where the guess fails they are made edge by edge.
pub fn side_words(
    firsts: &[u32],
    seconds: &[u32],
    picked: &[u8],
    order: &[u32; MAX_VERTICES],
    others: &[u32; MAX_VERTICES],
    marks: &[u32; MAX_VERTICES],
    count: usize,
    base: usize,
) -> [u64; MAX_VERTICES]
    ensures { let first : ℕ → ℕ = λ e. slice_index_or firsts.now e 0 in
        let second : ℕ → ℕ = λ e. slice_index_or seconds.now e 0 in
        let guess = hung_from order.now others.now marks.now base count (replicate max_vertices 0) in
        result ≡ tried_words max_vertices guess first second (picked_in picked.now) base (length firsts.now) }
{
    let words = hung_words(order, others, marks, count, base);
    if is_alone(firsts, seconds, picked, &words, base) {
        return words;
    }
    taken_words(firsts, seconds, picked, base)
}
