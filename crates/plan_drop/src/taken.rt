// Words for the sides of up to 64 picked edges, made edge by edge. Definitions in specs/.
ghost use Rattle.std.specs.Prelude.{◌≡◌, ℕ, ◌+◌, ◌^◌, ◌<◌, length, slice_index_or};
ghost use Rattle.base_limits.specs.Limits.{max_vertices};
ghost use Rattle.survey_components.specs.Labels.{picked_in};
ghost use Rattle.survey_components.specs.Buffer.{ends_joined};
ghost use Rattle.plan_drop.specs.Word.{turned_all, edge_taken};
ghost use Rattle.plan_drop.specs.Taken.{EdgeStep, taken_below};

use base_buffer::at;
use base_limits::MAX_VERTICES;

// What a new edge between the components x and y makes of all words.
fn turn_all(x: u32, y: u32, delta: u64, own: u64, labels: &[u32], words: &mut [u64])
    ensures { words.new ≡ turned_all x y delta own labels.now words.old }
{
    for (w, word) in words.iter_mut().enumerate() {
        *word = crate::word::turn(x, y, delta, own, at(labels, w), *word);
    }
}

// The edge between two vertices comes in, with its own bit.
fn take_ends(a: u32, b: u32, own: u64, labels: &mut [u32], words: &mut [u64])
    ensures { (labels.new ≡ ends_joined a b labels.old)
        × (words.new ≡ edge_taken a b own labels.old words.old) }
{
    let u = a as usize;
    let v = b as usize;
    let x = at(labels, u);
    let y = at(labels, v);
    let delta = at(words, u) ^ at(words, v);
    turn_all(x, y, delta, own, labels, words);
    survey_components::relabel(labels, x, y, x);
}

// Edge e comes in, if it is picked; the answer is the next index.
fn take_edge(
    firsts: &[u32],
    seconds: &[u32],
    picked: &[u8],
    base: usize,
    labels: &mut [u32],
    words: &mut [u64],
    e: usize,
    i: usize,
) -> usize
    requires { i + 1 < 2 ^ 64 }
    ensures { let first = slice_index_or firsts.now e 0 in
        let second = slice_index_or seconds.now e 0 in
        EdgeStep (picked_in picked.now e) first second base i labels.old words.old result labels.new words.new }
{
    if survey_components::is_picked(picked, e) {
        take_ends(
            at(firsts, e),
            at(seconds, e),
            crate::word::own_word(base, i),
            labels,
            words,
        );
        return i + 1;
    }
    i
}

// The words that the picked edges make as they come in: right for any forest, and slow.
pub fn taken_words(
    firsts: &[u32],
    seconds: &[u32],
    picked: &[u8],
    base: usize,
) -> [u64; MAX_VERTICES]
    ensures { let first : ℕ → ℕ = λ e. slice_index_or firsts.now e 0 in
        let second : ℕ → ℕ = λ e. slice_index_or seconds.now e 0 in
        result ≡ (taken_below max_vertices first second (picked_in picked.now) base (length firsts.now)).words }
{
    let mut labels = [0u32; MAX_VERTICES];
    survey_components::own_labels(&mut labels);
    let mut words = [0u64; MAX_VERTICES];
    let mut i = 0;
    for e in 0..firsts.len() {
        i = take_edge(firsts, seconds, picked, base, &mut labels, &mut words, e, i);
    }
    words
}
