// One word: the bit of an edge, and what a new edge makes of a vertex's word. Definitions in specs/.
ghost use Rattle.std.specs.Prelude.{◌≡◌, ◌==◌};
ghost use Rattle.base_finite.specs.Below.{counted};
ghost use Rattle.plan_drop.specs.Word.{own_word, turned};

use crate::WORD_BITS;

// The bit of the edge with index i, among the 64 from base on.
pub fn own_word(base: usize, i: usize) -> u64
    ensures { result ≡ own_word base i }
{
    if i < base {
        return 0;
    }
    if WORD_BITS <= i - base {
        return 0;
    }
    1u64 << (i - base)
}

// The word for the vertices of component x, and 0 for others.
fn word_at(label: u32, x: u32, word: u64) -> u64
    ensures { result ≡ counted (label == x) word }
{
    if label == x {
        return word;
    }
    0
}

// What a new edge between the components x and y makes of one vertex's word.
pub fn turn(x: u32, y: u32, delta: u64, own: u64, label: u32, word: u64) -> u64
    ensures { result ≡ turned x y delta own label word }
{
    word ^ word_at(label, y, delta) ^ word_at(label, x, own)
}
