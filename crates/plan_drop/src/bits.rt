// The bits of words in which some vertex and its mate differ. Definitions in specs/.
ghost use Rattle.std.specs.Prelude.{◌≡◌};
ghost use Rattle.plan_drop.specs.Parted.{parted_below};

use base_buffer::at;
use base_limits::MAX_VERTICES;

// The bits in which some vertex below n and its mate differ.
pub fn parted(words: &[u64; MAX_VERTICES], mates: &[u32; MAX_VERTICES], n: usize) -> u64
    ensures { result ≡ parted_below words.now mates.now n }
{
    let mut bits = 0;
    for v in 0..n {
        let mate = at(mates, v) as usize;
        bits |= at(words, v) ^ at(words, mate);
    }
    bits
}
