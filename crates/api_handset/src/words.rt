// Bytes as numbers, lowest byte first. Definitions in specs/.
ghost use Rattle.std.specs.Prelude.{◌≡◌, ◌+◌, ◌<◌, ◌≤◌, ◌^◌, get_or};
ghost use Rattle.base_finite.specs.Below.{tabulate};
ghost use Rattle.api_handset.specs.Words.{word_at};

use base_limits::MAX_PAIRS;

// Bytes of a number, and pairs that are looked at: one past the limit is refused.
pub const WORD_BYTES: usize = 4;

pub const PAIRS_SEEN: usize = MAX_PAIRS + 1;

// A byte as a wider number, 0 past the end.
fn byte(bytes: &[u8], i: usize) -> u32
    ensures value { result ≡ get_or bytes.now i 0 }
    ensures upper_bound { result < 256 }
{
    u32::from(base_buffer::at(bytes, i))
}

// Number i of a slice, lowest byte first.
fn word(bytes: &[u8], i: usize) -> u32
    requires { i < 2 ^ 32 }
    ensures { result ≡ word_at bytes.now i }
{
    let at = WORD_BYTES * i;
    let last = at + 3;
    let fourth = byte(bytes, last);
    let third = byte(bytes, at + 2) + 256 * fourth;
    let second = byte(bytes, at + 1) + 256 * third;
    byte(bytes, at) + 256 * second
}

// The numbers of a slice, as many as there is room for.
pub fn spell<const N: usize>(bytes: &[u8], words: &mut [u32; N])
    requires { N ≤ 2 ^ 32 }
    ensures { words.new ≡ tabulate N (word_at bytes.now) }
{
    for (i, number) in words.iter_mut().enumerate() {
        *number = word(bytes, i);
    }
}
