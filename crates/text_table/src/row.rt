// A byte of a track: its two ends and its price, four bytes each, lowest first.
ghost use Rattle.std.specs.Prelude.{◌≡◌, get_or};
ghost use Rattle.format_record.specs.Bits.{low_bytes};
ghost use Rattle.text_table.specs.TrackTable.{number_bytes, track_row, track_byte};

use base_buffer::at;
use format_table::TRACK_BYTES;

// Bytes of an end or a price.
const NUMBER_BYTES: usize = 4;

// Byte j of a number, the lowest being byte 0; 0 past the last.
fn low_byte(x: u32, j: usize) -> u8
    ensures { result ≡ get_or (low_bytes number_bytes x) j 0 }
{
    at(&x.to_le_bytes(), j)
}

// Byte j of a track.
fn row_byte(first: u32, second: u32, weight: u32, j: usize) -> u8
    ensures { result ≡ get_or (track_row first second weight) j 0 }
{
    if j < NUMBER_BYTES {
        return low_byte(first, j);
    }
    if j < 2 * NUMBER_BYTES {
        return low_byte(second, j - NUMBER_BYTES);
    }
    low_byte(weight, j - 2 * NUMBER_BYTES)
}

// Byte k of a table of tracks.
pub fn track_byte(firsts: &[u32], seconds: &[u32], weights: &[u32], k: usize) -> u8
    ensures { result ≡ track_byte firsts.now seconds.now weights.now k }
{
    let i = k / TRACK_BYTES;
    row_byte(
        at(firsts, i),
        at(seconds, i),
        at(weights, i),
        k % TRACK_BYTES,
    )
}
