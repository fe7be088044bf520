// Track tables for the memory card, packed and unpacked, for a caller that gets one number back.
ghost use Rattle.std.specs.Prelude.{◌≡◌, length};
ghost use Rattle.format_table.specs.Table.{table_refusal, packed_out, unpacked_out};
ghost use Rattle.api_code.specs.Code.{code_of, capped};

use base_limits::Verdict;
use format_table::{pack_table, unpack_table};

// What was found, as one number.
fn told(found: Verdict) -> u64
    ensures { result ≡ capped (code_of found) }
{
    match found {
        Verdict::Refused { number, place } => api_code::code(number, place),
        Verdict::Fine => 0,
    }
}

// Packs a track table: the first bytes of all tracks, then all second bytes, and so on.
pub fn pack_table_call(table: &[u8], out: &mut [u8]) -> u64
    ensures code { result ≡ code_of (table_refusal (length table.now) (length out.old)) }
    ensures out { out.new ≡ packed_out table.now out.old }
{
    told(pack_table(table, out))
}

// Unpacks a packed table: its tracks, one after another.
pub fn unpack_table_call(table: &[u8], out: &mut [u8]) -> u64
    ensures code { result ≡ code_of (table_refusal (length table.now) (length out.old)) }
    ensures out { out.new ≡ unpacked_out table.now out.old }
{
    told(unpack_table(table, out))
}
