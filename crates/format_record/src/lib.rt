// Moat records: the amount, lowest byte first, then the members as bits, 8 to a byte. Definitions in specs/Record and
// specs/Bits. Functions read and write a record's parts, and are total: bytes that a part lacks read as 0, and what has
// no room is not written.
#![tactic(auto)]

ghost use Rattle.std.specs.Prelude.{◌≡◌, ◌%◌};
ghost use Rattle.format_record.specs.Bits.{bit_at, with_bit, low_bytes};
ghost use Rattle.format_record.specs.Record.{value_in, member_in, record_at};
ghost use Rattle.format_record.specs.Record.{overwritten, with_value, with_member_in, started_as};

use base_buffer::{at, put};
use base_limits::{RECORD_BYTES, VALUE_BYTES};

// Record i of a buffer of records, as a part of it; shorter or empty where the buffer ends before.
pub fn record(records: &[u8], i: usize) -> &[u8]
    ensures { result.now ≡ record_at records.now i }
{
    let n = records.len();
    if n / RECORD_BYTES < i {
        return &records[n..n];
    }
    let start = RECORD_BYTES * i;
    if n - start < RECORD_BYTES {
        return &records[start..n];
    }
    let end = start + RECORD_BYTES;
    &records[start..end]
}

// The value of a record.
pub fn value(part: &[u8]) -> u64
    ensures { result ≡ value_in part.now }
{
    let mut x: u64 = 0;
    for i in (0..VALUE_BYTES).rev() {
        x = u64::from(at(part, i)) + 256 * x;
    }
    x
}

// Whether bit k of a byte is set.
fn bit(b: u8, k: usize) -> bool
    ensures { result ≡ bit_at b k }
{
    if 8 <= k {
        return false;
    }
    (b >> k) % 2 == 1
}

// Whether v is a member.
pub fn member(part: &[u8], v: usize) -> bool
    ensures { result ≡ member_in part.now v }
{
    bit(at(part, VALUE_BYTES + v / 8), v % 8)
}

// Writes the lowest `count` bytes of x, lowest first.
fn write_low(s: &mut [u8], count: usize, x: u64)
    ensures { s.new ≡ overwritten s.old (low_bytes count x) }
{
    let mut rest = x;
    for i in 0..count {
        put(s, i, (rest % 256) as u8);
        rest = rest / 256;
    }
}

// Writes a record's value.
pub fn write_value(part: &mut [u8], x: u64)
    ensures { part.new ≡ with_value part.old x }
{
    write_low(part, VALUE_BYTES, x);
}

// Writes a record with this value and no member.
pub fn start_record(part: &mut [u8], x: u64)
    ensures { part.new ≡ started_as part.old x }
{
    write_low(part, RECORD_BYTES, x);
}

// The byte with bit k set, for a bit of a byte.
fn with_bit(b: u8, k: usize) -> u8
    ensures { result ≡ with_bit b (k % 8) }
{
    let at = k % 8;
    if bit(b, at) {
        return b;
    }
    b + (1 << at)
}

// Adds member v.
pub fn add_member(part: &mut [u8], v: usize)
    ensures { part.new ≡ with_member_in part.old v }
{
    let at = VALUE_BYTES + v / 8;
    let old = base_buffer::at(part, at);
    put(part, at, with_bit(old, v));
}
