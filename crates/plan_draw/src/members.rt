// Members of components, kept as records of value 0: those of two components together.
ghost use Rattle.std.specs.Prelude.{◌≡◌};
ghost use Rattle.plan_draw.specs.Members.{ored, with_part, union_of};

use base_buffer::at;
use base_limits::RECORD_BYTES;

// Each byte of a record ored with the other's.
fn or_record(part: &mut [u8; RECORD_BYTES], other: &[u8; RECORD_BYTES])
    ensures { part.new ≡ ored part.old other.now }
{
    for (i, byte) in part.iter_mut().enumerate() {
        *byte |= at(other, i);
    }
}

// Adds the members of component x: a single vertex, or those of its round's record.
fn add_part(part: &mut [u8; RECORD_BYTES], sets: &[[u8; RECORD_BYTES]], n: usize, x: usize)
    ensures { part.new ≡ with_part sets.now n x part.old }
{
    if x < n {
        format_record::add_member(part, x);
        return;
    }
    let other = crate::sets::set_at(sets, x - n);
    or_record(part, &other);
}

// The members of components x and y.
pub fn union_of(sets: &[[u8; RECORD_BYTES]], n: usize, x: usize, y: usize) -> [u8; RECORD_BYTES]
    ensures { result ≡ union_of sets.now n x y }
{
    let mut part = [0u8; RECORD_BYTES];
    add_part(&mut part, sets, n, x);
    add_part(&mut part, sets, n, y);
    part
}
