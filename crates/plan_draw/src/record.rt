// A dual's record, from its value and the record of its members.
ghost use Rattle.std.specs.Prelude.{◌≡◌};
ghost use Rattle.format_record.specs.Record.{with_value};
ghost use Rattle.plan_draw.specs.Members.{copied};

use base_buffer::{at, put};
use base_limits::RECORD_BYTES;

// Copies the bytes of a record.
fn copy_record(part: &mut [u8], set: &[u8])
    ensures { part.new ≡ copied set.now part.old }
{
    for i in 0..RECORD_BYTES {
        put(part, i, at(set, i));
    }
}

// Writes a record of value x with these members.
pub fn write_record(part: &mut [u8], x: u64, set: &[u8])
    ensures { part.new ≡ with_value (copied set.now part.old) x }
{
    copy_record(part, set);
    format_record::write_value(part, x);
}
