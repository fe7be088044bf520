// A dual written behind the records of those before it.
ghost use Rattle.std.specs.Prelude.{◌≡◌, ◌+◌};
ghost use Rattle.format_record.specs.Record.{with_value};
ghost use Rattle.plan_draw.specs.Drawing.{record_put, dual_put, count_put, RecordsFit};

use base_limits::RECORD_BYTES;

// Puts the record of value x with these members in place of record k.
fn put_record(records: &mut [u8], k: usize, x: u64, set: &[u8; RECORD_BYTES])
    requires { RecordsFit (k + 1) records.old }
    ensures { records.new ≡ record_put k (with_value set.now x) records.old }
{
    let at = RECORD_BYTES * k;
    let end = at + RECORD_BYTES;
    crate::record::write_record(&mut records[at..end], x, set);
}

// Writes the dual with these members after the first `count` records, unless its value x is 0 or there is no room for
// it; answers how many records there are then.
pub fn write_dual(records: &mut [u8], count: usize, x: u64, set: &[u8; RECORD_BYTES]) -> usize
    ensures count { result ≡ count_put count x records.old }
    ensures written { records.new ≡ dual_put count x set.now records.old }
{
    if x == 0 {
        return count;
    }
    if records.len() / RECORD_BYTES <= count {
        return count;
    }
    put_record(records, count, x, set);
    count + 1
}
