// Writes the lines of a plan's marks and duals.
ghost use Rattle.format_write.specs.Text.{kept_line, kept_lines, dual_lines};
ghost use Rattle.format_write.specs.Wrote.{Wrote};

use crate::put_dual::put_dual;
use format_write::put_line;

// Writes the line of edge e if its mark says that it is kept.
fn put_mark(out: &mut [u8], at: usize, mark: u8, e: usize) -> usize
    ensures { Wrote out.old at (kept_line mark e) out.new result }
{
    match mark {
        0 => at,
        1 => at,
        2 => put_line(out, at, &format_write::KEPT, e as u64),
        _ => at,
    }
}

// Writes the lines of the kept edges, rising.
pub fn put_marks(out: &mut [u8], at: usize, marks: &[u8]) -> usize
    ensures { Wrote out.old at (kept_lines marks.now) out.new result }
{
    let mut next = at;
    for (e, mark) in marks.iter().enumerate() {
        next = put_mark(out, next, *mark, e);
    }
    next
}

// Writes a line for each whole record, which is handed on as a part of the buffer.
pub fn put_duals(out: &mut [u8], at: usize, records: &[u8]) -> usize
    ensures { Wrote out.old at (dual_lines records.now) out.new result }
{
    let mut next = at;
    for i in 0..records.len() / base_limits::RECORD_BYTES {
        next = put_dual(out, next, format_record::record(records, i));
    }
    next
}
