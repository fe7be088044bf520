// Printing of a plan.
ghost use Rattle.std.specs.Prelude.{◌≡◌, length};
ghost use Rattle.base_limits.specs.Limits.{plan_room};
ghost use Rattle.format_write.specs.Text.{count_lines, plan_text};
ghost use Rattle.format_print.specs.Print.{printed, printed_out};
ghost use Rattle.format_print.specs.Within.{holds_all};
ghost use Rattle.format_write.specs.Wrote.{Wrote};

use crate::Printed;
use crate::put_plan::{put_duals, put_marks};
use base_limits::{
    COUNTS_ROOM, KEPT_ROOM, LONGEST_DUAL, MAX_EDGES, PLAN_ROOM, RECORD_BYTES, RECORDS_ROOM,
};
use format_write::put_line;

// A buffer that holds every plan within the limits (laws in format_print, specs/Laws/Room.antt).
pub fn plan_buffer() -> [u8; PLAN_ROOM]
    ensures { length result ≡ plan_room }
{
    [0; PLAN_ROOM]
}

// Writes the four lines of counts.
fn put_counts(
    out: &mut [u8],
    at: usize,
    terminals: u64,
    cost: u64,
    bound: u64,
    rounds: u64,
) -> usize
    ensures { Wrote out.old at (count_lines terminals cost bound rounds) out.new result }
{
    let next = put_line(out, at, &format_write::TERMINALS, terminals);
    let next = put_line(out, next, &format_write::COST, cost);
    let next = put_line(out, next, &format_write::BOUND, bound);
    put_line(out, next, &format_write::ROUNDS, rounds)
}

// Writes a whole plan.
fn put_plan(
    out: &mut [u8],
    at: usize,
    terminals: u64,
    cost: u64,
    bound: u64,
    rounds: u64,
    marks: &[u8],
    records: &[u8],
) -> usize
    ensures { Wrote out.old at (plan_text terminals cost bound rounds marks.now records.now) out.new result }
{
    let next = put_counts(out, at, terminals, cost, bound, rounds);
    let next = put_marks(out, next, marks);
    put_duals(out, next, records)
}

// Whether `room` bytes are known to hold every plan of so many marks and bytes of records.
fn holds_all(marks: usize, records: usize, room: usize) -> bool
    ensures { result ≡ holds_all marks records room }
{
    if MAX_EDGES < marks {
        return false;
    }
    if RECORDS_ROOM < records {
        return false;
    }
    COUNTS_ROOM + KEPT_ROOM * marks + LONGEST_DUAL * (records / RECORD_BYTES) <= room
}

// Prints a plan: its counts, the kept edges, the duals. Where every such plan fits it is not measured first.
pub fn print_plan(
    terminals: u64,
    cost: u64,
    bound: u64,
    rounds: u64,
    marks: &[u8],
    records: &[u8],
    out: &mut [u8],
) -> Printed
    ensures value { result ≡ printed (plan_text terminals cost bound rounds marks.now records.now) out.old }
    ensures out_value { out.new ≡ printed_out (plan_text terminals cost bound rounds marks.now records.now) out.old }
{
    if holds_all(marks.len(), records.len(), out.len()) {
        return Printed::Length(put_plan(out, 0, terminals, cost, bound, rounds, marks, records));
    }
    let need = put_plan(
        &mut out[0..0],
        0,
        terminals,
        cost,
        bound,
        rounds,
        marks,
        records,
    );
    if out.len() < need {
        return Printed::Refused {
            number: 7,
            place: 0,
        };
    }
    Printed::Length(put_plan(out, 0, terminals, cost, bound, rounds, marks, records))
}
