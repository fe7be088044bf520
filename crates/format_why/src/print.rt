// Printing of reasons: why an edge has its mark.
ghost use Rattle.std.specs.Prelude.{◌≡◌};
ghost use Rattle.format_write.specs.Wrote.{Wrote};
ghost use Rattle.format_print.specs.Print.{printed, printed_out};
ghost use Rattle.format_why.specs.ReasonText.{mark_text, reason_text};

use crate::kept::put_kept;
use format_print::Printed;
use format_write::put_line;

// Writes the lines behind the mark.
fn put_mark(
    out: &mut [u8],
    at: usize,
    mark: u64,
    group: u64,
    low: u64,
    high: u64,
    round: u64,
    route: &[u32],
) -> usize
    ensures { Wrote out.old at (mark_text mark group low high round route.now) out.new result }
{
    match mark {
        0 => put_line(out, at, &format_write::ROUND, round),
        1 => at,
        2 => put_kept(out, at, group, low, high, route),
        _ => at,
    }
}

// Writes a whole reason.
fn put_reason(
    out: &mut [u8],
    at: usize,
    track: u64,
    mark: u64,
    group: u64,
    low: u64,
    high: u64,
    round: u64,
    route: &[u32],
) -> usize
    ensures { Wrote out.old at (reason_text track mark group low high round route.now) out.new result }
{
    let next = put_line(out, at, &format_write::TRACK, track);
    let next = put_line(out, next, &format_write::MARK, mark);
    put_mark(out, next, mark, group, low, high, round, route)
}

// Prints why edge `track` has its mark. The text is measured on an empty part of the buffer before it is written.
pub fn print_reason(
    track: u64,
    mark: u64,
    group: u64,
    low: u64,
    high: u64,
    round: u64,
    route: &[u32],
    out: &mut [u8],
) -> Printed
    ensures value { result ≡ printed (reason_text track mark group low high round route.now) out.old }
    ensures out_value { out.new ≡ printed_out (reason_text track mark group low high round route.now) out.old }
{
    let need = put_reason(
        &mut out[0..0],
        0,
        track,
        mark,
        group,
        low,
        high,
        round,
        route,
    );
    if out.len() < need {
        return Printed::Refused {
            number: 7,
            place: 0,
        };
    }
    Printed::Length(put_reason(out, 0, track, mark, group, low, high, round, route))
}
