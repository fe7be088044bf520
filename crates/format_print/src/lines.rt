// Printing of one dual, and of the two lines of a refusal.
ghost use Rattle.std.specs.Prelude.{◌≡◌, length};
ghost use Rattle.base_limits.specs.Limits.{dual_room};
ghost use Rattle.format_write.specs.Text.{refusal_text};
ghost use Rattle.format_print.specs.Print.{printed, printed_out, dual_printed, dual_printed_out};
ghost use Rattle.format_write.specs.Wrote.{Wrote};

use crate::Printed;
use crate::put_dual::put_dual;
use base_limits::DUAL_ROOM;
use format_write::put_line;

// A buffer that holds every dual line (laws in format_print, specs/Laws/Room.antt).
pub fn dual_buffer() -> [u8; DUAL_ROOM]
    ensures { length result ≡ dual_room }
{
    [0; DUAL_ROOM]
}

// Writes the two lines of a refusal.
fn put_refusal(out: &mut [u8], at: usize, number: u64, place: usize) -> usize
    ensures { Wrote out.old at (refusal_text number place) out.new result }
{
    let next = put_line(out, at, &format_write::REFUSED, number);
    put_line(out, next, &format_write::PLACE, place as u64)
}

// Prints the line of a dual record. Each print measures its text on an empty part of the buffer before it writes.
pub fn print_dual(part: &[u8], out: &mut [u8]) -> Printed
    ensures value { result ≡ dual_printed part.now out.old }
    ensures out_value { out.new ≡ dual_printed_out part.now out.old }
{
    if part.len() != base_limits::RECORD_BYTES {
        return Printed::Refused {
            number: 9,
            place: 0,
        };
    }
    let need = put_dual(&mut out[0..0], 0, part);
    if out.len() < need {
        return Printed::Refused {
            number: 7,
            place: 0,
        };
    }
    Printed::Length(put_dual(out, 0, part))
}

// Prints a refusal's two lines.
pub fn print_refusal(number: u64, place: usize, out: &mut [u8]) -> Printed
    ensures value { result ≡ printed (refusal_text number place) out.old }
    ensures out_value { out.new ≡ printed_out (refusal_text number place) out.old }
{
    let need = put_refusal(&mut out[0..0], 0, number, place);
    if out.len() < need {
        return Printed::Refused {
            number: 7,
            place: 0,
        };
    }
    Printed::Length(put_refusal(out, 0, number, place))
}
