// Prints copies: the total price, and a line for each track that is copied.
ghost use Rattle.std.specs.Prelude.{◌≡◌};
ghost use Rattle.format_write.specs.Wrote.{Wrote};
ghost use Rattle.format_print.specs.Print.{printed, printed_out};
ghost use Rattle.text_winter.specs.Output.{copies_line, copies_lines, copies_text};

use format_print::Printed;
use format_write::{put, put_bytes, put_line, put_number};

const COPIES: [u8; 7] = *b"copies=";

// Writes the line of a track that is copied.
fn put_copies(out: &mut [u8], at: usize, copies: u64, track: u64) -> usize
    ensures { Wrote out.old at (copies_line copies track) out.new result }
{
    if copies < 1 {
        return at;
    }
    let next = put_bytes(out, at, &COPIES);
    let next = put_number(out, next, track);
    let next = put(out, next, b',');
    let next = put_number(out, next, copies);
    put(out, next, b'\n')
}

// Writes the lines of all tracks, rising.
fn put_lines(out: &mut [u8], at: usize, copies: &[u8]) -> usize
    ensures { Wrote out.old at (copies_lines copies.now) out.new result }
{
    let mut next = at;
    for (e, x) in copies.iter().enumerate() {
        next = put_copies(out, next, u64::from(*x), e as u64);
    }
    next
}

// Writes the price and the lines.
fn put_text(out: &mut [u8], at: usize, total: u64, copies: &[u8]) -> usize
    ensures { Wrote out.old at (copies_text total copies.now) out.new result }
{
    let next = put_line(out, at, &format_write::COST, total);
    put_lines(out, next, copies)
}

// Prints them. The text is measured on an empty part of the buffer before it is written.
pub fn print_copies(total: u64, copies: &[u8], out: &mut [u8]) -> Printed
    ensures value { result ≡ printed (copies_text total copies.now) out.old }
    ensures out_value { out.new ≡ printed_out (copies_text total copies.now) out.old }
{
    let need = put_text(&mut out[0..0], 0, total, copies);
    if out.len() < need {
        return Printed::Refused {
            number: 7,
            place: 0,
        };
    }
    Printed::Length(put_text(out, 0, total, copies))
}
