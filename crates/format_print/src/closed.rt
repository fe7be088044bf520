// The printed rows of closed tracks. Definitions in specs/.
ghost use Rattle.std.specs.Prelude.{◌≡◌, ◌<◌, ◌^◌};
ghost use Rattle.format_write.specs.Wrote.{Wrote};
ghost use Rattle.format_read.specs.Number.{number_text};
ghost use Rattle.format_print.specs.Print.{printed, printed_out};
ghost use Rattle.format_print.specs.RowText.{pair_text, row_text, row_line, row_lines};

use crate::Printed;
use format_write::{put, put_bytes, put_number};

// The key of a line, and the word of a refused row.
pub const CLOSED: [u8; 7] = *b"closed=";

pub const REFUSED_WORD: [u8; 8] = *b"refused,";

// Writes a number and the byte behind it.
pub fn put_field(out: &mut [u8], at: usize, x: u64, stop: u8) -> usize
    ensures { Wrote out.old at (number_text stop x) out.new result }
{
    let next = put_number(out, at, x);
    put(out, next, stop)
}

// Writes two numbers that end a line.
fn put_pair(out: &mut [u8], at: usize, x: u64, y: u64) -> usize
    ensures { Wrote out.old at (pair_text x y) out.new result }
{
    let next = put_field(out, at, x, b',');
    put_field(out, next, y, b'\n')
}

// Writes the line of a track.
fn put_row(
    out: &mut [u8],
    at: usize,
    track: u64,
    number: u64,
    place: u64,
    cost: u64,
    bound: u64,
) -> usize
    ensures { Wrote out.old at (row_text track number place cost bound) out.new result }
{
    let next = put_bytes(out, at, &CLOSED);
    let next = put_field(out, next, track, b',');
    if 0 < number {
        let next = put_bytes(out, next, &REFUSED_WORD);
        return put_pair(out, next, number, place);
    }
    put_pair(out, next, cost, bound)
}

// Writes the line of the i-th track.
fn put_line_of(out: &mut [u8], at: usize, tracks: &[u32], res: &[u64], i: usize) -> usize
    requires { i < 2 ^ 61 }
    ensures { Wrote out.old at (row_line tracks.now res.now i) out.new result }
{
    let track = u64::from(base_buffer::at(tracks, i));
    let number = base_buffer::at(res, 4 * i);
    let place = base_buffer::at(res, 4 * i + 1);
    let cost = base_buffer::at(res, 4 * i + 2);
    let bound = base_buffer::at(res, 4 * i + 3);
    put_row(out, at, track, number, place, cost, bound)
}

// Writes the line of each track.
fn put_rows(out: &mut [u8], at: usize, tracks: &[u32], res: &[u64]) -> usize
    ensures { Wrote out.old at (row_lines tracks.now res.now) out.new result }
{
    let mut next = at;
    for i in 0..tracks.len() {
        next = put_line_of(out, next, tracks, res, i);
    }
    next
}

// Prints the rows of a list of tracks. The text is measured on an empty part of the buffer before it is written.
pub fn print_rows(tracks: &[u32], res: &[u64], out: &mut [u8]) -> Printed
    ensures value { result ≡ printed (row_lines tracks.now res.now) out.old }
    ensures out_value { out.new ≡ printed_out (row_lines tracks.now res.now) out.old }
{
    let need = put_rows(&mut out[0..0], 0, tracks, res);
    if out.len() < need {
        return Printed::Refused {
            number: 7,
            place: 0,
        };
    }
    Printed::Length(put_rows(out, 0, tracks, res))
}
