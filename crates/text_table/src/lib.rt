// A survey's text in, its track table out: what the program `table` does between reading and writing. Definitions in
// specs/.
#![tactic(auto)]

ghost use Rattle.std.specs.Prelude.{◌≡◌};
ghost use Rattle.format_print.specs.Print.{printed, printed_out};
ghost use Rattle.text_table.specs.TrackTable.{track_table, text_table, table_printed, table_printed_out};

use crate::row::track_byte;
use base_buffer::put;
use base_limits::{MAX_EDGES, MAX_PAIRS, MAX_VERTICES};
use format_print::Printed;
use format_survey::Reading;
use format_table::TRACK_BYTES;

mod row;

// Bytes that hold the table of every survey within the limits.
pub const TABLE_ROOM: usize = TRACK_BYTES * MAX_EDGES;

// Writes the table of the tracks of three slices; 7 where the buffer is short.
fn put_table(firsts: &[u32], seconds: &[u32], weights: &[u32], out: &mut [u8]) -> Printed
    ensures value { result ≡ printed (track_table firsts.now seconds.now weights.now) out.old }
    ensures out_value { out.new ≡ printed_out (track_table firsts.now seconds.now weights.now) out.old }
{
    if out.len() / TRACK_BYTES < firsts.len() {
        return Printed::Refused {
            number: 7,
            place: 0,
        };
    }
    let long = TRACK_BYTES * firsts.len();
    for k in 0..long {
        put(out, k, track_byte(firsts, seconds, weights, k));
    }
    Printed::Length(long)
}

// Writes the track table of the survey that a text says; the refusal of reading, or 7 where the buffer is short, writes
// nothing. A buffer of `TABLE_ROOM` bytes holds every table.
pub fn survey_table(text: &[u8], out: &mut [u8]) -> Printed
    ensures value { result ≡ table_printed (text_table text.now) out.old }
    ensures out_value { out.new ≡ table_printed_out (text_table text.now) out.old }
{
    let mut groups = [0u8; MAX_VERTICES];
    let mut firsts = [0u32; MAX_EDGES];
    let mut seconds = [0u32; MAX_EDGES];
    let mut weights = [0u32; MAX_EDGES];
    let mut owners = [0u32; MAX_PAIRS];
    let mut others = [0u8; MAX_PAIRS];
    match format_survey::read(
        text,
        &mut groups,
        &mut firsts,
        &mut seconds,
        &mut weights,
        &mut owners,
        &mut others,
    ) {
        Reading::Refused { number, place } => Printed::Refused { number, place },
        Reading::Survey {
            vertices: _,
            edges,
            pairs: _,
        } => put_table(
            &firsts[0..edges],
            &seconds[0..edges],
            &weights[0..edges],
            out,
        ),
    }
}
