// Two survey texts one after the other and the ties behind them in, the text of the one survey that they become out:
// what the program `merge` does between reading and writing. Definitions in specs/Output.
#![tactic(auto)]

ghost use Rattle.std.specs.Prelude.{◌≡◌};
ghost use Rattle.format_print.specs.Print.{printed, printed_out};
ghost use Rattle.text_merge.specs.Output.{merge_output};

use crate::read::read_front;
use crate::second::second_text;
use base_limits::{MAX_EDGES, MAX_PAIRS, MAX_VERTICES};
use format_print::Printed;

mod moved;
mod read;
mod result;
mod second;
mod ties;

// What reading the survey at the front of a text answers: its counts and how many bytes its text has.
#[derive(Drop)]
pub enum Front {
    Survey {
        vertices: usize,
        edges: usize,
        pairs: usize,
        next: usize,
    },
    Refused {
        number: u64,
        place: usize,
    },
}

// Prints the survey that two survey texts and the tie lines behind them become, or the two lines of a refusal, of
// reading or of merging; 16's place counts from the first byte of the whole. 7 where that does not fit.
pub fn merge_text(text: &[u8], out: &mut [u8]) -> Printed
    ensures value { result ≡ printed (merge_output text.now) out.old }
    ensures out_value { out.new ≡ printed_out (merge_output text.now) out.old }
{
    let mut groups = [0u8; MAX_VERTICES];
    let mut firsts = [0u32; MAX_EDGES];
    let mut seconds = [0u32; MAX_EDGES];
    let mut weights = [0u32; MAX_EDGES];
    let mut owners = [0u32; MAX_PAIRS];
    let mut others = [0u8; MAX_PAIRS];
    match read_front(
        text,
        &mut groups,
        &mut firsts,
        &mut seconds,
        &mut weights,
        &mut owners,
        &mut others,
    ) {
        Front::Refused { number, place } => format_print::print_refusal(number, place, out),
        Front::Survey {
            vertices,
            edges,
            pairs,
            next,
        } => second_text(
            &groups[0..vertices],
            &firsts[0..edges],
            &seconds[0..edges],
            &weights[0..edges],
            &owners[0..pairs],
            &others[0..pairs],
            text,
            next,
            out,
        ),
    }
}
