// The second survey and the ties, behind the first survey's text.
ghost use Rattle.std.specs.Prelude.{◌≡◌};
ghost use Rattle.survey_core.specs.Survey.{lent_with};
ghost use Rattle.format_print.specs.Print.{printed, printed_out};
ghost use Rattle.text_merge.specs.Output.{second_from, ties_from_text};

use crate::Front;
use crate::moved::{moved_place, reach};
use crate::read::read_front;
use crate::result::merged_text;
use crate::ties::tie_lines;
use base_buffer::at_most;
use base_limits::{MAX_EDGES, MAX_PAIRS, MAX_VERTICES};
use format_print::Printed;
use format_read::Number;

// What is printed for two surveys and the ties that stand from an offset of the text on.
fn ties_text(
    groups: &[u8],
    firsts: &[u32],
    seconds: &[u32],
    weights: &[u32],
    owners: &[u32],
    others: &[u8],
    second_groups: &[u8],
    second_firsts: &[u32],
    second_seconds: &[u32],
    second_weights: &[u32],
    second_owners: &[u32],
    second_others: &[u8],
    text: &[u8],
    at: usize,
    out: &mut [u8],
) -> Printed
    ensures result_value { let a = lent_with groups.now firsts.now seconds.now weights.now owners.now others.now in
        let b = lent_with second_groups.now second_firsts.now second_seconds.now second_weights.now second_owners.now second_others.now in
        result ≡ printed (ties_from_text a b text.now at) out.old }
    ensures out_value { let a = lent_with groups.now firsts.now seconds.now weights.now owners.now others.now in
        let b = lent_with second_groups.now second_firsts.now second_seconds.now second_weights.now second_owners.now second_others.now in
        out.new ≡ printed_out (ties_from_text a b text.now at) out.old }
{
    let n = text.len();
    let start = at_most(at, n);
    let mut tie_firsts = [0u32; MAX_VERTICES];
    let mut tie_seconds = [0u32; MAX_VERTICES];
    match tie_lines(&text[start..n], &mut tie_firsts, &mut tie_seconds) {
        Number::Refused { number, place } => {
            format_print::print_refusal(number, moved_place(number, place, at), out)
        }
        Number::Value { value, next: _ } => {
            let count = value as usize;
            merged_text(
                groups,
                firsts,
                seconds,
                weights,
                owners,
                others,
                second_groups,
                second_firsts,
                second_seconds,
                second_weights,
                second_owners,
                second_others,
                &tie_firsts[0..count],
                &tie_seconds[0..count],
                out,
            )
        }
    }
}

// What is printed for the first survey and what stands from an offset of the text on.
pub fn second_text(
    groups: &[u8],
    firsts: &[u32],
    seconds: &[u32],
    weights: &[u32],
    owners: &[u32],
    others: &[u8],
    text: &[u8],
    at: usize,
    out: &mut [u8],
) -> Printed
    ensures result_value { let a = lent_with groups.now firsts.now seconds.now weights.now owners.now others.now in
        result ≡ printed (second_from a text.now at) out.old }
    ensures out_value { let a = lent_with groups.now firsts.now seconds.now weights.now owners.now others.now in
        out.new ≡ printed_out (second_from a text.now at) out.old }
{
    let n = text.len();
    let start = at_most(at, n);
    let mut second_groups = [0u8; MAX_VERTICES];
    let mut second_firsts = [0u32; MAX_EDGES];
    let mut second_seconds = [0u32; MAX_EDGES];
    let mut second_weights = [0u32; MAX_EDGES];
    let mut second_owners = [0u32; MAX_PAIRS];
    let mut second_others = [0u8; MAX_PAIRS];
    match read_front(
        &text[start..n],
        &mut second_groups,
        &mut second_firsts,
        &mut second_seconds,
        &mut second_weights,
        &mut second_owners,
        &mut second_others,
    ) {
        Front::Refused { number, place } => {
            format_print::print_refusal(number, moved_place(number, place, at), out)
        }
        Front::Survey {
            vertices,
            edges,
            pairs,
            next,
        } => ties_text(
            groups,
            firsts,
            seconds,
            weights,
            owners,
            others,
            &second_groups[0..vertices],
            &second_firsts[0..edges],
            &second_seconds[0..edges],
            &second_weights[0..edges],
            &second_owners[0..pairs],
            &second_others[0..pairs],
            text,
            reach(at, next),
            out,
        ),
    }
}
