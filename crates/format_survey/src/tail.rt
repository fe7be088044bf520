// Reads the lines of a survey text after its counts.
ghost use Rattle.std.specs.Prelude.{◌≡◌, length};
ghost use Rattle.std.proofs.lemmas.List.Edits.{sets};
ghost use Rattle.format_read.specs.Answer.{number_step};
ghost use Rattle.format_survey.specs.Line.{firsts_of, seconds_of, weights_of, tail_at, lines_with};
ghost use Rattle.format_also.specs.Pair.{owners_of, others_of};

use crate::edges::edge_lines;
use crate::groups::group_lines;
use format_also::pair_lines;
use format_read::{Cursor, Number};

// The also lines and the edge lines, where these groups stand before them, and how many pairs there are; there is room
// for so many. The values up to the first refusal go into the buffers, as far as these reach.
fn tail_lines(
    text: &[u8],
    cursor: Cursor,
    edges: usize,
    room: usize,
    groups: &[u8],
    firsts: &mut [u32],
    seconds: &mut [u32],
    weights: &mut [u32],
    owners: &mut [u32],
    others: &mut [u8],
) -> Number
    ensures { let tail = tail_at room text.now groups.now edges cursor.at in
        (number_step result ≡ tail.end)
        × (firsts.new ≡ sets firsts.old 0 (firsts_of tail.edges))
        × (seconds.new ≡ sets seconds.old 0 (seconds_of tail.edges))
        × (weights.new ≡ sets weights.old 0 (weights_of tail.edges))
        × (owners.new ≡ sets owners.old 0 (owners_of tail.pairs))
        × (others.new ≡ sets others.old 0 (others_of tail.pairs)) }
{
    let also = pair_lines(text, cursor, groups, room, owners, others);
    let Number::Value { value: pairs, next } = also else {
        return also;
    };
    let links = edge_lines(text, next, edges, firsts, seconds, weights);
    let Number::Value {
        value: _,
        next: last,
    } = links
    else {
        return links;
    };
    Number::Value {
        value: pairs,
        next: last,
    }
}

// The lines of a survey after its counts, and how many pairs there are; 7 where the group buffer is short. The values
// up to the first refusal go into the buffers, as far as these reach.
pub fn survey_lines(
    text: &[u8],
    cursor: Cursor,
    vertices: usize,
    edges: usize,
    room: usize,
    groups: &mut [u8],
    firsts: &mut [u32],
    seconds: &mut [u32],
    weights: &mut [u32],
    owners: &mut [u32],
    others: &mut [u8],
) -> Number
    ensures { let lines = lines_with (length groups.old) room text.now vertices edges cursor.at in
        (number_step result ≡ lines.end)
        × (groups.new ≡ sets groups.old 0 lines.groups)
        × (firsts.new ≡ sets firsts.old 0 (firsts_of lines.edges))
        × (seconds.new ≡ sets seconds.old 0 (seconds_of lines.edges))
        × (weights.new ≡ sets weights.old 0 (weights_of lines.edges))
        × (owners.new ≡ sets owners.old 0 (owners_of lines.pairs))
        × (others.new ≡ sets others.old 0 (others_of lines.pairs)) }
{
    if groups.len() < vertices {
        return Number::Refused {
            number: 7,
            place: 0,
        };
    }
    let heads = group_lines(text, cursor, vertices, groups);
    let Number::Value { value: _, next } = heads else {
        return heads;
    };
    tail_lines(
        text,
        next,
        edges,
        room,
        &groups[0..vertices],
        firsts,
        seconds,
        weights,
        owners,
        others,
    )
}
