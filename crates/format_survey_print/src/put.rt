// Writes the lines of the vertices and of the edges of a survey's text.
ghost use Rattle.std.specs.Prelude.{◌≡◌};
ghost use Rattle.format_write.specs.Key.{node_key};
ghost use Rattle.format_write.specs.Text.{line_of};
ghost use Rattle.format_write.specs.Wrote.{Wrote};
ghost use Rattle.format_survey.specs.LinesRender.{edge_text};
ghost use Rattle.format_read.specs.Lines.{text_of};
ghost use Rattle.format_survey_print.specs.Print.{edge_with, edges_from};

use format_print::put_field;
use format_write::{put_bytes, put_line};

// Writes the line of an edge.
fn put_edge(out: &mut [u8], at: usize, first: u64, second: u64, weight: u64) -> usize
    ensures { Wrote out.old at (edge_text (edge_with first second weight)) out.new result }
{
    let next = put_bytes(out, at, &format_write::LINK);
    let next = put_field(out, next, first, b',');
    let next = put_field(out, next, second, b',');
    put_field(out, next, weight, b'\n')
}

// Writes the line of a vertex.
fn put_group(out: &mut [u8], at: usize, group: u8) -> usize
    ensures { Wrote out.old at (line_of node_key group) out.new result }
{
    put_line(out, at, &format_write::NODE, u64::from(group))
}

// Writes the line of each vertex.
pub fn put_groups(out: &mut [u8], at: usize, groups: &[u8]) -> usize
    ensures { Wrote out.old at (text_of (line_of node_key) groups.now) out.new result }
{
    let mut next = at;
    for group in groups {
        next = put_group(out, next, *group);
    }
    next
}

// Writes the line of each edge.
pub fn put_edges(
    out: &mut [u8],
    at: usize,
    firsts: &[u32],
    seconds: &[u32],
    weights: &[u32],
) -> usize
    ensures { let edges = edges_from firsts.now seconds.now weights.now in
        Wrote out.old at (text_of edge_text edges) out.new result }
{
    let mut next = at;
    for (e, x) in firsts.iter().enumerate() {
        let first = u64::from(*x);
        let second = u64::from(base_buffer::at(seconds, e));
        let weight = u64::from(base_buffer::at(weights, e));
        next = put_edge(out, next, first, second, weight);
    }
    next
}
