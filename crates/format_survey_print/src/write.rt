// Writes the lines of a survey's text, one kind after the other.
ghost use Rattle.format_write.specs.Wrote.{Wrote};
ghost use Rattle.format_survey_print.specs.Print.{survey_text, survey_lent};

use crate::put::{put_edges, put_groups};
use format_also::put_pairs;
use format_write::put_line;

// Writes a whole survey.
pub fn put_survey(
    out: &mut [u8],
    at: usize,
    groups: &[u8],
    firsts: &[u32],
    seconds: &[u32],
    weights: &[u32],
    owners: &[u32],
    others: &[u8],
) -> usize
    ensures { let text = survey_text (survey_lent groups.now firsts.now seconds.now weights.now owners.now others.now) in
        Wrote out.old at text out.new result }
{
    let next = put_line(out, at, &format_write::NODES, groups.len() as u64);
    let next = put_line(out, next, &format_write::LINKS, firsts.len() as u64);
    let next = put_groups(out, next, groups);
    let next = put_pairs(out, next, owners, others);
    put_edges(out, next, firsts, seconds, weights)
}
