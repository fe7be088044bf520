// Writes the also lines of a survey's text.
ghost use Rattle.format_also.specs.Pair.{pair_of};
ghost use Rattle.format_also.specs.Render.{pair_text, pairs_text, pairs_from};
ghost use Rattle.format_write.specs.Wrote.{Wrote};

use format_write::{put, put_bytes, put_number};

// Writes the line of a pair.
fn put_pair(out: &mut [u8], at: usize, owner: u64, other: u64) -> usize
    ensures { Wrote out.old at (pair_text (pair_of owner other)) out.new result }
{
    let next = put_bytes(out, at, &format_write::ALSO);
    let next = put_number(out, next, owner);
    let next = put(out, next, b',');
    let next = put_number(out, next, other);
    put(out, next, b'\n')
}

// Writes the line of each pair; there are as many as owners.
pub fn put_pairs(out: &mut [u8], at: usize, owners: &[u32], others: &[u8]) -> usize
    ensures { Wrote out.old at (pairs_text (pairs_from owners.now others.now)) out.new result }
{
    let mut next = at;
    for (i, x) in owners.iter().enumerate() {
        let owner = u64::from(*x);
        let other = u64::from(base_buffer::at(others, i));
        next = put_pair(out, next, owner, other);
    }
    next
}
