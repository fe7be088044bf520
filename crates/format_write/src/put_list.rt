// Writes numbers with commas between.
ghost use Rattle.format_write.specs.Text.{listed};
ghost use Rattle.format_write.specs.Wrote.{Wrote, item_of};

use crate::{put, put_number};

// Writes a number of a list, with the comma before it unless it is the first.
pub fn put_item(out: &mut [u8], at: usize, first: bool, v: usize) -> usize
    ensures { Wrote out.old at (item_of first v) out.new result }
{
    if first {
        return put_number(out, at, v as u64);
    }
    let next = put(out, at, b',');
    put_number(out, next, v as u64)
}

// Writes numbers with commas between.
pub fn put_list(out: &mut [u8], at: usize, numbers: &[u32]) -> usize
    ensures { Wrote out.old at (listed numbers.now) out.new result }
{
    let mut next = at;
    for (i, number) in numbers.iter().enumerate() {
        next = put_item(out, next, i == 0, *number as usize);
    }
    next
}
