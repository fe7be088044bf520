// Writes the line of a moat record.
ghost use Rattle.std.specs.Prelude.{◌≡◌, ◌&&◌, not};
ghost use Rattle.format_record.specs.Record.{member_in};
ghost use Rattle.format_write.specs.Text.{listed, members_of, dual_line};
ghost use Rattle.format_write.specs.Wrote.{Wrote, member_text, begins_zero};

use format_write::put_list::put_item;
use format_write::{put, put_bytes, put_number};

// Where a list of numbers goes on, and whether it is still empty.
#[derive(Drop)]
pub struct Listing {
    at: usize,
    first: bool,
}

// Writes v if it is a member of the record.
fn put_member(out: &mut [u8], list: Listing, part: &[u8], v: usize) -> Listing
    ensures fact { let text = member_text list.first (member_in part.now v) v in
        Wrote out.old list.at text out.new result.at }
    ensures first_value { result.first ≡ (list.first && not (member_in part.now v)) }
{
    if !format_record::member(part, v) {
        return list;
    }
    let at = list.at;
    let first = list.first;
    let next = put_item(out, at, first, v);
    Listing {
        at: next,
        first: false,
    }
}

// Whether v is the first number of a byte of members that is 0.
fn begins_zero(part: &[u8], v: usize) -> bool
    ensures { result ≡ begins_zero part.now v }
{
    if 0 < v % 8 {
        return false;
    }
    base_buffer::at(part, base_limits::VALUE_BYTES + v / 8) == 0
}

// Writes the members of a record, rising. A byte without members is passed over whole.
fn put_members(out: &mut [u8], at: usize, part: &[u8]) -> usize
    ensures { Wrote out.old at (listed (members_of part.now)) out.new result }
{
    let mut list = Listing { at, first: true };
    let mut v = 0;
    // Stays a while: the step is no constant, 8 past a byte without members and else 1.
    while v < 8 * base_limits::MEMBER_BYTES {
        if begins_zero(part, v) {
            v += 8;
        } else {
            list = put_member(out, list, part, v);
            v += 1;
        }
    }
    list.at
}

// Writes the line of a record.
pub fn put_dual(out: &mut [u8], at: usize, part: &[u8]) -> usize
    ensures { Wrote out.old at (dual_line part.now) out.new result }
{
    let next = put_bytes(out, at, &format_write::DUAL);
    let next = put_number(out, next, format_record::value(part));
    let next = put(out, next, b':');
    let next = put_members(out, next, part);
    put(out, next, b'\n')
}
