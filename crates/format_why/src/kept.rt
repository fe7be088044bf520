// Writes what a kept edge is needed for: a part of the text of its reason.
ghost use Rattle.format_write.specs.Wrote.{Wrote};
ghost use Rattle.format_why.specs.ReasonText.{route_line, kept_text};

use format_write::put_line;

// Writes the line of a route.
fn put_route(out: &mut [u8], at: usize, route: &[u32]) -> usize
    ensures { Wrote out.old at (route_line route.now) out.new result }
{
    let next = format_write::put_bytes(out, at, &format_write::ROUTE);
    let next = format_write::put_list::put_list(out, next, route);
    format_write::put(out, next, b'\n')
}

// Writes what a kept edge is needed for.
pub fn put_kept(out: &mut [u8], at: usize, group: u64, low: u64, high: u64, route: &[u32]) -> usize
    ensures { Wrote out.old at (kept_text group low high route.now) out.new result }
{
    let next = put_line(out, at, &format_write::GROUP, group);
    let next = put_line(out, next, &format_write::FROM, low);
    let next = put_line(out, next, &format_write::TO, high);
    put_route(out, next, route)
}
