// For each vertex the member of its group before it. Definitions in specs/.
ghost use Rattle.std.specs.Prelude.{◌≡◌, ◌+◌, ◌<◌, ◌^◌};
ghost use Rattle.base_finite.specs.Below.{tabulate};
ghost use Rattle.base_limits.specs.Limits.{max_vertices};
ghost use Rattle.survey_groups.specs.Mate.{mate_by, mate_of, last_in};

use base_buffer::{at, put};
use base_limits::{GROUP_NUMBERS, MAX_VERTICES};

// The member that was noted last, or v where none was.
fn mate(last: u32, v: u32) -> u32
    ensures { result ≡ mate_by last v }
{
    if last == 0 {
        return v;
    }
    last - 1
}

// Vertex v is the last member of its group so far.
fn note_last(last: &mut [u32; GROUP_NUMBERS], group: u8, v: u32)
    requires { v + 1 < 2 ^ 32 }
    ensures { last.new ≡ last_in last.old group v }
{
    if group == 0 {
        return;
    }
    put(last, usize::from(group), v + 1);
}

// Each vertex at its place.
fn own_mates() -> [u32; MAX_VERTICES]
    ensures { result ≡ tabulate max_vertices (λ v. v) }
{
    std::array::from_fn(|v| v as u32)
}

// The mates of all vertices; one that is the first of its group, or in none, is its own.
pub fn mates(groups: &[u8]) -> [u32; MAX_VERTICES]
    ensures { result ≡ tabulate max_vertices (mate_of groups.now) }
{
    let mut last = [0u32; GROUP_NUMBERS];
    let mut mates = own_mates();
    for v in 0..groups.len().min(MAX_VERTICES) {
        let group = base_buffer::at(groups, v);
        mates[v] = mate(at(&last, usize::from(group)), v as u32);
        note_last(&mut last, group, v as u32);
    }
    mates
}
