// The vertices that have a mate other than themselves, as a list. Definitions in specs/.
ghost use Rattle.std.specs.Prelude.{◌≡◌, cond, ◌+◌, ◌<◌, ◌^◌, set};
ghost use Rattle.base_finite.specs.Below.{counted, count_below};
ghost use Rattle.plan_active.specs.Flags.{has_mate, gathered};

use base_buffer::{at, put};
use base_limits::MAX_VERTICES;

// Vertex v is listed behind the others if it has a mate other than itself; answers how many are listed then.
fn list_vertex(
    mates: &[u32; MAX_VERTICES],
    members: &mut [u32; MAX_VERTICES],
    count: usize,
    v: u32,
) -> usize
    requires { count + 1 < 2 ^ 64 }
    ensures value { result ≡ count + counted (has_mate mates.now v) 1 }
    ensures members_value { members.new ≡ cond (has_mate mates.now v) (set members.old count v) members.old }
{
    if at(mates, v as usize) == v {
        return count;
    }
    put(members, count, v);
    count + 1
}

// The vertices below n that have a mate other than themselves, rising; answers how many they are.
pub fn list_members(mates: &[u32; MAX_VERTICES], members: &mut [u32; MAX_VERTICES], n: u32) -> usize
    ensures value { result ≡ count_below n (has_mate mates.now) }
    ensures members_value { members.new ≡ gathered (has_mate mates.now) n members.old }
{
    let mut count = 0;
    for v in 0..n {
        count = list_vertex(mates, members, count, v);
    }
    count
}
