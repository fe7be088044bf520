// The arcs of a survey: number a below m is track a from its first to its second end, number m + e is track e from its
// second to its first.
ghost use Rattle.std.specs.Prelude.{◌≡◌};
ghost use Rattle.floor_rule.specs.Ascent.{arc_count, edge_of, tail_of, head_of, prices};

use base_buffer::{at, put};
use floor_rule::MAX_ARCS;

// The track of arc a.
fn edge_of(firsts: &[u32], a: usize) -> usize
    ensures { result ≡ edge_of firsts.now a }
{
    if a < firsts.len() {
        return a;
    }
    a - firsts.len()
}

pub fn tail_of(firsts: &[u32], seconds: &[u32], a: usize) -> usize
    ensures { result ≡ tail_of firsts.now seconds.now a }
{
    if a < firsts.len() {
        return at(firsts, a) as usize;
    }
    at(seconds, a - firsts.len()) as usize
}

pub fn head_of(firsts: &[u32], seconds: &[u32], a: usize) -> usize
    ensures { result ≡ head_of firsts.now seconds.now a }
{
    if a < firsts.len() {
        return at(seconds, a) as usize;
    }
    at(firsts, a - firsts.len()) as usize
}

// What each arc can bear at first.
pub fn prices(firsts: &[u32], weights: &[u32], arcs: usize) -> [u32; MAX_ARCS]
    requires { arcs ≡ arc_count firsts.now }
    ensures { result ≡ prices firsts.now weights.now }
{
    let mut rests = [0u32; MAX_ARCS];
    for a in 0..arcs {
        put(&mut rests, a, at(weights, edge_of(firsts, a)));
    }
    rests
}
