// The keys that the search for winners begins with. Definitions in specs/.
ghost use Rattle.std.specs.Prelude.{◌≡◌, length};
ghost use Rattle.base_buffer.specs.Store.{remade};
ghost use Rattle.plan_search.specs.Keys.{start_key, start_key_of};

use crate::NO_KEY;
use base_buffer::at;

// The key of an edge by the flags of its ends.
fn start_key(first: u8, second: u8, weight: u32) -> u64
    ensures { result ≡ start_key first second weight }
{
    let whole = 2 * u64::from(weight);
    if first == 1 {
        if second == 1 {
            return whole;
        }
        return 2 * whole;
    }
    if second == 1 {
        return 2 * whole;
    }
    NO_KEY
}

// The keys of all edges, where the flags tell which vertices are active.
pub fn start_keys(firsts: &[u32], seconds: &[u32], weights: &[u32], flags: &[u8], keys: &mut [u64])
    ensures { let key = start_key_of firsts.now seconds.now weights.now flags.now in
        keys.new ≡ remade (λ e x. key e) (length firsts.now) keys.old }
{
    for e in 0..firsts.len() {
        let first = at(flags, at(firsts, e) as usize);
        let second = at(flags, at(seconds, e) as usize);
        let key = start_key(first, second, at(weights, e));
        base_buffer::put(keys, e, key);
    }
}
