// Where a number stands in a list.
ghost use Rattle.std.specs.Prelude.{◌≡◌, get_or, eqb};
ghost use Rattle.theory_route.specs.First.{first_below};

// The lowest of the first `count` places of a list at which x stands; `count` where it stands at none.
pub fn find_in(list: &[u32], count: usize, x: usize) -> usize
    ensures { result ≡ first_below count (λ i. eqb (get_or list.now i 0) x) }
{
    for i in 0..count {
        if base_buffer::at(list, i) as usize == x {
            return i;
        }
    }
    count
}
