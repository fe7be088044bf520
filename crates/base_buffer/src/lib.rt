// Lent buffers: reads and stores that are total, so that callers have no bound to show. Past the end a read gives 0 and
// a store does nothing. Definitions in specs/: Store (what a loop of stores leaves), Part (how much of a buffer is meant).
#![tactic(auto)]

ghost use Rattle.std.specs.Prelude.{◌≡◌, get_or, set};

mod part;

pub use part::at_most;

// A number of some width, and what a read past the end gives of it.
pub trait Width: Copy {
    ghost zero: { Self };

    fn zero() -> Self
        ensures { result ≡ zero };
}

impl Width for u8 {
    ghost zero = { 0 };

    fn zero() -> u8 {
        0
    }
}

impl Width for u32 {
    ghost zero = { 0 };

    fn zero() -> u32 {
        0
    }
}

impl Width for u64 {
    ghost zero = { 0 };

    fn zero() -> u64 {
        0
    }
}

// The number at i, or 0 past the end.
pub fn at<T: Width>(s: &[T], i: usize) -> T
    ensures { result ≡ get_or s.now i T.zero }
{
    if i < s.len() {
        return s[i];
    }
    T::zero()
}

// x at i; nothing past the end.
pub fn put<T: Copy>(s: &mut [T], i: usize, x: T)
    ensures { s.new ≡ set s.old i x }
{
    if i < s.len() {
        s[i] = x;
    }
}
