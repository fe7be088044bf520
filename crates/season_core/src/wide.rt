// Products of two 64-bit numbers in two words, and ratios compared by them. Laws in specs/.
ghost use Rattle.std.specs.Prelude.{◌≡◌, ◌+◌, ◌*◌, ◌^◌, ltb};

// A number below this has half a word.
const HALF: u64 = 4294967296;

// high times 2^64, and low.
#[derive(Drop)]
pub struct Product {
    pub high: u64,
    pub low: u64,
}

// The whole product, by columns of half a word.
pub fn times(a: u64, b: u64) -> Product
    ensures { result.high * 2 ^ 64 + result.low ≡ a * b }
{
    let a1 = a / HALF;
    let a0 = a % HALF;
    let b1 = b / HALF;
    let b0 = b % HALF;
    let w0 = a0 * b0;
    let t = a1 * b0 + w0 / HALF;
    let w1 = a0 * b1 + t % HALF;
    let high = a1 * b1 + t / HALF + w1 / HALF;
    let low = w1 % HALF * HALF + w0 % HALF;
    Product { high, low }
}

// Whether a / b is above c / d, by their cross products.
pub fn above(a: u64, b: u64, c: u64, d: u64) -> bool
    ensures { result ≡ ltb (c * b) (a * d) }
{
    let x = times(a, d);
    let y = times(c, b);
    if y.high < x.high {
        return true;
    }
    if x.high < y.high {
        return false;
    }
    y.low < x.low
}
