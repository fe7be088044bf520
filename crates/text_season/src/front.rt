// Moves the rest of a buffer to its front.
ghost use Rattle.std.specs.Prelude.{◌≡◌, ◌+◌, ◌-◌, length, get_or};
ghost use Rattle.base_buffer.specs.Store.{remade};

// The bytes from `from` on go to the front, in order; those behind them stay.
pub fn to_front(bytes: &mut [u8], from: usize)
    ensures { bytes.new ≡ remade (λ i x. get_or bytes.old (from + i) 0) (length bytes.old - from) bytes.old }
{
    let n = bytes.len();
    if from <= n {
        bytes.copy_within(from..n, 0);
    }
}
