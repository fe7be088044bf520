// How much of a buffer is printed: what is wanted, or all of it. Definitions in specs/.
ghost use Rattle.std.specs.Prelude.{◌≡◌};
ghost use Rattle.base_buffer.specs.Part.{at_most};

// As much as is wanted of a buffer, or all of it.
pub fn at_most(wanted: usize, room: usize) -> usize
    ensures { result ≡ at_most wanted room }
{
    wanted.min(room)
}
