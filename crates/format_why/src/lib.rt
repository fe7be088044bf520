// Reasons out: why a track has its mark, as lines of text. Definitions in specs/ReasonText and specs/Within.
// `print_reason` answers the text's length, or 7.
#![tactic(auto)]

ghost use Rattle.std.specs.Prelude.{◌≡◌, length};
ghost use Rattle.base_limits.specs.Limits.{why_room};

use base_limits::WHY_ROOM;

mod kept;
mod print;

pub use print::print_reason;

// A buffer that holds every reason within the limits (`reason_room`).
pub fn why_buffer() -> [u8; WHY_ROOM]
    ensures { length result ≡ why_room }
{
    [0; WHY_ROOM]
}
