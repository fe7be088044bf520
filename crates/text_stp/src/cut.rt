// What reading the first bytes of a text says of the whole text.
ghost use Rattle.std.specs.Prelude.{◌≡◌};
ghost use Rattle.format_stp.specs.Answer.{stp_answer};
ghost use Rattle.text_stp.specs.StpOutput.{before_cut, judged};

use crate::STP_ROOM;
use format_stp::StpRead;

// Of a longer text: a refusal before the end of the bytes that were read stands; otherwise it is too long, 7.
fn before_cut(read: StpRead) -> StpRead
    ensures { stp_answer result ≡ before_cut (stp_answer read) }
{
    match read {
        StpRead::Refused { number, place } => {
            if place < STP_ROOM {
                return StpRead::Refused { number, place };
            }
            StpRead::Refused {
                number: 7,
                place: 0,
            }
        }
        StpRead::Survey {
            vertices: _,
            edges: _,
        } => StpRead::Refused {
            number: 7,
            place: 0,
        },
    }
}

// Of a text of this length, whose first bytes reading answers so.
pub fn judge(read: StpRead, length: usize) -> StpRead
    ensures { stp_answer result ≡ judged length (stp_answer read) }
{
    if STP_ROOM < length {
        return before_cut(read);
    }
    read
}
