// The number of a refusal of an STP text, where a text of our own has another.
ghost use Rattle.std.specs.Prelude.{◌≡◌};
ghost use Rattle.format_stp.specs.StpReading.{stp_number};

// A text of another form is refused with 20.
#[tactic(auto, unfolding(crate::specs::StpReading::stp_number))]
pub fn stp_number(number: u64) -> u64
    ensures { result ≡ stp_number number }
{
    if number == 16 {
        return 20;
    }
    number
}
