// Whether a number of an STP text is free, and whether the digits read so far can go on to one that is.
ghost use Rattle.std.specs.Prelude.{◌≡◌};
ghost use Rattle.format_stp.specs.StpNumber.{is_free, leads_to, reaches, opens};

use base_buffer::at;

// From low to high, and of a junction that is in no group yet.
#[tactic(auto, unfolding(crate::specs::StpNumber::is_free))]
pub fn is_free(groups: &[u8], low: usize, high: usize, x: usize) -> bool
    ensures { result ≡ is_free groups.now low high x }
{
    low <= x && x <= high && at(groups, x.saturating_sub(1)) == 0
}

// The digits of v are those of x and at most so many more.
fn leads_to(more: usize, x: usize, v: usize) -> bool
    ensures { result ≡ leads_to more x v }
{
    let mut rest = v;
    for _left in (0..more).rev() {
        if x == rest {
            return true;
        }
        rest /= 10;
    }
    x == rest
}

// The number v is free, and begins with the digits of x.
#[tactic(auto, unfolding(crate::specs::StpNumber::reaches))]
fn reaches(groups: &[u8], low: usize, high: usize, more: usize, x: usize, v: usize) -> bool
    ensures { result ≡ reaches (is_free groups.now low high) more x v }
{
    is_free(groups, low, high, v) && leads_to(more, x, v)
}

// One of the numbers from 0 to high does; where x is free itself there is no need to look for one.
pub fn opens(groups: &[u8], low: usize, high: usize, more: usize, x: usize) -> bool
    ensures { result ≡ opens (is_free groups.now low high) high more x }
{
    if is_free(groups, low, high, x) {
        return true;
    }
    if reaches(groups, low, high, more, x, 0) {
        return true;
    }
    for i in 0..high {
        if reaches(groups, low, high, more, x, i + 1) {
            return true;
        }
    }
    false
}
