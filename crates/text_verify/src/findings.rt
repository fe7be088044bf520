// Prints what a check that passes has found.
ghost use Rattle.std.specs.Prelude.{◌≡◌};
ghost use Rattle.format_print.specs.Print.{printed, printed_out};
ghost use Rattle.format_write.specs.Wrote.{Wrote};
ghost use Rattle.text_verify.specs.Output.{passed_text};

use format_print::Printed;
use format_write::{put_bytes, put_line};

// Writes `passed` and the lines of what was found.
fn put_passed(out: &mut [u8], at: usize, terminals: u64, cost: u64, bound: u64) -> usize
    ensures { Wrote out.old at (passed_text terminals cost bound) out.new result }
{
    let next = put_bytes(out, at, &format_write::PASSED);
    let next = put_line(out, next, &format_write::TERMINALS, terminals);
    let next = put_line(out, next, &format_write::COST, cost);
    put_line(out, next, &format_write::BOUND, bound)
}

// Prints them, where they fit.
pub fn print_passed(terminals: u64, cost: u64, bound: u64, out: &mut [u8]) -> Printed
    ensures value { result ≡ printed (passed_text terminals cost bound) out.old }
    ensures out_value { out.new ≡ printed_out (passed_text terminals cost bound) out.old }
{
    let need = put_passed(&mut out[0..0], 0, terminals, cost, bound);
    if out.len() < need {
        return Printed::Refused {
            number: 7,
            place: 0,
        };
    }
    Printed::Length(put_passed(out, 0, terminals, cost, bound))
}
