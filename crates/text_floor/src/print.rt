// The three lines of a floor.
ghost use Rattle.std.specs.Prelude.{◌≡◌, ◌++◌, ◌≤◌};
ghost use Rattle.format_write.specs.Key.{cost_key};
ghost use Rattle.format_write.specs.Text.{line_of};
ghost use Rattle.format_write.specs.Wrote.{Wrote};
ghost use Rattle.format_print.specs.Print.{printed, printed_out};
ghost use Rattle.floor_rule.specs.Ascent.{max_cost};
ghost use Rattle.text_floor.specs.Output.{floor_key, gap_key, floor_lines};

use crate::gap::gap_of;
use format_print::Printed;
use format_write::put_line;

// The keys of the lines.
pub const FLOOR: [u8; 6] = *b"floor=";

pub const GAP: [u8; 4] = *b"gap=";

fn put_floor(out: &mut [u8], at: usize, floor: u64, cost: u64, gap: u64) -> usize
    ensures { let lines = line_of floor_key floor ++ line_of cost_key cost ++ line_of gap_key gap in
        Wrote out.old at lines out.new result }
{
    let next = put_line(out, at, &FLOOR, floor);
    let next = put_line(out, next, &format_write::COST, cost);
    put_line(out, next, &GAP, gap)
}

// Prints the floor, the cost and the gap. The text is measured on an empty part of the buffer before it is written.
pub fn print_floor(floor: u64, cost: u64, out: &mut [u8]) -> Printed
    requires floor_le_cost { floor ≤ cost }
    requires cost_le_max_cost { cost ≤ max_cost }
    ensures value { result ≡ printed (floor_lines floor cost) out.old }
    ensures out_value { out.new ≡ printed_out (floor_lines floor cost) out.old }
{
    let gap = gap_of(floor, cost);
    let need = put_floor(&mut out[0..0], 0, floor, cost, gap);
    if out.len() < need {
        return Printed::Refused {
            number: 7,
            place: 0,
        };
    }
    Printed::Length(put_floor(out, 0, floor, cost, gap))
}
