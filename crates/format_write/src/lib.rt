// The keys of the texts, each in this one place (specs/Key), the text of a plan, its numbers and lines (specs/Text,
// specs/Decimal), and what writing into a lent buffer leaves (specs/Wrote). Functions write bytes, numbers and lines as
// far as the buffer reaches, and answer the next place.
#![tactic(auto)]

ghost use Rattle.std.specs.Prelude.{◌≡◌, ◌∷◌, [], ◌%◌};
ghost use Rattle.format_write.specs.Decimal.{digit, decimal};
ghost use Rattle.format_write.specs.Text.{line_of};
ghost use Rattle.format_write.specs.Wrote.{Wrote};

pub mod put_list;

// A survey's text: the two counts, a vertex's group, a further group of a vertex, an edge.
pub const NODES: [u8; 6] = *b"nodes=";

pub const LINKS: [u8; 6] = *b"links=";

pub const NODE: [u8; 5] = *b"node=";

pub const ALSO: [u8; 5] = *b"also=";

pub const LINK: [u8; 5] = *b"link=";

// A printed plan: the terminals, the cost, the dual bound, the rounds, a kept edge, a dual.
pub const TERMINALS: [u8; 6] = *b"sites=";

pub const COST: [u8; 5] = *b"cost=";

pub const BOUND: [u8; 6] = *b"bound=";

pub const ROUNDS: [u8; 7] = *b"rounds=";

pub const KEPT: [u8; 5] = *b"keep=";

pub const DUAL: [u8; 5] = *b"moat=";

// A printed reason: the edge and its mark; the group that needs it, the two vertices, their route; the round.
pub const TRACK: [u8; 6] = *b"track=";

pub const MARK: [u8; 5] = *b"mark=";

pub const GROUP: [u8; 6] = *b"group=";

pub const FROM: [u8; 5] = *b"from=";

pub const TO: [u8; 3] = *b"to=";

pub const ROUTE: [u8; 6] = *b"route=";

pub const ROUND: [u8; 6] = *b"round=";

// A printed refusal: its number and its place.
pub const REFUSED: [u8; 8] = *b"refused=";

pub const PLACE: [u8; 6] = *b"place=";

// The line with which `verify` begins where a plan passes.
pub const PASSED: [u8; 7] = *b"passed\n";

// A place past the length of every buffer.
const FARTHEST: usize = 9223372036854775808;

// Writes a byte where there is room, and gives the place behind it. The writers below are made of it.
pub fn put(out: &mut [u8], at: usize, b: u8) -> usize
    ensures { Wrote out.old at (b ∷ []) out.new result }
{
    base_buffer::put(out, at, b);
    if at < FARTHEST {
        return at + 1;
    }
    at
}

// Writes bytes one after another.
pub fn put_bytes(out: &mut [u8], at: usize, bytes: &[u8]) -> usize
    ensures { Wrote out.old at bytes.now out.new result }
{
    let mut next = at;
    for b in bytes {
        next = put(out, next, *b);
    }
    next
}

// The last decimal digit.
fn last_digit(x: u64) -> u8
    ensures { result ≡ digit (x % 10) }
{
    b'0' + (x % 10) as u8
}

// Writes a number in decimal.
pub fn put_number(out: &mut [u8], at: usize, x: u64) -> usize
    ensures { Wrote out.old at (decimal x) out.new result }
{
    if x < 10 {
        return put(out, at, last_digit(x));
    }
    let next = put_number(out, at, x / 10);
    put(out, next, last_digit(x))
}

// Writes a line key=number.
pub fn put_line(out: &mut [u8], at: usize, key: &[u8], x: u64) -> usize
    ensures { Wrote out.old at (line_of key.now x) out.new result }
{
    let next = put_bytes(out, at, key);
    let next = put_number(out, next, x);
    put(out, next, b'\n')
}
