// The classes of a text's bytes.
ghost use Rattle.std.specs.Prelude.{◌≡◌};
ghost use Rattle.format_read.specs.Number.{class_of, is_digit, is_class};

use crate::Class;

pub fn class_of(b: u8) -> Class
    ensures { result ≡ class_of b }
{
    match b {
        b'0' => Class::Zero,
        b'1'..=b'9' => Class::Digit,
        b'\n' => Class::LineEnd,
        b',' => Class::Comma,
        b':' => Class::Colon,
        b'k' => Class::Keep,
        b'a' => Class::Also,
        _ => Class::Other,
    }
}

// A byte of this class stands at an offset.
pub fn class_from(text: &[u8], at: usize, kind: Class) -> bool
    ensures { result ≡ is_class text.now at kind }
{
    at < text.len() && class_of(text[at]) == kind
}

#[tactic(auto, unfolding(crate::specs::Number::is_digit))]
pub fn is_digit(kind: Class) -> bool
    ensures { result ≡ is_digit kind }
{
    matches!(kind, Class::Zero | Class::Digit)
}
