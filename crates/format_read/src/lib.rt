// What reading a text is, for any text: steps, words, lines, items up to a stop (specs/Step, Language, Lines, Items),
// bytes and numbers (specs/Bytes, Number). Functions take fixed bytes, a number, a byte of a class or a line where a
// reader stands; each answers a value with the next cursor, or the refusal.
#![tactic(auto)]

ghost use Rattle.std.specs.Prelude.{◌≡◌, min};
ghost use Rattle.base_limits.specs.Limits.{max_digits};
ghost use Rattle.format_read.specs.Number.{is_class, class_step, number_at};
ghost use Rattle.format_read.specs.Bytes.{fixed_at};
ghost use Rattle.format_read.specs.Answer.{number_step};

use crate::classes::class_from;
use crate::digits::number_from;

mod classes;
mod digits;
mod line;

pub use line::{number_line, number_to};

#[derive(Clone, Copy)]
pub struct Cursor {
    pub at: usize,
}

// The classes of bytes that tell the parts of a line apart: the digit 0 and the others, what ends a line, what stands
// between values and behind one, and the letters with which the line of a kept track and an also line begin.
#[derive(Clone, Copy, PartialEq, Eq)]
pub enum Class {
    Zero,
    Digit,
    LineEnd,
    Comma,
    Colon,
    Keep,
    Also,
    Other,
}

// A number with the next cursor; 0 where what was read has no value.
#[derive(Clone, Copy)]
pub enum Number {
    Value { value: u64, next: Cursor },
    Refused { number: u64, place: usize },
}

// A text and how far it has been read. Each function over it takes it apart, for a function on the slice and the
// offset.
#[derive(Drop)]
pub struct Reader<'a> {
    pub text: &'a [u8],
    pub at: usize,
}

// Fixed bytes at an offset.
fn fixed_from(text: &[u8], from: usize, bytes: &[u8]) -> Number
    ensures { number_step result ≡ fixed_at bytes.now text.now from }
{
    let mut at = from;
    for b in bytes {
        if text.len() <= at || text[at] != *b {
            return Number::Refused {
                number: 16,
                place: at,
            };
        }
        at += 1;
    }
    Number::Value {
        value: 0,
        next: Cursor { at },
    }
}

// A reader that stands at an offset.
fn reader_at<'a>(text: &'a [u8], at: usize) -> Reader<'a>
    ensures { (result.text ≡ text.entry) × (result.at ≡ at) }
{
    Reader { text, at }
}

// Fixed bytes where a reader stands.
fn take_bytes<'a, 'b>(r: Reader<'a>, bytes: &'b [u8]) -> Number
    ensures { number_step result ≡ fixed_at bytes.now r.entry.text.now r.entry.at }
{
    fixed_from(r.text, r.at, bytes)
}

// The number of at most limit digits there.
fn take_number<'a>(r: Reader<'a>, limit: usize) -> Number
    ensures { number_step result ≡ number_at (min limit max_digits) r.entry.text.now r.entry.at }
{
    number_from(r.text, r.at, limit)
}

// A byte of this class stands there.
fn take_class<'a>(r: Reader<'a>, kind: Class) -> bool
    ensures { result ≡ is_class r.entry.text.now r.entry.at kind }
{
    class_from(r.text, r.at, kind)
}

// Fixed bytes at the cursor.
pub fn fixed(text: &[u8], cursor: Cursor, bytes: &[u8]) -> Number
    ensures { number_step result ≡ fixed_at bytes.now text.now cursor.at }
{
    take_bytes(reader_at(text, cursor.at), bytes)
}

// The number of at most limit digits at the cursor.
pub fn number_at(text: &[u8], cursor: Cursor, limit: usize) -> Number
    ensures { number_step result ≡ number_at (min limit max_digits) text.now cursor.at }
{
    take_number(reader_at(text, cursor.at), limit)
}

// A byte of this class stands at an offset.
pub fn is_class(text: &[u8], at: usize, kind: Class) -> bool
    ensures { result ≡ is_class text.now at kind }
{
    take_class(reader_at(text, at), kind)
}

// A byte of this class at the cursor.
pub fn class_step(text: &[u8], cursor: Cursor, kind: Class) -> Number
    ensures { number_step result ≡ class_step kind text.now cursor.at }
{
    let at = cursor.at;
    if is_class(text, at, kind) {
        return Number::Value {
            value: 0,
            next: Cursor { at: at + 1 },
        };
    }
    Number::Refused {
        number: 16,
        place: at,
    }
}
