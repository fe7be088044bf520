// Reads the beginning of an STP text: the header, at most one comment section, and the line that begins the graph; and
// the empty lines and fixed lines of which a text has many.
ghost use Rattle.std.specs.Prelude.{◌≡◌, cond, ◌&&◌, ◌+◌, eqb, drop};
ghost use Rattle.format_write.specs.Key.{newline};
ghost use Rattle.format_read.specs.Answer.{number_step};
ghost use Rattle.format_stp.specs.StpWord.{empty_lines, shown, comment_at};
ghost use Rattle.format_stp.specs.StpReading.{stp_line, comment_section, graph_section, stp_head};

use format_read::{Cursor, Number, fixed};

// The fixed words of this part.
const HEADER: [u8; 42] = *b"33D32945 STP File, STP Format Version 1.0\n";

const SECTION: [u8; 8] = *b"SECTION ";

const COMMENT_REST: [u8; 7] = *b"omment\n";

const GRAPH: [u8; 14] = *b"SECTION Graph\n";

const GRAPH_REST: [u8; 5] = *b"raph\n";

// The cursor behind empty lines.
pub fn skip(text: &[u8], cursor: Cursor) -> Cursor
    ensures { result.at ≡ cursor.at + empty_lines (drop cursor.at text.now) }
{
    for at in cursor.at..text.len() {
        if text[at] != b'\n' {
            return Cursor { at };
        }
    }
    Cursor {
        at: cursor.at.max(text.len()),
    }
}

// A fixed line, behind empty lines.
pub fn line(text: &[u8], cursor: Cursor, bytes: &[u8]) -> Number
    ensures { number_step result ≡ stp_line bytes.now text.now cursor.at }
{
    fixed(text, skip(text, cursor), bytes)
}

// So much was shown, and this letter follows.
fn is_pair(seen: usize, b: u8, wanted: usize, letter: u8) -> bool
    ensures { result ≡ (eqb seen wanted && eqb b letter) }
{
    seen == wanted && b == letter
}

// How much of END a comment's line has shown after one more byte, which may end it.
fn shown_by(seen: usize, b: u8) -> usize
    ensures { result ≡ cond (eqb b newline) 0 (shown seen b) }
{
    if b == b'\n' {
        return 0;
    }
    if is_pair(seen, b, 0, b'E') {
        return 1;
    }
    if is_pair(seen, b, 1, b'N') {
        return 2;
    }
    if is_pair(seen, b, 2, b'D') {
        return 3;
    }
    4
}

// The lines of a comment, to the first that is END.
fn comment(text: &[u8], cursor: Cursor) -> Number
    ensures { number_step result ≡ comment_at text.now cursor.at }
{
    let mut seen = 0;
    for at in cursor.at..text.len() {
        let b = text[at];
        if is_pair(seen, b, 3, b'\n') {
            return Number::Value {
                value: 0,
                next: Cursor { at: at + 1 },
            };
        }
        seen = shown_by(seen, b);
    }
    Number::Refused {
        number: 16,
        place: cursor.at.max(text.len()),
    }
}

// A comment behind its letter, and the line that begins the graph.
fn comment_section(text: &[u8], cursor: Cursor) -> Number
    ensures { number_step result ≡ comment_section text.now cursor.at }
{
    let one = fixed(text, cursor, &COMMENT_REST);
    let Number::Value { value: _, next: a } = one else {
        return one;
    };
    let two = comment(text, a);
    let Number::Value { value: _, next: b } = two else {
        return two;
    };
    line(text, b, &GRAPH)
}

// Behind the word SECTION: a comment and the graph, or the graph.
fn graph_section(text: &[u8], cursor: Cursor) -> Number
    ensures { number_step result ≡ graph_section text.now cursor.at }
{
    let at = cursor.at;
    let letter = base_buffer::at(text, at);
    if letter == b'C' {
        return comment_section(text, Cursor { at: at + 1 });
    }
    if letter == b'G' {
        return fixed(text, Cursor { at: at + 1 }, &GRAPH_REST);
    }
    Number::Refused {
        number: 16,
        place: at,
    }
}

// From the header to the line that begins the graph.
pub fn head(text: &[u8]) -> Number
    ensures { number_step result ≡ stp_head text.now 0 }
{
    let one = fixed(text, Cursor { at: 0 }, &HEADER);
    let Number::Value { value: _, next: a } = one else {
        return one;
    };
    let two = line(text, a, &SECTION);
    let Number::Value { value: _, next: b } = two else {
        return two;
    };
    graph_section(text, b)
}
