// What every program does around its one library function: it reads its input into a buffer of fixed size, and looks at
// its arguments. No heap is used.
#![tactic(auto)]

ghost use Rattle.std.specs.Prelude.{◌≡◌, ℕ, ◌^◌, ◌<◌, ◌≤◌, List, IfOk, IfSome, OnOk, length, take};
ghost use Rattle.std.specs.Io.{ReadsAtMost};
ghost use Rattle.std.specs.Io.KnownBytes.{Consumes, IsAtEnd};
ghost use Rattle.format_print.specs.Print.{printed, printed_out};
ghost use Rattle.program_io.specs.Prints.{PrintsWithin, WritesPrinted};

use format_print::Printed;
use std::env::FillError;
use std::io;
use std::io::{Read, Write};
use std::rt::Env;

// Reads until the buffer is full or the input ends, and says how many bytes were put at its start. Of a reader whose
// bytes are known, those are its first bytes, and all of them where the buffer was not filled.
pub fn read_full<R: Read>(reader: &mut R, buf: &mut [u8]) -> io::Result<usize>
    ensures bound { ReadsAtMost result buf.new }
    ensures bytes { IfOk result (λ n. Consumes (R.remaining reader.old) (R.remaining reader.new) (take n buf.new)) }
    ensures end { IfOk result (λ n. n < length buf.new → IsAtEnd (R.remaining reader.new)) }
    ensures first { IfOk result (λ n. IfSome (R.remaining reader.old) (λ xs. take n buf.new ≡ take (length buf.old) xs)) }
{
    let mut done = 0;
    // Stays a while: the step is what each call of `read` answers.
    while done < buf.len() {
        let n = reader.read(&mut buf[done..])?;
        if n == 0 {
            break;
        }
        done += n;
    }
    Ok(done)
}

// Writes the text that a print call put at the start of a buffer; nothing where the call refused.
pub fn write_printed<W: Write>(told: Printed, out: &[u8], output: &mut W) -> io::Result<()>
    ensures { OnOk result (WritesPrinted told out.now (W.contents output.old) (W.contents output.new)) }
{
    let Printed::Length(n) = told else {
        return Ok(());
    };
    if out.len() < n {
        return Ok(());
    }
    output.write_all(&out[..n])
}

// What a program prints of the text that it reads.
pub trait Answers {
    ghost output: { List ℕ → List ℕ };

    fn answer(text: &[u8], out: &mut [u8]) -> Printed
        ensures value { result ≡ printed (output text.now) out.old }
        ensures out_value { out.new ≡ printed_out (output text.now) out.old };
}

// Reads the first ROOM bytes of the input and writes what the program prints of them, where that fits SPACE bytes.
pub fn answer_input<A: Answers, R: Read, W: Write, const ROOM: usize, const SPACE: usize>(
    input: &mut R,
    output: &mut W,
) -> io::Result<()>
    requires room_bound { ROOM < 2 ^ 63 }
    requires space_bound { SPACE < 2 ^ 63 }
    ensures { OnOk result (PrintsWithin ROOM A.output SPACE (R.remaining input.old) (W.contents output.old) (W.contents output.new)) }
{
    let mut bytes = [0u8; ROOM];
    let got = read_full(input, &mut bytes)?;
    let mut out = [0u8; SPACE];
    let told = A::answer(&bytes[..got], &mut out);
    write_printed(told, &out, output)
}

// Puts an argument of the program at the start of the buffer and says its length; 0 where there is no such argument or
// it is longer than the buffer.
pub fn argument<R: Env>(rt: &R, i: usize, buf: &mut [u8]) -> usize
    ensures { result ≤ length buf.new }
{
    rt.arg(i, buf).unwrap_or(0)
}

// How many arguments the program was started with, its own name among them; `most` stands for every higher number.
pub fn argument_count<R: Env>(rt: &R, most: usize) -> usize
    ensures { result ≤ most }
{
    for count in 0..most {
        if !has_argument(rt, count) {
            return count;
        }
    }
    most
}

fn has_argument<R: Env>(rt: &R, i: usize) -> bool {
    let mut first = [0u8; 1];
    !matches!(rt.arg(i, &mut first), Err(FillError::NotPresent))
}
