// Standard input and output (SPEC 12.8, 12.10). What the system reads and prints is in no contract, so these functions have no equation.
ghost use Rattle.std.specs.Prelude.{◌≡◌, ◌<◌, IfOk, length, take};
ghost use Rattle.std.specs.Io.{ReadsAtMost};
ghost use Rattle.std.specs.Io.KnownBytes.{Consumes, IsAtEnd};

use crate::walk;
use std::io::{Read, Result};

// Prints the text of a log, with one write.
pub fn print_text(rt: &impl Print, log: &[u8]) -> Result<()> {
    let mut out = [0; walk::TEXT_LENGTH];
    let count = walk::log_text(log, &mut out);
    rt.write_all(&out[..count])
}

// Reads until the buffer is full or the input ends: answers how many bytes it put at the start. They are the input's next ones, where those
// are known, and fewer than the buffer holds only where no more come. The loop is a `while`, since each read says how far it went.
pub fn read_full<R: Read>(input: &mut R, buffer: &mut [u8]) -> Result<usize>
    ensures most { ReadsAtMost result buffer.new }
    ensures bytes { IfOk result (λ n. Consumes (R.remaining input.old) (R.remaining input.new) (take n buffer.new)) }
    ensures whole { IfOk result (λ n. n < length buffer.new → IsAtEnd (R.remaining input.new)) }
{
    let mut done = 0;
    while done < buffer.len() {
        let got = input.read(&mut buffer[done..])?;
        if got == 0 {
            break;
        }
        done += got;
    }
    Ok(done)
}

// Prints the text of the log on standard input, of which the first 65,536 bytes are read: the text of longer input is theirs (`text_of_cut`),
// since the pairs are above 4,096 anyway.
pub fn walk_input(rt: &(impl Print + Input)) -> Result<()> {
    let mut input = io::large_buffer();
    let mut reader = rt.reader();
    let count = read_full(&mut reader, &mut input)?;
    print_text(rt, &input[..count])
}
