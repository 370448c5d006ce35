// Reading an input whole, or as much of it as there is room for.
#![tactic(auto)]

ghost use Rattle.std.specs.Prelude.{◌<◌, IfOk, length, take};
ghost use Rattle.std.specs.Io.{ReadsAtMost};
ghost use Rattle.std.specs.Io.KnownBytes.{Consumes, IsAtEnd};

#[cfg(test)]
mod tests;

use std::io;
use std::io::Read;

// Reads until `buf` is full or the input ends, whatever comes at a time, and returns how many bytes it put at the start of `buf`. It ends
// at the first read that fails, with its error.
pub fn read_full<R: Read>(reader: &mut R, buf: &mut [u8]) -> io::Result<usize>
    ensures bound { ReadsAtMost result buf.new }
    ensures bytes { IfOk result (λ n. Consumes (R.remaining reader.old) (R.remaining reader.new) (take n buf.new)) }
    ensures whole { IfOk result (λ n. n < length buf.new → IsAtEnd (R.remaining reader.new)) }
{
    // Counted by hand: each read says how many bytes it put, and std's own way to read to the end allocates.
    let mut done = 0;
    while done < buf.len() {
        let n = reader.read(&mut buf[done..])?;
        if n == 0 {
            break;
        }
        done += n;
    }
    Ok(done)
}
