// Reading an input as far as a buffer has room.
ghost use Rattle.std.specs.Prelude.{◌≤◌, length, take};
ghost use Rattle.std.specs.Io.KnownBytes.{Consumes};

use std::io::Read;

// Reads until the buffer is full, the input ends or a read fails. Answers how many bytes it put at the buffer's front. For no room nothing is read.
pub(crate) fn read_full<R: Read>(input: &mut R, buffer: &mut [u8]) -> usize
    ensures count { result ≤ length buffer.new }
    ensures bytes { Consumes (R.remaining input.old) (R.remaining input.new) (take result buffer.new) }
{
    let mut done: usize = 0;
    // No `for`: a read brings any number of bytes.
    while done < buffer.len() {
        match input.read(&mut buffer[done..]) {
            Ok(0) => break,
            Ok(n) => done += n,
            Err(_) => break,
        }
    }
    done
}
