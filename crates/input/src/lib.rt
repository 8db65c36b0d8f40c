// What a reader, such as standard input or a file, holds.

#![tactic(auto)]

ghost use Rattle.std.specs.Prelude.{◌<◌, ◌≤◌, ◌≡◌, IfOk, length, take};
ghost use Rattle.std.specs.Io.KnownBytes.{Consumes, IsAtEnd};
ghost use Rattle.io.specs.Counts.{IsPrefixLen};
ghost use Rattle.input.specs.Counts.{count_of};

use std::io::Read;

// A read failed after so many bytes.
#[derive(Clone, Copy, Debug, PartialEq, Eq)]
pub struct CutShort {
    pub count: usize,
}

// Reads until the input ends, the buffer is full or a read fails; a read may bring any part. Where a reader's bytes are known, the buffer
// holds the first of them, and all where no read fails and there is room.
pub fn read_full<R: Read>(reader: &mut R, buffer: &mut [u8]) -> Result<usize, CutShort>
    ensures count { IsPrefixLen (count_of result) buffer.new }
    ensures bytes { Consumes (R.remaining reader.old) (R.remaining reader.new) (take (count_of result) buffer.new) }
    ensures whole { IfOk result (λ count. count < length buffer.new → IsAtEnd (R.remaining reader.new)) }
{
    let mut count: usize = 0;
    while count < buffer.len() {
        match reader.read(&mut buffer[count..]) {
            Err(_) => return Err(CutShort { count }),
            Ok(0) => return Ok(count),
            Ok(more) => count += more,
        }
    }
    Ok(count)
}

// Reads a book. The buffer has one byte more than the longest book, so that a longer one shows.
pub fn read_input<R: Read>(reader: &mut R, buffer: &mut [u8]) -> Result<usize, CutShort>
    requires { length buffer.old ≡ 65537 }
    ensures count { count_of result ≤ length buffer.new }
    ensures bytes { Consumes (R.remaining reader.old) (R.remaining reader.new) (take (count_of result) buffer.new) }
    ensures whole { IfOk result (λ count. count < length buffer.new → IsAtEnd (R.remaining reader.new)) }
{
    read_full(reader, buffer)
}
