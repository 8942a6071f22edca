//! The input of the program.

ghost use Rattle.std.specs.Prelude.{◌≤◌};

use crate::reader::Reader;
use std::io;
use std::io::{ErrorKind, Read};

/// The most bytes that an input may have.
pub const MAX_INPUT: usize = 16_777_216;

/// An input: a reader that is read at most 16,777,217 times, once for each byte of the longest text and once for its
/// end. Its errors are `Interrupted`, after which it may be read again, and `Other`.
#[derive(Drop)]
pub struct Input<R> {
    reader: R,
    reads_left: usize,
    ghost bounded: { reads_left ≤ 16777217 },
}

impl<R: Read> Input<R> {
    ghost use Rattle.std.specs.Prelude.{◌≡◌};
    ghost use Rattle.commands.specs.Inputs.{reader_of, reads_of};

    /// The input that this reader gives.
    pub fn new(reader: R) -> Input<R>
        ensures reader { reader_of result ≡ reader }
        ensures reads { reads_of result ≡ 16777217 }
    {
        Input {
            reader,
            reads_left: MAX_INPUT + 1,
        }
    }
}

impl<R: Read> Read for Input<R> {
    ghost use Rattle.commands.specs.Inputs.{reader_of, reads_of};
    ghost use Rattle.std.specs.Prelude.{◌≡◌, ◌-◌, IsErr};
    ghost use Rattle.std.specs.Io.{ReadsAtMost};
    ghost use Rattle.std.specs.Io.KnownBytes.{ReadConsumes};

    ghost remaining = { λ input. R.remaining (reader_of input) };

    fn read(&mut self, buffer: &mut [u8]) -> io::Result<usize>
        ensures bound { ReadsAtMost result buffer.new }
        ensures bytes { ReadConsumes (R.remaining (reader_of self.old)) (R.remaining (reader_of self.new)) result
            buffer.new }
        ensures count { reads_of self.new ≡ reads_of self.old - 1 }
        ensures spent { reads_of self.old ≡ 0 → IsErr result }
        ensures unread { reads_of self.old ≡ 0 → reader_of self.new ≡ reader_of self.old }
    {
        if self.reads_left == 0 {
            return Err(io::Error::from(ErrorKind::Other));
        }
        self.reads_left -= 1;
        match self.reader.read(buffer) {
            Ok(count) => Ok(count),
            Err(error) if error.kind() == ErrorKind::Interrupted => Err(error),
            Err(_) => Err(io::Error::from(ErrorKind::Other)),
        }
    }
}

impl<R: Read> Reader for Input<R> {
    ghost use Rattle.std.specs.Prelude.{true};

    ghost may_fail = { true };

    fn read_piece(&mut self, piece: &mut [u8]) -> io::Result<usize> {
        self.read(piece)
    }
}
