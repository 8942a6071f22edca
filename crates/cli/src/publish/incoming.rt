//! Lines, read as they arrive.

ghost use Rattle.std.specs.Prelude.{◌≡◌, ◌≤◌, ◌<◌, ◌==◌, length, position};

use commands::{Failure, InputFault, Reader};
use std::alloc::{AllocError, Global};
use std::io;
use std::io::ErrorKind;
use std::sync::Wait;

/// The most bytes that one read returns.
const PIECE: usize = 8_192;

/// A reader whose input is read line by line. `piece[start..end]` was read, and is in no line yet.
#[derive(Drop)]
pub(crate) struct LineReader<I> {
    reader: I,
    piece: Vec<u8>,
    start: usize,
    end: usize,
    ghost ordered: { start ≤ end },
    ghost bounded: { end ≤ length piece.items },
    ghost room: { 0 < length piece.items },
}

/// The place of the first newline.
fn newline_in(bytes: &[u8]) -> Option<usize>
    ensures { result ≡ position (λ byte. byte == 10) bytes.now }
{
    bytes.iter().position(|byte| *byte == b'\n')
}

impl<I: Reader> LineReader<I> {
    ghost use Rattle.std.specs.Prelude.{[], true, false, IfErr, IfOk, OnErr};
    ghost use Rattle.std.specs.Io.KnownBytes.{IsAtEnd, Keeps};
    ghost use Rattle.cli.specs.Incoming.{Moves, ahead_of, coming};
    ghost use Rattle.cli.specs.Lines.{IsNext, ReadsSome, StopsLine};

    /// The lines of this reader.
    pub(crate) fn new(alloc: Global, reader: I) -> Result<LineReader<I>, AllocError>
    where
        I: Drop,
        ensures { IfOk result (λ lines. coming I.remaining lines ≡ I.remaining reader) }
    {
        let mut piece = Vec::new(alloc);
        piece.resize(PIECE, 0)?;
        Ok(LineReader {
            reader,
            piece,
            start: 0,
            end: 0,
        })
    }

    /// Moves what was read to the end of a line, up to the next newline, which is dropped. Returns whether there is
    /// one.
    #[tactic(auto, using(crate::proofs::LineLemmas::plain_if_none))]
    fn take_line(&mut self, line: &mut Vec<u8>) -> Result<bool, AllocError>
        ensures moved { IfOk result (Moves (ahead_of self.old) (ahead_of self.new) line.old.items line.new.items) }
        ensures reader { self.new.reader ≡ self.old.reader }
        ensures kept { OnErr result (ahead_of self.new ≡ ahead_of self.old) }
        ensures line { OnErr result (line.new.items ≡ line.old.items) }
    {
        let ahead = &self.piece[self.start..self.end];
        match newline_in(ahead) {
            Some(at) => {
                line.extend_from_slice(&ahead[..at])?;
                self.start += at + 1;
                Ok(true)
            }
            None => {
                line.extend_from_slice(ahead)?;
                self.start = self.end;
                Ok(false)
            }
        }
    }

    /// Reads the next bytes, when all that was read is in lines. Returns whether there are any.
    fn read_more(&mut self) -> io::Result<bool>
        requires { ahead_of self.old ≡ [] }
        ensures kept { Keeps (coming I.remaining self.old) (coming I.remaining self.new) }
        ensures end { IfOk result (λ is_more. is_more ≡ false → IsAtEnd (coming I.remaining self.new)) }
        ensures fails { OnErr result (I.may_fail ≡ true) }
    {
        self.start = 0;
        self.end = 0;
        self.end = self.reader.read_piece(self.piece.as_mut_slice())?;
        Ok(0 < self.end)
    }

    /// Replaces `line` by the next line, without its newline. Returns whether there is one: what follows the last
    /// newline is none.
    ///
    /// # Errors
    ///
    /// `Input(Unread)` if the reader fails; `OutOfMemory`.
    #[tactic(auto, using(crate::proofs::Rules::line_turns))]
    pub(crate) fn next_line<'a, R: Wait>(
        &mut self,
        rt: &R,
        line: &mut Vec<u8>,
    ) -> Result<bool, Failure<'a>>
        ensures read { IfOk result (IsNext (coming I.remaining self.old) (coming I.remaining self.new) line.new.items) }
        ensures stopped { IfErr result (StopsLine I.may_fail) }
        ensures lost { OnErr result (ReadsSome (coming I.remaining self.old) (coming I.remaining self.new)) }
    {
        line.clear();
        for _ in rt.forever() {
            if self.take_line(line)? {
                return Ok(true);
            }
            match self.read_more() {
                Ok(true) => {}
                Ok(false) => return Ok(false),
                Err(error) => match error.kind() {
                    ErrorKind::Interrupted => {}
                    ErrorKind::OutOfMemory => return Err(Failure::OutOfMemory),
                    _ => return Err(Failure::Input(InputFault::Unread)),
                },
            }
        }
        unreachable!()
    }
}
