//! The output of the program.

ghost use Rattle.std.specs.Prelude.{◌≡◌, false, true, MatchResult};
ghost use Rattle.std.specs.Io.KnownBytes.{Appends};
ghost use Rattle.commands.specs.Output.{WritesFirst};

use std::io::{ErrorKind, Write};

/// A write or a flush failed.
#[derive(Clone, Copy, Debug, Drop, PartialEq, Eq)]
pub struct WriteFault;

/// An output. `contents` are the bytes that it holds, if they are known, `has_failed` says whether a write or a flush
/// has failed, and `is_flushed` whether nothing was written since the last flush that succeeded.
pub trait Writer {
    ghost use Rattle.std.specs.Prelude.{◌≡◌, ℕ, Bool, false, true, List, Option, None, MatchResult, OnOk};
    ghost use Rattle.std.specs.Io.KnownBytes.{Appends, Keeps};
    ghost use Rattle.commands.specs.Output.{WritesFirst};

    ghost contents: { Self → Option (List ℕ) } = { λ _. None };

    ghost has_failed: { Self → Bool };

    ghost is_flushed: { Self → Bool };

    /// Writes a text.
    ///
    /// # Errors
    ///
    /// A write failed. A prefix of the text may have been written, and nothing else.
    fn write_text(&mut self, text: &str) -> Result<(), WriteFault>
        ensures bytes { MatchResult result (λ _. Appends (contents self.old) (contents self.new) text.now)
            (λ _. WritesFirst text.now (contents self.old) (contents self.new)) }
        ensures failed { MatchResult result (λ _. has_failed self.new ≡ has_failed self.old)
            (λ _. has_failed self.new ≡ true) }
        ensures unflushed { is_flushed self.new ≡ false };

    /// Flushes what was written.
    fn flush(&mut self) -> Result<(), WriteFault>
        ensures bytes { Keeps (contents self.old) (contents self.new) }
        ensures failed { MatchResult result (λ _. has_failed self.new ≡ has_failed self.old)
            (λ _. has_failed self.new ≡ true) }
        ensures flushed { OnOk result (is_flushed self.new ≡ true) };
}

/// A writer, whether a write or a flush of it has failed, and whether nothing was written since the last flush that
/// succeeded. A write that takes no byte is a failure; an interrupted one is repeated.
#[derive(Debug, Drop)]
pub struct Printer<W> {
    writer: W,
    failed: bool,
    flushed: bool,
}

impl<W: Write> Printer<W> {
    /// A writer that has not failed, and to which nothing was written.
    pub fn new(writer: W) -> Printer<W>
        ensures writer { result.writer ≡ writer }
        ensures failed { result.failed ≡ false }
        ensures flushed { result.flushed ≡ true }
    {
        Printer {
            writer,
            failed: false,
            flushed: true,
        }
    }
}

/// Writes a text. If this fails, a prefix of it may have been written.
fn try_write<W: Write>(text: &str, writer: &mut W) -> Result<(), WriteFault>
    ensures { MatchResult result (λ _. Appends (W.contents writer.old) (W.contents writer.new) text.now)
        (λ _. WritesFirst text.now (W.contents writer.old) (W.contents writer.new)) }
{
    let mut rest = text.as_bytes();
    for _ in 0..u64::MAX {
        if rest.is_empty() {
            return Ok(());
        }
        match writer.write(rest) {
            Ok(0) => return Err(WriteFault),
            Ok(count) => rest = &rest[count..],
            Err(error) if error.kind() == ErrorKind::Interrupted => {}
            Err(_) => return Err(WriteFault),
        }
    }
    Err(WriteFault)
}

impl<W: Write> Writer for Printer<W> {
    ghost contents = { λ printer. W.contents printer.writer };

    ghost has_failed = { λ printer. printer.failed };

    ghost is_flushed = { λ printer. printer.flushed };

    fn write_text(&mut self, text: &str) -> Result<(), WriteFault> {
        self.flushed = false;
        let written = try_write(text, &mut self.writer);
        if written.is_err() {
            self.failed = true;
        }
        written
    }

    fn flush(&mut self) -> Result<(), WriteFault> {
        match self.writer.flush() {
            Ok(()) => {
                self.flushed = true;
                Ok(())
            }
            Err(_) => {
                self.failed = true;
                Err(WriteFault)
            }
        }
    }
}
