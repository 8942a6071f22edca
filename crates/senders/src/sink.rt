//! What a connection is written to.

use crate::failed::Failed;
use publisher_desk::Permit;
use std::io::{ErrorKind, Write};

/// What a connection is written to. `taken` is the bytes that it took, if they are known. `has_refused` is whether a
/// response to a start that was refused was ever pushed.
pub trait Sink {
    ghost use Rattle.std.specs.Prelude.{◌≡◌, ◌<◌, ◌≤◌, ℕ, Bool, true, List, Option, None, length, take, IfOk, MatchResult};
    ghost use Rattle.std.specs.Io.KnownBytes.{Appends, Keeps};

    ghost taken: { Self → Option (List ℕ) } = { λ _. None };

    ghost has_failed: { Self → Bool };

    ghost has_refused: { Self → Bool };

    /// Takes the first of the bytes of a stream, at least one, and returns how many it took. The bytes of a stream are
    /// pushed only while its slot is acquired: `permit` is that of the slot.
    ///
    /// # Errors
    ///
    /// `Failed`, and then no byte is taken.
    fn push(&mut self, bytes: &[u8], permit: &Permit) -> Result<usize, Failed>
        requires some { 0 < length bytes.now }
        ensures some { IfOk result (λ count. 0 < count) }
        ensures bound { IfOk result (λ count. count ≤ length bytes.now) }
        ensures bytes { MatchResult result (λ count. Appends (taken self.old) (taken self.new) (take count bytes.now))
            (λ failed. Keeps (taken self.old) (taken self.new)) }
        ensures failed { MatchResult result (λ count. has_failed self.new ≡ has_failed self.old)
            (λ failed. has_failed self.new ≡ true) }
        ensures refused { has_refused self.new ≡ has_refused self.old };

    /// Takes the first of the bytes of a response to a start that was refused, as `push` does those of a stream.
    ///
    /// # Errors
    ///
    /// `Failed`, and then no byte is taken.
    fn refuse(&mut self, bytes: &[u8]) -> Result<usize, Failed>
        requires some { 0 < length bytes.now }
        ensures some { IfOk result (λ count. 0 < count) }
        ensures bound { IfOk result (λ count. count ≤ length bytes.now) }
        ensures bytes { MatchResult result (λ count. Appends (taken self.old) (taken self.new) (take count bytes.now))
            (λ failed. Keeps (taken self.old) (taken self.new)) }
        ensures failed { MatchResult result (λ count. has_failed self.new ≡ has_failed self.old)
            (λ failed. has_failed self.new ≡ true) }
        ensures refused { has_refused self.new ≡ true };

    /// Whether a push has failed.
    fn failed(&self) -> bool
        ensures { result ≡ has_failed self.now };
}

/// A writer as a sink. A write that takes none of the bytes is a failure; one that is interrupted is repeated.
#[derive(Debug, Drop)]
pub struct ToWrite<W> {
    writer: W,
    failed: bool,
    refused: bool,
}

impl<W: Write> ToWrite<W> {
    ghost use Rattle.std.specs.Prelude.{◌≡◌, ◌<◌, ◌≤◌, false, true, length, take, IfOk, MatchResult};
    ghost use Rattle.std.specs.Io.KnownBytes.{Appends, Keeps};

    /// The writer as a sink that has not failed.
    pub fn new(writer: W) -> ToWrite<W>
        ensures writer { result.writer ≡ writer }
        ensures failed { result.failed ≡ false }
        ensures refused { result.refused ≡ false }
    {
        ToWrite {
            writer,
            failed: false,
            refused: false,
        }
    }

    /// Writes the first of the bytes, at least one, and returns how many were written.
    #[tactic(auto, using(crate::proofs::Rules::pushing))]
    fn write_some(&mut self, bytes: &[u8]) -> Result<usize, Failed>
        requires { 0 < length bytes.now }
        ensures some { IfOk result (λ count. 0 < count) }
        ensures bound { IfOk result (λ count. count ≤ length bytes.now) }
        ensures bytes { MatchResult result (λ count. Appends (W.contents self.old.writer)
            (W.contents self.new.writer) (take count bytes.now))
            (λ failed. Keeps (W.contents self.old.writer) (W.contents self.new.writer)) }
        ensures failed { MatchResult result (λ count. self.new.failed ≡ self.old.failed)
            (λ failed. self.new.failed ≡ true) }
        ensures refused { self.new.refused ≡ self.old.refused }
    {
        for _ in 0..u64::MAX {
            match self.writer.write(bytes) {
                Ok(0) => break,
                Ok(count) => return Ok(count),
                Err(error) => {
                    if error.kind() != ErrorKind::Interrupted {
                        break;
                    }
                }
            }
        }
        self.failed = true;
        Err(Failed)
    }
}

impl<W: Write> Sink for ToWrite<W> {
    ghost taken = { λ sink. W.contents sink.writer };

    ghost has_failed = { λ sink. sink.failed };

    ghost has_refused = { λ sink. sink.refused };

    fn push(&mut self, bytes: &[u8], _permit: &Permit) -> Result<usize, Failed> {
        self.write_some(bytes)
    }

    fn refuse(&mut self, bytes: &[u8]) -> Result<usize, Failed> {
        self.refused = true;
        self.write_some(bytes)
    }

    fn failed(&self) -> bool {
        self.failed
    }
}
