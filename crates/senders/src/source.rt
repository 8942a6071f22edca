//! What a connection is read from.

use crate::failed::Failed;
use std::io::{ErrorKind, Read};

/// What a connection is read from. `left` is the bytes that it will give, if they are known.
pub trait Source {
    ghost use Rattle.std.specs.Prelude.{◌≡◌, ◌<◌, ◌≤◌, ℕ, Bool, true, List, Option, None, length, IfOk, MatchResult};
    ghost use Rattle.std.specs.Io.KnownBytes.{IsAtEnd, Keeps};
    ghost use Rattle.senders.specs.Connections.{Gives, ended_by};

    ghost left: { Self → Option (List ℕ) } = { λ _. None };

    ghost has_failed: { Self → Bool };

    ghost has_ended: { Self → Bool };

    /// Fills the first bytes of `piece`, and returns how many. It fills none only if no byte is left, or if the piece
    /// has no room.
    ///
    /// # Errors
    ///
    /// `Failed`, and then no byte is lost.
    fn pull(&mut self, piece: &mut [u8]) -> Result<usize, Failed>
        ensures room { length piece.new ≡ length piece.old }
        ensures bound { IfOk result (λ count. count ≤ length piece.new) }
        ensures bytes { MatchResult result (Gives (left self.old) (left self.new) piece.new)
            (λ failed. Keeps (left self.old) (left self.new)) }
        ensures end { IfOk result (λ count. count ≡ 0 → 0 < length piece.new → IsAtEnd (left self.new)) }
        ensures failed { MatchResult result (λ count. has_failed self.new ≡ has_failed self.old)
            (λ failed. has_failed self.new ≡ true) }
        ensures ended { MatchResult result
            (λ count. has_ended self.new ≡ ended_by (has_ended self.old) count (length piece.new))
            (λ failed. has_ended self.new ≡ has_ended self.old) };

    /// Whether a pull has failed.
    fn failed(&self) -> bool
        ensures { result ≡ has_failed self.now };

    /// Whether a pull gave no byte although there was room for one.
    fn ended(&self) -> bool
        ensures { result ≡ has_ended self.now };
}

/// A reader as a source. A read that is interrupted is repeated.
#[derive(Debug, Drop)]
pub struct FromRead<R> {
    reader: R,
    failed: bool,
    ended: bool,
}

impl<R: Read> FromRead<R> {
    ghost use Rattle.std.specs.Prelude.{◌≡◌, false};

    /// The reader as a source that has neither failed nor ended.
    pub fn new(reader: R) -> FromRead<R>
        ensures reader { result.reader ≡ reader }
        ensures failed { result.failed ≡ false }
        ensures ended { result.ended ≡ false }
    {
        FromRead {
            reader,
            failed: false,
            ended: false,
        }
    }
}

impl<R: Read> Source for FromRead<R> {
    ghost left = { λ source. R.remaining source.reader };

    ghost has_failed = { λ source. source.failed };

    ghost has_ended = { λ source. source.ended };

    #[tactic(auto, using(crate::proofs::Rules::pulling))]
    fn pull(&mut self, piece: &mut [u8]) -> Result<usize, Failed> {
        for _ in 0..u64::MAX {
            match self.reader.read(piece) {
                Ok(count) => {
                    self.ended = self.ended || (count == 0 && !piece.is_empty());
                    return Ok(count);
                }
                Err(error) => {
                    if error.kind() != ErrorKind::Interrupted {
                        break;
                    }
                }
            }
        }
        self.failed = true;
        Err(Failed)
    }

    fn failed(&self) -> bool {
        self.failed
    }

    fn ended(&self) -> bool {
        self.ended
    }
}
