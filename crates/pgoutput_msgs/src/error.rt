//! Why bytes are not a message.

ghost use Rattle.std.specs.Prelude.{◌≡◌};
ghost use Rattle.pgoutput_msgs.specs.declared.error.MsgError.TheVariants.{OutOfMemory};

use std::alloc::{AllocError, AllocFailed};
use thiserror::Error;

/// Why bytes are not read as a message: the first fault from the left.
///
/// PostgreSQL 15, 55.9. Logical Replication Message Formats.
#[derive(Clone, Copy, Debug, PartialEq, Eq, Error)]
pub enum MsgError {
    /// This byte may not be here: it is not one of the letters of messages, of rows and of replica identities, of the
    /// kinds of a column's value, or of flags.
    #[error("a message cannot have the byte {0} here")]
    Unknown(u8),
    /// A value was not sent, because it is stored out of line and did not change (`u`).
    #[error("the message does not contain a value that did not change")]
    Toast,
    /// A count or a length is negative.
    #[error("a count or a length in the message is negative")]
    BadCount,
    /// The bytes end before the message does.
    #[error("the message is incomplete")]
    Short,
    /// A name or a text is not UTF-8.
    #[error("a text in the message is not UTF-8")]
    BadText,
    /// There are bytes after the message.
    #[error("there are bytes after the message")]
    Trailing,
    #[error("out of memory")]
    OutOfMemory,
}

impl From<AllocError> for MsgError {
    ghost from_gives = { λ _ e. e ≡ OutOfMemory };

    fn from(_: AllocError) -> MsgError {
        MsgError::OutOfMemory
    }
}

impl<T: Drop> From<AllocFailed<T>> for MsgError {
    ghost from_gives = { λ _ e. e ≡ OutOfMemory };

    fn from(_: AllocFailed<T>) -> MsgError {
        MsgError::OutOfMemory
    }
}
