//! Why a publisher cannot be closed.

use std::alloc::{AllocError, AllocFailed};
use thiserror::Error;

/// Why a publisher cannot be closed: what sessions were answered, or what connections took, is not what its log says.
#[derive(Clone, Copy, Debug, PartialEq, Eq, Error)]
pub enum CloseError {
    /// The log has another number of commits than the seats have receipts.
    #[error("the log has another number of commits than there are receipts")]
    CountDiffers,
    /// The receipts are not those of the log's commits, 1 to the last one, in increasing order in each seat: a number
    /// is above the log's length, is 0, occurs twice, or comes after a greater one of its seat; or a receipt's
    /// commands are refused after those before it, or are not what the log has.
    #[error("a commit of the log has no receipt")]
    ReceiptMissing,
    /// A reading is not the row of its key after its number of commits.
    #[error("a reading differs from what the commits left")]
    ReadingWrong,
    /// A connection that was finished stops before the log's end, or the commits that a connection took are not those
    /// that count as sent to its client.
    #[error("a connection took other commits than it was sent, or stops before the end of the log")]
    TakenDiffers,
    /// A stream acquired a slot, and its connection is not among those that were passed in.
    #[error("the result of a connection is missing")]
    ConnectionMissing,
    /// A stream started after a commit that was taken for no earlier connection of its slot whose client confirmed it,
    /// although neither its own client nor an earlier one of the slot requested a later position.
    #[error("a stream started after a commit that no client of its slot confirmed")]
    StartLate,
    /// In the end a slot is confirmed past a commit that was taken for no connection of the slot whose client confirmed
    /// it, although no client of the slot requested a later position.
    #[error("a slot is confirmed past a commit that no client of the slot confirmed")]
    SlotDiffers,
    /// An allocation was refused.
    #[error("out of memory")]
    OutOfMemory,
}

impl From<AllocError> for CloseError {
    ghost use Rattle.std.specs.Prelude.{◌≡◌};
    ghost use Rattle.senders.specs.declared.close_error.CloseError.TheVariants.{OutOfMemory};

    ghost from_gives = { λ _ fault. fault ≡ OutOfMemory };

    fn from(_: AllocError) -> CloseError {
        CloseError::OutOfMemory
    }
}

impl<T: Drop> From<AllocFailed<T>> for CloseError {
    ghost use Rattle.std.specs.Prelude.{◌≡◌};
    ghost use Rattle.senders.specs.declared.close_error.CloseError.TheVariants.{OutOfMemory};

    ghost from_gives = { λ _ fault. fault ≡ OutOfMemory };

    fn from(_: AllocFailed<T>) -> CloseError {
        CloseError::OutOfMemory
    }
}
