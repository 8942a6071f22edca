//! Why a connection is closed.

use crate::sql_state::SqlState;
use copy_frames::FrameFault;
use std::alloc::{AllocError, AllocFailed};
use thiserror::Error;

/// Why the publisher's end of a connection is closed.
///
/// PostgreSQL 15, 55.4. Streaming Replication Protocol.
#[derive(Clone, Copy, Debug, PartialEq, Eq, Error)]
pub enum LinkFault {
    /// The length of a frame is more than 65,536.
    #[error("a frame is longer than the limit")]
    FrameTooLong,
    /// The length of a frame is less than 4, or a status is not 34 bytes long.
    #[error("the length of a frame is less than 4, or that of a status is not 34")]
    BadLength,
    /// A client may not send a frame of this kind, or a CopyData with this first byte, while a stream runs.
    #[error("a client cannot send a frame or data of kind {0} during a stream")]
    Unexpected(u8),
    /// The start is refused with an ErrorResponse with this code.
    #[error("the start is refused: {0:?}")]
    BadStart(SqlState),
    /// The flushed position of a status is after what was sent.
    #[error("a status confirms more than was sent")]
    StatusAhead,
    /// The connection was closed before.
    #[error("the connection is closed")]
    Closed,
    #[error("out of memory")]
    OutOfMemory,
}

impl From<AllocError> for LinkFault {
    ghost use Rattle.std.specs.Prelude.{◌≡◌};
    ghost use Rattle.copy_both.specs.declared.link_fault.LinkFault.TheVariants.{OutOfMemory};

    ghost from_gives = { λ _ fault. fault ≡ OutOfMemory };

    fn from(_: AllocError) -> LinkFault {
        LinkFault::OutOfMemory
    }
}

impl<T: Drop> From<AllocFailed<T>> for LinkFault {
    ghost use Rattle.std.specs.Prelude.{◌≡◌};
    ghost use Rattle.copy_both.specs.declared.link_fault.LinkFault.TheVariants.{OutOfMemory};

    ghost from_gives = { λ _ fault. fault ≡ OutOfMemory };

    fn from(_: AllocFailed<T>) -> LinkFault {
        LinkFault::OutOfMemory
    }
}

impl From<FrameFault> for LinkFault {
    ghost use Rattle.std.specs.Prelude.{◌≡◌};
    ghost use Rattle.copy_both.specs.Hearing.{link_fault};

    ghost from_gives = { λ fault made. made ≡ link_fault fault };

    fn from(fault: FrameFault) -> LinkFault {
        match fault {
            FrameFault::BadLength => LinkFault::BadLength,
            FrameFault::FrameTooLong => LinkFault::FrameTooLong,
            FrameFault::OutOfMemory => LinkFault::OutOfMemory,
        }
    }
}
