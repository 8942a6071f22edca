//! Why a subscriber stops.

ghost use Rattle.std.specs.Prelude.{◌≡◌};
ghost use Rattle.test_subscriber.specs.declared.fault.SubFault.TheVariants.{OutOfMemory};

use copy_frames::FrameFault;
use pgoutput_msgs::MsgError;
use std::alloc::{AllocError, AllocFailed};
use thiserror::Error;

/// Why a subscriber stops. After each of these it is closed until it is opened again.
#[derive(Clone, Copy, Debug, PartialEq, Eq, Error)]
pub enum SubFault {
    /// The bytes cannot be cut into frames, or a frame of the stream is too short for what it carries by its kind.
    #[error("{0}")]
    Frame(FrameFault),
    /// The bytes are not a message of the protocol.
    #[error("{0}")]
    Msg(MsgError),
    /// A frame or a message that cannot come here: a change outside a transaction, a transaction within another, a
    /// Commit with another LSN than its Begin, or a Relation other than the one that was kept for its OID.
    #[error("unexpected frame or message")]
    OutOfPlace,
    /// A change of the table with this OID, whose Relation did not come on this connection.
    #[error("no Relation message was received on this connection for the OID {0}")]
    NoRelation(u32),
    /// A value that is not of its column's type, a row of another width, or a type other than the five types of
    /// columns.
    #[error("a value is not of its column's type")]
    BadValue,
    /// A new row has the values of another row in the columns of the replica identity.
    #[error("another row has the same values in the columns of the replica identity")]
    DuplicateKey,
    /// The publisher refused the start with this SQLSTATE.
    #[error("the publisher refused to start the stream")]
    Refused([u8; 5]),
    /// The connection is closed.
    #[error("the connection is closed")]
    Closed,
    #[error("out of memory")]
    OutOfMemory,
}

impl From<AllocError> for SubFault {
    ghost from_gives = { λ _ e. e ≡ OutOfMemory };

    fn from(_: AllocError) -> SubFault {
        SubFault::OutOfMemory
    }
}

impl<T: Drop> From<AllocFailed<T>> for SubFault {
    ghost from_gives = { λ _ e. e ≡ OutOfMemory };

    fn from(_: AllocFailed<T>) -> SubFault {
        SubFault::OutOfMemory
    }
}
