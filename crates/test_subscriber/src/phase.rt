//! What a subscriber is ready for.

use tables_log::Lsn;

/// What a subscriber is ready for.
#[derive(Clone, Copy, Debug, PartialEq, Eq)]
pub(crate) enum Phase {
    /// Nothing: there is no connection.
    Shut,
    /// The answer to the command that starts the stream.
    Waiting,
    /// The next transaction.
    Idle,
    /// The changes of a transaction, whose Begin had this LSN.
    Busy(Lsn),
}
