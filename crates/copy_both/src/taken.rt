//! The result of taking the next commit.

use tables_log::CommitNumber;

/// The result of taking the next commit of the log on a connection.
#[derive(Clone, Copy, Debug, PartialEq, Eq)]
pub enum Taken {
    /// The stream has not started.
    NotStarted,
    /// The log has no further commit.
    Idle,
    /// The commit with this number has no change for the subscriber.
    Skipped(CommitNumber),
    /// The messages of the commit with this number are in the output.
    Sent(CommitNumber),
}
