//! The answers to events.

use tables_log::{CommitError, CommitNumber};

/// The answer to an event, or to a pump.
#[derive(Clone, Copy, Debug, PartialEq, Eq)]
pub enum Answer {
    /// The commit has this number, from 1.
    Committed(CommitNumber),
    /// The commit is refused, and nothing changes.
    Refused(CommitError),
    /// There is no subscriber with this number, and nothing changes.
    NoSubscriber,
    /// The subscriber has no connection, and nothing changes.
    NotOpen,
    /// The subscriber already has a connection, and nothing changes.
    AlreadyOpen,
    /// The subscriber has a new connection.
    Opened,
    /// The publisher heard this number of bytes.
    Heard(usize),
    /// The stream has not started, and nothing changes.
    NotStarted,
    /// The publisher has no further commit to take, and nothing changes.
    Idle,
    /// The commit with this number has no change for the subscriber.
    Skipped(CommitNumber),
    /// The messages that report the commit with this number to the subscriber wait to be delivered.
    Sent(CommitNumber),
    /// A keepalive waits to be delivered.
    Kept,
    /// This number of bytes was delivered to the subscriber.
    Delivered(usize),
    /// A status waits to be heard.
    Reported,
    /// The connection is lost.
    Lost,
    /// The subscriber is at this position, in bytes, and has all that was committed.
    At(u64),
    /// Memory was refused: the connection is lost, after some of the bytes were heard or delivered.
    OutOfMemory,
}
