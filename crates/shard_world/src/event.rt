//! What happens in a world.

use pub_catalog::SubscriberNumber;
use table_changes::Command;

/// What happens on the connection of a subscriber.
///
/// PostgreSQL 15, 55.4. Streaming Replication Protocol.
#[derive(Clone, Copy, Debug, PartialEq, Eq)]
pub enum PeerEvent {
    /// The subscriber connects, and requests the stream from its position on.
    Open,
    /// The publisher hears the next bytes of the subscriber, at most `bytes`.
    Hear { bytes: usize },
    /// The publisher takes the next commit, and sends the messages that report it to the subscriber.
    Take,
    /// The publisher sends a keepalive, which may request a status.
    Keep { want: bool },
    /// The next bytes of the publisher, at most `bytes`, are delivered to the subscriber.
    Deliver { bytes: usize },
    /// The subscriber reports its position, and may request a keepalive.
    Report { want: bool },
    /// The connection is lost.
    Lose,
}

/// What happens in a world of a publisher and its subscribers.
#[derive(Debug, Drop, PartialEq, Eq)]
pub enum Event {
    /// These commands are committed as one transaction at this time, in microseconds since 2000-01-01.
    Commit {
        commands: Vec<Command>,
        time: u64,
    },
    /// Something happens on the connection of the subscriber with this number, from 0, which need not exist.
    On {
        subscriber: SubscriberNumber,
        event: PeerEvent,
    },
}
