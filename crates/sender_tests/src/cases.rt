//! What is done with publishers before they are closed, and how they are closed then.

use crate::cases::Step::{
    Commit, LoseFirst, LoseLast, LoseSeat, Read, Request, RequestConfirming, Reverse, Serve,
    ServeConfirming,
};
use senders::CloseError;
use senders::CloseError::{ConnectionMissing, CountDiffers, TakenDiffers};

/// What is done with a publisher, which has one session. Connections are of the first slot.
#[derive(Clone, Copy, Debug, PartialEq, Eq)]
pub(crate) enum Step {
    /// The session makes a commit with a row for each subscriber.
    Commit,
    /// The session reads a row 100,000 times.
    Read,
    /// A connection that starts where the slot is confirmed is served until it is finished. Its client confirms
    /// nothing.
    Serve,
    /// The same, but its client confirms the first commit.
    ServeConfirming,
    /// The client of the connection requests to start after the second commit, and confirms nothing.
    Request,
    /// The same, but it confirms the second commit.
    RequestConfirming,
    /// The results of the connections are put in the opposite order.
    Reverse,
    /// The result of the connection that started first is lost.
    LoseFirst,
    /// That of the one that started last is lost.
    LoseLast,
    /// The seat is lost.
    LoseSeat,
}

/// Steps, and why the publisher cannot be closed after them, with what is not lost; `None` if it can.
pub(crate) type Case = (&'static [Step], Option<CloseError>);

/// The cases, each for a publisher of its own.
pub(crate) const CASES: &[Case] = &[
    (&[], None),
    (&[Commit, Commit, Serve, Read], None),
    (&[Commit, Commit, Serve, LoseSeat], Some(CountDiffers)),
    (&[Commit, Serve, Commit], Some(TakenDiffers)),
    (&[Commit, ServeConfirming, Serve, Reverse], None),
    (
        &[Commit, ServeConfirming, Serve, LoseFirst],
        Some(ConnectionMissing),
    ),
    (
        &[Commit, ServeConfirming, Serve, LoseLast],
        Some(ConnectionMissing),
    ),
    (&[Commit, ServeConfirming], None),
    // A request accounts for the commits before its position, if its client then confirms them, too.
    (&[Commit, Commit, Request, Serve, Reverse], None),
    (&[Commit, Commit, Serve, Request, Reverse], None),
    (&[Commit, Commit, RequestConfirming], None),
    (&[Commit, Commit, RequestConfirming, Serve, Reverse], None),
    (&[Commit, Commit, ServeConfirming, Request, Serve], None),
];
