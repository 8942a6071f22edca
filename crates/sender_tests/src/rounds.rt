//! What a session and two clients do in turn, in the rounds of a test.

use copy_both::LinkFault;
use senders::End;

/// A round, in which a session acts, and tells the clients when they say their lines.
#[derive(Clone, Copy, Debug, PartialEq, Eq)]
pub(crate) enum Round {
    /// No round: sessions and clients continue by themselves.
    Free,
    /// Both clients report what they have, ask for replies, and leave. The first one is sent the first commit alone.
    Reports,
    /// The first client comes again. While its sender is held it asks for a reply, and reports a commit of the log that
    /// it was not sent.
    Ahead,
    /// Both come again. The first one says all that it has to say at once.
    AtOnce,
    /// Both come again, and leave when the publisher is finished.
    Last,
}

/// What a session does.
#[derive(Clone, Copy, Debug, PartialEq, Eq)]
pub(crate) enum Act {
    /// Lets the client of the slot say its next line.
    Cue(usize),
    /// Waits until the client of the slot has got so much: 1 at the start of its stream, and after a commit 1 more than
    /// its number.
    Got(usize, u64),
    /// Waits until the client of the slot has heard so many keepalives.
    Heard(usize, u64),
    /// Waits until the sender of the slot has come to its gate so often.
    AtGate(usize, u64),
    /// Makes a commit with a row for each client.
    CommitBoth,
    /// Makes a commit with a row for the second client.
    CommitSecond,
    /// Waits until the connection of the slot has ended.
    Ended(usize),
    /// Opens the gate that is shut.
    Open,
    /// Finishes the publisher, and gives the senders some time to see it.
    Finish,
}

/// What a client says. Positions are those that it reports as flushed.
#[derive(Clone, Copy, Debug, PartialEq, Eq)]
pub(crate) enum Phrase {
    Start,
    Status(u64),
    /// A status that asks for a reply.
    Request(u64),
    Done,
    Terminate,
}

/// The lines of a client, each of which it sends when it is asked to. An empty line closes its side.
type Lines = &'static [&'static [Phrase]];

/// What came of a connection: where its stream started, why it ended, how many keepalives it was sent, how often its
/// sender came to its gate, and whether CopyDone was written last.
#[derive(Clone, Copy, Debug, PartialEq, Eq)]
pub(crate) struct Outcome {
    pub(crate) start: Option<u64>,
    pub(crate) end: End,
    pub(crate) replies: u64,
    pub(crate) gates: u64,
    pub(crate) is_done: bool,
}

const REPORTS: &[Act] = &[
    Act::Cue(0),
    Act::Cue(1),
    Act::Got(0, 1),
    Act::Got(1, 1),
    Act::CommitBoth,
    Act::Got(0, 2),
    Act::Got(1, 2),
    Act::Cue(0),
    Act::Cue(0),
    Act::Heard(0, 1),
    Act::Cue(1),
    Act::CommitSecond,
    Act::Got(1, 3),
    Act::Cue(1),
    Act::Heard(1, 1),
    Act::Cue(0),
    Act::Heard(0, 2),
    Act::Cue(0),
    Act::Heard(0, 3),
    Act::Cue(1),
];

const FIRST_REPORTS: Lines = &[
    &[Phrase::Start],
    &[Phrase::Status(128)],
    &[Phrase::Request(128)],
    &[Phrase::Request(64)],
    &[Phrase::Request(128), Phrase::Done],
];

const SECOND_REPORTS: Lines = &[
    &[Phrase::Start],
    &[Phrase::Status(128)],
    &[Phrase::Request(192)],
    &[],
];

const AHEAD: &[Act] = &[
    Act::CommitBoth,
    Act::CommitSecond,
    Act::Cue(0),
    Act::AtGate(0, 1),
    Act::Cue(0),
    Act::Cue(0),
    Act::Ended(0),
    Act::Open,
];

const AHEAD_LINES: Lines = &[
    &[Phrase::Start],
    &[Phrase::Request(128)],
    &[Phrase::Status(320)],
];

const AT_ONCE: &[Act] = &[Act::Cue(0), Act::Cue(1), Act::Got(1, 5), Act::Cue(1)];

const LAST: &[Act] = &[
    Act::Cue(0),
    Act::Cue(1),
    Act::Got(0, 4),
    Act::Got(1, 5),
    Act::Cue(1),
    Act::Finish,
    Act::Cue(0),
    Act::Cue(1),
];

impl Round {
    /// What the session does.
    pub(crate) fn acts(self) -> &'static [Act] {
        match self {
            Round::Free => &[],
            Round::Reports => REPORTS,
            Round::Ahead => AHEAD,
            Round::AtOnce => AT_ONCE,
            Round::Last => LAST,
        }
    }

    /// What the client of the slot says.
    pub(crate) fn lines(self, slot: usize) -> Lines {
        match (self, slot) {
            (Round::Reports, 0) => FIRST_REPORTS,
            (Round::Reports, 1) => SECOND_REPORTS,
            (Round::Ahead, 0) => AHEAD_LINES,
            (Round::AtOnce, 0) => &[&[Phrase::Start, Phrase::Request(128), Phrase::Done]],
            (Round::AtOnce, 1) => &[&[Phrase::Start], &[Phrase::Terminate]],
            (Round::Last, 0) => &[&[Phrase::Start], &[Phrase::Done]],
            (Round::Last, 1) => &[&[Phrase::Start], &[Phrase::Status(320)], &[]],
            _ => &[],
        }
    }

    /// What is wanted of the connection of the slot. Each starts where its slot is confirmed.
    pub(crate) fn wanted(self, slot: usize) -> Outcome {
        let (start, replies, gates, is_done) = match (self, slot) {
            (Round::Reports, 0) => (0, 3, 1, true),
            (Round::Reports, _) => (0, 1, 2, false),
            (Round::Ahead, _) => (128, 1, 1, false),
            (Round::AtOnce, 0) => (128, 1, 0, true),
            (Round::AtOnce, _) => (192, 0, 2, false),
            (Round::Last, 0) => (128, 0, 1, true),
            (Round::Last, _) => (192, 0, 2, false),
            (Round::Free, _) => (0, 0, 0, false),
        };
        let end = match self {
            Round::Ahead => End::Link(LinkFault::StatusAhead),
            _ => End::Client,
        };
        Outcome {
            start: Some(start),
            end,
            replies,
            gates,
            is_done,
        }
    }
}
