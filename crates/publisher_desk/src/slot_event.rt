//! What happens to slots.

use tables_log::{CommitNumber, Lsn, SlotNumber};

/// A slot that was acquired for a stream: where the stream starts, and whether its client requested that position,
/// which is after what was confirmed for the slot.
#[derive(Clone, Copy, Debug, PartialEq, Eq)]
pub struct Acquisition {
    pub slot: SlotNumber,
    pub start: Lsn,
    pub is_requested: bool,
}

/// A position up to which the sender of a slot was given the log, for its client.
#[derive(Clone, Copy, Debug, PartialEq, Eq)]
pub struct Advance {
    pub slot: SlotNumber,
    pub position: Lsn,
}

/// A position up to which a client confirmed the log, on the stream that has the slot, and whether it then sent a status
/// that was refused, since that was ahead of what the client had been sent.
#[derive(Clone, Copy, Debug, PartialEq, Eq)]
pub struct Confirmation {
    pub slot: SlotNumber,
    pub position: Lsn,
    pub is_ahead: bool,
}

/// A slot that was released, and the number of commits that the log then had.
#[derive(Clone, Copy, Debug, PartialEq, Eq)]
pub struct Release {
    pub slot: SlotNumber,
    pub commits: CommitNumber,
}

/// What happens to a slot: a stream acquires it, its sender is given the log up to a position, its client confirms the
/// log up to one, or the stream releases it.
///
/// PostgreSQL 15, 27.2.6 Replication Slots.
#[derive(Clone, Copy, Debug, PartialEq, Eq)]
pub enum SlotEvent {
    Acquired(Acquisition),
    Advanced(Advance),
    Confirmed(Confirmation),
    Released(Release),
}
