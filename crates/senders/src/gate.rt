//! Gates, which hold a sender.

use tables_log::{CommitNumber, SlotNumber};

/// A sender passes its gate before it writes a commit that it has encoded, and holds no lock there. A gate may hold the
/// sender as long as it likes, with everything that is encoded and not yet written. Nobody else waits for it.
pub trait Gate {
    /// The sender of this slot, by the number of its subscription, is to write the commit with this number, from 1.
    fn pass(&self, slot: SlotNumber, number: CommitNumber);
}

/// A gate that holds nobody.
#[derive(Clone, Copy, Debug, PartialEq, Eq)]
pub struct OpenGate;

impl Gate for OpenGate {
    fn pass(&self, _slot: SlotNumber, _number: CommitNumber) {}
}
