//! The condition variables by which senders that wait are woken.

use row_owners::OwnerSet;
use std::alloc::{AllocError, Global};
use std::sync::Condvar;
use tables_log::SlotNumber;

/// A condition variable for each slot, by which its sender is woken when it has something to do.
#[derive(Drop)]
pub(crate) struct Moved {
    slots: Vec<Condvar>,
}

impl Moved {
    /// A condition variable for each of this number of senders. The only error is out of memory.
    pub(crate) fn new(alloc: Global, senders: usize) -> Result<Moved, AllocError> {
        let mut slots = Vec::with_capacity(alloc, senders)?;
        for _ in 0..senders {
            slots.push(Condvar::new())?;
        }
        Ok(Moved { slots })
    }

    /// The condition variable for the sender of this slot; none if there is no such slot.
    pub(crate) fn of(&self, slot: SlotNumber) -> Option<&Condvar> {
        self.slots.get(slot)
    }

    /// Wakes the senders of these slots that wait.
    pub(crate) fn wake(&self, set: OwnerSet) {
        for (slot, moved) in self.slots.iter().enumerate() {
            if slot < 32 && set.has(slot) {
                moved.notify_all();
            }
        }
    }

    /// Wakes all senders that wait.
    pub(crate) fn wake_all(&self) {
        for moved in self.slots.as_slice() {
            moved.notify_all();
        }
    }
}
