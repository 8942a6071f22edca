//! Permits to write streams.

ghost use Rattle.std.specs.Prelude.{◌≡◌};
ghost use Rattle.publisher_desk.specs.Viewers.{permit_for};

use crate::slot_event::Acquisition;
use std::marker::Model;
use tables_log::SlotNumber;

/// A connection that has acquired a slot may write its stream. `Publisher::with_stream` makes a permit when a slot is
/// acquired, and `Publisher::release` takes it back. A permit can neither be made otherwise, nor copied, nor dropped.
/// Contracts see the number of the slot.
#[derive(Debug)]
pub struct Permit {
    slot: SlotNumber,
}

impl Model for Permit {
    ghost use Rattle.std.specs.Prelude.{ℕ};

    ghost Value = { ℕ };

    ghost view = { λ p. p.slot };
}

impl Permit {
    /// The permit of a slot that was acquired, if one was.
    pub(crate) fn of(acquired: &Option<Acquisition>) -> Option<Permit>
        ensures { result ≡ permit_for acquired.now }
    {
        match acquired {
            None => None,
            Some(one) => Some(Permit { slot: one.slot }),
        }
    }

    /// The slot, when it is released.
    pub(crate) fn into_slot(self) -> SlotNumber
        ensures { result ≡ self }
    {
        let Permit { slot } = self;
        slot
    }
}
