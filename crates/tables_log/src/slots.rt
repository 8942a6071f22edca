//! Replication slots.

ghost use Rattle.std.specs.Prelude.{◌≡◌, ◌≤◌, max, length, IfOk, IfErr, OnOk, OnErr, Some, None};
ghost use Rattle.tables_log.specs.Slots.{confirmed_at, start_fault, started, released, confirmed_up_to};

use crate::error::StartError;
use crate::lsn::Lsn;
use pub_catalog::SubscriberNumber;

/// The number of a slot, which is that of its subscription.
pub type SlotNumber = SubscriberNumber;

/// A replication slot: the position up to which its subscriber has confirmed the log, and whether a stream uses it.
///
/// PostgreSQL 15, 27.2.6 Replication Slots.
#[derive(Clone, Copy, Debug)]
pub(crate) struct Slot {
    pub(crate) confirmed: Lsn,
    pub(crate) taken: bool,
}

/// The slot's confirmed position; 0 if there is no such slot.
pub(crate) fn confirmed(slots: &[Slot], number: SlotNumber) -> Lsn
    ensures { result ≡ confirmed_at slots.now number }
{
    match slots.get(number) {
        None => Lsn::new(0),
        Some(slot) => slot.confirmed,
    }
}

/// Acquires the slot for a stream that starts at the position, or at the confirmed one if that is greater.
pub(crate) fn start(
    slots: &mut [Slot],
    end: Lsn,
    number: SlotNumber,
    position: Lsn,
) -> Result<Lsn, StartError>
    ensures ok { OnOk result (start_fault slots.old end number position ≡ None) }
    ensures at { IfOk result (λ start. start ≡ max position (confirmed_at slots.old number)) }
    ensures started { OnOk result (slots.new ≡ started slots.old number) }
    ensures fault { IfErr result (λ fault. start_fault slots.old end number position ≡ Some fault) }
    ensures err { OnErr result (slots.new ≡ slots.old) }
{
    let Some(slot) = slots.get(number).copied() else {
        return Err(StartError::NoSlot);
    };
    if position.is_after(end) {
        return Err(StartError::Ahead);
    }
    if slot.taken {
        return Err(StartError::InUse);
    }
    slots[number] = Slot {
        confirmed: slot.confirmed,
        taken: true,
    };
    Ok(position.max(slot.confirmed))
}

/// Releases the slot.
pub(crate) fn release(slots: &mut [Slot], number: SlotNumber)
    ensures { slots.new ≡ released slots.old number }
{
    if let Some(slot) = slots.get(number).copied() {
        slots[number] = Slot {
            confirmed: slot.confirmed,
            taken: false,
        };
    }
}

/// Raises the slot's confirmed position to this one, if that is greater.
pub(crate) fn confirm(slots: &mut [Slot], number: SlotNumber, position: Lsn)
    ensures { slots.new ≡ confirmed_up_to slots.old number position }
{
    if let Some(slot) = slots.get(number).copied() {
        slots[number] = Slot {
            confirmed: slot.confirmed.max(position),
            taken: slot.taken,
        };
    }
}
