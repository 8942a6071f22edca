//! What tokens know of what happens to slots, and how that changes.

ghost use Rattle.std.specs.Prelude.{◌≡◌};

use crate::slot_event::{Acquisition, SlotEvent};
use atomic_table::{Join, Play, Split, TableRule};
use std::collections::LinkedList;
use tables_log::Lsn;

/// An acquisition of a slot, its number among all acquisitions, from 1, and up to where the slot was confirmed when it
/// was acquired, and is now. It is only for proofs: no value of it is made.
pub struct Hold {
    pub acquisition: Acquisition,
    pub number: u64,
    pub found: Lsn,
    pub confirmed: Lsn,
}

/// The first events that a connection has seen, the slot that it has, if it has one, and the numbers of its own
/// acquisitions. It is only for proofs: no value of it is made.
pub struct SlotSight {
    pub events: LinkedList<SlotEvent>,
    pub held: Option<Hold>,
    pub own: LinkedList<u64>,
}

/// What one token knows: whether it is the one that has all events, the events, and the sights that it has taken in. It
/// is only for proofs: no value of it is made.
pub struct SlotView {
    pub keeps: bool,
    pub all: LinkedList<SlotEvent>,
    pub sights: LinkedList<SlotSight>,
}

/// What holds of all tokens between any two steps.
pub struct KeepsSlots;

impl TableRule<SlotEvent, SlotView, ()> for KeepsSlots {
    ghost use Rattle.std.specs.Prelude.{[], true};
    ghost use Rattle.publisher_desk.specs.SlotSights.{AreSlotsKept, slot_view};

    ghost holds = { λ _ s. AreSlotsKept s.views };

    ghost first = { λ _. slot_view true [] [] };
}

/// A step that takes in the sight of a connection that has seen nothing.
pub struct BeginsSlots;

impl Play<SlotEvent, SlotView> for BeginsSlots {
    ghost use Rattle.std.specs.Prelude.{◌≡◌};
    ghost use Rattle.publisher_desk.specs.SlotSights.{begun};

    ghost then = { λ _ before _ after. after ≡ (begun before.0, before.1) };
}

/// A step that shows all events to the sight that was taken in last.
pub struct ShowsSlots;

impl Play<SlotEvent, SlotView> for ShowsSlots {
    ghost use Rattle.std.specs.Prelude.{◌≡◌};
    ghost use Rattle.publisher_desk.specs.SlotSights.{AreKnown, shown};

    ghost then = { λ _ before _ after. (after ≡ (shown before.0, before.1)) × AreKnown before.0.all before.0.sights };
}

/// A step that changes nothing, and shows that the sights that were taken in agree with the events, and that none of
/// them has an acquisition of another.
pub struct ChecksSlots;

impl Play<SlotEvent, SlotView> for ChecksSlots {
    ghost use Rattle.std.specs.Prelude.{◌≡◌, ◌≤◌, ℕ};
    ghost use Rattle.publisher_desk.specs.SlotSights.{AreKnown, owned_in};

    ghost then = { λ _ before _ after. (after ≡ before) × AreKnown before.0.all before.0.sights
        × ((number : ℕ) → owned_in number before.0.sights ≤ 1) };
}

/// A step that adds the event that it announces, of the sight that was taken in last.
pub struct AddsSlots;

impl Play<SlotEvent, SlotView> for AddsSlots {
    ghost use Rattle.std.specs.Prelude.{◌≡◌};
    ghost use mathlib.Core.Option.{some};
    ghost use Rattle.publisher_desk.specs.SlotSights.{AreKnown, added};
    ghost use Rattle.publisher_desk.specs.declared.slot_event.SlotEvent as e;

    ghost then = { λ step before _ after. (event : e.SlotEvent) × (step.said ≡ some event)
        × (after ≡ (added event before.0, before.1)) × AreKnown before.0.all before.0.sights };
}

/// How one token gets the sight that another took in last, and how that takes it in.
pub struct PassesSlots;

impl Split<SlotView> for PassesSlots {
    ghost use Rattle.publisher_desk.specs.SlotSights.{given, left};

    ghost left = { left };

    ghost right = { given };
}

impl Join<SlotView> for PassesSlots {
    ghost use Rattle.publisher_desk.specs.SlotSights.{joined, nobody};

    ghost both = { joined };

    ghost spent = { nobody };
}
