//! What happens to the slots of a publisher, for proofs, and how many streams have acquired one.

ghost use Rattle.std.specs.Prelude.{◌≡◌};

use crate::naming::Publishing;
use crate::slot_event::{Acquisition, Advance, Confirmation, Release, SlotEvent};
use crate::slot_sight::{
    AddsSlots, BeginsSlots, ChecksSlots, KeepsSlots, PassesSlots, ShowsSlots, SlotView,
};
use atomic_table::{Seat, Table};
use std::alloc::Global;
use std::marker::{Model, PhantomData};
use std::sync::ledger::Total;

/// What a connection knows of the slots. It takes no bytes. Contracts see it as the first events, which the connection
/// has seen, the slot that it has, and the numbers of its own acquisitions.
#[derive(Drop)]
pub(crate) struct SlotToken<P: Publishing> {
    seat: Seat<SlotEvent, SlotView>,
    of: PhantomData<Total<P>>,
}

impl<P: Publishing> Model for SlotToken<P> {
    ghost use Rattle.std.specs.Prelude.{◌≡◌, []};
    ghost use Rattle.publisher_desk.specs.SlotSights.{first_in, holder};
    ghost use Rattle.publisher_desk.specs.declared.slot_sight.SlotSight as s;

    ghost Value = { s.SlotSight };

    ghost view = { λ t. first_in t.seat.me.0.sights };

    ghost invariant = { λ t. (t.seat.table_id ≡ P.slots) × (t.seat.me ≡ (holder (first_in t.seat.me.0.sights), [])) };
}

/// The events of the slots, for proofs, the sights that were taken in, and the number of acquisitions. Only the holder
/// of the lock has it. Contracts see what its own token knows.
#[derive(Drop)]
pub(crate) struct SlotHistory<P: Publishing> {
    table: Table<SlotEvent, SlotView, (), KeepsSlots, Global>,
    keeper: Seat<SlotEvent, SlotView>,
    count: u64,
    of: PhantomData<Total<P>>,
}

impl<P: Publishing> Model for SlotHistory<P> {
    ghost use Rattle.std.specs.Prelude.{◌≡◌, [], true};
    ghost use Rattle.publisher_desk.specs.SlotEvents.{acquisitions};
    ghost use Rattle.publisher_desk.specs.declared.slot_sight.SlotView as v;

    ghost Value = { v.SlotView };

    ghost view = { λ h. h.keeper.me.0 };

    ghost invariant = { λ h. (h.table.shared.table_id ≡ P.slots) × (h.keeper.table_id ≡ P.slots)
        × (P.slots.words ≡ 1) × (h.keeper.me.1 ≡ []) × (h.keeper.me.0.keeps ≡ true)
        × (h.count ≡ acquisitions h.keeper.me.0.all) };
}

impl<P: Publishing> SlotHistory<P> {
    ghost use Rattle.std.specs.Prelude.{◌≡◌, ◌+◌, ◌<◌, ◌≤◌, ℕ, [], ◌∷◌, ◌++◌, length, true, IfSome};
    ghost use Rattle.publisher_desk.specs.Sights.{times};
    ghost use Rattle.publisher_desk.specs.SlotEvents.{acquisitions, events_then, events_with};
    ghost use Rattle.publisher_desk.specs.Viewers.{AcquiresSight, ChangesSight, MayNote};
    ghost use Rattle.publisher_desk.specs.SlotSights.{AddsEvent, AreKnown, BeginsWith, MayHappen, SeesEvents, added, first_in, left, owned_in, shown, slot_sight_of, slot_view};
    ghost use Rattle.publisher_desk.specs.declared.slot_event.SlotEvent.TheVariants.{Acquired, Advanced, Confirmed, Released};

    /// A history without events.
    pub(crate) fn new(
        table: Table<SlotEvent, SlotView, (), KeepsSlots, Global>,
        keeper: Seat<SlotEvent, SlotView>,
    ) -> SlotHistory<P>
        requires table { table.shared.table_id ≡ P.slots }
        requires keeper { keeper.table_id ≡ P.slots }
        requires word { P.slots.words ≡ 1 }
        requires empty { keeper.me ≡ (slot_view true [] [], []) }
        ensures { result ≡ slot_view true [] [] }
    {
        SlotHistory {
            table,
            keeper,
            count: 0,
            of: PhantomData,
        }
    }

    /// How many streams have acquired slots.
    pub(crate) fn count(&self) -> u64
        ensures { result ≡ acquisitions self.now.all }
    {
        self.count
    }

    /// The number of the next acquisition; none after more than a number of 64 bits counts.
    pub(crate) fn next_number(&self) -> Option<u64>
        ensures { IfSome result (λ number. number ≡ acquisitions self.now.all + 1) }
    {
        self.count.checked_add(1)
    }

    /// Takes in what the connection knows; one without a token has seen nothing.
    fn take_in(&mut self, token: &mut Option<SlotToken<P>>)
        ensures { self.new ≡ slot_view true self.old.all (slot_sight_of token.old ∷ self.old.sights) }
    {
        let SlotHistory {
            table,
            keeper,
            count: _,
            of: _,
        } = self;
        match token.take() {
            Some(mine) => {
                let SlotToken { seat, of: _ } = mine;
                table.shared.join_seat::<PassesSlots>(keeper, seat);
            }
            None => {
                table.shared.load::<BeginsSlots>(keeper, 0);
            }
        }
    }

    /// Adds the event of the sight that was taken in last. So many streams have then acquired slots.
    fn add(&mut self, event: &SlotEvent, count: u64)
        requires may { MayHappen event.now self.old.all (first_in self.old.sights).held }
        requires count { count ≡ acquisitions (self.old.all ++ event.now ∷ []) }
        ensures added { self.new ≡ added event.now self.old }
        ensures known { AreKnown self.old.all self.old.sights }
    {
        let SlotHistory {
            table,
            keeper,
            count: counted,
            of: _,
        } = self;
        table
            .shared
            .compare_exchange_with::<AddsSlots>(keeper, 0, 0, 0, event);
        *counted = count;
    }

    /// Shows the events to the sight that was taken in last.
    fn show(&mut self)
        ensures shown { self.new ≡ shown self.old }
        ensures known { AreKnown self.old.all self.old.sights }
    {
        let SlotHistory {
            table,
            keeper,
            count: _,
            of: _,
        } = self;
        table.shared.load::<ShowsSlots>(keeper, 0);
    }

    /// Establishes that the sights that were taken in agree with the events, and that none of them has an acquisition
    /// of another.
    fn check(&mut self)
        ensures same { self.new ≡ self.old }
        ensures known { AreKnown self.old.all self.old.sights }
        ensures single { (number : ℕ) → owned_in number self.old.sights ≤ 1 }
    {
        let SlotHistory {
            table,
            keeper,
            count: _,
            of: _,
        } = self;
        table.shared.load::<ChecksSlots>(keeper, 0);
    }

    /// A token with the sight that was taken in last.
    fn give_back(&mut self) -> SlotToken<P>
        requires { 0 < length self.old.sights }
        ensures rest { self.new ≡ left self.old }
        ensures first { result ≡ first_in self.old.sights }
    {
        let SlotHistory {
            table,
            keeper,
            count: _,
            of: _,
        } = self;
        let seat = table.shared.split_seat::<PassesSlots>(keeper);
        SlotToken {
            seat,
            of: PhantomData,
        }
    }

    /// A connection acquires a slot that is free. This is the acquisition of this number.
    pub(crate) fn acquire(
        &mut self,
        token: &mut Option<SlotToken<P>>,
        one: Acquisition,
        number: u64,
    )
        requires idle { self.old ≡ slot_view true self.old.all [] }
        requires may { MayHappen (Acquired one) self.old.all (slot_sight_of token.old).held }
        requires number { number ≡ acquisitions self.old.all + 1 }
        ensures log { self.new ≡ slot_view true (self.old.all ++ Acquired one ∷ []) [] }
        ensures seen { AddsEvent self.old.all (Acquired one) (slot_sight_of token.old) (slot_sight_of token.new) }
    {
        self.take_in(token);
        self.add(&SlotEvent::Acquired(one), number);
        *token = Some(self.give_back());
    }

    /// The sender of a slot is given the log up to a position.
    pub(crate) fn advance(&mut self, one: Advance)
        requires idle { self.old ≡ slot_view true self.old.all [] }
        ensures log { self.new ≡ slot_view true (self.old.all ++ Advanced one ∷ []) [] }
    {
        let count = self.count;
        self.add(&SlotEvent::Advanced(one), count);
    }

    /// The client of the connection that has the slot confirms a position.
    pub(crate) fn confirm(&mut self, token: &mut Option<SlotToken<P>>, one: Confirmation)
        requires idle { self.old ≡ slot_view true self.old.all [] }
        requires may { MayHappen (Confirmed one) self.old.all (slot_sight_of token.old).held }
        ensures log { self.new ≡ slot_view true (self.old.all ++ Confirmed one ∷ []) [] }
        ensures seen { AddsEvent self.old.all (Confirmed one) (slot_sight_of token.old) (slot_sight_of token.new) }
    {
        let count = self.count;
        self.take_in(token);
        self.add(&SlotEvent::Confirmed(one), count);
        *token = Some(self.give_back());
    }

    /// Shows the events to the connection, which acquires a slot if one is named. This is the acquisition of this
    /// number.
    fn acquire_if(
        &mut self,
        token: &mut Option<SlotToken<P>>,
        acquired: Option<Acquisition>,
        number: u64,
    )
        requires idle { self.old ≡ slot_view true self.old.all [] }
        requires may { (one : _) → acquired ≡ Some one
            → MayHappen (Acquired one) self.old.all (slot_sight_of token.old).held }
        requires number { number ≡ acquisitions self.old.all + 1 }
        ensures log { self.new ≡ slot_view true (events_with acquired self.old.all) [] }
        ensures seen { AcquiresSight acquired self.old.all (slot_sight_of token.old) (slot_sight_of token.new) }
    {
        match acquired {
            None => self.look(token),
            Some(one) => self.acquire(token, one, number),
        }
    }

    /// Does what `acquire_if` does. Then the client of the connection confirms a position, if one is named, for the
    /// slot that the connection then has.
    pub(crate) fn note(
        &mut self,
        token: &mut Option<SlotToken<P>>,
        acquired: Option<Acquisition>,
        number: u64,
        confirmed: Option<Confirmation>,
    )
        requires idle { self.old ≡ slot_view true self.old.all [] }
        requires may { (one : _) → acquired ≡ Some one
            → MayHappen (Acquired one) self.old.all (slot_sight_of token.old).held }
        requires mine { MayNote acquired confirmed (slot_sight_of token.old).held }
        requires number { number ≡ acquisitions self.old.all + 1 }
        ensures log { self.new ≡ slot_view true (events_then confirmed (events_with acquired self.old.all)) [] }
        ensures seen { ChangesSight acquired confirmed self.old.all (slot_sight_of token.old)
            (slot_sight_of token.new) }
    {
        self.acquire_if(token, acquired, number);
        if let Some(one) = confirmed {
            self.confirm(token, one);
        }
    }

    /// The connection that has the slot releases it.
    pub(crate) fn release(&mut self, token: &mut Option<SlotToken<P>>, one: Release)
        requires idle { self.old ≡ slot_view true self.old.all [] }
        requires may { MayHappen (Released one) self.old.all (slot_sight_of token.old).held }
        ensures log { self.new ≡ slot_view true (self.old.all ++ Released one ∷ []) [] }
        ensures seen { AddsEvent self.old.all (Released one) (slot_sight_of token.old) (slot_sight_of token.new) }
    {
        let count = self.count;
        self.take_in(token);
        self.add(&SlotEvent::Released(one), count);
        *token = Some(self.give_back());
    }

    /// Establishes that the connection has seen first events. It knows no more than before.
    pub(crate) fn compare(&mut self, token: &mut Option<SlotToken<P>>)
        requires idle { self.old ≡ slot_view true self.old.all [] }
        ensures log { self.new ≡ self.old }
        ensures begins { BeginsWith self.old.all (slot_sight_of token.old).events }
        ensures same { slot_sight_of token.new ≡ slot_sight_of token.old }
    {
        self.take_in(token);
        self.check();
        *token = Some(self.give_back());
    }

    /// Establishes that no acquisition belongs to both connections, which know no more than before.
    pub(crate) fn compare_two(
        &mut self,
        one: &mut Option<SlotToken<P>>,
        other: &mut Option<SlotToken<P>>,
    )
        requires idle { self.old ≡ slot_view true self.old.all [] }
        ensures log { self.new ≡ self.old }
        ensures single { (number : ℕ)
            → times number (slot_sight_of one.old).own + times number (slot_sight_of other.old).own ≤ 1 }
        ensures same { slot_sight_of one.new ≡ slot_sight_of one.old }
        ensures other { slot_sight_of other.new ≡ slot_sight_of other.old }
    {
        self.take_in(one);
        self.take_in(other);
        self.check();
        *other = Some(self.give_back());
        *one = Some(self.give_back());
    }

    /// Shows the events to the connection.
    pub(crate) fn look(&mut self, token: &mut Option<SlotToken<P>>)
        requires idle { self.old ≡ slot_view true self.old.all [] }
        ensures log { self.new ≡ self.old }
        ensures seen { SeesEvents self.old.all (slot_sight_of token.old) (slot_sight_of token.new) }
    {
        self.take_in(token);
        self.show();
        *token = Some(self.give_back());
    }
}
