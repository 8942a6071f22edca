//! A publisher that is being closed.

ghost use Rattle.std.specs.Prelude.{◌≡◌};
ghost use Rattle.std.specs.Arc.{arc_value};
ghost use Rattle.shard_checker.specs.CheckedView.{checked_view};

use crate::auditing::audit_all;
use crate::history::History;
use crate::naming::Publishing;
use crate::seat::Seat;
use crate::seats::Seats;
use crate::slot_history::SlotHistory;
use crate::viewer::Viewer;
use shard_checker::Checked;
use std::alloc::Global;
use std::marker::Model;
use std::sync::{Arc, ledger};
use tables_log::Book;

/// A publisher without its lock, whose sessions and connections are over. Contracts see its log, as receipts, its
/// slots, and their events. What a connection or a seat of the publisher has seen is a beginning of the log and of the
/// events.
#[derive(Drop)]
pub struct Closing<P: Publishing> {
    pub(crate) alloc: Global,
    pub(crate) checked: Arc<Checked, Global>,
    pub(crate) book: Book,
    pub(crate) counted: ledger::Book<P>,
    pub(crate) history: History<P>,
    pub(crate) slots: SlotHistory<P>,
}

impl<P: Publishing> Model for Closing<P> {
    ghost use Rattle.std.specs.Prelude.{◌≡◌};
    ghost use Rattle.std.specs.Arc.{arc_value};
    ghost use Rattle.shard_checker.specs.CheckedView.{checked_view};
    ghost use Rattle.tables_log.specs.BookView.{book_slots};
    ghost use Rattle.publisher_desk.specs.Held.{IsClosingFor};
    ghost use Rattle.publisher_desk.specs.Viewers.{ClosingOf};

    ghost Value = { ClosingOf };

    ghost view = { λ c. record { log = c.history.all; events = c.slots.all; slots = book_slots c.book } };

    ghost invariant = { λ c. (checked_view (arc_value c.checked) ≡ P.checked)
        × IsClosingFor P.checked P.limit c.book c.counted.total c.history c.slots };
}

impl<P: Publishing> Closing<P> {
    ghost use Rattle.std.specs.Prelude.{◌≡◌, [], length};
    ghost use Rattle.std.specs.Arc.{arc_value};
    ghost use Rattle.shard_checker.specs.CheckedView.{checked_view, setting_in};
    ghost use Rattle.tables_log.specs.BookView.{book_checked, book_limit, book_slots};
    ghost use Rattle.tables_log.specs.Slots.{AreInUse};
    ghost use Rattle.tables_log.specs.StandsFor.{StandsFor};
    ghost use Rattle.publisher_desk.specs.Counting.{IsCounted};
    ghost use Rattle.publisher_desk.specs.Logged.{AreSeatsIn};
    ghost use Rattle.publisher_desk.specs.Receipts.{transactions_of};
    ghost use Rattle.publisher_desk.specs.Sights.{StartsWith};
    ghost use Rattle.publisher_desk.specs.SlotSights.{BeginsWith};
    ghost use Rattle.publisher_desk.specs.SlotEvents.{AreConfirmed, AreInTurn, AreWithinReach, acquisitions, confirmed_after, no_position, no_use, use_after};
    ghost use Rattle.publisher_desk.specs.Viewers.{IsSeenIn, ShareNoAcquisition};

    /// What memory is taken from.
    pub fn allocator(&self) -> Global {
        self.alloc
    }

    /// The checked catalog that the publisher was made from.
    pub fn checked(&self) -> &Arc<Checked, Global>
        ensures { checked_view (arc_value result.now) ≡ P.checked }
    {
        &self.checked
    }

    /// The book: it is of the checked catalog, and of the transactions of the log. Its slots in use are those that
    /// streams have acquired and not released, and each is confirmed up to the position of its last confirmation. A
    /// slot was acquired only while it was free, and confirmed and released only while it was in use, and what was
    /// confirmed never went back. No client confirmed more than it had been sent, or than what is before its stream.
    pub fn book(&self) -> &Book
        ensures named { book_checked result.now ≡ P.checked }
        ensures limited { book_limit result.now ≡ P.limit }
        ensures stands { StandsFor result.now (transactions_of self.now.log) }
        ensures slots { book_slots result.now ≡ self.now.slots }
        ensures used { AreInUse (use_after self.now.events) self.now.slots }
        ensures confirmed { AreConfirmed (confirmed_after self.now.events) self.now.slots }
        ensures turns { AreInTurn no_use no_position self.now.events }
        ensures within { AreWithinReach [] self.now.events }
    {
        &self.book
    }

    /// How many streams have acquired slots.
    pub fn acquisitions(&self) -> u64
        ensures { result ≡ acquisitions self.now.events }
    {
        self.slots.count()
    }

    /// Establishes that what the connection has seen is a beginning of the log and of the events of the slots.
    pub fn check(&mut self, viewer: &mut Viewer<P>)
        ensures seen { IsSeenIn self.old viewer.old }
        ensures same { self.new ≡ self.old }
        ensures viewer { viewer.new ≡ viewer.old }
    {
        let Closing { history, slots, .. } = self;
        let Viewer { token, slots: mine } = viewer;
        history.compare(token);
        slots.compare(mine);
    }

    /// Establishes that no acquisition of a slot belongs to both connections.
    pub fn compare(&mut self, viewer: &mut Viewer<P>, other: &mut Viewer<P>)
        ensures apart { ShareNoAcquisition viewer.old other.old }
        ensures same { self.new ≡ self.old }
        ensures viewer { viewer.new ≡ viewer.old }
        ensures other { other.new ≡ other.old }
    {
        let Closing { slots, .. } = self;
        let Viewer { slots: mine, .. } = viewer;
        let Viewer { slots: theirs, .. } = other;
        slots.compare_two(mine, theirs);
    }

    /// Establishes that what the seat has seen is a beginning of the log and of the events of the slots.
    pub fn check_seat(&mut self, seat: &mut Seat<P>)
        ensures seen { StartsWith self.old.log seat.old.seen }
        ensures events { BeginsWith self.old.events seat.old.events }
        ensures same { self.new ≡ self.old }
        ensures seat { seat.new ≡ seat.old }
    {
        let Closing { history, slots, .. } = self;
        let Seat {
            token,
            slots: mine,
            ..
        } = seat;
        history.compare(token);
        slots.compare(mine);
    }

    /// Compares the seats with the log. `rest` are the seats that no session has, and `seats` some of those of the
    /// sessions. By the ledger of commits, the log has no fewer commits than these have receipts, and exactly as many
    /// if no seat is held back. By the history, each receipt is in the log at its number, no two have the same number,
    /// each reading is right, and what each seat has seen is a beginning of the log. The time it takes grows with the
    /// notes of the seats.
    #[tactic(auto, using(crate::proofs::LoggedLemmas::seats_in, crate::proofs::LoggedLemmas::history_long))]
    pub fn count(&mut self, rest: &mut Seats<P>, seats: &mut [Seat<P>])
        ensures counted { IsCounted P.parts rest.old seats.old (length self.old.log) }
        ensures logged { AreSeatsIn (setting_in P.checked) self.old.log seats.old }
        ensures same { self.new ≡ self.old }
        ensures rest { rest.new ≡ rest.old }
        ensures seats { seats.new ≡ seats.old }
    {
        let Closing {
            counted,
            history,
            ..
        } = self;
        let Seats { share, .. } = rest;
        audit_all(counted, share, history, seats);
    }
}
