//! Publishers.

ghost use Rattle.std.specs.Prelude.{◌≡◌};

use crate::closing::Closing;
use crate::desk::Desk;
use crate::history::History;
use crate::moved::Moved;
use crate::naming::Publishing;
use crate::note::{Note, Reading};
use crate::opening::Opening;
use crate::permit::Permit;
use crate::read_fault::ReadFault;
use crate::seat::Seat;
use crate::seats::Seats;
use crate::slot_history::SlotHistory;
use crate::slot_task::SlotTask;
use crate::step::SenderStep;
use crate::stream_task::StreamTask;
use crate::viewer::Viewer;
use filter_tree::{Row, TableNumber};
use shard_checker::Checked;
use std::alloc::{AllocError, Global};
use std::marker::Model;
use std::sync::{Arc, Mutex, Wait};
use table_changes::Command;
use tables_log::{CommitError, CommitNumber, Lsn, SlotNumber};

/// A commit of fewer commands is small.
const SMALL: usize = 8;

/// How many small commits make a batch.
const BATCH: u32 = 1_024;

/// A publisher that several threads share. Its book is behind one lock: each time that a thread gets it, the book is of
/// the checked catalog that the publisher was made from and of some list of transactions, and the number of its commits
/// is the total of a ledger whose shares are the seats' counts of receipts. Contracts see the number of its tables.
///
/// PostgreSQL 15, 3.4. Transactions, and "Logical Replication", 31.1 Publication.
#[derive(Drop)]
pub struct Publisher<P: Publishing> {
    alloc: Global,
    checked: Arc<Checked, Global>,
    desk: Mutex<Desk<P>>,
    moved: Moved,
    is_batched: bool,
}

impl<P: Publishing> Model for Publisher<P> {
    ghost use Rattle.std.specs.Prelude.{ℕ, ◌≡◌, length};
    ghost use Rattle.std.specs.Arc.{arc_value};
    ghost use Rattle.shard_checker.specs.CheckedView.{checked_view};

    ghost Value = { ℕ };

    ghost view = { λ p. length (checked_view (arc_value p.checked)).catalog.tables };

    ghost invariant = { λ p. checked_view (arc_value p.checked) ≡ P.checked };
}

impl<P: Publishing> Publisher<P> {
    ghost use Rattle.std.specs.Prelude.{◌≡◌, ◌<◌, ◌≤◌, [], ◌∷◌, ◌++◌, map, length, IfOk, IfErr, IfSome, OnOk, OnErr};
    ghost use Rattle.std.specs.Arc.{arc_value};
    ghost use Rattle.shard_checker.specs.CheckedView.{checked_view, setting_in};
    ghost use Rattle.table_changes.specs.Commands.{command_view};
    ghost use Rattle.publisher_desk.specs.Answers.{IsMade, IsRead};
    ghost use Rattle.publisher_desk.specs.Lending.{IsGiven, IsLent, IsLentTo, IsNext, IsStepOf};
    ghost use Rattle.publisher_desk.specs.Logged.{IsRefused};
    ghost use Rattle.publisher_desk.specs.Receipts.{receipt_of};
    ghost use Rattle.publisher_desk.specs.Refusals.{HasFault, HasReadFault};
    ghost use Rattle.publisher_desk.specs.Seats.{AreUpTo, SeesOn, receipts};
    ghost use Rattle.publisher_desk.specs.Sights.{StartsWith};
    ghost use Rattle.publisher_desk.specs.SlotSights.{BeginsWith};
    ghost use Rattle.publisher_desk.specs.Viewers.{HasReleased, Holds, HoldsIf, IsUsedIf, SeesMore, log_seen};
    ghost use Rattle.publisher_desk.specs.declared.note.Note.TheVariants.{Committed, Looked};

    /// A publisher without commits, whose log takes at most `limit` of them, and the 1,000 seats of its sessions.
    /// `opening` has the ledger that counts the commits, and the histories. The only error is out of memory.
    pub fn new(
        alloc: Global,
        opening: Opening,
        checked: Arc<Checked, Global>,
        limit: u32,
    ) -> Result<(Publisher<P>, Seats<P>), AllocError>
        requires name { opening.name ≡ P.name }
        requires parts { opening.parts ≡ P.parts }
        requires history { opening.history ≡ P.history }
        requires slots { opening.slots ≡ P.slots }
        requires checked { checked_view (arc_value checked) ≡ P.checked }
        requires limit { limit ≡ P.limit }
        requires some { 1 ≤ limit }
        requires within { limit ≤ 1000000000 }
        ensures publisher { IfOk result (λ made. made.0 ≡ length P.checked.catalog.tables) }
        ensures seats { IfOk result (λ made. made.1 ≡ 1000) }
    {
        let Opening {
            blank,
            table,
            keeper,
            slot_table,
            slot_keeper,
        } = opening;
        let (counted, share) = blank.open::<P>();
        let slots = checked.catalog().subscriptions.len();
        let book_of = Arc::try_clone(&checked)?;
        let history = History::new(table, keeper);
        let slot_history = SlotHistory::new(slot_table, slot_keeper);
        let desk = Desk::new(alloc, book_of, limit, counted, history, slot_history)?;
        let publisher = Publisher {
            alloc,
            checked,
            desk: Mutex::new(desk),
            moved: Moved::new(alloc, slots)?,
            is_batched: false,
        };
        Ok((publisher, Seats::new(alloc, share)))
    }

    /// From now on small commits wake senders in batches: at every 1,024th commit, and when the publisher is finished.
    /// Only for a publisher whose commits are all known before the first is made: others would wait for their batch.
    pub fn wake_in_batches(&mut self)
        ensures { self.new ≡ self.old }
    {
        self.is_batched = true;
    }

    /// Makes the commands one transaction, and logs it with this time, in microseconds since 2000-01-01. Returns its
    /// number, from 1, and adds a receipt to the seat. If there is an error, nothing changes, and the list is dropped:
    /// the list has this error after the log as it is now, which the seat has then seen.
    ///
    /// # Errors
    ///
    /// Those of `Book::commit`, in its order, or `OutOfMemory` instead of any of them.
    ///
    /// PostgreSQL 15, 3.4. Transactions, and Chapter 6 Data Manipulation.
    pub fn commit<R: Wait>(
        &self,
        rt: &R,
        seat: &mut Seat<P>,
        commands: Vec<Command>,
        time: u64,
    ) -> Result<CommitNumber, CommitError>
        ensures ok { IfOk result (λ number.
            seat.new.notes
            ≡ seat.old.notes ++ Committed (receipt_of number (map command_view commands.items) time) ∷ []) }
        ensures made { IfOk result (
            IsMade P.checked P.limit seat.old.seen seat.new.seen (map command_view commands.items) time) }
        ensures above { IfOk result (λ number. receipts seat.old.notes < number) }
        ensures fault { IfErr result (HasFault (setting_in P.checked) (map command_view commands.items)) }
        ensures refused { IfErr result (IsRefused P.checked P.limit seat.new (map command_view commands.items)) }
        ensures err { OnErr result (seat.new.notes ≡ seat.old.notes) }
        ensures begins { SeesOn seat.old seat.new }
    {
        let Seat {
            notes,
            high,
            mark,
            token,
            slots: _,
        } = seat;
        notes.reserve(1)?;
        let is_small = commands.len() < SMALL;
        let mut desk = self.desk.lock(rt);
        let receipt = match desk.commit(mark, token, commands, time) {
            Ok(receipt) => receipt,
            Err(error) => return Err(error),
        };
        let number = receipt.number();
        let waiting = if self.is_batched && is_small {
            desk.behind(number, BATCH)
        } else {
            desk.waiting(number)
        };
        drop(desk);
        self.moved.wake(waiting);
        *high = (*high).max(number);
        notes.push_reserved(Note::Committed(receipt));
        Ok(number)
    }

    /// The row of the table that has this primary key after all commits that the log has, if there is one. The seat
    /// keeps the answer, and has then seen the log. If there is an error, no note is added.
    ///
    /// # Errors
    ///
    /// The first of `NoTable` and `OutOfMemory`.
    pub fn read<R: Wait>(
        &self,
        rt: &R,
        seat: &mut Seat<P>,
        table: TableNumber,
        key: Row,
    ) -> Result<Reading, ReadFault>
        ensures ok { IfOk result (λ reading. seat.new.notes ≡ seat.old.notes ++ Looked reading ∷ []) }
        ensures table { IfOk result (λ reading. reading.table ≡ table) }
        ensures key { IfOk result (λ reading. reading.key ≡ key) }
        ensures answer { IfOk result (IsRead P.checked seat.new.seen) }
        ensures forward { IfOk result (λ reading. AreUpTo reading.number seat.old.notes) }
        ensures above { IfOk result (λ reading. receipts seat.old.notes ≤ reading.number) }
        ensures known { OnOk result (table < length P.checked.catalog.tables) }
        ensures refused { IfErr result (HasReadFault P.checked table) }
        ensures err { OnErr result (seat.new.notes ≡ seat.old.notes) }
        ensures begins { SeesOn seat.old seat.new }
    {
        if table >= self.checked.catalog().tables.len() {
            return Err(ReadFault::NoTable);
        }
        let Seat {
            notes,
            high,
            mark,
            token,
            slots: _,
        } = seat;
        notes.reserve(1)?;
        let (number, answer) = self
            .desk
            .lock(rt)
            .look(self.alloc, mark, token, table, &key)?;
        let reading = Reading {
            number,
            table,
            key,
            answer,
        };
        let kept = reading.copy(self.alloc)?;
        *high = number;
        notes.push_reserved(Note::Looked(kept));
        Ok(reading)
    }

    /// What memory is taken from.
    pub fn allocator(&self) -> Global {
        self.alloc
    }

    /// The checked catalog that the publisher was made from.
    pub fn checked(&self) -> &Arc<Checked, Global>
        ensures { checked_view (arc_value result.now) ≡ P.checked }
    {
        &self.checked
    }

    /// The next step of the slot's sender, which has sent all commits before this number. Waits until there is
    /// something to do. A reply that was requested comes before an end. For a slot that does not exist, and for a
    /// number that no log has, the sender ends.
    ///
    /// It sends the commit with this number if the slot's subscriber gets something of it. Otherwise it passes over
    /// that commit and those after it, up to the first of which the subscriber gets something, and at most 64. The
    /// viewer has then seen the log, which has these commits, and that the slot's sender was given it up to the last of
    /// them.
    pub fn next_step<R: Wait>(
        &self,
        rt: &R,
        viewer: &mut Viewer<P>,
        slot: SlotNumber,
        number: u64,
    ) -> SenderStep
        ensures next { IsNext P.checked.plan slot number result }
        ensures logged { IsStepOf P.checked.plan slot (log_seen P.checked viewer.new.seen) number result }
        ensures given { IsGiven slot number viewer.new.events result }
        ensures more { SeesMore viewer.old viewer.new }
        ensures held { viewer.new.held ≡ viewer.old.held }
    {
        let Some(moved) = self.moved.of(slot) else {
            return SenderStep::Ended;
        };
        let mut desk = self.desk.lock(rt);
        for _ in rt.forever() {
            let Viewer { token, slots } = viewer;
            if let Some(step) = desk.step(token, slots, slot, number) {
                return step;
            }
            desk = moved.wait(rt, desk);
        }
        unreachable!()
    }

    /// The next step of the slot's sender, as `next_step` says, if there is something to do now.
    pub fn step_now<R: Wait>(
        &self,
        rt: &R,
        viewer: &mut Viewer<P>,
        slot: SlotNumber,
        number: u64,
    ) -> Option<SenderStep>
        ensures next { IfSome result (IsNext P.checked.plan slot number) }
        ensures logged { IfSome result (
            IsStepOf P.checked.plan slot (log_seen P.checked viewer.new.seen) number) }
        ensures given { IfSome result (IsGiven slot number viewer.new.events) }
        ensures more { SeesMore viewer.old viewer.new }
        ensures held { viewer.new.held ≡ viewer.old.held }
    {
        let Viewer { token, slots } = viewer;
        let mut desk = self.desk.lock(rt);
        match desk.step(token, slots, slot, number) {
            Some(step) => Some(step),
            None => {
                desk.show(token, slots);
                None
            }
        }
    }

    /// Lets a task use the book and the state of each slot's connection, under the lock. The book is of the checked
    /// catalog and of some list of transactions.
    pub fn with_slots<U: SlotTask, R: Wait>(&self, rt: &R, user: &mut U) -> U::Answer
        ensures { IsLent U.did P.checked user.old user.new result }
    {
        let mut desk = self.desk.lock(rt);
        let ended = desk.ended();
        let answer = desk.with_slots(user);
        let wanted = desk.wanted(ended);
        drop(desk);
        self.moved.wake(wanted);
        answer
    }

    /// Does what `with_slots` does, for a session. The book's log is the one that the seat has then seen, and has all
    /// of its commits. Its slots are those of the events that the seat has then seen, and each client was sent the log
    /// as they say.
    pub fn with_slots_for<U: SlotTask, R: Wait>(
        &self,
        rt: &R,
        seat: &mut Seat<P>,
        user: &mut U,
    ) -> U::Answer
        ensures lent { IsLentTo U.did P.checked seat.new user.old user.new result }
        ensures same { seat.new.notes ≡ seat.old.notes }
        ensures begins { SeesOn seat.old seat.new }
    {
        let Seat { token, slots, .. } = seat;
        let mut desk = self.desk.lock(rt);
        let ended = desk.ended();
        let answer = desk.with_slots_for(token, slots, user);
        let wanted = desk.wanted(ended);
        drop(desk);
        self.moved.wake(wanted);
        answer
    }

    /// Lets the task of a connection use the book and the state of each slot's connection, under the lock, acquire a
    /// slot that is free, which the connection then has, and confirm a position for the slot that it has. Returns the
    /// task's answer, and the permit of the slot if it acquired one. The book's log is the one that the viewer has then
    /// seen, and its slots are confirmed as the events say that it has then seen. None if so many streams have acquired
    /// slots that a number of 64 bits counts no more; then nothing is done.
    pub fn with_stream<U: StreamTask, R: Wait>(
        &self,
        rt: &R,
        viewer: &mut Viewer<P>,
        user: &mut U,
    ) -> Option<(U::Answer, Option<Permit>)>
        requires { HoldsIf viewer.old.held (U.stream user.old) }
        ensures used { IsUsedIf U.did P.checked viewer.old viewer.new user.old user.new result }
        ensures more { SeesMore viewer.old viewer.new }
    {
        let Viewer { token, slots } = viewer;
        let mut desk = self.desk.lock(rt);
        let ended = desk.ended();
        let answer = desk.with_stream(token, slots, user);
        let wanted = desk.wanted(ended);
        drop(desk);
        self.moved.wake(wanted);
        answer
    }

    /// Releases the slot that the connection has, whose permit it gives back: from now on another may acquire it. The
    /// release has the number of commits that the connection has then seen, which is never above that of the log.
    /// From then on its sender ends, and
    /// nothing counts as sent for the slot. Returns the position up to which its client was sent the log on this stream: the end of the last commit of
    /// the steps that were returned for the slot, or 0 if there was none.
    pub fn release<R: Wait>(&self, rt: &R, viewer: &mut Viewer<P>, permit: Permit) -> Lsn
        requires { Holds viewer.old.held permit }
        ensures released { HasReleased result viewer.old viewer.new }
        ensures more { SeesMore viewer.old viewer.new }
    {
        let Viewer { token, slots } = viewer;
        let slot = permit.into_slot();
        self.desk.lock(rt).release(token, slots, slot)
    }

    /// Shows a viewer the log and the events of the slots. What another viewer has seen is a beginning of these. So what
    /// any two viewers have seen is of one log, and of one list of events.
    pub fn compare<R: Wait>(&self, rt: &R, viewer: &mut Viewer<P>, other: &mut Viewer<P>)
        ensures begins { StartsWith viewer.new.seen other.old.seen }
        ensures events { BeginsWith viewer.new.events other.old.events }
        ensures more { SeesMore viewer.old viewer.new }
        ensures held { viewer.new.held ≡ viewer.old.held }
        ensures other { other.new ≡ other.old }
    {
        let Viewer { token, slots } = viewer;
        let Viewer {
            token: known,
            slots: theirs,
        } = other;
        let mut desk = self.desk.lock(rt);
        desk.compare(token, known);
        desk.compare_slots(slots, theirs);
    }

    /// Shows a viewer and a seat the log, of which what the other has seen is a beginning. So the two have seen the
    /// same log, and so have any two seats. What the seat answers from then on counts what the viewer had seen.
    pub fn compare_seat<R: Wait>(&self, rt: &R, viewer: &mut Viewer<P>, seat: &mut Seat<P>)
        ensures begins { StartsWith viewer.new.seen seat.old.seen }
        ensures back { StartsWith seat.new.seen viewer.old.seen }
        ensures more { SeesMore viewer.old viewer.new }
        ensures held { viewer.new.held ≡ viewer.old.held }
        ensures same { seat.new.notes ≡ seat.old.notes }
        ensures kept { SeesOn seat.old seat.new }
    {
        let Viewer { token, slots: _ } = viewer;
        let Seat { token: known, .. } = seat;
        let mut desk = self.desk.lock(rt);
        desk.compare(token, known);
        desk.compare(known, token);
    }

    /// There will be no further commit: senders end when they have sent all.
    pub fn finish<R: Wait>(&self, rt: &R) {
        self.desk.lock(rt).finish();
        self.moved.wake_all();
    }

    /// The publisher without its lock, when the sessions and the connections are over.
    pub fn into_closing(self) -> Closing<P> {
        let Publisher {
            alloc,
            checked,
            desk,
            moved: _,
            is_batched: _,
        } = self;
        desk.into_inner().into_closing(alloc, checked)
    }
}
