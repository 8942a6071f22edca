//! What a publisher's lock holds.

ghost use Rattle.std.specs.Prelude.{◌≡◌, ◌+◌, ◌<◌, ◌≤◌, map, length, IfOk, IfErr, OnOk, OnErr};
ghost use Rattle.table_changes.specs.Commands.{command_view};
ghost use Rattle.tables_log.specs.BookView.{book_log, book_rows};
ghost use Rattle.tables_log.specs.Committing.{Commits, IsKept, RefusedBy};

use crate::closing::Closing;
use crate::connection_state::ConnectionState;
use crate::history::{History, HistoryToken};
use crate::naming::Publishing;
use crate::note::copy_found;
use crate::permit::Permit;
use crate::receipt::Receipt;
use crate::slot_event::{Advance, Release};
use crate::slot_history::{SlotHistory, SlotToken};
use crate::slot_task::SlotTask;
use crate::step::SenderStep;
use crate::stepping::{advance, further, next_for, part, sent_up_to, settle};
use crate::stream_task::StreamTask;
use filter_tree::{Row, TableNumber};
use row_owners::OwnerSet;
use shard_checker::Checked;
use std::alloc::{AllocError, Global};
use std::marker::Model;
use std::sync::ledger::Share;
use std::sync::{Arc, ledger};
use table_changes::Command;
use tables_log::{Book, CommitError, CommitNumber, Lsn, SlotNumber};

/// A sender that is this many commits behind is woken at each multiple of this number. So no sender that waits is twice
/// as many behind.
const TOGETHER: u32 = 32;

/// The book, the ledger's total of its commits, the state of each slot's connection, whether there will be no further
/// commit, the history, which has the book's transactions, and that of its slots. Contracts see the log.
#[derive(Drop)]
pub(crate) struct Desk<P: Publishing> {
    book: Book,
    counted: ledger::Book<P>,
    connections: Vec<ConnectionState>,
    is_finished: bool,
    history: History<P>,
    slots: SlotHistory<P>,
}

impl<P: Publishing> Model for Desk<P> {
    ghost use Rattle.std.specs.Prelude.{List};
    ghost use Rattle.tables_log.specs.BookView.{book_log};
    ghost use Rattle.tables_log.specs.Commits.{CommitOf};
    ghost use Rattle.publisher_desk.specs.Held.{IsHeldFor};

    ghost Value = { List CommitOf };

    ghost view = { λ d. book_log d.book };

    ghost invariant = { λ d. IsHeldFor P.checked P.limit d.book d.counted.total d.connections.items d.history d.slots };
}

/// Makes the commands one commit of the book, and counts it in the ledger.
fn make_commit<P: Publishing>(
    book: &mut Book,
    counted: &mut ledger::Book<P>,
    mark: &mut Share<P>,
    commands: &[Command],
    time: u64,
) -> Result<CommitNumber, CommitError>
    requires { 0 < mark.old.parts }
    ensures ok { IfOk result (λ number. Commits book.old book.new (map command_view commands.now) time number) }
    ensures refused { IfErr result (RefusedBy book.old (map command_view commands.now)) }
    ensures err { OnErr result (IsKept book.old book.new) }
    ensures counted { OnOk result (mark.new.amount ≡ mark.old.amount + 1) }
    ensures total { OnOk result (counted.new.total ≡ counted.old.total + 1) }
    ensures uncounted { OnErr result (mark.new.amount ≡ mark.old.amount) }
    ensures same_total { OnErr result (counted.new.total ≡ counted.old.total) }
    ensures bound { OnOk result (mark.new.amount ≤ counted.new.total) }
    ensures parts { mark.new.parts ≡ mark.old.parts }
{
    match book.commit(commands, time) {
        Ok(number) => {
            counted.add(mark, 1);
            counted.audit(mark);
            Ok(number)
        }
        Err(error) => Err(error),
    }
}

/// The number of commits, and a copy of the row that the key names after them. The only error is out of memory.
fn look_up(
    alloc: Global,
    book: &Book,
    table: TableNumber,
    key: &Row,
) -> Result<(CommitNumber, Option<Row>), AllocError>
    ensures number { IfOk result (λ found. found.0 ≡ length (book_log book.now)) }
    ensures row { IfOk result (λ found. found.1 ≡ book_rows book.now table 0 key.now) }
{
    let answer = copy_found(alloc, book.row(table, key))?;
    Ok((book.log_len(), answer))
}

impl<P: Publishing> Desk<P> {
    ghost use Rattle.std.specs.Prelude.{◌≡◌, ◌+◌, ◌<◌, ◌≤◌, [], map, length, true, Some, IfOk, IfErr, IfSome, IfNone, OnOk, OnErr, None};
    ghost use Rattle.std.specs.Arc.{arc_value};
    ghost use Rattle.shard_checker.specs.CheckedView.{checked_view, setting_in};
    ghost use Rattle.table_changes.specs.Commands.{command_view};
    ghost use Rattle.tables_log.specs.BookView.{book_log};
    ghost use Rattle.row_owners.specs.Owners.{OwnedWhere};
    ghost use Rattle.tables_log.specs.Logs.{entry_at};
    ghost use Rattle.tables_log.specs.Routes.{gets_some};
    ghost use Rattle.publisher_desk.specs.Answers.{IsMade};
    ghost use Rattle.publisher_desk.specs.Held.{AddsEntry};
    ghost use Rattle.publisher_desk.specs.Lending.{IsGiven, IsLent, LendsTo, IsStepOf, IsNext};
    ghost use Rattle.publisher_desk.specs.Logged.{Looks, Records, Refuses};
    ghost use Rattle.publisher_desk.specs.Receipts.{receipt_of};
    ghost use Rattle.publisher_desk.specs.Refusals.{HasFault};
    ghost use Rattle.publisher_desk.specs.Sights.{StartsWith, sight_of, view_of};
    ghost use Rattle.publisher_desk.specs.SlotSights.{BeginsWith, slot_sight_of, slot_view};
    ghost use Rattle.publisher_desk.specs.Viewers.{Holds, HoldsIf, IsShown, IsStreamedIf, Releases, SeesLog, SeesSlots};

    /// A book without commits, of which nothing was sent.
    pub(crate) fn new(
        alloc: Global,
        checked: Arc<Checked, Global>,
        limit: u32,
        counted: ledger::Book<P>,
        history: History<P>,
        slots: SlotHistory<P>,
    ) -> Result<Desk<P>, AllocError>
        requires checked { checked_view (arc_value checked) ≡ P.checked }
        requires limit { limit ≡ P.limit }
        requires total { counted.total ≡ 0 }
        requires history { history ≡ view_of true [] [] }
        requires slots { slots ≡ slot_view true [] [] }
        requires some { 1 ≤ limit }
        requires within { limit ≤ 1000000000 }
        ensures { IfOk result (λ desk. desk ≡ []) }
    {
        let idle = ConnectionState {
            sent: Lsn::new(0),
            wants_reply: false,
            has_ended: false,
        };
        let connections = vec![in alloc; idle; checked.catalog().subscriptions.len()]?;
        let book = Book::new(alloc, checked, limit)?;
        Ok(Desk {
            book,
            counted,
            connections,
            is_finished: false,
            history,
            slots,
        })
    }

    /// Makes the commands one commit, counts it in the ledger, and returns the receipt. After an error the log is as
    /// before. In either case the seat's token has then seen the whole history.
    pub(crate) fn commit(
        &mut self,
        mark: &mut Share<P>,
        token: &mut Option<HistoryToken<P>>,
        commands: Vec<Command>,
        time: u64,
    ) -> Result<Receipt, CommitError>
        requires { 0 < mark.old.parts }
        ensures is { IfOk result (λ receipt.
            receipt ≡ receipt_of receipt.number (map command_view commands.items) time) }
        ensures ok { IfOk result (λ receipt.
            AddsEntry P.checked self.old self.new (map command_view commands.items) time receipt.number) }
        ensures made { IfOk result (λ receipt. IsMade P.checked P.limit (sight_of token.old).seen
            (sight_of token.new).seen (map command_view commands.items) time receipt.number) }
        ensures above { IfOk result (λ receipt. mark.old.amount < receipt.number) }
        ensures seen { IfOk result (λ receipt. Records receipt (sight_of token.old) (sight_of token.new)) }
        ensures fault { IfErr result (HasFault (setting_in P.checked) (map command_view commands.items)) }
        ensures refused { IfErr result (
            Refuses P.checked P.limit (map command_view commands.items) (sight_of token.old) (sight_of token.new)) }
        ensures err { OnErr result (self.new ≡ self.old) }
        ensures counted { OnOk result (mark.new.amount ≡ mark.old.amount + 1) }
        ensures uncounted { OnErr result (mark.new.amount ≡ mark.old.amount) }
        ensures parts { mark.new.parts ≡ mark.old.parts }
    {
        match make_commit(
            &mut self.book,
            &mut self.counted,
            mark,
            commands.as_slice(),
            time,
        ) {
            Ok(number) => {
                let receipt = Receipt::new(number, commands, time);
                self.history.record(token, &receipt);
                Ok(receipt)
            }
            Err(error) => {
                self.history.look(token);
                Err(error)
            }
        }
    }

    /// The number of commits, and a copy of the row that the key names after them; they are no fewer than the share
    /// counts, and the seat's token then has seen them all. The only error is out of memory.
    pub(crate) fn look(
        &mut self,
        alloc: Global,
        mark: &mut Share<P>,
        token: &mut Option<HistoryToken<P>>,
        table: TableNumber,
        key: &Row,
    ) -> Result<(CommitNumber, Option<Row>), AllocError>
        ensures number { IfOk result (λ found. found.0 ≡ length self.old) }
        ensures above { IfOk result (λ found. mark.old.amount ≤ found.0) }
        ensures seen { IfOk result (λ found.
            Looks (setting_in P.checked) table key.now found.0 found.1 (sight_of token.old) (sight_of token.new)) }
        ensures unseen { OnErr result (token.new ≡ token.old) }
        ensures same { self.new ≡ self.old }
        ensures amount { mark.new.amount ≡ mark.old.amount }
        ensures parts { mark.new.parts ≡ mark.old.parts }
    {
        self.counted.audit(mark);
        let found = look_up(alloc, &self.book, table, key)?;
        self.history.look(token);
        Ok(found)
    }

    /// The next step of the slot's sender, which has sent all commits before this number; none if it has to wait, and
    /// then the log has no commit with this number. A reply that was requested comes before an end. For a number that
    /// no log has, the sender ends.
    ///
    /// It sends the commit with this number if the slot's subscriber gets something of it. Otherwise it passes over
    /// that commit and those after it, up to the first of which the subscriber gets something, and at most 64. If there
    /// is a step, the connection has then seen the log and all events.
    pub(crate) fn step(
        &mut self,
        token: &mut Option<HistoryToken<P>>,
        slots: &mut Option<SlotToken<P>>,
        slot: SlotNumber,
        number: u64,
    ) -> Option<SenderStep>
        ensures log { self.new ≡ self.old }
        ensures entry { IfSome result (IsStepOf P.checked.plan slot self.old number) }
        ensures next { IfSome result (IsNext P.checked.plan slot number) }
        ensures given { IfSome result (IsGiven slot number (slot_sight_of slots.new).events) }
        ensures waits { IfNone result (entry_at self.old number ≡ None) }
        ensures seen { IfSome result (λ _. IsShown P.checked self.old (sight_of token.old) (sight_of token.new)
            (slot_sight_of slots.old) (slot_sight_of slots.new)) }
        ensures unseen { IfNone result ((token.new ≡ token.old) × (slots.new ≡ slots.old)) }
    {
        let connections = self.connections.as_mut_slice();
        let (step, last) = next_for(&self.book, connections, self.is_finished, slot, number)?;
        if let Some(last) = last {
            let position = further(connections, slot, Lsn::end_of_commit(last));
            advance(connections, slot, position);
            self.slots.advance(Advance { slot, position });
            self.history.look(token);
            self.slots.look(slots);
            return Some(step);
        }
        settle(connections, slot);
        self.history.look(token);
        self.slots.look(slots);
        Some(step)
    }

    /// Shows a connection the log and the events of the slots.
    pub(crate) fn show(
        &mut self,
        token: &mut Option<HistoryToken<P>>,
        slots: &mut Option<SlotToken<P>>,
    )
        ensures log { self.new ≡ self.old }
        ensures seen { IsShown P.checked self.old (sight_of token.old) (sight_of token.new) (slot_sight_of slots.old)
            (slot_sight_of slots.new) }
    {
        self.history.look(token);
        self.slots.look(slots);
    }

    /// The subscribers that get something of the commit with this number.
    pub(crate) fn concerned(&self, number: CommitNumber) -> OwnerSet
        ensures { OwnedWhere result (gets_some P.checked.plan (entry_at self.now number)) }
    {
        self.book.concerned(number)
    }

    /// The slots whose sender has something to do since the commit with this number: those whose subscriber gets
    /// something of it, and at each multiple of `TOGETHER`, those that are that many commits behind.
    pub(crate) fn waiting(&self, number: CommitNumber) -> OwnerSet {
        let mut slots = self.concerned(number);
        slots.join(self.behind(number, TOGETHER));
        slots
    }

    /// At each multiple of `batch`, the slots whose sender is that many commits behind the commit with this number; at
    /// other numbers none.
    pub(crate) fn behind(&self, number: CommitNumber, batch: u32) -> OwnerSet {
        let mut slots = OwnerSet::none();
        if batch == 0 || number % batch != 0 {
            return slots;
        }
        for (slot, connection) in self.connections.iter().enumerate() {
            if slot < 32 {
                let sent = connection.sent.commits_before();
                let behind = u64::from(number).saturating_sub(sent);
                slots.put(slot, behind >= u64::from(batch));
            }
        }
        slots
    }

    /// The slots whose connection has ended.
    pub(crate) fn ended(&self) -> OwnerSet {
        let mut slots = OwnerSet::none();
        for (slot, connection) in self.connections.iter().enumerate() {
            if slot < 32 {
                slots.put(slot, connection.has_ended);
            }
        }
        slots
    }

    /// The slots whose sender has something to do other than commits, where the connections of these had ended before.
    pub(crate) fn wanted(&self, ended: OwnerSet) -> OwnerSet {
        let mut slots = OwnerSet::none();
        for (slot, connection) in self.connections.iter().enumerate() {
            if slot < 32 {
                let ends = connection.has_ended && !ended.has(slot);
                slots.put(slot, connection.wants_reply || ends);
            }
        }
        slots
    }

    /// Lets a task use the book and the state of each slot's connection.
    #[tactic(auto, using(crate::proofs::HeldLemmas::kept_events))]
    pub(crate) fn with_slots<U: SlotTask>(&mut self, user: &mut U) -> U::Answer
        ensures log { self.new ≡ self.old }
        ensures lent { IsLent U.did P.checked user.old user.new result }
    {
        user.use_slots(&mut self.book, self.connections.as_mut_slice())
    }

    /// Does what `with_slots` does. The seat's tokens have then seen the whole history and all events.
    #[tactic(auto, using(crate::proofs::HeldLemmas::kept_events))]
    pub(crate) fn with_slots_for<U: SlotTask>(
        &mut self,
        token: &mut Option<HistoryToken<P>>,
        slots: &mut Option<SlotToken<P>>,
        user: &mut U,
    ) -> U::Answer
        ensures log { self.new ≡ self.old }
        ensures lent { LendsTo U.did P.checked user.old user.new result (sight_of token.old) (sight_of token.new)
            (slot_sight_of slots.old) (slot_sight_of slots.new) }
    {
        self.book.has_each_slot();
        let answer = user.use_slots(&mut self.book, self.connections.as_mut_slice());
        self.history.look(token);
        self.slots.look(slots);
        answer
    }

    /// Lets the task of a connection use the book and the state of each slot's connection, acquire a slot, and confirm
    /// a position for the one that the connection has. The connection has then seen the log and all events. Returns the
    /// permit of the slot that was acquired with the answer. Nothing is done after more acquisitions than a number of
    /// 64 bits counts.
    #[tactic(auto, using(crate::proofs::StreamLemmas::streamed_events))]
    pub(crate) fn with_stream<U: StreamTask>(
        &mut self,
        token: &mut Option<HistoryToken<P>>,
        slots: &mut Option<SlotToken<P>>,
        user: &mut U,
    ) -> Option<(U::Answer, Option<Permit>)>
        requires { HoldsIf (slot_sight_of slots.old).held (U.stream user.old) }
        ensures log { self.new ≡ self.old }
        ensures used { IsStreamedIf U.did P.checked user.old user.new (sight_of token.old) (sight_of token.new)
            (slot_sight_of slots.old) (slot_sight_of slots.new) result }
    {
        let number = self.slots.next_number()?;
        self.book.has_each_slot();
        let (answer, acquired, confirmed) = user.use_stream(
            &mut self.book,
            self.connections.as_mut_slice(),
            number,
        );
        let permit = Permit::of(&acquired);
        self.history.look(token);
        self.slots.note(slots, acquired, number, confirmed);
        Some((answer, permit))
    }

    /// Releases the slot that the connection has. The connection has then seen the log, as it is now, and all events.
    /// The slot's connection has ended. Returns the position up to which its client was sent the log.
    #[tactic(auto, using(crate::proofs::SlotLemmas::released_events))]
    pub(crate) fn release(
        &mut self,
        token: &mut Option<HistoryToken<P>>,
        slots: &mut Option<SlotToken<P>>,
        slot: SlotNumber,
    ) -> Lsn
        requires { Holds (slot_sight_of slots.old).held slot }
        ensures log { self.new ≡ self.old }
        ensures seen { SeesLog P.checked (sight_of token.old) (sight_of token.new) }
        ensures released { Releases slot result (length (sight_of token.new).seen) (slot_sight_of slots.old)
            (slot_sight_of slots.new) }
    {
        let commits = self.book.log_len();
        let connections = self.connections.as_mut_slice();
        let sent = sent_up_to(connections, slot);
        part(connections, slot);
        self.book.release(slot);
        self.history.look(token);
        self.slots.release(slots, Release { slot, commits });
        sent
    }

    /// Shows a connection the log, of which what another token has seen is a beginning.
    pub(crate) fn compare(
        &mut self,
        token: &mut Option<HistoryToken<P>>,
        other: &mut Option<HistoryToken<P>>,
    )
        ensures log { self.new ≡ self.old }
        ensures seen { SeesLog P.checked (sight_of token.old) (sight_of token.new) }
        ensures begins { StartsWith (sight_of token.new).seen (sight_of other.old).seen }
        ensures same { sight_of other.new ≡ sight_of other.old }
    {
        self.history.compare(other);
        self.history.look(token);
    }

    /// Shows a connection the events of the slots, of which those that another has seen are the first.
    pub(crate) fn compare_slots(
        &mut self,
        slots: &mut Option<SlotToken<P>>,
        other: &mut Option<SlotToken<P>>,
    )
        ensures log { self.new ≡ self.old }
        ensures seen { SeesSlots (slot_sight_of slots.old) (slot_sight_of slots.new) }
        ensures begins { BeginsWith (slot_sight_of slots.new).events (slot_sight_of other.old).events }
        ensures same { slot_sight_of other.new ≡ slot_sight_of other.old }
    {
        self.slots.compare(other);
        self.slots.look(slots);
    }

    /// There will be no further commit.
    pub(crate) fn finish(&mut self)
        ensures { self.new ≡ self.old }
    {
        self.is_finished = true;
    }

    /// The book and the histories, without the lock. The catalog is the one that the publisher was made from.
    pub(crate) fn into_closing(self, alloc: Global, checked: Arc<Checked, Global>) -> Closing<P>
        requires { checked_view (arc_value checked) ≡ P.checked }
    {
        let Desk {
            book,
            counted,
            history,
            slots,
            ..
        } = self;
        Closing {
            alloc,
            checked,
            book,
            counted,
            history,
            slots,
        }
    }
}
