//! The publisher's tables, its log and its slots.

ghost use Rattle.std.specs.Prelude.{◌≡◌, ◌≤◌, length, map};
ghost use Rattle.std.specs.Arc.{arc_value};
ghost use Rattle.row_owners.specs.Routers.{IsRouterOf};
ghost use Rattle.shard_checker.specs.CheckedView.{checked_view};
ghost use Rattle.tables_log.specs.Applying.{HasMaps};
ghost use Rattle.tables_log.specs.Logs.{IsNumbered};
ghost use Rattle.tables_log.specs.Routes.{commit_in, AreRouted};
ghost use Rattle.tables_log.specs.Settling.{IsSettled};
ghost use Rattle.tables_log.specs.Slots.{IsBounded};

use crate::commit::Commit;
use crate::committing::{check_count, commit_tables, empty_tables};
use crate::error::{CommitError, StartError, StatusAhead};
use crate::lsn::{CommitNumber, Lsn};
use crate::routed::{Routed, entries_after, passed_over};
use crate::slots::{self, Slot, SlotNumber};
use crate::table_rows::TableRows;
use filter_tree::{Row, TableNumber};
use pub_catalog::SubscriberNumber;
use row_owners::{OwnerSet, Router};
use shard_checker::Checked;
use std::alloc::{AllocError, Global};
use std::sync::Arc;
use table_changes::Command;

/// The tables of a catalog whose sharding is sound, the log of the commits that made their rows, and a replication slot
/// for each subscription.
///
/// A book is the result of the transactions that it accepted: its tables have the rows that these leave, applied one
/// after another to tables without rows, and its log has an entry for each.
///
/// PostgreSQL 15, 3.4. Transactions, and "Logical Replication", 31.1 Publication.
#[derive(Drop)]
pub struct Book {
    alloc: Global,
    checked: Arc<Checked, Global>,
    router: Router,
    limit: u32,
    tables: Vec<TableRows>,
    log: Vec<Routed>,
    slots: Vec<Slot>,
    ghost routing: { IsRouterOf (checked_view (arc_value checked)).plan router },
    ghost some: { 1 ≤ limit },
    ghost within: { limit ≤ 1000000000 },
    ghost room: { length log.items ≤ limit },
    ghost numbered: { IsNumbered (map commit_in log.items) },
    ghost routed: { AreRouted (checked_view (arc_value checked)).plan log.items },
    ghost maps: { HasMaps (checked_view (arc_value checked)).catalog.tables tables.items },
    ghost settled: { IsSettled tables.items },
    ghost bounded: { IsBounded slots.items (length log.items) },
    ghost each: { length slots.items ≡ length (checked_view (arc_value checked)).catalog.subscriptions },
}

impl Book {
    ghost use Rattle.std.specs.Prelude.{◌≡◌, ◌+◌, ◌-◌, ◌*◌, ◌<◌, ◌≤◌, max, length, map, slice_get, IfOk, IfErr, IfSome, IsSome, OnOk, OnErr};
    ghost use Rattle.std.specs.Arc.{arc_value};
    ghost use Rattle.std.specs.Option.{option_map, option_copied};
    ghost use Rattle.filter_tree.specs.Memory.{NeedsMemoryOnlyIf};
    ghost use Rattle.row_owners.specs.Owners.{OwnedWhere};
    ghost use Rattle.shard_checker.specs.CheckedView.{checked_view};
    ghost use Rattle.table_changes.specs.Commands.{command_view};
    ghost use Rattle.tables_log.specs.BookView.{book_checked, book_limit, book_log, book_rows, book_listed, book_slots};
    ghost use Rattle.tables_log.specs.Committing.{IsNew, Commits, HasRoomFor, IsKept, ChangesSlots, RefusedBy};
    ghost use Rattle.tables_log.specs.Listing.{ListsFound};
    ghost use Rattle.tables_log.specs.Logs.{entry_at, IsNumbered};
    ghost use Rattle.tables_log.specs.Places.{IsInOrder};
    ghost use Rattle.tables_log.specs.Routes as spec;
    ghost use Rattle.tables_log.specs.Routes.{commit_in, gets_some, ArePassed, IsRouted};
    ghost use Rattle.tables_log.specs.Lsn.{end_lsn_of};
    ghost use Rattle.tables_log.specs.Slots.{confirmed_at, start_fault, started, released, confirmed_up_to};

    /// A book of the catalog's tables, without rows, with an empty log that may have at most `limit` commits, and with
    /// a slot for each subscription, for which nothing is confirmed. The only error is out of memory.
    #[tactic(auto, using(crate::proofs::BookLemmas::narrow_limited))]
    pub fn new(alloc: Global, checked: Arc<Checked, Global>, limit: u32) -> Result<Book, AllocError>
        requires some { 1 ≤ limit }
        requires within { limit ≤ 1000000000 }
        ensures { IfOk result (λ book. IsNew book (checked_view (arc_value checked)) limit) }
    {
        let catalog = checked.catalog();
        let tables = empty_tables(alloc, catalog.tables.as_slice())?;
        let free = Slot {
            confirmed: Lsn::new(0),
            taken: false,
        };
        let slots = vec![in alloc; free; catalog.subscriptions.len()]?;
        let router = Router::new(alloc, &checked)?;
        Ok(Book {
            alloc,
            checked,
            router,
            limit,
            tables,
            log: Vec::new(alloc),
            slots,
        })
    }

    /// Applies the commands as one transaction, each to what the earlier ones leave, and logs it with this time, in
    /// microseconds since 2000-01-01. Returns its number, from 1. If there is an error, nothing changes.
    ///
    /// The time it takes is that of its commands, each times the logarithm of the number of a table's rows. It looks at
    /// no other row, and at tables that no command names only if a command is refused.
    ///
    /// # Errors
    ///
    /// The first of `EmptyTransaction`, `TooManyCommands` (more than 1,000), `LogFull`, and `At` with the number, from
    /// 1, of the first command that has a fault, and the fault; or `OutOfMemory` instead of such a fault if an
    /// allocation was refused. The others need no memory.
    ///
    /// PostgreSQL 15, 3.4. Transactions, and Chapter 6 Data Manipulation.
    #[tactic(auto, using(crate::proofs::Rules::committing))]
    pub fn commit(&mut self, commands: &[Command], time: u64) -> Result<CommitNumber, CommitError>
        ensures ok { IfOk result (λ number. Commits self.old self.new (map command_view commands.now) time number) }
        ensures refused { IfErr result (RefusedBy self.old (map command_view commands.now)) }
        ensures memory { NeedsMemoryOnlyIf CommitError.OutOfMemory
            (HasRoomFor self.old (map command_view commands.now)) result }
        ensures err { OnErr result (IsKept self.old self.new) }
    {
        check_count(commands.len())?;
        let count = self.log_len();
        if count == self.limit {
            return Err(CommitError::LogFull);
        }
        let number = count + 1;
        self.log.reserve(1)?;
        let commit = commit_tables(
            self.alloc,
            &self.checked,
            &mut self.tables,
            commands,
            number,
            time,
        )?;
        let routes = self
            .router
            .routes_of(self.alloc, &self.checked, commit.changes());
        self.log.push_reserved(Routed { commit, routes });
        Ok(number)
    }

    /// That there is a slot for each subscription of the catalog; no code.
    pub fn has_each_slot(&self)
        ensures { length (book_slots self.now) ≡ length (book_checked self.now).catalog.subscriptions }
    {
        let _slots = &self.slots;
    }

    /// How many commits the log may have, from 1 to 1,000,000,000, as it was given to `Book::new`.
    pub fn limit(&self) -> u32
        ensures shows { result ≡ book_limit self.now }
        ensures some { 1 ≤ result }
        ensures within { result ≤ 1000000000 }
    {
        self.limit
    }

    /// The number of commits in the log, which is also the number of the last one.
    pub fn log_len(&self) -> CommitNumber
        ensures shows { result ≡ length (book_log self.now) }
        ensures room { result ≤ book_limit self.now }
        ensures within { book_limit self.now ≤ 1000000000 }
        ensures numbered { IsNumbered (book_log self.now) }
    {
        self.log.len() as u32
    }

    /// The commit with this number: `Some` for 1 to `log_len()`.
    #[tactic(auto, using(crate::proofs::BookLemmas::found_numbered))]
    pub fn entry(&self, number: CommitNumber) -> Option<&Commit>
        ensures shows { option_map (λ commit. commit.now) result ≡ entry_at (book_log self.now) number }
        ensures numbered { IfSome result (λ commit. commit.now.number ≡ number) }
    {
        match self.place(number) {
            None => None,
            Some(entry) => Some(&*entry.commit),
        }
    }

    /// Another reference to the commit with this number: `Some` for 1 to `log_len()`. The only error is that an
    /// existing commit is shared too often.
    #[tactic(auto, using(crate::proofs::BookLemmas::found_numbered))]
    pub fn shared(&self, number: CommitNumber) -> Result<Option<Arc<Commit, Global>>, AllocError>
        ensures shows { IfOk result (λ found. option_map (λ commit. arc_value commit) found ≡ entry_at
            (book_log self.now) number) }
        ensures numbered { IfOk result (λ found. IfSome found (λ commit. (arc_value commit).number ≡ number)) }
        ensures logged { OnErr result (IsSome (entry_at (book_log self.now) number)) }
    {
        let Some(entry) = self.place(number) else {
            return Ok(None);
        };
        Ok(Some(Arc::try_clone(&entry.commit)?))
    }

    /// The entry with this number: `Some` for 1 to `log_len()`. The only error is that an existing entry is shared too
    /// often.
    #[tactic(auto, using(crate::proofs::BookLemmas::found_numbered))]
    pub fn routed(&self, number: CommitNumber) -> Result<Option<Routed>, AllocError>
        ensures shows { IfOk result (λ found. option_map (λ entry. commit_in entry) found ≡ entry_at
            (book_log self.now) number) }
        ensures routed { IfOk result (λ found. IfSome found (IsRouted (book_checked self.now).plan)) }
        ensures numbered { IfOk result (λ found. IfSome found (λ entry. (commit_in entry).number ≡ number)) }
        ensures logged { OnErr result (IsSome (entry_at (book_log self.now) number)) }
    {
        let Some(found) = self.place(number) else {
            return Ok(None);
        };
        Ok(Some(found.try_clone()?))
    }

    /// The subscribers that get something of the commit with this number; none if there is no such commit.
    ///
    /// PostgreSQL 15, "Logical Replication", 31.3.3 UPDATE Transformations.
    pub fn concerned(&self, number: CommitNumber) -> OwnerSet
        ensures { OwnedWhere result (gets_some (book_checked self.now).plan (entry_at (book_log self.now) number)) }
    {
        match self.place(number) {
            None => OwnerSet::none(),
            Some(entry) => entry.routes.all(),
        }
    }

    /// The commits after the first `done` ones, before the first of which the subscriber gets something, and at most
    /// 64. They are numbered from the next number on. No filter is evaluated: the time it takes is that of these
    /// commits alone.
    ///
    /// The only errors are out of memory, and that a commit is shared too often.
    pub fn passed_over(
        &self,
        subscriber: SubscriberNumber,
        done: CommitNumber,
    ) -> Result<Vec<Arc<Commit, Global>>, AllocError>
        requires { subscriber < 32 }
        ensures shows { IfOk result (λ commits. map (λ commit. arc_value commit) commits.items
            ≡ spec.passed_over (book_checked self.now).plan subscriber (book_log self.now) done) }
        ensures passed { IfOk result (λ commits.
            ArePassed (book_checked self.now).plan subscriber done (map (λ commit. arc_value commit) commits.items)) }
        ensures within { IfOk result (λ commits. length commits.items ≤ length (book_log self.now) - done) }
    {
        let entries = entries_after(self.log.as_slice(), done as usize);
        Ok(passed_over(self.alloc, entries, subscriber)?)
    }

    /// The row of the table that has this primary key, if there is one. The key has its values in the order of the
    /// primary key's columns.
    pub fn row(&self, table: TableNumber, key: &Row) -> Option<&Row>
        ensures { option_map (λ row. row.now) result ≡ book_rows self.now table 0 key.now }
    {
        match self.tables.get(table) {
            None => None,
            Some(rows) => rows.get(0, key).map(|row| row.row()),
        }
    }

    /// Copies of the table's rows, in their order: NULL first, numbers by their size, FALSE before TRUE, texts byte by
    /// byte, by the first column in which the rows differ. There are none if the table does not exist. The only error
    /// is out of memory.
    ///
    /// PostgreSQL 15, 7.5 Sorting Rows.
    pub fn rows(&self, table: TableNumber) -> Result<Vec<Row>, AllocError>
        ensures shows { IfOk result (λ rows. IsInOrder (book_listed self.now table) rows.items) }
        ensures found { OnOk result (ListsFound (book_rows self.now table 0) (book_listed self.now table)) }
    {
        match self.table(table) {
            None => Ok(Vec::new(self.alloc)),
            Some(rows) => Ok(rows.rows(self.alloc)?),
        }
    }

    /// The position up to which the slot's subscriber has confirmed the log, which is at most 64 * log_len() + 64; 0 if
    /// nothing is confirmed, or there is no such slot.
    pub fn confirmed(&self, slot: SlotNumber) -> u64
        ensures shows { result ≡ confirmed_at (book_slots self.now) slot }
        ensures bounded { result ≤ end_lsn_of (length (book_log self.now)) }
    {
        slots::confirmed(&self.slots, slot).to_u64()
    }

    /// Acquires the slot for a stream that starts at the position, or at the confirmed one if that is greater; returns
    /// where it starts. If there is an error, nothing changes.
    ///
    /// # Errors
    ///
    /// The first of `NoSlot`, `Ahead` (the position is above 64 * log_len() + 64) and `InUse`.
    ///
    /// PostgreSQL 15, 55.4. Streaming Replication Protocol (START_REPLICATION SLOT .. LOGICAL).
    pub fn start(&mut self, slot: SlotNumber, position: u64) -> Result<u64, StartError>
        ensures ok { OnOk result (ChangesSlots self.old self.new (started (book_slots self.old) slot)) }
        ensures at { IfOk result (λ start. start ≡ max position (confirmed_at (book_slots self.old) slot)) }
        ensures within { IfOk result (λ start. start ≤ end_lsn_of (length (book_log self.old))) }
        ensures accepted { OnOk result
            (start_fault (book_slots self.old) (end_lsn_of (length (book_log self.old))) slot position ≡ None) }
        ensures refused { IfErr result (λ error.
            start_fault (book_slots self.old) (end_lsn_of (length (book_log self.old))) slot position ≡ Some error) }
        ensures err { OnErr result (IsKept self.old self.new) }
    {
        let end = self.end();
        let start = slots::start(&mut self.slots, end, slot, Lsn::new(position))?;
        Ok(start.to_u64())
    }

    /// Releases the slot, so that another stream may acquire it.
    pub fn release(&mut self, slot: SlotNumber)
        ensures { ChangesSlots self.old self.new (released (book_slots self.old) slot) }
    {
        slots::release(&mut self.slots, slot);
    }

    /// Confirms the log up to the position for the slot's subscriber, which was sent the log up to `sent`. A position
    /// that is not above the confirmed one changes nothing.
    ///
    /// # Errors
    ///
    /// `StatusAhead` if the position is above `sent`; then nothing changes.
    ///
    /// PostgreSQL 15, 55.4. Streaming Replication Protocol (Standby status update).
    pub fn confirm(&mut self, slot: SlotNumber, position: u64, sent: u64) -> Result<(), StatusAhead>
        requires { sent ≤ end_lsn_of (length (book_log self.old)) }
        ensures ok { OnOk result (ChangesSlots self.old self.new (confirmed_up_to
            (book_slots self.old) slot position)) }
        ensures accepted { OnOk result (position ≤ sent) }
        ensures refused { OnErr result (sent < position) }
        ensures err { OnErr result (IsKept self.old self.new) }
    {
        if position > sent {
            return Err(StatusAhead);
        }
        slots::confirm(&mut self.slots, slot, Lsn::new(position));
        Ok(())
    }

    /// The rows of the table with this number.
    fn table(&self, number: TableNumber) -> Option<&TableRows>
        ensures { option_copied result ≡ slice_get self.now.tables.items number }
    {
        self.tables.get(number)
    }

    /// The entry with this number.
    fn place(&self, number: CommitNumber) -> Option<&Routed>
        ensures shows { option_map (λ entry. commit_in entry.now) result ≡ entry_at (book_log self.now) number }
        ensures routed { IfSome result (λ entry. IsRouted (book_checked self.now).plan entry.now) }
    {
        if number == 0 {
            return None;
        }
        self.log.get(number as usize - 1)
    }

    /// Where the log ends.
    fn end(&self) -> Lsn
        ensures { result ≡ end_lsn_of (length (book_log self.now)) }
    {
        Lsn::end_of_commit(self.log_len())
    }
}
