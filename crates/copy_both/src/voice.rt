//! The half of a connection's end that sends.

use crate::link_fault::LinkFault;
use crate::stream_state::StreamState;
use crate::taken::Taken;
use bytes::BytesMut;
use copy_frames::{Keepalive, append_copy_both_response, append_copy_done, append_keepalive};
use row_owners::OwnerSet;
use shard_checker::Checked;
use std::alloc::{AllocError, Global};
use std::sync::Arc;
use tables_log::{Book, Commit, Lsn, Routed, SlotNumber};

/// The state of a voice.
#[derive(Drop)]
pub(crate) enum Stage {
    NotStarted,
    Started(StreamState),
    Closed,
}

/// The half of a connection's end that sends: where it is in the log, the tables whose Relation was sent, and the
/// output that waits. It needs neither the tables nor the log, so that it may run in a thread of its own.
///
/// The first fault closes it, and so does its end; from then on each call that sends returns `Closed`. What waits
/// remains, as whole frames.
///
/// PostgreSQL 15, 55.4. Streaming Replication Protocol.
#[derive(Drop)]
pub struct Voice {
    alloc: Global,
    checked: Arc<Checked, Global>,
    pub(crate) stage: Stage,
    out: BytesMut,
}

impl Voice {
    ghost use Rattle.std.specs.Prelude.{◌≡◌, ◌≤◌, ◌++◌, ℕ, [], length, Some, IfSome, IsTrue, OnOk, OnErr};
    ghost use Rattle.std.specs.Arc.{arc_value};
    ghost use Rattle.filter_tree.specs.Memory.{Answers, NeedsMemoryOnlyIf};
    ghost use Rattle.row_owners.specs.Owners.{AreOwners};
    ghost use Rattle.shard_checker.specs.CheckedView.{checked_view};
    ghost use Rattle.tables_log.specs.BookView.{book_checked, book_log};
    ghost use Rattle.tables_log.specs.Logs.{entry_at};
    ghost use Rattle.tables_log.specs.Routes.{IsRouted, commit_in};
    ghost use Rattle.copy_frames.specs.Contents.{copy_both_response};
    ghost use Rattle.copy_both.specs.Spared.{IsSpared, RouteAlike};
    ghost use Rattle.copy_both.specs.Voices as spec;
    ghost use Rattle.copy_both.specs.Voices.{EntryIsReadBack, IsQuietFor, IsStarted, Sends, Closes, reported_fault, voice_checked, voice_stage, voice_output, voice_room};
    ghost use Rattle.copy_both.specs.declared.link_fault.LinkFault.TheVariants.{OutOfMemory};

    /// A voice that has not started and has nothing to send.
    pub fn new(alloc: Global, checked: Arc<Checked, Global>) -> Voice
        ensures checked { voice_checked result ≡ checked_view (arc_value checked) }
        ensures stage { voice_stage result ≡ spec.NotStarted }
        ensures output { voice_output result ≡ [] }
    {
        Voice {
            alloc,
            checked,
            stage: Stage::NotStarted,
            out: BytesMut::new(alloc),
        }
    }

    /// Starts the stream of a slot at a position of the log, in bytes: sends CopyBothResponse. The commits from there
    /// on are taken next.
    ///
    /// # Errors
    ///
    /// `Closed` if it was started before; `OutOfMemory` only if it was not. Each closes it.
    pub fn start(&mut self, slot: SlotNumber, position: u64) -> Result<(), LinkFault>
        ensures answer { Answers (λ done. done) reported_fault (spec.start_answer (voice_stage self.old)) result }
        ensures memory { NeedsMemoryOnlyIf OutOfMemory (voice_stage self.old ≡ spec.NotStarted) result }
        ensures ok { OnOk result (Sends self.old self.new copy_both_response
            (spec.first_stage (voice_checked self.old) slot position)) }
        ensures err { OnErr result (Closes self.old self.new) }
    {
        let started = self.begin(slot, Lsn::new(position));
        if started.is_err() {
            self.close();
        }
        started
    }

    fn begin(&mut self, slot: SlotNumber, position: Lsn) -> Result<(), LinkFault>
        ensures answer { Answers (λ done. done) reported_fault (spec.start_answer (voice_stage self.old)) result }
        ensures memory { NeedsMemoryOnlyIf OutOfMemory (voice_stage self.old ≡ spec.NotStarted) result }
        ensures ok { OnOk result (Sends self.old self.new copy_both_response
            (spec.first_stage (voice_checked self.old) slot position)) }
        ensures checked { voice_checked self.new ≡ voice_checked self.old }
        ensures err { OnErr result (voice_output self.new ≡ voice_output self.old) }
    {
        match self.stage {
            Stage::NotStarted => {}
            Stage::Started(_) | Stage::Closed => return Err(LinkFault::Closed),
        }
        let tables = self.checked.catalog().tables.len();
        let state = StreamState::new(self.alloc, slot, tables, position)?;
        append_copy_both_response(&mut self.out)?;
        self.stage = Stage::Started(state);
        Ok(())
    }

    /// Takes the next commit: sends the messages that report it to the subscriber, each in an XLogData at the commit's
    /// position. `now` is the clock, in microseconds since 2000-01-01. A commit without a change for the subscriber is
    /// skipped. The commit is that of the number `next()`, if there is one. Each message that is sent is decoded from
    /// its spelling (`read_back`).
    ///
    /// The time it takes is that of the commit's changes and messages.
    ///
    /// # Errors
    ///
    /// `Closed` if it was closed before; `OutOfMemory`, which closes it, only while the stream runs. Then nothing of
    /// the commit is sent.
    pub fn take_entry(&mut self, commit: &Commit, now: u64) -> Result<Taken, LinkFault>
        requires { IfSome (spec.next_of (voice_stage self.old)) (λ next. commit.now.number ≡ next) }
        ensures answer { Answers (λ taken. taken) reported_fault
            (spec.entry_answer (voice_checked self.old) (voice_stage self.old) commit.now) result }
        ensures memory { NeedsMemoryOnlyIf OutOfMemory (IsStarted (voice_stage self.old)) result }
        ensures ok { OnOk result (Sends self.old self.new
            (spec.entry_bytes (voice_checked self.old) (voice_stage self.old) commit.now now)
            (spec.entry_stage (voice_checked self.old) (voice_stage self.old) commit.now)) }
        ensures read_back { OnOk result
            (EntryIsReadBack (voice_checked self.old) (voice_stage self.old) commit.now) }
        ensures err { OnErr result (Closes self.old self.new) }
    {
        let taken = self.take(commit, &[], now);
        if taken.is_err() {
            self.close();
        }
        taken
    }

    /// Takes the next commit of a log, as `take_entry` does. A change from which the subscriber gets nothing, by the
    /// sets that the log keeps with the commit, is not looked at.
    ///
    /// The time it takes is that of the changes that are for the subscriber and their messages, and one test for each
    /// change.
    ///
    /// # Errors
    ///
    /// `Closed` if it was closed before; `OutOfMemory`, which closes it, only while the stream runs. Then nothing of
    /// the commit is sent.
    pub fn take_routed(&mut self, routed: &Routed, now: u64) -> Result<Taken, LinkFault>
        requires next { IfSome (spec.next_of (voice_stage self.old)) (λ next. (commit_in routed.now).number ≡ next) }
        requires routed { IsRouted (voice_checked self.old).plan routed.now }
        ensures answer { Answers (λ taken. taken) reported_fault
            (spec.entry_answer (voice_checked self.old) (voice_stage self.old) (commit_in routed.now)) result }
        ensures memory { NeedsMemoryOnlyIf OutOfMemory (IsStarted (voice_stage self.old)) result }
        ensures ok { OnOk result (Sends self.old self.new
            (spec.entry_bytes (voice_checked self.old) (voice_stage self.old) (commit_in routed.now) now)
            (spec.entry_stage (voice_checked self.old) (voice_stage self.old) (commit_in routed.now))) }
        ensures read_back { OnOk result
            (EntryIsReadBack (voice_checked self.old) (voice_stage self.old) (commit_in routed.now)) }
        ensures err { OnErr result (Closes self.old self.new) }
    {
        let taken = self.take(routed.commit(), routed.owners(), now);
        if taken.is_err() {
            self.close();
        }
        taken
    }

    fn take(&mut self, commit: &Commit, owners: &[OwnerSet], now: u64) -> Result<Taken, LinkFault>
        requires next { IfSome (spec.next_of (voice_stage self.old)) (λ next. commit.now.number ≡ next) }
        requires owners { AreOwners (voice_checked self.old).plan commit.now.changes owners.now }
        ensures answer { Answers (λ taken. taken) reported_fault
            (spec.entry_answer (voice_checked self.old) (voice_stage self.old) commit.now) result }
        ensures memory { NeedsMemoryOnlyIf OutOfMemory (IsStarted (voice_stage self.old)) result }
        ensures ok { OnOk result (Sends self.old self.new
            (spec.entry_bytes (voice_checked self.old) (voice_stage self.old) commit.now now)
            (spec.entry_stage (voice_checked self.old) (voice_stage self.old) commit.now)) }
        ensures read_back { OnOk result
            (EntryIsReadBack (voice_checked self.old) (voice_stage self.old) commit.now) }
        ensures checked { voice_checked self.new ≡ voice_checked self.old }
        ensures err { OnErr result (voice_output self.new ≡ voice_output self.old) }
    {
        match &mut self.stage {
            Stage::NotStarted => Ok(Taken::NotStarted),
            Stage::Closed => Err(LinkFault::Closed),
            Stage::Started(state) => {
                Ok(state.take(
                    self.alloc,
                    &self.checked,
                    commit,
                    owners,
                    now,
                    &mut self.out,
                )?)
            }
        }
    }

    /// Takes the next commit, of which the subscriber gets nothing: it is skipped, as `take_entry` skips it at any
    /// clock. Nothing is sent, no memory is allocated, and the commit's changes are not looked at. The commit is that
    /// of the number `next()`, if there is one. If the stream does not run, nothing changes.
    pub fn skip(&mut self, commit: &Commit)
        requires next { IfSome (spec.next_of (voice_stage self.old)) (λ next. commit.now.number ≡ next) }
        requires quiet { IsQuietFor (voice_checked self.old) (voice_stage self.old) commit.now }
        ensures { (clock : ℕ) → Sends self.old self.new
            (spec.entry_bytes (voice_checked self.old) (voice_stage self.old) commit.now clock)
            (spec.entry_stage (voice_checked self.old) (voice_stage self.old) commit.now) }
    {
        if let Stage::Started(state) = &mut self.stage {
            state.skip(commit.number());
        }
    }

    /// Takes the next commit, which is in the book's log, as `take_entry` does. A commit from which the subscriber gets
    /// nothing by the sets that the book keeps with it is skipped, and so is such a change of another commit.
    pub(crate) fn take_held(
        &mut self,
        book: &Book,
        commit: &Commit,
        now: u64,
    ) -> Result<Taken, LinkFault>
        requires next { IfSome (spec.next_of (voice_stage self.old)) (λ next. commit.now.number ≡ next) }
        requires held { entry_at (book_log book.now) commit.now.number ≡ Some commit.now }
        requires alike { RouteAlike (book_checked book.now).plan (voice_checked self.old).plan }
        ensures answer { Answers (λ taken. taken) reported_fault
            (spec.entry_answer (voice_checked self.old) (voice_stage self.old) commit.now) result }
        ensures memory { NeedsMemoryOnlyIf OutOfMemory (IsStarted (voice_stage self.old)) result }
        ensures ok { OnOk result (Sends self.old self.new
            (spec.entry_bytes (voice_checked self.old) (voice_stage self.old) commit.now now)
            (spec.entry_stage (voice_checked self.old) (voice_stage self.old) commit.now)) }
        ensures read_back { OnOk result
            (EntryIsReadBack (voice_checked self.old) (voice_stage self.old) commit.now) }
        ensures err { OnErr result (Closes self.old self.new) }
    {
        let number = commit.number();
        if self.is_spared(book.concerned(number)) {
            self.skip(commit);
            return Ok(Taken::Skipped(number));
        }
        match book.routed(number) {
            Ok(Some(entry)) => self.take_routed(&entry, now),
            Ok(None) | Err(_) => self.take_entry(commit, now),
        }
    }

    /// Whether the stream runs, and the set lacks the subscriber of its slot.
    fn is_spared(&self, owners: OwnerSet) -> bool
        ensures { IsTrue result → IsSpared owners (voice_stage self.now) }
    {
        match &self.stage {
            Stage::Started(state) if state.slot < 32 => !owners.has(state.slot),
            _ => false,
        }
    }

    /// Sends a keepalive with the sent position and this clock, in microseconds since 2000-01-01, which may request a
    /// status. Returns false if the stream has not started: then nothing is sent.
    ///
    /// # Errors
    ///
    /// `Closed` if it was closed before; `OutOfMemory`, which closes it, only while the stream runs.
    pub fn keepalive(&mut self, now: u64, want: bool) -> Result<bool, LinkFault>
        ensures answer { Answers (λ said. said) reported_fault (spec.keep_answer (voice_stage self.old)) result }
        ensures memory { NeedsMemoryOnlyIf OutOfMemory (IsStarted (voice_stage self.old)) result }
        ensures ok { OnOk result (Sends self.old self.new (spec.kept_bytes (voice_stage self.old) now want)
            (voice_stage self.old)) }
        ensures err { OnErr result (Closes self.old self.new) }
    {
        let said = self.keep(now, want);
        if said.is_err() {
            self.close();
        }
        said
    }

    fn keep(&mut self, now: u64, want: bool) -> Result<bool, LinkFault>
        ensures answer { Answers (λ said. said) reported_fault (spec.keep_answer (voice_stage self.old)) result }
        ensures memory { NeedsMemoryOnlyIf OutOfMemory (IsStarted (voice_stage self.old)) result }
        ensures ok { OnOk result (Sends self.old self.new (spec.kept_bytes (voice_stage self.old) now want)
            (voice_stage self.old)) }
        ensures checked { voice_checked self.new ≡ voice_checked self.old }
        ensures err { OnErr result (voice_output self.new ≡ voice_output self.old) }
    {
        let position = match &self.stage {
            Stage::NotStarted => return Ok(false),
            Stage::Closed => return Err(LinkFault::Closed),
            Stage::Started(state) => state.sent.to_u64(),
        };
        let keepalive = Keepalive {
            position,
            clock: now,
            wants_reply: want,
        };
        append_keepalive(&mut self.out, &keepalive)?;
        Ok(true)
    }

    /// Ends the stream: sends CopyDone, if it has started, and closes.
    ///
    /// # Errors
    ///
    /// `Closed` if it was closed before; `OutOfMemory` only while the stream runs.
    pub fn done(&mut self) -> Result<(), LinkFault>
        ensures answer { Answers (λ done. done) reported_fault (spec.done_answer (voice_stage self.old)) result }
        ensures memory { NeedsMemoryOnlyIf OutOfMemory (IsStarted (voice_stage self.old)) result }
        ensures ok { OnOk result (Sends self.old self.new (spec.done_bytes (voice_stage self.old)) spec.Closed) }
        ensures err { OnErr result (Closes self.old self.new) }
    {
        let ended = self.end();
        self.close();
        ended
    }

    fn end(&mut self) -> Result<(), LinkFault>
        ensures answer { Answers (λ done. done) reported_fault (spec.done_answer (voice_stage self.old)) result }
        ensures memory { NeedsMemoryOnlyIf OutOfMemory (IsStarted (voice_stage self.old)) result }
        ensures checked { voice_checked self.new ≡ voice_checked self.old }
        ensures ok { OnOk result (voice_output self.new
            ≡ voice_output self.old ++ spec.done_bytes (voice_stage self.old)) }
        ensures err { OnErr result (voice_output self.new ≡ voice_output self.old) }
    {
        match self.stage {
            Stage::NotStarted => Ok(()),
            Stage::Closed => Err(LinkFault::Closed),
            Stage::Started(_) => Ok(append_copy_done(&mut self.out)?),
        }
    }

    /// Sends the response to a start that is refused, and closes. The only error is out of memory.
    pub(crate) fn refuse(&mut self, response: &[u8]) -> Result<(), AllocError>
        ensures ok { OnOk result (Sends self.old self.new response.now spec.Closed) }
        ensures err { OnErr result (Closes self.old self.new) }
    {
        self.stage = Stage::Closed;
        self.out.extend_from_slice(response)?;
        Ok(())
    }

    pub(crate) fn close(&mut self)
        ensures { Closes self.old self.new }
    {
        self.stage = Stage::Closed;
    }

    /// The number of the commit that is to be taken next, if the stream has started.
    pub fn next(&self) -> Option<u64>
        ensures { result ≡ spec.next_of (voice_stage self.now) }
    {
        match &self.stage {
            Stage::NotStarted | Stage::Closed => None,
            Stage::Started(state) => Some(state.done + 1),
        }
    }

    /// The sent position, if the stream has started: where the last commit that was taken ends; if none was,
    /// where the stream started, which is 64 for a start at 0.
    pub fn sent(&self) -> Option<Lsn>
        ensures { result ≡ spec.sent_of (voice_stage self.now) }
    {
        match &self.stage {
            Stage::NotStarted | Stage::Closed => None,
            Stage::Started(state) => Some(state.sent),
        }
    }

    /// What waits to be sent.
    pub fn output(&self) -> &[u8]
        ensures { result.now ≡ voice_output self.now }
    {
        self.out.as_slice()
    }

    /// Drops this number of the first bytes that wait, or all if fewer wait, without a copy of the others. When nothing
    /// waits any more, the output has no room.
    pub fn passed(&mut self, count: usize)
        ensures passes { spec.Passes self.old self.new count }
        ensures room { voice_output self.new ≡ [] → voice_room self.new ≡ 0 }
    {
        if count < self.out.len() {
            self.out.advance(count);
        } else {
            self.out = BytesMut::new(self.alloc);
        }
    }
}
