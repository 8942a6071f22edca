//! The publisher's end of a connection.

ghost use Rattle.std.specs.Prelude.{◌≡◌, ◌+◌, slice_get, IfSome, Some};
ghost use Rattle.std.specs.Option.{option_map};
ghost use Rattle.copy_both.specs.Ears.{ear_phase, ear_started};
ghost use Rattle.copy_both.specs.ConnectionStates.{heard_state, said_state};
ghost use Rattle.copy_both.specs.Voices.{voice_stage};
ghost use Rattle.tables_log.specs.BookView.{book_log};
ghost use Rattle.tables_log.specs.Logs.{entry_at};

use crate::ear::Ear;
use crate::heard::Heard;
use crate::link_fault::LinkFault;
use crate::replies::answer_heard;
use crate::taken::Taken;
use crate::voice::{Stage, Voice};
use shard_checker::Checked;
use std::alloc::{AllocError, Global};
use std::sync::Arc;
use tables_log::{Book, Commit, Lsn, SlotNumber};

/// The commit of a log after the first `done` ones.
fn entry_after(book: &Book, done: u64) -> Option<&Commit>
    ensures shows { option_map (λ commit. commit.now) result ≡ slice_get (book_log book.now) done }
    ensures numbered { IfSome result (λ commit. commit.now.number ≡ done + 1) }
    ensures held { IfSome result (λ commit. entry_at (book_log book.now) commit.now.number ≡ Some commit.now) }
{
    if done >= u64::from(book.log_len()) {
        return None;
    }
    book.entry(done as u32 + 1)
}

/// The publisher's end of a connection, for use by one thread: it is given a client's bytes, and what is to be sent to
/// the client waits in the output. It consists of both halves, an `Ear` and a `Voice`: what is heard is answered at
/// once.
///
/// The first fault closes it, and so does the client's end; from then on each call that hears or sends returns
/// `Closed`. What waits remains, as whole frames. The slot stays in use until `lose`.
///
/// PostgreSQL 15, 55.4. Streaming Replication Protocol.
#[derive(Drop)]
pub struct Link {
    ear: Ear,
    voice: Voice,
    ghost together: { heard_state (ear_phase ear) (ear_started ear) ≡ said_state (voice_stage voice) },
}

impl Link {
    ghost use Rattle.std.specs.Prelude.{◌≡◌, IfOk, IfErr, OnOk, OnErr};
    ghost use Rattle.std.specs.Arc.{arc_value};
    ghost use Rattle.filter_tree.specs.Memory.{Answers, NeedsMemoryOnlyIf};
    ghost use Rattle.shard_checker.specs.CheckedView.{checked_view};
    ghost use Rattle.tables_log.specs.BookView.{book_checked, book_log};
    ghost use Rattle.copy_both.specs.Ears.{HearLeaves, IsAnsweredBy, ear_phase, ear_started, hear_answer};
    ghost use Rattle.copy_both.specs.Links as spec;
    ghost use Rattle.copy_both.specs.Links.{HasNext, HearSays, IsNewLink, LinkCloses, LinkLoses, LinkPasses, LinkSays, NextIsReadBack};
    ghost use Rattle.copy_both.specs.Links.{link_checked, link_ear, link_heard, link_output, link_sent, link_stage};
    ghost use Rattle.copy_both.specs.Spared.{RouteAlike};
    ghost use Rattle.copy_both.specs.Voices.{IsStarted, keep_answer, kept_bytes, sent_of, reported_fault};
    ghost use Rattle.copy_both.specs.declared.link_fault.LinkFault.TheVariants.{OutOfMemory};
    ghost use Rattle.copy_both.specs.declared.phase.Phase.TheVariants.{Open};

    /// A link before the first byte. The only error is that the catalog is shared too often.
    pub fn new(alloc: Global, checked: Arc<Checked, Global>) -> Result<Link, AllocError>
        ensures { IfOk result (λ link. IsNewLink link (checked_view (arc_value checked))) }
    {
        let other = Arc::try_clone(&checked)?;
        Ok(Link {
            ear: Ear::new(alloc, other),
            voice: Voice::new(alloc, checked),
        })
    }

    /// Hears the next bytes that the client sends, in whatever pieces they come, up to a fault or an end, and sends the
    /// answers, in this order: CopyBothResponse if the stream starts, a keepalive that requests no status for each
    /// status that requests a reply, and CopyDone if the client ended the stream with it. A start that is refused is
    /// answered with its ErrorResponse. After any other fault there is no answer, not even to what was heard before it
    /// in the piece. `now` is the clock, in microseconds since 2000-01-01.
    ///
    /// # Errors
    ///
    /// The first of: `BadStart`; `BadLength` for a status that is not 34 bytes long; `Unexpected`; `StatusAhead` for a
    /// status whose flushed position is after the sent position; and after all frames before it `BadLength` and
    /// `FrameTooLong` for a length below 4 or above 65,536. Or `OutOfMemory`; then the first few frames were heard, and
    /// the first few answers sent. Each closes it. `Closed`, and no other answer, if it was closed before; then nothing
    /// changes.
    ///
    /// PostgreSQL 15, 55.4. Streaming Replication Protocol, and 55.7. Message Formats.
    pub fn hear(&mut self, piece: &[u8], book: &mut Book, now: u64) -> Result<Heard, LinkFault>
        ensures answer { Answers (λ heard. heard) reported_fault
            (hear_answer (link_ear self.old) book.old piece.now (link_sent self.old)) result }
        ensures memory { NeedsMemoryOnlyIf OutOfMemory (ear_phase (link_ear self.old) ≡ Open) result }
        ensures left { HearLeaves (ear_phase (link_ear self.old)) (link_ear self.old) (link_ear self.new)
            book.old book.new piece.now (link_sent self.old) result }
        ensures says { HearSays self.old self.new (link_heard self.old book.old piece.now) now result }
        ensures refused { IfErr result (λ fault. IsAnsweredBy fault (link_output self.old) (link_output self.new)) }
    {
        let sent = self.voice.sent().unwrap_or(Lsn::new(0));
        let heard = match self.ear.listen(piece, book, sent) {
            Ok(heard) => heard,
            Err(LinkFault::BadStart(state)) => {
                self.voice.refuse(self.ear.refusal())?;
                return Err(LinkFault::BadStart(state));
            }
            Err(fault) => {
                self.voice.close();
                return Err(fault);
            }
        };
        match answer_heard(&mut self.voice, self.ear.stream(), &heard, now) {
            Ok(()) => Ok(heard.reported()),
            Err(fault) => {
                self.ear.close();
                Err(fault)
            }
        }
    }

    /// Takes the next commit of the log: sends the messages that report it to the subscriber, each in an XLogData at
    /// the commit's position. A commit without a change for the subscriber is skipped. Returns `Idle` if the whole log
    /// is taken, and `NotStarted` before the start; then nothing is sent. Each message that is sent is decoded from its
    /// spelling (`read_back`). `now` is the clock, in microseconds since 2000-01-01.
    ///
    /// The time it takes is that of the commit's changes and messages.
    ///
    /// # Errors
    ///
    /// `Closed` if it was closed before; `OutOfMemory`, which closes it, only if there is a commit to take. Then
    /// nothing of the commit is sent.
    ///
    /// PostgreSQL 15, 55.5. Logical Streaming Replication Protocol.
    pub fn take(&mut self, book: &Book, now: u64) -> Result<Taken, LinkFault>
        ensures answer { Answers (λ taken. taken) reported_fault
            (spec.next_answer (link_checked self.old) (link_stage self.old) (book_log book.now)) result }
        ensures memory { NeedsMemoryOnlyIf OutOfMemory (HasNext (link_stage self.old) (book_log book.now)) result }
        ensures ok { OnOk result (LinkSays self.old self.new
            (spec.next_bytes (link_checked self.old) (link_stage self.old) (book_log book.now) now)
            (spec.next_stage (link_checked self.old) (link_stage self.old) (book_log book.now) now)) }
        ensures read_back { OnOk result
            (NextIsReadBack (link_checked self.old) (link_stage self.old) (book_log book.now)) }
        ensures err { OnErr result (LinkCloses self.old self.new) }
    {
        let next = match &self.voice.stage {
            Stage::NotStarted => return Ok(Taken::NotStarted),
            Stage::Closed => return Err(LinkFault::Closed),
            Stage::Started(state) => entry_after(book, state.done),
        };
        let Some(commit) = next else {
            return Ok(Taken::Idle);
        };
        let taken = self.voice.take_entry(commit, now);
        if taken.is_err() {
            self.ear.close();
        }
        taken
    }

    /// Takes the next commit of the log, as `take` does, by the sets that the book keeps with it: a commit from which
    /// the subscriber gets nothing is skipped, and so is such a change of another commit. The book's catalog is that of
    /// the link, or one by which the same subscribers get something from each change.
    ///
    /// The time it takes is that of the changes that are for the subscriber and their messages, and one test for each
    /// change of a commit that has one.
    ///
    /// # Errors
    ///
    /// `Closed` if it was closed before; `OutOfMemory`, which closes it, only if there is a commit to take. Then
    /// nothing of the commit is sent.
    ///
    /// PostgreSQL 15, 55.5. Logical Streaming Replication Protocol.
    pub fn take_routed(&mut self, book: &Book, now: u64) -> Result<Taken, LinkFault>
        requires { RouteAlike (book_checked book.now).plan (link_checked self.old).plan }
        ensures answer { Answers (λ taken. taken) reported_fault
            (spec.next_answer (link_checked self.old) (link_stage self.old) (book_log book.now)) result }
        ensures memory { NeedsMemoryOnlyIf OutOfMemory (HasNext (link_stage self.old) (book_log book.now)) result }
        ensures ok { OnOk result (LinkSays self.old self.new
            (spec.next_bytes (link_checked self.old) (link_stage self.old) (book_log book.now) now)
            (spec.next_stage (link_checked self.old) (link_stage self.old) (book_log book.now) now)) }
        ensures read_back { OnOk result
            (NextIsReadBack (link_checked self.old) (link_stage self.old) (book_log book.now)) }
        ensures err { OnErr result (LinkCloses self.old self.new) }
    {
        let next = match &self.voice.stage {
            Stage::NotStarted => return Ok(Taken::NotStarted),
            Stage::Closed => return Err(LinkFault::Closed),
            Stage::Started(state) => entry_after(book, state.done),
        };
        match next {
            None => Ok(Taken::Idle),
            Some(commit) => {
                let taken = self.voice.take_held(book, commit, now);
                if taken.is_err() {
                    self.ear.close();
                }
                taken
            }
        }
    }

    /// Sends a keepalive with the sent position and this clock, in microseconds since 2000-01-01, which may request a
    /// status. Returns false if the stream has not started: then nothing is sent.
    ///
    /// # Errors
    ///
    /// `Closed` if it was closed before; `OutOfMemory`, which closes it, only while the stream runs.
    ///
    /// PostgreSQL 15, 55.4. Streaming Replication Protocol (Primary keepalive message).
    pub fn keepalive(&mut self, now: u64, want: bool) -> Result<bool, LinkFault>
        ensures answer { Answers (λ said. said) reported_fault (keep_answer (link_stage self.old)) result }
        ensures memory { NeedsMemoryOnlyIf OutOfMemory (IsStarted (link_stage self.old)) result }
        ensures ok { OnOk result (LinkSays self.old self.new (kept_bytes (link_stage self.old) now want)
            (link_stage self.old)) }
        ensures err { OnErr result (LinkCloses self.old self.new) }
    {
        let said = self.voice.keepalive(now, want);
        if said.is_err() {
            self.ear.close();
        }
        said
    }

    /// The slot whose stream was started, by the number of its subscription, and where in the log the stream starts, in
    /// bytes.
    pub fn started(&self) -> Option<(SlotNumber, u64)>
        ensures shows { result ≡ ear_started (link_ear self.now) }
        ensures together { heard_state (ear_phase (link_ear self.now)) (ear_started (link_ear self.now))
            ≡ said_state (link_stage self.now) }
    {
        self.ear.started()
    }

    /// The sent position while the stream runs: where the last commit that was taken ends; if none was,
    /// where the stream started, which is 64 for a start at 0.
    pub fn sent(&self) -> Option<Lsn>
        ensures { result ≡ sent_of (link_stage self.now) }
    {
        self.voice.sent()
    }

    /// What waits to be sent.
    pub fn output(&self) -> &[u8]
        ensures { result.now ≡ link_output self.now }
    {
        self.voice.output()
    }

    /// Drops this number of the first bytes that wait, or all if fewer wait, without a copy of the others. When nothing
    /// waits any more, the output has no room.
    pub fn passed(&mut self, count: usize)
        ensures { LinkPasses self.old self.new count }
    {
        self.voice.passed(count);
    }

    /// Loses the connection: closes it, and releases the slot if its stream was started. Only the first loss changes
    /// the book. What waits remains.
    pub fn lose(&mut self, book: &mut Book)
        ensures { LinkLoses self.old self.new book.old book.new }
    {
        self.ear.lose(book);
        self.voice.close();
    }
}
