//! What the frames of a client do, one after another.

ghost use Rattle.std.specs.Prelude.{◌≡◌, ◌+◌, ◌<◌, ◌≤◌, ◌^◌, ◌++◌, length, IfOk, OnOk, OnErr};
ghost use Rattle.tables_log.specs.BookView.{book_log, book_slots};
ghost use Rattle.tables_log.specs.Lsn.{end_lsn_of};
ghost use Rattle.copy_both.specs.Events.{event_of};
ghost use Rattle.copy_both.specs.Hearing as spec;
ghost use Rattle.copy_both.specs.Refusals.{error_response, state_of};
ghost use Rattle.copy_both.specs.Sessions.{served_by, hearing_view, asked_in, begin_in, refused_by_book, Hears, Begins, KeepsRest, IsSameBook, IsSameSession};
ghost use Rattle.copy_both.specs.StartAnswers.{start_reported, sent_after};

use crate::answer::{StartAnswer, answer_start};
use crate::error_response::append_error_response;
use crate::event::{Event, event_of};
use crate::hearing::Hearing;
use crate::link_fault::LinkFault;
use crate::sql_state::SqlState;
use crate::start_order::{Offer, book_refusal};
use crate::stream_start::StreamStart;
use crate::stream_state::first_sent;
use bytes::BytesMut;
use copy_frames::{Frame, Status};
use shard_checker::Checked;
use std::alloc::{AllocError, Global};
use std::sync::Arc;
use tables_log::{Book, Lsn, SlotNumber, StartError};

/// What was agreed with a client: the slot that streams and where in the log the stream starts, or the
/// response to a start that was refused; and the greatest position that the client confirmed, 0 if it confirmed none.
#[derive(Drop)]
pub(crate) struct Session {
    pub(crate) alloc: Global,
    pub(crate) checked: Arc<Checked, Global>,
    pub(crate) started: Option<StreamStart>,
    pub(crate) confirmed: Lsn,
    pub(crate) response: BytesMut,
}

impl Session {
    /// Hears the next frame.
    pub(crate) fn hear(
        &mut self,
        frame: &Frame,
        book: &mut Book,
        hearing: &mut Hearing,
    ) -> Result<(), LinkFault>
        requires { hearing.old.replies < 2 ^ 63 }
        ensures kept { KeepsRest self.old self.new book.old book.new }
        ensures counted { hearing.new.replies ≤ hearing.old.replies + 1 }
        ensures heard { Hears
            (spec.next_heard (served_by self.old book.old) frame.now self.old.started
            (hearing_view self.old hearing.old book.old))
            (hearing_view self.old hearing.old book.old) (hearing_view self.new hearing.new book.new) result }
    {
        match self.started {
            None => self.hear_first(frame, book, hearing),
            Some(stream) => self.hear_next(stream.slot, frame, book, hearing),
        }
    }

    fn hear_first(
        &mut self,
        frame: &Frame,
        book: &mut Book,
        hearing: &mut Hearing,
    ) -> Result<(), LinkFault>
        requires { hearing.old.replies < 2 ^ 63 }
        ensures kept { KeepsRest self.old self.new book.old book.new }
        ensures counted { hearing.new.replies ≤ hearing.old.replies + 1 }
        ensures heard { Hears
            (spec.first_heard (served_by self.old book.old) frame.now (hearing_view self.old hearing.old book.old))
            (hearing_view self.old hearing.old book.old) (hearing_view self.new hearing.new book.new) result }
    {
        if frame.kind == b'X' {
            hearing.ended = Some(b'X');
            return Ok(());
        }
        let stream = self.begin(frame, book)?;
        self.started = Some(stream);
        hearing.started = Some(stream.start);
        hearing.sent = first_sent(stream.start);
        Ok(())
    }

    /// Acquires the slot that the frame requests; returns the slot and where its stream starts.
    fn begin(&mut self, frame: &Frame, book: &mut Book) -> Result<StreamStart, LinkFault>
        ensures kept { KeepsRest self.old self.new book.old book.new }
        ensures started { self.new.started ≡ self.old.started }
        ensures confirmed { self.new.confirmed ≡ self.old.confirmed }
        ensures begun { Begins (begin_in self.old book.old frame.now) (book_slots book.old) (book_slots book.new)
            self.old.response.items self.new.response.items result }
    {
        match self.ask(frame, book)? {
            StartAnswer::Refused(state) => Err(LinkFault::BadStart(state)),
            StartAnswer::Stream { slot, position } => match book.start(slot, position.to_u64()) {
                Ok(start) => Ok(StreamStart {
                    slot,
                    start: Lsn::new(start),
                }),
                Err(error) => Err(LinkFault::BadStart(self.refuse(slot, error)?)),
            },
        }
    }

    /// Adds the response to a start that the book refuses. The only error is out of memory.
    fn refuse(&mut self, slot: SlotNumber, error: StartError) -> Result<SqlState, AllocError>
        ensures kept { IsSameSession self.old self.new }
        ensures state { IfOk result (λ state. state ≡ state_of (refused_by_book self.old slot error)) }
        ensures ok { OnOk result (self.new.response.items
            ≡ self.old.response.items ++ error_response (refused_by_book self.old slot error)) }
        ensures err { OnErr result (self.new.response.items ≡ self.old.response.items) }
    {
        let subscriptions = self.checked.catalog().subscriptions.as_slice();
        let refusal = book_refusal(subscriptions, slot, error);
        append_error_response(&mut self.response, &refusal)?;
        Ok(refusal.state())
    }

    /// What the frame requests. Whether the slot is in use is tested by the book, from which `begin` acquires it.
    fn ask(&mut self, frame: &Frame, book: &Book) -> Result<StartAnswer, AllocError>
        ensures kept { IsSameSession self.old self.new }
        ensures asked { IfOk result (λ asked. asked ≡ start_reported (asked_in self.old book.now frame.now)) }
        ensures ok { OnOk result (self.new.response.items
            ≡ sent_after self.old.response.items (asked_in self.old book.now frame.now)) }
        ensures err { OnErr result (self.new.response.items ≡ self.old.response.items) }
    {
        let catalog = self.checked.catalog();
        let offer = Offer {
            publications: &catalog.publications,
            subscriptions: &catalog.subscriptions,
            log_end: end_of(book),
            in_use: &[],
        };
        Ok(answer_start(
            self.alloc,
            &offer,
            frame.kind,
            frame.body.as_slice(),
            &mut self.response,
        )?)
    }

    /// Hears a frame while the stream of this slot runs.
    fn hear_next(
        &mut self,
        slot: SlotNumber,
        frame: &Frame,
        book: &mut Book,
        hearing: &mut Hearing,
    ) -> Result<(), LinkFault>
        requires { hearing.old.replies < 2 ^ 63 }
        ensures kept { KeepsRest self.old self.new book.old book.new }
        ensures counted { hearing.new.replies ≤ hearing.old.replies + 1 }
        ensures heard { Hears
            (spec.event_heard (served_by self.old book.old) slot (event_of frame.now.kind frame.now.body)
            (hearing_view self.old hearing.old book.old))
            (hearing_view self.old hearing.old book.old) (hearing_view self.new hearing.new book.new) result }
    {
        match event_of(frame.kind, frame.body.as_slice())? {
            Event::Status(status) => self.hear_status(slot, &status, book, hearing),
            Event::End(kind) => {
                hearing.ended = Some(kind);
                Ok(())
            }
        }
    }

    /// Confirms what a status reports as flushed.
    fn hear_status(
        &mut self,
        slot: SlotNumber,
        status: &Status,
        book: &mut Book,
        hearing: &mut Hearing,
    ) -> Result<(), LinkFault>
        requires { hearing.old.replies < 2 ^ 63 }
        ensures kept { KeepsRest self.old self.new book.old book.new }
        ensures counted { hearing.new.replies ≤ hearing.old.replies + 1 }
        ensures heard { Hears
            (spec.status_heard (served_by self.old book.old) slot status.now
            (hearing_view self.old hearing.old book.old))
            (hearing_view self.old hearing.old book.old) (hearing_view self.new hearing.new book.new) result }
    {
        let sent = hearing.sent.min(end_of(book));
        if book.confirm(slot, status.flushed, sent.to_u64()).is_err() {
            return Err(LinkFault::StatusAhead);
        }
        self.confirmed = self.confirmed.max(Lsn::new(status.flushed));
        if status.wants_reply {
            hearing.replies += 1;
        }
        Ok(())
    }
}

/// Where the log ends.
fn end_of(book: &Book) -> Lsn
    ensures { result ≡ end_lsn_of (length (book_log book.now)) }
{
    Lsn::end_of_commit(book.log_len())
}
