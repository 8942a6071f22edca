//! What hears a connection.

ghost use Rattle.std.specs.Prelude.{◌≡◌, ℕ, ◌<◌, ◌≤◌, Err, IsTrue, Some, false, length, slice_index, true};
ghost use Rattle.filter_tree.specs.Memory.{Answers};
ghost use Rattle.tables_log.specs.BookView.{book_log, book_slots};
ghost use Rattle.tables_log.specs.Lsn.{end_lsn_of};
ghost use Rattle.tables_log.specs.Slots.{confirmed_at};
ghost use Rattle.copy_both.specs.Ears.{HearLeaves, ear_phase, ear_started, hear_answer};
ghost use Rattle.copy_both.specs.Voices.{reported_fault};
ghost use Rattle.copy_both.specs.declared.link_fault.LinkFault.TheVariants.{StatusAhead};
ghost use Rattle.publisher_desk.specs.SlotEvents.{AreSent, HaveEnded, ended_at, sent_at};
ghost use Rattle.senders.specs.Hearing.{IsSentFrom, ended_started, sent_by, sent_started};

use crate::confirming::confirmation;
use crate::failed::Failed;
use crate::source::Source;
use copy_both::{Ear, Heard, LinkFault, StreamStart, first_sent};
use publisher_desk::{Acquisition, Confirmation, ConnectionState, StreamTask};
use shard_checker::Checked;
use std::alloc::{AllocError, Global};
use std::sync::Arc;
use tables_log::{Book, Lsn, SlotNumber};

/// The greatest number of slots: a catalog has at most 32 subscriptions.
const SLOTS: usize = 32;

/// The greatest number of bytes that are read at a time.
const PIECE: usize = 16_384;

/// An ear, and the piece that it hears next: the first `filled` bytes; whether the client requested the position where
/// the stream starts, which is after what was confirmed for the slot; and the number of the acquisition of its slot, 0
/// if no stream was started.
#[derive(Drop)]
pub struct Listener {
    ear: Ear,
    piece: Vec<u8>,
    filled: usize,
    is_requested: bool,
    number: u64,
    ghost within: { filled ≤ length piece.items },
}

/// The result of a piece: what was heard, and whether the connection had ended before.
#[derive(Clone, Copy, Debug, PartialEq, Eq)]
pub struct Listened {
    pub heard: Result<Heard, LinkFault>,
    pub was_over: bool,
}

/// The positions up to which the slots are confirmed.
fn confirmed_positions(book: &Book) -> [Lsn; SLOTS]
    ensures { (slot : ℕ) → slot < SLOTS → slice_index result slot ≡ confirmed_at (book_slots book.now) slot }
{
    let mut positions = [Lsn::new(0); SLOTS];
    for (slot, position) in positions.iter_mut().enumerate() {
        *position = Lsn::new(book.confirmed(slot));
    }
    positions
}

/// Whether the position is after that of these up to which the slot was confirmed.
fn is_after(confirmed: &[Lsn], slot: SlotNumber, position: Lsn) -> bool
    ensures after { slot < length confirmed.now → IsTrue result → slice_index confirmed.now slot < position }
    ensures not { slot < length confirmed.now → result ≡ false → position ≤ slice_index confirmed.now slot }
{
    slot < confirmed.len() && position.is_after(confirmed[slot])
}

/// The sent position that statuses are compared with: that up to which the slot's client was sent the log, or the
/// stream's first position if that is greater.
fn sent_position(started: Option<StreamStart>, connections: &[ConnectionState]) -> Lsn
    ensures { result ≡ sent_by started connections.now }
{
    let Some(stream) = started else {
        return Lsn::new(0);
    };
    let first = first_sent(stream.start);
    match connections.get(stream.slot) {
        None => first,
        Some(connection) => first.max(connection.sent),
    }
}

/// Whether a status was ahead.
fn is_status_ahead(heard: &Result<Heard, LinkFault>) -> bool
    ensures is { heard.now ≡ Err StatusAhead → IsTrue result }
    ensures only { IsTrue result → heard.now ≡ Err StatusAhead }
{
    match heard {
        Err(LinkFault::StatusAhead) => true,
        Ok(_) | Err(_) => false,
    }
}

/// Whether a log that ends here has the start of the stream, if one was started.
fn has_start(started: Option<StreamStart>, log_end: Lsn) -> bool
    ensures { IsTrue result → IsSentFrom started log_end }
{
    match started {
        None => true,
        Some(stream) => !first_sent(stream.start).is_after(log_end),
    }
}

/// Hears a piece. A status that is ahead is after the start of the stream, since the log has that start.
fn hear_piece(ear: &mut Ear, piece: &[u8], book: &mut Book, sent: Lsn) -> Result<Heard, LinkFault>
    ensures answer { Answers (λ heard. heard) reported_fault (hear_answer ear.old book.old piece.now sent) result }
    ensures left { HearLeaves (ear_phase ear.old) ear.old ear.new book.old book.new piece.now sent result }
    ensures reaches { result ≡ Err StatusAhead
        → IsSentFrom (ear_started ear.new) (end_lsn_of (length (book_log book.old))) }
{
    let log_end = Lsn::end_of_commit(book.log_len());
    let heard = ear.hear(piece, book, sent.to_u64());
    match heard {
        Err(LinkFault::StatusAhead) => {}
        Ok(_) | Err(_) => return heard,
    }
    // (a log never gets shorter, so that it has the start of each stream)
    if has_start(ear.stream(), log_end) {
        heard
    } else {
        Err(LinkFault::OutOfMemory)
    }
}

/// The state of a connection after a piece was heard, which may have started its stream, and may have ended it. The
/// client of a stream that starts has been sent nothing.
fn connection_after(
    old: ConnectionState,
    begins: bool,
    heard: &Result<Heard, LinkFault>,
) -> ConnectionState
    ensures begins { begins ≡ true → result.sent ≡ 0 }
    ensures goes_on { begins ≡ false → result.sent ≡ old.sent }
    ensures stays { begins ≡ false → old.has_ended ≡ true → result.has_ended ≡ true }
    ensures ahead { heard.now ≡ Err StatusAhead → result.has_ended ≡ true }
{
    let (wants_reply, ends) = match heard {
        Ok(heard) => (0 < heard.replies, heard.ended.is_some()),
        Err(_) => (false, true),
    };
    if begins {
        return ConnectionState {
            sent: Lsn::new(0),
            wants_reply,
            has_ended: ends,
        };
    }
    ConnectionState {
        sent: old.sent,
        wants_reply: old.wants_reply || wants_reply,
        has_ended: old.has_ended || ends,
    }
}

/// Sets the state of the connection of this stream, if there is one, after a piece was heard. Returns whether the
/// connection of a stream that had started before had ended.
fn note_heard(
    connections: &mut [ConnectionState],
    started: Option<StreamStart>,
    was_started: bool,
    heard: &Result<Heard, LinkFault>,
) -> bool
    ensures sent { AreSent (sent_started started was_started (sent_at connections.old)) connections.new }
    ensures ended { HaveEnded (ended_started started was_started (ended_at connections.old)) connections.new }
    ensures ahead { heard.now ≡ Err StatusAhead → (stream : _) → started ≡ Some stream
        → ended_at connections.new stream.0 ≡ true }
{
    let Some(stream) = started else {
        return false;
    };
    let Some(connection) = connections.get(stream.slot).copied() else {
        return false;
    };
    let was_over = was_started && connection.has_ended;
    connections[stream.slot] = connection_after(connection, !was_started, heard);
    was_over
}

impl Listener {
    ghost use Rattle.std.specs.Prelude.{◌≡◌, ◌<◌, [], None, IfOk, length};
    ghost use Rattle.std.specs.Arc.{arc_value};
    ghost use Rattle.shard_checker.specs.CheckedView.{checked_view};
    ghost use Rattle.copy_both.specs.Ears.{ear_confirmed, ear_refusal, ear_started};
    ghost use Rattle.publisher_desk.specs.Viewers.{new_viewer};
    ghost use Rattle.senders.specs.Listening.{HasListened, NotesStartIf};
    ghost use Rattle.senders.specs.Pieces.{Pulls};

    /// A listener that has heard nothing. The only error is out of memory.
    pub(crate) fn new(alloc: Global, checked: &Arc<Checked, Global>) -> Result<Listener, AllocError>
        ensures heard { IfOk result (HasListened (checked_view (arc_value checked.now)) new_viewer []) }
        ensures started { IfOk result (λ made. ear_started made.ear ≡ None) }
        ensures room { IfOk result (λ made. 0 < length made.piece.items) }
    {
        let piece = vec![in alloc; 0; PIECE]?;
        let ear = Ear::new(alloc, Arc::try_clone(checked)?);
        Ok(Listener {
            ear,
            piece,
            filled: 0,
            is_requested: false,
            number: 0,
        })
    }

    /// Reads the next piece. Returns whether the source had any more bytes.
    pub(crate) fn pull<S: Source>(&mut self, reader: &mut S) -> Result<bool, Failed>
        requires { 0 < length self.old.piece.items }
        ensures { Pulls (S.left reader.old) (S.left reader.new) (S.has_failed reader.new) (S.has_ended reader.new)
            self.old self.new result }
    {
        let count = reader.pull(self.piece.as_mut_slice())?;
        self.filled = count;
        Ok(0 < count)
    }

    /// The stream that was started.
    pub(crate) fn started(&self) -> Option<StreamStart>
        ensures { result ≡ ear_started self.now.ear }
    {
        self.ear.stream()
    }

    /// Whether its client requested the position where the stream starts, after what was confirmed for the slot.
    pub(crate) fn is_requested(&self) -> bool
        ensures { result ≡ self.now.is_requested }
    {
        self.is_requested
    }

    /// The greatest position that its client's statuses confirmed; 0 if none did.
    pub(crate) fn confirmed(&self) -> u64
        ensures { result ≡ ear_confirmed self.now.ear }
    {
        self.ear.confirmed()
    }

    /// The response to a start that was refused; otherwise empty.
    pub(crate) fn refusal(&self) -> &[u8]
        ensures { result.now ≡ ear_refusal self.now.ear }
    {
        self.ear.refusal()
    }

    /// The number of the acquisition of the slot whose stream was started; 0 if none was.
    pub(crate) fn number(&self) -> u64
        ensures { result ≡ self.now.number }
    {
        self.number
    }

    /// The acquisition of the slot of a stream that has just started, which the listener notes; `None` if no stream
    /// has. The client requested the start if it is after what was confirmed.
    fn acquire(&mut self, was_started: bool, confirmed: &[Lsn], number: u64) -> Option<Acquisition>
        ensures { NotesStartIf was_started confirmed.now number self.old self.new result }
    {
        let stream = self.ear.stream()?;
        if was_started {
            return None;
        }
        self.is_requested = is_after(confirmed, stream.slot, stream.start);
        self.number = number;
        Some(Acquisition {
            slot: stream.slot,
            start: stream.start,
            is_requested: self.is_requested,
        })
    }
}

impl StreamTask for Listener {
    ghost use Rattle.copy_both.specs.Ears.{ear_started};
    ghost use Rattle.senders.specs.Listening.{AcquiresFor, HeardPiece, NotesAhead};

    type Answer = Listened;

    ghost stream = { λ listener. ear_started listener.ear };

    ghost did = { λ before after old new connections left number acquired confirmed listened.
        HeardPiece before after old new connections listened.heard × AcquiresFor before after number acquired
        × NotesAhead (ear_started after.ear) listened.heard confirmed };

    fn use_stream(
        &mut self,
        book: &mut Book,
        connections: &mut [ConnectionState],
        number: u64,
    ) -> (Listened, Option<Acquisition>, Option<Confirmation>) {
        let was_started = self.ear.stream().is_some();
        let confirmed = confirmed_positions(book);
        let sent = sent_position(self.ear.stream(), connections);
        let heard = hear_piece(&mut self.ear, &self.piece[..self.filled], book, sent);
        let acquired = self.acquire(was_started, &confirmed, number);
        let is_ahead = is_status_ahead(&heard);
        let confirmed = confirmation(self.ear.stream(), &confirmed, book, is_ahead);
        let was_over = note_heard(connections, self.ear.stream(), was_started, &heard);
        (Listened { heard, was_over }, acquired, confirmed)
    }
}
