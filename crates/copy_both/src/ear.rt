//! The half of a connection's end that hears.

ghost use Rattle.copy_both.specs.Phases.{FitsPhase};

use crate::heard::Heard;
use crate::hearing::Hearing;
use crate::link_fault::LinkFault;
use crate::listening::hear_piece;
use crate::phase::{Phase, phase_after};
use crate::session::Session;
use crate::stream_start::StreamStart;
use bytes::BytesMut;
use copy_frames::Deframer;
use shard_checker::Checked;
use std::alloc::Global;
use std::sync::Arc;
use tables_log::{Book, Lsn, SlotNumber};

/// The greatest length of a frame, as the frame states it.
const LIMIT: u32 = 65_536;

/// The half of a connection's end that hears: it cuts what the client sends into frames, starts the stream of a slot,
/// and confirms what the client's statuses report as flushed. It has no output, so that it may run in a thread of its
/// own; a `Voice` sends the answers.
///
/// The first fault closes it, and so does the client's end; from then on `hear` returns `Closed`. The slot stays in use
/// until `lose`.
///
/// PostgreSQL 15, 55.4. Streaming Replication Protocol.
#[derive(Drop)]
pub struct Ear {
    frames: Deframer,
    phase: Phase,
    session: Session,
    ghost fits: { FitsPhase phase frames session.response.items },
}

impl Ear {
    ghost use Rattle.std.specs.Prelude.{◌≡◌, [], None, IfOk, IfErr};
    ghost use Rattle.std.specs.Arc.{arc_value};
    ghost use Rattle.filter_tree.specs.Memory.{Answers, NeedsMemoryOnlyIf};
    ghost use Rattle.shard_checker.specs.CheckedView.{checked_view};
    ghost use Rattle.copy_both.specs.Ears as spec;
    ghost use Rattle.copy_both.specs.Ears.{EarCloses, HearLeaves, IsAnsweredBy, Loses, ear_checked, ear_confirmed, ear_heard, ear_held, ear_phase, ear_refusal, ear_started};
    ghost use Rattle.copy_both.specs.Sessions.{heard_view, reported_result};
    ghost use Rattle.copy_both.specs.Voices.{reported_fault};
    ghost use Rattle.copy_both.specs.declared.link_fault.LinkFault.TheVariants.{OutOfMemory};
    ghost use Rattle.copy_both.specs.declared.phase.Phase.TheVariants as phase;

    /// An ear before the first byte.
    pub fn new(alloc: Global, checked: Arc<Checked, Global>) -> Ear
        ensures checked { ear_checked result ≡ checked_view (arc_value checked) }
        ensures phase { ear_phase result ≡ phase.Open }
        ensures started { ear_started result ≡ None }
        ensures confirmed { ear_confirmed result ≡ 0 }
        ensures refusal { ear_refusal result ≡ [] }
        ensures held { ear_held result ≡ [] }
    {
        let session = Session {
            alloc,
            checked,
            started: None,
            confirmed: Lsn::new(0),
            response: BytesMut::new(alloc),
        };
        Ear {
            frames: Deframer::new(alloc, LIMIT),
            phase: Phase::Open,
            session,
        }
    }

    /// Hears the next bytes that the client sends, in whatever pieces they come: each frame that is whole, in order, up
    /// to a fault or an end. The first frame starts a stream, and acquires its slot; then statuses confirm the log for
    /// the slot. `sent` is the sent position of the connection's voice, in bytes; it is ignored if the stream starts in
    /// this piece.
    ///
    /// # Errors
    ///
    /// The first of: `BadStart`, and then `refusal` has the response; `BadLength` for a status that is not 34 bytes
    /// long; `Unexpected`; `StatusAhead` for a status whose flushed position is after what was sent; and after all
    /// frames before it `BadLength` and `FrameTooLong` for a length below 4 or above 65,536. Or `OutOfMemory`; then the
    /// first few frames were heard. Each closes it. `Closed`, and no other answer, if it was closed before; then
    /// nothing changes.
    ///
    /// PostgreSQL 15, 55.4. Streaming Replication Protocol, and 55.7. Message Formats.
    pub fn hear(&mut self, piece: &[u8], book: &mut Book, sent: u64) -> Result<Heard, LinkFault>
        ensures answer { Answers (λ heard. heard) reported_fault
            (spec.hear_answer self.old book.old piece.now sent) result }
        ensures memory { NeedsMemoryOnlyIf OutOfMemory (ear_phase self.old ≡ phase.Open) result }
        ensures refused { IfErr result (λ fault. IsAnsweredBy fault [] (ear_refusal self.new)) }
        ensures left { HearLeaves (ear_phase self.old) self.old self.new book.old book.new piece.now sent result }
    {
        match self.listen(piece, book, Lsn::new(sent)) {
            Ok(hearing) => Ok(hearing.reported()),
            Err(fault) => Err(fault),
        }
    }

    /// Hears the next bytes, as `hear` does, and counts all requested replies.
    pub(crate) fn listen(
        &mut self,
        piece: &[u8],
        book: &mut Book,
        sent: Lsn,
    ) -> Result<Hearing, LinkFault>
        ensures answer { Answers (λ heard. heard) reported_fault
            (spec.hear_answer self.old book.old piece.now sent) (reported_result result) }
        ensures exact { IfOk result (λ hearing.
            heard_view hearing ≡ (ear_heard self.old book.old piece.now sent).heard) }
        ensures memory { NeedsMemoryOnlyIf OutOfMemory (ear_phase self.old ≡ phase.Open) result }
        ensures refused { IfErr result (λ fault. IsAnsweredBy fault [] (ear_refusal self.new)) }
        ensures left { HearLeaves (ear_phase self.old) self.old self.new book.old book.new piece.now sent
            (reported_result result) }
    {
        match self.phase {
            Phase::Open => {}
            Phase::Closed | Phase::Lost => return Err(LinkFault::Closed),
        }
        let heard = hear_piece(&mut self.frames, &mut self.session, piece, book, sent);
        self.phase = phase_after(&heard);
        heard
    }

    /// The slot whose stream was started, by the number of its subscription, and where in the log the stream starts, in
    /// bytes.
    pub fn started(&self) -> Option<(SlotNumber, u64)>
        ensures { result ≡ ear_started self.now }
    {
        match self.session.started {
            None => None,
            Some(stream) => Some((stream.slot, stream.start.to_u64())),
        }
    }

    /// The stream that was started.
    pub fn stream(&self) -> Option<StreamStart>
        ensures { result ≡ ear_started self.now }
    {
        self.session.started
    }

    /// The greatest position that the client's statuses confirmed, in bytes of the log; 0 if none did.
    ///
    /// PostgreSQL 15, 55.4. Streaming Replication Protocol, Standby status update.
    pub fn confirmed(&self) -> u64
        ensures { result ≡ ear_confirmed self.now }
    {
        self.session.confirmed.to_u64()
    }

    /// The ErrorResponse to a start that was refused; otherwise empty.
    pub fn refusal(&self) -> &[u8]
        ensures { result.now ≡ ear_refusal self.now }
    {
        self.session.response.as_slice()
    }

    /// Loses the connection: closes it, and releases the slot if its stream was started. Only the first loss changes
    /// the book.
    pub fn lose(&mut self, book: &mut Book)
        ensures { Loses self.old self.new book.old book.new }
    {
        match self.phase {
            Phase::Open | Phase::Closed => {}
            Phase::Lost => return,
        }
        if let Some(stream) = self.session.started {
            book.release(stream.slot);
        }
        self.phase = Phase::Lost;
    }

    pub(crate) fn close(&mut self)
        ensures { EarCloses self.old self.new }
    {
        self.phase = match self.phase {
            Phase::Open | Phase::Closed => Phase::Closed,
            Phase::Lost => Phase::Lost,
        };
    }
}
