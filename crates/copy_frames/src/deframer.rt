//! Bytes of a connection, cut into frames.

ghost use Rattle.std.specs.Prelude.{◌≡◌, ◌<◌, ◌^◌, length, IfOk, OnErr, None};
ghost use Rattle.copy_frames.specs.Inboxes.{empty_inbox, answer_of, IsFed, Gives};
ghost use Rattle.copy_frames.specs.Scans.{Reaches, Scans};

use crate::fault::FrameFault;
use crate::frame::Frame;
use crate::front::{Front, peek};
use bytes::BytesMut;
use std::alloc::{AllocError, Global};
use std::marker::Model;

/// Cuts the bytes of a connection into frames, in whatever pieces they come ("55.7. Message Formats").
#[derive(Drop)]
pub struct Deframer {
    limit: u32,
    bytes: BytesMut,
    // how many of the bytes are known to be whole frames
    whole: usize,
    fault: Option<FrameFault>,
}

impl Model for Deframer {
    ghost use Rattle.std.specs.Prelude.{◌<◌, ◌^◌, length};
    ghost use Rattle.copy_frames.specs.Inboxes.{Inbox};
    ghost use Rattle.copy_frames.specs.Scans.{Reaches};

    ghost Value = { Inbox };

    ghost view = { λ d. record { limit = d.limit; bytes = d.bytes.items; fault = d.fault } };

    ghost invariant = { λ d. Reaches d.limit d.bytes.items d.whole × (length d.bytes.items < 2 ^ 63) };
}

/// Looks through the frames from `start` on, up to the first that is not whole or has a length that no frame may have.
#[tactic(auto, using(crate::proofs::CutLemmas::scan_turns))]
fn scan(limit: u32, bytes: &[u8], start: usize) -> (usize, Option<FrameFault>)
    requires { Reaches limit bytes.now start }
    ensures { Scans limit bytes.now result }
{
    let mut at = start;
    'frames: loop {
        match peek(limit, bytes.split_at(at).1) {
            Front::Part => return (at, None),
            Front::Faulty(fault) => return (at, Some(fault)),
            Front::Whole(size) => at += size,
        }
    }
}

impl Deframer {
    /// A deframer before the first byte. The length of a frame is at most `limit`, which counts itself and the body and
    /// not the kind.
    pub fn new(alloc: Global, limit: u32) -> Deframer
        ensures { result ≡ empty_inbox limit }
    {
        Deframer {
            limit,
            bytes: BytesMut::new(alloc),
            whole: 0,
            fault: None,
        }
    }

    /// Accepts the next bytes of the connection.
    ///
    /// # Errors
    ///
    /// `BadLength` and `FrameTooLong` as soon as such a length is whole, after the frames before it; `next` still
    /// returns these. `OutOfMemory` keeps nothing of the piece. After a fault the same fault is returned again.
    pub fn feed(&mut self, piece: &[u8]) -> Result<(), FrameFault>
        ensures fed { IsFed self.old piece.now self.new }
        ensures answer { result ≡ answer_of self.new.fault }
        ensures counted { length self.new.bytes < 2 ^ 63 }
    {
        if self.fault.is_none() {
            self.keep(piece);
        }
        match self.fault {
            None => Ok(()),
            Some(fault) => Err(fault),
        }
    }

    #[tactic(auto, using(crate::proofs::CutLemmas::reaches_more, crate::proofs::CutLemmas::piece_is_kept))]
    fn keep(&mut self, piece: &[u8])
        requires { self.old.fault ≡ None }
        ensures { IsFed self.old piece.now self.new }
    {
        if self.bytes.extend_from_slice(piece).is_err() {
            self.fault = Some(FrameFault::OutOfMemory);
            return;
        }
        let (whole, fault) = scan(self.limit, self.bytes.as_slice(), self.whole);
        self.whole = whole;
        self.fault = fault;
    }

    /// Releases the memory of the bytes if no byte is held.
    fn rest(&mut self)
        ensures { self.new ≡ self.old }
    {
        if self.bytes.is_empty() {
            self.bytes = BytesMut::new(*self.bytes.allocator());
        }
    }

    /// The next frame that is whole, also after a fault. Its body is not copied. When no byte is held any more, the
    /// deframer keeps no memory.
    ///
    /// # Errors
    ///
    /// Out of memory, which keeps the frame.
    pub fn next(&mut self) -> Result<Option<Frame>, AllocError>
        ensures given { IfOk result (λ found. Gives self.old found self.new) }
        ensures err { OnErr result (self.new ≡ self.old) }
    {
        let Front::Whole(size) = peek(self.limit, self.bytes.as_slice()) else {
            self.rest();
            return Ok(None);
        };
        let mut body = self.bytes.freeze_to(size)?;
        let kind = body.as_slice()[0];
        body.advance(5);
        self.whole = self.whole.saturating_sub(size);
        Ok(Some(Frame { kind, body }))
    }
}
