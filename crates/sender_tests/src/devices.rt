//! Sources and sinks over memory.

ghost use Rattle.std.specs.Prelude.{◌≡◌, ◌<◌, ◌≤◌, false, true, length, IfOk, MatchResult};

use crate::board::{Board, GRACE, LOST};
use crate::clients::{hears, subscriber};
use crate::phrases::{before_done, keepalives};
use crate::work::Hold;
use senders::{Failed, Permit, Sink, Source};
use std::thread;
use std::time::{Clock, Duration};
use test_subscriber::Subscriber;

/// What a client writes: some bytes. Then it waits until it has got this much, and closes; but if its writer has
/// failed, it continues with statuses. Or its first read fails.
#[derive(Drop)]
pub(crate) struct Asking<'a, C> {
    clock: &'a C,
    board: &'a Board,
    slot: usize,
    last: u64,
    left: &'a [u8],
    fails: bool,
    failed: bool,
    ended: bool,
}

impl<'a, C: Clock> Asking<'a, C> {
    pub(crate) fn new(
        clock: &'a C,
        board: &'a Board,
        slot: usize,
        last: u64,
        left: &'a [u8],
    ) -> Asking<'a, C> {
        Asking {
            clock,
            board,
            slot,
            last,
            left,
            fails: false,
            failed: false,
            ended: false,
        }
    }

    /// One whose first read fails.
    pub(crate) fn failing(clock: &'a C, board: &'a Board) -> Asking<'a, C> {
        Asking {
            clock,
            board,
            slot: 0,
            last: 0,
            left: &[],
            fails: true,
            failed: false,
            ended: false,
        }
    }
}

/// A status that nothing is flushed.
const STATUS: &[u8] =
    b"d\0\0\0\x26r\0\0\0\0\0\0\0\0\0\0\0\0\0\0\0\0\0\0\0\0\0\0\0\0\0\0\0\0\0\0\0\0\0";

impl<C: Clock> Asking<'_, C> {
    /// What the client writes when it has got so much: nothing, or a status where its writer has failed, so that the
    /// connection ends by that and not by the client.
    fn next(&self) -> &'static [u8] {
        self.board.await_got(self.clock, self.slot, self.last);
        if self.board.is_lost(self.slot) && self.board.takes_turn(self.clock) {
            return STATUS;
        }
        &[]
    }
}

impl<C: Clock> Source for Asking<'_, C> {
    ghost has_failed = { λ source. source.failed };

    ghost has_ended = { λ source. source.ended };

    fn pull(&mut self, piece: &mut [u8]) -> Result<usize, Failed> {
        if self.fails {
            self.failed = true;
            return Err(Failed);
        }
        if self.left.is_empty() {
            self.left = self.next();
        }
        let count = self.left.len().min(piece.len());
        let (now, later) = self.left.split_at(count);
        piece[..count].copy_from_slice(now);
        self.left = later;
        if count == 0 && !piece.is_empty() {
            self.ended = true;
        }
        Ok(count)
    }

    fn failed(&self) -> bool {
        self.failed
    }

    fn ended(&self) -> bool {
        self.ended
    }
}

/// What a client writes: some bytes. Then it gives its sender some time, and writes others, if there are any; and then
/// some time again, and closes. No read fails.
#[derive(Drop)]
pub(crate) struct Staying<'a, C> {
    clock: &'a C,
    left: &'a [u8],
    later: &'a [u8],
    ended: bool,
}

impl<'a, C: Clock> Staying<'a, C> {
    pub(crate) fn new(clock: &'a C, left: &'a [u8], later: &'a [u8]) -> Staying<'a, C> {
        Staying {
            clock,
            left,
            later,
            ended: false,
        }
    }
}

impl<C: Clock> Source for Staying<'_, C> {
    ghost has_failed = { λ source. false };

    ghost has_ended = { λ source. source.ended };

    fn pull(&mut self, piece: &mut [u8]) -> Result<usize, Failed> {
        if self.left.is_empty() {
            thread::sleep(self.clock, Duration::from_millis(GRACE));
            self.left = self.later;
            self.later = &[];
        }
        let count = self.left.len().min(piece.len());
        let (now, later) = self.left.split_at(count);
        piece[..count].copy_from_slice(now);
        self.left = later;
        if count == 0 && !piece.is_empty() {
            self.ended = true;
        }
        Ok(count)
    }

    fn failed(&self) -> bool {
        false
    }

    fn ended(&self) -> bool {
        self.ended
    }
}

/// What a client reads, kept in memory, and its subscriber. It takes at most this many bytes at a time, and fails when
/// its room is used up. It tells the board its progress after each push that it takes whole, and of each keepalive. It
/// counts pushes, and keeps the length of the longest one.
#[derive(Drop)]
pub(crate) struct Kept<'a, C> {
    clock: &'a C,
    board: &'a Board,
    slot: usize,
    room: usize,
    most: usize,
    subscriber: Option<Subscriber>,
    got: u64,
    pub(crate) bytes: Vec<u8>,
    pub(crate) pushes: usize,
    pub(crate) longest: usize,
    failed: bool,
    refused: bool,
}

impl<'a, C: Clock> Kept<'a, C> {
    pub(crate) fn new(
        clock: &'a C,
        board: &'a Board,
        slot: usize,
        room: usize,
        most: usize,
    ) -> Kept<'a, C> {
        Kept {
            clock,
            board,
            slot,
            room,
            most,
            subscriber: subscriber(board.alloc, board.work, slot),
            got: 0,
            bytes: Vec::new(board.alloc),
            pushes: 0,
            longest: 0,
            failed: false,
            refused: false,
        }
    }

    /// Holds the sender of the first slot in its first write after the start, where the board says so.
    fn hold(&self) {
        if self.slot != 0 || self.got != 1 {
            return;
        }
        match self.board.hold {
            Hold::Writer => self.board.await_later(self.clock),
            Hold::Slow => self
                .board
                .await_got(self.clock, 1, self.board.work.in_all()),
            Hold::Nobody | Hold::Gate => {}
        }
    }

    /// Fails.
    fn fail(&mut self) -> Failed
        ensures failed { self.new.failed ≡ true }
        ensures refused { self.new.refused ≡ self.old.refused }
    {
        self.failed = true;
        self.board.gets(self.slot, LOST);
        Failed
    }

    /// Hears these bytes, and reports the progress if they are a whole push.
    fn hear(&mut self, bytes: &[u8], are_all: bool)
        ensures failed { self.new.failed ≡ self.old.failed }
        ensures refused { self.new.refused ≡ self.old.refused }
    {
        self.pushes = self.pushes.saturating_add(1);
        self.longest = self.longest.max(bytes.len());
        let Some(got) = hears(&mut self.subscriber, before_done(bytes)) else {
            self.board.fail();
            return;
        };
        if are_all {
            self.got = got;
            self.board.gets(self.slot, got);
            self.board.is_answered(self.slot, keepalives(bytes));
        }
    }

    /// Takes the first of the bytes, and returns how many it took.
    fn take(&mut self, bytes: &[u8]) -> Result<usize, Failed>
        ensures some { IfOk result (λ count. 0 < count) }
        ensures bound { IfOk result (λ count. count ≤ length bytes.now) }
        ensures failed { MatchResult result (λ count. self.new.failed ≡ self.old.failed)
            (λ failed. self.new.failed ≡ true) }
        ensures refused { self.new.refused ≡ self.old.refused }
    {
        self.hold();
        let count = bytes.len().min(self.room).min(self.most);
        if count == 0 || self.bytes.extend_from_slice(&bytes[..count]).is_err() {
            return Err(self.fail());
        }
        self.room -= count;
        self.hear(&bytes[..count], count == bytes.len());
        Ok(count)
    }
}

impl<C: Clock> Sink for Kept<'_, C> {
    ghost has_failed = { λ sink. sink.failed };

    ghost has_refused = { λ sink. sink.refused };

    fn push(&mut self, bytes: &[u8], _permit: &Permit) -> Result<usize, Failed> {
        self.take(bytes)
    }

    fn refuse(&mut self, bytes: &[u8]) -> Result<usize, Failed> {
        self.refused = true;
        self.take(bytes)
    }

    fn failed(&self) -> bool {
        self.failed
    }
}
