//! A client's end of a connection over memory.

ghost use Rattle.std.specs.Prelude.{◌≡◌, true, length, IfOk, MatchResult};

use crate::refusals::was_refused;
use senders::{Failed, Permit, Sink, Source};
use std::alloc::{AllocError, Global};
use std::sync::atomic::{AtomicU64, Ordering};
use std::thread;
use std::time::{Clock, Duration};

/// How often a client checks whether it has all, before it ends the connection.
const TURNS: u32 = 20_000;

/// The number of bytes for which a client has room.
const ROOM: usize = 65_536;

/// What a client gets, which its reader and its writer share.
#[derive(Drop)]
pub struct Getting {
    wanted: u64,
    got: AtomicU64,
}

impl Getting {
    /// A client that wants this number of bytes.
    pub fn new(wanted: usize) -> Getting {
        Getting {
            wanted: wanted as u64,
            got: AtomicU64::new(0),
        }
    }

    /// Waits until the client has all, or a request for memory was refused.
    fn await_all<C: Clock>(&self, clock: &C, alloc: Global) {
        for _ in 0..TURNS {
            if self.wanted <= self.got.load(Ordering::SeqCst) || was_refused(alloc) {
                return;
            }
            thread::sleep(clock, Duration::from_micros(100));
        }
    }
}

/// What a client writes: its Query, and when it has all, or a request for memory was refused, it ends the connection.
#[derive(Drop)]
pub struct Asking<'a, C> {
    clock: &'a C,
    alloc: Global,
    getting: &'a Getting,
    left: &'a [u8],
    ended: bool,
}

impl<'a, C: Clock> Asking<'a, C> {
    pub fn new(
        clock: &'a C,
        alloc: Global,
        getting: &'a Getting,
        query: &'a [u8],
    ) -> Asking<'a, C> {
        Asking {
            clock,
            alloc,
            getting,
            left: query,
            ended: false,
        }
    }
}

impl<C: Clock> Source for Asking<'_, C> {
    ghost use Rattle.std.specs.Prelude.{false};

    ghost has_failed = { λ _. false };

    ghost has_ended = { λ source. source.ended };

    fn pull(&mut self, piece: &mut [u8]) -> Result<usize, Failed> {
        if self.left.is_empty() {
            self.getting.await_all(self.clock, self.alloc);
        }
        let count = self.left.len().min(piece.len());
        let (now, later) = self.left.split_at(count);
        piece[..count].copy_from_slice(now);
        self.left = later;
        if count == 0 && !piece.is_empty() {
            self.ended = true;
        }
        Ok(count)
    }

    fn failed(&self) -> bool {
        false
    }

    fn ended(&self) -> bool {
        self.ended
    }
}

/// What a client reads, for which there is room, so that it allocates no memory.
#[derive(Drop)]
pub struct Kept<'a> {
    getting: &'a Getting,
    pub bytes: Vec<u8>,
    failed: bool,
    refused: bool,
}

impl<'a> Kept<'a> {
    pub fn new(alloc: Global, getting: &'a Getting) -> Result<Kept<'a>, AllocError> {
        Ok(Kept {
            getting,
            bytes: Vec::with_capacity(alloc, ROOM)?,
            failed: false,
            refused: false,
        })
    }

    /// Takes all bytes, and returns how many these are.
    fn take(&mut self, bytes: &[u8]) -> Result<usize, Failed>
        ensures count { IfOk result (λ count. count ≡ length bytes.now) }
        ensures failed { MatchResult result (λ count. self.new.failed ≡ self.old.failed)
            (λ failed. self.new.failed ≡ true) }
        ensures refused { self.new.refused ≡ self.old.refused }
    {
        if self.bytes.extend_from_slice(bytes).is_err() {
            self.failed = true;
            return Err(Failed);
        }
        self.getting
            .got
            .fetch_add(bytes.len() as u64, Ordering::SeqCst);
        Ok(bytes.len())
    }
}

impl Sink for Kept<'_> {
    ghost has_failed = { λ sink. sink.failed };

    ghost has_refused = { λ sink. sink.refused };

    fn push(&mut self, bytes: &[u8], _permit: &Permit) -> Result<usize, Failed> {
        self.take(bytes)
    }

    fn refuse(&mut self, bytes: &[u8]) -> Result<usize, Failed> {
        self.refused = true;
        self.take(bytes)
    }

    fn failed(&self) -> bool {
        self.failed
    }
}
