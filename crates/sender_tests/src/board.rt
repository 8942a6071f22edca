//! What the threads of a test tell each other.

use crate::rounds::Round;
use crate::work::{Hold, Work};
use std::alloc::{AllocError, Global};
use std::sync::atomic::{AtomicU64, Ordering};
use std::thread;
use std::time::{Clock, Duration};

/// How often a thread looks before it gives up.
pub(crate) const TURNS: u32 = 1_000_000;

/// How many milliseconds senders are given to see that the publisher is finished.
pub(crate) const GRACE: u64 = 20;

/// The progress of a client whose writer failed: as much as anybody may wait for.
pub(crate) const LOST: u64 = u64::MAX;

/// What the threads of a test share: who writes what, who is held, and how far they are.
#[derive(Drop)]
pub(crate) struct Board {
    pub(crate) alloc: Global,
    pub(crate) work: Work,
    pub(crate) hold: Hold,
    pub(crate) round: Round,
    pub(crate) port: u16,
    /// The greatest number of a commit that has returned.
    returned: AtomicU64,
    /// How much each slot's client has got: 1 at the start of its stream, and 1 more than the number of a commit after
    /// that commit.
    got: Vec<AtomicU64>,
    /// How many clients are connected.
    connected: AtomicU64,
    /// How often a client whose writer failed has said something since.
    turns: AtomicU64,
    /// 1 where the program listens, or has ended.
    listening: AtomicU64,
    /// How many acts of the round the session has done.
    played: AtomicU64,
    /// How many lines each slot's client may say.
    cues: Vec<AtomicU64>,
    /// How many keepalives each slot's client has heard.
    replies: Vec<AtomicU64>,
    /// How often each slot's sender has come to its gate.
    gates: Vec<AtomicU64>,
    /// 1 where a gate that was shut is open.
    opened: AtomicU64,
    /// How often something failed.
    failures: AtomicU64,
}

/// Lets other threads run.
pub(crate) fn rest<C: Clock>(clock: &C, turn: u32) {
    if turn % 32 == 31 {
        thread::sleep(clock, Duration::from_millis(1));
    } else {
        thread::yield_now();
    }
}

/// A word for each slot.
fn words(alloc: Global, work: Work) -> Result<Vec<AtomicU64>, AllocError> {
    let mut list = Vec::new(alloc);
    for _ in 0..work.slots() {
        list.push(AtomicU64::new(0))?;
    }
    Ok(list)
}

/// Adds so much to the word of the slot.
fn add(words: &[AtomicU64], slot: usize, count: u64) {
    if let Some(word) = words.get(slot) {
        word.fetch_add(count, Ordering::SeqCst);
    }
}

/// The word of the slot.
fn word_of(words: &[AtomicU64], slot: usize) -> u64 {
    match words.get(slot) {
        Some(word) => word.load(Ordering::SeqCst),
        None => 0,
    }
}

impl Board {
    pub(crate) fn new(
        alloc: Global,
        work: Work,
        hold: Hold,
        port: u16,
    ) -> Result<Board, AllocError> {
        Ok(Board {
            alloc,
            work,
            hold,
            round: Round::Free,
            port,
            returned: AtomicU64::new(0),
            got: words(alloc, work)?,
            connected: AtomicU64::new(0),
            turns: AtomicU64::new(0),
            listening: AtomicU64::new(0),
            played: AtomicU64::new(0),
            cues: words(alloc, work)?,
            replies: words(alloc, work)?,
            gates: words(alloc, work)?,
            opened: AtomicU64::new(0),
            failures: AtomicU64::new(0),
        })
    }

    /// A board of two slots, in this round.
    pub(crate) fn of_round(alloc: Global, round: Round) -> Result<Board, AllocError> {
        let mut board = Board::new(alloc, Work::Pairs, Hold::Nobody, 0)?;
        board.round = round;
        Ok(board)
    }

    /// Waits until the word is at least this number, and returns whether it is. After a failure nobody waits.
    fn comes<C: Clock>(&self, clock: &C, word: &AtomicU64, least: u64) -> bool {
        for turn in 0..TURNS {
            if least <= word.load(Ordering::SeqCst) {
                return true;
            }
            if !self.is_fine() {
                return false;
            }
            rest(clock, turn);
        }
        false
    }

    /// The same, for the word of a slot.
    fn comes_to<C: Clock>(&self, clock: &C, words: &[AtomicU64], slot: usize, least: u64) -> bool {
        match words.get(slot) {
            Some(word) => self.comes(clock, word, least),
            None => false,
        }
    }

    /// Something failed.
    pub(crate) fn fail(&self) {
        self.failures.fetch_add(1, Ordering::SeqCst);
    }

    /// Whether nothing failed.
    pub(crate) fn is_fine(&self) -> bool {
        self.failures.load(Ordering::SeqCst) == 0
    }

    /// The commit with this number has returned.
    pub(crate) fn returns(&self, number: u32) {
        self.returned.fetch_max(u64::from(number), Ordering::SeqCst);
    }

    /// Whether the writer of the slot has failed.
    pub(crate) fn is_lost(&self, slot: usize) -> bool {
        match self.got.get(slot) {
            Some(word) => word.load(Ordering::SeqCst) == LOST,
            None => false,
        }
    }

    /// Whether a client may say something once more. It is a failure if it has done so too often.
    pub(crate) fn takes_turn<C: Clock>(&self, clock: &C) -> bool {
        let turn = self.turns.fetch_add(1, Ordering::SeqCst);
        if turn < u64::from(TURNS) {
            rest(clock, turn as u32);
            return true;
        }
        self.fail();
        false
    }

    /// The client of the slot has got so much.
    pub(crate) fn gets(&self, slot: usize, count: u64) {
        if let Some(word) = self.got.get(slot) {
            word.store(count, Ordering::SeqCst);
        }
    }

    /// Waits until the client of the slot has got this much. If it never does, that is a failure.
    pub(crate) fn await_got<C: Clock>(&self, clock: &C, slot: usize, least: u64) {
        if let Some(word) = self.got.get(slot) {
            if !self.comes(clock, word, least) {
                self.fail();
            }
        }
    }

    /// Waits until the clients of all slots before this one are connected.
    pub(crate) fn await_turn<C: Clock>(&self, clock: &C, slot: u64) {
        if !self.comes(clock, &self.connected, slot) {
            self.fail();
        }
    }

    /// The program listens, or has ended.
    pub(crate) fn listens(&self) {
        self.listening.store(1, Ordering::SeqCst);
    }

    /// Waits until the program listens, or has ended. It is a failure if that does not come.
    pub(crate) fn await_listener<C: Clock>(&self, clock: &C) {
        if !self.comes(clock, &self.listening, 1) {
            self.fail();
        }
    }

    /// One more client is connected.
    pub(crate) fn connects(&self) {
        self.connected.fetch_add(1, Ordering::SeqCst);
    }

    /// Waits until a later commit than the first has returned, and the client of the second slot has got it.
    pub(crate) fn await_later<C: Clock>(&self, clock: &C) {
        if !self.comes(clock, &self.returned, 2) {
            self.fail();
        }
        let later = self.returned.load(Ordering::SeqCst);
        self.await_got(clock, 1, later.saturating_add(1));
    }

    /// Waits until all streams have started, where the sessions begin no sooner.
    pub(crate) fn await_starts<C: Clock>(&self, clock: &C) {
        if self.work.begins_later() {
            for slot in 0..self.work.slots() {
                self.await_got(clock, slot, 1);
            }
        }
    }

    /// The session has done one more act of the round.
    pub(crate) fn plays(&self) {
        self.played.fetch_add(1, Ordering::SeqCst);
    }

    /// How many acts of the round the session has done.
    pub(crate) fn played(&self) -> u64 {
        self.played.load(Ordering::SeqCst)
    }

    /// The client of the slot may say its next line.
    pub(crate) fn cue(&self, slot: usize) {
        add(self.cues.as_slice(), slot, 1);
    }

    /// Waits until the client of the slot may say this many lines, and returns whether it may.
    pub(crate) fn is_cued<C: Clock>(&self, clock: &C, slot: usize, count: u64) -> bool {
        self.comes_to(clock, self.cues.as_slice(), slot, count)
    }

    /// Waits until the client of the slot has got so much, and answers whether it has.
    pub(crate) fn has_got<C: Clock>(&self, clock: &C, slot: usize, least: u64) -> bool {
        self.comes_to(clock, self.got.as_slice(), slot, least)
    }

    /// The client of the slot has heard so many more keepalives.
    pub(crate) fn is_answered(&self, slot: usize, count: u64) {
        add(self.replies.as_slice(), slot, count);
    }

    /// Waits until the client of the slot has heard this many keepalives, and returns whether it has.
    pub(crate) fn has_heard<C: Clock>(&self, clock: &C, slot: usize, least: u64) -> bool {
        self.comes_to(clock, self.replies.as_slice(), slot, least)
    }

    /// The sender of the slot comes to its gate with the commit of this number. It is a failure if its client has got
    /// that commit already.
    pub(crate) fn comes_to_gate(&self, slot: usize, number: u32) {
        if word_of(self.got.as_slice(), slot) > u64::from(number) {
            self.fail();
        }
        add(self.gates.as_slice(), slot, 1);
    }

    /// How often the sender of the slot has come to its gate.
    pub(crate) fn gates(&self, slot: usize) -> u64 {
        word_of(self.gates.as_slice(), slot)
    }

    /// Waits until the sender of the slot has come to its gate this often, and returns whether it has.
    pub(crate) fn is_at_gate<C: Clock>(&self, clock: &C, slot: usize, least: u64) -> bool {
        self.comes_to(clock, self.gates.as_slice(), slot, least)
    }

    /// The gate that is shut opens.
    pub(crate) fn open(&self) {
        self.opened.store(1, Ordering::SeqCst);
    }

    /// Waits until the gate that is shut opens. It is a failure if that does not come.
    pub(crate) fn await_open<C: Clock>(&self, clock: &C) {
        if !self.comes(clock, &self.opened, 1) {
            self.fail();
        }
    }
}
