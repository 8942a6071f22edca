//! Clients that say their lines when they are told to.

ghost use Rattle.std.specs.Prelude.{◌≡◌, false};

use crate::board::Board;
use senders::{Failed, Source};
use std::time::Clock;

/// What a client writes: its lines, each when the board has a cue for it. Then it closes, and also if it gets no cue.
/// No read fails.
#[derive(Drop)]
pub(crate) struct Prompted<'a, C> {
    clock: &'a C,
    board: &'a Board,
    slot: usize,
    lines: &'a [Vec<u8>],
    said: u64,
    left: &'a [u8],
    ended: bool,
}

impl<'a, C: Clock> Prompted<'a, C> {
    pub(crate) fn new(
        clock: &'a C,
        board: &'a Board,
        slot: usize,
        lines: &'a [Vec<u8>],
    ) -> Prompted<'a, C> {
        Prompted {
            clock,
            board,
            slot,
            lines,
            said: 0,
            left: &[],
            ended: false,
        }
    }

    /// The next line, when there is a cue for it.
    fn next(&mut self) -> &'a [u8]
        ensures { self.new.ended ≡ self.old.ended }
    {
        let Some((line, rest)) = self.lines.split_first() else {
            return &[];
        };
        self.lines = rest;
        self.said = self.said.saturating_add(1);
        if !self.board.is_cued(self.clock, self.slot, self.said) {
            return &[];
        }
        line.as_slice()
    }
}

impl<C: Clock> Source for Prompted<'_, C> {
    ghost has_failed = { λ source. false };

    ghost has_ended = { λ source. source.ended };

    fn pull(&mut self, piece: &mut [u8]) -> Result<usize, Failed> {
        if self.left.is_empty() {
            self.left = self.next();
        }
        let count = self.left.len().min(piece.len());
        let (now, later) = self.left.split_at(count);
        piece[..count].copy_from_slice(now);
        self.left = later;
        if count == 0 && !piece.is_empty() {
            self.ended = true;
        }
        Ok(count)
    }

    fn failed(&self) -> bool {
        false
    }

    fn ended(&self) -> bool {
        self.ended
    }
}
