//! Gates that hold senders.

use crate::board::Board;
use crate::rounds::Round;
use crate::work::Hold;
use senders::Gate;
use std::time::Clock;

/// A gate that holds the sender of the first slot before it writes the first commit, where the board says so.
#[derive(Drop)]
pub(crate) struct FirstHeld<'a, C> {
    pub(crate) clock: &'a C,
    pub(crate) board: &'a Board,
}

impl<C: Clock> Gate for FirstHeld<'_, C> {
    fn pass(&self, slot: usize, number: u32) {
        if self.board.hold == Hold::Gate && slot == 0 && number == 1 {
            self.board.await_later(self.clock);
        }
    }
}

/// A gate that tells the board who comes to it. If a client is to report too much, the gate holds the sender of the
/// first slot before it writes the third commit, until it is opened.
#[derive(Drop)]
pub(crate) struct Watched<'a, C> {
    pub(crate) clock: &'a C,
    pub(crate) board: &'a Board,
}

impl<C: Clock> Gate for Watched<'_, C> {
    fn pass(&self, slot: usize, number: u32) {
        self.board.comes_to_gate(slot, number);
        if self.board.round == Round::Ahead && slot == 0 && number == 3 {
            self.board.await_open(self.clock);
        }
    }
}
