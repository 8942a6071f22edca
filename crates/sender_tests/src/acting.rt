//! A session that acts as a round says.

use crate::board::{Board, GRACE, TURNS, rest};
use crate::rounds::Act;
use crate::work::{Work, row_of};
use publisher_desk::{ConnectionState, SlotTask};
use senders::{Publisher, Publishing, Seat};
use std::alloc::{AllocError, Global};
use std::sync::Wait;
use std::thread;
use std::time::{Clock, Duration};
use table_changes::Command;
use tables_log::Book;

/// Looks whether the connection of a slot has ended.
#[derive(Drop)]
struct HasEnded {
    slot: usize,
}

impl SlotTask for HasEnded {
    type Answer = bool;

    ghost did = { λ _ _ _ _ _ _ _. Unit {0} };

    fn use_slots(&mut self, _book: &mut Book, connections: &mut [ConnectionState]) -> bool {
        match connections.get(self.slot) {
            Some(connection) => connection.has_ended,
            None => false,
        }
    }
}

/// Waits until the connection of the slot has ended, and returns whether it has.
fn ends<P: Publishing, R: Wait + Clock>(
    rt: &R,
    publisher: &Publisher<P>,
    board: &Board,
    slot: usize,
) -> bool {
    for turn in 0..TURNS {
        if publisher.with_slots(rt, &mut HasEnded { slot }) {
            return true;
        }
        if !board.is_fine() {
            return false;
        }
        rest(rt, turn);
    }
    false
}

/// The row of the second subscriber in the commit after this many.
fn second(alloc: Global, count: usize) -> Result<Vec<Command>, AllocError> {
    let row = row_of(alloc, count.saturating_add(100))?;
    Ok(vec![in alloc; Command::Insert { table: 0, row }]?)
}

/// Makes a commit, with a row of the first subscriber or without one. Whether it is accepted.
fn commits<P: Publishing, R: Wait>(
    rt: &R,
    publisher: &Publisher<P>,
    seat: &mut Seat<P>,
    alloc: Global,
    is_both: bool,
) -> bool {
    let count = seat.notes().len();
    let commands = if is_both {
        Work::Pairs.commands(alloc, 0, count)
    } else {
        second(alloc, count)
    };
    match commands {
        Ok(commands) => publisher.commit(rt, seat, commands, 1).is_ok(),
        Err(_) => false,
    }
}

/// Finishes the publisher.
fn finish<P: Publishing, R: Wait + Clock>(rt: &R, publisher: &Publisher<P>) {
    publisher.finish(rt);
    thread::sleep(rt, Duration::from_millis(GRACE));
}

/// Does an act, and returns whether it was completed.
fn does<P: Publishing, R: Wait + Clock>(
    rt: &R,
    publisher: &Publisher<P>,
    seat: &mut Seat<P>,
    board: &Board,
    act: Act,
) -> bool {
    match act {
        Act::Cue(slot) => board.cue(slot),
        Act::Got(slot, least) => return board.has_got(rt, slot, least),
        Act::Heard(slot, least) => return board.has_heard(rt, slot, least),
        Act::AtGate(slot, least) => return board.is_at_gate(rt, slot, least),
        Act::CommitBoth => return commits(rt, publisher, seat, board.alloc, true),
        Act::CommitSecond => return commits(rt, publisher, seat, board.alloc, false),
        Act::Ended(slot) => return ends(rt, publisher, board, slot),
        Act::Open => board.open(),
        Act::Finish => finish(rt, publisher),
    }
    true
}

/// The first session does the acts of the round. If one does not come to an end, nobody waits any more.
pub(crate) fn play<P: Publishing, R: Wait + Clock>(
    rt: &R,
    publisher: &Publisher<P>,
    seats: &mut Vec<Seat<P>>,
    board: &Board,
) {
    let Some(seat) = seats.first_mut() else {
        return;
    };
    for act in board.round.acts() {
        if !does(rt, publisher, seat, board, *act) {
            board.fail();
            publisher.finish(rt);
            return;
        }
        board.plays();
    }
}
