//! Sessions that write.

use crate::board::Board;
use crate::work::{key_of, row_of};
use filter_tree::Row;
use senders::{Publisher, Publishing, Reading, Seat, Seats};
use std::alloc::{AllocError, Global};
use std::sync::Wait;
use std::thread;
use std::thread::Threads;
use std::time::Clock;
use table_changes::Command;

/// Whether the reading answers this row.
fn answers(reading: &Reading, wanted: &Row) -> bool {
    match &reading.answer {
        None => false,
        Some(found) => *found == *wanted,
    }
}

/// Makes the commands a commit, and tells the board of it. `None` where it is refused.
fn commit<P: Publishing, R: Wait>(
    rt: &R,
    publisher: &Publisher<P>,
    seat: &mut Seat<P>,
    commands: Vec<Command>,
    board: &Board,
) -> Option<()> {
    let number = publisher.commit(rt, seat, commands, 1).ok()?;
    board.returns(number);
    Some(())
}

/// Whether the row of this key is read as it was written.
fn is_read<P: Publishing, R: Wait>(
    rt: &R,
    publisher: &Publisher<P>,
    seat: &mut Seat<P>,
    alloc: Global,
    key: usize,
) -> Option<bool> {
    let reading = publisher.read(rt, seat, 0, key_of(alloc, key).ok()?).ok()?;
    let wanted = row_of(alloc, key).ok()?;
    Some(answers(&reading, &wanted))
}

/// One commit of a session. Whether its first row is then read as it was written.
fn turn<P: Publishing, R: Wait>(
    rt: &R,
    publisher: &Publisher<P>,
    seat: &mut Seat<P>,
    board: &Board,
    session: usize,
    turn: usize,
) -> Option<bool> {
    let commands = board.work.commands(board.alloc, session, turn).ok()?;
    commit(rt, publisher, seat, commands, board)?;
    is_read(
        rt,
        publisher,
        seat,
        board.alloc,
        board.work.key(session, turn),
    )
}

/// All commits of a session.
fn session<P: Publishing, R: Wait>(
    rt: &R,
    publisher: &Publisher<P>,
    seat: &mut Seat<P>,
    board: &Board,
    session: usize,
) {
    for place in 0..board.work.turns() {
        if turn(rt, publisher, seat, board, session, place) != Some(true) {
            board.fail();
            return;
        }
    }
}

/// The commits after all sessions.
fn last<P: Publishing, R: Wait>(
    rt: &R,
    publisher: &Publisher<P>,
    seat: &mut Seat<P>,
    board: &Board,
) -> Option<()> {
    for turn in 0..board.work.last_turns() {
        let commands = board.work.last_commands(board.alloc, turn).ok()?;
        commit(rt, publisher, seat, commands, board)?;
    }
    Some(())
}

/// All sessions, each in a thread of its own, and the commits after them. Then the publisher is finished.
pub(crate) fn write<P: Publishing + Sync, R: Threads + Wait + Clock + Sync>(
    rt: &R,
    publisher: &Publisher<P>,
    seats: &mut Vec<Seat<P>>,
    board: &Board,
) {
    let count = seats.len();
    if count == 0 {
        return;
    }
    board.await_starts(rt);
    thread::for_each_mut(
        rt,
        seats.as_mut_slice(),
        count,
        &|index, seat| { session(rt, publisher, seat, board, index) },
    );
    if last(rt, publisher, &mut seats[0], board).is_none() {
        board.fail();
    }
    publisher.finish(rt);
}

/// So many seats.
pub(crate) fn take_seats<P: Publishing>(
    alloc: Global,
    seats: &mut Seats<P>,
    count: usize,
) -> Result<Vec<Seat<P>>, AllocError> {
    let mut list = Vec::new(alloc);
    for _ in 0..count {
        if let Some(seat) = seats.seat() {
            list.push(seat)?;
        }
    }
    Ok(list)
}
