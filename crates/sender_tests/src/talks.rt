//! Clients that report what they have, are answered, leave and come again.

use crate::board::Board;
use crate::checks::same;
use crate::devices::Kept;
use crate::gates::Watched;
use crate::phrases::{DONE, all_lines, keepalives};
use crate::prompted::Prompted;
use crate::rounds::{Outcome, Round};
use crate::running::run;
use crate::sessions::take_seats;
use senders::{Conn, End, Publisher, Publishing, Seat, Seats, Served, close};
use std::alloc::{AllocError, Global};
use std::process::Abort;
use std::sync::Wait;
use std::test::Fail;
use std::thread::Threads;
use std::time::Clock;

/// A connection over memory whose client says its lines.
type Led<'a, P, R> = Conn<P, Prompted<'a, R>, Kept<'a, R>>;

/// The rounds, in their order.
const ROUNDS: &[Round] = &[Round::Reports, Round::Ahead, Round::AtOnce, Round::Last];

/// A connection of each client that says something.
fn connect<'a, P: Publishing, R: Clock>(
    rt: &'a R,
    board: &'a Board,
    lines: &'a [Vec<Vec<u8>>],
) -> Result<Vec<Led<'a, P, R>>, AllocError> {
    let mut list = Vec::new(board.alloc);
    for (slot, own) in lines.iter().enumerate() {
        if !own.is_empty() {
            list.push(Conn {
                reader: Prompted::new(rt, board, slot, own.as_slice()),
                writer: Kept::new(rt, board, slot, usize::MAX, usize::MAX),
                served: None,
            })?;
        }
    }
    Ok(list)
}

/// Why a connection ended. Where the publisher is finished it may be that or its client.
fn end_of(round: Round, end: End) -> End {
    if round == Round::Last && end == End::Finished {
        return End::Client;
    }
    end
}

/// What came of the connection of this slot.
fn outcome<P: Publishing>(board: &Board, slot: usize, served: &Served<P>, bytes: &[u8]) -> Outcome {
    Outcome {
        start: served.start(),
        end: end_of(board.round, served.end()),
        replies: keepalives(bytes),
        gates: board.gates(slot),
        is_done: bytes.ends_with(DONE),
    }
}

/// That the connection of this slot went as the round wants it.
fn expect_one<P: Publishing, R: Clock + Abort>(
    rt: &R,
    board: &Board,
    slot: usize,
    connection: Led<'_, P, R>,
) -> Result<Served<P>, Fail> {
    let Conn { writer, served, .. } = connection;
    let Some(served) = served else {
        return Err(Fail::from("a connection was not served"));
    };
    let found = outcome(board, slot, &served, writer.bytes.as_slice());
    let wanted = board.round.wanted(slot);
    same(rt, served.slot(), Some(slot));
    same(rt, (board.round, slot, found), (board.round, slot, wanted));
    Ok(served)
}

/// That each connection did so.
fn expect_each<P: Publishing, R: Clock + Abort>(
    rt: &R,
    board: &Board,
    connections: Vec<Led<'_, P, R>>,
) -> Result<Vec<Served<P>>, Fail> {
    let mut list = Vec::new(board.alloc);
    let mut slot = 0usize;
    for connection in connections {
        list.push(expect_one(rt, board, slot, connection)?)?;
        slot = slot.saturating_add(1);
    }
    Ok(list)
}

/// Serves the clients of a round while the session acts.
fn expect_round<P: Publishing + Sync, R: Threads + Wait + Clock + Abort + Sync>(
    rt: &R,
    alloc: Global,
    publisher: &Publisher<P>,
    seats: &mut Vec<Seat<P>>,
    round: Round,
) -> Result<Vec<Served<P>>, Fail> {
    let board = Board::of_round(alloc, round)?;
    let lines = all_lines(alloc, round)?;
    let mut connections = connect(rt, &board, lines.as_slice())?;
    let gate = Watched {
        clock: rt,
        board: &board,
    };
    run(
        rt,
        publisher,
        seats,
        connections.as_mut_slice(),
        &gate,
        &board,
    );
    let acts = round.acts().len() as u64;
    same(rt, (round, board.played()), (round, acts));
    same(rt, (round, board.is_fine()), (round, true));
    expect_each(rt, &board, connections)
}

/// That each round goes as it should, and the closed book has confirmed what the clients reported.
pub(crate) fn expect_talk<P: Publishing + Sync, R: Threads + Wait + Clock + Abort + Sync>(
    rt: &R,
    alloc: Global,
    publisher: Publisher<P>,
    mut free: Seats<P>,
) -> Result<(), Fail> {
    let mut seats = take_seats(alloc, &mut free, 1)?;
    let mut all = Vec::new(alloc);
    for round in ROUNDS {
        let mut served = expect_round(rt, alloc, &publisher, &mut seats, *round)?;
        all.append(&mut served)?;
    }
    let mut closing = publisher.into_closing();
    let closed = close(&mut closing, &mut free, seats, all)?;
    same(rt, closed.book.log_len(), 4);
    let confirmed = (closed.book.confirmed(0), closed.book.confirmed(1));
    same(rt, confirmed, (128, 320));
    Ok(())
}
