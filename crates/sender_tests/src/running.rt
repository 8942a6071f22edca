//! Connections that are served while sessions write.

use crate::acting::play;
use crate::board::Board;
use crate::checks::{holds, same};
use crate::rounds::Round;
use crate::sessions::write;
use crate::work::{Work, are_rows};
use senders::{
    Conn, End, Gate, Note, Publisher, Publishing, Seat, Seats, Served, Sink, Source, close, run_all,
};
use std::process::Abort;
use std::sync::Wait;
use std::test::Fail;
use std::thread::{Threads, join};
use std::time::Clock;

/// What the sessions do: they write, or the first one does the acts of the round.
fn work<P: Publishing + Sync, R: Threads + Wait + Clock + Sync>(
    rt: &R,
    publisher: &Publisher<P>,
    seats: &mut Vec<Seat<P>>,
    board: &Board,
) {
    if board.round == Round::Free {
        write(rt, publisher, seats, board);
    } else {
        play(rt, publisher, seats, board);
    }
}

/// Serves the connections while the sessions write, or do the acts of the round.
pub(crate) fn run<
    P: Publishing + Sync,
    S: Source + Send + Drop,
    W: Sink + Send + Drop,
    G: Gate + Sync,
    R: Threads + Wait + Clock + Sync,
>(
    rt: &R,
    publisher: &Publisher<P>,
    seats: &mut Vec<Seat<P>>,
    connections: &mut [Conn<P, S, W>],
    gate: &G,
    board: &Board,
) {
    join(
        rt,
        || work(rt, publisher, seats, board),
        || run_all(rt, publisher, connections, gate),
    );
}

/// Whether the commits that were taken up are all.
fn has_all<P: Publishing>(served: &Served<P>, work: Work) -> bool {
    let mut number = 0u32;
    for commit in served.taken() {
        number = number.saturating_add(1);
        if commit.number() != number {
            return false;
        }
    }
    served.taken().len() == work.commits()
}

/// That all commits were taken from the log's start on, and the connection was ended by its client or the publisher.
pub(crate) fn expect_all<P: Publishing>(rt: &impl Abort, served: &Served<P>, work: Work) {
    same(rt, served.start(), Some(0));
    holds(rt, has_all(served, work));
    holds(rt, matches!(served.end(), End::Client | End::Finished));
}

/// How many of the notes are receipts.
fn count_receipts(notes: &[Note]) -> usize {
    let mut count = 0usize;
    for note in notes {
        if let Note::Committed(_) = note {
            count = count.saturating_add(1);
        }
    }
    count
}

/// How many receipts the seats have.
pub(crate) fn count_all<P: Publishing>(seats: &[Seat<P>]) -> usize {
    let mut count = 0usize;
    for seat in seats {
        count = count.saturating_add(count_receipts(seat.notes()));
    }
    count
}

/// That the publisher is closed, with a receipt for each commit, and a table that the subscribers' rows are.
pub(crate) fn expect_closed<P: Publishing>(
    rt: &impl Abort,
    board: &Board,
    publisher: Publisher<P>,
    mut rest: Seats<P>,
    seats: Vec<Seat<P>>,
    served: Vec<Served<P>>,
) -> Result<(), Fail> {
    let mut closing = publisher.into_closing();
    let closed = close(&mut closing, &mut rest, seats, served)?;
    same(rt, closed.book.log_len() as usize, board.work.commits());
    same(rt, count_all(closed.seats.as_slice()), board.work.commits());
    same(rt, closed.served.len(), board.work.slots());
    let rows = closed.book.rows(0)?;
    if board.work == Work::Pairs {
        holds(rt, are_rows(board.alloc, rows.as_slice(), 0, 200)?);
    } else {
        same(rt, rows.len(), 10_496);
    }
    Ok(())
}
