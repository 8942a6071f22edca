//! Connections over memory.

use crate::board::Board;
use crate::checks::{holds, same};
use crate::clients::{is_shard, subscriber};
use crate::devices::{Asking, Kept};
use crate::gates::FirstHeld;
use crate::running::{expect_all, expect_closed, run};
use crate::sessions::take_seats;
use crate::work::{Hold, Work};
use senders::{Conn, Publisher, Publishing, Seats, Served};
use std::alloc::{AllocError, Global};
use std::process::Abort;
use std::sync::Wait;
use std::test::Fail;
use std::thread::Threads;
use std::time::Clock;

/// A connection over memory.
type Held<'a, P, R> = Conn<P, Asking<'a, R>, Kept<'a, R>>;

/// What the client of a slot asks.
pub(crate) fn query(alloc: Global, work: Work, slot: usize) -> Result<Vec<u8>, AllocError> {
    let Some(subscriber) = subscriber(alloc, work, slot) else {
        return Ok(Vec::new(alloc));
    };
    subscriber.output().to_vec(alloc)
}

/// What each client asks.
fn queries(alloc: Global, work: Work) -> Result<Vec<Vec<u8>>, AllocError> {
    let mut list = Vec::new(alloc);
    for slot in 0..work.slots() {
        list.push(query(alloc, work, slot)?)?;
    }
    Ok(list)
}

/// How many bytes a client's writer takes at most at a time: few where it is slow.
fn most(board: &Board, slot: usize) -> usize {
    if board.hold == Hold::Slow && slot == 0 {
        7
    } else {
        usize::MAX
    }
}

/// A connection of each client.
fn connect<'a, P: Publishing, R: Clock>(
    rt: &'a R,
    board: &'a Board,
    queries: &'a [Vec<u8>],
) -> Result<Vec<Held<'a, P, R>>, AllocError> {
    let mut list = Vec::new(board.alloc);
    for (slot, query) in queries.iter().enumerate() {
        let last = board.work.in_all();
        list.push(Conn {
            reader: Asking::new(rt, board, slot, last, query.as_slice()),
            writer: Kept::new(rt, board, slot, usize::MAX, most(board, slot)),
            served: None,
        })?;
    }
    Ok(list)
}

/// That the connection of this slot took all commits, and that its bytes give its shard.
fn expect_one<P: Publishing, R: Clock + Abort>(
    rt: &R,
    board: &Board,
    slot: usize,
    connection: Held<'_, P, R>,
) -> Result<Served<P>, Fail> {
    let Conn { writer, served, .. } = connection;
    let Some(served) = served else {
        return Err(Fail::from("a connection was not served"));
    };
    same(rt, served.slot(), Some(slot));
    expect_all(rt, &served, board.work);
    let bytes = writer.bytes.as_slice();
    holds(
        rt,
        is_shard(board.alloc, board.work, slot, bytes) == Some(true),
    );
    Ok(served)
}

/// That each connection did so.
fn expect_each<P: Publishing, R: Clock + Abort>(
    rt: &R,
    board: &Board,
    connections: Vec<Held<'_, P, R>>,
) -> Result<Vec<Served<P>>, Fail> {
    let mut list = Vec::new(board.alloc);
    let mut slot = 0usize;
    for connection in connections {
        list.push(expect_one(rt, board, slot, connection)?)?;
        slot = slot.saturating_add(1);
    }
    Ok(list)
}

/// That each connection over memory is served all, while sessions write, and the publisher can be closed.
pub(crate) fn expect_served<P: Publishing + Sync, R: Threads + Wait + Clock + Abort + Sync>(
    rt: &R,
    alloc: Global,
    publisher: Publisher<P>,
    mut free: Seats<P>,
    work: Work,
    hold: Hold,
) -> Result<(), Fail> {
    let board = Board::new(alloc, work, hold, 0)?;
    let queries = queries(alloc, work)?;
    let mut seats = take_seats(alloc, &mut free, work.sessions())?;
    let mut connections = connect(rt, &board, queries.as_slice())?;
    let gate = FirstHeld {
        clock: rt,
        board: &board,
    };
    run(
        rt,
        &publisher,
        &mut seats,
        connections.as_mut_slice(),
        &gate,
        &board,
    );
    holds(rt, board.is_fine());
    let served = expect_each(rt, &board, connections)?;
    expect_closed(rt, &board, publisher, free, seats, served)
}
