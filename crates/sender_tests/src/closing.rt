//! Publishers that are closed, and that cannot be.

use crate::board::Board;
use crate::cases::{Case, Step};
use crate::checks::{holds, same};
use crate::devices::{Kept, Staying};
use crate::memory::query;
use crate::sessions::take_seats;
use crate::work::{Hold, Work, key_of};
use senders::{End, OpenGate, Publisher, Publishing, Seat, Seats, Served, close, serve};
use std::alloc::Global;
use std::process::Abort;
use std::sync::Wait;
use std::test::Fail;
use std::thread::Threads;
use std::time::Clock;

/// The Query of a client that requests the stream of the first slot from the end of the second commit.
const AFTER_SECOND: &[u8] = b"Q\0\0\0\x5bSTART_REPLICATION SLOT \"s0\" LOGICAL 0/C0 \
    (proto_version '1', publication_names '\"pa\"')\0";

/// The status of a client that confirms the first commit.
const CONFIRMS_FIRST: &[u8] =
    b"d\0\0\0\x26r\0\0\0\0\0\0\0\0\0\0\0\0\0\0\0\x80\0\0\0\0\0\0\0\0\0\0\0\0\0\0\0\0\0";

/// The status of a client that confirms the second commit.
const CONFIRMS_SECOND: &[u8] =
    b"d\0\0\0\x26r\0\0\0\0\0\0\0\0\0\0\0\0\0\0\0\xc0\0\0\0\0\0\0\0\0\0\0\0\0\0\0\0\0\0";

/// How often a row is read.
const READINGS: u32 = 100_000;

/// How many connections are served at most until one is finished.
const TRIES: u32 = 100;

/// The result of a connection of the first slot whose client sends this Query, then, when its sender has had some time,
/// these later bytes, and then closes.
fn serve_once<P: Publishing + Sync, R: Threads + Wait + Clock + Sync>(
    rt: &R,
    publisher: &Publisher<P>,
    board: &Board,
    query: &[u8],
    later: &[u8],
) -> Served<P> {
    let mut reader = Staying::new(rt, query, later);
    let mut writer = Kept::new(rt, board, 0, usize::MAX, usize::MAX);
    serve(rt, publisher, &mut reader, &mut writer, &OpenGate)
}

/// Finishes the publisher, and serves clients of the first slot that send this Query and these later bytes, one after
/// another, until a sender has seen that the publisher is finished before its client closes. Adds the result of each,
/// and returns how many commits the last one took.
pub(crate) fn serve_finished<P: Publishing + Sync, R: Threads + Wait + Clock + Abort + Sync>(
    rt: &R,
    alloc: Global,
    publisher: &Publisher<P>,
    query: &[u8],
    later: &[u8],
    list: &mut Vec<Served<P>>,
) -> Result<usize, Fail> {
    publisher.finish(rt);
    let board = Board::new(alloc, Work::Pairs, Hold::Nobody, 0)?;
    for _ in 0..TRIES {
        let served = serve_once(rt, publisher, &board, query, later);
        let (end, count) = (served.end(), served.taken().len());
        list.push(served)?;
        if end == End::Finished {
            holds(rt, board.is_fine());
            return Ok(count);
        }
    }
    Err(Fail::from("no connection is finished"))
}

/// Makes a commit with a row for each subscriber.
fn commit<P: Publishing, R: Wait>(
    rt: &R,
    alloc: Global,
    publisher: &Publisher<P>,
    seats: &mut Vec<Seat<P>>,
) -> Result<(), Fail> {
    let Some(seat) = seats.first_mut() else {
        return Err(Fail::from("no seat"));
    };
    let commands = Work::Pairs.commands(alloc, 0, seat.notes().len())?;
    publisher.commit(rt, seat, commands, 1)?;
    Ok(())
}

/// Reads the row of the first commit again and again.
fn read_often<P: Publishing, R: Wait>(
    rt: &R,
    alloc: Global,
    publisher: &Publisher<P>,
    seats: &mut Vec<Seat<P>>,
) -> Result<(), Fail> {
    let Some(seat) = seats.first_mut() else {
        return Err(Fail::from("no seat"));
    };
    for _ in 0..READINGS {
        let reading = publisher.read(rt, seat, 0, key_of(alloc, 0)?)?;
        if reading.answer.is_none() {
            return Err(Fail::from("no row is read"));
        }
    }
    Ok(())
}

/// Serves a client that starts where the slot is confirmed, and sends these later bytes, until it is finished.
fn serve_next<P: Publishing + Sync, R: Threads + Wait + Clock + Abort + Sync>(
    rt: &R,
    alloc: Global,
    publisher: &Publisher<P>,
    later: &[u8],
    list: &mut Vec<Served<P>>,
) -> Result<(), Fail> {
    let query = query(alloc, Work::Pairs, 0)?;
    serve_finished(rt, alloc, publisher, query.as_slice(), later, list)?;
    Ok(())
}

/// The greatest position that a client of these connections confirmed.
fn greatest_confirmed<P: Publishing>(served: &[Served<P>]) -> u64 {
    let mut greatest = 0;
    for one in served {
        greatest = one.confirmed().max(greatest);
    }
    greatest
}

/// Drops the first result.
fn lose_first<P: Publishing>(served: &mut Vec<Served<P>>) {
    if !served.is_empty() {
        drop(served.remove(0));
    }
}

/// Takes a step.
fn take<P: Publishing + Sync, R: Threads + Wait + Clock + Abort + Sync>(
    rt: &R,
    alloc: Global,
    publisher: &Publisher<P>,
    seats: &mut Vec<Seat<P>>,
    served: &mut Vec<Served<P>>,
    step: Step,
) -> Result<(), Fail> {
    match step {
        Step::Commit => commit(rt, alloc, publisher, seats)?,
        Step::Read => read_often(rt, alloc, publisher, seats)?,
        Step::Serve => serve_next(rt, alloc, publisher, &[], served)?,
        Step::ServeConfirming => {
            serve_next(rt, alloc, publisher, CONFIRMS_FIRST, served)?;
            same(rt, greatest_confirmed(served.as_slice()), 128);
        }
        Step::Request => {
            serve_finished(rt, alloc, publisher, AFTER_SECOND, &[], served)?;
        }
        Step::RequestConfirming => {
            serve_finished(rt, alloc, publisher, AFTER_SECOND, CONFIRMS_SECOND, served)?;
            same(rt, greatest_confirmed(served.as_slice()), 192);
        }
        Step::Reverse => served.as_mut_slice().reverse(),
        Step::LoseFirst => lose_first(served),
        Step::LoseLast => drop(served.pop()),
        Step::LoseSeat => seats.clear(),
    }
    Ok(())
}

/// Takes the steps, and checks that the publisher is then closed with this answer.
pub(crate) fn expect_answer<P: Publishing + Sync, R: Threads + Wait + Clock + Abort + Sync>(
    rt: &R,
    alloc: Global,
    publisher: Publisher<P>,
    mut free: Seats<P>,
    case: Case,
) -> Result<(), Fail> {
    let (steps, wanted) = case;
    let mut seats = take_seats(alloc, &mut free, 1)?;
    let mut served = Vec::new(alloc);
    for step in steps {
        take(rt, alloc, &publisher, &mut seats, &mut served, *step)?;
    }
    let mut closing = publisher.into_closing();
    let answer = close(&mut closing, &mut free, seats, served).err();
    same(rt, (steps, answer), case);
    Ok(())
}
