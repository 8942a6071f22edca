//! Publishers of small sizes, which are closed.

use crate::checks::{holds, same};
use crate::closing::serve_finished;
use crate::memory::query;
use crate::running::count_all;
use crate::sessions::take_seats;
use crate::work::{Work, key_of, row_of};
use senders::{Publisher, Publishing, Seat, Seats, Served, close};
use std::alloc::{AllocError, Global};
use std::process::Abort;
use std::sync::Wait;
use std::test::Fail;
use std::thread::Threads;
use std::time::Clock;
use table_changes::Command;

/// The commands of the commit after so many: one more than these, of which the first inserts a row of the first
/// subscriber, and the others rows of the second.
fn commands(alloc: Global, count: usize) -> Result<Vec<Command>, AllocError> {
    let mut list = Vec::new(alloc);
    let mut key = count;
    for place in 0..count.saturating_add(1) {
        let row = row_of(alloc, key)?;
        list.push(Command::Insert { table: 0, row })?;
        key = count
            .saturating_mul(100)
            .saturating_add(place)
            .saturating_add(100);
    }
    Ok(list)
}

/// Makes a commit after so many, and reads its first row. Whether it is there.
fn turn<P: Publishing, R: Wait>(
    rt: &R,
    alloc: Global,
    publisher: &Publisher<P>,
    seat: &mut Seat<P>,
    count: usize,
) -> Result<bool, Fail> {
    publisher.commit(rt, seat, commands(alloc, count)?, 1)?;
    let reading = publisher.read(rt, seat, 0, key_of(alloc, count)?)?;
    Ok(reading.answer.is_some())
}

/// Makes so many commits, each at the seat after that of the one before.
fn commit_all<P: Publishing, R: Wait + Abort>(
    rt: &R,
    alloc: Global,
    publisher: &Publisher<P>,
    seats: &mut Vec<Seat<P>>,
    commits: usize,
) -> Result<(), Fail> {
    let mut made = 0usize;
    for _ in 0..commits {
        for seat in seats.as_mut_slice() {
            if made < commits {
                holds(rt, turn(rt, alloc, publisher, seat, made)?);
                made = made.saturating_add(1);
            }
        }
    }
    Ok(())
}

/// Up to two finished connections, each of which took all of so many commits, and those that were not finished.
fn connections<P: Publishing + Sync, R: Threads + Wait + Clock + Abort + Sync>(
    rt: &R,
    alloc: Global,
    publisher: &Publisher<P>,
    commits: usize,
) -> Result<Vec<Served<P>>, Fail> {
    let query = query(alloc, Work::Pairs, 0)?;
    let mut list = Vec::new(alloc);
    for _ in 0..commits % 3 {
        let taken = serve_finished(rt, alloc, publisher, query.as_slice(), &[], &mut list)?;
        same(rt, taken, commits);
    }
    Ok(list)
}

/// That a publisher of this many seats and commits is closed. If the number of commits is odd, a seat without notes is
/// held back.
pub(crate) fn expect_size<P: Publishing + Sync, R: Threads + Wait + Clock + Abort + Sync>(
    rt: &R,
    alloc: Global,
    publisher: Publisher<P>,
    mut free: Seats<P>,
    count: usize,
    commits: usize,
) -> Result<(), Fail> {
    let mut seats = take_seats(alloc, &mut free, count)?;
    commit_all(rt, alloc, &publisher, &mut seats, commits)?;
    let served = connections(rt, alloc, &publisher, commits)?;
    let count_served = served.len();
    let held = if commits % 2 == 1 { free.seat() } else { None };
    let mut closing = publisher.into_closing();
    let closed = close(&mut closing, &mut free, seats, served)?;
    drop(held);
    same(
        rt,
        (closed.seats.len(), closed.book.log_len() as usize),
        (count, commits),
    );
    same(rt, count_all(closed.seats.as_slice()), commits);
    same(rt, closed.served.len(), count_served);
    Ok(())
}
