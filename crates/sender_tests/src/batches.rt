//! What is written at once.

use crate::board::Board;
use crate::checks::{holds, same};
use crate::devices::{Asking, Kept};
use crate::memory::query;
use crate::work::{Hold, Work, regional_row};
use senders::{End, OpenGate, Publisher, Publishing, Seat, Seats, serve};
use std::alloc::Global;
use std::process::Abort;
use std::sync::Wait;
use std::test::Fail;
use std::thread::Threads;
use std::time::Clock;
use table_changes::Command;

/// Makes 1,000 commits, each of a row of the first slot.
fn commit_rows<P: Publishing, R: Wait>(
    rt: &R,
    alloc: Global,
    publisher: &Publisher<P>,
    seat: &mut Seat<P>,
) -> Result<(), Fail> {
    for place in 0..1_000u32 {
        let key = i64::from(place) - 1_000;
        let insert = Command::Insert {
            table: 0,
            row: regional_row(alloc, key, "eu")?,
        };
        publisher.commit(rt, seat, vec![in alloc; insert]?, 1)?;
    }
    Ok(())
}

/// That the commits that the log has when a client connects are written in three pushes after the start, of 64 KiB and
/// a commit at most.
pub(crate) fn expect_batches<P: Publishing + Sync, R: Threads + Wait + Clock + Abort + Sync>(
    rt: &R,
    alloc: Global,
    publisher: &Publisher<P>,
    mut seats: Seats<P>,
) -> Result<(), Fail> {
    let board = Board::new(alloc, Work::Pairs, Hold::Nobody, 0)?;
    let query = query(alloc, Work::Pairs, 0)?;
    let Some(mut seat) = seats.seat() else {
        return Err(Fail::from("no seat"));
    };
    commit_rows(rt, alloc, publisher, &mut seat)?;
    let mut reader = Asking::new(rt, &board, 0, 1_001, query.as_slice());
    let mut writer = Kept::new(rt, &board, 0, usize::MAX, usize::MAX);
    let served = serve(rt, publisher, &mut reader, &mut writer, &OpenGate);
    same(
        rt,
        (served.end(), served.taken().len()),
        (End::Client, 1_000),
    );
    same(rt, writer.pushes, 4);
    holds(rt, writer.longest < 65_536 + 200);
    holds(rt, board.is_fine());
    Ok(())
}
