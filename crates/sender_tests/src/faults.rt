//! Connections whose readers and writers fail.

use crate::board::Board;
use crate::checks::{holds, same};
use crate::devices::{Asking, Kept};
use crate::memory::query;
use crate::work::{Hold, Work, regional_row};
use senders::{End, OpenGate, Publisher, Publishing, Seats, Served, serve};
use std::alloc::{AllocError, Global};
use std::process::Abort;
use std::sync::Wait;
use std::test::Fail;
use std::thread::Threads;
use std::time::Clock;
use table_changes::Command;

/// What a subscriber is sent of a log whose only commit inserts the row (7, 'eu') at 1: CopyBothResponse, and then
/// Begin, Relation, Insert and Commit as XLogData, with the clock 0.
const STREAM: &[u8] = b"W\0\0\0\x07\0\0\0\
    d\0\0\0\x32w\0\0\0\0\0\0\0\x40\0\0\0\0\0\0\0\x40\0\0\0\0\0\0\0\0B\0\0\0\0\0\0\0\x40\0\0\0\0\0\0\0\x01\0\0\0\x03\
    d\0\0\0\x4aw\0\0\0\0\0\0\0\x40\0\0\0\0\0\0\0\x40\0\0\0\0\0\0\0\0R\0\0\x40\0public\0t\0f\0\x02\
    \x01id\0\0\0\0\x17\xff\xff\xff\xff\x01region\0\0\0\0\x19\xff\xff\xff\xff\
    d\0\0\0\x32w\0\0\0\0\0\0\0\x40\0\0\0\0\0\0\0\x40\0\0\0\0\0\0\0\0I\0\0\x40\0N\0\x02t\0\0\0\x017t\0\0\0\x02eu\
    d\0\0\0\x37w\0\0\0\0\0\0\0\x40\0\0\0\0\0\0\0\x40\0\0\0\0\0\0\0\0C\0\0\0\0\0\0\0\0\x40\0\0\0\0\0\0\0\x80\
    \0\0\0\0\0\0\0\x01";

/// Whether a byte of the stream is one of a clock. The frames begin at 8, 59, 134 and 185.
fn is_of_clock(place: usize) -> bool {
    matches!(place, 30..=37 | 81..=88 | 156..=163 | 207..=214)
}

/// Whether the bytes are the first ones of the stream, whatever clock it has.
fn begin_stream(bytes: &[u8], count: usize) -> bool {
    if bytes.len() != count || STREAM.len() < count {
        return false;
    }
    for (place, (byte, wanted)) in bytes.iter().zip(STREAM).enumerate() {
        if *byte != *wanted && !is_of_clock(place) {
            return false;
        }
    }
    true
}

/// An insert of the row (7, 'eu').
pub(crate) fn insert_first(alloc: Global) -> Result<Command, AllocError> {
    Ok(Command::Insert {
        table: 0,
        row: regional_row(alloc, 7, "eu")?,
    })
}

/// What came of a connection of the first slot whose writer has so much room, and what was written.
fn served<P: Publishing + Sync, R: Threads + Wait + Clock + Sync>(
    rt: &R,
    publisher: &Publisher<P>,
    board: &Board,
    query: &[u8],
    room: usize,
) -> (Served<P>, Vec<u8>) {
    board.gets(0, 0);
    let mut reader = Asking::new(rt, board, 0, 2, query);
    let mut writer = Kept::new(rt, board, 0, room, usize::MAX);
    let served = serve(rt, publisher, &mut reader, &mut writer, &OpenGate);
    let Kept { bytes, .. } = writer;
    (served, bytes)
}

/// That a writer with less room than the stream has bytes gets the first ones, and a writer with more gets all.
fn expect_room<P: Publishing + Sync, R: Threads + Wait + Clock + Abort + Sync>(
    rt: &R,
    publisher: &Publisher<P>,
    board: &Board,
    query: &[u8],
    room: usize,
) {
    let (served, bytes) = served(rt, publisher, board, query, room);
    let end = if room < 241 {
        End::WriteFault
    } else {
        End::Client
    };
    same(rt, served.end(), end);
    same(rt, (served.slot(), served.start()), (Some(0), Some(0)));
    same(rt, served.taken().len(), if room < 8 { 0 } else { 1 });
    holds(rt, begin_stream(bytes.as_slice(), room.min(241)));
}

/// That nothing is written where the first read fails.
fn expect_read_fault<P: Publishing + Sync, R: Threads + Wait + Clock + Abort + Sync>(
    rt: &R,
    publisher: &Publisher<P>,
    board: &Board,
) {
    let mut reader = Asking::failing(rt, board);
    let mut writer = Kept::new(rt, board, 0, usize::MAX, usize::MAX);
    let served = serve(rt, publisher, &mut reader, &mut writer, &OpenGate);
    same(rt, served.end(), End::ReadFault);
    same(rt, (served.slot(), served.start()), (None, None));
    same(rt, writer.bytes.len(), 0);
}

/// That each writer that fails gets the first bytes of the stream, and that its slot can be started again each time.
pub(crate) fn expect_faults<P: Publishing + Sync, R: Threads + Wait + Clock + Abort + Sync>(
    rt: &R,
    alloc: Global,
    publisher: &Publisher<P>,
    mut seats: Seats<P>,
) -> Result<(), Fail> {
    let board = Board::new(alloc, Work::Pairs, Hold::Nobody, 0)?;
    let query = query(alloc, Work::Pairs, 0)?;
    let Some(mut seat) = seats.seat() else {
        return Err(Fail::from("no seat"));
    };
    publisher.commit(rt, &mut seat, vec![in alloc; insert_first(alloc)?]?, 1)?;
    for room in 0..241 {
        expect_room(rt, publisher, &board, query.as_slice(), room);
    }
    expect_read_fault(rt, publisher, &board);
    expect_room(rt, publisher, &board, query.as_slice(), 1_000);
    holds(rt, board.is_fine());
    Ok(())
}
