//! Clients that follow the stream of a slot.

use crate::board::Board;
use crate::work::{Hold, Work, are_rows};
use filter_tree::Row;
use std::alloc::{AllocError, Global};
use std::io::{Read, Write};
use std::net::{Ipv4Addr, Net, TcpListener, TcpStream};
use std::time::{Clock, Duration};
use tables_log::Lsn;
use test_subscriber::Subscriber;

/// For how many seconds at most a client waits for the next bytes.
const PATIENCE: u64 = 30;

/// The name of a subscriber's publication.
fn publication(alloc: Global, work: Work, slot: usize) -> Result<String, AllocError> {
    match (work, slot) {
        (Work::Pairs, 0) => String::from_str(alloc, "pa"),
        (Work::Pairs, _) => String::from_str(alloc, "pb"),
        (Work::Spread, _) => format!(in alloc; "p{slot}"),
    }
}

/// A subscriber that has asked for its stream.
pub(crate) fn subscriber(alloc: Global, work: Work, slot: usize) -> Option<Subscriber> {
    let name = format!(in alloc; "s{slot}").ok()?;
    let mut publications = Vec::new(alloc);
    let publication = publication(alloc, work, slot).ok()?;
    publications.push(publication).ok()?;
    let mut subscriber = Subscriber::new(alloc, name, publications);
    subscriber.open().ok()?;
    Some(subscriber)
}

/// Whether the subscriber has its shard: the keys from its first one on, one for each commit.
pub(crate) fn has_shard(
    alloc: Global,
    work: Work,
    slot: usize,
    subscriber: &Subscriber,
) -> Option<bool> {
    let rows = subscriber.rows(16_384).ok()?;
    let first = slot.saturating_mul(work.width());
    are_rows(alloc, rows.as_slice(), first, work.sent()).ok()
}

/// Whether a subscriber of the slot that is fed these bytes has its shard then.
pub(crate) fn is_shard(alloc: Global, work: Work, slot: usize, bytes: &[u8]) -> Option<bool> {
    let mut subscriber = subscriber(alloc, work, slot)?;
    subscriber.feed(bytes).ok()?;
    has_shard(alloc, work, slot, &subscriber)
}

/// Asks for the stream.
fn ask(stream: &mut TcpStream, subscriber: &Subscriber) -> Option<()> {
    stream.write_all(subscriber.output()).ok()
}

/// Reads some bytes and applies them. None where there are no more.
fn hear(stream: &mut TcpStream, subscriber: &mut Subscriber, piece: &mut [u8]) -> Option<()> {
    let count = stream.read(piece).ok()?;
    if count == 0 {
        return None;
    }
    subscriber.feed(&piece[..count]).ok()
}

/// How much it has got: the number of the next commit that it gets; 0 before its stream has started.
fn got(subscriber: &Subscriber) -> u64 {
    Lsn::new(subscriber.position().saturating_add(1)).commits_before()
}

/// Feeds the bytes to the subscriber, if there is one. Returns its progress, if its stream has started.
pub(crate) fn hears(subscriber: &mut Option<Subscriber>, bytes: &[u8]) -> Option<u64> {
    let subscriber = subscriber.as_mut()?;
    subscriber.feed(bytes).ok()?;
    Some(got(subscriber).max(1))
}

/// The first read of a client. It is slow where the board says so.
fn begin<C: Clock>(
    clock: &C,
    board: &Board,
    slot: usize,
    stream: &mut TcpStream,
    subscriber: &mut Subscriber,
) -> Option<()> {
    if slot == 0 && board.hold == Hold::Slow {
        let mut byte = [0; 1];
        hear(stream, subscriber, &mut byte)?;
        board.await_got(clock, 1, board.work.in_all());
    }
    Some(())
}

/// Connects, in the order of the slots. A read to which nothing comes for too long fails.
fn connect<R: Clock + Net<Listener = TcpListener, Stream = TcpStream>>(
    rt: &R,
    board: &Board,
    slot: usize,
) -> Option<TcpStream> {
    board.await_turn(rt, slot as u64);
    let stream = TcpStream::connect(rt, (Ipv4Addr::LOCALHOST, board.port)).ok()?;
    board.connects();
    let patience = Some(Duration::from_secs(PATIENCE));
    stream.set_read_timeout(patience).ok()?;
    Some(stream)
}

/// Follows the stream of the slot until it has all, and closes then. Whether it has its shard.
fn follow<R: Clock + Net<Listener = TcpListener, Stream = TcpStream>>(
    rt: &R,
    board: &Board,
    slot: usize,
) -> Option<bool> {
    let mut stream = connect(rt, board, slot)?;
    let mut subscriber = subscriber(board.alloc, board.work, slot)?;
    ask(&mut stream, &subscriber)?;
    begin(rt, board, slot, &mut stream, &mut subscriber)?;
    let mut piece = [0; 512];
    for _ in 0..u64::MAX {
        hear(&mut stream, &mut subscriber, &mut piece)?;
        board.gets(slot, got(&subscriber));
        if board.work.in_all() <= got(&subscriber) {
            break;
        }
    }
    has_shard(board.alloc, board.work, slot, &subscriber)
}

/// A client that follows the stream of the slot.
pub(crate) fn client<R: Clock + Net<Listener = TcpListener, Stream = TcpStream>>(
    rt: &R,
    board: &Board,
    slot: usize,
) {
    if follow(rt, board, slot) != Some(true) {
        board.fail();
    }
}

/// Whether the subscriber has this row by now. None if it has another one.
fn has_only(subscriber: &Subscriber, wanted: &Row) -> Option<bool> {
    let rows = subscriber.rows(16_384).ok()?;
    match rows.as_slice() {
        [] => Some(false),
        [row] if *row == *wanted => Some(true),
        _ => None,
    }
}

/// Follows the stream of the slot, once the program listens, until the subscriber has a row, which has to be this one
/// and no other. It closes then.
pub(crate) fn follow_to<R: Clock + Net<Listener = TcpListener, Stream = TcpStream>>(
    rt: &R,
    board: &Board,
    slot: usize,
    wanted: &Row,
) -> Option<()> {
    board.await_listener(rt);
    let mut stream = connect(rt, board, slot)?;
    let mut subscriber = subscriber(board.alloc, board.work, slot)?;
    ask(&mut stream, &subscriber)?;
    let mut piece = [0; 512];
    for _ in 0..u64::MAX {
        hear(&mut stream, &mut subscriber, &mut piece)?;
        if has_only(&subscriber, wanted)? {
            return Some(());
        }
    }
    None
}
