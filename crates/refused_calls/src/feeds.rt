//! `Subscriber::feed`.

use crate::calls::{asked, feed, position, report};
use crate::publishers::{check_catches_up, stream, subscriber, whole};
use crate::refusals::{end_refusals, refuse};
use crate::tables::check_shard;
use anyhow::{Result, ensure};
use std::alloc::Global;
use tables_log::Lsn;
use test_subscriber::{SubFault, Subscriber};

/// The number of bytes that come at a time.
const PIECE: usize = 100;

/// Feeds a stream in pieces, up to a fault.
fn feed_all(subscriber: &mut Subscriber, stream: &[u8]) -> Result<(), SubFault> {
    for piece in stream.chunks(PIECE) {
        feed(subscriber, piece)?;
    }
    Ok(())
}

/// Checks that a refusal has left the subscriber what the commits up to its position leave, without a connection.
fn check_shut(
    alloc: Global,
    subscriber: &mut Subscriber,
    fault: SubFault,
    was_refused: bool,
) -> Result<()> {
    ensure!(
        fault == SubFault::OutOfMemory && was_refused,
        "the subscriber answers {fault:?}"
    );
    check_shard(
        alloc,
        subscriber,
        Lsn::new(position(subscriber)).commits_before(),
    )?;
    ensure!(
        feed(subscriber, b"W\0\0\0\x07\0\0\0") == Err(SubFault::Closed),
        "it is fed without a connection"
    );
    ensure!(
        report(subscriber) == Err(SubFault::Closed),
        "it reports without a connection"
    );
    ensure!(
        asked(subscriber).is_empty(),
        "something waits without a connection"
    );
    Ok(())
}

/// Feeds a subscriber the whole stream with request `number` refused, and tests what follows. Returns whether
/// it was refused.
pub fn is_refused(alloc: Global, number: u16) -> Result<bool> {
    let mut published = whole(alloc)?;
    let mut subscriber = subscriber(alloc)?;
    let stream = stream(alloc, &mut published, &mut subscriber)?;
    refuse(alloc, number)?;
    let answer = feed_all(&mut subscriber, &stream);
    let was_refused = end_refusals(alloc)?;
    if let Err(fault) = answer {
        check_shut(alloc, &mut subscriber, fault, was_refused)?;
    }
    check_catches_up(alloc, &mut published, &mut subscriber)?;
    Ok(was_refused)
}
