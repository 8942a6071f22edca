//! `serve`.

ghost use Rattle.std.specs.Prelude.{◌≡◌};
ghost use Rattle.std.specs.Arc.{arc_value};
ghost use Rattle.shard_checker.specs.CheckedView.{checked_view};

use crate::calls;
use crate::calls::{asked, feed, open, position};
use crate::commands::commands;
use crate::connections::{Asking, Getting, Kept};
use crate::publishers::{COMMITS, stream, subscriber, whole};
use crate::refusals::{end_refusals, refuse};
use crate::sessions::{LIMIT, check_closes, commit_first};
use crate::sharding::checked;
use crate::tables::check_shard;
use anyhow::{Context, Result, ensure};
use copy_both::LinkFault;
use senders::{End, OpenGate, Opening, Publisher, Publishing, Seat, Served, serve};
use shard_checker::Checked;
use std::alloc::Global;
use std::marker::Brand;
use std::sync::{Arc, Wait};
use std::thread::Threads;
use std::time::Clock;
use test_subscriber::Subscriber;

/// Serves a client that sends this Query, with request `number` refused. It ends the connection when it has
/// the wanted number of bytes, or once the request is refused. Returns the result, what the client got, and whether
/// there was a refusal.
fn serve_query<P: Publishing + Sync, R: Threads + Wait + Clock + Sync>(
    rt: &R,
    alloc: Global,
    publisher: &Publisher<P>,
    query: &[u8],
    wanted: usize,
    number: u16,
) -> Result<(Served<P>, Vec<u8>, bool)> {
    let getting = Getting::new(wanted);
    let mut reader = Asking::new(rt, alloc, &getting, query);
    let mut writer = Kept::new(alloc, &getting)?;
    refuse(alloc, number)?;
    let served = serve(rt, publisher, &mut reader, &mut writer, &OpenGate);
    let was_refused = end_refusals(alloc)?;
    let Kept { bytes, .. } = writer;
    Ok((served, bytes, was_refused))
}

/// Checks that the connection started where the subscriber was, if it started, and was ended by its client or because
/// all commits were taken, whichever came first, or because memory ran out if a request was refused.
fn check_served<P: Publishing>(served: &Served<P>, from: u64, was_refused: bool) -> Result<()> {
    let (start, end) = (served.start(), served.end());
    ensure!(
        start.unwrap_or(from) == from,
        "the stream starts at {start:?}"
    );
    let is_refusal = was_refused && end == End::Link(LinkFault::OutOfMemory);
    ensure!(
        is_refusal || matches!(end, End::Client | End::Finished),
        "the connection ends by {end:?}"
    );
    Ok(())
}

/// Serves a subscriber on a new connection, with request `number` refused. Returns the result, and whether
/// there was a refusal.
fn connect<P: Publishing + Sync, R: Threads + Wait + Clock + Sync>(
    rt: &R,
    alloc: Global,
    publisher: &Publisher<P>,
    subscriber: &mut Subscriber,
    number: u16,
) -> Result<(Served<P>, bool)> {
    let wanted = stream(alloc, &mut whole(alloc)?, subscriber)?.len();
    let from = position(subscriber);
    open(subscriber)?;
    let query = asked(subscriber).to_vec(alloc)?;
    let (served, bytes, was_refused) = serve_query(rt, alloc, publisher, &query, wanted, number)?;
    check_served(&served, from, was_refused)?;
    feed(subscriber, &bytes)?;
    Ok((served, was_refused))
}

/// Serves a subscriber with request `number` refused, and then on a new connection, which brings it to the
/// end of the log. Returns both results, and whether there was a refusal.
fn connect_twice<P: Publishing + Sync, R: Threads + Wait + Clock + Sync>(
    rt: &R,
    alloc: Global,
    publisher: &Publisher<P>,
    number: u16,
) -> Result<(Vec<Served<P>>, bool)> {
    let mut subscriber = subscriber(alloc)?;
    let mut list = Vec::new(alloc);
    let (first, was_refused) = connect(rt, alloc, publisher, &mut subscriber, number)?;
    list.push(first)?;
    let (next, _) = connect(rt, alloc, publisher, &mut subscriber, 0)?;
    list.push(next)?;
    check_shard(alloc, &subscriber, COMMITS)?;
    Ok((list, was_refused))
}

/// Makes all commits.
fn commit_all<P: Publishing, R: Wait>(
    rt: &R,
    alloc: Global,
    publisher: &Publisher<P>,
    seat: &mut Seat<P>,
) -> Result<()> {
    commit_first(rt, alloc, publisher, seat)?;
    calls::publish(rt, publisher, seat, commands(alloc)?)?;
    Ok(())
}

/// Has a new publisher serve a subscriber with request `number` refused.
fn publish<P: Publishing + Sync, R: Threads + Wait + Clock + Sync>(
    rt: &R,
    alloc: Global,
    opening: Opening,
    checked: Arc<Checked, Global>,
    number: u16,
) -> Result<bool>
    requires name { opening.name ≡ P.name }
    requires parts { opening.parts ≡ P.parts }
    requires seats { opening.parts ≡ 1000 }
    requires history { opening.history ≡ P.history }
    requires slots { opening.slots ≡ P.slots }
    requires checked { checked_view (arc_value checked) ≡ P.checked }
    requires limit { 5 ≡ P.limit }
{
    let (publisher, mut seats) = Publisher::<P>::new(alloc, opening, checked, LIMIT)?;
    let mut seat = seats.seat().context("there is no seat")?;
    commit_all(rt, alloc, &publisher, &mut seat)?;
    // (if the request that is refused is made by the connection's second thread, the client is heard only once its
    // sender has stopped, and a sender waits for commits until no more can come)
    publisher.finish(rt);
    let (served, was_refused) = connect_twice(rt, alloc, &publisher, number)?;
    check_closes(alloc, publisher, seats, seat, served)?;
    Ok(was_refused)
}

/// Has a publisher serve a subscriber with request `number` refused, and tests what follows: the slot is
/// released, and the publisher can be closed. Returns whether it was refused.
pub fn is_refused<R: Threads + Wait + Clock + Sync>(
    rt: &R,
    alloc: Global,
    number: u16,
) -> Result<bool> {
    publish::<Brand, _>(rt, alloc, Opening::new(alloc)?, checked(alloc)?, number)
}
