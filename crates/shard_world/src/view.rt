//! What is in a world.

ghost use Rattle.std.specs.Prelude.{◌≡◌, ◌≤◌, length, IfOk};
ghost use Rattle.shard_world.specs.ViewContents.{AllAt, AreSeen, FoundBy, FoundIn, IsSeen, SeenAt};

use crate::peer::Peer;
use filter_tree::Row;
use pgoutput_msgs::oid_of;
use pub_catalog::SubscriberNumber;
use std::alloc::{AllocError, Global};
use tables_log::{Book, Lsn};
use test_subscriber::Subscriber;

/// What is in a subscriber: its position in the log, how many commits that counts, the position up to which its slot is
/// confirmed, and for each table of the catalog its rows, in their order.
#[derive(Debug, Drop, PartialEq, Eq)]
pub struct SubscriberView {
    pub position: Lsn,
    pub applied: u64,
    pub confirmed: Lsn,
    pub rows: Vec<Vec<Row>>,
}

/// What is in a publisher and its subscribers: how many commits the log has, for each table of the catalog its rows, in
/// their order, and each subscriber by its number.
#[derive(Debug, Drop, PartialEq, Eq)]
pub struct View {
    pub log: u32,
    pub rows: Vec<Vec<Row>>,
    pub subscribers: Vec<SubscriberView>,
}

/// The publisher's rows, of this number of tables.
#[tactic(auto, using(crate::proofs::ViewLemmas::at_more))]
fn rows_of_tables(alloc: Global, book: &Book, tables: usize) -> Result<Vec<Vec<Row>>, AllocError>
    ensures width { IfOk result (λ rows. length rows.items ≡ tables) }
    ensures found { IfOk result (λ rows. AllAt (λ table rows. FoundIn book.now table rows.items) rows.items) }
{
    let mut rows = Vec::with_capacity(alloc, tables)?;
    for table in 0..tables {
        rows.push(book.rows(table)?)?;
    }
    Ok(rows)
}

/// A subscriber's rows, of this number of tables.
#[tactic(auto, using(crate::proofs::ViewLemmas::at_more))]
fn rows_of_copies(
    alloc: Global,
    subscriber: &Subscriber,
    tables: usize,
) -> Result<Vec<Vec<Row>>, AllocError>
    requires { tables ≤ 64 }
    ensures width { IfOk result (λ rows. length rows.items ≡ tables) }
    ensures found { IfOk result (λ rows. AllAt (λ table rows. FoundBy subscriber.now table rows.items) rows.items) }
{
    let mut rows = Vec::with_capacity(alloc, tables)?;
    for table in 0..tables {
        rows.push(subscriber.rows(oid_of(table))?)?;
    }
    Ok(rows)
}

/// What is in a subscriber with this number.
fn seen_of(
    alloc: Global,
    book: &Book,
    number: SubscriberNumber,
    subscriber: &Subscriber,
    tables: usize,
) -> Result<SubscriberView, AllocError>
    requires { tables ≤ 64 }
    ensures { IfOk result (IsSeen book.now tables number subscriber.now) }
{
    let position = Lsn::new(subscriber.position());
    Ok(SubscriberView {
        position,
        applied: position.commits_before(),
        confirmed: Lsn::new(book.confirmed(number)),
        rows: rows_of_copies(alloc, subscriber, tables)?,
    })
}

/// What is in each subscriber.
#[tactic(auto, using(crate::proofs::ViewLemmas::at_more))]
fn seen_of_all(
    alloc: Global,
    book: &Book,
    peers: &[Peer],
    tables: usize,
) -> Result<Vec<SubscriberView>, AllocError>
    requires { tables ≤ 64 }
    ensures count { IfOk result (λ shown. length shown.items ≡ length peers.now) }
    ensures each { IfOk result (λ shown. AllAt (SeenAt book.now tables peers.now) shown.items) }
{
    let mut subscribers = Vec::with_capacity(alloc, peers.len())?;
    for (number, peer) in peers.iter().enumerate() {
        subscribers.push(seen_of(alloc, book, number, &peer.subscriber, tables)?)?;
    }
    Ok(subscribers)
}

/// What is in a publisher and its subscribers, of this number of tables. The only error is out of memory.
pub(crate) fn seen(
    alloc: Global,
    book: &Book,
    peers: &[Peer],
    tables: usize,
) -> Result<View, AllocError>
    requires { tables ≤ 64 }
    ensures { IfOk result (AreSeen book.now tables peers.now) }
{
    Ok(View {
        log: book.log_len(),
        rows: rows_of_tables(alloc, book, tables)?,
        subscribers: seen_of_all(alloc, book, peers, tables)?,
    })
}
