//! Calls that several trials make. The functions here have no contract, so a proof of their caller has less to go
//! through.

use copy_both::{Heard, Link, LinkFault, Taken};
use filter_tree::Row;
use senders::{Publisher, Publishing, Seat};
use shard_world::{Answer, Event, View, World};
use std::alloc::AllocError;
use std::sync::Wait;
use table_changes::Command;
use tables_log::{Book, CommitError};
use test_subscriber::{SubFault, Subscriber};

/// The answer to a commit of the commands.
pub fn commit(book: &mut Book, commands: &[Command]) -> Result<u32, CommitError> {
    book.commit(commands, 2)
}

/// The answer to a session's commit of the commands.
pub fn publish<P: Publishing, R: Wait>(
    rt: &R,
    publisher: &Publisher<P>,
    seat: &mut Seat<P>,
    commands: Vec<Command>,
) -> Result<u32, CommitError> {
    publisher.commit(rt, seat, commands, 2)
}

/// How many notes the seat has.
pub fn count_notes<P: Publishing>(seat: &Seat<P>) -> usize {
    seat.notes().len()
}

/// The result of taking the next commit on a connection.
pub fn take(link: &mut Link, book: &Book) -> Result<Taken, LinkFault> {
    link.take(book, 3)
}

/// What a publisher hears in a piece.
pub fn hear(link: &mut Link, piece: &[u8], book: &mut Book) -> Result<Heard, LinkFault> {
    link.hear(piece, book, 3)
}

/// Whether a keepalive is sent.
pub fn keepalive(link: &mut Link) -> Result<bool, LinkFault> {
    link.keepalive(3, false)
}

/// What waits for the client.
pub fn said(link: &Link) -> &[u8] {
    link.output()
}

/// Drops all that waits.
pub fn pass(link: &mut Link) {
    link.passed(usize::MAX);
}

/// Loses the connection.
pub fn lose(link: &mut Link, book: &mut Book) {
    link.lose(book);
}

/// Begins a connection of the subscriber.
pub fn open(subscriber: &mut Subscriber) -> Result<(), SubFault> {
    subscriber.open()
}

/// Feeds the subscriber.
pub fn feed(subscriber: &mut Subscriber, piece: &[u8]) -> Result<(), SubFault> {
    subscriber.feed(piece)
}

/// The subscriber reports its position.
pub fn report(subscriber: &mut Subscriber) -> Result<(), SubFault> {
    subscriber.status(5, true)
}

/// What waits for the publisher.
pub fn asked(subscriber: &Subscriber) -> &[u8] {
    subscriber.output()
}

/// The position up to which the subscriber has the log.
pub fn position(subscriber: &Subscriber) -> u64 {
    subscriber.position()
}

/// The rows of the table of this OID.
pub fn rows(subscriber: &Subscriber, oid: u32) -> Result<Vec<Row>, AllocError> {
    subscriber.rows(oid)
}

/// Whether the publisher asked for the subscriber's position.
pub fn is_asked(subscriber: &Subscriber) -> bool {
    subscriber.reply_wanted()
}

/// The answer to an event.
pub fn step(world: &mut World, event: &Event) -> Answer {
    world.step(7, event)
}

/// The answer to a pump of the subscriber.
pub fn pump(world: &mut World, subscriber: usize) -> Answer {
    world.pump(8, subscriber)
}

/// What is in the world.
pub fn view(world: &World) -> Result<View, AllocError> {
    world.view()
}
