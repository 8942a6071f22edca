//! What a connection was sent.

use commands::{push_position, subscriber_name};
use senders::{Publisher, Publishing, Served};
use std::alloc::{AllocError, Global};
use tables_log::Lsn;

/// The subscription whose stream a connection started, and which part of the log it was sent.
#[derive(Debug, Drop)]
pub(crate) struct Sent {
    pub(crate) name: String,
    pub(crate) from: String,
    pub(crate) to: String,
}

/// A position of the log, as text.
fn position_text(alloc: Global, position: Lsn) -> Result<String, AllocError> {
    let mut text = String::new(alloc);
    push_position(&mut text, position)?;
    Ok(text)
}

/// The position after the last commit that was taken for a connection, or that of its start.
fn reached<P: Publishing>(served: &Served<P>, start: Lsn) -> Lsn {
    match served.taken().last() {
        None => start,
        Some(commit) => Lsn::end_of_commit(commit.number()),
    }
}

/// What a connection was sent, if it started a stream.
pub(crate) fn sent_on<P: Publishing>(
    publisher: &Publisher<P>,
    served: &Served<P>,
) -> Result<Option<Sent>, AllocError> {
    let (Some(slot), Some(start)) = (served.slot(), served.start()) else {
        return Ok(None);
    };
    let start = Lsn::new(start);
    let alloc = publisher.allocator();
    let catalog = publisher.checked().catalog();
    let name = subscriber_name(catalog.subscriptions.as_slice(), slot);
    Ok(Some(Sent {
        name: String::from_str(alloc, name)?,
        from: position_text(alloc, start)?,
        to: position_text(alloc, reached(served, start))?,
    }))
}
