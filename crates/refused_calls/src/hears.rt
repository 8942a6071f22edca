//! `Link::hear`.

use crate::calls::{asked, hear, lose, open, said};
use crate::publishers::{check_catches_up, check_closed, subscriber, whole};
use crate::refusals::{end_refusals, refuse};
use anyhow::{Result, ensure};
use copy_both::{Link, LinkFault};
use std::alloc::Global;
use std::sync::Arc;
use tables_log::Book;

/// Two statuses that report everything up to 64 as flushed and that want a reply, and the first bytes of a third.
const STATUSES: &[u8] =
    b"d\0\0\0\x26r\0\0\0\0\0\0\0\x40\0\0\0\0\0\0\0\x40\0\0\0\0\0\0\0\x40\0\0\0\0\0\0\0\x05\x01\
    d\0\0\0\x26r\0\0\0\0\0\0\0\x40\0\0\0\0\0\0\0\x40\0\0\0\0\0\0\0\x40\0\0\0\0\0\0\0\x05\x01d\0\0\0";

/// The other bytes of the third. It wants no reply.
const LAST_STATUS: &[u8] =
    b"\x26r\0\0\0\0\0\0\0\x40\0\0\0\0\0\0\0\x40\0\0\0\0\0\0\0\x40\0\0\0\0\0\0\0\x05\0";

/// The answer to these: CopyBothResponse, and two keepalives at 64 with the clock 3.
const SAID: &[u8] = b"W\0\0\0\x07\0\0\0\
    d\0\0\0\x16k\0\0\0\0\0\0\0\x40\0\0\0\0\0\0\0\x03\0\
    d\0\0\0\x16k\0\0\0\0\0\0\0\x40\0\0\0\0\0\0\0\x03\0";

/// Hears a Query in two pieces, and then the statuses.
fn hear_all(link: &mut Link, book: &mut Book, query: &[u8]) -> Result<(), LinkFault> {
    let (first, last) = query.split_at(query.len() / 2);
    for piece in [first, last, STATUSES, LAST_STATUS] {
        hear(link, piece, book)?;
    }
    Ok(())
}

/// Checks that the first few frames are sent, and all of them if nothing was refused.
fn check_said(output: &[u8], is_all: bool) -> Result<()> {
    ensure!(SAID.starts_with(output), "other bytes are said");
    ensure!(
        matches!(output.len(), 0 | 8 | 31 | 54),
        "half a frame is said"
    );
    ensure!(!is_all || output.len() == SAID.len(), "less is said");
    Ok(())
}

/// Has a link hear a Query and statuses with request `number` refused, and tests what follows: the link is
/// closed, and another can start its slot. Returns whether it was refused.
pub fn is_refused(alloc: Global, number: u16) -> Result<bool> {
    let mut published = whole(alloc)?;
    let mut subscriber = subscriber(alloc)?;
    open(&mut subscriber)?;
    let mut link = Link::new(alloc, Arc::try_clone(&published.checked)?)?;
    refuse(alloc, number)?;
    let answer = hear_all(&mut link, &mut published.book, asked(&subscriber));
    let was_refused = end_refusals(alloc)?;
    if let Err(fault) = answer {
        check_closed(&mut link, &mut published.book, fault, was_refused)?;
    }
    check_said(said(&link), answer.is_ok())?;
    let confirmed = published.book.confirmed(0);
    ensure!(
        confirmed == 64 || answer.is_err() && confirmed == 0,
        "the slot is confirmed up to {confirmed}"
    );
    lose(&mut link, &mut published.book);
    check_catches_up(alloc, &mut published, &mut subscriber)?;
    Ok(was_refused)
}
