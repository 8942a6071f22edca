//! `Link::take`.

use crate::calls::{feed, lose, pass, said, take};
use crate::publishers::{COMMITS, check_catches_up, check_closed, connect, subscriber, whole};
use crate::refusals::{end_refusals, refuse};
use anyhow::{Result, ensure};
use copy_both::{Link, Taken};
use std::alloc::Global;
use tables_log::Book;

/// Takes all commits but the last.
fn take_first(link: &mut Link, book: &Book) -> Result<()> {
    for number in 1..COMMITS as u32 {
        ensure!(
            take(link, book)? == Taken::Sent(number),
            "commit {number} is not sent"
        );
    }
    Ok(())
}

/// Takes the last commit with request `number` refused, and tests what follows: nothing of a refused commit
/// waits, and the link is closed. Returns whether it was refused.
pub fn is_refused(alloc: Global, number: u16) -> Result<bool> {
    let mut published = whole(alloc)?;
    let mut subscriber = subscriber(alloc)?;
    let mut link = connect(alloc, &mut published, &mut subscriber)?;
    take_first(&mut link, &published.book)?;
    feed(&mut subscriber, said(&link))?;
    pass(&mut link);
    refuse(alloc, number)?;
    let answer = take(&mut link, &published.book);
    let was_refused = end_refusals(alloc)?;
    if let Err(fault) = answer {
        check_closed(&mut link, &mut published.book, fault, was_refused)?;
        ensure!(said(&link).is_empty(), "some of a refused commit waits");
    } else {
        ensure!(
            answer == Ok(Taken::Sent(COMMITS as u32)),
            "the take is answered {answer:?}"
        );
    }
    feed(&mut subscriber, said(&link))?;
    lose(&mut link, &mut published.book);
    check_catches_up(alloc, &mut published, &mut subscriber)?;
    Ok(was_refused)
}
