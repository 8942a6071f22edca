//! Books with commits, and connections to them.

use crate::calls::{asked, commit, feed, hear, keepalive, lose, open, said, take};
use crate::commands::{commands, first_commits};
use crate::sharding::checked;
use crate::tables::{check_book, check_shard};
use anyhow::{Result, bail, ensure};
use copy_both::{Link, LinkFault, Taken};
use shard_checker::Checked;
use std::alloc::Global;
use std::sync::Arc;
use tables_log::Book;
use test_subscriber::Subscriber;

/// The number of commits at the end.
pub const COMMITS: u64 = 5;

/// A checked catalog, and a book of its tables.
#[derive(Drop)]
pub struct Published {
    pub checked: Arc<Checked, Global>,
    pub book: Book,
}

/// A book in which the tables have their first rows.
pub fn begun(alloc: Global) -> Result<Published> {
    let checked = checked(alloc)?;
    let mut book = Book::new(alloc, Arc::try_clone(&checked)?, 1_000)?;
    for commands in first_commits(alloc)?.iter() {
        commit(&mut book, commands)?;
    }
    check_book(alloc, &book, COMMITS - 1)?;
    Ok(Published { checked, book })
}

/// A book with all commits.
pub fn whole(alloc: Global) -> Result<Published> {
    let mut published = begun(alloc)?;
    commit(&mut published.book, &commands(alloc)?)?;
    check_book(alloc, &published.book, COMMITS)?;
    Ok(published)
}

/// A subscriber of the first slot, without a connection.
pub fn subscriber(alloc: Global) -> Result<Subscriber> {
    let mut publications = Vec::new(alloc);
    publications.push(String::from_str(alloc, "low")?)?;
    let slot = String::from_str(alloc, "s0")?;
    Ok(Subscriber::new(alloc, slot, publications))
}

/// The publisher's end of a new connection, which has heard the subscriber's Query.
pub fn connect(
    alloc: Global,
    published: &mut Published,
    subscriber: &mut Subscriber,
) -> Result<Link> {
    open(subscriber)?;
    let mut link = Link::new(alloc, Arc::try_clone(&published.checked)?)?;
    hear(&mut link, asked(subscriber), &mut published.book)?;
    Ok(link)
}

/// Takes all remaining commits.
pub fn take_all(link: &mut Link, book: &Book) -> Result<()> {
    for _ in 0..=COMMITS {
        if take(link, book)? == Taken::Idle {
            return Ok(());
        }
    }
    bail!("a link takes more commits than there are")
}

/// All bytes that the publisher has for the subscriber, on a connection that is then lost.
pub fn stream(
    alloc: Global,
    published: &mut Published,
    subscriber: &mut Subscriber,
) -> Result<Vec<u8>> {
    let mut link = connect(alloc, published, subscriber)?;
    take_all(&mut link, &published.book)?;
    lose(&mut link, &mut published.book);
    Ok(said(&link).to_vec(alloc)?)
}

/// Checks that the subscriber gets what it lacks on a new connection, and then has everything.
pub fn check_catches_up(
    alloc: Global,
    published: &mut Published,
    subscriber: &mut Subscriber,
) -> Result<()> {
    let rest = stream(alloc, published, subscriber)?;
    feed(subscriber, &rest)?;
    check_shard(alloc, subscriber, COMMITS)
}

/// Checks that a link was closed by a refusal: it hears and sends nothing more.
pub fn check_closed(
    link: &mut Link,
    book: &mut Book,
    fault: LinkFault,
    was_refused: bool,
) -> Result<()> {
    ensure!(
        fault == LinkFault::OutOfMemory && was_refused,
        "the link answers {fault:?}"
    );
    let closed = LinkFault::Closed;
    ensure!(
        take(link, book) == Err(closed),
        "a closed link takes a commit"
    );
    ensure!(
        keepalive(link) == Err(closed),
        "a closed link says a keepalive"
    );
    ensure!(
        hear(link, b"X\0\0\0\x04", book) == Err(closed),
        "a closed link hears"
    );
    Ok(())
}
