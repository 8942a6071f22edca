//! `Book::commit`.

use crate::calls::commit;
use crate::commands::commands;
use crate::publishers::{COMMITS, Published, begun};
use crate::refusals::{end_refusals, refuse};
use crate::tables::check_book;
use anyhow::{Context, Result, ensure};
use std::alloc::Global;
use std::sync::Arc;
use table_changes::Command;
use tables_log::{Book, Commit, CommitError};

/// The entries of the log.
fn entries(alloc: Global, book: &Book) -> Result<Vec<Arc<Commit, Global>>> {
    let mut entries = Vec::new(alloc);
    for number in 1..COMMITS as u32 {
        entries.push(book.shared(number)?.context("an entry is not there")?)?;
    }
    Ok(entries)
}

/// Checks that the log has these entries.
fn check_entries(book: &Book, entries: &[Arc<Commit, Global>]) -> Result<()> {
    for entry in entries {
        let found = book.entry(entry.number()).context("an entry is gone")?;
        ensure!(entry.same(found), "entry {} differs", entry.number());
    }
    Ok(())
}

/// Checks that the commit was accepted.
fn check_accepted(
    alloc: Global,
    book: &Book,
    answer: Result<u32, CommitError>,
    entries: &[Arc<Commit, Global>],
) -> Result<()> {
    ensure!(
        answer == Ok(COMMITS as u32),
        "the commit is answered {answer:?}"
    );
    check_entries(book, entries)?;
    check_book(alloc, book, COMMITS)
}

/// Checks that a refused commit left the book as it was, and that the book accepts the same commit next.
fn check_refused(
    alloc: Global,
    book: &mut Book,
    commands: &[Command],
    entries: &[Arc<Commit, Global>],
) -> Result<()> {
    check_book(alloc, book, COMMITS - 1).context("after the refused commit")?;
    check_entries(book, entries).context("after the refused commit")?;
    let answer = commit(book, commands);
    check_accepted(alloc, book, answer, entries).context("the same commit next")
}

/// Makes the last commit with request `number` refused, and tests what follows. Returns whether it was
/// refused.
pub fn is_refused(alloc: Global, number: u16) -> Result<bool> {
    let Published { mut book, .. } = begun(alloc)?;
    let commands = commands(alloc)?;
    let entries = entries(alloc, &book)?;
    refuse(alloc, number)?;
    let answer = commit(&mut book, &commands);
    let was_refused = end_refusals(alloc)?;
    if was_refused && answer == Err(CommitError::OutOfMemory) {
        check_refused(alloc, &mut book, &commands, &entries)?;
    } else {
        check_accepted(alloc, &book, answer, &entries)?;
    }
    Ok(was_refused)
}
