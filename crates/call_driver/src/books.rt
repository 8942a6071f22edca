//! Calls of `Book`.

use crate::cells::{count, first, number, row, small, written_rows};
use crate::changes::push_change;
use crate::desk::Desk;
use crate::scripts::commands_of;
use anyhow::{Context, Result, bail};
use filter_tree::Row;
use sql_reader::write_row;
use std::alloc::Global;
use std::fmt::Debug;
use table_changes::Command;
use tables_log::{Book, Commit, CommitError, Lsn, StartError, StatusAhead};

/// The answer, as shown for debugging.
pub fn shown<T: Debug>(alloc: Global, value: &T) -> Result<String> {
    Ok(format!(in alloc; "{value:?}")?)
}

/// Creates a book of the sharding.
fn begin(desk: &mut Desk, given: &str) -> Result<String> {
    let limit = small(given)?;
    if limit == 0 || limit > 1_000_000_000 {
        bail!("a limit is from 1 to 1,000,000,000");
    }
    let book = Book::new(desk.alloc, desk.checked()?, limit)?;
    desk.book = Some(book);
    Ok(String::from_str(desk.alloc, "ok")?)
}

fn commit(book: &mut Book, commands: &[Command], time: u64) -> Result<u32, CommitError> {
    book.commit(commands, time)
}

/// Commits the commands at a time.
fn committed(desk: &mut Desk, given: &str) -> Result<String> {
    let (time, script) = first(given);
    let commands = commands_of(desk, script)?;
    let book = desk.book.as_mut().context("there is no book")?;
    let answer = commit(book, commands.as_slice(), number(time)?);
    shown(desk.alloc, &answer)
}

/// Commits the commands at a time, with a TRUNCATE of no table, which no script can contain, before the one at a place.
fn committed_around(desk: &mut Desk, given: &str) -> Result<String> {
    let (time, given) = first(given);
    let (place, script) = first(given);
    let place = count(place)?;
    let mut commands = commands_of(desk, script)?;
    let tables = Vec::new(desk.alloc);
    if commands.len() < place {
        bail!("there are fewer commands");
    }
    commands.insert(place, Command::Truncate { tables })?;
    let book = desk.book.as_mut().context("there is no book")?;
    let answer = commit(book, commands.as_slice(), number(time)?);
    shown(desk.alloc, &answer)
}

/// The rows of a table.
fn rows(desk: &Desk, given: &str) -> Result<String> {
    let rows = desk.book()?.rows(count(given)?)?;
    written_rows(desk.alloc, rows.as_slice())
}

fn found<'a>(book: &'a Book, table: usize, key: &Row) -> Option<&'a Row> {
    book.row(table, key)
}

/// The row of a table with this key, or `none`.
fn row_at(desk: &Desk, given: &str) -> Result<String> {
    let (table, key) = first(given);
    let key = row(desk.alloc, key)?;
    match found(desk.book()?, count(table)?, &key) {
        Some(row) => Ok(write_row(desk.alloc, row)?),
        None => Ok(String::from_str(desk.alloc, "none")?),
    }
}

/// A commit's number, its time, and its changes.
fn shown_commit(alloc: Global, commit: &Commit) -> Result<String> {
    let mut answer = format!(in alloc; "{} {}", commit.number(), commit.time())?;
    for change in commit.changes() {
        answer.push_str("; ")?;
        push_change(alloc, change, &mut answer)?;
    }
    Ok(answer)
}

fn none(alloc: Global) -> Result<String> {
    Ok(String::from_str(alloc, "none")?)
}

/// The log's entry with a number.
fn entry(desk: &Desk, given: &str) -> Result<String> {
    match desk.book()?.entry(small(given)?) {
        Some(commit) => shown_commit(desk.alloc, commit),
        None => none(desk.alloc),
    }
}

/// A copy of the log's entry with a number.
fn copy(desk: &Desk, given: &str) -> Result<String> {
    match desk.book()?.entry(small(given)?) {
        Some(commit) => shown_commit(desk.alloc, &commit.copy(desk.alloc)?),
        None => none(desk.alloc),
    }
}

/// Another reference to the log's entry with a number.
fn shared(desk: &Desk, given: &str) -> Result<String> {
    match desk.book()?.shared(small(given)?)? {
        Some(commit) => shown_commit(desk.alloc, &commit),
        None => none(desk.alloc),
    }
}

/// The answer to a call on rows and entries.
fn answer_of_log(desk: &Desk, call: &str, rest: &str) -> Result<Option<String>> {
    Ok(Some(match call {
        "rows" => rows(desk, rest)?,
        "row" => row_at(desk, rest)?,
        "entry" => entry(desk, rest)?,
        "copy" => copy(desk, rest)?,
        "shared" => shared(desk, rest)?,
        "log" => shown(desk.alloc, &desk.book()?.log_len())?,
        "confirmed" => shown(desk.alloc, &desk.book()?.confirmed(count(rest)?))?,
        _ => return Ok(None),
    }))
}

fn start(book: &mut Book, slot: usize, position: u64) -> Result<u64, StartError> {
    book.start(slot, position)
}

/// Starts the stream of a slot from a position.
fn started(desk: &mut Desk, given: &str) -> Result<String> {
    let (slot, position) = first(given);
    let book = desk.book.as_mut().context("there is no book")?;
    let answer = start(book, count(slot)?, number(position)?);
    shown(desk.alloc, &answer)
}

fn confirm(
    book: &mut Book,
    slot: usize,
    position: u64,
    sent: u64,
) -> Result<Result<(), StatusAhead>> {
    if sent > Lsn::end_of_commit(book.log_len()).to_u64() {
        bail!("no more was sent than the log has");
    }
    Ok(book.confirm(slot, position, sent))
}

/// Confirms a slot up to a position, when the log was sent up to another.
fn confirmed(desk: &mut Desk, given: &str) -> Result<String> {
    let (slot, given) = first(given);
    let (position, sent) = first(given);
    let book = desk.book.as_mut().context("there is no book")?;
    let answer = confirm(book, count(slot)?, number(position)?, number(sent)?)?;
    shown(desk.alloc, &answer)
}

/// Releases a slot.
fn released(desk: &mut Desk, given: &str) -> Result<String> {
    let book = desk.book.as_mut().context("there is no book")?;
    book.release(count(given)?);
    Ok(String::from_str(desk.alloc, "ok")?)
}

/// The answer to the call.
pub fn answer(desk: &mut Desk, call: &str, rest: &str) -> Result<Option<String>> {
    Ok(Some(match call {
        "new" => begin(desk, rest)?,
        "commit" => committed(desk, rest)?,
        "around" => committed_around(desk, rest)?,
        "start" => started(desk, rest)?,
        "confirm" => confirmed(desk, rest)?,
        "release" => released(desk, rest)?,
        _ => return answer_of_log(desk, call, rest),
    }))
}
