//! Calls of `old_part` and `transform`: what is recorded of an old row, and what subscribers get of a change.

use crate::cells::{count, first, push_row, row};
use crate::desk::Desk;
use anyhow::{Context, Result};
use filter_tree::{Row, copy_row};
use replica_identity::{Change, OldPart, Out, SharedRow, old_part, transform};
use std::alloc::Global;

/// The row with which the next changes begin.
fn begin(desk: &mut Desk, given: &str) -> Result<String> {
    let row = row(desk.alloc, given)?;
    desk.old = Some(row);
    Ok(String::from_str(desk.alloc, "ok")?)
}

/// Appends what is recorded of an old row.
fn push_part(alloc: Global, part: &OldPart, answer: &mut String) -> Result<()> {
    match part {
        OldPart::None => {
            answer.push_str("nothing")?;
            Ok(())
        }
        OldPart::Key(row) => {
            answer.push_str("key ")?;
            push_row(alloc, row.row(), answer)
        }
        OldPart::Full(row) => {
            answer.push_str("row ")?;
            push_row(alloc, row.row(), answer)
        }
    }
}

/// Appends a change: its kind, its table, what is recorded of the old row, and the new one.
pub fn push_change(alloc: Global, change: &Change, answer: &mut String) -> Result<()> {
    match change {
        Change::Insert { table, new } => {
            write!(answer, "INSERT {table} ")?;
            push_row(alloc, new.row(), answer)
        }
        Change::Update { table, old, new } => {
            write!(answer, "UPDATE {table} ")?;
            push_part(alloc, old, answer)?;
            answer.push_str(" to ")?;
            push_row(alloc, new.row(), answer)
        }
        Change::Delete { table, old } => {
            write!(answer, "DELETE {table} ")?;
            push_part(alloc, old, answer)
        }
        Change::Truncate { tables } => {
            write!(answer, "TRUNCATE {:?}", tables.as_slice())?;
            Ok(())
        }
    }
}

/// What is recorded of the row on the desk, which is deleted, or becomes the new one.
fn recorded(desk: &Desk, table: usize, new: Option<&Row>) -> Result<OldPart> {
    let old = desk.old.as_ref().context("there is no old row")?;
    let old = SharedRow::new(desk.alloc, copy_row(desk.alloc, old)?)?;
    Ok(old_part(desk.alloc, desk.table(table)?, &old, new)?)
}

/// The change of the row on the desk into the new one.
fn update(desk: &Desk, given: &str) -> Result<Change> {
    let (table, given) = first(given);
    let table = count(table)?;
    let new = row(desk.alloc, given)?;
    let old = recorded(desk, table, Some(&new))?;
    let new = SharedRow::new(desk.alloc, new)?;
    Ok(Change::Update { table, old, new })
}

/// The deletion of the row on the desk.
fn delete(desk: &Desk, given: &str) -> Result<Change> {
    let table = count(given)?;
    let old = recorded(desk, table, None)?;
    Ok(Change::Delete { table, old })
}

/// The command that empties these tables.
fn truncate(alloc: Global, given: &str) -> Result<Change> {
    let mut tables = Vec::new(alloc);
    for word in given.split(" ") {
        if !word.is_empty() {
            tables.push(count(word)?)?;
        }
    }
    Ok(Change::Truncate { tables })
}

/// A copy of the change.
fn copy(desk: &Desk) -> Result<Change> {
    let change = desk.change.as_ref().context("there is no change")?;
    Ok(change.copy(desk.alloc)?)
}

/// Puts the change on the desk, and shows it.
fn put(desk: &mut Desk, change: Change) -> Result<String> {
    let mut answer = String::new(desk.alloc);
    push_change(desk.alloc, &change, &mut answer)?;
    desk.change = Some(change);
    Ok(answer)
}

/// The outcome of a change for a subscriber.
fn shown(alloc: Global, out: Option<Out<'_>>) -> Result<String> {
    let mut answer = String::new(alloc);
    match out {
        None => answer.push_str("nothing")?,
        Some(Out::Insert(row)) => {
            answer.push_str("INSERT ")?;
            push_row(alloc, row, &mut answer)?;
        }
        Some(Out::Update(old, row)) => {
            answer.push_str("UPDATE ")?;
            push_part(alloc, old, &mut answer)?;
            answer.push_str(" to ")?;
            push_row(alloc, row, &mut answer)?;
        }
        Some(Out::Delete(old)) => {
            answer.push_str("DELETE ")?;
            push_part(alloc, old, &mut answer)?;
        }
        Some(Out::Truncate(tables)) => write!(answer, "TRUNCATE {tables:?}")?,
    }
    Ok(answer)
}

/// What the subscriber gets of the change.
fn transformed(desk: &Desk, given: &str) -> Result<String> {
    let change = desk.change.as_ref().context("there is no change")?;
    shown(desk.alloc, transform(desk.plan()?, count(given)?, change))
}

/// The answer to the call.
pub fn answer(desk: &mut Desk, call: &str, rest: &str) -> Result<Option<String>> {
    let change = match call {
        "old" => return Ok(Some(begin(desk, rest)?)),
        "transform" => return Ok(Some(transformed(desk, rest)?)),
        "update" => update(desk, rest)?,
        "delete" => delete(desk, rest)?,
        "truncate" => truncate(desk.alloc, rest)?,
        "copy" => copy(desk)?,
        _ => return Ok(None),
    };
    Ok(Some(put(desk, change)?))
}
