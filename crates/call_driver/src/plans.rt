//! Calls of `plan`, and which subscribers take which rows.

use crate::cells::{count, first, row};
use crate::desk::Desk;
use anyhow::Result;
use filter_tree::Row;
use replica_identity::{Plan, Share, carries, plan};
use std::alloc::Global;

/// Makes the plan of the catalog.
fn begin(desk: &mut Desk) -> Result<String> {
    let plan = plan(desk.alloc, desk.catalog()?)?;
    desk.plan = Some(plan);
    Ok(String::from_str(desk.alloc, "ok")?)
}

/// Whether the subscriber takes the row of the table.
fn takes(plan: &Plan, subscriber: usize, table: usize, row: &Row) -> bool {
    plan.share(subscriber, table).takes(row)
}

/// The numbers of those of the first subscribers, up to a given count, that take the row of a table.
fn takers(desk: &Desk, given: &str) -> Result<String> {
    let (number, given) = first(given);
    let (table, given) = first(given);
    let row = row(desk.alloc, given)?;
    let table = count(table)?;
    let plan = desk.plan()?;
    let mut answer = String::from_str(desk.alloc, "taken by")?;
    for subscriber in 0..count(number)? {
        if takes(plan, subscriber, table, &row) {
            write!(answer, " {subscriber}")?;
        }
    }
    Ok(answer)
}

/// The numbers of those of the first tables, up to a given count, that the subscriber takes anything of.
fn carried(desk: &Desk, given: &str) -> Result<String> {
    let (number, subscriber) = first(given);
    let subscriber = count(subscriber)?;
    let plan = desk.plan()?;
    let mut answer = String::from_str(desk.alloc, "carries")?;
    for table in 0..count(number)? {
        if carries(plan, subscriber, table) {
            write!(answer, " {table}")?;
        }
    }
    Ok(answer)
}

/// A share, as shown for debugging.
fn shown(alloc: Global, share: &Share) -> Result<String> {
    Ok(format!(in alloc; "{share:?}")?)
}

/// The share of a subscriber in a table.
fn share(desk: &Desk, given: &str) -> Result<String> {
    let (subscriber, table) = first(given);
    let share = desk.plan()?.share(count(subscriber)?, count(table)?);
    shown(desk.alloc, share)
}

/// The answer to the call.
pub fn answer(desk: &mut Desk, call: &str, rest: &str) -> Result<Option<String>> {
    Ok(Some(match call {
        "new" => begin(desk)?,
        "takers" => takers(desk, rest)?,
        "carries" => carried(desk, rest)?,
        "share" => share(desk, rest)?,
        _ => return Ok(None),
    }))
}
