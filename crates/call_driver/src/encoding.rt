//! Calls that spell messages.

use crate::cells::{count, first, row, small};
use crate::desk::Desk;
use crate::digits::hexadecimal;
use anyhow::{Result, bail};
use filter_tree::{Row, Table};
use pgoutput_msgs::{Msg, encode, encode_insert, fits, relation_of, tuple_of};
use std::alloc::Global;

/// Appends the bytes that spell a message for which the layout has room.
pub fn spell(message: &Msg, out: &mut Vec<u8>) -> Result<()> {
    if !fits(message) {
        bail!("the message does not fit");
    }
    encode(message, out)?;
    Ok(())
}

/// The Insert message of a row.
fn insert(alloc: Global, relation: u32, row: &Row) -> Result<Msg> {
    let new = tuple_of(alloc, row)?;
    Ok(Msg::Insert { relation, new })
}

/// The Insert messages of rows, which are separated by bars, one after another.
fn inserts(alloc: Global, given: &str) -> Result<String> {
    let (relation, rows) = first(given);
    let relation = small(relation)?;
    let mut out = Vec::new(alloc);
    for given in rows.split("|") {
        let message = insert(alloc, relation, &row(alloc, given)?)?;
        spell(&message, &mut out)?;
    }
    hexadecimal(alloc, out.as_slice())
}

/// Appends the Insert message of a row, without a tuple.
fn spell_row(alloc: Global, relation: u32, row: &Row, out: &mut Vec<u8>) -> Result<()> {
    let new = tuple_of(alloc, row)?;
    if !fits(&Msg::Insert { relation, new }) {
        bail!("the message does not fit");
    }
    encode_insert(relation, row, out)?;
    Ok(())
}

/// The same messages as those of `inserts`, without tuples.
fn rows(alloc: Global, given: &str) -> Result<String> {
    let (relation, rows) = first(given);
    let relation = small(relation)?;
    let mut out = Vec::new(alloc);
    for given in rows.split("|") {
        spell_row(alloc, relation, &row(alloc, given)?, &mut out)?;
    }
    hexadecimal(alloc, out.as_slice())
}

/// The Relation message of a table with this number of others before it.
fn relation(alloc: Global, number: usize, table: &Table) -> Result<Msg> {
    if number > 1_000_000 {
        bail!("a table's number is up to 1,000,000");
    }
    Ok(Msg::Relation(relation_of(alloc, number, table)?))
}

/// The Relation message of the catalog's first table, as if it had a number of others before it.
fn relation_bytes(desk: &Desk, given: &str) -> Result<String> {
    let message = relation(desk.alloc, count(given)?, desk.table(0)?)?;
    let mut out = Vec::new(desk.alloc);
    spell(&message, &mut out)?;
    hexadecimal(desk.alloc, out.as_slice())
}

/// The answer to the call.
pub fn answer(desk: &mut Desk, call: &str, rest: &str) -> Result<Option<String>> {
    Ok(Some(match call {
        "inserts" => inserts(desk.alloc, rest)?,
        "rows" => rows(desk.alloc, rest)?,
        "relation" => relation_bytes(desk, rest)?,
        _ => return Ok(None),
    }))
}
