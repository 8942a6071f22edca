//! Calls on the tables of a catalog: their parts, their rows, and the identities of the rows.

use crate::cells::{count, first, row};
use crate::desk::Desk;
use crate::texts::shown_columns;
use anyhow::Result;
use filter_tree::{Row, RowFault, Table, UniqueIndex, valid};
use replica_identity::{covered, identity_columns, tells_rows_apart};
use sql_reader::write_row;
use std::alloc::Global;
use table_changes::key_of;

fn push_index(index: &UniqueIndex, answer: &mut String) -> Result<()> {
    write!(answer, "; {}", index.name.as_str())?;
    for number in index.columns.as_slice() {
        write!(answer, " {number}")?;
    }
    Ok(())
}

/// The table's name, its columns and its key, its replica identity, and its unique indexes with their columns.
fn shown(alloc: Global, table: &Table) -> Result<String> {
    let columns = shown_columns(alloc, table.columns.as_slice(), table.key.as_slice())?;
    let schema = table.schema.as_str();
    let name = table.name.as_str();
    let mut answer = format!(in alloc; "{schema}.{name} {columns} {:?}", table.identity)?;
    for index in table.indexes.as_slice() {
        push_index(index, &mut answer)?;
    }
    Ok(answer)
}

/// Whether the row fits the table.
fn verdict(table: &Table, row: &Row) -> Result<(), RowFault> {
    valid(table, row)
}

/// The verdict on the row.
fn validity(alloc: Global, table: &Table, given: &str) -> Result<String> {
    let verdict = verdict(table, &row(alloc, given)?);
    Ok(format!(in alloc; "{verdict:?}")?)
}

/// Why the row does not fit, in words.
fn message(alloc: Global, table: &Table, given: &str) -> Result<String> {
    match verdict(table, &row(alloc, given)?) {
        Ok(()) => Ok(String::new(alloc)),
        Err(fault) => Ok(format!(in alloc; "{fault}")?),
    }
}

/// The key of the row.
fn key(alloc: Global, table: &Table, given: &str) -> Result<String> {
    let key = key_of(alloc, table, &row(alloc, given)?)?;
    Ok(write_row(alloc, &key)?)
}

/// The columns of the replica identity, whether it distinguishes rows, and which columns it covers, of those of the
/// table and one more.
fn identity(alloc: Global, table: &Table) -> Result<String> {
    let columns = identity_columns(alloc, table)?;
    let is_apart = tells_rows_apart(table);
    let mut answer = format!(in alloc; "{:?} {is_apart}", columns.as_slice())?;
    for column in 0..=table.columns.len() {
        if covered(table, column) {
            write!(answer, " {column}")?;
        }
    }
    Ok(answer)
}

/// The answer to the call.
pub fn answer(desk: &mut Desk, call: &str, rest: &str) -> Result<Option<String>> {
    let alloc = desk.alloc;
    let (number, given) = first(rest);
    let table = desk.table(count(number)?)?;
    Ok(Some(match call {
        "show" => shown(alloc, table)?,
        "valid" => validity(alloc, table, given)?,
        "message" => message(alloc, table, given)?,
        "key" => key(alloc, table, given)?,
        "identity" => identity(alloc, table)?,
        _ => return Ok(None),
    }))
}
