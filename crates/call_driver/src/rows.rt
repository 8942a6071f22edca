//! Calls of `read_row` and `write_row`.

use crate::cells;
use crate::escapes::unescaped;
use anyhow::Result;
use filter_tree::{Row, Value, copy_row};
use sql_reader::{ErrorKind, ReadError, read_row, write_row};
use std::alloc::Global;

/// A refusal, by its kind and its place.
pub fn refusal(alloc: Global, error: &ReadError) -> Result<String> {
    let place = error.place;
    match error.kind {
        ErrorKind::Expected(_) => Ok(format!(in alloc; "{} {place}", error.kind.name())?),
        kind => Ok(format!(in alloc; "{kind:?} {place}")?),
    }
}

fn push_value(value: &Value, answer: &mut String) -> Result<()> {
    match value {
        Value::Null => answer.push_str("NULL")?,
        Value::Int(number) => write!(answer, "{number}")?,
        Value::Bool(true) => answer.push_str("TRUE")?,
        Value::Bool(false) => answer.push_str("FALSE")?,
        Value::Text(text) => write!(answer, "'{}'", text.as_str())?,
    }
    Ok(())
}

/// The values of a row, separated by spaces, with texts as they are.
fn shown(alloc: Global, row: &Row) -> Result<String> {
    let mut answer = String::new(alloc);
    for value in row.values() {
        if !answer.is_empty() {
            answer.push(' ')?;
        }
        push_value(value, &mut answer)?;
    }
    Ok(answer)
}

/// The row of the text, or its refusal.
fn read(alloc: Global, text: &str) -> Result<String> {
    match read_row(alloc, text) {
        Ok(row) => shown(alloc, &row),
        Err(error) => refusal(alloc, &error),
    }
}

/// The text of the row that the text is read as.
fn again(alloc: Global, text: &str) -> Result<String> {
    match read_row(alloc, text) {
        Ok(row) => Ok(write_row(alloc, &row)?),
        Err(error) => refusal(alloc, &error),
    }
}

/// Why the text is not a row, in words.
fn message(alloc: Global, text: &str) -> Result<String> {
    match read_row(alloc, text) {
        Ok(_row) => Ok(String::new(alloc)),
        Err(error) => Ok(format!(in alloc; "{error}")?),
    }
}

/// The answer to the call.
pub fn answer(alloc: Global, call: &str, rest: &str) -> Result<Option<String>> {
    Ok(Some(match call {
        "read" => read(alloc, unescaped(alloc, rest)?.as_str())?,
        "again" => again(alloc, unescaped(alloc, rest)?.as_str())?,
        "message" => message(alloc, unescaped(alloc, rest)?.as_str())?,
        "copy" => write_row(alloc, &copy_row(alloc, &cells::row(alloc, rest)?)?)?,
        "write" => write_row(alloc, &cells::row(alloc, rest)?)?,
        _ => return Ok(None),
    }))
}
