//! Rows, values and numbers that are given to calls.

use crate::escapes::unescaped;
use anyhow::{Result, bail};
use filter_tree::{Literal, Row, Text, Value};
use sql_reader::{read_row, write_row};
use std::alloc::Global;

/// The first word of the argument, and what follows it.
pub fn first(given: &str) -> (&str, &str) {
    given.split_once(" ").unwrap_or((given, ""))
}

/// A number of something, or a count.
pub fn count(word: &str) -> Result<usize> {
    Ok(word.parse::<usize>()?)
}

/// A number of 64 bits.
pub fn number(word: &str) -> Result<u64> {
    Ok(word.parse::<u64>()?)
}

/// A number of 32 bits.
pub fn small(word: &str) -> Result<u32> {
    Ok(word.parse::<u32>()?)
}

/// `true` or `false`.
pub fn truth(word: &str) -> Result<bool> {
    match word {
        "true" => Ok(true),
        "false" => Ok(false),
        _ => bail!("`true` or `false` is expected"),
    }
}

/// A value: `null`, `true`, `false`, a number, or a text after a quote.
pub fn value(alloc: Global, cell: &str) -> Result<Value> {
    if let Some(text) = cell.strip_prefix("'") {
        return Ok(Value::Text(Text::new(unescaped(alloc, text)?)));
    }
    Ok(match cell {
        "null" => Value::Null,
        "true" => Value::Bool(true),
        "false" => Value::Bool(false),
        _ => Value::Int(cell.parse::<i64>()?),
    })
}

/// A constant, written as a value is.
pub fn literal(alloc: Global, cell: &str) -> Result<Literal> {
    match value(alloc, cell)? {
        Value::Null => bail!("a constant is expected"),
        Value::Bool(truth) => Ok(Literal::Bool(truth)),
        Value::Int(number) => Ok(Literal::Int(number)),
        Value::Text(text) => Ok(Literal::Text(text)),
    }
}

/// The row of these values, which are separated by spaces.
fn row_of_values(alloc: Global, cells: &str) -> Result<Row> {
    let mut values = Vec::new(alloc);
    for cell in cells.split(" ") {
        if !cell.is_empty() {
            values.push(value(alloc, cell)?)?;
        }
    }
    Ok(Row::from_values(values))
}

/// The given row: a text that begins with a parenthesis, as in a script, or its values.
pub fn row(alloc: Global, given: &str) -> Result<Row> {
    if given.starts_with("(") {
        return Ok(read_row(alloc, unescaped(alloc, given)?.as_str())?);
    }
    row_of_values(alloc, given)
}

/// Appends the row, as written in a script.
pub fn push_row(alloc: Global, row: &Row, text: &mut String) -> Result<()> {
    text.push_str(write_row(alloc, row)?.as_str())?;
    Ok(())
}

/// The rows, as written in a script, separated by spaces.
pub fn written_rows(alloc: Global, rows: &[Row]) -> Result<String> {
    let mut text = String::new(alloc);
    for row in rows {
        if !text.is_empty() {
            text.push(' ')?;
        }
        push_row(alloc, row, &mut text)?;
    }
    Ok(text)
}
