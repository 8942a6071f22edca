//! Calls that read names and the elements of CREATE TABLE.

use crate::escapes::unescaped;
use crate::rows::refusal;
use anyhow::Result;
use filter_tree::Column;
use sql_reader::{Reader, TableParts, read_elements, read_name};
use std::alloc::Global;

fn push_column(column: &Column, answer: &mut String) -> Result<()> {
    let mark = if column.not_null { "!" } else { "" };
    let name = column.name.as_str();
    write!(answer, "{name} {:?}{mark} ", column.kind)?;
    Ok(())
}

/// The columns with their types, with a `!` after those that are NOT NULL, and the numbers of the key's columns.
pub fn shown_columns(alloc: Global, columns: &[Column], key: &[usize]) -> Result<String> {
    let mut answer = String::new(alloc);
    for column in columns {
        push_column(column, &mut answer)?;
    }
    answer.push_str("key")?;
    for number in key {
        write!(answer, " {number}")?;
    }
    Ok(answer)
}

fn shown(alloc: Global, parts: &TableParts) -> Result<String> {
    shown_columns(alloc, parts.columns.as_slice(), parts.key.as_slice())
}

/// The elements that follow `CREATE TABLE t (`.
fn elements(alloc: Global, text: &str) -> Result<String> {
    match read_elements(&mut Reader::new(text), alloc) {
        Ok(parts) => shown(alloc, &parts),
        Err(error) => refusal(alloc, &error),
    }
}

/// The name at the start of the text, after its place.
fn name(alloc: Global, text: &str) -> Result<String> {
    match read_name(&mut Reader::new(text), alloc, "a name") {
        Ok(name) => Ok(format!(in alloc; "{} {}", name.place, name.text.as_str())?),
        Err(error) => refusal(alloc, &error),
    }
}

/// The answer to the call.
pub fn answer(alloc: Global, call: &str, rest: &str) -> Result<Option<String>> {
    let text = unescaped(alloc, rest)?;
    match call {
        "name" => Ok(Some(name(alloc, text.as_str())?)),
        "elements" => Ok(Some(elements(alloc, text.as_str())?)),
        _ => Ok(None),
    }
}
