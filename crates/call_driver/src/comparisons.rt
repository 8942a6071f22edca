//! Calls that compare values and rows.

use crate::cells::{first, literal, row, value};
use anyhow::{Result, bail};
use filter_tree::{Op, Row, compare, compare_literals, same_row};
use std::alloc::Global;

fn operator(word: &str) -> Result<Op> {
    Ok(match word {
        "=" => Op::Eq,
        "<>" => Op::Ne,
        "<" => Op::Lt,
        "<=" => Op::Le,
        ">" => Op::Gt,
        ">=" => Op::Ge,
        _ => bail!("there is no such operator"),
    })
}

/// The result of the operator for a value and a constant.
fn compared(alloc: Global, given: &str) -> Result<String> {
    let (word, values) = first(given);
    let (left, right) = first(values);
    let left = value(alloc, left)?;
    let right = literal(alloc, right)?;
    let found = compare(operator(word)?, &left, &right);
    Ok(format!(in alloc; "{found:?}")?)
}

/// The result of the operator for two constants.
fn compared_constants(alloc: Global, given: &str) -> Result<String> {
    let (word, values) = first(given);
    let (left, right) = first(values);
    let left = literal(alloc, left)?;
    let right = literal(alloc, right)?;
    let found = compare_literals(operator(word)?, &left, &right);
    Ok(format!(in alloc; "{found}")?)
}

/// The two given rows, separated by a bar.
fn two_rows(alloc: Global, given: &str) -> Result<(Row, Row)> {
    let (one, other) = given.split_once("|").unwrap_or((given, ""));
    Ok((row(alloc, one)?, row(alloc, other)?))
}

/// How one row is ordered relative to the other, and whether they are the same.
fn ordered(alloc: Global, given: &str) -> Result<String> {
    let (one, other) = two_rows(alloc, given)?;
    let order = one.cmp(&other);
    let is_same = same_row(&one, &other);
    Ok(format!(in alloc; "{order:?} {is_same}")?)
}

/// The answer to the call.
pub fn answer(alloc: Global, call: &str, rest: &str) -> Result<Option<String>> {
    Ok(Some(match call {
        "compare" => compared(alloc, rest)?,
        "constants" => compared_constants(alloc, rest)?,
        "order" => ordered(alloc, rest)?,
        _ => return Ok(None),
    }))
}
