//! Calls of `Memo`.

use crate::books::shown;
use crate::cells::{count, first, row};
use crate::desk::Desk;
use crate::escapes::unescaped;
use anyhow::{Context, Result};
use filter_memo::{Memo, Said};
use filter_tree::{Filter, Row, Tri};
use pub_catalog::Catalog;
use std::alloc::{AllocError, Global};

/// The filters of all publications.
fn filters(alloc: Global, catalog: &Catalog) -> Result<Vec<Option<&Filter>>> {
    let mut filters = Vec::new(alloc);
    for publication in &catalog.publications {
        for entry in &publication.entries {
            filters.push(entry.filter.as_ref())?;
        }
    }
    Ok(filters)
}

fn memo_of(alloc: Global, catalog: &Catalog) -> Result<Memo> {
    let filters = filters(alloc, catalog)?;
    Ok(Memo::new(alloc, filters.as_slice())?)
}

/// Creates a memo of the values of the catalog's filters.
fn begin(desk: &mut Desk) -> Result<String> {
    let memo = memo_of(desk.alloc, desk.catalog()?)?;
    desk.memo = Some(memo);
    Ok(String::from_str(desk.alloc, "ok")?)
}

fn locate(memo: &mut Memo, row: &Row) -> Said {
    memo.locate(row)
}

/// Looks at a row. What the atoms say of it gets the next number, from 0.
fn seen(desk: &mut Desk, given: &str) -> Result<String> {
    let row = row(desk.alloc, given)?;
    let said = locate(desk.memo.as_mut().context("there is no memo")?, &row);
    let number = desk.said.len();
    desk.said.push(said)?;
    Ok(format!(in desk.alloc; "{number}")?)
}

/// What the atoms say of the row with this number.
fn said_of(desk: &Desk, number: &str) -> Result<Said> {
    Ok(
        *desk
            .said
            .get(count(number)?)
            .context("there is no such row")?,
    )
}

/// The text that the memo has of rows of which the atoms say this.
fn found(memo: &Memo, said: Said) -> Option<&str> {
    memo.text(said)
}

/// The text of the row, or `none`.
fn text(desk: &Desk, given: &str) -> Result<String> {
    let memo = desk.memo.as_ref().context("there is no memo")?;
    let text = found(memo, said_of(desk, given)?).unwrap_or("none");
    Ok(String::from_str(desk.alloc, text)?)
}

/// What a filter says of the row, by their numbers: `none` where there is no memo of the filters.
fn filtered(desk: &Desk, given: &str) -> Result<String> {
    let (row, filter) = first(given);
    let memo = desk.memo.as_ref().context("there is no memo")?;
    let said = said_of(desk, row)?;
    let word = match memo.answer(said, count(filter)?) {
        None => "none",
        Some(Tri::True) => "true",
        Some(Tri::False) => "false",
        Some(Tri::Null) => "null",
    };
    Ok(String::from_str(desk.alloc, word)?)
}

/// Whether the memo has this text of the row, and whether it has another one.
fn compared(desk: &Desk, given: &str) -> Result<(bool, bool)> {
    let (number, text) = first(given);
    let text = unescaped(desk.alloc, text)?;
    let memo = desk.memo.as_ref().context("there is no memo")?;
    match found(memo, said_of(desk, number)?) {
        Some(found) => Ok((found == text.as_str(), found != text.as_str())),
        None => Ok((false, false)),
    }
}

fn keep(memo: &mut Memo, said: Said, text: &str) -> Result<(), AllocError> {
    memo.keep(said, text)
}

/// The memo keeps the text of the row.
fn kept(desk: &mut Desk, given: &str) -> Result<String> {
    let (number, text) = first(given);
    let text = unescaped(desk.alloc, text)?;
    let said = said_of(desk, number)?;
    keep(
        desk.memo.as_mut().context("there is no memo")?,
        said,
        text.as_str(),
    )?;
    Ok(String::from_str(desk.alloc, "ok")?)
}

/// The answer to the call.
pub fn answer(desk: &mut Desk, call: &str, rest: &str) -> Result<Option<String>> {
    Ok(Some(match call {
        "new" => begin(desk)?,
        "locate" => seen(desk, rest)?,
        "answer" => filtered(desk, rest)?,
        "text" => text(desk, rest)?,
        "keep" => kept(desk, rest)?,
        "has" => shown(desk.alloc, &compared(desk, rest)?.0)?,
        "differs" => shown(desk.alloc, &compared(desk, rest)?.1)?,
        _ => return Ok(None),
    }))
}
