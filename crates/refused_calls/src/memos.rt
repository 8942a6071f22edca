//! `Memo::new` and `Memo::keep`.

use crate::commands::row;
use crate::refusals::{end_refusals, refuse};
use anyhow::{Result, ensure};
use filter_memo::Memo;
use filter_tree::{Filter, Row};
use pub_catalog::Catalog;
use pub_reader::read_catalog;
use std::alloc::{AllocError, Global};

/// Filters of a number, its remainder, a text and a truth value.
const CATALOG: &str = "CREATE TABLE t (id integer PRIMARY KEY, region text, is_open boolean);
CREATE PUBLICATION near FOR TABLE t WHERE (id < 100 AND region IN ('as', 'eu'));
CREATE PUBLICATION odd FOR TABLE t WHERE (id % 7 = 3 OR is_open IS DISTINCT FROM TRUE);";

/// Rows, each with the publications that carry it. The atoms say the same of the first two.
const ROWS: &[(&str, &str)] = &[
    ("(7, 'eu', TRUE)", "near"),
    ("(8, 'eu', TRUE)", "near"),
    ("(10, 'eu', TRUE)", "near and odd"),
    ("(100, 'eu', TRUE)", ""),
    ("(7, 'us', TRUE)", ""),
    ("(200, NULL, NULL)", "odd"),
];

fn rows(alloc: Global) -> Result<Vec<(Row, &'static str)>> {
    let mut rows = Vec::new(alloc);
    for (spelling, text) in ROWS {
        rows.push((row(alloc, spelling)?, *text))?;
    }
    Ok(rows)
}

fn filters(alloc: Global, catalog: &Catalog) -> Result<Vec<Option<&Filter>>> {
    let mut filters = Vec::new(alloc);
    for publication in &catalog.publications {
        for entry in &publication.entries {
            filters.push(entry.filter.as_ref())?;
        }
    }
    Ok(filters)
}

/// Whether the text that is found is the row's. Where none is found, the row's is kept.
fn has_own_text(memo: &mut Memo, row: &Row, text: &str) -> Result<bool, AllocError> {
    let said = memo.locate(row);
    if let Some(found) = memo.text(said) {
        return Ok(found == text);
    }
    memo.keep(said, text)?;
    Ok(true)
}

/// Whether no row has the text of another one.
fn have_own_texts(memo: &mut Memo, rows: &[(Row, &str)]) -> Result<bool, AllocError> {
    for (row, text) in rows {
        if !has_own_text(memo, row, *text)? {
            return Ok(false);
        }
    }
    Ok(true)
}

/// That the text of each row is found.
fn check_found(memo: &mut Memo, rows: &[(Row, &str)]) -> Result<()> {
    for (row, text) in rows {
        let said = memo.locate(row);
        ensure!(
            memo.text(said) == Some(*text),
            "the text {text:?} is not found"
        );
    }
    Ok(())
}

/// Makes a memo and looks up the rows' texts with request `number` refused, and tests what follows: the memo,
/// or a new one if there is none, has only its own text for a row, and keeps all of them. Returns whether it was
/// refused.
pub fn is_refused(alloc: Global, number: u16) -> Result<bool> {
    let catalog = read_catalog(alloc, CATALOG)?;
    let filters = filters(alloc, &catalog)?;
    let rows = rows(alloc)?;
    refuse(alloc, number)?;
    let mut made = Memo::new(alloc, &filters).ok();
    let own = match &mut made {
        Some(memo) => have_own_texts(memo, &rows),
        None => Err(AllocError),
    };
    let was_refused = end_refusals(alloc)?;
    match own {
        Ok(is_right) => ensure!(is_right, "a row has another one's text"),
        Err(AllocError) => ensure!(was_refused, "memory is refused without a cause"),
    }
    let mut memo = match made {
        Some(memo) => memo,
        None => Memo::new(alloc, &filters)?,
    };
    ensure!(
        have_own_texts(&mut memo, &rows)?,
        "after the refusal a row has another one's text"
    );
    check_found(&mut memo, &rows)?;
    Ok(was_refused)
}
