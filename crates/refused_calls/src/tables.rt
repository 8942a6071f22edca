//! The contents of the tables after each commit, written out.

use crate::commands::{FIRST, LAST, numbered_code, numbered_order, numbered_place, row};
use anyhow::{Result, ensure};
use filter_tree::Row;
use std::alloc::Global;
use tables_log::{Book, Lsn};
use test_subscriber::Subscriber;

/// The rows of the three tables, in their order.
#[derive(Debug, Drop, PartialEq, Eq)]
pub struct Tables {
    codes: Vec<Row>,
    orders: Vec<Row>,
    places: Vec<Row>,
}

/// The texts of the rows that the tables of the first subscriber have after each of the first commits.
const FIRST_TABLES: [[&[&str]; 3]; 5] = [
    [&[], &[], &[]],
    [&["(1, 'one', NULL)"], &[], &["('a', 1, NULL)"]],
    [
        &["(1, 'one', NULL)", "(2, 'two', 'second')"],
        &[],
        &["('a', 1, NULL)", "('a', 2, 'other')"],
    ],
    [
        &["(1, 'one', NULL)", "(2, 'two', 'second')"],
        &["(7, 'eu')"],
        &["('a', 1, NULL)", "('a', 2, 'other')"],
    ],
    [
        &["(1, 'one', NULL)", "(2, 'two', 'second')"],
        &["(7, 'eu')"],
        &["('', 1, NULL)", "('a', 1, NULL)", "('a', 2, 'other')"],
    ],
];

/// Those after the last commit, without the numbered rows.
const LAST_TABLES: [&[&str]; 3] = [
    &[
        "(3, 'three', 'third')",
        "(4, 'four', 'was one')",
        "(5, 'two', NULL)",
    ],
    &["(8, 'as')"],
    &["('a', 2, 'other')"],
];

/// The row that the first four commits leave at the second subscriber, and that the last one deletes.
const FAR: &str = "(200, NULL)";

fn rows(alloc: Global, texts: &[&str]) -> Result<Vec<Row>> {
    let mut rows = Vec::new(alloc);
    for text in texts {
        rows.push(row(alloc, text)?)?;
    }
    Ok(rows)
}

fn tables_of(alloc: Global, texts: &[&[&str]; 3]) -> Result<Tables> {
    let [codes, orders, places] = texts;
    Ok(Tables {
        codes: rows(alloc, codes)?,
        orders: rows(alloc, orders)?,
        places: rows(alloc, places)?,
    })
}

/// What the last commit must leave.
fn last_tables(alloc: Global) -> Result<Tables> {
    let mut tables = tables_of(alloc, &LAST_TABLES)?;
    for number in FIRST..=LAST {
        tables.codes.push(numbered_code(alloc, number)?)?;
        tables.orders.push(numbered_order(alloc, number)?)?;
        tables.places.push(numbered_place(alloc, number)?)?;
    }
    Ok(tables)
}

/// What the first subscriber must have after this number of commits.
pub fn shard_after(alloc: Global, commits: u64) -> Result<Tables> {
    for (number, texts) in FIRST_TABLES.iter().enumerate() {
        if number as u64 == commits {
            return tables_of(alloc, texts);
        }
    }
    last_tables(alloc)
}

/// What the publisher must have after this number of commits.
pub fn tables_after(alloc: Global, commits: u64) -> Result<Tables> {
    let mut tables = shard_after(alloc, commits)?;
    if commits == 4 {
        tables.orders.push(row(alloc, FAR)?)?;
    }
    Ok(tables)
}

impl Tables {
    /// Whether these are the rows of the tables.
    pub fn are(&self, rows: &[Vec<Row>]) -> bool {
        match rows {
            [codes, orders, places] => {
                self.codes == *codes && self.orders == *orders && self.places == *places
            }
            _ => false,
        }
    }
}

/// Checks that the book has this number of commits, and what they leave.
pub fn check_book(alloc: Global, book: &Book, commits: u64) -> Result<()> {
    let found = Tables {
        codes: book.rows(0)?,
        orders: book.rows(1)?,
        places: book.rows(2)?,
    };
    ensure!(
        u64::from(book.log_len()) == commits,
        "the log has {} commits",
        book.log_len()
    );
    ensure!(
        found == tables_after(alloc, commits)?,
        "after {commits} commits the publisher's rows differ"
    );
    Ok(())
}

/// Where the commit with this number ends in the log, in bytes; 0 for none.
pub fn end_of(number: u64) -> u64 {
    match number {
        0 => 0,
        _ => {
            let number = u32::try_from(number).unwrap_or(u32::MAX);
            Lsn::end_of_commit(number).to_u64()
        }
    }
}

/// Checks that the subscriber has what this number of commits leave, and is where they end.
pub fn check_shard(alloc: Global, subscriber: &Subscriber, commits: u64) -> Result<()> {
    let found = Tables {
        codes: subscriber.rows(16_384)?,
        orders: subscriber.rows(16_385)?,
        places: subscriber.rows(16_386)?,
    };
    let position = subscriber.position();
    ensure!(
        position == end_of(commits),
        "the subscriber is at {position} after {commits} commits"
    );
    ensure!(
        found == shard_after(alloc, commits)?,
        "after {commits} commits the subscriber's rows differ"
    );
    Ok(())
}
