//! Commands on tables.

use filter_tree::{Row, TableNumber};

/// A command on tables, which are identified by their numbers from 0. A row that is replaced or deleted is named by its
/// key: the values of the primary key's columns, in the key's order. TRUNCATE names the tables that it empties.
///
/// PostgreSQL 15, Chapter 6 Data Manipulation, and SQL Commands, TRUNCATE.
#[derive(Debug, Drop, PartialEq, Eq)]
pub enum Command {
    Insert {
        table: TableNumber,
        row: Row,
    },
    Update {
        table: TableNumber,
        key: Row,
        row: Row,
    },
    Delete {
        table: TableNumber,
        key: Row,
    },
    Truncate {
        tables: Vec<TableNumber>,
    },
}
