//! Changes of tables as they are recorded.

ghost use Rattle.std.specs.Prelude.{◌≡◌, ◌≢◌, IfOk, MatchBool};
ghost use Rattle.replica_identity.specs.ChangeView.{part_view, change_view};

use crate::shared_row::SharedRow;
use filter_tree::{TableNumber, same_row};
use std::alloc::{AllocError, Global};

/// What is recorded of an old row: nothing, the row with nulls outside the columns of the replica identity, or the
/// whole row.
///
/// PostgreSQL 15, SQL Commands, ALTER TABLE (REPLICA IDENTITY).
#[derive(Debug, Drop, PartialEq, Eq)]
pub enum OldPart {
    None,
    Key(SharedRow),
    Full(SharedRow),
}

impl OldPart {
    /// An equal part, which shares the row. The only error is that the row is shared too often.
    pub fn share(&self) -> Result<OldPart, AllocError>
        ensures { IfOk result (λ copy. part_view copy ≡ part_view self.now) }
    {
        match self {
            OldPart::None => Ok(OldPart::None),
            OldPart::Key(part) => Ok(OldPart::Key(part.share()?)),
            OldPart::Full(old) => Ok(OldPart::Full(old.share()?)),
        }
    }

    /// Whether the parts are equal: both are nothing, or they are equal rows of one kind.
    pub fn same(&self, other: &OldPart) -> bool
        ensures { MatchBool result
            (part_view self.now ≡ part_view other.now) (part_view self.now ≢ part_view other.now) }
    {
        match (self, other) {
            (OldPart::None, OldPart::None) => true,
            (OldPart::Key(part), OldPart::Key(other_part)) => same_row(
                part.row(),
                other_part.row(),
            ),
            (OldPart::Full(old), OldPart::Full(other_old)) => same_row(old.row(), other_old.row()),
            (OldPart::None | OldPart::Key(_) | OldPart::Full(_), _) => false,
        }
    }
}

/// A change of tables, which are identified by their numbers from 0: a new row, a new row in place of an old one, an
/// old row that is gone, or tables that are emptied.
///
/// PostgreSQL 15, Chapter 6 Data Manipulation, and SQL Commands, TRUNCATE.
#[derive(Debug, Drop, PartialEq, Eq)]
pub enum Change {
    Insert {
        table: TableNumber,
        new: SharedRow,
    },
    Update {
        table: TableNumber,
        old: OldPart,
        new: SharedRow,
    },
    Delete {
        table: TableNumber,
        old: OldPart,
    },
    Truncate {
        tables: Vec<TableNumber>,
    },
}

impl Change {
    /// An equal change, which shares the rows, and whose other memory is taken from `alloc`. The only errors are out of
    /// memory, and that a row is shared too often.
    pub fn copy(&self, alloc: Global) -> Result<Change, AllocError>
        ensures { IfOk result (λ copy. change_view copy ≡ change_view self.now) }
    {
        match self {
            Change::Insert { table, new } => Ok(Change::Insert {
                table: *table,
                new: new.share()?,
            }),
            Change::Update { table, old, new } => Ok(Change::Update {
                table: *table,
                old: old.share()?,
                new: new.share()?,
            }),
            Change::Delete { table, old } => Ok(Change::Delete {
                table: *table,
                old: old.share()?,
            }),
            Change::Truncate { tables } => Ok(Change::Truncate {
                tables: Vec::from_slice(alloc, tables.as_slice())?,
            }),
        }
    }

    /// Whether the changes are equal: of one kind, with equal tables, parts and rows.
    pub fn same(&self, other: &Change) -> bool
        ensures { MatchBool result
            (change_view self.now ≡ change_view other.now) (change_view self.now ≢ change_view other.now) }
    {
        match (self, other) {
            (
                Change::Insert { table, new },
                Change::Insert {
                    table: other_table,
                    new: other_new,
                },
            ) => table == other_table && same_row(new.row(), other_new.row()),
            (
                Change::Update { table, old, new },
                Change::Update {
                    table: other_table,
                    old: other_old,
                    new: other_new,
                },
            ) => table == other_table
                && old.same(other_old)
                && same_row(new.row(), other_new.row()),
            (
                Change::Delete { table, old },
                Change::Delete {
                    table: other_table,
                    old: other_old,
                },
            ) => table == other_table && old.same(other_old),
            (
                Change::Truncate { tables },
                Change::Truncate {
                    tables: other_tables,
                },
            ) => tables.as_slice() == other_tables.as_slice(),
            (
                Change::Insert { .. }
                | Change::Update { .. }
                | Change::Delete { .. }
                | Change::Truncate { .. },
                _,
            ) => false,
        }
    }
}
