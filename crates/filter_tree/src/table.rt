ghost use Rattle.std.specs.Prelude.{◌≡◌};

use crate::items::Items;
use crate::text::Text;

/// The number of a table in its catalog, from 0 in the order in which tables are created.
///
/// PostgreSQL 15, SQL Commands, CREATE TABLE.
pub type TableNumber = usize;

/// A column's data type.
///
/// PostgreSQL 15, Chapter 8 Data Types.
#[derive(Clone, Copy, Debug, PartialEq, Eq)]
pub enum ColType {
    SmallInt,
    Integer,
    BigInt,
    Boolean,
    Text,
}

impl ColType {
    ghost use Rattle.filter_tree.specs.Range.{least_of, greatest_of};

    /// The least number of an integer type. The types that are not integers have the range of `BigInt`.
    ///
    /// PostgreSQL 15, 8.1.1 Integer Types.
    pub fn least(self) -> i64
        ensures { result ≡ least_of self }
    {
        match self {
            ColType::SmallInt => -32_768,
            ColType::Integer => -2_147_483_648,
            ColType::BigInt | ColType::Boolean | ColType::Text => i64::MIN,
        }
    }

    /// The greatest number of an integer type. The types that are not integers have the range of `BigInt`.
    ///
    /// PostgreSQL 15, 8.1.1 Integer Types.
    pub fn greatest(self) -> i64
        ensures { result ≡ greatest_of self }
    {
        match self {
            ColType::SmallInt => 32_767,
            ColType::Integer => 2_147_483_647,
            ColType::BigInt | ColType::Boolean | ColType::Text => i64::MAX,
        }
    }
}

/// A column: its name, its data type, and whether it is NOT NULL. The columns of a primary key are.
///
/// PostgreSQL 15, 5.4.2 Not-Null Constraints.
#[derive(Debug, Drop)]
pub struct Column {
    pub name: Text,
    pub kind: ColType,
    pub not_null: bool,
}

/// A unique index of a table: its name, and the numbers of its columns, from 0, in the index's order. No two rows have
/// the same values in these columns, unless one of the values is null.
///
/// PostgreSQL 15, 11.6 Unique Indexes, and SQL Commands, CREATE INDEX.
#[derive(Debug, Drop)]
pub struct UniqueIndex {
    pub name: Text,
    pub columns: Items<usize>,
}

/// A table's replica identity: what is recorded of an old row. `Default` records the primary key's columns, `Index` the
/// columns of the table's unique index with this number, counted from 0, `Full` the whole row, `Nothing` nothing.
///
/// PostgreSQL 15, SQL Commands, ALTER TABLE (REPLICA IDENTITY).
#[derive(Clone, Copy, Debug, PartialEq, Eq)]
pub enum Identity {
    Default,
    Index(usize),
    Full,
    Nothing,
}

/// A table. `key` has the numbers of the primary key's columns, from 0, in the key's order; `indexes` are its unique
/// indexes in the order in which they are created, without the index of the primary key.
///
/// PostgreSQL 15, SQL Commands, CREATE TABLE.
#[derive(Debug, Drop)]
pub struct Table {
    pub schema: Text,
    pub name: Text,
    pub columns: Items<Column>,
    pub key: Items<usize>,
    pub indexes: Items<UniqueIndex>,
    pub identity: Identity,
}
