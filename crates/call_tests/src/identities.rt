//! Replica identities and keys that no catalog has: of an index or a column that does not exist.

use crate::checks::{holds, same};
use filter_tree::{
    ColType, Column, Identity, Items, Row, Table, Text, UniqueIndex, Value, same_row,
};
use replica_identity::{covered, identity_columns, tells_rows_apart};
use std::alloc::{AllocError, Global};
use std::test::Fail;
use table_changes::key_of;

/// A list of these numbers.
fn numbers(alloc: Global, numbers: &[usize]) -> Result<Items<usize>, AllocError> {
    Ok(Items::from_vec(Vec::from_slice(alloc, numbers)?))
}

/// A unique index of these columns.
fn index(alloc: Global, columns: &[usize]) -> Result<UniqueIndex, AllocError> {
    Ok(UniqueIndex {
        name: Text::from_str(alloc, "i")?,
        columns: numbers(alloc, columns)?,
    })
}

/// The columns `a` and `c`, which are NOT NULL, and `b` between them, which may be null.
fn columns(alloc: Global) -> Result<Items<Column>, AllocError> {
    let mut columns = Vec::new(alloc);
    for (name, not_null) in [("a", true), ("b", false), ("c", true)] {
        columns.push(Column {
            name: Text::from_str(alloc, name)?,
            kind: ColType::Integer,
            not_null,
        })?;
    }
    Ok(Items::from_vec(columns))
}

/// A table of those columns, with this key and this replica identity. The indexes are of `a` and `c`, of `c` and `b`,
/// and of `a` and a column that does not exist.
fn table(alloc: Global, key: &[usize], identity: Identity) -> Result<Table, AllocError> {
    let indexes = vec![in alloc;
        index(alloc, &[0, 2])?,
        index(alloc, &[2, 1])?,
        index(alloc, &[0, 3])?,
    ]?;
    Ok(Table {
        schema: Text::from_str(alloc, "public")?,
        name: Text::from_str(alloc, "t")?,
        columns: columns(alloc)?,
        key: numbers(alloc, key)?,
        indexes: Items::from_vec(indexes),
        identity,
    })
}

/// Whether this replica identity of the table distinguishes its rows.
fn tells(alloc: Global, identity: Identity) -> Result<bool, AllocError> {
    Ok(tells_rows_apart(&table(alloc, &[0], identity)?))
}

/// Identities, and whether they distinguish rows.
const IDENTITIES: &[(Identity, bool)] = &[
    (Identity::Default, true),
    (Identity::Full, true),
    (Identity::Nothing, false),
    (Identity::Index(0), true),
    (Identity::Index(1), false),
    (Identity::Index(2), false),
    (Identity::Index(3), false),
];

#[test]
fn identities_tell_rows_apart(rt: HostRuntime) -> Result<(), Fail> {
    for (identity, expected) in IDENTITIES {
        same(&rt, tells(rt.alloc(), *identity)?, *expected);
    }
    Ok(())
}

#[test]
fn an_index_that_is_not_there_has_no_columns(rt: HostRuntime) -> Result<(), Fail> {
    let table = table(rt.alloc(), &[0], Identity::Index(3))?;
    same(&rt, identity_columns(rt.alloc(), &table)?.len(), 0);
    holds(&rt, !covered(&table, 0) && !covered(&table, 3));
    Ok(())
}

/// A number, or null if there is none.
fn value(number: Option<i64>) -> Value {
    match number {
        None => Value::Null,
        Some(number) => Value::Int(number),
    }
}

/// A row of these numbers.
fn row(alloc: Global, numbers: &[Option<i64>]) -> Result<Row, AllocError> {
    let mut values = Vec::new(alloc);
    for number in numbers {
        values.push(value(*number))?;
    }
    Ok(Row::from_values(values))
}

/// Whether the key of the row in a table of three columns, which has this key, has these values.
fn has_key(
    alloc: Global,
    found: &Row,
    key: &[usize],
    wanted: &[Option<i64>],
) -> Result<bool, AllocError> {
    let key = key_of(alloc, &table(alloc, key, Identity::Default)?, found)?;
    Ok(same_row(&key, &row(alloc, wanted)?))
}

/// Columns of a key, and its values.
const KEYS: &[(&[usize], &[Option<i64>])] = &[
    (&[0], &[Some(7)]),
    (&[2, 0], &[Some(9), Some(7)]),
    (&[1], &[None]),
    (&[0, 5], &[Some(7), None]),
    (&[], &[]),
];

#[test]
fn keys_have_the_values_of_their_columns(rt: HostRuntime) -> Result<(), Fail> {
    let alloc = rt.alloc();
    let found = row(alloc, &[Some(7), None, Some(9)])?;
    for (key, wanted) in KEYS {
        holds(&rt, has_key(alloc, &found, *key, *wanted)?);
    }
    Ok(())
}
