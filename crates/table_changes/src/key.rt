//! The values of rows in some of their columns, as in primary keys and unique indexes.

ghost use Rattle.std.specs.Prelude.{◌≡◌, IfOk};
ghost use Rattle.filter_tree.specs.Datum.{value_at};
ghost use Rattle.filter_tree.specs.Values.{datum_view};
ghost use Rattle.table_changes.specs.Columns.{values_at};

use filter_tree::{Row, Table, Value, copy_value};
use std::alloc::{AllocError, Allocator};

/// A copy of the row's value in the column, which is null past the row's end.
fn copy_at<A: Allocator, B: Allocator + Clone>(
    alloc: &B,
    row: &Row<A>,
    column: usize,
) -> Result<Value<B>, AllocError>
    ensures { IfOk result (λ copy. datum_view copy ≡ value_at row.now column) }
{
    match row.get(column) {
        None => Ok(Value::Null),
        Some(value) => Ok(copy_value(alloc, value)?),
    }
}

/// The row's values in the columns with these numbers, from 0, in their order; null for a column past the row's end.
/// The only error is out of memory.
pub fn values_at<A: Allocator, B: Allocator + Clone>(
    alloc: B,
    columns: &[usize],
    row: &Row<A>,
) -> Result<Row<B>, AllocError>
    ensures { IfOk result (λ values. values ≡ values_at columns.now row.now) }
{
    let mut values = Vec::with_capacity(alloc.clone()?, columns.len())?;
    for column in columns {
        values.push(copy_at(&alloc, row, *column)?)?;
    }
    Ok(Row::from_values(values))
}

/// The values of the row in the columns of the table's primary key, in the key's order; null for a column past the
/// row's end. The only error is out of memory.
///
/// PostgreSQL 15, 5.4.4 Primary Keys.
pub fn key_of<A: Allocator, B: Allocator + Clone>(
    alloc: B,
    table: &Table,
    row: &Row<A>,
) -> Result<Row<B>, AllocError>
    ensures { IfOk result (λ key. key ≡ values_at table.now.key row.now) }
{
    values_at(alloc, table.key.as_slice(), row)
}
