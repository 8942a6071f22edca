//! The values of rows in the unique keys of their tables.

ghost use Rattle.std.specs.Prelude.{◌≡◌, IfOk, IfSome, map, slice_get, Some};
ghost use Rattle.std.specs.List.{list_any};
ghost use Rattle.std.specs.Option.{option_map};
ghost use Rattle.replica_identity.specs.Setting.{index_key, keys_in};
ghost use Rattle.table_changes.specs.Columns.{is_null, values_at};
ghost use Rattle.table_changes.specs.Keys.{value_in};
ghost use Rattle.tables_log.specs.NumberKeys.{number_key};
ghost use Rattle.tables_log.specs.KeyView.{key_view};

use crate::key::Key;
use filter_tree::{Row, Table, UniqueIndex, Value};
use std::alloc::{AllocError, Global};
use table_changes::values_at;

fn has_null(row: &Row) -> bool
    ensures { result ≡ list_any is_null row.now }
{
    for value in row.values() {
        if matches!(value, Value::Null) {
            return true;
        }
    }
    false
}

/// The row's value in these columns, if there is one column, and the value is a number.
#[tactic(auto, using(crate::proofs::KeyLemmas::only_column))]
fn number_in(columns: &[usize], row: &Row) -> Option<i64>
    ensures { IfSome result (λ number. values_at columns.now row.now ≡ number_key number) }
{
    match columns {
        [column] => match row.get(*column) {
            Some(Value::Int(number)) => Some(*number),
            Some(Value::Null | Value::Bool(_) | Value::Text(_)) | None => None,
        },
        _ => None,
    }
}

/// The row's values in these columns. The only error is out of memory, of which one number needs none.
pub(crate) fn key_in(alloc: Global, columns: &[usize], row: &Row) -> Result<Key, AllocError>
    ensures { IfOk result (λ key. key_view key ≡ values_at columns.now row.now) }
{
    match number_in(columns, row) {
        Some(number) => Ok(Key::Number(number)),
        None => Ok(Key::Values(values_at(alloc, columns, row)?)),
    }
}

/// The row's value in the index; none if one of the index's columns is null.
#[tactic(auto, using(crate::proofs::KeyLemmas::indexed_number))]
fn index_value(alloc: Global, index: &UniqueIndex, row: &Row) -> Result<Option<Key>, AllocError>
    ensures { IfOk result (λ value. option_map key_view value ≡ index_key index.now row.now) }
{
    let columns = index.columns.as_slice();
    match number_in(columns, row) {
        Some(number) => Ok(Some(Key::Number(number))),
        None => {
            let values = values_at(alloc, columns, row)?;
            if has_null(&values) {
                Ok(None)
            } else {
                Ok(Some(Key::Values(values)))
            }
        }
    }
}

/// The row's value in the unique key with this number: 0 is the primary key, and the unique indexes follow in their
/// order. The only error is out of memory.
///
/// PostgreSQL 15, 5.4.4 Primary Keys, 11.6 Unique Indexes.
#[tactic(auto, using(crate::proofs::KeyLemmas::primary_at, crate::proofs::KeyLemmas::index_at))]
pub(crate) fn unique_key(
    alloc: Global,
    table: &Table,
    number: usize,
    row: &Row,
) -> Result<Option<Key>, AllocError>
    ensures { IfOk result (λ value. option_map key_view value
        ≡ value_in (slice_get (keys_in (Some table.now)) number) row.now) }
{
    if number == 0 {
        return Ok(Some(key_in(alloc, table.key.as_slice(), row)?));
    }
    match table.indexes.get(number - 1) {
        None => Ok(None),
        Some(index) => Ok(index_value(alloc, index, row)?),
    }
}
