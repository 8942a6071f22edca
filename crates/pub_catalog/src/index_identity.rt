//! Which unique indexes may be a replica identity.

ghost use Rattle.std.specs.Prelude.{◌≡◌, slice_get};
ghost use Rattle.pub_catalog.specs.IndexIdentities as spec;

use filter_tree::{Column, UniqueIndex};

/// Whether the column with this number exists and is NOT NULL.
fn takes_no_null(columns: &[Column], number: usize) -> bool
    ensures { result ≡ spec.takes_no_null (slice_get columns.now number) }
{
    match columns.get(number) {
        Some(column) => column.not_null,
        None => false,
    }
}

/// Whether the columns with these numbers exist and are NOT NULL.
fn take_no_null(columns: &[Column], numbers: &[usize]) -> bool
    ensures { result ≡ spec.take_no_null columns.now numbers.now }
{
    numbers.iter().all(|number| takes_no_null(columns, *number))
}

/// Whether the unique index with this number exists, and all of its columns are NOT NULL.
///
/// PostgreSQL 15, SQL Commands, ALTER TABLE (REPLICA IDENTITY USING INDEX).
pub fn identifies(columns: &[Column], indexes: &[UniqueIndex], number: usize) -> bool
    ensures { result ≡ spec.identifies columns.now (slice_get indexes.now number) }
{
    match indexes.get(number) {
        Some(index) => take_no_null(columns, index.columns.as_slice()),
        None => false,
    }
}
