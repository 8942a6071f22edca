//! The columns of a table's replica identity.

ghost use Rattle.std.specs.Prelude.{◌≡◌, IfOk, slice_get};
ghost use Rattle.replica_identity.specs.Identities as spec;

use filter_tree::{Identity, Table};
use pub_catalog::identifies;
use std::alloc::{AllocError, Global};

/// The numbers from 0 up to a length.
fn numbers(alloc: Global, length: usize) -> Result<Vec<usize>, AllocError>
    ensures { IfOk result (λ numbers. numbers.items ≡ spec.numbers_to length) }
{
    let mut numbers = Vec::new(alloc);
    for number in 0..length {
        numbers.push(number)?;
    }
    Ok(numbers)
}

/// A copy of these numbers.
fn copied(alloc: Global, numbers: &[usize]) -> Result<Vec<usize>, AllocError>
    ensures { IfOk result (λ copy. copy.items ≡ numbers.now) }
{
    let mut copy = Vec::new(alloc);
    copy.extend_from_slice(numbers)?;
    Ok(copy)
}

/// The columns of a table's unique index with this number; none if there is no such index.
pub(crate) fn index_columns(table: &Table, number: usize) -> &[usize]
    ensures { result.now ≡ spec.index_columns (slice_get table.now.indexes number) }
{
    match table.indexes.get(number) {
        Some(index) => index.columns.as_slice(),
        None => &[],
    }
}

/// The numbers of the columns of a table's replica identity: those of the primary key in its order for `Default`, those
/// of the index in its order for `Index` (none if the table has no such index), all columns for `Full`, none for
/// `Nothing`. The only error is out of memory.
///
/// PostgreSQL 15, "Logical Replication", 31.1 Publication.
pub fn identity_columns(alloc: Global, table: &Table) -> Result<Vec<usize>, AllocError>
    ensures { IfOk result (λ columns. columns.items ≡ spec.identity_columns table.now) }
{
    match table.identity {
        Identity::Default => copied(alloc, table.key.as_slice()),
        Identity::Index(number) => copied(alloc, index_columns(table, number)),
        Identity::Full => numbers(alloc, table.columns.len()),
        Identity::Nothing => Ok(Vec::new(alloc)),
    }
}

/// Whether a table's replica identity has the column with this number, from 0.
///
/// PostgreSQL 15, SQL Commands, ALTER TABLE (REPLICA IDENTITY).
#[tactic(auto, using(crate::proofs::NumberLemmas::has_numbers))]
pub fn covered(table: &Table, column: usize) -> bool
    ensures { result ≡ spec.is_covered table.now column }
{
    match table.identity {
        Identity::Default => table.key.as_slice().contains(&column),
        Identity::Index(number) => index_columns(table, number).contains(&column),
        Identity::Full => column < table.columns.len(),
        Identity::Nothing => false,
    }
}

/// Whether what a table's replica identity records of an old row identifies that row in the table. `Nothing` does not,
/// nor does an `Index` that the table does not have or that has a column which may be null. No `Catalog` has such an
/// identity.
///
/// PostgreSQL 15, SQL Commands, ALTER TABLE (REPLICA IDENTITY).
pub fn tells_rows_apart(table: &Table) -> bool
    ensures { result ≡ spec.tells_rows_apart table.now }
{
    match table.identity {
        Identity::Default | Identity::Full => true,
        Identity::Index(number) => identifies(
            table.columns.as_slice(),
            table.indexes.as_slice(),
            number,
        ),
        Identity::Nothing => false,
    }
}
