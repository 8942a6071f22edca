//! What replica identities record, and which columns the subscribed publications name.

ghost use Rattle.std.specs.Prelude.{◌≢◌, IfErr, Some, map};
ghost use Rattle.std.specs.Option.{option_map};
ghost use Rattle.filter_tree.specs.Shape.{expr_view};
ghost use Rattle.pub_catalog.specs.CatalogView.{entry_view, publication_view};
ghost use Rattle.shard_checker.specs.CatalogRefusal as spec;
ghost use Rattle.shard_checker.specs.Checks.{Checks, Finds};

use crate::error::CheckError;
use crate::publishing::is_taken;
use filter_tree::{Filter, Table, TableNumber, columns_of};
use pub_catalog::{Entry, Publication, Subscription};
use replica_identity::{covered, tells_rows_apart};
use std::alloc::Global;

fn check_identity(number: TableNumber, table: &Table) -> Result<(), CheckError>
    ensures exact { Finds (spec.table_refusal number table.now) result }
    ensures needs_no_memory { IfErr result (λ error. error ≢ CheckError.OutOfMemory) }
{
    if tells_rows_apart(table) {
        Ok(())
    } else {
        Err(CheckError::NoIdentity { table: number })
    }
}

/// Checks that each table's replica identity distinguishes its rows.
pub fn check_identities(tables: &[Table]) -> Result<(), CheckError>
    ensures exact { Finds (spec.identity_refusal 0 tables.now) result }
    ensures needs_no_memory { IfErr result (λ error. error ≢ CheckError.OutOfMemory) }
{
    for (number, table) in tables.iter().enumerate() {
        check_identity(number, table)?;
    }
    Ok(())
}

/// Checks that the replica identity of the table, which has this number, has the columns.
fn check_columns(
    publication: usize,
    number: TableNumber,
    table: &Table,
    columns: &[usize],
) -> Result<(), CheckError>
    ensures { Finds (spec.column_refusal publication number table.now columns.now) result }
{
    for column in columns {
        if !covered(table, *column) {
            return Err(CheckError::NotCovered {
                publication,
                table: number,
                column: *column,
            });
        }
    }
    Ok(())
}

fn check_filter(
    alloc: Global,
    publication: usize,
    number: TableNumber,
    table: &Table,
    filter: &Filter,
) -> Result<(), CheckError>
    ensures { Checks (spec.filter_refusal publication number table.now (Some (expr_view filter.now))) result }
{
    let columns = columns_of(alloc, filter)?;
    check_columns(publication, number, table, &columns)
}

/// Checks that the replica identity of an entry's table has the columns that the filter names.
fn check_carried(
    alloc: Global,
    publication: usize,
    number: TableNumber,
    table: Option<&Table>,
    filter: Option<&Filter>,
) -> Result<(), CheckError>
    ensures { Checks
        (spec.carried_refusal publication number (option_map (λ t. t.now) table.entry)
        (option_map (λ f. expr_view f.now) filter.entry)) result }
{
    match (table, filter) {
        (Some(table), Some(filter)) => check_filter(alloc, publication, number, table, filter),
        (None, _) | (_, None) => Ok(()),
    }
}

fn check_entry(
    alloc: Global,
    tables: &[Table],
    publication: usize,
    entry: &Entry,
) -> Result<(), CheckError>
    ensures { Checks (spec.entry_refusal tables.now publication (entry_view entry.now)) result }
{
    check_carried(
        alloc,
        publication,
        entry.table,
        tables.get(entry.table),
        entry.filter.as_ref(),
    )
}

fn check_entries(
    alloc: Global,
    tables: &[Table],
    publication: usize,
    entries: &[Entry],
) -> Result<(), CheckError>
    ensures { Checks (spec.entries_refusal tables.now publication (map entry_view entries.now)) result }
{
    for entry in entries {
        check_entry(alloc, tables, publication, entry)?;
    }
    Ok(())
}

fn check_taken(
    alloc: Global,
    tables: &[Table],
    subscriptions: &[Subscription],
    number: usize,
    entries: &[Entry],
) -> Result<(), CheckError>
    ensures { Checks
        (spec.taken_refusal tables.now subscriptions.now number (map entry_view entries.now)) result }
{
    if is_taken(subscriptions, number) {
        check_entries(alloc, tables, number, entries)
    } else {
        Ok(())
    }
}

/// Checks that each subscribed publication carries only tables that exist, and that its filters name only columns of
/// their replica identities.
pub fn check_covering(
    alloc: Global,
    tables: &[Table],
    subscriptions: &[Subscription],
    publications: &[Publication],
) -> Result<(), CheckError>
    ensures { Checks
        (spec.covering_refusal tables.now subscriptions.now 0 (map publication_view publications.now)) result }
{
    for (number, publication) in publications.iter().enumerate() {
        check_taken(
            alloc,
            tables,
            subscriptions,
            number,
            publication.entries.as_slice(),
        )?;
    }
    Ok(())
}
