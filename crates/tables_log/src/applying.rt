//! Commands on the rows of tables.

ghost use Rattle.std.specs.Prelude.{◌≡◌, ◌≤◌, length, slice_get, Some, None, IfOk, IfErr, OnOk};
ghost use Rattle.filter_tree.specs.Valid.{row_fault};
ghost use Rattle.replica_identity.specs.ChangeView.{change_view};
ghost use Rattle.replica_identity.specs.Setting.{keys_in};
ghost use Rattle.shard_checker.specs.CheckedView.{checked_view, setting_in};
ghost use Rattle.table_changes.specs.Commands as c;
ghost use Rattle.table_changes.specs.Commands.{unless_unfit};
ghost use Rattle.tables_log.specs.Applying.{unless_taken, delete_fault, replace_fault, ReplacesRow, InsertsRow, UpdatesRow, DeletesRow, TriesRows, TakesRow, HasMaps, Tries};
ghost use Rattle.tables_log.specs.Faults.{Finds};
ghost use Rattle.tables_log.specs.Sendable.{IsSendableRow};
ghost use Rattle.tables_log.specs.Places.{seen_at, values_in, PutsRow};

use crate::error::{CommandFault, Refused};
use crate::table_row::TableRow;
use crate::table_rows::TableRows;
use filter_tree::{Row, Table, TableNumber, copy_row, valid};
use replica_identity::{Change, SharedRow, old_part};
use shard_checker::Checked;
use std::alloc::Global;

/// The row, if it fits the table.
#[tactic(auto, using(crate::proofs::SendableLemmas::valid_sendable, crate::proofs::SendableLemmas::no_fault_of_ok))]
fn fitting(alloc: Global, table: &Table, row: &Row) -> Result<TableRow, Refused>
    requires { length table.now.columns ≤ 100 }
    ensures fault { Finds (unless_unfit (row_fault table.now.columns row.now) None) result }
    ensures ok { IfOk result (λ shared. shared ≡ row.now) }
    ensures sendable { OnOk result (IsSendableRow row.now) }
{
    match valid(table, row) {
        Err(fault) => Err(Refused::Fault(CommandFault::Row(fault))),
        Ok(()) => {
            let copy = copy_row(alloc, row)?;
            let shared = SharedRow::new(alloc, copy)?;
            Ok(TableRow::new(shared))
        }
    }
}

/// Stages the row, unless another row has its value in one of the table's unique keys.
fn place(alloc: Global, table: &Table, rows: &mut TableRows, row: &TableRow) -> Result<(), Refused>
    requires { length rows.old.maps.items ≡ length (keys_in (Some table.now)) }
    ensures { TriesRows (unless_taken (keys_in (Some table.now)) (seen_at rows.old.maps.items) row.now)
        (λ _. PutsRow rows.old rows.new (values_in (keys_in (Some table.now)) row.now) (Some row.now))
        rows.old result rows.new }
{
    let is_free = rows.place(alloc, table, row)?;
    if !is_free {
        return Err(Refused::Fault(CommandFault::DuplicateKey));
    }
    Ok(())
}

/// Stages that the row of this primary key is deleted, and returns that row.
fn take(alloc: Global, table: &Table, rows: &mut TableRows, key: &Row) -> Result<TableRow, Refused>
    requires { length rows.old.maps.items ≡ length (keys_in (Some table.now)) }
    ensures { TakesRow (delete_fault (seen_at rows.old.maps.items) key.now) key.now
        (λ gone. PutsRow rows.old rows.new (values_in (keys_in (Some table.now)) gone) None)
        rows.old result rows.new }
{
    let Some(found) = rows.find(0, key) else {
        return Err(Refused::Fault(CommandFault::NoSuchRow));
    };
    let old = found.share()?;
    rows.remove(alloc, table, &old)?;
    Ok(old)
}

/// Stages the row in place of the one of this primary key, and returns that one.
fn replace(
    alloc: Global,
    table: &Table,
    rows: &mut TableRows,
    key: &Row,
    row: &TableRow,
) -> Result<TableRow, Refused>
    requires { length rows.old.maps.items ≡ length (keys_in (Some table.now)) }
    ensures { TakesRow (replace_fault (keys_in (Some table.now)) (seen_at rows.old.maps.items) key.now row.now) key.now
        (λ gone. ReplacesRow rows.old rows.new (keys_in (Some table.now)) gone row.now) rows.old result rows.new }
{
    let old = take(alloc, table, rows, key)?;
    place(alloc, table, rows, row)?;
    Ok(old)
}

/// The table with this number.
fn known(checked: &Checked, number: TableNumber) -> Result<&Table, CommandFault>
    ensures known { IfOk result (λ table. slice_get (checked_view checked.now).catalog.tables number ≡ Some table.now) }
    ensures unknown { IfErr result (λ fault. fault ≡ CommandFault.NoTable) }
    ensures none { IfErr result (λ _. slice_get (checked_view checked.now).catalog.tables number ≡ None) }
{
    match checked.catalog().tables.get(number) {
        None => Err(CommandFault::NoTable),
        Some(table) => Ok(table),
    }
}

/// Stages a new row of this table, which has this number.
fn insert_in(
    alloc: Global,
    table: &Table,
    number: TableNumber,
    rows: &mut TableRows,
    row: &Row,
) -> Result<Change, Refused>
    requires narrow { length table.now.columns ≤ 100 }
    requires wide { length rows.old.maps.items ≡ length (keys_in (Some table.now)) }
    ensures { TriesRows (unless_unfit (row_fault table.now.columns row.now)
        (unless_taken (keys_in (Some table.now)) (seen_at rows.old.maps.items) row.now))
        (λ change. InsertsRow table.now number rows.old rows.new row.now (change_view change))
        rows.old result rows.new }
{
    let new = fitting(alloc, table, row)?;
    place(alloc, table, rows, &new)?;
    Ok(Change::Insert {
        table: number,
        new: new.into_shared(),
    })
}

/// Stages a row in place of the one of this primary key.
fn update_in(
    alloc: Global,
    table: &Table,
    number: TableNumber,
    rows: &mut TableRows,
    key: &Row,
    row: &Row,
) -> Result<Change, Refused>
    requires narrow { length table.now.columns ≤ 100 }
    requires wide { length rows.old.maps.items ≡ length (keys_in (Some table.now)) }
    ensures { TriesRows (unless_unfit (row_fault table.now.columns row.now)
        (replace_fault (keys_in (Some table.now)) (seen_at rows.old.maps.items) key.now row.now))
        (λ change. UpdatesRow table.now number rows.old rows.new key.now row.now (change_view change))
        rows.old result rows.new }
{
    let new = fitting(alloc, table, row)?;
    let gone = replace(alloc, table, rows, key, &new)?;
    let part = old_part(alloc, table, gone.shared(), Some(row))?;
    Ok(Change::Update {
        table: number,
        old: part,
        new: new.into_shared(),
    })
}

/// Stages that the row of this primary key is deleted.
fn delete_in(
    alloc: Global,
    table: &Table,
    number: TableNumber,
    rows: &mut TableRows,
    key: &Row,
) -> Result<Change, Refused>
    requires { length rows.old.maps.items ≡ length (keys_in (Some table.now)) }
    ensures { TriesRows (delete_fault (seen_at rows.old.maps.items) key.now)
        (λ change. DeletesRow table.now number rows.old rows.new key.now (change_view change))
        rows.old result rows.new }
{
    let gone = take(alloc, table, rows, key)?;
    let part = old_part(alloc, table, gone.shared(), None)?;
    Ok(Change::Delete {
        table: number,
        old: part,
    })
}

/// Stages a new row.
pub(crate) fn insert(
    alloc: Global,
    checked: &Checked,
    tables: &mut [TableRows],
    number: TableNumber,
    row: &Row,
) -> Result<Change, Refused>
    requires { HasMaps (checked_view checked.now).catalog.tables tables.old }
    ensures { Tries (setting_in (checked_view checked.now)) (c.Insert number row.now)
        tables.old result tables.new }
{
    let table = known(checked, number)?;
    insert_in(alloc, table, number, &mut tables[number], row)
}

/// Stages a row in place of the one of this primary key.
pub(crate) fn update(
    alloc: Global,
    checked: &Checked,
    tables: &mut [TableRows],
    number: TableNumber,
    key: &Row,
    row: &Row,
) -> Result<Change, Refused>
    requires { HasMaps (checked_view checked.now).catalog.tables tables.old }
    ensures { Tries (setting_in (checked_view checked.now)) (c.Update number key.now row.now)
        tables.old result tables.new }
{
    let table = known(checked, number)?;
    update_in(alloc, table, number, &mut tables[number], key, row)
}

/// Stages that the row of this primary key is deleted.
pub(crate) fn delete(
    alloc: Global,
    checked: &Checked,
    tables: &mut [TableRows],
    number: TableNumber,
    key: &Row,
) -> Result<Change, Refused>
    requires { HasMaps (checked_view checked.now).catalog.tables tables.old }
    ensures { Tries (setting_in (checked_view checked.now)) (c.Delete number key.now)
        tables.old result tables.new }
{
    let table = known(checked, number)?;
    delete_in(alloc, table, number, &mut tables[number], key)
}
