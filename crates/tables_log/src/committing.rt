//! Transactions on the rows of tables.

ghost use Rattle.std.specs.Prelude.{◌≡◌, ◌<◌, ◌≤◌, length, map, IfOk, IfErr, OnOk, OnErr};
ghost use Rattle.std.specs.Arc.{arc_value};
ghost use Rattle.replica_identity.specs.ChangeView.{change_view};
ghost use Rattle.shard_checker.specs.CheckedView.{checked_view, setting_in};
ghost use Rattle.table_changes.specs.Commands.{command_view};
ghost use Rattle.table_changes.specs.Tables.{SameTables, no_rows};
ghost use Rattle.tables_log.specs.Applying.{HasMaps, widths_of};
ghost use Rattle.tables_log.specs.ApplyingAll.{RefusesCount, StopsAt, StagesCommit, CommitsTables, TriesAll};
ghost use Rattle.tables_log.specs.Places.{kept_in, widths, KeepsTables};
ghost use Rattle.tables_log.specs.Settling.{IsSettled};

use crate::commit::Commit;
use crate::error::CommitError;
use crate::lsn::CommitNumber;
use crate::settling::settle;
use crate::staging::{apply_all, discard};
use crate::table_rows::TableRows;
use filter_tree::Table;
use shard_checker::Checked;
use std::alloc::{AllocError, Global};
use std::sync::Arc;
use table_changes::Command;

/// The most commands that a transaction has.
const MAX_COMMANDS: usize = 1_000;

/// Refuses a list of no command, or of too many.
pub(crate) fn check_count(commands: usize) -> Result<(), CommitError>
    ensures ok { OnOk result ((1 ≤ commands) × (commands ≤ 1000)) }
    ensures err { IfErr result (RefusesCount commands) }
{
    if commands == 0 {
        return Err(CommitError::EmptyTransaction);
    }
    if commands > MAX_COMMANDS {
        return Err(CommitError::TooManyCommands);
    }
    Ok(())
}

/// A map for each unique key of each table, without rows. The only error is out of memory.
pub(crate) fn empty_tables(alloc: Global, tables: &[Table]) -> Result<Vec<TableRows>, AllocError>
    ensures widths { IfOk result (λ rows. widths rows.items ≡ widths_of tables.now) }
    ensures kept { IfOk result (λ rows. SameTables (kept_in rows.items) no_rows) }
    ensures settled { IfOk result (λ rows. IsSettled rows.items) }
{
    let mut rows = Vec::with_capacity(alloc, tables.len())?;
    for table in tables {
        let made = TableRows::new(alloc, table.indexes.len())?;
        rows.push(made)?;
    }
    Ok(rows)
}

/// Stages what the commands do, and returns their entry of the log.
fn stage(
    alloc: Global,
    checked: &Checked,
    tables: &mut [TableRows],
    commands: &[Command],
    number: CommitNumber,
    time: u64,
) -> Result<Arc<Commit, Global>, CommitError>
    requires maps { HasMaps (checked_view checked.now).catalog.tables tables.old }
    requires few { length commands.now ≤ 1000 }
    requires first { 1 ≤ number }
    requires last { number ≤ 1000000000 }
    ensures { TriesAll (setting_in (checked_view checked.now)) (map command_view commands.now)
        (λ commit. StagesCommit (setting_in (checked_view checked.now)) tables.old tables.new
        (map command_view commands.now) time number (arc_value commit)) tables.old result tables.new }
{
    let changes = apply_all(alloc, checked, tables, commands)?;
    let commit = Commit::new(number, time, changes);
    Ok(Arc::new(alloc, commit)?)
}

/// Applies the commands as one transaction, and returns its entry of the log; or leaves what was kept. Only the tables
/// that they name have to settle, since all that was seen of each was kept.
#[tactic(auto, using(crate::proofs::Rules::committing_tables))]
pub(crate) fn commit_tables(
    alloc: Global,
    checked: &Checked,
    tables: &mut [TableRows],
    commands: &[Command],
    number: CommitNumber,
    time: u64,
) -> Result<Arc<Commit, Global>, CommitError>
    requires maps { HasMaps (checked_view checked.now).catalog.tables tables.old }
    requires settled { IsSettled tables.old }
    requires few { length commands.now ≤ 1000 }
    requires first { 1 ≤ number }
    requires last { number ≤ 1000000000 }
    ensures ok { IfOk result (λ commit. CommitsTables (setting_in (checked_view checked.now)) tables.old tables.new
        (map command_view commands.now) time number (arc_value commit)) }
    ensures err { IfErr result (StopsAt (setting_in (checked_view checked.now)) (kept_in tables.old)
        (map command_view commands.now)) }
    ensures kept { OnErr result (KeepsTables tables.old tables.new) }
    ensures settled { IsSettled tables.new }
{
    match stage(alloc, checked, tables, commands, number, time) {
        Ok(commit) => {
            settle(tables, commands);
            Ok(commit)
        }
        Err(error) => {
            discard(tables);
            Err(error)
        }
    }
}
