//! Lists of commands on the rows of tables.

ghost use Rattle.std.specs.Prelude.{◌≡◌, ◌≤◌, length, map};
ghost use Rattle.replica_identity.specs.ChangeView.{change_view};
ghost use Rattle.shard_checker.specs.CheckedView.{checked_view, setting_in};
ghost use Rattle.table_changes.specs.Commands.{command_view};
ghost use Rattle.tables_log.specs.Applying.{HasMaps, Tries};
ghost use Rattle.tables_log.specs.Places.{DiscardsTables};
ghost use Rattle.tables_log.specs.ApplyingAll.{AppliesAll, TriesAll, error_at};

use crate::applying::{delete, insert, update};
use crate::error::{CommitError, Refused};
use crate::table_rows::TableRows;
use crate::truncating::truncate;
use replica_identity::Change;
use shard_checker::Checked;
use std::alloc::Global;
use table_changes::Command;

/// Stages what the command does.
fn apply(
    alloc: Global,
    checked: &Checked,
    tables: &mut [TableRows],
    command: &Command,
) -> Result<Change, Refused>
    requires { HasMaps (checked_view checked.now).catalog.tables tables.old }
    ensures { Tries (setting_in (checked_view checked.now)) (command_view command.now) tables.old result tables.new }
{
    match command {
        Command::Insert { table, row } => insert(alloc, checked, tables, *table, row),
        Command::Update { table, key, row } => update(alloc, checked, tables, *table, key, row),
        Command::Delete { table, key } => delete(alloc, checked, tables, *table, key),
        Command::Truncate { tables: numbers } => truncate(alloc, checked, tables, numbers),
    }
}

/// Why a list is refused for its command of this number.
fn refused_at(number: usize, refused: Refused) -> CommitError
    ensures { result ≡ error_at number refused }
{
    match refused {
        Refused::Fault(fault) => CommitError::At(number, fault),
        Refused::OutOfMemory => CommitError::OutOfMemory,
    }
}

/// Stages what the commands do, each on what the earlier ones leave, up to the first that is refused.
#[tactic(auto, using(crate::proofs::Rules::applying_all))]
pub(crate) fn apply_all(
    alloc: Global,
    checked: &Checked,
    tables: &mut [TableRows],
    commands: &[Command],
) -> Result<Vec<Change>, CommitError>
    requires maps { HasMaps (checked_view checked.now).catalog.tables tables.old }
    requires few { length commands.now ≤ 1000 }
    ensures { TriesAll (setting_in (checked_view checked.now)) (map command_view commands.now)
        (λ changes. AppliesAll (setting_in (checked_view checked.now)) tables.old tables.new
        (map command_view commands.now) (map change_view changes.items)) tables.old result tables.new }
{
    let mut changes = Vec::with_capacity(alloc, commands.len())?;
    for (index, command) in commands.iter().enumerate() {
        match apply(alloc, checked, tables, command) {
            Ok(change) => changes.push(change)?,
            Err(refused) => return Err(refused_at(index + 1, refused)),
        }
    }
    Ok(changes)
}

/// Forgets what is staged.
pub(crate) fn discard(tables: &mut [TableRows])
    ensures { DiscardsTables tables.old tables.new }
{
    for rows in tables.iter_mut() {
        rows.discard();
    }
}
