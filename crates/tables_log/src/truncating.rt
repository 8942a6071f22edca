//! TRUNCATE on the rows of tables.

ghost use Rattle.std.specs.Prelude.{◌≡◌, nat_eq, map, IfOk};
ghost use Rattle.filter_tree.specs.Lists.{distinct};
ghost use Rattle.shard_checker.specs.CheckedView.{checked_view, setting_in};
ghost use Rattle.table_changes.specs.Commands as c;
ghost use Rattle.table_changes.specs.Commands.{all_known};
ghost use Rattle.table_changes.specs.Tables.{SameTables, emptied};
ghost use Rattle.tables_log.specs.Applying.{HasMaps, Tries};
ghost use Rattle.tables_log.specs.Places.{seen_in, KeepsTables, EmptiesTable};

use crate::error::{CommandFault, Refused};
use crate::table_rows::TableRows;
use filter_tree::{TableNumber, add_distinct};
use replica_identity::Change;
use shard_checker::Checked;
use std::alloc::{AllocError, Global};

/// Whether there are tables, and each of them exists.
fn are_known(checked: &Checked, numbers: &[TableNumber]) -> bool
    ensures { result ≡ all_known (setting_in (checked_view checked.now)) numbers.now }
{
    let count = checked.catalog().tables.len();
    for number in numbers {
        if *number >= count {
            return false;
        }
    }
    !numbers.is_empty()
}

/// The numbers, each once, at its first place. The only error is out of memory.
fn each_once(alloc: Global, numbers: &[TableNumber]) -> Result<Vec<TableNumber>, AllocError>
    ensures { IfOk result (λ once. once.items ≡ distinct nat_eq numbers.now) }
{
    let mut once = Vec::new(alloc);
    for number in numbers {
        add_distinct(&mut once, *number)?;
    }
    Ok(once)
}

/// Stages that there are no rows in the table, if it exists.
#[tactic(auto, using(crate::proofs::ListLemmas::keeps_itself, crate::proofs::TruncateLemmas::empties_past))]
fn empty_one(tables: &mut [TableRows], number: TableNumber)
    ensures keeps { KeepsTables tables.old tables.new }
    ensures empties { EmptiesTable tables.old tables.new number }
{
    if number >= tables.len() {
        return;
    }
    tables[number].empty();
}

/// Stages that there are no rows in these tables.
#[tactic(auto, using(crate::proofs::TruncateLemmas::empties_next, crate::proofs::ListLemmas::keeps_itself))]
fn empty(tables: &mut [TableRows], numbers: &[TableNumber])
    ensures keeps { KeepsTables tables.old tables.new }
    ensures empties { SameTables (seen_in tables.new) (emptied (seen_in tables.old) numbers.now) }
{
    for number in numbers {
        empty_one(tables, *number);
    }
}

/// Stages that there are no rows in these tables, which are recorded once each.
pub(crate) fn truncate(
    alloc: Global,
    checked: &Checked,
    tables: &mut [TableRows],
    numbers: &[TableNumber],
) -> Result<Change, Refused>
    requires { HasMaps (checked_view checked.now).catalog.tables tables.old }
    ensures { Tries (setting_in (checked_view checked.now)) (c.Truncate numbers.now) tables.old result tables.new }
{
    if !are_known(checked, numbers) {
        return Err(Refused::Fault(CommandFault::NoTable));
    }
    let once = each_once(alloc, numbers)?;
    empty(tables, numbers);
    Ok(Change::Truncate { tables: once })
}
