//! Which subscribers get the rows and the changes of all tables.

ghost use Rattle.std.specs.Prelude.{◌≡◌, IfOk, length};
ghost use Rattle.std.specs.List.{list_any};
ghost use Rattle.replica_identity.specs.ChangeView.{change_view, part_view};
ghost use Rattle.replica_identity.specs.Plans.{plan_view};
ghost use Rattle.replica_identity.specs.Transforms.{takes_any};
ghost use Rattle.row_owners.specs.Owners.{OwnedWhere, OwnsChange};
ghost use Rattle.row_owners.specs.Routers as spec;
ghost use Rattle.shard_checker.specs.CheckedView.{checked_view};

use crate::owner_set::OwnerSet;
use crate::table_router::{TableRouter, takers};
use filter_tree::{Row, TableNumber};
use replica_identity::{Change, OldPart, Plan, carries};
use shard_checker::Checked;
use std::alloc::{AllocError, Global};

/// Computes for all subscribers of a checked catalog together which of them get a row. It evaluates the atoms of their
/// filters, and keeps up to 256 sets of subscribers for each table.
///
/// PostgreSQL 15, "Logical Replication", 31.3 Row Filters.
#[derive(Drop)]
pub struct Router {
    tables: Vec<TableRouter>,
}

/// The subscribers that get anything from the table.
fn carriers(plan: &Plan, table: TableNumber) -> OwnerSet
    ensures { OwnedWhere result (λ subscriber. takes_any (plan_view plan.now) subscriber table) }
{
    let mut set = OwnerSet::none();
    for subscriber in 0..32 {
        set.put(subscriber, carries(plan, subscriber, table));
    }
    set
}

/// The subscribers that get anything from one of these tables.
fn carriers_of(plan: &Plan, tables: &[TableNumber]) -> OwnerSet
    ensures { OwnedWhere result (λ subscriber. list_any (takes_any (plan_view plan.now) subscriber) tables.now) }
{
    let mut set = OwnerSet::none();
    for table in tables {
        set.join(carriers(plan, *table));
    }
    set
}

impl Router {
    /// A router of the checked catalog, which has a place for each table and keeps no set yet. The only error is out of
    /// memory.
    pub fn new(alloc: Global, checked: &Checked) -> Result<Router, AllocError>
        ensures plan { IfOk result (spec.IsRouterOf (checked_view checked.now).plan) }
        ensures tables { IfOk result (λ router.
            spec.table_count router ≡ length (checked_view checked.now).catalog.tables) }
    {
        let mut tables = Vec::new(alloc);
        for table in 0..checked.catalog().tables.len() {
            tables.push(TableRouter::new(alloc, checked, table)?)?;
        }
        Ok(Router { tables })
    }

    /// The subscribers that get the row of the table. It allocates no memory.
    fn row_owners(&mut self, plan: &Plan, table: TableNumber, row: &Row) -> OwnerSet
        requires { spec.IsRouterOf (plan_view plan.now) self.old }
        ensures router { spec.IsRouterOf (plan_view plan.now) self.new }
        ensures owners { spec.OwnsRow (plan_view plan.now) table row.now result }
    {
        if table >= self.tables.len() {
            return takers(plan, table, row);
        }
        self.tables[table].owners(plan, table, row)
    }

    /// The subscribers that get the recorded part; none if nothing is recorded.
    fn part_owners(&mut self, plan: &Plan, table: TableNumber, part: &OldPart) -> OwnerSet
        requires { spec.IsRouterOf (plan_view plan.now) self.old }
        ensures router { spec.IsRouterOf (plan_view plan.now) self.new }
        ensures owners { OwnedWhere result (spec.takes_part (plan_view plan.now) table (part_view part.now)) }
    {
        match part {
            OldPart::None => OwnerSet::none(),
            OldPart::Key(row) | OldPart::Full(row) => self.row_owners(plan, table, row.row()),
        }
    }

    /// The subscribers that get something from the change. It allocates no memory.
    pub(crate) fn owners(&mut self, plan: &Plan, change: &Change) -> OwnerSet
        requires { spec.IsRouterOf (plan_view plan.now) self.old }
        ensures router { spec.IsRouterOf (plan_view plan.now) self.new }
        ensures owners { OwnsChange (plan_view plan.now) (change_view change.now) result }
    {
        match change {
            Change::Insert { table, new } => self.row_owners(plan, *table, new.row()),
            Change::Update { table, old, new } => {
                let mut set = self.row_owners(plan, *table, new.row());
                set.join(self.part_owners(plan, *table, old));
                set
            }
            Change::Delete { table, old } => self.part_owners(plan, *table, old),
            Change::Truncate { tables } => carriers_of(plan, tables.as_slice()),
        }
    }
}
