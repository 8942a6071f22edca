//! Which subscribers get something from the changes of a commit.

ghost use Rattle.std.specs.Prelude.{◌≡◌, IfOk, IfSome, map};
ghost use Rattle.std.specs.Arc.{arc_value};
ghost use Rattle.std.specs.List.{AllZip};
ghost use Rattle.replica_identity.specs.ChangeView.{change_view};
ghost use Rattle.replica_identity.specs.Plans.{plan_view};
ghost use Rattle.row_owners.specs.Owners.{AreRoutes, OwnedWhere, OwnsChange, concerns};
ghost use Rattle.row_owners.specs.Routers.{IsRouterOf};
ghost use Rattle.shard_checker.specs.CheckedView.{checked_view};

use crate::owner_set::OwnerSet;
use crate::router::Router;
use crate::routes::{ChangeOwners, Routes};
use replica_identity::{Change, Plan};
use shard_checker::Checked;
use std::alloc::{AllocError, Global};
use std::sync::Arc;

/// The subscribers that get something from one of the changes, and those that get something from each. The only error
/// is out of memory.
fn each_owners(
    router: &mut Router,
    alloc: Global,
    plan: &Plan,
    changes: &[Change],
) -> Result<(OwnerSet, Vec<OwnerSet>), AllocError>
    requires { IsRouterOf (plan_view plan.now) router.old }
    ensures router { IsRouterOf (plan_view plan.now) router.new }
    ensures all { IfOk result (λ found.
        OwnedWhere found.0 (concerns (plan_view plan.now) (map change_view changes.now))) }
    ensures each { IfOk result (λ found.
        AllZip (OwnsChange (plan_view plan.now)) (map change_view changes.now) found.1.items) }
{
    let mut all = OwnerSet::none();
    let mut sets = Vec::with_capacity(alloc, changes.len())?;
    for change in changes {
        let set = router.owners(plan, change);
        all.join(set);
        sets.push(set)?;
    }
    Ok((all, sets))
}

/// The subscribers that get something from one of the changes.
fn concerned(router: &mut Router, plan: &Plan, changes: &[Change]) -> OwnerSet
    requires { IsRouterOf (plan_view plan.now) router.old }
    ensures router { IsRouterOf (plan_view plan.now) router.new }
    ensures all { OwnedWhere result (concerns (plan_view plan.now) (map change_view changes.now)) }
{
    let mut all = OwnerSet::none();
    for change in changes {
        let set = router.owners(plan, change);
        all.join(set);
    }
    all
}

/// The sets in memory that is shared; nothing if memory is refused.
fn shared(alloc: Global, sets: Vec<OwnerSet>) -> Option<Arc<ChangeOwners, Global>>
    ensures { IfSome result (λ shared. arc_value shared ≡ sets.items) }
{
    match Arc::new(alloc, ChangeOwners::new(sets)) {
        Ok(shared) => Some(shared),
        Err(_) => None,
    }
}

impl Router {
    /// The subscribers of the checked catalog that get something from these changes, and from each of them: an INSERT,
    /// an UPDATE, a DELETE or a TRUNCATE, as `transform` defines. If memory is refused, only the first are kept.
    ///
    /// PostgreSQL 15, "Logical Replication", 31.3.3 UPDATE Transformations.
    pub fn routes_of(&mut self, alloc: Global, checked: &Checked, changes: &[Change]) -> Routes
        requires { IsRouterOf (checked_view checked.now).plan self.old }
        ensures router { IsRouterOf (checked_view checked.now).plan self.new }
        ensures routes { AreRoutes (checked_view checked.now).plan (map change_view changes.now) result }
    {
        let plan = checked.plan();
        if changes.len() > 1 {
            if let Ok((all, sets)) = each_owners(self, alloc, plan, changes) {
                return Routes {
                    all,
                    each: shared(alloc, sets),
                };
            }
        }
        Routes {
            all: concerned(self, plan, changes),
            each: None,
        }
    }
}
