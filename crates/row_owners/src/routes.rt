//! The routes of a commit: which subscribers get something from each of its changes.

use crate::owner_set::OwnerSet;
use std::alloc::{AllocError, Global};
use std::marker::Model;
use std::sync::Arc;

/// The subscribers that get something from each change of a commit: a set for each change, in their order.
#[derive(Drop)]
pub struct ChangeOwners {
    sets: Vec<OwnerSet>,
}

impl Model for ChangeOwners {
    ghost use Rattle.std.specs.Prelude.{List};
    ghost use Rattle.row_owners.specs.declared.owner_set.OwnerSet.{OwnerSet as Set};

    ghost Value = { List Set };

    ghost view = { λ owners. owners.sets.items };
}

impl ChangeOwners {
    ghost use Rattle.std.specs.Prelude.{◌≡◌};

    pub(crate) fn new(sets: Vec<OwnerSet>) -> ChangeOwners
        ensures { result ≡ sets.items }
    {
        ChangeOwners { sets }
    }

    fn as_slice(&self) -> &[OwnerSet]
        ensures { result.now ≡ self.now }
    {
        self.sets.as_slice()
    }
}

/// The subscribers that get something from a commit, and those that get something from each of its changes, unless
/// that is not kept: for a commit of one change it would be the same, and memory may have been refused.
#[derive(Drop)]
pub struct Routes {
    pub(crate) all: OwnerSet,
    pub(crate) each: Option<Arc<ChangeOwners, Global>>,
}

impl Routes {
    ghost use Rattle.std.specs.Prelude.{◌≡◌, List, IfOk};
    ghost use Rattle.replica_identity.specs.Plans.{PlanOf};
    ghost use Rattle.row_owners.specs.Owners.{AreOwners, AreRoutes};
    ghost use Rattle.table_changes.specs.Records.{ChangeOf};

    /// The subscribers that get something from the commit.
    pub fn all(&self) -> OwnerSet
        ensures { result ≡ self.now.all }
    {
        self.all
    }

    /// The subscribers that get something from each change: a set for each change, in their order, or for none.
    pub fn each(&self) -> &[OwnerSet]
        ensures { (plan : PlanOf) (changes : List ChangeOf) → AreRoutes plan changes self.now
            → AreOwners plan changes result.now }
    {
        match &self.each {
            None => &[],
            Some(sets) => sets.as_slice(),
        }
    }

    /// The same routes once more. The only error is that they are shared too often.
    pub fn try_clone(&self) -> Result<Routes, AllocError>
        ensures { IfOk result (λ copy. (plan : PlanOf) (changes : List ChangeOf) → AreRoutes plan changes self.now
            → AreRoutes plan changes copy) }
    {
        let each = match &self.each {
            None => None,
            Some(sets) => Some(Arc::try_clone(sets)?),
        };
        Ok(Routes {
            all: self.all,
            each,
        })
    }
}
