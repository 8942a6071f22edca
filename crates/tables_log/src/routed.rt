//! Entries of the log, with the subscribers that get something of each.

ghost use Rattle.std.specs.Prelude.{◌≡◌, ◌<◌, drop, map, take, IfOk};
ghost use Rattle.std.specs.Arc.{arc_value};
ghost use Rattle.std.specs.List.{take_while};
ghost use Rattle.tables_log.specs.Routes.{commit_in, lacks};

use crate::commit::Commit;
use pub_catalog::SubscriberNumber;
use row_owners::{OwnerSet, Routes};
use std::alloc::{AllocError, Global};
use std::sync::Arc;

/// How many entries are passed over at once.
const MOST: usize = 64;

/// An entry of the log: a commit, the subscribers that get something of it, and those that get something of each of its
/// changes.
#[derive(Drop)]
pub struct Routed {
    pub(crate) commit: Arc<Commit, Global>,
    pub(crate) routes: Routes,
}

impl Routed {
    ghost use Rattle.std.specs.Prelude.{◌≡◌, IfOk};
    ghost use Rattle.std.specs.Arc.{arc_value};
    ghost use Rattle.replica_identity.specs.Plans.{PlanOf};
    ghost use Rattle.row_owners.specs.Owners.{AreOwners};
    ghost use Rattle.tables_log.specs.Routes.{IsRouted, commit_in};

    /// The commit.
    pub fn commit(&self) -> &Commit
        ensures { result.now ≡ commit_in self.now }
    {
        &self.commit
    }

    /// The commit alone.
    pub fn into_commit(self) -> Arc<Commit, Global>
        ensures { arc_value result ≡ commit_in self }
    {
        self.commit
    }

    /// The subscribers that get something of each change: a set for each change, in their order, or for none.
    pub fn owners(&self) -> &[OwnerSet]
        ensures { (plan : PlanOf) → IsRouted plan self.now → AreOwners plan (commit_in self.now).changes result.now }
    {
        self.routes.each()
    }

    /// The same entry once more. The only error is that it is shared too often.
    pub(crate) fn try_clone(&self) -> Result<Routed, AllocError>
        ensures commit { IfOk result (λ copy. commit_in copy ≡ commit_in self.now) }
        ensures routed { IfOk result (λ copy. (plan : PlanOf) → IsRouted plan self.now → IsRouted plan copy) }
    {
        let commit = Arc::try_clone(&self.commit)?;
        let routes = self.routes.try_clone()?;
        Ok(Routed { commit, routes })
    }
}

/// The entries after the first `done` ones, and at most `MOST` of them.
#[tactic(auto, using(crate::proofs::RouteLemmas::some_after))]
pub(crate) fn entries_after(log: &[Routed], done: usize) -> &[Routed]
    ensures { result.now ≡ take 64 (drop done log.now) }
{
    let (_, rest) = log.split_at(done.min(log.len()));
    let (next, _) = rest.split_at(MOST.min(rest.len()));
    next
}

/// The commits of the first of these entries, before one of which the subscriber gets something. The only errors are
/// out of memory, and that a commit is shared too often.
pub(crate) fn passed_over(
    alloc: Global,
    entries: &[Routed],
    subscriber: SubscriberNumber,
) -> Result<Vec<Arc<Commit, Global>>, AllocError>
    requires { subscriber < 32 }
    ensures { IfOk result (λ commits. map (λ commit. arc_value commit) commits.items
        ≡ map commit_in (take_while (lacks subscriber) entries.now)) }
{
    let mut commits = Vec::new(alloc);
    for entry in entries {
        if entry.routes.all().has(subscriber) {
            return Ok(commits);
        }
        commits.push(Arc::try_clone(&entry.commit)?)?;
    }
    Ok(commits)
}
