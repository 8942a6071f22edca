//! Which changes of a commit may be for a subscriber, by the sets of those that get something from each.

ghost use Rattle.std.specs.Prelude.{◌≡◌, ℕ, ◌+◌, ◌-◌, ◌<◌, ◌≤◌, IfSome, IsTrue, List, count_by, false, length, slice_get};
ghost use Rattle.replica_identity.specs.Plans.{PlanOf};
ghost use Rattle.row_owners.specs.Owners.{AreOwners, IsSpared, concerns, owned};
ghost use Rattle.table_changes.specs.Records.{ChangeOf};

use crate::owner_set::OwnerSet;
use pub_catalog::SubscriberNumber;

/// The first place, from `from` on, of a change that may be for the subscriber: one whose set has the subscriber, or
/// that has no set. Those before it are for others.
pub fn next_of(sets: &[OwnerSet], from: usize, subscriber: SubscriberNumber) -> usize
    ensures onward { from ≤ result }
    ensures spared { (place : ℕ) → from ≤ place → place < result → IsSpared sets.now subscriber place }
    ensures own { subscriber < 32 → IfSome (slice_get sets.now result) (λ set. IsTrue (owned set subscriber)) }
{
    if subscriber >= 32 {
        return from;
    }
    let mut place = from;
    while place < sets.len() && !sets[place].has(subscriber) {
        place += 1;
    }
    place
}

/// How many of so many changes may be for the subscriber: those whose set has the subscriber, and those that have no
/// set.
pub fn count_of(sets: &[OwnerSet], changes: usize, subscriber: SubscriberNumber) -> usize
    ensures exact { subscriber < 32 → result
        ≡ count_by (λ set. owned set subscriber) sets.now + (changes - length sets.now) }
    ensures none { result ≡ 0 → (plan : PlanOf) (all : List ChangeOf) → length all ≤ changes
        → AreOwners plan all sets.now → concerns plan all subscriber ≡ false }
{
    if subscriber >= 32 {
        return changes;
    }
    let mut count = changes.saturating_sub(sets.len());
    for set in sets {
        if set.has(subscriber) {
            count += 1;
        }
    }
    count
}
