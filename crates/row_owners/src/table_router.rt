//! Which subscribers get the rows of one table.

ghost use Rattle.std.specs.Prelude.{◌≡◌, ℕ, List, Option, Some, None, All, IfOk, IfSome, slice_get};
ghost use Rattle.filter_memo.specs.Atoms.{IsAtomsOf, Locates};
ghost use Rattle.filter_memo.specs.Plans.{filter_view, filters_view};
ghost use Rattle.filter_tree.specs.Expr.{Expr};
ghost use Rattle.replica_identity.specs.Plans.{PlanOf, plan_view};
ghost use Rattle.replica_identity.specs.Shares.{Where, is_true, share_view, takes};
ghost use Rattle.row_owners.specs.Routers as spec;
ghost use Rattle.shard_checker.specs.CheckedView.{checked_view};

use crate::owner_set::OwnerSet;
use filter_memo::{Atoms, Said};
use filter_tree::{Filter, Row, TableNumber, Tri};
use pub_catalog::SubscriberNumber;
use replica_identity::{Plan, Share};
use shard_checker::Checked;
use std::alloc::{AllocError, Global};

/// The number of sets that are kept for a table.
const SETS: usize = 256;

/// Odd factors whose products differ in their upper 8 bits for few different values of the atoms.
const TRUTHS: u64 = 0xc339_4fe1_3177_a34b;

const NULLS: u64 = 0x9e37_79b9_7f4a_7c15;

/// The subscribers that get the rows whose atoms have these values.
#[derive(Clone, Copy, Debug)]
pub(crate) struct KeptOwners {
    said: Said,
    owners: OwnerSet,
}

/// The atoms of the filters of all subscribers' shares of a table, and for some of their values the subscribers that
/// get the rows with these values.
#[derive(Drop)]
pub(crate) struct TableRouter {
    atoms: Atoms,
    slots: Vec<Option<KeptOwners>>,
}

/// The slot for these values of the atoms.
fn slot_of(said: Said) -> usize {
    let mixed = said.truths.wrapping_mul(TRUTHS) ^ said.nulls.wrapping_mul(NULLS);
    (mixed >> 56) as usize
}

/// The set that the slot keeps for these values.
#[tactic(auto, using(crate::proofs::RouterLemmas::kept_is))]
fn kept_at(slots: &[Option<KeptOwners>], slot: usize, said: Said) -> Option<OwnerSet>
    ensures { IfSome result (λ owners. slice_get slots.now slot
        ≡ Some (Some (record { said = said; owners = owners }))) }
{
    match slots.get(slot) {
        Some(Some(kept)) if kept.said == said => Some(kept.owners),
        _ => None,
    }
}

/// The given number of empty slots.
fn empty_sets(alloc: Global, count: usize) -> Result<Vec<Option<KeptOwners>>, AllocError>
    ensures { IfOk result (λ slots. All (λ slot. slot ≡ None) slots.items) }
{
    let mut slots = Vec::with_capacity(alloc, count)?;
    for _ in 0..count {
        slots.push(None)?;
    }
    Ok(slots)
}

/// The filter of the share, if it has one.
fn filter_in(share: &Share) -> Option<&Filter>
    ensures { filter_view result ≡ spec.filter_in (share_view share.now) }
{
    match share {
        Share::Nothing | Share::Everything => None,
        Share::Where(filter) => Some(filter),
    }
}

/// The filters of the subscribers' shares of the table, in their order.
fn filters_of(
    alloc: Global,
    checked: &Checked,
    table: TableNumber,
) -> Result<Vec<Option<&Filter>>, AllocError>
    ensures { IfOk result (λ filters.
        filters_view filters.items ≡ spec.filters_of (checked_view checked.now).plan table) }
{
    let plan = checked.plan();
    let count = checked.catalog().subscriptions.len();
    let mut filters = Vec::with_capacity(alloc, count)?;
    for subscriber in 0..count {
        filters.push(filter_in(plan.share(subscriber, table)))?;
    }
    Ok(filters)
}

/// The subscribers that get the row. Each filter is evaluated.
pub(crate) fn takers(plan: &Plan, table: TableNumber, row: &Row) -> OwnerSet
    ensures { spec.OwnsRow (plan_view plan.now) table row.now result }
{
    let mut set = OwnerSet::none();
    for subscriber in 0..32 {
        set.put(subscriber, plan.share(subscriber, table).takes(row));
    }
    set
}

fn is_true(tri: Tri) -> bool
    ensures { result ≡ is_true tri }
{
    matches!(tri, Tri::True)
}

/// Whether the share of this subscriber has the row, whose atoms have these values.
fn takes_by(
    atoms: &Atoms,
    said: Said,
    subscriber: SubscriberNumber,
    share: &Share,
    row: &Row,
) -> bool
    ensures { (filters : List (Option Expr)) → IsAtomsOf filters atoms.now → Locates atoms.now row.now said
        → ((filter : Expr) → share_view share.now ≡ Where filter → slice_get filters subscriber ≡ Some (Some filter))
        → result ≡ takes (share_view share.now) row.now }
{
    let Share::Where(_) = share else {
        return share.takes(row);
    };
    match atoms.answer(said, subscriber) {
        None => share.takes(row),
        Some(answer) => is_true(answer),
    }
}

/// The subscribers that get the row, whose atoms have these values.
fn takers_by(atoms: &Atoms, said: Said, plan: &Plan, table: TableNumber, row: &Row) -> OwnerSet
    requires atoms { IsAtomsOf (spec.filters_of (plan_view plan.now) table) atoms.now }
    requires located { Locates atoms.now row.now said }
    ensures { spec.OwnsRow (plan_view plan.now) table row.now result }
{
    let mut set = OwnerSet::none();
    for subscriber in 0..32 {
        let share = plan.share(subscriber, table);
        set.put(subscriber, takes_by(atoms, said, subscriber, share, row));
    }
    set
}

impl TableRouter {
    /// A router of this table, which keeps no set yet. The only error is out of memory.
    pub(crate) fn new(
        alloc: Global,
        checked: &Checked,
        table: TableNumber,
    ) -> Result<TableRouter, AllocError>
        ensures { IfOk result (spec.RoutesTable (checked_view checked.now).plan table) }
    {
        let filters = filters_of(alloc, checked, table)?;
        let atoms = Atoms::new(alloc, &filters)?;
        let count = if atoms.are_used() { SETS } else { 0 };
        Ok(TableRouter {
            atoms,
            slots: empty_sets(alloc, count)?,
        })
    }

    /// The subscribers that get the row of the table. It allocates no memory.
    pub(crate) fn owners(&mut self, plan: &Plan, table: TableNumber, row: &Row) -> OwnerSet
        requires { spec.RoutesTable (plan_view plan.now) table self.old }
        ensures router { spec.RoutesTable (plan_view plan.now) table self.new }
        ensures owners { spec.OwnsRow (plan_view plan.now) table row.now result }
    {
        if !self.atoms.are_used() {
            return takers(plan, table, row);
        }
        let said = self.atoms.locate(row);
        let slot = slot_of(said);
        if let Some(owners) = kept_at(&self.slots, slot, said) {
            return owners;
        }
        let owners = takers_by(&self.atoms, said, plan, table, row);
        self.keep(slot, KeptOwners { said, owners });
        owners
    }

    /// Keeps a set in the slot.
    fn keep(&mut self, slot: usize, kept: KeptOwners)
        ensures { (plan : PlanOf) (table : ℕ) → spec.RoutesTable plan table self.old
            → spec.IsKept plan table self.old.atoms (Some kept) → spec.RoutesTable plan table self.new }
    {
        if slot < self.slots.len() {
            self.slots[slot] = Some(kept);
        }
    }
}
