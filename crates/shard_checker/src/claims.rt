//! Nodes that name an owner. What they say is checked for many of them at once, since the steps of the filters are then
//! computed for all of them together.

ghost use Rattle.std.specs.Prelude.{◌≡◌, ◌≤◌, ◌<◌, ◌++◌, ◌∷◌, [], length, map, slice_set, nat_le, IfOk, OnOk};
ghost use Rattle.shard_checker.specs.Checks.{Checks, Finds};
ghost use Rattle.shard_checker.specs.Claims as spec;
ghost use Rattle.shard_checker.specs.LeafMasks.{all_at};
ghost use Rattle.shard_checker.specs.Refusal.{second_refusal, subject_view};
ghost use Rattle.shard_checker.specs.Steps.{mask_in, second_among};

use crate::error::CheckError;
use crate::formulas::root_at;
use crate::leaf_masks::{LEAVES, LeafMasks, leaf_masks_at, mask_at_leaf, spread, tell_steps};
use crate::owners::{is_surely_true, second_owner};
use crate::steps::FormulaNode;
use crate::subject::Subject;
use filter_tree::Mask;
use std::alloc::{AllocError, Allocator, Global};

/// A node that says that each row there passes to the subscriber, and to no other.
#[derive(Clone, Copy, Debug, PartialEq, Eq)]
pub struct Claim {
    pub node: usize,
    pub owner: u32,
}

/// Claims that are still to be checked, each at a leaf of its own.
#[derive(Drop)]
pub struct Claims {
    pub list: Vec<Claim>,
    /// What each atom may be at each of these leaves, and, at all later ones, at the end of the path.
    pub atoms: Vec<LeafMasks>,
    /// What each step may be at each of these leaves, as far as that is known.
    pub steps: Vec<LeafMasks>,
}

/// Puts the sets in the place with this number, if there is one.
fn put(list: &mut [LeafMasks], number: usize, masks: LeafMasks)
    ensures { list.new ≡ slice_set list.old number masks }
{
    if number < list.len() {
        list[number] = masks;
    }
}

impl Claims {
    /// No claims, while atoms may be these.
    pub fn new(alloc: Global, known: &[Mask]) -> Result<Claims, AllocError>
        ensures { IfOk result (λ claims. spec.Begin known.now claims) }
    {
        let mut atoms = Vec::new(alloc);
        spread(&mut atoms, known)?;
        Ok(Claims {
            list: Vec::new(alloc),
            atoms,
            steps: Vec::new(alloc),
        })
    }

    /// No claims any more, while atoms may be these.
    pub fn restart(&mut self, known: &[Mask]) -> Result<(), AllocError>
        ensures { OnOk result (spec.Begin known.now self.new) }
    {
        self.list.clear();
        spread(&mut self.atoms, known)?;
        Ok(())
    }

    /// Records what the atom with this number may be from here on.
    pub fn record(&mut self, number: usize, mask: Mask)
        ensures { spec.Records self.old self.new number mask }
    {
        let masks = leaf_masks_at(&self.atoms, number).with_mask_from(self.list.len(), mask);
        put(&mut self.atoms, number, masks);
    }

    /// Whether no leaf is left for another claim.
    pub fn is_full(&self) -> bool
        ensures { result ≡ nat_le 64 (length self.now.list.items) }
    {
        self.list.len() >= LEAVES
    }

    /// Adds a claim.
    pub fn add(&mut self, node: usize, owner: u32) -> Result<(), AllocError>
        ensures list { OnOk result (self.new.list.items ≡ self.old.list.items ++ spec.claim_of node owner ∷ []) }
        ensures atoms { self.new.atoms ≡ self.old.atoms }
    {
        self.list.push(Claim { node, owner })?;
        Ok(())
    }

    /// Determines what each step may be at each leaf.
    fn tell(&mut self, steps: &[FormulaNode]) -> Result<(), AllocError>
        ensures list { self.new.list ≡ self.old.list }
        ensures atoms { self.new.atoms ≡ self.old.atoms }
        ensures steps { OnOk result (spec.AreDetermined steps.now self.new) }
    {
        tell_steps(steps, &self.atoms, &mut self.steps)
    }
}

/// Checks that no other share than the owner's may take a row at the leaf.
fn check_others<A: Allocator>(
    subject: &Subject<'_, A>,
    masks: &[LeafMasks],
    leaf: usize,
    claim: Claim,
) -> Result<(), CheckError>
    requires { leaf < 64 }
    ensures { Finds (second_refusal (subject_view subject.now) claim.node
        (second_among claim.owner 0
        (map (mask_in (all_at leaf masks.now)) subject.now.formulas.now.roots.items))) result }
{
    match second_owner(claim.owner as usize, &subject.formulas.roots, masks, leaf) {
        None => Ok(()),
        Some(subscriber) => Err(CheckError::SecondOwner {
            table: subject.table,
            node: claim.node,
            subscriber,
        }),
    }
}

/// Checks a claim from what each step may be at its leaf.
fn check_claim<A: Allocator>(
    subject: &Subject<'_, A>,
    masks: &[LeafMasks],
    leaf: usize,
    claim: Claim,
) -> Result<(), CheckError>
    requires { leaf < 64 }
    ensures { Finds (spec.claim_refusal (subject_view subject.now) subject.now.formulas.now.roots.items
        (all_at leaf masks.now) claim) result }
{
    let table = subject.table;
    let node = claim.node;
    match root_at(&subject.formulas.roots, claim.owner) {
        None => Err(CheckError::BadIndex { table, node }),
        Some(root) if is_surely_true(mask_at_leaf(masks, root, leaf)) => check_others(
            subject, masks, leaf, claim,
        ),
        Some(_) => Err(CheckError::NotOwner { table, node }),
    }
}

/// Checks the claims from what each step may be at their leaves.
fn check_each<A: Allocator>(
    subject: &Subject<'_, A>,
    masks: &[LeafMasks],
    claims: &[Claim],
) -> Result<(), CheckError>
    requires { length claims.now ≤ 64 }
    ensures { Finds (spec.claims_refusal (subject_view subject.now) subject.now.formulas.now.roots.items
        (λ leaf. all_at leaf masks.now) 0 claims.now) result }
{
    for (leaf, claim) in claims.iter().enumerate() {
        check_claim(subject, masks, leaf, *claim)?;
    }
    Ok(())
}

/// Checks the claims.
pub fn check_claims<A: Allocator>(
    subject: &Subject<'_, A>,
    claims: &mut Claims,
) -> Result<(), CheckError>
    requires { length claims.old.list.items ≤ 64 }
    ensures { Checks (spec.refusal_due (subject_view subject.now) subject.now.formulas.now claims.old) result }
{
    claims.tell(&subject.formulas.steps.list)?;
    check_each(subject, &claims.steps, &claims.list)?;
    Ok(())
}
