//! The sets of truth values that atoms and steps may have at many leaves at once, as bits of words.

ghost use Rattle.std.specs.Prelude.{◌≡◌, ◌≤◌, ◌<◌, ℕ, [], OnOk};
ghost use Rattle.filter_tree.specs.Logic.{and_of, or_of, not_of, is_of};
ghost use Rattle.filter_tree.specs.Mask.{lift_one, lift_two};
ghost use Rattle.shard_checker.specs.LeafMasks as spec;
ghost use Rattle.shard_checker.specs.Steps.{mask_in, masks_of, step_mask};

use crate::steps::FormulaNode;
use filter_tree::{Mask, Test, Tri};
use std::alloc::AllocError;

/// How many leaves there are, since a word has a bit for each.
pub const LEAVES: usize = 64;

/// The sets of truth values that something may have at leaves: for each truth value, the leaves where it may have it.
#[derive(Clone, Copy, Debug, PartialEq, Eq)]
pub struct LeafMasks {
    pub truth: u64,
    pub falsity: u64,
    pub null: u64,
}

/// No truth values at any leaf.
const NOWHERE: LeafMasks = LeafMasks {
    truth: 0,
    falsity: 0,
    null: 0,
};

/// The word, in which each bit from that of this leaf on is set or cleared.
fn with_bits_from(word: u64, leaf: usize, is_set: bool) -> u64
    ensures { spec.SetsFrom leaf is_set word result }
{
    if leaf >= LEAVES {
        return word;
    }
    let later = u64::MAX << leaf;
    if is_set { word | later } else { word & !later }
}

/// Whether the word has the bit of the leaf.
fn has_leaf(word: u64, leaf: usize) -> bool
    requires { leaf < 64 }
    ensures { result ≡ spec.has_leaf word leaf }
{
    (word >> leaf) & 1 == 1
}

impl LeafMasks {
    /// The set at each leaf from this one on is replaced.
    pub fn with_mask_from(self, leaf: usize, mask: Mask) -> LeafMasks
        ensures before { (other : ℕ) → other < leaf → spec.at_leaf other result ≡ spec.at_leaf other self }
        ensures later { (other : ℕ) → leaf ≤ other → other < 64 → spec.at_leaf other result ≡ mask }
    {
        LeafMasks {
            truth: with_bits_from(self.truth, leaf, mask.truth),
            falsity: with_bits_from(self.falsity, leaf, mask.falsity),
            null: with_bits_from(self.null, leaf, mask.null),
        }
    }

    /// The set at every leaf.
    pub fn everywhere(mask: Mask) -> LeafMasks
        ensures { (leaf : ℕ) → leaf < 64 → spec.at_leaf leaf result ≡ mask }
    {
        NOWHERE.with_mask_from(0, mask)
    }

    /// The set at a leaf.
    pub fn at(self, leaf: usize) -> Mask
        requires { leaf < 64 }
        ensures { result ≡ spec.at_leaf leaf self }
    {
        Mask {
            truth: has_leaf(self.truth, leaf),
            falsity: has_leaf(self.falsity, leaf),
            null: has_leaf(self.null, leaf),
        }
    }

    /// As `Mask::and`, at each leaf.
    fn and(self, other: LeafMasks) -> LeafMasks
        ensures { (leaf : ℕ) → spec.at_leaf leaf result
            ≡ lift_two and_of (spec.at_leaf leaf self) (spec.at_leaf leaf other) }
    {
        let any = self.truth | self.falsity | self.null;
        let any_other = other.truth | other.falsity | other.null;
        LeafMasks {
            truth: self.truth & other.truth,
            falsity: (self.falsity & any_other) | (any & other.falsity),
            null: (self.null & (other.truth | other.null)) | (self.truth & other.null),
        }
    }

    /// As `Mask::or`, at each leaf.
    fn or(self, other: LeafMasks) -> LeafMasks
        ensures { (leaf : ℕ) → spec.at_leaf leaf result
            ≡ lift_two or_of (spec.at_leaf leaf self) (spec.at_leaf leaf other) }
    {
        let any = self.truth | self.falsity | self.null;
        let any_other = other.truth | other.falsity | other.null;
        LeafMasks {
            truth: (self.truth & any_other) | (any & other.truth),
            falsity: self.falsity & other.falsity,
            null: (self.null & (other.falsity | other.null)) | (self.falsity & other.null),
        }
    }

    /// As `Mask::not`, at each leaf.
    fn not(self) -> LeafMasks
        ensures { (leaf : ℕ) → spec.at_leaf leaf result ≡ lift_one not_of (spec.at_leaf leaf self) }
    {
        LeafMasks {
            truth: self.falsity,
            falsity: self.truth,
            null: self.null,
        }
    }

    /// As `Mask::is`, at each leaf.
    fn is(self, test: Test) -> LeafMasks
        ensures { (leaf : ℕ) → spec.at_leaf leaf result ≡ lift_one (is_of test) (spec.at_leaf leaf self) }
    {
        let (asked, others) = match test {
            Test::True => (self.truth, self.falsity | self.null),
            Test::False => (self.falsity, self.truth | self.null),
            Test::Unknown => (self.null, self.truth | self.falsity),
        };
        LeafMasks {
            truth: asked,
            falsity: others,
            null: 0,
        }
    }
}

/// The sets at this number; empty past the end.
pub fn leaf_masks_at(list: &[LeafMasks], number: usize) -> LeafMasks
    ensures { (leaf : ℕ) → spec.at_leaf leaf result ≡ mask_in (spec.all_at leaf list.now) number }
{
    match list.get(number) {
        None => NOWHERE,
        Some(masks) => *masks,
    }
}

/// The set at this number and leaf; empty past the end.
pub fn mask_at_leaf(list: &[LeafMasks], number: usize, leaf: usize) -> Mask
    requires { leaf < 64 }
    ensures { result ≡ mask_in (spec.all_at leaf list.now) number }
{
    leaf_masks_at(list, number).at(leaf)
}

/// What a step may be at each leaf, from what the atoms and the steps may be there.
fn masks_of_step(step: FormulaNode, atoms: &[LeafMasks], steps: &[LeafMasks]) -> LeafMasks
    ensures { (leaf : ℕ) → leaf < 64
        → spec.at_leaf leaf result ≡ step_mask (spec.all_at leaf atoms.now) (spec.all_at leaf steps.now) step }
{
    match step {
        FormulaNode::Const(known) => LeafMasks::everywhere(Mask::single(Tri::from(known))),
        FormulaNode::Atom(number) => leaf_masks_at(atoms, number),
        FormulaNode::Not(part) => leaf_masks_at(steps, part).not(),
        FormulaNode::And(left, right) => leaf_masks_at(steps, left).and(leaf_masks_at(
            steps, right,
        )),
        FormulaNode::Or(left, right) => leaf_masks_at(steps, left).or(leaf_masks_at(steps, right)),
        FormulaNode::Is(test, part) => leaf_masks_at(steps, part).is(test),
    }
}

/// Determines for each step what it may be at each leaf.
pub fn tell_steps(
    steps: &[FormulaNode],
    atoms: &[LeafMasks],
    masks: &mut Vec<LeafMasks>,
) -> Result<(), AllocError>
    ensures { OnOk result ((leaf : ℕ) → leaf < 64
        → spec.all_at leaf masks.new.items ≡ masks_of (spec.all_at leaf atoms.now) [] steps.now) }
{
    masks.clear();
    for step in steps {
        let masks_of_leaves = masks_of_step(*step, atoms, masks);
        masks.push(masks_of_leaves)?;
    }
    Ok(())
}

/// The same sets at every leaf, for each of these sets.
pub fn spread(masks: &mut Vec<LeafMasks>, sets: &[Mask]) -> Result<(), AllocError>
    ensures { OnOk result ((leaf : ℕ) → leaf < 64 → spec.all_at leaf masks.new.items ≡ sets.now) }
{
    masks.clear();
    for set in sets {
        masks.push(LeafMasks::everywhere(*set))?;
    }
    Ok(())
}
