//! Filters as branches. A branch tests some atoms, and their value leads to the next branch.

ghost use Rattle.std.specs.Prelude.{◌≡◌, ◌∷◌, ◌++◌, [], length, slice_get, Some, IfOk, IfSome, OnOk};
ghost use Rattle.filter_tree.specs.declared.tri.Tri.{Tri};
ghost use Rattle.filter_memo.specs.Branches as spec;
ghost use Rattle.filter_memo.specs.declared.branches.Branch.TheVariants.{Test as BranchTest};

use crate::clause::{Clause, Values};
use crate::said::Said;
use filter_tree::{Test, Tri};
use std::alloc::AllocError;

/// The numbers of the branches to which the truth values lead.
#[derive(Clone, Copy, Debug, PartialEq, Eq)]
pub struct Exits {
    pub on_true: usize,
    pub on_false: usize,
    pub on_null: usize,
}

/// One branch: the end, which is a truth value, or a test of a clause whose value leads to another branch.
#[derive(Clone, Copy, Debug, PartialEq, Eq)]
pub enum Branch {
    End(Tri),
    Test(Clause, Exits),
}

impl Exits {
    ghost use Rattle.std.specs.Prelude.{◌≡◌, IsTrue};
    ghost use Rattle.filter_memo.specs.Branches as spec;

    /// The branch to which the value leads.
    pub fn of(self, tri: Tri) -> usize
        ensures { result ≡ spec.exit_of self tri }
    {
        match tri {
            Tri::True => self.on_true,
            Tri::False => self.on_false,
            Tri::Null => self.on_null,
        }
    }

    /// The exits of a filter by the value of its negation.
    pub fn negated(self) -> Exits
        ensures { result ≡ spec.negated self }
    {
        Exits {
            on_true: self.on_false,
            on_false: self.on_true,
            on_null: self.on_null,
        }
    }

    /// The exits of `filter IS TRUE`, or of another test, by the value of the filter.
    pub fn asked(self, test: Test) -> Exits
        ensures { result ≡ spec.asked self test }
    {
        Exits {
            on_true: self.of(Tri::True.is(test)),
            on_false: self.of(Tri::False.is(test)),
            on_null: self.of(Tri::Null.is(test)),
        }
    }

    /// Whether all values lead to the same branch.
    pub fn lead_to_one(self) -> bool
        ensures { IsTrue result → spec.LeadToOne self }
    {
        self.on_true == self.on_false && self.on_true == self.on_null
    }

    /// The exits of the second side of an AND whose first side is null.
    pub fn of_null_and(self) -> Exits
        ensures { result ≡ spec.of_null_and self }
    {
        Exits {
            on_true: self.on_null,
            on_false: self.on_false,
            on_null: self.on_null,
        }
    }

    /// The exits of the second side of an OR whose first side is null.
    pub fn of_null_or(self) -> Exits
        ensures { result ≡ spec.of_null_or self }
    {
        Exits {
            on_true: self.on_true,
            on_false: self.on_null,
            on_null: self.on_null,
        }
    }

    /// The exits of the first side of an AND whose second side begins at `second`, and where the first side is null, at
    /// `other`.
    pub fn of_first_and(self, second: usize, other: usize) -> Exits
        ensures { result ≡ spec.of_first_and self second other }
    {
        Exits {
            on_true: second,
            on_false: self.on_false,
            on_null: other,
        }
    }

    /// The exits of the first side of an OR whose second side begins at `second`, and where the first side is null, at
    /// `other`.
    pub fn of_first_or(self, second: usize, other: usize) -> Exits
        ensures { result ≡ spec.of_first_or self second other }
    {
        Exits {
            on_true: self.on_true,
            on_false: second,
            on_null: other,
        }
    }
}

/// Adds a test, and returns its number.
pub fn add_test(
    branches: &mut Vec<Branch>,
    clause: Clause,
    exits: Exits,
) -> Result<usize, AllocError>
    ensures branches { OnOk result (branches.new.items ≡ branches.old.items ++ BranchTest clause exits ∷ []) }
    ensures number { IfOk result (λ number. number ≡ length branches.old.items) }
{
    let number = branches.len();
    branches.push(Branch::Test(clause, exits))?;
    Ok(number)
}

fn branch_at(branches: &[Branch], at: usize) -> Option<&Branch>
    ensures { IfSome result (λ branch. slice_get branches.now at ≡ Some branch.now) }
{
    branches.get(at)
}

/// The truth value to which the branches lead from this one.
pub fn run(branches: &[Branch], start: usize, said: Said) -> Option<Tri>
    ensures { IfSome result (λ tri. (other : Tri) → spec.LeadTo branches.now said other start → tri ≡ other) }
{
    let values = Values::of(said);
    let mut at = start;
    for _ in 0..branches.len() {
        match branch_at(branches, at)? {
            Branch::End(tri) => return Some(*tri),
            Branch::Test(clause, exits) => at = exits.of(clause.tell(values)),
        }
    }
    None
}
