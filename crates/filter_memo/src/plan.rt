//! The branches of the filters of a memo.

ghost use Rattle.std.specs.Prelude.{◌≡◌, ◌++◌, ◌∷◌, [], IfOk, IfSome, OnOk};
ghost use Rattle.filter_tree.specs.Shape.{expr_view};
ghost use Rattle.filter_memo.specs.Plans as spec;
ghost use Rattle.filter_memo.specs.Plans.{filter_view, filters_view};

use crate::branches::{Branch, Exits, add_test};
use crate::clause::Clause;
use crate::parts::find_part;
use filter_tree::{Filter, Tri};
use std::alloc::{AllocError, Global};

/// The branches of filters, and for each filter the branch at which it begins.
#[derive(Drop)]
pub struct Plan {
    pub branches: Vec<Branch>,
    pub starts: Vec<usize>,
}

/// Why there is no plan.
#[derive(Clone, Copy, Debug, PartialEq, Eq)]
enum NoPlan {
    /// An atom has no number.
    Unnumbered,
    OutOfMemory,
}

impl From<AllocError> for NoPlan {
    fn from(_error: AllocError) -> NoPlan {
        NoPlan::OutOfMemory
    }
}

/// The filter, or its negation, as a clause; `None` if it is none.
#[tactic(auto, using(crate::proofs::Rules::clauses_of_parts))]
fn clause_of(parts: &[Filter], filter: &Filter, is_negated: bool) -> Option<Clause>
    ensures { IfSome result (spec.IsClauseOf parts.now (expr_view filter.now) is_negated) }
{
    match filter {
        Filter::Atom(atom) => Some(Clause::literal(find_part(parts, atom)?, is_negated)),
        Filter::Not(part) => clause_of(parts, part, !is_negated),
        Filter::Or(left, right) if !is_negated => {
            let left = clause_of(parts, left, is_negated)?;
            let right = clause_of(parts, right, is_negated)?;
            Some(left.or(right))
        }
        Filter::And(left, right) if is_negated => {
            let left = clause_of(parts, left, is_negated)?;
            let right = clause_of(parts, right, is_negated)?;
            Some(left.or(right))
        }
        Filter::Const(_) | Filter::And(_, _) | Filter::Or(_, _) | Filter::Is(_, _) => None,
    }
}

/// Adds the branches of a filter, which lead to the exit of its truth value, and returns the first of them. They are
/// added from the last one to the first. If a side is null, the other side leads elsewhere, so it has branches of its
/// own.
#[tactic(auto, using(crate::proofs::Rules::branches_of_parts))]
fn add_branches(
    parts: &[Filter],
    branches: &mut Vec<Branch>,
    filter: &Filter,
    exits: Exits,
) -> Result<usize, NoPlan>
    ensures { IfOk result (spec.IsAdded parts.now (expr_view filter.now) exits branches.old.items branches.new.items) }
{
    if exits.lead_to_one() {
        return Ok(exits.on_true);
    }
    if let Some(clause) = clause_of(parts, filter, false) {
        return Ok(add_test(branches, clause, exits)?);
    }
    if let Some(clause) = clause_of(parts, filter, true) {
        return Ok(add_test(branches, clause, exits.negated())?);
    }
    match filter {
        Filter::Const(known) => Ok(exits.of(Tri::from(*known))),
        Filter::Atom(_) => Err(NoPlan::Unnumbered),
        Filter::Not(part) => add_branches(parts, branches, part, exits.negated()),
        Filter::Is(test, part) => add_branches(parts, branches, part, exits.asked(*test)),
        Filter::And(left, right) => {
            let second = add_branches(parts, branches, right, exits)?;
            if exits == exits.of_null_and() {
                return add_branches(parts, branches, left, exits.of_first_and(second, second));
            }
            let other = add_branches(parts, branches, right, exits.of_null_and())?;
            add_branches(parts, branches, left, exits.of_first_and(second, other))
        }
        Filter::Or(left, right) => {
            let second = add_branches(parts, branches, right, exits)?;
            if exits == exits.of_null_or() {
                return add_branches(parts, branches, left, exits.of_first_or(second, second));
            }
            let other = add_branches(parts, branches, right, exits.of_null_or())?;
            add_branches(parts, branches, left, exits.of_first_or(second, other))
        }
    }
}

/// Adds the branches of a filter, if there is one, and returns the first of them.
#[tactic(auto, using(crate::proofs::Planning::no_start, crate::proofs::Planning::one_start))]
fn add_start(
    parts: &[Filter],
    branches: &mut Vec<Branch>,
    filter: Option<&Filter>,
) -> Result<usize, NoPlan>
    ensures { IfOk result (spec.IsStart parts.now (filter_view filter.entry) branches.old.items branches.new.items) }
{
    match filter {
        None => Ok(0),
        Some(filter) => add_branches(
            parts,
            branches,
            filter,
            Exits {
                on_true: 0,
                on_false: 1,
                on_null: 2,
            },
        ),
    }
}

fn push_start(starts: &mut Vec<usize>, start: usize) -> Result<(), AllocError>
    ensures { OnOk result (starts.new.items ≡ starts.old.items ++ start ∷ []) }
{
    starts.push(start)?;
    Ok(())
}

/// The first branches of the filters, whose branches are added.
fn starts_of(
    alloc: Global,
    parts: &[Filter],
    branches: &mut Vec<Branch>,
    filters: &[Option<&Filter>],
) -> Result<Vec<usize>, NoPlan>
    requires { spec.HasEnds branches.old.items }
    ensures { IfOk result (λ starts.
        spec.ArePlans parts.now (filters_view filters.now) branches.new.items starts.items) }
{
    let mut starts = Vec::with_capacity(alloc, filters.len())?;
    for filter in filters {
        let start = add_start(parts, branches, *filter)?;
        push_start(&mut starts, start)?;
    }
    Ok(starts)
}

/// The three branches with which a plan begins.
fn ends_of(alloc: Global) -> Result<Vec<Branch>, AllocError>
    ensures { IfOk result (λ branches. spec.HasEnds branches.items) }
{
    let mut branches = Vec::new(alloc);
    branches.push(Branch::End(Tri::True))?;
    branches.push(Branch::End(Tri::False))?;
    branches.push(Branch::End(Tri::Null))?;
    Ok(branches)
}

fn new_plan(alloc: Global, parts: &[Filter], filters: &[Option<&Filter>]) -> Result<Plan, NoPlan>
    ensures { IfOk result (λ plan.
        spec.ArePlans parts.now (filters_view filters.now) plan.branches.items plan.starts.items) }
{
    let mut branches = ends_of(alloc)?;
    let starts = starts_of(alloc, parts, &mut branches, filters)?;
    Ok(Plan { branches, starts })
}

/// The plan of filters, unless one of their atoms has no number. The only error is out of memory.
pub fn plan_of(
    alloc: Global,
    parts: &[Filter],
    filters: &[Option<&Filter>],
) -> Result<Option<Plan>, AllocError>
    ensures { IfOk result (λ found. IfSome found (λ plan.
        spec.ArePlans parts.now (filters_view filters.now) plan.branches.items plan.starts.items)) }
{
    match new_plan(alloc, parts, filters) {
        Ok(plan) => Ok(Some(plan)),
        Err(NoPlan::Unnumbered) => Ok(None),
        Err(NoPlan::OutOfMemory) => Err(AllocError),
    }
}
