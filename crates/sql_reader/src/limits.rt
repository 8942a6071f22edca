//! The limits on the filters of a table.

ghost use Rattle.std.specs.Prelude.{◌≡◌, ◌+◌, IfOk, IsTrue, OnOk, fold, length, nat_lt};
ghost use Rattle.filter_tree.specs.Shape.{atoms_view, expr_view};
ghost use Rattle.sql_reader.specs.Limits.{expr_nodes, all_nodes, distinct_count, exprs_view};
ghost use Rattle.sql_reader.specs.Limits.{exceeded as exceeded_of};
ghost use Rattle.sql_reader.specs.Counting.{AreWithin, atoms_backwards, gathered, left_after};

use crate::error::Limit;
use filter_tree::{Atom, Filter, add_atom};
use std::alloc::{AllocError, Global};

/// How many distinct atoms the filters of a table may have together.
const MAX_ATOMS: usize = 64;

/// How many nodes the filters of a table may have together. Each constant, atom, NOT, AND, OR and IS test is a node.
const MAX_NODES: usize = 1000;

/// Which limit the filters of a table exceed together, if any. Atoms are checked first. The only error is out of
/// memory. A filter may be a chain of ANDs and ORs of any length that leans to the left; stack is used only for its
/// right parts, and for at most `MAX_NODES` links.
#[tactic(auto, unfolding(crate::specs::Limits::exceeded))]
pub fn exceeded_limit<'a>(
    alloc: Global,
    filters: &[&'a Filter],
) -> Result<Option<Limit>, AllocError>
    ensures { IfOk result (λ found. found ≡ exceeded_of (exprs_view filters.now)) }
{
    if are_few(filters) {
        return Ok(None);
    }
    if has_too_many_atoms(alloc, filters)? {
        return Ok(Some(Limit::Atoms));
    }
    if has_too_many_nodes(filters) {
        return Ok(Some(Limit::Nodes));
    }
    Ok(None)
}

/// Whether the filters are so small that they exceed no limit even if all their atoms differ: twice the atoms of a
/// filter are at most its nodes and one more. No atoms are compared.
#[tactic(auto, using(crate::proofs::CountingLemmas::few))]
fn are_few(filters: &[&Filter]) -> bool
    ensures { IsTrue result → AreWithin (exprs_view filters.now) }
{
    let mut left = 2 * MAX_ATOMS;
    for filter in filters {
        match room_after(*filter, left) {
            Some(rest) => left = rest,
            None => return false,
        }
    }
    true
}

/// How many of `left` places remain after the nodes of the filter and one more; `None` if there are not enough.
fn room_after(filter: &Filter, left: usize) -> Option<usize>
    ensures { result ≡ left_after (expr_nodes (expr_view filter.now) + 1) left }
{
    nodes_left(filter, left)?.checked_sub(1)
}

#[tactic(auto, using(std::proofs::lemmas::Grind::common_steps, crate::proofs::CountingLemmas::gathered_passes))]
fn has_too_many_atoms<'a>(alloc: Global, filters: &[&'a Filter]) -> Result<bool, AllocError>
    ensures { IfOk result (λ many. many ≡ nat_lt 64 (distinct_count (exprs_view filters.now))) }
{
    let mut atoms = Vec::new(alloc);
    for filter in filters {
        gather_atoms(&mut atoms, *filter)?;
    }
    Ok(are_too_many(&atoms))
}

fn are_too_many(atoms: &[&Atom]) -> bool
    ensures { result ≡ nat_lt 64 (length (atoms_view atoms.now)) }
{
    atoms.len() > MAX_ATOMS
}

/// Walks down the left side in a loop, and into the right parts by recursion. It stops when the list is too long, so
/// each atom is compared with at most `MAX_ATOMS` others.
#[tactic(auto, using(crate::proofs::CountingLemmas::full_stays))]
fn gather_atoms<'a>(atoms: &mut Vec<&'a Atom, Global>, filter: &'a Filter) -> Result<(), AllocError>
    ensures { OnOk result (atoms_view atoms.new.items
        ≡ fold gathered (atoms_view atoms.old.items) (atoms_backwards (expr_view filter.now))) }
{
    let mut part = filter;
    loop {
        if are_too_many(atoms) {
            return Ok(());
        }
        match part {
            Filter::Const(_) => return Ok(()),
            Filter::Atom(atom) => return add_atom(atoms, atom),
            Filter::Not(inner) | Filter::Is(_, inner) => part = inner,
            Filter::And(left, right) | Filter::Or(left, right) => {
                gather_atoms(atoms, right)?;
                part = left;
            }
        }
    }
}

fn has_too_many_nodes(filters: &[&Filter]) -> bool
    ensures { result ≡ nat_lt 1000 (all_nodes (exprs_view filters.now)) }
{
    let mut left = MAX_NODES;
    for filter in filters {
        match nodes_left(*filter, left) {
            Some(rest) => left = rest,
            None => return true,
        }
    }
    false
}

/// How many of `left` nodes remain after the nodes of the filter; `None` if the filter has more. So it takes at most
/// `left` steps.
#[tactic(auto, using(crate::proofs::CountingLemmas::nodes_positive))]
fn nodes_left(filter: &Filter, left: usize) -> Option<usize>
    ensures { result ≡ left_after (expr_nodes (expr_view filter.now)) left }
{
    let rest = left.checked_sub(1)?;
    match filter {
        Filter::Const(_) | Filter::Atom(_) => Some(rest),
        Filter::Not(part) | Filter::Is(_, part) => nodes_left(part, rest),
        Filter::And(one, other) | Filter::Or(one, other) => {
            nodes_left(other, nodes_left(one, rest)?)
        }
    }
}
