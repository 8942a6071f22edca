//! The parts of filters, each once.

ghost use Rattle.std.specs.Prelude.{◌≡◌, IfOk, OnOk, fold};
ghost use Rattle.filter_tree.specs.Shape.{atom_view, atoms_view, expr_view};
ghost use Rattle.filter_tree.specs.Same.{same_atom};
ghost use Rattle.filter_tree.specs.Lists.{with_item, atoms_in};
ghost use Rattle.filter_tree.specs.Lists.{distinct_atoms, distinct_terms, distinct_columns, IsDeterminedBy};
ghost use Rattle.filter_tree.specs.Once.{DistinctIsOnce};

use crate::distinct::add_distinct;
use crate::filter::{Atom, Filter, Term};
use std::alloc::{AllocError, Allocator};

/// The atoms of the filter, each once, in the order of first appearance from left to right. The only error is out of
/// memory.
pub fn atoms_of<'a, A: Allocator, B: Allocator>(
    alloc: B,
    filter: &'a Filter<A>,
) -> Result<Vec<&'a Atom<A>, B>, AllocError>
    ensures { IfOk result (λ atoms. atoms_view atoms.items ≡ distinct_atoms (expr_view filter.now)) }
{
    let mut atoms = Vec::new(alloc);
    add_atoms(&mut atoms, filter)?;
    Ok(atoms)
}

/// Adds the filter's atoms that the list lacks, in the order of first appearance. The only error is out of memory.
pub fn add_atoms<'a, A: Allocator, B: Allocator>(
    atoms: &mut Vec<&'a Atom<A>, B>,
    filter: &'a Filter<A>,
) -> Result<(), AllocError>
    ensures { OnOk result (atoms_view atoms.new.items
        ≡ fold (with_item same_atom) (atoms_view atoms.old.items) (atoms_in (expr_view filter.now))) }
{
    match filter {
        Filter::Const(_) => Ok(()),
        Filter::Atom(atom) => add_atom(atoms, atom),
        Filter::Not(part) | Filter::Is(_, part) => add_atoms(atoms, part),
        Filter::And(left, right) | Filter::Or(left, right) => {
            add_atoms(atoms, left)?;
            add_atoms(atoms, right)
        }
    }
}

/// Adds the atom at the end of the list, unless the list already has it. The only error is out of memory.
pub fn add_atom<'a, A: Allocator, B: Allocator>(
    atoms: &mut Vec<&'a Atom<A>, B>,
    atom: &'a Atom<A>,
) -> Result<(), AllocError>
    ensures { OnOk result (atoms_view atoms.new.items
        ≡ with_item same_atom (atoms_view atoms.old.items) (atom_view atom.now)) }
{
    add_distinct(atoms, atom)?;
    Ok(())
}

/// The terms of the filter's atoms, each once, in the order of first appearance; `IS NULL` counts as an appearance of
/// its column. The only error is out of memory.
pub fn terms_of<A: Allocator, B: Allocator + Clone>(
    alloc: B,
    filter: &Filter<A>,
) -> Result<Vec<Term, B>, AllocError>
    ensures { IfOk result (λ terms. terms.items ≡ distinct_terms (expr_view filter.now)) }
{
    let atoms = atoms_of(alloc.clone()?, filter)?;
    let mut terms = Vec::new(alloc);
    for atom in &atoms {
        add_distinct(&mut terms, atom.term())?;
    }
    Ok(terms)
}

/// The columns that the filter names, each once, in the order of first appearance. Rows that agree on them have the
/// same meaning under the filter. The only error is out of memory.
pub fn columns_of<A: Allocator, B: Allocator + Clone>(
    alloc: B,
    filter: &Filter<A>,
) -> Result<Vec<usize, B>, AllocError>
    ensures list { IfOk result (λ columns. columns.items ≡ distinct_columns (expr_view filter.now)) }
    ensures determined { IfOk result (λ columns. IsDeterminedBy (expr_view filter.now) columns.items) }
{
    let atoms = atoms_of(alloc.clone()?, filter)?;
    let mut columns = Vec::new(alloc);
    for atom in &atoms {
        add_distinct(&mut columns, atom.term().column())?;
    }
    Ok(columns)
}

/// A law about lists of the parts of filters, by whose places certificates name atoms and terms: a function without an
/// effect whose contract states it. If a list is given each part, and skips those that it has, it has each part once:
/// no two are the same, none is lost and none is new, and what first appears before another comes before it.
/// `atoms_of`, `terms_of` and `columns_of` return such lists.
///
/// PostgreSQL 15, "Logical Replication", 31.3 Row Filters.
#[tactic(auto, using(crate::proofs::OnceLemmas::distinct_once))]
pub fn parts_come_once()
    ensures { DistinctIsOnce }
{}
