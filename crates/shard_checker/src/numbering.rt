//! The atoms and the terms of a table, as certificates number them: share by share, in the order of first appearance.

ghost use Rattle.std.specs.Prelude.{◌≡◌, IfOk, OnOk, fold};
ghost use Rattle.filter_tree.specs.Lists.{with_item};
ghost use Rattle.filter_tree.specs.Same.{same_term, same_atom};
ghost use Rattle.filter_tree.specs.Shape.{atoms_view};
ghost use Rattle.replica_identity.specs.Shares.{share_view};
ghost use Rattle.shard_checker.specs.Numbering as spec;
ghost use Rattle.shard_checker.specs.Owners.{shares_view};

use filter_tree::{Atom, Term, add_atom, add_distinct, atoms_of, terms_of};
use replica_identity::Share;
use std::alloc::{AllocError, Allocator, Global};

fn add_atoms<'a, A: Allocator>(
    atoms: &mut Vec<&'a Atom<A>>,
    more: &[&'a Atom<A>],
) -> Result<(), AllocError>
    ensures { OnOk result (atoms_view atoms.new.items
        ≡ fold (with_item same_atom) (atoms_view atoms.old.items) (atoms_view more.now)) }
{
    for atom in more {
        add_atom(atoms, *atom)?;
    }
    Ok(())
}

fn add_share_atoms<'a, A: Allocator>(
    alloc: Global,
    atoms: &mut Vec<&'a Atom<A>>,
    share: &'a Share<A>,
) -> Result<(), AllocError>
    ensures { OnOk result (atoms_view atoms.new.items
        ≡ fold (with_item same_atom) (atoms_view atoms.old.items) (spec.share_atoms (share_view share.now))) }
{
    match share {
        Share::Nothing | Share::Everything => Ok(()),
        Share::Where(filter) => add_atoms(atoms, &atoms_of(alloc, filter)?),
    }
}

/// The atoms of the shares' filters, in the order of the numbers by which certificates name them: share by share, each
/// where it first appears. The only error is out of memory.
pub fn numbered_atoms<'a, A: Allocator>(
    alloc: Global,
    shares: &[&'a Share<A>],
) -> Result<Vec<&'a Atom<A>>, AllocError>
    ensures { IfOk result (λ atoms. atoms_view atoms.items ≡ spec.numbered_atoms (shares_view shares.now)) }
{
    let mut atoms = Vec::new(alloc);
    for share in shares {
        add_share_atoms(alloc, &mut atoms, *share)?;
    }
    Ok(atoms)
}

fn add_terms(terms: &mut Vec<Term>, more: &[Term]) -> Result<(), AllocError>
    ensures { OnOk result (terms.new.items ≡ fold (with_item same_term) terms.old.items more.now) }
{
    for term in more {
        add_distinct(terms, *term)?;
    }
    Ok(())
}

fn add_share_terms<A: Allocator>(
    alloc: Global,
    terms: &mut Vec<Term>,
    share: &Share<A>,
) -> Result<(), AllocError>
    ensures { OnOk result (terms.new.items
        ≡ fold (with_item same_term) terms.old.items (spec.share_terms (share_view share.now))) }
{
    match share {
        Share::Nothing | Share::Everything => Ok(()),
        Share::Where(filter) => add_terms(terms, &terms_of(alloc, filter)?),
    }
}

/// The terms of the shares' filters, in the order of the numbers by which certificates name them: share by share, each
/// where it first appears; `IS NULL` of a column counts as an appearance of that column. The only error is out of
/// memory.
pub fn numbered_terms<A: Allocator>(
    alloc: Global,
    shares: &[&Share<A>],
) -> Result<Vec<Term>, AllocError>
    ensures { IfOk result (λ terms. terms.items ≡ spec.numbered_terms (shares_view shares.now)) }
{
    let mut terms = Vec::new(alloc);
    for share in shares {
        add_share_terms(alloc, &mut terms, *share)?;
    }
    Ok(terms)
}
