//! What a certificate is about.

ghost use Rattle.std.specs.Prelude.{◌≡◌, slice_get};
ghost use Rattle.std.specs.Option.{option_map};
ghost use Rattle.filter_tree.specs.Shape.{atom_view, atoms_view};

use crate::candidate_sets::CandidateSets;
use crate::formulas::Formulas;
use filter_tree::{Atom, Column, TableNumber, Term};
use replica_identity::Share;
use std::alloc::Allocator;

/// A table, by its number and its columns, the share of each subscriber, and the atoms and the terms that certificates
/// name by their numbers.
#[derive(Drop)]
pub struct Subject<'a, A: Allocator> {
    pub table: TableNumber,
    pub columns: &'a [Column],
    pub shares: &'a [&'a Share<A>],
    pub atoms: &'a [&'a Atom<A>],
    pub terms: &'a [Term],
    /// The shares' filters.
    pub formulas: &'a Formulas,
    /// What is tried for the terms.
    pub candidates: &'a CandidateSets,
}

/// The atom with this number.
#[tactic(auto, using(crate::proofs::PlaceLemmas::places))]
pub fn atom_at<'a, A: Allocator>(atoms: &[&'a Atom<A>], number: u32) -> Option<&'a Atom<A>>
    ensures { option_map (λ atom. atom_view atom.now) result ≡ slice_get (atoms_view atoms.now) number }
{
    match atoms.get(number as usize) {
        None => None,
        Some(atom) => Some(*atom),
    }
}

/// The term with this number.
pub fn term_at(terms: &[Term], number: u32) -> Option<Term>
    ensures { result ≡ slice_get terms.now number }
{
    terms.get(number as usize).copied()
}
