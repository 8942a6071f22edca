//! Which candidates an atom with a value leaves. This is computed once for a table, so that a walk looks at no
//! constants.

ghost use Rattle.std.specs.Prelude.{◌≡◌, Some, IfOk, OnOk};
ghost use Rattle.filter_tree.specs.Mask.{mask_where};
ghost use Rattle.filter_tree.specs.Shape.{atom_view, atoms_view};
ghost use Rattle.shard_checker.specs.Candidates as candidates_spec;
ghost use Rattle.shard_checker.specs.Candidates.{candidate_view, candidates_view, tried_view};
ghost use Rattle.shard_checker.specs.CandidateSets as spec;
ghost use Rattle.shard_checker.specs.Members.{AreMembersOf};

use crate::bit_sets::BitSet;
use crate::candidates::{Candidate, Tried, candidates_in};
use crate::facts::{says_null, says_present};
use crate::members::Members;
use crate::values::{holds, is_about};
use filter_tree::{Atom, Column, Mask, Term, Tri, same_term};
use std::alloc::{AllocError, Allocator, Global};

/// The candidates that an atom leaves, by their places, for each of its values.
#[derive(Drop)]
pub struct AtomSets {
    pub if_true: BitSet,
    pub if_false: BitSet,
    pub if_null: BitSet,
}

/// The candidates of a table's terms as sets of their places.
#[derive(Drop)]
pub struct CandidateSets {
    /// How many candidates there are.
    pub count: usize,
    /// What each atom leaves, by its number.
    pub of_atoms: Vec<AtomSets>,
    /// The candidates of each term, by its number.
    pub of_terms: Vec<BitSet>,
}

/// The values of the atom that leave null for its term.
fn mask_of_null<A: Allocator>(term: Term, atom: &Atom<A>) -> Mask
    ensures { result ≡ mask_where (candidates_spec.leaves_null term (atom_view atom.now)) }
{
    let column = term.column();
    Mask {
        truth: !says_present(column, atom, Tri::True),
        falsity: !says_present(column, atom, Tri::False),
        null: !says_present(column, atom, Tri::Null),
    }
}

/// The values of the atom that leave the value for the term.
fn mask_of_value<A: Allocator>(
    term: Term,
    value: Tried<'_>,
    atom: &Atom<A>,
    members: &Members<'_>,
) -> Mask
    requires { AreMembersOf (atom_view atom.now) members.now }
    ensures { result ≡ mask_where (candidates_spec.leaves_value term (tried_view value.entry) (atom_view atom.now)) }
{
    let column = term.column();
    let is_about = is_about(term, atom);
    let holds = is_about && holds(atom, members, value);
    Mask {
        truth: !says_null(column, atom, Tri::True) && (!is_about || holds),
        falsity: !says_null(column, atom, Tri::False) && !holds,
        null: !says_null(column, atom, Tri::Null),
    }
}

/// The values of the atom that leave the candidate.
fn mask_of<A: Allocator>(candidate: Candidate<'_>, atom: &Atom<A>, members: &Members<'_>) -> Mask
    requires { AreMembersOf (atom_view atom.now) members.now }
    ensures { result
        ≡ mask_where (candidates_spec.leaves_candidate (candidate_view candidate.entry) (atom_view atom.now)) }
{
    match candidate.value {
        None => mask_of_null(candidate.term, atom),
        Some(value) => mask_of_value(candidate.term, value, atom, members),
    }
}

impl AtomSets {
    /// No candidates.
    fn new(alloc: Global) -> AtomSets
        ensures { spec.AreEmpty result }
    {
        AtomSets {
            if_true: BitSet::new(alloc),
            if_false: BitSet::new(alloc),
            if_null: BitSet::new(alloc),
        }
    }

    /// Puts the candidate at this place into the sets of these values.
    fn put(&mut self, place: usize, mask: Mask) -> Result<(), AllocError>
        ensures { OnOk result (spec.PutsAll self.old self.new place mask) }
    {
        self.if_true.put(place, mask.truth)?;
        self.if_false.put(place, mask.falsity)?;
        self.if_null.put(place, mask.null)?;
        Ok(())
    }

    /// What the atom with this value leaves.
    pub fn at(&self, value: Tri) -> &BitSet
        ensures { result.now ≡ spec.set_at self.now value }
    {
        match value {
            Tri::True => &self.if_true,
            Tri::False => &self.if_false,
            Tri::Null => &self.if_null,
        }
    }
}

/// The constants of the atom's list; an atom of another form has none.
fn members_of<'a, A: Allocator>(alloc: Global, atom: &'a Atom<A>) -> Result<Members<'a>, AllocError>
    ensures { IfOk result (λ members. AreMembersOf (atom_view atom.now) members) }
{
    match atom {
        Atom::In(_, constants) => Members::of_list(alloc, constants),
        Atom::Cmp(..) | Atom::IsNull(_) | Atom::Between(..) | Atom::Distinct(..) => {
            Ok(Members::new(alloc))
        }
    }
}

/// What the atom leaves of the candidates.
fn sets_of_atom<A: Allocator>(
    alloc: Global,
    candidates: &[Candidate<'_>],
    atom: &Atom<A>,
) -> Result<AtomSets, AllocError>
    ensures { IfOk result (λ sets.
        spec.AreAtomSets (candidates_view candidates.now) (atom_view atom.now) sets) }
{
    let members = members_of(alloc, atom)?;
    let mut sets = AtomSets::new(alloc);
    for (place, candidate) in candidates.iter().enumerate() {
        sets.put(place, mask_of(*candidate, atom, &members))?;
    }
    Ok(sets)
}

/// The candidates of the term.
fn set_of_term(
    alloc: Global,
    candidates: &[Candidate<'_>],
    term: Term,
) -> Result<BitSet, AllocError>
    ensures { IfOk result (λ set. spec.IsTermSet (candidates_view candidates.now) term set) }
{
    let mut set = BitSet::new(alloc);
    for (place, candidate) in candidates.iter().enumerate() {
        set.put(place, same_term(candidate.term, term))?;
    }
    Ok(set)
}

/// What each atom leaves of the candidates.
fn sets_of_atoms<A: Allocator>(
    alloc: Global,
    candidates: &[Candidate<'_>],
    atoms: &[&Atom<A>],
) -> Result<Vec<AtomSets>, AllocError>
    ensures { IfOk result (λ sets.
        spec.AreSetsOfAtoms (candidates_view candidates.now) (atoms_view atoms.now) sets.items) }
{
    let mut sets = Vec::new(alloc);
    for atom in atoms {
        sets.push(sets_of_atom(alloc, candidates, *atom)?)?;
    }
    Ok(sets)
}

/// The candidates of each term.
fn sets_of_terms(
    alloc: Global,
    candidates: &[Candidate<'_>],
    terms: &[Term],
) -> Result<Vec<BitSet>, AllocError>
    ensures { IfOk result (λ sets.
        spec.AreSetsOfTerms (candidates_view candidates.now) terms.now sets.items) }
{
    let mut sets = Vec::new(alloc);
    for term in terms {
        sets.push(set_of_term(alloc, candidates, *term)?)?;
    }
    Ok(sets)
}

impl CandidateSets {
    /// The sets for a table with these columns, atoms and terms. The only error is out of memory.
    pub fn new<A: Allocator>(
        alloc: Global,
        columns: &[Column],
        atoms: &[&Atom<A>],
        terms: &[Term],
    ) -> Result<CandidateSets, AllocError>
        ensures { IfOk result (λ sets. spec.AreCandidateSets
            (candidates_spec.candidates_in columns.now (atoms_view atoms.now) terms.now)
            (atoms_view atoms.now) terms.now sets) }
    {
        let candidates = candidates_in(alloc, columns, atoms, terms)?;
        Ok(CandidateSets {
            count: candidates.len(),
            of_atoms: sets_of_atoms(alloc, &candidates, atoms)?,
            of_terms: sets_of_terms(alloc, &candidates, terms)?,
        })
    }
}
