//! The checks of nodes that name no owner: that the atom of a split exists, that a term has no value left, and that an
//! atom is never null.

ghost use Rattle.std.specs.Prelude.{◌≡◌, ◌<◌, length, slice_get, IfSome};
ghost use Rattle.filter_tree.specs.Paths.{path_view};
ghost use Rattle.shard_checker.specs.Checks.{Finds};
ghost use Rattle.shard_checker.specs.WalkInvariants.{WalkAgrees};
ghost use Rattle.shard_checker.specs.Refusal.{subject_view};
ghost use Rattle.shard_checker.specs.Candidates as trying;
ghost use Rattle.shard_checker.specs.Walking as spec;

use crate::error::CheckError;
use crate::nulls::is_never_null;
use crate::subject::{Subject, atom_at, term_at};
use crate::walk::Walk;
use split_cert::Node;
use std::alloc::Allocator;

/// Whether no value, not even null, is left for the term with this number at the end of the path.
fn is_empty<A: Allocator>(subject: &Subject<'_, A>, walk: &Walk<'_, A>, number: u32) -> bool
    requires agrees { WalkAgrees subject.now walk.now }
    requires there { number < length subject.now.terms.now }
    ensures { IfSome (slice_get subject.now.terms.now number)
        (λ term. result ≡ trying.is_empty subject.now.columns.now term (path_view walk.now.path.items)) }
{
    let places = &subject.candidates.of_terms[number as usize];
    !walk.remaining.places.meets(places)
}

/// Checks that the atom by which a node splits exists.
pub fn check_split<A: Allocator>(
    subject: &Subject<'_, A>,
    node: usize,
    number: u32,
) -> Result<(), CheckError>
    ensures { Finds
        (spec.known_atom (subject_view subject.now) node (slice_get (subject_view subject.now).atoms number)) result }
{
    match atom_at(subject.atoms, number) {
        None => Err(CheckError::BadIndex {
            table: subject.table,
            node,
        }),
        Some(_) => Ok(()),
    }
}

/// Checks a node that says that there are no rows there, since the term has no value.
pub fn check_empty<A: Allocator>(
    subject: &Subject<'_, A>,
    walk: &Walk<'_, A>,
    number: u32,
) -> Result<(), CheckError>
    requires { WalkAgrees subject.now walk.now }
    ensures { Finds
        (spec.node_refusal trying.is_empty (subject_view subject.now) (Node.Empty number)
        (path_view walk.now.path.items) walk.now.node) result }
{
    let table = subject.table;
    let node = walk.node;
    match term_at(subject.terms, number) {
        None => Err(CheckError::BadIndex { table, node }),
        Some(_) if is_empty(subject, walk, number) => Ok(()),
        Some(_) => Err(CheckError::NotEmpty { table, node }),
    }
}

/// Checks a node that says that there are no rows there, since the atom is never null.
pub fn check_never_null<A: Allocator>(
    subject: &Subject<'_, A>,
    walk: &Walk<'_, A>,
    number: u32,
) -> Result<(), CheckError>
    requires { WalkAgrees subject.now walk.now }
    ensures { Finds
        (spec.node_refusal trying.is_empty (subject_view subject.now) (Node.NeverNull number)
        (path_view walk.now.path.items) walk.now.node) result }
{
    let table = subject.table;
    let node = walk.node;
    match atom_at(subject.atoms, number) {
        None => Err(CheckError::BadIndex { table, node }),
        Some(atom) if is_never_null(subject, walk, number as usize, atom) => Ok(()),
        Some(_) => Err(CheckError::MayBeNull { table, node }),
    }
}
