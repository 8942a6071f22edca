//! Whether an atom was found to be null on a path.

ghost use Rattle.std.specs.Prelude.{◌≡◌, Some, slice_get};
ghost use Rattle.filter_tree.specs.Paths.{path_view};
ghost use Rattle.filter_tree.specs.Shape.{atom_view};
ghost use Rattle.shard_checker.specs.Facts as spec;
ghost use Rattle.shard_checker.specs.KnownAtoms.{null_at};
ghost use Rattle.shard_checker.specs.WalkInvariants.{WalkAgrees};
ghost use Rattle.shard_checker.specs.Refusal.{subject_view};

use crate::facts::cannot_be_null;
use crate::subject::Subject;
use crate::walk::Walk;
use filter_tree::{Atom, Tri};
use std::alloc::Allocator;

/// Whether the entry at this place of the path has the atom of this number, with the value null. Atoms are compared by
/// their numbers.
fn is_null_at<A: Allocator>(walk: &Walk<'_, A>, place: usize, number: usize) -> bool
    ensures { result ≡ null_at number (slice_get walk.now.known.undos.items place)
        (slice_get (path_view walk.now.path.items) place) }
{
    match (walk.known.undos.get(place), walk.path.get(place)) {
        (Some(before), Some((_, value))) => {
            before.number as usize == number && matches!(*value, Tri::Null)
        }
        (Some(_) | None, _) => false,
    }
}

/// Whether the path has the atom of this number with the value null.
#[tactic(auto, using(crate::proofs::NullLemmas::nulls))]
fn has_null<A: Allocator>(
    subject: &Subject<'_, A>,
    walk: &Walk<'_, A>,
    number: usize,
    atom: &Atom<A>,
) -> bool
    requires ready { WalkAgrees subject.now walk.now }
    requires atom { slice_get (subject_view subject.now).atoms number ≡ Some (atom_view atom.now) }
    ensures { result ≡ spec.has_null (atom_view atom.now) (path_view walk.now.path.items) }
{
    for place in 0..walk.path.len() {
        if is_null_at(walk, place, number) {
            return true;
        }
    }
    false
}

/// Whether the path has the atom of this number with the value null, which it cannot have.
pub fn is_never_null<A: Allocator>(
    subject: &Subject<'_, A>,
    walk: &Walk<'_, A>,
    number: usize,
    atom: &Atom<A>,
) -> bool
    requires ready { WalkAgrees subject.now walk.now }
    requires atom { slice_get (subject_view subject.now).atoms number ≡ Some (atom_view atom.now) }
    ensures { result ≡ spec.is_never_null subject.now.columns.now (atom_view atom.now)
        (path_view walk.now.path.items) }
{
    has_null(subject, walk, number, atom) && cannot_be_null(subject.columns, atom)
}
