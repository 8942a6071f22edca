ghost use Rattle.std.specs.Prelude.{◌≡◌, List, IsTrue};
ghost use Rattle.filter_tree.specs.Datum.{Datum};
ghost use Rattle.filter_tree.specs.Expr.{meaning};
ghost use Rattle.filter_tree.specs.Expr as expr;
ghost use Rattle.filter_tree.specs.Shape.{atom_view, expr_view};
ghost use Rattle.filter_tree.specs.Mask.{member};
ghost use Rattle.filter_tree.specs.Paths.{path_view, Agrees, first_value, possible_of};

use crate::filter::{Atom, Filter};
use crate::mask::Mask;
use crate::same::same_atom;
use crate::tri::Tri;
use std::alloc::Allocator;

/// The truth values that the filter may have on the rows on which each atom of the path has its value there. If an atom
/// is in the path twice, the first entry counts.
#[tactic(auto, using(crate::proofs::PossibleLemmas::possible_holds))]
pub fn possible<A: Allocator>(filter: &Filter<A>, path: &[(&Atom<A>, Tri)]) -> Mask
    ensures set { result ≡ possible_of (expr_view filter.now) (path_view path.now) }
    ensures sound { (row : List Datum) → Agrees row (path_view path.now)
        → IsTrue (member result (meaning (expr_view filter.now) row)) }
{
    mask_of(filter, path)
}

/// As `possible`. A part whose value can no longer matter is not looked at.
#[tactic(auto, using(crate::proofs::PossibleLemmas::both_false, crate::proofs::PossibleLemmas::either_true))]
fn mask_of<A: Allocator>(filter: &Filter<A>, path: &[(&Atom<A>, Tri)]) -> Mask
    ensures { result ≡ possible_of (expr_view filter.now) (path_view path.now) }
{
    match filter {
        Filter::Const(known) => Mask::single(Tri::from(*known)),
        Filter::Atom(atom) => mask_of_atom(atom, path),
        Filter::Not(part) => mask_of(part, path).not(),
        Filter::And(left, right) => {
            let mask = mask_of(left, path);
            if mask == Mask::single(Tri::False) {
                return mask;
            }
            mask.and(mask_of(right, path))
        }
        Filter::Or(left, right) => {
            let mask = mask_of(left, path);
            if mask == Mask::single(Tri::True) {
                return mask;
            }
            mask.or(mask_of(right, path))
        }
        Filter::Is(test, part) => mask_of(part, path).is(*test),
    }
}

fn mask_of_atom<A: Allocator>(atom: &Atom<A>, path: &[(&Atom<A>, Tri)]) -> Mask
    ensures { result ≡ possible_of (expr.Atom (atom_view atom.now)) (path_view path.now) }
{
    match (value_on_path(atom, path), atom) {
        (Some(value), _) => Mask::single(value),
        (None, Atom::Cmp(..) | Atom::In(..) | Atom::Between(..)) => Mask {
            truth: true,
            falsity: true,
            null: true,
        },
        (None, Atom::IsNull(_) | Atom::Distinct(..)) => Mask {
            truth: true,
            falsity: true,
            null: false,
        },
    }
}

fn value_on_path<A: Allocator>(atom: &Atom<A>, path: &[(&Atom<A>, Tri)]) -> Option<Tri>
    ensures { result ≡ first_value (atom_view atom.now) (path_view path.now) }
{
    for (tested, value) in path {
        if same_atom(atom, *tested) {
            return Some(*value);
        }
    }
    None
}
