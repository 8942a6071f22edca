//! What the atoms on a path say about the rows there. The path of a node has each atom that was split by on the way to
//! it, with its value there.

ghost use Rattle.std.specs.Prelude.{◌≡◌, ◌||◌};
ghost use Rattle.filter_tree.specs.Expr.{term_of};
ghost use Rattle.filter_tree.specs.Lists.{column_of};
ghost use Rattle.filter_tree.specs.Shape.{atom_view};
ghost use Rattle.shard_checker.specs.Facts as spec;

use filter_tree::{Atom, Column, Tri};
use std::alloc::Allocator;

/// Whether the atom has this value only if its column is null.
fn tells_null<A: Allocator>(atom: &Atom<A>, value: Tri) -> bool
    ensures { result ≡ spec.tells_null (atom_view atom.now) value }
{
    match atom {
        Atom::Cmp(..) | Atom::In(..) | Atom::Between(..) => matches!(value, Tri::Null),
        Atom::IsNull(_) => matches!(value, Tri::True),
        Atom::Distinct(..) => false,
    }
}

/// Whether the atom has this value only if its column is not null.
fn tells_present<A: Allocator>(atom: &Atom<A>, value: Tri) -> bool
    ensures { result ≡ spec.tells_present (atom_view atom.now) value }
{
    match atom {
        Atom::Cmp(..) | Atom::In(..) | Atom::Between(..) => {
            matches!(value, Tri::True | Tri::False)
        }
        Atom::IsNull(_) | Atom::Distinct(..) => matches!(value, Tri::False),
    }
}

/// Whether the atom with this value says that the column is null.
pub fn says_null<A: Allocator>(column: usize, atom: &Atom<A>, value: Tri) -> bool
    ensures { result ≡ spec.says_null column (atom_view atom.now) value }
{
    tells_null(atom, value) && atom.term().column() == column
}

/// Whether the atom with this value says that the column is not null.
pub fn says_present<A: Allocator>(column: usize, atom: &Atom<A>, value: Tri) -> bool
    ensures { result ≡ spec.says_present column (atom_view atom.now) value }
{
    tells_present(atom, value) && atom.term().column() == column
}

/// Whether the column is declared NOT NULL.
pub fn is_declared(columns: &[Column], column: usize) -> bool
    ensures { result ≡ spec.is_declared columns.now column }
{
    match columns.get(column) {
        None => false,
        Some(column) => column.not_null,
    }
}

/// Whether the atom is true or false for each value, and for null.
fn is_always_known<A: Allocator>(atom: &Atom<A>) -> bool
    ensures { result ≡ spec.is_always_known (atom_view atom.now) }
{
    match atom {
        Atom::IsNull(_) | Atom::Distinct(..) => true,
        Atom::Cmp(..) | Atom::In(..) | Atom::Between(..) => false,
    }
}

/// Whether the atom is never null: it is an `IS NULL` or an `IS DISTINCT FROM`, or its column is declared NOT NULL.
pub fn cannot_be_null<A: Allocator>(columns: &[Column], atom: &Atom<A>) -> bool
    ensures { result ≡ (spec.is_always_known (atom_view atom.now)
        || spec.is_declared columns.now (column_of (term_of (atom_view atom.now)))) }
{
    is_always_known(atom) || is_declared(columns, atom.term().column())
}
