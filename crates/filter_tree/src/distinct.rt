//! Lists that have each item only once.

ghost use Rattle.std.specs.Prelude.{◌≡◌, OnOk, Bool, nat_eq};
ghost use Rattle.std.specs.List.{list_any};
ghost use Rattle.filter_tree.specs.Lists.{with_item};
ghost use Rattle.filter_tree.specs.Same.{same_atom as same_atom_of, same_term as same_term_of};
ghost use Rattle.filter_tree.specs.Shape.{atom_view};

use crate::filter::{Atom, Term};
use crate::same::{same_atom, same_term};
use std::alloc::{AllocError, Allocator};

/// Items that can be told apart.
pub trait Distinct {
    ghost same: { Self → Self → Bool };

    /// Whether this is the same item.
    fn is(&self, other: &Self) -> bool
        ensures { result ≡ same self.now other.now };
}

impl<A: Allocator> Distinct for &Atom<A> {
    ghost same = { λ one other. same_atom_of (atom_view one.now) (atom_view other.now) };

    fn is(&self, other: &Self) -> bool {
        same_atom(*self, *other)
    }
}

impl Distinct for Term {
    ghost same = { same_term_of };

    fn is(&self, other: &Self) -> bool {
        same_term(*self, *other)
    }
}

impl Distinct for usize {
    ghost same = { nat_eq };

    fn is(&self, other: &Self) -> bool {
        *self == *other
    }
}

fn has<T: Distinct>(items: &[T], item: &T) -> bool
    ensures { result ≡ list_any (T.same item.now) items.now }
{
    for held in items {
        if item.is(held) {
            return true;
        }
    }
    false
}

/// Adds the item at the end of the list, unless the list already has it. The only error is out of memory.
pub fn add_distinct<T: Distinct + Drop, A: Allocator>(
    items: &mut Vec<T, A>,
    item: T,
) -> Result<(), AllocError>
    ensures { OnOk result (items.new.items ≡ with_item T.same items.old.items item) }
{
    if has(items, &item) {
        return Ok(());
    }
    items.push(item)?;
    Ok(())
}
