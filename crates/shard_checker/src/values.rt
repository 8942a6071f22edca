//! Whether an atom is true for a value.

ghost use Rattle.std.specs.Prelude.{◌≡◌, ◌&&◌, Some};
ghost use Rattle.filter_tree.specs.Datum.{Number, Bytes};
ghost use Rattle.filter_tree.specs.Shape.{atom_view};
ghost use Rattle.filter_tree.specs.Values.{constant_view};
ghost use Rattle.filter_tree.specs.declared.filter.Op.TheVariants.{Ge, Le};
ghost use Rattle.shard_checker.specs.Candidates.{tried_view};
ghost use Rattle.shard_checker.specs.Facts as spec;
ghost use Rattle.shard_checker.specs.Members.{AreMembersOf};

use crate::candidates::Tried;
use crate::members::Members;
use filter_tree::{Atom, Literal, Op, Term, compare_literals, same_term};
use std::alloc::{Allocator, Global};

/// Whether the comparison holds for the text.
fn compares_text<A: Allocator>(op: Op, text: &str, constant: &Literal<A>) -> bool
    ensures { result ≡ spec.compares op (Some (Bytes text.now)) (constant_view constant.now) }
{
    match (op, constant) {
        (Op::Eq, Literal::Text(named)) => text == named.as_str(),
        (Op::Ne, Literal::Text(named)) => text != named.as_str(),
        (Op::Eq | Op::Ne | Op::Lt | Op::Le | Op::Gt | Op::Ge, _) => false,
    }
}

/// Whether the comparison holds for the value.
fn compares<A: Allocator>(op: Op, value: Tried<'_>, constant: &Literal<A>) -> bool
    ensures { result ≡ spec.compares op (tried_view value.entry) (constant_view constant.now) }
{
    match value {
        Tried::Int(number) => compare_literals(op, &Literal::<Global>::Int(number), constant),
        Tried::Bool(truth) => compare_literals(op, &Literal::<Global>::Bool(truth), constant),
        Tried::Text(text) => compares_text(op, text, constant),
        Tried::OtherText => matches!((op, constant), (Op::Ne, Literal::Text(_))),
    }
}

/// Whether the value is a number from the low number to the high number.
fn is_between(value: Tried<'_>, low: i64, high: i64) -> bool
    ensures { result ≡ (spec.compares Ge (tried_view value.entry) (Number low)
        && spec.compares Le (tried_view value.entry) (Number high)) }
{
    match value {
        Tried::Int(number) => low <= number && number <= high,
        Tried::Bool(_) | Tried::Text(_) | Tried::OtherText => false,
    }
}

/// Whether the atom is true for the value; the members are those of the atom's list.
pub fn holds<A: Allocator>(atom: &Atom<A>, members: &Members<'_>, value: Tried<'_>) -> bool
    requires { AreMembersOf (atom_view atom.now) members.now }
    ensures { result ≡ spec.holds_of (atom_view atom.now) (tried_view value.entry) }
{
    match atom {
        Atom::Cmp(_, op, constant) => compares(*op, value, constant),
        Atom::IsNull(_) => false,
        Atom::In(_, _) => members.has(value),
        Atom::Between(_, low, high) => is_between(value, *low, *high),
        Atom::Distinct(_, constant) => compares(Op::Ne, value, constant),
    }
}

/// Whether the atom is a test of the values of the term. All atoms on the term but `IS NULL` are.
pub fn is_about<A: Allocator>(term: Term, atom: &Atom<A>) -> bool
    ensures { result ≡ spec.is_about term (atom_view atom.now) }
{
    match atom {
        Atom::Cmp(other, _, _)
        | Atom::In(other, _)
        | Atom::Between(other, _, _)
        | Atom::Distinct(other, _) => same_term(*other, term),
        Atom::IsNull(_) => false,
    }
}
