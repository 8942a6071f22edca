ghost use Rattle.std.specs.Prelude.{◌≡◌, ◌↔◌, IsTrue, map};
ghost use Rattle.filter_tree.specs.Datum.{value_at};
ghost use Rattle.filter_tree.specs.Values.{datum_view, constant_view};
ghost use Rattle.filter_tree.specs.Shape.{atom_view};
ghost use Rattle.filter_tree.specs.Same.{same_constant, same_constants, same_datum, same_term, same_op, same_atom, same_row};

use crate::filter::{Atom, Op, Term};
use crate::value::{Literal, Row, Value};
use std::alloc::Allocator;

/// Whether two atoms have the same form, and equal terms, operators and constants.
pub fn same_atom<A: Allocator, B: Allocator>(one: &Atom<A>, other: &Atom<B>) -> bool
    ensures test { result ≡ same_atom (atom_view one.now) (atom_view other.now) }
    ensures equal { IsTrue result ↔ (atom_view one.now ≡ atom_view other.now) }
{
    has_same_parts(one, other)
}

fn has_same_parts<A: Allocator, B: Allocator>(one: &Atom<A>, other: &Atom<B>) -> bool
    ensures { result ≡ same_atom (atom_view one.now) (atom_view other.now) }
{
    match (one, other) {
        (Atom::Cmp(term, op, literal), Atom::Cmp(other_term, other_op, other_literal)) => {
            // Most atoms that are compared have the same term, and differ in the rest.
            same_literal(literal, other_literal)
                && same_op(*op, *other_op)
                && same_term(*term, *other_term)
        }
        (Atom::IsNull(column), Atom::IsNull(other_column)) => column == other_column,
        (Atom::In(term, literals), Atom::In(other_term, other_literals)) => {
            same_term(*term, *other_term) && same_literals(literals, other_literals)
        }
        (Atom::Between(term, low, high), Atom::Between(other_term, other_low, other_high)) => {
            same_term(*term, *other_term) && low == other_low && high == other_high
        }
        (Atom::Distinct(term, literal), Atom::Distinct(other_term, other_literal)) => {
            same_term(*term, *other_term) && same_literal(literal, other_literal)
        }
        (
            Atom::Cmp(..) | Atom::IsNull(_) | Atom::In(..) | Atom::Between(..) | Atom::Distinct(..),
            _,
        ) => false,
    }
}

/// Whether two rows have the same values in the same order.
#[tactic(auto, using(crate::proofs::SameLemmas::equal_from_same_row, crate::proofs::SameLemmas::same_row_of_equal))]
pub fn same_row<A: Allocator, B: Allocator>(one: &Row<A>, other: &Row<B>) -> bool
    ensures { IsTrue result ↔ (one.now ≡ other.now) }
{
    has_values_of(one, other)
}

fn has_values_of<A: Allocator, B: Allocator>(one: &Row<A>, other: &Row<B>) -> bool
    ensures { result ≡ same_row one.now other.now }
{
    if one.len() != other.len() {
        return false;
    }
    let values = one.values();
    for (column, value) in values.iter().enumerate() {
        if !is_at(column, value, other) {
            return false;
        }
    }
    true
}

/// Whether the row has this value in the column; past the row's end it has null.
fn is_at<A: Allocator, B: Allocator>(column: usize, value: &Value<A>, other: &Row<B>) -> bool
    ensures { result ≡ same_datum (datum_view value.now) (value_at other.now column) }
{
    match other.get(column) {
        None => matches!(value, Value::Null),
        Some(found) => same_value(value, found),
    }
}

fn same_value<A: Allocator, B: Allocator>(one: &Value<A>, other: &Value<B>) -> bool
    ensures { result ≡ same_datum (datum_view one.now) (datum_view other.now) }
{
    match (one, other) {
        (Value::Null, Value::Null) => true,
        (Value::Int(number), Value::Int(other_number)) => number == other_number,
        (Value::Bool(truth), Value::Bool(other_truth)) => truth == other_truth,
        (Value::Text(text), Value::Text(other_text)) => text.as_str() == other_text.as_str(),
        (Value::Null | Value::Int(_) | Value::Bool(_) | Value::Text(_), _) => false,
    }
}

fn same_literal<A: Allocator, B: Allocator>(one: &Literal<A>, other: &Literal<B>) -> bool
    ensures { result ≡ same_constant (constant_view one.now) (constant_view other.now) }
{
    match (one, other) {
        (Literal::Int(number), Literal::Int(other_number)) => number == other_number,
        (Literal::Bool(truth), Literal::Bool(other_truth)) => truth == other_truth,
        (Literal::Text(text), Literal::Text(other_text)) => text.as_str() == other_text.as_str(),
        (Literal::Int(_) | Literal::Bool(_) | Literal::Text(_), _) => false,
    }
}

/// Whether the lists have the same literals in the same order.
fn same_literals<A: Allocator, B: Allocator>(one: &[Literal<A>], other: &[Literal<B>]) -> bool
    ensures { result ≡ same_constants (map constant_view one.now) (map constant_view other.now) }
{
    match one {
        [] => match other {
            [] => true,
            [_, ..] => false,
        },
        [literal, rest @ ..] => match other {
            [] => false,
            [other_literal, other_rest @ ..] => {
                same_literal(literal, other_literal) && same_literals(rest, other_rest)
            }
        },
    }
}

/// Whether two terms are equal.
#[tactic(auto, using(crate::proofs::SameLemmas::same_term_is, crate::proofs::SameLemmas::same_term_of_equal))]
pub fn same_term(one: Term, other: Term) -> bool
    ensures test { result ≡ same_term one other }
    ensures equal { IsTrue result ↔ (one ≡ other) }
{
    one == other
}

fn same_op(one: Op, other: Op) -> bool
    ensures { result ≡ same_op one other }
{
    one == other
}
