ghost use Rattle.std.specs.Prelude.{◌≡◌};
ghost use Rattle.filter_tree.specs.Expr.{meaning, atom_meaning, remainder_of, said_of};
ghost use Rattle.filter_tree.specs.Values.{datum_view};
ghost use Rattle.filter_tree.specs.Shape.{atom_view, expr_view};

use crate::comparison::{compare, compare_between, compare_distinct, compare_list};
use crate::filter::{Atom, Filter, Term};
use crate::tri::Tri;
use crate::value::{Row, Value};
use std::alloc::Allocator;

/// What the filter says about the row. A column past the row's end reads as null, and a comparison of different types
/// is false, so each filter has a value on each row.
///
/// PostgreSQL 15, 4.2 Value Expressions, and "Logical Replication", 31.3 Row Filters.
pub fn eval<A: Allocator, R: Allocator>(filter: &Filter<A>, row: &Row<R>) -> Tri
    ensures { result ≡ meaning (expr_view filter.now) row.now }
{
    match filter {
        Filter::Const(known) => Tri::from(*known),
        Filter::Atom(atom) => eval_atom(atom, row),
        Filter::Not(part) => eval(part, row).not(),
        Filter::And(left, right) => match eval(left, row) {
            Tri::False => Tri::False,
            said => said.and(eval(right, row)),
        },
        Filter::Or(left, right) => match eval(left, row) {
            Tri::True => Tri::True,
            said => said.or(eval(right, row)),
        },
        Filter::Is(test, part) => eval(part, row).is(*test),
    }
}

fn eval_atom<A: Allocator, R: Allocator>(atom: &Atom<A>, row: &Row<R>) -> Tri
    ensures { result ≡ atom_meaning (atom_view atom.now) row.now }
{
    match atom.term() {
        Term::Col(column) => match row.get(column) {
            None => say::<A, R>(atom, &Value::Null),
            Some(value) => say(atom, value),
        },
        Term::Mod(column, divisor) => match row.get(column) {
            None => say::<A, R>(atom, &Value::Null),
            Some(value) => say_of_remainder(atom, value, divisor),
        },
    }
}

/// What the atom says about the remainder of the value. A remainder has the sign of the value.
fn say_of_remainder<A: Allocator, R: Allocator>(
    atom: &Atom<A>,
    value: &Value<R>,
    divisor: i64,
) -> Tri
    ensures { result ≡ said_of (atom_view atom.now) (remainder_of (datum_view value.now) divisor) }
{
    match value {
        Value::Int(number) if divisor != 0 => {
            say(atom, &Value::<R>::Int(number.wrapping_rem(divisor)))
        }
        Value::Null | Value::Int(_) | Value::Bool(_) | Value::Text(_) => say(atom, value),
    }
}

/// What the atom says about the value of its term.
fn say<A: Allocator, R: Allocator>(atom: &Atom<A>, value: &Value<R>) -> Tri
    ensures { result ≡ said_of (atom_view atom.now) (datum_view value.now) }
{
    match atom {
        Atom::Cmp(_, op, literal) => compare(*op, value, literal),
        Atom::IsNull(_) => Tri::from(matches!(value, Value::Null)),
        Atom::In(_, literals) => compare_list(value, literals),
        Atom::Between(_, low, high) => compare_between(value, *low, *high),
        Atom::Distinct(_, literal) => compare_distinct(value, literal),
    }
}
