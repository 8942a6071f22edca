//! Tests whether bounds contain every constant that a filter compares.

ghost use Rattle.std.specs.Prelude.{◌≡◌, true, map, IfOk, IsTrue};
ghost use Rattle.std.specs.List.{list_all};
ghost use Rattle.filter_tree.specs.Datum.{Known, Number};
ghost use Rattle.filter_tree.specs.Shape.{atom_view, expr_view};
ghost use Rattle.filter_tree.specs.Values.{constant_view, datum_view};
ghost use Rattle.filter_memo.specs.Covering as spec;

use crate::bounds::value_of;
use filter_tree::{Atom, Filter, Literal, Term, Value, same_term};
use std::alloc::{AllocError, Global};

/// The value of a number.
fn number_value(number: i64) -> Value
    ensures { datum_view result ≡ Known (Number number) }
{
    Value::Int(number)
}

fn has_number(bounds: &[Value], number: i64) -> bool
    ensures { IsTrue result → spec.has bounds.now (Number number) ≡ true }
{
    let value = number_value(number);
    bounds.binary_search(&value).is_ok()
}

fn has(alloc: Global, bounds: &[Value], literal: &Literal) -> Result<bool, AllocError>
    ensures { IfOk result (λ it. IsTrue it → spec.has bounds.now (constant_view literal.now) ≡ true) }
{
    let value = value_of(alloc, literal)?;
    Ok(bounds.binary_search(&value).is_ok())
}

fn has_each(alloc: Global, bounds: &[Value], literals: &[Literal]) -> Result<bool, AllocError>
    ensures { IfOk result (λ all. IsTrue all → list_all (spec.has bounds.now) (map constant_view literals.now)
        ≡ true) }
{
    match literals {
        [] => Ok(true),
        [literal, rest @ ..] => {
            if !has(alloc, bounds, literal)? {
                return Ok(false);
            }
            has_each(alloc, bounds, rest)
        }
    }
}

/// Whether the bounds contain all constants of the atom. The answer `false` may be wrong.
fn has_constants(alloc: Global, bounds: &[Value], atom: &Atom) -> Result<bool, AllocError>
    ensures { IfOk result (λ all. IsTrue all → spec.has_constants bounds.now (atom_view atom.now) ≡ true) }
{
    match atom {
        Atom::IsNull(_) => Ok(true),
        Atom::Cmp(_, _, literal) | Atom::Distinct(_, literal) => has(alloc, bounds, literal),
        Atom::In(_, literals) => has_each(alloc, bounds, literals),
        Atom::Between(_, low, high) => Ok(has_number(bounds, *low) && has_number(bounds, *high)),
    }
}

/// Whether the filter compares only this term, and only with these bounds. The answer `false` may be wrong. The only
/// error is out of memory.
pub fn covers(
    alloc: Global,
    term: Term,
    bounds: &[Value],
    filter: &Filter,
) -> Result<bool, AllocError>
    ensures { IfOk result (λ it. IsTrue it → spec.covers term bounds.now (expr_view filter.now) ≡ true) }
{
    match filter {
        Filter::Const(_) => Ok(true),
        Filter::Atom(atom) => {
            if !same_term(term, atom.term()) {
                return Ok(false);
            }
            has_constants(alloc, bounds, atom)
        }
        Filter::Not(part) | Filter::Is(_, part) => covers(alloc, term, bounds, part),
        Filter::And(left, right) | Filter::Or(left, right) => {
            if !covers(alloc, term, bounds, left)? {
                return Ok(false);
            }
            covers(alloc, term, bounds, right)
        }
    }
}
