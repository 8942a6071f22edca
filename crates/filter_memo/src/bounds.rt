//! Collects the constants that atoms compare a term with, in ascending order. Whether all of them were collected is not
//! proved: `covers` tests it.

ghost use Rattle.std.specs.Prelude.{◌≡◌, IfOk};
ghost use Rattle.std.specs.List.Sorted.{IsSorted};
ghost use Rattle.filter_tree.specs.Datum.{Known};
ghost use Rattle.filter_tree.specs.Values.{constant_view, datum_view};
ghost use Rattle.filter_memo.specs.Buckets.{value_cmp};

use filter_tree::{Atom, Filter, Literal, Term, Text, Value, same_term};
use std::alloc::{AllocError, Global};

/// The value that is equal to a constant.
pub fn value_of(alloc: Global, literal: &Literal) -> Result<Value, AllocError>
    ensures { IfOk result (λ value. datum_view value ≡ Known (constant_view literal.now)) }
{
    match literal {
        Literal::Int(number) => Ok(Value::Int(*number)),
        Literal::Bool(truth) => Ok(Value::Bool(*truth)),
        Literal::Text(text) => Ok(Value::Text(Text::from_str(alloc, text.as_str())?)),
    }
}

/// Inserts a value in ascending order, unless the bounds already contain it.
fn add_bound(bounds: &mut Vec<Value>, value: Value) -> Result<(), AllocError> {
    match bounds.binary_search(&value) {
        Ok(_) => Ok(()),
        Err(index) => {
            bounds.insert(index, value)?;
            Ok(())
        }
    }
}

/// Adds the constants of an atom to the bounds.
fn add_constants(alloc: Global, bounds: &mut Vec<Value>, atom: &Atom) -> Result<(), AllocError> {
    match atom {
        Atom::IsNull(_) => Ok(()),
        Atom::Cmp(_, _, literal) | Atom::Distinct(_, literal) => {
            add_bound(bounds, value_of(alloc, literal)?)
        }
        Atom::In(_, literals) => {
            for literal in literals {
                add_bound(bounds, value_of(alloc, literal)?)?;
            }
            Ok(())
        }
        Atom::Between(_, low, high) => {
            add_bound(bounds, Value::Int(*low))?;
            add_bound(bounds, Value::Int(*high))
        }
    }
}

/// The constants that the atoms compare the term with, in ascending order. The only error is out of memory.
pub fn bounds_of(alloc: Global, term: Term, parts: &[Filter]) -> Result<Vec<Value>, AllocError>
    ensures { IfOk result (λ bounds. IsSorted value_cmp bounds.items) }
{
    let mut bounds = Vec::new(alloc);
    for part in parts {
        if let Filter::Atom(atom) = part {
            if same_term(atom.term(), term) {
                add_constants(alloc, &mut bounds, atom)?;
            }
        }
    }
    // They are in ascending order already; the sort proves it.
    bounds.sort_unstable();
    Ok(bounds)
}
