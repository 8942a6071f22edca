ghost use Rattle.std.specs.Prelude.{◌≡◌, IfOk, map};
ghost use Rattle.filter_tree.specs.Values.{datum_view, constant_view};
ghost use Rattle.filter_tree.specs.Shape.{atom_view, expr_view};

use crate::filter::{Atom, Filter};
use crate::text::Text;
use crate::value::{Literal, Row, Value};
use std::alloc::{AllocError, Allocator};

/// A copy of the filter, whose memory is taken from `alloc`. The only error is out of memory.
pub fn copy_in<A: Allocator, B: Allocator + Clone>(
    alloc: B,
    filter: &Filter<A>,
) -> Result<Filter<B>, AllocError>
    ensures { IfOk result (λ copy. expr_view copy ≡ expr_view filter.now) }
{
    copy_filter(&alloc, filter)
}

#[cycle(copy)]
fn copy_filter<A: Allocator, B: Allocator + Clone>(
    alloc: &B,
    filter: &Filter<A>,
) -> Result<Filter<B>, AllocError>
    ensures { IfOk result (λ copy. expr_view copy ≡ expr_view filter.now) }
{
    match filter {
        Filter::Const(known) => Ok(Filter::Const(*known)),
        Filter::Atom(atom) => Ok(Filter::Atom(copy_atom(alloc, atom)?)),
        Filter::Not(part) => Ok(Filter::Not(copy_boxed(alloc, part)?)),
        Filter::And(left, right) => Ok(Filter::And(
            copy_boxed(alloc, left)?,
            copy_boxed(alloc, right)?,
        )),
        Filter::Or(left, right) => Ok(Filter::Or(
            copy_boxed(alloc, left)?,
            copy_boxed(alloc, right)?,
        )),
        Filter::Is(test, part) => Ok(Filter::Is(*test, copy_boxed(alloc, part)?)),
    }
}

#[cycle(copy)]
fn copy_boxed<A: Allocator, B: Allocator + Clone>(
    alloc: &B,
    filter: &Filter<A>,
) -> Result<Box<Filter<B>, B>, AllocError>
    ensures { IfOk result (λ copy. expr_view copy.value ≡ expr_view filter.now) }
{
    let copy = copy_filter(alloc, filter)?;
    Ok(Box::new(alloc.clone()?, copy)?)
}

fn copy_atom<A: Allocator, B: Allocator + Clone>(
    alloc: &B,
    atom: &Atom<A>,
) -> Result<Atom<B>, AllocError>
    ensures { IfOk result (λ copy. atom_view copy ≡ atom_view atom.now) }
{
    match atom {
        Atom::Cmp(term, op, literal) => Ok(Atom::Cmp(*term, *op, copy_literal(alloc, literal)?)),
        Atom::IsNull(column) => Ok(Atom::IsNull(*column)),
        Atom::In(term, literals) => Ok(Atom::In(*term, copy_literals(alloc, literals)?)),
        Atom::Between(term, low, high) => Ok(Atom::Between(*term, *low, *high)),
        Atom::Distinct(term, literal) => Ok(Atom::Distinct(*term, copy_literal(alloc, literal)?)),
    }
}

fn copy_literals<A: Allocator, B: Allocator + Clone>(
    alloc: &B,
    literals: &[Literal<A>],
) -> Result<Vec<Literal<B>, B>, AllocError>
    ensures { IfOk result (λ copies. map constant_view copies.items ≡ map constant_view literals.now) }
{
    let mut copies = Vec::with_capacity(alloc.clone()?, literals.len())?;
    for literal in literals {
        copies.push(copy_literal(alloc, literal)?)?;
    }
    Ok(copies)
}

fn copy_literal<A: Allocator, B: Allocator + Clone>(
    alloc: &B,
    literal: &Literal<A>,
) -> Result<Literal<B>, AllocError>
    ensures { IfOk result (λ copy. constant_view copy ≡ constant_view literal.now) }
{
    match literal {
        Literal::Int(number) => Ok(Literal::Int(*number)),
        Literal::Bool(truth) => Ok(Literal::Bool(*truth)),
        Literal::Text(text) => Ok(Literal::Text(Text::from_str(alloc.clone()?, text.as_str())?)),
    }
}

/// A copy of the row, whose memory is taken from `alloc`. The only error is out of memory.
pub fn copy_row<A: Allocator, B: Allocator + Clone>(
    alloc: B,
    row: &Row<A>,
) -> Result<Row<B>, AllocError>
    ensures { IfOk result (λ copy. copy ≡ row.now) }
{
    let values = row.values();
    let mut copies = Vec::with_capacity(alloc.clone()?, values.len())?;
    for value in values {
        copies.push(copy_value(&alloc, value)?)?;
    }
    Ok(Row::from_values(copies))
}

/// A copy of the value, whose memory is taken from `alloc`. The only error is out of memory.
pub fn copy_value<A: Allocator, B: Allocator + Clone>(
    alloc: &B,
    value: &Value<A>,
) -> Result<Value<B>, AllocError>
    ensures { IfOk result (λ copy. datum_view copy ≡ datum_view value.now) }
{
    match value {
        Value::Null => Ok(Value::Null),
        Value::Int(number) => Ok(Value::Int(*number)),
        Value::Bool(truth) => Ok(Value::Bool(*truth)),
        Value::Text(text) => Ok(Value::Text(Text::from_str(alloc.clone()?, text.as_str())?)),
    }
}
