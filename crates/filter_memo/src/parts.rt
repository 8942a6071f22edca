//! The atoms of filters, which have numbers. Each is kept as a filter, which can be evaluated.

ghost use Rattle.std.specs.Prelude.{◌≡◌, ◌<◌, length, IfSome, IsTrue};
ghost use Rattle.filter_tree.specs.Expr as e;
ghost use Rattle.filter_tree.specs.Shape.{atom_view, expr_view};
ghost use Rattle.filter_memo.specs.Telling.{part_at};

use filter_tree::{Atom, Filter, copy_in, same_atom};
use std::alloc::{AllocError, Global};

/// The most atoms that have numbers.
const MAX_PARTS: usize = 64;

/// Whether the filter is this atom.
fn is_atom(part: &Filter, atom: &Atom) -> bool
    ensures { IsTrue result → expr_view part.now ≡ e.Atom (atom_view atom.now) }
{
    match part {
        Filter::Atom(own) => same_atom(own, atom),
        Filter::Const(_)
        | Filter::Not(_)
        | Filter::And(_, _)
        | Filter::Or(_, _)
        | Filter::Is(_, _) => false,
    }
}

/// Whether the atom with this number is this one.
fn is_part(parts: &[Filter], number: usize, atom: &Atom) -> bool
    ensures { IsTrue result → part_at parts.now number ≡ e.Atom (atom_view atom.now) }
{
    match parts.get(number) {
        None => false,
        Some(part) => is_atom(part, atom),
    }
}

/// The number of an atom.
pub fn find_part(parts: &[Filter], atom: &Atom) -> Option<usize>
    ensures atom { IfSome result (λ number. part_at parts.now number ≡ e.Atom (atom_view atom.now)) }
    ensures within { IfSome result (λ number. number < length parts.now) }
    ensures low { IfSome result (λ number. number < 64) }
{
    for number in 0..parts.len().min(MAX_PARTS) {
        if is_part(parts, number, atom) {
            return Some(number);
        }
    }
    None
}

/// Adds the atoms of the filter that are not there yet, as far as they get numbers.
fn add_parts(alloc: Global, parts: &mut Vec<Filter>, filter: &Filter) -> Result<(), AllocError> {
    match filter {
        Filter::Const(_) => Ok(()),
        Filter::Atom(atom) => {
            if parts.len() < MAX_PARTS && find_part(parts, atom).is_none() {
                parts.push(copy_in(alloc, filter)?)?;
            }
            Ok(())
        }
        Filter::Not(part) | Filter::Is(_, part) => add_parts(alloc, parts, part),
        Filter::And(left, right) | Filter::Or(left, right) => {
            add_parts(alloc, parts, left)?;
            add_parts(alloc, parts, right)
        }
    }
}

/// The atoms of the filters. The only error is out of memory.
pub fn parts_of(alloc: Global, filters: &[Option<&Filter>]) -> Result<Vec<Filter>, AllocError> {
    let mut parts = Vec::new(alloc);
    for filter in filters {
        if let Some(filter) = filter {
            add_parts(alloc, &mut parts, *filter)?;
        }
    }
    Ok(parts)
}
