//! Builds the breakpoints of all terms of the atoms, and tests which atoms they evaluate.

ghost use Rattle.std.specs.Prelude.{◌≡◌, true, All, IfOk, IsTrue};
ghost use Rattle.filter_memo.specs.Covering as covering;
ghost use Rattle.filter_memo.specs.Telling as spec;
ghost use Rattle.filter_memo.specs.Telling.{AreSettled, AreEvaluated, IsSettled, numbers_in, part_at};

use crate::bounds::bounds_of;
use crate::breakpoints::{Breakpoints, width};
use crate::covering::covers;
use crate::interval_index::IntervalIndex;
use filter_tree::{Filter, Term, Value, same_term};
use std::alloc::{AllocError, Global};

/// Whether the atom with this number compares only this term, and only with these bounds. The answer `false` may be
/// wrong.
fn covers_part(
    alloc: Global,
    term: Term,
    bounds: &[Value],
    parts: &[Filter],
    number: usize,
) -> Result<bool, AllocError>
    ensures { IfOk result (λ it. IsTrue it → covering.covers term bounds.now (part_at parts.now number) ≡ true) }
{
    match parts.get(number) {
        None => Ok(false),
        Some(part) => covers(alloc, term, bounds, part),
    }
}

/// The numbers of the atoms that compare only this term, and only with these bounds.
fn numbers_of(
    alloc: Global,
    term: Term,
    bounds: &[Value],
    parts: &[Filter],
) -> Result<Vec<usize>, AllocError>
    ensures { IfOk result (λ numbers.
        All (λ number. covering.covers term bounds.now (part_at parts.now number) ≡ true) numbers.items) }
{
    let mut numbers = Vec::new(alloc);
    for number in 0..parts.len() {
        if covers_part(alloc, term, bounds, parts, number)? {
            numbers.push(number)?;
        }
    }
    Ok(numbers)
}

/// The number of cells for buckets, and for intervals.
#[derive(Clone, Copy, Debug, PartialEq, Eq)]
pub struct Counts {
    pub buckets: usize,
    pub intervals: usize,
}

/// The breakpoints of a term. The cells of its buckets start at `base`, and those of its intervals at `first_interval`.
#[tactic(auto, using(crate::proofs::Settling::breakpoints_settled))]
fn breakpoints_of(
    alloc: Global,
    term: Term,
    parts: &[Filter],
    base: usize,
    first_interval: usize,
) -> Result<Breakpoints, AllocError>
    ensures { IfOk result (IsSettled parts.now) }
{
    let bounds = bounds_of(alloc, term, parts)?;
    let numbers = numbers_of(alloc, term, &bounds, parts)?;
    let index = IntervalIndex::new(alloc, &bounds)?;
    Ok(Breakpoints {
        term,
        bounds,
        numbers,
        index,
        base,
        first_interval,
    })
}

/// The term of an atom, unless it has breakpoints already.
fn new_term(all_breakpoints: &[Breakpoints], part: &Filter) -> Option<Term> {
    match part {
        Filter::Atom(atom) => {
            let term = atom.term();
            if all_breakpoints
                .iter()
                .any(|breakpoints| same_term(breakpoints.term, term))
            {
                return None;
            }
            Some(term)
        }
        Filter::Const(_)
        | Filter::Not(_)
        | Filter::And(_, _)
        | Filter::Or(_, _)
        | Filter::Is(_, _) => None,
    }
}

/// The breakpoints of each term of the atoms. The only error is out of memory.
pub fn all_breakpoints_of(alloc: Global, parts: &[Filter]) -> Result<Vec<Breakpoints>, AllocError>
    ensures { IfOk result (λ all_breakpoints. AreSettled parts.now all_breakpoints.items) }
{
    let mut all_breakpoints = Vec::new(alloc);
    let mut base: usize = 0;
    let mut first_interval: usize = 0;
    for part in parts {
        if let Some(term) = new_term(&all_breakpoints, part) {
            let breakpoints = breakpoints_of(alloc, term, parts, base, first_interval)?;
            base = base.saturating_add(width(breakpoints.bounds.len()));
            first_interval = first_interval.saturating_add(breakpoints.index.len());
            all_breakpoints.push(breakpoints)?;
        }
    }
    Ok(all_breakpoints)
}

/// The number of cells that the breakpoints of all terms need.
pub fn cell_counts(all_breakpoints: &[Breakpoints]) -> Counts {
    match all_breakpoints.last() {
        None => Counts {
            buckets: 0,
            intervals: 0,
        },
        Some(breakpoints) => Counts {
            buckets: breakpoints
                .base
                .saturating_add(width(breakpoints.bounds.len())),
            intervals: breakpoints
                .first_interval
                .saturating_add(breakpoints.index.len()),
        },
    }
}

fn has_number(numbers: &[usize], number: usize) -> bool
    ensures { result ≡ spec.has_number numbers.now number }
{
    numbers.iter().any(|own| number == *own)
}

/// Whether the breakpoints of some term evaluate the atom with this number.
#[tactic(auto, using(crate::proofs::Judging::evaluated_by_one))]
fn is_evaluated(all_breakpoints: &[Breakpoints], number: usize) -> bool
    ensures { result ≡ spec.has_number (numbers_in all_breakpoints.now) number }
{
    match all_breakpoints {
        [] => false,
        [breakpoints, rest @ ..] => has_number(&breakpoints.numbers, number)
            || is_evaluated(rest, number),
    }
}

/// Whether the breakpoints evaluate all atoms with numbers below `count`.
pub fn are_evaluated(all_breakpoints: &[Breakpoints], count: usize) -> bool
    ensures { IsTrue result → AreEvaluated all_breakpoints.now count }
{
    for number in 0..count {
        if !is_evaluated(all_breakpoints, number) {
            return false;
        }
    }
    true
}
