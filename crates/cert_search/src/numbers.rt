//! Numbers of a column that agree with what is known about its atoms.

use crate::atoms::PlainAtom;
use crate::cells::{Cell, cell_with, nearest};
use crate::problem::{Domain, Problem};
use crate::state::SearchState;
use filter_tree::Tri;
use shard_checker::Range;

/// How far from the number of a range that is nearest to zero other numbers are tried.
const MAX_FAR: i64 = 10_000;

/// How many numbers are tried, at most, for the remainder by one divisor.
const MAX_REMAINDERS: i64 = 20_000;

/// How many numbers with the remainders that were found are tried.
const MAX_ROUNDS: u64 = 100;

/// After this number of steps no number is looked for in a further cell.
const MAX_STEPS_IN_CELLS: u64 = 100_000;

/// The number of a term if its column has this number.
fn term_number(domain: &Domain, number: i64) -> i64 {
    match domain.divisor {
        Some(divisor) if divisor != 0 => number.wrapping_rem(divisor),
        Some(_) | None => number,
    }
}

/// The value of an atom if its column has this number.
pub fn value_of(problem: &Problem<'_>, plain: &PlainAtom, number: i64) -> Tri {
    match problem.terms.get(plain.term) {
        None => Tri::Null,
        Some(domain) => Tri::from(plain.kind.holds(term_number(domain, number))),
    }
}

/// Whether what is known leaves the term the number that it has if its column has this number.
fn term_meets(state: &mut SearchState, domain: &Domain, number: i64) -> bool {
    state.charge_steps(1);
    match cell_with(&domain.cells, term_number(domain, number)) {
        None => false,
        Some(cell) => state.facts.leaves(domain, cell.holding),
    }
}

/// Whether what is known leaves the column this number.
pub fn meets(problem: &Problem<'_>, state: &mut SearchState, column: usize, number: i64) -> bool {
    state.charge_steps(problem.term_count());
    for domain in &problem.terms {
        if domain.column == column && !term_meets(state, domain, number) {
            return false;
        }
    }
    true
}

fn is_in(range: Range, number: i64) -> bool {
    range.least <= number && number <= range.greatest
}

/// A number of the range that agrees with what is known, less than `most` away from the number of the range that is
/// nearest to zero.
fn near_number(
    problem: &Problem<'_>,
    state: &mut SearchState,
    column: usize,
    range: Range,
    most: i64,
) -> Option<i64> {
    let start = nearest(range);
    for far in 0..most {
        let above = start.saturating_add(far);
        let below = start.saturating_sub(far);
        if !is_in(range, above) && !is_in(range, below) {
            return None;
        }
        if is_in(range, above) && meets(problem, state, column, above) {
            return Some(above);
        }
        if is_in(range, below) && meets(problem, state, column, below) {
            return Some(below);
        }
    }
    None
}

/// The first of the numbers from this one on, a step apart, whose remainder by a divisor of this size the term may
/// have.
fn with_remainder(
    state: &mut SearchState,
    domain: &Domain,
    start: i64,
    step: i64,
    size: i64,
) -> Option<i64> {
    let mut number = start;
    for _ in 0..size.min(MAX_REMAINDERS) {
        if term_meets(state, domain, number) {
            return Some(number);
        }
        number = number.checked_add(step)?;
    }
    None
}

/// The greatest common divisor of a number and another number that is not 0.
fn common_divisor(one: i64, other: i64) -> i64 {
    let (mut left, mut right) = (one, other);
    for _ in 0..MAX_ROUNDS {
        if right == 0 {
            return left;
        }
        (left, right) = (right, left.wrapping_rem(right));
    }
    1
}

/// The least step that keeps the remainders by both numbers.
fn common_step(step: i64, divisor: i64) -> Option<i64> {
    let common = common_divisor(step, divisor);
    if common == 0 {
        return None;
    }
    step.checked_mul(divisor.wrapping_div(common))
}

/// The least step that keeps all remainders of the column, if it fits an `i64`.
fn period(problem: &Problem<'_>, column: usize) -> Option<i64> {
    let mut step = 1i64;
    for domain in &problem.terms {
        if let (true, Some(divisor)) = (domain.column == column, domain.divisor) {
            step = common_step(step, divisor.checked_abs()?)?.checked_abs()?;
        }
    }
    Some(step)
}

/// A number from this one on, in multiples of the step, all of whose remainders the column may have, and the step that
/// keeps them.
fn with_remainders(
    problem: &Problem<'_>,
    state: &mut SearchState,
    column: usize,
    start: i64,
    step: i64,
) -> Option<(i64, i64)> {
    let (mut number, mut step) = (start, step);
    for domain in &problem.terms {
        if let (true, Some(divisor)) = (domain.column == column, domain.divisor) {
            let size = divisor.checked_abs()?;
            number = with_remainder(state, domain, number, step, size)?;
            step = common_step(step, size)?;
        }
    }
    Some((number, step))
}

/// A number of the range from this one on, in the direction of the step, that agrees with what is known.
fn stepwise(
    problem: &Problem<'_>,
    state: &mut SearchState,
    column: usize,
    range: Range,
    start: i64,
    step: i64,
) -> Option<i64> {
    let (mut number, step) = with_remainders(problem, state, column, start, step)?;
    for _ in 0..MAX_ROUNDS {
        if is_in(range, number) && meets(problem, state, column, number) {
            return Some(number);
        }
        number = number.checked_add(step)?;
    }
    None
}

/// A number of the range that agrees with what is known, if this step keeps the column's remainders.
fn number_in(
    problem: &Problem<'_>,
    state: &mut SearchState,
    column: usize,
    range: Range,
    period: i64,
) -> Option<i64> {
    let near = near_number(problem, state, column, range, period.min(MAX_FAR));
    if near.is_some() || period <= MAX_FAR {
        return near;
    }
    let above = stepwise(problem, state, column, range, range.least.max(0), 1);
    if above.is_some() {
        return above;
    }
    stepwise(problem, state, column, range, range.greatest.min(0), -1)
}

/// The number that is nearer to zero, if there is one.
fn nearer(one: Option<i64>, other: Option<i64>) -> Option<i64> {
    match (one, other) {
        (None, found) | (found, None) => found,
        (Some(one), Some(other)) => {
            if other.unsigned_abs() < one.unsigned_abs() {
                Some(other)
            } else {
                Some(one)
            }
        }
    }
}

/// Whether the cell may have a number that is nearer to zero than the one that was found.
fn may_be_nearer(found: Option<i64>, cell: Cell) -> bool {
    match found {
        None => true,
        Some(found) => nearest(cell.range).unsigned_abs() <= found.unsigned_abs(),
    }
}

/// A number of the cells of the column itself that agrees with what is known.
fn number_in_cells(
    problem: &Problem<'_>,
    state: &mut SearchState,
    column: usize,
    domain: &Domain,
    period: i64,
) -> Option<i64> {
    let last = state.steps.saturating_add(MAX_STEPS_IN_CELLS);
    let mut found = None;
    for cell in domain.cells.iter().rev() {
        state.charge_steps(1);
        if state.steps < last
            && state.facts.leaves(domain, cell.holding)
            && may_be_nearer(found, *cell)
        {
            let number = number_in(problem, state, column, cell.range, period);
            found = nearer(found, number);
        }
    }
    found
}

/// The column itself as a term, if an atom names it.
fn itself<'q>(problem: &'q Problem<'_>, column: usize) -> Option<&'q Domain> {
    for domain in &problem.terms {
        if domain.column == column && domain.divisor.is_none() {
            return Some(domain);
        }
    }
    None
}

/// A number of the column that agrees with what is known, from these numbers of its type.
pub fn number_for(
    problem: &Problem<'_>,
    state: &mut SearchState,
    column: usize,
    whole: Range,
) -> Option<i64> {
    let period = period(problem, column).unwrap_or(i64::MAX);
    match itself(problem, column) {
        None => number_in(problem, state, column, whole, period),
        Some(domain) => number_in_cells(problem, state, column, domain, period),
    }
}
