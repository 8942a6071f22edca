//! Values for the columns of a row that agrees with what is known about atoms.

use crate::facts::Nullness;
use crate::numbers::{meets, number_for};
use crate::problem::Problem;
use crate::state::SearchState;
use crate::texts::number;
use filter_tree::{ColType, Column};
use shard_checker::Range;
use std::alloc::{AllocError, Global};

/// A value of a column: null, or the value's number.
pub type Choice = Option<i64>;

/// The number of the empty text.
pub fn empty_text(problem: &Problem<'_>) -> i64 {
    problem.texts.number_of("")
}

/// A text that agrees with what is known: the empty one, one that no atom names, or one that an atom names.
fn text_for(problem: &Problem<'_>, state: &mut SearchState, column: usize) -> Option<i64> {
    let empty = empty_text(problem);
    if meets(problem, state, column, empty) {
        return Some(empty);
    }
    let unnamed = problem.texts.unnamed();
    if meets(problem, state, column, unnamed) {
        return Some(unnamed);
    }
    named_for(problem, state, column)
}

fn named_for(problem: &Problem<'_>, state: &mut SearchState, column: usize) -> Option<i64> {
    for (place, _) in problem.texts.list.iter().enumerate() {
        if meets(problem, state, column, number(place)) {
            return Some(number(place));
        }
    }
    None
}

/// The numbers of a type.
fn whole_range(kind: ColType) -> Range {
    match kind {
        ColType::SmallInt | ColType::Integer | ColType::BigInt | ColType::Text => Range {
            least: kind.least(),
            greatest: kind.greatest(),
        },
        ColType::Boolean => Range {
            least: 0,
            greatest: 1,
        },
    }
}

/// A value of the column that agrees with what is known.
fn choice(
    problem: &Problem<'_>,
    state: &mut SearchState,
    place: usize,
    column: &Column,
) -> Option<Choice> {
    if state.facts.nullness(place) != Nullness::Present {
        return Some(None);
    }
    match column.kind {
        ColType::Text => Some(Some(text_for(problem, state, place)?)),
        ColType::SmallInt | ColType::Integer | ColType::BigInt | ColType::Boolean => {
            Some(Some(number_for(problem, state, place, whole_range(column.kind))?))
        }
    }
}

/// Values for all columns of a row that agrees with what is known, if they are found.
pub fn choices(
    alloc: Global,
    problem: &Problem<'_>,
    state: &mut SearchState,
) -> Result<Option<Vec<Choice>>, AllocError> {
    let mut choices = Vec::new(alloc);
    for (place, column) in problem.columns.iter().enumerate() {
        match choice(problem, state, place, column) {
            None => return Ok(None),
            Some(choice) => choices.push(choice)?,
        }
    }
    Ok(Some(choices))
}
