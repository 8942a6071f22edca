//! Rows, and the simple rows that are tried first.

use crate::atoms::{AtomKind, PlainAtom};
use crate::cells::Class;
use crate::choices::{Choice, empty_text};
use crate::conditions::{Outcome, evaluate, outcome_at};
use crate::numbers::value_of;
use crate::owners::is_counter;
use crate::problem::Problem;
use crate::texts::number;
use filter_tree::{ColType, Column, Mask, Row, Table, Text, Tri, Value};
use replica_identity::Share;
use std::alloc::{AllocError, Global};

/// How many simple rows are tried.
const MAX_SIMPLE_ROWS: u64 = 4_096;

/// How many simple values a column has, at most.
const MAX_SIMPLE_VALUES: usize = 4_096;

/// A text that no atom names: the empty text, or a text of letters a.
fn unnamed_text(alloc: Global, problem: &Problem<'_>) -> Result<Text, AllocError> {
    let mut text = String::new(alloc);
    for _ in &problem.texts.list {
        if !problem.texts.is_named(text.as_str()) {
            break;
        }
        text.push('a')?;
    }
    Ok(Text::new(text))
}

fn text_of(alloc: Global, problem: &Problem<'_>, chosen: i64) -> Result<Text, AllocError> {
    match problem.texts.text(chosen) {
        None => unnamed_text(alloc, problem),
        Some(text) => Text::from_str(alloc, text),
    }
}

fn cell_of(
    alloc: Global,
    problem: &Problem<'_>,
    column: &Column,
    choice: Choice,
) -> Result<Value, AllocError> {
    match (choice, column.kind) {
        (None, _) => Ok(Value::Null),
        (Some(chosen), ColType::Boolean) => Ok(Value::Bool(chosen == 1)),
        (Some(chosen), ColType::Text) => Ok(Value::Text(text_of(alloc, problem, chosen)?)),
        (Some(chosen), ColType::SmallInt | ColType::Integer | ColType::BigInt) => {
            Ok(Value::Int(chosen))
        }
    }
}

/// The row with the values that were chosen.
fn row_of(alloc: Global, problem: &Problem<'_>, choices: &[Choice]) -> Result<Row, AllocError> {
    let mut values = Vec::new(alloc);
    for (place, column) in problem.columns.iter().enumerate() {
        let choice = choices.get(place).copied().unwrap_or(None);
        values.push(cell_of(alloc, problem, column, choice)?)?;
    }
    Ok(Row::from_values(values))
}

/// Adds a number to a list, if the list does not have it.
fn add(numbers: &mut Vec<Choice>, chosen: i64) -> Result<(), AllocError> {
    let choice = Some(chosen);
    if numbers.len() < MAX_SIMPLE_VALUES && !numbers.contains(&choice) {
        numbers.push(choice)?;
    }
    Ok(())
}

/// Adds the numbers at a boundary and next to it.
fn add_around(numbers: &mut Vec<Choice>, boundary: i64) -> Result<(), AllocError> {
    add(numbers, boundary)?;
    add(numbers, boundary.saturating_sub(1))?;
    add(numbers, boundary.saturating_add(1))?;
    add(numbers, boundary.saturating_neg())
}

/// Adds the numbers that an atom names, except those of a list.
fn add_boundaries(numbers: &mut Vec<Choice>, kind: &AtomKind) -> Result<(), AllocError> {
    match kind {
        AtomKind::IsNull | AtomKind::In(_) => Ok(()),
        AtomKind::Cmp(_, boundary) | AtomKind::Distinct(boundary) => add_around(numbers, *boundary),
        AtomKind::Between(low, high) => {
            add_around(numbers, *low)?;
            add_around(numbers, *high)
        }
    }
}

/// Adds the numbers that atoms of the column name.
fn add_named(
    numbers: &mut Vec<Choice>,
    problem: &Problem<'_>,
    column: usize,
) -> Result<(), AllocError> {
    for plain in &problem.atoms {
        if plain.column == column {
            add_boundaries(numbers, &plain.kind)?;
        }
    }
    Ok(())
}

/// Adds a number of each class of a term.
fn add_classes(numbers: &mut Vec<Choice>, classes: &[Class]) -> Result<(), AllocError> {
    for class in classes {
        add(numbers, class.nearest)?;
    }
    Ok(())
}

/// Whether an atom on the term has a list of constants.
fn has_list(problem: &Problem<'_>, term: usize) -> bool {
    for plain in &problem.atoms {
        if plain.term == term && matches!(plain.kind, AtomKind::In(_)) {
            return true;
        }
    }
    false
}

/// Adds a number of each class of the column's terms that have lists.
fn add_listed(
    numbers: &mut Vec<Choice>,
    problem: &Problem<'_>,
    column: usize,
) -> Result<(), AllocError> {
    for (term, domain) in problem.terms.iter().enumerate() {
        if domain.column == column && has_list(problem, term) {
            add_classes(numbers, &domain.classes)?;
        }
    }
    Ok(())
}

/// Adds the empty text, a text that no atom names, and the texts that an atom names outside a list.
fn add_texts(numbers: &mut Vec<Choice>, problem: &Problem<'_>) -> Result<(), AllocError> {
    add(numbers, empty_text(problem))?;
    add(numbers, problem.texts.unnamed())?;
    for (place, _) in problem
        .texts
        .list
        .iter()
        .take(problem.texts.alone)
        .enumerate()
    {
        add(numbers, number(place))?;
    }
    Ok(())
}

/// Whether a filter looks at the column.
fn is_used(problem: &Problem<'_>, column: usize) -> bool {
    for plain in &problem.atoms {
        if plain.column == column {
            return true;
        }
    }
    false
}

/// The simple values of a column, the simplest first.
fn simple_values(
    alloc: Global,
    problem: &Problem<'_>,
    place: usize,
    column: &Column,
) -> Result<Vec<Choice>, AllocError> {
    let mut numbers = Vec::new(alloc);
    if !column.not_null {
        numbers.push(None)?;
    }
    if !is_used(problem, place) && !column.not_null {
        return Ok(numbers);
    }
    match column.kind {
        ColType::Text => {
            add_texts(&mut numbers, problem)?;
            add_listed(&mut numbers, problem, place)?;
        }
        ColType::Boolean => {
            add(&mut numbers, 0)?;
            add(&mut numbers, 1)?;
        }
        ColType::SmallInt | ColType::Integer | ColType::BigInt => {
            add(&mut numbers, 0)?;
            add_named(&mut numbers, problem, place)?;
            add_listed(&mut numbers, problem, place)?;
        }
    }
    Ok(numbers)
}

fn all_simple_values(alloc: Global, problem: &Problem<'_>) -> Result<Vec<Vec<Choice>>, AllocError> {
    let mut values = Vec::new(alloc);
    for (place, column) in problem.columns.iter().enumerate() {
        values.push(simple_values(alloc, problem, place, column)?)?;
    }
    Ok(values)
}

/// The value that this number picks, and how often the number goes through all values.
fn picked(values: &[Choice], number: u64) -> (Choice, u64) {
    let count = u64::try_from(values.len()).unwrap_or(u64::MAX);
    if count == 0 {
        return (None, number);
    }
    let place = usize::try_from(number % count).unwrap_or(0);
    (values.get(place).copied().unwrap_or(None), number / count)
}

/// The row with this number, among the rows of simple values; `None` if there are fewer rows.
fn simple_choices(
    alloc: Global,
    values: &[Vec<Choice>],
    number: u64,
) -> Result<Option<Vec<Choice>>, AllocError> {
    let mut choices = Vec::new(alloc);
    let mut rest = number;
    for of_column in values {
        let (choice, round) = picked(of_column, rest);
        choices.push(choice)?;
        rest = round;
    }
    if rest > 0 {
        return Ok(None);
    }
    Ok(Some(choices))
}

/// The value of an atom in the row with these values.
fn value_with(problem: &Problem<'_>, plain: &PlainAtom, choices: &[Choice]) -> Tri {
    let choice = choices.get(plain.column).copied().unwrap_or(None);
    match choice {
        None => plain.kind.value_of_null(),
        Some(chosen) => value_of(problem, plain, chosen),
    }
}

/// The values of the atoms in the row with these values.
fn masks_with(
    alloc: Global,
    problem: &Problem<'_>,
    choices: &[Choice],
) -> Result<Vec<Mask>, AllocError> {
    let mut masks = Vec::new(alloc);
    for plain in &problem.atoms {
        masks.push(Mask::single(value_with(problem, plain, choices)))?;
    }
    Ok(masks)
}

/// How many shares take the row, by the values of its atoms.
fn count_takers(alloc: Global, problem: &Problem<'_>, masks: &[Mask]) -> Result<usize, AllocError> {
    let mut outcomes = vec![in alloc; Outcome::Open; problem.conditions.len()]?;
    let mut count = 0usize;
    for share in &problem.shares {
        evaluate(&problem.conditions, *share, masks, &mut outcomes);
        if outcome_at(&outcomes, share.root()) == Outcome::Met {
            count = count.saturating_add(1);
        }
    }
    Ok(count)
}

/// The row with these values, if it fits the table and no share takes it, or several do. The row is made only if the
/// values of its atoms show this.
pub fn counter_of(
    alloc: Global,
    problem: &Problem<'_>,
    table: &Table,
    shares: &[&Share],
    choices: &[Choice],
) -> Result<Option<Row>, AllocError> {
    let masks = masks_with(alloc, problem, choices)?;
    if count_takers(alloc, problem, &masks)? == 1 {
        return Ok(None);
    }
    let row = row_of(alloc, problem, choices)?;
    if is_counter(table, shares, &row) {
        return Ok(Some(row));
    }
    Ok(None)
}

/// A simple row that no share takes, or that several take, if there is one among those that are tried.
pub fn simple_counter(
    alloc: Global,
    problem: &Problem<'_>,
    table: &Table,
    shares: &[&Share],
) -> Result<Option<Row>, AllocError> {
    let values = all_simple_values(alloc, problem)?;
    for number in 0..MAX_SIMPLE_ROWS {
        match simple_choices(alloc, &values, number)? {
            None => return Ok(None),
            Some(choices) => {
                let counter = counter_of(alloc, problem, table, shares, &choices)?;
                if counter.is_some() {
                    return Ok(counter);
                }
            }
        }
    }
    Ok(None)
}
