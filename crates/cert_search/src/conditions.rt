//! What shares take, as conditions on the values of atoms. A condition is met or not; it is never null.

use crate::masks::{is_within, mask_at, meets, put};
use crate::problem::ShareFormula;
use filter_tree::{Atom, Filter, Mask, Test, same_atom};
use replica_identity::Share;
use std::alloc::{AllocError, Allocator, Global};

/// A condition. It is identified by its place in a list, in which its parts come before it.
#[derive(Clone, Copy)]
pub enum Condition {
    Const(bool),
    /// The atom has one of these values.
    Value(usize, Mask),
    Both(usize, usize),
    Either(usize, usize),
}

/// What is known about a condition.
#[derive(Clone, Copy, PartialEq, Eq)]
pub enum Outcome {
    Met,
    Missed,
    Open,
}

/// The places of the conditions that a filter is true, that it is false, and so on.
#[derive(Clone, Copy)]
struct Views {
    truth: usize,
    falsity: usize,
    null: usize,
    not_true: usize,
    not_false: usize,
    not_null: usize,
}

impl Views {
    /// The conditions for NOT.
    fn negated(self) -> Views {
        Views {
            truth: self.falsity,
            falsity: self.truth,
            null: self.null,
            not_true: self.not_false,
            not_false: self.not_true,
            not_null: self.not_null,
        }
    }
}

/// Adds the condition, and returns its place.
fn add(list: &mut Vec<Condition>, condition: Condition) -> Result<usize, AllocError> {
    let place = list.len();
    list.push(condition)?;
    Ok(place)
}

/// The conditions for a filter that is never null: it is true if one condition is met and false if the other is.
fn never_null(
    list: &mut Vec<Condition>,
    truth: usize,
    falsity: usize,
) -> Result<Views, AllocError> {
    Ok(Views {
        truth,
        falsity,
        null: add(list, Condition::Const(false))?,
        not_true: falsity,
        not_false: truth,
        not_null: add(list, Condition::Const(true))?,
    })
}

fn of_const(list: &mut Vec<Condition>, known: bool) -> Result<Views, AllocError> {
    let truth = add(list, Condition::Const(known))?;
    let falsity = add(list, Condition::Const(!known))?;
    never_null(list, truth, falsity)
}

fn of_test(list: &mut Vec<Condition>, test: Test, part: Views) -> Result<Views, AllocError> {
    match test {
        Test::True => never_null(list, part.truth, part.not_true),
        Test::False => never_null(list, part.falsity, part.not_false),
        Test::Unknown => never_null(list, part.null, part.not_null),
    }
}

/// The condition that the atom has one of these values.
fn value(
    list: &mut Vec<Condition>,
    atom: usize,
    truth: bool,
    falsity: bool,
    null: bool,
) -> Result<usize, AllocError> {
    let wanted = Mask {
        truth,
        falsity,
        null,
    };
    add(list, Condition::Value(atom, wanted))
}

fn of_atom(list: &mut Vec<Condition>, atom: usize) -> Result<Views, AllocError> {
    Ok(Views {
        truth: value(list, atom, true, false, false)?,
        falsity: value(list, atom, false, true, false)?,
        null: value(list, atom, false, false, true)?,
        not_true: value(list, atom, false, true, true)?,
        not_false: value(list, atom, true, false, true)?,
        not_null: value(list, atom, true, true, false)?,
    })
}

/// The condition that AND is null: a part is, and the other one is not false.
fn null_of_and(list: &mut Vec<Condition>, left: Views, right: Views) -> Result<usize, AllocError> {
    let by_left = add(list, Condition::Both(left.null, right.not_false))?;
    let by_right = add(list, Condition::Both(left.not_false, right.null))?;
    add(list, Condition::Either(by_left, by_right))
}

/// The condition that AND is not null.
fn not_null_of_and(
    list: &mut Vec<Condition>,
    left: Views,
    right: Views,
) -> Result<usize, AllocError> {
    let by_left = add(list, Condition::Either(left.not_null, right.falsity))?;
    let by_right = add(list, Condition::Either(left.falsity, right.not_null))?;
    add(list, Condition::Both(by_left, by_right))
}

fn of_and(list: &mut Vec<Condition>, left: Views, right: Views) -> Result<Views, AllocError> {
    Ok(Views {
        truth: add(list, Condition::Both(left.truth, right.truth))?,
        falsity: add(list, Condition::Either(left.falsity, right.falsity))?,
        null: null_of_and(list, left, right)?,
        not_true: add(list, Condition::Either(left.not_true, right.not_true))?,
        not_false: add(list, Condition::Both(left.not_false, right.not_false))?,
        not_null: not_null_of_and(list, left, right)?,
    })
}

/// The place of the atom among the atoms; the number of atoms if it is not among them.
fn number_of<A: Allocator>(atoms: &[&Atom<A>], atom: &Atom<A>) -> usize {
    for (number, held) in atoms.iter().enumerate() {
        if same_atom(atom, *held) {
            return number;
        }
    }
    atoms.len()
}

/// Adds the conditions of a filter.
fn add_filter<A: Allocator>(
    list: &mut Vec<Condition>,
    atoms: &[&Atom<A>],
    filter: &Filter<A>,
) -> Result<Views, AllocError> {
    match filter {
        Filter::Const(known) => of_const(list, *known),
        Filter::Atom(atom) => of_atom(list, number_of(atoms, atom)),
        Filter::Not(part) => Ok(add_filter(list, atoms, part)?.negated()),
        Filter::And(left, right) => {
            let left = add_filter(list, atoms, left)?;
            let right = add_filter(list, atoms, right)?;
            of_and(list, left, right)
        }
        // By De Morgan's law.
        Filter::Or(left, right) => {
            let left = add_filter(list, atoms, left)?.negated();
            let right = add_filter(list, atoms, right)?.negated();
            Ok(of_and(list, left, right)?.negated())
        }
        Filter::Is(test, part) => {
            let part = add_filter(list, atoms, part)?;
            of_test(list, *test, part)
        }
    }
}

/// Adds the conditions of a share, and returns the place of the condition that it takes a row.
fn add_share<A: Allocator>(
    list: &mut Vec<Condition>,
    atoms: &[&Atom<A>],
    share: &Share<A>,
) -> Result<usize, AllocError> {
    match share {
        Share::Nothing => add(list, Condition::Const(false)),
        Share::Everything => add(list, Condition::Const(true)),
        Share::Where(filter) => Ok(add_filter(list, atoms, filter)?.truth),
    }
}

/// Notes that these places are used.
fn use_parts(used: &mut [bool], condition: Condition) {
    match condition {
        Condition::Const(_) | Condition::Value(..) => {}
        Condition::Both(left, right) | Condition::Either(left, right) => {
            put(used, left, true);
            put(used, right, true);
        }
    }
}

/// The conditions of which this one is made.
fn used_by(alloc: Global, list: &[Condition], root: usize) -> Result<Vec<bool>, AllocError> {
    let mut used = vec![in alloc; false; list.len()]?;
    put(&mut used, root, true);
    for (place, condition) in list.iter().enumerate().rev() {
        if is_at(&used, place) {
            use_parts(&mut used, *condition);
        }
    }
    Ok(used)
}

/// Whether a place is marked.
pub fn is_at(marks: &[bool], place: usize) -> bool {
    marks.get(place).copied().unwrap_or(false)
}

fn place_at(places: &[usize], place: usize) -> usize {
    places.get(place).copied().unwrap_or(0)
}

/// The condition, if its parts have these places.
fn moved(condition: Condition, places: &[usize]) -> Condition {
    match condition {
        Condition::Const(_) | Condition::Value(..) => condition,
        Condition::Both(left, right) => {
            Condition::Both(place_at(places, left), place_at(places, right))
        }
        Condition::Either(left, right) => {
            Condition::Either(place_at(places, left), place_at(places, right))
        }
    }
}

/// Adds to a list the condition that the share takes a row, and all conditions of which it is made. It comes last.
pub fn add_taking<A: Allocator>(
    alloc: Global,
    conditions: &mut Vec<Condition>,
    atoms: &[&Atom<A>],
    share: &Share<A>,
) -> Result<(), AllocError> {
    let mut list = Vec::new(alloc);
    let root = add_share(&mut list, atoms, share)?;
    let used = used_by(alloc, &list, root)?;
    let mut places = Vec::new(alloc);
    for (place, condition) in list.iter().enumerate() {
        places.push(conditions.len())?;
        if is_at(&used, place) {
            let _ = add(conditions, moved(*condition, &places))?;
        }
    }
    Ok(())
}

/// What is known about a condition at a place.
pub fn outcome_at(outcomes: &[Outcome], place: usize) -> Outcome {
    outcomes.get(place).copied().unwrap_or(Outcome::Open)
}

fn of_both(left: Outcome, right: Outcome) -> Outcome {
    match (left, right) {
        (Outcome::Missed, _) | (_, Outcome::Missed) => Outcome::Missed,
        (Outcome::Met, Outcome::Met) => Outcome::Met,
        _ => Outcome::Open,
    }
}

fn of_either(left: Outcome, right: Outcome) -> Outcome {
    match (left, right) {
        (Outcome::Met, _) | (_, Outcome::Met) => Outcome::Met,
        (Outcome::Missed, Outcome::Missed) => Outcome::Missed,
        _ => Outcome::Open,
    }
}

/// What is known about the condition that a value is in the second set, if it is in the first.
fn of_value(mask: Mask, wanted: Mask) -> Outcome {
    if !meets(mask, wanted) {
        Outcome::Missed
    } else if is_within(mask, wanted) {
        Outcome::Met
    } else {
        Outcome::Open
    }
}

/// What is known about a condition if its atoms have values in these sets and this is known about its parts.
pub fn outcome_of(condition: Condition, masks: &[Mask], outcomes: &[Outcome]) -> Outcome {
    match condition {
        Condition::Const(true) => Outcome::Met,
        Condition::Const(false) => Outcome::Missed,
        Condition::Value(atom, wanted) => of_value(mask_at(masks, atom), wanted),
        Condition::Both(left, right) => {
            of_both(outcome_at(outcomes, left), outcome_at(outcomes, right))
        }
        Condition::Either(left, right) => {
            of_either(outcome_at(outcomes, left), outcome_at(outcomes, right))
        }
    }
}

/// Finds what is known about each condition of a share if atoms have values in these sets.
pub fn evaluate(
    conditions: &[Condition],
    share: ShareFormula,
    masks: &[Mask],
    outcomes: &mut [Outcome],
) {
    for place in share.start..share.end {
        if let Some(condition) = conditions.get(place) {
            let outcome = outcome_of(*condition, masks, outcomes);
            put(outcomes, place, outcome);
        }
    }
}

/// Marks the conditions of a share that are open and may make a difference to one that is marked.
pub fn mark_live(
    conditions: &[Condition],
    share: ShareFormula,
    outcomes: &[Outcome],
    live: &mut [bool],
) {
    for place in (share.start..share.end).rev() {
        if let (true, Some(condition)) = (is_at(live, place), conditions.get(place)) {
            if outcome_at(outcomes, place) == Outcome::Open {
                use_parts(live, *condition);
            } else {
                put(live, place, false);
            }
        }
    }
}
