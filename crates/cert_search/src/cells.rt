//! The numbers of a term, cut where its atoms distinguish them.

use crate::atoms::{AtomKind, PlainAtom};
use filter_tree::Op;
use shard_checker::Range;
use std::alloc::{AllocError, Global};

/// Consecutive numbers for which each atom of the term has the same value, and the bits of the atoms that are true for
/// them.
#[derive(Clone, Copy)]
pub struct Cell {
    pub range: Range,
    pub holding: u64,
}

/// The cells for which each atom of the term has the same value, and the number in them that is nearest to zero.
#[derive(Clone, Copy)]
pub struct Class {
    pub holding: u64,
    pub nearest: i64,
}

/// Adds the number, at which a cell begins.
fn begin_at(starts: &mut Vec<i64>, number: i64) -> Result<(), AllocError> {
    Ok(starts.push(number)?)
}

/// Adds the number after this one, at which a cell begins.
fn begin_after(starts: &mut Vec<i64>, number: i64) -> Result<(), AllocError> {
    match number.checked_add(1) {
        None => Ok(()),
        Some(next) => begin_at(starts, next),
    }
}

/// Cuts the numbers before and after this one.
fn cut_out(starts: &mut Vec<i64>, number: i64) -> Result<(), AllocError> {
    begin_at(starts, number)?;
    begin_after(starts, number)
}

fn cut_out_all(starts: &mut Vec<i64>, numbers: &[i64]) -> Result<(), AllocError> {
    for number in numbers {
        cut_out(starts, *number)?;
    }
    Ok(())
}

/// Adds the numbers at which the atom's value changes.
fn add_starts(starts: &mut Vec<i64>, kind: &AtomKind) -> Result<(), AllocError> {
    match kind {
        AtomKind::IsNull => Ok(()),
        AtomKind::Cmp(Op::Eq | Op::Ne, number) | AtomKind::Distinct(number) => {
            cut_out(starts, *number)
        }
        AtomKind::Cmp(Op::Lt | Op::Ge, number) => begin_at(starts, *number),
        AtomKind::Cmp(Op::Le | Op::Gt, number) => begin_after(starts, *number),
        AtomKind::In(numbers) => cut_out_all(starts, numbers),
        AtomKind::Between(low, high) => {
            begin_at(starts, *low)?;
            begin_after(starts, *high)
        }
    }
}

/// The numbers at which the value of an atom of the term changes, in ascending order.
fn starts_of(alloc: Global, atoms: &[PlainAtom], term: usize) -> Result<Vec<i64>, AllocError> {
    let mut starts = Vec::new(alloc);
    for plain in atoms {
        if plain.term == term {
            add_starts(&mut starts, &plain.kind)?;
        }
    }
    starts.sort_unstable();
    Ok(starts)
}

/// The bits of the atoms of the term that are true for the number.
fn holding_at(atoms: &[PlainAtom], term: usize, number: i64) -> u64 {
    let mut holding = 0;
    for plain in atoms {
        if plain.term == term && plain.kind.holds(number) {
            holding |= plain.bit;
        }
    }
    holding
}

/// The bits of the atoms of the term.
pub fn bits_of(atoms: &[PlainAtom], term: usize) -> u64 {
    let mut bits = 0;
    for plain in atoms {
        if plain.term == term {
            bits |= plain.bit;
        }
    }
    bits
}

/// The cells of the term whose numbers are in the range, in ascending order.
pub fn cells_of(
    alloc: Global,
    atoms: &[PlainAtom],
    term: usize,
    range: Range,
) -> Result<Vec<Cell>, AllocError> {
    let mut cells = Vec::new(alloc);
    let mut rest = range;
    for start in &starts_of(alloc, atoms, term)? {
        if rest.least < *start && *start <= rest.greatest {
            cells.push(Cell {
                range: Range {
                    least: rest.least,
                    greatest: start.saturating_sub(1),
                },
                holding: holding_at(atoms, term, rest.least),
            })?;
            rest.least = *start;
        }
    }
    cells.push(Cell {
        range: rest,
        holding: holding_at(atoms, term, rest.least),
    })?;
    Ok(cells)
}

/// The number of the range that is nearest to zero.
pub fn nearest(range: Range) -> i64 {
    0i64.max(range.least).min(range.greatest)
}

/// The bits of each cell, how far it is from zero, and its number that is nearest to zero, in ascending order.
fn by_holding(alloc: Global, cells: &[Cell]) -> Result<Vec<(u64, u64, i64)>, AllocError> {
    let mut sorted = Vec::new(alloc);
    for cell in cells {
        let nearest = nearest(cell.range);
        sorted.push((cell.holding, nearest.unsigned_abs(), nearest))?;
    }
    sorted.sort_unstable();
    Ok(sorted)
}

/// The classes of the cells.
pub fn classes_of(alloc: Global, cells: &[Cell]) -> Result<Vec<Class>, AllocError> {
    let mut classes = Vec::new(alloc);
    let mut last = None;
    for (holding, _, nearest) in &by_holding(alloc, cells)? {
        if last != Some(*holding) {
            last = Some(*holding);
            classes.push(Class {
                holding: *holding,
                nearest: *nearest,
            })?;
        }
    }
    Ok(classes)
}

/// How often a list of cells is halved, at most.
const MAX_HALVINGS: u64 = 64;

/// The cell that has the number, if one has it. The cells are in ascending order.
pub fn cell_with(cells: &[Cell], number: i64) -> Option<Cell> {
    let (mut from, mut to) = (0usize, cells.len());
    for _ in 0..MAX_HALVINGS {
        if from >= to {
            break;
        }
        let middle = from.saturating_add(to) / 2;
        let cell = cells.get(middle)?;
        if number < cell.range.least {
            to = middle;
        } else if cell.range.greatest < number {
            from = middle.saturating_add(1);
        } else {
            return Some(*cell);
        }
    }
    None
}
