//! Evaluates the numbered atoms for a row, once for each bucket and each interval of a term.

ghost use Rattle.std.specs.Prelude.{◌≡◌, ◌≤ℤ◌, Some, slice_get, length, IfOk, IfSome, IsTrue, All, None};
ghost use Rattle.std.specs.Option.{option_copied};
ghost use Rattle.filter_tree.specs.Datum.{Known, Number};
ghost use Rattle.filter_tree.specs.Expr.{meaning, term_value};
ghost use Rattle.filter_memo.specs.Intervals.{AreAlike, HasNoNumber};
ghost use Rattle.filter_memo.specs.Telling.{AreCells, AreNew, Judges, TellsThese, numbers_at, numbers_in, part_at};

use crate::breakpoints::{Breakpoints, bucket_in, number_in};
use crate::bucket::{Bucket, number_of};
use crate::interval::{Interval, are_alike};
use crate::said::Said;
use filter_tree::{Filter, Row, Tri, eval};
use std::alloc::{AllocError, Global};

/// The values of the atoms of a term, given by its number, for the rows in a bucket.
#[derive(Clone, Copy, Debug, PartialEq, Eq)]
pub struct Cell {
    pub term: usize,
    pub bucket: Bucket,
    pub said: Said,
}

/// The values that are kept for the buckets and the intervals of all terms.
#[derive(Drop)]
pub struct Cells {
    pub buckets: Vec<Option<Cell>>,
    pub intervals: Vec<Interval>,
}

fn empty_buckets(alloc: Global, count: usize) -> Result<Vec<Option<Cell>>, AllocError>
    ensures { IfOk result (λ cells. All (λ cell. cell ≡ None) cells.items) }
{
    let mut cells = Vec::with_capacity(alloc, count)?;
    for _ in 0..count {
        cells.push(None)?;
    }
    Ok(cells)
}

fn empty_interval() -> Interval
    ensures { HasNoNumber result }
{
    Interval {
        term: 0,
        low: 1,
        high: 0,
        said: Said::nothing(),
    }
}

fn empty_intervals(alloc: Global, count: usize) -> Result<Vec<Interval>, AllocError>
    ensures { IfOk result (λ intervals. All HasNoNumber intervals.items) }
{
    let mut intervals = Vec::with_capacity(alloc, count)?;
    for _ in 0..count {
        intervals.push(empty_interval())?;
    }
    Ok(intervals)
}

impl Cells {
    ghost use Rattle.std.specs.Prelude.{IfOk};
    ghost use Rattle.filter_memo.specs.Telling.{AreNew};

    /// Empty cells for the given numbers of buckets and intervals.
    pub fn new(alloc: Global, buckets: usize, intervals: usize) -> Result<Cells, AllocError>
        ensures { IfOk result AreNew }
    {
        let buckets = empty_buckets(alloc, buckets)?;
        let intervals = empty_intervals(alloc, intervals)?;
        Ok(Cells { buckets, intervals })
    }
}

/// The value of the atom with this number.
fn part_says(parts: &[Filter], number: usize, row: &Row) -> Tri
    ensures { result ≡ meaning (part_at parts.now number) row.now }
{
    match parts.get(number) {
        None => Tri::False,
        Some(part) => eval(part, row),
    }
}

/// The values of the atoms with these numbers.
#[tactic(auto, using(crate::proofs::Judging::no_values, crate::proofs::Judging::one_more_value))]
fn judge(parts: &[Filter], numbers: &[usize], row: &Row) -> Said
    ensures { TellsThese parts.now numbers.now row.now result }
{
    match numbers {
        [] => Said::nothing(),
        [number, rest @ ..] => {
            judge(parts, rest, row).with(*number, part_says(parts, *number, row))
        }
    }
}

/// The values that are kept for a bucket of the term.
#[tactic(auto, using(crate::proofs::Judging::cell_is))]
fn found(cells: &[Option<Cell>], index: usize, term: usize, bucket: Bucket) -> Option<Said>
    ensures { IfSome result (λ said. slice_get cells.now index
        ≡ Some (Some (record { term = term; bucket = bucket; said = said }))) }
{
    match cells.get(index) {
        Some(Some(cell)) if cell.term == term && cell.bucket == bucket => Some(cell.said),
        _ => None,
    }
}

fn breakpoints_at(all_breakpoints: &[Breakpoints], number: usize) -> Option<&Breakpoints>
    ensures { option_copied result ≡ slice_get all_breakpoints.now number }
{
    all_breakpoints.get(number)
}

/// The index of the cell for the interval at this position.
fn cell_of(breakpoints: &Breakpoints, position: usize) -> usize {
    breakpoints.first_interval.wrapping_add(position)
}

/// The interval at this index, if it belongs to the term and contains the number.
fn interval_at(intervals: &[Interval], index: usize, term: usize, number: i64) -> Option<Interval>
    ensures found { IfSome result (λ interval. slice_get intervals.now index ≡ Some interval) }
    ensures term { IfSome result (λ interval. interval.term ≡ term) }
    ensures low { IfSome result (λ interval. interval.low ≤ℤ number) }
    ensures high { IfSome result (λ interval. number ≤ℤ interval.high) }
{
    let interval = *intervals.get(index)?;
    if interval.term == term && interval.low <= number && number <= interval.high {
        return Some(interval);
    }
    None
}

/// The interval at this position, if it contains the value and no constant divides it.
fn interval_of(
    breakpoints: &Breakpoints,
    number: usize,
    position: usize,
    value: i64,
    said: Said,
) -> Option<Interval>
    ensures term { IfSome result (λ interval. interval.term ≡ number) }
    ensures said { IfSome result (λ interval. interval.said ≡ said) }
    ensures low { IfSome result (λ interval. interval.low ≤ℤ value) }
    ensures high { IfSome result (λ interval. value ≤ℤ interval.high) }
    ensures alike { IfSome result (λ interval. AreAlike breakpoints.now.bounds.items interval.low interval.high) }
{
    let (low, high) = breakpoints.index.ends(position)?;
    if low <= value && value <= high && are_alike(&breakpoints.bounds, low, high) {
        return Some(Interval {
            term: number,
            low,
            high,
            said,
        });
    }
    None
}

/// The values of the atoms of a term, for a row in which the term is a number. `number` is the term's.
fn locate_number(
    cells: &mut Cells,
    parts: &[Filter],
    all_breakpoints: &[Breakpoints],
    breakpoints: &Breakpoints,
    number: usize,
    value: i64,
    row: &Row,
) -> Said
    requires breakpoints { slice_get all_breakpoints.now number ≡ Some breakpoints.now }
    requires value { term_value breakpoints.now.term row.now ≡ Known (Number value) }
    ensures { AreCells parts.now all_breakpoints.now cells.old → Judges parts.now all_breakpoints.now cells.new
        (numbers_at all_breakpoints.now number) row.now result }
{
    let position = breakpoints.index.find(value);
    let index = cell_of(breakpoints, position);
    if let Some(found) = interval_at(&cells.intervals, index, number, value) {
        return found.said;
    }
    let said = judge(parts, &breakpoints.numbers, row);
    let Some(interval) = interval_of(breakpoints, number, position, value, said) else {
        return said;
    };
    if index < cells.intervals.len() {
        cells.intervals[index] = interval;
    }
    said
}

/// The values of the atoms of a term, for any row. `number` is the term's.
fn locate_bucket(
    cells: &mut Cells,
    parts: &[Filter],
    all_breakpoints: &[Breakpoints],
    breakpoints: &Breakpoints,
    number: usize,
    row: &Row,
) -> Said
    requires breakpoints { slice_get all_breakpoints.now number ≡ Some breakpoints.now }
    ensures { AreCells parts.now all_breakpoints.now cells.old → Judges parts.now all_breakpoints.now cells.new
        (numbers_at all_breakpoints.now number) row.now result }
{
    let bucket = bucket_in(breakpoints, row);
    let index = breakpoints.base.wrapping_add(number_of(&bucket));
    if let Some(said) = found(&cells.buckets, index, number, bucket) {
        return said;
    }
    let said = judge(parts, &breakpoints.numbers, row);
    if index < cells.buckets.len() {
        cells.buckets[index] = Some(Cell {
            term: number,
            bucket,
            said,
        });
    }
    said
}

/// The values of the atoms of the term with this number.
fn locate(
    cells: &mut Cells,
    parts: &[Filter],
    all_breakpoints: &[Breakpoints],
    number: usize,
    row: &Row,
) -> Said
    ensures { AreCells parts.now all_breakpoints.now cells.old → Judges parts.now all_breakpoints.now cells.new
        (numbers_at all_breakpoints.now number) row.now result }
{
    let Some(breakpoints) = breakpoints_at(all_breakpoints, number) else {
        return Said::nothing();
    };
    match number_in(breakpoints, row) {
        Some(value) => locate_number(
            cells,
            parts,
            all_breakpoints,
            breakpoints,
            number,
            value,
            row,
        ),
        None => locate_bucket(cells, parts, all_breakpoints, breakpoints, number, row),
    }
}

/// The values of the atoms of all terms.
pub fn locate_all(
    cells: &mut Cells,
    parts: &[Filter],
    all_breakpoints: &[Breakpoints],
    row: &Row,
) -> Said
    ensures { AreCells parts.now all_breakpoints.now cells.old → Judges parts.now all_breakpoints.now cells.new
        (numbers_in all_breakpoints.now) row.now result }
{
    let mut said = Said::nothing();
    for number in 0..all_breakpoints.len() {
        said = said.join(locate(cells, parts, all_breakpoints, number, row));
    }
    said
}
