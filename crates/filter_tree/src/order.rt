//! The order of values and rows, in which ordered maps keep them.

ghost use Rattle.std.specs.Prelude.{◌≡◌, true, refl, Some, IfSome, slice_get};
ghost use Rattle.std.specs.Cmp.{IsTotalOrder};
ghost use Rattle.std.specs.Cmp.Rules.{comparing};
ghost use Rattle.std.specs.FinMap.{IsAntisymmetric};
ghost use Rattle.std.specs.Ordering.{on, is_ne, eq_by_cmp, as_partial_cmp};
ghost use Rattle.std.proofs.Common.{rules};
ghost use Rattle.filter_tree.specs.Datum.{Known, Number};
ghost use Rattle.filter_tree.specs.Order.{datum_rank, datum_cmp, row_cmp, OrdersValues, TiesSameRows};
ghost use Rattle.filter_tree.specs.Values.{datum_view};

use crate::value::{Row, Value};
use std::alloc::Allocator;
use std::cmp::Ordering;

impl<A: Allocator> PartialEq for Value<A> {
    ghost eq = { on (λ value. datum_view value) (eq_by_cmp datum_cmp) };

    ghost laws = { Prim.search (comparing, rules) depth 9 };

    fn eq(&self, other: &Value<A>) -> bool {
        self.cmp(other).is_eq()
    }
}

impl<A: Allocator> Eq for Value<A> {
    ghost laws = { Prim.search (comparing, rules) depth 9 };
}

impl<A: Allocator> PartialOrd for Value<A> {
    ghost partial_cmp = { as_partial_cmp (on (λ value. datum_view value) datum_cmp) };

    ghost laws = { Prim.search (comparing, rules) depth 9 };

    fn partial_cmp(&self, other: &Value<A>) -> Option<Ordering> {
        Some(self.cmp(other))
    }
}

/// Null first, numbers by their size, FALSE before TRUE, texts byte by byte. Values of two kinds, which no column has,
/// are ordered as numbers, truth values, texts.
///
/// PostgreSQL 15, 7.5 Sorting Rows (NULLS FIRST), 9.2 Comparison Functions and Operators, 24.2.2.1 Standard
/// Collations ("C").
impl<A: Allocator> Ord for Value<A> {
    ghost cmp = { on (λ value. datum_view value) datum_cmp };

    ghost total = { Prim.search (comparing, rules) depth 9 };

    ghost matches_partial_cmp = { λ x y. refl };

    ghost matches_eq = { λ x y. refl };

    fn cmp(&self, other: &Value<A>) -> Ordering {
        match (self, other) {
            (Value::Int(number), Value::Int(other_number)) => number.cmp(other_number),
            (Value::Bool(truth), Value::Bool(other_truth)) => truth.cmp(other_truth),
            (Value::Text(text), Value::Text(other_text)) => text.as_str().cmp(other_text.as_str()),
            (Value::Null | Value::Int(_) | Value::Bool(_) | Value::Text(_), _) => {
                rank(self).cmp(&rank(other))
            }
        }
    }
}

/// The place of the value's kind in the order, null first.
fn rank<A: Allocator>(value: &Value<A>) -> u8
    ensures { result ≡ datum_rank (datum_view value.now) }
{
    match value {
        Value::Null => 0,
        Value::Int(_) => 1,
        Value::Bool(_) => 2,
        Value::Text(_) => 3,
    }
}

/// The number that the row begins with, if it begins with one.
fn first_number<A: Allocator>(row: &Row<A>) -> Option<i64>
    ensures { IfSome result (λ number. slice_get row.now 0 ≡ Some (Known (Number number))) }
{
    match row.get(0) {
        Some(Value::Int(number)) => Some(*number),
        Some(Value::Null | Value::Bool(_) | Value::Text(_)) | None => None,
    }
}

/// The order of the numbers at the start of the rows; `Equal` if one of them does not start with a number.
fn order_of_first_numbers<A: Allocator>(row: &Row<A>, other: &Row<A>) -> Ordering
    ensures { is_ne result ≡ true → row_cmp row.now other.now ≡ result }
{
    match (first_number(row), first_number(other)) {
        (Some(number), Some(other_number)) => number.cmp(&other_number),
        (None, _) | (_, None) => Ordering::Equal,
    }
}

/// The order of all values of the rows. It is not inlined, so that numbers which differ are compared without a call.
#[inline(never)]
fn order_of_values<A: Allocator>(row: &Row<A>, other: &Row<A>) -> Ordering
    ensures { result ≡ row_cmp row.now other.now }
{
    row.values().cmp(other.values())
}

impl<A: Allocator> PartialEq for Row<A> {
    ghost eq = { eq_by_cmp row_cmp };

    ghost laws = { Prim.search (comparing, rules) depth 9 };

    fn eq(&self, other: &Row<A>) -> bool {
        self.cmp(other).is_eq()
    }
}

impl<A: Allocator> Eq for Row<A> {
    ghost laws = { Prim.search (comparing, rules) depth 9 };
}

impl<A: Allocator> PartialOrd for Row<A> {
    ghost partial_cmp = { as_partial_cmp row_cmp };

    ghost laws = { Prim.search (comparing, rules) depth 9 };

    fn partial_cmp(&self, other: &Row<A>) -> Option<Ordering> {
        Some(self.cmp(other))
    }
}

/// By the first column in which the rows differ. A row that is the beginning of another row comes before it. Numbers at
/// the start of rows are compared first, since keys most often differ there.
///
/// PostgreSQL 15, 7.5 Sorting Rows.
impl<A: Allocator> Ord for Row<A> {
    ghost cmp = { row_cmp };

    ghost total = { Prim.search (comparing, rules) depth 9 };

    ghost matches_partial_cmp = { λ x y. refl };

    ghost matches_eq = { λ x y. refl };

    fn cmp(&self, other: &Row<A>) -> Ordering {
        let by_numbers = order_of_first_numbers(self, other);
        if by_numbers.is_ne() {
            return by_numbers;
        }
        order_of_values(self, other)
    }
}

/// A law about the order of rows. It is total (`total`), so an ordered map may have rows as its keys. Rows that it ties
/// are equal (`equal`), and it ties rows exactly if they are the same (`ties`). Two values are in the order that
/// PostgreSQL gives the values of a column (`values`).
#[tactic(auto, using(crate::proofs::Rules::order_of_rows))]
pub fn rows_are_ordered()
    ensures total { IsTotalOrder row_cmp }
    ensures equal { IsAntisymmetric row_cmp }
    ensures ties { TiesSameRows }
    ensures values { OrdersValues }
{}
