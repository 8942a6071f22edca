//! Intervals of numbers for which each atom of a term has one value.

ghost use Rattle.std.specs.Prelude.{◌≡◌, IsTrue};
ghost use Rattle.filter_tree.specs.Values.{datum_view};
ghost use Rattle.filter_memo.specs.Intervals as spec;

use crate::said::Said;
use filter_tree::Value;

/// The values of the atoms of a term, given by its number, for all numbers from `low` to `high`.
#[derive(Clone, Copy, Debug, PartialEq, Eq)]
pub struct Interval {
    pub term: usize,
    pub low: i64,
    pub high: i64,
    pub said: Said,
}

/// Whether the constant is no number from `low` to `high`.
fn is_outside(bound: &Value, low: i64, high: i64) -> bool
    ensures { result ≡ spec.is_outside (datum_view bound.now) low high }
{
    match bound {
        Value::Int(number) => *number < low || high < *number,
        Value::Null | Value::Bool(_) | Value::Text(_) => true,
    }
}

fn are_outside(bounds: &[Value], low: i64, high: i64) -> bool
    ensures { result ≡ spec.are_outside bounds.now low high }
{
    bounds.iter().all(|bound| is_outside(bound, low, high))
}

/// Whether each constant compares in the same way with all numbers from `low` to `high`.
pub fn are_alike(bounds: &[Value], low: i64, high: i64) -> bool
    ensures { IsTrue result → spec.AreAlike bounds.now low high }
{
    if low == high {
        return true;
    }
    are_outside(bounds, low, high)
}
