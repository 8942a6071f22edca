//! Breakpoints: the constants that atoms compare a term with.

ghost use Rattle.std.specs.Prelude.{◌≡◌, int_rem, IfSome};
ghost use Rattle.filter_tree.specs.Datum.{Known, Number};
ghost use Rattle.filter_tree.specs.Expr.{remainder_of, term_value};
ghost use Rattle.filter_tree.specs.Values.{datum_view};
ghost use Rattle.filter_memo.specs.Buckets.{IsBucket};

use crate::bucket::{Bucket, bucket_of};
use crate::interval_index::IntervalIndex;
use filter_tree::{Row, Term, Value};

/// A term, the constants that atoms compare it with in ascending order, and the numbers of these atoms. The cells of
/// its buckets start at `base`, and those of its intervals at `first_interval`.
#[derive(Drop)]
pub struct Breakpoints {
    pub term: Term,
    pub bounds: Vec<Value>,
    pub numbers: Vec<usize>,
    pub index: IntervalIndex,
    pub base: usize,
    pub first_interval: usize,
}

/// The number of buckets among this number of bounds.
pub fn width(bounds: usize) -> usize {
    bounds.saturating_mul(2).saturating_add(2)
}

/// The bucket of a remainder. It has the sign of the value that is divided.
fn bucket_of_remainder(bounds: &[Value], value: &Value, divisor: i64) -> Bucket
    ensures { IsBucket bounds.now (remainder_of (datum_view value.now) divisor) result }
{
    match value {
        Value::Int(number) if divisor != 0 => {
            bucket_of(bounds, &Value::Int(number.wrapping_rem(divisor)))
        }
        Value::Null | Value::Int(_) | Value::Bool(_) | Value::Text(_) => bucket_of(bounds, value),
    }
}

/// The bucket of the value that the term has in a row.
pub fn bucket_in(breakpoints: &Breakpoints, row: &Row) -> Bucket
    ensures { IsBucket breakpoints.now.bounds.items (term_value breakpoints.now.term row.now) result }
{
    let bounds = breakpoints.bounds.as_slice();
    match breakpoints.term {
        Term::Col(column) => match row.get(column) {
            None => bucket_of(bounds, &Value::Null),
            Some(value) => bucket_of(bounds, value),
        },
        Term::Mod(column, divisor) => match row.get(column) {
            None => bucket_of(bounds, &Value::Null),
            Some(value) => bucket_of_remainder(bounds, value, divisor),
        },
    }
}

/// The value of the term in a row, if it is a number.
pub fn number_in(breakpoints: &Breakpoints, row: &Row) -> Option<i64>
    ensures { IfSome result (λ number. term_value breakpoints.now.term row.now ≡ Known (Number number)) }
{
    match breakpoints.term {
        Term::Col(column) => match row.get(column) {
            Some(Value::Int(number)) => Some(*number),
            _ => None,
        },
        Term::Mod(column, divisor) => match row.get(column) {
            Some(Value::Int(number)) if divisor != 0 => Some(number.wrapping_rem(divisor)),
            _ => None,
        },
    }
}
