ghost use Rattle.std.specs.Prelude.{◌≡◌, map};
ghost use Rattle.std.specs.List.{list_any};
ghost use Rattle.filter_tree.specs.Values.{datum_view, constant_view};
ghost use Rattle.filter_tree.specs.Compare.{compare_of, compare_known, equals, among_of, between_of, distinct_of};
ghost use Rattle.filter_tree.specs.Compare.{compare_numbers_of, compare_truths_of, compare_texts_of};

use crate::filter::Op;
use crate::text::Text;
use crate::tri::Tri;
use crate::value::{Literal, Value};
use std::alloc::Allocator;

/// SQL's `value op literal`, which is null if the value is null. Otherwise a comparison of different types is false,
/// and so is an order comparison of texts or of truth values.
///
/// PostgreSQL 15, 9.2 Comparison Functions and Operators.
pub fn compare<A: Allocator, B: Allocator>(op: Op, value: &Value<A>, literal: &Literal<B>) -> Tri
    ensures { result ≡ compare_of op (datum_view value.now) (constant_view literal.now) }
{
    match (value, literal) {
        (Value::Null, _) => Tri::Null,
        (Value::Int(left), Literal::Int(right)) => Tri::from(compare_numbers(op, *left, *right)),
        (Value::Bool(left), Literal::Bool(right)) => Tri::from(compare_truths(op, *left, *right)),
        (Value::Text(left), Literal::Text(right)) => Tri::from(compare_texts(op, left, right)),
        (Value::Int(_) | Value::Bool(_) | Value::Text(_), _) => Tri::False,
    }
}

/// SQL's `value IN (literals)`, which is null if the value is null.
///
/// PostgreSQL 15, 9.24.1 IN.
pub fn compare_list<A: Allocator, B: Allocator>(value: &Value<A>, literals: &[Literal<B>]) -> Tri
    ensures { result ≡ among_of (datum_view value.now) (map constant_view literals.now) }
{
    if matches!(value, Value::Null) {
        return Tri::Null;
    }
    Tri::from(is_among(value, literals))
}

fn is_among<A: Allocator, B: Allocator>(value: &Value<A>, literals: &[Literal<B>]) -> bool
    ensures { result ≡ list_any (equals (datum_view value.now)) (map constant_view literals.now) }
{
    for literal in literals {
        if is_equal(value, literal) {
            return true;
        }
    }
    false
}

/// Whether the value equals the literal; null equals no literal.
fn is_equal<A: Allocator, B: Allocator>(value: &Value<A>, literal: &Literal<B>) -> bool
    ensures { result ≡ equals (datum_view value.now) (constant_view literal.now) }
{
    match (value, literal) {
        (Value::Int(left), Literal::Int(right)) => left == right,
        (Value::Bool(left), Literal::Bool(right)) => left == right,
        (Value::Text(left), Literal::Text(right)) => left.as_str() == right.as_str(),
        (Value::Null | Value::Int(_) | Value::Bool(_) | Value::Text(_), _) => false,
    }
}

/// SQL's `value BETWEEN low AND high`, which is null if the value is null.
///
/// PostgreSQL 15, 9.2 Comparison Functions and Operators.
pub fn compare_between<A: Allocator>(value: &Value<A>, low: i64, high: i64) -> Tri
    ensures { result ≡ between_of (datum_view value.now) low high }
{
    match value {
        Value::Null => Tri::Null,
        Value::Int(number) => Tri::from(low <= *number && *number <= high),
        Value::Bool(_) | Value::Text(_) => Tri::False,
    }
}

/// SQL's `value IS DISTINCT FROM literal`, which is true if the value is null.
///
/// PostgreSQL 15, 9.2 Comparison Functions and Operators.
pub fn compare_distinct<A: Allocator, B: Allocator>(value: &Value<A>, literal: &Literal<B>) -> Tri
    ensures { result ≡ distinct_of (datum_view value.now) (constant_view literal.now) }
{
    match value {
        Value::Null => Tri::True,
        Value::Int(_) | Value::Bool(_) | Value::Text(_) => compare(Op::Ne, value, literal),
    }
}

/// Whether `left op right` holds for two constants. It never holds for constants of different types. For texts and
/// truth values only `=` and `<>` can hold.
///
/// PostgreSQL 15, 9.2 Comparison Functions and Operators.
pub fn compare_literals<A: Allocator, B: Allocator>(
    op: Op,
    left: &Literal<A>,
    right: &Literal<B>,
) -> bool
    ensures { result ≡ compare_known op (constant_view left.now) (constant_view right.now) }
{
    match (left, right) {
        (Literal::Int(left), Literal::Int(right)) => compare_numbers(op, *left, *right),
        (Literal::Bool(left), Literal::Bool(right)) => compare_truths(op, *left, *right),
        (Literal::Text(left), Literal::Text(right)) => compare_texts(op, left, right),
        (Literal::Int(_) | Literal::Bool(_) | Literal::Text(_), _) => false,
    }
}

fn compare_numbers(op: Op, left: i64, right: i64) -> bool
    ensures { result ≡ compare_numbers_of op left right }
{
    match op {
        Op::Eq => left == right,
        Op::Ne => left != right,
        Op::Lt => left < right,
        Op::Le => left <= right,
        Op::Gt => left > right,
        Op::Ge => left >= right,
    }
}

fn compare_truths(op: Op, left: bool, right: bool) -> bool
    ensures { result ≡ compare_truths_of op left right }
{
    match op {
        Op::Eq => left == right,
        Op::Ne => left != right,
        Op::Lt | Op::Le | Op::Gt | Op::Ge => false,
    }
}

fn compare_texts<A: Allocator, B: Allocator>(op: Op, left: &Text<A>, right: &Text<B>) -> bool
    ensures { result ≡ compare_texts_of op left.now right.now }
{
    match op {
        Op::Eq => left.as_str() == right.as_str(),
        Op::Ne => left.as_str() != right.as_str(),
        Op::Lt | Op::Le | Op::Gt | Op::Ge => false,
    }
}
