//! Which values a term has.

ghost use Rattle.std.specs.Prelude.{◌≡◌, pos, neg_ℤ, ◌≤ℤ◌};
ghost use Rattle.std.specs.Int.{int_max, int_min};
ghost use Rattle.shard_checker.specs.Domain as spec;

use filter_tree::{ColType, Column, Term};

/// The whole numbers from the least to the greatest.
#[derive(Clone, Copy)]
pub struct Range {
    pub least: i64,
    pub greatest: i64,
}

/// The type of the column with this number, from 0; a column past the last counts as a bigint.
pub fn kind_at(columns: &[Column], column: usize) -> ColType
    ensures { result ≡ spec.kind_at columns.now column }
{
    match columns.get(column) {
        None => ColType::BigInt,
        Some(column) => column.kind,
    }
}

/// The greatest remainder by a divisor that is not 0.
fn greatest_remainder(divisor: i64) -> i64
    ensures remainder { result ≡ spec.greatest_remainder divisor }
    ensures natural { pos 0 ≤ℤ result }
{
    if divisor > 0 {
        divisor - 1
    } else if divisor < 0 {
        -(divisor + 1)
    } else {
        0
    }
}

fn whole_range(kind: ColType) -> Range
    ensures { result ≡ spec.whole_range kind }
{
    Range {
        least: kind.least(),
        greatest: kind.greatest(),
    }
}

fn negated(number: i64) -> i64
    requires { pos 0 ≤ℤ number }
    ensures { result ≡ neg_ℤ number }
{
    -number
}

fn greater(one: i64, other: i64) -> i64
    ensures { result ≡ int_max one other }
{
    if other < one { one } else { other }
}

fn lesser(one: i64, other: i64) -> i64
    ensures { result ≡ int_min one other }
{
    if other < one { other } else { one }
}

/// The numbers of the type that are at most `far` from 0.
fn range_within(kind: ColType, far: i64) -> Range
    requires { pos 0 ≤ℤ far }
    ensures { result ≡ spec.range_within kind far }
{
    Range {
        least: greater(kind.least(), negated(far)),
        greatest: lesser(kind.greatest(), far),
    }
}

/// The numbers that the term of an integer column of this type has. The remainder by 0 is the number itself.
///
/// PostgreSQL 15, 8.1 Numeric Types, and 9.3 Mathematical Functions and Operators.
pub fn range_of(kind: ColType, term: Term) -> Range
    ensures { result ≡ spec.range_of kind term }
{
    match term {
        Term::Mod(_, divisor) if divisor != 0 => range_within(kind, greatest_remainder(divisor)),
        Term::Col(_) | Term::Mod(..) => whole_range(kind),
    }
}
