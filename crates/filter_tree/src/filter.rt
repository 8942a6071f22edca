ghost use Rattle.std.specs.Prelude.{◌≡◌};

use crate::value::Literal;
use std::alloc::{Allocator, Global};

/// What a comparison looks at: a column, by its number from 0, or the remainder of an integer column by a divisor. A
/// remainder has the sign of the column's value, and the remainder by 0 is that value.
///
/// PostgreSQL 15, 9.3 Mathematical Functions and Operators.
#[derive(Clone, Copy, Debug, PartialEq, Eq)]
pub enum Term {
    Col(usize),
    Mod(usize, i64),
}

impl Term {
    ghost use Rattle.filter_tree.specs.Lists.{column_of};

    /// The column that the term looks at.
    pub fn column(self) -> usize
        ensures { result ≡ column_of self }
    {
        match self {
            Term::Col(column) | Term::Mod(column, _) => column,
        }
    }
}

/// A comparison operator: `=`, `<>`, `<`, `<=`, `>`, `>=`.
///
/// PostgreSQL 15, 9.2 Comparison Functions and Operators.
#[derive(Clone, Copy, Debug, PartialEq, Eq)]
pub enum Op {
    Eq,
    Ne,
    Lt,
    Le,
    Gt,
    Ge,
}

/// A test of one column, or of the remainder of one.
#[derive(Debug, Drop)]
pub enum Atom<A: Allocator = Global> {
    /// A comparison with a constant.
    Cmp(Term, Op, Literal<A>),
    /// `IS NULL` of a column.
    IsNull(usize),
    /// `IN` a list of constants. A filter that was read has each of them once, in ascending order.
    In(Term, Vec<Literal<A>, A>),
    /// `BETWEEN` two numbers, the low end first. Both ends are included.
    Between(Term, i64, i64),
    /// `IS DISTINCT FROM` a constant.
    Distinct(Term, Literal<A>),
}

impl<A: Allocator> Atom<A> {
    ghost use Rattle.filter_tree.specs.Expr.{term_of};
    ghost use Rattle.filter_tree.specs.Shape.{atom_view};

    /// The term that the atom looks at; `IS NULL` looks at its column.
    pub fn term(&self) -> Term
        ensures { result ≡ term_of (atom_view self.now) }
    {
        match self {
            Atom::Cmp(term, _, _)
            | Atom::In(term, _)
            | Atom::Between(term, _, _)
            | Atom::Distinct(term, _) => *term,
            Atom::IsNull(column) => Term::Col(*column),
        }
    }
}

/// What `IS TRUE`, `IS FALSE` and `IS UNKNOWN` test for.
///
/// PostgreSQL 15, 9.2 Comparison Functions and Operators.
#[derive(Clone, Copy, Debug, PartialEq, Eq)]
pub enum Test {
    True,
    False,
    Unknown,
}

/// A row filter. A chain of ANDs and ORs, of any length, leans to the left; `drop` walks down it in a loop, and uses
/// stack only for a right part.
///
/// PostgreSQL 15, "Logical Replication", 31.3 Row Filters.
#[derive(Debug)]
pub enum Filter<A: Allocator = Global> {
    Const(bool),
    Atom(Atom<A>),
    Not(Box<Filter<A>, A>),
    And(Box<Filter<A>, A>, Box<Filter<A>, A>),
    Or(Box<Filter<A>, A>, Box<Filter<A>, A>),
    Is(Test, Box<Filter<A>, A>),
}

impl<A: Allocator> Drop for Filter<A> {
    fn drop(mut self) {
        loop {
            match self {
                Filter::Const(_) | Filter::Atom(_) => return,
                Filter::Not(part) | Filter::Is(_, part) => self = Box::into_inner(part),
                Filter::And(left, right) | Filter::Or(left, right) => {
                    drop(right);
                    self = Box::into_inner(left);
                }
            }
        }
    }
}
