//! What atoms test, in numbers; truth values and texts are numbers too.

use crate::texts::Texts;
use filter_tree::{Atom, Literal, Op, Term, Tri, compare_literals};
use std::alloc::{AllocError, Allocator, Global};

/// What an atom tests.
#[derive(Drop)]
pub enum AtomKind {
    IsNull,
    Cmp(Op, i64),
    /// The numbers are in ascending order.
    In(Vec<i64>),
    Between(i64, i64),
    Distinct(i64),
}

/// An atom: what it tests of which term, and its bit in a number that is a set of atoms. `IS NULL` has no bit, and
/// neither has any atom after the 64th.
#[derive(Drop)]
pub struct PlainAtom {
    pub column: usize,
    pub term: usize,
    pub kind: AtomKind,
    pub bit: u64,
}

/// The result of the comparison for a number.
fn compares(op: Op, number: i64, constant: i64) -> bool {
    compare_literals(
        op,
        &Literal::<Global>::Int(number),
        &Literal::<Global>::Int(constant),
    )
}

impl AtomKind {
    /// Whether the atom is true if its term has this number.
    pub fn holds(&self, number: i64) -> bool {
        match self {
            AtomKind::IsNull => false,
            AtomKind::Cmp(op, constant) => compares(*op, number, *constant),
            AtomKind::In(constants) => constants.binary_search(&number).is_ok(),
            AtomKind::Between(low, high) => *low <= number && number <= *high,
            AtomKind::Distinct(constant) => number != *constant,
        }
    }

    /// The value of the atom if its column is null.
    pub fn value_of_null(&self) -> Tri {
        if self.is_never_null() {
            Tri::True
        } else {
            Tri::Null
        }
    }

    /// Whether the atom is true or false for null as well.
    pub fn is_never_null(&self) -> bool {
        match self {
            AtomKind::IsNull | AtomKind::Distinct(_) => true,
            AtomKind::Cmp(..) | AtomKind::In(_) | AtomKind::Between(..) => false,
        }
    }
}

/// A constant's number: a number is its own, a truth value is 0 or 1, and a text has its place among the texts.
fn number_of<'a, A: Allocator>(texts: &Texts<'a>, literal: &'a Literal<A>) -> i64 {
    match literal {
        Literal::Int(number) => *number,
        Literal::Bool(truth) => if *truth { 1 } else { 0 },
        Literal::Text(text) => texts.number_of(text.as_str()),
    }
}

/// The constants' numbers, in ascending order.
fn numbers_of<'a, A: Allocator>(
    alloc: Global,
    texts: &Texts<'a>,
    literals: &'a [Literal<A>],
) -> Result<Vec<i64>, AllocError> {
    let mut numbers = Vec::new(alloc);
    for literal in literals {
        numbers.push(number_of(texts, literal))?;
    }
    numbers.sort_unstable();
    Ok(numbers)
}

fn kind_of<'a, A: Allocator>(
    alloc: Global,
    texts: &Texts<'a>,
    atom: &'a Atom<A>,
) -> Result<AtomKind, AllocError> {
    match atom {
        Atom::IsNull(_) => Ok(AtomKind::IsNull),
        Atom::Cmp(_, op, literal) => Ok(AtomKind::Cmp(*op, number_of(texts, literal))),
        Atom::In(_, literals) => Ok(AtomKind::In(numbers_of(alloc, texts, literals)?)),
        Atom::Between(_, low, high) => Ok(AtomKind::Between(*low, *high)),
        Atom::Distinct(_, literal) => Ok(AtomKind::Distinct(number_of(texts, literal))),
    }
}

fn place_of(terms: &[Term], term: Term) -> usize {
    for (place, held) in terms.iter().enumerate() {
        if *held == term {
            return place;
        }
    }
    terms.len()
}

/// The bit of the atom with this number.
fn bit_of(kind: &AtomKind, number: usize) -> u64 {
    match kind {
        AtomKind::IsNull => 0,
        AtomKind::Cmp(..) | AtomKind::In(_) | AtomKind::Between(..) | AtomKind::Distinct(_) =>
            if number < 64 { 1u64 << number } else { 0 },
    }
}

/// The atoms; their terms are among these.
pub fn plain_atoms<'a, A: Allocator>(
    alloc: Global,
    texts: &Texts<'a>,
    terms: &[Term],
    atoms: &[&'a Atom<A>],
) -> Result<Vec<PlainAtom>, AllocError> {
    let mut plain = Vec::new(alloc);
    for (number, atom) in atoms.iter().enumerate() {
        let kind = kind_of(alloc, texts, *atom)?;
        let term = atom.term();
        plain.push(PlainAtom {
            column: term.column(),
            term: place_of(terms, term),
            bit: bit_of(&kind, number),
            kind,
        })?;
    }
    Ok(plain)
}
