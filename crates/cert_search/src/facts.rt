//! What the atoms that are settled say about columns and terms.

use crate::atoms::{AtomKind, PlainAtom};
use crate::masks::{ANY, NOT_NULL, put, value_at};
use crate::problem::{Domain, Problem};
use filter_tree::{Mask, Tri};
use std::alloc::{AllocError, Global};

/// Whether a column is null.
#[derive(Clone, Copy, PartialEq, Eq)]
pub enum Nullness {
    Null,
    Present,
    Open,
}

/// What is known about a column.
#[derive(Clone, Copy)]
pub struct ColumnFacts {
    pub nullness: Nullness,
    /// A term for which no number is left, if there is one.
    pub emptied: Option<usize>,
    /// The bits of the column's atoms that are true.
    held: u64,
    /// The bits of the column's atoms that are false.
    refused: u64,
}

/// What is known about a term if its column is not null: whether a number is left for it, and the bits of the atoms
/// that are true for some number that is left, and for all of them.
#[derive(Clone, Copy)]
pub struct Left {
    pub has_number: bool,
    pub some: u64,
    pub all: u64,
}

/// Nothing is left.
const NONE: Left = Left {
    has_number: false,
    some: 0,
    all: u64::MAX,
};

/// Nothing is known about a column.
const UNKNOWN: ColumnFacts = ColumnFacts {
    nullness: Nullness::Open,
    emptied: None,
    held: 0,
    refused: 0,
};

/// What is known about each column and about each term.
#[derive(Drop)]
pub struct Facts {
    columns: Vec<ColumnFacts>,
    left: Vec<Left>,
}

/// Whether this set has the bits of all atoms that are true, and of none that are false.
fn agrees(holding: u64, held: u64, refused: u64) -> bool {
    holding & held == held && holding & refused == 0
}

/// What the values of its atoms leave for the term.
fn left_to(domain: &Domain, held: u64, refused: u64) -> Left {
    let held = held & domain.bits;
    let mut left = NONE;
    for class in &domain.classes {
        if agrees(class.holding, held, refused) {
            left = Left {
                has_number: true,
                some: left.some | class.holding,
                all: left.all & class.holding,
            };
        }
    }
    left
}

/// Whether an atom may be true and may be false for the numbers that are left.
fn by_left(left: Left, bit: u64) -> Mask {
    if bit == 0 {
        return NOT_NULL;
    }
    Mask {
        truth: left.some & bit != 0,
        falsity: left.all & bit == 0,
        null: false,
    }
}

/// The values of a set, or the value for null.
fn or_of_null(mask: Mask, kind: &AtomKind) -> Mask {
    let of_null = Mask::single(kind.value_of_null());
    Mask {
        truth: mask.truth || of_null.truth,
        falsity: mask.falsity || of_null.falsity,
        null: mask.null || of_null.null,
    }
}

/// What an atom with this value says about its column.
fn said_by(kind: &AtomKind, value: Tri) -> Nullness {
    match (kind, value) {
        (AtomKind::IsNull, Tri::True) => Nullness::Null,
        (AtomKind::IsNull, Tri::False) | (AtomKind::Distinct(_), Tri::False) => Nullness::Present,
        (AtomKind::IsNull, Tri::Null) | (AtomKind::Distinct(_), Tri::True | Tri::Null) => {
            Nullness::Open
        }
        (AtomKind::Cmp(..) | AtomKind::In(_) | AtomKind::Between(..), Tri::Null) => Nullness::Null,
        (AtomKind::Cmp(..) | AtomKind::In(_) | AtomKind::Between(..), Tri::True | Tri::False) => {
            Nullness::Present
        }
    }
}

impl ColumnFacts {
    /// Adds what the atom says by this value.
    fn take(&mut self, plain: &PlainAtom, value: Tri) {
        match value {
            Tri::True => self.held |= plain.bit,
            Tri::False => self.refused |= plain.bit,
            Tri::Null => {}
        }
        let nullness = said_by(&plain.kind, value);
        if nullness != Nullness::Open {
            self.nullness = nullness;
        }
    }

    /// Marks the column as null, unless it is certainly not null, since no number is left for this term of it.
    fn empty(&mut self, term: usize) {
        self.emptied = Some(term);
        if self.nullness == Nullness::Open {
            self.nullness = Nullness::Null;
        }
    }
}

impl Facts {
    /// Facts about a problem, with room for what will be found.
    pub fn new(alloc: Global, problem: &Problem<'_>) -> Result<Facts, AllocError> {
        Ok(Facts {
            columns: vec![in alloc; UNKNOWN; problem.columns.len()]?,
            left: vec![in alloc; NONE; problem.terms.len()]?,
        })
    }

    /// Finds what the atoms of the column of this number, with these values, say about it.
    pub fn find(&mut self, problem: &Problem<'_>, known: &[Mask], number: usize) {
        let mut facts = stated_facts(problem, known, number);
        for term in problem.terms_of(number) {
            if let Some(domain) = problem.terms.get(*term) {
                let left = left_to(domain, facts.held, facts.refused);
                put(&mut self.left, *term, left);
                if !left.has_number {
                    facts.empty(*term);
                }
            }
        }
        put(&mut self.columns, number, facts);
    }

    fn column(&self, number: usize) -> ColumnFacts {
        self.columns.get(number).copied().unwrap_or(UNKNOWN)
    }

    /// Whether the values of the atoms leave the term a number for which these atoms are true.
    pub fn leaves(&self, domain: &Domain, holding: u64) -> bool {
        let column = self.column(domain.column);
        agrees(holding, column.held & domain.bits, column.refused)
    }

    fn left(&self, term: usize) -> Left {
        self.left.get(term).copied().unwrap_or(NONE)
    }

    /// Whether the column with this number is null.
    pub fn nullness(&self, column: usize) -> Nullness {
        self.column(column).nullness
    }

    /// The term that has no value left if the atom has a value that the facts do not allow: a term for which no number
    /// is left unless the column is null, or otherwise the atom's own term.
    pub fn empty_term(&self, plain: &PlainAtom) -> usize {
        self.column(plain.column).emptied.unwrap_or(plain.term)
    }

    /// Which values the atom may have, if these are known.
    pub fn expected(&self, known: &[Mask], atom: usize, plain: &PlainAtom) -> Mask {
        if let Some(value) = value_at(known, atom) {
            return Mask::single(value);
        }
        let kind = &plain.kind;
        match (kind, self.nullness(plain.column)) {
            (AtomKind::IsNull, Nullness::Present) => Mask::single(Tri::False),
            (AtomKind::IsNull, Nullness::Open) => NOT_NULL,
            (_, Nullness::Null) => Mask::single(kind.value_of_null()),
            (_, Nullness::Present) => by_left(self.left(plain.term), plain.bit),
            (_, Nullness::Open) => or_of_null(by_left(self.left(plain.term), plain.bit), kind),
        }
    }
}

/// What the declaration of the column of this number and its atoms with these values say.
fn stated_facts(problem: &Problem<'_>, known: &[Mask], number: usize) -> ColumnFacts {
    let mut facts = UNKNOWN;
    if problem.is_declared(number) {
        facts.nullness = Nullness::Present;
    }
    for atom in problem.atoms_of(number) {
        if let (Some(plain), Some(value)) = (problem.atom(*atom), value_at(known, *atom)) {
            facts.take(plain, value);
        }
    }
    facts
}

/// Which values an atom may have while nothing is known about it.
pub fn open(kind: &AtomKind) -> Mask {
    if kind.is_never_null() { NOT_NULL } else { ANY }
}
