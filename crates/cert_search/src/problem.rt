//! What a certificate of a table has to decide, in numbers; truth values and texts are numbers too, so that the values
//! that a term may have are whole numbers from a least to a greatest one.

use crate::atoms::{PlainAtom, plain_atoms};
use crate::cells::{Cell, Class, bits_of, cells_of, classes_of};
use crate::conditions::{Condition, add_taking};
use crate::texts::Texts;
use filter_tree::{Atom, ColType, Column, Term};
use replica_identity::Share;
use shard_checker::{Range, kind_at, range_of};
use std::alloc::{AllocError, Allocator, Global};

/// The numbers that a term has: for a boolean column 0 and 1, for a text column the numbers of the texts that atoms
/// name, and one more number for every other text.
#[derive(Drop)]
pub struct Domain {
    pub column: usize,
    pub divisor: Option<i64>,
    /// The bits of the term's atoms.
    pub bits: u64,
    /// The numbers, in ascending order.
    pub cells: Vec<Cell>,
    pub classes: Vec<Class>,
}

/// The numbers of the atoms and of the terms of a column, and how many atoms and classes of numbers there are.
#[derive(Drop)]
struct Subjects {
    atoms: Vec<usize>,
    terms: Vec<usize>,
    breadth: u64,
}

/// What a subscriber takes: the conditions from `start` up to `end`, the last of which is that it takes a row.
#[derive(Clone, Copy)]
pub struct ShareFormula {
    pub start: usize,
    pub end: usize,
}

impl ShareFormula {
    /// The place of the condition that the subscriber takes a row.
    pub fn root(self) -> usize {
        self.end.saturating_sub(1)
    }

    /// How many conditions there are.
    pub fn size(self) -> u64 {
        count(self.end.saturating_sub(self.start))
    }
}

/// The question which share takes the rows of a table.
#[derive(Drop)]
pub struct Problem<'a> {
    pub columns: &'a [Column],
    pub terms: Vec<Domain>,
    pub atoms: Vec<PlainAtom>,
    subjects: Vec<Subjects>,
    pub conditions: Vec<Condition>,
    pub shares: Vec<ShareFormula>,
    pub texts: Texts<'a>,
    /// How many columns, terms, classes of numbers and atoms there are.
    pub breadth: u64,
    /// Whether there are atoms on several columns.
    pub has_several_columns: bool,
}

/// A count as 64 bits.
fn count(items: usize) -> u64 {
    u64::try_from(items).unwrap_or(u64::MAX)
}

/// The divisor of a term that is a remainder.
fn divisor_of(term: Term) -> Option<i64> {
    match term {
        Term::Mod(_, divisor) if divisor != 0 => Some(divisor),
        Term::Col(_) | Term::Mod(..) => None,
    }
}

/// The least and the greatest number of the term.
fn numbers_of(columns: &[Column], texts: &Texts<'_>, term: Term) -> Range {
    let kind = kind_at(columns, term.column());
    match kind {
        ColType::SmallInt | ColType::Integer | ColType::BigInt => range_of(kind, term),
        ColType::Boolean => Range {
            least: 0,
            greatest: 1,
        },
        ColType::Text => Range {
            least: 0,
            greatest: texts.unnamed(),
        },
    }
}

/// The numbers of the term, which has this place among the terms.
fn domain_of(
    alloc: Global,
    columns: &[Column],
    texts: &Texts<'_>,
    atoms: &[PlainAtom],
    place: usize,
    term: Term,
) -> Result<Domain, AllocError> {
    let cells = cells_of(alloc, atoms, place, numbers_of(columns, texts, term))?;
    Ok(Domain {
        column: term.column(),
        divisor: divisor_of(term),
        bits: bits_of(atoms, place),
        classes: classes_of(alloc, &cells)?,
        cells,
    })
}

fn domains_of(
    alloc: Global,
    columns: &[Column],
    texts: &Texts<'_>,
    atoms: &[PlainAtom],
    terms: &[Term],
) -> Result<Vec<Domain>, AllocError> {
    let mut domains = Vec::new(alloc);
    for (place, term) in terms.iter().enumerate() {
        domains.push(domain_of(alloc, columns, texts, atoms, place, *term)?)?;
    }
    Ok(domains)
}

/// Adds the conditions of the shares, and returns where the conditions of each are.
fn formulas_of<A: Allocator>(
    alloc: Global,
    conditions: &mut Vec<Condition>,
    atoms: &[&Atom<A>],
    shares: &[&Share<A>],
) -> Result<Vec<ShareFormula>, AllocError> {
    let mut formulas = Vec::new(alloc);
    for share in shares {
        let start = conditions.len();
        add_taking(alloc, conditions, atoms, *share)?;
        formulas.push(ShareFormula {
            start,
            end: conditions.len(),
        })?;
    }
    Ok(formulas)
}

/// The numbers of the atoms of a column.
fn atoms_of(alloc: Global, atoms: &[PlainAtom], column: usize) -> Result<Vec<usize>, AllocError> {
    let mut numbers = Vec::new(alloc);
    for (number, plain) in atoms.iter().enumerate() {
        if plain.column == column {
            numbers.push(number)?;
        }
    }
    Ok(numbers)
}

/// The numbers of the terms of a column.
fn terms_of(alloc: Global, terms: &[Domain], column: usize) -> Result<Vec<usize>, AllocError> {
    let mut numbers = Vec::new(alloc);
    for (number, domain) in terms.iter().enumerate() {
        if domain.column == column {
            numbers.push(number)?;
        }
    }
    Ok(numbers)
}

fn classes_of_column(terms: &[Domain], column: usize) -> u64 {
    let mut classes = 0u64;
    for domain in terms {
        if domain.column == column {
            classes = classes.saturating_add(count(domain.classes.len()));
        }
    }
    classes
}

fn subjects_of(
    alloc: Global,
    columns: &[Column],
    terms: &[Domain],
    atoms: &[PlainAtom],
) -> Result<Vec<Subjects>, AllocError> {
    let mut subjects = Vec::new(alloc);
    for (column, _) in columns.iter().enumerate() {
        let atoms = atoms_of(alloc, atoms, column)?;
        subjects.push(Subjects {
            breadth: classes_of_column(terms, column).saturating_add(count(atoms.len())),
            atoms,
            terms: terms_of(alloc, terms, column)?,
        })?;
    }
    Ok(subjects)
}

/// Whether the atoms are on several columns.
fn are_of_several_columns(atoms: &[PlainAtom]) -> bool {
    let Some(first) = atoms.first() else {
        return false;
    };
    for plain in atoms {
        if plain.column != first.column {
            return true;
        }
    }
    false
}

fn count_classes(terms: &[Domain]) -> u64 {
    let mut classes = 0u64;
    for term in terms {
        classes = classes.saturating_add(count(term.classes.len()));
    }
    classes
}

/// How many columns, terms, classes of numbers and atoms there are.
fn breadth_of(columns: &[Column], terms: &[Domain], atoms: &[PlainAtom]) -> u64 {
    count_classes(terms)
        .saturating_add(count(columns.len()))
        .saturating_add(count(terms.len()))
        .saturating_add(count(atoms.len()))
}

impl<'a> Problem<'a> {
    /// Which of the shares takes the rows of these columns; the atoms and the terms are those of the shares.
    pub fn new<A: Allocator>(
        alloc: Global,
        columns: &'a [Column],
        shares: &[&'a Share<A>],
        atoms: &[&'a Atom<A>],
        terms: &[Term],
    ) -> Result<Problem<'a>, AllocError> {
        let texts = Texts::new(alloc, atoms)?;
        let plain = plain_atoms(alloc, &texts, terms, atoms)?;
        let domains = domains_of(alloc, columns, &texts, &plain, terms)?;
        let mut conditions = Vec::new(alloc);
        let formulas = formulas_of(alloc, &mut conditions, atoms, shares)?;
        Ok(Problem {
            columns,
            breadth: breadth_of(columns, &domains, &plain),
            has_several_columns: are_of_several_columns(&plain),
            subjects: subjects_of(alloc, columns, &domains, &plain)?,
            terms: domains,
            atoms: plain,
            conditions,
            shares: formulas,
            texts,
        })
    }

    /// The numbers of the atoms of the column with this number.
    pub fn atoms_of(&self, column: usize) -> &[usize] {
        match self.subjects.get(column) {
            None => &[],
            Some(subjects) => &subjects.atoms,
        }
    }

    /// The numbers of the terms of the column with this number.
    pub fn terms_of(&self, column: usize) -> &[usize] {
        match self.subjects.get(column) {
            None => &[],
            Some(subjects) => &subjects.terms,
        }
    }

    /// How many atoms and classes of numbers the column with this number has.
    pub fn breadth_of(&self, column: usize) -> u64 {
        match self.subjects.get(column) {
            None => 0,
            Some(subjects) => subjects.breadth,
        }
    }

    /// Whether the column with this number is declared NOT NULL.
    pub fn is_declared(&self, column: usize) -> bool {
        match self.columns.get(column) {
            None => false,
            Some(column) => column.not_null,
        }
    }

    /// How many conditions there are.
    pub fn condition_count(&self) -> u64 {
        count(self.conditions.len())
    }

    /// How many terms there are.
    pub fn term_count(&self) -> u64 {
        count(self.terms.len())
    }

    /// The atom with this number.
    pub fn atom(&self, number: usize) -> Option<&PlainAtom> {
        self.atoms.get(number)
    }
}
