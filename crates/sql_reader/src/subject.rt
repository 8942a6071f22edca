//! BETWEEN and IS DISTINCT FROM: a column, or a remainder of one, with literals.

ghost use Rattle.filter_tree.specs.Shape.{expr_view};
ghost use Rattle.filter_tree.specs.Values.{constant_view};
ghost use Rattle.std.specs.Prelude.{Ok};
ghost use Rattle.sql_reader.specs.Memberships as spec;
ghost use Rattle.sql_reader.specs.Operands.{operand_view, part_view};
ghost use Rattle.sql_reader.specs.Reading.{Answers};
ghost use Rattle.sql_reader.specs.Written.{as_filter};

use crate::comparison::fits;
use crate::error::{ErrorKind, Omitted, ReadError};
use crate::membership::MembershipWord;
use crate::operand::{Operand, Part};
use crate::truth_test::{DistinctWords, negated_if};
use filter_tree::{Atom, ColType, Filter, Literal, Op, Term};
use std::alloc::Global;

/// What is before IN, BETWEEN or IS DISTINCT FROM: a column or a remainder of one, and the type of the column.
#[derive(Clone, Copy)]
pub struct Subject {
    pub term: Term,
    pub kind: ColType,
}

/// Refuses a literal and a boolean expression before the word at `place`.
pub fn subject_of(place: usize, operand: Operand) -> Result<Subject, ReadError>
    ensures { Answers (λ subject. subject) (spec.subject_before place (operand_view operand)) result }
{
    let kind = match operand {
        Operand::Term(term, kind) => return Ok(Subject { term, kind }),
        Operand::Literal(_, _) => ErrorKind::LeftOut(Omitted::Constant),
        Operand::Formula(_) => ErrorKind::TypeClash,
    };
    Err(ReadError { place, kind })
}

/// The literal after IN or DISTINCT FROM, if it is one to which a column of this type may be equal.
pub fn beside(place: usize, kind: ColType, operand: Operand) -> Result<Literal, ReadError>
    ensures { Answers (λ literal. constant_view literal) (spec.beside place kind (operand_view operand)) result }
{
    let fault = match operand {
        Operand::Literal(_, literal) => {
            fits(place, kind, Op::Eq, &literal)?;
            return Ok(literal);
        }
        Operand::Term(_, _) => ErrorKind::LeftOut(Omitted::TwoColumns),
        Operand::Formula(_) => ErrorKind::TypeClash,
    };
    Err(ReadError { place, kind: fault })
}

/// The number that a literal is when compared with a column of this type.
fn number_beside(place: usize, kind: ColType, literal: &Literal) -> Result<i64, ReadError>
    ensures { Answers (λ number. number) (spec.number_beside place kind (constant_view literal.now)) result }
{
    let fault = match (kind, literal) {
        (ColType::SmallInt | ColType::Integer | ColType::BigInt, Literal::Int(number)) => {
            return Ok(*number);
        }
        (ColType::Boolean, Literal::Bool(_)) => ErrorKind::LeftOut(Omitted::Order),
        (ColType::Text, Literal::Text(_)) => ErrorKind::LeftOut(Omitted::Order),
        (_, Literal::Text(_)) => ErrorKind::LeftOut(Omitted::Literal),
        _ => ErrorKind::TypeClash,
    };
    Err(ReadError { place, kind: fault })
}

/// A bound of BETWEEN, if it is a number and the column's type is a number type.
fn bound(place: usize, kind: ColType, operand: Operand) -> Result<i64, ReadError>
    ensures { Answers (λ number. number) (spec.bound place kind (operand_view operand)) result }
{
    let fault = match operand {
        Operand::Literal(_, literal) => return number_beside(place, kind, &literal),
        Operand::Term(_, _) => ErrorKind::LeftOut(Omitted::TwoColumns),
        Operand::Formula(_) => ErrorKind::TypeClash,
    };
    Err(ReadError { place, kind: fault })
}

#[tactic(auto, unfolding(crate::specs::Memberships::between))]
fn between(place: usize, left: Operand, low: Operand, high: Operand) -> Result<Filter, ReadError>
    ensures { Answers expr_view
        (spec.between as_filter place (operand_view left) (operand_view low) (operand_view high)) result }
{
    let subject = subject_of(place, left)?;
    let low = bound(place, subject.kind, low)?;
    let high = bound(place, subject.kind, high)?;
    Ok(Filter::Atom(Atom::Between(subject.term, low, high)))
}

#[tactic(auto, unfolding(crate::specs::Memberships::distinct_from))]
fn distinct(words: DistinctWords, left: Operand, right: Operand) -> Result<Filter, ReadError>
    ensures { Answers expr_view (spec.distinct_from as_filter words.place words.distinct_place
        (operand_view left) (operand_view right)) result }
{
    let subject = subject_of(words.place, left)?;
    let literal = beside(words.distinct_place, subject.kind, right)?;
    Ok(Filter::Atom(Atom::Distinct(subject.term, literal)))
}

/// A filter at the place of its left side, with or without NOT.
pub fn formed(
    alloc: Global,
    is_negated: bool,
    place: usize,
    filter: Filter,
) -> Result<Part, ReadError>
    ensures { Answers part_view (spec.formed as_filter is_negated place (Ok (expr_view filter))) result }
{
    Ok(Part {
        place,
        operand: Operand::Formula(negated_if(alloc, is_negated, filter)?),
    })
}

/// BETWEEN, after its bounds were read.
pub fn between_part(
    alloc: Global,
    word: MembershipWord,
    left: Part,
    low: Part,
    high: Part,
) -> Result<Part, ReadError>
    ensures { Answers part_view (spec.between_part as_filter word (part_view left)
        (operand_view low.operand) (operand_view high.operand)) result }
{
    let first = left.place;
    let filter = between(word.place, left.operand, low.operand, high.operand)?;
    Ok(formed(alloc, word.is_negated, first, filter)?)
}

/// IS DISTINCT FROM, after its right side was read.
pub fn distinct_part(
    alloc: Global,
    words: DistinctWords,
    left: Part,
    right: Part,
) -> Result<Part, ReadError>
    ensures { Answers part_view
        (spec.distinct_part as_filter words (part_view left) (operand_view right.operand)) result }
{
    let first = left.place;
    let filter = distinct(words, left.operand, right.operand)?;
    Ok(formed(alloc, words.is_negated, first, filter)?)
}
