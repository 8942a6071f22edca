//! Parts of an expression, and which of them fit together.

ghost use Rattle.std.specs.Prelude.{◌≡◌};
ghost use Rattle.std.specs.Option.{option_map};
ghost use Rattle.filter_tree.specs.Shape.{expr_view};
ghost use Rattle.sql_reader.specs.Operands as spec;
ghost use Rattle.sql_reader.specs.Operands.{operand_view, part_view};
ghost use Rattle.sql_reader.specs.Reading.{Answers};
ghost use Rattle.sql_reader.specs.Written.{as_filter};

use crate::column::FoundColumn;
use crate::error::{ErrorKind, ReadError};
use filter_tree::{Atom, ColType, Filter, Literal, Op, Term};
use std::alloc::Global;

/// What a part of an expression is. Parentheses around it make no difference.
#[derive(Drop)]
pub enum Operand {
    /// A column or a remainder of one, and the type of the column.
    Term(Term, ColType),
    /// A literal, and the place of its token, which is that of the digits if a minus comes before them.
    Literal(usize, Literal),
    /// A boolean expression that is neither a column nor a literal.
    Formula(Filter),
}

/// A part of an expression.
#[derive(Drop)]
pub struct Part {
    /// The place of its first token.
    pub place: usize,
    pub operand: Operand,
}

/// The filter that an operand is, if it is a boolean one.
pub fn truth(operand: Operand) -> Option<Filter>
    ensures { option_map expr_view result ≡ spec.truth as_filter (operand_view operand) }
{
    match operand {
        Operand::Term(Term::Col(column), ColType::Boolean) => Some(Filter::Atom(Atom::Cmp(
            Term::Col(column),
            Op::Eq,
            Literal::Bool(true),
        ))),
        Operand::Literal(_, Literal::Bool(known)) => Some(Filter::Const(known)),
        Operand::Formula(filter) => Some(filter),
        _ => None,
    }
}

/// The filter that a part is, if a filter is required.
#[tactic(auto, unfolding(crate::specs::Operands::wanted))]
pub fn wanted(part: Part) -> Result<Filter, ReadError>
    ensures { Answers expr_view (spec.wanted as_filter (part_view part)) result }
{
    let place = part.place;
    match truth(part.operand) {
        Some(filter) => Ok(filter),
        None => Err(ReadError {
            place,
            kind: ErrorKind::TypeClash,
        }),
    }
}

/// NOT of a part, at the place of the NOT.
#[tactic(auto, unfolding(crate::specs::Operands::negated))]
pub fn negated(alloc: Global, place: usize, part: Part) -> Result<Part, ReadError>
    ensures { Answers part_view (spec.negated as_filter place (part_view part)) result }
{
    let filter = wanted(part)?;
    Ok(Part {
        place,
        operand: Operand::Formula(Filter::Not(Box::new(alloc, filter)?)),
    })
}

/// AND of a filter and a part, at the place of the filter.
#[tactic(auto, unfolding(crate::specs::Operands::joined))]
pub fn both(alloc: Global, place: usize, left: Filter, right: Part) -> Result<Part, ReadError>
    ensures { Answers part_view (spec.joined as_filter as_filter.both place (expr_view left) (part_view right)) result }
{
    let right = wanted(right)?;
    Ok(Part {
        place,
        operand: Operand::Formula(Filter::And(Box::new(alloc, left)?, Box::new(alloc, right)?)),
    })
}

/// OR of a filter and a part, at the place of the filter.
#[tactic(auto, unfolding(crate::specs::Operands::joined))]
pub fn either(alloc: Global, place: usize, left: Filter, right: Part) -> Result<Part, ReadError>
    ensures { Answers part_view
        (spec.joined as_filter as_filter.either place (expr_view left) (part_view right)) result }
{
    let right = wanted(right)?;
    Ok(Part {
        place,
        operand: Operand::Formula(Filter::Or(Box::new(alloc, left)?, Box::new(alloc, right)?)),
    })
}

/// The column whose remainder may be taken, if an operand is an integer column.
pub fn dividend(operand: Operand) -> Option<FoundColumn>
    ensures { result ≡ spec.dividend (operand_view operand) }
{
    match operand {
        Operand::Term(
            Term::Col(number),
            kind @ (ColType::SmallInt | ColType::Integer | ColType::BigInt),
        ) => Some(FoundColumn { number, kind }),
        _ => None,
    }
}

/// The remainder of a column by a divisor; `place` is that of `%`, which follows what begins at `first`.
#[tactic(auto, unfolding(crate::specs::Operands::remainder))]
pub fn remainder(
    place: usize,
    first: usize,
    dividend: Option<FoundColumn>,
    divisor: Operand,
) -> Result<Part, ReadError>
    ensures { Answers part_view (spec.remainder place first dividend (operand_view divisor)) result }
{
    match (dividend, divisor) {
        (Some(_), Operand::Literal(digits, Literal::Int(0))) => Err(ReadError {
            place: digits,
            kind: ErrorKind::ZeroDivisor,
        }),
        (Some(column), Operand::Literal(_, Literal::Int(divisor))) => Ok(Part {
            place: first,
            operand: Operand::Term(Term::Mod(column.number, divisor), column.kind),
        }),
        _ => Err(ReadError {
            place,
            kind: ErrorKind::TypeClash,
        }),
    }
}
