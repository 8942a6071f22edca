//! Comparisons of a column with a literal.

ghost use Rattle.std.specs.Prelude.{◌≡◌};
ghost use Rattle.filter_tree.specs.Expr as expr;
ghost use Rattle.filter_tree.specs.Shape.{expr_view};
ghost use Rattle.filter_tree.specs.Values.{constant_view};
ghost use Rattle.sql_reader.specs.Operands as spec;
ghost use Rattle.sql_reader.specs.Operands.{operand_view, part_view};
ghost use Rattle.sql_reader.specs.Reading.{Answers};
ghost use Rattle.sql_reader.specs.Written as written;
ghost use Rattle.sql_reader.specs.Written.{as_filter};

use crate::error::{ErrorKind, Omitted, ReadError};
use crate::item::Item;
use crate::operand::{Operand, Part};
use filter_tree::{Atom, ColType, Filter, Literal, Op, Term};
use sql_tokens::Operator;

/// The comparison that a token is.
pub fn comparison_by(item: Option<Item>) -> Option<Op>
    ensures { result ≡ spec.comparison_by item }
{
    match item {
        Some(Item::Operator(Operator::Equal)) => Some(Op::Eq),
        Some(Item::Operator(Operator::NotEqual)) => Some(Op::Ne),
        Some(Item::Operator(Operator::Less)) => Some(Op::Lt),
        Some(Item::Operator(Operator::LessOrEqual)) => Some(Op::Le),
        Some(Item::Operator(Operator::Greater)) => Some(Op::Gt),
        Some(Item::Operator(Operator::GreaterOrEqual)) => Some(Op::Ge),
        _ => None,
    }
}

/// The comparison with its sides swapped.
fn turned(op: Op) -> Op
    ensures { result ≡ written.turned op }
{
    match op {
        Op::Eq => Op::Eq,
        Op::Ne => Op::Ne,
        Op::Lt => Op::Gt,
        Op::Le => Op::Ge,
        Op::Gt => Op::Lt,
        Op::Ge => Op::Le,
    }
}

/// Refuses an order comparison of texts or of truth values.
fn equality(place: usize, op: Op) -> Result<(), ReadError>
    ensures { Answers (λ u. u) (spec.equality place op) result }
{
    match op {
        Op::Eq | Op::Ne => Ok(()),
        Op::Lt | Op::Le | Op::Gt | Op::Ge => Err(ReadError {
            place,
            kind: ErrorKind::LeftOut(Omitted::Order),
        }),
    }
}

/// Refuses to compare a column of this type, or a remainder of one, with this literal.
pub fn fits(place: usize, kind: ColType, op: Op, literal: &Literal) -> Result<(), ReadError>
    ensures { Answers (λ u. u) (spec.comparable place kind op (constant_view literal.now)) result }
{
    match (kind, literal) {
        (ColType::Text, Literal::Text(_)) => equality(place, op),
        (ColType::Boolean, Literal::Bool(_)) => equality(place, op),
        (ColType::SmallInt | ColType::Integer | ColType::BigInt, Literal::Int(_)) => Ok(()),
        (_, Literal::Text(_)) => Err(ReadError {
            place,
            kind: ErrorKind::LeftOut(Omitted::Literal),
        }),
        _ => Err(ReadError {
            place,
            kind: ErrorKind::TypeClash,
        }),
    }
}

/// The comparison of a column or a remainder with a literal, if they fit.
fn with_literal(
    place: usize,
    term: Term,
    kind: ColType,
    op: Op,
    literal: Literal,
) -> Result<Filter, ReadError>
    ensures { Answers expr_view
        (spec.fitting (spec.comparable place kind op (constant_view literal))
        (expr.Atom (expr.Cmp term op (constant_view literal)))) result }
{
    fits(place, kind, op, &literal)?;
    Ok(Filter::Atom(Atom::Cmp(term, op, literal)))
}

/// The comparison of a literal with a column or a remainder, if they fit.
fn from_literal(
    place: usize,
    literal: Literal,
    op: Op,
    term: Term,
    kind: ColType,
) -> Result<Filter, ReadError>
    ensures { Answers expr_view
        (spec.fitting (spec.comparable place kind op (constant_view literal))
        (expr.Atom (expr.Cmp term (written.turned op) (constant_view literal)))) result }
{
    fits(place, kind, op, &literal)?;
    Ok(Filter::Atom(Atom::Cmp(term, turned(op), literal)))
}

/// The comparison of two operands, one of which is a column or a remainder and the other a literal of its kind.
#[tactic(auto, unfolding(crate::specs::Operands::compared))]
fn compared(place: usize, left: Operand, op: Op, right: Operand) -> Result<Filter, ReadError>
    ensures { Answers expr_view (spec.compared as_filter place (operand_view left) op (operand_view right)) result }
{
    let kind = match (left, right) {
        (Operand::Term(term, kind), Operand::Literal(_, literal)) => {
            return with_literal(place, term, kind, op, literal);
        }
        (Operand::Literal(_, literal), Operand::Term(term, kind)) => {
            return from_literal(place, literal, op, term, kind);
        }
        (Operand::Term(_, _), Operand::Term(_, _)) => ErrorKind::LeftOut(Omitted::TwoColumns),
        (Operand::Literal(_, _), Operand::Literal(_, _)) => ErrorKind::LeftOut(Omitted::Constant),
        (Operand::Literal(_, Literal::Text(_)), Operand::Formula(_)) => {
            ErrorKind::LeftOut(Omitted::Literal)
        }
        (Operand::Formula(_), Operand::Literal(_, Literal::Text(_))) => {
            ErrorKind::LeftOut(Omitted::Literal)
        }
        _ => ErrorKind::TypeClash,
    };
    Err(ReadError { place, kind })
}

/// The comparison of two parts, at the place of the left one.
pub fn compared_part(place: usize, left: Part, op: Op, right: Part) -> Result<Part, ReadError>
    ensures { Answers part_view (spec.compared_part as_filter place (part_view left) op (part_view right)) result }
{
    let first = left.place;
    let filter = compared(place, left.operand, op, right.operand)?;
    Ok(Part {
        place: first,
        operand: Operand::Formula(filter),
    })
}
