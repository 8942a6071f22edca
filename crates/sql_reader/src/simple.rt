//! Operands of an expression that are not in parentheses: literals and columns.

ghost use Rattle.std.specs.Prelude.{IsSome};
ghost use Rattle.sql_reader.specs.Expressions as spec;
ghost use Rattle.sql_reader.specs.Operands.{part_view};
ghost use Rattle.sql_reader.specs.ParsingContracts.{Takes, TakesSome, to_read, Reads, item_ahead};

use crate::column::{FoundColumn, known_column};
use crate::error::{ErrorKind, Omitted, ReadError};
use crate::item::Item;
use crate::name::{PlacedName, read_name, string_text};
use crate::number::placed_number;
use crate::operand::{Operand, Part};
use crate::reader::Reader;
use crate::word::Keyword;
use filter_tree::{Column, Literal, Term};
use sql_tokens::Operator;
use std::alloc::Global;

/// Refuses a name that is followed by a parenthesis or a point.
#[tactic(auto, unfolding(crate::specs::Expressions::no_call))]
fn no_call(r: &Reader<'_>, name: &PlacedName) -> Result<(), ReadError>
    ensures { Reads (λ u. u) (spec.no_call name.now (to_read r.now)) result (to_read r.now) }
{
    r.look()?;
    match r.item() {
        Some(Item::Open) => Err(ReadError {
            place: name.place,
            kind: ErrorKind::LeftOut(Omitted::Function),
        }),
        Some(Item::Dot) => Err(ReadError {
            place: name.place,
            kind: ErrorKind::LeftOut(Omitted::Qualified),
        }),
        _ => Ok(()),
    }
}

/// Reads the name of a column.
#[tactic(auto, unfolding(crate::specs::Expressions::column))]
fn column(r: &mut Reader<'_>, alloc: Global, columns: &[Column]) -> Result<FoundColumn, ReadError>
    ensures { TakesSome (λ column. column) (spec.column columns.now) r.old result r.new }
{
    let name = read_name(r, alloc, "a column, a literal, NOT or `(`")?;
    no_call(r, &name)?;
    Ok(known_column(columns, &name)?)
}

/// Reads a column.
#[tactic(auto, unfolding(crate::specs::Expressions::column_part))]
fn column_part(r: &mut Reader<'_>, alloc: Global, columns: &[Column]) -> Result<Part, ReadError>
    ensures { TakesSome part_view (spec.column_part columns.now) r.old result r.new }
{
    let place = r.place();
    let found = column(r, alloc, columns)?;
    Ok(Part {
        place,
        operand: Operand::Term(Term::Col(found.number), found.kind),
    })
}

/// Reads a number, with or without a minus before it.
#[tactic(auto, unfolding(crate::specs::Expressions::number_part))]
fn number_part(r: &mut Reader<'_>) -> Result<Part, ReadError>
    ensures { TakesSome part_view spec.number_part r.old result r.new }
{
    let place = r.place();
    let digits = placed_number(r)?;
    Ok(Part {
        place,
        operand: Operand::Literal(digits.place, Literal::Int(digits.number)),
    })
}

/// Reads the type after `::`, which is at `place`.
#[tactic(auto, using(crate::proofs::Ahead::rest_is_no_more), unfolding(crate::specs::Expressions::text_type))]
fn text_type(r: &mut Reader<'_>, place: usize) -> Result<(), ReadError>
    ensures { Takes (λ u. u) (spec.text_type place) r.old result r.new }
{
    match r.item() {
        Some(Item::Keyword(Keyword::Text)) => {
            r.advance();
            Ok(())
        }
        Some(item) if item.is_name() => Err(ReadError {
            place,
            kind: ErrorKind::LeftOut(Omitted::Cast),
        }),
        _ => Err(r.refusal("`text`")),
    }
}

/// Reads `::` and the type after it.
#[tactic(auto, unfolding(crate::specs::Expressions::text_cast))]
fn text_cast(r: &mut Reader<'_>) -> Result<(), ReadError>
    ensures { TakesSome (λ u. u) spec.text_cast r.old result r.new }
{
    let place = r.expect(Item::DoubleColon, "`::`")?;
    text_type(r, place)
}

/// Reads the cast after a string, if there is one.
#[tactic(auto, unfolding(crate::specs::Expressions::cast_or_none))]
fn cast_or_none(r: &mut Reader<'_>) -> Result<(), ReadError>
    ensures { Takes (λ u. u) spec.cast_or_none r.old result r.new }
{
    if r.next_is(Item::DoubleColon)? {
        return Ok(text_cast(r)?);
    }
    Ok(())
}

/// Reads a string, with or without `:: text` after it.
#[tactic(auto, using(crate::proofs::Ahead::rest_of_some_is_fewer), unfolding(crate::specs::Expressions::string_part))]
fn string_part(r: &mut Reader<'_>, alloc: Global) -> Result<Part, ReadError>
    requires { IsSome (item_ahead (to_read r.old)) }
    ensures { TakesSome part_view spec.string_part r.old result r.new }
{
    let place = r.place();
    let text = string_text(r, alloc)?;
    r.advance();
    cast_or_none(r)?;
    Ok(Part {
        place,
        operand: Operand::Literal(place, Literal::Text(text)),
    })
}

/// Reads TRUE or FALSE.
#[tactic(auto, using(crate::proofs::Ahead::rest_of_some_is_fewer), unfolding(crate::specs::Expressions::truth_part))]
fn truth_part(r: &mut Reader<'_>, known: bool) -> Result<Part, ReadError>
    requires { IsSome (item_ahead (to_read r.old)) }
    ensures { TakesSome part_view (spec.truth_part known) r.old result r.new }
{
    let place = r.place();
    r.advance();
    Ok(Part {
        place,
        operand: Operand::Literal(place, Literal::Bool(known)),
    })
}

/// Reads a literal or a column.
#[tactic(auto, unfolding(crate::specs::Expressions::simple))]
pub fn simple(r: &mut Reader<'_>, alloc: Global, columns: &[Column]) -> Result<Part, ReadError>
    ensures { TakesSome part_view (spec.simple columns.now) r.old result r.new }
{
    match r.item() {
        Some(Item::Operator(Operator::Minus)) => number_part(r),
        Some(Item::Number(_)) => number_part(r),
        Some(Item::Text) => string_part(r, alloc),
        Some(Item::Keyword(Keyword::True)) => truth_part(r, true),
        Some(Item::Keyword(Keyword::False)) => truth_part(r, false),
        Some(Item::Keyword(Keyword::Null)) => Err(r.refused(ErrorKind::LeftOut(Omitted::Constant))),
        Some(Item::Keyword(Keyword::Case)) => Err(r.refused(ErrorKind::LeftOut(Omitted::Function))),
        _ => column_part(r, alloc, columns),
    }
}
