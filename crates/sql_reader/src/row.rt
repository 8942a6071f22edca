//! Rows as they are written.

ghost use Rattle.std.specs.Prelude.{IsSome, map};
ghost use Rattle.filter_tree.specs.Values.{datum_view};
ghost use Rattle.sql_reader.specs.Rows as spec;
ghost use Rattle.sql_reader.specs.ParsingContracts.{Takes, TakesSome, to_read, Reads, Answers, item_ahead};

use crate::error::ReadError;
use crate::item::Item;
use crate::name::string_text;
use crate::number::signed_number;
use crate::plain_row::plain_row;
use crate::reader::Reader;
use crate::word::Keyword;
use filter_tree::{Row, Value};
use sql_tokens::Operator;
use std::alloc::Global;

/// Reads `:: text`.
#[tactic(auto, using(crate::proofs::Ahead::rest_is_no_more), unfolding(crate::specs::Rows::text_cast))]
fn text_cast(r: &mut Reader<'_>) -> Result<(), ReadError>
    ensures { TakesSome (λ u. u) spec.text_cast r.old result r.new }
{
    r.advance();
    r.expect(Item::Keyword(Keyword::Text), "`text`")?;
    Ok(())
}

/// Reads `:: text`, if it follows.
#[tactic(auto, unfolding(crate::specs::Rows::cast_or_none))]
fn cast_or_none(r: &mut Reader<'_>) -> Result<(), ReadError>
    ensures { Takes (λ u. u) spec.cast_or_none r.old result r.new }
{
    if r.next_is(Item::DoubleColon)? {
        return Ok(text_cast(r)?);
    }
    Ok(())
}

/// Reads a string, with or without `:: text` after it.
#[tactic(auto, using(crate::proofs::Ahead::rest_of_some_is_fewer), unfolding(crate::specs::Rows::string_value))]
fn string_value(r: &mut Reader<'_>, alloc: Global) -> Result<Value, ReadError>
    requires { IsSome (item_ahead (to_read r.old)) }
    ensures { TakesSome datum_view spec.string_value r.old result r.new }
{
    let text = string_text(r, alloc)?;
    r.advance();
    cast_or_none(r)?;
    Ok(Value::Text(text))
}

#[tactic(auto, unfolding(crate::specs::Rows::number_value))]
fn number_value(r: &mut Reader<'_>) -> Result<Value, ReadError>
    ensures { TakesSome datum_view spec.number_value r.old result r.new }
{
    Ok(Value::Int(signed_number(r)?))
}

/// Reads a value of a row.
#[tactic(auto, using(crate::proofs::Ahead::rest_of_some_is_fewer), unfolding(crate::specs::Rows::value))]
fn value(r: &mut Reader<'_>, alloc: Global) -> Result<Value, ReadError>
    ensures { TakesSome datum_view spec.value r.old result r.new }
{
    match r.item() {
        Some(Item::Keyword(Keyword::Null)) => {
            r.advance();
            Ok(Value::Null)
        }
        Some(Item::Keyword(Keyword::True)) => {
            r.advance();
            Ok(Value::Bool(true))
        }
        Some(Item::Keyword(Keyword::False)) => {
            r.advance();
            Ok(Value::Bool(false))
        }
        Some(Item::Operator(Operator::Minus)) => number_value(r),
        Some(Item::Number(_)) => number_value(r),
        Some(Item::Text) => string_value(r, alloc),
        _ => Err(r.refusal("a value")),
    }
}

/// Reads one more value.
#[tactic(auto, unfolding(crate::specs::Rows::one_value))]
fn one_value(r: &mut Reader<'_>, alloc: Global, row: &mut Vec<Value>) -> Result<(), ReadError>
    ensures { TakesSome (λ _. map datum_view row.new.items) (spec.one_value (map datum_view row.old.items))
        r.old result r.new }
{
    let cell = value(r, alloc)?;
    row.push(cell)?;
    Ok(())
}

/// Reads the values of a row, separated by commas.
#[tactic(auto, using(crate::proofs::RepetitionLemmas::chains), unfolding(crate::specs::Rows::values))]
fn values(r: &mut Reader<'_>, alloc: Global) -> Result<Vec<Value>, ReadError>
    ensures { TakesSome (λ row. map datum_view row.items) spec.values r.old result r.new }
{
    let mut row = Vec::new(alloc);
    one_value(r, alloc, &mut row)?;
    while r.next_is(Item::Comma)? {
        r.advance();
        one_value(r, alloc, &mut row)?;
    }
    Ok(row)
}

/// Reads the values of a row between parentheses: `( value , .. )`. A value is NULL, TRUE, FALSE, a number with or
/// without a minus, or a string with or without `:: text`.
///
/// # Errors
///
/// The first fault, or `OutOfMemory` if an allocation failed.
#[tactic(auto, unfolding(crate::specs::Rows::row_in_parentheses))]
pub fn read_values(r: &mut Reader<'_>, alloc: Global) -> Result<Row, ReadError>
    ensures { TakesSome (λ row. row) spec.row_in_parentheses r.old result r.new }
{
    r.expect(Item::Open, "`(`")?;
    let values = values(r, alloc)?;
    r.expect(Item::Close, "`,` or `)`")?;
    Ok(Row::from_values(values))
}

#[tactic(auto, unfolding(crate::specs::Rows::row))]
fn row(r: &mut Reader<'_>, alloc: Global) -> Result<Row, ReadError>
    ensures { Reads (λ row. row) (spec.row (to_read r.old)) result (to_read r.new) }
{
    let row = read_values(r, alloc)?;
    r.end("the end of the row")?;
    Ok(row)
}

/// Reads a row: `( value , .. )`. A value is NULL, TRUE, FALSE, a number with or without a minus, or a string with or
/// without `:: text`. The values are not checked against a table here.
///
/// # Errors
///
/// The first fault of the text, or `OutOfMemory` if an allocation failed.
pub fn read_row(alloc: Global, text: &str) -> Result<Row, ReadError>
    ensures { Answers (λ row. row) (spec.row_of text.now) result }
{
    Ok(read_row_in(alloc, Row::from_values(Vec::new(alloc)), text)?)
}

/// Reads a row as `read_row` does, in the memory of a row that is no longer needed.
///
/// # Errors
///
/// The first fault of the text, or `OutOfMemory` if an allocation failed.
#[tactic(auto, unfolding(crate::specs::Rows::row_of))]
pub fn read_row_in(alloc: Global, used: Row, text: &str) -> Result<Row, ReadError>
    ensures { Answers (λ row. row) (spec.row_of text.now) result }
{
    match plain_row(alloc, used, text)? {
        Some(row) => Ok(row),
        None => row(&mut Reader::new(text), alloc),
    }
}
