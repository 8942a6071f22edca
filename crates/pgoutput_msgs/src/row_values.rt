//! The values whose texts a message has.

ghost use Rattle.std.specs.Prelude.{◌≡◌, ◌&&◌, IfOk, int_le};
ghost use Rattle.std.specs.Option.{option_map};
ghost use Rattle.filter_tree.specs.Values.{datum_view};
ghost use Rattle.filter_tree.specs.Datum.{Known, Truth};
ghost use Rattle.filter_tree.specs.Range.{least_of, greatest_of};
ghost use Rattle.pgoutput_msgs.specs.ValueText as spec;

use crate::tuple::Cell;
use filter_tree::{ColType, MAX_TEXT_BYTES, Text, Value};
use std::alloc::{AllocError, Global};

fn is_within(kind: ColType, number: i64) -> bool
    ensures { result ≡ (int_le (least_of kind) number && int_le number (greatest_of kind)) }
{
    kind.least() <= number && number <= kind.greatest()
}

/// The number, if this is its own text and it is in the range of the type.
fn number_if(
    alloc: Global,
    kind: ColType,
    text: &str,
    number: i64,
) -> Result<Option<i64>, AllocError>
    ensures { IfOk result (λ found. found ≡ spec.number_if kind text.now number) }
{
    let own = number.to_string(alloc)?;
    if text == own.as_str() && is_within(kind, number) {
        Ok(Some(number))
    } else {
        Ok(None)
    }
}

/// The number whose own text this is, if it is in the range of the type.
#[tactic(auto, using(crate::proofs::ValueLemmas::number_read, crate::proofs::ValueLemmas::number_refused))]
fn number_of(alloc: Global, kind: ColType, text: &str) -> Result<Option<i64>, AllocError>
    ensures { IfOk result (λ found. found ≡ spec.number_in kind text.now) }
{
    match i64::from_str_radix(text, 10) {
        Ok(number) => Ok(number_if(alloc, kind, text, number)?),
        Err(_) => Ok(None),
    }
}

/// The text itself, if it has no zero byte and at most 65,535 bytes.
#[tactic(auto, unfolding(crate::specs::ValueText::text_in))]
fn text_value(text: Text) -> Option<Value>
    ensures { option_map datum_view result ≡ option_map Known (spec.text_in text) }
{
    if text.as_bytes().contains(&0) {
        None
    } else if text.len() > MAX_TEXT_BYTES {
        None
    } else {
        Some(Value::Text(text))
    }
}

#[tactic(auto, unfolding(crate::specs::ValueText::truth_in))]
fn truth_of(text: &str) -> Option<bool>
    ensures { option_map Truth result ≡ spec.truth_in text.now }
{
    if text == "t" {
        Some(true)
    } else if text == "f" {
        Some(false)
    } else {
        None
    }
}

/// The value of a column of this type whose text the cell has; `None` if the type has no such value. A number has to be
/// in decimal without leading zeros and in the type's range, a boolean is `t` or `f`, and a text has no zero byte and
/// at most 65,535 bytes; it is the cell's own, without a copy. The only error is out of memory.
///
/// PostgreSQL 15, Chapter 8. Data Types, and 55.9. Logical Replication Message Formats.
pub fn value_of(alloc: Global, kind: ColType, cell: Cell) -> Result<Option<Value>, AllocError>
    ensures { IfOk result (λ value. option_map datum_view value ≡ spec.datum_in kind cell) }
{
    let Cell::Text(text) = cell else {
        return Ok(Some(Value::Null));
    };
    match kind {
        ColType::SmallInt | ColType::Integer | ColType::BigInt => {
            let number = number_of(alloc, kind, text.as_str())?;
            Ok(number.map(|number| Value::Int(number)))
        }
        ColType::Boolean => Ok(truth_of(text.as_str()).map(|truth| Value::Bool(truth))),
        ColType::Text => Ok(text_value(text)),
    }
}
