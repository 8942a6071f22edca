//! Numbers with a sign.

ghost use Rattle.sql_reader.specs.Numbers as spec;
ghost use Rattle.sql_reader.specs.ParsingContracts.{TakesSome};

use crate::error::ReadError;
use crate::item::Item;
use crate::reader::Reader;
use sql_tokens::Operator;

/// A number, and the place of its digits.
#[derive(Clone, Copy)]
pub struct PlacedNumber {
    pub place: usize,
    pub number: i64,
}

/// Reads a number, and negates it if a minus came before it.
#[tactic(auto, using(crate::proofs::Ahead::rest_of_number_is_fewer), unfolding(crate::specs::Numbers::number))]
fn number(r: &mut Reader<'_>, negative: bool) -> Result<PlacedNumber, ReadError>
    ensures { TakesSome (λ number. number) (spec.number negative) r.old result r.new }
{
    match r.number(negative) {
        Some(number) => {
            let place = r.place();
            r.advance();
            Ok(PlacedNumber { place, number })
        }
        None => Err(r.refusal("a number")),
    }
}

/// Reads a number, with or without a minus before it, and also returns the place of its digits.
#[tactic(auto, unfolding(crate::specs::Numbers::placed_number, crate::specs::Reading::eat))]
pub fn placed_number(r: &mut Reader<'_>) -> Result<PlacedNumber, ReadError>
    ensures { TakesSome (λ number. number) spec.placed_number r.old result r.new }
{
    let negative = r.eat(Item::Operator(Operator::Minus));
    Ok(number(r, negative)?)
}

/// Reads a number, with or without a minus before it.
#[tactic(auto, unfolding(crate::specs::Numbers::signed_number))]
pub fn signed_number(r: &mut Reader<'_>) -> Result<i64, ReadError>
    ensures { TakesSome (λ number. number) spec.signed_number r.old result r.new }
{
    Ok(placed_number(r)?.number)
}
