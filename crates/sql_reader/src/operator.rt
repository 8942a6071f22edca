//! Operators after an operand that are not supported.

ghost use Rattle.sql_reader.specs.ParsingContracts.{to_read, Reads};
ghost use Rattle.sql_reader.specs.Expressions as spec;

use crate::error::{ErrorKind, Omitted, ReadError};
use crate::item::Item;
use crate::reader::Reader;
use crate::word::Keyword;
use sql_tokens::Operator;

/// Refuses a cast, without looking at a faulty token.
#[tactic(auto, unfolding(crate::specs::Expressions::no_cast))]
pub fn no_cast(r: &Reader<'_>) -> Result<(), ReadError>
    ensures { Reads (λ u. u) (spec.no_cast (to_read r.now)) result (to_read r.now) }
{
    if r.is(Item::DoubleColon) {
        return Err(r.refused(ErrorKind::LeftOut(Omitted::Cast)));
    }
    Ok(())
}

/// Looks at the token after an operand, and refuses a cast and the operators that are not supported.
#[tactic(auto, unfolding(crate::specs::Expressions::no_operator))]
pub fn no_operator(r: &Reader<'_>) -> Result<(), ReadError>
    ensures { Reads (λ u. u) (spec.no_operator (to_read r.now)) result (to_read r.now) }
{
    r.look()?;
    match r.item() {
        Some(Item::DoubleColon) => Err(r.refused(ErrorKind::LeftOut(Omitted::Cast))),
        Some(
            Item::Operator(Operator::Minus | Operator::Star)
            | Item::Keyword(Keyword::Like | Keyword::Ilike | Keyword::Similar),
        ) => Err(r.refused(ErrorKind::LeftOut(Omitted::Operator))),
        _ => Ok(()),
    }
}
