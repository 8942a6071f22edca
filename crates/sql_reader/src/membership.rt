//! The words IN and BETWEEN after an operand, with or without NOT before them.

ghost use Rattle.sql_reader.specs.Expressions as spec;
ghost use Rattle.sql_reader.specs.ParsingContracts.{Takes, to_read, Reads};

use crate::error::{ErrorKind, Omitted, ReadError};
use crate::item::Item;
use crate::reader::Reader;
use crate::word::Keyword;

/// IN or BETWEEN, by the place of that word.
#[derive(Clone, Copy)]
pub struct MembershipWord {
    pub place: usize,
    pub is_negated: bool,
}

/// What follows IN or BETWEEN.
#[derive(Clone, Copy)]
pub enum Membership {
    /// A list in parentheses.
    List(MembershipWord),
    /// Two bounds.
    Range(MembershipWord),
}

/// Reads IN or BETWEEN.
#[tactic(auto, using(crate::proofs::Ahead::rest_is_no_more), unfolding(crate::specs::Expressions::membership_word))]
fn membership_word(r: &mut Reader<'_>, is_negated: bool) -> Result<MembershipWord, ReadError>
    ensures { Takes (λ word. word) (spec.membership_word is_negated) r.old result r.new }
{
    let place = r.place();
    r.advance();
    Ok(MembershipWord { place, is_negated })
}

/// Reads IN, before a list.
#[tactic(auto, unfolding(crate::specs::Expressions::list_ahead))]
fn list_ahead(r: &mut Reader<'_>, is_negated: bool) -> Result<Option<Membership>, ReadError>
    ensures { Takes (λ membership. membership) (spec.list_ahead is_negated) r.old result r.new }
{
    let word = membership_word(r, is_negated)?;
    if !r.is(Item::Open) {
        return Err(r.refusal("`(`"));
    }
    Ok(Some(Membership::List(word)))
}

/// Refuses SYMMETRIC and ASYMMETRIC.
#[tactic(auto, unfolding(crate::specs::Expressions::no_symmetry))]
fn no_symmetry(r: &Reader<'_>) -> Result<(), ReadError>
    ensures { Reads (λ u. u) (spec.no_symmetry (to_read r.now)) result (to_read r.now) }
{
    match r.item() {
        Some(Item::Keyword(Keyword::Symmetric | Keyword::Asymmetric)) => Err(r.refused(
            ErrorKind::LeftOut(Omitted::Operator),
        )),
        _ => Ok(()),
    }
}

/// Reads BETWEEN, before its bounds.
#[tactic(auto, unfolding(crate::specs::Expressions::range_ahead))]
fn range_ahead(r: &mut Reader<'_>, is_negated: bool) -> Result<Option<Membership>, ReadError>
    ensures { Takes (λ membership. membership) (spec.range_ahead is_negated) r.old result r.new }
{
    let word = membership_word(r, is_negated)?;
    no_symmetry(r)?;
    Ok(Some(Membership::Range(word)))
}

/// Reads NOT after an operand, and the word that it negates.
#[tactic(auto, using(crate::proofs::Ahead::rest_is_no_more), unfolding(crate::specs::Expressions::negated_membership))]
fn negated_membership(r: &mut Reader<'_>) -> Result<Option<Membership>, ReadError>
    ensures { Takes (λ membership. membership) spec.negated_membership r.old result r.new }
{
    r.advance();
    match r.item() {
        Some(Item::Keyword(Keyword::In)) => list_ahead(r, true),
        Some(Item::Keyword(Keyword::Between)) => range_ahead(r, true),
        Some(Item::Keyword(Keyword::Like | Keyword::Ilike | Keyword::Similar)) => Err(r.refused(
            ErrorKind::LeftOut(Omitted::Operator),
        )),
        _ => Err(r.refusal("IN or BETWEEN")),
    }
}

/// Reads IN or BETWEEN after an operand, with or without NOT before it, if one is ahead.
#[tactic(auto, unfolding(crate::specs::Expressions::membership_or_none))]
pub fn membership_or_none(r: &mut Reader<'_>) -> Result<Option<Membership>, ReadError>
    ensures { Takes (λ membership. membership) spec.membership_or_none r.old result r.new }
{
    match r.item() {
        Some(Item::Keyword(Keyword::In)) => list_ahead(r, false),
        Some(Item::Keyword(Keyword::Between)) => range_ahead(r, false),
        Some(Item::Keyword(Keyword::Not)) => negated_membership(r),
        _ => Ok(None),
    }
}
