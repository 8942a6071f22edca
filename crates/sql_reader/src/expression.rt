//! The filters of WHERE clauses.

ghost use Rattle.std.specs.Prelude.{map};
ghost use Rattle.filter_tree.specs.Shape.{expr_view};
ghost use Rattle.sql_reader.specs.Expressions as spec;
ghost use Rattle.sql_reader.specs.Expressions.{AfterNot, InParentheses, InList};
ghost use Rattle.sql_reader.specs.Filters as filters;
ghost use Rattle.sql_reader.specs.Operands.{operand_view, part_view};
ghost use Rattle.sql_reader.specs.ParsingContracts.{Takes, TakesSome};
ghost use Rattle.sql_reader.specs.Written.{as_filter};

use crate::column::FoundColumn;
use crate::comparison::{compared_part, comparison_by};
use crate::error::{ErrorKind, ReadError};
use crate::item::Item;
use crate::list::{among_part, room_in_list};
use crate::membership::{Membership, MembershipWord, membership_or_none};
use crate::operand::{Operand, Part, both, dividend, either, negated, remainder, wanted};
use crate::operator::{no_cast, no_operator};
use crate::reader::Reader;
use crate::simple::simple;
use crate::subject::{between_part, distinct_part};
use crate::truth_test::{DistinctWords, TestAhead, test_or_none, tested_part};
use crate::word::Keyword;
use filter_tree::{Column, Filter, Op};
use sql_tokens::Operator;
use std::alloc::Global;
use std::collections::VecDeque;

/// How deep parentheses and NOT may nest.
const MAX_NESTING: u32 = 64;

/// Reads the parenthesis after a part, which begins at the opening parenthesis.
fn closed(r: &mut Reader<'_>, place: usize, inner: Part) -> Result<Part, ReadError>
    ensures { TakesSome part_view (spec.closed place (part_view inner)) r.old result r.new }
{
    r.expect(Item::Close, "AND, OR or `)`")?;
    Ok(Part {
        place,
        operand: inner.operand,
    })
}

/// Reads an expression in parentheses.
#[cycle(expression)]
#[tactic(auto, using(crate::proofs::Nesting::nests), unfolding(crate::specs::Expressions::in_parentheses))]
fn in_parentheses(
    r: &mut Reader<'_>,
    alloc: Global,
    columns: &[Column],
    depth: u32,
) -> Result<Part, ReadError>
    ensures { TakesSome part_view (filters.nested columns.now depth InParentheses) r.old result r.new }
{
    if depth == 0 {
        return Err(r.refused(ErrorKind::TooDeep));
    }
    let place = r.expect(Item::Open, "`(`")?;
    let inner = disjunction(r, alloc, columns, depth - 1)?;
    Ok(closed(r, place, inner)?)
}

/// Reads an expression in parentheses, a literal or a column.
#[cycle(expression)]
#[tactic(auto, unfolding(crate::specs::Expressions::primary))]
fn primary(
    r: &mut Reader<'_>,
    alloc: Global,
    columns: &[Column],
    depth: u32,
) -> Result<Part, ReadError>
    ensures { TakesSome part_view (filters.primary columns.now depth) r.old result r.new }
{
    if r.is(Item::Open) {
        return Ok(in_parentheses(r, alloc, columns, depth)?);
    }
    simple(r, alloc, columns)
}

/// Reads `%` and the divisor of a column, after what begins at `first`.
#[cycle(expression)]
#[tactic(auto, unfolding(crate::specs::Expressions::divisor))]
fn divisor(
    r: &mut Reader<'_>,
    alloc: Global,
    columns: &[Column],
    depth: u32,
    first: usize,
    column: Option<FoundColumn>,
) -> Result<Part, ReadError>
    ensures { TakesSome part_view (filters.divisor columns.now depth first column) r.old result r.new }
{
    let place = r.expect(Item::Operator(Operator::Percent), "`%`")?;
    let right = primary(r, alloc, columns, depth)?;
    Ok(remainder(place, first, column, right.operand)?)
}

/// Reads `%` and a divisor after an operand, if they follow.
#[cycle(expression)]
#[tactic(auto, unfolding(crate::specs::Expressions::divisor_or_none))]
fn divisor_or_none(
    r: &mut Reader<'_>,
    alloc: Global,
    columns: &[Column],
    depth: u32,
    left: Part,
) -> Result<Part, ReadError>
    ensures { Takes part_view (filters.divisor_or_none columns.now depth (part_view left)) r.old result r.new }
{
    if r.next_is(Item::Operator(Operator::Percent))? {
        let first = left.place;
        return Ok(divisor(r, alloc, columns, depth, first, dividend(left.operand))?);
    }
    Ok(left)
}

/// Reads an operand, or a remainder of one.
#[cycle(expression)]
#[tactic(auto, unfolding(crate::specs::Expressions::term))]
fn term(
    r: &mut Reader<'_>,
    alloc: Global,
    columns: &[Column],
    depth: u32,
) -> Result<Part, ReadError>
    ensures { TakesSome part_view (filters.term columns.now depth) r.old result r.new }
{
    let left = primary(r, alloc, columns, depth)?;
    Ok(divisor_or_none(r, alloc, columns, depth, left)?)
}

/// Refuses a cast or an operator that is not supported, after a side of a comparison.
fn side_ended(r: &mut Reader<'_>, part: Part) -> Result<Part, ReadError>
    ensures { Takes part_view (spec.side_ended (part_view part)) r.old result r.new }
{
    no_operator(r)?;
    Ok(part)
}

/// Reads a side of a comparison.
#[cycle(expression)]
#[tactic(auto, unfolding(crate::specs::Expressions::side))]
fn side(
    r: &mut Reader<'_>,
    alloc: Global,
    columns: &[Column],
    depth: u32,
) -> Result<Part, ReadError>
    ensures { TakesSome part_view (filters.side columns.now depth) r.old result r.new }
{
    let part = term(r, alloc, columns, depth)?;
    Ok(side_ended(r, part)?)
}

/// Reads a comparison operator and the side after it.
#[cycle(expression)]
#[tactic(auto, using(crate::proofs::Ahead::rest_is_no_more), unfolding(crate::specs::Expressions::right_side))]
fn right_side(
    r: &mut Reader<'_>,
    alloc: Global,
    columns: &[Column],
    depth: u32,
    left: Part,
    op: Op,
) -> Result<Part, ReadError>
    ensures { Takes part_view (filters.right_side columns.now depth (part_view left) op) r.old result r.new }
{
    let place = r.place();
    r.advance();
    let right = term(r, alloc, columns, depth)?;
    no_cast(r)?;
    let whole = compared_part(place, left, op, right)?;
    Ok(side_ended(r, whole)?)
}

/// Reads one more entry of a list.
#[cycle(expression)]
#[tactic(auto, unfolding(crate::specs::Expressions::one_entry))]
fn one_entry(
    r: &mut Reader<'_>,
    alloc: Global,
    columns: &[Column],
    depth: u32,
    others: &mut VecDeque<Operand>,
) -> Result<(), ReadError>
    ensures { TakesSome (λ _. map operand_view others.new.items)
        (filters.one_entry columns.now depth (map operand_view others.old.items)) r.old result r.new }
{
    room_in_list(r, others.len())?;
    let entry = side(r, alloc, columns, depth)?;
    others.push_back(entry.operand)?;
    Ok(())
}

/// Reads the entries of a list after the first, separated by commas.
#[cycle(expression)]
#[tactic(auto, using(crate::proofs::RepetitionLemmas::chains), unfolding(crate::specs::Expressions::other_entries))]
fn other_entries(
    r: &mut Reader<'_>,
    alloc: Global,
    columns: &[Column],
    depth: u32,
) -> Result<VecDeque<Operand>, ReadError>
    ensures { Takes (λ others. map operand_view others.items) (filters.other_entries columns.now depth)
        r.old result r.new }
{
    let mut others = VecDeque::new(alloc);
    while r.next_is(Item::Comma)? {
        r.advance();
        one_entry(r, alloc, columns, depth, &mut others)?;
    }
    Ok(others)
}

/// Reads the list in parentheses after IN.
#[cycle(expression)]
#[tactic(auto, using(crate::proofs::Nesting::nests), unfolding(crate::specs::Expressions::in_list))]
fn in_list(
    r: &mut Reader<'_>,
    alloc: Global,
    columns: &[Column],
    depth: u32,
    word: MembershipWord,
    left: Part,
) -> Result<Part, ReadError>
    ensures { TakesSome part_view (filters.nested columns.now depth (InList word (part_view left)))
        r.old result r.new }
{
    if depth == 0 {
        return Err(r.refused(ErrorKind::TooDeep));
    }
    r.expect(Item::Open, "`(`")?;
    let first = side(r, alloc, columns, depth - 1)?;
    let others = other_entries(r, alloc, columns, depth - 1)?;
    r.expect(Item::Close, "`,` or `)`")?;
    let whole = among_part(alloc, word, left, first, others)?;
    Ok(side_ended(r, whole)?)
}

/// Reads the bounds after BETWEEN.
#[cycle(expression)]
#[tactic(auto, unfolding(crate::specs::Expressions::bounds))]
fn bounds(
    r: &mut Reader<'_>,
    alloc: Global,
    columns: &[Column],
    depth: u32,
    word: MembershipWord,
    left: Part,
) -> Result<Part, ReadError>
    ensures { TakesSome part_view (filters.bounds columns.now depth word (part_view left)) r.old result r.new }
{
    let low = side(r, alloc, columns, depth)?;
    r.expect(Item::Keyword(Keyword::And), "AND")?;
    let high = term(r, alloc, columns, depth)?;
    no_cast(r)?;
    let whole = between_part(alloc, word, left, low, high)?;
    Ok(side_ended(r, whole)?)
}

/// Reads IN and its list or BETWEEN and its bounds, with or without NOT before them, if they follow.
#[cycle(expression)]
#[tactic(auto, unfolding(crate::specs::Expressions::member_or_none))]
fn member_or_none(
    r: &mut Reader<'_>,
    alloc: Global,
    columns: &[Column],
    depth: u32,
    left: Part,
) -> Result<Part, ReadError>
    ensures { Takes part_view (filters.member_or_none columns.now depth (part_view left)) r.old result r.new }
{
    match membership_or_none(r)? {
        Some(Membership::List(word)) => Ok(in_list(r, alloc, columns, depth, word, left)?),
        Some(Membership::Range(word)) => Ok(bounds(r, alloc, columns, depth, word, left)?),
        None => Ok(left),
    }
}

/// Reads a comparison, IN or BETWEEN, and what follows it, if they are ahead.
#[cycle(expression)]
#[tactic(auto, unfolding(crate::specs::Expressions::right_side_or_none))]
fn right_side_or_none(
    r: &mut Reader<'_>,
    alloc: Global,
    columns: &[Column],
    depth: u32,
    left: Part,
) -> Result<Part, ReadError>
    ensures { Takes part_view (filters.right_side_or_none columns.now depth (part_view left)) r.old result r.new }
{
    match comparison_by(r.item()) {
        Some(op) => Ok(right_side(r, alloc, columns, depth, left, op)?),
        None => Ok(member_or_none(r, alloc, columns, depth, left)?),
    }
}

/// Reads a comparison, or an operand by itself.
#[cycle(expression)]
#[tactic(auto, unfolding(crate::specs::Expressions::comparison))]
fn comparison(
    r: &mut Reader<'_>,
    alloc: Global,
    columns: &[Column],
    depth: u32,
) -> Result<Part, ReadError>
    ensures { TakesSome part_view (filters.comparison columns.now depth) r.old result r.new }
{
    let left = side(r, alloc, columns, depth)?;
    Ok(right_side_or_none(r, alloc, columns, depth, left)?)
}

/// Reads what is after IS DISTINCT FROM.
#[cycle(expression)]
#[tactic(auto, unfolding(crate::specs::Expressions::distinct_side))]
fn distinct_side(
    r: &mut Reader<'_>,
    alloc: Global,
    columns: &[Column],
    depth: u32,
    left: Part,
    words: DistinctWords,
) -> Result<Part, ReadError>
    ensures { TakesSome part_view
        (filters.distinct_side columns.now depth (part_view left) words) r.old result r.new }
{
    let right = term(r, alloc, columns, depth)?;
    no_cast(r)?;
    let whole = distinct_part(alloc, words, left, right)?;
    Ok(side_ended(r, whole)?)
}

/// Reads the test after a part, if there is one.
#[cycle(expression)]
#[tactic(auto, unfolding(crate::specs::Expressions::maybe_tested))]
fn tested(
    r: &mut Reader<'_>,
    alloc: Global,
    columns: &[Column],
    depth: u32,
    part: Part,
) -> Result<Part, ReadError>
    ensures { Takes part_view (filters.maybe_tested columns.now depth (part_view part)) r.old result r.new }
{
    match test_or_none(r)? {
        Some(TestAhead::Truth(test)) => Ok(tested_part(alloc, test, part)?),
        Some(TestAhead::Distinct(words)) => Ok(distinct_side(
            r, alloc, columns, depth, part, words,
        )?),
        None => Ok(part),
    }
}

/// Reads a comparison, with or without a test after it.
#[cycle(expression)]
#[tactic(auto, unfolding(crate::specs::Expressions::predicate))]
fn predicate(
    r: &mut Reader<'_>,
    alloc: Global,
    columns: &[Column],
    depth: u32,
) -> Result<Part, ReadError>
    ensures { TakesSome part_view (filters.predicate columns.now depth) r.old result r.new }
{
    let part = comparison(r, alloc, columns, depth)?;
    Ok(tested(r, alloc, columns, depth, part)?)
}

/// Reads NOT and what it negates.
#[cycle(expression)]
#[tactic(auto, using(crate::proofs::Nesting::nests), unfolding(crate::specs::Expressions::after_not))]
fn after_not(
    r: &mut Reader<'_>,
    alloc: Global,
    columns: &[Column],
    depth: u32,
) -> Result<Part, ReadError>
    ensures { TakesSome part_view (filters.nested columns.now depth AfterNot) r.old result r.new }
{
    if depth == 0 {
        return Err(r.refused(ErrorKind::TooDeep));
    }
    let place = r.expect(Item::Keyword(Keyword::Not), "NOT")?;
    let part = negation(r, alloc, columns, depth - 1)?;
    Ok(negated(alloc, place, part)?)
}

/// Reads a part of an AND.
#[cycle(expression)]
#[tactic(auto, unfolding(crate::specs::Expressions::negation))]
fn negation(
    r: &mut Reader<'_>,
    alloc: Global,
    columns: &[Column],
    depth: u32,
) -> Result<Part, ReadError>
    ensures { TakesSome part_view (filters.negation columns.now depth) r.old result r.new }
{
    if r.is(Item::Keyword(Keyword::Not)) {
        return Ok(after_not(r, alloc, columns, depth)?);
    }
    predicate(r, alloc, columns, depth)
}

/// Reads one more part of an AND.
#[cycle(expression)]
#[tactic(auto, unfolding(crate::specs::Expressions::one_more_negation))]
fn one_more_negation(
    r: &mut Reader<'_>,
    alloc: Global,
    columns: &[Column],
    depth: u32,
    left: Part,
) -> Result<Part, ReadError>
    ensures { TakesSome part_view (filters.one_more_negation columns.now depth (part_view left)) r.old result r.new }
{
    let place = left.place;
    let filter = wanted(left)?;
    let right = negation(r, alloc, columns, depth)?;
    Ok(both(alloc, place, filter, right)?)
}

/// Reads a chain of ANDs, which is grouped to the left.
#[cycle(expression)]
#[tactic(auto, using(crate::proofs::RepetitionLemmas::chains), unfolding(crate::specs::Expressions::conjunction))]
fn conjunction(
    r: &mut Reader<'_>,
    alloc: Global,
    columns: &[Column],
    depth: u32,
) -> Result<Part, ReadError>
    ensures { TakesSome part_view (filters.conjunction columns.now depth) r.old result r.new }
{
    let mut left = negation(r, alloc, columns, depth)?;
    while r.next_is(Item::Keyword(Keyword::And))? {
        r.advance();
        left = one_more_negation(r, alloc, columns, depth, left)?;
    }
    Ok(left)
}

/// Reads one more part of an OR.
#[cycle(expression)]
#[tactic(auto, unfolding(crate::specs::Expressions::one_more_conjunction))]
fn one_more_conjunction(
    r: &mut Reader<'_>,
    alloc: Global,
    columns: &[Column],
    depth: u32,
    left: Part,
) -> Result<Part, ReadError>
    ensures { TakesSome part_view (filters.one_more_conjunction columns.now depth (part_view left)) r.old result r.new }
{
    let place = left.place;
    let filter = wanted(left)?;
    let right = conjunction(r, alloc, columns, depth)?;
    Ok(either(alloc, place, filter, right)?)
}

/// Reads a chain of ORs, which is grouped to the left.
#[cycle(expression)]
#[tactic(auto, using(crate::proofs::RepetitionLemmas::chains), unfolding(crate::specs::Expressions::disjunction))]
fn disjunction(
    r: &mut Reader<'_>,
    alloc: Global,
    columns: &[Column],
    depth: u32,
) -> Result<Part, ReadError>
    ensures { TakesSome part_view (filters.disjunction columns.now depth) r.old result r.new }
{
    let mut left = conjunction(r, alloc, columns, depth)?;
    while r.next_is(Item::Keyword(Keyword::Or))? {
        r.advance();
        left = one_more_conjunction(r, alloc, columns, depth, left)?;
    }
    Ok(left)
}

/// Reads a filter over these columns (PostgreSQL 15, "31.3 Row Filters"). Parentheses and NOT nest at most 64 deep.
///
/// # Errors
///
/// The first fault of the filter, with its place, or `OutOfMemory`.
#[tactic(auto, unfolding(crate::specs::Expressions::expression))]
pub fn read_filter(
    r: &mut Reader<'_>,
    alloc: Global,
    columns: &[Column],
) -> Result<Filter, ReadError>
    ensures { TakesSome (λ f. expr_view f) (spec.expression as_filter columns.now) r.old result r.new }
{
    let whole = disjunction(r, alloc, columns, MAX_NESTING)?;
    Ok(wanted(whole)?)
}
