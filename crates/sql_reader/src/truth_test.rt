//! The tests IS NULL, IS TRUE, IS FALSE and IS UNKNOWN, and the words IS DISTINCT FROM.

ghost use Rattle.std.specs.Prelude.{◌≡◌, IfOk};
ghost use Rattle.std.specs.Option.{option_map};
ghost use Rattle.filter_tree.specs.Shape.{expr_view};
ghost use Rattle.sql_reader.specs.Expressions as grammar;
ghost use Rattle.sql_reader.specs.Operands as spec;
ghost use Rattle.sql_reader.specs.Operands.{operand_view, part_view};
ghost use Rattle.sql_reader.specs.ParsingContracts.{Takes, TakesSome, Answers};
ghost use Rattle.sql_reader.specs.Written.{as_filter};
ghost use Rattle.sql_reader.specs.declared.truth_test.TestedValue.TheVariants.{Truth};

use crate::error::{ErrorKind, Omitted, ReadError};
use crate::item::Item;
use crate::operand::{Operand, Part, truth};
use crate::reader::Reader;
use crate::word::Keyword;
use filter_tree::{Atom, Filter, Literal, Test};
use std::alloc::{AllocError, Global};

/// What a test tests for: null, or one of the three truth values.
#[derive(Clone, Copy)]
pub enum TestedValue {
    Null,
    Truth(Test),
}

/// A test that was read, and the place of its first word.
#[derive(Clone, Copy)]
pub struct TruthTest {
    pub place: usize,
    pub is_negated: bool,
    pub asked: TestedValue,
}

/// IS DISTINCT FROM, with the places of IS and of DISTINCT.
#[derive(Clone, Copy)]
pub struct DistinctWords {
    pub place: usize,
    pub is_negated: bool,
    pub distinct_place: usize,
}

/// A test that follows an operand.
#[derive(Clone, Copy)]
pub enum TestAhead {
    Truth(TruthTest),
    /// IS DISTINCT FROM, whose right side is still to be read.
    Distinct(DistinctWords),
}

/// Reads what follows IS.
#[tactic(auto, using(crate::proofs::Ahead::rest_is_no_more), unfolding(crate::specs::Expressions::asked_for))]
fn asked_for(r: &mut Reader<'_>) -> Result<TestedValue, ReadError>
    ensures { Takes (λ asked. asked) grammar.asked_for r.old result r.new }
{
    let asked = match r.item() {
        Some(Item::Keyword(Keyword::Null)) => TestedValue::Null,
        Some(Item::Keyword(Keyword::True)) => TestedValue::Truth(Test::True),
        Some(Item::Keyword(Keyword::False)) => TestedValue::Truth(Test::False),
        Some(Item::Keyword(Keyword::Unknown)) => TestedValue::Truth(Test::Unknown),
        _ => return Err(r.refusal("NULL, TRUE, FALSE, UNKNOWN or DISTINCT FROM")),
    };
    r.advance();
    Ok(asked)
}

/// Reads what a test tests for, after IS, which is at `place`, or IS NOT.
#[tactic(auto, unfolding(crate::specs::Expressions::truth_test))]
fn truth_test(
    r: &mut Reader<'_>,
    place: usize,
    is_negated: bool,
) -> Result<Option<TestAhead>, ReadError>
    ensures { Takes (λ test. test) (grammar.truth_test place is_negated) r.old result r.new }
{
    let asked = asked_for(r)?;
    Ok(Some(TestAhead::Truth(TruthTest {
        place,
        is_negated,
        asked,
    })))
}

/// Reads DISTINCT FROM, after IS, which is at `place`, or IS NOT.
#[tactic(auto, unfolding(crate::specs::Expressions::distinct_words))]
fn distinct_words(
    r: &mut Reader<'_>,
    place: usize,
    is_negated: bool,
) -> Result<Option<TestAhead>, ReadError>
    ensures { Takes (λ test. test) (grammar.distinct_words place is_negated) r.old result r.new }
{
    let distinct_place = r.expect(Item::Keyword(Keyword::Distinct), "DISTINCT")?;
    r.expect(Item::Keyword(Keyword::From), "FROM")?;
    Ok(Some(TestAhead::Distinct(DistinctWords {
        place,
        is_negated,
        distinct_place,
    })))
}

/// Reads what follows IS, which is at `place`, or IS NOT.
#[tactic(auto, unfolding(crate::specs::Expressions::after_is))]
fn after_is(
    r: &mut Reader<'_>,
    place: usize,
    is_negated: bool,
) -> Result<Option<TestAhead>, ReadError>
    ensures { Takes (λ test. test) (grammar.after_is place is_negated) r.old result r.new }
{
    if r.is(Item::Keyword(Keyword::Distinct)) {
        return distinct_words(r, place, is_negated);
    }
    truth_test(r, place, is_negated)
}

/// Reads IS and what it tests for.
#[tactic(auto, unfolding(crate::specs::Expressions::is_test))]
fn is_test(r: &mut Reader<'_>) -> Result<Option<TestAhead>, ReadError>
    ensures { TakesSome (λ test. test) grammar.is_test r.old result r.new }
{
    let place = r.expect(Item::Keyword(Keyword::Is), "IS")?;
    let is_negated = r.eat(Item::Keyword(Keyword::Not));
    Ok(after_is(r, place, is_negated)?)
}

/// Reads ISNULL or NOTNULL.
#[tactic(auto, using(crate::proofs::Ahead::rest_is_no_more), unfolding(crate::specs::Expressions::null_test))]
fn null_test(r: &mut Reader<'_>, is_negated: bool) -> Result<Option<TestAhead>, ReadError>
    ensures { Takes (λ test. test) (grammar.null_test is_negated) r.old result r.new }
{
    let place = r.place();
    r.advance();
    Ok(Some(TestAhead::Truth(TruthTest {
        place,
        is_negated,
        asked: TestedValue::Null,
    })))
}

/// Reads a test up to its right side, if one is ahead.
#[tactic(auto, unfolding(crate::specs::Expressions::test_or_none))]
pub fn test_or_none(r: &mut Reader<'_>) -> Result<Option<TestAhead>, ReadError>
    ensures { Takes (λ test. test) grammar.test_or_none r.old result r.new }
{
    match r.item() {
        Some(Item::Keyword(Keyword::Is)) => is_test(r),
        Some(Item::Keyword(Keyword::IsNull)) => null_test(r, false),
        Some(Item::Keyword(Keyword::NotNull)) => null_test(r, true),
        _ => Ok(None),
    }
}

/// The test of a truth value, if there is one.
fn asking(
    alloc: Global,
    place: usize,
    test: Test,
    part: Option<Filter>,
) -> Result<Filter, ReadError>
    ensures { Answers expr_view (spec.truth_asked as_filter place test (option_map expr_view part)) result }
{
    match part {
        Some(filter) => Ok(Filter::Is(test, Box::new(alloc, filter)?)),
        None => Err(ReadError {
            place,
            kind: ErrorKind::TypeClash,
        }),
    }
}

/// IS TRUE, IS FALSE or IS UNKNOWN of an operand.
fn is_truth(alloc: Global, place: usize, test: Test, operand: Operand) -> Result<Filter, ReadError>
    ensures { Answers expr_view (spec.answered as_filter place (Truth test) (operand_view operand)) result }
{
    match operand {
        Operand::Literal(_, Literal::Int(_) | Literal::Text(_)) => Err(ReadError {
            place,
            kind: ErrorKind::LeftOut(Omitted::Constant),
        }),
        operand => asking(alloc, place, test, truth(operand)),
    }
}

/// The test of an operand: IS NULL of a boolean expression is IS UNKNOWN.
fn answered(
    alloc: Global,
    place: usize,
    asked: TestedValue,
    operand: Operand,
) -> Result<Filter, ReadError>
    ensures { Answers expr_view (spec.answered as_filter place asked (operand_view operand)) result }
{
    match (asked, operand) {
        (TestedValue::Null, Operand::Term(term, _)) => Ok(Filter::Atom(Atom::IsNull(
            term.column(),
        ))),
        (TestedValue::Null, operand) => is_truth(alloc, place, Test::Unknown, operand),
        (TestedValue::Truth(test), operand) => is_truth(alloc, place, test, operand),
    }
}

/// NOT of a filter, if it is negated.
pub fn negated_if(alloc: Global, is_negated: bool, filter: Filter) -> Result<Filter, AllocError>
    ensures { IfOk result (λ f. expr_view f ≡ spec.negated_if as_filter is_negated (expr_view filter)) }
{
    if is_negated {
        return Ok(Filter::Not(Box::new(alloc, filter)?));
    }
    Ok(filter)
}

/// The test of a part.
#[tactic(auto, unfolding(crate::specs::Operands::tested))]
pub fn tested_part(alloc: Global, test: TruthTest, part: Part) -> Result<Part, ReadError>
    ensures { Answers part_view (spec.tested as_filter test (part_view part)) result }
{
    let place = part.place;
    let filter = answered(alloc, test.place, test.asked, part.operand)?;
    Ok(Part {
        place,
        operand: Operand::Formula(negated_if(alloc, test.is_negated, filter)?),
    })
}
